//! The upgrade of a connection over HTTP to a WebSocket (RFC 6455, section 4.2.2).
//!
//! [`accept`] answers a handshake that was accepted, by its key. [`upgrade`] does so, and serves the WebSocket to its
//! end:
//!
//! ```text
//! HTTP/1.1 101 Switching Protocols
//! Sec-WebSocket-Accept: s3pPLMBiTxaQ9kYGzzhZRbK+xOo=  ..
//! ```
//!
//! It reads no head: whoever read it hands the key over, and the bytes that were read past the head.
#![tactic(auto)]

mod lent;
mod upgrading;

pub use ls_conn_ws::serve_ws;
pub use ls_ws::WsWire;
pub use upgrading::{accept, upgrade};
