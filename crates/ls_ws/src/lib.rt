//! WebSocket connections (RFC 6455), over any pipe, after the crate `tungstenite`.
//!
//! `accept_text` gives the value by which a server accepts a handshake:
//!
//! ```text
//! Sec-WebSocket-Key: dGhlIHNhbXBsZSBub25jZQ==
//! Sec-WebSocket-Accept: s3pPLMBiTxaQ9kYGzzhZRbK+xOo=
//! ```
//!
//! After the handshake a `WsWire` is the connection as a `Talk`: lines go out over it, each as a text message of its
//! own, and messages come.
//!
//! ```text
//! let mut wire = WsWire::over_after(alloc, conn, rest);
//! if let Incoming::Text(request) = wire.message() { .. wire.put(b"REQOK,1")? .. }
//! wire.let_go();
//! ```
//!
//! It reads no head and writes no reply to a handshake (`ls_http` does), opens no socket, and knows no request. Frames,
//! masks, fragments, and the answers to pings and closes are `tungstenite`'s.
#![tactic(auto)]

mod accept;
mod socket;
mod stream;
mod ws_wire;

pub use accept::accept_text;
pub use ws_wire::WsWire;
