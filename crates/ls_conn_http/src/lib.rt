//! A client's connection over HTTP, from its first byte to its end.
//!
//! One request is served on a connection: its head is read, then its body, and its answer is written, or its stream
//! until that ends. A head that is refused is answered with its status. After the head of a handshake the connection is a
//! WebSocket: [`serve_one`] serves it to its end, and [`serve_first`] gives it back once the handshake is answered.
//!
//! ```text
//! let report = serve_one(&rt, alloc, &mut conn, &shared, &mut clock, &OpenGate, u64::MAX);
//!
//! if let First::Socket { rest } = serve_first(&rt, alloc, &mut conn, &shared, &mut clock, &OpenGate, u64::MAX) {
//!     let talk = WsWire::over_after(alloc, conn, rest);
//! }
//! ```
//!
//! It opens no connection and starts no thread: whoever serves several clients calls it once for each.
#![tactic(auto)]

mod bodies;
mod cross;
mod intake;
mod opening;
mod replying;
mod serving;

pub use ls_conn::{ConnEnd, ConnReport, MOST_IDLES, Shared};
pub use ls_upgrade::WsWire;
pub use serving::{First, serve_first, serve_one};
