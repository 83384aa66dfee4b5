//! A client's connection over a WebSocket, from its handshake to its end.
//!
//! [`serve_ws`] serves one: each text message has requests, which are done and answered in order, and a create or a bind
//! that is accepted opens the connection's stream, whose lines are given one by one (TLCP 2.1, WebSocket transport):
//!
//! ```text
//! wsok                            WSOK
//! create_session                  CONOK,S1,50000,5000,*
//! LS_user=u                       SERVNAME,tlcpd  ..
//! ```
//!
//! Requests and lines take turns: while both wait, one message is read, and one line given. Where neither waits, the
//! session's bell wakes the connection, which is called at messages where the talk can have that.
//!
//! [`serve_ws`] sleeps in a thread of its own. A [`Socket`] is the same connection between two turns, none of which
//! sleeps, so one thread can give turns to many:
//!
//! ```text
//! let mut socket = Socket::new(rt, alloc, &shared, talk);
//! match socket.turn(rt, alloc, &shared, &mut clock, &gate, until, &mut into) { .. }
//! let (report, talk) = socket.finish(rt, &shared, now);
//! ```
//!
//! It reads no head and writes no reply to a handshake, and opens no socket of the system.
#![tactic(auto)]

mod answering;
mod cross;
mod message;
mod running;
mod serving;
mod socket;
mod step;

pub use ls_conn::{ConnEnd, ConnReport, MOST_IDLES, Seen, Shared};
pub use ls_line::LineBuf;
pub use serving::serve_ws;
pub use socket::Socket;
pub use step::Step;
