//! Threads that each serve many WebSocket connections.
//!
//! Most connections have nothing to do most of the time. So [`Workers`] gives each connection whose stream goes on to one
//! of a few workers, by its session, and one thread serves all connections of a worker by turns, none of which sleeps:
//!
//! ```text
//! workers.serve(&rt, &shared, &mut clock, &OpenGate, until, socket);    // in a thread that the socket came in
//! ```
//!
//! The first thread that comes to a worker with nobody at it stays, until its connections are gone. The bells of all its
//! sessions are tied to one, for which it waits.
//!
//! A worker waits for nobody's room. Where a peer doesn't take what it is told, the worker looks again after a while whether
//! it does, and meanwhile its stream waits: what is published is merged, queued or counted as lost for it, as its mode says.
//!
//! Some connections can't stay with a worker: one whose stream is of another worker's session now, and one that has ended,
//! whose peer may keep who closes it waiting. They leave it, and whoever starts threads takes them with
//! [`Workers::next_leaver`] and gives each to a thread of its own, which calls `serve` again.
//!
//! It starts no thread, opens no socket, and knows no protocol.
#![tactic(auto)]

mod cross;
mod seats;
mod workers;

pub use ls_conn_ws::{LineBuf, Shared, Socket, Step};
pub use workers::{WORKERS, Workers};
