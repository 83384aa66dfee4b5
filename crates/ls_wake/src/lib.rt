//! What can wake a thread that waits for bytes of its peer.
//!
//! A thread that serves a connection waits for two things: for something to tell the peer, and for what the peer asks.
//! A `Bell` rings for the first. `Wakes` is of a connection that lets the same bell ring for the second, so that the
//! thread need not look at its socket every few ms:
//!
//! ```text
//! let wakes = conn.wake_with(&bell);
//! let seen = bell.rings();
//! // .. reads until it is NotYet ..
//! bell.wait(rt, seen, if wakes { 1_000 } else { 10 });
//! ```
//!
//! A thread that serves many connections must not wait for the room of one. So it asks that writes don't, and looks after
//! each whether the connection is behind:
//!
//! ```text
//! conn.wait_for_room(alloc, false);
//! // .. writes ..
//! if conn.is_behind() { /* serves others, and tries conn.catch_up() after a while */ }
//! ```
//!
//! Pipes and talks in memory never call a bell, and keep nothing: their own calls go by lists. No contract speaks of time,
//! nor of whether a bell rings.
#![tactic(auto)]

mod in_memory;
mod wakes;

pub use wakes::Wakes;
