//! The real outside of a server: sockets and the system's clock.
//!
//! `TcpPipe` is a connection, `TcpDoor` listens on two ports, and `SysClock` tells the system's time. Each meets its trait
//! of ls_outside, ls_wake or ls_door, in a few lines over the kit's sockets and clock. What the system does is trusted: a
//! socket tells nothing of its bytes, and no contract speaks of time.
//!
//! A `Watcher` is one thread that waits for the bytes of all clients at once, and calls the bell that a connection named,
//! so that a thread which waits for both a bell and bytes need not look at its socket again and again.
//!
//! ```text
//! let watcher = Watcher::start(&rt, alloc);
//! let mut door = TcpDoor::new(rt, sockets);        // of the watcher, or None
//! if let Heard::Ready { port, feed } = door.listen(8080, 8081) { .. door.accept() .. }
//! watcher.settle(&rt);
//! ```
//!
//! Of what is read it keeps no bytes between a call and the next, and of what is written only where a write isn't to wait
//! for room. It knows no protocol above TCP.
#![tactic(auto)]

mod backlog;
mod clock;
mod cross;
mod door;
mod pipe;
mod watcher;

pub use clock::SysClock;
pub use door::TcpDoor;
pub use pipe::{BYTE_MS, ROOM_MS, TcpPipe};
pub use watcher::{WatchedSockets, Watcher};
