//! Who comes in, and who works for them.
//!
//! A `Door` listens on two ports, one for clients and one for feeds, and hands over a `Pipe` for each visitor. It counts
//! its faults and its idle calls as the traits of ls_outside do. `MemDoor` is in memory, and its calls go by lists;
//! `PlainDoor` never fails and always has a visitor. A real door is made elsewhere.
//!
//! A `Spawner` starts jobs: each in a thread of its own, or at once in the caller's, or by a list that refuses some. A
//! job that is refused comes back.
//!
//! ```text
//! let mut spawner = Spawner::threads(alloc, STACK_BYTES);
//! if let Err(visit) = spawner.start(rt, visit, move |visit| serve(rt, visit)) { .. }
//! spawner.settle(&rt);
//! ```
//!
//! A `Bell` wakes threads that wait for something to do. A `Duct` is an end of a pipe between threads, for tests.
//!
//! It opens no socket, and bounds neither how many jobs run nor how long one runs.
#![tactic(auto)]

mod cross;
mod door;
mod duct;
mod mem_door;
mod spawner;

pub use door::{Door, Heard, Visit};
pub use duct::Duct;
pub use ls_bell::Bell;
pub use mem_door::{MemDoor, PlainDoor};
pub use spawner::{STACK_BYTES, Spawner, Way};
