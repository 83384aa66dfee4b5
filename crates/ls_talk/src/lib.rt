//! What goes over a connection by lines and messages: the traits, and objects in memory.
//!
//! Lines are put to a `LineOut`, one at a time. A `Talk` is one over which messages come too, as over a WebSocket; a
//! `Wire` is one that a stream goes over. Each counts its faults and the like. A count never falls, rises by one with
//! its own answer alone, and at its type's last value stands still.
//!
//! `MemLines` and `MemTalk` are in memory, and their calls go by lists, for tests; `PlainLines` and `PlainTalk` never
//! fail. Objects in memory tell what went out and what happened. A socket tells nothing, and then nothing is claimed of
//! it.
//!
//! ```text
//! let mut talk = MemTalk::new(alloc, messages, reads, puts);
//! ```
//!
//! It opens no socket. What a message asks for, and which line comes next, is for the crates above.
#![tactic(auto)]

mod calls;
mod line_out;
mod mem_lines;
mod mem_talk;
mod talk;
mod wire;

pub use line_out::{LineOut, PutRefused};
pub use mem_lines::{MemLines, PlainLines};
pub use mem_talk::{MemTalk, Message, PlainTalk};
pub use talk::{Happening, Incoming, LONGEST_MESSAGE, Talk};
pub use wire::{Between, Wire};
