//! The buffer of a slot in mode COMMAND (General Concepts, mode COMMAND).
//!
//! [`CommandBuffer`] keeps a queue of keys, each once with its row at the last number: those of the snapshot that are
//! owed, and those that were touched since their last turns; beside it the snapshot's end and the last Clear. It is a
//! [`ls_event::Buffer`]: `CommandBuffer::new` where the slot joins, with the item's snapshot or without one, then
//! `enqueue` for each event that it `admits`, and `look` and `pass`, or [`ls_event::take_one`], for each cut. The
//! definitions (specs/) say what it holds, the exact step of each call, and for which slots it stands; it knows no
//! history, no line and no command's word.
#![tactic(auto)]

mod as_buffer;
mod command;
mod kept;
mod key_text;
mod linked;
mod queue;

pub use command::CommandBuffer;
