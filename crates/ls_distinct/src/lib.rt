//! The buffer of a slot in mode DISTINCT (General Concepts, mode DISTINCT, buffers and snapshots).
//!
//! [`DistinctBuffer`] keeps the rows of the snapshot that are owed and its end, the last Clear, and the own rows of
//! the last updates since then, as many as its size. It is a [`ls_event::Buffer`]: `DistinctBuffer::new` where the
//! slot joins, with the item's snapshot or without one, then `enqueue` for each event, and `look` and `pass`, or
//! [`ls_event::take_one`], for each cut. The definitions (specs/) say what it holds, the exact step of each call, and
//! for which slots it stands; it knows no history and no line.
#![tactic(auto)]

mod as_buffer;
mod distinct;

pub use distinct::DistinctBuffer;
