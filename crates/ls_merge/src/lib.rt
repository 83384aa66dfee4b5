//! The buffer of a slot in mode MERGE (General Concepts, mode MERGE and buffers).
//!
//! [`MergeBuffer`] keeps the item's merged state at one of its numbers, which fields the next line tells, and what
//! each later event says, as many as its size. It is a [`ls_event::Buffer`]: `MergeBuffer::new` with the state at
//! which the slot joins, then `enqueue` for each event, and `look` and `pass`, or [`ls_event::take_one`], for each
//! cut. An update's texts are copied once as it is enqueued, and those that a cut tells once more. The definitions
//! (specs/) say what it holds, the exact step of each call, and for which slots it stands; it knows no history and no
//! line.
#![tactic(auto)]

mod as_buffer;
mod cells;
mod merge;
mod runs;

pub use merge::MergeBuffer;
