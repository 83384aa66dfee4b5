//! The buffer of a slot in mode RAW (General Concepts, mode RAW and buffers).
//!
//! [`RawBuffer`] keeps the own rows of the last [`ls_event::RAW_KEEPS`] updates that were enqueued and that no cut
//! took, and counts those before them, which are lost. It is a [`ls_event::Buffer`]: `RawBuffer::new(alloc, base)`
//! where the slot joins, then `enqueue` for each event, and `look` and `pass`, or [`ls_event::take_one`], for each
//! cut. A Clear makes no cut. The definitions (specs/) say what it holds, the exact step of each call, and for which
//! slots it stands; it knows no history and no line.
#![tactic(auto)]

mod as_buffer;
mod raw;

pub use raw::RawBuffer;
