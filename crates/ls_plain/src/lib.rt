//! Cuts and states, computed plainly from whole histories: they are slow, and tests compare the buffers with them.
//!
//! For each mode there is a call that answers the next cut of a slot by its numbers, as [`plain_merge_cut`] of a
//! [`MergeSlot`], and for the kinds the state after so many entries: [`merged_row`], [`plain_recent_rows`] and
//! [`plain_keyed`]. Each equals the definition of ls_event and follows it step by step, so it shows to a reader and to
//! a test what the definition gives. Nothing here is kept from call to call, and the program doesn't stand on it.
#![tactic(auto)]

mod command;
mod distinct;
mod fitting;
mod keyed;
mod merge;
mod raw;
mod updates;

pub use command::{CommandSlot, KeyTurn, plain_command_cut, plain_command_queue};
pub use distinct::{DistinctSlot, plain_distinct_cut, plain_recent_rows};
pub use fitting::{all_fit, fits};
pub use keyed::{CommandShape, plain_keyed, row_of, text_at};
pub use merge::{MergeSlot, merged_row, plain_merge_cut};
pub use raw::plain_raw_cut;
pub use updates::{clear_or, last_clear, own_rows};
