//! An item with its slots.
//!
//! [`ItemCell`] keeps an item's number of events, its state, the last [`MOST_LAG`](ls_event::MOST_LAG) events, each
//! adapter's last seq, and the slots by number. A feed publishes on it, and a session joins a slot, enqueues into it,
//! and takes its cuts:
//!
//! ```text
//! let mut cell = ItemCell::new(alloc, &item)?;
//! let Joined { slot, .. } = cell.join(Mode::Merge, 1, Snap::All)?;
//! let number = cell.publish(adapter, seq, event)?;
//! cell.catch_up(slot)?;
//! while let Some(taken) = cell.look(slot)? {
//!     cell.pass(slot);
//! }
//! ```
//!
//! An event moves into the last events without a copy; each slot copies what its mode keeps of it. [`AnyBuffer`] is a
//! slot's buffer, one of the four modes'.
//!
//! Each call's contract is said of the item's whole history and of the slots' records (`StandsCell`), of which a cell
//! keeps only that much. It knows no schema and makes no line, and asks no slot by itself.
#![tactic(auto)]

mod any;
mod cell;
mod joining;
mod slots;

pub use any::AnyBuffer;
pub use cell::{Enqueued, ItemCell, Joined};
pub use ls_event::PublishRefused;
