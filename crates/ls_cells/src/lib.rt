//! All items of a server, with the slots of all sessions (General Concepts, items).
//!
//! [`AllItems`] keeps an [`ItemCell`](ls_cell::ItemCell) for each declared item, found by the item's number from 0 on, and
//! counts the live slots of them all. A feed publishes on an item; a session joins a slot, enqueues into it, looks at
//! its next cut, and passes it:
//!
//! ```text
//! let mut cells = AllItems::new(alloc);
//! cells.declare(&definition)?;
//! let slot = cells.join(0, Mode::Merge, 1, Snap::All)?;
//! let number = cells.publish(0, adapter, seq, event)?;
//! ```
//!
//! Of a slot that was passed and has nothing pending it is remembered that it is settled (`is_settled`), so that a turn
//! which goes over many slots need not look at each.
//!
//! Each call's contract is said of all items with their histories and of the slots of all sessions, in whatever order
//! these come (`StandsCells`). It knows no session and no subscription.
#![tactic(auto)]

mod cells;
mod marks;

pub use cells::AllItems;
