//! The state of an item: what its events add up to, by its kind.
//!
//! [`ItemState`] is the state of an item of any kind, and stands on one of three: [`MergeState`] keeps the merged row,
//! [`DistinctState`] the own rows of the last updates, [`CommandState`] a row for each key, in the order of the keys'
//! bytes. `check` answers the first cause that stands against an event, and takes no memory. `add` adds an event
//! against which nothing stands, and fails for want of memory alone; in kind COMMAND it answers the row that the
//! event's key then has. `push` is the two after one another, and `snapshot` copies the state for a slot that joins:
//!
//! ```text
//! let mut state = ItemState::new(alloc, &item)?;
//! state.check(&event)?;
//! let row = state.add(&event)?;
//! ```
//!
//! Events have no numbers here, and nothing is known of adapters and slots.
#![tactic(auto)]

mod command;
mod distinct;
mod item;
mod keys;
mod merge;
mod rows;
mod weights;

pub use command::CommandState;
pub use distinct::DistinctState;
pub use item::{ItemState, a_state_grows_with_its_history};
pub use ls_event::{PushRefused, Snapshot};
pub use merge::MergeState;
