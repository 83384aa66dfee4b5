//! Items with publishers, by whole histories.
//!
//! A [`LiveItem`] is an [`ItemCell`](ls_cell::ItemCell) with the writer of its item's history: its type keeps that the
//! cell stands for that history, and that the history's texts are UTF-8, so both hold each time that a lock of it is
//! taken. A [`PubPass`] is what one adapter has seen of one item, and the leave to publish on it. [`publish_into`] adds
//! an event by both:
//!
//! ```text
//! let mut item = LiveItem::<N>::new(alloc, &def)?;      // its history is empty
//! let mut pass = item.pass(1);                          // the pass of adapter 1, which has seen that
//! publish_into(&mut item, &mut pass, 7, event)?;        // 1: both have the event, with seq 7
//! publish_into(&mut item, &mut pass, 7, event)          // Repeated { last: 7 }
//! ```
//!
//! [`publish_copied`] does the same with a [`CopiedEntry`] that was made before, so that nothing is copied while a lock
//! is held. An item with a place in a register ([`LiveItem::at`]) knows the passes that are its own by their places
//! ([`LiveItem::is_of`]).
//!
//! No slot keeps an event back: one that lags by as much as it may is caught up ([`weigh`]). Slots join and leave, and
//! are asked for their cuts, as those of the cell. A [`Watch`] is what was seen of an item apart from its lock; it meets
//! passes and other watches. It takes no lock and tells no session.
#![tactic(auto)]

mod copied;
mod cross;
mod live;
mod shape;
mod slots;
mod watch;
mod weighing;

pub use copied::{CopiedEntry, copied_entry};
pub use live::{LiveItem, PubPass, publish_copied, publish_into};
pub use ls_cell::Joined;
pub use ls_event::PublishRefused;
pub use watch::Watch;
pub use weighing::weigh;
