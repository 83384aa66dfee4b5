//! The steps by which a subscription is added to a session in parts: its slots join their items one after another (TLCP 2.1,
//! control with LS_op add).
//!
//! What an add needs is prepared first, then each slot of its plan joins its item, and then the subscription begins:
//!
//! ```text
//! let Prepared { plan, schema, slots } = prepare_in(&mut parts, &add, &config, free, spent)?;
//! while let Some(number) = item_at(&plan.items, seats.len()) {
//!     join_next(&mut parts, &plan, &mut seats, &mut numbers, &register, item(number), &mut book)?;
//! }
//! finish_in(&mut parts, plan, schema, slots, seats, &numbers, now);
//! ```
//!
//! No lock is taken, and there are no threads: the caller holds the items.
#![tactic(auto)]

mod joining;

pub use joining::{Prepared, finish_in, item_at, join_next, prepare_in};
pub use ls_parts::{History, Left, SessionParts, Sight, SightStart, SubSeats, copies, is_past};
