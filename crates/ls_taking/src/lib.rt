//! What a slot of a session tells is taken from its item, by its seat there (TLCP 2.1, notifications; this project's profile).
//!
//! [`SubSeats`] are the seats of a subscription, in the order of its items. A slot that is asked is found by its item
//! ([`find_in`]), gets every event of the item ([`catch_up_in`]), and then its next cut is looked at and passed:
//!
//! ```text
//! let found = find_in(&mut watches, &mut subs, &register, &mut item, slot)?;
//! catch_up_in(&mut watches, &mut subs, &mut item, slot, found)?;
//! if let Some(cut) = subs[found.seats].look(&item, slot.place)? {
//!     let cursor = subs[found.seats].cursor_after(slot.place, &cut);
//!     subs[found.seats].pass(&mut item, slot.place, cursor);
//! }
//! ```
//!
//! Its definitions say when what is kept of a session is right: it stands for a record of which its history tells, and each
//! slot of the record has a seat (`Lives`). No lock is taken, and there are no threads.
#![tactic(auto)]

mod finding;
mod seats;

pub use finding::{Found, catch_up_in, find_in, last_place};
pub use ls_sight::{
    CutOf, History, Sight, SightStart, copies, count_of, find_watch, fits, is_past, no_cut,
};
pub use seats::SubSeats;
