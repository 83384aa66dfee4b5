//! What a caller has seen of a session, and watches of several items (this project's profile).
//!
//! A [`Sight`] is a beginning of a session's history and of those of the session's items, with the places in it of the lines
//! that were given to this caller. Its type keeps that it is lawful, and that it is of the session that its place in the
//! register shows. It sees more by the session's history and watches:
//!
//! ```text
//! let mut sight = Sight::begin(number, &mut history, place, start, watches, bell);
//! sight.show(&register, &mut watches, &mut history);   // it has all of the history, and both have seen the same
//! sight.meet(&register, &mut pass);                    // and what a publisher's pass has of its item
//! ```
//!
//! Watches of several items are asked for one by the item's number: [`find_watch`], [`count_of`]. No lock is taken, and there
//! are no threads.
#![tactic(auto)]

mod cross;
mod sight;
mod watches;

pub use ls_history::{CutOf, History, is_past, no_cut};
pub use sight::{Sight, SightStart};
pub use watches::{copies, count_of, find_watch, fits};
