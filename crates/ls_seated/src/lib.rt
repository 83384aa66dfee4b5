//! Items whose slots belong to sessions: what the item keeps of a slot under its lock, and what the session under its
//! own.
//!
//! A slot has two sides, tied by [`ls_pair`]: a [`Seat`] is the session's, and [`Seated`] is an item that keeps the other
//! side of each of its slots. Each side keeps how the slot joined and the cuts that it passed, so either one says by
//! itself which record the slot has (`specs/Seats.antt`). A turn on a slot takes three steps on its item:
//!
//! ```text
//! let mut seat = item.join(alloc, register, &mut book, mode, size, snapshot, &mut watch, sub, rank, bell)?;
//! item.catch_up(&mut seat, &mut watch)?;       // the slot has all events, and the watch has seen them
//! let cut = item.look(&seat)?;                 // the next cut of the slot's record
//! item.pass(&mut seat);                        // both sides passed it
//! ```
//!
//! A [`Watch`] is what was seen of an item, apart from its lock. Whether a seat or a watch is of an item is asked by
//! places in the register ([`Seated::is_at`], [`Seated::is_watch`]). It takes no lock; no contract speaks of bells.
#![tactic(auto)]

mod cross;
mod joining;
mod planned;
mod seat;
mod seated;
mod sides;
mod turns;

pub use ls_live::{CopiedEntry, LiveItem, PubPass, PublishRefused, Watch};
pub use planned::{JoinRefused, Planned};
pub use seat::Seat;
pub use seated::Seated;
