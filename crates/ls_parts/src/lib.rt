//! A session in parts, while its turns are taken and requests change it (TLCP 2.1, session life and control).
//!
//! [`SessionParts`] are what is kept of a session: what it gives next, its history, its watches of items and its seats on
//! them. Each call says what it makes of whichever record the parts stand for, so that several calls may follow one
//! another before the session goes back behind its lock:
//!
//! ```text
//! match parts.give(epoch, now, &mut line) {
//!     Turn::Send => write(&line),
//!     Turn::Ask(ask) => parts.take_from(&mut item, ask, parts.find(&register, &mut item, ask.slot)?, now)?,
//!     ..
//! }
//! parts.bind(&bind, now)?;                         // the history has a Bound more
//! ```
//!
//! It takes no lock and has no threads; no contract speaks of bells.
#![tactic(auto)]

mod binding;
mod cross;
mod giving;
mod parts;
mod requests;
mod showing;
mod taking;

pub use ls_taking::{
    History, Sight, SightStart, SubSeats, copies, find_watch, fits, is_past, no_cut,
};
pub use parts::{Left, SessionParts};
