//! What is done with one session, whoever runs it: an operation of a control request, the lines that answer requests,
//! and what a slot tells that the session asks (TLCP 2.1, control and notifications).
//!
//! A session (ls_session) holds no items. [`ItemSlots`] is what is taken of the items that its slots are on: how many
//! slots are free, that a slot joins an item or leaves it, its next cut, and whether something of it is pending.
//! `AllItems` of ls_cells has it.
//!
//! - [`act`] does an operation on a session, or answers the code that it is refused for. The slots of a new subscription
//!   join its items one after another, and leave again where one can't. [`end`] ends a session.
//! - [`answer`], [`malformed`] and [`session_refused`] make the lines REQOK, REQERR, ERROR and CONERR, with the message of
//!   the code.
//! - [`tell`] answers one question of a session's turn, and moves the slot past the cut that was told.
//!
//! The contracts speak of a session's record, of items with their histories, and of the slots on them. They know no
//! connection and no script, and of other sessions the slots alone.
#![tactic(auto)]

mod acting;
mod all_items;
mod answers;
mod joining;
mod slots;
mod telling;

pub use acting::{act, end};
pub use answers::{MALFORMED, UNKNOWN_SESSION, answer, malformed, session_refused};
pub use slots::ItemSlots;
pub use telling::{Found, tell};
