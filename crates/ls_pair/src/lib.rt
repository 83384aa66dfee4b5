//! A tie of two lists that are always equal, one on the side of an item and one on the side of a session.
//!
//! What an item keeps of a slot stands behind the item's lock, and the row that the slot's client has behind the
//! session's. Neither knows the other. Each has a side of one tie, with the list of the cuts that were passed. By
//! `pass` both lists grow by one cut at once, so whoever holds both sides knows by `agree` that they are equal.
//!
//! `Tie` is the tie. `ItemSide` and `SessionSide` are its sides. A `Sign` tells which tie it is, where no list is
//! wanted.
//!
//! ```text
//! start         both sides have the empty list
//! pass 1        both have 1
//! agree         the two lists are equal
//! ```
//!
//! The lists exist in contracts alone: a side has no bytes, and only `start` takes memory, some for one atomic word.
//! Sides can be sent to other threads. No call waits.
#![tactic(auto)]

mod cross;
mod side;
mod steps;
mod tie;

pub use side::{Role, Side};
pub use tie::{ItemSide, SessionSide, Sign, Tie};
