//! The hub: the steps of a script on all items, sessions and connections, one after another.
//!
//! A `Hub` keeps the adapter set's name and the items' definitions (ls_config), the items' cells (ls_cells), the
//! connections, and the sessions (ls_session). `Hub::step` does a step and appends what it prints. It finds items and
//! connections by their numbers, and sessions by theirs. What a step costs grows with nothing that it doesn't touch,
//! but a turn's with its own session's round, and a tick's with the sessions that haven't ended.
//!
//! What is done with one session alone is ls_acts': an operation of a control request, a slot that tells what it has, and
//! the lines that answer requests. The hub finds the session, says where it stands among the others, and prints. A
//! session's turn asks what a slot has to tell. Of a slot whose frequency or whose session's bandwidth doesn't allow an
//! update yet only whether something is pending is told. Behind a slot that has nothing or waits the hub passes over
//! those of which the cells say so, and a turn begins behind the first slots that the session knows to wait. The tick is
//! the last one of the script, in ms.
//!
//! ```text
//! take c 9
//!   Session::turn    Ask: what has this slot, which is due?
//!   AllItems::look      its next cut
//!   Session::answer  the cut's line is numbered, or it makes none
//!   AllItems::pass      the slot is past the cut
//!   Session::turn    Send: the line
//!   Session::turn    Ask: does this slot wait, which isn't due?
//!   AllItems::pending   something is pending
//!   Session::hold_next  it waits
//!   Session::turn    NotDue: nothing before this tick
//! ```
#![tactic(auto)]

mod binding;
mod controlling;
mod creating;
mod events;
mod hub;
mod printing;
mod requests;
mod ticking;
mod turning;

pub use hub::{Connection, Hub};
