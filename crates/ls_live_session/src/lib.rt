//! Sessions in threads: a session with its history, what it has seen of its items, and its seats on them.
//!
//! A [`LiveSession`] is what stands behind a session's lock: its type keeps that the session stands for a record of which
//! its history tells, that the record is lawful on what was seen of the items, and that each slot of the record has a
//! seat. A [`Sight`](ls_joining::Sight) is what a caller has seen of a session: a beginning of its history and of those of its
//! items, which is lawful too. By [`LiveSession::show`] it sees all that the session has:
//!
//! ```text
//! let mut live = LiveSession::<N>::open(alloc, 1, &create, now, bell)?.at(place);
//! let mut sight = live.tell(alloc, &register)?;
//! live.bind(&bind, now)?;                          // the history has a Bound more
//! live.show(&register, &mut sight);                // the sight has it too
//! ```
//!
//! While a session's turns are taken, it stands in parts ([`SessionParts`](ls_joining::SessionParts)): each turn says what it
//! makes of whichever record the parts stand for. It takes no lock and has no threads; no contract speaks of bells.
#![tactic(auto)]

mod adding;
mod binding;
mod cross;
mod live;
mod requests;
mod showing;

pub use adding::{Adding, NotAdded, Undone};
pub use live::LiveSession;
pub use ls_joining::{Left, SessionParts, Sight, SightStart, SubSeats};
