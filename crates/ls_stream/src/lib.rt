//! The lines of a session's streams: which one is given next, and what a new stream and the loss of one do to them
//! (TLCP 2.1, streams and recovery).
//!
//! A session has streams, one after another, each of its epoch. `Lines` keeps the lines that are owed to the newest
//! one, the numbered lines (ls_keep), how much may still be given on it, and whether it is bound. It knows neither
//! slots nor items. `turn` gives the next line on the stream of an epoch, and else says why there is none:
//!
//! ```text
//! turn(0, 1)    Line                current()                      a line that is owed, else the next numbered one
//! turn(0, 1)    Nothing                                            nothing waits: a slot may be asked
//! turn(0, 1)    Line                current()                      LOOP,0: the content length is reached
//! turn(0, 1)    Unbound                                            no stream is bound
//! bind                                                             CONOK, SERVNAME and CONS are owed to stream 2
//! turn(0, 1)    Superseded { epoch: 2 }
//! turn(0, 2)    Line                current()                      CONOK
//! ```
//!
//! `number` numbers a line, `owe` adds one that isn't numbered, `unbind` leaves the session without a stream, `force`
//! has the stream be over, and `end` ends the session. Only `new`, `bind`, `reserve`, `blank` and `owe` take memory.
#![tactic(auto)]

mod binding;
mod ending;
mod law;
mod lines;
mod opening;
mod stream;
mod turning;

pub use law::a_turn_gives_first_what_waits;
pub use lines::{DESTROYED, Life, Lines, StreamTurn, TIMED_OUT};
pub use opening::bandwidth_text;
