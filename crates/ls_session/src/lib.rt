//! A session of any number of subscriptions: which line it gives next, and when, and what requests do to it (TLCP 2.1,
//! streams, notifications and requests; General Concepts, frequency and bandwidth).
//!
//! A `Session` keeps the lines of its streams (ls_stream), its subscriptions (ls_subs), the round of their slots
//! (ls_turns), and its bandwidth (ls_budget). It holds no items. `turn` gives at a tick, on the stream of an epoch, an
//! owed line, else the next unsent line; where there is neither it gives an [`Ask`], what a slot of the round has to
//! tell. Of a slot that is due the owner of the items looks at the next cut, and of another one only whether something
//! is pending. `answer` makes the line of a cut and numbers it, and the next turn gives it:
//!
//! ```text
//! turn(0, 1)    Ask(slot, due)         answer(ask, Reply::Taken(cut))    true: a line was numbered
//! turn(0, 1)    Send                   current()                         U,1,1,3.04|20:00:33
//! turn(0, 1)    Ask(slot, not due)     answer(ask, Reply::Waiting)       false
//! turn(0, 1)    NotDue { at: 500 }
//! turn(500, 1)  Ask(slot, due)         answer(ask, Reply::Nothing)       false
//! turn(500, 1)  Idle
//! ```
//!
//! Each question takes the same time, however many slots there are. Who knows that nothing is pending of the slot that
//! is asked next (`next_slot`) passes over it without a question (`skip`), and who knows that something is, without an
//! answer where the slot isn't due (`hold_next`). The first slots of the round that wait for their frequency are
//! remembered, so that a turn may begin behind them (`pass_front`). `prepare_add` and `finish_add` add a
//! subscription around the joining of its slots, `reconf` gives it another frequency, `delete` ends it, `constrain`
//! gives the session another bandwidth, and `finish` ends it. `bind` begins a new stream of the next epoch, also where
//! a client lost the last one and goes on behind the lines that it has; `lose` leaves the session without a stream, and
//! `force_rebind` has the stream end by LOOP.
#![tactic(auto)]

mod answering;
mod asking;
mod binding;
mod budgets;
mod refusals;
mod requests;
mod session;
mod telling;
mod turning;
mod walks;

pub use ls_stream::{DESTROYED, TIMED_OUT};
pub use session::{Ask, Lost, Reply, Session, Turn};
