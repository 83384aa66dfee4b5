//! The items and the sessions of a server, which threads use at the same time.
//!
//! `Shared` has each item behind a lock of its own, so that offers to two items don't wait for one another. A publisher
//! asks for a `PubPass` of an item, once for its adapter; each `offer` with it adds an event to the item's history, and
//! answers the event's number. The pass then has the history up to that event: it is the proof that the event stands
//! there once, whatever other publishers added before it.
//!
//! Each session stands behind a lock of its own too. `create` opens one, and `testify` finds one that lives. Both answer
//! a `Testimony`: what a caller has seen of the session, and of the items of its subscriptions. The other calls on a
//! session take its testimony, and the caller has then seen more:
//!
//! - `control` does an operation: it adds or ends a subscription, sets a limit, asks for another stream, or ends the
//!   session;
//! - `bind` gives the session a new stream, and `lose` says that its stream is gone;
//! - `take` gives the next line of a stream, where there is one.
//!
//! What a call answers is true of the testimony as it is then. A testimony is lawful: what a client decodes from its
//! lines is true of the items' histories. `sweep` ends the sessions that were without a stream for too long.
//!
//! ```text
//! let shared = Shared::<N>::new(alloc, blank, config)?;
//! let mut pass = shared.pass(rt, 0, 1);                          // item 0, adapter 1
//! let number = shared.offer(rt, &mut pass, 1, event, &OpenGate)?;
//!
//! let mut view = shared.view(rt);
//! let Opened { session, epoch, mut seen } = shared.create(rt, &create, now, &mut view)?;
//! shared.control(rt, session, &Op::Add(add), now, &mut seen)?;   // its slots join their items
//! let turn = shared.take(rt, session, epoch, now, &mut seen, &mut line, &OpenGate)?;
//! shared.sweep(rt, now)?;                                        // now and then
//! ```
//!
//! What belongs to one server carries one name `N`, by which contracts know its register, its adapter set and its items:
//! so `new` is called in a function that is generic in `N`, and its caller passes `Brand`. `view` shows the register.
//!
//! `new`, `config` and `meet` take no lock, and the other calls may wait for one. Nothing is promised of how long, nor of
//! the order in which callers get it.
#![tactic(auto)]

mod adding;
mod binding;
mod controlling;
mod creating;
mod cross;
mod ending;
mod shared;
mod taking;
mod testimony;

pub use ls_event::PublishRefused;
pub use ls_live::{LiveItem, PubPass, publish_into};
pub use ls_register::{Blank, House, Made, View, one_table};
pub use ls_session::{Lost, Turn};
pub use ls_subs::Refusal;
pub use shared::Shared;
pub use testimony::{Opened, Testimony};
