//! A session's history: what is told of it, entry after entry (this project's profile).
//!
//! A [`History`] stands on a table that readers follow without a lock: each of its entries is a [`Told`](ls_register::Told),
//! and what the entries say so far is counted, so that no call goes through them:
//!
//! ```text
//! let mut history = History::start(alloc)?;
//! history.tell(&Told::Rate { rate: None, tick: now });
//! history.tell_given(epoch, b"PROBE", history.tick(now));
//! history.show(&mut reader);                       // the reader has both entries
//! ```
//!
//! Room for the text of an entry is kept, so that appending takes no memory. It takes no lock and has no threads.
#![tactic(auto)]

mod history;

pub use history::{CutOf, History, is_past, no_cut};
