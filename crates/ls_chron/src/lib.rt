//! A history that threads share: one writer appends to it, and each reader knows a beginning of it.
//!
//! The entries themselves aren't kept. What is kept is how many there are, in one atomic word; which ones they are is
//! known to contracts alone. So a history takes no memory beyond its start, whatever its length, and a token of it can
//! be handed to another thread as the proof of what was appended.
//!
//! `Chron` is the history. `Writer` is its one writer, whose list is the whole. A `Reader` has a list that is a
//! beginning of it; `note` and `share` make one. `meet` and `whole` compare two tokens, of which neither knew of the
//! other. A `Sign` tells which history it is, where no list is wanted.
//!
//! ```text
//! start              the writer has the empty list
//! append a, b        the numbers 1 and 2; the writer has a b
//! note               a reader that has a b
//! append c           the number 3; the writer has a b c, the reader a b
//! whole              the reader's list was a beginning of the writer's, and is a b c
//! ```
//!
//! Tokens have no bytes but a writer's count, and can be sent to other threads. No call waits, and none but `start`
//! takes memory. Whether and when a thread is told of what another appended is up to who hands it a token.
#![tactic(auto)]

mod chron;
mod cross;
mod steps;
mod view;

pub use chron::{Chron, MOST_ENTRIES, Reader, Sign, Spent, Writer};
pub use view::View;
