//! A soak: a script that is drawn from a number, run in the engine, and what it prints counted.
//!
//! `soak` has the number to start from, the count of steps, and a sink, to which it writes three lines. The script has
//! two sessions with a subscription each to an item of each kind, and then one line for each step: a publish, enqueues,
//! takes, a Clear, a stream that is lost or one that is bound. So a run of many steps meets each part of the engine, and
//! the three lines are the same again for the same start.
//!
//! ```text
//! let end = soak(alloc, SoakOrder { start: 7, steps: 0 }, &mut sink);   // steps 0, lines 6, updates 0
//! ```
//!
//! The script is never whole in memory: each line is drawn, done and counted before the next one. What it says is
//! `script` in specs/Drawing, and no line of it is bad (proofs/GoodLines).
#![tactic(auto)]

mod drawing;
mod soaking;
mod tally;

pub use soaking::{SoakEnd, SoakOrder, soak};
