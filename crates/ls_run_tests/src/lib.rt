//! The tests of runs: scripts over memory, worked ones, those of the greatest sizes, and those whose reads or writes
//! fail; the calls of sessions, made by hand as another front end makes them; and scripts of streams that are lost and
//! bound anew, drawn always alike, whose runs are compared with a plain program (`plain`), which does what a step asks
//! with no thought of time or room.
//!
//! They stand apart from what they test, since a crate with tests is proved twice.
#![tactic(auto)]

#[cfg(test)]
mod budgets;
#[cfg(test)]
mod by_hand;
#[cfg(test)]
mod codes;
#[cfg(test)]
mod drawn;
#[cfg(test)]
mod edges;
#[cfg(test)]
mod longest;
#[cfg(test)]
mod plain;
#[cfg(test)]
mod recovery;
#[cfg(test)]
mod runs;
#[cfg(test)]
mod streams;
#[cfg(test)]
mod worked;
