//! The tests of servers over memory: their words, configs and faults, visitors that are served at once, in threads, or
//! not at all, and sessions that end without a stream.
//!
//! They stand apart from what they test, since a crate with tests is proved twice.
#![tactic(auto)]

#[cfg(test)]
mod ends;
#[cfg(test)]
mod listener;
#[cfg(test)]
mod lobby;
#[cfg(test)]
mod pairs;
#[cfg(test)]
mod running;
#[cfg(test)]
mod talk;
#[cfg(test)]
mod threads;
#[cfg(test)]
mod visitors;
