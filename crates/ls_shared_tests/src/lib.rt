//! The tests of sessions that threads share: what no contract says of the calls of `ls_shared`.
//!
//! `rows` has worked examples as tables of calls and answers, which `World` reads. `idle` holds an item's lock while a
//! quiet session has its turn. Each test ends by itself, whatever the order in which threads go on.
#![tactic(auto)]

#[cfg(test)]
mod idle;
#[cfg(test)]
mod rows;
#[cfg(test)]
mod world;
