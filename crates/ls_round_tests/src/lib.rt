//! The test of publishers and takers in threads: what clients decode is compared with what was published.
//!
//! `rounds` has the threads, and `taker` a client whose streams are lost and bound at random. The test ends by itself,
//! whatever the order in which threads go on.
#![tactic(auto)]

#[cfg(test)]
mod rounds;
#[cfg(test)]
mod taker;
