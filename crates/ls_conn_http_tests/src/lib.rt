//! The tests of connections over HTTP in memory.
//!
//! `refusals` has the order of refusals as a table, at each limit and one past it. `cuts` has a request and a handshake
//! that end at each byte, and that come byte by byte. `bodies` has bodies that end in CR, LF and CR LF. `ends` has reads
//! and writes fail, and clocks stop. `streams` has a session from its first stream to LOOP. `firsts` has a handshake that is
//! answered and goes no further.
#![tactic(auto)]

#[cfg(test)]
mod bodies;
#[cfg(test)]
mod cuts;
#[cfg(test)]
mod ends;
#[cfg(test)]
mod firsts;
#[cfg(test)]
mod refusals;
#[cfg(test)]
mod serving;
#[cfg(test)]
mod streams;
