//! The tests of requests and streams over memory: what no contract says of the calls of `ls_conn`.
//!
//! `rows` has worked examples as tables of calls and answers, which `World` reads; `refusals` has what each request is
//! refused for, in order, and `ends` why streams end. `cuts` has each put of a stream fail in turn, and another stream go
//! on after the lines that came whole. `leaving` has a wire whose peer leaves. `bells` has a stream in a thread, which
//! sleeps until its session's bell rings.
#![tactic(auto)]

#[cfg(test)]
mod bells;
#[cfg(test)]
mod cuts;
#[cfg(test)]
mod ends;
#[cfg(test)]
mod guest;
#[cfg(test)]
mod leaving;
#[cfg(test)]
mod output;
#[cfg(test)]
mod refusals;
#[cfg(test)]
mod rows;
#[cfg(test)]
mod world;
