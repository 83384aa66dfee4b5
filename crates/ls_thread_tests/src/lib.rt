//! The tests of what threads share: histories, ties, the register, items with publishers, offers and feeds. Each public
//! call is made once with ample memory, and some by several threads at the same time. A test with threads ends by itself,
//! whatever the order in which they go on.
//!
//! They stand apart from `ls_tests`, which is proved before what they call is.
#![tactic(auto)]

#[cfg(test)]
mod chron;
#[cfg(test)]
mod feed;
#[cfg(test)]
mod live;
#[cfg(test)]
mod pair;
#[cfg(test)]
mod register;
#[cfg(test)]
mod shared;
