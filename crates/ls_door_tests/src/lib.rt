//! The tests of who comes in and who works for them: doors, spawners, bells and ducts, and the real ones over loopback;
//! of what wakes who waits for bytes; and of a feed over a duct.
#![tactic(auto)]

#[cfg(test)]
mod feeds;
#[cfg(test)]
mod memory;
#[cfg(test)]
mod sockets;
#[cfg(test)]
mod threads;
#[cfg(test)]
mod wakes;
