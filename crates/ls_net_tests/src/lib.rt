//! The tests of the libraries that speak with clients over the network.
#![tactic(auto)]

#[cfg(test)]
mod heads;
#[cfg(test)]
mod replies;
