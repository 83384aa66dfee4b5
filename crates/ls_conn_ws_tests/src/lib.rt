//! Tests of connections over WebSocket.
#![tactic(auto)]

#[cfg(test)]
mod clients;
#[cfg(test)]
mod frames;
#[cfg(test)]
mod heads;
#[cfg(test)]
mod looks;
#[cfg(test)]
mod messages;
#[cfg(test)]
mod rung;
#[cfg(test)]
mod serving;
#[cfg(test)]
mod streams;
#[cfg(test)]
mod turns;
#[cfg(test)]
mod upgrades;
#[cfg(test)]
mod workers;
