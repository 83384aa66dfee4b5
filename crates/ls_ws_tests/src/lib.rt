//! Tests of WebSocket connections, and of lines and messages in memory.
#![tactic(auto)]

#[cfg(test)]
mod accept;
#[cfg(test)]
mod broken;
#[cfg(test)]
mod frames;
#[cfg(test)]
mod memory;
#[cfg(test)]
mod peers;
