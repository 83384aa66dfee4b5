//! What crosses from thread to thread.

use crate::live::{LiveItem, PubPass};
use crate::watch::Watch;
use ls_register::House;
use std::sync::Mutex;

fn sends<T: Send>() {}

fn syncs<T: Sync>() {}

/// A pass goes to another thread.
pub fn a_pass_crosses<N: House + Send + Sync>() {
    sends::<PubPass<N>>()
}

/// So does what was seen of an item.
pub fn a_watch_crosses<N: House + Send + Sync>() {
    sends::<Watch<N>>()
}

/// Threads share an item behind its lock.
pub fn an_item_is_shared<N: House + Send + Sync>() {
    sends::<LiveItem<N>>();
    syncs::<Mutex<LiveItem<N>>>()
}
