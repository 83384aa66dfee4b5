//! What crosses from thread to thread.

use crate::seat::Seat;
use crate::seated::Seated;
use ls_live::Watch;
use ls_register::House;
use std::sync::Mutex;

fn sends<T: Send>() {}

fn syncs<T: Sync>() {}

/// A session's side of a slot, and what it has seen of an item, go to another thread.
pub fn a_seat_crosses<N: House + Send + Sync>() {
    sends::<Seat<N>>();
    sends::<Watch<N>>()
}

/// Threads share an item behind its lock.
pub fn an_item_is_shared<N: House + Send + Sync>() {
    sends::<Seated<N>>();
    syncs::<Mutex<Seated<N>>>()
}
