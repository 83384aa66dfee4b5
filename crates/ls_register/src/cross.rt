//! What crosses from thread to thread.

use crate::blank::Blank;
use crate::book::{Book, View};
use crate::house::House;
use crate::made::Made;
use crate::place::Place;
use crate::told::Told;
use ls_chron::Chron;
use std::sync::Mutex;

fn sends<T: Send>() {}

fn syncs<T: Sync>() {}

/// What was made, and what a session is told, go to another thread.
pub fn entries_cross() {
    sends::<Made>();
    sends::<Told>()
}

/// Threads share the register.
pub fn the_register_is_shared() {
    syncs::<Chron<Made>>()
}

/// A register that is being made goes to another thread.
pub fn a_blank_crosses() {
    sends::<Blank>()
}

/// A place and a view go to another thread.
pub fn tokens_cross<N: House + Send + Sync>() {
    sends::<Place<N>>();
    sends::<View<N>>()
}

/// Threads share the book behind its lock.
pub fn the_book_is_shared<N: House + Send + Sync, H: Send>() {
    syncs::<Mutex<Book<N, H>>>()
}
