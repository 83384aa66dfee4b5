//! What crosses from thread to thread.

use crate::live::LiveSession;
use ls_register::House;
use std::sync::Mutex;

fn sends<T: Send>() {}

fn syncs<T: Sync>() {}

/// Threads share a session behind its lock.
pub fn a_session_is_shared<N: House + Send + Sync>() {
    sends::<LiveSession<N>>();
    syncs::<Mutex<Option<LiveSession<N>>>>()
}
