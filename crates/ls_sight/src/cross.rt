//! What crosses from thread to thread.

use crate::sight::{Sight, SightStart};
use ls_register::House;

fn sends<T: Send>() {}

/// What a caller has seen of a session goes to another thread.
pub fn a_sight_crosses<N: House + Send + Sync>() {
    sends::<Sight<N>>();
    sends::<SightStart>()
}
