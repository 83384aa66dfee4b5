//! What may go to another thread.
use crate::list_door::ListDoor;
use crate::shaky::{Shaky, Tally};

/// A type whose values may be sent.
fn sends<T: Send>() {}

/// A type whose values may be shared.
fn syncs<T: Sync>() {}

/// Pipes over others.
pub(crate) fn pipes<C: Send>() {
    sends::<Shaky<C>>();
    syncs::<Tally>();
}

/// Doors.
pub(crate) fn doors<C: Send>() {
    sends::<ListDoor<C>>();
}
