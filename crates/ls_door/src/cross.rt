//! What may go to another thread.
use crate::door::Visit;
use crate::duct::Duct;
use crate::mem_door::{MemDoor, PlainDoor};
use std::sync::Wait;

/// A type whose values may be sent.
fn sends<T: Send>() {}

/// Doors in memory.
pub(crate) fn doors() {
    sends::<MemDoor>();
    sends::<PlainDoor>();
}

/// What a door gives.
pub(crate) fn visits<C: Send>() {
    sends::<Visit<C>>();
}

/// Ends of ducts.
pub(crate) fn ducts<R: Wait + Send>() {
    sends::<Duct<R>>();
}
