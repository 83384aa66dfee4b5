//! What is kept of a slot in a round.

use crate::slot_ref::SlotRef;

/// A slot by its subscription and its place in it.
#[derive(Clone, Copy, PartialEq, Eq, Hash)]
pub struct SlotName {
    pub sub: u32,
    pub place: u32,
}

/// A slot, and its node in the list of the round.
#[derive(Clone, Copy)]
pub struct Row {
    pub slot: SlotRef,
    pub node: usize,
}
