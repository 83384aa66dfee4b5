//! How a session's round names a slot.

/// A slot of a live subscription: the subscription's number, the item's place in it, from 1, the item's number, from 0,
/// and the slot's number on the item, from 1.
#[derive(Clone, Copy, Debug, PartialEq, Eq)]
pub struct SlotRef {
    pub sub: u32,
    pub place: u32,
    pub item: u32,
    pub slot: u32,
}
