//! Slots with which subscriptions begin.

use ls_event::{Mode, Snap};

/// A slot with which a subscription began: its item, by its number from 0, how it tells of it, the size of its buffer,
/// the snapshot that was asked for, and how many events the item had then.
#[derive(Clone, Copy, Debug, PartialEq, Eq)]
pub struct SlotBegun {
    pub item: u32,
    pub mode: Mode,
    pub size: u32,
    pub snapshot: Snap,
    pub base: u64,
}
