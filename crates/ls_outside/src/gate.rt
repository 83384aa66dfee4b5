//! Where a test holds a call up.

/// Where a call stands while it holds a lock.
#[derive(Clone, Copy, Debug, PartialEq, Eq)]
pub enum Point {
    /// An event is offered to this item, and the item's lock is held.
    Offering { item: u32 },

    /// This session has its turn, and the session's lock is held.
    Turning { session: u64 },
}

/// What a call passes while it holds a lock, so that a test can hold it there. Nothing is promised of it.
pub trait Gate {
    /// Passes, once it may.
    fn pass(&self, point: Point);
}

/// A gate that holds nobody up.
#[derive(Clone, Copy, Debug, PartialEq, Eq)]
pub struct OpenGate;

impl Gate for OpenGate {
    fn pass(&self, _: Point) {}
}
