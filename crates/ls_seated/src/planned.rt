//! How a slot joined its item, and why it can't.

ghost use Rattle.std.specs.Prelude.{◌≡◌, IsTrue, IsFalse};

use ls_event::{Mode, Snap};

/// How a slot joined: its mode, its buffer's size, the item's number of events then, and the snapshot asked for.
#[derive(Clone, Copy, Debug, PartialEq, Eq)]
pub struct Planned {
    pub mode: Mode,
    pub size: u32,
    pub base: u64,
    pub snapshot: Snap,
}

/// Why a slot can't join an item.
#[derive(Clone, Copy, Debug, PartialEq, Eq)]
pub enum JoinRefused {
    /// [`MOST_SLOTS`](ls_event::MOST_SLOTS) slots are live on the item.
    Full,
    /// The register has 2^60 entries or more.
    Spent,
    /// Want of memory.
    NoMemory,
}

/// Whether two slots joined in one way.
pub fn are_same(a: Planned, b: Planned) -> bool
    ensures same { IsTrue result → a ≡ b }
    ensures other { IsFalse result → a ≡ b → ⊥ }
{
    a == b
}
