//! Events, entries of a history, and cuts.
ghost use Rattle.std.specs.Prelude.{◌≡◌, IfOk};
ghost use Rattle.ls_event.specs.Textual.{TextualEvent};

use ls_value::{Cells, NoMemory, Row, Text};
use std::alloc::Global;

/// How a slot tells of its item (TLCP 2.1, LS_mode; General Concepts, modes).
#[derive(Clone, Copy, Debug, PartialEq, Eq)]
pub enum Mode {
    /// Each update by itself, as it came and unfiltered. There is no snapshot.
    Raw,
    /// The item's row: updates that wait are merged, so that of each field the last value is told. The snapshot is the
    /// row.
    Merge,
    /// Each update by itself, where of those that wait the oldest may be dropped. The snapshot is the last rows.
    Distinct,
    /// A table of rows by key: of each key that waits, whether it was added, changed or deleted, and its row. The
    /// snapshot is the rows.
    Command,
}

/// The snapshot that a subscription asks for (TLCP 2.1, LS_snapshot).
#[derive(Clone, Copy, Debug, PartialEq, Eq)]
pub enum Snap {
    /// None.
    No,
    /// The whole one.
    All,
    /// So many of its last rows.
    Last(u32),
}

/// What happens to an item.
#[derive(Drop)]
pub enum Event {
    /// A cell for each of the item's fields.
    Update(Cells),
    /// All that came before counts no longer.
    Clear,
}

/// An entry of an item's history: an event, the adapter that published it (1 to [`crate::MOST_ADAPTERS`]), and the seq
/// that the adapter gave it.
#[derive(Drop)]
pub struct Entry {
    pub adapter: u8,
    pub seq: u64,
    pub event: Event,
}

/// An event with its number in the history. In a COMMAND item `after` is the key's row after the event, where it has
/// one; in other items it is `None`.
#[derive(Drop)]
pub struct Stored {
    pub no: u64,
    pub event: Event,
    pub after: Option<Row>,
}

/// A cut: what a buffer gives at once. `upto` is the number of the last event that it tells of.
#[derive(Drop)]
pub enum Taken {
    /// An update's own row, or a row of the snapshot, of which `upto` is the number of the item's last event when the
    /// slot joined.
    Row {
        row: Row,
        upto: u64,
    },
    /// So many updates were lost.
    Lost {
        count: u64,
        upto: u64,
    },
    /// The values of the fields that changed.
    Change {
        cells: Cells,
        upto: u64,
    },
    /// A key's row, or none where the key is gone.
    Key {
        key: Text,
        row: Option<Row>,
        upto: u64,
    },
    /// The item was cleared.
    Cleared {
        upto: u64,
    },
    /// The snapshot is whole.
    EndOfSnapshot,
}

/// Why an event isn't added to an item's state, in the order in which the causes are looked at.
#[derive(Clone, Copy, Debug, PartialEq, Eq)]
pub enum PushRefused {
    /// An update of a COMMAND item whose key's cell has no text.
    NoKey,
    /// An update of a COMMAND item whose command's cell has none of the texts `ADD`, `UPDATE` and `DELETE`.
    BadCommand,
    /// The event's texts or the row that it makes weigh more than [`crate::MOST_WEIGHT`]; it carries the greater
    /// weight, or [`u64::MAX`] where that is less.
    TooLong { bytes: u64 },
    /// A COMMAND item has [`crate::MOST_KEYS`] keys, and the event adds one.
    TooManyKeys,
    /// A growth was refused.
    NoMemory,
}

impl From<NoMemory> for PushRefused {
    ghost use Rattle.std.specs.Prelude.{◌≡◌};
    ghost use Rattle.ls_event.specs.declared.event.PushRefused.TheVariants as refused;

    ghost from_gives = { λ _ e. e ≡ refused.NoMemory };

    fn from(_: NoMemory) -> PushRefused {
        PushRefused::NoMemory
    }
}

/// Why an event isn't published, in the order in which the causes are looked at.
#[derive(Clone, Copy, Debug, PartialEq, Eq)]
pub enum PublishRefused {
    /// The seq isn't above the adapter's last one, which it carries.
    Repeated { last: u64 },
    /// An update of a COMMAND item whose key's cell has no text.
    NoKey,
    /// An update of a COMMAND item whose command's cell has none of the texts `ADD`, `UPDATE` and `DELETE`.
    BadCommand,
    /// The event's texts or the row that it makes weigh more than [`crate::MOST_WEIGHT`]; it carries the greater
    /// weight, or [`u64::MAX`] where that is less.
    TooLong { bytes: u64 },
    /// A COMMAND item has [`crate::MOST_KEYS`] keys, and the event adds one.
    TooManyKeys,
    /// A slot lags by [`crate::MOST_LAG`] events; it carries the least such.
    Backlog { slot: u32 },
    /// The history has [`ls_value::GREATEST_NUMBER`] events.
    Spent,
    /// A growth was refused.
    NoMemory,
}

impl From<NoMemory> for PublishRefused {
    ghost use Rattle.std.specs.Prelude.{◌≡◌};
    ghost use Rattle.ls_event.specs.declared.event.PublishRefused.TheVariants as refused;

    ghost from_gives = { λ _ e. e ≡ refused.NoMemory };

    fn from(_: NoMemory) -> PublishRefused {
        PublishRefused::NoMemory
    }
}

impl From<PushRefused> for PublishRefused {
    ghost use Rattle.std.specs.Prelude.{◌≡◌};
    ghost use Rattle.ls_event.specs.Publishes.{publish_cause};

    ghost from_gives = { λ cause e. e ≡ publish_cause cause };

    fn from(cause: PushRefused) -> PublishRefused {
        match cause {
            PushRefused::NoKey => PublishRefused::NoKey,
            PushRefused::BadCommand => PublishRefused::BadCommand,
            PushRefused::TooLong { bytes } => PublishRefused::TooLong { bytes },
            PushRefused::TooManyKeys => PublishRefused::TooManyKeys,
            PushRefused::NoMemory => PublishRefused::NoMemory,
        }
    }
}

impl Event {
    /// An equal event, whose texts are UTF-8.
    pub fn copy(&self, alloc: Global) -> Result<Event, NoMemory>
        ensures equal { IfOk result (λ event. event ≡ self.now) }
        ensures textual { IfOk result TextualEvent }
    {
        match self {
            Event::Update(cells) => Ok(Event::Update(cells.copy(alloc)?)),
            Event::Clear => Ok(Event::Clear),
        }
    }
}
