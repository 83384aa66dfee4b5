//! Copies of entries, made before an item's lock is taken.
ghost use Rattle.std.specs.Prelude.{◌≡◌, IfOk};
ghost use Rattle.ls_event.specs.Textual.{TextualEvent};
ghost use Rattle.ls_live.specs.Live.{entry_of};

use ls_event::{Entry, Event};
use ls_value::NoMemory;
use std::alloc::Global;
use std::marker::Model;

/// A copy of an adapter's event with its seq, whose texts are UTF-8. Contracts see the entry.
#[derive(Drop)]
pub struct CopiedEntry {
    entry: Entry,
}

impl Model for CopiedEntry {
    ghost use Rattle.ls_event.specs.declared.event.Entry.{Entry as EventEntry};
    ghost use Rattle.ls_event.specs.Textual.{TextualEvent};

    ghost Value = { EventEntry };

    ghost view = { λ c. c.entry };

    ghost invariant = { λ c. TextualEvent c.entry.event };
}

impl CopiedEntry {
    /// The entry.
    pub fn as_entry(&self) -> &Entry
        ensures same { result.now ≡ self.now }
        ensures textual { TextualEvent result.now.event }
    {
        &self.entry
    }
}

/// A copy of an adapter's event with its seq. Its texts are UTF-8.
pub fn copied_entry(
    alloc: Global,
    adapter: u8,
    seq: u64,
    event: &Event,
) -> Result<CopiedEntry, NoMemory>
    ensures equal { IfOk result (λ entry. entry ≡ entry_of adapter seq event.now) }
    ensures textual { IfOk result (λ entry. TextualEvent entry.event) }
{
    let event = event.copy(alloc)?;
    Ok(CopiedEntry {
        entry: Entry {
            adapter,
            seq,
            event,
        },
    })
}
