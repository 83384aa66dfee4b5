//! Whether an event may be added to an item, where no slot keeps it back.
ghost use Rattle.std.specs.Prelude.{◌≡◌, ◌≤◌, List, None, Some, OnOk, IfErr};
ghost use Rattle.ls_event.specs.declared.event.Entry.{Entry};
ghost use Rattle.ls_event.specs.declared.limits.TheConstants.{MOST_ADAPTERS as MOST};
ghost use Rattle.ls_event.specs.History.{HasFields};
ghost use Rattle.ls_cell.specs.Cell.{refusal_of};
ghost use Rattle.ls_cell.specs.Any.{any_last};
ghost use Rattle.ls_live.specs.Live.{StandsFor, KeepsSlots, IsCause, cause_in, entry_of, lagging_in, lagging_count};

use ls_cell::ItemCell;
use ls_event::{Event, MOST_LAG, MOST_SLOTS, PublishRefused};
use ls_value::GREATEST_NUMBER;

/// By how many events a slot lags that is caught up together with one that lags by [`MOST_LAG`].
const MUCH: u64 = MOST_LAG / 2;

/// The first cause that stands against an event of an adapter with this seq, in the order of
/// [`publish_into`](crate::publish_into) (this project's profile). A slot that lags by [`MOST_LAG`](ls_event::MOST_LAG)
/// events is caught up, and so are then those that lag by half as many; it is no cause: `Backlog` is never answered. Nothing
/// else becomes of a slot.
///
/// # Errors
///
/// The cause. `NoMemory` only where no other one stands, and then some of the slots that lag were caught up.
pub fn weigh(
    cell: &mut ItemCell,
    adapter: u8,
    seq: u64,
    event: &Event,
) -> Result<(), PublishRefused>
    requires adapter { adapter ≤ MOST }
    requires fields { HasFields cell.old.item.shape.fields event.now }
    ensures shape { cell.new.item.shape ≡ cell.old.item.shape }
    ensures slots { (h : List Entry) → KeepsSlots cell.old h cell.new h }
    ensures ok { OnOk result (refusal_of cell.new (entry_of adapter seq event.now) ≡ None) }
    ensures admitted { OnOk result ((h : List Entry) → StandsFor cell.old h
        → cause_in cell.old.item.shape h (entry_of adapter seq event.now) ≡ None) }
    ensures refused { IfErr result (λ cause. (h : List Entry) → StandsFor cell.old h
        → IsCause (cause_in cell.old.item.shape h (entry_of adapter seq event.now)) cause) }
{
    for _ in 0..cell.slots() {
        let found = cell.check(adapter, seq, event);
        let Some(slot) = lagging(&found) else {
            return found;
        };
        if cell.number() >= GREATEST_NUMBER {
            return Err(PublishRefused::Spent);
        }
        let Ok(()) = cell.catch_up(slot) else {
            return Err(PublishRefused::NoMemory);
        };
        catch_up_others(cell);
    }
    cell.check(adapter, seq, event)
}

/// Catches up each slot that lags by half of what it may: so the next slots that lag so far are found together, and not each
/// by a look at all. It stops early for want of memory.
fn catch_up_others(cell: &mut ItemCell)
    ensures shape { cell.new.item.shape ≡ cell.old.item.shape }
    ensures number { cell.new.number ≡ cell.old.number }
    ensures fewer { lagging_count any_last cell.new.number cell.new.slots
        ≤ lagging_count any_last cell.old.number cell.old.slots }
    ensures slots { (h : List Entry) → KeepsSlots cell.old h cell.new h }
{
    let live = cell.slots();
    let mut seen: u32 = 0;
    for index in 0..MOST_SLOTS as u32 {
        if seen >= live {
            return;
        }
        let slot = index + 1;
        if !cell.has(slot) {
            continue;
        }
        seen = seen.saturating_add(1);
        if cell.lag(slot) >= MUCH && cell.catch_up(slot).is_err() {
            return;
        }
    }
}

/// The slot that an answer names as one that lags.
fn lagging(found: &Result<(), PublishRefused>) -> Option<u32>
    ensures { result ≡ lagging_in found.now }
{
    match found {
        Err(PublishRefused::Backlog { slot }) => Some(*slot),
        _ => None,
    }
}
