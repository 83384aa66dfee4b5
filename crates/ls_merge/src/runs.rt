//! What events of several numbers say together.
ghost use Rattle.std.specs.Prelude.{◌≡◌, ◌<◌, IfOk, OnOk, length, drop, replicate, All};
ghost use Rattle.ls_value.specs.declared.row.Cell.{Cell as FieldCell};
ghost use Rattle.ls_event.specs.History.{HasFields};
ghost use Rattle.ls_merge.specs.Merge.{event_cells};
ghost use Rattle.ls_merge.specs.Runs.{both, over, says_each, said_but_last};

use crate::cells::null_cells;
use ls_event::{Event, Stored};
use ls_value::{Cell, Cells, NoMemory};
use std::alloc::Global;
use std::collections::VecDeque;

/// Cells that say nothing of so many fields.
fn same_cells(alloc: Global, n: usize) -> Result<Vec<Cell>, NoMemory>
    ensures { IfOk result (λ cells. cells.items ≡ replicate n FieldCell.Same) }
{
    let mut cells = Vec::with_capacity(alloc, n)?;
    for _ in 0..n {
        cells.push(Cell::Same)?;
    }
    Ok(cells)
}

/// Has a cell say what one before it says, where it says nothing itself.
fn put_under(alloc: Global, said: &mut Cell, before: &Cell) -> Result<(), NoMemory>
    ensures { OnOk result (said.new ≡ both before.now said.old) }
{
    if matches!(said, Cell::Same) {
        *said = before.copy(alloc)?;
    }
    Ok(())
}

/// The same of a cell for each field.
fn under(alloc: Global, said: &mut [Cell], before: &[Cell]) -> Result<(), NoMemory>
    requires { length said.old ≡ length before.now }
    ensures said { OnOk result (said.new ≡ over before.now said.old) }
    ensures fields { length said.new ≡ length said.old }
{
    for i in 0..said.len() {
        put_under(alloc, &mut said[i], &before[i])?;
    }
    Ok(())
}

/// The same of an event.
fn under_event(alloc: Global, said: &mut Vec<Cell>, event: &Event) -> Result<(), NoMemory>
    requires { HasFields (length said.old.items) event.now }
    ensures said { OnOk result
        (said.new.items ≡ over (event_cells (length said.old.items) event.now) said.old.items) }
    ensures fields { length said.new.items ≡ length said.old.items }
{
    match event {
        Event::Update(cells) => under(alloc, said.as_mut_slice(), cells.as_slice()),
        Event::Clear => {
            let nulls = null_cells(alloc, said.len())?;
            under(alloc, said.as_mut_slice(), &nulls)
        }
    }
}

/// Whether cells say a value of each field.
fn says_each(said: &[Cell]) -> bool
    ensures { result ≡ says_each said.now }
{
    for i in 0..said.len() {
        if matches!(said[i], Cell::Same) {
            return false;
        }
    }
    true
}

/// What the events from an index on say together, without the last one. A field's text is copied once, and no event is
/// looked at once a later one has said a value of each field.
pub fn said_but_last(
    alloc: Global,
    events: &VecDeque<Stored>,
    from: usize,
    fields: usize,
) -> Result<Cells, NoMemory>
    requires some { from < length events.now.items }
    requires fields { All (λ x. HasFields fields x.event) (drop from events.now.items) }
    ensures said { IfOk result (λ said. said ≡ said_but_last fields (drop from events.now.items)) }
    ensures fields { IfOk result (λ said. length said ≡ fields) }
{
    let mut said = same_cells(alloc, fields)?;
    let mut at = events.len() - 1;
    while at > from && !says_each(said.as_slice()) {
        at -= 1;
        under_event(alloc, &mut said, &events[at].event)?;
    }
    Ok(Cells::of(said))
}
