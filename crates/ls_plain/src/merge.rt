//! The state of an item and the cuts of mode MERGE, from whole histories.
ghost use Rattle.std.specs.Prelude.{◌≡◌, ◌<◌, ◌≤◌, ◌||◌, ℕ, List, Bool, All, IfOk, OnOk, length, replicate, not};
ghost use Rattle.std.specs.Prelude.{if◌then◌else◌};
ghost use Rattle.ls_event.specs.Cuts.{merge_cut, says, cell_saying, flagged_cells, touched_after, touched_after_all};
ghost use Rattle.ls_event.specs.Cuts.{touched_cells};
ghost use Rattle.ls_event.specs.History.{HasFields, between, merged, row_after};
ghost use Rattle.ls_plain.specs.Plain.{merge_slot};

use ls_event::{Entry, Event, Taken};
use ls_value::{Cell, Cells, NoMemory, Row, Value, apply};
use std::alloc::Global;

/// The merged state of an item of so many fields after the first i entries of its history (General Concepts, mode
/// MERGE). Each update has a cell for each field.
#[tactic(auto, using(ls_event::proofs::Merged::row_after_length))]
pub fn merged_row(
    alloc: Global,
    fields: usize,
    history: &[Entry],
    i: usize,
) -> Result<Row, NoMemory>
    requires within { i ≤ length history.now }
    requires cells { All (λ e. HasFields fields e.event) history.now }
    ensures { IfOk result (λ row. row ≡ merged fields history.now i) }
{
    let mut row = Row::nulls(alloc, fields)?;
    for entry in &history[..i] {
        step_row(alloc, &mut row, &entry.event)?;
    }
    Ok(row)
}

/// The row after an event.
fn step_row(alloc: Global, row: &mut Row, event: &Event) -> Result<(), NoMemory>
    requires { HasFields (length row.old) event.now }
    ensures { OnOk result (row.new ≡ row_after row.old event.now) }
{
    match event {
        Event::Update(cells) => apply(alloc, row, cells),
        Event::Clear => {
            *row = Row::nulls(alloc, row.len())?;
            Ok(())
        }
    }
}

/// The numbers of a slot of mode MERGE.
#[derive(Clone, Copy, Debug)]
pub struct MergeSlot {
    /// How many fields the item has.
    pub fields: usize,
    /// The buffer's size.
    pub size: u64,
    /// The last number that was enqueued.
    pub last: u64,
    /// The number up to which lines tell of the item.
    pub cursor: u64,
    /// Whether a first line was given.
    pub has_started: bool,
}

/// The next cut of a slot of mode MERGE; `None` where there is none (General Concepts, mode MERGE and buffers). The
/// size is at least 1.
#[tactic(auto, using(ls_event::proofs::Merged::merged_length))]
pub fn plain_merge_cut(
    alloc: Global,
    history: &[Entry],
    slot: &MergeSlot,
) -> Result<Option<Taken>, NoMemory>
    requires within { slot.now.last ≤ length history.now }
    requires size { 0 < slot.now.size }
    requires cells { All (λ e. HasFields slot.now.fields e.event) history.now }
    ensures { IfOk result (λ t. t ≡ merge_cut history.now (merge_slot slot.now)) }
{
    if slot.cursor >= slot.last {
        return Ok(None);
    }
    let upto = slot.cursor.max(slot.last.saturating_sub(slot.size)) + 1;
    let flags = touched_between(
        alloc,
        slot.fields,
        history,
        slot.cursor as usize,
        upto as usize,
        !slot.has_started,
    )?;
    let row = merged_row(alloc, slot.fields, history, upto as usize)?;
    let cells = Cells::of(cells_at(alloc, &flags, row.as_slice())?);
    Ok(Some(Taken::Change { cells, upto }))
}

/// Which fields the entries numbered `cursor` + 1 to `upto` touch, where each began with this flag.
#[tactic(auto, using(ls_event::proofs::Cuts::touched_after_length))]
fn touched_between(
    alloc: Global,
    fields: usize,
    history: &[Entry],
    cursor: usize,
    upto: usize,
    flag: bool,
) -> Result<Vec<bool>, NoMemory>
    requires order { cursor ≤ upto }
    requires within { upto ≤ length history.now }
    requires cells { All (λ e. HasFields fields e.event) history.now }
    ensures { IfOk result (λ touched. (length touched.items ≡ fields)
        × (touched.items ≡ touched_after_all (replicate fields flag) (between history.now cursor upto))) }
{
    let mut touched = flags(alloc, fields, flag)?;
    for i in cursor..upto {
        touched = touched_by(alloc, &touched, &history[i].event)?;
    }
    Ok(touched)
}

/// So many flags.
fn flags(alloc: Global, n: usize, flag: bool) -> Result<Vec<bool>, NoMemory>
    ensures { IfOk result (λ flags. flags.items ≡ replicate n flag) }
{
    let mut flags = Vec::new(alloc);
    for _ in 0..n {
        flags.push(flag)?;
    }
    Ok(flags)
}

/// The flags after an event.
fn touched_by(alloc: Global, touched: &[bool], event: &Event) -> Result<Vec<bool>, NoMemory>
    requires { HasFields (length touched.now) event.now }
    ensures { IfOk result (λ flags. flags.items ≡ touched_after touched.now event.now) }
{
    match event {
        Event::Update(cells) => touched_flags(alloc, touched, cells.as_slice()),
        Event::Clear => flags(alloc, touched.len(), true),
    }
}

/// The flags after cells: that of each field of which they say a value is set too.
fn touched_flags(alloc: Global, flags: &[bool], cells: &[Cell]) -> Result<Vec<bool>, NoMemory>
    requires { length flags.now ≡ length cells.now }
    ensures { IfOk result (λ touched. touched.items ≡ touched_cells flags.now cells.now) }
{
    let mut touched = Vec::new(alloc);
    for i in 0..flags.len() {
        touched.push(touched_flag(flags[i], &cells[i]))?;
    }
    Ok(touched)
}

/// The flag of a field after a cell.
fn touched_flag(flag: bool, cell: &Cell) -> bool
    ensures { result ≡ (flag || says cell.now) }
{
    flag || !matches!(cell, Cell::Same)
}

/// The cells that tell the values of the fields whose flag is set.
fn cells_at(alloc: Global, flags: &[bool], row: &[Value]) -> Result<Vec<Cell>, NoMemory>
    requires { length flags.now ≡ length row.now }
    ensures { IfOk result (λ cells. cells.items ≡ flagged_cells flags.now row.now) }
{
    let mut cells = Vec::new(alloc);
    for i in 0..flags.len() {
        cells.push(cell_at(alloc, flags[i], &row[i])?)?;
    }
    Ok(cells)
}

/// The cell of a field.
fn cell_at(alloc: Global, flag: bool, value: &Value) -> Result<Cell, NoMemory>
    ensures { IfOk result (λ cell. cell ≡ (if flag then cell_saying value.now else Cell.Same)) }
{
    if !flag {
        return Ok(Cell::Same);
    }
    match value {
        Value::Null => Ok(Cell::Null),
        Value::Text(text) => Ok(Cell::Text(text.copy(alloc)?)),
    }
}
