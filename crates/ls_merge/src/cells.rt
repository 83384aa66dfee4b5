//! The cells that events say, the fields that they touch, and the cells that tell these.
ghost use Rattle.std.specs.Prelude.{◌≡◌, ◌||◌, true, false, IfOk, length, replicate, if◌then◌else◌};
ghost use Rattle.ls_value.specs.Values.{applied, kept_or_taken};
ghost use Rattle.ls_event.specs.Cuts.{touched_cells, flagged_cells, says, cell_saying};
ghost use Rattle.ls_merge.specs.Merge.{event_cells};

use ls_event::Event;
use ls_value::{Cell, Cells, NoMemory, Row, Value, apply_owned};
use std::alloc::Global;

/// So many flags.
pub fn flags(alloc: Global, n: usize, flag: bool) -> Result<Vec<bool>, NoMemory>
    ensures { IfOk result (λ flags. flags.items ≡ replicate n flag) }
{
    let mut flags = Vec::with_capacity(alloc, n)?;
    for _ in 0..n {
        flags.push(flag)?;
    }
    Ok(flags)
}

/// Clears each flag.
pub fn clear_flags(flags: &mut [bool])
    ensures { flags.new ≡ replicate (length flags.old) false }
{
    for flag in flags.iter_mut() {
        *flag = false;
    }
}

/// Sets the flag of each field of which a cell says a value.
fn touch(flags: &mut [bool], cells: &[Cell])
    requires { length flags.old ≡ length cells.now }
    ensures { flags.new ≡ touched_cells flags.old cells.now }
{
    for i in 0..flags.len() {
        flags[i] = touched_flag(flags[i], &cells[i]);
    }
}

/// The flag of a field after a cell.
fn touched_flag(flag: bool, cell: &Cell) -> bool
    ensures { result ≡ (flag || says cell.now) }
{
    flag || !matches!(cell, Cell::Same)
}

/// Merges what an event says into a row, and sets the flag of each field of which it says a value. It takes no memory.
#[tactic(auto, using(ls_value::proofs::Rows::applied_length, ls_event::proofs::Cuts::touched_cells_length))]
pub fn merge(row: &mut Row, flags: &mut Vec<bool>, said: Cells)
    requires flags { length flags.old.items ≡ length row.old }
    requires cells { length said ≡ length row.old }
    ensures row { row.new ≡ applied row.old said }
    ensures flags { flags.new.items ≡ touched_cells flags.old.items said }
    ensures fields { length row.new ≡ length row.old }
    ensures as_many { length flags.new.items ≡ length row.old }
{
    touch(flags, said.as_slice());
    apply_owned(row, said);
}

/// What an event says of each of so many fields: a Clear makes each null.
pub fn said_cells(alloc: Global, event: &Event, fields: usize) -> Result<Cells, NoMemory>
    ensures { IfOk result (λ cells. cells ≡ event_cells fields event.now) }
{
    match event {
        Event::Update(cells) => cells.copy(alloc),
        Event::Clear => Ok(Cells::of(null_cells(alloc, fields)?)),
    }
}

/// So many nulls.
pub fn null_cells(alloc: Global, n: usize) -> Result<Vec<Cell>, NoMemory>
    ensures { IfOk result (λ cells. cells.items ≡ replicate n Cell.Null) }
{
    let mut cells = Vec::with_capacity(alloc, n)?;
    for _ in 0..n {
        cells.push(Cell::Null)?;
    }
    Ok(cells)
}

/// The cells that tell the values of the fields whose flag is set.
pub fn cells_at(alloc: Global, flags: &[bool], row: &[Value]) -> Result<Vec<Cell>, NoMemory>
    requires { length flags.now ≡ length row.now }
    ensures cells { IfOk result (λ cells. cells.items ≡ flagged_cells flags.now row.now) }
    ensures fields { IfOk result (λ cells. length cells.items ≡ length row.now) }
{
    let mut cells = Vec::with_capacity(alloc, flags.len())?;
    for i in 0..flags.len() {
        cells.push(cell_at(alloc, flags[i], &row[i])?)?;
    }
    Ok(cells)
}

/// The cell of a field.
fn cell_at(alloc: Global, flag: bool, value: &Value) -> Result<Cell, NoMemory>
    ensures { IfOk result (λ cell. cell ≡ (if flag then cell_saying value.now else Cell.Same)) }
{
    if !flag {
        return Ok(Cell::Same);
    }
    match value {
        Value::Null => Ok(Cell::Null),
        Value::Text(text) => Ok(Cell::Text(text.copy(alloc)?)),
    }
}

/// The cells that tell the fields whose flag is set or of which an update says a value, as they are after the update.
pub fn cells_with(
    alloc: Global,
    flags: &[bool],
    row: &[Value],
    update: &[Cell],
) -> Result<Vec<Cell>, NoMemory>
    requires row { length flags.now ≡ length row.now }
    requires update { length flags.now ≡ length update.now }
    ensures cells { IfOk result (λ cells.
        cells.items ≡ flagged_cells (touched_cells flags.now update.now) (applied row.now update.now)) }
    ensures fields { IfOk result (λ cells. length cells.items ≡ length row.now) }
{
    let mut cells = Vec::with_capacity(alloc, flags.len())?;
    for i in 0..flags.len() {
        cells.push(cell_with(alloc, flags[i], &row[i], &update[i])?)?;
    }
    Ok(cells)
}

/// The cell of a field after an update.
fn cell_with(alloc: Global, flag: bool, value: &Value, update: &Cell) -> Result<Cell, NoMemory>
    ensures { IfOk result (λ cell. cell
        ≡ (if flag || says update.now then cell_saying (kept_or_taken value.now update.now) else Cell.Same)) }
{
    match update {
        Cell::Same => cell_at(alloc, flag, value),
        Cell::Null => Ok(Cell::Null),
        Cell::Text(text) => Ok(Cell::Text(text.copy(alloc)?)),
    }
}
