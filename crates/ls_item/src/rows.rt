//! Keys, rows and cells of a COMMAND item, copied.
ghost use Rattle.std.specs.Prelude.{◌≡◌, ◌<◌, length, set, Bool, IfOk, if◌then◌else◌};
ghost use Rattle.ls_value.specs.declared.row.Cell.TheVariants as field_cell;
ghost use Rattle.ls_event.specs.Keyed.{text_of_cell};

use ls_event::KeyedRow;
use ls_value::{Cell, Cells, NoMemory, Text};
use std::alloc::Global;

/// The text that a cell says, or no bytes.
pub fn text_of(cell: &Cell) -> &[u8]
    ensures { result.now ≡ text_of_cell cell.now }
{
    match cell {
        Cell::Text(text) => text.as_bytes(),
        _ => b"",
    }
}

/// The text that a cell says, or the empty one.
pub fn text_copy(alloc: Global, cell: &Cell) -> Result<Text, NoMemory>
    ensures { IfOk result (λ text. text ≡ text_of_cell cell.now) }
{
    match cell {
        Cell::Text(text) => text.copy(alloc),
        _ => Ok(Text::from_string(String::new(alloc))),
    }
}

/// Equal cells but the one at a place, which is null.
pub fn cells_but(alloc: Global, cells: &[Cell], place: usize) -> Result<Cells, NoMemory>
    ensures { IfOk result (λ kept. kept ≡ set cells.now place field_cell.Null) }
{
    let kept = copied_but(alloc, cells, place)?;
    Ok(Cells::of(kept))
}

fn copied_but(alloc: Global, cells: &[Cell], place: usize) -> Result<Vec<Cell>, NoMemory>
    ensures { IfOk result (λ kept. kept.items ≡ set cells.now place field_cell.Null) }
{
    let mut kept = Vec::with_capacity(alloc, cells.len())?;
    for i in 0..cells.len() {
        kept.push(null_or_copy(alloc, i == place, &cells[i])?)?;
    }
    Ok(kept)
}

/// A null, or an equal cell.
fn null_or_copy(alloc: Global, null: bool, cell: &Cell) -> Result<Cell, NoMemory>
    ensures { IfOk result (λ kept. kept ≡ (if null then field_cell.Null else cell.now)) }
{
    if null {
        Ok(Cell::Null)
    } else {
        cell.copy(alloc)
    }
}

/// Equal keys with equal rows.
pub fn copied_keys(alloc: Global, rows: &[KeyedRow]) -> Result<Vec<KeyedRow>, NoMemory>
    ensures { IfOk result (λ copied. copied.items ≡ rows.now) }
{
    let mut copied = Vec::with_capacity(alloc, rows.len())?;
    for keyed in rows {
        copied.push(copied_key(alloc, keyed)?)?;
    }
    Ok(copied)
}

/// An equal key with an equal row.
fn copied_key(alloc: Global, keyed: &KeyedRow) -> Result<KeyedRow, NoMemory>
    ensures { IfOk result (λ copied. copied ≡ keyed.now) }
{
    let key = keyed.key.copy(alloc)?;
    let row = keyed.row.copy(alloc)?;
    Ok(KeyedRow { key, row })
}
