//! Values and cells at the places of a schema.
ghost use Rattle.std.specs.Prelude.{◌≡◌, IfOk, set};
ghost use Rattle.ls_value.specs.Values.{cell_at, projected, projected_cells, row_eq, value_at, value_eq};

use crate::lists::Places;
use crate::row::{Cell, Cells, Row, Value, same_value};
use crate::text::NoMemory;
use std::alloc::Global;

/// The row at the places of a schema: null past its last value.
pub fn project(alloc: Global, row: &Row, places: &Places) -> Result<Row, NoMemory>
    ensures { IfOk result (λ taken. taken ≡ projected row.now places.now) }
{
    let values = values_at(alloc, row.as_slice(), places.as_slice())?;
    Ok(Row::of(values))
}

/// The cells at the places of a schema: Same past the last.
pub fn project_cells(alloc: Global, cells: &Cells, places: &Places) -> Result<Cells, NoMemory>
    ensures { IfOk result (λ taken. taken ≡ projected_cells cells.now places.now) }
{
    let taken = cells_at(alloc, cells.as_slice(), places.as_slice())?;
    Ok(Cells::of(taken))
}

/// Whether a row is another one at the places of a schema. No memory is taken.
pub fn is_projected(taken: &Row, row: &Row, places: &Places) -> bool
    ensures { result ≡ row_eq taken.now (projected row.now places.now) }
{
    are_at(taken.as_slice(), row.as_slice(), places.as_slice())
}

/// The values at these places: null past the last.
pub fn values_at(alloc: Global, values: &[Value], places: &[usize]) -> Result<Vec<Value>, NoMemory>
    ensures { IfOk result (λ taken. taken.items ≡ projected values.now places.now) }
{
    let mut taken = Vec::with_capacity(alloc, places.len())?;
    for place in places {
        taken.push(copy_value_at(alloc, values, *place)?)?;
    }
    Ok(taken)
}

/// The value at a place, copied: null past the last.
pub fn copy_value_at(alloc: Global, values: &[Value], place: usize) -> Result<Value, NoMemory>
    ensures { IfOk result (λ value. value ≡ value_at values.now place) }
{
    match values.get(place) {
        None => Ok(Value::Null),
        Some(value) => value.copy(alloc),
    }
}

/// Sets the value at a place, if there is one. No memory is taken.
pub fn set_value_at(values: &mut [Value], place: usize, value: Value)
    ensures { values.new ≡ set values.old place value }
{
    if place < values.len() {
        values[place] = value;
    }
}

/// The cells at these places: Same past the last.
pub fn cells_at(alloc: Global, cells: &[Cell], places: &[usize]) -> Result<Vec<Cell>, NoMemory>
    ensures { IfOk result (λ taken. taken.items ≡ projected_cells cells.now places.now) }
{
    let mut taken = Vec::with_capacity(alloc, places.len())?;
    for place in places {
        taken.push(copy_cell_at(alloc, cells, *place)?)?;
    }
    Ok(taken)
}

/// The cell at a place, copied: Same past the last.
pub fn copy_cell_at(alloc: Global, cells: &[Cell], place: usize) -> Result<Cell, NoMemory>
    ensures { IfOk result (λ cell. cell ≡ cell_at cells.now place) }
{
    match cells.get(place) {
        None => Ok(Cell::Same),
        Some(cell) => cell.copy(alloc),
    }
}

/// Whether these are the values at these places.
#[tactic(auto, using(crate::proofs::Rows::row_eq_lengths, crate::proofs::Rows::projected_length))]
fn are_at(taken: &[Value], values: &[Value], places: &[usize]) -> bool
    ensures { result ≡ row_eq taken.now (projected values.now places.now) }
{
    if taken.len() != places.len() {
        return false;
    }
    for i in 0..places.len() {
        if !is_at(&taken[i], values, places[i]) {
            return false;
        }
    }
    true
}

/// Whether this is the value at a place, which is null past the last.
fn is_at(taken: &Value, values: &[Value], place: usize) -> bool
    ensures { result ≡ value_eq taken.now (value_at values.now place) }
{
    match values.get(place) {
        None => same_value(taken, &Value::Null),
        Some(value) => same_value(taken, value),
    }
}
