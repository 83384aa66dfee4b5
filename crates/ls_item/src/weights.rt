//! What events and the rows that they make weigh, before the rows are made.
ghost use Rattle.std.specs.Prelude.{◌≡◌, ◌-◌, ◌^◌, ◌<◌, length, min, set, sum_by};
ghost use Rattle.ls_value.specs.declared.row.Value.TheVariants as value;
ghost use Rattle.ls_value.specs.Values.{applied, kept_or_taken, weight_of, weight_of_value, weight_of_cell};
ghost use Rattle.ls_event.specs.States.{weight_refusal};
ghost use Rattle.ls_item.specs.States.{checked};

use ls_event::{MOST_WEIGHT, PushRefused};
use ls_value::{Cell, Value};

/// Refuses what weighs more than [`MOST_WEIGHT`].
pub fn check_weight(bytes: u64) -> Result<(), PushRefused>
    ensures { result ≡ checked (weight_refusal bytes) }
{
    if bytes > MOST_WEIGHT {
        Err(PushRefused::TooLong { bytes })
    } else {
        Ok(())
    }
}

/// The bytes of the cells' texts, or 2^64 - 1 where that is less.
pub fn cells_weight(cells: &[Cell]) -> u64
    ensures { result ≡ min (sum_by weight_of_cell cells.now) (2 ^ 64 - 1) }
{
    let mut bytes: u64 = 0;
    for cell in cells {
        if let Cell::Text(text) = cell {
            bytes = bytes.saturating_add(text.len() as u64);
        }
    }
    bytes
}

/// The bytes of the row after these cells, or 2^64 - 1 where that is less.
pub fn applied_weight(row: &[Value], cells: &[Cell]) -> u64
    requires { length row.now ≡ length cells.now }
    ensures { result ≡ min (weight_of (applied row.now cells.now)) (2 ^ 64 - 1) }
{
    let mut bytes: u64 = 0;
    for i in 0..row.len() {
        bytes = bytes.saturating_add(weight_of_one(&row[i], &cells[i]));
    }
    bytes
}

/// The bytes of the row after these cells, in which the field at a place is null, or 2^64 - 1 where that is less.
pub fn applied_weight_but(row: &[Value], cells: &[Cell], place: usize) -> u64
    requires cells { length row.now ≡ length cells.now }
    requires within { place < length row.now }
    ensures { result ≡ min (weight_of (set (applied row.now cells.now) place value.Null)) (2 ^ 64 - 1) }
{
    let before = applied_weight(&row[..place], &cells[..place]);
    before.saturating_add(applied_weight(&row[place + 1..], &cells[place + 1..]))
}

/// The bytes of a field after a cell.
fn weight_of_one(value: &Value, cell: &Cell) -> u64
    ensures { result ≡ weight_of_value (kept_or_taken value.now cell.now) }
{
    match (cell, value) {
        (Cell::Text(text), _) => text.len() as u64,
        (Cell::Same, Value::Text(text)) => text.len() as u64,
        _ => 0,
    }
}
