//! The state of a COMMAND item from its whole history (General Concepts, mode COMMAND).
ghost use Rattle.std.specs.Prelude.{◌≡◌, ◌≤◌, ◌<◌, IfOk, IfSome, IfNone, OnOk, IsTrue, length, slice_get, set};
ghost use Rattle.std.specs.Prelude.{unwrap_or};
ghost use Rattle.std.specs.List.{remove as list_without};
ghost use Rattle.ls_value.specs.declared.row.Value.TheVariants as value;
ghost use Rattle.ls_value.specs.Values.{applied, nulls, cell_at, kept_or_taken, text_eq};
ghost use Rattle.ls_event.specs.Keyed.{is_before, text_of_cell, deletes, row_at, with_row, without, row_with};
ghost use Rattle.ls_event.specs.Keyed.{keyed_after, keyed};
ghost use Rattle.ls_item.specs.Keys.{index_in, has_key};
ghost use Rattle.ls_plain.specs.Shapes.{command_shape};

use ls_event::{Entry, Event, KeyedRow, Order};
use ls_value::{Cell, NoMemory, Row, Text, Value, same_bytes};
use std::alloc::Global;

/// What the definition of a COMMAND item settles: how many fields it has, and the places of its key and its command
/// among them.
#[derive(Clone, Copy, Debug)]
pub struct CommandShape {
    pub fields: usize,
    pub key: usize,
    pub command: usize,
}

/// The keys of a COMMAND item with their rows after the first i entries of its history, in the order of the keys'
/// bytes.
pub fn plain_keyed(
    alloc: Global,
    history: &[Entry],
    shape: &CommandShape,
    i: usize,
) -> Result<Vec<KeyedRow>, NoMemory>
    requires { i ≤ length history.now }
    ensures { IfOk result (λ rows. rows.items ≡ keyed (command_shape shape.now) history.now i) }
{
    let mut rows = Vec::new(alloc);
    for n in 0..i {
        step(alloc, &mut rows, shape, &history[n].event)?;
    }
    Ok(rows)
}

/// The keys after an event.
fn step(
    alloc: Global,
    rows: &mut Vec<KeyedRow>,
    shape: &CommandShape,
    event: &Event,
) -> Result<(), NoMemory>
    ensures { OnOk result (rows.new.items ≡ keyed_after (command_shape shape.now) rows.old.items event.now) }
{
    match event {
        Event::Update(cells) => update(alloc, rows, shape, cells.as_slice()),
        Event::Clear => {
            rows.clear();
            Ok(())
        }
    }
}

/// The keys after an update.
fn update(
    alloc: Global,
    rows: &mut Vec<KeyedRow>,
    shape: &CommandShape,
    cells: &[Cell],
) -> Result<(), NoMemory>
    ensures { OnOk result (rows.new.items
        ≡ keyed_after (command_shape shape.now) rows.old.items (Event.Update cells.now)) }
{
    let key = text_at(alloc, cells, shape.key)?;
    if deletes(cells, shape) {
        remove(rows, key.as_bytes());
        return Ok(());
    }
    let row = row_with(alloc, rows, shape, key.as_bytes(), cells)?;
    put(rows, KeyedRow { key, row })
}

/// The text of the cell at a place, or the empty one.
pub fn text_at(alloc: Global, cells: &[Cell], place: usize) -> Result<Text, NoMemory>
    ensures { IfOk result (λ text. text ≡ text_of_cell (cell_at cells.now place)) }
{
    match cells.get(place) {
        Some(Cell::Text(text)) => text.copy(alloc),
        _ => Ok(Text::from_string(String::new(alloc))),
    }
}

/// Whether an update deletes its key.
fn deletes(cells: &[Cell], shape: &CommandShape) -> bool
    ensures { result ≡ deletes (command_shape shape.now) cells.now }
{
    match cells.get(shape.command) {
        Some(Cell::Text(text)) => same_bytes(text.as_bytes(), Order::Delete.word().as_bytes()),
        _ => false,
    }
}

/// Takes a key out, where it is there.
fn remove(rows: &mut Vec<KeyedRow>, key: &[u8])
    ensures { rows.new.items ≡ without key.now rows.old.items }
{
    if let Some(place) = find(rows, key) {
        let _removed = rows.remove(place);
    }
}

/// The first place of a key, where it is there.
fn find(rows: &[KeyedRow], key: &[u8]) -> Option<usize>
    ensures within { IfSome result (λ i. i < length rows.now) }
    ensures found { IfSome result (λ i. list_without rows.now i ≡ without key.now rows.now) }
    ensures absent { IfNone result (without key.now rows.now ≡ rows.now) }
{
    for i in 0..rows.len() {
        if same_bytes(rows[i].key.as_bytes(), key) {
            return Some(i);
        }
    }
    None
}

/// Gives a key its row.
#[tactic(auto, using(ls_item::proofs::Places::with_found, ls_item::proofs::Places::with_absent))]
fn put(rows: &mut Vec<KeyedRow>, new: KeyedRow) -> Result<(), NoMemory>
    ensures { OnOk result (rows.new.items ≡ with_row new.key new.row rows.old.items) }
{
    let place = place_for(rows, new.key.as_bytes());
    if stands_at(rows, place, new.key.as_bytes()) {
        rows[place] = new;
    } else {
        rows.insert(place, new)?;
    }
    Ok(())
}

/// The number of keys before this one, in their order.
fn place_for(rows: &[KeyedRow], key: &[u8]) -> usize
    ensures place { result ≡ index_in key.now rows.now }
    ensures within { result ≤ length rows.now }
{
    for i in 0..rows.len() {
        if is_before(rows[i].key.as_bytes(), key) {
            continue;
        }
        return i;
    }
    rows.len()
}

/// Whether a key stands at a place.
fn stands_at(rows: &[KeyedRow], place: usize, key: &[u8]) -> bool
    ensures stands { result ≡ has_key key.now (slice_get rows.now place) }
    ensures within { IsTrue result → place < length rows.now }
{
    match rows.get(place) {
        Some(keyed) => same_bytes(keyed.key.as_bytes(), key),
        None => false,
    }
}

/// Whether a text stands before another in the order of their bytes.
#[tactic(auto, using(ls_item::proofs::Places::before_at_end))]
fn is_before(a: &[u8], b: &[u8]) -> bool
    ensures { result ≡ is_before a.now b.now }
{
    for i in 0..b.len() {
        if i >= a.len() {
            return true;
        }
        if a[i] != b[i] {
            return a[i] < b[i];
        }
    }
    false
}

/// The row of a key, copied, where it has one.
pub fn row_of(alloc: Global, rows: &[KeyedRow], key: &[u8]) -> Result<Option<Row>, NoMemory>
    ensures { IfOk result (λ row. row ≡ row_at key.now rows.now) }
{
    for keyed in rows {
        if same_bytes(keyed.key.as_bytes(), key) {
            return Ok(Some(keyed.row.copy(alloc)?));
        }
    }
    Ok(None)
}

/// The row of a key, copied, or nulls where it has none.
fn row_or_nulls(
    alloc: Global,
    rows: &[KeyedRow],
    key: &[u8],
    fields: usize,
) -> Result<Row, NoMemory>
    ensures { IfOk result (λ row. row ≡ unwrap_or (row_at key.now rows.now) (nulls fields)) }
{
    match row_of(alloc, rows, key)? {
        Some(row) => Ok(row),
        None => Row::nulls(alloc, fields),
    }
}

/// The row that an update makes of its key's row; its command is null.
fn row_with(
    alloc: Global,
    rows: &[KeyedRow],
    shape: &CommandShape,
    key: &[u8],
    cells: &[Cell],
) -> Result<Row, NoMemory>
    ensures { IfOk result (λ row. row ≡ row_with (command_shape shape.now) (row_at key.now rows.now) cells.now) }
{
    let row = row_or_nulls(alloc, rows, key, shape.fields)?;
    let mut values = values_after(alloc, row.as_slice(), cells)?;
    set_null(&mut values, shape.command);
    Ok(Row::of(values))
}

/// The values after an update.
fn values_after(alloc: Global, row: &[Value], cells: &[Cell]) -> Result<Vec<Value>, NoMemory>
    ensures { IfOk result (λ values. values.items ≡ applied row.now cells.now) }
{
    let mut values = Vec::new(alloc);
    for i in 0..row.len() {
        values.push(value_after(alloc, &row[i], cells, i)?)?;
    }
    Ok(values)
}

/// A value after the cell at a place.
fn value_after(
    alloc: Global,
    value: &Value,
    cells: &[Cell],
    place: usize,
) -> Result<Value, NoMemory>
    ensures { IfOk result (λ after. after ≡ kept_or_taken value.now (cell_at cells.now place)) }
{
    match cells.get(place) {
        None | Some(Cell::Same) => value.copy(alloc),
        Some(Cell::Null) => Ok(Value::Null),
        Some(Cell::Text(text)) => Ok(Value::Text(text.copy(alloc)?)),
    }
}

/// Makes the value at a place null, where there is one.
fn set_null(values: &mut [Value], place: usize)
    ensures { values.new ≡ set values.old place value.Null }
{
    if place < values.len() {
        values[place] = Value::Null;
    }
}
