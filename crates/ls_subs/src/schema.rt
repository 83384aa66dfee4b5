//! Rows that tell of a key at the places of a schema (TLCP 2.1, update fields and SUBCMD).
ghost use Rattle.std.specs.Prelude.{◌≡◌, IfOk};
ghost use Rattle.ls_event.specs.Orders.{word_of};
ghost use Rattle.ls_value.specs.Values.{projected, value_at};
ghost use Rattle.ls_value.specs.declared.row.Value.TheVariants as field_value;
ghost use Rattle.ls_record.specs.Tables.{text_or_empty, kept_of, with_word, delete_row};

use ls_event::Order;
use ls_mirror::KeyPlaces;
use ls_value::{
    NoMemory, Places, Row, Text, Value, copy_values, null_values, same_bytes, set_value_at,
    values_at,
};
use std::alloc::Global;

/// The row at the places of a schema, with an order's word as its command.
pub(crate) fn row_with_word(
    alloc: Global,
    row: &Row,
    places: &Places,
    at: KeyPlaces,
    order: Order,
) -> Result<Row, NoMemory>
    ensures { IfOk result (λ made. made ≡ with_word at (word_of order) (projected row.now places.now)) }
{
    let mut values = values_at(alloc, row.as_slice(), places.as_slice())?;
    let word = text_value(alloc, order.word())?;
    set_value_at(&mut values, at.command, word);
    Ok(Row::of(values))
}

/// The row that deletes a key: the key, the command `DELETE`, and nulls.
pub(crate) fn row_of_delete(
    alloc: Global,
    fields: usize,
    at: KeyPlaces,
    key: &str,
) -> Result<Row, NoMemory>
    ensures { IfOk result (λ made. made ≡ delete_row at fields key.now) }
{
    let mut values = null_values(alloc, fields)?;
    let key = text_value(alloc, key)?;
    let word = text_value(alloc, Order::Delete.word())?;
    set_value_at(&mut values, at.key, key);
    set_value_at(&mut values, at.command, word);
    Ok(Row::of(values))
}

/// The row that a client keeps of a row's key: none where the row deletes it, and else the row without its command.
pub(crate) fn kept_row(alloc: Global, row: &Row, at: KeyPlaces) -> Result<Option<Row>, NoMemory>
    ensures { IfOk result (λ kept. kept ≡ kept_of at row.now) }
{
    if same_bytes(
        text_at(row, at.command).as_bytes(),
        Order::Delete.word().as_bytes(),
    ) {
        return Ok(None);
    }
    let mut values = copy_values(alloc, row.as_slice())?;
    set_value_at(&mut values, at.command, Value::Null);
    Ok(Some(Row::of(values)))
}

/// The text at a place of a row, which is empty where there is none. No memory is taken.
pub(crate) fn text_at(row: &Row, place: usize) -> &str
    ensures { result.now ≡ text_or_empty (value_at row.now place) }
{
    match row.as_slice().get(place) {
        Some(Value::Text(text)) => text.as_str(),
        _ => "",
    }
}

/// A text as a value.
fn text_value(alloc: Global, text: &str) -> Result<Value, NoMemory>
    ensures { IfOk result (λ made. made ≡ field_value.Text text.now) }
{
    let copied = Text::from_str(alloc, text)?;
    Ok(Value::Text(copied))
}
