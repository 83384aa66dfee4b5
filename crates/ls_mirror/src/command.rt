//! Keys and command words in the rows of an item in mode COMMAND (General Concepts, COMMAND).
ghost use Rattle.std.specs.Prelude.{◌≡◌, IfOk, set};
ghost use Rattle.std.specs.Option.{option_copied};
ghost use Rattle.ls_value.specs.declared.row.Value.TheVariants as value;
ghost use Rattle.ls_mirror.specs.Client.{places_of_subcmd};
ghost use Rattle.ls_mirror.specs.Commands.{text_at, change_of, change_at, kept_row};

use ls_value::{NoMemory, Row, Text, Value, copy_values, same_bytes, set_value_at};
use std::alloc::Global;

/// What a command word does to the row of its key.
#[derive(Clone, Copy)]
pub enum Change {
    /// `ADD` and `UPDATE`: the key has this row.
    Set,
    /// `DELETE`: the key has no row.
    Remove,
}

/// The places of the key and the command in a schema, from 0 (TLCP 2.1, SUBCMD).
#[derive(Clone, Copy, Debug, PartialEq, Eq)]
pub struct KeyPlaces {
    /// The place of the field `key`.
    pub key: usize,
    /// The place of the field `command`.
    pub command: usize,
}

/// The places by what a SUBCMD tells, where they count from 1.
pub(crate) fn places_of_subcmd(key: u32, command: u32) -> KeyPlaces
    ensures { result ≡ places_of_subcmd key command }
{
    KeyPlaces {
        key: key.saturating_sub(1) as usize,
        command: command.saturating_sub(1) as usize,
    }
}

/// The text at a place of a row: `None` where there is no field or where it is null.
pub(crate) fn text_at(row: &Row, place: usize) -> Option<&Text>
    ensures { option_copied result ≡ text_at row.now place }
{
    match row.as_slice().get(place) {
        Some(Value::Text(text)) => Some(text),
        _ => None,
    }
}

/// What a command word does: `None` where it is none.
fn change_of(word: &[u8]) -> Option<Change>
    ensures { result ≡ change_of word.now }
{
    if same_bytes(word, b"ADD") || same_bytes(word, b"UPDATE") {
        Some(Change::Set)
    } else if same_bytes(word, b"DELETE") {
        Some(Change::Remove)
    } else {
        None
    }
}

/// What the command word at a place of a row does.
pub(crate) fn change_at(row: &Row, place: usize) -> Option<Change>
    ensures { result ≡ change_at row.now place }
{
    match text_at(row, place) {
        Some(word) => change_of(word.as_bytes()),
        None => None,
    }
}

/// The row that is kept of a key: a copy whose command field is null.
pub(crate) fn kept_row(alloc: Global, row: &Row, command: usize) -> Result<Row, NoMemory>
    ensures { IfOk result (λ kept. kept ≡ kept_row row.now command) }
{
    let mut values = copy_values(alloc, row.as_slice())?;
    set_value_at(&mut values, command, Value::Null);
    Ok(Row::of(values))
}
