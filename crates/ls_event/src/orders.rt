//! What an update says by itself: its order in a COMMAND item, and its own row (General Concepts, modes).
ghost use Rattle.std.specs.Prelude.{◌≡◌, ◌<◌, IfOk, length, map};
ghost use Rattle.ls_event.specs.Orders.{order_said, order_of, word_of};
ghost use Rattle.ls_event.specs.Updates.{own_value, own_row};

use ls_value::{Cell, Cells, NoMemory, Row, Text, Value, same_bytes};
use std::alloc::Global;

/// What an update of a COMMAND item does to its key (General Concepts, mode COMMAND).
#[derive(Clone, Copy, Debug, PartialEq, Eq)]
pub enum Order {
    /// The key gets a row.
    Add,
    /// The key's row changes.
    Update,
    /// The key is gone.
    Delete,
}

impl Order {
    /// The word that a command's cell has for it.
    pub fn word(self) -> &'static str
        ensures { result.now ≡ word_of self }
    {
        match self {
            Order::Add => "ADD",
            Order::Update => "UPDATE",
            Order::Delete => "DELETE",
        }
    }
}

/// Why an update of a COMMAND item has no order, in the order in which the causes are looked at.
#[derive(Clone, Copy, Debug, PartialEq, Eq)]
pub enum CommandRefused {
    /// The key's cell has no text.
    NoKey,
    /// The command's cell has none of the texts `ADD`, `UPDATE` and `DELETE`.
    BadCommand,
}

/// The order that cells say, with the places of the key and of the command. No memory is taken.
pub fn command_of(cells: &Cells, key: usize, command: usize) -> Result<Order, CommandRefused>
    requires key { key < length cells.now }
    requires command { command < length cells.now }
    ensures { result ≡ order_of cells.now key command }
{
    let cells = cells.as_slice();
    match (&cells[key], &cells[command]) {
        (Cell::Text(_), Cell::Text(word)) => order_said(word),
        (Cell::Text(_), _) => Err(CommandRefused::BadCommand),
        _ => Err(CommandRefused::NoKey),
    }
}

/// The order that a word says.
fn order_said(word: &Text) -> Result<Order, CommandRefused>
    ensures { result ≡ order_said word.now }
{
    let word = word.as_bytes();
    if same_bytes(word, Order::Add.word().as_bytes()) {
        Ok(Order::Add)
    } else if same_bytes(word, Order::Update.word().as_bytes()) {
        Ok(Order::Update)
    } else if same_bytes(word, Order::Delete.word().as_bytes()) {
        Ok(Order::Delete)
    } else {
        Err(CommandRefused::BadCommand)
    }
}

/// The row that cells say by themselves: Same reads as null.
pub fn own_row(alloc: Global, cells: &Cells) -> Result<Row, NoMemory>
    ensures { IfOk result (λ row. row ≡ own_row cells.now) }
{
    let values = own_values(alloc, cells.as_slice())?;
    Ok(Row::of(values))
}

/// The values that cells say by themselves.
fn own_values(alloc: Global, cells: &[Cell]) -> Result<Vec<Value>, NoMemory>
    ensures { IfOk result (λ values. values.items ≡ own_row cells.now) }
{
    let mut values = Vec::with_capacity(alloc, cells.len())?;
    for cell in cells {
        values.push(own_value(alloc, cell)?)?;
    }
    Ok(values)
}

/// The value that a cell says by itself.
fn own_value(alloc: Global, cell: &Cell) -> Result<Value, NoMemory>
    ensures { IfOk result (λ v. v ≡ own_value cell.now) }
{
    match cell {
        Cell::Same | Cell::Null => Ok(Value::Null),
        Cell::Text(text) => Ok(Value::Text(text.copy(alloc)?)),
    }
}
