//! Event texts, orders and own rows.
use crate::failed::Failed;
use crate::words::{cells_of, cells_text, names_of, row_text, two, word};
use ls_event::{CommandRefused, Event, EventRefused, Order, command_of, read_event};
use std::alloc::Global;

/// What an event text says of fields.
pub fn event(alloc: Global, input: &[u8]) -> Result<String, Failed> {
    let (fields, text) = two(input);
    let fields = names_of(alloc, word(fields)?)?;
    match read_event(alloc, text, &fields) {
        Ok(Event::Clear) => Ok(format!(in alloc; "clear")?),
        Ok(Event::Update(cells)) => cells_text(alloc, &cells),
        Err(refused) => refusal(alloc, refused),
    }
}

/// Why a text is no event.
fn refusal(alloc: Global, refused: EventRefused) -> Result<String, Failed> {
    let (cause, at) = match refused {
        EventRefused::BadPair { at } => ("pair", at),
        EventRefused::UnknownField { at } => ("unknown", at),
        EventRefused::TwiceField { at } => ("twice", at),
        EventRefused::BadText { at } => ("text", at),
        EventRefused::NoMemory => return Err(Failed::NoMemory),
    };
    Ok(format!(in alloc; "{cause} {at}")?)
}

/// The order of an update.
pub fn order(alloc: Global, input: &[u8]) -> Result<String, Failed> {
    let cells = cells_of(alloc, word(input)?)?;
    if cells.len() < 3 {
        return Err(Failed::BadCase);
    }
    let text = order_word(command_of(&cells, 1, 2));
    Ok(format!(in alloc; "{text}")?)
}

/// The word of an order, or of why there is none.
fn order_word(order: Result<Order, CommandRefused>) -> &'static str {
    match order {
        Ok(Order::Add) => "add",
        Ok(Order::Update) => "update",
        Ok(Order::Delete) => "delete",
        Err(CommandRefused::NoKey) => "no key",
        Err(CommandRefused::BadCommand) => "bad command",
    }
}

/// The row that cells make of nulls.
pub fn own_row(alloc: Global, input: &[u8]) -> Result<String, Failed> {
    let cells = cells_of(alloc, word(input)?)?;
    let row = ls_event::own_row(alloc, &cells)?;
    row_text(alloc, &row)
}
