//! The text of an event, as it is read (this project's profile).
ghost use Rattle.std.specs.Prelude.{◌≡◌, ◌⊎◌, [], true, false, Ok, Err, Some, None, IfOk, OnOk, IfErr, IfSome, IfNone};
ghost use Rattle.std.specs.Prelude.{length, replicate};
ghost use Rattle.percent_encoding.specs.Percent.{percent_decode};
ghost use Rattle.ls_value.specs.declared.row.Cell.TheVariants as cell;
ghost use Rattle.ls_event.specs.EventText.{event_of, pairs_of, first_cause, cells_of, cells_behind};
ghost use Rattle.ls_event.specs.EventText.{cell_said, is_textual, AnswersEvent};
ghost use Rattle.ls_event.specs.Cuts.{says};
ghost use Rattle.std.specs.Str.{is_utf8};

use crate::event::Event;
use ls_value::{Cell, Cells, Names, NoMemory, Text, TextRefused, same_bytes};
use ls_words::{first_piece, split_once};
use percent_encoding::percent_decode;
use std::alloc::{AllocError, Global};

/// Why a text says no event. Pairs are counted from 1; of a text's pairs the first that has a cause is told, and of
/// its causes the first in this order.
#[derive(Clone, Copy, Debug, PartialEq, Eq)]
pub enum EventRefused {
    /// A pair without `=`.
    BadPair { at: u64 },
    /// A pair names none of the fields.
    UnknownField { at: u64 },
    /// A pair before it named the field.
    TwiceField { at: u64 },
    /// The value, percent-decoded, is not UTF-8.
    BadText { at: u64 },
    /// Memory was refused.
    NoMemory,
}

impl From<NoMemory> for EventRefused {
    ghost use Rattle.std.specs.Prelude.{◌≡◌};
    ghost use Rattle.ls_event.specs.declared.event_text.EventRefused.TheVariants as refused;

    ghost from_gives = { λ _ e. e ≡ refused.NoMemory };

    fn from(_: NoMemory) -> EventRefused {
        EventRefused::NoMemory
    }
}

/// The event that a text says of fields (this project's profile).
///
/// `!` alone is a Clear. Otherwise the text has pairs `name=value`, divided by `&`, and a pair is divided by its first
/// `=`. Fields that aren't named are Same. The value `#` is null, no value or `$` is the empty text, and others are
/// percent-decoded, where a `%` without two hexadecimal digits stands for itself; so does `+`. Names aren't decoded.
pub fn read_event(alloc: Global, text: &[u8], fields: &Names) -> Result<Event, EventRefused>
    ensures { AnswersEvent (event_of fields.now text.now) result }
{
    if same_bytes(text, b"!") {
        return Ok(Event::Clear);
    }
    let cells = read_cells(alloc, text, fields)?;
    Ok(Event::Update(Cells::of(cells)))
}

/// The cells that the pairs of a text say.
fn read_cells(alloc: Global, text: &[u8], fields: &Names) -> Result<Vec<Cell>, EventRefused>
    ensures ok { IfOk result (λ cells. (first_cause fields.now [] (pairs_of text.now) ≡ None)
        × (cells.items ≡ cells_of fields.now (pairs_of text.now))) }
    ensures err { IfErr result (λ e. (e ≡ EventRefused.NoMemory)
        ⊎ (first_cause fields.now [] (pairs_of text.now) ≡ Some e)) }
{
    let mut cells = same_cells(alloc, fields.len())?;
    let mut rest = Some(text);
    let mut at: u64 = 0;
    while let Some(pairs) = rest {
        let (pair, behind) = first_piece(b'&', pairs);
        at += 1;
        if let Err(refused) = set_pair(alloc, &mut cells, fields, pair, at) {
            return Err(refused);
        }
        rest = behind;
    }
    Ok(cells)
}

/// So many cells that say nothing.
fn same_cells(alloc: Global, n: usize) -> Result<Vec<Cell>, NoMemory>
    ensures { IfOk result (λ cells. cells.items ≡ replicate n cell.Same) }
{
    let mut cells = Vec::with_capacity(alloc, n)?;
    for _ in 0..n {
        cells.push(Cell::Same)?;
    }
    Ok(cells)
}

/// Sets the cell of the field that a pair names. Which pair of the text it is, is only for the answer.
fn set_pair(
    alloc: Global,
    cells: &mut Vec<Cell>,
    fields: &Names,
    pair: &[u8],
    at: u64,
) -> Result<(), EventRefused>
    requires { length cells.old.items ≡ length fields.now }
    ensures ok { OnOk result (cells_behind fields.now cells.old.items at pair.now ≡ Ok cells.new.items) }
    ensures len { OnOk result (length cells.new.items ≡ length cells.old.items) }
    ensures err { IfErr result (λ e. (e ≡ EventRefused.NoMemory)
        ⊎ (cells_behind fields.now cells.old.items at pair.now ≡ Err e)) }
{
    let Some((name, value)) = split_once(b'=', pair) else {
        return Err(EventRefused::BadPair { at });
    };
    let Some(place) = fields.find(name) else {
        return Err(EventRefused::UnknownField { at });
    };
    if says(&cells[place]) {
        return Err(EventRefused::TwiceField { at });
    }
    let Some(cell) = cell_from(alloc, value)? else {
        return Err(EventRefused::BadText { at });
    };
    cells[place] = cell;
    Ok(())
}

/// Whether a cell says a value.
fn says(cell: &Cell) -> bool
    ensures { result ≡ says cell.now }
{
    !matches!(cell, Cell::Same)
}

/// What a value says: `None` exactly where it is not UTF-8.
fn cell_from(alloc: Global, value: &[u8]) -> Result<Option<Cell>, NoMemory>
    ensures some { IfOk result (λ c. IfSome c (λ is. (is ≡ cell_said value.now) × (is_textual is ≡ true))) }
    ensures none { IfOk result (λ c. IfNone c (is_textual (cell_said value.now) ≡ false)) }
{
    match value {
        [] | [b'$'] => Ok(text_cell(alloc, b"")?),
        [b'#'] => Ok(Some(Cell::Null)),
        _ => {
            let text = decoded(alloc, value)?;
            Ok(text_cell(alloc, &text)?)
        }
    }
}

/// A text, percent-decoded.
fn decoded(alloc: Global, text: &[u8]) -> Result<Vec<u8>, AllocError>
    ensures { IfOk result (λ bytes. bytes.items ≡ percent_decode text.now) }
{
    let mut bytes = Vec::new(alloc);
    percent_decode(text).append_to(&mut bytes)?;
    Ok(bytes)
}

/// A cell with this text: `None` exactly where it is not UTF-8.
fn text_cell(alloc: Global, bytes: &[u8]) -> Result<Option<Cell>, NoMemory>
    ensures some { IfOk result (λ c. IfSome c (λ is. (is ≡ cell.Text bytes.now) × (is_utf8 bytes.now ≡ true))) }
    ensures none { IfOk result (λ c. IfNone c (is_utf8 bytes.now ≡ false)) }
{
    match Text::of(alloc, bytes) {
        Ok(text) => Ok(Some(Cell::Text(text))),
        Err(TextRefused::NotUtf8) => Ok(None),
        Err(TextRefused::NoMemory) => Err(NoMemory),
    }
}
