//! Words that several readers share: numbers, names, cells and rows.
use crate::failed::Failed;
use ls_event::Mode;
use ls_value::{Cell, Cells, Names, Row, Text, Value};
use ls_words::{number_in, split_once};
use std::alloc::Global;

/// The greatest number of a case.
const GREATEST: u64 = u64::MAX;

/// A word, and what stands behind the space after it, if there is one.
pub fn two(input: &[u8]) -> (&[u8], &[u8]) {
    match split_once(b' ', input) {
        Some(parts) => parts,
        None => (input, b""),
    }
}

/// A number that a case gives.
pub fn number(text: &[u8]) -> Result<u64, Failed> {
    match number_in(text, 0, GREATEST) {
        Some(n) => Ok(n),
        None => Err(Failed::BadCase),
    }
}

/// A word that is UTF-8.
pub fn word(text: &[u8]) -> Result<&str, Failed> {
    match std::str::from_utf8(text) {
        Ok(word) => Ok(word),
        Err(_) => Err(Failed::BadCase),
    }
}

/// The word of a mode.
pub fn mode_word(mode: Mode) -> &'static str {
    match mode {
        Mode::Raw => "raw",
        Mode::Merge => "merge",
        Mode::Distinct => "distinct",
        Mode::Command => "command",
    }
}

/// A number, or a dash.
pub fn maybe_number(alloc: Global, n: Option<u64>) -> Result<String, Failed> {
    match n {
        Some(n) => Ok(format!(in alloc; "{n}")?),
        None => Ok(format!(in alloc; "-")?),
    }
}

/// A text in quotes, or a dash.
pub fn quoted(alloc: Global, text: Option<&Text>) -> Result<String, Failed> {
    match text {
        Some(text) => Ok(format!(in alloc; "'{}'", text.as_str())?),
        None => Ok(format!(in alloc; "-")?),
    }
}

/// The names that commas divide.
pub fn names_of(alloc: Global, text: &str) -> Result<Names, Failed> {
    let mut names = Vec::new(alloc);
    for name in text.split(',') {
        names.push(Text::of(alloc, name.as_bytes())?)?;
    }
    Ok(Names::of(names))
}

/// Names with a comma behind each.
pub fn names_text(alloc: Global, names: &Names) -> Result<String, Failed> {
    let mut text = String::new(alloc);
    for name in names.as_slice() {
        write!(text, "{},", name.as_str())?;
    }
    Ok(text)
}

/// The cell that a word says.
fn cell_of(alloc: Global, word: &str) -> Result<Cell, Failed> {
    match word {
        "_" => Ok(Cell::Same),
        "NULL" => Ok(Cell::Null),
        _ => Ok(Cell::Text(Text::of(alloc, word.as_bytes())?)),
    }
}

/// The cells that commas divide.
pub fn cells_of(alloc: Global, text: &str) -> Result<Cells, Failed> {
    let mut cells = Vec::new(alloc);
    for word in text.split(',') {
        cells.push(cell_of(alloc, word)?)?;
    }
    Ok(Cells::of(cells))
}

/// Cells, one behind another: `_` for unchanged, `null`, or a text in brackets.
pub fn cells_text(alloc: Global, cells: &Cells) -> Result<String, Failed> {
    let mut text = String::new(alloc);
    for cell in cells.as_slice() {
        match cell {
            Cell::Same => text.push_str("_")?,
            Cell::Null => text.push_str("null")?,
            Cell::Text(said) => write!(text, "[{}]", said.as_str())?,
        }
    }
    Ok(text)
}

/// The row of values that commas divide.
pub fn row_of(alloc: Global, text: &str) -> Result<Row, Failed> {
    let mut values = Vec::new(alloc);
    for word in text.split(',') {
        if word == "NULL" {
            values.push(Value::Null)?;
        } else {
            values.push(Value::Text(Text::of(alloc, word.as_bytes())?))?;
        }
    }
    Ok(Row::of(values))
}

/// The values of a row, divided by commas.
pub fn row_text(alloc: Global, row: &Row) -> Result<String, Failed> {
    let mut text = String::new(alloc);
    for (i, value) in row.as_slice().iter().enumerate() {
        if i > 0 {
            text.push(',')?;
        }
        match value {
            Value::Null => text.push_str("NULL")?,
            Value::Text(said) => text.push_str(said.as_str())?,
        }
    }
    Ok(text)
}
