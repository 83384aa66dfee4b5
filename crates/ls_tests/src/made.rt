//! Values from words, for the tests of all crates.
use ls_value::{Cell, Cells, Names, NoMemory, Row, Text, Value};
use std::alloc::Global;

/// The text of a word.
pub fn text(alloc: Global, word: &str) -> Result<Text, NoMemory> {
    Text::from_str(alloc, word)
}

/// The value of a word: `#` is null, and every other word a text.
fn value(alloc: Global, word: &str) -> Result<Value, NoMemory> {
    if word == "#" {
        return Ok(Value::Null);
    }
    Ok(Value::Text(text(alloc, word)?))
}

/// The row of words between bars.
pub fn row(alloc: Global, words: &'static str) -> Result<Row, NoMemory> {
    let mut values = Vec::new(alloc);
    for word in words.split('|') {
        values.push(value(alloc, word)?)?;
    }
    Ok(Row::of(values))
}

/// The cell of a word: `=` leaves the field as it is, `#` is null, and every other word a text.
pub fn cell(alloc: Global, word: &str) -> Result<Cell, NoMemory> {
    match word {
        "=" => Ok(Cell::Same),
        "#" => Ok(Cell::Null),
        word => Ok(Cell::Text(text(alloc, word)?)),
    }
}

/// The cells of words between bars.
pub fn cells(alloc: Global, words: &'static str) -> Result<Cells, NoMemory> {
    let mut cells = Vec::new(alloc);
    for word in words.split('|') {
        cells.push(cell(alloc, word)?)?;
    }
    Ok(Cells::of(cells))
}

/// The names between commas.
pub fn names(alloc: Global, words: &'static str) -> Result<Names, NoMemory> {
    let mut names = Vec::new(alloc);
    for word in words.split(',') {
        names.push(text(alloc, word)?)?;
    }
    Ok(Names::of(names))
}

/// The word of a value.
fn word(value: &Value) -> &str {
    match value {
        Value::Null => "#",
        Value::Text(text) => text.as_str(),
    }
}

/// The words of a row, between bars.
pub fn row_text(alloc: Global, row: &Row) -> Result<String, NoMemory> {
    let mut words = String::new(alloc);
    for value in row.as_slice() {
        if !words.is_empty() {
            words.push('|')?;
        }
        words.push_str(word(value))?;
    }
    Ok(words)
}

/// The word of a cell.
fn change(cell: &Cell) -> &str {
    match cell {
        Cell::Same => "=",
        Cell::Null => "#",
        Cell::Text(text) => text.as_str(),
    }
}

/// The words of cells, between bars.
pub fn cells_text(alloc: Global, cells: &Cells) -> Result<String, NoMemory> {
    let mut words = String::new(alloc);
    for cell in cells.as_slice() {
        if !words.is_empty() {
            words.push('|')?;
        }
        words.push_str(change(cell))?;
    }
    Ok(words)
}

/// Whether a row is that of these words, of which no text is `#`.
pub fn is_row(row: &Row, words: &'static str) -> bool {
    let mut words = words.split('|');
    for value in row.as_slice() {
        if words.next() != Some(word(value)) {
            return false;
        }
    }
    words.next().is_none()
}

/// Whether cells are those of these words, of which no text is `#` or `=`.
pub fn is_cells(cells: &Cells, words: &'static str) -> bool {
    let mut words = words.split('|');
    for cell in cells.as_slice() {
        if words.next() != Some(change(cell)) {
            return false;
        }
    }
    words.next().is_none()
}
