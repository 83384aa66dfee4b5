//! Rows in words.
use ls_value::{NoMemory, Row, Value};
use std::alloc::Global;

/// The word of a value.
fn word(value: &Value) -> &str {
    match value {
        Value::Null => "#",
        Value::Text(text) => text.as_str(),
    }
}

/// The words of a row, between bars.
pub fn row_text(alloc: Global, row: &Row) -> Result<String, NoMemory> {
    let mut words = String::new(alloc);
    for value in row.as_slice() {
        if !words.is_empty() {
            words.push('|')?;
        }
        words.push_str(word(value))?;
    }
    Ok(words)
}

/// A number that a word says; 0 where it says none.
pub fn number(word: &str) -> u64 {
    word.parse::<u64>().unwrap_or(0)
}
