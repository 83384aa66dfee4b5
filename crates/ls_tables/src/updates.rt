//! Coded fields of rows.
use crate::failed::Failed;
use crate::words::{number, row_of, row_text, two, word};
use ls_update::{ReadRefused, read, write};
use ls_value::Row;
use std::alloc::Global;

/// The coded fields of a row after another one.
pub fn row(alloc: Global, input: &[u8]) -> Result<String, Failed> {
    let (before, row) = two(input);
    let before = row_of(alloc, word(before)?)?;
    written(alloc, Some(&before), row)
}

/// The coded fields of a row.
pub fn first_row(alloc: Global, input: &[u8]) -> Result<String, Failed> {
    written(alloc, None, input)
}

/// The coded fields of a row after the one before it.
fn written(alloc: Global, before: Option<&Row>, row: &[u8]) -> Result<String, Failed> {
    let row = row_of(alloc, word(row)?)?;
    let fields = write(alloc, before, &row)?;
    Ok(String::from_str(alloc, word(fields.as_slice())?)?)
}

/// The row that coded fields say after another one.
pub fn fields(alloc: Global, input: &[u8]) -> Result<String, Failed> {
    let (before, fields) = two(input);
    let before = row_of(alloc, word(before)?)?;
    let n = before.len();
    if n == 0 {
        return Err(Failed::BadCase);
    }
    answer(alloc, read(alloc, Some(&before), fields, n))
}

/// The row of so many fields that coded fields say.
pub fn first_fields(alloc: Global, input: &[u8]) -> Result<String, Failed> {
    let (n, fields) = two(input);
    let n = number(n)?;
    if n == 0 {
        return Err(Failed::BadCase);
    }
    answer(alloc, read(alloc, None, fields, n as usize))
}

/// What reading answered.
fn answer(alloc: Global, read: Result<Row, ReadRefused>) -> Result<String, Failed> {
    let (cause, at) = match read {
        Ok(row) => return row_text(alloc, &row),
        Err(ReadRefused::TooFew { got }) => ("few", got),
        Err(ReadRefused::TooMany { at }) => ("many", at),
        Err(ReadRefused::BadRun { at }) => ("run", at),
        Err(ReadRefused::BadText { at }) => ("text", at),
        Err(ReadRefused::NoMemory) => return Err(Failed::NoMemory),
    };
    Ok(format!(in alloc; "{cause} {at}")?)
}
