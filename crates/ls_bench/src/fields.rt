//! How long the coded fields of a row take to be written and to be read.
ghost use Rattle.std.specs.Prelude.{◌≡◌, ◌≤◌, IfOk, length};

use crate::Failed;
use ls_update::{read, write};
use ls_value::{NoMemory, Row, Text, Value};
use std::alloc::Global;
use std::rt::Runtime;
use std::time::Instant;

/// The numbers of fields that are measured.
const SIZES: [usize; 3] = [4, 16, 64];

/// How often each row is written and read.
const TIMES: u64 = 20_000;

/// The value of a field in this version of a row: every tenth field differs from version to version.
fn value_of(alloc: Global, field: usize, version: u64) -> Result<Value, NoMemory> {
    let changed = if field % 10 == 0 { version } else { 0 };
    let text = format!(in alloc; "{field}.{changed}4")?;
    Ok(Value::Text(Text::from_string(text)))
}

/// A row of so many fields.
fn row_of(alloc: Global, fields: usize, version: u64) -> Result<Row, NoMemory>
    ensures { IfOk result (λ row. length row ≡ fields) }
{
    let mut values = Vec::new(alloc);
    for field in 0..fields {
        values.push(value_of(alloc, field, version)?)?;
    }
    Ok(Row::of(values))
}

/// How many bytes are written where a row is written so many times behind another one.
fn write_often(alloc: Global, before: &Row, row: &Row) -> Result<u64, NoMemory> {
    let mut bytes: u64 = 0;
    for _ in 0..TIMES {
        let text = write(alloc, Some(before), row)?;
        bytes = bytes.saturating_add(text.len() as u64);
    }
    Ok(bytes)
}

/// How many bytes are read where a text is read so many times behind a row.
fn read_often(alloc: Global, before: &Row, text: &[u8], fields: usize) -> Result<u64, Failed>
    requires some { 1 ≤ fields }
    requires before { length before.now ≡ fields }
{
    let mut bytes: u64 = 0;
    for _ in 0..TIMES {
        let Ok(row) = read(alloc, Some(before), text, fields) else {
            return Err(Failed::Unread);
        };
        if row.is_empty() {
            return Err(Failed::Unread);
        }
        bytes = bytes.saturating_add(text.len() as u64);
    }
    Ok(bytes)
}

/// Prints what one call took, and how many bytes a second went through.
fn report<R: Runtime + AllocGlobal>(
    rt: &R,
    what: &str,
    fields: usize,
    start: Instant,
    bytes: u64,
) -> Result<(), Failed> {
    let nanoseconds = start.elapsed(rt)?.as_nanos().max(1);
    let each = nanoseconds / TIMES as u128;
    let rate = (bytes as u128).saturating_mul(1_000_000_000) / nanoseconds;
    println!(rt; "{what} {fields} fields, a tenth changed: {each} ns, {rate} bytes/s")?;
    Ok(())
}

/// Measures rows of one size.
fn measure_size<R: Runtime + AllocGlobal>(rt: &R, fields: usize) -> Result<(), Failed>
    requires { 1 ≤ fields }
{
    let alloc = rt.alloc();
    let before = row_of(alloc, fields, 1)?;
    let row = row_of(alloc, fields, 2)?;
    let start = Instant::now(rt)?;
    let written = write_often(alloc, &before, &row)?;
    report(rt, "write", fields, start, written)?;
    let text = write(alloc, Some(&before), &row)?;
    let start = Instant::now(rt)?;
    let taken = read_often(alloc, &before, text.as_slice(), fields)?;
    report(rt, "read ", fields, start, taken)
}

/// Measures rows of each size.
pub fn measure<R: Runtime + AllocGlobal>(rt: &R) -> Result<(), Failed> {
    for fields in SIZES {
        measure_size(rt, fields)?;
    }
    Ok(())
}
