//! Each call once with ample memory; `ls_tables` has the tables of coded fields.
use ls_update::*;
use ls_value::{NoMemory, Row, Text, Value, same, same_bytes};
use std::alloc::Global;

/// The row of null and a text.
fn row_of(alloc: Global, second: &str) -> Result<Row, NoMemory> {
    let text = Text::from_string(String::from_str(alloc, second)?);
    Ok(Row::of(vec![in alloc; Value::Null, Value::Text(text)]?))
}

/// Whether a row is written after another one.
fn writes(alloc: Global) -> Result<bool, NoMemory> {
    let before = row_of(alloc, "a")?;
    let row = row_of(alloc, "#c")?;
    let fields = write(alloc, Some(&before), &row)?;
    Ok(same_bytes(fields.as_slice(), b"|%23c"))
}

/// Whether a row is read after another one.
fn reads(alloc: Global) -> Result<bool, NoMemory> {
    let before = row_of(alloc, "a")?;
    let row = row_of(alloc, "#c")?;
    if before.len() != 2 {
        return Ok(false);
    }
    match read(alloc, Some(&before), b"|%23c", 2) {
        Ok(again) => Ok(same(&again, &row)),
        Err(_) => Ok(false),
    }
}

#[test]
fn a_row_is_written(rt: HostRuntime) -> Result<(), NoMemory> {
    assert!(rt; writes(rt.alloc())?);
    Ok(())
}

#[test]
fn a_row_is_read(rt: HostRuntime) -> Result<(), NoMemory> {
    assert!(rt; reads(rt.alloc())?);
    Ok(())
}
