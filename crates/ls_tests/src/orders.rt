//! One own row with ample memory; `ls_tables` has the tables of orders and own rows.
use ls_event::own_row;
use ls_value::{Cell, Cells, NoMemory, Text, Value, same_bytes};
use std::alloc::Global;

/// Whether these values are null, null and a text.
fn are(values: &[Value], third: &[u8]) -> bool {
    match values {
        [Value::Null, Value::Null, Value::Text(text)] => same_bytes(text.as_bytes(), third),
        _ => false,
    }
}

/// Whether cells make their own row.
fn makes(alloc: Global) -> Result<bool, NoMemory> {
    let text = Text::from_string(String::from_str(alloc, "3.05")?);
    let cells = Cells::of(vec![in alloc; Cell::Same, Cell::Null, Cell::Text(text)]?);
    let row = own_row(alloc, &cells)?;
    Ok(are(row.as_slice(), b"3.05"))
}

#[test]
fn an_own_row_is_made(rt: HostRuntime) -> Result<(), NoMemory> {
    assert!(rt; makes(rt.alloc())?);
    Ok(())
}
