//! One event text with ample memory; `ls_tables` has the table of them.
use ls_event::{Event, read_event};
use ls_value::{Cell, Names, NoMemory, Text, same_bytes};
use std::alloc::Global;

/// A text.
fn text(alloc: Global, word: &str) -> Result<Text, NoMemory> {
    Ok(Text::from_string(String::from_str(alloc, word)?))
}

/// The fields `a`, `b` and `c`.
fn fields(alloc: Global) -> Result<Names, NoMemory> {
    let (a, b, c) = (text(alloc, "a")?, text(alloc, "b")?, text(alloc, "c")?);
    Ok(Names::of(vec![in alloc; a, b, c]?))
}

/// Whether these cells are null, unchanged, and a text.
fn are(cells: &[Cell], third: &[u8]) -> bool {
    match cells {
        [Cell::Null, Cell::Same, Cell::Text(text)] => same_bytes(text.as_bytes(), third),
        _ => false,
    }
}

/// Whether a text says its update.
fn reads(alloc: Global) -> Result<bool, NoMemory> {
    let fields = fields(alloc)?;
    match read_event(alloc, b"c=%C3%A9&a=#", &fields) {
        Ok(Event::Update(cells)) => Ok(are(cells.as_slice(), b"\xC3\xA9")),
        _ => Ok(false),
    }
}

#[test]
fn a_text_is_read(rt: HostRuntime) -> Result<(), NoMemory> {
    assert!(rt; reads(rt.alloc())?);
    Ok(())
}
