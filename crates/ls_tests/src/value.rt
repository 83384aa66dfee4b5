//! Values: the update of TLCP 2.1's example, and UTF-8's well-formed and ill-formed bytes.
use crate::made::{cells, is_row, names, row};
use ls_value::*;
use std::alloc::Global;
use std::test::Fail;

/// Whether a text has these bytes.
fn has(text: &Text, bytes: &[u8]) -> bool {
    text.as_bytes() == bytes
        && text.len() == bytes.len()
        && text.as_str().len() == bytes.len()
        && text.is_empty() == bytes.is_empty()
}

/// Whether bytes that are UTF-8 are a text, also by way of a copy, of a string and of its copy.
fn is_text(alloc: Global, bytes: &[u8]) -> Result<bool, TextRefused> {
    let text = Text::of(alloc, bytes)?;
    let copy = text.copy(alloc)?;
    let string = Text::from_string(String::from_str(alloc, copy.as_str())?);
    Ok(
        has(&text, bytes)
            && has(&copy, bytes)
            && has(&string, bytes)
            && has(&string.copy(alloc)?, bytes),
    )
}

/// Whether bytes are refused as no UTF-8.
fn is_ill_formed(alloc: Global, bytes: &[u8]) -> bool {
    matches!(Text::of(alloc, bytes), Err(TextRefused::NotUtf8))
}

#[test]
fn texts_are_utf8(rt: HostRuntime) -> Result<(), Fail> {
    let alloc = rt.alloc();
    for bytes in [b"20:06:10".as_slice(), b"\xC3\xA9", b""] {
        assert!(rt; is_text(alloc, bytes)?);
    }
    // 16 and 17 bytes, and a character whose bytes are the 15th and 16th, and the 16th and 17th.
    for bytes in [b"2026-12-01 20:06".as_slice(), b"2026-12-01 20:06Z"] {
        assert!(rt; is_text(alloc, bytes)?);
    }
    for bytes in [
        b"2026-12-01 20:\xC3\xA9".as_slice(),
        b"2026-12-01 20:0\xC3\xA9",
    ] {
        assert!(rt; is_text(alloc, bytes)?);
    }
    for bytes in [b"\xC3".as_slice(), b"\xE0\x80\x80", b"\xED\xA0\x80"] {
        assert!(rt; is_ill_formed(alloc, bytes));
    }
    Ok(())
}

/// The row after cells, in two ways.
fn applied(alloc: Global, before: &'static str, after: &'static str) -> Result<bool, NoMemory> {
    let mut row = row(alloc, before)?;
    let cells = cells(alloc, after)?;
    if row.len() != cells.len() {
        return Ok(false);
    }
    apply(alloc, &mut row, &cells)?;
    Ok(is_row(&row, "20:06:10|#|\u{E9}") && weight(&row) == 10)
}

/// A row of nulls after cells that are moved into it.
fn applied_owned(alloc: Global, after: &'static str) -> Result<bool, NoMemory> {
    let mut nulls = Row::nulls(alloc, 3)?;
    let cells = cells(alloc, after)?.copy(alloc)?;
    if nulls.len() != cells.len() {
        return Ok(false);
    }
    apply_owned(&mut nulls, cells);
    Ok(is_row(&nulls, "#|#|\u{E9}"))
}

/// Whether a copy of a row is the same, and has this weight.
fn copied(alloc: Global, words: &'static str, bytes: u64) -> Result<bool, NoMemory> {
    let row = row(alloc, words)?;
    let copy = row.copy(alloc)?;
    Ok(is_row(&copy, words) && same(&row, &copy) && weight(&copy) == bytes)
}

/// Whether two rows differ.
fn differ(alloc: Global, words: &'static str, others: &'static str) -> Result<bool, NoMemory> {
    let first = row(alloc, words)?;
    let second = row(alloc, others)?;
    Ok(!same(&first, &second))
}

/// Whether the values at places 2, 0, 2 are taken.
fn projected(alloc: Global) -> Result<bool, NoMemory> {
    let row = row(alloc, "20:06:10|3.05|0.32")?;
    let places = Places::of(vec![in alloc; 2, 0, 2]?).copy(alloc)?;
    let taken = project(alloc, &row, &places)?;
    Ok(is_row(&taken, "0.32|20:06:10|0.32") && is_projected(&taken, &row, &places))
}

/// Whether the cells at places 1 and 3, which is past the last, are taken.
fn cells_projected(alloc: Global) -> Result<bool, NoMemory> {
    let cells = cells(alloc, "=|3.06|#")?;
    let places = Places::of(vec![in alloc; 1, 3]?);
    let taken = project_cells(alloc, &cells, &places)?;
    Ok(match taken.as_slice() {
        [Cell::Text(text), Cell::Same] => same_bytes(text.as_bytes(), b"3.06"),
        _ => false,
    })
}

/// Whether a text, and a copy of it, becomes each of these in turn: of 8, 17, 16, 0, 20 and 1 bytes.
fn set_texts(alloc: Global, first: Text) -> Result<bool, NoMemory> {
    let mut text = first;
    for word in [
        "20:06:10",
        "2026-12-01 20:0\u{E9}",
        "2026-12-01 20:06",
        "",
        "2026-12-01T20:06:10Z",
        "3",
    ] {
        text.set(word)?;
        if !has(&text, word.as_bytes()) || !has(&text.copy(alloc)?, word.as_bytes()) {
            return Ok(false);
        }
    }
    Ok(true)
}

/// Whether a row of two fields becomes another one of three.
fn set_from(alloc: Global, words: &'static str) -> Result<bool, NoMemory> {
    let mut spare = row(alloc, "20:06:10|#")?;
    let other = row(alloc, words)?;
    spare.set_from(alloc, &other)?;
    Ok(is_row(&spare, words))
}

/// Whether a spare row becomes the row after cells.
fn set_applied(alloc: Global, spare: &mut Row, after: &'static str) -> Result<bool, NoMemory> {
    let row = row(alloc, "20:06:10|3.05|#")?;
    let cells = cells(alloc, after)?;
    if row.len() != cells.len() {
        return Ok(false);
    }
    spare.set_applied(alloc, &row, &cells)?;
    Ok(is_row(spare, "20:06:10|#|0.32"))
}

/// Whether a spare row becomes that at places, and that after the cells at them.
fn set_at(alloc: Global, spare: &mut Row, places: &Places) -> Result<bool, NoMemory> {
    let row = row(alloc, "20:06:10|3.05|#")?;
    spare.set_projected(alloc, &row, places)?;
    Ok(is_row(spare, "#|20:06:10"))
}

/// Whether a spare row becomes a row of two fields after the cells at places 2 and 0.
fn set_applied_at(alloc: Global, spare: &mut Row, places: &Places) -> Result<bool, NoMemory> {
    let row = row(alloc, "0.32|20:06:10")?;
    let cells = cells(alloc, "20:06:11|=|#")?;
    if row.len() != places.len() {
        return Ok(false);
    }
    spare.set_applied_at(alloc, &row, &cells, places)?;
    Ok(is_row(spare, "#|20:06:11"))
}

#[test]
fn rows_change_in_their_room(rt: HostRuntime) -> Result<(), Fail> {
    let alloc = rt.alloc();
    assert!(rt; set_texts(alloc, Text::from_str(alloc, "3.04")?)?);
    assert!(rt; set_texts(alloc, Text::from_str(alloc, "2026-12-01T20:06:10Z")?)?);
    assert!(rt; set_texts(alloc, Text::from_string(String::new(alloc)))?);
    assert!(rt; set_from(alloc, "#|20:06:10|3.05")?);
    let mut spare = row(alloc, "a|b")?;
    assert!(rt; set_applied(alloc, &mut spare, "=|#|0.32")?);
    let places = Places::of(vec![in alloc; 2, 0]?);
    assert!(rt; set_at(alloc, &mut spare, &places)?);
    assert!(rt; set_applied_at(alloc, &mut spare, &places)?);
    Ok(())
}

#[test]
fn rows_change_by_cells(rt: HostRuntime) -> Result<(), Fail> {
    let alloc = rt.alloc();
    assert!(rt; applied(alloc, "20:06:10|3.05|0.32", "=|#|\u{E9}")?);
    assert!(rt; applied_owned(alloc, "=|#|\u{E9}")?);
    assert!(rt; copied(alloc, "20:06:10|3.05|0.32", 16)?);
    Ok(())
}

#[test]
fn rows_are_compared(rt: HostRuntime) -> Result<(), Fail> {
    let alloc = rt.alloc();
    for others in ["a|#|c", "a|b", "a|b|d", "a|b|c|#"] {
        assert!(rt; differ(alloc, "a|b|c", others)?);
    }
    Ok(())
}

#[test]
fn schemas_take_places(rt: HostRuntime) -> Result<(), Fail> {
    assert!(rt; projected(rt.alloc())?);
    assert!(rt; cells_projected(rt.alloc())?);
    Ok(())
}

#[test]
fn names_are_found(rt: HostRuntime) -> Result<(), Fail> {
    let names = names(rt.alloc(), "time,last,change,last")?;
    assert!(rt; names.find(b"time") == Some(0) && names.find(b"last") == Some(1));
    assert!(rt; names.find(b"change") == Some(2) && names.find(b"las").is_none());
    assert!(rt; names.len() == 4 && !names.is_empty());
    assert!(rt; !names.copy(rt.alloc())?.are_distinct());
    Ok(())
}

#[test]
fn bytes_are_any(rt: HostRuntime) -> Result<(), Fail> {
    let bytes = Bytes::of(rt.alloc(), b"\xC3\x00")?;
    assert!(rt;
        same_bytes(bytes.as_slice(), b"\xC3\x00") && !same_bytes(bytes.as_slice(), b"\xC3")
    );
    assert!(rt; bytes.len() == 2 && Bytes::from_vec(Vec::new(rt.alloc())).is_empty());
    Ok(())
}
