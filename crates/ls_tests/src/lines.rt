//! Lines that are cut out of pieces: what no contract says is that the calls succeed with ample memory.
use ls_lines::{LineCutter, LineRefused};
use ls_value::{NoMemory, same_bytes};
use std::alloc::{AllocError, Global};

/// A line with a bar behind it, behind a text.
fn add(said: &mut Vec<u8>, line: &[u8]) -> Result<(), AllocError> {
    said.extend_from_slice(line)?;
    said.push(b'|')?;
    Ok(())
}

/// What one byte more makes of a text: a line that it ends, or a mark where the line is too long.
fn take_byte(cutter: &mut LineCutter, said: &mut Vec<u8>, byte: &[u8]) -> Result<(), NoMemory> {
    match cutter.take(byte) {
        Ok(Some(used)) => add(said, cutter.line(byte, used))?,
        Ok(None) => {}
        Err(LineRefused::TooLong) => said.push(b'!')?,
        Err(LineRefused::NoMemory) => return Err(NoMemory),
    }
    Ok(())
}

/// The lines of a text that comes byte by byte, each with a bar behind it, and then the rest.
fn cut(alloc: Global, text: &[u8], limit: usize) -> Result<Vec<u8>, NoMemory> {
    let mut cutter = LineCutter::new(alloc, limit);
    let mut said = Vec::new(alloc);
    for i in 0..text.len() {
        take_byte(&mut cutter, &mut said, &text[i..i + 1])?;
    }
    said.extend_from_slice(cutter.rest())?;
    Ok(said)
}

/// Whether a text that comes byte by byte is cut so.
fn cuts(alloc: Global, text: &[u8], limit: usize, wanted: &[u8]) -> Result<bool, NoMemory> {
    let said = cut(alloc, text, limit)?;
    Ok(same_bytes(&said, wanted))
}

#[test]
fn lines_are_cut_byte_by_byte(rt: HostRuntime) -> Result<(), NoMemory> {
    assert!(rt; cuts(rt.alloc(), b"ab\ncde\n\nf", 16, b"ab|cde||f")?);
    assert!(rt; cuts(rt.alloc(), b"", 16, b"")?);
    assert!(rt; cuts(rt.alloc(), b"abc\nab\n", 2, b"!ab|ab|")?);
    Ok(())
}

/// Whether a piece is taken up to the end of its first line, which is this.
fn takes_one(cutter: &mut LineCutter, piece: &[u8], line: &[u8]) -> bool {
    match cutter.take(piece) {
        Ok(Some(used)) => used == 3 && same_bytes(cutter.line(piece, used), line),
        _ => false,
    }
}

#[test]
fn a_piece_is_taken_up_to_the_end_of_a_line(rt: HostRuntime) -> Result<(), NoMemory> {
    let mut cutter = LineCutter::new(rt.alloc(), 4);
    assert!(rt; cutter.take(b"ab") == Ok(None));
    assert!(rt; takes_one(&mut cutter, b"cd\nef\n", b"abcd"));
    assert!(rt; takes_one(&mut cutter, b"ef\n", b"ef"));
    assert!(rt; cutter.take(b"abcde") == Err(LineRefused::TooLong));
    Ok(())
}
