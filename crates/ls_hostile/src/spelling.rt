//! How bytes are written in a case and in its answer.
use crate::failed::Failed;
use std::alloc::Global;

/// Where a text stands within an escape.
#[derive(Clone, Copy)]
enum Place {
    Outside,
    Begun,
    /// Behind `\x`.
    Byte,
    /// Behind the first digit, which says so much.
    Digit(u8),
}

/// The bytes that are meant by what a case gives.
pub(crate) fn meant(alloc: Global, input: &str) -> Result<Vec<u8>, Failed> {
    let text = repeated(alloc, input)?;
    unescaped(alloc, text.as_bytes())
}

/// A text with its repetitions written out.
fn repeated(alloc: Global, input: &str) -> Result<String, Failed> {
    let mut out = String::new(alloc);
    for (i, piece) in input.split('{').enumerate() {
        if i == 0 {
            out.push_str(piece)?;
        } else {
            repeat(&mut out, piece)?;
        }
    }
    Ok(out)
}

/// Appends what stands behind a `{`.
fn repeat(out: &mut String, piece: &str) -> Result<(), Failed> {
    let Some((inside, behind)) = piece.split_once('}') else {
        return Err(Failed::BadCase);
    };
    let Some((times, text)) = inside.split_once(' ') else {
        return Err(Failed::BadCase);
    };
    for _ in 0..number(times)? {
        out.push_str(text)?;
    }
    out.push_str(behind)?;
    Ok(())
}

/// A number that a case gives.
pub(crate) fn number(word: &str) -> Result<usize, Failed> {
    match word.parse::<usize>() {
        Ok(number) => Ok(number),
        Err(_) => Err(Failed::BadCase),
    }
}

/// The bytes of a text with escapes.
fn unescaped(alloc: Global, text: &[u8]) -> Result<Vec<u8>, Failed> {
    let mut out = Vec::new(alloc);
    let mut place = Place::Outside;
    for byte in text {
        place = step(&mut out, place, *byte)?;
    }
    match place {
        Place::Outside => Ok(out),
        _ => Err(Failed::BadCase),
    }
}

/// Takes one byte of a text with escapes.
fn step(out: &mut Vec<u8>, place: Place, byte: u8) -> Result<Place, Failed> {
    let meant = match (place, byte) {
        (Place::Outside, b'\\') => return Ok(Place::Begun),
        (Place::Outside, _) => byte,
        (Place::Begun, b'x') => return Ok(Place::Byte),
        (Place::Begun, b'n') => b'\n',
        (Place::Begun, b'r') => b'\r',
        (Place::Begun, b'\\') => b'\\',
        (Place::Begun, _) => return Err(Failed::BadCase),
        (Place::Byte, _) => return Ok(Place::Digit(digit(byte)?)),
        (Place::Digit(first), _) => first << 4 | digit(byte)?,
    };
    out.push(meant)?;
    Ok(Place::Outside)
}

/// What a hexadecimal digit says.
fn digit(byte: u8) -> Result<u8, Failed> {
    match byte {
        b'0'..=b'9' => Ok(byte - b'0'),
        b'A'..=b'F' => Ok(byte - b'A' + 10),
        _ => Err(Failed::BadCase),
    }
}

/// Appends bytes as they are written in an answer.
pub(crate) fn spell(out: &mut String, bytes: &[u8]) -> Result<(), Failed> {
    for byte in bytes {
        spell_one(out, *byte)?;
    }
    Ok(())
}

/// Appends a byte as it is written in an answer.
fn spell_one(out: &mut String, byte: u8) -> Result<(), Failed> {
    match byte {
        b'\n' => out.push_str("\\n")?,
        b'\r' => out.push_str("\\r")?,
        b'\\' => out.push_str("\\\\")?,
        b' '..=b'~' => out.push(char::from(byte))?,
        _ => write!(out, "\\x{byte:02X}")?,
    }
    Ok(())
}
