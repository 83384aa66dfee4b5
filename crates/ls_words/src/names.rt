//! Names of items, sets and connections (this project's profile).
ghost use Rattle.std.specs.Prelude.{◌≡◌, IfOk};
ghost use Rattle.ls_words.specs.Words.{is_name_byte, is_name, name_of};

use ls_value::{NoMemory, Text};
use std::alloc::Global;

/// The most bytes of a name.
pub const LONGEST_NAME: usize = 64;

/// Whether a byte stands in names: an ASCII letter, a digit, `_`, `.` or `-`.
fn is_name_byte(byte: u8) -> bool
    ensures { result ≡ is_name_byte byte }
{
    byte.is_ascii_alphanumeric() || byte == b'_' || byte == b'.' || byte == b'-'
}

/// Whether a text is a name: ASCII letters, digits, `_`, `.` or `-`, at least one and at most `LONGEST_NAME`.
pub fn is_name(text: &[u8]) -> bool
    ensures { result ≡ is_name text.now }
{
    if text.is_empty() || text.len() > LONGEST_NAME {
        return false;
    }
    for byte in text {
        if !is_name_byte(*byte) {
            return false;
        }
    }
    true
}

/// The name that a text is: `None` exactly where it is none.
pub fn name_of(alloc: Global, text: &[u8]) -> Result<Option<Text>, NoMemory>
    ensures { IfOk result (λ name. name ≡ name_of text.now) }
{
    if is_name(text) {
        let name = Text::of_utf8(alloc, text)?;
        Ok(Some(name))
    } else {
        Ok(None)
    }
}
