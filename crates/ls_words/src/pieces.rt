//! The pieces of a text, divided by a byte.
ghost use Rattle.std.specs.Prelude.{◌≡◌, ◌∷◌, IfOk, map, option_map};
ghost use Rattle.ls_words.specs.Words.{divided, pieces_behind, split_once, halves};

use ls_value::NoMemory;
use std::alloc::{AllocError, Global};

/// The pieces of a text that a byte divides, in order. A text without that byte is one piece, and a piece may be
/// empty: two spaces in a row, or one at an end, divide an empty word.
pub fn divided<'a>(alloc: Global, divider: u8, text: &'a [u8]) -> Result<Vec<&'a [u8]>, NoMemory>
    ensures { IfOk result (λ pieces. map (λ p. p.now) pieces.items ≡ divided divider text.now) }
{
    let pieces = collected(alloc, divider, text)?;
    Ok(pieces)
}

/// The pieces of a text that a byte divides.
fn collected<'a>(alloc: Global, divider: u8, text: &'a [u8]) -> Result<Vec<&'a [u8]>, AllocError>
    ensures { IfOk result (λ pieces. map (λ p. p.now) pieces.items ≡ divided divider text.now) }
{
    text.split(|b| *b == divider).collect(alloc)
}

/// The first piece of a text that a byte divides, and the text behind that byte, where it stands there. No memory is
/// taken.
pub fn first_piece(divider: u8, text: &[u8]) -> (&[u8], Option<&[u8]>)
    ensures { divided divider text.now ≡ result.0.now ∷ pieces_behind divider result.1 }
{
    match text.iter().position(|b| *b == divider) {
        Some(at) => (&text[..at], Some(&text[at + 1..])),
        None => (text, None),
    }
}

/// The text before and behind the first such byte: `None` exactly where it doesn't stand in the text. No memory is
/// taken.
pub fn split_once(divider: u8, text: &[u8]) -> Option<(&[u8], &[u8])>
    ensures { option_map halves result ≡ split_once divider text.now }
{
    match text.iter().position(|b| *b == divider) {
        Some(at) => Some((&text[..at], &text[at + 1..])),
        None => None,
    }
}
