//! The words behind an `add` line's mode.
ghost use Rattle.std.specs.Prelude.{◌≡◌, ◌∷◌, Some, None, IfOk, map, option_map};
ghost use Rattle.ls_step.specs.Grammar.{extras, first_extra};

use crate::words::behind;
use ls_step::Extras;
use ls_value::{Bytes, NoMemory};
use std::alloc::Global;

/// The text behind a beginning, where the first word has it, and the words that are left.
fn first_extra<'w, 'a>(begin: &[u8], words: &'w [&'a [u8]]) -> (Option<&'a [u8]>, &'w [&'a [u8]])
    ensures text { option_map (λ t. t.now) result.0 ≡ (first_extra begin.now (map (λ w. w.now) words.now)).text }
    ensures rest { map (λ w. w.now) result.1.now ≡ (first_extra begin.now (map (λ w. w.now) words.now)).rest }
{
    if words.is_empty() {
        return (None, words);
    }
    match behind(begin, words[0]) {
        Some(text) => (Some(text), &words[1..]),
        None => (None, words),
    }
}

/// A text's bytes, where there is one.
fn copied(alloc: Global, text: Option<&[u8]>) -> Result<Option<Bytes>, NoMemory>
    ensures { IfOk result (λ bytes. bytes ≡ option_map (λ t. t.now) text.entry) }
{
    match text {
        Some(text) => Ok(Some(Bytes::of(alloc, text)?)),
        None => Ok(None),
    }
}

/// What the words say: `None` exactly where one of them is no extra, or they stand in another order or twice.
pub(crate) fn read_extras(alloc: Global, words: &[&[u8]]) -> Result<Option<Extras>, NoMemory>
    ensures { IfOk result (λ said. said ≡ extras (map (λ w. w.now) words.now)) }
{
    let (snapshot, rest) = first_extra(b"snapshot=", words);
    let (buffer, rest) = first_extra(b"buffer=", rest);
    let (frequency, rest) = first_extra(b"frequency=", rest);
    if !rest.is_empty() {
        return Ok(None);
    }
    let snapshot = copied(alloc, snapshot)?;
    let buffer = copied(alloc, buffer)?;
    let frequency = copied(alloc, frequency)?;
    Ok(Some(Extras {
        snapshot,
        buffer,
        frequency,
    }))
}
