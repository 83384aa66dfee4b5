//! The parameters that an `add` line's words are handed on as (this project's profile; TLCP 2.1, control with LS_op
//! add).
ghost use Rattle.std.specs.Prelude.{◌≡◌, [], ◌∷◌, ◌++◌, IfOk, OnOk, true, option_map};
ghost use Rattle.std.specs.Str.{is_utf8};
ghost use Rattle.ls_step.specs.Adding.{is_utf8_word, are_utf8, spaced, mode_word, parameter, extra_parameter};
ghost use Rattle.ls_step.specs.Adding.{needed_pairs, all_pairs, add_pairs};

use ls_event::Mode;
use ls_form::{Pair, Params};
use ls_step::AddWords;
use ls_value::{Bytes, NoMemory, Text};
use std::alloc::{AllocError, Global};

/// The parameters of the control request that an `add` line says, the line's number being the request's own name:
/// `None` exactly where one of its words isn't UTF-8.
///
/// Each word is a parameter's text as it stands, so `+`, `%` and `&` stand for themselves; in items and fields a comma
/// is a space (this project's profile).
pub fn add_params(alloc: Global, line: u64, words: &AddWords) -> Result<Option<Params>, NoMemory>
    ensures { IfOk result (λ params. params ≡ add_pairs line words.now) }
{
    if are_utf8(words) {
        let mut pairs = Vec::new(alloc);
        push_all(alloc, &mut pairs, line, words)?;
        Ok(Some(Params::of(pairs)))
    } else {
        Ok(None)
    }
}

/// Whether each word is UTF-8.
fn are_utf8(words: &AddWords) -> bool
    ensures { result ≡ are_utf8 words.now }
{
    is_utf8(&words.sub)
        && is_utf8(&words.items)
        && is_utf8(&words.fields)
        && is_utf8_word(&words.snapshot)
        && is_utf8_word(&words.buffer)
        && is_utf8_word(&words.frequency)
}

/// Whether a word that may be absent is UTF-8.
fn is_utf8_word(word: &Option<Bytes>) -> bool
    ensures { result ≡ is_utf8_word word.now }
{
    match word {
        Some(word) => is_utf8(word),
        None => true,
    }
}

/// Whether a word is UTF-8.
fn is_utf8(word: &Bytes) -> bool
    ensures { result ≡ is_utf8 word.now }
{
    match std::str::from_utf8(word.as_slice()) {
        Ok(_) => true,
        Err(_) => false,
    }
}

/// Adds all parameters.
fn push_all(
    alloc: Global,
    pairs: &mut Vec<Pair>,
    line: u64,
    words: &AddWords,
) -> Result<(), NoMemory>
    requires { are_utf8 words.now ≡ true }
    ensures { OnOk result (pairs.new.items ≡ pairs.old.items ++ all_pairs line words.now) }
{
    push_needed(alloc, pairs, line, words)?;
    push_extra(alloc, pairs, "LS_snapshot", &words.snapshot)?;
    push_extra(alloc, pairs, "LS_requested_buffer_size", &words.buffer)?;
    push_extra(alloc, pairs, "LS_requested_max_frequency", &words.frequency)
}

/// Adds the parameters that each `add` line has.
fn push_needed(
    alloc: Global,
    pairs: &mut Vec<Pair>,
    line: u64,
    words: &AddWords,
) -> Result<(), NoMemory>
    requires { are_utf8 words.now ≡ true }
    ensures { OnOk result (pairs.new.items ≡ pairs.old.items ++ needed_pairs line words.now) }
{
    let number = Text::from_string(format!(in alloc; "{line}")?);
    push(alloc, pairs, "LS_reqId", number)?;
    push_word(alloc, pairs, "LS_op", "add")?;
    push_text(alloc, pairs, "LS_subId", &words.sub)?;
    push_word(alloc, pairs, "LS_mode", mode_word(words.mode))?;
    push_names(alloc, pairs, "LS_group", &words.items)?;
    push_names(alloc, pairs, "LS_schema", &words.fields)
}

/// Adds a parameter of a fixed text.
fn push_word(alloc: Global, pairs: &mut Vec<Pair>, name: &str, word: &str) -> Result<(), NoMemory>
    ensures { OnOk result (pairs.new.items ≡ pairs.old.items ++ parameter name.now word.now ∷ []) }
{
    push(alloc, pairs, name, Text::from_str(alloc, word)?)
}

/// Adds a parameter of a word's text.
fn push_text(alloc: Global, pairs: &mut Vec<Pair>, name: &str, word: &Bytes) -> Result<(), NoMemory>
    requires { is_utf8 word.now ≡ true }
    ensures { OnOk result (pairs.new.items ≡ pairs.old.items ++ parameter name.now word.now ∷ []) }
{
    push(alloc, pairs, name, text(alloc, word.as_slice())?)
}

/// Adds a parameter of a word's names.
fn push_names(
    alloc: Global,
    pairs: &mut Vec<Pair>,
    name: &str,
    word: &Bytes,
) -> Result<(), NoMemory>
    requires { is_utf8 word.now ≡ true }
    ensures { OnOk result (pairs.new.items ≡ pairs.old.items ++ parameter name.now (spaced word.now) ∷ []) }
{
    push(alloc, pairs, name, names(alloc, word)?)
}

/// Adds a parameter.
fn push(alloc: Global, pairs: &mut Vec<Pair>, name: &str, text: Text) -> Result<(), NoMemory>
    ensures { OnOk result (pairs.new.items ≡ pairs.old.items ++ parameter name.now text ∷ []) }
{
    let name = Text::from_str(alloc, name)?;
    pairs.push(Pair { name, text })?;
    Ok(())
}

/// Adds a parameter, where it is there.
fn push_extra(
    alloc: Global,
    pairs: &mut Vec<Pair>,
    name: &str,
    word: &Option<Bytes>,
) -> Result<(), NoMemory>
    requires { is_utf8_word word.now ≡ true }
    ensures { OnOk result (pairs.new.items ≡ pairs.old.items ++ extra_parameter name.now word.now) }
{
    match word {
        Some(word) => push_text(alloc, pairs, name, word),
        None => Ok(()),
    }
}

/// The word of a mode (TLCP 2.1, LS_mode).
fn mode_word(mode: Mode) -> &'static str
    ensures { result.now ≡ mode_word mode }
{
    match mode {
        Mode::Raw => "RAW",
        Mode::Merge => "MERGE",
        Mode::Distinct => "DISTINCT",
        Mode::Command => "COMMAND",
    }
}

/// The text of these bytes.
fn text(alloc: Global, bytes: &[u8]) -> Result<Text, NoMemory>
    requires { is_utf8 bytes.now ≡ true }
    ensures { IfOk result (λ t. t ≡ bytes.now) }
{
    Text::of_utf8(alloc, bytes)
}

/// The text of names, divided by spaces, of a word that divides them by commas.
fn names(alloc: Global, word: &Bytes) -> Result<Text, NoMemory>
    requires { is_utf8 word.now ≡ true }
    ensures { IfOk result (λ t. t ≡ spaced word.now) }
{
    let spaced = spaced(alloc, word.as_slice())?;
    text(alloc, &spaced)
}

/// These bytes with a space for each comma.
fn spaced(alloc: Global, bytes: &[u8]) -> Result<Vec<u8>, AllocError>
    ensures { IfOk result (λ v. v.items ≡ spaced bytes.now) }
{
    bytes
        .iter()
        .map(|&b| if b == b',' { b' ' } else { b })
        .collect(alloc)
}
