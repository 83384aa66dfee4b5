//! Single words of a script's lines.
ghost use Rattle.std.specs.Prelude.{◌≡◌, option_map};
ghost use Rattle.ls_step.specs.Grammar.{number_from as from_number, times_of, adapter_of, link_of, behind, once};
ghost use Rattle.ls_step.specs.Grammar.{so_often};

use ls_event::MOST_ADAPTERS;
use ls_request::LinkKind;
use ls_step::{GREATEST_IN_LINE, MOST_TIMES, Repeat, Step};
use ls_value::same_bytes;
use ls_words::number_in;

/// The text behind a word's beginning, where the word begins so.
#[tactic(auto, using(crate::proofs::Beginnings::none_behind))]
pub(crate) fn behind<'a>(begin: &[u8], word: &'a [u8]) -> Option<&'a [u8]>
    ensures { option_map (λ t. t.now) result ≡ behind begin.now word.now }
{
    if begin.len() > word.len() {
        return None;
    }
    if same_bytes(&word[..begin.len()], begin) {
        Some(&word[begin.len()..])
    } else {
        None
    }
}

/// A number of a line, from `low` on.
pub(crate) fn number_from(low: u64, text: &[u8]) -> Option<u64>
    ensures { result ≡ from_number low text.now }
{
    number_in(text, low, GREATEST_IN_LINE)
}

/// How often a step is made.
pub(crate) fn times_of(text: &[u8]) -> Option<u32>
    ensures { result ≡ times_of text.now }
{
    let times = number_in(text, 1, MOST_TIMES)?;
    Some(times as u32)
}

/// An adapter's number.
pub(crate) fn adapter_of(text: &[u8]) -> Option<u8>
    ensures { result ≡ adapter_of text.now }
{
    let adapter = number_in(text, 1, MOST_ADAPTERS as u64)?;
    Some(adapter as u8)
}

/// The kind of connections that a word says.
pub(crate) fn link_of(word: &[u8]) -> Option<LinkKind>
    ensures { result ≡ link_of word.now }
{
    if same_bytes(word, b"ws") {
        Some(LinkKind::Ws)
    } else if same_bytes(word, b"http") {
        Some(LinkKind::Http)
    } else {
        None
    }
}

/// A step that is made once.
pub(crate) fn once(step: Option<Step>) -> Option<Repeat>
    ensures { result ≡ once step }
{
    match step {
        Some(step) => Some(Repeat { step, times: 1 }),
        None => None,
    }
}

/// A step that is made so often.
pub(crate) fn so_often(step: Option<Step>, times: Option<u32>) -> Option<Repeat>
    ensures { result ≡ so_often step times }
{
    match (step, times) {
        (Some(step), Some(times)) => Some(Repeat { step, times }),
        (_, _) => None,
    }
}
