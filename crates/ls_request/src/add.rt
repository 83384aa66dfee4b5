//! New subscriptions (TLCP 2.1, control with LS_op add).
ghost use Rattle.std.specs.Prelude.{◌≡◌, None, IfOk, IfSome, codes, map};
ghost use Rattle.ls_words.specs.Words.{divided};
ghost use Rattle.ls_form.specs.Forms.{text_under};
ghost use Rattle.ls_event.specs.declared.event.Snap.TheVariants as snap;
ghost use Rattle.ls_request.specs.Values.{sub_of, mode_of, all_named, names_of, snap_of, size_of, frequency_of};
ghost use Rattle.ls_request.specs.Requests.{or_absent, needed, says_more, add_of};
ghost use Rattle.ls_request.specs.Ranges.{IsOrdinal, IsRate, SnapFits, AddFits};

use crate::request::Add;
use crate::values;
use ls_event::{Mode, Snap};
use ls_form::Params;
use ls_value::{Names, NoMemory, Text};
use std::alloc::{AllocError, Global};

/// The subscription's number.
pub(crate) fn sub(params: &Params) -> Option<u32>
    ensures value { result ≡ needed sub_of (text_under params.now (codes "LS_subId")) }
    ensures fits { IfSome result IsOrdinal }
{
    match params.find(b"LS_subId") {
        Some(text) => values::sub(text.as_bytes()),
        None => None,
    }
}

/// The mode.
fn mode(params: &Params) -> Option<Mode>
    ensures { result ≡ needed mode_of (text_under params.now (codes "LS_mode")) }
{
    match params.find(b"LS_mode") {
        Some(text) => values::mode_of(text.as_bytes()),
        None => None,
    }
}

/// Whether there is a selector, which isn't served.
fn selects(params: &Params) -> bool
    ensures { result ≡ says_more (text_under params.now (codes "LS_selector")) }
{
    match params.find(b"LS_selector") {
        Some(text) => !text.is_empty(),
        None => false,
    }
}

/// The snapshot: none where it is absent.
fn snapshot(mode: Mode, params: &Params) -> Option<Snap>
    ensures value { result ≡ or_absent snap.No (snap_of mode) (text_under params.now (codes "LS_snapshot")) }
    ensures fits { IfSome result SnapFits }
{
    match params.find(b"LS_snapshot") {
        Some(text) => values::snapshot(mode, text.as_bytes()),
        None => Some(Snap::No),
    }
}

/// The size of the buffers: the mode's default where it is absent.
fn size(params: &Params) -> Option<Option<u32>>
    ensures value { result ≡ or_absent None size_of (text_under params.now (codes "LS_requested_buffer_size")) }
    ensures fits { IfSome result (λ r. IfSome r IsOrdinal) }
{
    match params.find(b"LS_requested_buffer_size") {
        Some(text) => values::size(text.as_bytes()),
        None => Some(None),
    }
}

/// The frequency: unlimited where it is absent.
fn frequency(params: &Params) -> Option<Option<u64>>
    ensures value { result ≡ or_absent None frequency_of (text_under params.now (codes "LS_requested_max_frequency")) }
    ensures fits { IfSome result (λ r. IfSome r IsRate) }
{
    match params.find(b"LS_requested_max_frequency") {
        Some(text) => values::frequency(text.as_bytes()),
        None => Some(None),
    }
}

/// The words of a text, divided by single spaces.
fn words<'a>(alloc: Global, text: &'a str) -> Result<Vec<&'a str>, AllocError>
    ensures { IfOk result (λ words. map (λ w. w.now) words.items ≡ divided 32 text.now) }
{
    text.split(' ').collect(alloc)
}

/// The names that words say: `None` exactly where one of them is empty.
fn names_from(alloc: Global, words: &[&str]) -> Result<Option<Names>, NoMemory>
    ensures { IfOk result (λ names. names ≡ all_named (map (λ w. w.now) words.now)) }
{
    let mut names = Vec::new(alloc);
    for word in words {
        if word.is_empty() {
            return Ok(None);
        }
        names.push(Text::from_str(alloc, word)?)?;
    }
    Ok(Some(Names::of(names)))
}

/// The names that a text says: `None` exactly where one of them is empty.
fn names(alloc: Global, text: &Text) -> Result<Option<Names>, NoMemory>
    ensures { IfOk result (λ names. names ≡ names_of text.now) }
{
    if text.is_empty() {
        return Ok(Some(Names::of(Vec::new(alloc))));
    }
    let words = words(alloc, text.as_str())?;
    names_from(alloc, &words)
}

/// The names of the items.
fn group(alloc: Global, params: &Params) -> Result<Option<Names>, NoMemory>
    ensures { IfOk result (λ names. names ≡ needed names_of (text_under params.now (codes "LS_group"))) }
{
    match params.find(b"LS_group") {
        Some(text) => names(alloc, text),
        None => Ok(None),
    }
}

/// The names of the fields.
fn schema(alloc: Global, params: &Params) -> Result<Option<Names>, NoMemory>
    ensures { IfOk result (λ names. names ≡ needed names_of (text_under params.now (codes "LS_schema"))) }
{
    match params.find(b"LS_schema") {
        Some(text) => names(alloc, text),
        None => Ok(None),
    }
}

/// The parameters of a new subscription.
pub(crate) fn add(alloc: Global, params: &Params) -> Result<Option<Add>, NoMemory>
    ensures value { IfOk result (λ r. r ≡ add_of params.now) }
    ensures fits { IfOk result (λ r. IfSome r AddFits) }
{
    let Some(sub) = sub(params) else {
        return Ok(None);
    };
    let Some(mode) = mode(params) else {
        return Ok(None);
    };
    let Some(group) = group(alloc, params)? else {
        return Ok(None);
    };
    let Some(schema) = schema(alloc, params)? else {
        return Ok(None);
    };
    if selects(params) {
        return Ok(None);
    }
    let Some(snapshot) = snapshot(mode, params) else {
        return Ok(None);
    };
    let Some(size) = size(params) else {
        return Ok(None);
    };
    let Some(frequency) = frequency(params) else {
        return Ok(None);
    };
    Ok(Some(Add {
        sub,
        mode,
        group,
        schema,
        snapshot,
        size,
        frequency,
    }))
}
