//! Lines from bytes (TLCP 2.1).
ghost use Rattle.std.specs.Prelude.{◌≡◌, IfOk, Some, true};
ghost use Rattle.std.specs.List.{list_all};
ghost use Rattle.std.specs.Str.{is_utf8};
ghost use Rattle.ls_line.specs.Lines.{text_of_line, is_message_byte, IsWritable};
ghost use Rattle.ls_line.specs.Forms.{kinds_of};
ghost use Rattle.ls_line.specs.Pieces.{behind, first_piece};
ghost use Rattle.ls_line.specs.Reading.{piece, has_rest, has_parts, ordinal_in, count_in, or_zero};
ghost use Rattle.ls_line.specs.Reading.{is_bad_number, is_bad_text, first_bad, cause_behind, refusal, line_behind};
ghost use Rattle.ls_line.specs.Reading.{line_of, AnswersFirst};

use crate::line::{Line, LineRefused};
use crate::pieces::{behind, commas, first_piece};
use crate::table::{Kind, Tag, is_rest, kinds_of, lines, tag_of, word_text};
use ls_value::{Bytes, GREATEST_NUMBER, GREATEST_ORDINAL, NoMemory, Text, same_bytes};
use ls_words::number_in;
use std::alloc::Global;

/// Whether some part is the rest of the line.
fn has_rest(kinds: &[Kind]) -> bool
    ensures { result ≡ has_rest kinds.now }
{
    for kind in kinds {
        if is_rest(*kind) {
            return true;
        }
    }
    false
}

/// Whether so many commas divide a line into the pieces of its parts; a rest may hold more of them.
fn has_parts(kinds: &[Kind], commas: usize) -> bool
    ensures { result ≡ has_parts kinds.now commas }
{
    if has_rest(kinds) {
        kinds.len() <= commas
    } else {
        commas == kinds.len()
    }
}

/// The piece that says a part, where this is left of the line.
fn piece(kind: Kind, rest: &[u8]) -> &[u8]
    ensures { result.now ≡ piece kind rest.now }
{
    if is_rest(kind) {
        rest
    } else {
        first_piece(rest)
    }
}

/// The ordinal that a text says: of a subscription, an item or a field, or how many items or fields there are.
fn ordinal_in(text: &[u8]) -> Option<u32>
    ensures { result ≡ ordinal_in text.now }
{
    let n = number_in(text, 1, u64::from(GREATEST_ORDINAL))?;
    Some(n as u32)
}

/// Another number that a text says.
fn count_in(text: &[u8]) -> Option<u64>
    ensures { result ≡ count_in text.now }
{
    number_in(text, 0, GREATEST_NUMBER)
}

/// Whether bytes are UTF-8.
#[tactic(auto, using(crate::proofs::Utf8::utf8_true, crate::proofs::Utf8::utf8_false))]
fn is_utf8(bytes: &[u8]) -> bool
    ensures { result ≡ is_utf8 bytes.now }
{
    match std::str::from_utf8(bytes) {
        Ok(_) => true,
        Err(_) => false,
    }
}

/// Whether a piece is a number outside its range.
fn is_bad_number(kind: Kind, bytes: &[u8]) -> bool
    ensures { result ≡ is_bad_number kind bytes.now }
{
    match kind {
        Kind::Ordinal => ordinal_in(bytes).is_none(),
        Kind::Count => count_in(bytes).is_none(),
        _ => false,
    }
}

/// Whether a piece is another word than the fixed one, or a text that is not UTF-8.
fn is_bad_text(kind: Kind, bytes: &[u8]) -> bool
    ensures { result ≡ is_bad_text kind bytes.now }
{
    match kind {
        Kind::Fixed(word) => !same_bytes(bytes, word_text(word)),
        Kind::Text => !is_utf8(bytes),
        Kind::Message => !is_utf8(bytes),
        _ => false,
    }
}

/// The first piece with a bad number. The first piece behind the tag is piece 2.
fn bad_number(kinds: &[Kind], bytes: &[u8]) -> Option<u64>
    ensures { result ≡ first_bad is_bad_number kinds.now bytes.now 2 }
{
    let mut rest = bytes;
    for i in 0..kinds.len() {
        if is_bad_number(kinds[i], piece(kinds[i], rest)) {
            return Some((i + 2) as u64);
        }
        rest = behind(rest);
    }
    None
}

/// The first piece with a bad text. The first piece behind the tag is piece 2.
fn bad_text(kinds: &[Kind], bytes: &[u8]) -> Option<u64>
    ensures { result ≡ first_bad is_bad_text kinds.now bytes.now 2 }
{
    let mut rest = bytes;
    for i in 0..kinds.len() {
        if is_bad_text(kinds[i], piece(kinds[i], rest)) {
            return Some((i + 2) as u64);
        }
        rest = behind(rest);
    }
    None
}

/// Why bytes are no line of a tag.
fn cause_behind(tag: Tag, bytes: &[u8]) -> Option<LineRefused>
    ensures { result ≡ cause_behind tag bytes.now }
{
    let kinds = kinds_of(tag);
    if !has_parts(kinds, commas(bytes)) {
        return Some(LineRefused::BadCount);
    }
    let rest = behind(bytes);
    if let Some(at) = bad_number(kinds, rest) {
        return Some(LineRefused::BadNumber { at });
    }
    if let Some(at) = bad_text(kinds, rest) {
        return Some(LineRefused::BadText { at });
    }
    None
}

/// The ordinal that the first piece says; 0 where it says none.
fn ordinal(rest: &[u8]) -> u32
    ensures { result ≡ or_zero (ordinal_in (first_piece rest.now)) }
{
    match ordinal_in(first_piece(rest)) {
        Some(n) => n,
        None => 0,
    }
}

/// The other number that the first piece says; 0 where it says none.
fn count(rest: &[u8]) -> u64
    ensures { result ≡ or_zero (count_in (first_piece rest.now)) }
{
    match count_in(first_piece(rest)) {
        Some(n) => n,
        None => 0,
    }
}

/// These bytes as a text. They are UTF-8, so that only memory is wanted.
fn owned(alloc: Global, bytes: &[u8]) -> Result<Text, NoMemory>
    ensures { IfOk result (λ t. t ≡ bytes.now) }
{
    match Text::of(alloc, bytes) {
        Ok(text) => Ok(text),
        Err(_) => Err(NoMemory),
    }
}

/// Both of these bytes as texts. They are UTF-8, so that only memory is wanted.
fn both_owned(alloc: Global, first: &[u8], second: &[u8]) -> Result<(Text, Text), NoMemory>
    ensures first { IfOk result (λ texts. texts.0 ≡ first.now) }
    ensures second { IfOk result (λ texts. texts.1 ≡ second.now) }
{
    let first = owned(alloc, first)?;
    let second = owned(alloc, second)?;
    Ok((first, second))
}

/// Two ordinals that the first two pieces say, and what stands behind these.
fn two_ordinals(rest: &[u8]) -> (u32, u32, &[u8])
    ensures first { result.0 ≡ or_zero (ordinal_in (first_piece rest.now)) }
    ensures second { result.1 ≡ or_zero (ordinal_in (first_piece (behind rest.now))) }
    ensures rest { result.2.now ≡ behind (behind rest.now) }
{
    let next = behind(rest);
    (ordinal(rest), ordinal(next), behind(next))
}

/// Reads the next part.
macro_rules! part {
    ($alloc:ident $rest:ident word($word:ident)) => {};
    ($alloc:ident $rest:ident ordinal($field:ident)) => { let $field = ordinal($rest); };
    ($alloc:ident $rest:ident count($field:ident)) => { let $field = count($rest); };
    ($alloc:ident $rest:ident text($field:ident)) => { let $field = owned($alloc, first_piece($rest))?; };
    ($alloc:ident $rest:ident message($field:ident)) => { let $field = owned($alloc, $rest)?; };
    ($alloc:ident $rest:ident coded($field:ident)) => { let $field = Bytes::of($alloc, $rest)?; };
}

/// Reads the parts, each behind the one before, and makes the line. Two texts are taken at once, since each exit behind
/// a text that is owned makes the proof of `line_behind` longer.
macro_rules! with_parts {
    ($alloc:ident $rest:ident $line:expr;) => { Ok($line) };
    ($alloc:ident $rest:ident $line:expr; text($first:ident) text($second:ident)) => {{
        let ($first, $second) = both_owned($alloc, first_piece($rest), first_piece(behind($rest)))?;
        Ok($line)
    }};
    ($alloc:ident $rest:ident $line:expr; text($first:ident) count($field:ident) message($second:ident)) => {{
        let last = behind($rest);
        let $field = count(last);
        let ($first, $second) = both_owned($alloc, first_piece($rest), behind(last))?;
        Ok($line)
    }};
    ($alloc:ident $rest:ident $line:expr; ordinal($first:ident) ordinal($second:ident) $($more:tt)+) => {{
        let ($first, $second, $rest) = two_ordinals($rest);
        with_parts!($alloc $rest $line; $($more)+)
    }};
    ($alloc:ident $rest:ident $line:expr; $kind:ident($part:ident)) => {{
        part!($alloc $rest $kind($part));
        Ok($line)
    }};
    ($alloc:ident $rest:ident $line:expr; $kind:ident($part:ident) $($more:tt)+) => {{
        part!($alloc $rest $kind($part));
        let $rest = behind($rest);
        with_parts!($alloc $rest $line; $($more)+)
    }};
}

macro_rules! made {
    ({ $alloc:ident $given:ident $rest:ident }
        read { $($variant:ident { $($field:ident),* } = $tag:literal, $counts:literal: $($kind:ident($part:ident))*;)* }
        written { $($written:tt)* }
    ) => {
        match $given {
            $(Tag::$variant => with_parts!($alloc $rest Line::$variant { $($field),* }; $($kind($part))*),)*
        }
    };
}

/// The line of a tag behind which this stands. It is refused for no other cause than memory.
fn line_behind(alloc: Global, tag: Tag, rest: &[u8]) -> Result<Line, NoMemory>
    ensures { IfOk result (λ l. line_behind tag rest.now ≡ Some l) }
{
    lines!(made { alloc tag rest })
}

/// The line that bytes say, without CR LF; otherwise the first cause, where memory comes last.
/// MSGDONE and MSGFAIL are not read.
pub fn read(alloc: Global, bytes: &[u8]) -> Result<Line, LineRefused>
    ensures answer { AnswersFirst (refusal bytes.now) (line_of bytes.now) result }

    // The line's text is these bytes.
    ensures exact { IfOk result (λ l. text_of_line l ≡ bytes.now) }

    // Its parts are in their ranges, where the bytes hold no CR and no LF.
    ensures writable { IfOk result (λ l. list_all is_message_byte bytes.now ≡ true → IsWritable l) }
{
    line_or_cause(alloc, bytes)
}

/// The line that bytes say, or the first cause.
fn line_or_cause(alloc: Global, bytes: &[u8]) -> Result<Line, LineRefused>
    ensures { AnswersFirst (refusal bytes.now) (line_of bytes.now) result }
{
    let Some(tag) = tag_of(first_piece(bytes)) else {
        return Err(LineRefused::BadTag);
    };
    if let Some(cause) = cause_behind(tag, bytes) {
        return Err(cause);
    }
    let line = line_behind(alloc, tag, behind(bytes))?;
    Ok(line)
}
