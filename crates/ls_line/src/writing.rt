//! Texts of lines (TLCP 2.1).
ghost use Rattle.std.specs.Prelude.{◌≡◌, ◌++◌, ℕ, List, IfOk, OnOk, false, map};
ghost use Rattle.ls_line.specs.declared.line.Line.TheVariants as line;
ghost use Rattle.ls_line.specs.Lines.{text_of_line, is_counted, is_of_message, IsWritable, lent_text, then_texts};
ghost use Rattle.ls_line.specs.Lines.{shape_text};
ghost use Rattle.ls_line.specs.Reading.{Says};

use crate::line::Line;
use crate::table::{Lent, Word, lines, word_text};
use ls_value::{Bytes, NoMemory};
use ls_words::append_decimal;
use std::alloc::Global;

/// A tag, and the parts behind it, by how many there are. Each place more in an arm of `shape_of` makes its proof
/// longer, so none is made without a part.
#[derive(Clone, Copy)]
enum Shape<'a> {
    Alone(&'static [u8]),
    One(&'static [u8], Lent<'a>),
    Two(&'static [u8], Lent<'a>, Lent<'a>),
    Three(&'static [u8], Lent<'a>, Lent<'a>, Lent<'a>),
    Four(&'static [u8], Lent<'a>, Lent<'a>, Lent<'a>, Lent<'a>),
    Five(&'static [u8], Lent<'a>, Lent<'a>, Lent<'a>, Lent<'a>, Lent<'a>),
}

macro_rules! lent {
    (word($word:ident)) => { Lent::Fixed(Word::$word) };
    (ordinal($field:ident)) => { Lent::Ordinal(*$field) };
    (count($field:ident)) => { Lent::Count(*$field) };
    (text($field:ident)) => { Lent::Text($field) };
    (message($field:ident)) => { Lent::Text($field) };
    (coded($field:ident)) => { Lent::Coded($field.as_slice()) };
}

/// The shape of a tag and at most five parts.
macro_rules! shape {
    ($tag:literal) => { Shape::Alone($tag) };
    ($tag:literal, $a:expr) => { Shape::One($tag, $a) };
    ($tag:literal, $a:expr, $b:expr) => { Shape::Two($tag, $a, $b) };
    ($tag:literal, $a:expr, $b:expr, $c:expr) => { Shape::Three($tag, $a, $b, $c) };
    ($tag:literal, $a:expr, $b:expr, $c:expr, $d:expr) => { Shape::Four($tag, $a, $b, $c, $d) };
    ($tag:literal, $a:expr, $b:expr, $c:expr, $d:expr, $e:expr) => { Shape::Five($tag, $a, $b, $c, $d, $e) };
}

macro_rules! shaped {
    ({ $line:ident }
        read { $($variant:ident { $($field:ident),* } = $tag:literal, $counts:literal: $($kind:ident($part:ident))*;)* }
        written { $($more:ident { $($of:ident),* } = $text:literal, $does:literal: $($is:ident($it:ident))*;)* }
    ) => {
        match $line {
            $(Line::$variant { $($field),* } => shape!($tag $(, lent!($kind($part)))*),)*
            $(Line::$more { $($of),* } => shape!($text $(, lent!($is($it)))*),)*
        }
    };
}

macro_rules! counted {
    ({ $line:ident }
        read { $($variant:ident { $($field:ident),* } = $tag:literal, $counts:literal: $($kind:ident($part:ident))*;)* }
        written { $($more:ident { $($of:ident),* } = $text:literal, $does:literal: $($is:ident($it:ident))*;)* }
    ) => {
        match $line {
            $(Line::$variant { .. } => $counts,)*
            $(Line::$more { .. } => $does,)*
        }
    };
}

/// Whether a line is a numbered line, which PROG counts. No memory is taken.
pub fn counts(line: &Line) -> bool
    ensures { result ≡ is_counted line.now }
{
    lines!(counted { line })
}

/// The text of a line, without CR LF.
pub fn text(alloc: Global, line: &Line) -> Result<Bytes, NoMemory>
    ensures text { IfOk result (λ text. text ≡ text_of_line line.now) }

    // Where the line's parts are in their ranges, the text is read as that line; MSGDONE and MSGFAIL aside.
    ensures read_again { IfOk result (λ text.
        IsWritable line.now → is_of_message line.now ≡ false → Says text line.now) }
{
    whole_text(alloc, line)
}

/// The text of a line that is of no more use. Its drop is proved here, once for all callers.
pub fn into_text(alloc: Global, line: Line) -> Result<Bytes, NoMemory>
    ensures { IfOk result (λ text. text ≡ text_of_line line) }
{
    text(alloc, &line)
}

/// The text of a line, in memory of its own.
fn whole_text(alloc: Global, line: &Line) -> Result<Bytes, NoMemory>
    ensures { IfOk result (λ text. text ≡ text_of_line line.now) }
{
    let mut text = Vec::new(alloc);
    append(&mut text, line)?;
    Ok(Bytes::from_vec(text))
}

/// Appends the text of a line, without CR LF. After `NoMemory` a part of it may be there.
pub fn append(text: &mut Vec<u8>, line: &Line) -> Result<(), NoMemory>
    ensures { OnOk result (text.new.items ≡ text.old.items ++ text_of_line line.now) }
{
    append_shape(text, &shape_of(line))
}

/// The tag and the parts of a line.
fn shape_of(line: &Line) -> Shape<'_>
    ensures { shape_text result ≡ text_of_line line.now }
{
    lines!(shaped { line })
}

/// Appends a tag and the parts behind it, each behind a comma.
fn append_shape(text: &mut Vec<u8>, shape: &Shape) -> Result<(), NoMemory>
    ensures { OnOk result (text.new.items ≡ text.old.items ++ shape_text shape.now) }
{
    match shape {
        Shape::Alone(tag) => append_parts(text, tag, &[]),
        Shape::One(tag, a) => append_parts(text, tag, &[*a]),
        Shape::Two(tag, a, b) => append_parts(text, tag, &[*a, *b]),
        Shape::Three(tag, a, b, c) => append_parts(text, tag, &[*a, *b, *c]),
        Shape::Four(tag, a, b, c, d) => append_parts(text, tag, &[*a, *b, *c, *d]),
        Shape::Five(tag, a, b, c, d, e) => append_parts(text, tag, &[*a, *b, *c, *d, *e]),
    }
}

/// Appends what a U line has before its coded fields, for these to be appended behind it.
/// After `NoMemory` a part of it may be there.
pub fn append_update(text: &mut Vec<u8>, sub: u32, item: u32) -> Result<(), NoMemory>
    ensures { OnOk result ((coded : List ℕ)
        → text.new.items ++ coded ≡ text.old.items ++ text_of_line (line.U sub item coded)) }
{
    let parts = [Lent::Ordinal(sub), Lent::Ordinal(item), Lent::Coded(b"")];
    append_parts(text, b"U", &parts)
}

/// Appends a tag and parts, each behind a comma.
fn append_parts(text: &mut Vec<u8>, tag: &[u8], parts: &[Lent]) -> Result<(), NoMemory>
    ensures { OnOk result (text.new.items ≡ text.old.items ++ then_texts tag.now (map lent_text parts.now)) }
{
    text.extend_from_slice(tag)?;
    for part in parts {
        text.push(b',')?;
        append_part(text, *part)?;
    }
    Ok(())
}

/// Appends a part.
fn append_part(text: &mut Vec<u8>, part: Lent) -> Result<(), NoMemory>
    ensures { OnOk result (text.new.items ≡ text.old.items ++ lent_text part.entry) }
{
    match part {
        Lent::Fixed(word) => Ok(text.extend_from_slice(word_text(word))?),
        Lent::Ordinal(n) => append_decimal(text, u64::from(n)),
        Lent::Count(n) => append_decimal(text, n),
        Lent::Text(t) => Ok(text.extend_from_slice(t.as_bytes())?),
        Lent::Coded(bytes) => Ok(text.extend_from_slice(bytes)?),
    }
}
