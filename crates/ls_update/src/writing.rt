//! The writer: one spelling for each row (TLCP 2.1, notification U; the spelling is this project's choice).
ghost use Rattle.std.specs.Prelude.{◌≡◌, [], ◌∷◌, ◌++◌, ◌==◌, ◌&&◌, true, IfOk, OnOk, drop};
ghost use Rattle.percent_encoding.specs.Percent.{percent_encode};
ghost use Rattle.ls_update.specs.Fields.{spelled, coded_against, spelled_text, spelled_value, changed_fields};
ghost use Rattle.ls_update.specs.Fields.{tokens_after, run_tokens};
ghost use Rattle.ls_update.specs.Writing.{row_behind, begins_with, more_tokens};

use ls_value::{Bytes, NoMemory, Row, Value, same_value};
use ls_words::append_decimal;
use percent_encoding::{AsciiSet, CONTROLS, ascii_set, percent_encode};
use std::alloc::Global;

/// What is escaped wherever it stands in a value; bytes from 128 on are escaped too.
const ESCAPED: AsciiSet = ascii_set!(CONTROLS.add(b'%').add(b'|'));

/// What is escaped as a value's first byte: also what a token that is no value begins with.
const ESCAPED_FIRST: AsciiSet = ascii_set!(ESCAPED.add(b'#').add(b'$').add(b'^'));

/// The coded fields of a row after another one, or of a whole row without one (TLCP 2.1, notification U).
///
/// Tokens are divided by `|`. A field with a new value has the value's token: `#` for null, `$` for the empty text,
/// else the text, percent-encoded where a byte would be read otherwise. A longest run of unchanged fields is so many
/// empty tokens up to two, and `^n` from three on. A field that the row before lacks counts as new. What is written of
/// a row of at least one field, after a row of as many or without one, is read again as that row. `NoMemory` where
/// memory is refused.
pub fn write(alloc: Global, prev: Option<&Row>, row: &Row) -> Result<Bytes, NoMemory>
    ensures { IfOk result (λ text. text ≡ spelled (row_behind prev.entry) row.now) }
{
    let mut text = Vec::new(alloc);
    append(&mut text, prev, row)?;
    Ok(Bytes::from_vec(text))
}

/// Appends the coded fields that [`write`] answers. After `NoMemory` a part of them may be there.
pub fn append(text: &mut Vec<u8>, prev: Option<&Row>, row: &Row) -> Result<(), NoMemory>
    ensures { OnOk result (text.new.items ≡ text.old.items ++ spelled (row_behind prev.entry) row.now) }
{
    append_tokens(text, values_before(prev), row.as_slice())
}

/// The values that a row is coded against: none without a row before it.
fn values_before(prev: Option<&Row>) -> &[Value]
    ensures { result.now ≡ coded_against (row_behind prev.entry) }
{
    match prev {
        Some(row) => row.as_slice(),
        None => &[],
    }
}

/// Appends the tokens of a row after the values before it.
fn append_tokens(out: &mut Vec<u8>, prev: &[Value], row: &[Value]) -> Result<(), NoMemory>
    ensures { OnOk result (out.new.items
        ≡ out.old.items ++ more_tokens true (tokens_after 0 (changed_fields prev.now row.now))) }
{
    // whether no token stands yet, and how many fields are unchanged since the last token
    let mut first = true;
    let mut unchanged: usize = 0;
    for i in 0..row.len() {
        let value = &row[i];
        if is_unchanged(prev, i, value) {
            unchanged += 1;
            continue;
        }
        first = append_run(out, first, unchanged)?;
        append_value(out, first, value)?;
        first = false;
        unchanged = 0;
    }
    append_run(out, first, unchanged)?;
    Ok(())
}

/// Whether the value at this place is this one.
fn is_unchanged(prev: &[Value], i: usize, value: &Value) -> bool
    ensures { result ≡ begins_with (drop i prev.now) value.now }
{
    match prev.get(i) {
        Some(before) => same_value(before, value),
        None => false,
    }
}

/// Appends the tokens of a run of unchanged fields, and answers whether no token stands yet.
fn append_run(out: &mut Vec<u8>, first: bool, unchanged: usize) -> Result<bool, NoMemory>
    ensures text { OnOk result (out.new.items ≡ out.old.items ++ more_tokens first (run_tokens unchanged)) }
    ensures first { IfOk result (λ still. still ≡ first && (unchanged == 0)) }
{
    match unchanged {
        0 => return Ok(first),
        1 => divide(out, first)?,
        2 => {
            divide(out, first)?;
            out.push(b'|')?;
        }
        n => {
            divide(out, first)?;
            out.push(b'^')?;
            append_decimal(out, n as u64)?;
        }
    }
    Ok(false)
}

/// Appends the divider, but not before the first token.
fn divide(out: &mut Vec<u8>, first: bool) -> Result<(), NoMemory>
    ensures { OnOk result (out.new.items ≡ out.old.items ++ more_tokens first ([] ∷ [])) }
{
    if !first {
        out.push(b'|')?;
    }
    Ok(())
}

/// Appends a value's token.
fn append_value(out: &mut Vec<u8>, first: bool, value: &Value) -> Result<(), NoMemory>
    ensures { OnOk result (out.new.items ≡ out.old.items ++ more_tokens first (spelled_value value.now ∷ [])) }
{
    divide(out, first)?;
    match value {
        Value::Null => Ok(out.push(b'#')?),
        Value::Text(text) => append_text(out, text.as_bytes()),
    }
}

/// Appends the token of a text.
fn append_text(out: &mut Vec<u8>, text: &[u8]) -> Result<(), NoMemory>
    ensures { OnOk result (out.new.items ≡ out.old.items ++ spelled_text text.now) }
{
    let Some((head, rest)) = text.split_at_checked(1) else {
        return Ok(out.push(b'$')?);
    };
    append_parts(out, head, rest)
}

/// Appends a value's first byte and the bytes behind it.
fn append_parts(out: &mut Vec<u8>, head: &[u8], rest: &[u8]) -> Result<(), NoMemory>
    ensures { OnOk result (out.new.items
        ≡ out.old.items ++ (percent_encode ESCAPED_FIRST head.now ++ percent_encode ESCAPED rest.now)) }
{
    append_encoded(out, head, ESCAPED_FIRST)?;
    append_encoded(out, rest, ESCAPED)?;
    Ok(())
}

/// Appends bytes, percent-encoded where they are in a set.
fn append_encoded(out: &mut Vec<u8>, bytes: &[u8], set: AsciiSet) -> Result<(), NoMemory>
    ensures { OnOk result (out.new.items ≡ out.old.items ++ percent_encode set bytes.now) }
{
    for piece in percent_encode(bytes, set) {
        out.extend_from_slice(piece.as_bytes())?;
    }
    Ok(())
}
