//! The reader: lenient, of every spelling of a row (TLCP 2.1, notification U).
ghost use Rattle.std.specs.Prelude.{List, MatchResult, ◌≡◌, ◌≢◌, ◌≤◌, ◌+◌, ◌-◌, ◌⊎◌, ℕ, [], ◌∷◌, ◌++◌, true, false};
ghost use Rattle.std.specs.Prelude.{length, IfOk, OnOk, IfErr, IfSome, IfNone, IsUtf8};
ghost use Rattle.std.specs.Fmt.{decimal};
ghost use Rattle.percent_encoding.specs.Percent.{percent_decode};
ghost use Rattle.ls_value.specs.declared.row.Value.{Value as FieldValue};
ghost use Rattle.ls_value.specs.declared.row.Value.TheVariants as value;
ghost use Rattle.ls_update.specs.declared.reading.ReadRefused.{ReadRefused as Fault};
ghost use Rattle.ls_update.specs.Writing.{row_behind};
ghost use Rattle.ls_update.specs.Reading.{Reads, Says, FirstFault, Refuses, begins_run, says_text};
ghost use Rattle.ls_update.specs.Reading.{row_before, tokens_of};
ghost use Rattle.ls_update.specs.Growing.{RefusesToken, Grows};

use ls_value::{NoMemory, Row, Text, TextRefused, Value};
use ls_words::first_piece;
use percent_encoding::percent_decode;
use std::alloc::Global;

/// Why coded fields can't be read. Tokens are numbered from 1.
#[derive(Clone, Copy, Debug, PartialEq, Eq)]
pub enum ReadRefused {
    /// The tokens end before the last field.
    TooFew {
        /// The number of fields that they say.
        got: u64,
    },
    /// A token stands behind the last field.
    TooMany {
        /// The number of the first such token.
        at: u64,
    },
    /// A token begins with `^`, and no number of fields from 1 to those left stands behind it, in digits without a
    /// leading zero.
    BadRun {
        /// The token's number.
        at: u64,
    },
    /// The bytes of a value, percent-decoded, are not UTF-8.
    BadText {
        /// The number of the value's token.
        at: u64,
    },
    /// Memory was refused.
    NoMemory,
}

impl From<NoMemory> for ReadRefused {
    ghost use Rattle.std.specs.Prelude.{◌≡◌};
    ghost use Rattle.ls_update.specs.declared.reading.ReadRefused.TheVariants as refused;

    ghost from_gives = { λ _ e. e ≡ refused.NoMemory };

    fn from(_: NoMemory) -> ReadRefused {
        ReadRefused::NoMemory
    }
}

/// The row that coded fields say after another row (TLCP 2.1, notification U).
///
/// No previous row counts as all null. `n` is the number of fields, at least 1, and the previous row has as many.
/// The row is answered exactly where the tokens say one; else the first fault from the left, or `NoMemory` where
/// memory is refused.
pub fn read(alloc: Global, prev: Option<&Row>, bytes: &[u8], n: usize) -> Result<Row, ReadRefused>
    requires fields { 1 ≤ n }
    requires before { IfSome prev (λ p. length p.now ≡ n) }
    ensures row { IfOk result (λ row. Reads (row_before n (row_behind prev.entry)) (tokens_of bytes.now) row) }
    ensures refused { IfErr result (λ e. Refuses (row_before n (row_behind prev.entry)) (tokens_of bytes.now) e) }
    ensures only_row { (row : List FieldValue) → Reads (row_before n (row_behind prev.entry)) (tokens_of bytes.now) row
        → MatchResult result (λ r. r ≡ row) (λ e. e ≡ ReadRefused.NoMemory) }
    ensures only_fault { (fault : Fault) → FirstFault (row_before n (row_behind prev.entry)) (tokens_of bytes.now) fault
        → MatchResult result (λ _. ⊥) (λ e. (e ≡ ReadRefused.NoMemory) ⊎ (e ≡ fault)) }
{
    match prev {
        Some(row) => read_after(alloc, row.as_slice(), bytes),
        None => {
            let nulls = Row::nulls(alloc, n)?;
            read_after(alloc, nulls.as_slice(), bytes)
        }
    }
}

/// The row that coded fields say after these values.
fn read_after(alloc: Global, prev: &[Value], bytes: &[u8]) -> Result<Row, ReadRefused>
    ensures row { IfOk result (λ row. Reads prev.now (tokens_of bytes.now) row) }
    ensures refused { IfErr result (λ e. Refuses prev.now (tokens_of bytes.now) e) }
{
    let mut values = Vec::new(alloc);
    let mut rest = Some(bytes);
    let mut number: u64 = 0;
    while let Some(text) = rest {
        let (token, behind) = first_piece(b'|', text);
        number += 1;
        if let Err(refused) = append_token(alloc, &mut values, prev, token, number) {
            return Err(refused);
        }
        rest = behind;
    }
    if values.len() < prev.len() {
        return Err(ReadRefused::TooFew {
            got: values.len() as u64,
        });
    }
    Ok(Row::of(values))
}

/// Appends the values that a token says of the next fields. Its number is only for the answer.
fn append_token(
    alloc: Global,
    values: &mut Vec<Value>,
    prev: &[Value],
    token: &[u8],
    number: u64,
) -> Result<(), ReadRefused>
    requires { length values.old.items ≤ length prev.now }
    ensures grows { OnOk result (Grows prev.now values.old.items token.now values.new.items) }
    ensures refused { IfErr result (λ e. RefusesToken (record {
      bytes = token.now;
      number = number;
      left = length prev.now - length values.old.items;
    }) e) }
{
    let from = values.len();
    let left = prev.len() - from;
    if left == 0 {
        return Err(ReadRefused::TooMany { at: number });
    }
    let Some((first, digits)) = token.split_first() else {
        append_copies(alloc, values, &prev[from..from + 1])?;
        return Ok(());
    };
    if *first == b'^' {
        let Some(run) = number_of(digits, left) else {
            return Err(ReadRefused::BadRun { at: number });
        };
        append_copies(alloc, values, &prev[from..from + run])?;
        return Ok(());
    }
    let Some(value) = value_of(alloc, token)? else {
        return Err(ReadRefused::BadText { at: number });
    };
    push_value(values, value)?;
    Ok(())
}

/// Appends equal values.
fn append_copies(alloc: Global, out: &mut Vec<Value>, values: &[Value]) -> Result<(), NoMemory>
    ensures { OnOk result (out.new.items ≡ out.old.items ++ values.now) }
{
    for value in values {
        out.push(value.copy(alloc)?)?;
    }
    Ok(())
}

/// Appends a value.
fn push_value(out: &mut Vec<Value>, value: Value) -> Result<(), NoMemory>
    ensures { OnOk result (out.new.items ≡ out.old.items ++ value ∷ []) }
{
    out.push(value)?;
    Ok(())
}

/// The number from 1 to `most` that digits without a leading zero say: none exactly where they say no such number.
fn number_of(digits: &[u8], most: usize) -> Option<usize>
    ensures some { IfSome result (λ k. (1 ≤ k) × (k ≤ most) × (digits.now ≡ decimal k)) }
    ensures none { IfNone result ((k : ℕ) → 1 ≤ k → k ≤ most → digits.now ≢ decimal k) }
{
    let Some((first, _)) = digits.split_first() else {
        return None;
    };
    if *first < b'1' {
        return None;
    }
    let Ok(text) = std::str::from_utf8(digits) else {
        return None;
    };
    let Ok(k) = text.parse::<usize>() else {
        return None;
    };
    if k <= most { Some(k) } else { None }
}

/// The value that a token says that isn't empty and no run: none exactly where its bytes, percent-decoded, are not
/// UTF-8.
fn value_of(alloc: Global, token: &[u8]) -> Result<Option<Value>, NoMemory>
    requires some { 1 ≤ length token.now }
    requires no_run { begins_run token.now ≡ false }
    ensures some { IfOk result (λ v.
        IfSome v (λ now. (before : FieldValue) → Says (before ∷ []) token.now (now ∷ []))) }
    ensures none { IfOk result (λ v.
        IfNone v ((says_text token.now ≡ true) × (IsUtf8 (percent_decode token.now) → ⊥))) }
{
    match token {
        [b'#'] => Ok(Some(Value::Null)),
        [b'$'] => Ok(text_of(alloc, b"")?),
        _ => Ok(decoded(alloc, token)?),
    }
}

/// The text of a token, percent-decoded: none exactly where the bytes are not UTF-8.
fn decoded(alloc: Global, token: &[u8]) -> Result<Option<Value>, NoMemory>
    ensures some { IfOk result (λ v.
        IfSome v (λ now. (now ≡ value.Text (percent_decode token.now)) × IsUtf8 (percent_decode token.now))) }
    ensures none { IfOk result (λ v. IfNone v (IsUtf8 (percent_decode token.now) → ⊥)) }
{
    let mut bytes = Vec::new(alloc);
    percent_decode(token).append_to(&mut bytes)?;
    let text = text_of(alloc, &bytes)?;
    Ok(text)
}

/// The text of these bytes: none exactly where they are not UTF-8.
fn text_of(alloc: Global, bytes: &[u8]) -> Result<Option<Value>, NoMemory>
    ensures some { IfOk result (λ v. IfSome v (λ now. (now ≡ value.Text bytes.now) × IsUtf8 bytes.now)) }
    ensures none { IfOk result (λ v. IfNone v (IsUtf8 bytes.now → ⊥)) }
{
    match Text::of(alloc, bytes) {
        Ok(text) => Ok(Some(Value::Text(text))),
        Err(TextRefused::NotUtf8) => Ok(None),
        Err(TextRefused::NoMemory) => Err(NoMemory),
    }
}
