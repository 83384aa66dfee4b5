//! Decimal numbers (TLCP 2.1, and this project's profile).
ghost use Rattle.std.specs.Prelude.{◌≡◌, ◌≤◌, ◌<◌, ◌+◌, ◌++◌, IfSome, OnOk, OnErr};
ghost use Rattle.std.specs.Fmt.{decimal};
ghost use Rattle.std.specs.Vec.{vec_len, vec_capacity};
ghost use Rattle.ls_words.specs.Numbers.{number_in};

use ls_value::NoMemory;

/// The number that a text says, from `low` to `high`, which both count in: `None` exactly where the text is not
/// decimal digits without a sign and without a leading zero, or says another number. A text of any length is
/// answered, and no digit behind the first one that passes `high` is looked at.
pub fn number_in(text: &[u8], low: u64, high: u64) -> Option<u64>
    ensures number { result ≡ number_in text.now low high }
    ensures within { IfSome result (λ n. (low ≤ n) × (n ≤ high)) }
{
    if text.is_empty() || (text[0] == b'0' && text.len() > 1) {
        return None;
    }
    let mut n: u64 = 0;
    for digit in text {
        if !digit.is_ascii_digit() {
            return None;
        }
        let value = u64::from(*digit - b'0');
        if value > high || n > (high - value) / 10 {
            return None;
        }
        n = 10 * n + value;
    }
    if low <= n { Some(n) } else { None }
}

/// Appends a number in decimal digits, of which a `u64` has 20 at most: where there is room for so many no memory is
/// taken. After `NoMemory` some of them may be there.
pub fn append_decimal(text: &mut Vec<u8>, n: u64) -> Result<(), NoMemory>
    ensures text { OnOk result (text.new.items ≡ text.old.items ++ decimal n) }
    ensures most { OnOk result (vec_len text.new ≤ vec_len text.old + 20) }
    ensures room { OnErr result (vec_capacity text.old < vec_len text.old + 20) }
    ensures capacity { vec_capacity text.old ≤ vec_capacity text.new }
{
    if n >= 10 {
        append_decimal(text, n / 10)?;
        text.push(b'0' + (n % 10) as u8)?;
    } else {
        text.push(b'0' + n as u8)?;
    }
    Ok(())
}
