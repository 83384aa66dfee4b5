//! Decimals of thousandths, in which frequencies and bandwidths are written (this project's profile).
ghost use Rattle.std.specs.Prelude.{◌≡◌, ◌<◌, ◌+◌, ◌*◌, ◌^◌, ◌==◌, IfOk, IfSome, length, option_map, position};
ghost use Rattle.ls_form.specs.Decimals.{whole_of, thousandths_of, joined, milli_of, milli_text};

use ls_value::{Bytes, NoMemory};
use std::alloc::{AllocError, Global};

/// The thousandths that a decimal says: 1 to 9 digits, then optionally a point and 1 to 9 digits, of which the first
/// three count.
///
/// `None` exactly where it is no such text. Leading zeros are allowed. No memory is taken.
pub fn read_milli(text: &[u8]) -> Option<u64>
    ensures number { result ≡ milli_of text.now }
    ensures small { IfSome result (λ n. n < 10 ^ 12) }
{
    match point(text) {
        None => only_whole(text),
        Some(at) => both(&text[..at], &text[at + 1..]),
    }
}

/// The place of the first point.
fn point(text: &[u8]) -> Option<usize>
    ensures place { result ≡ position (λ b. b == 46) text.now }
    ensures within { IfSome result (λ at. at < length text.now) }
{
    text.iter().position(|b| *b == b'.')
}

/// The thousandths that digits say alone.
fn only_whole(text: &[u8]) -> Option<u64>
    ensures number { result ≡ option_map (λ n. 1000 * n) (whole_of text.now) }
    ensures small { IfSome result (λ n. n < 10 ^ 12) }
{
    let n = whole(text)?;
    Some(1000 * n)
}

/// The thousandths that digits before a point and behind it say.
fn both(before: &[u8], behind: &[u8]) -> Option<u64>
    ensures number { result ≡ joined (whole_of before.now) (thousandths_of behind.now) }
    ensures small { IfSome result (λ n. n < 10 ^ 12) }
{
    let n = whole(before)?;
    let part = thousandths(behind)?;
    Some(1000 * n + part)
}

/// The number that 1 to 9 digits say.
fn whole(text: &[u8]) -> Option<u64>
    ensures number { result ≡ whole_of text.now }
    ensures small { IfSome result (λ n. n < 1000000000) }
{
    if text.is_empty() || text.len() > 9 {
        return None;
    }
    let mut n: u64 = 0;
    for digit in text {
        if !digit.is_ascii_digit() {
            return None;
        }
        n = 10 * n + u64::from(*digit - b'0');
    }
    Some(n)
}

/// The thousandths that 1 to 9 digits behind a point say.
fn thousandths(text: &[u8]) -> Option<u64>
    ensures number { result ≡ thousandths_of text.now }
    ensures small { IfSome result (λ n. n < 1000) }
{
    let _all = whole(text)?;
    match text {
        [] => None,
        [a] => Some(100 * whole(&[*a])?),
        [a, b] => Some(10 * whole(&[*a, *b])?),
        [a, b, c, ..] => Some(whole(&[*a, *b, *c])?),
    }
}

/// The decimal of so many thousandths: the whole part, a point, and one to three digits without zeros at the end beyond
/// the first.
pub fn print_milli(alloc: Global, n: u64) -> Result<Bytes, NoMemory>
    ensures { IfOk result (λ text. text ≡ milli_text n) }
{
    let mut text = format!(in alloc; "{}.", n / 1000)?.into_bytes();
    let part = n % 1000;
    text.push(digit(part / 100))?;
    if part % 100 != 0 {
        text.push(digit(part / 10 % 10))?;
    }
    if part % 10 != 0 {
        text.push(digit(part % 10))?;
    }
    Ok(Bytes::from_vec(text))
}

/// A digit below 10.
fn digit(n: u64) -> u8
    requires { n < 10 }
    ensures { result ≡ 48 + n }
{
    b'0' + n as u8
}
