//! The values of requests' parameters (TLCP 2.1, requests; forms and limits are this project's profile).
ghost use Rattle.std.specs.Prelude.{◌≡◌, ◌≤◌, IfSome};
ghost use Rattle.ls_request.specs.Values.{decimal_of, capped, milli_above_0, bandwidth_of, frequency_of, keepalive_of};
ghost use Rattle.ls_request.specs.Values.{length_of, recovery_of, session_of, is_req_byte, is_req, sub_of, mode_of};
ghost use Rattle.ls_request.specs.Values.{snap_by, snap_of, size_of};
ghost use Rattle.ls_request.specs.Ranges.{IsRate, IsKeepalive, IsLength, IsOrdinal, SnapFits};

use crate::limits::{GREATEST_KEEPALIVE, LEAST_KEEPALIVE, LEAST_LENGTH, MOST_OWN_NAME};
use ls_event::{Mode, Snap};
use ls_form::read_milli;
use ls_value::{GREATEST_NUMBER, GREATEST_ORDINAL, same_bytes};
use ls_words::number_in;

/// The number of a decimal that isn't above the greatest number.
fn decimal(text: &[u8]) -> Option<u64>
    ensures number { result ≡ decimal_of text.now }
    ensures most { IfSome result (λ n. n ≤ GREATEST_NUMBER) }
{
    number_in(text, 0, GREATEST_NUMBER)
}

/// An ordinal: the greatest, where a number is above it.
fn cap(n: u64) -> u32
    ensures number { result ≡ capped n }
    ensures fits { 1 ≤ n → IsOrdinal result }
{
    if n < GREATEST_ORDINAL as u64 {
        n as u32
    } else {
        GREATEST_ORDINAL
    }
}

/// The thousandths of a decimal above 0.
fn milli(text: &[u8]) -> Option<Option<u64>>
    ensures value { result ≡ milli_above_0 text.now }
    ensures fits { IfSome result (λ r. IfSome r IsRate) }
{
    let n = read_milli(text)?;
    if n == 0 { None } else { Some(Some(n)) }
}

/// LS_requested_max_bandwidth: `unlimited` or a decimal above 0.
pub(crate) fn bandwidth(text: &[u8]) -> Option<Option<u64>>
    ensures value { result ≡ bandwidth_of text.now }
    ensures fits { IfSome result (λ r. IfSome r IsRate) }
{
    if same_bytes(text, b"unlimited") {
        return Some(None);
    }
    milli(text)
}

/// LS_requested_max_frequency: `unlimited`, `unfiltered` or a decimal above 0.
pub(crate) fn frequency(text: &[u8]) -> Option<Option<u64>>
    ensures value { result ≡ frequency_of text.now }
    ensures fits { IfSome result (λ r. IfSome r IsRate) }
{
    if same_bytes(text, b"unlimited") || same_bytes(text, b"unfiltered") {
        return Some(None);
    }
    milli(text)
}

/// LS_keepalive_millis: from 1,000 to 30,000.
pub(crate) fn keepalive(text: &[u8]) -> Option<u32>
    ensures value { result ≡ keepalive_of text.now }
    ensures fits { IfSome result IsKeepalive }
{
    let n = decimal(text)?;
    Some(n.max(LEAST_KEEPALIVE).min(GREATEST_KEEPALIVE) as u32)
}

/// LS_content_length: from 1,000.
pub(crate) fn length(text: &[u8]) -> Option<Option<u64>>
    ensures value { result ≡ length_of text.now }
    ensures fits { IfSome result (λ r. IfSome r IsLength) }
{
    let n = decimal(text)?;
    Some(Some(n.max(LEAST_LENGTH)))
}

/// LS_recovery_from.
pub(crate) fn recovery(text: &[u8]) -> Option<Option<u64>>
    ensures value { result ≡ recovery_of text.now }
    ensures fits { IfSome result (λ r. IfSome r (λ n. n ≤ GREATEST_NUMBER)) }
{
    let n = decimal(text)?;
    Some(Some(n))
}

/// LS_session: `S` and a decimal, or 0 of another text.
pub(crate) fn session(text: &[u8]) -> u64
    ensures value { result ≡ session_of text.now }
    ensures fits { result ≤ GREATEST_NUMBER }
{
    match text {
        [b'S', digits @ ..] => decimal(digits).unwrap_or(0),
        _ => 0,
    }
}

/// Whether a byte is an ASCII letter or digit.
fn is_req_byte(byte: u8) -> bool
    ensures { result ≡ is_req_byte byte }
{
    byte.is_ascii_alphanumeric()
}

/// Whether a text can be an LS_reqId: 1 to 32 ASCII letters or digits.
pub(crate) fn is_req(text: &[u8]) -> bool
    ensures { result ≡ is_req text.now }
{
    if text.is_empty() || text.len() > MOST_OWN_NAME {
        return false;
    }
    for byte in text {
        if !is_req_byte(*byte) {
            return false;
        }
    }
    true
}

/// LS_subId: an ordinal.
pub(crate) fn sub(text: &[u8]) -> Option<u32>
    ensures value { result ≡ sub_of text.now }
    ensures fits { IfSome result IsOrdinal }
{
    let n = number_in(text, 1, GREATEST_ORDINAL as u64)?;
    Some(n as u32)
}

/// The mode that a word says: `RAW`, `MERGE`, `DISTINCT` or `COMMAND`, and `None` exactly for other words (TLCP 2.1,
/// LS_mode).
pub fn mode_of(text: &[u8]) -> Option<Mode>
    ensures { result ≡ mode_of text.now }
{
    if same_bytes(text, b"RAW") {
        Some(Mode::Raw)
    } else if same_bytes(text, b"MERGE") {
        Some(Mode::Merge)
    } else if same_bytes(text, b"DISTINCT") {
        Some(Mode::Distinct)
    } else if same_bytes(text, b"COMMAND") {
        Some(Mode::Command)
    } else {
        None
    }
}

/// LS_snapshot: `true`, `false` or a decimal.
pub(crate) fn snapshot(mode: Mode, text: &[u8]) -> Option<Snap>
    ensures value { result ≡ snap_of mode text.now }
    ensures fits { IfSome result SnapFits }
{
    if same_bytes(text, b"true") {
        return Some(Snap::All);
    }
    if same_bytes(text, b"false") {
        return Some(Snap::No);
    }
    let n = decimal(text)?;
    Some(snapshot_of_rows(mode, n))
}

/// The snapshot of so many rows: none of 0, and the whole one outside DISTINCT.
fn snapshot_of_rows(mode: Mode, n: u64) -> Snap
    ensures value { result ≡ snap_by mode n }
    ensures fits { SnapFits result }
{
    if n == 0 {
        return Snap::No;
    }
    match mode {
        Mode::Distinct => Snap::Last(cap(n)),
        Mode::Raw | Mode::Merge | Mode::Command => Snap::All,
    }
}

/// LS_requested_buffer_size: `unlimited` or a decimal from 1.
pub(crate) fn size(text: &[u8]) -> Option<Option<u32>>
    ensures value { result ≡ size_of text.now }
    ensures fits { IfSome result (λ r. IfSome r IsOrdinal) }
{
    if same_bytes(text, b"unlimited") {
        return Some(Some(GREATEST_ORDINAL));
    }
    let n = number_in(text, 1, GREATEST_NUMBER)?;
    Some(Some(cap(n)))
}
