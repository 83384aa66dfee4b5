//! The fields of a head, by name, and what some of them say (RFC 9110, sections 5 and 8.6; RFC 6455, section 4.2.1).
ghost use Rattle.std.specs.Prelude.{◌≡◌, ◌<◌, ◌^◌, IfOk, IfSome, All, length, map};
ghost use Rattle.std.specs.List.{list_all};
ghost use Rattle.std.specs.Option.{option_copied};
ghost use Rattle.httparse.specs.Grammar.{is_ows, skip_ows};
ghost use Rattle.httparse.specs.Spans.{IsHeaderWithin, header_bytes};
ghost use Rattle.ls_http.specs.Fields.{is_named, count_of_name, first_value, only_value, is_same_token};
ghost use Rattle.ls_http.specs.Fields.{is_element, has_element, lists, is_value, is_key, key_in, key_of};
ghost use Rattle.ls_http.specs.Fields.{asks_upgrade, length_in, body_length};

use base64::DecodeAllocError;
use base64::engine::general_purpose::STANDARD;
use httparse::spans::HeaderSpan;
use ls_value::{Bytes, NoMemory};
use ls_words::first_piece;
use std::alloc::Global;

/// Whether a field has the name, in either case.
fn is_named(buf: &[u8], header: &HeaderSpan, name: &[u8]) -> bool
    requires { IsHeaderWithin (length buf.now) header.now }
    ensures { result ≡ is_named name.now (header_bytes buf.now header.now) }
{
    is_same_token(false, header.name.of(buf), name)
}

/// Whether two tokens are the same: by their bytes where the case counts, else in either case.
fn is_same_token(case_counts: bool, a: &[u8], b: &[u8]) -> bool
    ensures { result ≡ is_same_token case_counts a.now b.now }
{
    if case_counts {
        a == b
    } else {
        a.eq_ignore_ascii_case(b)
    }
}

/// How many fields have the name.
fn count_named(buf: &[u8], headers: &[HeaderSpan], name: &[u8]) -> usize
    requires { All (IsHeaderWithin (length buf.now)) headers.now }
    ensures { result ≡ count_of_name name.now (map (header_bytes buf.now) headers.now) }
{
    let mut count = 0;
    for header in headers {
        if is_named(buf, header, name) {
            count += 1;
        }
    }
    count
}

/// The value of the first field with the name.
fn first_value<'a>(buf: &'a [u8], headers: &[HeaderSpan], name: &[u8]) -> Option<&'a [u8]>
    requires { All (IsHeaderWithin (length buf.now)) headers.now }
    ensures { option_copied result ≡ first_value name.now (map (header_bytes buf.now) headers.now) }
{
    for header in headers {
        if is_named(buf, header, name) {
            return Some(header.value.of(buf));
        }
    }
    None
}

/// The value of the field with the name, where it stands once.
fn only_value<'a>(buf: &'a [u8], headers: &[HeaderSpan], name: &[u8]) -> Option<&'a [u8]>
    requires { All (IsHeaderWithin (length buf.now)) headers.now }
    ensures { option_copied result ≡ only_value name.now (map (header_bytes buf.now) headers.now) }
{
    if count_named(buf, headers, name) == 1 {
        first_value(buf, headers, name)
    } else {
        None
    }
}

/// Whether a byte is white space in a field: a space or a tab.
fn is_ows(byte: u8) -> bool
    ensures { result ≡ is_ows byte }
{
    byte == b' ' || byte == b'\t'
}

/// Whether a text is white space.
fn are_ows(text: &[u8]) -> bool
    ensures { result ≡ list_all is_ows text.now }
{
    for byte in text {
        if !is_ows(*byte) {
            return false;
        }
    }
    true
}

/// A text without the white space at its front.
fn skip_ows(text: &[u8]) -> &[u8]
    ensures { result.now ≡ skip_ows text.now }
{
    for i in 0..text.len() {
        if !is_ows(text[i]) {
            return &text[i..];
        }
    }
    &[]
}

/// Whether an element of a list is the token, with white space around it.
fn is_element(case_counts: bool, token: &[u8], piece: &[u8]) -> bool
    ensures { result ≡ is_element case_counts token.now piece.now }
{
    let text = skip_ows(piece);
    let length = token.len().min(text.len());
    is_same_token(case_counts, &text[..length], token) && are_ows(&text[length..])
}

/// Whether a list, whose elements commas divide, has the token.
fn has_element(case_counts: bool, token: &[u8], value: &[u8]) -> bool
    ensures { result ≡ has_element case_counts token.now value.now }
{
    let mut rest = Some(value);
    while let Some(text) = rest {
        let (piece, others) = first_piece(b',', text);
        if is_element(case_counts, token, piece) {
            return true;
        }
        rest = others;
    }
    false
}

/// Whether the lists of the fields with the name have the token.
fn lists(case_counts: bool, name: &[u8], token: &[u8], buf: &[u8], headers: &[HeaderSpan]) -> bool
    requires { All (IsHeaderWithin (length buf.now)) headers.now }
    ensures { result ≡ lists case_counts name.now token.now (map (header_bytes buf.now) headers.now) }
{
    for header in headers {
        if is_named(buf, header, name) && has_element(case_counts, token, header.value.of(buf)) {
            return true;
        }
    }
    false
}

/// Whether the field with the name stands once, and has this value.
fn is_only(buf: &[u8], headers: &[HeaderSpan], name: &[u8], value: &[u8]) -> bool
    requires { All (IsHeaderWithin (length buf.now)) headers.now }
    ensures { result ≡ is_value value.now (only_value name.now (map (header_bytes buf.now) headers.now)) }
{
    match only_value(buf, headers, name) {
        Some(found) => found == value,
        None => false,
    }
}

/// Whether a head asks for the upgrade to WebSocket, with all that it needs beside its key.
pub(crate) fn asks_upgrade(buf: &[u8], headers: &[HeaderSpan]) -> bool
    requires { All (IsHeaderWithin (length buf.now)) headers.now }
    ensures { result ≡ asks_upgrade (map (header_bytes buf.now) headers.now) }
{
    lists(false, b"Upgrade", b"websocket", buf, headers)
        && lists(false, b"Connection", b"upgrade", buf, headers)
        && is_only(buf, headers, b"Sec-WebSocket-Version", b"13")
        && lists(
            true,
            b"Sec-WebSocket-Protocol",
            b"TLCP-2.1.0.lightstreamer.com",
            buf,
            headers,
        )
}

/// Whether a text is a handshake's key: 24 characters that are the base64 of 16 bytes.
fn is_key(alloc: Global, text: &[u8]) -> Result<bool, NoMemory>
    ensures { IfOk result (λ is. is ≡ is_key text.now) }
{
    if text.len() != 24 {
        return Ok(false);
    }
    match STANDARD.decode(alloc, text) {
        Ok(bytes) => Ok(bytes.len() == 16),
        Err(DecodeAllocError::OutOfMemory) => Err(NoMemory),
        Err(DecodeAllocError::DecodeError(_)) => Ok(false),
    }
}

/// A copy of a text, where it is a key.
fn key_in(alloc: Global, text: &[u8]) -> Result<Option<Bytes>, NoMemory>
    ensures { IfOk result (λ key. key ≡ key_in text.now) }
{
    if is_key(alloc, text)? {
        let key = Bytes::of(alloc, text)?;
        Ok(Some(key))
    } else {
        Ok(None)
    }
}

/// The handshake's key.
pub(crate) fn key_of(
    alloc: Global,
    buf: &[u8],
    headers: &[HeaderSpan],
) -> Result<Option<Bytes>, NoMemory>
    requires { All (IsHeaderWithin (length buf.now)) headers.now }
    ensures { IfOk result (λ key. key ≡ key_of (map (header_bytes buf.now) headers.now)) }
{
    match only_value(buf, headers, b"Sec-WebSocket-Key") {
        Some(text) => key_in(alloc, text),
        None => Ok(None),
    }
}

/// The number that 1 to 18 digits say.
fn length_in(text: &[u8]) -> Option<u64>
    ensures { result ≡ length_in text.now }
{
    if text.is_empty() || text.len() > 18 {
        return None;
    }
    let mut n: u64 = 0;
    for digit in text {
        if !digit.is_ascii_digit() {
            return None;
        }
        n = 10 * n + u64::from(*digit - b'0');
    }
    Some(n)
}

/// The length of a body that comes whole and with one length: `None` exactly where the head says another transfer
/// coding, or not one length.
pub(crate) fn body_length(buf: &[u8], headers: &[HeaderSpan]) -> Option<u64>
    requires { All (IsHeaderWithin (length buf.now)) headers.now }
    ensures { result ≡ body_length (map (header_bytes buf.now) headers.now) }
{
    if count_named(buf, headers, b"Transfer-Encoding") != 0 {
        return None;
    }
    match only_value(buf, headers, b"Content-Length") {
        Some(text) => length_in(text),
        None => None,
    }
}
