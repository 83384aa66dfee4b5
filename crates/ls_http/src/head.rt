//! What a request's head asks for, and why it is refused.
ghost use Rattle.std.specs.Prelude.{◌≡◌, ◌≤◌, ℕ, List, All, IfOk, IfErr, IfSome, length, map};
ghost use Rattle.httparse.specs.Grammar.{RequestHead};
ghost use Rattle.httparse.specs.Spans.{IsHeaderWithin, header_bytes, IsRequestAt, IsRequestWithin};
ghost use Rattle.ls_http.specs.declared.target.Asked.TheVariants as kind;
ghost use Rattle.ls_http.specs.Heads.{answer_of, body_of, post_of};
ghost use Rattle.ls_http.specs.Reading.{front, IsHeadAt, UnlessNoMemory, some_head, reply_to, IsFound, IsRefused};
ghost use Rattle.ls_http.specs.Targets.{path_of, query_of, asked_of};

use crate::fields::{asks_upgrade, body_length, key_of};
use crate::look::{Found, front, look};
use crate::target::{Asked, Named, asked_of, says_version, split_target};
use httparse::spans::{EMPTY_HEADER_SPAN, HeaderSpan, RequestSpans};
use ls_value::{Bytes, NoMemory, Text};
use std::alloc::Global;

/// The most bytes of a head (this project's profile).
pub const LONGEST_HEAD: usize = 8192;

/// The most field lines of a head (this project's profile).
pub const MOST_FIELDS: usize = 64;

/// The most bytes of a body (this project's profile).
pub const LONGEST_BODY: u32 = 50_000;

/// What a head asks for.
#[derive(Drop)]
pub enum Head {
    /// A request, whose parameters are the body.
    Post {
        /// The request's name: `create_session`, `bind_session` or `control`.
        name: Text,
        /// Whether the query holds exactly one LS_protocol, with the value `TLCP-2.1.0`.
        version: bool,
        /// The bytes of the body, at most `LONGEST_BODY`.
        length: u32,
    },
    /// The upgrade to WebSocket.
    Upgrade {
        /// The handshake's key: 24 characters that are the base64 of 16 bytes.
        key: Bytes,
    },
}

/// Why a head is refused.
#[derive(Clone, Copy, Debug, PartialEq, Eq)]
pub enum HeadRefused {
    /// It is answered with a status, and its connection ends.
    Status {
        /// 400, 404, 405 or 413.
        status: u16,
    },
    /// Memory was refused.
    NoMemory,
}

impl From<NoMemory> for HeadRefused {
    ghost use Rattle.std.specs.Prelude.{◌≡◌};
    ghost use Rattle.ls_http.specs.declared.head.HeadRefused.TheVariants as refused;

    ghost from_gives = { λ _ e. e ≡ refused.NoMemory };

    fn from(_: NoMemory) -> HeadRefused {
        HeadRefused::NoMemory
    }
}

/// The head at the front of the bytes that came, with its length in bytes (RFC 9112, sections 2 to 5; RFC 6455, section
/// 4.2.1).
///
/// A head has at most `LONGEST_HEAD` bytes and `MOST_FIELDS` field lines. `None` says that no whole head is there, and
/// one may still come. The statuses, in the order in which their causes are looked at:
///
/// - 400: no head can come of these bytes, or the first `LONGEST_HEAD` hold none, or it has more field lines;
/// - 404: the path is none of `/lightstreamer`, `/lightstreamer/create_session.txt`, `/lightstreamer/bind_session.txt`
///   and `/lightstreamer/control.txt`;
/// - 405: the method isn't GET for the first of these, or POST for the others;
/// - 400: the upgrade lacks a field that it needs, or the request has Transfer-Encoding or not exactly one Content-Length
///   of 1 to 18 digits;
/// - 413: its Content-Length is above `LONGEST_BODY`.
pub fn read_head(alloc: Global, bytes: &[u8]) -> Result<Option<(Head, usize)>, HeadRefused>
    ensures answered { (h : RequestHead) (rest : List ℕ) → IsHeadAt bytes.now h rest
        → UnlessNoMemory result (some_head (reply_to h)) }
    ensures found { IfOk result (IsFound bytes.now) }
    ensures within { IfOk result (λ found. IfSome found (λ f. f.1 ≤ length bytes.now)) }
    ensures body { IfOk result (λ found. IfSome found (λ f. body_of f.0 ≤ LONGEST_BODY)) }
    ensures refused { IfErr result (IsRefused bytes.now) }
{
    let mut headers = [EMPTY_HEADER_SPAN; MOST_FIELDS];
    match look(bytes, &mut headers) {
        Found::Whole { spans } => match reply(alloc, front(bytes), &headers, spans) {
            Ok(found) => Ok(Some(found)),
            Err(refused) => Err(refused),
        },
        Found::Waiting => Ok(None),
        Found::Bad => Err(HeadRefused::Status { status: 400 }),
    }
}

/// What is answered of a head that was found, with its length.
fn reply(
    alloc: Global,
    buf: &[u8],
    headers: &[HeaderSpan],
    spans: RequestSpans,
) -> Result<(Head, usize), HeadRefused>
    requires { IsRequestWithin buf.now headers.now spans }
    ensures reply { (h : RequestHead) → IsRequestAt buf.now headers.now spans h → UnlessNoMemory result (reply_to h) }
    ensures within { IfOk result (λ f. f.1 ≤ length buf.now) }
    ensures body { IfOk result (λ f. body_of f.0 ≤ LONGEST_BODY) }
{
    let fields = &headers[..spans.headers];
    match answer(alloc, spans.method.of(buf), spans.path.of(buf), buf, fields) {
        Ok(head) => Ok((head, spans.len)),
        Err(refused) => Err(refused),
    }
}

/// What is answered of a method, a target and fields.
fn answer(
    alloc: Global,
    method: &[u8],
    target: &[u8],
    buf: &[u8],
    headers: &[HeaderSpan],
) -> Result<Head, HeadRefused>
    requires { All (IsHeaderWithin (length buf.now)) headers.now }
    ensures body { IfOk result (λ head. body_of head ≤ LONGEST_BODY) }
    ensures answer { UnlessNoMemory result (answer_of (record {
      asked = asked_of (path_of target.now);
      method = method.now;
      query = query_of target.now;
      fields = map (header_bytes buf.now) headers.now;
    })) }
{
    let (path, query) = split_target(target);
    match asked_of(path) {
        Asked::Upgrade => upgrade(alloc, method, query, buf, headers),
        Asked::Request(name) => post(alloc, name, method, query, buf, headers),
        Asked::Nothing => Err(HeadRefused::Status { status: 404 }),
    }
}

/// What is answered of the upgrade to WebSocket, which needs no query.
fn upgrade(
    alloc: Global,
    method: &[u8],
    query: &[u8],
    buf: &[u8],
    headers: &[HeaderSpan],
) -> Result<Head, HeadRefused>
    requires { All (IsHeaderWithin (length buf.now)) headers.now }
    ensures body { IfOk result (λ head. body_of head ≤ LONGEST_BODY) }
    ensures answer { UnlessNoMemory result (answer_of (record {
      asked = kind.Upgrade;
      method = method.now;
      query = query.now;
      fields = map (header_bytes buf.now) headers.now;
    })) }
{
    if method != b"GET".as_slice() {
        return Err(HeadRefused::Status { status: 405 });
    }
    if !asks_upgrade(buf, headers) {
        return Err(HeadRefused::Status { status: 400 });
    }
    match key_of(alloc, buf, headers) {
        Ok(Some(key)) => Ok(Head::Upgrade { key }),
        Ok(None) => Err(HeadRefused::Status { status: 400 }),
        Err(NoMemory) => Err(HeadRefused::NoMemory),
    }
}

/// What is answered of a request.
fn post(
    alloc: Global,
    name: Named,
    method: &[u8],
    query: &[u8],
    buf: &[u8],
    headers: &[HeaderSpan],
) -> Result<Head, HeadRefused>
    requires { All (IsHeaderWithin (length buf.now)) headers.now }
    ensures body { IfOk result (λ head. body_of head ≤ LONGEST_BODY) }
    ensures answer { UnlessNoMemory result (answer_of (record {
      asked = kind.Request name;
      method = method.now;
      query = query.now;
      fields = map (header_bytes buf.now) headers.now;
    })) }
{
    if method != b"POST".as_slice() {
        return Err(HeadRefused::Status { status: 405 });
    }
    match body_length(buf, headers) {
        None => Err(HeadRefused::Status { status: 400 }),
        Some(length) => {
            if length > LONGEST_BODY as u64 {
                Err(HeadRefused::Status { status: 413 })
            } else {
                made(alloc, name, query, length as u32)
            }
        }
    }
}

/// A request's head.
fn made(alloc: Global, name: Named, query: &[u8], length: u32) -> Result<Head, HeadRefused>
    ensures body { IfOk result (λ head. body_of head ≡ length) }
    ensures made { UnlessNoMemory result (Ok (post_of name query.now length)) }
{
    let version = says_version(alloc, query)?;
    let name = Text::from_str(alloc, name.text())?;
    Ok(Head::Post {
        name,
        version,
        length,
    })
}
