//! The heads of replies (RFC 9112, section 4; RFC 6455, section 4.2.2).
//!
//! Each call appends to a text, which has a front part of it after `NoMemory`. A call can't fail where the text has room
//! for `LONGEST_REPLY` bytes more, and for the accept value.
ghost use Rattle.std.specs.Prelude.{◌≡◌, ◌<◌, ◌+◌, ◌++◌, OnOk, OnErr, length};
ghost use Rattle.std.specs.Vec.{vec_len, vec_capacity};
ghost use Rattle.ls_http.specs.Replies.{reason_of, refusal_text, answer_head, stream_head, upgrade_text};

use ls_value::NoMemory;
use ls_words::append_decimal;

/// No call here appends more bytes, beside an accept value's own.
pub const LONGEST_REPLY: usize = 256;

/// The reason of a status that refuses; other statuses have none.
fn reason_of(status: u16) -> &'static str
    ensures reason { result.now ≡ reason_of status }
    ensures short { length result.now < 32 }
{
    match status {
        400 => "Bad Request",
        404 => "Not Found",
        405 => "Method Not Allowed",
        413 => "Content Too Large",
        503 => "Service Unavailable",
        _ => "",
    }
}

/// Appends a refusal, whole: its status and reason, no body, and the end of the connection.
pub fn append_refusal(text: &mut Vec<u8>, status: u16) -> Result<(), NoMemory>
    ensures text { OnOk result (text.new.items ≡ text.old.items ++ refusal_text status) }
    ensures room { OnErr result (vec_capacity text.old < vec_len text.old + LONGEST_REPLY) }
{
    text.extend_from_slice(b"HTTP/1.1 ")?;
    append_decimal(text, status as u64)?;
    text.extend_from_slice(b" ")?;
    text.extend_from_slice(reason_of(status).as_bytes())?;
    text.extend_from_slice(b"\r\nContent-Length: 0\r\nConnection: close\r\n\r\n")?;
    Ok(())
}

/// Appends the head of an answer whose body has so many bytes.
pub fn append_answer_head(text: &mut Vec<u8>, length: u64) -> Result<(), NoMemory>
    ensures text { OnOk result (text.new.items ≡ text.old.items ++ answer_head length) }
    ensures room { OnErr result (vec_capacity text.old < vec_len text.old + LONGEST_REPLY) }
{
    text.extend_from_slice(
        b"HTTP/1.1 200 OK\r\nContent-Type: text/plain; charset=utf-8\r\nCache-Control: no-store\r\nContent-Length: ",
    )?;
    append_decimal(text, length)?;
    text.extend_from_slice(b"\r\nConnection: close\r\n\r\n")?;
    Ok(())
}

/// Appends the head of a stream, whose body ends with the connection.
pub fn append_stream_head(text: &mut Vec<u8>) -> Result<(), NoMemory>
    ensures text { OnOk result (text.new.items ≡ text.old.items ++ stream_head) }
    ensures room { OnErr result (vec_capacity text.old < vec_len text.old + LONGEST_REPLY) }
{
    text.extend_from_slice(
        b"HTTP/1.1 200 OK\r\nContent-Type: text/plain; charset=utf-8\r\nCache-Control: no-store\r\nConnection: close\r\n\r\n",
    )?;
    Ok(())
}

/// Appends the reply to a handshake, for its accept value (RFC 6455, section 4.2.2).
pub fn append_upgrade(text: &mut Vec<u8>, accept: &[u8]) -> Result<(), NoMemory>
    ensures text { OnOk result (text.new.items ≡ text.old.items ++ upgrade_text accept.now) }
    ensures room { OnErr result (vec_capacity text.old < vec_len text.old + length accept.now + LONGEST_REPLY) }
{
    text.extend_from_slice(
        b"HTTP/1.1 101 Switching Protocols\r\nUpgrade: websocket\r\nConnection: Upgrade\r\nSec-WebSocket-Accept: ",
    )?;
    text.extend_from_slice(accept)?;
    text.extend_from_slice(b"\r\nSec-WebSocket-Protocol: TLCP-2.1.0.lightstreamer.com\r\n\r\n")?;
    Ok(())
}
