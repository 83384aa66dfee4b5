//! The order of refusals, at each limit and one past it.
use crate::serving::{Told, served_bytes};
use ls_conn_http::ConnEnd;
use std::alloc::{AllocError, Global};
use std::str;
use std::sync::Wait;
use std::test::Fail;

/// Heads, and what is answered: each head that is refused has the later causes of the order too. A semicolon is a CR LF.
/// `fields N TARGET` has so many field lines, `head N` so many bytes, and `body N` a body of so many; of `head N M` the
/// first M bytes come. `left` says that nothing is answered.
const ORDER: &str = "\
POST /x HTTP/1.1;A B: 1;; > 400 Bad Request
POST /x HTTP/9.9;; > 400 Bad Request
fields 65 /x > 400 Bad Request
fields 64 /x > 404 Not Found
head 8193 > 400 Bad Request
head 8193 8192 > 400 Bad Request
head 8193 8191 > left
head 8192 > 200
head 8192 8191 > left
GET /x HTTP/1.1;; > 404 Not Found
GET /lightstreamer/msg.txt HTTP/1.1;; > 404 Not Found
GET /lightstreamer/control.txt/ HTTP/1.1;; > 404 Not Found
GET /lightstreamer/control.txt HTTP/1.1;Transfer-Encoding: chunked;; > 405 Method Not Allowed
GET /lightstreamer/create_session.txt?LS_protocol=TLCP-2.1.0 HTTP/1.1;; > 405 Method Not Allowed
PUT /lightstreamer/bind_session.txt HTTP/1.1;; > 405 Method Not Allowed
POST /lightstreamer HTTP/1.1;; > 405 Method Not Allowed
POST /lightstreamer HTTP/1.1;Content-Length: 50001;; > 405 Method Not Allowed
GET /lightstreamer HTTP/1.1;; > 400 Bad Request
GET /lightstreamer HTTP/1.1;Content-Length: 50001;; > 400 Bad Request
GET /lightstreamer HTTP/1.1;Upgrade: websocket;Connection: Upgrade;Sec-WebSocket-Version: 13;Sec-WebSocket-Key: dGhlIHNhbXBsZSBub25jZQ==;; > 400 Bad Request
POST /lightstreamer/control.txt HTTP/1.1;Transfer-Encoding: chunked;Content-Length: 50001;; > 400 Bad Request
POST /lightstreamer/control.txt HTTP/1.1;; > 400 Bad Request
POST /lightstreamer/control.txt HTTP/1.1;Content-Length: 0;Content-Length: 0;; > 400 Bad Request
POST /lightstreamer/control.txt HTTP/1.1;Content-Length: x;; > 400 Bad Request
POST /lightstreamer/control.txt HTTP/1.1;Content-Length: 0000000000000000000;; > 400 Bad Request
POST /lightstreamer/control.txt HTTP/1.1;Content-Length: 000000000000000000;; > 200 ERROR,60,Protocol version not supported /
POST /lightstreamer/control.txt HTTP/1.1;Content-Length: 50001;; > 413 Content Too Large
POST /lightstreamer/create_session.txt?LS_protocol=TLCP-2.1.0 HTTP/1.1;Content-Length: 50001;; > 413 Content Too Large
POST /lightstreamer/create_session.txt?LS_protocol=TLCP-2.4.0 HTTP/1.1;Content-Length: 0;; > 200 CONERR,60,Protocol version not supported /
POST /lightstreamer/bind_session.txt HTTP/1.1;Content-Length: 3;;%zz > 200 CONERR,60,Protocol version not supported /
POST /lightstreamer/control.txt?LS_protocol=TLCP-2.1.0&LS_protocol=TLCP-2.1.0 HTTP/1.1;Content-Length: 0;; > 200 ERROR,60,Protocol version not supported /
POST /lightstreamer/control.txt?LS_protocol=TLCP-2.1.0&%zz HTTP/1.1;Content-Length: 0;; > 200
POST /lightstreamer/control.txt?LS_protocol=TLCP-2.1.0&%ff HTTP/1.1;Content-Length: 0;; > 200 ERROR,60,Protocol version not supported /
POST /lightstreamer/control.txt?LS_protocol=TLCP-2.1.0&x&x HTTP/1.1;Content-Length: 0;; > 200 ERROR,60,Protocol version not supported /
POST /lightstreamer/bind_session.txt?LS_protocol=TLCP-2.1.0 HTTP/1.1;Content-Length: 3;;%zz > 200 CONERR,65,Malformed request /
body 50001 > 413 Content Too Large
body 50000 > 200 ERROR,65,Malformed request /
POST /lightstreamer/control.txt?LS_protocol=TLCP-2.1.0 HTTP/1.1;Content-Length: 0;; > 200
POST /lightstreamer/control.txt?x=y&LS_protocol=TLCP-2.1.0 HTTP/1.1;Content-Length: 0;; > 200
POST /lightstreamer/contr > left
POST /lightstreamer/control.txt HTTP/1.1;Content-Length: 0; > left
GET /lightstreamer HTTP/1.1;Upgrade: websocket;Connection: Upgrade;Sec-WebSocket-Version: 13;Sec-WebSocket-Key: dGhlIHNhbXBsZSBub25jZQ==;Sec-WebSocket-Protocol: TLCP-2.1.0.lightstreamer.com;; > 101 Switching Protocols
GET /lightstreamer?x HTTP/1.1;Upgrade: websocket;Connection: Upgrade;Sec-WebSocket-Version: 13;Sec-WebSocket-Key: dGhlIHNhbXBsZSBub25jZQ==;Sec-WebSocket-Protocol: TLCP-2.1.0.lightstreamer.com;; > 101 Switching Protocols
";

/// The head of a control request, to its last field.
const CONTROL: &str = "POST /lightstreamer/control.txt?LS_protocol=TLCP-2.1.0 HTTP/1.1\r\n";

/// A number that a word says; 0 where it says none.
fn number(word: &str) -> usize {
    word.parse::<usize>().unwrap_or(0)
}

/// Adds a byte so often.
fn push_times(bytes: &mut Vec<u8>, byte: u8, times: usize) -> Result<(), AllocError> {
    for _ in 0..times {
        bytes.push(byte)?;
    }
    Ok(())
}

/// A head with so many field lines.
fn with_fields(alloc: Global, count: usize, target: &str) -> Result<Vec<u8>, AllocError> {
    let line = format!(in alloc; "GET {target} HTTP/1.1\r\n")?;
    let mut bytes = Vec::from_slice(alloc, line.as_bytes())?;
    for _ in 0..count {
        bytes.extend_from_slice(b"A: 1\r\n")?;
    }
    bytes.extend_from_slice(b"\r\n")?;
    Ok(bytes)
}

/// The first bytes of a control request without a body, whose head has so many bytes; all of it where `first` is 0.
fn with_head(alloc: Global, len: usize, first: usize) -> Result<Vec<u8>, AllocError> {
    let mut bytes = Vec::from_slice(alloc, CONTROL.as_bytes())?;
    bytes.extend_from_slice(b"Content-Length: 0\r\nA: ")?;
    let rest = len.saturating_sub(bytes.len()).saturating_sub(4);
    push_times(&mut bytes, b'a', rest)?;
    bytes.extend_from_slice(b"\r\n\r\n")?;
    if first != 0 {
        bytes.truncate(first);
    }
    Ok(bytes)
}

/// A control request with a body of so many bytes.
fn with_body(alloc: Global, len: usize) -> Result<Vec<u8>, AllocError> {
    let mut bytes = Vec::from_slice(alloc, CONTROL.as_bytes())?;
    bytes.extend_from_slice(format!(in alloc; "Content-Length: {len}\r\n\r\n")?.as_bytes())?;
    push_times(&mut bytes, b'x', len)?;
    Ok(bytes)
}

/// Bytes as a text says them.
fn as_said(alloc: Global, text: &str) -> Result<Vec<u8>, AllocError> {
    let mut bytes = Vec::new(alloc);
    for byte in text.as_bytes() {
        if *byte == b';' {
            bytes.extend_from_slice(b"\r\n")?;
        } else {
            bytes.push(*byte)?;
        }
    }
    Ok(bytes)
}

/// The bytes that a call says.
fn bytes_of(alloc: Global, call: &str) -> Result<Vec<u8>, AllocError> {
    let mut words = call.split(' ');
    let name = words.next().unwrap_or("");
    let count = number(words.next().unwrap_or(""));
    match name {
        "fields" => with_fields(alloc, count, words.next().unwrap_or("")),
        "head" => with_head(alloc, count, number(words.next().unwrap_or(""))),
        "body" => with_body(alloc, count),
        _ => as_said(alloc, call),
    }
}

/// A reply in words: its status line, and the lines of its body where it isn't a refusal.
fn in_words(alloc: Global, written: &[u8]) -> Result<String, AllocError> {
    let text = str::from_utf8(written).unwrap_or("?");
    let mut said = String::new(alloc);
    let Some((head, body)) = text.split_once("\r\n\r\n") else {
        return Ok(said);
    };
    let status = head.split("\r\n").next().unwrap_or("");
    let status = status.strip_prefix("HTTP/1.1 ").unwrap_or("?");
    if status != "200 OK" {
        said.push_str(status)?;
        return Ok(said);
    }
    said.push_str("200")?;
    for line in body.split("\r\n") {
        if line.is_empty() {
            continue;
        }
        said.push_str(" ")?;
        said.push_str(line)?;
        said.push_str(" /")?;
    }
    Ok(said)
}

/// What came of a connection, in words.
fn told_words(alloc: Global, told: &Told) -> Result<String, AllocError> {
    let written = told.pipe.sink.bytes();
    match told.end {
        ConnEnd::PeerLeft if written.is_empty() => String::from_str(alloc, "left"),
        ConnEnd::PeerLeft | ConnEnd::Served | ConnEnd::Refused { status: _ } => {
            in_words(alloc, written)
        }
        _ => String::from_str(alloc, "otherwise"),
    }
}

/// The first line of a table whose answer is another one, with that answer; nothing where there is none.
fn first_other<R: Wait>(rt: &R, alloc: Global, table: &str) -> Result<String, AllocError> {
    for case in table.lines() {
        let call = case.split(" > ").next().unwrap_or("");
        let bytes = bytes_of(alloc, call)?;
        let answer = match served_bytes(rt, alloc, &[], &bytes) {
            Some(told) => told_words(alloc, &told)?,
            None => String::from_str(alloc, "memory")?,
        };
        let told = format!(in alloc; "{call} > {}", answer.as_str())?;
        if told.as_str() != case {
            return Ok(told);
        }
    }
    Ok(String::new(alloc))
}

#[test]
fn heads_are_refused_in_order(rt: HostRuntime) -> Result<(), Fail> {
    let other = first_other(&rt, rt.alloc(), ORDER)?;
    assert!(rt; other.is_empty(), "{other}");
    Ok(())
}
