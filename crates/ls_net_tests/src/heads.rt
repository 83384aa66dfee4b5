//! Heads of requests: the order of refusals, each limit and one past it, and a head that comes byte by byte.
use ls_http::{Head, HeadRefused, LONGEST_HEAD, read_head};
use ls_value::same_bytes;
use std::alloc::{AllocError, Global};
use std::test::Fail;

/// A client's upgrade to WebSocket.
const HANDSHAKE: &[u8] =
    b"GET /lightstreamer HTTP/1.1\r\nHost: localhost:8080\r\nOrigin: http://localhost:8080\r\n\
    Connection: keep-alive, Upgrade\r\nUpgrade: websocket\r\nSec-WebSocket-Version: 13\r\n\
    Sec-WebSocket-Key: dGhlIHNhbXBsZSBub25jZQ==\r\nSec-WebSocket-Extensions: permessage-deflate\r\n\
    Sec-WebSocket-Protocol: TLCP-2.1.0.lightstreamer.com\r\n\r\n";

/// A request.
const REQUEST: &[u8] =
    b"POST /lightstreamer/control.txt?LS_protocol=TLCP-2.1.0 HTTP/1.1\r\nHost: localhost\r\n\
    Content-Type: application/x-www-form-urlencoded\r\nContent-Length: 28\r\n\r\n";

/// Whether these bytes are refused with the status.
fn is_refused(alloc: Global, bytes: &[u8], status: u16) -> bool {
    match read_head(alloc, bytes) {
        Err(refused) => refused == HeadRefused::Status { status },
        Ok(_) => false,
    }
}

/// Whether more bytes are waited for.
fn waits(alloc: Global, bytes: &[u8]) -> bool {
    match read_head(alloc, bytes) {
        Ok(None) => true,
        Ok(Some(_)) => false,
        Err(_) => false,
    }
}

/// Whether these bytes begin with the head of a request, of so many bytes, with this name, version and length.
fn asks(alloc: Global, bytes: &[u8], size: usize, name: &[u8], version: bool, length: u32) -> bool {
    match read_head(alloc, bytes) {
        Ok(Some((head, n))) => n == size && is_post(&head, name, version, length),
        Ok(None) => false,
        Err(_) => false,
    }
}

/// Whether a head is a request's, with this name, version and length.
fn is_post(head: &Head, wanted: &[u8], known: bool, size: u32) -> bool {
    match head {
        Head::Post {
            name,
            version,
            length,
        } => same_bytes(name.as_bytes(), wanted) && *version == known && *length == size,
        Head::Upgrade { .. } => false,
    }
}

/// Whether these bytes begin with an upgrade's head, of so many bytes, with this key.
fn upgrades(alloc: Global, bytes: &[u8], size: usize, key: &[u8]) -> bool {
    match read_head(alloc, bytes) {
        Ok(Some((head, n))) => n == size && is_upgrade(&head, key),
        Ok(None) => false,
        Err(_) => false,
    }
}

/// Whether a head is an upgrade's, with this key.
fn is_upgrade(head: &Head, wanted: &[u8]) -> bool {
    match head {
        Head::Upgrade { key } => same_bytes(key.as_slice(), wanted),
        Head::Post { .. } => false,
    }
}

#[test]
fn heads_are_refused_in_order(rt: HostRuntime) -> Result<(), Fail> {
    let cases: [(&[u8], u16); 24] = [
        (b"GET /lightstreamer/control.txt HTTP/1.1\r\n\r\n", 405),
        (b"POST /x HTTP/1.1\r\nContent-Length: 1\r\n\r\n", 404),
        (b"POST /lightstreamer/control.txt HTTP/1.1\r\n\r\n", 400),
        (
            b"POST /lightstreamer/control.txt HTTP/1.1\r\nContent-Length: 50001\r\n\r\n",
            413,
        ),
        // What is wrong at once: the first cause is answered.
        (b"PUT /x HTTP/1.1\r\nContent-Length: 50001\r\n\r\n", 404),
        (
            b"PUT /lightstreamer/control.txt HTTP/1.1\r\nContent-Length: 50001\r\n\r\n",
            405,
        ),
        (
            b"POST /lightstreamer/control.txt HTTP/1.1\r\nContent-Length: 50001\r\nTransfer-Encoding: chunked\r\n\r\n",
            400,
        ),
        // Paths are whole and in their case, and have no host.
        (b"GET / HTTP/1.1\r\n\r\n", 404),
        (b"GET /lightstreamer/ HTTP/1.1\r\n\r\n", 404),
        (b"GET /Lightstreamer HTTP/1.1\r\n\r\n", 404),
        (
            b"POST /lightstreamer/control HTTP/1.1\r\nContent-Length: 1\r\n\r\n",
            404,
        ),
        (
            b"POST http://h/lightstreamer/control.txt HTTP/1.1\r\nContent-Length: 1\r\n\r\n",
            404,
        ),
        // Methods.
        (
            b"post /lightstreamer/control.txt HTTP/1.1\r\nContent-Length: 1\r\n\r\n",
            405,
        ),
        (
            b"POST /lightstreamer HTTP/1.1\r\nContent-Length: 1\r\n\r\n",
            405,
        ),
        (b"HEAD /lightstreamer HTTP/1.1\r\n\r\n", 405),
        // Lengths.
        (
            b"POST /lightstreamer/control.txt HTTP/1.1\r\nContent-Length: 1\r\ncontent-length: 1\r\n\r\n",
            400,
        ),
        (
            b"POST /lightstreamer/control.txt HTTP/1.1\r\nContent-Length: 1, 1\r\n\r\n",
            400,
        ),
        (
            b"POST /lightstreamer/control.txt HTTP/1.1\r\nContent-Length:\r\n\r\n",
            400,
        ),
        (
            b"POST /lightstreamer/control.txt HTTP/1.1\r\nContent-Length: +1\r\n\r\n",
            400,
        ),
        (
            b"POST /lightstreamer/control.txt HTTP/1.1\r\nContent-Length: 1a\r\n\r\n",
            400,
        ),
        (
            b"POST /lightstreamer/control.txt HTTP/1.1\r\nContent-Length: 0000000000000000001\r\n\r\n",
            400,
        ),
        (
            b"POST /lightstreamer/control.txt HTTP/1.1\r\nContent-Length: 999999999999999999\r\n\r\n",
            413,
        ),
        // What is no head.
        (b"POST /lightstreamer/control.txt HTTP/2.0\r\n", 400),
        (
            b"POST /lightstreamer/control.txt HTTP/1.1\r\nContent-Length : 1\r\n\r\n",
            400,
        ),
    ];
    for (bytes, status) in cases {
        assert!(rt; is_refused(rt.alloc(), bytes, status));
    }
    Ok(())
}

#[test]
fn requests_are_read(rt: HostRuntime) -> Result<(), Fail> {
    let cases: [(&[u8], &[u8], bool, u32); 14] = [
        (
            b"POST /lightstreamer/create_session.txt?LS_protocol=TLCP-2.4.0 HTTP/1.1\r\nContent-Length: 0\r\n\r\n",
            b"create_session",
            false,
            0,
        ),
        (
            b"POST /lightstreamer/create_session.txt?LS_protocol=TLCP-2.1.0 HTTP/1.1\r\nContent-Length: 50000\r\n\r\n",
            b"create_session",
            true,
            50_000,
        ),
        (
            b"POST /lightstreamer/bind_session.txt?LS_protocol=TLCP-2.1.0 HTTP/1.1\r\ncontent-LENGTH:\t7 \r\n\r\n",
            b"bind_session",
            true,
            7,
        ),
        (
            b"POST /lightstreamer/control.txt?LS_protocol=TLCP-2.1.0 HTTP/1.1\r\nContent-Length: 000000000000050000\r\n\r\n",
            b"control",
            true,
            50_000,
        ),
        // Lines that end in LF alone, empty lines first, and an older version.
        (
            b"\r\n\nPOST /lightstreamer/control.txt HTTP/1.0\nContent-Length: 1\n\n",
            b"control",
            false,
            1,
        ),
        // Versions.
        (
            b"POST /lightstreamer/control.txt? HTTP/1.1\r\nContent-Length: 1\r\n\r\n",
            b"control",
            false,
            1,
        ),
        (
            b"POST /lightstreamer/control.txt?a=b&LS_protocol=TLCP-2%2e1.0 HTTP/1.1\r\nContent-Length: 1\r\n\r\n",
            b"control",
            true,
            1,
        ),
        (
            b"POST /lightstreamer/control.txt?LS_protocol=TLCP-2.1.0&LS_protocol=TLCP-2.1.0 HTTP/1.1\r\nContent-Length: 1\r\n\r\n",
            b"control",
            false,
            1,
        ),
        (
            b"POST /lightstreamer/control.txt?LS_protocol=TLCP-2.1.0&a=1&a=2 HTTP/1.1\r\nContent-Length: 1\r\n\r\n",
            b"control",
            false,
            1,
        ),
        (
            b"POST /lightstreamer/control.txt?LS_protocol=TLCP-2.1.0&a=%FF HTTP/1.1\r\nContent-Length: 1\r\n\r\n",
            b"control",
            false,
            1,
        ),
        (
            b"POST /lightstreamer/control.txt?LS_protocol=tlcp-2.1.0 HTTP/1.1\r\nContent-Length: 1\r\n\r\n",
            b"control",
            false,
            1,
        ),
        (
            b"POST /lightstreamer/control.txt?ls_protocol=TLCP-2.1.0 HTTP/1.1\r\nContent-Length: 1\r\n\r\n",
            b"control",
            false,
            1,
        ),
        (
            b"POST /lightstreamer/control.txt?LS_protocol=TLCP-2.1.0+ HTTP/1.1\r\nContent-Length: 1\r\n\r\n",
            b"control",
            false,
            1,
        ),
        (
            b"POST /lightstreamer/control.txt?x?LS_protocol=TLCP-2.1.0 HTTP/1.1\r\nContent-Length: 1\r\n\r\n",
            b"control",
            false,
            1,
        ),
    ];
    for (bytes, name, version, length) in cases {
        assert!(rt; asks(rt.alloc(), bytes, bytes.len(), name, version, length));
    }
    Ok(())
}

#[test]
fn upgrades_are_read(rt: HostRuntime) -> Result<(), Fail> {
    let cases: [&[u8]; 3] = [
        HANDSHAKE,
        b"GET /lightstreamer?x HTTP/1.1\r\nupgrade: h2c , WebSocket\t,\r\nconnection: UPGRADE\r\nSEC-WEBSOCKET-VERSION: 13\r\n\
          sec-websocket-key: dGhlIHNhbXBsZSBub25jZQ==\r\nsec-websocket-protocol: a,TLCP-2.1.0.lightstreamer.com,b\r\n\r\n",
        // A list may stand in several fields.
        b"GET /lightstreamer HTTP/1.1\r\nUpgrade: h2c\r\nUpgrade: websocket\r\nConnection: close\r\nConnection: upgrade\r\n\
          Sec-WebSocket-Version: 13\r\nSec-WebSocket-Key: dGhlIHNhbXBsZSBub25jZQ==\r\nSec-WebSocket-Protocol: a\r\n\
          Sec-WebSocket-Protocol: TLCP-2.1.0.lightstreamer.com\r\n\r\n",
    ];
    for bytes in cases {
        assert!(rt; upgrades(rt.alloc(), bytes, bytes.len(), b"dGhlIHNhbXBsZSBub25jZQ=="));
    }
    Ok(())
}

/// An upgrade's head of these fields.
fn upgrade_of(alloc: Global, fields: &[u8]) -> Result<Vec<u8>, AllocError> {
    let mut text = Vec::new(alloc);
    text.extend_from_slice(b"GET /lightstreamer HTTP/1.1\r\n")?;
    text.extend_from_slice(fields)?;
    text.extend_from_slice(b"\r\n")?;
    Ok(text)
}

/// Whether an upgrade of these fields is refused.
fn lacks_something(alloc: Global, fields: &[u8]) -> bool {
    match upgrade_of(alloc, fields) {
        Ok(text) => is_refused(alloc, &text, 400),
        Err(_) => false,
    }
}

#[test]
fn upgrades_need_their_fields(rt: HostRuntime) -> Result<(), Fail> {
    let cases: [&[u8]; 17] = [
        b"",
        b"Connection: upgrade\r\nSec-WebSocket-Version: 13\r\nSec-WebSocket-Key: dGhlIHNhbXBsZSBub25jZQ==\r\nSec-WebSocket-Protocol: TLCP-2.1.0.lightstreamer.com\r\n",
        b"Upgrade: websocket\r\nSec-WebSocket-Version: 13\r\nSec-WebSocket-Key: dGhlIHNhbXBsZSBub25jZQ==\r\nSec-WebSocket-Protocol: TLCP-2.1.0.lightstreamer.com\r\n",
        b"Upgrade: websocket\r\nConnection: upgrade\r\nSec-WebSocket-Key: dGhlIHNhbXBsZSBub25jZQ==\r\nSec-WebSocket-Protocol: TLCP-2.1.0.lightstreamer.com\r\n",
        b"Upgrade: websocket\r\nConnection: upgrade\r\nSec-WebSocket-Version: 13\r\nSec-WebSocket-Protocol: TLCP-2.1.0.lightstreamer.com\r\n",
        b"Upgrade: websocket\r\nConnection: upgrade\r\nSec-WebSocket-Version: 13\r\nSec-WebSocket-Key: dGhlIHNhbXBsZSBub25jZQ==\r\n",
        // Not the token, or another version.
        b"Upgrade: websockets\r\nConnection: upgrade\r\nSec-WebSocket-Version: 13\r\nSec-WebSocket-Key: dGhlIHNhbXBsZSBub25jZQ==\r\nSec-WebSocket-Protocol: TLCP-2.1.0.lightstreamer.com\r\n",
        b"Upgrade: web socket\r\nConnection: upgrade\r\nSec-WebSocket-Version: 13\r\nSec-WebSocket-Key: dGhlIHNhbXBsZSBub25jZQ==\r\nSec-WebSocket-Protocol: TLCP-2.1.0.lightstreamer.com\r\n",
        b"Upgrade: websocket\r\nConnection: keep-alive upgrade\r\nSec-WebSocket-Version: 13\r\nSec-WebSocket-Key: dGhlIHNhbXBsZSBub25jZQ==\r\nSec-WebSocket-Protocol: TLCP-2.1.0.lightstreamer.com\r\n",
        b"Upgrade: websocket\r\nConnection: upgrade\r\nSec-WebSocket-Version: 8\r\nSec-WebSocket-Key: dGhlIHNhbXBsZSBub25jZQ==\r\nSec-WebSocket-Protocol: TLCP-2.1.0.lightstreamer.com\r\n",
        b"Upgrade: websocket\r\nConnection: upgrade\r\nSec-WebSocket-Version: 13, 8\r\nSec-WebSocket-Key: dGhlIHNhbXBsZSBub25jZQ==\r\nSec-WebSocket-Protocol: TLCP-2.1.0.lightstreamer.com\r\n",
        b"Upgrade: websocket\r\nConnection: upgrade\r\nSec-WebSocket-Version: 13\r\nSec-WebSocket-Key: dGhlIHNhbXBsZSBub25jZQ==\r\nSec-WebSocket-Protocol: tlcp-2.1.0.lightstreamer.com\r\n",
        // The key stands once, and is the base64 of 16 bytes, written in one way.
        b"Upgrade: websocket\r\nConnection: upgrade\r\nSec-WebSocket-Version: 13\r\nSec-WebSocket-Key: dGhlIHNhbXBsZSBub25jZQ==\r\nSec-WebSocket-Key: dGhlIHNhbXBsZSBub25jZQ==\r\nSec-WebSocket-Protocol: TLCP-2.1.0.lightstreamer.com\r\n",
        b"Upgrade: websocket\r\nConnection: upgrade\r\nSec-WebSocket-Version: 13\r\nSec-WebSocket-Key: dGhlIHNhbXBsZSBub25jZQ\r\nSec-WebSocket-Protocol: TLCP-2.1.0.lightstreamer.com\r\n",
        b"Upgrade: websocket\r\nConnection: upgrade\r\nSec-WebSocket-Version: 13\r\nSec-WebSocket-Key: dGhlIHNhbXBsZSBub25jZQQ=\r\nSec-WebSocket-Protocol: TLCP-2.1.0.lightstreamer.com\r\n",
        b"Upgrade: websocket\r\nConnection: upgrade\r\nSec-WebSocket-Version: 13\r\nSec-WebSocket-Key: dGhlIHNhbXBsZSBub25jZR==\r\nSec-WebSocket-Protocol: TLCP-2.1.0.lightstreamer.com\r\n",
        b"Upgrade: websocket\r\nConnection: upgrade\r\nSec-WebSocket-Version: 13\r\nSec-WebSocket-Key: dGhlIHNhbXBsZSBub25!ZQ==\r\nSec-WebSocket-Protocol: TLCP-2.1.0.lightstreamer.com\r\n",
    ];
    for fields in cases {
        assert!(rt; lacks_something(rt.alloc(), fields));
    }
    Ok(())
}

/// Whether each front of a head is waited for.
fn waits_for_each_byte(alloc: Global, head: &[u8]) -> bool {
    for n in 0..head.len() {
        if !waits(alloc, &head[..n]) {
            return false;
        }
    }
    true
}

#[test]
fn heads_come_byte_by_byte(rt: HostRuntime) {
    assert!(rt; waits_for_each_byte(rt.alloc(), HANDSHAKE));
    assert!(rt;
        upgrades(
            rt.alloc(),
            HANDSHAKE,
            HANDSHAKE.len(),
            b"dGhlIHNhbXBsZSBub25jZQ=="
        )
    );
    assert!(rt; waits_for_each_byte(rt.alloc(), REQUEST));
    assert!(rt; asks(rt.alloc(), REQUEST, REQUEST.len(), b"control", true, 28));
}

/// A request's head with so many more field lines and a last one that is padded, and what stands after it.
fn padded(
    alloc: Global,
    lines: usize,
    padding: usize,
    after: &[u8],
) -> Result<Vec<u8>, AllocError> {
    let mut text = Vec::new(alloc);
    text.extend_from_slice(b"POST /lightstreamer/control.txt HTTP/1.1\r\nContent-Length: 4\r\n")?;
    for _ in 0..lines {
        text.extend_from_slice(b"a: b\r\n")?;
    }
    text.extend_from_slice(b"c: ")?;
    for _ in 0..padding {
        text.push(b'd')?;
    }
    text.extend_from_slice(after)?;
    Ok(text)
}

/// Whether such a head of so many bytes is read, with a body after it.
fn fits(alloc: Global, lines: usize, padding: usize, size: usize) -> bool {
    match padded(alloc, lines, padding, b"\r\n\r\nbody") {
        Ok(text) => asks(alloc, &text, size, b"control", false, 4),
        Err(_) => false,
    }
}

/// Whether such a head is refused.
fn is_too_long(alloc: Global, lines: usize, padding: usize, after: &[u8], size: usize) -> bool {
    match padded(alloc, lines, padding, after) {
        Ok(text) => text.len() == size && is_refused(alloc, &text, 400),
        Err(_) => false,
    }
}

/// Whether more is waited for after so many bytes.
fn may_go_on(alloc: Global, lines: usize, padding: usize, after: &[u8], size: usize) -> bool {
    match padded(alloc, lines, padding, after) {
        Ok(text) => text.len() == size && waits(alloc, &text),
        Err(_) => false,
    }
}

#[test]
fn heads_have_limits(rt: HostRuntime) {
    assert!(rt; LONGEST_HEAD == 8192);
    // 64 field lines; 65; 64, and their end isn't there yet.
    assert!(rt; fits(rt.alloc(), 62, 1, 441));
    assert!(rt; is_too_long(rt.alloc(), 63, 1, b"\r\n\r\n", 447));
    assert!(rt; may_go_on(rt.alloc(), 62, 1, b"\r\n", 439));
    // 8,192 bytes; 8,193; fewer, and as many, without an end.
    assert!(rt; fits(rt.alloc(), 0, 8124, 8192));
    assert!(rt; is_too_long(rt.alloc(), 0, 8125, b"\r\n\r\n", 8193));
    assert!(rt; may_go_on(rt.alloc(), 0, 8127, b"", 8191));
    assert!(rt; is_too_long(rt.alloc(), 0, 8128, b"", 8192));
    // A target whose last character isn't whole.
    assert!(rt; waits(rt.alloc(), b"GET /\xc3"));
    assert!(rt; is_refused(rt.alloc(), b"GET /\xc3 HTTP/1.1\r\n", 400));
}
