//! The heads of handshakes, and what they are answered (RFC 6455, section 4.2.1).
use crate::serving::served;
use crate::upgrades::{ANSWER, HEAD, REPLY, WSOK};
use ls_conn_http::ConnEnd;
use std::alloc::{AllocError, Global};
use std::sync::Wait;
use std::test::Fail;

/// The refusal of a handshake that lacks something.
const REFUSAL: &[u8] =
    b"HTTP/1.1 400 Bad Request\r\nContent-Length: 0\r\nConnection: close\r\n\r\n";

/// The end of a connection whose handshake is refused.
const REFUSED: ConnEnd = ConnEnd::Refused { status: 400 };

/// The fields that a handshake needs.
const FIELDS: [&[u8]; 5] = [
    b"Upgrade: websocket\r\n",
    b"Connection: Upgrade\r\n",
    b"Sec-WebSocket-Version: 13\r\n",
    b"Sec-WebSocket-Key: dGhlIHNhbXBsZSBub25jZQ==\r\n",
    b"Sec-WebSocket-Protocol: TLCP-2.1.0.lightstreamer.com\r\n",
];

/// The place of a field, what stands there instead of it, and whether the handshake is accepted nonetheless.
const TABLE: [(usize, &[u8], bool); 22] = [
    // Missing.
    (0, b"", false),
    (1, b"", false),
    (2, b"", false),
    (3, b"", false),
    (4, b"", false),
    // Doubled.
    (0, b"Upgrade: websocket\r\nUpgrade: websocket\r\n", true),
    (1, b"Connection: Upgrade\r\nConnection: Upgrade\r\n", true),
    (
        2,
        b"Sec-WebSocket-Version: 13\r\nSec-WebSocket-Version: 13\r\n",
        false,
    ),
    (
        3,
        b"Sec-WebSocket-Key: dGhlIHNhbXBsZSBub25jZQ==\r\nSec-WebSocket-Key: dGhlIHNhbXBsZSBub25jZQ==\r\n",
        false,
    ),
    (
        4,
        b"Sec-WebSocket-Protocol: TLCP-2.1.0.lightstreamer.com\r\nSec-WebSocket-Protocol: TLCP-2.1.0.lightstreamer.com\r\n",
        true,
    ),
    // In another case.
    (0, b"UPGRADE: WebSocket\r\n", true),
    (1, b"connection: UPGRADE\r\n", true),
    (2, b"SEC-WEBSOCKET-VERSION: 13\r\n", true),
    (3, b"sec-websocket-key: dGhlIHNhbXBsZSBub25jZQ==\r\n", true),
    (
        4,
        b"sec-websocket-protocol: TLCP-2.1.0.lightstreamer.com\r\n",
        true,
    ),
    (
        4,
        b"Sec-WebSocket-Protocol: tlcp-2.1.0.lightstreamer.com\r\n",
        false,
    ),
    // In a list.
    (0, b"Upgrade: h2c, websocket\r\n", true),
    (1, b"Connection: keep-alive, Upgrade\r\n", true),
    (2, b"Sec-WebSocket-Version: 13, 8\r\n", false),
    (
        3,
        b"Sec-WebSocket-Key: dGhlIHNhbXBsZSBub25jZQ==, dGhlIHNhbXBsZSBub25jZQ==\r\n",
        false,
    ),
    (
        4,
        b"Sec-WebSocket-Protocol: chat, TLCP-2.1.0.lightstreamer.com\r\n",
        true,
    ),
    // Another version.
    (2, b"Sec-WebSocket-Version: 12\r\n", false),
];

/// A head with these bytes in place of the field there.
fn head_with(alloc: Global, place: usize, field: &[u8]) -> Result<Vec<u8>, AllocError> {
    let mut head = Vec::from_slice(alloc, b"GET /lightstreamer HTTP/1.1\r\n")?;
    for (k, line) in FIELDS.iter().enumerate() {
        head.extend_from_slice(if k == place { field } else { *line })?;
    }
    head.extend_from_slice(b"\r\n")?;
    Ok(head)
}

/// Whether a handshake with these bytes in place of the field there is accepted, or refused.
fn accepts<R: Wait>(
    rt: &R,
    alloc: Global,
    place: usize,
    field: &[u8],
    accepted: bool,
) -> Result<bool, AllocError> {
    let head = head_with(alloc, place, field)?;
    if accepted {
        served(rt, alloc, &head, ConnEnd::PeerLeft, REPLY, b"")
    } else {
        served(rt, alloc, &head, REFUSED, REFUSAL, b"")
    }
}

#[test]
fn a_handshake_needs_its_fields(rt: HostRuntime) -> Result<(), Fail> {
    for (place, field, accepted) in TABLE {
        assert!(rt; accepts(&rt, rt.alloc(), place, field, accepted)?);
    }
    Ok(())
}

#[test]
fn a_browser_is_accepted(rt: HostRuntime) -> Result<(), Fail> {
    assert!(rt; served(&rt, rt.alloc(), HEAD, ConnEnd::PeerLeft, REPLY, b"")?);
    Ok(())
}

/// Whether a connection on which only so many bytes of the head come is not answered.
fn is_unanswered<R: Wait>(rt: &R, alloc: Global, len: usize) -> Result<bool, AllocError> {
    match HEAD.get(..len) {
        Some(cut) => served(rt, alloc, cut, ConnEnd::PeerLeft, b"", b""),
        None => Ok(false),
    }
}

#[test]
fn a_head_that_is_cut_is_not_answered(rt: HostRuntime) -> Result<(), Fail> {
    for len in [0, 1, 29, 52, 200, HEAD.len().saturating_sub(1)] {
        assert!(rt; is_unanswered(&rt, rt.alloc(), len)?);
    }
    Ok(())
}

/// Whether a message that comes right after the head is answered after the reply.
fn goes_on<R: Wait>(rt: &R, alloc: Global) -> Result<bool, AllocError> {
    let mut bytes = Vec::from_slice(alloc, HEAD)?;
    bytes.extend_from_slice(WSOK)?;
    served(rt, alloc, &bytes, ConnEnd::PeerLeft, REPLY, ANSWER)
}

#[test]
fn messages_may_come_with_the_head(rt: HostRuntime) -> Result<(), Fail> {
    assert!(rt; goes_on(&rt, rt.alloc())?);
    Ok(())
}
