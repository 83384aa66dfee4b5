//! The reply to a handshake.
use crate::serving::upgraded;
use std::test::Fail;

/// The head of a browser's handshake.
pub(crate) const HEAD: &[u8] =
    b"GET /lightstreamer HTTP/1.1\r\nHost: localhost:8080\r\nOrigin: http://localhost:8080\r\nConnection: keep-alive, Upgrade\r\nUpgrade: websocket\r\nSec-WebSocket-Version: 13\r\nSec-WebSocket-Key: dGhlIHNhbXBsZSBub25jZQ==\r\nSec-WebSocket-Extensions: permessage-deflate\r\nSec-WebSocket-Protocol: TLCP-2.1.0.lightstreamer.com\r\n\r\n";

/// The reply for the key of RFC 6455's example.
pub(crate) const REPLY: &[u8] =
    b"HTTP/1.1 101 Switching Protocols\r\nUpgrade: websocket\r\nConnection: Upgrade\r\nSec-WebSocket-Accept: s3pPLMBiTxaQ9kYGzzhZRbK+xOo=\r\nSec-WebSocket-Protocol: TLCP-2.1.0.lightstreamer.com\r\n\r\n";

/// The message `wsok` in one masked frame, and the message that answers it.
pub(crate) const WSOK: &[u8] = b"\x81\x84\x00\x00\x00\x00wsok";

pub(crate) const ANSWER: &[u8] = b"\x81\x06WSOK\r\n";

#[test]
fn a_handshake_is_answered(rt: HostRuntime) -> Result<(), Fail> {
    assert!(rt; upgraded(&rt, rt.alloc(), b"", b"", REPLY, b"")?);
    Ok(())
}

#[test]
fn bytes_past_the_head_are_read_first(rt: HostRuntime) -> Result<(), Fail> {
    assert!(rt; upgraded(&rt, rt.alloc(), WSOK, b"", REPLY, ANSWER)?);
    assert!(rt; upgraded(&rt, rt.alloc(), &WSOK[..3], &WSOK[3..], REPLY, ANSWER)?);
    Ok(())
}
