//! What a client's frames are answered, after its handshake (RFC 6455, section 5).
use crate::serving::upgraded;
use crate::upgrades::REPLY;
use std::alloc::{AllocError, Global};
use std::sync::Wait;
use std::test::Fail;

/// Frames, each masked with a key of zeros, and the frames that answer them.
const TABLE: [(&[u8], &[u8]); 11] = [
    // An empty message.
    (
        b"\x81\x80\x00\x00\x00\x00",
        b"\x81\x1cERROR,65,Malformed request\r\n",
    ),
    // Two messages.
    (
        b"\x81\x84\x00\x00\x00\x00wsok\x81\x84\x00\x00\x00\x00wsok",
        b"\x81\x06WSOK\r\n\x81\x06WSOK\r\n",
    ),
    // A ping is answered before the message that follows it.
    (
        b"\x89\x82\x00\x00\x00\x00hi\x81\x84\x00\x00\x00\x00wsok",
        b"\x8a\x02hi\x81\x06WSOK\r\n",
    ),
    // A pong isn't.
    (
        b"\x8a\x82\x00\x00\x00\x00hi\x81\x84\x00\x00\x00\x00wsok",
        b"\x81\x06WSOK\r\n",
    ),
    // A close is, and ends it.
    (
        b"\x88\x82\x00\x00\x00\x00\x03\xe8\x81\x84\x00\x00\x00\x00wsok",
        b"\x88\x02\x03\xe8",
    ),
    // A binary message.
    (
        b"\x82\x84\x00\x00\x00\x00wsok\x81\x84\x00\x00\x00\x00wsok",
        b"\x81\x1cERROR,65,Malformed request\r\n\x81\x06WSOK\r\n",
    ),
    // A frame without a mask ends it.
    (b"\x81\x04wsok", b""),
    // A message in two fragments.
    (
        b"\x01\x82\x00\x00\x00\x00ws\x80\x82\x00\x00\x00\x00ok",
        b"\x81\x06WSOK\r\n",
    ),
    // The same with a ping between them.
    (
        b"\x01\x82\x00\x00\x00\x00ws\x89\x80\x00\x00\x00\x00\x80\x82\x00\x00\x00\x00ok",
        b"\x8a\x00\x81\x06WSOK\r\n",
    ),
    // An end within a frame.
    (
        b"\x81\x84\x00\x00\x00\x00wsok\x81\x84\x00\x00\x00\x00ws",
        b"\x81\x06WSOK\r\n",
    ),
    // No frame at all.
    (b"", b""),
];

#[test]
fn frames_are_answered(rt: HostRuntime) -> Result<(), Fail> {
    for (frames, answers) in TABLE {
        assert!(rt; upgraded(&rt, rt.alloc(), b"", frames, REPLY, answers)?);
    }
    Ok(())
}

/// Whether a binary message and a text of 50,001 bytes are answered as no requests, and a frame without a mask ends the
/// connection.
fn are_no_requests<R: Wait>(rt: &R, alloc: Global) -> Result<bool, AllocError> {
    let mut frames = Vec::from_slice(
        alloc,
        b"\x82\x84\x00\x00\x00\x00wsok\x81\xfe\xc3\x51\x00\x00\x00\x00",
    )?;
    frames.resize(50_019, b'x')?;
    frames.extend_from_slice(b"\x81\x04wsok")?;
    let answers = b"\x81\x1cERROR,65,Malformed request\r\n\x81\x1cERROR,65,Malformed request\r\n";
    upgraded(rt, alloc, b"", &frames, REPLY, answers)
}

#[test]
fn what_is_no_request_over_a_pipe(rt: HostRuntime) -> Result<(), Fail> {
    assert!(rt; are_no_requests(&rt, rt.alloc())?);
    Ok(())
}
