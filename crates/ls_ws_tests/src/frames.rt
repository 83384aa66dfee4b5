//! The frames of RFC 6455, section 5.7, as a client sends them, and what a server sends.
use crate::peers::{
    HELLO, has_counts, is_binary, is_closed, is_control, is_long, is_not_yet, is_text, pipe_of,
    wire_of,
};
use ls_outside::Call;
use ls_talk::{LineOut, Talk};
use ls_value::same_bytes;
use ls_ws::WsWire;
use std::alloc::{AllocError, Global};
use std::test::Fail;

#[test]
fn a_masked_text_comes(rt: HostRuntime) -> Result<(), Fail> {
    let mut wire = wire_of(rt.alloc(), HELLO)?;
    assert!(rt; is_text(&wire.message(), b"Hello"));
    assert!(rt; is_closed(&wire.message()));
    assert!(rt; wire.closes() == 1);
    Ok(())
}

#[test]
fn fragments_are_one_text(rt: HostRuntime) -> Result<(), Fail> {
    let mut wire = wire_of(
        rt.alloc(),
        b"\x01\x83\x37\xfa\x21\x3d\x7f\x9f\x4d\x80\x82\x37\xfa\x21\x3d\x5b\x95",
    )?;
    assert!(rt; is_text(&wire.message(), b"Hello"));
    assert!(rt; is_closed(&wire.message()));
    Ok(())
}

#[test]
fn a_ping_is_answered_and_a_pong_is_not(rt: HostRuntime) -> Result<(), Fail> {
    let mut wire = wire_of(
        rt.alloc(),
        b"\x89\x85\x37\xfa\x21\x3d\x7f\x9f\x4d\x51\x58\x8a\x85\x37\xfa\x21\x3d\x7f\x9f\x4d\x51\x58",
    )?;
    assert!(rt; is_control(&wire.message()));
    assert!(rt; is_control(&wire.message()));
    assert!(rt; is_closed(&wire.message()));
    assert!(rt; same_bytes(wire.pipe().sink.bytes(), b"\x8a\x05Hello"));
    Ok(())
}

#[test]
fn a_binary_message_comes(rt: HostRuntime) -> Result<(), Fail> {
    let mut wire = wire_of(rt.alloc(), b"\x82\x81\x00\x00\x00\x00\xff")?;
    assert!(rt; is_binary(&wire.message()));
    Ok(())
}

#[test]
fn a_close_is_answered_and_ends_it(rt: HostRuntime) -> Result<(), Fail> {
    let mut wire = wire_of(rt.alloc(), b"\x88\x82\x37\xfa\x21\x3d\x34\x12")?;
    assert!(rt; is_closed(&wire.message()));
    assert!(rt; same_bytes(wire.pipe().sink.bytes(), b"\x88\x02\x03\xe8"));
    assert!(rt; is_closed(&wire.message()));
    assert!(rt; wire.put(b"LOOP,0").is_err());
    assert!(rt; has_counts(&wire, 0, 0, 2, 1));
    assert!(rt; same_bytes(wire.into_pipe().sink.bytes(), b"\x88\x02\x03\xe8"));
    Ok(())
}

#[test]
fn lines_are_texts_of_their_own(rt: HostRuntime) -> Result<(), Fail> {
    let mut wire = wire_of(rt.alloc(), b"")?;
    assert!(rt; wire.put(b"Hello").is_ok());
    assert!(rt; wire.put(b"U,1,1,\xc3\xa4").is_ok());
    // Lines are held back until they are let go.
    assert!(rt; wire.pipe().sink.bytes().is_empty());
    assert!(rt; wire.let_go());
    assert!(rt;
        same_bytes(
            wire.pipe().sink.bytes(),
            b"\x81\x07Hello\r\n\x81\x0aU,1,1,\xc3\xa4\r\n",
        )
    );
    Ok(())
}

/// A text message of so many bytes, below 65,536, in one frame, whose key is 0.
fn long_text(alloc: Global, high: u8, low: u8) -> Result<Vec<u8>, AllocError> {
    let mut frame = Vec::from_slice(alloc, b"\x81\xfe")?;
    frame.extend_from_slice(&[high, low, 0, 0, 0, 0])?;
    for _ in 0..usize::from(high) * 256 + usize::from(low) {
        frame.extend_from_slice(b"x")?;
    }
    Ok(frame)
}

#[test]
fn a_text_of_50000_bytes_comes_and_one_more_is_long(rt: HostRuntime) -> Result<(), Fail> {
    let alloc = rt.alloc();
    let mut wire = wire_of(alloc, &long_text(alloc, 0xc3, 0x50)?)?;
    let given = long_text(alloc, 0xc3, 0x50)?;
    assert!(rt; is_text(&wire.message(), given.get(8..).unwrap_or(b"")));
    let mut longer = wire_of(alloc, &long_text(alloc, 0xc3, 0x51)?)?;
    assert!(rt; is_long(&longer.message()));
    assert!(rt; is_closed(&longer.message()));
    Ok(())
}

/// Reads a wire to its end: how often no message was there yet, or `None` where anything else came than one `Hello`.
fn waits_before_hello<T: Talk>(talk: &mut T) -> Option<u64> {
    for _ in 0..100 {
        let answer = talk.message();
        if is_text(&answer, b"Hello") {
            return Some(talk.idles());
        }
        if !is_not_yet(&answer) {
            return None;
        }
    }
    None
}

/// Whether the frame of `Hello` comes in two parts, cut at this place, with two idle calls between them.
fn comes_in_parts(alloc: Global, at: usize) -> Result<bool, AllocError> {
    let reads = [Call::Part(at), Call::Idle, Call::Idle, Call::Go];
    let mut wire = WsWire::over(alloc, pipe_of(alloc, HELLO, &reads, &[])?);
    Ok(waits_before_hello(&mut wire) == Some(2))
}

#[test]
fn a_frame_may_come_in_two_parts(rt: HostRuntime) -> Result<(), Fail> {
    for at in 1..HELLO.len() {
        assert!(rt; comes_in_parts(rt.alloc(), at)?);
    }
    Ok(())
}

/// Whether `Hello` comes where its frame was read past the handshake up to this place.
fn comes_after(alloc: Global, at: usize) -> Result<bool, AllocError> {
    let (front, bytes) = HELLO.split_at(at.min(HELLO.len()));
    let rest = Vec::from_slice(alloc, front)?;
    let mut wire = WsWire::over_after(alloc, pipe_of(alloc, bytes, &[], &[])?, rest);
    Ok(is_text(&wire.message(), b"Hello"))
}

#[test]
fn bytes_past_the_handshake_come_first(rt: HostRuntime) -> Result<(), Fail> {
    for at in 0..=HELLO.len() {
        assert!(rt; comes_after(rt.alloc(), at)?);
    }
    Ok(())
}
