//! Frames that a server doesn't take, and pipes that fail.
use crate::peers::{
    HELLO, has_counts, is_closed, is_control, is_failed, is_text, pipe_of, wire_of,
};
use ls_outside::Call;
use ls_talk::{LineOut, Talk};
use ls_value::same_bytes;
use ls_ws::WsWire;
use std::alloc::{AllocError, Global};
use std::test::Fail;

/// Whether these bytes close a wire, which stays closed, and nothing else is counted.
fn closes(alloc: Global, bytes: &[u8]) -> Result<bool, AllocError> {
    let mut wire = wire_of(alloc, bytes)?;
    let first = is_closed(&wire.message());
    let second = is_closed(&wire.message());
    Ok(first && second && has_counts(&wire, 0, 0, 2, 0))
}

#[test]
fn frames_against_the_protocol_close(rt: HostRuntime) -> Result<(), Fail> {
    // No mask.
    assert!(rt; closes(rt.alloc(), b"\x81\x05Hello")?);
    // A reserved bit.
    assert!(rt; closes(rt.alloc(), b"\xc1\x85\x37\xfa\x21\x3d\x7f\x9f\x4d\x51\x58")?);
    // A ping in fragments.
    assert!(rt; closes(rt.alloc(), b"\x09\x80\x00\x00\x00\x00")?);
    Ok(())
}

#[test]
fn what_is_no_message_closes(rt: HostRuntime) -> Result<(), Fail> {
    // An opcode that isn't used.
    assert!(rt; closes(rt.alloc(), b"\x83\x80\x00\x00\x00\x00")?);
    // A text that is not UTF-8.
    assert!(rt; closes(rt.alloc(), b"\x81\x81\x00\x00\x00\x00\xff")?);
    // A frame beyond the socket's limits.
    assert!(rt;
        closes(
            rt.alloc(),
            b"\x81\xff\x00\x00\x00\x00\x7f\xff\xff\xff\x00\x00\x00\x00",
        )?
    );
    Ok(())
}

#[test]
fn an_end_within_a_frame_closes(rt: HostRuntime) -> Result<(), Fail> {
    for len in 0..HELLO.len() {
        assert!(rt; closes(rt.alloc(), &HELLO[..len])?);
    }
    Ok(())
}

#[test]
fn a_read_that_fails_is_counted(rt: HostRuntime) -> Result<(), Fail> {
    let alloc = rt.alloc();
    let reads = [Call::Part(3), Call::Fail];
    let mut wire = WsWire::over(alloc, pipe_of(alloc, HELLO, &reads, &[])?);
    assert!(rt; is_failed(&wire.message()));
    assert!(rt; has_counts(&wire, 1, 0, 0, 0));
    // What came before the fault is kept.
    assert!(rt; is_text(&wire.message(), b"Hello"));
    Ok(())
}

#[test]
fn a_put_that_fails_is_counted(rt: HostRuntime) -> Result<(), Fail> {
    let alloc = rt.alloc();
    let writes = [Call::Part(4), Call::Fail];
    let mut wire = WsWire::over(alloc, pipe_of(alloc, b"", &[], &writes)?);
    assert!(rt; wire.put(b"Hello").is_ok());
    assert!(rt; has_counts(&wire, 0, 0, 0, 0));
    assert!(rt; !wire.let_go());
    assert!(rt; has_counts(&wire, 0, 0, 0, 1));
    assert!(rt; same_bytes(wire.pipe().sink.bytes(), b"\x81\x07He"));
    Ok(())
}

#[test]
fn an_answer_to_a_ping_that_fails_is_counted(rt: HostRuntime) -> Result<(), Fail> {
    let alloc = rt.alloc();
    let ping = b"\x89\x80\x00\x00\x00\x00";
    let mut wire = WsWire::over(alloc, pipe_of(alloc, ping, &[], &[Call::Fail])?);
    assert!(rt; is_control(&wire.message()));
    assert!(rt; is_failed(&wire.message()));
    assert!(rt; has_counts(&wire, 0, 0, 0, 1));
    Ok(())
}
