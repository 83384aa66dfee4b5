//! The first request of a connection: a handshake is answered and goes no further, and all else is as `serve_one` has it.
use crate::cuts::{HANDSHAKE, SWITCHED, WHOLE};
use crate::ends::calls;
use crate::serving::{Came, begun, long_clock, pipe_of, served_bytes};
use crate::streams::CREATE;
use ls_conn_http::ConnEnd;
use ls_outside::{Call, Got, MemPipe, Source};
use ls_value::same_bytes;
use std::alloc::{AllocError, Global};
use std::sync::Wait;
use std::test::Fail;

/// The bytes that come past a handshake.
const PAST: &[u8] = b"\x81\x85past";

/// A head that is refused.
const UNKNOWN: &[u8] = b"GET /x HTTP/1.1\r\n\r\n";

/// What comes of the first request of a connection to which these bytes come, and its pipe; `None` for want of memory.
fn begun_by<R: Wait>(
    rt: &R,
    alloc: Global,
    bytes: &[u8],
    cuts: Vec<usize>,
    writes: Vec<Call>,
) -> Option<(Came, MemPipe)> {
    let pipe = pipe_of(alloc, bytes, cuts, Vec::new(alloc), writes).ok()?;
    begun(rt, alloc, pipe, long_clock(alloc).ok()?)
}

/// A handshake, and bytes past it.
fn with_past(alloc: Global) -> Result<Vec<u8>, AllocError> {
    let mut bytes = Vec::from_slice(alloc, HANDSHAKE)?;
    bytes.extend_from_slice(PAST)?;
    Ok(bytes)
}

/// Whether the connection is a WebSocket now, its handshake was answered, and these bytes were read past it; and then
/// these come.
fn is_socket(told: Option<(Came, MemPipe)>, past: &[u8], then: &[u8]) -> bool {
    let Some((came, mut pipe)) = told else {
        return false;
    };
    let Came::Socket(rest) = came else {
        return false;
    };
    let mut piece = [0u8; 16];
    let next: &[u8] = match pipe.read(&mut piece) {
        Got::Bytes(count) => &piece[..count],
        _ => b"",
    };
    same_bytes(pipe.sink.bytes(), SWITCHED) && same_bytes(&rest, past) && same_bytes(next, then)
}

#[test]
fn a_handshake_is_answered(rt: HostRuntime) -> Result<(), Fail> {
    let alloc = rt.alloc();
    let none = || Vec::new(alloc);
    let told = begun_by(&rt, alloc, HANDSHAKE, none(), Vec::new(alloc));
    assert!(rt; is_socket(told, b"", b""));
    let whole = with_past(alloc)?;
    let told = begun_by(&rt, alloc, &whole, none(), Vec::new(alloc));
    assert!(rt; is_socket(told, PAST, b""));
    let mut cuts = Vec::new(alloc);
    cuts.push(HANDSHAKE.len())?;
    let told = begun_by(&rt, alloc, &whole, cuts, Vec::new(alloc));
    assert!(rt; is_socket(told, b"", PAST));
    Ok(())
}

/// Whether a connection ended so, and these bytes were written.
fn is_ended(told: Option<(Came, MemPipe)>, end: ConnEnd, bytes: &[u8]) -> bool {
    let Some((came, pipe)) = told else {
        return false;
    };
    match came {
        Came::Ended(was) => was == end && same_bytes(pipe.sink.bytes(), bytes),
        Came::Socket(_) => false,
    }
}

/// Whether a connection to which these bytes come ends so, and is answered as by `serve_one`.
fn is_as_one<R: Wait>(rt: &R, alloc: Global, bytes: &[u8], end: ConnEnd) -> bool {
    let told = begun_by(rt, alloc, bytes, Vec::new(alloc), Vec::new(alloc));
    match served_bytes(rt, alloc, &[], bytes) {
        Some(one) => one.end == end && is_ended(told, end, one.pipe.sink.bytes()),
        None => false,
    }
}

#[test]
fn all_but_a_handshake_ends(rt: HostRuntime) -> Result<(), Fail> {
    let alloc = rt.alloc();
    assert!(rt; is_as_one(&rt, alloc, WHOLE, ConnEnd::Served));
    assert!(rt; is_as_one(&rt, alloc, CREATE, ConnEnd::Stopped));
    assert!(rt; is_as_one(&rt, alloc, UNKNOWN, ConnEnd::Refused { status: 404 }));
    assert!(rt; is_as_one(&rt, alloc, &HANDSHAKE[..100], ConnEnd::PeerLeft));
    Ok(())
}

/// The first count of bytes after which a write of the reply to a handshake fails, and the connection ends otherwise
/// than so; the length of the reply, where there is none.
fn first_other<R: Wait>(rt: &R, alloc: Global) -> Result<usize, AllocError> {
    for len in 0..SWITCHED.len() {
        let writes = calls(alloc, len as u64, Call::Part(1), Call::Fail)?;
        let told = begun_by(rt, alloc, HANDSHAKE, Vec::new(alloc), writes);
        if !is_ended(told, ConnEnd::WriteFault, &SWITCHED[..len]) {
            return Ok(len);
        }
    }
    Ok(SWITCHED.len())
}

#[test]
fn a_handshake_is_no_socket_where_its_reply_fails(rt: HostRuntime) -> Result<(), Fail> {
    assert_eq!(rt; first_other(&rt, rt.alloc())?, SWITCHED.len());
    Ok(())
}
