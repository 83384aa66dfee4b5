//! Connections that end before their request is answered whole.
use crate::serving::{Told, long_clock, pipe_of, served};
use ls_conn_http::{ConnEnd, MOST_IDLES};
use ls_outside::{Call, MemClock};
use std::alloc::{AllocError, Global};
use std::sync::Wait;
use std::test::Fail;

/// A request that is answered with code 60.
const OLD: &[u8] =
    b"POST /lightstreamer/create_session.txt?LS_protocol=TLCP-2.4.0 HTTP/1.1\r\nContent-Length: 0\r\n\r\n";

/// Its answer.
const ANSWER: &[u8] = b"HTTP/1.1 200 OK\r\nContent-Type: text/plain; charset=utf-8\r\n\
Cache-Control: no-store\r\nContent-Length: 42\r\nConnection: close\r\n\r\n\
CONERR,60,Protocol version not supported\r\n";

/// So many calls of a kind, and then one of another.
pub(crate) fn calls(
    alloc: Global,
    times: u64,
    kind: Call,
    then: Call,
) -> Result<Vec<Call>, AllocError> {
    let mut calls = Vec::new(alloc);
    for _ in 0..times {
        calls.push(kind)?;
    }
    calls.push(then)?;
    Ok(calls)
}

/// What comes of that request where reads and writes go so.
fn old_by<R: Wait>(
    rt: &R,
    alloc: Global,
    reads: Vec<Call>,
    writes: Vec<Call>,
) -> Result<Option<Told>, AllocError> {
    let pipe = pipe_of(alloc, OLD, Vec::new(alloc), reads, writes)?;
    Ok(served(rt, alloc, &[], pipe, MemClock::new(alloc, Vec::new(alloc))))
}

/// Whether a connection ended so, and so many bytes of that answer were written.
fn is_cut(told: Option<Told>, end: ConnEnd, len: usize) -> bool {
    let Some(told) = told else {
        return false;
    };
    let written = told.pipe.sink.bytes();
    told.end == end && written.len() == len && ANSWER.starts_with(written)
}

#[test]
fn a_read_fails_or_finds_no_byte(rt: HostRuntime) -> Result<(), Fail> {
    let alloc = rt.alloc();
    let none = || Vec::new(alloc);
    let reads = calls(alloc, 3, Call::Part(20), Call::Fail)?;
    assert!(rt; is_cut(old_by(&rt, alloc, reads, none())?, ConnEnd::ReadFault, 0));
    let reads = calls(alloc, MOST_IDLES - 1, Call::Idle, Call::Go)?;
    assert!(rt;
        is_cut(
            old_by(&rt, alloc, reads, none())?,
            ConnEnd::Served,
            ANSWER.len()
        )
    );
    let reads = calls(alloc, MOST_IDLES, Call::Idle, Call::Go)?;
    assert!(rt; is_cut(old_by(&rt, alloc, reads, none())?, ConnEnd::TooSlow, 0));
    Ok(())
}

/// The first count of bytes after which a write fails, and the connection ends otherwise than so; the length of the
/// answer, where there is none.
fn first_other<R: Wait>(rt: &R, alloc: Global) -> Result<usize, AllocError> {
    for len in 0..ANSWER.len() {
        let writes = calls(alloc, len as u64, Call::Part(1), Call::Fail)?;
        let told = old_by(rt, alloc, Vec::new(alloc), writes)?;
        if !is_cut(told, ConnEnd::WriteFault, len) {
            return Ok(len);
        }
    }
    Ok(ANSWER.len())
}

#[test]
fn a_write_fails_after_each_byte(rt: HostRuntime) -> Result<(), Fail> {
    let alloc = rt.alloc();
    assert_eq!(rt; first_other(&rt, alloc)?, ANSWER.len());
    let told = old_by(&rt, alloc, Vec::new(alloc), Vec::new(alloc))?;
    assert!(rt; is_cut(told, ConnEnd::Served, ANSWER.len()));
    Ok(())
}

#[test]
fn a_clock_stops_a_request_that_is_not_whole(rt: HostRuntime) -> Result<(), Fail> {
    let alloc = rt.alloc();
    let idle = calls(alloc, 1000, Call::Idle, Call::Go)?;
    let pipe = pipe_of(alloc, OLD, Vec::new(alloc), idle, Vec::new(alloc))?;
    let told = served(&rt, alloc, &[], pipe, long_clock(alloc)?);
    assert!(rt; is_cut(told, ConnEnd::Stopped, 0));
    Ok(())
}
