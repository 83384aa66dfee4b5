//! A session from its first stream to LOOP.
use crate::serving::{Told, served_bytes};
use ls_conn_http::ConnEnd;
use std::alloc::{AllocError, Global};
use std::test::Fail;

/// A request for a session.
pub(crate) const CREATE: &[u8] =
    b"POST /lightstreamer/create_session.txt?LS_protocol=TLCP-2.1.0 HTTP/1.1\r\nContent-Length: 2\r\n\r\n\r\n";

/// A request for a subscription.
const ADD: &[u8] = b"POST /lightstreamer/control.txt?LS_protocol=TLCP-2.1.0 HTTP/1.1\r\n\
Content-Length: 80\r\n\r\n\
LS_reqId=1&LS_session=S1&LS_op=add&LS_subId=1&LS_mode=RAW&LS_group=q&LS_schema=x";

/// A request for a stream of few bytes.
const BIND: &[u8] =
    b"POST /lightstreamer/bind_session.txt?LS_protocol=TLCP-2.1.0 HTTP/1.1\r\nContent-Length: 38\r\n\r\n\
LS_session=S1&LS_content_length=1000\r\n";

/// How a stream begins.
pub(crate) const OPENED: &[u8] = b"HTTP/1.1 200 OK\r\nContent-Type: text/plain; charset=utf-8\r\n\
Cache-Control: no-store\r\nConnection: close\r\n\r\n\
CONOK,S1,50000,5000,*\r\nSERVNAME,tlcpd\r\nCONS,unlimited\r\n";

/// The lines of the subscription.
const ADDED: &[u8] = b"SUBOK,1,1,1\r\nCONF,1,unlimited,unfiltered\r\n";

/// The last line of a stream that is left by its length.
const LOOP: &[u8] = b"LOOP,0\r\n";

/// Adds a byte so often.
fn push_times(bytes: &mut Vec<u8>, byte: u8, times: usize) -> Result<(), AllocError> {
    for _ in 0..times {
        bytes.push(byte)?;
    }
    Ok(())
}

/// A feed of two long values, the second one past the length of a stream.
fn long_feed(alloc: Global) -> Result<Vec<u8>, AllocError> {
    let mut bytes = Vec::from_slice(alloc, b"feed 1\nq 1 x=")?;
    push_times(&mut bytes, b'a', 600)?;
    bytes.extend_from_slice(b"\nq 2 x=")?;
    push_times(&mut bytes, b'b', 600)?;
    bytes.extend_from_slice(b"\n")?;
    Ok(bytes)
}

/// Whether a stream ended so, after what every stream begins with, these lines, and this last line.
fn is_stream(told: Option<Told>, end: ConnEnd, lines: &[u8], last: &[u8]) -> bool {
    let Some(told) = told else {
        return false;
    };
    let written = told.pipe.sink.bytes();
    let Some(rest) = written.strip_prefix(OPENED) else {
        return false;
    };
    told.end == end && rest.starts_with(lines) && rest.ends_with(last)
}

#[test]
fn a_session_from_its_first_stream(rt: HostRuntime) -> Result<(), Fail> {
    let alloc = rt.alloc();
    let told = served_bytes(&rt, alloc, &[], CREATE);
    assert!(rt; is_stream(told, ConnEnd::Stopped, b"", b""));
    let feed = long_feed(alloc)?;
    let told = served_bytes(&rt, alloc, &[CREATE, ADD, &feed], BIND);
    assert!(rt; is_stream(told, ConnEnd::Served, ADDED, LOOP));
    Ok(())
}

/// Whether a request was served, and its answer ends so.
fn is_answer(told: Option<Told>, last: &[u8]) -> bool {
    match told {
        Some(told) => told.end == ConnEnd::Served && told.pipe.sink.bytes().ends_with(last),
        None => false,
    }
}

#[test]
fn a_session_that_is_gone_is_refused(rt: HostRuntime) -> Result<(), Fail> {
    let told = served_bytes(&rt, rt.alloc(), &[], BIND);
    assert!(rt; is_answer(told, b"\r\n\r\nCONERR,20,Unknown session\r\n"));
    Ok(())
}
