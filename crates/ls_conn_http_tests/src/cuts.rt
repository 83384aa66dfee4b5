//! A request and a handshake that end at each byte, and that come byte by byte.
use crate::serving::{Told, pipe_of, served, served_bytes};
use ls_conn_http::ConnEnd;
use ls_outside::MemClock;
use ls_value::same_bytes;
use std::alloc::{AllocError, Global};
use std::sync::Wait;
use std::test::Fail;

/// Two control requests.
pub(crate) const WHOLE: &[u8] =
    b"POST /lightstreamer/control.txt?LS_protocol=TLCP-2.1.0 HTTP/1.1\r\n\
Content-Length: 76\r\n\r\n\
LS_reqId=1&LS_op=destroy&LS_session=S1\r\nLS_reqId=2&LS_op=add&LS_session=S1\r\n";

/// The length of their head.
const HEAD: usize = 87;

/// How they are answered.
const ANSWER: &[u8] = b"HTTP/1.1 200 OK\r\nContent-Type: text/plain; charset=utf-8\r\n\
Cache-Control: no-store\r\nContent-Length: 60\r\nConnection: close\r\n\r\n\
REQERR,1,20,Unknown session\r\nREQERR,2,65,Malformed request\r\n";

/// A browser's handshake.
pub(crate) const HANDSHAKE: &[u8] = b"GET /lightstreamer HTTP/1.1\r\nHost: localhost:8080\r\n\
Origin: http://localhost:8080\r\nConnection: keep-alive, Upgrade\r\nUpgrade: websocket\r\n\
Sec-WebSocket-Version: 13\r\nSec-WebSocket-Key: dGhlIHNhbXBsZSBub25jZQ==\r\n\
Sec-WebSocket-Extensions: permessage-deflate\r\n\
Sec-WebSocket-Protocol: TLCP-2.1.0.lightstreamer.com\r\n\r\n";

/// How it is answered: the accept value is that of RFC 6455's example.
pub(crate) const SWITCHED: &[u8] =
    b"HTTP/1.1 101 Switching Protocols\r\nUpgrade: websocket\r\nConnection: Upgrade\r\n\
Sec-WebSocket-Accept: s3pPLMBiTxaQ9kYGzzhZRbK+xOo=\r\n\
Sec-WebSocket-Protocol: TLCP-2.1.0.lightstreamer.com\r\n\r\n";

/// Whether these bytes were written, and the connection ended so.
fn is_so(told: Option<Told>, end: ConnEnd, bytes: &[u8]) -> bool {
    match told {
        Some(told) => told.end == end && same_bytes(told.pipe.sink.bytes(), bytes),
        None => false,
    }
}

/// The first length to which these bytes are cut, and something else is answered than nothing; their whole length, where
/// there is none.
fn first_answered<R: Wait>(rt: &R, alloc: Global, whole: &[u8]) -> usize {
    for len in 0..whole.len() {
        let told = served_bytes(rt, alloc, &[], &whole[..len]);
        if !is_so(told, ConnEnd::PeerLeft, b"") {
            return len;
        }
    }
    whole.len()
}

#[test]
fn a_request_that_is_cut_is_not_answered(rt: HostRuntime) -> Result<(), Fail> {
    assert_eq!(rt; first_answered(&rt, rt.alloc(), WHOLE), WHOLE.len());
    let told = served_bytes(&rt, rt.alloc(), &[], WHOLE);
    assert!(rt; is_so(told, ConnEnd::Served, ANSWER));
    Ok(())
}

#[test]
fn a_handshake_that_is_cut_is_not_answered(rt: HostRuntime) -> Result<(), Fail> {
    assert_eq!(rt; first_answered(&rt, rt.alloc(), HANDSHAKE), HANDSHAKE.len());
    let told = served_bytes(&rt, rt.alloc(), &[], HANDSHAKE);
    assert!(rt; is_so(told, ConnEnd::PeerLeft, SWITCHED));
    Ok(())
}

/// Places from one on, each one further than the one before.
fn each_from(alloc: Global, start: usize, end: usize) -> Result<Vec<usize>, AllocError> {
    let mut cuts = Vec::new(alloc);
    for place in start..end {
        cuts.push(place)?;
    }
    Ok(cuts)
}

/// Whether these bytes are answered so, and the connection ends so, where no read passes a place from this one on.
fn is_answered<R: Wait>(
    rt: &R,
    alloc: Global,
    whole: &[u8],
    start: usize,
    end: ConnEnd,
    answer: &[u8],
) -> Result<bool, AllocError> {
    let cuts = each_from(alloc, start, whole.len())?;
    let pipe = pipe_of(alloc, whole, cuts, Vec::new(alloc), Vec::new(alloc))?;
    let mut ticks = Vec::new(alloc);
    ticks.push(0)?;
    let told = served(rt, alloc, &[], pipe, MemClock::new(alloc, ticks));
    Ok(is_so(told, end, answer))
}

#[test]
fn a_request_comes_byte_by_byte(rt: HostRuntime) -> Result<(), Fail> {
    let alloc = rt.alloc();
    assert!(rt; is_answered(&rt, alloc, WHOLE, 1, ConnEnd::Served, ANSWER)?);
    assert!(rt; is_answered(&rt, alloc, WHOLE, HEAD, ConnEnd::Served, ANSWER)?);
    assert!(rt; is_answered(&rt, alloc, HANDSHAKE, 1, ConnEnd::PeerLeft, SWITCHED)?);
    Ok(())
}
