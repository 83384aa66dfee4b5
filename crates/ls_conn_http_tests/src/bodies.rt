//! How a body ends: CR LF or LF at its end is taken off, once, and a CR alone stays.
use crate::serving::served_bytes;
use crate::streams::{CREATE, OPENED};
use ls_conn_http::ConnEnd;
use std::alloc::{AllocError, Global};
use std::sync::Wait;
use std::test::Fail;

/// The head of a request that binds, to its last field.
const BIND: &[u8] =
    b"POST /lightstreamer/bind_session.txt?LS_protocol=TLCP-2.1.0 HTTP/1.1\r\nContent-Length: ";

/// The head of a control request, to its last field.
const CONTROL: &[u8] =
    b"POST /lightstreamer/control.txt?LS_protocol=TLCP-2.1.0 HTTP/1.1\r\nContent-Length: ";

/// The parameters of a control request, the session's name last.
const DESTROY: &[u8] = b"LS_reqId=1&LS_op=destroy&LS_session=S1";

/// The same after another request.
const TWO: &[u8] =
    b"LS_reqId=2&LS_op=force_rebind&LS_session=S2\r\nLS_reqId=1&LS_op=destroy&LS_session=S1";

/// A request whose body ends so.
fn request(alloc: Global, head: &[u8], body: &[u8], end: &[u8]) -> Result<Vec<u8>, AllocError> {
    let mut bytes = Vec::from_slice(alloc, head)?;
    let length = body.len().saturating_add(end.len());
    bytes.extend_from_slice(format!(in alloc; "{length}\r\n\r\n")?.as_bytes())?;
    bytes.extend_from_slice(body)?;
    bytes.extend_from_slice(end)?;
    Ok(bytes)
}

/// Whether a request with such a body, on a server with the session S1, ends so, and what is written begins and ends so.
fn is_told<R: Wait>(
    rt: &R,
    alloc: Global,
    asked: &[u8],
    end: ConnEnd,
    first: &[u8],
    last: &[u8],
) -> bool {
    match served_bytes(rt, alloc, &[CREATE], asked) {
        Some(told) => {
            let written = told.pipe.sink.bytes();
            told.end == end && written.starts_with(first) && written.ends_with(last)
        }
        None => false,
    }
}

/// Whether a bind with a body that ends so finds the session; else it is refused.
fn binds<R: Wait>(rt: &R, alloc: Global, end: &[u8], finds: bool) -> bool {
    let Ok(asked) = request(alloc, BIND, b"LS_session=S1", end) else {
        return false;
    };
    if finds {
        is_told(rt, alloc, &asked, ConnEnd::Stopped, OPENED, b"")
    } else {
        is_told(
            rt,
            alloc,
            &asked,
            ConnEnd::Served,
            b"",
            b"\r\n\r\nCONERR,20,Unknown session\r\n",
        )
    }
}

/// Whether a control with a body that ends so finds the session; else it is refused.
fn destroys<R: Wait>(rt: &R, alloc: Global, body: &[u8], end: &[u8], finds: bool) -> bool {
    let Ok(asked) = request(alloc, CONTROL, body, end) else {
        return false;
    };
    if finds {
        is_told(rt, alloc, &asked, ConnEnd::Served, b"", b"\r\nREQOK,1\r\n")
    } else {
        is_told(
            rt,
            alloc,
            &asked,
            ConnEnd::Served,
            b"",
            b"\r\nREQERR,1,20,Unknown session\r\n",
        )
    }
}

#[test]
fn a_body_of_one_text_loses_one_line_end(rt: HostRuntime) -> Result<(), Fail> {
    let alloc = rt.alloc();
    assert!(rt; binds(&rt, alloc, b"", true));
    assert!(rt; binds(&rt, alloc, b"\r", false));
    assert!(rt; binds(&rt, alloc, b"\n", true));
    assert!(rt; binds(&rt, alloc, b"\r\n", true));
    assert!(rt; binds(&rt, alloc, b"\r\r\n", false));
    Ok(())
}

#[test]
fn a_line_of_a_body_loses_its_line_end(rt: HostRuntime) -> Result<(), Fail> {
    let alloc = rt.alloc();
    assert!(rt; destroys(&rt, alloc, DESTROY, b"\r", false));
    assert!(rt; destroys(&rt, alloc, DESTROY, b"\n", true));
    assert!(rt; destroys(&rt, alloc, TWO, b"\r\n", true));
    assert!(rt; destroys(&rt, alloc, TWO, b"\r\r\n", false));
    Ok(())
}
