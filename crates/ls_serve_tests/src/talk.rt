//! What visitors say, and what they are told.
use ls_door::Duct;
use ls_outside::{Put, write_all};
use std::alloc::{AllocError, Global};
use std::sync::Wait;

/// How many bytes wait in a duct at most, each way.
const LIMIT: usize = 65_536;

/// A request for a session.
pub(crate) const CREATE: &[u8] =
    b"POST /lightstreamer/create_session.txt?LS_protocol=TLCP-2.1.0 HTTP/1.1\r\n\
      Content-Length: 0\r\n\r\n";

/// A request that is refused with 405.
pub(crate) const GET: &[u8] = b"GET /lightstreamer/control.txt HTTP/1.1\r\n\r\n";

/// What is said to a GET.
pub(crate) const NOT_ALLOWED: &[u8] =
    b"HTTP/1.1 405 Method Not Allowed\r\nContent-Length: 0\r\nConnection: close\r\n\r\n";

/// What a first stream begins with.
pub(crate) const OPENED: &[u8] = b"HTTP/1.1 200 OK\r\nContent-Type: text/plain; charset=utf-8\r\n\
      Cache-Control: no-store\r\nConnection: close\r\n\r\n\
      CONOK,S1,50000,5000,*\r\nSERVNAME,tlcpd\r\nCONS,unlimited\r\n";

/// The same of the second session.
pub(crate) const OPENED_SECOND: &[u8] =
    b"HTTP/1.1 200 OK\r\nContent-Type: text/plain; charset=utf-8\r\n\
      Cache-Control: no-store\r\nConnection: close\r\n\r\n\
      CONOK,S2,50000,5000,*\r\nSERVNAME,tlcpd\r\nCONS,unlimited\r\n";

/// The answer to a request for a subscription.
pub(crate) const ADDED: &[u8] = b"HTTP/1.1 200 OK\r\nContent-Type: text/plain; charset=utf-8\r\n\
      Cache-Control: no-store\r\nContent-Length: 9\r\nConnection: close\r\n\r\nREQOK,1\r\n";

/// A request with this name and body.
pub(crate) fn post(alloc: Global, name: &str, body: &str) -> Result<String, AllocError> {
    let length = body.len();
    format!(in alloc;
        "POST /lightstreamer/{name}.txt?LS_protocol=TLCP-2.1.0 HTTP/1.1\r\nContent-Length: {length}\r\n\r\n{body}"
    )
}

/// The two ends of a duct over which a visitor has said this, if all of it could be said.
pub(crate) fn knock<R: Wait + Copy + Drop>(
    rt: R,
    alloc: Global,
    bytes: &[u8],
) -> Option<(Duct<R>, Duct<R>)> {
    let (mut near, far) = Duct::pair(rt, alloc, LIMIT).ok()?;
    match write_all(&mut near, bytes) {
        Put::Taken(_) => Some((near, far)),
        Put::Failed => None,
    }
}
