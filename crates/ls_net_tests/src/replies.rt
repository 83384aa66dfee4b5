//! The heads of replies, as texts.
use ls_http::{append_answer_head, append_refusal, append_stream_head, append_upgrade};
use ls_value::{NoMemory, same_bytes};
use std::alloc::Global;
use std::test::Fail;

/// Whether a call wrote this text.
fn wrote(text: &[u8], done: Result<(), NoMemory>, wanted: &[u8]) -> bool {
    match done {
        Ok(()) => same_bytes(text, wanted),
        Err(_) => false,
    }
}

/// Whether a refusal is written so.
fn refuses(alloc: Global, status: u16, wanted: &[u8]) -> bool {
    let mut text = Vec::new(alloc);
    let done = append_refusal(&mut text, status);
    wrote(&text, done, wanted)
}

#[test]
fn refusals_are_written(rt: HostRuntime) -> Result<(), Fail> {
    let cases: [(u16, &[u8]); 5] = [
        (
            400,
            b"HTTP/1.1 400 Bad Request\r\nContent-Length: 0\r\nConnection: close\r\n\r\n",
        ),
        (
            404,
            b"HTTP/1.1 404 Not Found\r\nContent-Length: 0\r\nConnection: close\r\n\r\n",
        ),
        (
            405,
            b"HTTP/1.1 405 Method Not Allowed\r\nContent-Length: 0\r\nConnection: close\r\n\r\n",
        ),
        (
            413,
            b"HTTP/1.1 413 Content Too Large\r\nContent-Length: 0\r\nConnection: close\r\n\r\n",
        ),
        (
            503,
            b"HTTP/1.1 503 Service Unavailable\r\nContent-Length: 0\r\nConnection: close\r\n\r\n",
        ),
    ];
    for (status, wanted) in cases {
        assert!(rt; refuses(rt.alloc(), status, wanted));
    }
    Ok(())
}

/// Whether the head of an answer is written so.
fn answers(alloc: Global, length: u64, wanted: &[u8]) -> bool {
    let mut text = Vec::new(alloc);
    let done = append_answer_head(&mut text, length);
    wrote(&text, done, wanted)
}

/// Whether the head of a stream is written so.
fn streams(alloc: Global, wanted: &[u8]) -> bool {
    let mut text = Vec::new(alloc);
    let done = append_stream_head(&mut text);
    wrote(&text, done, wanted)
}

/// Whether the reply to a handshake is written so.
fn upgrades(alloc: Global, accept: &[u8], wanted: &[u8]) -> bool {
    let mut text = Vec::new(alloc);
    let done = append_upgrade(&mut text, accept);
    wrote(&text, done, wanted)
}

#[test]
fn heads_of_answers_are_written(rt: HostRuntime) {
    assert!(rt;
        answers(
            rt.alloc(),
            120,
            b"HTTP/1.1 200 OK\r\nContent-Type: text/plain; charset=utf-8\r\n\
        Cache-Control: no-store\r\nContent-Length: 120\r\nConnection: close\r\n\r\n"
        )
    );
    assert!(rt;
        streams(
            rt.alloc(),
            b"HTTP/1.1 200 OK\r\nContent-Type: text/plain; charset=utf-8\r\n\
        Cache-Control: no-store\r\nConnection: close\r\n\r\n"
        )
    );
    assert!(rt;
        upgrades(
            rt.alloc(),
            b"s3pPLMBiTxaQ9kYGzzhZRbK+xOo=",
            b"HTTP/1.1 101 Switching Protocols\r\n\
        Upgrade: websocket\r\nConnection: Upgrade\r\nSec-WebSocket-Accept: s3pPLMBiTxaQ9kYGzzhZRbK+xOo=\r\n\
        Sec-WebSocket-Protocol: TLCP-2.1.0.lightstreamer.com\r\n\r\n"
        )
    );
}
