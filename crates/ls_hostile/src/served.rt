//! What is done with bytes that come over a pipe in memory, and what came of it.
ghost use Rattle.std.specs.Prelude.{◌≡◌, true};
ghost use Rattle.ls_config.specs.Items.{are_items};

use crate::failed::Failed;
use ls_config::{Config, read};
use ls_conn_http::{ConnEnd, serve_one};
use ls_feed::{FeedEnd, serve_feed};
use ls_outside::{Call, MemClock, MemPipe, MemSink, MemSource, OpenGate};
use ls_register::{Blank, House};
use ls_run::{Status, run};
use ls_shared::Shared;
use std::alloc::{AllocError, Global};
use std::marker::Brand;
use std::sync::Wait;

/// What serves a pipe.
#[derive(Clone, Copy, Debug, PartialEq, Eq)]
pub(crate) enum Work {
    /// A run of a script.
    Script,

    /// A client's connection.
    Client,

    /// A client's connection whose first bytes are a handshake that is always the same.
    Socket,

    /// A feed's connection.
    Feed,
}

/// How it ended.
#[derive(Clone, Copy, Debug, PartialEq, Eq)]
pub(crate) enum End {
    Script(Status),
    Client(ConnEnd),
    Feed(FeedEnd),
}

/// How it ended, and what was written.
#[derive(Drop)]
pub(crate) struct Outcome {
    pub(crate) end: End,
    pub(crate) written: Vec<u8>,
}

/// The items of a server.
pub(crate) const ITEMS: &[u8] = b"q MERGE x\n";

/// The tick at which each connection ends.
pub(crate) const NEVER: u64 = 1_000_000;

/// How often a clock tells 0 before that tick: more often than a connection looks for bytes.
const ZEROS: usize = 4000;

/// A handshake (RFC 6455, section 4.2.1).
pub(crate) const HANDSHAKE: &[u8] = b"GET /lightstreamer HTTP/1.1\r\nHost: localhost:8080\r\n\
Connection: Upgrade\r\nUpgrade: websocket\r\nSec-WebSocket-Version: 13\r\n\
Sec-WebSocket-Key: dGhlIHNhbXBsZSBub25jZQ==\r\n\
Sec-WebSocket-Protocol: TLCP-2.1.0.lightstreamer.com\r\n\r\n";

/// How it is answered.
const SWITCHED: &[u8] =
    b"HTTP/1.1 101 Switching Protocols\r\nUpgrade: websocket\r\nConnection: Upgrade\r\n\
Sec-WebSocket-Accept: s3pPLMBiTxaQ9kYGzzhZRbK+xOo=\r\n\
Sec-WebSocket-Protocol: TLCP-2.1.0.lightstreamer.com\r\n\r\n";

/// A clock that tells 0 for long, and at last the tick at which each connection ends.
pub(crate) fn long_clock(alloc: Global) -> Result<MemClock, AllocError> {
    let mut ticks = Vec::with_capacity(alloc, ZEROS)?;
    ticks.resize(ZEROS, 0)?;
    ticks.push(NEVER)?;
    Ok(MemClock::new(alloc, ticks))
}

/// Serves a pipe, for a client or for a feed.
fn serve<N: House, R: Wait>(
    rt: &R,
    alloc: Global,
    blank: Blank,
    config: Config,
    is_feed: bool,
    pipe: &mut MemPipe,
    clock: &mut MemClock,
) -> Option<End>
    requires register { blank.register ≡ N.deed.register }
    requires set { config.set ≡ N.deed.set }
    requires config { config.items ≡ N.deed.config }
    requires items { are_items config.items ≡ true }
{
    let shared = Shared::<N>::new(alloc, blank, config).ok()?;
    if is_feed {
        let report = serve_feed(rt, alloc, pipe, &shared, clock, &OpenGate, NEVER);
        return Some(End::Feed(report.end));
    }
    let report = serve_one(rt, alloc, pipe, &shared, clock, &OpenGate, NEVER);
    Some(End::Client(report.end))
}

/// Serves a pipe on a new server, for a client or for a feed.
fn serve_new<R: Wait>(rt: &R, alloc: Global, is_feed: bool, pipe: &mut MemPipe) -> Option<End> {
    let config = read(alloc, ITEMS).ok()?;
    let blank = Blank::new(alloc).ok()?;
    let mut clock = long_clock(alloc).ok()?;
    serve::<Brand, R>(rt, alloc, blank, config, is_feed, pipe, &mut clock)
}

/// The words that ask for the run of a script.
pub(crate) fn words_of(alloc: Global) -> Result<Vec<String>, AllocError> {
    let mut words = Vec::new(alloc);
    words.push(String::from_str(alloc, "replay")?)?;
    Ok(words)
}

/// Runs a script.
fn play<R: Wait>(rt: &R, alloc: Global, pipe: &mut MemPipe) -> Result<End, AllocError> {
    let words = words_of(alloc)?;
    let status = run(rt, alloc, &words, &mut pipe.source, &mut pipe.sink);
    Ok(End::Script(status))
}

/// A pipe to which these bytes come, and whose reads and writes go so.
fn pipe_of(
    alloc: Global,
    bytes: &[u8],
    reads: Vec<Call>,
    writes: Vec<Call>,
) -> Result<MemPipe, AllocError> {
    let bytes = Vec::from_slice(alloc, bytes)?;
    Ok(MemPipe {
        source: MemSource::new(bytes, Vec::new(alloc), reads),
        sink: MemSink::new(alloc, writes),
    })
}

/// The same after a handshake, which comes by a read of its own.
fn pipe_after_handshake(
    alloc: Global,
    bytes: &[u8],
    reads: &[Call],
    writes: Vec<Call>,
) -> Result<MemPipe, AllocError> {
    let mut all = Vec::from_slice(alloc, HANDSHAKE)?;
    all.extend_from_slice(bytes)?;
    let mut calls = Vec::new(alloc);
    calls.push(Call::Part(HANDSHAKE.len()))?;
    calls.extend_from_slice(reads)?;
    pipe_of(alloc, &all, calls, writes)
}

/// What a sink holds, without the answer to a handshake.
fn after_handshake(work: Work, written: &[u8]) -> &[u8] {
    if work != Work::Socket {
        return written;
    }
    written.strip_prefix(SWITCHED).unwrap_or(written)
}

/// What comes of bytes that come over a pipe whose reads and writes go so.
pub(crate) fn serve_bytes<R: Wait>(
    rt: &R,
    alloc: Global,
    work: Work,
    bytes: &[u8],
    reads: Vec<Call>,
    writes: Vec<Call>,
) -> Result<Outcome, Failed> {
    let mut pipe = match work {
        Work::Socket => pipe_after_handshake(alloc, bytes, &reads, writes)?,
        Work::Script | Work::Client | Work::Feed => pipe_of(alloc, bytes, reads, writes)?,
    };
    let end = match work {
        Work::Script => Some(play(rt, alloc, &mut pipe)?),
        Work::Client | Work::Socket => serve_new(rt, alloc, false, &mut pipe),
        Work::Feed => serve_new(rt, alloc, true, &mut pipe),
    };
    let Some(end) = end else {
        return Err(Failed::NoMemory);
    };
    let written = Vec::from_slice(alloc, after_handshake(work, pipe.sink.bytes()))?;
    Ok(Outcome { end, written })
}
