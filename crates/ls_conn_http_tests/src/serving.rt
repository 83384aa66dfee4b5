//! A server in memory, and pipes to it.
ghost use Rattle.std.specs.Prelude.{◌≡◌, true};
ghost use Rattle.ls_config.specs.Items.{are_items};

use ls_config::{Config, read as read_config};
use ls_conn_http::{ConnEnd, First, Shared, serve_first, serve_one};
use ls_feed::serve_feed;
use ls_outside::{Call, MemClock, MemPipe, MemSink, MemSource, OpenGate};
use ls_register::{Blank, House};
use std::alloc::{AllocError, Global};
use std::marker::Brand;
use std::sync::Wait;

/// The tick at which each connection ends.
const NEVER: u64 = 1_000_000;

/// How many ticks are 0 before that one.
const TICKS: usize = 100;

/// The items of the server.
const ITEMS: &[u8] = b"q MERGE x\n";

/// What came of a connection: why it ended, and its pipe.
#[derive(Drop)]
pub(crate) struct Told {
    pub(crate) end: ConnEnd,
    pub(crate) pipe: MemPipe,
}

/// What came of a connection's first request: why it ended, or the bytes past its handshake.
#[derive(Drop)]
pub(crate) enum Came {
    Ended(ConnEnd),
    Socket(Vec<u8>),
}

/// A pipe to which these bytes come; no read passes one of the cuts, and reads and writes go by these calls.
pub(crate) fn pipe_of(
    alloc: Global,
    bytes: &[u8],
    cuts: Vec<usize>,
    reads: Vec<Call>,
    writes: Vec<Call>,
) -> Result<MemPipe, AllocError> {
    Ok(MemPipe {
        source: MemSource::new(Vec::from_slice(alloc, bytes)?, cuts, reads),
        sink: MemSink::new(alloc, writes),
    })
}

/// A clock that tells 0, and at last the tick at which each connection ends.
pub(crate) fn long_clock(alloc: Global) -> Result<MemClock, AllocError> {
    let mut ticks = Vec::new(alloc);
    for _ in 0..TICKS {
        ticks.push(0)?;
    }
    ticks.push(NEVER)?;
    Ok(MemClock::new(alloc, ticks))
}

/// Serves a connection: what it says is a feed's, or a request.
fn serve<N: House, R: Wait>(
    rt: &R,
    alloc: Global,
    shared: &Shared<N>,
    pipe: &mut MemPipe,
    clock: &mut MemClock,
    is_feed: bool,
) -> ConnEnd {
    if is_feed {
        serve_feed(rt, alloc, pipe, shared, clock, &OpenGate, NEVER);
        return ConnEnd::Served;
    }
    serve_one(rt, alloc, pipe, shared, clock, &OpenGate, NEVER).end
}

/// Serves connections to which these bytes come, one after another, and at last this one.
fn serve_each<N: House, R: Wait>(
    rt: &R,
    alloc: Global,
    blank: Blank,
    config: Config,
    before: &[&[u8]],
    pipe: &mut MemPipe,
    clock: &mut MemClock,
) -> Option<ConnEnd>
    requires register { blank.register ≡ N.deed.register }
    requires set { config.set ≡ N.deed.set }
    requires config { config.items ≡ N.deed.config }
    requires items { are_items config.items ≡ true }
{
    let shared = Shared::<N>::new(alloc, blank, config).ok()?;
    for bytes in before {
        let is_feed = bytes.starts_with(b"feed ");
        let mut earlier = pipe_of(
            alloc,
            bytes,
            Vec::new(alloc),
            Vec::new(alloc),
            Vec::new(alloc),
        )
        .ok()?;
        let mut ticks = long_clock(alloc).ok()?;
        serve(rt, alloc, &shared, &mut earlier, &mut ticks, is_feed);
    }
    Some(serve(rt, alloc, &shared, pipe, clock, false))
}

/// Serves the first request of a connection to a new server.
fn serve_begun<N: House, R: Wait>(
    rt: &R,
    alloc: Global,
    blank: Blank,
    config: Config,
    pipe: &mut MemPipe,
    clock: &mut MemClock,
) -> Option<Came>
    requires register { blank.register ≡ N.deed.register }
    requires set { config.set ≡ N.deed.set }
    requires config { config.items ≡ N.deed.config }
    requires items { are_items config.items ≡ true }
{
    let shared = Shared::<N>::new(alloc, blank, config).ok()?;
    match serve_first(rt, alloc, pipe, &shared, clock, &OpenGate, NEVER) {
        First::Ended(report) => Some(Came::Ended(report.end)),
        First::Socket { rest } => Some(Came::Socket(rest)),
    }
}

/// What comes of a connection over this pipe, after others on the same new server; `None` for want of memory.
pub(crate) fn served<R: Wait>(
    rt: &R,
    alloc: Global,
    before: &[&[u8]],
    pipe: MemPipe,
    clock: MemClock,
) -> Option<Told> {
    let config = read_config(alloc, ITEMS).ok()?;
    let blank = Blank::new(alloc).ok()?;
    let mut pipe = pipe;
    let mut clock = clock;
    let end = serve_each::<Brand, R>(rt, alloc, blank, config, before, &mut pipe, &mut clock)?;
    Some(Told { end, pipe })
}

/// What comes of a connection to which these bytes come, after others on the same new server.
pub(crate) fn served_bytes<R: Wait>(
    rt: &R,
    alloc: Global,
    before: &[&[u8]],
    bytes: &[u8],
) -> Option<Told> {
    let pipe = pipe_of(
        alloc,
        bytes,
        Vec::new(alloc),
        Vec::new(alloc),
        Vec::new(alloc),
    )
    .ok()?;
    served(rt, alloc, before, pipe, long_clock(alloc).ok()?)
}

/// What comes of the first request over this pipe, on a new server, and the pipe; `None` for want of memory.
pub(crate) fn begun<R: Wait>(
    rt: &R,
    alloc: Global,
    pipe: MemPipe,
    clock: MemClock,
) -> Option<(Came, MemPipe)> {
    let config = read_config(alloc, ITEMS).ok()?;
    let blank = Blank::new(alloc).ok()?;
    let mut pipe = pipe;
    let mut clock = clock;
    let came = serve_begun::<Brand, R>(rt, alloc, blank, config, &mut pipe, &mut clock)?;
    Some((came, pipe))
}
