//! A server in memory, a talk over it, and what is looked for in its log.
ghost use Rattle.std.specs.Prelude.{◌≡◌, true};
ghost use Rattle.ls_config.specs.Items.{are_items};

use ls_config::{Config, read};
use ls_conn_http::{ConnEnd, Shared, serve_one};
use ls_feed::serve_feed;
use ls_outside::{Call, MemClock, MemPipe, MemSink, MemSource, OpenGate};
use ls_register::{Blank, House};
use ls_talk::{Happening, MemTalk, Message};
use ls_upgrade::{serve_ws, upgrade};
use ls_value::{NoMemory, Text, same_bytes};
use ls_words::first_piece;
use std::alloc::{AllocError, Global};
use std::marker::Brand;
use std::sync::Wait;

/// The items of the server.
pub(crate) const ITEMS: &[u8] =
    b"item1 MERGE stock_name,last_price,time\nitem2 MERGE stock_name,last_price,time\n";

/// What an adapter published before.
pub(crate) const FED: &[u8] =
    b"feed 1\nitem1 1 stock_name=Anduct&last_price=3.04&time=20:00:33\nitem2 1 stock_name=Ations%20Europe&last_price=16.09&time=20:00:30\n";

/// The key of RFC 6455's example.
const KEY: &[u8] = b"dGhlIHNhbXBsZSBub25jZQ==";

/// A tick that no clock of a test tells.
pub(crate) const NEVER: u64 = 1_000_000;

/// A pipe that gives these bytes.
pub(crate) fn pipe_of(alloc: Global, bytes: &[u8]) -> Result<MemPipe, AllocError> {
    let bytes = Vec::from_slice(alloc, bytes)?;
    Ok(MemPipe {
        source: MemSource::new(bytes, Vec::new(alloc), Vec::new(alloc)),
        sink: MemSink::new(alloc, Vec::new(alloc)),
    })
}

/// How a talk went: its end and its log.
#[derive(Drop)]
pub(crate) struct Talked {
    pub(crate) end: ConnEnd,
    pub(crate) talk: MemTalk,
}

/// Feeds the items, and serves a talk.
fn serve_over<N: House, R: Wait>(
    rt: &R,
    alloc: Global,
    blank: Blank,
    config: Config,
    pipe: &mut MemPipe,
    talk: &mut MemTalk,
    clock: &mut MemClock,
) -> Option<ConnEnd>
    requires register { blank.register ≡ N.deed.register }
    requires set { config.set ≡ N.deed.set }
    requires config { config.items ≡ N.deed.config }
    requires items { are_items config.items ≡ true }
{
    let shared = Shared::<N>::new(alloc, blank, config).ok()?;
    serve_feed(rt, alloc, pipe, &shared, clock, &OpenGate, NEVER);
    let report = serve_ws(rt, alloc, talk, &shared, clock, &OpenGate, NEVER);
    Some(report.end)
}

/// Serves a talk over the items of tests, at these ticks.
pub(crate) fn talk_to_end<R: Wait>(
    rt: &R,
    alloc: Global,
    talk: MemTalk,
    ticks: Vec<u64>,
) -> Option<Talked> {
    let config = read(alloc, ITEMS).ok()?;
    let blank = Blank::new(alloc).ok()?;
    let mut clock = MemClock::new(alloc, ticks);
    let mut pipe = pipe_of(alloc, FED).ok()?;
    let mut talk = talk;
    let end = serve_over::<Brand, R>(rt, alloc, blank, config, &mut pipe, &mut talk, &mut clock)?;
    Some(Talked { end, talk })
}

/// Text messages, divided by NUL.
pub(crate) fn messages_of(alloc: Global, texts: &str) -> Result<Vec<Message>, NoMemory> {
    let mut messages = Vec::new(alloc);
    for text in texts.split('\0') {
        messages.push(Message::Text(Text::from_str(alloc, text)?))?;
    }
    Ok(messages)
}

/// So many calls that find nothing yet, after so many that go.
pub(crate) fn idle_after(alloc: Global, go: usize, idle: usize) -> Result<Vec<Call>, AllocError> {
    let mut calls = Vec::new(alloc);
    for _ in 0..go {
        calls.push(Call::Go)?;
    }
    for _ in 0..idle {
        calls.push(Call::Idle)?;
    }
    Ok(calls)
}

/// The text of a line that was put, if this is one.
fn line_of(happening: &Happening) -> Option<&[u8]> {
    match happening {
        Happening::Line(text) => Some(text.as_slice()),
        Happening::Part(_) | Happening::Answer(_) => None,
    }
}

/// Whether the lines of a log are these, divided by LF; no line, where the text is empty.
pub(crate) fn has_lines(log: &[Happening], wanted: &[u8]) -> bool {
    let mut rest = if wanted.is_empty() {
        None
    } else {
        Some(wanted)
    };
    for happening in log {
        let Some(line) = line_of(happening) else {
            continue;
        };
        let Some(text) = rest else {
            return false;
        };
        let (first, more) = first_piece(b'\n', text);
        if !same_bytes(line, first) {
            return false;
        }
        rest = more;
    }
    rest.is_none()
}

/// Whether messages, which are followed by so many looks that find none yet, are answered and followed by these lines,
/// and the talk then ends so.
pub(crate) fn says<R: Wait>(
    rt: &R,
    alloc: Global,
    texts: &str,
    idle: usize,
    end: ConnEnd,
    wanted: &[u8],
) -> Result<bool, NoMemory> {
    let messages = messages_of(alloc, texts)?;
    let reads = idle_after(alloc, messages.len(), idle)?;
    let talk = MemTalk::new(alloc, messages, reads, Vec::new(alloc));
    match talk_to_end(rt, alloc, talk, Vec::new(alloc)) {
        Some(talked) => Ok(talked.end == end && has_lines(talked.talk.log(), wanted)),
        None => Ok(false),
    }
}

/// What a pipe is served by: a handshake that was read, past which these bytes were, or nothing that was.
#[derive(Drop)]
pub(crate) enum Visit {
    Upgrade(Vec<u8>),
    Head,
}

/// Serves a pipe.
fn visit_over<N: House, R: Wait>(
    rt: &R,
    alloc: Global,
    blank: Blank,
    config: Config,
    pipe: &mut MemPipe,
    visit: Visit,
    clock: &mut MemClock,
) -> Option<ConnEnd>
    requires register { blank.register ≡ N.deed.register }
    requires set { config.set ≡ N.deed.set }
    requires config { config.items ≡ N.deed.config }
    requires items { are_items config.items ≡ true }
{
    let shared = Shared::<N>::new(alloc, blank, config).ok()?;
    let report = match visit {
        Visit::Upgrade(rest) => upgrade(
            rt, alloc, pipe, KEY, rest, &shared, clock, &OpenGate, NEVER,
        ),
        Visit::Head => serve_one(rt, alloc, pipe, &shared, clock, &OpenGate, NEVER),
    };
    Some(report.end)
}

/// Serves a pipe, over the items of tests.
fn visited<R: Wait>(rt: &R, alloc: Global, pipe: &mut MemPipe, visit: Visit) -> Option<ConnEnd> {
    let config = read(alloc, ITEMS).ok()?;
    let blank = Blank::new(alloc).ok()?;
    let mut clock = MemClock::new(alloc, Vec::new(alloc));
    visit_over::<Brand, R>(rt, alloc, blank, config, pipe, visit, &mut clock)
}

/// Whether a pipe that gives these bytes is served until this end, and this is written, and then this.
fn writes<R: Wait>(
    rt: &R,
    alloc: Global,
    visit: Visit,
    bytes: &[u8],
    end: ConnEnd,
    reply: &[u8],
    answer: &[u8],
) -> Result<bool, AllocError> {
    let mut pipe = pipe_of(alloc, bytes)?;
    if visited(rt, alloc, &mut pipe, visit) != Some(end) {
        return Ok(false);
    }
    match pipe.sink.bytes().strip_prefix(reply) {
        Some(rest) => Ok(same_bytes(rest, answer)),
        None => Ok(false),
    }
}

/// Whether a handshake, past which these bytes were read, and these are still to come, is answered so, and the messages
/// so, until the peer leaves.
pub(crate) fn upgraded<R: Wait>(
    rt: &R,
    alloc: Global,
    rest: &[u8],
    more: &[u8],
    reply: &[u8],
    answer: &[u8],
) -> Result<bool, AllocError> {
    let rest = Vec::from_slice(alloc, rest)?;
    writes(
        rt,
        alloc,
        Visit::Upgrade(rest),
        more,
        ConnEnd::PeerLeft,
        reply,
        answer,
    )
}

/// Whether a connection on which these bytes come is answered so, and then so, until this end.
pub(crate) fn served<R: Wait>(
    rt: &R,
    alloc: Global,
    bytes: &[u8],
    end: ConnEnd,
    reply: &[u8],
    answer: &[u8],
) -> Result<bool, AllocError> {
    writes(rt, alloc, Visit::Head, bytes, end, reply, answer)
}
