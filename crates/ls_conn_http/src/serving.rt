//! A connection from its first byte to its end.
ghost use Rattle.std.specs.Prelude.{◌≡◌, ◌≤◌, ◌+◌, ◌⊎◌, [], ℕ, IfErr, IfOk, IfSome, List, None, OnOk, length, take, drop};
ghost use Rattle.std.specs.Io.KnownBytes.{IsAtEnd};
ghost use Rattle.ls_outside.specs.Causes.{Rose, RoseBy};
ghost use Rattle.ls_record.specs.Acting.{is_opening};
ghost use Rattle.ls_register.specs.declared.made.Made.{Made};
ghost use Rattle.ls_conn.specs.Acting.{known};
ghost use Rattle.ls_conn.specs.declared.ended.ConnEnd.TheVariants as end_is;
ghost use Rattle.ls_conn_http.specs.Bodies.{IsReply, ReplyBy};
ghost use Rattle.ls_conn_http.specs.Firsts.{IfEnded, IfSocket};
ghost use Rattle.ls_conn_http.specs.Reading.{ReadsHandshake, Upgraded, WasUpgraded};
ghost use Rattle.ls_conn_http.specs.Replying.{RepliesBy, WritesRefusal};
ghost use Rattle.ls_conn_http.specs.Serving.{Served, Switched, Unanswered};

use crate::bodies::without_end;
use crate::intake::{Came, Intake, Post, body_of, read_first, rest_of};
use crate::opening::reply_opening;
use crate::replying::{refuse, reply_control, reply_version};
use ls_conn::{ConnEnd, ConnReport, MOST_IDLES, Seen, Shared};
use ls_outside::{Clock, Gate, Pipe, Sink};
use ls_register::{House, View};
use ls_upgrade::{accept, upgrade};
use ls_value::{Bytes, NoMemory, same_bytes};
use ls_wake::Wakes;
use std::alloc::Global;
use std::sync::Wait;

/// Whether a name is that of a request for a session or a stream.
fn is_opening(name: &[u8]) -> bool
    ensures { result ≡ is_opening name.now }
{
    same_bytes(name, b"create_session") || same_bytes(name, b"bind_session")
}

/// Replies to a request that was read.
fn reply<N: House, R: Wait, C: Pipe, K: Clock, G: Gate>(
    rt: &R,
    alloc: Global,
    conn: &mut C,
    shared: &Shared<N>,
    clock: &mut K,
    gate: &G,
    until: u64,
    name: &[u8],
    version: bool,
    body: &[u8],
    view: &mut View<N>,
    seen: &mut Seen<N>,
) -> ConnEnd
    requires none { seen.old ≡ [] }
    ensures writes { RepliesBy result (C.held conn.old) (C.held conn.new)
        (λ whole text. IsReply N.deed whole name.now version body.now text (known view.old seen.old)
        (known view.new seen.new)) }
    ensures stopped { result ≡ ConnEnd.Stopped → until ≤ K.told clock.new }
    ensures fault { result ≡ ConnEnd.WriteFault → Rose (C.Sink.faults conn.old) (C.Sink.faults conn.new) }
{
    if version {
        reply_current(
            rt, alloc, conn, shared, clock, gate, until, name, body, view, seen,
        )
    } else {
        reply_version(alloc, conn, is_opening(name))
    }
}

/// Replies to a request of the protocol's version.
fn reply_current<N: House, R: Wait, C: Pipe, K: Clock, G: Gate>(
    rt: &R,
    alloc: Global,
    conn: &mut C,
    shared: &Shared<N>,
    clock: &mut K,
    gate: &G,
    until: u64,
    name: &[u8],
    body: &[u8],
    view: &mut View<N>,
    seen: &mut Seen<N>,
) -> ConnEnd
    requires none { seen.old ≡ [] }
    ensures writes { RepliesBy result (C.held conn.old) (C.held conn.new)
        (λ whole text. ReplyBy (is_opening name.now) N.deed whole name.now body.now text (known view.old seen.old)
        (known view.new seen.new)) }
    ensures stopped { result ≡ ConnEnd.Stopped → until ≤ K.told clock.new }
    ensures fault { result ≡ ConnEnd.WriteFault → Rose (C.Sink.faults conn.old) (C.Sink.faults conn.new) }
{
    if is_opening(name) {
        let params = without_end(body);
        reply_opening(
            rt, alloc, conn, shared, clock, gate, until, name, params, view, seen,
        )
    } else {
        reply_control(rt, alloc, conn, shared, clock, name, body, view, seen)
    }
}

/// Serves a request that came whole: does what it asks for, and replies. It isn't inlined, so that its stack isn't under
/// that of a WebSocket.
#[inline(never)]
fn serve_post<N: House, R: Wait, C: Pipe, K: Clock, G: Gate>(
    rt: &R,
    alloc: Global,
    conn: &mut C,
    shared: &Shared<N>,
    clock: &mut K,
    gate: &G,
    until: u64,
    intake: &Intake,
    post: &Post,
) -> ConnReport<N>
    requires fits { post.now.start + post.now.length ≤ length intake.now.bytes.items }
    ensures writes { (register : List Made) × RepliesBy result.end (C.held conn.old) (C.held conn.new)
        (λ whole text. IsReply N.deed whole post.now.name post.now.version
        (take post.now.length (drop post.now.start intake.now.bytes.items)) text (known register [])
        (known result.view result.seen)) }
    ensures stopped { result.end ≡ ConnEnd.Stopped → until ≤ K.told clock.new }
    ensures fault { result.end ≡ ConnEnd.WriteFault → Rose (C.Sink.faults conn.old) (C.Sink.faults conn.new) }
{
    let mut view = shared.view(rt);
    let mut seen = Seen::new(alloc);
    let end = reply(
        rt,
        alloc,
        conn,
        shared,
        clock,
        gate,
        until,
        post.name.as_bytes(),
        post.version,
        body_of(intake, post),
        &mut view,
        &mut seen,
    );
    ConnReport {
        end,
        view,
        seen,
        told: None,
    }
}

/// Refuses a head with a status. It isn't inlined, for the same reason.
#[inline(never)]
fn serve_refusal<N: House, R: Wait, C: Sink>(
    rt: &R,
    alloc: Global,
    conn: &mut C,
    shared: &Shared<N>,
    status: u16,
) -> ConnReport<N>
    ensures writes { WritesRefusal result.end status (C.held conn.old) (C.held conn.new) }
    ensures fault { result.end ≡ ConnEnd.WriteFault → Rose (C.faults conn.old) (C.faults conn.new) }
{
    let end = refuse(alloc, conn, status);
    ended(rt, alloc, shared, end)
}

/// The status of a refusal, where a connection is to end by one.
fn status_of(end: ConnEnd) -> Option<u16>
    ensures some { IfSome result (λ status. end ≡ end_is.Refused status) }
    ensures none { result ≡ None → (status : ℕ) → end ≡ end_is.Refused status → ⊥ }
{
    match end {
        ConnEnd::Refused { status } => Some(status),
        _ => None,
    }
}

/// What came of a connection over which no request was done.
fn ended<N: House, R: Wait>(
    rt: &R,
    alloc: Global,
    shared: &Shared<N>,
    end: ConnEnd,
) -> ConnReport<N>
    ensures { result.end ≡ end }
{
    ConnReport {
        end,
        view: shared.view(rt),
        seen: Seen::new(alloc),
        told: None,
    }
}

/// A handshake that was read: its key, and the bytes that were read past it.
#[derive(Drop)]
struct Handshake {
    key: Bytes,
    rest: Vec<u8>,
}

/// Reads what comes first, and serves a request to its end: then the answer is its report. A handshake isn't answered
/// yet. What was read is given back. It isn't inlined, so that its stack isn't under that of a WebSocket.
#[inline(never)]
fn begin<N: House, R: Wait, C: Pipe, K: Clock, G: Gate>(
    rt: &R,
    alloc: Global,
    conn: &mut C,
    shared: &Shared<N>,
    clock: &mut K,
    gate: &G,
    until: u64,
) -> Result<Handshake, ConnReport<N>>
    ensures came { IfOk result (λ shake. ReadsHandshake (C.unread conn.old) (C.unread conn.new) shake.key
        shake.rest.items) }
    ensures waits { OnOk result (C.waits conn.old ≤ C.waits conn.new) }
    ensures faults { OnOk result (C.Source.faults conn.old ≤ C.Source.faults conn.new) }
    ensures sink { OnOk result (C.holds conn.new ≡ C.holds conn.old) }
    ensures served { IfErr result (λ report. Served N.deed report.end (C.unread conn.old) (C.held conn.old)
        (C.held conn.new) (known report.view report.seen)) }
    ensures read_fault { IfErr result (λ report. report.end ≡ ConnEnd.ReadFault
        → Rose (C.Source.faults conn.old) (C.Source.faults conn.new)) }
    ensures write_fault { IfErr result (λ report. report.end ≡ ConnEnd.WriteFault
        → Rose (C.Sink.faults conn.old) (C.Sink.faults conn.new)) }
    ensures too_slow { IfErr result (λ report. report.end ≡ ConnEnd.TooSlow
        → RoseBy MOST_IDLES (C.waits conn.old) (C.waits conn.new)) }
    ensures stopped { IfErr result (λ report. report.end ≡ ConnEnd.Stopped → until ≤ K.told clock.new) }
    ensures left { IfErr result (λ report. report.end ≡ ConnEnd.PeerLeft → IsAtEnd (C.unread conn.new)) }
{
    let mut intake = Intake::new(alloc);
    match read_first(rt, alloc, conn, clock, until, &mut intake) {
        Ok(Came::Post(post)) => Err(serve_post(
            rt, alloc, conn, shared, clock, gate, until, &intake, &post,
        )),
        Ok(Came::Upgrade { key, start }) => match rest_of(alloc, intake, start) {
            Ok(rest) => Ok(Handshake { key, rest }),
            Err(NoMemory) => Err(ended(rt, alloc, shared, ConnEnd::NoMemory)),
        },
        Err(end) => match status_of(end) {
            Some(status) => Err(serve_refusal(rt, alloc, conn, shared, status)),
            None => Err(ended(rt, alloc, shared, end)),
        },
    }
}

/// What came of a connection's first request.
#[derive(Drop)]
pub enum First<N: House> {
    /// It was served to its end, or none was: the connection is over.
    Ended(ConnReport<N>),

    /// A handshake was read and answered: the connection is a WebSocket now. These bytes were read past the handshake.
    Socket { rest: Vec<u8> },
}

/// Serves a connection's first request over HTTP to its end, as [`serve_one`] does, or answers its handshake, by
/// [`accept`]: then the connection is a WebSocket, which is for the caller to serve (TLCP 2.1, HTTP and WebSocket
/// transports; RFC 6455, section 4.2.2; this project's profile).
///
/// Over a pipe that tells, contracts say of each end what was read and what was written, as those of [`serve_one`] do.
/// Where the connection is a WebSocket, what was read is its handshake and these bytes, and what was written is the reply
/// to the handshake's key. Where a write of that reply failed, or memory was refused, a part of it was written, from its
/// front.
pub fn serve_first<N: House, R: Wait, C: Pipe, K: Clock, G: Gate>(
    rt: &R,
    alloc: Global,
    conn: &mut C,
    shared: &Shared<N>,
    clock: &mut K,
    gate: &G,
    until: u64,
) -> First<N>
    ensures socket { IfSocket result (λ rest. Switched (C.unread conn.old) (C.unread conn.new) (C.held conn.old)
        (C.held conn.new) rest) }
    ensures served { IfEnded result (λ report. Served N.deed report.end (C.unread conn.old) (C.held conn.old)
        (C.held conn.new) (known report.view report.seen)
        ⊎ Unanswered report.end (C.unread conn.old) (C.unread conn.new) (C.held conn.old) (C.held conn.new)) }
    ensures read_fault { IfEnded result (λ report. report.end ≡ ConnEnd.ReadFault
        → Rose (C.Source.faults conn.old) (C.Source.faults conn.new)) }
    ensures write_fault { IfEnded result (λ report. report.end ≡ ConnEnd.WriteFault
        → Rose (C.Sink.faults conn.old) (C.Sink.faults conn.new)) }
    ensures too_slow { IfEnded result (λ report. report.end ≡ ConnEnd.TooSlow
        → RoseBy MOST_IDLES (C.waits conn.old) (C.waits conn.new)) }
    ensures stopped { IfEnded result (λ report. report.end ≡ ConnEnd.Stopped → until ≤ K.told clock.new) }
    ensures left { IfEnded result (λ report. report.end ≡ ConnEnd.PeerLeft → IsAtEnd (C.unread conn.new)) }
{
    match begin(rt, alloc, conn, shared, clock, gate, until) {
        Ok(Handshake { key, rest }) => match accept(alloc, conn, key.as_slice()) {
            Ok(()) => First::Socket { rest },
            Err(end) => First::Ended(ended(rt, alloc, shared, end)),
        },
        Err(report) => First::Ended(report),
    }
}

/// Serves one request over HTTP to its end: reads its head and its body, does what it asks for, and writes its answer
/// or its stream (TLCP 2.1, HTTP transport; RFC 9112; this project's profile).
///
/// Before each read it asks the clock, and ends at the tick `until`, in ms, or a later one; so does a stream. Where no
/// byte is there yet, it lets the clock wait 10 ms, and gives up at the 3,000th such read. A head that is refused is
/// answered with its status. The requests of a control body are done and answered in order, and nothing is written
/// before the body is whole. A stream that didn't end by itself is lost afterwards. After the head of a handshake the
/// connection is a WebSocket, as [`upgrade`] serves it. What was seen of sessions, and the register by which requests
/// were done, are in the report.
///
/// Over a pipe that tells, contracts say of each end what was read and what was written, unless a handshake was read:
/// nothing, a refusal, or the reply to the request that was read, whole or a part from its front. A reply is the lines
/// that answer its requests, each true of what was seen of its session and of the register; or the lines of a stream,
/// which are those that its session gave to this caller, all of them and in order. After a handshake contracts say how
/// the connection may end, with the cause of each fault, and nothing of what was written.
pub fn serve_one<N: House, R: Wait, C: Pipe + Wakes, K: Clock, G: Gate>(
    rt: &R,
    alloc: Global,
    conn: &mut C,
    shared: &Shared<N>,
    clock: &mut K,
    gate: &G,
    until: u64,
) -> ConnReport<N>
    ensures served { Served N.deed result.end (C.unread conn.old) (C.held conn.old) (C.held conn.new)
        (known result.view result.seen) ⊎ Upgraded result.end (C.unread conn.old) }
    ensures read_fault { result.end ≡ ConnEnd.ReadFault → Rose (C.Source.faults conn.old) (C.Source.faults conn.new) }
    ensures write_fault { result.end ≡ ConnEnd.WriteFault → Rose (C.Sink.faults conn.old) (C.Sink.faults conn.new) }
    ensures too_slow { result.end ≡ ConnEnd.TooSlow → RoseBy MOST_IDLES (C.waits conn.old) (C.waits conn.new) }
    ensures stopped { result.end ≡ ConnEnd.Stopped → until ≤ K.told clock.new }
    ensures left { result.end ≡ ConnEnd.PeerLeft → IsAtEnd (C.unread conn.new) ⊎ WasUpgraded (C.unread conn.old) }
{
    match begin(rt, alloc, conn, shared, clock, gate, until) {
        Ok(Handshake { key, rest }) => upgrade(
            rt,
            alloc,
            conn,
            key.as_slice(),
            rest,
            shared,
            clock,
            gate,
            until,
        ),
        Err(report) => report,
    }
}
