//! The reply to a request that opens a stream: the stream, or the line that refuses it.
ghost use Rattle.std.specs.Prelude.{◌≡◌, ◌≤◌, ◌⊎◌, [], ℕ, false, true, IfOk};
ghost use Rattle.std.specs.Io.KnownBytes.{Appends};
ghost use Rattle.ls_outside.specs.Causes.{Rose};
ghost use Rattle.ls_http.specs.Replies.{stream_head};
ghost use Rattle.ls_told.specs.Requests.{HasBound, OnlyLater};
ghost use Rattle.ls_conn.specs.Acting.{known};
ghost use Rattle.ls_conn.specs.Lasting.{HasLast, IsLost, LastBecomes, OpenedOne};
ghost use Rattle.ls_conn_http.specs.Bodies.{IsStreamOf, OpeningReply};
ghost use Rattle.ls_conn_http.specs.Opening.{SentOver, conn_end, loses};
ghost use Rattle.ls_conn_http.specs.Replying.{RepliesBy};

use crate::replying::reply_line;
use ls_conn::{Acted, ConnEnd, Seen, Shared, StreamEnd, act, lose_last, stream_last};
use ls_http::append_stream_head;
use ls_outside::{Clock, Gate, Pipe};
use ls_register::{House, View};
use ls_request::LinkKind;
use ls_value::NoMemory;
use ls_wire::{HttpWire, ROOM, Unsent};
use std::alloc::Global;
use std::snapshot::Snapshot;
use std::sync::Wait;

/// The head of a stream, with room for lines after it.
fn head_of(alloc: Global) -> Result<Unsent, NoMemory>
    ensures { IfOk result (λ head. head ≡ stream_head) }
{
    let mut text = Vec::new(alloc);
    append_stream_head(&mut text)?;
    let mut head = Unsent::with_room(alloc, ROOM)?;
    head.add(&text)?;
    Ok(head)
}

/// Gives a stream over a wire that holds its head back: how it ended, and whether all that was put was written.
fn stream_on<N: House, R: Wait, C: Pipe, K: Clock, G: Gate>(
    rt: &R,
    alloc: Global,
    shared: &Shared<N>,
    session: u64,
    epoch: u64,
    seen: &mut Seen<N>,
    wire: &mut HttpWire<'_, C>,
    clock: &mut K,
    gate: &G,
    until: u64,
) -> (StreamEnd, bool)
    requires opened { OpenedOne session epoch seen.old }
    requires fresh { wire.old.conn.now ≡ wire.old.lent.now.value }
    ensures same_reference { wire.new.conn.ghost_name ≡ wire.old.conn.ghost_name }
    ensures sent { LastBecomes seen.old seen.new
        (SentOver result.0 result.1 epoch wire.old.unsent.now (C.held wire.old.conn.now) (C.held wire.new.conn.now)) }
    ensures stopped { result.0 ≡ StreamEnd.Stopped → until ≤ K.told clock.new }
    ensures fault { result.0 ≡ StreamEnd.WriteFault
        → Rose (C.Sink.faults wire.old.conn.now) (C.Sink.faults wire.new.conn.now) }
    ensures part { result.1 ≡ false → Rose (C.Sink.faults wire.old.conn.now) (C.Sink.faults wire.new.conn.now) }
    ensures left { result.0 ≡ StreamEnd.PeerLeft → ⊥ }
{
    let end = stream_last(
        rt, alloc, shared, session, epoch, seen, wire, clock, gate, until,
    );
    let whole = wire.let_go();
    (end, whole)
}

/// Gives a stream over HTTP after a head: how it ended, and whether all that was put was written.
fn over_wire<N: House, R: Wait, C: Pipe, K: Clock, G: Gate>(
    rt: &R,
    alloc: Global,
    conn: &mut C,
    head: &mut Unsent,
    shared: &Shared<N>,
    session: u64,
    epoch: u64,
    seen: &mut Seen<N>,
    clock: &mut K,
    gate: &G,
    until: u64,
) -> (StreamEnd, bool)
    requires opened { OpenedOne session epoch seen.old }
    ensures sent { LastBecomes seen.old seen.new
        (SentOver result.0 result.1 epoch head.old (C.held conn.old) (C.held conn.new)) }
    ensures stopped { result.0 ≡ StreamEnd.Stopped → until ≤ K.told clock.new }
    ensures fault { result.0 ≡ StreamEnd.WriteFault → Rose (C.Sink.faults conn.old) (C.Sink.faults conn.new) }
    ensures part { result.1 ≡ false → Rose (C.Sink.faults conn.old) (C.Sink.faults conn.new) }
    ensures left { result.0 ≡ StreamEnd.PeerLeft → ⊥ }
{
    let lent = Snapshot::of(&*conn);
    let mut wire = HttpWire::over(conn, head, &lent);
    stream_on(
        rt, alloc, shared, session, epoch, seen, &mut wire, clock, gate, until,
    )
}

/// Whether a stream that ended so has to be lost.
fn loses(end: StreamEnd) -> bool
    ensures { result ≡ loses end }
{
    match end {
        StreamEnd::PeerLeft
        | StreamEnd::WriteFault
        | StreamEnd::Stopped
        | StreamEnd::Spent
        | StreamEnd::NoMemory => true,
        StreamEnd::Looped
        | StreamEnd::Ended { code: _ }
        | StreamEnd::Superseded { epoch: _ }
        | StreamEnd::Unbound => false,
    }
}

/// How a connection ends whose stream ended so.
fn conn_end(end: StreamEnd, whole: bool) -> ConnEnd
    ensures { result ≡ conn_end end whole }
{
    if !whole {
        return ConnEnd::WriteFault;
    }
    match end {
        StreamEnd::PeerLeft => ConnEnd::PeerLeft,
        StreamEnd::WriteFault => ConnEnd::WriteFault,
        StreamEnd::Stopped => ConnEnd::Stopped,
        StreamEnd::NoMemory => ConnEnd::NoMemory,
        StreamEnd::Looped
        | StreamEnd::Ended { code: _ }
        | StreamEnd::Superseded { epoch: _ }
        | StreamEnd::Unbound
        | StreamEnd::Spent => ConnEnd::Served,
    }
}

/// Gives the stream of an epoch of the one session that was seen, over HTTP, and loses it where it didn't end by itself.
///
/// It isn't inlined, so that the stack of a stream isn't under that of the request which opens it.
#[inline(never)]
fn give_stream<N: House, R: Wait, C: Pipe, K: Clock, G: Gate>(
    rt: &R,
    alloc: Global,
    conn: &mut C,
    shared: &Shared<N>,
    session: u64,
    epoch: u64,
    seen: &mut Seen<N>,
    clock: &mut K,
    gate: &G,
    until: u64,
) -> ConnEnd
    requires opened { OpenedOne session epoch seen.old }
    ensures writes { RepliesBy result (C.held conn.old) (C.held conn.new)
        (IsStreamOf session epoch seen.old seen.new) }
    ensures stopped { result ≡ ConnEnd.Stopped → until ≤ K.told clock.new }
    ensures fault { result ≡ ConnEnd.WriteFault → Rose (C.Sink.faults conn.old) (C.Sink.faults conn.new) }
{
    let Ok(mut head) = head_of(alloc) else {
        lose_one(rt, shared, epoch, seen, clock);
        return ConnEnd::NoMemory;
    };
    let (end, whole) = over_wire(
        rt, alloc, conn, &mut head, shared, session, epoch, seen, clock, gate, until,
    );
    after_stream(rt, shared, epoch, seen, clock, end, whole)
}

/// The stream of the one session that was seen is lost.
fn lose_one<N: House, R: Wait, K: Clock>(
    rt: &R,
    shared: &Shared<N>,
    epoch: u64,
    seen: &mut Seen<N>,
    clock: &mut K,
)
    requires last { HasLast seen.old (λ t. HasBound epoch t.lines) }
    ensures last { LastBecomes seen.old seen.new OnlyLater }
    ensures lost { HasLast seen.new (IsLost epoch) }
    ensures later { K.told clock.old ≤ K.told clock.new }
{
    let now = clock.now();
    lose_last(rt, shared, epoch, seen, now);
}

/// What is left to do after a stream: it is lost, where it didn't end by itself.
fn after_stream<N: House, R: Wait, K: Clock>(
    rt: &R,
    shared: &Shared<N>,
    epoch: u64,
    seen: &mut Seen<N>,
    clock: &mut K,
    end: StreamEnd,
    whole: bool,
) -> ConnEnd
    requires last { HasLast seen.old (λ t. HasBound epoch t.lines) }
    ensures last { (seen.new ≡ seen.old) ⊎ LastBecomes seen.old seen.new OnlyLater }
    ensures lost { loses end ≡ true → HasLast seen.new (IsLost epoch) }
    ensures later { K.told clock.old ≤ K.told clock.new }
    ensures ends { result ≡ conn_end end whole }
{
    if loses(end) {
        lose_one(rt, shared, epoch, seen, clock);
    }
    conn_end(end, whole)
}

/// Does a request that opens a stream, and gives the stream, or answers the line that refuses it.
pub(crate) fn reply_opening<N: House, R: Wait, C: Pipe, K: Clock, G: Gate>(
    rt: &R,
    alloc: Global,
    conn: &mut C,
    shared: &Shared<N>,
    clock: &mut K,
    gate: &G,
    until: u64,
    name: &[u8],
    params: &[u8],
    view: &mut View<N>,
    seen: &mut Seen<N>,
) -> ConnEnd
    requires none { seen.old ≡ [] }
    ensures writes { RepliesBy result (C.held conn.old) (C.held conn.new)
        (λ whole text. OpeningReply N.deed whole name.now params.now text (known view.old seen.old)
        (known view.new seen.new)) }
    ensures stopped { result ≡ ConnEnd.Stopped → until ≤ K.told clock.new }
    ensures fault { result ≡ ConnEnd.WriteFault → Rose (C.Sink.faults conn.old) (C.Sink.faults conn.new) }
{
    let now = clock.now();
    match act(
        rt,
        alloc,
        shared,
        LinkKind::Http,
        None,
        name,
        params,
        now,
        view,
        seen,
    ) {
        Acted::Line(text) => reply_line(alloc, conn, text.as_slice()),
        Acted::Opened { session, epoch } => give_stream(
            rt, alloc, conn, shared, session, epoch, seen, clock, gate, until,
        ),
        Acted::NoMemory => ConnEnd::NoMemory,
    }
}
