//! A WebSocket from its handshake to its end.
ghost use Rattle.std.specs.Prelude.{◌≡◌, ◌≤◌, ◌<◌, ◌⊎◌, [], ℕ, List, None, Some, IfSome, false, option_map};
ghost use Rattle.std.specs.declared.option.Option.{Option as Optional};
ghost use Rattle.ls_value.specs.declared.limits.TheConstants.{GREATEST_TICK};
ghost use Rattle.ls_outside.specs.Causes.{Rose, one_more};
ghost use Rattle.ls_talk.specs.Lines.{Counts};
ghost use Rattle.ls_talk.specs.declared.talk.Happening.{Happening};
ghost use Rattle.ls_told.specs.Requests.{HasBound};
ghost use Rattle.ls_conn.specs.Acting.{Known, known};
ghost use Rattle.ls_conn_ws.specs.Streams.{StreamState};
ghost use Rattle.ls_conn_ws.specs.Causes.{HasCause, Rises};
ghost use Rattle.ls_talk.specs.declared.talk.Incoming.{Incoming as Message};
ghost use Rattle.ls_talk.specs.declared.talk.Incoming.TheVariants as incoming;
ghost use Rattle.ls_register.specs.Deeds.{Deed};
ghost use Rattle.ls_conn_ws.specs.Answering.{heard_for};
ghost use Rattle.ls_conn_ws.specs.Hearing.{GoesOn, HearsSo, Heeds, IsNoText, LogsBare, PutsHeard, RestsSo, Runs, RunsOn};
ghost use Rattle.ls_conn_ws.specs.Giving.{LeftSo};
ghost use Rattle.ls_conn_ws.specs.Losing.{IsOver};
ghost use Rattle.ls_conn_ws.specs.Serving.{Served, Spoke};
ghost use Rattle.ls_conn_ws.specs.Steps.{ended_by};

use crate::answering::{Desk, Replied, answer_message, put_reply};
use crate::running::{Given, PAUSE, Running, calls_of, give_any, leave, nap, rings_of};
use crate::step::Step;
use ls_conn::{ConnEnd, ConnReport, MOST_IDLES, Seen, Shared, Testimony};
use ls_line::LineBuf;
use ls_outside::{Clock, Gate};
use ls_register::House;
use ls_talk::{Incoming, Talk};
use ls_wake::Wakes;
use std::alloc::Global;
use std::sync::Wait;

/// What came of a look for a message.
#[derive(Clone, Copy, Debug, PartialEq, Eq)]
pub(crate) enum Heard {
    /// One came, and was answered.
    Message,

    /// None is there yet.
    Nothing,

    /// The connection is to end.
    End(ConnEnd),
}

/// What a message's answers say of the connection.
fn heard_by(replied: Replied) -> Heard
    ensures { result ≡ heard_for replied }
{
    match replied {
        Replied::All => Heard::Message,
        Replied::WriteFault => Heard::End(ConnEnd::WriteFault),
        Replied::NoMemory => Heard::End(ConnEnd::NoMemory),
    }
}

/// Answers a text message.
fn hear_text<N: House, R: Wait, T: Talk + Wakes>(
    rt: &R,
    alloc: Global,
    shared: &Shared<N>,
    talk: &mut T,
    text: &[u8],
    now: u64,
    desk: &mut Desk<N>,
) -> Heard
    requires tick { now ≤ GREATEST_TICK }
    ensures hears { (log : Optional (List Happening)) (k : Known) → LogsBare (incoming.Text text.now) log (T.log talk.old)
        → HearsSo N.deed result k (known desk.new.view desk.new.seen) desk.old.stream desk.new.stream
        log (T.log talk.new) }
    ensures cause { PutsHeard result (T.LineOut.faults talk.old) (T.LineOut.faults talk.new) }
    ensures counts { T.counts talk.new ≡ T.counts talk.old }
{
    let replied = answer_message(rt, alloc, shared, talk, text, now, desk);
    heard_by(replied)
}

/// Answers what is no request: a message that is no text, or too long.
fn refuse<T: Talk>(talk: &mut T) -> Heard
    ensures hears { (m : Message) (log : Optional (List Happening)) (k : Known) (stream : Optional StreamState)
        (deed : Deed) → IsNoText m → LogsBare m log (T.log talk.old)
        → HearsSo deed result k k stream stream log (T.log talk.new) }
    ensures cause { PutsHeard result (T.LineOut.faults talk.old) (T.LineOut.faults talk.new) }
    ensures counts { T.counts talk.new ≡ T.counts talk.old }
{
    let replied = put_reply(talk, b"ERROR,65,Malformed request");
    heard_by(replied)
}

/// The same of a message that is too long.
fn refuse_long<T: Talk>(talk: &mut T) -> Heard
    ensures hears { (m : Message) (log : Optional (List Happening)) (k : Known) (stream : Optional StreamState)
        (deed : Deed) → IsNoText m → LogsBare m log (T.log talk.old)
        → HearsSo deed result k k stream stream log (T.log talk.new) }
    ensures cause { PutsHeard result (T.LineOut.faults talk.old) (T.LineOut.faults talk.new) }
    ensures counts { T.counts talk.new ≡ T.counts talk.old }
{
    refuse(talk)
}

/// The end where a read of a message failed: of reading, or of the write of an answer of the talk's own.
fn end_of_failure<T: Talk>(talk: &T, faults: u64) -> ConnEnd
    requires { faults ≤ (T.counts talk.now).faults }
    ensures read { (result ≡ ConnEnd.ReadFault) ⊎ (result ≡ ConnEnd.WriteFault) }
    ensures fault { result ≡ ConnEnd.ReadFault → Rose faults (T.counts talk.now).faults }
    ensures same { result ≡ ConnEnd.WriteFault → ((T.counts talk.now).faults ≡ one_more faults → ⊥) }
{
    if talk.read_faults() > faults || faults == u64::MAX {
        ConnEnd::ReadFault
    } else {
        ConnEnd::WriteFault
    }
}

/// Looks for a message, and answers it.
fn hear<N: House, R: Wait, T: Talk + Wakes>(
    rt: &R,
    alloc: Global,
    shared: &Shared<N>,
    talk: &mut T,
    now: u64,
    desk: &mut Desk<N>,
) -> Heard
    requires tick { now ≤ GREATEST_TICK }
    ensures hears { HearsSo N.deed result (known desk.old.view desk.old.seen) (known desk.new.view desk.new.seen)
        desk.old.stream desk.new.stream (T.log talk.old) (T.log talk.new) }
    ensures cause { Heeds result (T.counts talk.old) (T.counts talk.new)
        (T.LineOut.faults talk.old) (T.LineOut.faults talk.new) }
{
    let faults = talk.read_faults();
    match talk.message() {
        Incoming::Text(text) => hear_text(rt, alloc, shared, talk, text.as_slice(), now, desk),
        Incoming::Binary => refuse(talk),
        Incoming::Long => refuse_long(talk),
        Incoming::Control => Heard::Message,
        Incoming::NotYet => Heard::Nothing,
        Incoming::Closed => Heard::End(ConnEnd::PeerLeft),
        Incoming::Failed => Heard::End(end_of_failure(talk, faults)),
        Incoming::NoMemory => Heard::End(ConnEnd::NoMemory),
    }
}

/// Sleeps until the session's bell rings, but no longer than so many ms. Where no stream goes on, or the clock doesn't run
/// by itself, it lets the clock wait 10 ms or less.
fn sleep<N: House, R: Wait, K: Clock>(
    rt: &R,
    stream: &Option<Running<N>>,
    rings: u64,
    clock: &mut K,
    ms: u64,
)
    ensures { K.told clock.old ≤ K.told clock.new }
{
    match stream {
        Some(running) => {
            if running.runs && clock.runs() {
                running.told.bell().wait(rt, rings, ms);
            } else {
                clock.wait(ms.min(PAUSE));
            }
        }
        None => clock.wait(ms.min(PAUSE)),
    }
}

/// Whether a stream goes on.
fn runs<N: House>(stream: &Option<Running<N>>) -> bool {
    match stream {
        Some(running) => running.runs,
        None => false,
    }
}

/// Where no message is there yet: lets go what was held back, and says how long to rest. Right after a line of a stream
/// that goes on there is no need to.
fn rest<N: House, T: Talk>(
    talk: &mut T,
    stream: &Option<Running<N>>,
    ms: Option<u64>,
    idles: &mut u64,
) -> Step
    requires few { idles.old < MOST_IDLES }
    ensures rests { RestsSo (ended_by result) idles.old idles.new (T.log talk.old) (T.log talk.new)
        (T.LineOut.faults talk.old) (T.LineOut.faults talk.new) }
    ensures counts { T.counts talk.new ≡ T.counts talk.old }
{
    let runs = runs(stream);
    if runs && ms.is_none() {
        *idles = 0;
        return Step::Goes;
    }
    if !talk.let_go() {
        return Step::Ended(ConnEnd::WriteFault);
    }
    if runs {
        *idles = 0;
        return Step::Rests {
            ms: ms.unwrap_or(0),
        };
    }
    *idles += 1;
    if *idles == MOST_IDLES {
        return Step::Ended(ConnEnd::TooSlow);
    }
    // Most clients send their first request right after the handshake.
    Step::Rests {
        ms: PAUSE.min(*idles),
    }
}

/// Lets go what was held back, and rests so many ms.
fn rest_on<T: Talk>(talk: &mut T, ms: u64) -> Step
    ensures rests { RestsSo (ended_by result) 0 0 (T.log talk.old) (T.log talk.new)
        (T.LineOut.faults talk.old) (T.LineOut.faults talk.new) }
    ensures counts { T.counts talk.new ≡ T.counts talk.old }
{
    if talk.let_go() {
        Step::Rests { ms }
    } else {
        Step::Ended(ConnEnd::WriteFault)
    }
}

/// Whether a look for a message can be left out: the bell of the stream is called at messages, and wasn't since a look in
/// vain. A talk that is behind is looked at, since a read also writes what its peer had no room for.
fn was_not_called<N: House, T: Wakes>(talk: &T, desk: &Desk<N>) -> bool {
    !talk.is_behind() && desk.calls.is_some() && desk.calls == calls_of(&desk.stream)
}

/// Looks for a message at a tick, and answers it; where there is none, rests.
fn listen<N: House, R: Wait, T: Talk + Wakes>(
    rt: &R,
    alloc: Global,
    shared: &Shared<N>,
    talk: &mut T,
    now: u64,
    desk: &mut Desk<N>,
    ms: Option<u64>,
    idles: &mut u64,
) -> Step
    requires tick { now ≤ GREATEST_TICK }
    requires few { idles.old < MOST_IDLES }
    ensures goes { (log : Optional (List Happening))
        → Served N.deed log (T.log talk.old) (known desk.old.view desk.old.seen) desk.old.stream idles.old
        → GoesOn N.deed (ended_by result) log (T.log talk.new) (known desk.new.view desk.new.seen) desk.new.stream
        idles.new }
    ensures few { ended_by result ≡ None → idles.new < MOST_IDLES }
    ensures cause { (c : Counts) (f : ℕ) → Runs idles.old c (T.counts talk.old) f (T.LineOut.faults talk.old)
        → RunsOn (ended_by result) idles.new c (T.counts talk.new) f (T.LineOut.faults talk.new) }
    ensures stays { ¬ (ended_by result ≡ Some ConnEnd.Stopped) }
{
    let calls = calls_of(&desk.stream);
    match hear(rt, alloc, shared, talk, now, desk) {
        Heard::Message => {
            *idles = 0;
            desk.calls = None;
            Step::Goes
        }
        Heard::Nothing => {
            desk.looked = Some(now);
            desk.calls = calls;
            rest(talk, &desk.stream, ms, idles)
        }
        Heard::End(end) => Step::Ended(end),
    }
}

/// The same after a line of the stream, after which nothing rests. Each look costs a call of the system: so it isn't looked
/// where the bell wasn't called, nor again at a tick at which it was looked in vain.
fn after_line<N: House, R: Wait, T: Talk + Wakes>(
    rt: &R,
    alloc: Global,
    shared: &Shared<N>,
    talk: &mut T,
    now: u64,
    desk: &mut Desk<N>,
    idles: &mut u64,
) -> Step
    requires tick { now ≤ GREATEST_TICK }
    ensures goes { (log : Optional (List Happening))
        → Served N.deed log (T.log talk.old) (known desk.old.view desk.old.seen) desk.old.stream 0
        → GoesOn N.deed (ended_by result) log (T.log talk.new) (known desk.new.view desk.new.seen) desk.new.stream
        idles.new }
    ensures few { ended_by result ≡ None → idles.new < MOST_IDLES }
    ensures cause { (c : Counts) (f : ℕ) → Runs 0 c (T.counts talk.old) f (T.LineOut.faults talk.old)
        → RunsOn (ended_by result) idles.new c (T.counts talk.new) f (T.LineOut.faults talk.new) }
    ensures stays { ¬ (ended_by result ≡ Some ConnEnd.Stopped) }
{
    *idles = 0;
    if desk.looked == Some(now) || was_not_called(talk, desk) {
        return Step::Goes;
    }
    listen(rt, alloc, shared, talk, now, desk, None, idles)
}

/// The same where the stream has nothing to give for so many ms. It isn't looked where the bell wasn't called.
fn after_nothing<N: House, R: Wait, T: Talk + Wakes>(
    rt: &R,
    alloc: Global,
    shared: &Shared<N>,
    talk: &mut T,
    now: u64,
    desk: &mut Desk<N>,
    ms: u64,
    idles: &mut u64,
) -> Step
    requires tick { now ≤ GREATEST_TICK }
    requires few { idles.old < MOST_IDLES }
    ensures goes { (log : Optional (List Happening))
        → Served N.deed log (T.log talk.old) (known desk.old.view desk.old.seen) desk.old.stream idles.old
        → GoesOn N.deed (ended_by result) log (T.log talk.new) (known desk.new.view desk.new.seen) desk.new.stream
        idles.new }
    ensures few { ended_by result ≡ None → idles.new < MOST_IDLES }
    ensures cause { (c : Counts) (f : ℕ) → Runs idles.old c (T.counts talk.old) f (T.LineOut.faults talk.old)
        → RunsOn (ended_by result) idles.new c (T.counts talk.new) f (T.LineOut.faults talk.new) }
    ensures stays { ¬ (ended_by result ≡ Some ConnEnd.Stopped) }
{
    if was_not_called(talk, desk) {
        *idles = 0;
        return rest_on(talk, ms);
    }
    listen(rt, alloc, shared, talk, now, desk, Some(ms), idles)
}

/// Has a turn of the stream at a tick before `until`, where one goes on, and looks for a message: so at most one message
/// is answered between two lines, and a line, where there is one, is given between two messages. It never sleeps.
pub(crate) fn round<N: House, R: Wait, T: Talk + Wakes, G: Gate>(
    rt: &R,
    alloc: Global,
    shared: &Shared<N>,
    talk: &mut T,
    gate: &G,
    now: u64,
    until: u64,
    desk: &mut Desk<N>,
    into: &mut LineBuf,
    idles: &mut u64,
) -> Step
    requires tick { now ≤ GREATEST_TICK }
    requires few { idles.old < MOST_IDLES }
    ensures goes { (log : Optional (List Happening))
        → Served N.deed log (T.log talk.old) (known desk.old.view desk.old.seen) desk.old.stream idles.old
        → GoesOn N.deed (ended_by result) log (T.log talk.new) (known desk.new.view desk.new.seen) desk.new.stream
        idles.new }
    ensures few { ended_by result ≡ None → idles.new < MOST_IDLES }
    ensures cause { (c : Counts) (f : ℕ) → Runs idles.old c (T.counts talk.old) f (T.LineOut.faults talk.old)
        → RunsOn (ended_by result) idles.new c (T.counts talk.new) f (T.LineOut.faults talk.new) }
    ensures stays { ¬ (ended_by result ≡ Some ConnEnd.Stopped) }
{
    match give_any(rt, shared, &mut desk.stream, talk, now, into, gate) {
        Given::Line => after_line(rt, alloc, shared, talk, now, desk, idles),
        Given::Rest { due } => {
            let ms = nap(&desk.stream, now, due, until);
            after_nothing(rt, alloc, shared, talk, now, desk, ms, idles)
        }
        Given::WriteFault => Step::Ended(ConnEnd::WriteFault),
        Given::NoMemory => Step::Ended(ConnEnd::NoMemory),
    }
}

/// Asks the clock; none where the connection is to end at that tick.
pub(crate) fn tick<K: Clock>(clock: &mut K, until: u64) -> Option<u64>
    ensures told { K.told clock.old ≤ K.told clock.new }
    ensures tick { IfSome result (λ now. now ≤ GREATEST_TICK) }
    ensures stopped { result ≡ None → until ≤ K.told clock.new }
{
    let now = clock.now();
    if now >= until { None } else { Some(now) }
}

/// Has rounds until the connection ends, and sleeps where there is nothing to do.
fn rounds<N: House, R: Wait, T: Talk + Wakes, K: Clock, G: Gate>(
    rt: &R,
    alloc: Global,
    shared: &Shared<N>,
    talk: &mut T,
    clock: &mut K,
    gate: &G,
    until: u64,
    desk: &mut Desk<N>,
    into: &mut LineBuf,
) -> ConnEnd
    requires seen { desk.old.seen ≡ [] }
    requires stream { desk.old.stream ≡ None }
    ensures spoke { Spoke N.deed result (T.log talk.old) (T.log talk.new)
        (known desk.new.view desk.new.seen) desk.new.stream }
    ensures rises { Rises (T.counts talk.old) (T.counts talk.new) (T.LineOut.faults talk.old) (T.LineOut.faults talk.new) }
    ensures cause { HasCause result (T.counts talk.old) (T.counts talk.new)
        (T.LineOut.faults talk.old) (T.LineOut.faults talk.new) }
    ensures stopped { result ≡ ConnEnd.Stopped → until ≤ K.told clock.new }
{
    let mut idles = 0;
    for _ in rt.forever() {
        let Some(now) = tick(clock, until) else {
            return ConnEnd::Stopped;
        };
        // A bell that rings from here on wakes the sleep.
        let rings = rings_of(&desk.stream);
        match round(
            rt, alloc, shared, talk, gate, now, until, desk, into, &mut idles,
        ) {
            Step::Goes => {}
            Step::Rests { ms } => sleep(rt, &desk.stream, rings, clock, ms),
            Step::Ended(end) => return end,
        }
    }
    unreachable!()
}

/// Has rounds, once there is the memory of one line.
fn all_rounds<N: House, R: Wait, T: Talk + Wakes, K: Clock, G: Gate>(
    rt: &R,
    alloc: Global,
    shared: &Shared<N>,
    talk: &mut T,
    clock: &mut K,
    gate: &G,
    until: u64,
    desk: &mut Desk<N>,
) -> ConnEnd
    requires seen { desk.old.seen ≡ [] }
    requires stream { desk.old.stream ≡ None }
    ensures spoke { Spoke N.deed result (T.log talk.old) (T.log talk.new)
        (known desk.new.view desk.new.seen) desk.new.stream }
    ensures cause { HasCause result (T.counts talk.old) (T.counts talk.new)
        (T.LineOut.faults talk.old) (T.LineOut.faults talk.new) }
    ensures stopped { result ≡ ConnEnd.Stopped → until ≤ K.told clock.new }
{
    let Ok(mut into) = LineBuf::new(alloc) else {
        return ConnEnd::NoMemory;
    };
    rounds(rt, alloc, shared, talk, clock, gate, until, desk, &mut into)
}

/// What was seen of the session of a connection's stream, where it has one.
fn told_by<N: House>(stream: Option<Running<N>>) -> Option<Testimony<N>>
    ensures told { result ≡ option_map (λ s. s.told) stream }
    ensures over { IfSome stream (λ s. HasBound s.epoch s.told.lines
        × (s.runs ≡ false → IsOver s.epoch s.told)) }
{
    match stream {
        Some(running) => Some(running.told),
        None => None,
    }
}

/// What a connection has right after its handshake.
pub(crate) fn desk_of<N: House, R: Wait>(rt: &R, alloc: Global, shared: &Shared<N>) -> Desk<N>
    ensures seen { result.seen ≡ [] }
    ensures stream { result.stream ≡ None }
{
    Desk {
        view: shared.view(rt),
        seen: Seen::new(alloc),
        stream: None,
        looked: None,
        calls: None,
    }
}

/// What came of a connection that ends. Its stream, where one goes on, is lost at this tick.
pub(crate) fn report<N: House, R: Wait>(
    rt: &R,
    shared: &Shared<N>,
    desk: Desk<N>,
    end: ConnEnd,
    now: u64,
) -> ConnReport<N>
    requires tick { now ≤ GREATEST_TICK }
    ensures end { result.end ≡ end }
    ensures known { known result.view result.seen ≡ known desk.view desk.seen }
    ensures told { (stream : Optional StreamState) × (result.told ≡ option_map (λ s. s.told) stream)
        × LeftSo desk.stream stream × IfSome stream (λ s. HasBound s.epoch s.told.lines × IsOver s.epoch s.told) }
{
    let Desk {
        view,
        seen,
        mut stream,
        ..
    } = desk;
    leave(rt, shared, &mut stream, now);
    ConnReport {
        end,
        view,
        seen,
        told: told_by(stream),
    }
}

/// Serves a WebSocket, after its handshake, to its end: answers its messages and gives the lines of its stream (TLCP 2.1,
/// WebSocket transport).
///
/// Before each look at the connection it asks the clock, and ends at the tick `until`, in ms, or a later one. A create
/// or a bind that is accepted begins the connection's stream, in place of the one before, which is lost. Neither side
/// starves the other: between two lines at most one message is answered, and between two messages a line is given,
/// where there is one. After a look that found no message, lines are given until the next ms before it looks again.
/// Where there is nothing to do it looks once more, lets go what was held back, and sleeps. Over a talk that can have the
/// session's bell called at messages it looks only where the bell was called since the last look, or the talk is behind;
/// and while a stream goes on over such a talk, it sleeps until the bell rings, a slot or the keep-alive is due, or `until`
/// comes; else it looks again every 10 ms. While no stream goes on, so many looks in a row that find no message as
/// [`MOST_IDLES`] end the connection. It takes the memory of one line, once, and that of one message and its answers.
///
/// Over a talk that tells its log, contracts say of each end what was answered and given: each message has an answer for
/// each of its requests, in order, and those to the last one are true of what was seen of sessions and of the register;
/// and the other lines that were put since a stream was opened are those that its session gave to it, all of them and in
/// order. That stream is over: it ended by its session's word, or it is lost.
pub fn serve_ws<N: House, R: Wait, T: Talk + Wakes, K: Clock, G: Gate>(
    rt: &R,
    alloc: Global,
    talk: &mut T,
    shared: &Shared<N>,
    clock: &mut K,
    gate: &G,
    until: u64,
) -> ConnReport<N>
    ensures spoke { (stream : Optional StreamState) × (result.told ≡ option_map (λ s. s.told) stream)
        × Spoke N.deed result.end (T.log talk.old) (T.log talk.new) (known result.view result.seen) stream
        × IfSome stream (λ s. HasBound s.epoch s.told.lines × IsOver s.epoch s.told) }
    ensures cause { HasCause result.end (T.counts talk.old) (T.counts talk.new)
        (T.LineOut.faults talk.old) (T.LineOut.faults talk.new) }
    ensures stopped { result.end ≡ ConnEnd.Stopped → until ≤ K.told clock.new }
{
    let mut desk = desk_of(rt, alloc, shared);
    let end = all_rounds(rt, alloc, shared, talk, clock, gate, until, &mut desk);
    talk.let_go();
    let now = clock.now();
    report(rt, shared, desk, end, now)
}
