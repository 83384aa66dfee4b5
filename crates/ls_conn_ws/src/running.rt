//! The stream of a connection.
ghost use Rattle.std.specs.Prelude.{◌≡◌, ◌≤◌, Ok, Some, IfOk, IfSome, true, false};
ghost use mathlib.Core.List.{IsPrefix};
ghost use Rattle.ls_value.specs.Values.{text_eq};
ghost use Rattle.ls_value.specs.declared.limits.TheConstants.{GREATEST_TICK};
ghost use Rattle.ls_record.specs.Turning.{loop_text};
ghost use Rattle.ls_talk.specs.Lines.{HasPutCause, LogsPut};
ghost use Rattle.ls_told.specs.Requests.{HasBound};
ghost use Rattle.ls_session.specs.declared.session.Turn.TheVariants as turn_is;
ghost use Rattle.ls_conn.specs.Lasting.{IsLostAt};
ghost use Rattle.ls_conn_ws.specs.Streams.{GrewFrom};
ghost use Rattle.ls_conn_ws.specs.Giving.{CausesGiven, GaveLine, GivesOn, GivesSo, LeftSo, MayGive, PutsSo};
ghost use Rattle.ls_conn_ws.specs.Losing.{IsOver, LosesRunning, runs_after};

use ls_conn::{Shared, Testimony, Turn};
use ls_line::LineBuf;
use ls_outside::Gate;
use ls_register::House;
use ls_talk::{PutRefused, Talk};
use ls_value::{NoMemory, same_bytes};
use ls_wake::Wakes;
use std::marker::Model;
use std::str;
use std::sync::Wait;

/// How many ms at most pass before it is looked again for a message, where nothing wakes who waits for one.
pub(crate) const PAUSE: u64 = 10;

/// The stream that a connection has, or had last.
#[derive(Drop)]
pub(crate) struct Running<N: House> {
    /// What was seen of its session, and that its lines were given.
    pub(crate) told: Testimony<N>,

    pub(crate) epoch: u64,

    /// Whether it goes on.
    pub(crate) runs: bool,

    /// Whether the session's bell is called where a message comes.
    pub(crate) wakes: bool,

    /// The tick of its last line, or at which it began.
    pub(crate) last: u64,
}

impl<N: House> Model for Running<N> {
    ghost use Rattle.std.specs.Prelude.{◌≡◌, false};
    ghost use Rattle.ls_told.specs.Requests.{HasBound};
    ghost use Rattle.ls_conn_ws.specs.Streams.{StreamState};
    ghost use Rattle.ls_conn_ws.specs.Losing.{IsOver};

    ghost Value = { StreamState };

    ghost view = { λ r. record { told = r.told; epoch = r.epoch; runs = r.runs } };

    ghost invariant = { λ r. HasBound r.epoch r.told.lines × (r.runs ≡ false → IsOver r.epoch r.told) };
}

/// What a turn of a stream came to.
#[derive(Clone, Copy, Debug, PartialEq, Eq)]
pub(crate) enum Given {
    /// A line was put.
    Line,

    /// There is nothing to give before this tick, or the stream is over.
    Rest { due: u64 },

    /// The put of a line failed.
    WriteFault,

    /// Memory was refused.
    NoMemory,
}

/// Puts a line. Every line of a session is ASCII: a text that isn't even UTF-8 is given up like one for which there is
/// no memory.
#[tactic(auto, using(crate::proofs::Logging::logs_nothing))]
pub(crate) fn put<T: Talk>(talk: &mut T, text: &[u8]) -> Result<(), PutRefused>
    ensures log { LogsPut (T.log talk.old) (T.log talk.new) result text.now }
    ensures cause { HasPutCause result (T.LineOut.faults talk.old) (T.LineOut.faults talk.new) }
    ensures counts { T.counts talk.new ≡ T.counts talk.old }
{
    if str::from_utf8(text).is_err() {
        return Err(PutRefused::NoMemory);
    }
    talk.put(text)
}

/// Has a turn of a session, for the stream of an epoch.
fn take<N: House, R: Wait, G: Gate>(
    rt: &R,
    shared: &Shared<N>,
    told: &mut Testimony<N>,
    epoch: u64,
    now: u64,
    into: &mut LineBuf,
    gate: &G,
) -> Result<Turn, NoMemory>
    requires tick { now ≤ GREATEST_TICK }
    requires bound { HasBound epoch told.old.lines }
    ensures bound { HasBound epoch told.new.lines }
    ensures number { told.new.number ≡ told.old.number }
    ensures lines { IsPrefix told.old.lines told.new.lines }
    ensures sent { IfOk result (λ turn. turn ≡ turn_is.Send → GaveLine epoch told.old told.new into.new) }
    ensures rest { (result ≡ Ok turn_is.Send → ⊥) → told.new.mine ≡ told.old.mine }
    ensures over { IfOk result (λ turn. runs_after turn ≡ false → IsOver epoch told.new) }
{
    let session = told.session();
    shared.take(rt, session, epoch, now, told, into, gate)
}

/// Whether a line is LOOP.
fn is_loop(text: &[u8]) -> bool
    ensures { result ≡ text_eq text.now loop_text }
{
    same_bytes(text, b"LOOP,0")
}

/// Puts the line that a turn gave.
fn put_given<T: Talk>(talk: &mut T, text: &[u8]) -> Given
    ensures log { PutsSo result (T.log talk.old) (T.log talk.new) text.now }
    ensures cause { CausesGiven result (T.LineOut.faults talk.old) (T.LineOut.faults talk.new) }
    ensures counts { T.counts talk.new ≡ T.counts talk.old }
{
    match put(talk, text) {
        Ok(()) => Given::Line,
        Err(PutRefused::Failed) => Given::WriteFault,
        Err(PutRefused::NoMemory) => Given::NoMemory,
    }
}

/// What a turn that gave no line says: until when there is none, and whether the stream goes on. One whose session is
/// spent does until the connection ends, which loses it.
fn rest_of(turn: &Turn) -> (u64, bool)
    ensures { result.1 ≡ runs_after turn.now }
{
    match turn {
        Turn::NotDue { at } => (*at, true),
        Turn::Send | Turn::Idle | Turn::Spent | Turn::Ask(_) => (u64::MAX, true),
        Turn::Ended { code: _ } | Turn::Superseded { epoch: _ } | Turn::Unbound => {
            (u64::MAX, false)
        }
    }
}

/// Has a turn of a session, for the stream of an epoch, and puts the line that is given, if one is. Answers whether the
/// stream goes on, too.
#[tactic(auto, using(crate::proofs::Logging::logs_nothing))]
fn give_line<N: House, R: Wait, T: Talk, G: Gate>(
    rt: &R,
    shared: &Shared<N>,
    told: &mut Testimony<N>,
    epoch: u64,
    talk: &mut T,
    now: u64,
    into: &mut LineBuf,
    gate: &G,
) -> (Given, bool)
    requires tick { now ≤ GREATEST_TICK }
    requires bound { HasBound epoch told.old.lines }
    ensures bound { HasBound epoch told.new.lines }
    ensures number { told.new.number ≡ told.old.number }
    ensures lines { IsPrefix told.old.lines told.new.lines }
    ensures gives { GivesOn result.0 epoch told.old told.new (T.log talk.old) (T.log talk.new) }
    ensures over { result.1 ≡ false → IsOver epoch told.new }
    ensures cause { CausesGiven result.0 (T.LineOut.faults talk.old) (T.LineOut.faults talk.new) }
    ensures counts { T.counts talk.new ≡ T.counts talk.old }
{
    let Ok(turn) = take(rt, shared, told, epoch, now, into, gate) else {
        return (Given::NoMemory, true);
    };
    match turn {
        Turn::Send => {
            let runs = !is_loop(into.text());
            (put_given(talk, into.text()), runs)
        }
        other => {
            let (due, runs) = rest_of(&other);
            (Given::Rest { due }, runs)
        }
    }
}

/// A stream is lost: no line is given on it any more.
pub(crate) fn lose<N: House, R: Wait>(
    rt: &R,
    shared: &Shared<N>,
    running: &mut Running<N>,
    now: u64,
)
    requires tick { now ≤ GREATEST_TICK }
    ensures left { LeftSo (Some running.old) (Some running.new) }
    ensures lost { IsLostAt running.old.epoch now running.old.told running.new.told }
    ensures over { running.new.runs ≡ false }
{
    let epoch = running.epoch;
    shared.lose(rt, &mut running.told, epoch, now);
    running.runs = false;
}

/// The tick of a stream's last line, after a turn at a tick.
fn last_after(given: Given, last: u64, now: u64) -> u64 {
    match given {
        Given::Line => now,
        Given::Rest { due: _ } | Given::WriteFault | Given::NoMemory => last,
    }
}

/// Has a turn of a stream at a tick, and puts the line that is given, if one is.
pub(crate) fn give<N: House, R: Wait, T: Talk, G: Gate>(
    rt: &R,
    shared: &Shared<N>,
    running: &mut Running<N>,
    talk: &mut T,
    now: u64,
    into: &mut LineBuf,
    gate: &G,
) -> Given
    requires tick { now ≤ GREATEST_TICK }
    ensures gives { GivesSo result running.old running.new (T.log talk.old) (T.log talk.new) }
    ensures grew { GrewFrom running.old running.new }
    ensures cause { CausesGiven result (T.LineOut.faults talk.old) (T.LineOut.faults talk.new) }
    ensures counts { T.counts talk.new ≡ T.counts talk.old }
{
    let epoch = running.epoch;
    let (given, runs) = give_line(rt, shared, &mut running.told, epoch, talk, now, into, gate);
    running.runs = runs;
    running.last = last_after(given, running.last, now);
    given
}

/// The same of a connection that may have no stream, or one that is over.
#[tactic(auto, using(crate::proofs::Logging::logs_nothing))]
pub(crate) fn give_any<N: House, R: Wait, T: Talk, G: Gate>(
    rt: &R,
    shared: &Shared<N>,
    stream: &mut Option<Running<N>>,
    talk: &mut T,
    now: u64,
    into: &mut LineBuf,
    gate: &G,
) -> Given
    requires tick { now ≤ GREATEST_TICK }
    ensures gives { MayGive result stream.old stream.new (T.log talk.old) (T.log talk.new) }
    ensures cause { CausesGiven result (T.LineOut.faults talk.old) (T.LineOut.faults talk.new) }
    ensures counts { T.counts talk.new ≡ T.counts talk.old }
{
    match stream {
        Some(running) => {
            if running.runs {
                give(rt, shared, running, talk, now, into, gate)
            } else {
                Given::Rest { due: u64::MAX }
            }
        }
        None => Given::Rest { due: u64::MAX },
    }
}

/// A stream is left, where one goes on: it is lost.
pub(crate) fn leave<N: House, R: Wait>(
    rt: &R,
    shared: &Shared<N>,
    stream: &mut Option<Running<N>>,
    now: u64,
)
    requires tick { now ≤ GREATEST_TICK }
    ensures left { LeftSo stream.old stream.new }
    ensures lost { LosesRunning now stream.old stream.new }
    ensures over { IfSome stream.new (λ s. s.runs ≡ false) }
{
    if let Some(running) = stream {
        if running.runs {
            lose(rt, shared, running, now);
        }
    }
}

/// A stream begins, in place of the one before, which is left. From now on its session's bell is called where a message
/// comes, if the talk can have that.
pub(crate) fn begin<N: House, R: Wait, T: Wakes>(
    rt: &R,
    shared: &Shared<N>,
    talk: &T,
    stream: &mut Option<Running<N>>,
    told: Testimony<N>,
    epoch: u64,
    now: u64,
)
    requires tick { now ≤ GREATEST_TICK }
    requires bound { HasBound epoch told.lines }
    ensures { stream.new ≡ Some (record { told = told; epoch = epoch; runs = true }) }
{
    leave(rt, shared, stream, now);
    let wakes = talk.wake_with(told.bell());
    *stream = Some(Running {
        told,
        epoch,
        runs: true,
        wakes,
        last: now,
    });
}

/// The connection's session: that of its last stream.
pub(crate) fn own_of<N: House>(stream: &Option<Running<N>>) -> Option<u64> {
    match stream {
        Some(running) => Some(running.told.session()),
        None => None,
    }
}

/// How often the bell of the stream's session was rung.
pub(crate) fn rings_of<N: House>(stream: &Option<Running<N>>) -> u64 {
    match stream {
        Some(running) => running.told.bell().rings(),
        None => 0,
    }
}

/// How often the bell of the stream's session was called, where it is called at a message.
pub(crate) fn calls_of<N: House>(stream: &Option<Running<N>>) -> Option<u64> {
    match stream {
        Some(running) => {
            if running.runs && running.wakes {
                Some(running.told.bell().calls())
            } else {
                None
            }
        }
        None => None,
    }
}

/// How many ms a connection may sleep whose stream has nothing to give before a tick: until then, until its keep-alive is
/// due, or until the connection is to end; and 10 ms at most, where nothing wakes it at a message.
pub(crate) fn nap<N: House>(stream: &Option<Running<N>>, now: u64, due: u64, until: u64) -> u64 {
    let Some(running) = stream else {
        return PAUSE;
    };
    let alive = running.last.saturating_add(running.told.keepalive());
    let probe = if alive > now {
        alive
    } else {
        now.saturating_add(PAUSE)
    };
    let ms = due.min(until).min(probe).saturating_sub(now);
    if running.wakes { ms } else { ms.min(PAUSE) }
}
