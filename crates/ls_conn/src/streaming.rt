//! A stream from its first line to its end.
ghost use Rattle.std.specs.Prelude.{◌≡◌, ◌≤◌, ℕ, List, Some, IfOk, IfSome};
ghost use Rattle.std.specs.declared.option.Option.{Option as Optional};
ghost use Rattle.std.specs.Str.{IsUtf8};
ghost use Rattle.ls_outside.specs.Causes.{Rose};
ghost use Rattle.ls_record.specs.Turning.{loop_text};
ghost use Rattle.ls_value.specs.Values.{text_eq};
ghost use Rattle.ls_told.specs.Seen.{Testified, LawfulTold};
ghost use Rattle.ls_told.specs.Requests.{HasBound};
ghost use Rattle.ls_conn.specs.Streaming.{end_of, Streams, Streamed, GoesOn, PutsText, PutsNone};

use crate::report::{StreamEnd, StreamReport};
use ls_bell::Bell;
use ls_line::LineBuf;
use ls_outside::{Clock, Gate};
use ls_register::House;
use ls_shared::{Shared, Testimony, Turn};
use ls_talk::{Between, PutRefused, Wire};
use ls_value::{NoMemory, same_bytes};
use std::alloc::Global;
use std::str;
use std::sync::Wait;

/// How many ms a stream waits at most beside a clock that doesn't run by itself.
const PAUSE: u64 = 10;

/// After how many lines, at most, a stream looks at what else there is to do on its wire.
const MOST_LINES: u32 = 64;

/// How a stream goes: the lines since it last looked at what else there is to do, and the tick of its last line.
#[derive(Clone, Copy)]
struct Pace {
    lines: u32,
    last: u64,
}

/// Whether a line is LOOP.
fn is_loop(text: &[u8]) -> bool
    ensures { result ≡ text_eq text.now loop_text }
{
    same_bytes(text, b"LOOP,0")
}

/// Puts a line. Every line of a session is ASCII: a text that isn't even UTF-8 is given up like one for which there is
/// no memory.
fn put<W: Wire>(wire: &mut W, text: &[u8]) -> Option<StreamEnd>
    ensures puts { PutsText result (W.held wire.old) (W.held wire.new) text.now }
    ensures fault { result ≡ Some StreamEnd.WriteFault → Rose (W.LineOut.faults wire.old) (W.LineOut.faults wire.new) }
    ensures stays { ¬ (result ≡ Some StreamEnd.PeerLeft) }
    ensures faults { W.LineOut.faults wire.old ≤ W.LineOut.faults wire.new }
    ensures counts { W.counts wire.new ≡ W.counts wire.old }
    ensures lender { W.lender wire.new ≡ W.lender wire.old }
{
    if str::from_utf8(text).is_err() {
        return Some(StreamEnd::NoMemory);
    }
    match wire.put(text) {
        Ok(()) => {
            if is_loop(text) {
                Some(StreamEnd::Looped)
            } else {
                None
            }
        }
        Err(PutRefused::Failed) => Some(StreamEnd::WriteFault),
        Err(PutRefused::NoMemory) => Some(StreamEnd::NoMemory),
    }
}

/// Does what else there is to do on a wire.
fn look_up<W: Wire>(wire: &mut W, now: u64) -> Option<StreamEnd>
    ensures puts { PutsNone result (W.held wire.old) (W.held wire.new) }
    ensures left { result ≡ Some StreamEnd.PeerLeft → Rose (W.counts wire.old).leaves (W.counts wire.new).leaves }
    ensures fault { result ≡ Some StreamEnd.WriteFault → Rose (W.LineOut.faults wire.old) (W.LineOut.faults wire.new) }
    ensures faults { W.LineOut.faults wire.old ≤ W.LineOut.faults wire.new }
    ensures leaves { (W.counts wire.old).leaves ≤ (W.counts wire.new).leaves }
    ensures lender { W.lender wire.new ≡ W.lender wire.old }
{
    let faults = wire.put_faults();
    match wire.between(now) {
        Between::Left => Some(StreamEnd::PeerLeft),
        Between::Go => {
            if wire.put_faults() == faults {
                None
            } else {
                Some(StreamEnd::WriteFault)
            }
        }
    }
}

/// Puts a line that was given at this tick, and looks from time to time at what else there is to do.
fn give<W: Wire>(wire: &mut W, text: &[u8], now: u64, pace: &mut Pace) -> Option<StreamEnd>
    ensures puts { PutsText result (W.held wire.old) (W.held wire.new) text.now }
    ensures left { result ≡ Some StreamEnd.PeerLeft → Rose (W.counts wire.old).leaves (W.counts wire.new).leaves }
    ensures fault { result ≡ Some StreamEnd.WriteFault → Rose (W.LineOut.faults wire.old) (W.LineOut.faults wire.new) }
    ensures faults { W.LineOut.faults wire.old ≤ W.LineOut.faults wire.new }
    ensures leaves { (W.counts wire.old).leaves ≤ (W.counts wire.new).leaves }
    ensures lender { W.lender wire.new ≡ W.lender wire.old }
{
    let put = put(wire, text);
    if put.is_some() || pace.lines < MOST_LINES {
        pace.lines = pace.lines.saturating_add(1);
        pace.last = now;
        return put;
    }
    *pace = Pace {
        lines: 0,
        last: now,
    };
    look_up(wire, now)
}

/// Sleeps until the bell rings, but no longer than so many ms; or lets the clock wait, where it doesn't run by itself.
fn sleep<R: Wait, K: Clock>(rt: &R, bell: &Bell, rings: u64, clock: &mut K, ms: u64)
    ensures { K.told clock.old ≤ K.told clock.new }
{
    if clock.runs() {
        bell.wait(rt, rings, ms);
    } else {
        clock.wait(ms.min(PAUSE));
    }
}

/// How many ms a stream may sleep that has nothing to give before a tick: until then, or until its keep-alive is due.
fn nap(now: u64, due: u64, keepalive: u64, last: u64) -> u64 {
    let alive = last.saturating_add(keepalive).max(now.saturating_add(1));
    due.min(alive).saturating_sub(now)
}

/// How a stream ends by itself, where a turn says that it does.
fn end_of(turn: &Turn) -> Option<StreamEnd>
    ensures { result ≡ end_of turn.now }
{
    match turn {
        Turn::Ended { code } => Some(StreamEnd::Ended { code: *code }),
        Turn::Superseded { epoch } => Some(StreamEnd::Superseded { epoch: *epoch }),
        Turn::Unbound => Some(StreamEnd::Unbound),
        Turn::Spent => Some(StreamEnd::Spent),
        Turn::Send | Turn::Idle | Turn::NotDue { at: _ } | Turn::Ask(_) => None,
    }
}

/// The tick before which a turn that gave nothing has nothing to give, as far as it says so.
fn due_of(turn: &Turn) -> u64 {
    match turn {
        Turn::NotDue { at } => *at,
        _ => u64::MAX,
    }
}

/// Has the wire do what else there is to do, and sleeps until there may be something to give.
fn rest<N: House, R: Wait, W: Wire, K: Clock>(
    rt: &R,
    told: &Testimony<N>,
    wire: &mut W,
    clock: &mut K,
    now: u64,
    rings: u64,
    due: u64,
    pace: &mut Pace,
) -> Option<StreamEnd>
    ensures puts { PutsNone result (W.held wire.old) (W.held wire.new) }
    ensures left { result ≡ Some StreamEnd.PeerLeft → Rose (W.counts wire.old).leaves (W.counts wire.new).leaves }
    ensures fault { result ≡ Some StreamEnd.WriteFault → Rose (W.LineOut.faults wire.old) (W.LineOut.faults wire.new) }
    ensures faults { W.LineOut.faults wire.old ≤ W.LineOut.faults wire.new }
    ensures leaves { (W.counts wire.old).leaves ≤ (W.counts wire.new).leaves }
    ensures lender { W.lender wire.new ≡ W.lender wire.old }
    ensures later { K.told clock.old ≤ K.told clock.new }
{
    let looked = look_up(wire, now);
    if looked.is_none() {
        pace.lines = 0;
        let ms = nap(now, due, told.keepalive(), pace.last);
        sleep(rt, told.bell(), rings, clock, ms);
    }
    looked
}

/// Has a turn of the session at a tick, and does what it says: a line is put, or there is none, and the stream sleeps,
/// or it ends.
fn turn<N: House, R: Wait, W: Wire, K: Clock, G: Gate>(
    rt: &R,
    shared: &Shared<N>,
    session: u64,
    epoch: u64,
    told: &mut Testimony<N>,
    wire: &mut W,
    clock: &mut K,
    gate: &G,
    until: u64,
    into: &mut LineBuf,
    pace: &mut Pace,
) -> Option<StreamEnd>
    requires named { session ≡ told.old.number }
    requires bound { HasBound epoch told.old.lines }
    ensures goes { (old : Testified) (held : Optional (List ℕ)) → Streams epoch old told.old held (W.held wire.old)
        → GoesOn result epoch old told.new held (W.held wire.new) }
    ensures stopped { result ≡ Some StreamEnd.Stopped → until ≤ K.told clock.new }
    ensures left { result ≡ Some StreamEnd.PeerLeft → Rose (W.counts wire.old).leaves (W.counts wire.new).leaves }
    ensures fault { result ≡ Some StreamEnd.WriteFault → Rose (W.LineOut.faults wire.old) (W.LineOut.faults wire.new) }
    ensures faults { W.LineOut.faults wire.old ≤ W.LineOut.faults wire.new }
    ensures leaves { (W.counts wire.old).leaves ≤ (W.counts wire.new).leaves }
    ensures lender { W.lender wire.new ≡ W.lender wire.old }
{
    let now = clock.now();
    if now >= until {
        return Some(StreamEnd::Stopped);
    }
    let rings = told.bell().rings();
    let Ok(turn) = shared.take(rt, session, epoch, now, told, into, gate) else {
        return Some(StreamEnd::NoMemory);
    };
    if let Some(end) = end_of(&turn) {
        return Some(end);
    }
    match turn {
        Turn::Send => give(wire, into.text(), now, pace),
        quiet => {
            let due = due_of(&quiet).min(until);
            rest(rt, told, wire, clock, now, rings, due, pace)
        }
    }
}

/// Gives the stream of an epoch of a session, of which `seen` is, with the Bound of that epoch: takes the
/// lines that there are to give, and puts each on the wire as it is taken, until the stream ends (TLCP 2.1, stream
/// connection).
///
/// Before each line it asks the clock, and ends at the tick `until`, in ms, or a later one. Where there is nothing to
/// give, it has the wire do what else there is to do, and sleeps until the session's bell rings, a slot is due, or the
/// keep-alive is. Beside a clock in memory, which doesn't run by itself, it lets the clock wait 10 ms or less in place
/// of that. It takes the memory of one line, once.
///
/// Contracts say which lines were put: the texts that the session's turns gave to this caller, all of them and in
/// order, each from what was the first thing to give. Of these texts nothing is left out, and none is added.
pub fn stream<N: House, R: Wait, W: Wire, K: Clock, G: Gate>(
    rt: &R,
    alloc: Global,
    shared: &Shared<N>,
    session: u64,
    epoch: u64,
    seen: Testimony<N>,
    wire: &mut W,
    clock: &mut K,
    gate: &G,
    until: u64,
) -> StreamReport<N>
    requires named { session ≡ seen.number }
    requires bound { HasBound epoch seen.lines }
    ensures streamed { Streamed result.end epoch seen result.told (W.held wire.old) (W.held wire.new) }
    ensures lawful { LawfulTold N.deed.config result.told }
    ensures stopped { result.end ≡ StreamEnd.Stopped → until ≤ K.told clock.new }
    ensures left { result.end ≡ StreamEnd.PeerLeft → Rose (W.counts wire.old).leaves (W.counts wire.new).leaves }
    ensures fault { result.end ≡ StreamEnd.WriteFault
        → Rose (W.LineOut.faults wire.old) (W.LineOut.faults wire.new) }
    ensures faults { W.LineOut.faults wire.old ≤ W.LineOut.faults wire.new }
    ensures lender { W.lender wire.new ≡ W.lender wire.old }
{
    let mut told = seen;
    told.vouch();
    let Ok(mut into) = LineBuf::new(alloc) else {
        return StreamReport {
            end: StreamEnd::NoMemory,
            told,
        };
    };
    let end = turns(
        rt, shared, session, epoch, &mut told, wire, clock, gate, until, &mut into,
    );
    told.vouch();
    StreamReport { end, told }
}

/// Has turns until the stream ends.
fn turns<N: House, R: Wait, W: Wire, K: Clock, G: Gate>(
    rt: &R,
    shared: &Shared<N>,
    session: u64,
    epoch: u64,
    told: &mut Testimony<N>,
    wire: &mut W,
    clock: &mut K,
    gate: &G,
    until: u64,
    into: &mut LineBuf,
) -> StreamEnd
    requires named { session ≡ told.old.number }
    requires bound { HasBound epoch told.old.lines }
    ensures streamed { Streamed result epoch told.old told.new (W.held wire.old) (W.held wire.new) }
    ensures stopped { result ≡ StreamEnd.Stopped → until ≤ K.told clock.new }
    ensures left { result ≡ StreamEnd.PeerLeft → Rose (W.counts wire.old).leaves (W.counts wire.new).leaves }
    ensures fault { result ≡ StreamEnd.WriteFault → Rose (W.LineOut.faults wire.old) (W.LineOut.faults wire.new) }
    ensures faults { W.LineOut.faults wire.old ≤ W.LineOut.faults wire.new }
    ensures lender { W.lender wire.new ≡ W.lender wire.old }
{
    let mut pace = Pace {
        lines: 0,
        last: clock.now(),
    };
    for _ in rt.forever() {
        let turned = turn(
            rt, shared, session, epoch, told, wire, clock, gate, until, into, &mut pace,
        );
        if let Some(end) = turned {
            return end;
        }
    }
    unreachable!()
}
