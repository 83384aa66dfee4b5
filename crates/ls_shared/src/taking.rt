//! What the sessions of a server give.
ghost use Rattle.std.specs.Prelude.{◌≡◌, ◌≤◌, ◌<◌, ℕ, List, None, IfOk, IfSome, IsTrue, IsFalse, OnOk, OnErr, length};
ghost use mathlib.Core.List.{IsPrefix};
ghost use Rattle.ls_value.specs.declared.limits.TheConstants.{GREATEST_TICK, GREATEST_NUMBER};
ghost use Rattle.ls_record.specs.Records.{Alive};
ghost use Rattle.ls_session.specs.Record.{Record, Question, passed_over};
ghost use Rattle.ls_told.specs.Heard.{heard};
ghost use Rattle.ls_told.specs.Seen.{Grows, LawfulTold, SeesMore, Watched, seen_of};
ghost use Rattle.ls_told.specs.Requests.{HasBound};
ghost use Rattle.ls_live_session.specs.Lives.{Lives, LivesAs, HasNothing};
ghost use Rattle.ls_live_session.specs.Giving.{StaysStill};
ghost use Rattle.ls_live_session.specs.Taking.{IsAskedFrom};
ghost use Rattle.ls_shared.specs.Answers.{SeesOn, Turns};
ghost use Rattle.ls_shared.specs.Asking.{AsksRound, GoesRound};
ghost use Rattle.ls_shared.specs.Taking.{EndsQuiet, EndsTurn};

use crate::shared::Shared;
use crate::testimony::Testimony;
use ls_line::LineBuf;
use ls_live_session::{LiveSession, SessionParts, Sight};
use ls_outside::{Gate, Point};
use ls_register::{House, wait_for_good};
use ls_seated::Seated;
use ls_session::{Ask, Turn};
use ls_value::NoMemory;
use std::sync::Wait;

/// How many lines at most are numbered under one hold of an item's lock, beside the first.
const MOST_AHEAD: u32 = 32;

impl<N: House> Shared<N> {
    /// A turn of the session of which `seen` is, at a tick, in ms, of at most [`GREATEST_TICK`](ls_value::GREATEST_TICK),
    /// for the stream of an epoch, of which `seen` has the Bound: at most one line is given, and `into` holds it. Each
    /// slot that is asked has first what its item has. Of an item that has nothing new since its slot had nothing to
    /// tell, the lock isn't taken. `Idle` and `NotDue` come where no slot has a line by all that `seen` had of its item,
    /// and more; `at` is the first tick, in ms, at which something that is pending is due. Where it is so and the last
    /// line was given on this stream as long ago as the keep-alive, or longer, PROBE is given, and else it isn't. The turn
    /// is never a question. `seen` then
    /// has what stands under the session's lock. After `NoMemory` slots may have moved past cuts that make no line. The
    /// gate is passed while the session's lock is held. The call may wait.
    pub fn take<R: Wait, G: Gate>(
        &self,
        rt: &R,
        session: u64,
        epoch: u64,
        now: u64,
        seen: &mut Testimony<N>,
        into: &mut LineBuf,
        gate: &G,
    ) -> Result<Turn, NoMemory>
        requires tick { now ≤ GREATEST_TICK }
        requires named { session ≡ seen.old.number }
        requires bound { HasBound epoch seen.old.lines }
        ensures grows { OnOk result (Grows seen.old seen.new) }
        ensures turn { IfOk result (Turns N.deed.config epoch now seen.old seen.new into.new) }
        ensures memory { OnErr result (SeesOn seen.old seen.new × (seen.new.mine ≡ seen.old.mine)) }
        ensures lawful { LawfulTold N.deed.config seen.new }
    {
        let Testimony { held, sight } = seen;
        let mut guard = held.lock(rt);
        gate.pass(Point::Turning { session });
        let Some(live) = guard.take() else {
            wait_for_good(rt);
            unreachable!()
        };
        let (live, turn) = self.take_in(rt, live, sight, epoch, now, into);
        self.note_loss(&live);
        sight.vouch();
        *guard = Some(live);
        turn
    }

    /// A turn of a session of which a caller has seen something.
    fn take_in<R: Wait>(
        &self,
        rt: &R,
        live: LiveSession<N>,
        sight: &mut Sight<N>,
        epoch: u64,
        now: u64,
        into: &mut LineBuf,
    ) -> (LiveSession<N>, Result<Turn, NoMemory>)
        requires tick { now ≤ GREATEST_TICK }
        requires bound { HasBound epoch sight.old.lines }
        ensures grows { OnOk result.1 (Grows sight.old sight.new) }
        ensures turn { IfOk result.1 (Turns N.deed.config epoch now sight.old sight.new into.new) }
        ensures memory { OnErr result.1 (SeesOn sight.old sight.new × (sight.new.mine ≡ sight.old.mine)) }
    {
        let mut live = live;
        let Ok(()) = self.reach(rt, &mut live, sight) else {
            return (live, Err(NoMemory));
        };
        sight.vouch();
        let mut parts = live.into_parts();
        let turn = self.turns(rt, &mut *parts, epoch, now, into);
        let mut live = LiveSession::of_parts(parts);
        let Ok(()) = self.reach(rt, &mut live, sight) else {
            return (live, Err(NoMemory));
        };
        let Ok(ended) = turn else {
            return (live, Err(NoMemory));
        };
        match ended {
            Turn::Send => {
                sight.own(live.entries() - 1);
                (live, Ok(Turn::Send))
            }
            ended => (live, Ok(ended)),
        }
    }

    /// A turn of a session in parts: its round is asked from the beginning, until there is a line, or nothing.
    fn turns<R: Wait>(
        &self,
        rt: &R,
        parts: &mut SessionParts<N>,
        epoch: u64,
        now: u64,
        into: &mut LineBuf,
    ) -> Result<Turn, NoMemory>
        requires tick { now ≤ GREATEST_TICK }
        requires bound { HasBound epoch parts.old.history.list }
        requires lives { Lives N.deed.config parts.old.number parts.old.history.list parts.old.watches.items
            parts.old.subs.items parts.old.session }
        ensures rest { (parts.new.number ≡ parts.old.number) × (parts.new.place ≡ parts.old.place)
            × (parts.new.history.table ≡ parts.old.history.table) }
        ensures lives { Lives N.deed.config parts.new.number parts.new.history.list parts.new.watches.items
            parts.new.subs.items parts.new.session }
        ensures items { SeesMore parts.old.watches.items parts.new.watches.items }
        ensures begins { IsPrefix parts.old.history.list parts.new.history.list }
        ensures turn { IfOk result (EndsTurn N.deed.config parts.old.number epoch now parts.old.watches.items
            parts.old.history.list parts.new.history.list parts.new.watches.items into.new) }
    {
        begin_round(parts, now, into);
        self.steps(rt, parts, epoch, now, into)
    }

    /// The steps of a turn, up to the one that ends it.
    fn steps<R: Wait>(
        &self,
        rt: &R,
        parts: &mut SessionParts<N>,
        epoch: u64,
        now: u64,
        into: &mut LineBuf,
    ) -> Result<Turn, NoMemory>
        requires tick { now ≤ GREATEST_TICK }
        requires lives { Lives N.deed.config parts.old.number parts.old.history.list parts.old.watches.items
            parts.old.subs.items parts.old.session }
        requires goes { GoesRound N.deed.config parts.old.number parts.old.history.list parts.old.watches.items
            parts.old.watches.items parts.old.subs.items parts.old.session }
        ensures rest { (parts.new.number ≡ parts.old.number) × (parts.new.place ≡ parts.old.place)
            × (parts.new.history.table ≡ parts.old.history.table) }
        ensures lives { Lives N.deed.config parts.new.number parts.new.history.list parts.new.watches.items
            parts.new.subs.items parts.new.session }
        ensures items { SeesMore parts.old.watches.items parts.new.watches.items }
        ensures begins { IsPrefix parts.old.history.list parts.new.history.list }
        ensures turn { IfOk result (EndsTurn N.deed.config parts.old.number epoch now parts.old.watches.items
            parts.old.history.list parts.new.history.list parts.new.watches.items into.new) }
    {
        for _ in rt.forever() {
            match self.step(rt, parts, epoch, now, into)? {
                Some(turn) => return Ok(turn),
                None => {}
            }
        }
        unreachable!()
    }

    /// One step of a turn: it ends, or a question is asked and answered.
    fn step<R: Wait>(
        &self,
        rt: &R,
        parts: &mut SessionParts<N>,
        epoch: u64,
        now: u64,
        into: &mut LineBuf,
    ) -> Result<Option<Turn>, NoMemory>
        requires tick { now ≤ GREATEST_TICK }
        requires lives { Lives N.deed.config parts.old.number parts.old.history.list parts.old.watches.items
            parts.old.subs.items parts.old.session }
        ensures rest { (parts.new.number ≡ parts.old.number) × (parts.new.place ≡ parts.old.place)
            × (parts.new.history.table ≡ parts.old.history.table) }
        ensures lives { Lives N.deed.config parts.new.number parts.new.history.list parts.new.watches.items
            parts.new.subs.items parts.new.session }
        ensures items { SeesMore parts.old.watches.items parts.new.watches.items }
        ensures begins { IsPrefix parts.old.history.list parts.new.history.list }
        ensures goes { IfOk result (λ ended. ended ≡ None → (held : List Watched) → GoesRound N.deed.config parts.old.number
            parts.old.history.list held parts.old.watches.items parts.old.subs.items parts.old.session
            → GoesRound N.deed.config parts.new.number parts.new.history.list held parts.new.watches.items
            parts.new.subs.items parts.new.session) }
        ensures turn { IfOk result (λ ended. IfSome ended (λ t. (held : List Watched) → GoesRound N.deed.config
            parts.old.number parts.old.history.list held parts.old.watches.items parts.old.subs.items parts.old.session
            → EndsTurn N.deed.config parts.old.number epoch now held parts.old.history.list parts.new.history.list
            parts.new.watches.items into.new t)) }
    {
        match parts.give(epoch, now, into) {
            Turn::Ask(ask) => {
                self.ask(rt, parts, ask, now)?;
                Ok(None)
            }
            Turn::Idle => Ok(Some(probed(parts, epoch, now, into, Turn::Idle))),
            Turn::NotDue { at } => Ok(Some(probed(parts, epoch, now, into, Turn::NotDue { at }))),
            turn => Ok(Some(turn)),
        }
    }

    /// Answers a session's question by what its slot has to tell. Where the slot had nothing and its item has nothing new,
    /// that is seen without the item's lock.
    fn ask<R: Wait>(
        &self,
        rt: &R,
        parts: &mut SessionParts<N>,
        ask: Ask,
        now: u64,
    ) -> Result<(), NoMemory>
        requires tick { now ≤ GREATEST_TICK }
        requires room { length parts.old.history.list < GREATEST_NUMBER }
        requires alive { (heard parts.old.number parts.old.history.list).life ≡ Alive }
        requires asked { (r : Record) × (q : Question) × IsAskedFrom N.deed.config parts.old.number parts.old.history.list parts.old.watches.items
            parts.old.subs.items parts.old.session r q ask now }
        ensures rest { (parts.new.number ≡ parts.old.number) × (parts.new.place ≡ parts.old.place)
            × (parts.new.history.table ≡ parts.old.history.table) }
        ensures lives { Lives N.deed.config parts.new.number parts.new.history.list parts.new.watches.items
            parts.new.subs.items parts.new.session }
        ensures items { SeesMore parts.old.watches.items parts.new.watches.items }
        ensures begins { IsPrefix parts.old.history.list parts.new.history.list }
        ensures goes { OnOk result ((held : List Watched) → AsksRound N.deed.config parts.old.number parts.old.history.list held
            parts.old.watches.items parts.old.subs.items parts.old.session ask now
            → GoesRound N.deed.config parts.new.number parts.new.history.list held parts.new.watches.items
            parts.new.subs.items parts.new.session) }
    {
        if rests(parts, ask) {
            return Ok(());
        }
        self.ask_item(rt, parts, ask, now)
    }

    /// Asks the slot of a session's question what it has to tell, under its item's lock, and answers the question. After a
    /// line the next slots are asked under the same lock, as long as they are of this item and have lines: a few lines are
    /// numbered, which the next turns give.
    fn ask_item<R: Wait>(
        &self,
        rt: &R,
        parts: &mut SessionParts<N>,
        ask: Ask,
        now: u64,
    ) -> Result<(), NoMemory>
        requires tick { now ≤ GREATEST_TICK }
        requires room { length parts.old.history.list < GREATEST_NUMBER }
        requires alive { (heard parts.old.number parts.old.history.list).life ≡ Alive }
        requires asked { (r : Record) × (q : Question) × IsAskedFrom N.deed.config parts.old.number parts.old.history.list parts.old.watches.items
            parts.old.subs.items parts.old.session r q ask now }
        ensures rest { (parts.new.number ≡ parts.old.number) × (parts.new.place ≡ parts.old.place)
            × (parts.new.history.table ≡ parts.old.history.table) }
        ensures lives { Lives N.deed.config parts.new.number parts.new.history.list parts.new.watches.items
            parts.new.subs.items parts.new.session }
        ensures items { SeesMore parts.old.watches.items parts.new.watches.items }
        ensures begins { IsPrefix parts.old.history.list parts.new.history.list }
        ensures goes { OnOk result ((held : List Watched) → AsksRound N.deed.config parts.old.number parts.old.history.list held
            parts.old.watches.items parts.old.subs.items parts.old.session ask now
            → GoesRound N.deed.config parts.new.number parts.new.history.list held parts.new.watches.items
            parts.new.subs.items parts.new.session) }
    {
        let Some(lock) = self.items.get(ask.slot.item as usize) else {
            wait_for_good(rt);
            unreachable!()
        };
        let mut item = lock.lock(rt);
        let told = self.ask_held(rt, parts, &mut item, ask, now)?;
        if !told {
            return Ok(());
        }
        self.ask_more(rt, parts, &mut item, ask.slot.item, now);
        Ok(())
    }

    /// Asks the slot of a session's question what it has to tell, of an item whose lock is held, and answers the question;
    /// whether a line was numbered. Where the item doesn't have the slot, it waits for good. After `NoMemory` the slot may
    /// have got events.
    fn ask_held<R: Wait>(
        &self,
        rt: &R,
        parts: &mut SessionParts<N>,
        item: &mut Seated<N>,
        ask: Ask,
        now: u64,
    ) -> Result<bool, NoMemory>
        requires tick { now ≤ GREATEST_TICK }
        requires room { length parts.old.history.list < GREATEST_NUMBER }
        requires alive { (heard parts.old.number parts.old.history.list).life ≡ Alive }
        requires asked { (r : Record) × (q : Question) × IsAskedFrom N.deed.config parts.old.number parts.old.history.list parts.old.watches.items
            parts.old.subs.items parts.old.session r q ask now }
        ensures rest { (parts.new.number ≡ parts.old.number) × (parts.new.place ≡ parts.old.place)
            × (parts.new.history.table ≡ parts.old.history.table) }
        ensures lives { Lives N.deed.config parts.new.number parts.new.history.list parts.new.watches.items
            parts.new.subs.items parts.new.session }
        ensures items { SeesMore parts.old.watches.items parts.new.watches.items }
        ensures begins { IsPrefix parts.old.history.list parts.new.history.list }
        ensures goes { (held : List Watched) → AsksRound N.deed.config parts.old.number parts.old.history.list held
            parts.old.watches.items parts.old.subs.items parts.old.session ask now
            → GoesRound N.deed.config parts.new.number parts.new.history.list held parts.new.watches.items
            parts.new.subs.items parts.new.session }
    {
        let Some(found) = parts.find(&self.register, item, ask.slot) else {
            wait_for_good(rt);
            unreachable!()
        };
        match parts.take_from(item, ask, found, now) {
            Ok(told) => Ok(told),
            Err(NoMemory) => Err(NoMemory),
        }
    }

    /// Slots of an item whose lock is held are asked one after another, as the round has them, while each has a line. Where
    /// memory is refused for a line, it is asked for anew by a later turn.
    fn ask_more<R: Wait>(
        &self,
        rt: &R,
        parts: &mut SessionParts<N>,
        item: &mut Seated<N>,
        number: u32,
        now: u64,
    )
        requires tick { now ≤ GREATEST_TICK }
        requires lives { Lives N.deed.config parts.old.number parts.old.history.list parts.old.watches.items
            parts.old.subs.items parts.old.session }
        ensures rest { (parts.new.number ≡ parts.old.number) × (parts.new.place ≡ parts.old.place)
            × (parts.new.history.table ≡ parts.old.history.table) }
        ensures lives { Lives N.deed.config parts.new.number parts.new.history.list parts.new.watches.items
            parts.new.subs.items parts.new.session }
        ensures items { SeesMore parts.old.watches.items parts.new.watches.items }
        ensures begins { IsPrefix parts.old.history.list parts.new.history.list }
        ensures goes { (held : List Watched) → GoesRound N.deed.config parts.old.number parts.old.history.list held
            parts.old.watches.items parts.old.subs.items parts.old.session
            → GoesRound N.deed.config parts.new.number parts.new.history.list held parts.new.watches.items
            parts.new.subs.items parts.new.session }
    {
        for _ in 0..MOST_AHEAD {
            if !self.ask_ahead(rt, parts, item, number, now) {
                return;
            }
        }
    }

    /// The next slot of the round is asked, where it is of an item whose lock is held; whether a line was numbered.
    fn ask_ahead<R: Wait>(
        &self,
        rt: &R,
        parts: &mut SessionParts<N>,
        item: &mut Seated<N>,
        number: u32,
        now: u64,
    ) -> bool
        requires tick { now ≤ GREATEST_TICK }
        requires lives { Lives N.deed.config parts.old.number parts.old.history.list parts.old.watches.items
            parts.old.subs.items parts.old.session }
        ensures rest { (parts.new.number ≡ parts.old.number) × (parts.new.place ≡ parts.old.place)
            × (parts.new.history.table ≡ parts.old.history.table) }
        ensures lives { Lives N.deed.config parts.new.number parts.new.history.list parts.new.watches.items
            parts.new.subs.items parts.new.session }
        ensures items { SeesMore parts.old.watches.items parts.new.watches.items }
        ensures begins { IsPrefix parts.old.history.list parts.new.history.list }
        ensures goes { (held : List Watched) → GoesRound N.deed.config parts.old.number parts.old.history.list held
            parts.old.watches.items parts.old.subs.items parts.old.session
            → GoesRound N.deed.config parts.new.number parts.new.history.list held parts.new.watches.items
            parts.new.subs.items parts.new.session }
    {
        let Some(ask) = parts.ask_on(now) else {
            return false;
        };
        if ask.slot.item != number {
            return false;
        }
        match self.ask_held(rt, parts, item, ask, now) {
            Ok(told) => told,
            Err(NoMemory) => false,
        }
    }
}

/// The round of a session's slots begins anew, by a turn for no stream, which gives nothing. So whatever it asked before
/// counts for nothing.
fn begin_round<N: House>(parts: &mut SessionParts<N>, now: u64, into: &mut LineBuf)
    requires tick { now ≤ GREATEST_TICK }
    requires bound { (epoch : ℕ) × HasBound epoch parts.old.history.list }
    requires lives { Lives N.deed.config parts.old.number parts.old.history.list parts.old.watches.items
        parts.old.subs.items parts.old.session }
    ensures rest { parts.new ≡ record parts.old { session = parts.new.session; history = parts.new.history } }
    ensures same { (parts.new.history.list ≡ parts.old.history.list)
        × (parts.new.history.table ≡ parts.old.history.table) }
    ensures goes { GoesRound N.deed.config parts.old.number parts.old.history.list parts.old.watches.items
        parts.old.watches.items parts.old.subs.items parts.new.session }
{
    let _ = parts.give(0, now, into);
}

/// Answers the question of a slot that had nothing to tell, where its item has nothing new; else the question stands. It
/// takes no lock.
fn rests<N: House>(parts: &mut SessionParts<N>, ask: Ask) -> bool
    ensures rest { parts.new ≡ record parts.old { session = parts.new.session; watches = parts.new.watches } }
    ensures same { parts.new.watches.items ≡ parts.old.watches.items }
    ensures rests { IsTrue result → (r : Record) (q : Question) (now : ℕ) → IsAskedFrom N.deed.config parts.old.number
        parts.old.history.list parts.old.watches.items parts.old.subs.items parts.old.session r q ask now
        → LivesAs N.deed.config parts.old.number parts.old.history.list parts.old.watches.items parts.old.subs.items
        parts.new.session (passed_over r)
        × HasNothing (seen_of parts.old.watches.items q.live.item) q.live.slot
        × (length (seen_of parts.old.watches.items q.live.item) ≤ q.live.slot.last) }
    ensures stays { IsFalse result → (r : Record) → LivesAs N.deed.config parts.old.number parts.old.history.list
        parts.old.watches.items parts.old.subs.items parts.old.session r
        → LivesAs N.deed.config parts.old.number parts.old.history.list parts.old.watches.items parts.old.subs.items
        parts.new.session r }
{
    let Some(events) = parts.count(ask.slot.item) else {
        return false;
    };
    parts.rest_quiet(ask, events)
}

/// PROBE, where a stream gave nothing for its keep-alive, in place of an answer that gives nothing.
fn probed<N: House>(
    parts: &mut SessionParts<N>,
    epoch: u64,
    now: u64,
    into: &mut LineBuf,
    quiet: Turn,
) -> Turn
    requires tick { now ≤ GREATEST_TICK }
    requires lives { Lives N.deed.config parts.old.number parts.old.history.list parts.old.watches.items
        parts.old.subs.items parts.old.session }
    requires still { StaysStill parts.old.number epoch parts.old.history.list }
    ensures rest { parts.new ≡ record parts.old { history = parts.new.history } }
    ensures table { parts.new.history.table ≡ parts.old.history.table }
    ensures lives { Lives N.deed.config parts.new.number parts.new.history.list parts.new.watches.items
        parts.new.subs.items parts.new.session }
    ensures ends { (held : List Watched) → EndsQuiet N.deed.config parts.old.number epoch now held parts.old.history.list
        parts.old.watches.items quiet
        → EndsTurn N.deed.config parts.old.number epoch now held parts.old.history.list parts.new.history.list
        parts.old.watches.items into.new result }
    ensures begins { IsPrefix parts.old.history.list parts.new.history.list }
{
    if parts.probe(epoch, now, into) {
        Turn::Send
    } else {
        quiet
    }
}
