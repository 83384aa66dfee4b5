//! What a slot tells is taken from its item.
ghost use Rattle.std.specs.Prelude.{◌≡◌, ◌≤◌, ◌<◌, ◌^◌, ◌-◌, ◌++◌, ◌∷◌, ◌⊎◌, [], ℕ, List, Some, None, IfOk, IfSome, IfNone, OnErr, IsTrue, IsFalse};
ghost use Rattle.std.specs.Prelude.{true, false, length, slice_get};
ghost use Rattle.ls_value.specs.declared.limits.TheConstants.{GREATEST_TICK, GREATEST_NUMBER};
ghost use Rattle.ls_event.specs.Cuts.{cut};
ghost use Rattle.ls_record.specs.Records.{Alive};
ghost use Rattle.ls_register.specs.declared.told.Told.TheVariants as told_is;
ghost use Rattle.ls_seated.specs.Seats.{SeatSeen, slot_of};
ghost use Rattle.ls_session.specs.declared.session.Reply.TheVariants as reply_is;
ghost use Rattle.ls_session.specs.Record.{Record, Question, question_of, passed_over, waited};
ghost use Rattle.ls_session.specs.Session.{StandsSession, ask_in};
ghost use Rattle.ls_told.specs.Heard.{heard};
ghost use Rattle.ls_told.specs.Seen.{SeesMore, seen_of};
ghost use Rattle.ls_taking.specs.Groups.{SubSeen};
ghost use Rattle.ls_taking.specs.Sights.{NoneBefore};
ghost use Rattle.ls_parts.specs.Leaving.{HasLast};
ghost use Rattle.ls_taking.specs.Lives.{LivesAs, HasNothing};
ghost use Rattle.ls_taking.specs.Taking.{IsFound, IsCaught, IsAskedFrom, IsWhole, caught_up};
ghost use Rattle.ls_parts.specs.Replying.{TakesFrom, Replies};

use crate::parts::SessionParts;
use ls_chron::Chron;
use ls_event::Taken;
use ls_register::{House, Made};
use ls_seated::Seated;
use ls_session::{Ask, Reply};
use ls_subs::SlotRef;
use ls_taking::{CutOf, Found, catch_up_in, count_of, find_in, last_place};
use ls_value::NoMemory;

impl<N: House> SessionParts<N> {
    /// Where a slot of the session is found on an item: `None` where the item isn't that of the slot, by their places in
    /// the register. It takes no memory.
    pub fn find(
        &mut self,
        register: &Chron<Made>,
        item: &mut Seated<N>,
        slot: SlotRef,
    ) -> Option<Found>
        requires { register.now ≡ N.deed.register }
        ensures rest { self.new ≡ record self.old { watches = self.new.watches; subs = self.new.subs } }
        ensures same { (self.new.watches.items ≡ self.old.watches.items) × (self.new.subs.items ≡ self.old.subs.items)
            × (item.new ≡ item.old) }
        ensures found { IfSome result (λ f. IsFound N.deed.config self.old.watches.items self.old.subs.items f.seats
            f.watch slot item.old) }
    {
        find_in(&mut self.watches, &mut self.subs, register, item, slot)
    }

    /// A slot's question, which stands, is answered by what its item has: the slot gets every event of the item first,
    /// and the watch of the item the whole history. A slot that is due tells its next cut, and moves past it on both
    /// sides; of another one only whether it waits is told. `true` where the cut makes a line: it is numbered, and the
    /// history has its entry. After `NoMemory` the history and the slot's place are as before; the slot may have got
    /// events. The tick, in ms, counts as in [`SessionParts::give`], which gave the question.
    pub fn take_from(
        &mut self,
        item: &mut Seated<N>,
        ask: Ask,
        found: Found,
        now: u64,
    ) -> Result<bool, NoMemory>
        requires tick { now ≤ GREATEST_TICK }
        requires room { length self.old.history.list < GREATEST_NUMBER }
        requires alive { (heard self.old.number self.old.history.list).life ≡ Alive }
        requires found { IsFound N.deed.config self.old.watches.items self.old.subs.items found.seats found.watch
            ask.slot item.old }
        requires asked { (r : Record) × (q : Question) × IsAskedFrom N.deed.config self.old.number
            self.old.history.list self.old.watches.items self.old.subs.items self.old.session r q ask now }
        ensures rest { self.new ≡ record self.old {
          session = self.new.session;
          history = self.new.history;
          watches = self.new.watches;
          subs = self.new.subs;
        } }
        ensures table { self.new.history.table ≡ self.old.history.table }
        ensures item { item.new.item ≡ record item.old.item { cell = item.new.item.cell } }
        ensures more { SeesMore self.old.watches.items self.new.watches.items }
        ensures takes { IfOk result (λ told. (r : Record) (q : Question) → IsAskedFrom N.deed.config self.old.number
            self.old.history.list self.old.watches.items self.old.subs.items self.old.session r q ask now
            → TakesFrom N.deed.config self.old.number self.old.history.list self.new.history.list
            self.new.watches.items self.new.subs.items self.new.session r q item.old.item.history told
            × (seen_of self.new.watches.items q.live.item ≡ item.old.item.history)) }
        ensures err { OnErr result ((self.new.history.list ≡ self.old.history.list)
            × ((r : Record) (q : Question) → IsAskedFrom N.deed.config self.old.number self.old.history.list
            self.old.watches.items self.old.subs.items self.old.session r q ask now
            → LivesAs N.deed.config self.old.number self.old.history.list self.new.watches.items
            self.new.subs.items self.new.session r
            ⊎ LivesAs N.deed.config self.old.number self.old.history.list self.new.watches.items
            self.new.subs.items self.new.session (caught_up (length item.old.item.history) r))) }
    {
        let Ok(()) = catch_up_in(&mut self.watches, &mut self.subs, item, ask.slot, found) else {
            return Err(NoMemory);
        };
        if ask.due {
            self.take_due(item, ask, found, now)
        } else {
            self.take_waiting(item, ask, found, now)
        }
    }

    /// How many entries the history of an item has now, which is no fewer than were seen of it; `None` only where the item
    /// isn't watched. It takes no lock and no memory.
    pub fn count(&mut self, item: u32) -> Option<u64>
        ensures rest { self.new ≡ record self.old { watches = self.new.watches } }
        ensures same { self.new.watches.items ≡ self.old.watches.items }
        ensures count { IfSome result (λ n. length (seen_of self.old.watches.items item) ≤ n) }
        ensures none { IfNone result (NoneBefore self.old.watches.items (length self.old.watches.items) item) }
    {
        count_of(&mut self.watches, item)
    }

    /// A slot's question, which stands, is answered without its item, where the seat knows that the slot had nothing to tell
    /// with so many events enqueued; else `false`, and nothing is done. It is for a slot whose item's history has just so
    /// many events, as [`Watch::count`](ls_live::Watch::count) tells without a lock. It takes no memory.
    pub fn rest_quiet(&mut self, ask: Ask, events: u64) -> bool
        ensures rest { self.new ≡ record self.old { session = self.new.session } }
        ensures rests { IsTrue result → (r : Record) (q : Question) (now : ℕ) → IsAskedFrom N.deed.config self.old.number
            self.old.history.list self.old.watches.items self.old.subs.items self.old.session r q ask now
            → LivesAs N.deed.config self.old.number self.old.history.list self.old.watches.items
            self.old.subs.items self.new.session (passed_over r)
            × HasNothing (seen_of self.old.watches.items q.live.item) q.live.slot
            × (q.live.slot.last ≡ events) }
        ensures stays { IsFalse result → (r : Record) → LivesAs N.deed.config self.old.number self.old.history.list
            self.old.watches.items self.old.subs.items self.old.session r
            → LivesAs N.deed.config self.old.number self.old.history.list self.old.watches.items
            self.old.subs.items self.new.session r }
    {
        let Some(seats) = last_place(&self.subs, ask.slot.sub) else {
            return false;
        };
        if self.subs[seats].is_quiet(ask.slot.place, events) {
            let Ok(_) = self.session.answer(ask, Reply::Nothing) else {
                return false;
            };
            true
        } else {
            false
        }
    }

    /// A slot that is due and has every event tells its next cut.
    fn take_due(
        &mut self,
        item: &mut Seated<N>,
        ask: Ask,
        found: Found,
        now: u64,
    ) -> Result<bool, NoMemory>
        requires due { ask.due ≡ true }
        requires tick { now ≤ GREATEST_TICK }
        requires room { length self.old.history.list < GREATEST_NUMBER }
        requires alive { (heard self.old.number self.old.history.list).life ≡ Alive }
        requires ready { IsCaught self.old.subs.items found.seats ask.slot item.old }
        requires asked { (r : Record) × (q : Question) × IsAskedFrom N.deed.config self.old.number
            self.old.history.list self.old.watches.items self.old.subs.items self.old.session r q ask now
            × IsWhole N.deed.config self.old.watches.items q item.old }
        ensures rest { self.new ≡ record self.old {
          session = self.new.session;
          history = self.new.history;
          subs = self.new.subs;
        } }
        ensures table { self.new.history.table ≡ self.old.history.table }
        ensures item { item.new.item ≡ record item.old.item { cell = item.new.item.cell } }
        ensures replies { IfOk result (λ told. (r : Record) (q : Question) → IsAskedFrom N.deed.config self.old.number
            self.old.history.list self.old.watches.items self.old.subs.items self.old.session r q ask now
            → IsWhole N.deed.config self.old.watches.items q item.old
            → Replies N.deed.config self.old.number self.old.history.list self.new.history.list
            self.old.watches.items self.new.subs.items self.new.session r q item.old.item.history told) }
        ensures err { OnErr result ((self.new.history.list ≡ self.old.history.list)
            × (self.new.subs.items ≡ self.old.subs.items)
            × ((r : Record) → StandsSession self.old.session r → StandsSession self.new.session r)) }
    {
        match self.subs[found.seats].look(item, ask.slot.place) {
            Err(_) => Err(NoMemory),
            Ok(None) => self.take_nothing(item, ask, found, now),
            Ok(Some(taken)) => self.take_cut(item, ask, found, now, taken),
        }
    }

    /// A slot that is due, has every event and no cut has nothing to tell.
    fn take_nothing(
        &mut self,
        item: &Seated<N>,
        ask: Ask,
        found: Found,
        now: u64,
    ) -> Result<bool, NoMemory>
        requires due { ask.due ≡ true }
        requires ready { IsCaught self.old.subs.items found.seats ask.slot item.now }
        requires none { (t : SeatSeen) → (g : SubSeen) → slice_get self.old.subs.items found.seats ≡ Some g
            → slice_get g.seats (ask.slot.place - 1) ≡ Some t → cut item.now.item.history
            (slot_of item.now.item.shape item.now.item.history t.plan t.list) ≡ None }
        ensures rest { self.new ≡ record self.old { session = self.new.session; subs = self.new.subs } }
        ensures replies { IfOk result (λ told. (r : Record) (q : Question) → IsAskedFrom N.deed.config self.old.number
            self.old.history.list self.old.watches.items self.old.subs.items self.old.session r q ask now
            → IsWhole N.deed.config self.old.watches.items q item.now
            → Replies N.deed.config self.old.number self.old.history.list self.old.history.list
            self.old.watches.items self.new.subs.items self.new.session r q item.now.item.history told) }
        ensures err { OnErr result ((self.new.subs.items ≡ self.old.subs.items)
            × ((r : Record) → StandsSession self.old.session r → StandsSession self.new.session r)) }
    {
        let Ok(told) = self.session.answer(ask, Reply::Nothing) else {
            return Err(NoMemory);
        };
        self.subs[found.seats].rest(item, ask.slot.place);
        Ok(told)
    }

    /// Of a slot that isn't due and has every event it is told whether it waits.
    fn take_waiting(
        &mut self,
        item: &Seated<N>,
        ask: Ask,
        found: Found,
        now: u64,
    ) -> Result<bool, NoMemory>
        requires due { ask.due ≡ false }
        requires ready { IsCaught self.old.subs.items found.seats ask.slot item.now }
        ensures rest { self.new ≡ record self.old { session = self.new.session } }
        ensures replies { IfOk result (λ told. (r : Record) (q : Question) → IsAskedFrom N.deed.config self.old.number
            self.old.history.list self.old.watches.items self.old.subs.items self.old.session r q ask now
            → IsWhole N.deed.config self.old.watches.items q item.now
            → Replies N.deed.config self.old.number self.old.history.list self.new.history.list
            self.old.watches.items self.new.subs.items self.new.session r q item.now.item.history told) }
        ensures err { OnErr result ((r : Record) → StandsSession self.old.session r
            → StandsSession self.new.session r) }
    {
        if self.subs[found.seats].pending(item, ask.slot.place) {
            self.rest(ask, Reply::Waiting)
        } else {
            self.rest(ask, Reply::Nothing)
        }
    }

    /// Answers a question of which there is no cut.
    fn rest(&mut self, ask: Ask, reply: Reply) -> Result<bool, NoMemory>
        ensures rest { self.new ≡ record self.old { session = self.new.session } }
        ensures nothing { IfOk result (λ told. (r : Record) (q : Question) → StandsSession self.old.session r
            → question_of r ≡ Some q → ask ≡ ask_in q → reply ≡ reply_is.Nothing
            → (told ≡ false) × StandsSession self.new.session (passed_over r)) }
        ensures waiting { IfOk result (λ told. (r : Record) (q : Question) → StandsSession self.old.session r
            → question_of r ≡ Some q → ask ≡ ask_in q → q.due ≡ false → reply ≡ reply_is.Waiting
            → (told ≡ false) × StandsSession self.new.session (waited r q.live)) }
        ensures err { OnErr result ((r : Record) → StandsSession self.old.session r
            → StandsSession self.new.session r) }
    {
        let Ok(told) = self.session.answer(ask, reply) else {
            return Err(NoMemory);
        };
        Ok(told)
    }

    /// A slot that is due and has every event moves past its next cut, which is this one. A line that it makes is
    /// numbered, and told.
    fn take_cut(
        &mut self,
        item: &mut Seated<N>,
        ask: Ask,
        found: Found,
        now: u64,
        taken: Taken,
    ) -> Result<bool, NoMemory>
        requires due { ask.due ≡ true }
        requires tick { now ≤ GREATEST_TICK }
        requires room { length self.old.history.list < GREATEST_NUMBER }
        requires alive { (heard self.old.number self.old.history.list).life ≡ Alive }
        requires ready { IsCaught self.old.subs.items found.seats ask.slot item.old }
        requires cut { (t : SeatSeen) → (g : SubSeen) → slice_get self.old.subs.items found.seats ≡ Some g
            → slice_get g.seats (ask.slot.place - 1) ≡ Some t → cut item.old.item.history
            (slot_of item.old.item.shape item.old.item.history t.plan t.list) ≡ Some taken }
        requires asked { (r : Record) × (q : Question) × IsAskedFrom N.deed.config self.old.number
            self.old.history.list self.old.watches.items self.old.subs.items self.old.session r q ask now
            × IsWhole N.deed.config self.old.watches.items q item.old }
        ensures rest { self.new ≡ record self.old {
          session = self.new.session;
          history = self.new.history;
          subs = self.new.subs;
        } }
        ensures table { self.new.history.table ≡ self.old.history.table }
        ensures item { item.new.item ≡ record item.old.item { cell = item.new.item.cell } }
        ensures replies { IfOk result (λ told. (r : Record) (q : Question) → IsAskedFrom N.deed.config self.old.number
            self.old.history.list self.old.watches.items self.old.subs.items self.old.session r q ask now
            → IsWhole N.deed.config self.old.watches.items q item.old
            → Replies N.deed.config self.old.number self.old.history.list self.new.history.list
            self.old.watches.items self.new.subs.items self.new.session r q item.old.item.history told) }
        ensures err { OnErr result ((self.new.history.list ≡ self.old.history.list)
            × (self.new.subs.items ≡ self.old.subs.items)
            × ((r : Record) → StandsSession self.old.session r → StandsSession self.new.session r)) }
    {
        are_small(ask.slot.sub, ask.slot.place);
        let tick = self.history.tick(now);
        let told_of = self.subs[found.seats].cut_of(ask.slot, &taken);
        let cursor = self.subs[found.seats].cursor_after(ask.slot.place, &taken);
        let Ok(told) = self.session.answer(ask, Reply::Taken(taken)) else {
            return Err(NoMemory);
        };
        self.subs[found.seats].pass(item, ask.slot.place, cursor);
        if told {
            self.tell_cut(told_of, tick);
        }
        Ok(told)
    }

    /// The history tells of the line that was numbered last, by a cut.
    fn tell_cut(&mut self, cut: CutOf, tick: u64)
        requires last { (text : List ℕ) × HasLast self.old.session text }
        requires room { length self.old.history.list < 2 ^ 61 }
        requires tick { tick ≤ GREATEST_TICK }
        ensures told { (text : List ℕ) → HasLast self.old.session text → self.new.history.list
            ≡ self.old.history.list ++ told_is.Numbered (record {
              text = text;
              slot = cut.slot;
              before = cut.before;
              upto = cut.upto;
              at = cut.at;
              begun = None;
              tick = tick;
            }) ∷ [] }
        ensures table { self.new.history.table ≡ self.old.history.table }
        ensures rest { self.new ≡ record self.old { history = self.new.history } }
    {
        let Some(line) = self.session.line(self.session.last()) else {
            unreachable!()
        };
        self.history.tell_numbered(line, cut, tick);
    }
}

/// That a subscription's number and a place in it have 32 bits each: a line that tells of them is short.
fn are_small(sub: u32, place: u32)
    ensures { (sub < 2 ^ 32) × (place < 2 ^ 32) }
{
    let _ = (sub, place);
}
