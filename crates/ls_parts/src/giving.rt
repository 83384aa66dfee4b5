//! What a session gives.
ghost use Rattle.std.specs.Prelude.{◌≡◌, ◌≤◌, ◌<◌, ◌++◌, ◌∷◌, [], IsTrue, IsFalse, ◌&&◌, length, slice_get, option_map};
ghost use Rattle.ls_value.specs.declared.limits.TheConstants.{GREATEST_TICK, GREATEST_NUMBER};
ghost use Rattle.ls_subs.specs.Standing.{ref_of};
ghost use Rattle.ls_register.specs.declared.told.Told.TheVariants as told_is;
ghost use Rattle.ls_session.specs.Record.{Record, passed_over};
ghost use Rattle.ls_session.specs.Session.{StandsSession};
ghost use Rattle.ls_told.specs.Spoken.{spoken_of, next_of, GivesNothing};
ghost use Rattle.ls_told.specs.Heard.{heard, counts_as};
ghost use Rattle.ls_told.specs.Requests.{is_spent};
ghost use Rattle.ls_told.specs.Turns.{IsSilent, SpokeInTime, probe_text};
ghost use Rattle.ls_taking.specs.Lives.{Lives, LivesAs};
ghost use Rattle.ls_parts.specs.Giving.{speaks, AsksOn, Gives};

use crate::parts::SessionParts;
use ls_line::LineBuf;
use ls_register::House;
use ls_session::{Ask, Session, Turn};
use ls_subs::SlotRef;
use ls_taking::History;

impl<N: House> SessionParts<N> {
    /// A turn at a tick for the stream of an epoch, as [`Session::turn`] takes it. A tick below those of the history's
    /// entries counts as the greatest of them. Where a line is given, `into` holds its text, and the history has its
    /// Gave. A history of 2^60 entries is spent: then no line but END is given. It takes no memory.
    pub fn give(&mut self, epoch: u64, now: u64, into: &mut LineBuf) -> Turn
        requires tick { now ≤ GREATEST_TICK }
        requires lives { Lives N.deed.config self.old.number self.old.history.list self.old.watches.items
            self.old.subs.items self.old.session }
        ensures rest { self.new ≡ record self.old { session = self.new.session; history = self.new.history } }
        ensures table { self.new.history.table ≡ self.old.history.table }
        ensures gives { (r : Record) → LivesAs N.deed.config self.old.number self.old.history.list
            self.old.watches.items self.old.subs.items self.old.session r
            → Gives N.deed.config self.old.number epoch now self.old.history.list self.new.history.list
            self.old.watches.items self.old.subs.items self.new.session r result into.new }
    {
        if is_shut(&self.session, &self.history, epoch) {
            return Turn::Spent;
        }
        let tick = self.history.tick(now);
        let turn = self.session.turn(tick, epoch);
        if let Turn::Send = turn {
            into.fill(self.session.current());
            self.history.tell_given(epoch, into.text(), tick);
        }
        turn
    }

    /// The question what the next slot of the round has to tell, at a tick that counts as in [`SessionParts::give`],
    /// whatever lines wait to be given. `None` where no slot is left to ask, or no number for a line, where the history is
    /// spent, or the session has ended. It takes no memory.
    pub fn ask_on(&mut self, now: u64) -> Option<Ask>
        requires tick { now ≤ GREATEST_TICK }
        ensures rest { self.new ≡ record self.old { session = self.new.session } }
        ensures asks { (r : Record) → LivesAs N.deed.config self.old.number self.old.history.list
            self.old.watches.items self.old.subs.items self.old.session r
            → AsksOn N.deed.config self.old.number now self.old.history.list self.old.watches.items
            self.old.subs.items self.new.session r result }
    {
        if self.history.is_spent() {
            return None;
        }
        if !self.session.is_alive() {
            return None;
        }
        let tick = self.history.tick(now);
        match self.session.turn_round(tick) {
            Turn::Ask(ask) => Some(ask),
            _ => None,
        }
    }

    /// PROBE, where the stream of an epoch gave nothing for its keep-alive and has nothing to give, and whether it was
    /// given: `into` then holds it, and the history has its Gave, which changes nothing else. It takes no memory.
    pub fn probe(&mut self, epoch: u64, now: u64, into: &mut LineBuf) -> bool
        requires tick { now ≤ GREATEST_TICK }
        requires lives { Lives N.deed.config self.old.number self.old.history.list self.old.watches.items
            self.old.subs.items self.old.session }
        requires none { next_of (heard self.old.number self.old.history.list) ≡ GivesNothing }
        requires room { length self.old.history.list < GREATEST_NUMBER }
        ensures rest { self.new ≡ record self.old { history = self.new.history } }
        ensures table { self.new.history.table ≡ self.old.history.table }
        ensures silent { IsTrue result
            → IsSilent epoch (counts_as now self.old.history.list) self.old.history.list }
        ensures gave { IsTrue result → (into.new ≡ probe_text) × (self.new.history.list ≡ self.old.history.list
            ++ told_is.Gave epoch probe_text (counts_as now self.old.history.list) ∷ []) }
        ensures stays { IsFalse result → self.new.history.list ≡ self.old.history.list }
        ensures spoke { IsFalse result
            → SpokeInTime epoch (counts_as now self.old.history.list) self.old.history.list }
        ensures lives { (r : Record) → LivesAs N.deed.config self.old.number self.old.history.list
            self.old.watches.items self.old.subs.items self.old.session r
            → LivesAs N.deed.config self.old.number self.new.history.list self.old.watches.items self.old.subs.items
            self.old.session r }
    {
        let tick = self.history.tick(now);
        if !self.history.is_silent(epoch, tick) {
            return false;
        }
        into.fill(b"PROBE");
        self.history.tell_given(epoch, into.text(), tick);
        true
    }

    /// The slot that is asked next, `None` after the last one. It takes no memory.
    pub fn next_slot(&self) -> Option<SlotRef>
        ensures { (r : Record) → LivesAs N.deed.config self.now.number self.now.history.list self.now.watches.items
            self.now.subs.items self.now.session r
            → result ≡ option_map ref_of (slice_get r.session.board.round r.asked) }
    {
        self.session.next_slot()
    }

    /// The slot that is asked next is passed over, as where it was asked and has nothing. It takes no memory.
    pub fn skip(&mut self)
        ensures rest { self.new ≡ record self.old { session = self.new.session } }
        ensures lives { (r : Record) → LivesAs N.deed.config self.old.number self.old.history.list
            self.old.watches.items self.old.subs.items self.old.session r
            → LivesAs N.deed.config self.old.number self.old.history.list self.old.watches.items self.old.subs.items
            self.new.session (passed_over r) }
    {
        self.session.skip();
    }
}

/// Whether a session speaks on the stream of an epoch: it is the newest one and bound, and the session hasn't ended.
fn speaks(session: &Session, epoch: u64) -> bool
    ensures { (r : Record) → StandsSession session.now r → result ≡ speaks epoch (spoken_of r.session) }
{
    epoch >= session.epoch() && session.since().is_none() && session.is_alive()
}

/// Whether no line but END is given on the stream of an epoch, as the history is spent.
fn is_shut(session: &Session, history: &History, epoch: u64) -> bool
    ensures { (r : Record) → StandsSession session.now r
        → result ≡ (is_spent history.now.list && speaks epoch (spoken_of r.session)) }
{
    if history.is_spent() {
        speaks(session, epoch)
    } else {
        false
    }
}
