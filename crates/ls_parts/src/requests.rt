//! What requests make of a session in threads (TLCP 2.1, control).
ghost use Rattle.std.specs.Prelude.{◌≡◌, ◌≤◌, ◌<◌, ◌⊎◌, ◌+◌, ◌^◌, ◌++◌, ◌∷◌, [], ℕ, List, Option, None, Some, IfOk};
ghost use Rattle.std.specs.Prelude.{OnOk, OnErr, IsErrOf, length, true, false};
ghost use Rattle.std.specs.Vec.{vec_len, vec_capacity};
ghost use Rattle.std.specs.Option.{ForSome};
ghost use Rattle.ls_value.specs.declared.limits.TheConstants.{GREATEST_NUMBER, GREATEST_TICK};
ghost use Rattle.ls_event.specs.declared.item.ItemDef.{ItemDef};
ghost use Rattle.ls_request.specs.Ranges.{IsOrdinal};
ghost use Rattle.ls_request.specs.declared.request.Op.TheVariants as op;
ghost use Rattle.ls_record.specs.Acting.{destroyed};
ghost use Rattle.ls_record.specs.Records.{LiveSlot, timed_out, is_alive, is_of};
ghost use Rattle.ls_subs.specs.declared.plan.Refusal.TheVariants as Refusal;
ghost use Rattle.ls_register.specs.declared.told.Told.TheVariants as told_is;
ghost use Rattle.ls_told.specs.Heard.{heard, counts_as};
ghost use Rattle.ls_told.specs.Seen.{Watched};
ghost use Rattle.ls_told.specs.Requests.{plain};
ghost use Rattle.ls_taking.specs.Lives.{Lives, HasSeat};
ghost use Rattle.ls_parts.specs.Leaving.{Finds, IsOverdue, EndsSub, SetsFrequency, EndsAll, HasLast};

use crate::binding::spent_code;
use crate::parts::{Left, SessionParts};
use ls_register::{House, Told};
use ls_session::Session;
use ls_subs::Refusal;
use ls_taking::{History, SubSeats, last_place, no_cut};
use std::mem::replace;

impl<N: House> SessionParts<N> {
    /// Another bandwidth of a session in parts, in thousandths of a kbit per second, `None` for none, from a tick on, in ms: the
    /// history has its Rate. It is refused, in this order: 20 where the session has ended, 70 where too many lines are owed. A
    /// refusal changes nothing (TLCP 2.1, constrain).
    pub fn constrain(&mut self, bandwidth: Option<u64>, now: u64) -> Result<(), Refusal>
        requires tick { now ≤ GREATEST_TICK }
        requires some { ForSome bandwidth (λ limit. 0 < limit) }
        requires lives { Lives N.deed.config self.old.number self.old.history.list self.old.watches.items
            self.old.subs.items self.old.session }
        ensures accepted { OnOk result (Finds N.deed.config self.old.number self.old.history.list
            self.old.watches.items (op.Constrain bandwidth) None
            × (self.new.history.list
            ≡ self.old.history.list ++ told_is.Rate bandwidth (counts_as now self.old.history.list) ∷ [])) }
        ensures refused { (code : ℕ) → IsErrOf result (Refusal.Code code) → Finds N.deed.config self.old.number
            self.old.history.list self.old.watches.items (op.Constrain bandwidth) (Some code) }
        ensures err { OnErr result (self.new.history.list ≡ self.old.history.list) }
        ensures lives { Lives N.deed.config self.old.number self.new.history.list self.old.watches.items
            self.old.subs.items self.new.session }
        ensures table { self.new.history.table ≡ self.old.history.table }
        ensures rest { self.new ≡ record self.old { session = self.new.session; history = self.new.history } }
    {
        let tick = self.history.tick(now);
        match self.session.constrain(bandwidth, tick) {
            Ok(()) => {
                let told = Told::Rate {
                    rate: bandwidth,
                    tick,
                };
                self.history.tell(&told);
                Ok(())
            }
            Err(refusal) => Err(refusal),
        }
    }

    /// Why a subscription of a session in parts can't end, or have another frequency.
    fn code_of_change(&self, sub: u32) -> Option<u16>
        requires lives { Lives N.deed.config self.now.number self.now.history.list self.now.watches.items
            self.now.subs.items self.now.session }
        ensures deletes { Finds N.deed.config self.now.number self.now.history.list self.now.watches.items
            (op.Delete sub) result }
        ensures sets { (frequency : Option ℕ) → Finds N.deed.config self.now.number self.now.history.list
            self.now.watches.items (op.Reconf sub frequency) result }
        ensures room { result ≡ None → length self.now.history.list < GREATEST_NUMBER }
    {
        let code = self.session.code_of_change(sub);
        if self.history.is_spent() {
            return Some(spent_code(code));
        }
        code
    }

    /// A subscription of a session in parts ends at a tick, in ms: the history has its UNSUB, and its seats are handed back. It
    /// is refused, in this order: 20 where the session has ended, 19 where no such subscription is live, 70 where too many lines
    /// wait, 74 where no number is left or the history is spent. A refusal changes nothing (TLCP 2.1, delete).
    pub fn delete(&mut self, sub: u32, now: u64) -> Result<Left<N>, Refusal>
        requires tick { now ≤ GREATEST_TICK }
        requires sub { IsOrdinal sub }
        requires lives { Lives N.deed.config self.old.number self.old.history.list self.old.watches.items
            self.old.subs.items self.old.session }
        ensures accepted { IfOk result (λ left. Finds N.deed.config self.old.number self.old.history.list
            self.old.watches.items (op.Delete sub) None
            × EndsSub N.deed.config self.old.number sub (counts_as now self.old.history.list) self.old.history.list
            self.new.history.list self.old.watches.items left.slots left.subs.items) }
        ensures refused { (code : ℕ) → IsErrOf result (Refusal.Code code) → Finds N.deed.config self.old.number
            self.old.history.list self.old.watches.items (op.Delete sub) (Some code) }
        ensures err { OnErr result (self.new.history.list ≡ self.old.history.list) }
        ensures lives { Lives N.deed.config self.old.number self.new.history.list self.old.watches.items
            self.new.subs.items self.new.session }
        ensures table { self.new.history.table ≡ self.old.history.table }
        ensures rest { self.new ≡ record self.old {
          session = self.new.session;
          history = self.new.history;
          subs = self.new.subs;
        } }
    {
        if let Some(code) = self.code_of_change(sub) {
            return Err(Refusal::Code(code));
        }
        let Ok(mut subs) = Vec::with_capacity(self.alloc, 1) else {
            return Err(Refusal::NoMemory);
        };
        let tick = self.history.tick(now);
        match self.session.delete(sub) {
            Ok(slots) => {
                tell_last(&self.session, &mut self.history, tick);
                take_sub(&mut self.subs, sub, &mut subs);
                Ok(Left {
                    subs,
                    slots: slots.len() as u64,
                })
            }
            Err(refusal) => Err(refusal),
        }
    }

    /// Another greatest frequency of a subscription of a session in parts at a tick, in ms: the history has its CONF. It is
    /// refused as [`SessionParts::delete`] is. A refusal changes nothing (TLCP 2.1, reconf).
    pub fn reconf(&mut self, sub: u32, frequency: Option<u64>, now: u64) -> Result<(), Refusal>
        requires tick { now ≤ GREATEST_TICK }
        requires sub { IsOrdinal sub }
        requires some { ForSome frequency (λ f. 0 < f) }
        requires lives { Lives N.deed.config self.old.number self.old.history.list self.old.watches.items
            self.old.subs.items self.old.session }
        ensures accepted { OnOk result (Finds N.deed.config self.old.number self.old.history.list
            self.old.watches.items (op.Reconf sub frequency) None
            × SetsFrequency N.deed.config self.old.number sub frequency (counts_as now self.old.history.list)
            self.old.history.list self.new.history.list self.old.watches.items) }
        ensures refused { (code : ℕ) → IsErrOf result (Refusal.Code code) → Finds N.deed.config self.old.number
            self.old.history.list self.old.watches.items (op.Reconf sub frequency) (Some code) }
        ensures err { OnErr result (self.new.history.list ≡ self.old.history.list) }
        ensures lives { Lives N.deed.config self.old.number self.new.history.list self.old.watches.items
            self.old.subs.items self.new.session }
        ensures table { self.new.history.table ≡ self.old.history.table }
        ensures rest { self.new ≡ record self.old { session = self.new.session; history = self.new.history } }
    {
        if let Some(code) = self.code_of_change(sub) {
            return Err(Refusal::Code(code));
        }
        let tick = self.history.tick(now);
        is_small(frequency);
        match self.session.reconf(sub, frequency) {
            Ok(()) => {
                tell_last(&self.session, &mut self.history, tick);
                Ok(())
            }
            Err(refusal) => Err(refusal),
        }
    }

    /// A session in parts ends at a tick, in ms, for the cause of a code, [`DESTROYED`](ls_session::DESTROYED) or
    /// [`TIMED_OUT`](ls_session::TIMED_OUT): the history has its Ended, and all its seats are handed back. One that has ended
    /// stays as it is, and hands back none. It takes no memory.
    pub fn end(&mut self, code: u16, now: u64) -> Left<N>
        requires tick { now ≤ GREATEST_TICK }
        requires code { (code ≡ destroyed) ⊎ ((code ≡ timed_out)
            × IsOverdue (counts_as now self.old.history.list) (heard self.old.number self.old.history.list)) }
        requires lives { Lives N.deed.config self.old.number self.old.history.list self.old.watches.items
            self.old.subs.items self.old.session }
        ensures alive { is_alive (heard self.old.number self.old.history.list).life ≡ true
            → EndsAll N.deed.config self.old.number code (counts_as now self.old.history.list) self.old.history.list
            self.new.history.list self.old.watches.items result.slots result.subs.items }
        ensures ended { is_alive (heard self.old.number self.old.history.list).life ≡ false
            → (self.new.history.list ≡ self.old.history.list) × (result.slots ≡ 0) }
        ensures lives { Lives N.deed.config self.old.number self.new.history.list self.old.watches.items
            self.new.subs.items self.new.session }
        ensures table { self.new.history.table ≡ self.old.history.table }
        ensures rest { self.new ≡ record self.old {
          session = self.new.session;
          history = self.new.history;
          subs = self.new.subs;
        } }
    {
        if self.session.is_alive() {
            self.end_alive(code, now)
        } else {
            Left {
                subs: Vec::new(self.alloc),
                slots: 0,
            }
        }
    }

    /// The end of a session in parts that hasn't ended.
    fn end_alive(&mut self, code: u16, now: u64) -> Left<N>
        requires tick { now ≤ GREATEST_TICK }
        requires code { (code ≡ destroyed) ⊎ ((code ≡ timed_out)
            × IsOverdue (counts_as now self.old.history.list) (heard self.old.number self.old.history.list)) }
        requires alive { is_alive (heard self.old.number self.old.history.list).life ≡ true }
        requires lives { Lives N.deed.config self.old.number self.old.history.list self.old.watches.items
            self.old.subs.items self.old.session }
        ensures ends { EndsAll N.deed.config self.old.number code (counts_as now self.old.history.list)
            self.old.history.list self.new.history.list self.old.watches.items result.slots result.subs.items }
        ensures lives { Lives N.deed.config self.old.number self.new.history.list self.old.watches.items
            self.new.subs.items self.new.session }
        ensures table { self.new.history.table ≡ self.old.history.table }
        ensures rest { self.new ≡ record self.old {
          session = self.new.session;
          history = self.new.history;
          subs = self.new.subs;
        } }
    {
        let tick = self.history.tick(now);
        let slots = self.session.finish(code).len() as u64;
        self.history.tell(&Told::Ended { code, tick });
        let subs = replace(&mut self.subs, Vec::new(self.alloc));
        Left { subs, slots }
    }
}

/// The history tells of the line that was numbered last, which is of no slot.
fn tell_last(session: &Session, history: &mut History, tick: u64)
    requires last { (text : List ℕ) × HasLast session.now text }
    requires room { length history.old.list < 2 ^ 61 }
    requires tick { tick ≤ GREATEST_TICK }
    ensures told { (text : List ℕ) → HasLast session.now text
        → history.new ≡ record history.old { list = history.old.list ++ plain text tick ∷ [] } }
    ensures table { history.new.table ≡ history.old.table }
{
    let Some(line) = session.line(session.last()) else {
        unreachable!()
    };
    history.tell_numbered(line, no_cut(), tick);
}

/// That a frequency has 64 bits: a line that tells of it is short.
fn is_small(frequency: Option<u64>)
    ensures { ForSome frequency (λ f. f < 2 ^ 64) }
{
    match frequency {
        None => {}
        Some(frequency) => has_64(frequency),
    }
}

/// That a number has 64 bits.
fn has_64(number: u64)
    ensures { number < 2 ^ 64 }
{
    let _ = number;
}

/// Takes the seats of a subscription, the last ones, out of those of all. There is room for them.
fn take_sub<N: House>(all: &mut Vec<SubSeats<N>>, sub: u32, taken: &mut Vec<SubSeats<N>>)
    requires room { vec_len taken.old + 1 ≤ vec_capacity taken.old }
    requires none { taken.old.items ≡ [] }
    ensures others { (config : List ItemDef) (ws : List Watched) (v : LiveSlot) → is_of sub v ≡ false
        → HasSeat config ws all.old.items v → HasSeat config ws all.new.items v }
    ensures taken { (config : List ItemDef) (ws : List Watched) (v : LiveSlot) → is_of sub v ≡ true
        → HasSeat config ws all.old.items v → HasSeat config ws taken.new.items v }
{
    let Some(place) = last_place(all, sub) else {
        return;
    };
    taken.push_reserved(all.remove(place));
}
