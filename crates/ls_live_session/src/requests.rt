//! What requests make of a session in threads (TLCP 2.1, control).
ghost use Rattle.std.specs.Prelude.{◌≡◌, ◌≤◌, ◌<◌, ◌⊎◌, ◌++◌, ◌∷◌, [], ℕ, Option, None, Some, IfOk};
ghost use Rattle.std.specs.Prelude.{OnOk, OnErr, IsErrOf, true, false};
ghost use Rattle.std.specs.Option.{ForSome};
ghost use Rattle.ls_value.specs.declared.limits.TheConstants.{GREATEST_TICK};
ghost use Rattle.ls_request.specs.Ranges.{IsOrdinal};
ghost use Rattle.ls_request.specs.declared.request.Op.TheVariants as op;
ghost use Rattle.ls_record.specs.Acting.{destroyed};
ghost use Rattle.ls_record.specs.Records.{timed_out, is_alive};
ghost use Rattle.ls_subs.specs.declared.plan.Refusal.TheVariants as Refusal;
ghost use Rattle.ls_register.specs.declared.told.Told.TheVariants as told_is;
ghost use Rattle.ls_told.specs.Heard.{heard, counts_as};
ghost use Rattle.ls_joining.specs.Leaving.{Finds, IsOverdue, EndsSub, SetsFrequency, EndsAll};

use crate::live::LiveSession;
use ls_joining::Left;
use ls_register::House;
use ls_subs::Refusal;

impl<N: House> LiveSession<N> {
    /// Another bandwidth, in thousandths of a kbit per second, `None` for none, from a tick on, in ms: the history has
    /// its Rate. It is refused, in this order: 20 where the session has ended, 70 where too many lines are owed. A refusal
    /// changes nothing.
    pub fn constrain(&mut self, bandwidth: Option<u64>, now: u64) -> Result<(), Refusal>
        requires tick { now ≤ GREATEST_TICK }
        requires some { ForSome bandwidth (λ limit. 0 < limit) }
        ensures accepted { OnOk result (Finds N.deed.config self.old.number self.old.lines self.old.watches
            (op.Constrain bandwidth) None
            × (self.new.lines ≡ self.old.lines ++ told_is.Rate bandwidth (counts_as now self.old.lines) ∷ [])) }
        ensures refused { (code : ℕ) → IsErrOf result (Refusal.Code code) → Finds N.deed.config self.old.number
            self.old.lines self.old.watches (op.Constrain bandwidth) (Some code) }
        ensures err { OnErr result (self.new.lines ≡ self.old.lines) }
        ensures rest { self.new ≡ record self.old { lines = self.new.lines } }
    {
        self.parts.constrain(bandwidth, now)
    }

    /// A subscription ends at a tick, in ms: the history has its UNSUB, and its seats are handed back. It is refused, in
    /// this order: 20 where the session has ended, 19 where no such subscription is live, 70 where too many lines wait,
    /// 74 where no number is left or the history is spent. A refusal changes nothing.
    pub fn delete(&mut self, sub: u32, now: u64) -> Result<Left<N>, Refusal>
        requires tick { now ≤ GREATEST_TICK }
        requires sub { IsOrdinal sub }
        ensures accepted { IfOk result (λ left. Finds N.deed.config self.old.number self.old.lines self.old.watches
            (op.Delete sub) None × EndsSub N.deed.config self.old.number sub (counts_as now self.old.lines)
            self.old.lines self.new.lines self.old.watches left.slots left.subs.items) }
        ensures refused { (code : ℕ) → IsErrOf result (Refusal.Code code) → Finds N.deed.config self.old.number
            self.old.lines self.old.watches (op.Delete sub) (Some code) }
        ensures err { OnErr result (self.new.lines ≡ self.old.lines) }
        ensures rest { self.new ≡ record self.old { lines = self.new.lines } }
    {
        self.parts.delete(sub, now)
    }

    /// Another greatest frequency of a subscription at a tick, in ms: the history has its CONF. It is refused as
    /// [`LiveSession::delete`] is. A refusal changes nothing.
    pub fn reconf(&mut self, sub: u32, frequency: Option<u64>, now: u64) -> Result<(), Refusal>
        requires tick { now ≤ GREATEST_TICK }
        requires sub { IsOrdinal sub }
        requires some { ForSome frequency (λ f. 0 < f) }
        ensures accepted { OnOk result (Finds N.deed.config self.old.number self.old.lines self.old.watches
            (op.Reconf sub frequency) None × SetsFrequency N.deed.config self.old.number sub frequency
            (counts_as now self.old.lines) self.old.lines self.new.lines self.old.watches) }
        ensures refused { (code : ℕ) → IsErrOf result (Refusal.Code code) → Finds N.deed.config self.old.number
            self.old.lines self.old.watches (op.Reconf sub frequency) (Some code) }
        ensures err { OnErr result (self.new.lines ≡ self.old.lines) }
        ensures rest { self.new ≡ record self.old { lines = self.new.lines } }
    {
        self.parts.reconf(sub, frequency, now)
    }

    /// The session ends at a tick, in ms, for the cause of a code, [`DESTROYED`](ls_session::DESTROYED) or
    /// [`TIMED_OUT`](ls_session::TIMED_OUT): the history has its Ended, and all its seats are handed back. It ends for
    /// want of a stream only where it is without one for long enough. One that has ended stays as it is, and hands back
    /// none. It takes no memory.
    pub fn end(&mut self, code: u16, now: u64) -> Left<N>
        requires tick { now ≤ GREATEST_TICK }
        requires code { (code ≡ destroyed)
            ⊎ ((code ≡ timed_out) × IsOverdue (counts_as now self.old.lines) (heard self.old.number self.old.lines)) }
        ensures alive { is_alive (heard self.old.number self.old.lines).life ≡ true
            → EndsAll N.deed.config self.old.number code (counts_as now self.old.lines) self.old.lines self.new.lines
            self.old.watches result.slots result.subs.items }
        ensures ended { is_alive (heard self.old.number self.old.lines).life ≡ false
            → (self.new.lines ≡ self.old.lines) × (result.slots ≡ 0) }
        ensures rest { self.new ≡ record self.old { lines = self.new.lines } }
    {
        self.parts.end(code, now)
    }
}
