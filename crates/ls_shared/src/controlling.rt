//! What requests do to the sessions of a server (TLCP 2.1, control).
ghost use Rattle.std.specs.Prelude.{◌≡◌, ◌≤◌, ◌<◌, ℕ, true, OnOk, OnErr, IsErrOf};
ghost use Rattle.std.specs.Option.{ForSome};
ghost use mathlib.Core.List.{IsPrefix};
ghost use Rattle.ls_value.specs.declared.limits.TheConstants.{GREATEST_TICK};
ghost use Rattle.ls_request.specs.Ranges.{IsOrdinal, OpFits};
ghost use Rattle.ls_request.specs.declared.request.Op.TheVariants as op_is;
ghost use Rattle.ls_register.specs.Sessions.{Gains};
ghost use Rattle.ls_register.specs.declared.made.Made.TheVariants.{Freed, Gone};
ghost use Rattle.ls_subs.specs.declared.plan.Refusal.TheVariants as Refusal;
ghost use Rattle.ls_told.specs.Seen.{Grows, LawfulTold};
ghost use Rattle.ls_told.specs.Requests.{Does, RefusesOp};
ghost use Rattle.ls_live_session.specs.Sights.{ShowsAll};
ghost use Rattle.ls_shared.specs.Answers.{AsksSlots, Changes, SeesOn};
ghost use Rattle.ls_shared.specs.Operations.{AddsNothing, ClaimsFor, HadRates, HasWish};

use crate::shared::Shared;
use crate::testimony::Testimony;
use ls_live_session::{Left, LiveSession, Sight};
use ls_register::{House, wait_for_good};
use ls_request::Op;
use ls_session::DESTROYED;
use ls_subs::Refusal;
use std::sync::Wait;

impl<N: House> Shared<N> {
    /// Does an operation on the session of which `seen` is, at a tick, in ms, of at most
    /// [`GREATEST_TICK`](ls_value::GREATEST_TICK). A session that was without a stream for too long ends first. It is
    /// refused, in this order, with those of these codes that are the operation's: 20 where the session has ended, 72
    /// where a subscription of that number is live, 19 where none is, 70 where too many lines wait, 21 for a group, 24
    /// for a mode, 23 for a schema, 71 where there are too many subscriptions or slots, 74 where no number is left or a
    /// history is spent. `seen` then has what stands under the session's lock. The call may wait.
    pub fn control<R: Wait>(
        &self,
        rt: &R,
        session: u64,
        op: &Op,
        now: u64,
        seen: &mut Testimony<N>,
    ) -> Result<(), Refusal>
        requires tick { now ≤ GREATEST_TICK }
        requires named { session ≡ seen.old.number }
        requires op { OpFits op.now }
        ensures mine { seen.new.mine ≡ seen.old.mine }
        ensures grows { OnOk result (Grows seen.old seen.new) }
        ensures done { OnOk result (Does N.deed.config op.now now seen.old seen.new) }
        ensures claimed { OnOk result (ClaimsFor N.deed.config op.now seen.old seen.new) }
        ensures wish { OnOk result (HasWish op.now seen.new.lines) }
        ensures refused { (code : ℕ) → IsErrOf result (Refusal.Code code) → Grows seen.old seen.new
            × RefusesOp N.deed.config seen.old.number op.now code seen.new.lines seen.new.watches seen.new.register }
        ensures rates { IsErrOf result (Refusal.Code 70) → HadRates op.now seen.new.lines }
        ensures memory { IsErrOf result Refusal.NoMemory → SeesOn seen.old seen.new }
        ensures lawful { LawfulTold N.deed.config seen.new }
    {
        let Testimony { held, sight } = seen;
        let mut guard = held.lock(rt);
        let Some(live) = guard.take() else {
            wait_for_good(rt);
            unreachable!()
        };
        let (live, answer) = self.operate(rt, live, sight, op, now);
        live.bell().ring();
        sight.vouch();
        *guard = Some(live);
        answer
    }

    /// Does an operation on a session, which comes back. One that is refused adds nothing to the session's history.
    fn operate<R: Wait>(
        &self,
        rt: &R,
        live: LiveSession<N>,
        sight: &mut Sight<N>,
        op: &Op,
        now: u64,
    ) -> (LiveSession<N>, Result<(), Refusal>)
        requires tick { now ≤ GREATEST_TICK }
        requires op { OpFits op.now }
        ensures mine { sight.new.mine ≡ sight.old.mine }
        ensures grows { OnOk result.1 (Grows sight.old sight.new) }
        ensures done { OnOk result.1 (Does N.deed.config op.now now sight.old sight.new) }
        ensures claimed { OnOk result.1 (ClaimsFor N.deed.config op.now sight.old sight.new) }
        ensures refused { (code : ℕ) → IsErrOf result.1 (Refusal.Code code) → Grows sight.old sight.new
            × RefusesOp N.deed.config sight.old.number op.now code sight.new.lines sight.new.watches sight.new.register }
        ensures memory { IsErrOf result.1 Refusal.NoMemory → SeesOn sight.old sight.new }
        ensures nothing { OnErr result.1 (AddsNothing live.number now live.lines result.0.lines) }
    {
        match op {
            Op::Add(add) => self.add(rt, live, sight, add, now),
            _ => {
                let mut live = live;
                let answer = self.alter(rt, &mut live, sight, op, now);
                (live, answer)
            }
        }
    }

    /// Does an operation that asks for no slots on a session behind its lock. It waits for good on one that does. It
    /// isn't inlined, so that the stack of a subscription that is added isn't under that of other operations.
    #[inline(never)]
    fn alter<R: Wait>(
        &self,
        rt: &R,
        live: &mut LiveSession<N>,
        sight: &mut Sight<N>,
        op: &Op,
        now: u64,
    ) -> Result<(), Refusal>
        requires tick { now ≤ GREATEST_TICK }
        requires op { OpFits op.now }
        ensures mine { sight.new.mine ≡ sight.old.mine }
        ensures grows { OnOk result (Grows sight.old sight.new) }
        ensures done { OnOk result (Does N.deed.config op.now now sight.old sight.new) }
        ensures refused { (code : ℕ) → IsErrOf result (Refusal.Code code) → Grows sight.old sight.new
            × RefusesOp N.deed.config sight.old.number op.now code sight.new.lines sight.new.watches sight.new.register }
        ensures plain { OnOk result (AsksSlots op.now → ⊥) }
        ensures memory { IsErrOf result Refusal.NoMemory → SeesOn sight.old sight.new }
        ensures nothing { OnErr result (AddsNothing live.old.number now live.old.lines live.new.lines) }
    {
        let Ok(()) = self.reach(rt, live, sight) else {
            return Err(Refusal::NoMemory);
        };
        self.end_overdue(rt, live, now);
        live.show_lines(sight);
        self.change(rt, live, sight, op, now)
    }

    /// Does an operation on a session of which the caller sees all.
    fn change<R: Wait>(
        &self,
        rt: &R,
        live: &mut LiveSession<N>,
        sight: &mut Sight<N>,
        op: &Op,
        now: u64,
    ) -> Result<(), Refusal>
        requires tick { now ≤ GREATEST_TICK }
        requires op { OpFits op.now }
        requires shows { ShowsAll live.old sight.old }
        ensures plain { AsksSlots op.now → ⊥ }
        ensures live { live.new ≡ record live.old { lines = live.new.lines } }
        ensures err { OnErr result (live.new.lines ≡ live.old.lines) }
        ensures grows { Grows sight.old sight.new }
        ensures mine { sight.new.mine ≡ sight.old.mine }
        ensures done { OnOk result (Changes N.deed.config op.now now live.old sight.old sight.new) }
        ensures refused { (code : ℕ) → IsErrOf result (Refusal.Code code)
            → RefusesOp N.deed.config sight.old.number op.now code sight.new.lines sight.new.watches sight.new.register }
    {
        match op {
            Op::Add(_) => {
                wait_for_good(rt);
                unreachable!()
            }
            Op::Delete { sub } => self.delete(rt, live, sight, *sub, now),
            Op::Reconf { sub, frequency } => reconf(live, sight, *sub, *frequency, now),
            Op::Constrain { bandwidth } => constrain(live, sight, *bandwidth, now),
            Op::ForceRebind => force_rebind(live, sight, now),
            Op::Destroy => self.destroy(rt, live, sight, now),
        }
    }

    /// A subscription ends, and its slots leave.
    fn delete<R: Wait>(
        &self,
        rt: &R,
        live: &mut LiveSession<N>,
        sight: &mut Sight<N>,
        sub: u32,
        now: u64,
    ) -> Result<(), Refusal>
        requires tick { now ≤ GREATEST_TICK }
        requires sub { IsOrdinal sub }
        requires shows { ShowsAll live.old sight.old }
        ensures live { live.new ≡ record live.old { lines = live.new.lines } }
        ensures err { OnErr result (live.new.lines ≡ live.old.lines) }
        ensures grows { Grows sight.old sight.new }
        ensures mine { sight.new.mine ≡ sight.old.mine }
        ensures done { OnOk result (Changes N.deed.config (op_is.Delete sub) now live.old sight.old sight.new) }
        ensures refused { (code : ℕ) → IsErrOf result (Refusal.Code code)
            → RefusesOp N.deed.config sight.old.number (op_is.Delete sub) code sight.new.lines sight.new.watches sight.new.register }
    {
        match live.delete(sub, now) {
            Err(refusal) => {
                live.show_lines(sight);
                Err(refusal)
            }
            Ok(left) => {
                let Left { subs, slots } = left;
                self.leave_all(rt, subs);
                self.free(rt, sight, slots);
                live.show_lines(sight);
                Ok(())
            }
        }
    }

    /// Gives room for so many slots back, and shows it to a caller.
    pub(crate) fn free<R: Wait>(&self, rt: &R, sight: &mut Sight<N>, slots: u64)
        ensures rest { sight.new ≡ record sight.old { register = sight.new.register } }
        ensures begins { IsPrefix sight.old.register sight.new.register }
        ensures freed { Gains (Freed slots) sight.old.register sight.new.register }
    {
        let Ok(slots) = u32::try_from(slots) else {
            wait_for_good(rt);
            unreachable!()
        };
        let mut book = self.book.lock(rt);
        sight.show_register(&self.register, &mut book);
        let freed = book.free(&self.register, slots);
        expect_it(rt, freed);
        sight.show_register(&self.register, &mut book);
    }

    /// A session ends on a request: its slots leave, and it is gone from the register.
    fn destroy<R: Wait>(
        &self,
        rt: &R,
        live: &mut LiveSession<N>,
        sight: &mut Sight<N>,
        now: u64,
    ) -> Result<(), Refusal>
        requires tick { now ≤ GREATEST_TICK }
        requires shows { ShowsAll live.old sight.old }
        ensures live { live.new ≡ record live.old { lines = live.new.lines } }
        ensures err { OnErr result (live.new.lines ≡ live.old.lines) }
        ensures grows { Grows sight.old sight.new }
        ensures mine { sight.new.mine ≡ sight.old.mine }
        ensures done { OnOk result (Changes N.deed.config op_is.Destroy now live.old sight.old sight.new) }
        ensures refused { (code : ℕ) → IsErrOf result (Refusal.Code code)
            → RefusesOp N.deed.config sight.old.number op_is.Destroy code sight.new.lines sight.new.watches sight.new.register }
    {
        if live.is_alive() {
            let Left { subs, slots } = live.end(DESTROYED, now);
            self.leave_all(rt, subs);
            self.gone(rt, sight, slots);
            live.show_lines(sight);
            Ok(())
        } else {
            sight.vouch();
            Err(Refusal::Code(20))
        }
    }

    /// The session of a caller is gone from the register, and room for so many slots is given back; and it is shown to
    /// the caller.
    fn gone<R: Wait>(&self, rt: &R, sight: &mut Sight<N>, slots: u64)
        ensures rest { sight.new ≡ record sight.old { register = sight.new.register } }
        ensures begins { IsPrefix sight.old.register sight.new.register }
        ensures freed { Gains (Freed slots) sight.old.register sight.new.register }
        ensures gone { Gains (Gone sight.old.number) sight.old.register sight.new.register }
    {
        let Ok(slots) = u32::try_from(slots) else {
            wait_for_good(rt);
            unreachable!()
        };
        let mut book = self.book.lock(rt);
        sight.show_register(&self.register, &mut book);
        let row = book.gone(&self.register, sight.number(), slots);
        expect_it(rt, row.is_some());
        sight.show_register(&self.register, &mut book);
    }
}

/// Where something isn't so, it waits for good.
pub(crate) fn expect_it<R: Wait>(rt: &R, is: bool)
    ensures { is ≡ true }
{
    if !is {
        wait_for_good(rt);
    }
}

/// A subscription gets another greatest frequency.
fn reconf<N: House>(
    live: &mut LiveSession<N>,
    sight: &mut Sight<N>,
    sub: u32,
    frequency: Option<u64>,
    now: u64,
) -> Result<(), Refusal>
    requires tick { now ≤ GREATEST_TICK }
    requires sub { IsOrdinal sub }
    requires some { ForSome frequency (λ f. 0 < f) }
    requires shows { ShowsAll live.old sight.old }
    ensures live { live.new ≡ record live.old { lines = live.new.lines } }
    ensures err { OnErr result (live.new.lines ≡ live.old.lines) }
    ensures grows { Grows sight.old sight.new }
    ensures mine { sight.new.mine ≡ sight.old.mine }
    ensures done { OnOk result (Changes N.deed.config (op_is.Reconf sub frequency) now live.old sight.old sight.new) }
    ensures refused { (code : ℕ) → IsErrOf result (Refusal.Code code)
        → RefusesOp N.deed.config sight.old.number (op_is.Reconf sub frequency) code sight.new.lines sight.new.watches sight.new.register }
{
    let answer = live.reconf(sub, frequency, now);
    live.show_lines(sight);
    answer
}

/// A session gets another bandwidth.
fn constrain<N: House>(
    live: &mut LiveSession<N>,
    sight: &mut Sight<N>,
    bandwidth: Option<u64>,
    now: u64,
) -> Result<(), Refusal>
    requires tick { now ≤ GREATEST_TICK }
    requires some { ForSome bandwidth (λ limit. 0 < limit) }
    requires shows { ShowsAll live.old sight.old }
    ensures live { live.new ≡ record live.old { lines = live.new.lines } }
    ensures err { OnErr result (live.new.lines ≡ live.old.lines) }
    ensures grows { Grows sight.old sight.new }
    ensures mine { sight.new.mine ≡ sight.old.mine }
    ensures done { OnOk result (Changes N.deed.config (op_is.Constrain bandwidth) now live.old sight.old sight.new) }
    ensures refused { (code : ℕ) → IsErrOf result (Refusal.Code code)
        → RefusesOp N.deed.config sight.old.number (op_is.Constrain bandwidth) code sight.new.lines sight.new.watches sight.new.register }
{
    let answer = live.constrain(bandwidth, now);
    live.show_lines(sight);
    answer
}

/// A session's stream is to be left by LOOP.
fn force_rebind<N: House>(
    live: &mut LiveSession<N>,
    sight: &mut Sight<N>,
    now: u64,
) -> Result<(), Refusal>
    requires tick { now ≤ GREATEST_TICK }
    requires shows { ShowsAll live.old sight.old }
    ensures live { live.new ≡ record live.old { lines = live.new.lines } }
    ensures err { OnErr result (live.new.lines ≡ live.old.lines) }
    ensures grows { Grows sight.old sight.new }
    ensures mine { sight.new.mine ≡ sight.old.mine }
    ensures done { OnOk result (Changes N.deed.config op_is.ForceRebind now live.old sight.old sight.new) }
    ensures refused { (code : ℕ) → IsErrOf result (Refusal.Code code)
        → RefusesOp N.deed.config sight.old.number op_is.ForceRebind code sight.new.lines sight.new.watches sight.new.register }
{
    let answer = live.force_rebind();
    live.show_lines(sight);
    answer
}
