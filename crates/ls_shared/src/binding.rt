//! Streams of sessions that are bound and lost, and what callers of a session reach (TLCP 2.1, bind_session).
ghost use Rattle.std.specs.Prelude.{◌≡◌, ◌≤◌, ◌<◌, ℕ, Some, IfOk, IfSome, OnOk, OnErr, IsErrOf};
ghost use mathlib.Core.List.{IsPrefix};
ghost use Rattle.ls_value.specs.declared.limits.TheConstants.{GREATEST_TICK};
ghost use Rattle.ls_subs.specs.declared.plan.Refusal.TheVariants as Refusal;
ghost use Rattle.ls_value.specs.Each.{Each};
ghost use Rattle.ls_told.specs.Seen.{FitsWatch, Grows, LawfulTold, SeesMore};
ghost use Rattle.ls_told.specs.Requests.{HasBound, OnlyLater, bind_code_of};
ghost use Rattle.ls_live_session.specs.Sights.{SeesOf, MeetEach};
ghost use Rattle.ls_shared.specs.Answers.{BindsOn, Loses, Reaches, SeesOn};
ghost use Rattle.ls_shared.specs.Operations.{AddsNothing};

use crate::shared::Shared;
use crate::testimony::Testimony;
use ls_live::PubPass;
use ls_live_session::{LiveSession, Sight};
use ls_record::MOST_UNBOUND;
use ls_register::{House, wait_for_good};
use ls_request::Bind;
use ls_session::Lost;
use ls_subs::Refusal;
use ls_value::NoMemory;
use std::sync::Wait;
use std::sync::atomic::Ordering;

impl<N: House> Shared<N> {
    /// A new stream of the session that the bind names and of which `seen` is, at a tick, in ms, of at most
    /// [`GREATEST_TICK`](ls_value::GREATEST_TICK); its epoch is answered. A session that was without a stream for too
    /// long ends first. It is refused, in this order: 20 where the session has ended, 4 where the line after the
    /// client's count isn't kept or wasn't numbered, 74 where no epoch is left or the session's history is spent.
    /// `seen` then has what stands under the session's lock. The call may wait.
    pub fn bind<R: Wait>(
        &self,
        rt: &R,
        bind: &Bind,
        now: u64,
        seen: &mut Testimony<N>,
    ) -> Result<u64, Refusal>
        requires tick { now ≤ GREATEST_TICK }
        requires named { bind.now.session ≡ seen.old.number }
        ensures mine { seen.new.mine ≡ seen.old.mine }
        ensures bound { IfOk result (λ epoch. BindsOn bind.now now epoch seen.old seen.new) }
        ensures grows { OnOk result (Grows seen.old seen.new) }
        ensures has { IfOk result (λ epoch. HasBound epoch seen.new.lines) }
        ensures refused { (code : ℕ) → IsErrOf result (Refusal.Code code)
            → Grows seen.old seen.new × (bind_code_of seen.old.number seen.new.lines bind.now.recover ≡ Some code) }
        ensures memory { IsErrOf result Refusal.NoMemory → SeesOn seen.old seen.new }
        ensures lawful { LawfulTold N.deed.config seen.new }
    {
        let Testimony { held, sight } = seen;
        let mut guard = held.lock(rt);
        let Some(live) = &mut *guard else {
            wait_for_good(rt);
            unreachable!()
        };
        let answer = self.bind_in(rt, live, sight, bind, now);
        live.bell().ring();
        sight.vouch();
        answer
    }

    /// The stream of an epoch, of which `seen` has the Bound, is lost at a tick, in ms, of at most
    /// [`GREATEST_TICK`](ls_value::GREATEST_TICK). Only the later one of both lists of the session's history grows. It
    /// takes no memory, and may wait.
    pub fn lose<R: Wait>(&self, rt: &R, seen: &mut Testimony<N>, epoch: u64, now: u64) -> Lost
        requires tick { now ≤ GREATEST_TICK }
        requires bound { HasBound epoch seen.old.lines }
        ensures only { OnlyLater seen.old seen.new }
        ensures lost { Loses epoch now seen.old seen.new result }
        ensures lawful { LawfulTold N.deed.config seen.new }
    {
        let Testimony { held, sight } = seen;
        let mut guard = held.lock(rt);
        let Some(live) = &mut *guard else {
            wait_for_good(rt);
            unreachable!()
        };
        let lost = self.lose_in(rt, live, sight, epoch, now);
        self.note_loss(live);
        sight.vouch();
        lost
    }

    /// Each reader in `seen` of the pass's item, by its place in the register, gets the longer of its list and the
    /// pass's. It takes no lock and no memory.
    pub fn meet(&self, pass: &mut PubPass<N>, seen: &mut Testimony<N>)
        ensures pass { pass.new ≡ pass.old }
        ensures rest { seen.new ≡ record seen.old { watches = seen.new.watches } }
        ensures more { SeesMore seen.old.watches seen.new.watches }
        ensures has { IfSome pass.old.place (λ p. SeesOf p.at pass.old.list seen.new.watches) }
        ensures each { MeetEach pass.old seen.old.watches seen.new.watches }
        ensures lawful { LawfulTold N.deed.config seen.new }
    {
        seen.sight.meet(&self.register, pass);
        seen.sight.vouch();
    }

    /// A new stream of a session, which the bind names.
    fn bind_in<R: Wait>(
        &self,
        rt: &R,
        live: &mut LiveSession<N>,
        sight: &mut Sight<N>,
        bind: &Bind,
        now: u64,
    ) -> Result<u64, Refusal>
        requires tick { now ≤ GREATEST_TICK }
        requires named { bind.now.session ≡ sight.old.number }
        ensures mine { sight.new.mine ≡ sight.old.mine }
        ensures bound { IfOk result (λ epoch. BindsOn bind.now now epoch sight.old sight.new) }
        ensures grows { OnOk result (Grows sight.old sight.new) }
        ensures refused { (code : ℕ) → IsErrOf result (Refusal.Code code)
            → Grows sight.old sight.new × (bind_code_of sight.old.number sight.new.lines bind.now.recover ≡ Some code) }
        ensures memory { IsErrOf result Refusal.NoMemory → SeesOn sight.old sight.new }
        ensures nothing { OnErr result (AddsNothing live.old.number now live.old.lines live.new.lines) }
    {
        let Ok(()) = self.reach(rt, live, sight) else {
            return Err(Refusal::NoMemory);
        };
        self.end_overdue(rt, live, now);
        let answer = live.bind(bind, now);
        live.show_lines(sight);
        answer
    }

    /// A stream of a session is lost.
    fn lose_in<R: Wait>(
        &self,
        rt: &R,
        live: &mut LiveSession<N>,
        sight: &mut Sight<N>,
        epoch: u64,
        now: u64,
    ) -> Lost
        requires tick { now ≤ GREATEST_TICK }
        ensures only { OnlyLater sight.old sight.new }
        ensures lost { Loses epoch now sight.old sight.new result }
    {
        self.expect(rt, live, sight);
        live.show_later(sight);
        let lost = live.lose(epoch, now);
        live.says();
        live.show_later(sight);
        lost
    }

    /// Where a sight isn't of a session, it waits for good.
    fn expect<R: Wait>(&self, rt: &R, live: &mut LiveSession<N>, sight: &mut Sight<N>)
        ensures same { (live.new ≡ live.old) × (sight.new ≡ sight.old) }
        ensures one { (sight.old.number ≡ live.old.number) × (sight.old.table ≡ live.old.table) }
    {
        if !live.is_of(&self.register, sight) {
            wait_for_good(rt);
        }
    }

    /// A session behind its lock, and what a caller has seen of it: the caller then sees all that the session has. Where
    /// it isn't the caller's session, it waits for good.
    pub(crate) fn reach<R: Wait>(
        &self,
        rt: &R,
        live: &mut LiveSession<N>,
        sight: &mut Sight<N>,
    ) -> Result<(), NoMemory>
        ensures reached { OnOk result (Reaches live.old live.new sight.old sight.new) }
        ensures rest { live.new ≡ record live.old { watches = live.new.watches } }
        ensures more { SeesMore live.old.watches live.new.watches }
        ensures fit { OnOk result (Each (FitsWatch N.deed.config) live.new.watches) }
        ensures err { OnErr result (sight.new ≡ sight.old) }
    {
        self.expect(rt, live, sight);
        if !live.show_items(&self.register, sight)? {
            wait_for_good(rt);
        }
        live.show(&self.register, sight);
        Ok(())
    }

    /// Keeps the tick, in ms, at which a session that has no stream is without one for too long.
    pub(crate) fn note_loss(&self, live: &LiveSession<N>) {
        if let Some(since) = live.since() {
            self.overdue
                .fetch_min(since.saturating_add(MOST_UNBOUND), Ordering::SeqCst);
        }
    }
}
