//! Streams of a session that are bound, lost and left (TLCP 2.1, bind_session and force_rebind).
ghost use Rattle.std.specs.Prelude.{◌≡◌, ◌≤◌, ◌<◌, ◌+◌, ◌++◌, ◌∷◌, [], ℕ, None, Some, IfOk, OnOk, OnErr, IsErrOf, length};
ghost use Rattle.std.specs.Prelude.{nat_lt, is_some, unwrap_or, false};
ghost use Rattle.ls_value.specs.declared.limits.TheConstants.{GREATEST_TICK};
ghost use Rattle.ls_request.specs.declared.request.Op.TheVariants as op;
ghost use Rattle.ls_subs.specs.declared.plan.Refusal.TheVariants as Refusal;
ghost use Rattle.ls_session.specs.declared.session.Lost.TheVariants as lost;
ghost use Rattle.ls_register.specs.declared.told.Told.TheVariants as told_is;
ghost use Rattle.ls_told.specs.Heard.{heard, counts_as};
ghost use Rattle.ls_told.specs.Requests.{bind_code_of, ForcesRebind};
ghost use Rattle.ls_told.specs.Turns.{IsUnbound};
ghost use Rattle.ls_joining.specs.Leaving.{Finds};

use crate::live::LiveSession;
use ls_register::House;
use ls_request::Bind;
use ls_session::Lost;
use ls_subs::Refusal;

impl<N: House> LiveSession<N> {
    /// A new stream at a tick, in ms, as [`Session::bind`](ls_session::Session::bind) binds it, for a bind that names
    /// this session. Its epoch is answered, and the history has its Bound. It is refused, in this order: 20 where the
    /// session has ended, 4 where the line after the count isn't kept or the count is beyond the last line, 74 where no
    /// epoch is left or the history is spent. A refusal changes nothing.
    pub fn bind(&mut self, bind: &Bind, now: u64) -> Result<u64, Refusal>
        requires tick { now ≤ GREATEST_TICK }
        requires named { bind.now.session ≡ self.old.number }
        ensures accepted { IfOk result (λ epoch. (bind_code_of self.old.number self.old.lines bind.now.recover ≡ None)
            × (epoch ≡ length (heard self.old.number self.old.lines).streams + 1)
            × (self.new.lines ≡ self.old.lines ++ told_is.Bound epoch
            (unwrap_or bind.now.recover (heard self.old.number self.old.lines).sent) (is_some bind.now.recover)
            bind.now.keepalive bind.now.length ∷ [])) }
        ensures refused { (code : ℕ) → IsErrOf result (Refusal.Code code)
            → bind_code_of self.old.number self.old.lines bind.now.recover ≡ Some code }
        ensures err { OnErr result (self.new.lines ≡ self.old.lines) }
        ensures rest { self.new ≡ record self.old { lines = self.new.lines } }
    {
        self.parts.bind(bind, now)
    }

    /// The stream of an epoch is lost at a tick, in ms. A tick below those of the history's entries counts as the
    /// greatest of them. Where it was bound, the history has its Unbound. It takes no memory.
    pub fn lose(&mut self, epoch: u64, now: u64) -> Lost
        requires { now ≤ GREATEST_TICK }
        ensures unbound { result ≡ lost.Unbound
            → (nat_lt epoch (length (heard self.old.number self.old.lines).streams) ≡ false)
            × ((heard self.old.number self.old.lines).unbound ≡ None)
            × (self.new.lines ≡ self.old.lines ++ told_is.Unbound (counts_as now self.old.lines) ∷ []) }
        ensures superseded { (newest : ℕ) → result ≡ lost.Superseded newest
            → (epoch < newest) × (newest ≡ length (heard self.old.number self.old.lines).streams)
            × (self.new.lines ≡ self.old.lines) }
        ensures not_bound { result ≡ lost.NotBound
            → IsUnbound self.old.number self.old.lines × (self.new.lines ≡ self.old.lines)
            × (nat_lt epoch (length (heard self.old.number self.old.lines).streams) ≡ false) }
        ensures rest { self.new ≡ record self.old { lines = self.new.lines } }
    {
        self.parts.lose(epoch, now)
    }

    /// The newest stream is to be left by LOOP: the history has a Rebind after its Bound. It is refused with 20 where
    /// the session has ended. It takes no memory.
    pub fn force_rebind(&mut self) -> Result<(), Refusal>
        ensures accepted { OnOk result (Finds N.deed.config self.old.number self.old.lines self.old.watches
            op.ForceRebind None × ForcesRebind self.old.number self.old.lines self.new.lines) }
        ensures refused { (code : ℕ) → IsErrOf result (Refusal.Code code) → Finds N.deed.config self.old.number
            self.old.lines self.old.watches op.ForceRebind (Some code) }
        ensures err { OnErr result (self.new.lines ≡ self.old.lines) }
        ensures rest { self.new ≡ record self.old { lines = self.new.lines } }
    {
        self.parts.force_rebind()
    }
}
