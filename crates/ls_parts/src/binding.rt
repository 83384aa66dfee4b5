//! Streams of a session that are bound, lost and left (TLCP 2.1, bind_session and force_rebind).
ghost use Rattle.std.specs.Prelude.{◌≡◌, ◌≤◌, ◌<◌, ◌+◌, ◌++◌, ◌∷◌, [], ℕ, None, Some, IfOk, OnOk, OnErr, IsErrOf, length};
ghost use Rattle.std.specs.Prelude.{nat_lt, is_some, unwrap_or, false};
ghost use Rattle.ls_value.specs.declared.limits.TheConstants.{GREATEST_TICK};
ghost use Rattle.ls_request.specs.declared.request.Op.TheVariants as op;
ghost use Rattle.ls_subs.specs.declared.plan.Refusal.TheVariants as Refusal;
ghost use Rattle.ls_session.specs.declared.session.Lost.TheVariants as lost;
ghost use Rattle.ls_register.specs.declared.told.Told.TheVariants as told_is;
ghost use Rattle.ls_told.specs.Heard.{heard, counts_as};
ghost use Rattle.ls_told.specs.Requests.{bind_code_of, ForcesRebind};
ghost use Rattle.ls_told.specs.Turns.{IsUnbound};
ghost use Rattle.ls_taking.specs.Lives.{Lives};
ghost use Rattle.ls_parts.specs.Leaving.{Finds};

use crate::parts::SessionParts;
use ls_register::{House, Told};
use ls_request::Bind;
use ls_session::Lost;
use ls_subs::Refusal;

impl<N: House> SessionParts<N> {
    /// A new stream of a session in parts at a tick, in ms, for a bind that names it. Its epoch is answered, and the history
    /// has its Bound. It is refused, in this order: 20 where the session has ended, 4 where the line after the count isn't kept
    /// or the count is beyond the last line, 74 where no epoch is left or the history is spent. A refusal changes nothing
    /// (TLCP 2.1, bind_session).
    pub fn bind(&mut self, bind: &Bind, now: u64) -> Result<u64, Refusal>
        requires tick { now ≤ GREATEST_TICK }
        requires named { bind.now.session ≡ self.old.number }
        requires lives { Lives N.deed.config self.old.number self.old.history.list self.old.watches.items
            self.old.subs.items self.old.session }
        ensures accepted { IfOk result (λ epoch.
            (bind_code_of self.old.number self.old.history.list bind.now.recover ≡ None)
            × (epoch ≡ length (heard self.old.number self.old.history.list).streams + 1)
            × (self.new.history.list ≡ self.old.history.list ++ told_is.Bound epoch
            (unwrap_or bind.now.recover (heard self.old.number self.old.history.list).sent) (is_some bind.now.recover)
            bind.now.keepalive bind.now.length ∷ [])) }
        ensures refused { (code : ℕ) → IsErrOf result (Refusal.Code code)
            → bind_code_of self.old.number self.old.history.list bind.now.recover ≡ Some code }
        ensures err { OnErr result (self.new.history.list ≡ self.old.history.list) }
        ensures lives { Lives N.deed.config self.old.number self.new.history.list self.old.watches.items
            self.old.subs.items self.new.session }
        ensures table { self.new.history.table ≡ self.old.history.table }
        ensures rest { self.new ≡ record self.old { session = self.new.session; history = self.new.history } }
    {
        if self.history.is_spent() {
            return Err(Refusal::Code(spent_code(self.session.code_of_bind(bind))));
        }
        let tick = self.history.tick(now);
        match self.session.bind(bind, tick) {
            Ok(epoch) => {
                let told = Told::Bound {
                    epoch,
                    from: self.session.sent(),
                    counted: bind.recover.is_some(),
                    keepalive: bind.keepalive,
                    length: bind.length,
                };
                self.history.tell(&told);
                Ok(epoch)
            }
            Err(refusal) => Err(refusal),
        }
    }

    /// The stream of an epoch of a session in parts is lost at a tick, in ms. A tick below those of the history's entries counts
    /// as the greatest of them. Where it was bound, the history has its Unbound. It takes no memory.
    pub fn lose(&mut self, epoch: u64, now: u64) -> Lost
        requires tick { now ≤ GREATEST_TICK }
        requires lives { Lives N.deed.config self.old.number self.old.history.list self.old.watches.items
            self.old.subs.items self.old.session }
        ensures unbound { result ≡ lost.Unbound
            → (nat_lt epoch (length (heard self.old.number self.old.history.list).streams) ≡ false)
            × ((heard self.old.number self.old.history.list).unbound ≡ None)
            × (self.new.history.list
            ≡ self.old.history.list ++ told_is.Unbound (counts_as now self.old.history.list) ∷ []) }
        ensures superseded { (newest : ℕ) → result ≡ lost.Superseded newest
            → (epoch < newest) × (newest ≡ length (heard self.old.number self.old.history.list).streams)
            × (self.new.history.list ≡ self.old.history.list) }
        ensures not_bound { result ≡ lost.NotBound
            → IsUnbound self.old.number self.old.history.list × (self.new.history.list ≡ self.old.history.list)
            × (nat_lt epoch (length (heard self.old.number self.old.history.list).streams) ≡ false) }
        ensures lives { Lives N.deed.config self.old.number self.new.history.list self.old.watches.items
            self.old.subs.items self.new.session }
        ensures table { self.new.history.table ≡ self.old.history.table }
        ensures rest { self.new ≡ record self.old { session = self.new.session; history = self.new.history } }
    {
        let tick = self.history.tick(now);
        let lost = self.session.lose(epoch, tick);
        if let Lost::Unbound = lost {
            self.history.tell(&Told::Unbound { tick });
        }
        lost
    }

    /// The newest stream of a session in parts is to be left by LOOP: the history has a Rebind after its Bound. It is refused
    /// with 20 where the session has ended. It takes no memory (TLCP 2.1, force_rebind).
    pub fn force_rebind(&mut self) -> Result<(), Refusal>
        requires lives { Lives N.deed.config self.old.number self.old.history.list self.old.watches.items
            self.old.subs.items self.old.session }
        ensures accepted { OnOk result (Finds N.deed.config self.old.number self.old.history.list
            self.old.watches.items op.ForceRebind None
            × ForcesRebind self.old.number self.old.history.list self.new.history.list) }
        ensures refused { (code : ℕ) → IsErrOf result (Refusal.Code code) → Finds N.deed.config self.old.number
            self.old.history.list self.old.watches.items op.ForceRebind (Some code) }
        ensures err { OnErr result (self.new.history.list ≡ self.old.history.list) }
        ensures lives { Lives N.deed.config self.old.number self.new.history.list self.old.watches.items
            self.old.subs.items self.new.session }
        ensures table { self.new.history.table ≡ self.old.history.table }
        ensures rest { self.new ≡ record self.old { session = self.new.session; history = self.new.history } }
    {
        match self.session.force_rebind() {
            Ok(()) => {
                if !self.history.is_forced() {
                    self.history.tell(&Told::Rebind);
                }
                Ok(())
            }
            Err(refusal) => Err(refusal),
        }
    }
}

/// The code of a request that adds to a history that is spent, by the code that it has otherwise.
pub(crate) fn spent_code(code: Option<u16>) -> u16
    ensures { result ≡ unwrap_or code 74 }
{
    code.unwrap_or(74)
}
