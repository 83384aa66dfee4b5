//! New streams, and streams that are lost (TLCP 2.1, bind_session and force_rebind).
ghost use Rattle.std.specs.Prelude.{◌≡◌, ◌≤◌, ◌+◌, ℕ, None, Some, length, IfOk, OnOk, OnErr, IsErrOf};
ghost use Rattle.ls_value.specs.declared.limits.TheConstants.{GREATEST_TICK};
ghost use Rattle.ls_record.specs.Records.{rebound, forced};
ghost use Rattle.ls_subs.specs.declared.plan.Refusal.TheVariants as Refusal;
ghost use Rattle.ls_session.specs.Record.{Record, begun_again, begun_at, unless_ended, binding_code};
ghost use Rattle.ls_session.specs.Record.{loss_of, after_loss};
ghost use Rattle.ls_session.specs.Session.{StandsSession};

use crate::session::{Lost, Session};
use ls_request::Bind;
use ls_subs::Refusal;

impl Session {
    /// A new stream at a tick, in ms, of at most [`GREATEST_TICK`](ls_value::GREATEST_TICK) and not below the floor: the
    /// next line to be given is the one after the count that the client tells, and else the one after the line given
    /// last. Its epoch is answered. It is refused, in this order: 20 where the bind names another session or the session
    /// has ended, 4 where the line after the count isn't kept or the count is beyond the last line, 74 where no epoch is
    /// left. A refusal changes nothing.
    pub fn bind(&mut self, bind: &Bind, now: u64) -> Result<u64, Refusal>
        ensures accepted { IfOk result (λ epoch. (r : Record) → StandsSession self.old r
            → (binding_code r.number r.session bind.now ≡ None) × (epoch ≡ length r.session.streams + 1)
            × (r.floor ≤ now → now ≤ GREATEST_TICK
            → StandsSession self.new (begun_at now (rebound r.number bind.now r.session) r))) }
        ensures refused { (code : ℕ) → IsErrOf result (Refusal.Code code) → (r : Record) → StandsSession self.old r
            → binding_code r.number r.session bind.now ≡ Some code }
        ensures err { OnErr result ((r : Record) → StandsSession self.old r → StandsSession self.new r) }
    {
        if let Some(code) = self.code_of_bind(bind) {
            return Err(Refusal::Code(code));
        }
        let limit = self.bandwidth.rate();
        let epoch = self.lines.bind(bind, limit)?;
        self.asking.begin(now);
        Ok(epoch)
    }

    /// The stream of an epoch is lost at a tick, in ms, of at most [`GREATEST_TICK`](ls_value::GREATEST_TICK) and not
    /// below the floor. No memory is taken.
    pub fn lose(&mut self, epoch: u64, now: u64) -> Lost
        ensures { (r : Record) → StandsSession self.old r → r.floor ≤ now → now ≤ GREATEST_TICK
            → (result ≡ loss_of epoch r.session) × StandsSession self.new (after_loss now result r) }
    {
        let newest = self.lines.epoch();
        if epoch < newest {
            return Lost::Superseded { epoch: newest };
        }
        match self.lines.since() {
            Some(_) => Lost::NotBound,
            None => {
                self.lines.unbind(now);
                self.asking.begin(now);
                Lost::Unbound
            }
        }
    }

    /// The stream is forced to be over: the next turn that owes nothing gives LOOP. It is refused with 20 where the
    /// session has ended. No memory is taken.
    pub fn force_rebind(&mut self) -> Result<(), Refusal>
        ensures accepted { OnOk result ((r : Record) → StandsSession self.old r
            → (unless_ended r.session None ≡ None) × StandsSession self.new (begun_again (forced r.session) r)) }
        ensures refused { (code : ℕ) → IsErrOf result (Refusal.Code code) → (r : Record) → StandsSession self.old r
            → unless_ended r.session None ≡ Some code }
        ensures memory { IsErrOf result Refusal.NoMemory → ⊥ }
        ensures err { OnErr result ((r : Record) → StandsSession self.old r → StandsSession self.new r) }
    {
        if self.is_alive() {
            self.lines.force();
            let tick = self.asking.tick();
            self.asking.begin(tick);
            Ok(())
        } else {
            Err(Refusal::Code(20))
        }
    }

    /// The tick, in ms, since which no stream is bound: `None` exactly where one is.
    pub fn since(&self) -> Option<u64>
        ensures { (r : Record) → StandsSession self.now r → result ≡ r.session.unbound }
    {
        self.lines.since()
    }
}
