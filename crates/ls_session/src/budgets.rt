//! When a slot is due, and what a line takes of a session's bandwidth (General Concepts, frequency and bandwidth).
ghost use Rattle.std.specs.Prelude.{◌≡◌, ◌≤◌, ◌+◌, ℕ, max, Some, slice_get, length};
ghost use Rattle.ls_budget.specs.Due.{due_at};
ghost use Rattle.ls_value.specs.declared.limits.TheConstants.{GREATEST_TICK};
ghost use Rattle.ls_record.specs.Records.{LiveSlot};
ghost use Rattle.ls_record.specs.Records.{due_at as due_tick_of};
ghost use Rattle.ls_subs.specs.Standing.{ref_of};
ghost use Rattle.ls_session.specs.Asking.{is_now};
ghost use Rattle.ls_session.specs.Record.{Record};
ghost use Rattle.ls_session.specs.Session.{StandsSession};

use crate::session::Session;
use ls_budget::Due;
use ls_subs::SlotRef;

impl Session {
    /// When the next slot may give a line: at the later tick of those of its frequency and of the session's credit.
    pub(crate) fn due(&self, slot: &SlotRef, now: u64) -> Due
        ensures { (r : Record) (v : LiveSlot) → StandsSession self.now r
            → slice_get r.session.board.round r.asked ≡ Some v → slot.now ≡ ref_of v
            → r.tick ≡ now → result ≡ due_at (due_tick_of now r.session v) now }
    {
        later(self.subs.due(slot, now), self.bandwidth.due(now))
    }
}

/// The later of two ticks.
pub(crate) fn later(a: Due, b: Due) -> Due
    ensures { (x y now : ℕ) → a ≡ due_at x now → b ≡ due_at y now → result ≡ due_at (max x y) now }
{
    match a {
        Due::Now => b,
        Due::At(first) => match b {
            Due::Now => a,
            Due::At(other) => Due::At(first.max(other)),
        },
    }
}

/// Whether something is due.
pub(crate) fn is_now(due: Due) -> bool
    ensures { result ≡ is_now due }
{
    match due {
        Due::Now => true,
        Due::At(_) => false,
    }
}
