//! How often a slot may give an update.
ghost use Rattle.std.specs.Prelude.{◌≡◌, ◌<◌, ◌≤◌, ℕ, Option, Some};
ghost use Rattle.std.specs.Option.{ForSome};
ghost use Rattle.ls_budget.specs.Budget.{interval, frequency_tick};
ghost use Rattle.ls_budget.specs.Due.{due_at};
ghost use Rattle.ls_budget.specs.Kept.{StandsFrequency};
ghost use Rattle.ls_value.specs.declared.limits.TheConstants.{GREATEST_TICK};

use crate::due::Due;
use std::marker::Model;

/// The ms between two updates of a frequency, in thousandths of an update per second: rounded up.
pub fn interval_of(f: u64) -> u64
    requires { 0 < f }
    ensures { result ≡ interval f }
{
    999_999 / f + 1
}

/// The frequency of a slot's updates, in thousandths of an update per second, if there is one, and the tick of its last
/// update, in ms, if there was one.
#[derive(Clone, Copy, Debug, Drop)]
pub struct Frequency {
    frequency: Option<u64>,
    last: Option<u64>,
}

impl Model for Frequency {
    ghost use Rattle.std.specs.Prelude.{◌<◌, ◌≤◌};
    ghost use Rattle.std.specs.Option.{ForSome};
    ghost use Rattle.ls_budget.specs.Kept.{KeptFrequency};
    ghost use Rattle.ls_value.specs.declared.limits.TheConstants.{GREATEST_TICK};

    ghost Value = { KeptFrequency };

    ghost view = { λ k. record { frequency = k.frequency; last = k.last } };

    ghost inverse = { λ v. record { frequency = v.frequency; last = v.last } };

    ghost invariant = { λ k. ForSome k.frequency (λ f. 0 < f) };
}

impl Frequency {
    /// A frequency under which no update was given yet.
    pub fn new(f: Option<u64>) -> Frequency
        requires { ForSome f (λ f. 0 < f) }
        ensures value { result ≡ record { frequency = f; last = None } }
        ensures stands { StandsFrequency result f None }
    {
        Frequency {
            frequency: f,
            last: None,
        }
    }

    /// Sets the frequency. The tick of the last update stays.
    pub fn set(&mut self, f: Option<u64>)
        requires { ForSome f (λ f. 0 < f) }
        ensures value { self.new ≡ record { frequency = f; last = self.old.last } }
        ensures stands { (old last : Option ℕ) → StandsFrequency self.old old last → StandsFrequency self.new f last }
    {
        self.frequency = f;
    }

    /// Whether an update may be given now, and else at which tick first: an interval after the last one. The first
    /// update may be given at once, and so may each where there is no frequency.
    pub fn due(&self, now: u64) -> Due
        ensures stands { (f last : Option ℕ) → StandsFrequency self.now f last
            → result ≡ due_at (frequency_tick f last) now }
    {
        if let Some(f) = self.frequency
            && let Some(last) = self.last
        {
            let tick = last.saturating_add(interval_of(f));
            if now < tick {
                return Due::At(tick);
            }
        }
        Due::Now
    }

    /// An update was given at a tick.
    pub fn spend(&mut self, now: u64)
        ensures value { self.new ≡ record { frequency = self.old.frequency; last = Some now } }
        ensures stands { (f last : Option ℕ) → StandsFrequency self.old f last → now ≤ GREATEST_TICK
            → StandsFrequency self.new f (Some now) }
    {
        self.last = Some(now);
    }
}
