//! The system's clock.
ghost use Rattle.std.specs.Prelude.{◌≡◌, ◌≤◌, IfOk, IsOkAnd};

use ls_outside::Clock;
use ls_value::{GREATEST_TICK, NoMemory};
use std::marker::Model;
use std::rt::Clock as HostClock;
use std::thread;
use std::time::{Duration, Instant};

/// The system's clock: its ticks are the ms since it was made, by a clock of the system that isn't set. It keeps the
/// greatest tick that it told, and tells that again where the system's clock can't be read. Contracts see that tick.
#[derive(Drop)]
pub struct SysClock<R: HostClock> {
    rt: R,
    start: Option<Instant>,
    told: u64,
}

impl<R: HostClock> Model for SysClock<R> {
    ghost use Rattle.std.specs.Prelude.{ℕ, ◌≤◌};
    ghost use Rattle.ls_value.specs.declared.limits.TheConstants.{GREATEST_TICK as MOST};

    ghost Value = { ℕ };

    ghost view = { λ c. c.told };

    ghost invariant = { λ c. c.told ≤ MOST };
}

impl<R: HostClock> SysClock<R> {
    /// A clock whose ticks begin now. Where the system's clock can't be read now, every tick is 0.
    pub fn new(rt: R) -> SysClock<R>
        ensures { result ≡ 0 }
    {
        let start = Instant::now(&rt).ok();
        SysClock { rt, start, told: 0 }
    }

    /// The ms since the start, as far as the system tells.
    fn passed(&self) -> u64 {
        let Some(start) = &self.start else {
            return 0;
        };
        match start.elapsed(&self.rt) {
            Ok(passed) => u64::try_from(passed.as_millis()).unwrap_or(u64::MAX),
            Err(_) => 0,
        }
    }
}

impl<R: HostClock + Copy> Clock for SysClock<R> {
    ghost told = { λ c. c };

    fn now(&mut self) -> u64 {
        self.told = self.told.max(self.passed().min(GREATEST_TICK));
        self.told
    }

    /// Sleeps so many ms. A signal may end it early.
    fn wait(&mut self, ms: u64) {
        thread::sleep(&self.rt, Duration::from_millis(ms));
    }

    fn runs(&self) -> bool {
        true
    }

    /// A clock with the same start. It takes no memory, and never fails.
    fn twin(&self) -> Result<SysClock<R>, NoMemory>
        ensures later { IfOk result (λ t. self.now ≤ t) }
        ensures same { IsOkAnd result (λ t. t ≡ self.now) }
    {
        Ok(SysClock {
            rt: self.rt,
            start: self.start,
            told: self.told,
        })
    }
}
