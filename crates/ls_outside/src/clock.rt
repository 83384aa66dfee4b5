//! What tells the time.
ghost use Rattle.std.specs.Prelude.{◌≡◌, ◌≤◌, ℕ, ◌+◌, ◌-◌, ◌^◌, min, drop, IfOk};
ghost use Rattle.ls_value.specs.declared.limits.TheConstants.{GREATEST_TICK};
ghost use Rattle.ls_outside.specs.Clocks.{next_told};

use ls_value::{GREATEST_TICK, NoMemory};
use std::alloc::{AllocError, Global};
use std::marker::Model;

/// A clock. It tells ticks, moments in ms, which never fall and are at most [`GREATEST_TICK`].
pub trait Clock: Sized {
    /// The last tick that it told; 0 before the first.
    ghost told: { Self → ℕ };

    /// The tick.
    fn now(&mut self) -> u64
        ensures later { told self.old ≤ told self.new }
        ensures tick { result ≡ told self.new }
        ensures most { result ≤ GREATEST_TICK };

    /// Waits so many ms. Nothing is promised of the time that goes by.
    fn wait(&mut self, ms: u64)
        ensures { told self.old ≤ told self.new };

    /// Whether its ticks rise by themselves as time goes by. Those of a clock in memory don't: so who waits for
    /// something to do may sleep beside the one, and lets the other wait.
    fn runs(&self) -> bool;

    /// A clock of the same time for another thread: its ticks don't fall below those that this one told.
    fn twin(&self) -> Result<Self, NoMemory>
        ensures { IfOk result (λ t. told self.now ≤ told t) };
}

/// A clock in memory, which tells ticks by a list, for tests. Contracts see the ticks that it has still to tell, the
/// last one that it told, and the ms that it was let wait.
#[derive(Drop)]
pub struct MemClock {
    alloc: Global,
    ticks: Vec<u64>,
    next: usize,
    told: u64,
    waited: u64,
}

impl Model for MemClock {
    ghost use Rattle.std.specs.Prelude.{drop};
    ghost use Rattle.ls_outside.specs.Clocks.{ClockState};

    ghost Value = { ClockState };

    ghost view = { λ c. record { to_come = drop c.next c.ticks.items; told = c.told; waited = c.waited } };

    ghost use Rattle.std.specs.Prelude.{◌≤◌, length};
    ghost use Rattle.ls_value.specs.declared.limits.TheConstants.{GREATEST_TICK};

    ghost invariant = { λ c. (c.told ≤ GREATEST_TICK) × (c.next ≤ length c.ticks.items) };
}

impl MemClock {
    /// A clock that tells these ticks, the first one first, and behind the end of the list the last one again; where
    /// the list is empty, 0. A tick below one that was told counts as that one, and one above [`GREATEST_TICK`] as
    /// that. It waits for no time: it counts what it was let wait. A twin tells the ticks that are still to come, and
    /// takes memory.
    pub fn new(alloc: Global, ticks: Vec<u64>) -> MemClock
        ensures { result ≡ record { to_come = ticks.items; told = 0; waited = 0 } }
    {
        MemClock {
            alloc,
            ticks,
            next: 0,
            told: 0,
            waited: 0,
        }
    }

    /// How many ms it was let wait, or 2^64 - 1 where that is less.
    pub fn waited(&self) -> u64
        ensures { result ≡ self.now.waited }
    {
        self.waited
    }
}

/// These ticks, copied.
fn copied(alloc: Global, ticks: &[u64]) -> Result<Vec<u64>, AllocError>
    ensures { IfOk result (λ copied. copied.items ≡ ticks.now) }
{
    Vec::from_slice(alloc, ticks)
}

impl Clock for MemClock {
    ghost told = { λ c. c.told };

    fn now(&mut self) -> u64
        ensures later { self.old.told ≤ self.new.told }
        ensures tick { result ≡ self.new.told }
        ensures most { result ≤ GREATEST_TICK }
        ensures after { self.new ≡ record self.old {
          to_come = drop 1 self.old.to_come;
          told = next_told self.old.to_come self.old.told;
        } }
    {
        if self.next < self.ticks.len() {
            self.told = self.told.max(self.ticks[self.next].min(GREATEST_TICK));
            self.next += 1;
        }
        self.told
    }

    fn wait(&mut self, ms: u64)
        ensures later { self.old.told ≤ self.new.told }
        ensures after { self.new ≡ record self.old { waited = min (self.old.waited + ms) (2 ^ 64 - 1) } }
    {
        self.waited = self.waited.saturating_add(ms);
    }

    fn runs(&self) -> bool {
        false
    }

    fn twin(&self) -> Result<MemClock, NoMemory>
        ensures later { IfOk result (λ t. self.now.told ≤ t.told) }
        ensures same { IfOk result (λ t. t ≡ record self.now { waited = 0 }) }
    {
        let ticks = copied(self.alloc, &self.ticks[self.next..])?;
        Ok(MemClock {
            alloc: self.alloc,
            ticks,
            next: 0,
            told: self.told,
            waited: 0,
        })
    }
}
