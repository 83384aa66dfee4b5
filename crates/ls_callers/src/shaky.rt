//! Pipes of which one call fails.
ghost use Rattle.std.specs.Prelude.{◌≡◌, None, false, refl};

use ls_bell::Bell;
use ls_outside::{Got, Pipe, Put, Sink, Source};
use ls_wake::Wakes;
use std::alloc::Global;
use std::sync::Arc;
use std::sync::atomic::{AtomicU64, Ordering};

/// How many calls were made of pipes that share it, and which of them fails.
#[derive(Drop)]
pub struct Tally {
    made: AtomicU64,
    failing: u64,
}

impl Tally {
    /// No call was made yet. The one behind so many others is to fail.
    pub fn new(failing: u64) -> Tally {
        Tally {
            made: AtomicU64::new(0),
            failing,
        }
    }

    /// Whether a call has failed.
    pub fn has_failed(&self) -> bool {
        self.made.load(Ordering::SeqCst) > self.failing
    }

    /// Counts a call, and says whether it is to fail.
    fn fails(&self) -> bool {
        self.made.fetch_add(1, Ordering::SeqCst) == self.failing
    }
}

/// A pipe that tells nothing of its bytes. Its reads and writes are those of another pipe, except for the one that its
/// tally lets fail. Contracts see its counts.
#[derive(Drop)]
pub struct Shaky<C> {
    pipe: C,
    tally: Arc<Tally, Global>,
    read_faults: u64,
    idles: u64,
    write_faults: u64,
}

impl<C> Shaky<C> {
    /// A pipe over another one.
    pub fn new(pipe: C, tally: Arc<Tally, Global>) -> Shaky<C> {
        Shaky {
            pipe,
            tally,
            read_faults: 0,
            idles: 0,
            write_faults: 0,
        }
    }
}

impl<C: Pipe> Source for Shaky<C> {
    ghost unread = { λ _. None };

    ghost faults = { λ s. s.read_faults };

    ghost waits = { λ s. s.idles };

    ghost holds = { λ s. record { held = None; faults = s.write_faults } };

    fn read_faults(&self) -> u64 {
        self.read_faults
    }

    fn idles(&self) -> u64 {
        self.idles
    }

    fn read(&mut self, piece: &mut [u8]) -> Got {
        if self.tally.fails() {
            self.read_faults = self.read_faults.saturating_add(1);
            return Got::Failed;
        }
        let got = self.pipe.read(piece);
        match got {
            Got::Bytes(_) | Got::End => {}
            Got::NotYet => self.idles = self.idles.saturating_add(1),
            Got::Failed => self.read_faults = self.read_faults.saturating_add(1),
        }
        got
    }
}

impl<C: Pipe> Sink for Shaky<C> {
    ghost held = { λ _. None };

    ghost faults = { λ s. s.write_faults };

    ghost gives = { λ s. record { unread = None; faults = s.read_faults; waits = s.idles } };

    fn write_faults(&self) -> u64 {
        self.write_faults
    }

    fn write(&mut self, piece: &[u8]) -> Put {
        if self.tally.fails() {
            self.write_faults = self.write_faults.saturating_add(1);
            return Put::Failed;
        }
        let put = self.pipe.write(piece);
        if put == Put::Failed {
            self.write_faults = self.write_faults.saturating_add(1);
        }
        put
    }
}

impl<C: Pipe> Pipe for Shaky<C> {
    ghost sink_is_left = { λ s. refl };

    ghost source_is_left = { λ s. refl };
}

impl<C> Wakes for Shaky<C> {
    fn wake_with(&self, _: &Arc<Bell, Global>) -> bool
        ensures { result ≡ false }
    {
        false
    }
}
