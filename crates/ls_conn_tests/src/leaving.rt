//! A wire whose peer leaves.
ghost use Rattle.std.specs.Prelude.{Some, None};
ghost use Rattle.ls_talk.specs.Lines.{no_counts};

use ls_talk::{Between, LineOut, PlainLines, PutRefused, Wire};
use std::alloc::Global;

/// Lines in memory whose peer leaves once the stream looked at what else there is to do so many times.
#[derive(Drop)]
pub struct LeavingLines {
    lines: PlainLines,
    looks: u64,
    leaves: u64,
}

impl LeavingLines {
    /// No line yet; the peer stays for so many looks.
    pub fn new(alloc: Global, looks: u64) -> LeavingLines {
        LeavingLines {
            lines: PlainLines::new(alloc),
            looks,
            leaves: 0,
        }
    }

    /// All bytes that went out, in order.
    pub fn bytes(&self) -> &[u8] {
        self.lines.bytes()
    }
}

impl LineOut for LeavingLines {
    ghost held = { λ l. Some l.lines };

    ghost log = { λ _. None };

    ghost faults = { λ _. 0 };

    ghost counts = { λ l. record no_counts { leaves = l.leaves } };

    fn put_faults(&self) -> u64 {
        0
    }

    fn put(&mut self, text: &[u8]) -> Result<(), PutRefused> {
        self.lines.put(text)
    }
}

impl Wire for LeavingLines {
    fn leaves(&self) -> u64 {
        self.leaves
    }

    fn between(&mut self, _: u64) -> Between {
        if self.looks > 0 {
            self.looks -= 1;
            return Between::Go;
        }
        self.leaves = self.leaves.saturating_add(1);
        Between::Left
    }
}
