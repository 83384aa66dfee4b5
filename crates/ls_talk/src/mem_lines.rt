//! Lines in memory.
ghost use Rattle.std.specs.Prelude.{◌≡◌, ◌≤◌, ◌++◌, ◌∷◌, [], length, IfOk, OnOk, OnErr, Some, None};
ghost use Rattle.std.specs.Str.{IsUtf8};
ghost use Rattle.ls_outside.specs.Memory.{next_call};
ghost use Rattle.ls_talk.specs.Lines.{no_counts, no_lender, line_bytes, PutsOf, LogsPut, HasPutCause};
ghost use Rattle.std.specs.Io.KnownBytes.{Keeps};
ghost use Rattle.ls_talk.specs.Talks.{HasBetweenCause, LogsMore};
ghost use Rattle.ls_talk.specs.InMemory.{going, IsPutBy, lines_after};

use crate::calls::Calls;
use crate::line_out::{LineOut, PutRefused};
use crate::wire::{Between, Wire};
use ls_outside::Call;
use ls_value::NoMemory;
use std::alloc::Global;
use std::marker::Model;

/// A line: its text and CR LF.
pub(crate) fn line_of(alloc: Global, text: &[u8]) -> Result<Vec<u8>, NoMemory>
    ensures { IfOk result (λ line. line.items ≡ line_bytes text.now) }
{
    let mut line = Vec::new(alloc);
    line.extend_from_slice(text)?;
    line.extend_from_slice(b"\r\n")?;
    Ok(line)
}

/// How many bytes of a line of this length go out in a put that goes so.
pub(crate) fn bytes_going(call: Call, len: usize) -> usize
    ensures going { result ≡ going call len }
    ensures fits { result ≤ len }
{
    match call {
        Call::Fail => 0,
        Call::Part(limit) => limit.min(len),
        Call::Go | Call::Idle => len,
    }
}

/// Lines in memory whose puts never fail: their count of faults is always 0. Contracts see them as the bytes that went
/// out.
#[derive(Drop)]
pub struct PlainLines {
    alloc: Global,
    bytes: Vec<u8>,
}

impl Model for PlainLines {
    ghost use Rattle.std.specs.Prelude.{List, ℕ};

    ghost Value = { List ℕ };

    ghost view = { λ l. l.bytes.items };
}

impl PlainLines {
    /// No line yet.
    pub fn new(alloc: Global) -> PlainLines
        ensures { result ≡ [] }
    {
        PlainLines {
            alloc,
            bytes: Vec::new(alloc),
        }
    }

    /// All bytes that went out, in order.
    pub fn bytes(&self) -> &[u8]
        ensures { result.now ≡ self.now }
    {
        &self.bytes
    }

    /// Adds these bytes.
    fn add(&mut self, bytes: &[u8]) -> Result<(), NoMemory>
        ensures ok { OnOk result (self.new ≡ self.old ++ bytes.now) }
        ensures err { OnErr result (self.new ≡ self.old) }
    {
        self.bytes.extend_from_slice(bytes)?;
        Ok(())
    }
}

impl LineOut for PlainLines {
    ghost held = { λ l. Some l };

    ghost log = { λ _. None };

    ghost faults = { λ _. 0 };

    ghost counts = { λ _. no_counts };

    fn put_faults(&self) -> u64 {
        0
    }

    fn put(&mut self, text: &[u8]) -> Result<(), PutRefused> {
        let line = line_of(self.alloc, text)?;
        self.add(&line)?;
        Ok(())
    }
}

impl Wire for PlainLines {
    fn leaves(&self) -> u64 {
        0
    }

    fn between(&mut self, _: u64) -> Between {
        Between::Go
    }
}

/// Lines in memory whose puts go by a list, for tests. Contracts see the bytes that went out, how the puts to come go,
/// and the count of faults. Nothing is done between lines, and nobody leaves.
#[derive(Drop)]
pub struct MemLines {
    plain: PlainLines,
    calls: Calls,
    faults: u64,
}

impl Model for MemLines {
    ghost use Rattle.ls_talk.specs.InMemory.{LinesState};

    ghost Value = { LinesState };

    ghost view = { λ l. record { held = l.plain; calls = l.calls; faults = l.faults } };
}

impl MemLines {
    /// No line yet. Puts go by the list, the first put by its first member: at `Fail` nothing goes out; at `Part`, where
    /// the line and its CR LF have more bytes, that many go out, and the put fails; at `Go` and `Idle`, and past the end
    /// of the list, the line goes out.
    pub fn new(alloc: Global, calls: Vec<Call>) -> MemLines
        ensures { result ≡ record { held = []; calls = calls.items; faults = 0 } }
    {
        MemLines {
            plain: PlainLines::new(alloc),
            calls: Calls::of(calls),
            faults: 0,
        }
    }

    /// All bytes that went out, in order.
    pub fn bytes(&self) -> &[u8]
        ensures { result.now ≡ self.now.held }
    {
        self.plain.bytes()
    }
}

impl LineOut for MemLines {
    ghost held = { λ l. Some l.held };

    ghost log = { λ _. None };

    ghost faults = { λ l. l.faults };

    ghost counts = { λ _. no_counts };

    fn put_faults(&self) -> u64 {
        self.faults
    }

    fn put(&mut self, text: &[u8]) -> Result<(), PutRefused>
        requires { IsUtf8 text.now }
        ensures bytes { PutsOf (Some self.old.held) (Some self.new.held) result text.now }
        ensures log { LogsPut None None result text.now }
        ensures cause { HasPutCause result self.old.faults self.new.faults }
        ensures counts { no_counts ≡ no_counts }
        ensures lender { no_lender ≡ no_lender }
        ensures answer { IsPutBy (next_call self.old.calls) text.now result }
        ensures after { self.new ≡ lines_after self.old text.now result }
    {
        let call = self.calls.next();
        let line = line_of(self.plain.alloc, text)?;
        let count = bytes_going(call, line.len());
        self.plain.add(&line[..count])?;
        if count < line.len() {
            self.faults = self.faults.saturating_add(1);
            return Err(PutRefused::Failed);
        }
        Ok(())
    }
}

impl Wire for MemLines {
    fn leaves(&self) -> u64 {
        0
    }

    fn between(&mut self, _: u64) -> Between
        ensures cause { HasBetweenCause result no_counts no_counts self.old.faults self.new.faults }
        ensures keeps { Keeps (Some self.old.held) (Some self.new.held) }
        ensures lender { no_lender ≡ no_lender }
        ensures log { LogsMore None None }
        ensures same { self.new ≡ self.old }
    {
        Between::Go
    }
}
