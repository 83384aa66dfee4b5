//! Sinks in memory.
ghost use Rattle.std.specs.Prelude.{◌≡◌, ◌+◌, ◌-◌, ◌^◌, ◌<◌, ◌≤◌, [], length, min, Some, None, IfSome, MatchOption};
ghost use Rattle.ls_outside.specs.declared.sink.Put.TheVariants as put;
ghost use Rattle.ls_outside.specs.Causes.{TakesOf, HasWriteCause};
ghost use Rattle.ls_outside.specs.Memory.{next_call, sink_after, TakesBy, IsWriteBy};
ghost use Rattle.ls_outside.specs.Pipes.{no_source};
ghost use Rattle.ls_outside.specs.declared.call.Call.TheVariants as call_is;

use crate::call::{Call, Calls};
use crate::sink::{Put, Sink};
use std::alloc::Global;
use std::marker::Model;

/// A sink in memory whose calls go by a list, for tests. Contracts see it as the bytes that it holds, the calls to come
/// and its count of faults.
#[derive(Drop)]
pub struct MemSink {
    bytes: Vec<u8>,
    calls: Calls,
    faults: u64,
}

impl Model for MemSink {
    ghost use Rattle.ls_outside.specs.Memory.{SinkState};

    ghost Value = { SinkState };

    ghost view = { λ s. record { held = s.bytes.items; calls = s.calls; faults = s.faults } };
}

impl MemSink {
    /// A sink that holds nothing, whose calls of `write` go by the list, the first call by its first member. Calls past
    /// its end go as usual. `Idle` goes as usual too, since a sink has no idle calls. A write for which the sink finds
    /// no memory fails as one that the list lets fail.
    pub fn new(alloc: Global, calls: Vec<Call>) -> MemSink
        ensures { result ≡ record { held = []; calls = calls.items; faults = 0 } }
    {
        MemSink {
            bytes: Vec::new(alloc),
            calls: Calls::of(calls),
            faults: 0,
        }
    }

    /// What it holds: all bytes that were written, in order.
    pub fn bytes(&self) -> &[u8]
        ensures { result.now ≡ self.now.held }
    {
        &self.bytes
    }
}

/// How many bytes of a piece a call may take, where it goes.
fn room(call: Call, len: usize) -> Option<usize>
    ensures answer { MatchOption result (call ≡ call_is.Fail) (TakesBy call len) }
    ensures some { 0 < len → IfSome result (λ count. 0 < count) }
    ensures fits { IfSome result (λ count. count ≤ len) }
{
    match call {
        Call::Go | Call::Idle => Some(len),
        Call::Part(limit) => Some(len.min(limit.max(1))),
        Call::Fail => None,
    }
}

impl Sink for MemSink {
    ghost held = { λ s. Some s.held };

    ghost faults = { λ s. s.faults };

    ghost gives = { λ _. no_source };

    fn write_faults(&self) -> u64 {
        self.faults
    }

    fn write(&mut self, piece: &[u8]) -> Put
        ensures bytes { TakesOf (Some self.old.held) (Some self.new.held) result piece.now }
        ensures cause { HasWriteCause result self.old.faults self.new.faults }
        ensures source { no_source ≡ no_source }
        ensures answer { IsWriteBy (next_call self.old.calls) piece.now result }
        ensures after { self.new ≡ sink_after self.old piece.now result }
    {
        if let Some(count) = room(self.calls.next(), piece.len()) {
            if self.bytes.extend_from_slice(&piece[..count]).is_ok() {
                return Put::Taken(count);
            }
        }
        self.faults = self.faults.saturating_add(1);
        Put::Failed
    }
}

/// A sink in memory that never fails: its count is always 0. It can't, then, answer that there is no memory, so it
/// keeps no bytes: it takes each piece whole, counts its bytes and lets them go. It tells nothing of what it holds.
/// Contracts see it as the number of bytes that were written, or 2^64 - 1 where that is less.
#[derive(Drop)]
pub struct PlainSink {
    taken: u64,
}

impl Model for PlainSink {
    ghost use Rattle.std.specs.Prelude.{ℕ};

    ghost Value = { ℕ };

    ghost view = { λ s. s.taken };
}

impl PlainSink {
    /// A sink that nothing was written to.
    pub fn new() -> PlainSink
        ensures { result ≡ 0 }
    {
        PlainSink { taken: 0 }
    }

    /// How many bytes were written, or 2^64 - 1 where that is less.
    pub fn taken(&self) -> u64
        ensures { result ≡ self.now }
    {
        self.taken
    }
}

impl Sink for PlainSink {
    ghost held = { λ _. None };

    ghost faults = { λ _. 0 };

    ghost gives = { λ _. no_source };

    fn write_faults(&self) -> u64 {
        0
    }

    fn write(&mut self, piece: &[u8]) -> Put
        ensures bytes { TakesOf None None result piece.now }
        ensures cause { HasWriteCause result 0 0 }
        ensures source { no_source ≡ no_source }
        ensures all { result ≡ put.Taken (length piece.now) }
        ensures taken { self.new ≡ min (self.old + length piece.now) (2 ^ 64 - 1) }
    {
        self.taken = self.taken.saturating_add(piece.len() as u64);
        Put::Taken(piece.len())
    }
}
