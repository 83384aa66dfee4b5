//! What is both read from and written to.
ghost use Rattle.std.specs.Prelude.{◌≡◌, ◌<◌, ◌^◌, ◌+◌, ◌-◌, length, min, Some, None, refl};
ghost use Rattle.ls_outside.specs.Causes.{Gives, HasReadCause, TakesOf, HasWriteCause};
ghost use Rattle.ls_outside.specs.Memory.{next_call, answer_by, answer_within, supply_after, source_after};
ghost use Rattle.ls_outside.specs.Memory.{sink_after, IsWriteBy};
ghost use Rattle.ls_outside.specs.Pipes.{Holding, Giving};
ghost use Rattle.ls_outside.specs.declared.sink.Put.TheVariants as put;

use crate::mem_sink::{MemSink, PlainSink};
use crate::mem_source::{MemSource, PlainSource};
use crate::sink::{Put, Sink};
use crate::source::{Got, Source};

/// A source and a sink in one, as a connection is. Reads leave what it holds and its faults of writing; writes leave
/// what it has still to give, its faults of reading and its idle calls.
pub trait Pipe: Source + Sink {
    /// What reads leave is what it is as a sink.
    ghost sink_is_left: { (p : Self) → Self.holds p ≡ record { held = Self.held p; faults = Self.Sink.faults p } };

    /// What writes leave is what it is as a source.
    ghost source_is_left: { (p : Self) → Self.gives p
        ≡ record { unread = Self.unread p; faults = Self.Source.faults p; waits = Self.waits p } };
}

/// A pipe in memory, for tests: a source and a sink, each of whose calls go by its own list.
#[derive(Drop)]
pub struct MemPipe {
    /// What is read from.
    pub source: MemSource,

    /// What is written to.
    pub sink: MemSink,
}

impl Source for MemPipe {
    ghost unread = { λ p. Some p.source.supply.unread };

    ghost faults = { λ p. p.source.faults };

    ghost waits = { λ p. p.source.idles };

    ghost holds = { λ p. record { held = Some p.sink.held; faults = p.sink.faults } };

    fn read_faults(&self) -> u64 {
        self.source.read_faults()
    }

    fn idles(&self) -> u64 {
        self.source.idles()
    }

    fn read(&mut self, piece: &mut [u8]) -> Got
        requires { 0 < length piece.old }
        ensures bytes { Gives (Some self.old.source.supply.unread) (Some self.new.source.supply.unread)
            result piece.new }
        ensures cause { HasReadCause result self.old.source.faults self.new.source.faults
            self.old.source.idles self.new.source.idles }
        ensures answer { result
            ≡ answer_by (next_call self.old.source.calls) self.old.source.supply (length piece.old) }
        ensures after { self.new.source ≡ source_after self.old.source result }
        ensures sink { self.new.sink ≡ self.old.sink }
    {
        self.source.read(piece)
    }
}

impl Sink for MemPipe {
    ghost held = { λ p. Some p.sink.held };

    ghost faults = { λ p. p.sink.faults };

    ghost gives = { λ p.
        record { unread = Some p.source.supply.unread; faults = p.source.faults; waits = p.source.idles } };

    fn write_faults(&self) -> u64 {
        self.sink.write_faults()
    }

    fn write(&mut self, piece: &[u8]) -> Put
        ensures bytes { TakesOf (Some self.old.sink.held) (Some self.new.sink.held) result piece.now }
        ensures cause { HasWriteCause result self.old.sink.faults self.new.sink.faults }
        ensures answer { IsWriteBy (next_call self.old.sink.calls) piece.now result }
        ensures after { self.new.sink ≡ sink_after self.old.sink piece.now result }
        ensures source { self.new.source ≡ self.old.source }
    {
        self.sink.write(piece)
    }
}

impl Pipe for MemPipe {
    ghost sink_is_left = { λ p. refl };

    ghost source_is_left = { λ p. refl };
}

/// A pipe in memory that never fails and never lacks a byte: each of its counts is always 0. It tells what it has still
/// to give, and keeps nothing of what was written.
#[derive(Drop)]
pub struct PlainPipe {
    /// What is read from.
    pub source: PlainSource,

    /// What is written to.
    pub sink: PlainSink,
}

impl Source for PlainPipe {
    ghost unread = { λ p. Some p.source.unread };

    ghost faults = { λ _. 0 };

    ghost waits = { λ _. 0 };

    ghost holds = { λ _. record { held = None; faults = 0 } };

    fn read_faults(&self) -> u64 {
        0
    }

    fn idles(&self) -> u64 {
        0
    }

    fn read(&mut self, piece: &mut [u8]) -> Got {
        self.source.read(piece)
    }
}

impl Sink for PlainPipe {
    ghost held = { λ _. None };

    ghost faults = { λ _. 0 };

    ghost gives = { λ p. record { unread = Some p.source.unread; faults = 0; waits = 0 } };

    fn write_faults(&self) -> u64 {
        0
    }

    fn write(&mut self, piece: &[u8]) -> Put {
        self.sink.write(piece)
    }
}

impl Pipe for PlainPipe {
    ghost sink_is_left = { λ p. refl };

    ghost source_is_left = { λ p. refl };
}
