//! A pipe in memory that isn't honest about its content.
ghost use Rattle.std.specs.Prelude.{◌≡◌, ◌<◌, length, None, refl};
ghost use Rattle.ls_outside.specs.Causes.{Gives, HasReadCause};

use crate::call::{Call, Calls};
use crate::mem_source::copy_front;
use crate::pipe::Pipe;
use crate::sink::{Put, Sink};
use crate::source::{Got, Source};
use std::marker::Model;
use std::vec::IntoIter;

/// A pipe in memory that isn't honest about its content, for tests. It tells nothing of what it has still to give and
/// of what it holds. It loses bytes, ends and goes on, and keeps nothing that it takes. Its counts are honest.
/// Contracts see these alone.
#[derive(Drop)]
pub struct Liar {
    pieces: IntoIter<Vec<u8>>,
    reads: Calls,
    writes: Calls,
    read_faults: u64,
    idles: u64,
    write_faults: u64,
}

impl Model for Liar {
    ghost use Rattle.ls_outside.specs.Memory.{Counts};

    ghost Value = { Counts };

    ghost view = { λ l. record { read_faults = l.read_faults; idles = l.idles; write_faults = l.write_faults } };
}

impl Liar {
    /// A pipe of these pieces. Its calls of `read` and of `write` go by the lists, and past their ends as usual. A read
    /// that goes takes the next piece: as many bytes of it come as there is room for, and the others are lost. A piece
    /// without a byte is the end, and so is the end of the pieces. A write says that bytes were taken, and lets them go.
    pub fn new(pieces: Vec<Vec<u8>>, reads: Vec<Call>, writes: Vec<Call>) -> Liar
        ensures { result ≡ record { read_faults = 0; idles = 0; write_faults = 0 } }
    {
        Liar {
            pieces: pieces.into_iter(),
            reads: Calls::of(reads),
            writes: Calls::of(writes),
            read_faults: 0,
            idles: 0,
            write_faults: 0,
        }
    }

    /// Gives bytes of the next piece, at most this many.
    fn give(&mut self, piece: &mut [u8], limit: usize) -> Got
        requires { 0 < length piece.old }
        ensures bytes { Gives None None result piece.new }
        ensures cause { HasReadCause result self.old.read_faults self.new.read_faults self.old.idles self.new.idles }
        ensures writes { self.new.write_faults ≡ self.old.write_faults }
    {
        let count = match self.pieces.next() {
            Some(bytes) => copy_front(piece, &bytes, limit),
            None => 0,
        };
        if count == 0 {
            return Got::End;
        }
        Got::Bytes(count)
    }
}

impl Source for Liar {
    ghost unread = { λ _. None };

    ghost faults = { λ l. l.read_faults };

    ghost waits = { λ l. l.idles };

    ghost holds = { λ l. record { held = None; faults = l.write_faults } };

    fn read_faults(&self) -> u64 {
        self.read_faults
    }

    fn idles(&self) -> u64 {
        self.idles
    }

    fn read(&mut self, piece: &mut [u8]) -> Got {
        match self.reads.next() {
            Call::Go => self.give(piece, usize::MAX),
            Call::Part(limit) => self.give(piece, limit.max(1)),
            Call::Fail => {
                self.read_faults = self.read_faults.saturating_add(1);
                Got::Failed
            }
            Call::Idle => {
                self.idles = self.idles.saturating_add(1);
                Got::NotYet
            }
        }
    }
}

impl Sink for Liar {
    ghost held = { λ _. None };

    ghost faults = { λ l. l.write_faults };

    ghost gives = { λ l. record { unread = None; faults = l.read_faults; waits = l.idles } };

    fn write_faults(&self) -> u64 {
        self.write_faults
    }

    fn write(&mut self, piece: &[u8]) -> Put {
        match self.writes.next() {
            Call::Go | Call::Idle => Put::Taken(piece.len()),
            Call::Part(limit) => Put::Taken(piece.len().min(limit.max(1))),
            Call::Fail => {
                self.write_faults = self.write_faults.saturating_add(1);
                Put::Failed
            }
        }
    }
}

impl Pipe for Liar {
    ghost sink_is_left = { λ l. refl };

    ghost source_is_left = { λ l. refl };
}
