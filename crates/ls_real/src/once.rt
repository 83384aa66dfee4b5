//! Readers and writers of std, one call at a time.
ghost use Rattle.std.specs.Prelude.{ℕ, List, Result};
ghost use Rattle.std.specs.declared.option.Option.{Option};
ghost use Rattle.std.specs.Io.{ReadsAtMost, WritesAtMost};
ghost use Rattle.std.specs.Io.KnownBytes.{ReadConsumes, WriteAppends};
ghost use Rattle.std.specs.declared.io.Error.{Error as Fault};

use std::io::{Read, Result, Write};

/// What `StdSource` reads from: each reader of std. Beside what std says of a read, contracts can name the answer that
/// one read gave.
pub trait Reader {
    /// The bytes that aren't read yet, where the reader tells.
    ghost unread: { Self → Option (List ℕ) };

    /// Whether one read answered so: the reader before it, the piece after it, the answer, and the reader after it.
    ghost answers: { Self → List ℕ → Result ℕ Fault → Self → Type 0 };

    /// Reads once.
    fn read_once(&mut self, piece: &mut [u8]) -> Result<usize>
        ensures bound { ReadsAtMost result piece.new }
        ensures bytes { ReadConsumes (unread self.old) (unread self.new) result piece.new }
        ensures answer { answers self.old piece.new result self.new };
}

impl<R: Read> Reader for R {
    ghost unread = { λ r. R.remaining r };

    ghost answers = { λ r piece answer s. ReadConsumes (R.remaining r) (R.remaining s) answer piece };

    fn read_once(&mut self, piece: &mut [u8]) -> Result<usize> {
        self.read(piece)
    }
}

/// What `StdSink` writes to: each writer of std. Beside what std says of a write, contracts can name the answer that
/// one write gave.
pub trait Writer {
    /// The bytes that it holds, where the writer tells.
    ghost held: { Self → Option (List ℕ) };

    /// Whether one write answered so: the writer before it, the piece, the answer, and the writer after it.
    ghost answers: { Self → List ℕ → Result ℕ Fault → Self → Type 0 };

    /// Writes once.
    fn write_once(&mut self, piece: &[u8]) -> Result<usize>
        ensures bound { WritesAtMost result piece.now }
        ensures bytes { WriteAppends (held self.old) (held self.new) result piece.now }
        ensures answer { answers self.old piece.now result self.new };
}

impl<W: Write> Writer for W {
    ghost held = { λ w. W.contents w };

    ghost answers = { λ w piece answer v. WriteAppends (W.contents w) (W.contents v) answer piece };

    fn write_once(&mut self, piece: &[u8]) -> Result<usize> {
        self.write(piece)
    }
}
