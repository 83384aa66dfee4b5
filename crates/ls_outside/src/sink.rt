//! What is written to.
ghost use Rattle.std.specs.Prelude.{◌≡◌, ◌<◌, ℕ, List, length};
ghost use Rattle.std.specs.declared.option.Option.{Option};
ghost use Rattle.ls_outside.specs.Causes.{TakesOf, HasWriteCause, WritesAll};
ghost use Rattle.ls_outside.specs.Pipes.{Giving};

/// The answer of a write.
#[derive(Clone, Copy, Debug, PartialEq, Eq)]
pub enum Put {
    /// This many bytes from the front of the piece were taken: at least one, if the piece has any.
    Taken(usize),

    /// The write failed. It counts as a fault.
    Failed,
}

/// A sink of bytes, which counts its faults.
pub trait Sink {
    /// The bytes that it holds, where the sink tells.
    ghost held: { Self → Option (List ℕ) };

    /// The count of faults.
    ghost faults: { Self → ℕ };

    /// What it is as a source, where it is a pipe. No write changes it.
    ghost gives: { Self → Giving };

    /// How many writes have failed, or 2^64 - 1 where that is less. It never falls.
    fn write_faults(&self) -> u64
        ensures { result ≡ faults self.now };

    /// Writes bytes from the front of a piece, as many as the sink likes to take. At `Failed` no byte was taken and
    /// `write_faults` rises by one; else it is as before.
    fn write(&mut self, piece: &[u8]) -> Put
        ensures bytes { TakesOf (held self.old) (held self.new) result piece.now }
        ensures cause { HasWriteCause result (faults self.old) (faults self.new) }
        ensures source { gives self.new ≡ gives self.old };
}

/// Writes a whole piece, in as many writes as the sink needs. `Taken` has the length of the piece, and then no write
/// failed. `Failed` ends with the first write that failed: the sink took a part of the piece from its front, less than
/// all of it. It takes no memory of its own.
pub fn write_all<K: Sink>(sink: &mut K, piece: &[u8]) -> Put
    ensures bytes { WritesAll (K.held sink.old) (K.held sink.new) result piece.now }
    ensures cause { HasWriteCause result (K.faults sink.old) (K.faults sink.new) }
    ensures source { K.gives sink.new ≡ K.gives sink.old }
{
    let mut at = 0;
    while at < piece.len() {
        match sink.write(&piece[at..]) {
            Put::Taken(count) => at += count,
            Put::Failed => return Put::Failed,
        }
    }
    Put::Taken(at)
}
