//! What is read from.
ghost use Rattle.std.specs.Prelude.{◌≡◌, ◌<◌, ℕ, List, length};
ghost use Rattle.std.specs.declared.option.Option.{Option};
ghost use Rattle.ls_outside.specs.Causes.{Gives, HasReadCause};
ghost use Rattle.ls_outside.specs.Pipes.{Holding};

/// The answer of a read.
#[derive(Clone, Copy, Debug, PartialEq, Eq)]
pub enum Got {
    /// The next bytes came, this many, at least one. They stand at the front of the piece.
    Bytes(usize),

    /// Every byte is read, and none will come.
    End,

    /// No byte is there yet. It counts as an idle call.
    NotYet,

    /// The read failed. It counts as a fault.
    Failed,
}

/// A source of bytes, which counts its faults and its idle calls.
pub trait Source {
    /// The bytes that aren't read yet, where the source tells.
    ghost unread: { Self → Option (List ℕ) };

    /// The count of faults.
    ghost faults: { Self → ℕ };

    /// The count of idle calls.
    ghost waits: { Self → ℕ };

    /// What it is as a sink, where it is a pipe. No read changes it.
    ghost holds: { Self → Holding };

    /// How many reads have failed, or 2^64 - 1 where that is less. It never falls.
    fn read_faults(&self) -> u64
        ensures { result ≡ faults self.now };

    /// How many reads found no byte yet, or 2^64 - 1 where that is less. It never falls.
    fn idles(&self) -> u64
        ensures { result ≡ waits self.now };

    /// Reads the next bytes into the front of a piece, which isn't empty, as many as the source likes to give.
    /// `End` comes only where every byte is read, if the source tells. Only `Bytes` takes bytes from the source. At
    /// `Failed` `read_faults` rises by one, at `NotYet` `idles` does, and else both counts are as before. So a source
    /// whose counts are always 0 answers neither.
    fn read(&mut self, piece: &mut [u8]) -> Got
        requires { 0 < length piece.old }
        ensures bytes { Gives (unread self.old) (unread self.new) result piece.new }
        ensures cause { HasReadCause result (faults self.old) (faults self.new) (waits self.old) (waits self.new) }
        ensures sink { holds self.new ≡ holds self.old };
}
