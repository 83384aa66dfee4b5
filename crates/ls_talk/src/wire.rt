//! What a stream goes over.
ghost use Rattle.std.specs.Prelude.{◌≡◌};
ghost use Rattle.std.specs.Io.KnownBytes.{Keeps};
ghost use Rattle.ls_talk.specs.Talks.{HasBetweenCause, LogsMore};

use crate::line_out::LineOut;

/// Whether a stream goes on.
#[derive(Clone, Copy, Debug, PartialEq, Eq)]
pub enum Between {
    /// It does.
    Go,

    /// The peer left it. It counts as a leave.
    Left,
}

/// What a stream's lines go over. Between two lines it does what else there is to do on the connection. What it holds
/// are the bytes of the lines that were put to it; what is written between them is not among these.
pub trait Wire: LineOut {
    /// How many times the peer left the stream, or 2^64 - 1 where that is less. It never falls.
    fn leaves(&self) -> u64
        ensures { result ≡ (Self.counts self.now).leaves };

    /// Does what there is to do between two lines, at this tick, in ms. `leaves` rises by one at `Left`, and not at
    /// `Go`. No count falls.
    fn between(&mut self, now: u64) -> Between
        ensures cause { HasBetweenCause result (Self.counts self.old) (Self.counts self.new)
            (Self.faults self.old) (Self.faults self.new) }
        ensures keeps { Keeps (Self.held self.old) (Self.held self.new) }
        ensures lender { Self.lender self.new ≡ Self.lender self.old }
        ensures log { LogsMore (Self.log self.old) (Self.log self.new) };
}
