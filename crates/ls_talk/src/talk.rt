//! What messages come over.
ghost use Rattle.std.specs.Prelude.{◌≡◌, []};
ghost use Rattle.std.specs.Io.KnownBytes.{Keeps};
ghost use Rattle.ls_talk.specs.Lines.{Logs};
ghost use Rattle.ls_talk.specs.Talks.{IsMessage, HasMessageCause, LetsGo, LogsAnswer};

use crate::line_out::LineOut;
use ls_value::Bytes;

/// The longest text message that is given, in bytes (this project's profile).
pub const LONGEST_MESSAGE: usize = 50_000;

/// The answer of a read of one message.
#[derive(Drop)]
pub enum Incoming {
    /// A text message, in UTF-8, of at most [`LONGEST_MESSAGE`] bytes.
    Text(Bytes),

    /// A binary message.
    Binary,

    /// A text message of more than [`LONGEST_MESSAGE`] bytes.
    Long,

    /// A ping or a pong. There is nothing to do: a ping is answered by the connection itself.
    Control,

    /// No whole message is there yet. It counts as an idle call.
    NotYet,

    /// No message will come: the peer closed, or what it sent is no message. It counts as a close.
    Closed,

    /// A read, or the write of an answer to a ping or a close, failed. It counts as a fault of reading or of puts.
    Failed,

    /// Memory was refused.
    NoMemory,
}

/// One thing that happened on a talk.
#[derive(Drop)]
pub enum Happening {
    /// A line of this text was put whole.
    Line(Bytes),

    /// A put failed, and these bytes of the line and its CR LF went out.
    Part(Bytes),

    /// This was the answer of `message`.
    Answer(Incoming),
}

/// A connection over which messages come and lines go. Where it tells, it has a log: the lines that were put and the
/// answers of `message`, in order. An answer that there is no memory is not in it.
pub trait Talk: LineOut {
    /// How many reads have failed, or 2^64 - 1 where that is less. It never falls.
    fn read_faults(&self) -> u64
        ensures { result ≡ (Self.counts self.now).faults };

    /// How many calls found no message yet, or 2^64 - 1 where that is less. It never falls.
    fn idles(&self) -> u64
        ensures { result ≡ (Self.counts self.now).idles };

    /// How many calls found that no message will come, or 2^64 - 1 where that is less. It never falls.
    fn closes(&self) -> u64
        ensures { result ≡ (Self.counts self.now).closes };

    /// Reads at most one message. At `NotYet` `idles` rises by one, at `Closed` `closes` does, and at `Failed` either
    /// `read_faults` or `put_faults`; at every other answer the counts are as before. So a talk whose counts are always
    /// 0 answers none of these.
    fn message(&mut self) -> Incoming
        ensures message { IsMessage result }
        ensures cause { HasMessageCause result (Self.counts self.old) (Self.counts self.new)
            (Self.faults self.old) (Self.faults self.new) }
        ensures log { LogsAnswer (Self.log self.old) (Self.log self.new) result }
        ensures bytes { Keeps (Self.held self.old) (Self.held self.new) };

    /// Writes what it held back of the lines and answers that were put, so that several go out in one write. Answers
    /// whether all of it was written: if not, `put_faults` rises by one. Whoever sleeps, or has nothing more to put, lets
    /// go first.
    fn let_go(&mut self) -> bool
        ensures cause { LetsGo result (Self.faults self.old) (Self.faults self.new) }
        ensures counts { Self.counts self.new ≡ Self.counts self.old }
        ensures log { Logs (Self.log self.old) (Self.log self.new) [] }
        ensures bytes { Keeps (Self.held self.old) (Self.held self.new) };
}
