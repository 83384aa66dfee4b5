//! A source over std's readers, and a sink over its writers.
ghost use Rattle.std.specs.Prelude.{◌≡◌, ◌<◌, ◌≤◌, ◌↔◌, ℕ, IsTrue, MatchOption, length, take};
ghost use Rattle.std.specs.declared.option.Option.{Option as Optional};
ghost use Rattle.std.specs.declared.result.Result.{Result as Answer};
ghost use Rattle.std.specs.IoError.{error_kind};
ghost use Rattle.std.specs.Io.KnownBytes.{Keeps, Appends};
ghost use Rattle.std.specs.declared.io.Error.{Error as Fault};
ghost use Rattle.ls_outside.specs.Causes.{Gives, HasReadCause, TakesOf, HasWriteCause};
ghost use Rattle.ls_outside.specs.Pipes.{no_sink, no_source};
ghost use Rattle.ls_real.specs.Adapters.{GotBy, TriedBy, PutBy};
ghost use Rattle.ls_real.specs.declared.std_io.TheConstants.{WRITE_TRIES as MOST_TRIES};

use crate::once::{Reader, Writer};
use ls_outside::{Got, Put, Sink, Source};
use std::io::{Error, ErrorKind};

/// How often a write that is interrupted is tried at most, in one call.
pub const WRITE_TRIES: u32 = 1000;

/// Whether a signal interrupted the call.
fn is_interrupted(error: &Error) -> bool
    ensures { IsTrue result ↔ (error_kind error.now ≡ ErrorKind.Interrupted) }
{
    error.kind() == ErrorKind::Interrupted
}

/// Whether the call would have had to wait.
fn would_wait(error: &Error) -> bool
    ensures { IsTrue result ↔ (error_kind error.now ≡ ErrorKind.WouldBlock) }
{
    error.kind() == ErrorKind::WouldBlock
}

/// A source over a reader. It tells what the reader tells.
///
/// An error of kind `Interrupted` or `WouldBlock` is answered `NotYet`, so the caller reads again; any other error is
/// answered `Failed`. A reader that gives no byte for a piece that isn't empty is at its end.
#[derive(Drop)]
pub struct StdSource<R> {
    inner: R,
    faults: u64,
    idles: u64,
}

impl<R: Reader> StdSource<R> {
    /// A source over this reader, with both counts 0.
    pub fn new(inner: R) -> StdSource<R>
        ensures unread { ⟦<StdSource<R> as Source>⟧.unread result ≡ R.unread inner }
        ensures faults { ⟦<StdSource<R> as Source>⟧.faults result ≡ 0 }
        ensures waits { ⟦<StdSource<R> as Source>⟧.waits result ≡ 0 }
    {
        StdSource {
            inner,
            faults: 0,
            idles: 0,
        }
    }
}

impl<R: Reader> Source for StdSource<R> {
    ghost unread = { λ s. R.unread s.inner };

    ghost faults = { λ s. s.faults };

    ghost waits = { λ s. s.idles };

    ghost holds = { λ _. no_sink };

    fn read_faults(&self) -> u64 {
        self.faults
    }

    fn idles(&self) -> u64 {
        self.idles
    }

    /// Reads once. The answer is the reader's own.
    fn read(&mut self, piece: &mut [u8]) -> Got
        requires { 0 < length piece.old }
        ensures bytes { Gives (R.unread self.old.inner) (R.unread self.new.inner) result piece.new }
        ensures cause { HasReadCause result self.old.faults self.new.faults self.old.idles self.new.idles }
        ensures sink { no_sink ≡ no_sink }
        ensures answer { (answer : Answer ℕ Fault) × R.answers self.old.inner piece.new answer self.new.inner
            × GotBy result answer }
    {
        match self.inner.read_once(piece) {
            Ok(0) => Got::End,
            Ok(count) => Got::Bytes(count),
            Err(error) => {
                if is_interrupted(&error) || would_wait(&error) {
                    self.idles = self.idles.saturating_add(1);
                    return Got::NotYet;
                }
                self.faults = self.faults.saturating_add(1);
                Got::Failed
            }
        }
    }
}

/// A sink over a writer. It tells what the writer tells.
///
/// A write that a signal interrupts is tried again, up to `WRITE_TRIES` times in all. Any other error is answered
/// `Failed`, and so is a writer that takes no byte of a piece that isn't empty. It doesn't flush the writer.
#[derive(Drop)]
pub struct StdSink<W> {
    inner: W,
    faults: u64,
}

impl<W: Writer> StdSink<W> {
    /// A sink over this writer, with a count of 0.
    pub fn new(inner: W) -> StdSink<W>
        ensures held { ⟦<StdSink<W> as Sink>⟧.held result ≡ W.held inner }
        ensures faults { ⟦<StdSink<W> as Sink>⟧.faults result ≡ 0 }
    {
        StdSink { inner, faults: 0 }
    }
}

/// Writes once, and again while the write is interrupted. Answers how many bytes the writer took.
fn write_retrying<W: Writer>(writer: &mut W, piece: &[u8]) -> Option<usize>
    ensures bytes { MatchOption result
        (Keeps (W.held writer.old) (W.held writer.new))
        (λ count. (count ≤ length piece.now) × Appends (W.held writer.old) (W.held writer.new) (take count piece.now)) }
    ensures tried { TriedBy W.answers piece.now MOST_TRIES writer.old writer.new result }
{
    for _ in 0..WRITE_TRIES {
        match writer.write_once(piece) {
            Ok(count) => return Some(count),
            Err(error) => {
                if !is_interrupted(&error) {
                    return None;
                }
            }
        }
    }
    None
}

impl<W: Writer> Sink for StdSink<W> {
    ghost held = { λ s. W.held s.inner };

    ghost faults = { λ s. s.faults };

    ghost gives = { λ _. no_source };

    fn write_faults(&self) -> u64 {
        self.faults
    }

    /// Writes once, and again while the write is interrupted. The answer is that of the last try.
    fn write(&mut self, piece: &[u8]) -> Put
        ensures bytes { TakesOf (W.held self.old.inner) (W.held self.new.inner) result piece.now }
        ensures cause { HasWriteCause result self.old.faults self.new.faults }
        ensures source { no_source ≡ no_source }
        ensures answer { (taken : Optional ℕ)
            × TriedBy W.answers piece.now MOST_TRIES self.old.inner self.new.inner taken
            × PutBy result taken (length piece.now) }
    {
        match write_retrying(&mut self.inner, piece) {
            Some(count) if count > 0 || piece.is_empty() => Put::Taken(count),
            _ => {
                self.faults = self.faults.saturating_add(1);
                Put::Failed
            }
        }
    }
}
