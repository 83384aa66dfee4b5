//! Lines over a pipe.
ghost use Rattle.std.specs.Prelude.{Err, ◌≡◌, ◌≤◌, ◌++◌, [], IsTrue, OnErr, length, take, None, Some};
ghost use Rattle.std.specs.Io.KnownBytes.{Appends, Keeps, append_known};
ghost use Rattle.std.specs.Str.{IsUtf8};
ghost use Rattle.ls_outside.specs.Causes.{Rose, one_more};
ghost use Rattle.ls_talk.specs.Lines.{no_counts, PutsOf, LogsPut, HasPutCause};
ghost use Rattle.ls_talk.specs.Talks.{HasBetweenCause, LetsGo, LogsMore};
ghost use Rattle.ls_talk.specs.declared.line_out.PutRefused.TheVariants as refused;
ghost use Rattle.ls_wire.specs.Writing.{Grows, cut_to};

use crate::unsent::Unsent;
use ls_outside::{Pipe, Put, Sink};
use ls_talk::{Between, LineOut, PutRefused, Wire};
use std::snapshot::Snapshot;

/// The most bytes that are held back. A line that is longer is held alone.
pub const MOST_UNSENT: usize = 16_384;

/// Room for what is held back, and for the longest line of a session with its CR LF.
pub const ROOM: usize = 2 * MOST_UNSENT + 2;

/// A wire over a pipe. It takes no memory after it was made, where no line is longer than [`MOST_UNSENT`].
#[derive(Drop)]
pub struct HttpWire<'a, C: Pipe> {
    /// What is written to.
    pub conn: &'a mut C,

    /// What was put and isn't written yet.
    pub unsent: &'a mut Unsent,

    /// The pipe as it was lent, for contracts alone. It is a reference as the other fields are: so who lent the pipe
    /// knows it again when the wire is gone.
    pub lent: &'a Snapshot<C>,

    /// Since then bytes were only written to it.
    pub ghost begun: { cut_to (C.held lent.now.value) (C.held conn.now) ≡ C.held lent.now.value },
}

/// Writes bytes from the front of a piece, up to the first write that fails. Answers how many were written, and whether
/// that are all.
fn write_part<K: Sink>(sink: &mut K, piece: &[u8]) -> (usize, bool)
    ensures within { result.0 ≤ length piece.now }
    ensures bytes { Appends (K.held sink.old) (K.held sink.new) (take result.0 piece.now) }
    ensures all { IsTrue result.1 → result.0 ≡ length piece.now }
    ensures cause { LetsGo result.1 (K.faults sink.old) (K.faults sink.new) }
    ensures source { K.gives sink.new ≡ K.gives sink.old }
{
    let mut at = 0;
    while at < piece.len() {
        match sink.write(&piece[at..]) {
            Put::Taken(count) => at += count,
            Put::Failed => return (at, false),
        }
    }
    (at, true)
}

/// Writes what is held back, and answers whether all of it was written. Where a write fails, what wasn't written by then
/// is still held back.
pub fn let_go<K: Sink>(sink: &mut K, unsent: &mut Unsent) -> bool
    ensures held { Keeps (append_known (K.held sink.old) unsent.old) (append_known (K.held sink.new) unsent.new) }
    ensures grows { Grows (K.held sink.old) (K.held sink.new) }
    ensures all { IsTrue result → unsent.new ≡ [] }
    ensures cause { LetsGo result (K.faults sink.old) (K.faults sink.new) }
    ensures source { K.gives sink.new ≡ K.gives sink.old }
{
    let (count, whole) = write_part(sink, unsent.bytes());
    if whole {
        unsent.clear();
    } else {
        unsent.pass(count);
    }
    whole
}

impl<'a, C: Pipe> HttpWire<'a, C> {
    /// A wire over a pipe, which holds these bytes back; `lent` is the pipe as it is now. It takes no memory, where there
    /// is room for a line after them.
    pub fn over(conn: &'a mut C, unsent: &'a mut Unsent, lent: &'a Snapshot<C>) -> HttpWire<'a, C>
        requires as_it_is { lent.now.value ≡ conn.old }
        ensures lender { result.conn.ghost_name ≡ conn.entry.ghost_name }
        ensures held_back { result.unsent.ghost_name ≡ unsent.entry.ghost_name }
        ensures conn { result.conn.now ≡ conn.old }
        ensures lent { result.lent.now.value ≡ conn.old }
        ensures unsent { result.unsent.now ≡ unsent.old }
    {
        HttpWire { conn, unsent, lent }
    }

    /// Writes what is held back. Answers whether all of it was written: if not, a write failed.
    pub fn let_go(&mut self) -> bool
        ensures lender { self.new.conn.ghost_name ≡ self.old.conn.ghost_name }
        ensures lent { self.new.lent.now ≡ self.old.lent.now }
        ensures held { Keeps (append_known (C.held self.old.conn.now) self.old.unsent.now)
            (append_known (C.held self.new.conn.now) self.new.unsent.now) }
        ensures all { IsTrue result → self.new.unsent.now ≡ [] }
        ensures cause { LetsGo result (C.Sink.faults self.old.conn.now) (C.Sink.faults self.new.conn.now) }
        ensures source { C.gives self.new.conn.now ≡ C.gives self.old.conn.now }
    {
        let_go(self.conn, self.unsent)
    }

    /// Writes what is held back, so that there is room.
    fn make_room(&mut self) -> Result<(), PutRefused>
        ensures lender { self.new.conn.ghost_name ≡ self.old.conn.ghost_name }
        ensures lent { self.new.lent.now ≡ self.old.lent.now }
        ensures held { Keeps (append_known (C.held self.old.conn.now) self.old.unsent.now)
            (append_known (C.held self.new.conn.now) self.new.unsent.now) }
        ensures cause { HasPutCause result (C.Sink.faults self.old.conn.now) (C.Sink.faults self.new.conn.now) }
        ensures failed { OnErr result (result ≡ Err refused.Failed) }
    {
        if self.let_go() {
            Ok(())
        } else {
            Err(PutRefused::Failed)
        }
    }
}

impl<'a, C: Pipe> LineOut for HttpWire<'a, C> {
    ghost held = { λ w. append_known (C.held w.conn.now) w.unsent.now };

    ghost log = { λ _. None };

    ghost faults = { λ w. C.Sink.faults w.conn.now };

    ghost counts = { λ _. no_counts };

    ghost lender = { λ w. Some (record { name = w.conn.ghost_name; held = C.held w.lent.now.value }) };

    fn put_faults(&self) -> u64 {
        self.conn.write_faults()
    }

    fn put(&mut self, text: &[u8]) -> Result<(), PutRefused> {
        if self.unsent.bytes().len() + text.len() > MOST_UNSENT {
            self.make_room()?;
        }
        self.unsent.add_line(text)?;
        Ok(())
    }
}

impl<'a, C: Pipe> Wire for HttpWire<'a, C> {
    fn leaves(&self) -> u64 {
        0
    }

    fn between(&mut self, _: u64) -> Between {
        let _ = self.let_go();
        Between::Go
    }
}
