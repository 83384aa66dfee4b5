//! What cuts lines.
ghost use Rattle.std.specs.Prelude.{◌≡◌, ◌<◌, ◌≤◌, ◌++◌, [], ⊤, OnOk, OnErr, IsErrOf, IfOk, MatchOption};
ghost use Rattle.std.specs.Prelude.{length, slice_index, take};
ghost use Rattle.ls_lines.specs.Lines.{IsPlain, IsLine, AreTooLong, EndsLine, EndsNone, line_at};

use memchr::memchr;
use std::alloc::Global;
use std::marker::Model;
use std::mem;

/// Why bytes of a line aren't taken.
#[derive(Clone, Copy, Debug, PartialEq, Eq)]
pub enum LineRefused {
    /// The line is longer than the limit.
    TooLong,

    /// Memory was refused.
    NoMemory,
}

/// Cuts lines out of bytes that come in pieces. It holds the bytes of a line that hasn't ended yet, and the line that
/// ended last where it began in an earlier piece; neither is longer than the limit, in bytes.
#[derive(Drop)]
pub struct LineCutter {
    limit: usize,
    /// The line that ended last. Empty where it lies whole in its piece.
    joined: Vec<u8>,
    carry: Vec<u8>,
}

impl Model for LineCutter {
    ghost use Rattle.ls_lines.specs.Lines.{Cutting, IsLine};

    ghost Value = { Cutting };

    ghost view = { λ c. record { limit = c.limit; joined = c.joined.items; carry = c.carry.items } };

    ghost invariant = { λ c. IsLine c.limit c.carry.items };
}

impl LineCutter {
    /// Before any byte. No line is longer than the limit, in bytes, without its LF. It takes no memory yet.
    pub fn new(alloc: Global, limit: usize) -> LineCutter
        ensures { result ≡ record { limit = limit; joined = []; carry = [] } }
    {
        LineCutter {
            limit,
            joined: Vec::new(alloc),
            carry: Vec::new(alloc),
        }
    }

    /// Takes bytes from the front of a piece, up to the end of the first line in it, or all of them where none ends.
    ///
    /// `Ok(Some(used))` says that a line has ended, and that so many bytes of the piece were taken, with its LF; the
    /// line is [`Self::line`], and the rest of the piece is for the next call. `Ok(None)` says that no line ends in the
    /// piece, and that all of it is kept. After a refusal the cutter is as before, and nothing of the piece was taken:
    /// `TooLong` comes exactly where the line, as far as it is there, is longer than the limit.
    pub fn take(&mut self, piece: &[u8]) -> Result<Option<usize>, LineRefused>
        ensures lines { IfOk result (λ ended. MatchOption ended
            (EndsNone self.old self.new piece.now) (EndsLine self.old self.new piece.now)) }
        ensures too_long { IsErrOf result LineRefused.TooLong
            → AreTooLong self.old.limit (self.old.carry ++ piece.now) }
        ensures err { OnErr result (self.new ≡ self.old) }
    {
        let Some(len) = line_len(piece) else {
            self.keep(piece)?;
            return Ok(None);
        };
        if self.carry.is_empty() {
            return match self.end_whole(len) {
                Ok(()) => Ok(Some(len + 1)),
                Err(cause) => Err(cause),
            };
        }
        match self.keep(&piece[..len]) {
            Ok(()) => self.end(),
            Err(cause) => return Err(cause),
        }
        Ok(Some(len + 1))
    }

    /// The line that ended last, without its LF, by the piece and the answer of the call in which it ended. It is lent
    /// from that piece where it lies whole there.
    pub fn line<'a>(&'a self, piece: &'a [u8], used: usize) -> &'a [u8]
        requires some { 0 < used }
        requires within { used ≤ length piece.now }
        ensures { result.now ≡ line_at self.now piece.now used }
    {
        if self.joined.is_empty() {
            return &piece[..used - 1];
        }
        &self.joined
    }

    /// The bytes of the line that hasn't ended yet: at the end of the input, what stands behind the last LF.
    pub fn rest(&self) -> &[u8]
        ensures rest { result.now ≡ self.now.carry }
        ensures line { IsLine self.now.limit result.now }
    {
        &self.carry
    }

    /// Keeps bytes that end no line.
    fn keep(&mut self, part: &[u8]) -> Result<(), LineRefused>
        requires { IsPlain part.now }
        ensures kept { OnOk result (self.new ≡ record self.old { carry = self.old.carry ++ part.now }) }
        ensures line { OnOk result (IsLine self.old.limit (self.old.carry ++ part.now)) }
        ensures before { IsLine self.old.limit self.old.carry }
        ensures plain { IsPlain (self.old.carry ++ part.now) }
        ensures too_long { IsErrOf result LineRefused.TooLong
            → self.old.limit < length (self.old.carry ++ part.now) }
        ensures err { OnErr result (self.new ≡ self.old) }
    {
        if part.len() > self.limit - self.carry.len() {
            return Err(LineRefused::TooLong);
        }
        let Ok(()) = self.carry.extend_from_slice(part) else {
            return Err(LineRefused::NoMemory);
        };
        Ok(())
    }

    /// What is kept is a line.
    fn end(&mut self)
        ensures { self.new ≡ record self.old { joined = self.old.carry; carry = [] } }
    {
        mem::swap(&mut self.joined, &mut self.carry);
        self.carry.clear();
    }

    /// So many bytes of a piece are a line, of which nothing was kept.
    fn end_whole(&mut self, len: usize) -> Result<(), LineRefused>
        ensures ended { OnOk result (self.new ≡ record self.old { joined = [] }) }
        ensures short { OnOk result (len ≤ self.old.limit) }
        ensures before { IsLine self.old.limit self.old.carry }
        ensures too_long { IsErrOf result LineRefused.TooLong → self.old.limit < len }
        ensures err { OnErr result (self.new ≡ self.old) }
    {
        if len > self.limit {
            return Err(LineRefused::TooLong);
        }
        self.joined.clear();
        Ok(())
    }
}

/// How long the first line of these bytes is, without its end, if it ends in them.
fn line_len(bytes: &[u8]) -> Option<usize>
    ensures none { MatchOption result (IsPlain bytes.now) (λ len. IsPlain (take len bytes.now)) }
    ensures some { MatchOption result ⊤ (λ len. (len < length bytes.now) × (slice_index bytes.now len ≡ 10)) }
{
    memchr(b'\n', bytes)
}
