//! The lines of a session's streams that are kept, and whether the session has ended (TLCP 2.1, streams).
ghost use Rattle.std.specs.Prelude.{◌≡◌, ◌≤◌, ◌+◌, ◌++◌, ◌∷◌, ◌&&◌, ◌⊎◌, ℕ, [], true, false, is_some, nat_lt, nat_le};
ghost use Rattle.std.specs.Prelude.{length};
ghost use Rattle.std.specs.Prelude.{IfOk, OnOk, OnErr, IfSome};
ghost use Rattle.ls_record.specs.Acting.{destroyed, unsent};
ghost use Rattle.ls_record.specs.Lines.{text_at};
ghost use Rattle.ls_record.specs.Records.{Session, opened, ended, is_alive, timed_out};
ghost use Rattle.ls_line.specs.declared.limits.TheConstants.{LONGEST_TEXT};
ghost use Rattle.ls_stream.specs.Standing.{StandsLines, NumbersLine, IsReadyFor, PushesLine, current_text, life_of};
ghost use Rattle.ls_stream.specs.Standing.{last_line, room_of, IsRoomier, AreShort, ClearsEnded};

use crate::ending::end_text;
use crate::opening::opening;
use crate::stream::Stream;
use ls_keep::Keep;
use ls_request::Create;
use ls_value::{Bytes, NoMemory};
use std::alloc::Global;
use std::collections::VecDeque;
use std::mem::swap;

/// The code of a session that a request destroyed.
pub const DESTROYED: u16 = 31;

/// The code of a session that its client left for too long.
pub const TIMED_OUT: u16 = 73;

/// Whether a session has ended, and for the cause of which code.
#[derive(Clone, Copy, Debug, PartialEq, Eq)]
pub enum Life {
    /// It hasn't.
    Alive,
    /// It has, and its client is to be told.
    Ending(u16),
    /// It has, and its client was told.
    Ended(u16),
}

/// Which line was given last: one that isn't numbered, a numbered one, or LOOP.
#[derive(Clone, Copy, Debug, PartialEq, Eq)]
pub enum Current {
    Owed,
    Numbered,
    Loop,
}

/// What a turn gives before a slot of the session is asked.
#[derive(Clone, Copy, Debug, PartialEq, Eq)]
pub enum StreamTurn {
    /// A line, which is the current one.
    Line,
    /// Nothing: the session has a newer stream.
    Superseded {
        /// The epoch of that one.
        epoch: u64,
    },
    /// Nothing: no stream is bound.
    Unbound,
    /// Nothing: the session has ended for the cause of this code, and its client was told, or has no stream.
    Ended {
        /// The cause's number.
        code: u16,
    },
    /// Nothing: no line waits, so that a slot may be asked.
    Nothing,
}

/// The lines that are owed to a session's newest stream, the numbered lines that are kept, what is kept of that stream,
/// the tick since which none is bound, the line given last where it isn't numbered, which line that was, whether the
/// session has ended, and the texts of END: for each cause while it is alive, and then for the one that ended it. Of a
/// session that has ended no owed or numbered line is kept, and `sent` tells how many were given. It keeps the allocator
/// that its constructor took.
#[derive(Drop)]
pub struct Lines {
    pub(crate) alloc: Global,
    pub(crate) owed: VecDeque<Bytes>,
    pub(crate) keep: Keep,
    pub(crate) sent: u64,
    pub(crate) stream: Stream,
    pub(crate) unbound: Option<u64>,
    pub(crate) given: Bytes,
    pub(crate) current: Current,
    pub(crate) life: Life,
    pub(crate) destroyed: Bytes,
    pub(crate) timed_out: Bytes,
    pub(crate) end: Bytes,
}

impl Lines {
    /// What the first stream of a new session of this number begins with, and the texts of END, which are made now so
    /// that the session ends without memory.
    pub fn new(alloc: Global, id: u64, create: &Create) -> Result<Lines, NoMemory>
        ensures { IfOk result (λ k. StandsLines k
            (opened id create.now.keepalive create.now.bandwidth create.now.length)) }
    {
        let owed = VecDeque::from_vec(opening(alloc, id, create.keepalive, create.bandwidth)?);
        let destroyed = end_text(alloc, DESTROYED)?;
        let timed_out = end_text(alloc, TIMED_OUT)?;
        let keep = Keep::new(alloc)?;
        Ok(Lines {
            alloc,
            owed,
            keep,
            sent: 0,
            stream: Stream::new(1, create.length),
            unbound: None,
            given: Bytes::from_vec(Vec::new(alloc)),
            current: Current::Owed,
            life: Life::Alive,
            destroyed,
            timed_out,
            end: Bytes::from_vec(Vec::new(alloc)),
        })
    }

    /// Takes memory, so that so many more lines may be numbered. After `NoMemory` the lines are as before.
    pub fn reserve(&mut self, lines: usize) -> Result<(), NoMemory>
        ensures room { OnOk result (lines ≤ room_of self.new) }
        ensures rest { IsRoomier self.old self.new }
    {
        self.keep.reserve(lines)?;
        Ok(())
    }

    /// A line is numbered, and waits to be given. In a session that has ended it isn't kept. No memory is taken.
    pub fn number(&mut self, text: Bytes)
        requires { IsReadyFor 1 self.old }
        ensures { NumbersLine self.old text self.new }
    {
        self.push(text);
        self.clear_ended();
    }

    /// The same with a text whose memory may be that of the next blank one.
    pub fn number_text(&mut self, text: Vec<u8>)
        requires { IsReadyFor 1 self.old }
        ensures { NumbersLine self.old text.items self.new }
    {
        self.push_text(text);
        self.clear_ended();
    }

    /// A line is numbered.
    fn push(&mut self, text: Bytes)
        requires { IsReadyFor 1 self.old }
        ensures { PushesLine self.old text self.new }
    {
        self.keep.push(text);
    }

    /// A line is numbered, whose memory may be that of the next blank text.
    fn push_text(&mut self, text: Vec<u8>)
        requires { IsReadyFor 1 self.old }
        ensures { PushesLine self.old text.items self.new }
    {
        self.keep.push_text(text);
    }

    /// A blank text with room for so many bytes, and room for one line more, so that [`Lines::number_text`] may number
    /// it. It takes memory only where lines left none, or too little. After `NoMemory` the lines are as before.
    pub fn blank(&mut self, bytes: usize) -> Result<Vec<u8>, NoMemory>
        ensures items { IfOk result (λ text. text.items ≡ []) }
        ensures room { OnOk result (1 ≤ room_of self.new) }
        ensures rest { IsRoomier self.old self.new }
    {
        self.keep.reserve(1)?;
        let text = self.keep.blank(bytes)?;
        Ok(text)
    }

    /// No line is kept of a session that has ended.
    fn clear_ended(&mut self)
        ensures { ClearsEnded self.old self.new }
    {
        match self.life {
            Life::Alive => {}
            Life::Ending(_) => self.keep.clear(),
            Life::Ended(_) => self.keep.clear(),
        }
    }

    /// A line that isn't numbered is owed to the stream, behind the others. After `NoMemory` the lines are as before.
    pub fn owe(&mut self, text: Bytes) -> Result<(), NoMemory>
        ensures ok { OnOk result (self.new.owed.items ≡ self.old.owed.items ++ text ∷ []) }
        ensures err { OnErr result (self.new.owed.items ≡ self.old.owed.items) }
        ensures rest { self.new ≡ record self.old { owed = self.new.owed } }
    {
        self.owed.reserve(1)?;
        self.owed.push_back_reserved(text);
        Ok(())
    }

    /// The session ends for the cause of a code, [`DESTROYED`] or [`TIMED_OUT`]: END is the next line that is given, and
    /// the memory of all other lines is given back. No memory is taken.
    pub fn end(&mut self, code: u16)
        requires { (code ≡ destroyed) ⊎ (code ≡ timed_out) }
        ensures { (s : Session) → StandsLines self.old s → is_alive s.life ≡ true
            → StandsLines self.new (ended code s) }
    {
        self.give_back();
        self.life = Life::Ending(code);
        if code == DESTROYED {
            swap(&mut self.end, &mut self.destroyed);
        } else {
            swap(&mut self.end, &mut self.timed_out);
        }
    }

    /// The memory of the owed and the numbered lines is given back. No memory is taken.
    fn give_back(&mut self)
        ensures owed { self.new.owed.items ≡ [] }
        ensures texts { self.new.keep.texts ≡ [] }
        ensures last { self.new.keep.given_up ≡ last_line self.old }
        ensures freed { self.new.keep.freed ≡ [] }
        ensures sent { self.new.sent ≡ self.old.keep.sent }
        ensures rest { self.new ≡ record self.old {
          owed = self.new.owed;
          keep = self.new.keep;
          sent = self.new.sent;
        } }
    {
        self.sent = self.keep.sent();
        self.keep.close(self.alloc);
        self.owed = VecDeque::new(self.alloc);
    }

    /// The line that the last turn gave, without CR LF.
    pub fn current(&self) -> &[u8]
        ensures line { result.now ≡ current_text self.now }
        ensures short { (s : Session) → StandsLines self.now s → length result.now ≤ LONGEST_TEXT }
    {
        match self.current {
            Current::Owed => self.given.as_slice(),
            Current::Numbered => self.keep.given(),
            Current::Loop => b"LOOP,0",
        }
    }

    /// The text of a numbered line that is kept: `None` exactly where the line was given up, or isn't numbered, or the
    /// session has ended.
    pub fn line(&self, n: u64) -> Option<&[u8]>
        ensures text { IfSome result (λ t. (s : Session) → StandsLines self.now s → t.now ≡ text_at s.board.lines n) }
        ensures kept { (s : Session) → StandsLines self.now s
            → is_some result ≡ (is_alive s.life && (nat_lt s.given_up n && nat_le n (length s.board.lines))) }
    {
        self.keep.get(n)
    }

    /// How many lines were given.
    pub fn sent(&self) -> u64
        ensures { (s : Session) → StandsLines self.now s → result ≡ s.sent }
    {
        match self.life {
            Life::Alive => self.keep.sent(),
            Life::Ending(_) => self.sent,
            Life::Ended(_) => self.sent,
        }
    }

    /// How many lines were numbered.
    pub fn last(&self) -> u64
        ensures own { result ≡ last_line self.now }
        ensures stands { (s : Session) → StandsLines self.now s → result ≡ length s.board.lines }
    {
        self.keep.last()
    }

    /// How many numbered lines aren't given yet.
    pub fn unsent(&self) -> u64
        ensures { (s : Session) → StandsLines self.now s → result ≡ unsent s }
    {
        self.keep.last().saturating_sub(self.sent())
    }

    /// How many lines are owed to the stream that aren't numbered, where the session hasn't ended.
    pub fn owed(&self) -> usize
        ensures { (s : Session) → StandsLines self.now s → is_alive s.life ≡ true → result ≡ length s.owed }
    {
        self.owed.len()
    }

    /// How many streams there were: the epoch of the newest one.
    pub fn epoch(&self) -> u64
        ensures { (s : Session) → StandsLines self.now s → result ≡ length s.streams }
    {
        self.stream.epoch
    }

    /// The tick, in ms, since which no stream is bound: `None` exactly where one is.
    pub fn since(&self) -> Option<u64>
        ensures { (s : Session) → StandsLines self.now s → result ≡ s.unbound }
    {
        self.unbound
    }

    /// Whether the session has ended, and for the cause of which code.
    pub fn life(&self) -> Life
        ensures { (s : Session) → StandsLines self.now s → life_of result ≡ s.life }
    {
        self.life
    }
}
