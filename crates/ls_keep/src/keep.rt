//! The lines that are kept.
ghost use Rattle.std.specs.Prelude.{◌≡◌, ◌≤◌, ◌<◌, ◌+◌, ◌-◌, ◌++◌, ◌∷◌, ℕ, [], not};
ghost use Rattle.std.specs.Prelude.{IfOk, OnOk, OnErr, IsErrOf, option_map};
ghost use Rattle.ls_value.specs.declared.limits.TheConstants.{GREATEST_NUMBER};
ghost use Rattle.ls_keep.specs.Keeping.{Numbered, may_keep, pushed, marked, resumed};
ghost use Rattle.ls_keep.specs.Kept.{StandsKeep, last_of, kept_text, text_of, given_of, first_given_up, GaveUp, IsTrim};

use crate::limits::{MOST_KEPT_BYTES, MOST_KEPT_LINES};
use crate::texts::LineTexts;
use ls_value::{Bytes, NoMemory};
use std::alloc::Global;
use std::marker::Model;

/// Why a client can't go on behind the lines that it has.
#[derive(Clone, Copy, Debug, PartialEq, Eq)]
pub enum ResumeRefused {
    /// The next line was given up: the lines up to this number aren't kept.
    GivenUp { first: u64 },
    /// It has more lines than were numbered: the last one has this number.
    Beyond { last: u64 },
}

/// The numbered lines of a session that are kept, how many were given, and the given-up number.
#[derive(Drop)]
pub struct Keep {
    lines: LineTexts,
    /// Of the lines that are kept. There may be 2^60 lines, each shorter than 2^64, so a `u64` is too short by type.
    bytes: u128,
    sent: u64,
    given_up: u64,
}

impl Model for Keep {
    ghost use Rattle.ls_keep.specs.Kept.{KeptLines, IsSound};

    ghost Value = { KeptLines };

    ghost view = { λ k. record {
      texts = k.lines.texts;
      sent = k.sent;
      given_up = k.given_up;
      freed = k.lines.left;
      spare = k.lines.spare;
    } };

    ghost invariant = { λ k. IsSound k.bytes k.lines.texts k.sent k.given_up };
}

impl Keep {
    /// No line. No memory is taken.
    pub fn new(alloc: Global) -> Result<Keep, NoMemory>
        ensures stands { IfOk result (λ k. StandsKeep k (record { texts = []; sent = 0; given_up = 0 })) }
        ensures freed { IfOk result (λ k. k.freed ≡ []) }
        ensures memory { OnErr result ⊥ }
    {
        Ok(Keep {
            lines: LineTexts::new(alloc),
            bytes: 0,
            sent: 0,
            given_up: 0,
        })
    }

    /// Takes memory, so that so many more lines may be numbered. After `NoMemory` all is as before.
    pub fn reserve(&mut self, lines: usize) -> Result<(), NoMemory>
        ensures room { OnOk result (lines ≤ self.new.spare) }
        ensures rest { self.new ≡ record self.old { spare = self.new.spare } }
    {
        self.lines.reserve(lines)?;
        Ok(())
    }

    /// For how many lines more there is room.
    pub fn spare(&self) -> usize
        ensures { result ≡ self.now.spare }
    {
        self.lines.spare()
    }

    /// Numbers a line, and answers its number. Lines that aren't to be kept any more are given up. No memory is taken.
    pub fn push(&mut self, text: Bytes) -> u64
        requires room { 0 < self.old.spare }
        requires number { last_of self.old < GREATEST_NUMBER }
        ensures number { result ≡ last_of self.old + 1 }
        ensures gave_up { GaveUp (record self.old {
          texts = self.old.texts ++ text ∷ [];
          spare = self.old.spare - 1;
        }) self.new }
        ensures stands { (n : Numbered) → StandsKeep self.old n → StandsKeep self.new (pushed text n) }
        ensures room { self.old.spare ≤ self.new.spare + 1 }
    {
        self.bytes += text.len() as u128;
        self.lines.push(text);
        self.numbered()
    }

    /// The same with a line whose memory may be that of the next blank one.
    pub fn push_text(&mut self, text: Vec<u8>) -> u64
        requires room { 0 < self.old.spare }
        requires number { last_of self.old < GREATEST_NUMBER }
        ensures number { result ≡ last_of self.old + 1 }
        ensures gave_up { GaveUp (record self.old {
          texts = self.old.texts ++ text.items ∷ [];
          spare = self.old.spare - 1;
        }) self.new }
        ensures stands { (n : Numbered) → StandsKeep self.old n → StandsKeep self.new (pushed text.items n) }
        ensures room { self.old.spare ≤ self.new.spare + 1 }
    {
        self.bytes += text.len() as u128;
        self.lines.push_text(text);
        self.numbered()
    }

    /// A line was numbered: lines that aren't to be kept any more are given up. Its number is answered.
    fn numbered(&mut self) -> u64
        requires given { self.old.given_up ≤ self.old.sent }
        requires numbered { self.old.sent ≤ last_of self.old }
        ensures number { result ≡ last_of self.old }
        ensures gave_up { GaveUp self.old self.new }
        ensures is_trim { IsTrim self.new }
    {
        let number = self.last();
        self.trim();
        number
    }

    /// A blank text with room for so many bytes, for a line. It takes memory only where that of a line isn't left.
    pub fn blank(&mut self, bytes: usize) -> Result<Vec<u8>, NoMemory>
        ensures items { IfOk result (λ text. text.items ≡ []) }
        ensures rest { self.new ≡ self.old }
    {
        self.lines.blank(bytes)
    }

    /// The next line is given, which is the one that `given` tells. Lines that aren't to be kept any more are given up.
    /// No memory is taken.
    pub fn mark(&mut self)
        requires { self.old.sent < last_of self.old }
        ensures gave_up { GaveUp (record self.old { sent = self.old.sent + 1 }) self.new }
        ensures stands { (n : Numbered) → StandsKeep self.old n → StandsKeep self.new (marked n) }
        ensures given { (n : Numbered) → StandsKeep self.old n → given_of self.new ≡ text_of n.texts (n.sent + 1) }
        ensures room { self.old.spare ≤ self.new.spare }
    {
        self.sent += 1;
        self.trim();
    }

    /// The next line to be given is the one behind a count, as a client has the lines up to it. It is refused where the
    /// line isn't kept, or the count is beyond the last line; then all is as before. No memory is taken.
    pub fn resume(&mut self, count: u64) -> Result<(), ResumeRefused>
        ensures ok { OnOk result ((self.old.given_up ≤ count) × (count ≤ last_of self.old)
            × ((n : Numbered) → StandsKeep self.old n → StandsKeep self.new (resumed count n))) }
        ensures given_up { (first : ℕ) → IsErrOf result (ResumeRefused.GivenUp first)
            → (count < self.old.given_up) × (first ≡ self.old.given_up) }
        ensures beyond { (last : ℕ) → IsErrOf result (ResumeRefused.Beyond last)
            → (last < count) × (last ≡ last_of self.old) }
        ensures rest { self.new ≡ record self.old { sent = self.new.sent } }
        ensures err { OnErr result (self.new ≡ self.old) }
    {
        if count < self.given_up {
            return Err(ResumeRefused::GivenUp {
                first: self.given_up,
            });
        }
        let last = self.last();
        if count > last {
            return Err(ResumeRefused::Beyond { last });
        }
        self.sent = count;
        Ok(())
    }

    /// All lines are given up, as if each was given, and their memory is given back. No memory is taken.
    pub fn close(&mut self, alloc: Global)
        ensures { self.new ≡ record {
          texts = [];
          sent = last_of self.old;
          given_up = last_of self.old;
          freed = [];
          spare = self.new.spare;
        } }
    {
        self.clear();
        self.lines = LineTexts::new(alloc);
    }

    /// All lines are given up, as if each was given. The room for lines stays. No memory is taken.
    pub fn clear(&mut self)
        ensures rest { self.new ≡ record self.old {
          texts = [];
          sent = last_of self.old;
          given_up = last_of self.old;
          spare = self.new.spare;
        } }
        ensures room { self.old.spare ≤ self.new.spare }
    {
        let last = self.last();
        self.lines.clear();
        self.bytes = 0;
        self.sent = last;
        self.given_up = last;
    }

    /// The text of a line by its number: `None` exactly where it isn't kept, or beyond the last one.
    pub fn get(&self, n: u64) -> Option<&[u8]>
        ensures { option_map (λ t. t.now) result ≡ kept_text self.now n }
    {
        if n <= self.given_up {
            return None;
        }
        let place = usize::try_from(n - self.given_up - 1).ok()?;
        self.lines.get(place)
    }

    /// The text of the line that `mark` gave last, before any other call that changes the lines.
    pub fn given(&self) -> &[u8]
        ensures { result.now ≡ given_of self.now }
    {
        match self.get(self.sent) {
            Some(line) => line,
            None => self.lines.left(),
        }
    }

    /// How many lines were given.
    pub fn sent(&self) -> u64
        ensures { result ≡ self.now.sent }
    {
        self.sent
    }

    /// The number of the last line: how many were numbered.
    pub fn last(&self) -> u64
        ensures { result ≡ last_of self.now }
    {
        self.given_up + self.lines.len() as u64
    }

    /// The given-up number: that of the last line that isn't kept.
    pub fn given_up(&self) -> u64
        ensures { result ≡ self.now.given_up }
    {
        self.given_up
    }

    /// Gives lines up that were given, as long as there are too many to keep, or too long ones.
    fn trim(&mut self)
        requires given { self.old.given_up ≤ self.old.sent }
        requires numbered { self.old.sent ≤ last_of self.old }
        ensures gave_up { GaveUp self.old self.new }
        ensures is_trim { IsTrim self.new }
    {
        while self.given_up < self.sent && self.is_over() {
            self.give_up();
        }
    }

    /// Whether there are too many lines to keep, or too long ones.
    fn is_over(&self) -> bool
        ensures { result ≡ not (may_keep self.now.texts 0) }
    {
        self.lines.len() > MOST_KEPT_LINES || self.bytes > MOST_KEPT_BYTES as u128
    }

    /// The first line that is kept is given up, which was given.
    fn give_up(&mut self)
        requires { self.old.given_up < self.old.sent }
        ensures lines { self.new ≡ first_given_up self.new.spare self.old }
        ensures room { self.old.spare ≤ self.new.spare }
    {
        self.bytes -= self.lines.pop() as u128;
        self.given_up += 1;
    }
}
