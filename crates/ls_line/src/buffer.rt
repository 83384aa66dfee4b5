//! A buffer for the text of a line.
ghost use Rattle.std.specs.Prelude.{◌≡◌, ◌≤◌, IfOk, [], length};
ghost use Rattle.ls_line.specs.declared.limits.TheConstants.{LONGEST_TEXT};

use crate::limits::LONGEST_TEXT;
use ls_value::NoMemory;
use std::alloc::Global;
use std::marker::Model;

/// A buffer that holds a text of at most [`LONGEST_TEXT`] bytes, and nothing else. It has room for the longest from its
/// beginning, and keeps it; the bytes behind the text are not written.
#[derive(Drop)]
pub struct LineBuf {
    text: Vec<u8>,
}

impl Model for LineBuf {
    ghost use Rattle.std.specs.Prelude.{◌≤◌, List, ℕ, length};
    ghost use Rattle.std.specs.Vec.{vec_capacity};
    ghost use Rattle.ls_line.specs.declared.limits.TheConstants.{LONGEST_TEXT};

    ghost Value = { List ℕ };

    ghost view = { λ b. b.text.items };

    ghost invariant = { λ b. (length b.text.items ≤ LONGEST_TEXT) × (LONGEST_TEXT ≤ vec_capacity b.text) };
}

impl LineBuf {
    /// A buffer that holds the empty text.
    pub fn new(alloc: Global) -> Result<LineBuf, NoMemory>
        ensures { IfOk result (λ b. b ≡ []) }
    {
        let text = Vec::with_capacity(alloc, LONGEST_TEXT)?;
        Ok(LineBuf { text })
    }

    /// Holds this text, of at most [`LONGEST_TEXT`] bytes, in place of the one before. No memory is taken.
    pub fn fill(&mut self, text: &[u8])
        requires { length text.now ≤ LONGEST_TEXT }
        ensures { self.new ≡ text.now }
    {
        self.text.clear();
        let Ok(()) = self.text.extend_from_slice(text) else {
            unreachable!()
        };
    }

    /// The text that it holds. No memory is taken.
    pub fn text(&self) -> &[u8]
        ensures { result.now ≡ self.now }
    {
        &self.text
    }
}
