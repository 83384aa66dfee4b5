//! The texts of lines that are kept.
ghost use Rattle.std.specs.Prelude.{◌≡◌, ◌≤◌, ◌<◌, ◌+◌, ◌^◌, ◌++◌, ◌∷◌, [], length, drop, slice_get, option_map, OnOk, IfOk};
ghost use Rattle.ls_keep.specs.Kept.{text_of};

use crate::queue::TextQueue;
use ls_value::{Bytes, NoMemory};
use std::alloc::Global;
use std::collections::VecDeque;
use std::marker::Model;
use std::mem::swap;

/// How large the memory of a text is at most that is kept for the next one.
const MOST_BLANK: usize = 1024;

/// The texts of lines, and the one that left last. They lie in one piece of memory. A text for which there is no room
/// in it stays a text of its own, and so do those after it, until there is memory for all.
#[derive(Drop)]
pub(crate) struct LineTexts {
    packed: TextQueue,
    /// Those after the packed ones.
    loose: VecDeque<Bytes>,
    /// The text that left last, where it was a loose one.
    left: Option<Bytes>,
    /// The memory of a text that was packed, for the next one.
    blank: Vec<u8>,
}

impl Model for LineTexts {
    ghost use Rattle.std.specs.Prelude.{◌-◌, ◌++◌};
    ghost use Rattle.std.specs.Option.{unwrap_or};
    ghost use Rattle.std.specs.VecDeque.{deque_len, deque_capacity};
    ghost use Rattle.ls_keep.specs.Texts.{HeldTexts};

    ghost Value = { HeldTexts };

    ghost view = { λ t. record {
      texts = t.packed.texts ++ t.loose.items;
      left = unwrap_or t.left t.packed.left;
      spare = deque_capacity t.loose - deque_len t.loose;
    } };
}

impl LineTexts {
    /// No text. No memory is taken.
    pub(crate) fn new(alloc: Global) -> LineTexts
        ensures { result ≡ record { texts = []; left = []; spare = result.spare } }
    {
        LineTexts {
            packed: TextQueue::new(alloc),
            loose: VecDeque::new(alloc),
            left: None,
            blank: Vec::new(alloc),
        }
    }

    /// Takes memory, so that so many more texts may be pushed, and packs those that are loose. After `NoMemory` all is
    /// as before.
    pub(crate) fn reserve(&mut self, texts: usize) -> Result<(), NoMemory>
        ensures room { OnOk result (texts ≤ self.new.spare) }
        ensures rest { self.new ≡ record self.old { spare = self.new.spare } }
    {
        self.pack()?;
        self.loose.reserve(texts)?;
        Ok(())
    }

    /// The loose texts are packed, as far as there is room for them.
    fn pack(&mut self) -> Result<(), NoMemory>
        ensures { self.new ≡ record self.old { spare = self.new.spare } }
    {
        let Some(text) = self.loose.front() else {
            return Ok(());
        };
        self.packed.reserve(text.len())?;
        for _ in 0..self.loose.len() {
            self.pack_first();
        }
        Ok(())
    }

    /// The first of the loose texts is packed, where there is room for it.
    fn pack_first(&mut self)
        ensures { self.new ≡ record self.old { spare = self.new.spare } }
    {
        let Some(text) = self.loose.front() else {
            return;
        };
        if self.packed.push(text.as_slice()) {
            let _packed = self.loose.pop_front();
        }
    }

    /// For how many texts more there is room.
    pub(crate) fn spare(&self) -> usize
        ensures { result ≡ self.now.spare }
    {
        self.loose.capacity() - self.loose.len()
    }

    /// A text joins the others. No memory is taken.
    pub(crate) fn push(&mut self, text: Bytes)
        requires { 0 < self.old.spare }
        ensures texts { self.new ≡ record self.old { texts = self.old.texts ++ text ∷ []; spare = self.new.spare } }
        ensures room { self.old.spare ≤ self.new.spare + 1 }
    {
        if self.loose.is_empty() && self.packed.push(text.as_slice()) {
            return;
        }
        self.loose.push_back_reserved(text);
    }

    /// The same with a text whose memory may be that of the next blank one.
    pub(crate) fn push_text(&mut self, text: Vec<u8>)
        requires { 0 < self.old.spare }
        ensures texts { self.new ≡ record self.old {
          texts = self.old.texts ++ text.items ∷ [];
          spare = self.new.spare;
        } }
        ensures room { self.old.spare ≤ self.new.spare + 1 }
    {
        if self.loose.is_empty() && self.packed.push(&text) {
            self.keep_blank(text);
        } else {
            self.loose.push_back_reserved(Bytes::from_vec(text));
        }
    }

    /// The memory of a text is kept for the next blank one, where it isn't large.
    fn keep_blank(&mut self, text: Vec<u8>)
        ensures { self.new ≡ self.old }
    {
        if text.capacity() <= MOST_BLANK {
            self.blank = text;
        }
    }

    /// A blank text with room for so many bytes. It takes memory only where none is kept, or too little.
    pub(crate) fn blank(&mut self, bytes: usize) -> Result<Vec<u8>, NoMemory>
        ensures items { IfOk result (λ text. text.items ≡ []) }
        ensures rest { self.new ≡ self.old }
    {
        let mut text = Vec::new(*self.blank.allocator());
        swap(&mut text, &mut self.blank);
        text.clear();
        text.reserve(bytes)?;
        Ok(text)
    }

    /// The first text leaves. Its length is answered. No memory is taken.
    pub(crate) fn pop(&mut self) -> usize
        requires { 0 < length self.old.texts }
        ensures length { result ≡ length (text_of self.old.texts 1) }
        ensures texts { self.new ≡ record {
          texts = drop 1 self.old.texts;
          left = text_of self.old.texts 1;
          spare = self.new.spare;
        } }
        ensures room { self.old.spare ≤ self.new.spare }
    {
        if self.packed.len() > 0 {
            self.left = None;
            return self.packed.pop();
        }
        match self.loose.pop_front() {
            Some(text) => {
                let bytes = text.len();
                self.left = Some(text);
                bytes
            }
            None => 0,
        }
    }

    /// All texts leave, and the one that left before them is still there. No memory is taken.
    pub(crate) fn clear(&mut self)
        ensures texts { self.new ≡ record self.old { texts = []; spare = self.new.spare } }
        ensures room { self.old.spare ≤ self.new.spare }
    {
        self.packed.clear();
        self.loose.clear();
    }

    /// A text by its place, from 0.
    pub(crate) fn get(&self, place: usize) -> Option<&[u8]>
        ensures { option_map (λ t. t.now) result ≡ slice_get self.now.texts place }
    {
        let packed = self.packed.len();
        if place < packed {
            self.packed.get(place)
        } else {
            text_at(&self.loose, place - packed)
        }
    }

    /// The text that left last.
    pub(crate) fn left(&self) -> &[u8]
        ensures { result.now ≡ self.now.left }
    {
        match &self.left {
            Some(text) => text.as_slice(),
            None => self.packed.left(),
        }
    }

    /// How many texts there are.
    pub(crate) fn len(&self) -> usize
        ensures { result ≡ length self.now.texts }
    {
        self.packed.len() + self.loose.len()
    }
}

/// A text by its place.
fn text_at(texts: &VecDeque<Bytes>, place: usize) -> Option<&[u8]>
    ensures { option_map (λ t. t.now) result ≡ slice_get texts.now.items place }
{
    let text = texts.get(place)?;
    Some(text.as_slice())
}
