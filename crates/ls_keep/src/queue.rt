//! Texts in one piece of memory.
ghost use Rattle.std.specs.Prelude.{◌≡◌, ◌≤◌, ◌<◌, ◌+◌, ◌-◌, ◌^◌, ◌++◌, ◌∷◌, [], true, false, length, take, drop, slice_get, slice_range};
ghost use Rattle.std.specs.Prelude.{option_map, IfOk, OnErr, vec_len, vec_capacity};
ghost use Rattle.std.specs.VecDeque.{deque_len, deque_capacity};
ghost use Rattle.ls_keep.specs.Kept.{text_of};

use ls_value::NoMemory;
use std::alloc::Global;
use std::collections::VecDeque;
use std::marker::Model;

/// How many bytes there is room for at least, when memory is taken.
const LEAST_ROOM: usize = 256;

/// A queue of texts that lie in one piece of memory, each after the one before; and the text that left it last. Places
/// in that memory count from the first byte that ever was there, so that they stay as they are.
#[derive(Drop)]
pub(crate) struct TextQueue {
    bytes: Vec<u8>,
    /// How many bytes were there before those that are.
    gone: usize,
    /// Where the text that left last begins. It ends where the first one begins.
    left: usize,
    /// Where the first text begins.
    first: usize,
    /// Where each text ends. The next one begins there.
    ends: VecDeque<usize>,
}

impl Model for TextQueue {
    ghost use Rattle.ls_keep.specs.Texts.{QueuedTexts, LieIn, text_between, texts_between};

    ghost Value = { QueuedTexts };

    ghost view = { λ q. record {
      texts = texts_between q.bytes.items q.gone q.first q.ends.items;
      left = text_between q.bytes.items q.gone q.left q.first;
    } };

    ghost invariant = { λ q. LieIn q.bytes.items q.gone q.left q.first q.ends.items };
}

impl TextQueue {
    /// No text. No memory is taken.
    pub(crate) fn new(alloc: Global) -> TextQueue
        ensures { result ≡ record { texts = []; left = [] } }
    {
        TextQueue {
            bytes: Vec::new(alloc),
            gone: 0,
            left: 0,
            first: 0,
            ends: VecDeque::new(alloc),
        }
    }

    /// Takes memory for so many bytes more, where giving up the texts that left, except the last one of these, makes no
    /// room for them. After `NoMemory` all is as before.
    pub(crate) fn reserve(&mut self, more: usize) -> Result<(), NoMemory>
        ensures { self.new ≡ self.old }
    {
        self.ends.reserve(1)?;
        if more <= self.bytes.capacity() - self.bytes.len() {
            return Ok(());
        }
        make_room(&mut self.bytes, self.left - self.gone, more)?;
        self.gone = self.left;
        Ok(())
    }

    /// A text joins the queue where there is room for it, and else all is as before. No memory is taken.
    pub(crate) fn push(&mut self, text: &[u8]) -> bool
        ensures joined { result ≡ true → self.new ≡ record self.old { texts = self.old.texts ++ text.now ∷ [] } }
        ensures full { result ≡ false → self.new ≡ self.old }
    {
        if !has_room(&self.bytes, &self.ends, self.gone, text.len()) {
            return false;
        }
        let end = self.gone + (self.bytes.len() + text.len());
        match self.bytes.extend_from_slice(text) {
            Ok(()) => {
                self.ends.push_back_reserved(end);
                true
            }
            Err(_) => false,
        }
    }

    /// The first text leaves. Its length is answered. No memory is taken.
    pub(crate) fn pop(&mut self) -> usize
        requires { 0 < length self.old.texts }
        ensures length { result ≡ length (text_of self.old.texts 1) }
        ensures queue { self.new ≡ record { texts = drop 1 self.old.texts; left = text_of self.old.texts 1 } }
    {
        match self.ends.pop_front() {
            Some(end) => {
                let begin = self.first;
                self.left = begin;
                self.first = end;
                end - begin
            }
            None => 0,
        }
    }

    /// All texts leave, and the one that left before them is still there. No memory is taken.
    pub(crate) fn clear(&mut self)
        ensures { self.new ≡ record self.old { texts = [] } }
    {
        self.bytes.truncate(self.first - self.gone);
        self.ends.clear();
    }

    /// A text by its place in the queue, from 0.
    pub(crate) fn get(&self, place: usize) -> Option<&[u8]>
        ensures { option_map (λ t. t.now) result ≡ slice_get self.now.texts place }
    {
        let Some(end) = place_at(&self.ends, place) else {
            return None;
        };
        let Some(begin) = begin_of(self.first, &self.ends, place) else {
            return None;
        };
        Some(piece(&self.bytes, begin - self.gone, end - self.gone))
    }

    /// The text that left last.
    pub(crate) fn left(&self) -> &[u8]
        ensures { result.now ≡ self.now.left }
    {
        piece(&self.bytes, self.left - self.gone, self.first - self.gone)
    }

    /// How many texts there are.
    pub(crate) fn len(&self) -> usize
        ensures texts { result ≡ length self.now.texts }
        ensures few { result < 2 ^ 63 }
    {
        self.ends.len()
    }
}

/// Whether there is room for a text of so many bytes, and places are numbers that a `usize` has.
fn has_room(bytes: &Vec<u8>, ends: &VecDeque<usize>, gone: usize, more: usize) -> bool
    ensures bytes { result ≡ true → vec_len bytes.now + more ≤ vec_capacity bytes.now }
    ensures ends { result ≡ true → deque_len ends.now < deque_capacity ends.now }
    ensures places { result ≡ true → gone + vec_capacity bytes.now < 2 ^ 64 }
{
    more <= bytes.capacity() - bytes.len()
        && ends.len() < ends.capacity()
        && bytes.capacity() <= usize::MAX - gone
}

/// The bytes before a place are given up, and there is room for so many more after the others. These move to the front
/// of their memory, where a quarter of it is free then; else to memory that is half as large again. So memory is taken
/// only while there are more bytes than ever, and each byte moves few times.
fn make_room(bytes: &mut Vec<u8>, from: usize, more: usize) -> Result<(), NoMemory>
    requires { from ≤ length bytes.old.items }
    ensures moved { IfOk result (λ _. bytes.new.items ≡ drop from bytes.old.items) }
    ensures err { OnErr result (bytes.new ≡ bytes.old) }
{
    let rest = bytes.len() - from;
    let wanted = rest.saturating_add(rest / 4).saturating_add(more);
    if wanted <= bytes.capacity() {
        give_up_front(bytes, from);
        return Ok(());
    }
    let moved = copied_from(bytes, from, more)?;
    *bytes = moved;
    Ok(())
}

/// The bytes before a place are given up, and the others move to the front. No memory is taken.
fn give_up_front(bytes: &mut Vec<u8>, from: usize)
    requires { from ≤ length bytes.old.items }
    ensures { bytes.new.items ≡ drop from bytes.old.items }
{
    let rest = bytes.len() - from;
    move_to_front(bytes.as_mut_slice(), from);
    bytes.truncate(rest);
}

/// The bytes from a place on move to the front, in pieces that don't overlap the place they go to. What stands after them
/// isn't said.
fn move_to_front(bytes: &mut [u8], from: usize)
    requires { from ≤ length bytes.old }
    ensures len { length bytes.new ≡ length bytes.old }
    ensures moved { take (length bytes.old - from) bytes.new ≡ drop from bytes.old }
{
    if from == 0 {
        return;
    }
    let rest = bytes.len() - from;
    let mut moved = 0;
    while moved < rest {
        let count = from.min(rest - moved);
        copy_apart(bytes, from + moved, moved, count);
        moved += count;
    }
}

/// So many bytes from a place on are copied to a place before them, where they end before they begin.
fn copy_apart(bytes: &mut [u8], from: usize, to: usize, count: usize)
    requires apart { to + count ≤ from }
    requires within { from + count ≤ length bytes.old }
    ensures len { length bytes.new ≡ length bytes.old }
    ensures copied { take (to + count) bytes.new ≡ take to bytes.old ++ take count (drop from bytes.old) }
    ensures behind { drop from bytes.new ≡ drop from bytes.old }
{
    let (front, back) = bytes.split_at_mut(from);
    front[to..to + count].copy_from_slice(&back[..count]);
}

/// The bytes from a place on, in memory of their own with room for so many more.
fn copied_from(bytes: &Vec<u8>, from: usize, more: usize) -> Result<Vec<u8>, NoMemory>
    requires { from ≤ length bytes.now.items }
    ensures { IfOk result (λ copied. copied.items ≡ drop from bytes.now.items) }
{
    let rest = &bytes[from..];
    let wanted = rest
        .len()
        .saturating_add(rest.len() / 4)
        .saturating_add(more)
        .max(LEAST_ROOM);
    let room = wanted.checked_next_power_of_two().unwrap_or(wanted);
    let mut copied = Vec::with_capacity(*bytes.allocator(), room)?;
    copied.extend_from_slice(rest)?;
    Ok(copied)
}

/// The bytes between two places.
fn piece(bytes: &[u8], from: usize, to: usize) -> &[u8]
    requires order { from ≤ to }
    requires within { to ≤ length bytes.now }
    ensures { result.now ≡ slice_range bytes.now from to }
{
    &bytes[from..to]
}

/// Where a text ends.
fn place_at(ends: &VecDeque<usize>, place: usize) -> Option<usize>
    ensures { result ≡ slice_get ends.now.items place }
{
    let end = ends.get(place)?;
    Some(*end)
}

/// Where a text begins: where the one before it ends.
fn begin_of(first: usize, ends: &VecDeque<usize>, place: usize) -> Option<usize>
    ensures { result ≡ slice_get (first ∷ ends.now.items) place }
{
    if place == 0 {
        Some(first)
    } else {
        place_at(ends, place - 1)
    }
}
