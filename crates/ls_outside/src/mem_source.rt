//! Sources in memory.
ghost use Rattle.std.specs.Prelude.{◌≡◌, ◌<◌, ◌-◌, ◌^◌, length, take, drop, min, slice_index, Some};
ghost use Rattle.ls_outside.specs.Causes.{Gives, HasReadCause};
ghost use Rattle.ls_outside.specs.Memory.{next_call, beyond, way_to, answer_by, answer_within, supply_after};
ghost use Rattle.ls_outside.specs.Memory.{source_after};
ghost use Rattle.ls_outside.specs.Pipes.{no_sink};

use crate::call::{Call, Calls};
use crate::source::{Got, Source};
use std::marker::Model;

/// A source of bytes in memory that never fails and never lacks a byte: both its counts are always 0. Contracts see it
/// as the bytes that aren't read yet, the place of the next one, and the cuts that were not passed.
#[derive(Drop)]
pub struct PlainSource {
    bytes: Vec<u8>,
    at: usize,
    cuts: Vec<usize>,
    cut: usize,
}

impl Model for PlainSource {
    ghost use Rattle.std.specs.Prelude.{drop, length, ◌≤◌};
    ghost use Rattle.ls_outside.specs.Memory.{Supply};

    ghost Value = { Supply };

    ghost view = { λ s. record { unread = drop s.at s.bytes.items; place = s.at; cuts = drop s.cut s.cuts.items } };

    ghost invariant = { λ s. s.at ≤ length s.bytes.items };
}

impl PlainSource {
    /// A source of these bytes. Where the cuts rise, no read passes one: a cut is a place, in bytes from the start. One
    /// that doesn't lie beyond those before it counts for nothing.
    pub fn new(bytes: Vec<u8>, cuts: Vec<usize>) -> PlainSource
        ensures { result ≡ record { unread = bytes.items; place = 0; cuts = cuts.items } }
    {
        PlainSource {
            bytes,
            at: 0,
            cuts,
            cut: 0,
        }
    }

    /// Gives the next bytes, at most this many.
    fn give(&mut self, piece: &mut [u8], limit: usize) -> Got
        requires piece { 0 < length piece.old }
        requires limit { 0 < limit }
        ensures bytes { Gives (Some self.old.unread) (Some self.new.unread) result piece.new }
        ensures answer { result ≡ answer_within self.old limit (length piece.old) }
        ensures after { self.new ≡ supply_after self.old result }
    {
        if self.at >= self.bytes.len() {
            return Got::End;
        }
        self.cut = next_cut(&self.cuts, self.cut, self.at);
        let most = limit.min(way(&self.cuts, self.cut, self.at));
        let count = copy_front(piece, &self.bytes[self.at..], most);
        self.at += count;
        Got::Bytes(count)
    }
}

/// The index of the first cut beyond a place, from this index on.
fn next_cut(cuts: &[usize], from: usize, place: usize) -> usize
    ensures cuts { drop result cuts.now ≡ beyond place (drop from cuts.now) }
    ensures lies_beyond { result < length cuts.now → place < slice_index cuts.now result }
{
    let mut cut = from;
    while cut < cuts.len() && cuts[cut] <= place {
        cut += 1;
    }
    cut
}

/// The way from a place to the cut of this index, which lies beyond it, where there is one.
fn way(cuts: &[usize], cut: usize, place: usize) -> usize
    requires { cut < length cuts.now → place < slice_index cuts.now cut }
    ensures way { result ≡ way_to place (drop cut cuts.now) }
    ensures some { 0 < result }
{
    if cut < cuts.len() {
        cuts[cut] - place
    } else {
        usize::MAX
    }
}

/// Copies bytes to the front of a piece, as many as there are and fit, at most this many. Answers how many.
pub(crate) fn copy_front(piece: &mut [u8], bytes: &[u8], most: usize) -> usize
    ensures count { result ≡ min most (min (length bytes.now) (length piece.old)) }
    ensures len { length piece.new ≡ length piece.old }
    ensures copied { take result piece.new ≡ take result bytes.now }
{
    let count = most.min(bytes.len().min(piece.len()));
    piece[..count].copy_from_slice(&bytes[..count]);
    count
}

impl Source for PlainSource {
    ghost unread = { λ s. Some s.unread };

    ghost faults = { λ _. 0 };

    ghost waits = { λ _. 0 };

    ghost holds = { λ _. no_sink };

    fn read_faults(&self) -> u64 {
        0
    }

    fn idles(&self) -> u64 {
        0
    }

    fn read(&mut self, piece: &mut [u8]) -> Got
        requires { 0 < length piece.old }
        ensures bytes { Gives (Some self.old.unread) (Some self.new.unread) result piece.new }
        ensures cause { HasReadCause result 0 0 0 0 }
        ensures sink { no_sink ≡ no_sink }
        ensures answer { result ≡ answer_within self.old (2 ^ 64 - 1) (length piece.old) }
        ensures after { self.new ≡ supply_after self.old result }
    {
        self.give(piece, usize::MAX)
    }
}

/// A source of bytes in memory whose calls go by a list, for tests. Contracts see it as its bytes, the calls to come
/// and its two counts.
#[derive(Drop)]
pub struct MemSource {
    plain: PlainSource,
    calls: Calls,
    faults: u64,
    idles: u64,
}

impl Model for MemSource {
    ghost use Rattle.ls_outside.specs.Memory.{SourceState};

    ghost Value = { SourceState };

    ghost view = { λ s. record { supply = s.plain; calls = s.calls; faults = s.faults; idles = s.idles } };
}

impl MemSource {
    /// A source of these bytes, cut as in `PlainSource::new`, whose calls of `read` go by the list, the first call by
    /// its first member. Calls past its end go as usual.
    pub fn new(bytes: Vec<u8>, cuts: Vec<usize>, calls: Vec<Call>) -> MemSource
        ensures supply { result.supply ≡ record { unread = bytes.items; place = 0; cuts = cuts.items } }
        ensures calls { result.calls ≡ calls.items }
        ensures counts { (result.faults ≡ 0) × (result.idles ≡ 0) }
    {
        MemSource {
            plain: PlainSource::new(bytes, cuts),
            calls: Calls::of(calls),
            faults: 0,
            idles: 0,
        }
    }
}

impl Source for MemSource {
    ghost unread = { λ s. Some s.supply.unread };

    ghost faults = { λ s. s.faults };

    ghost waits = { λ s. s.idles };

    ghost holds = { λ _. no_sink };

    fn read_faults(&self) -> u64 {
        self.faults
    }

    fn idles(&self) -> u64 {
        self.idles
    }

    fn read(&mut self, piece: &mut [u8]) -> Got
        requires { 0 < length piece.old }
        ensures bytes { Gives (Some self.old.supply.unread) (Some self.new.supply.unread) result piece.new }
        ensures cause { HasReadCause result self.old.faults self.new.faults self.old.idles self.new.idles }
        ensures sink { no_sink ≡ no_sink }
        ensures answer { result ≡ answer_by (next_call self.old.calls) self.old.supply (length piece.old) }
        ensures after { self.new ≡ source_after self.old result }
    {
        match self.calls.next() {
            Call::Go => self.plain.give(piece, usize::MAX),
            Call::Part(limit) => self.plain.give(piece, limit.max(1)),
            Call::Fail => {
                self.faults = self.faults.saturating_add(1);
                Got::Failed
            }
            Call::Idle => {
                self.idles = self.idles.saturating_add(1);
                Got::NotYet
            }
        }
    }
}
