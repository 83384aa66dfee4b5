//! What was seen of an item, apart from the item's lock.
ghost use Rattle.std.specs.Prelude.{◌≡◌, ◌≤◌, ◌==◌, ◌⊎◌, false, IfSome, IfOk, IsSome, IsTrue, length};
ghost use Rattle.std.specs.Option.{option_map_or};
ghost use mathlib.Core.List.{IsPrefix};
ghost use Rattle.ls_live.specs.Live.{IsSeenOf, IsWatchOf};

use crate::live::{LiveItem, PubPass};
use ls_chron::{Chron, Reader};
use ls_event::Entry;
use ls_register::{House, Made, Place};
use ls_value::NoMemory;
use std::alloc::Global;
use std::marker::Model;
use std::sync::Arc;

/// A reader of an item's history, with the item's number and its place in the register. Contracts see these, the
/// history's table and what was seen of the history, which is one of the declared item, with texts in UTF-8.
#[derive(Drop)]
pub struct Watch<N: House> {
    item: u32,
    place: Place<N>,
    reader: Reader<Entry>,
    chron: Arc<Chron<Entry>, Global>,
}

impl<N: House> Model for Watch<N> {
    ghost use Rattle.std.specs.Prelude.{◌≡◌};
    ghost use Rattle.std.specs.Arc.{arc_value};
    ghost use Rattle.ls_register.specs.Watches.{Watched};
    ghost use Rattle.ls_live.specs.Live.{IsWatching};

    ghost Value = { Watched };

    ghost view = { λ w. record {
      item = w.item;
      at = w.place.at;
      table = w.reader.table;
      list = w.reader.list;
    } };

    ghost invariant = { λ w. (w.reader.table ≡ arc_value w.chron)
        × IsWatching N.deed.config w.place w.item w.reader.table w.reader.list };
}

impl<N: House> Watch<N> {
    /// The item's number, from 0.
    pub fn item(&self) -> u32
        ensures { result ≡ self.now.item }
    {
        self.item
    }

    /// What was seen is a history of the item as it is declared, and its texts are UTF-8.
    pub fn says(&self)
        ensures { IsSeenOf N.deed.config self.now }
    {
        let _ = &self.item;
    }

    /// One more token of the same. It takes no memory, and is refused only where the item's history is held 2^63 times.
    pub fn again(&mut self, register: &Chron<Made>) -> Result<Watch<N>, NoMemory>
        requires { register.now ≡ N.deed.register }
        ensures same { self.new ≡ self.old }
        ensures again { IfOk result (λ w. w ≡ self.old) }
    {
        let chron = Arc::try_clone(&self.chron)?;
        let reader = chron.share(&mut self.reader);
        Ok(Watch {
            item: self.item,
            place: self.place.again(register),
            reader,
            chron,
        })
    }

    /// How many entries the item's history has now, which is no fewer than were seen. It takes no lock and no memory.
    pub fn count(&mut self) -> u64
        ensures count { length self.old.list ≤ result }
        ensures same { self.new ≡ self.old }
    {
        self.chron.count(&mut self.reader)
    }

    /// Whether both are of one item, by their places in the register. It takes no memory.
    pub fn is_that(&mut self, register: &Chron<Made>, other: &mut Watch<N>) -> bool
        requires { register.now ≡ N.deed.register }
        ensures same { (self.new ≡ self.old) × (other.new ≡ other.old) }
        ensures exact { result ≡ (self.old.at == other.old.at) }
        ensures one { IsTrue result → (self.old.item ≡ other.old.item) × (self.old.table ≡ other.old.table) }
    {
        let mut mine = self.place.again(register);
        let mut theirs = other.place.again(register);
        mine.is_that(register, &mut theirs)
    }

    /// Where both are of one item, this one then has seen all that the other one has. It takes no memory.
    pub fn follow(&mut self, register: &Chron<Made>, other: &mut Watch<N>)
        requires { register.now ≡ N.deed.register }
        ensures same { other.new ≡ other.old }
        ensures rest { self.new ≡ record self.old { list = self.new.list } }
        ensures begins { IsPrefix self.old.list self.new.list }
        ensures has { self.old.at ≡ other.old.at → IsPrefix other.old.list self.new.list }
        ensures one { (self.new.list ≡ self.old.list) ⊎ (self.new.list ≡ other.old.list) }
    {
        if self.is_that(register, other) {
            self.take_in(other);
        }
    }

    /// The longer of both lists.
    fn take_in(&mut self, other: &mut Watch<N>)
        requires item { self.old.item ≡ other.old.item }
        requires table { self.old.table ≡ other.old.table }
        ensures same { other.new ≡ other.old }
        ensures rest { self.new ≡ record self.old { list = self.new.list } }
        ensures begins { IsPrefix self.old.list self.new.list }
        ensures has { IsPrefix other.old.list self.new.list }
        ensures one { (self.new.list ≡ self.old.list) ⊎ (self.new.list ≡ other.old.list) }
    {
        let note = self.chron.share(&mut other.reader);
        self.chron.meet(&mut self.reader, note);
    }

    /// Whether a pass is of the same item, by their places in the register. It takes no memory.
    pub fn is_pass(&mut self, register: &Chron<Made>, pass: &mut PubPass<N>) -> bool
        requires { register.now ≡ N.deed.register }
        ensures same { (self.new ≡ self.old) × (pass.new ≡ pass.old) }
        ensures exact { result ≡ option_map_or (λ p. self.old.at == p.at) pass.old.place false }
        ensures one { IsTrue result → (self.old.item ≡ pass.old.item) × (self.old.table ≡ pass.old.table) }
    {
        let Some(theirs) = &mut pass.place else {
            return false;
        };
        let mut mine = self.place.again(register);
        let mut theirs = theirs.again(register);
        mine.is_that(register, &mut theirs)
    }
    /// Where a pass is of the same item, all that it has is seen then. It takes no memory.
    pub fn meet(&mut self, register: &Chron<Made>, pass: &mut PubPass<N>)
        requires { register.now ≡ N.deed.register }
        ensures same { pass.new ≡ pass.old }
        ensures rest { self.new ≡ record self.old { list = self.new.list } }
        ensures begins { IsPrefix self.old.list self.new.list }
        ensures has { IfSome pass.old.place (λ p. self.old.at ≡ p.at → IsPrefix pass.old.list self.new.list) }
        ensures one { (self.new.list ≡ self.old.list) ⊎ (self.new.list ≡ pass.old.list) }
        ensures other { option_map_or (λ p. self.old.at == p.at) pass.old.place false ≡ false → self.new ≡ self.old }
    {
        if self.is_pass(register, pass) {
            self.take_pass(pass);
        }
    }

    /// The longer of both lists.
    fn take_pass(&mut self, pass: &mut PubPass<N>)
        requires placed { IsSome pass.old.place }
        requires item { self.old.item ≡ pass.old.item }
        requires table { self.old.table ≡ pass.old.table }
        ensures same { pass.new ≡ pass.old }
        ensures rest { self.new ≡ record self.old { list = self.new.list } }
        ensures begins { IsPrefix self.old.list self.new.list }
        ensures has { IsPrefix pass.old.list self.new.list }
        ensures one { (self.new.list ≡ self.old.list) ⊎ (self.new.list ≡ pass.old.list) }
    {
        let note = self.chron.share(&mut pass.reader);
        self.chron.meet(&mut self.reader, note);
    }
}

impl<N: House> LiveItem<N> {
    /// A watch that has seen the whole history. The item has a place in the register. It takes no memory, and is
    /// refused only where the history is held 2^63 times.
    pub fn watch(&mut self, register: &Chron<Made>) -> Result<Watch<N>, NoMemory>
        requires register { register.now ≡ N.deed.register }
        requires placed { IsSome self.old.place }
        ensures same { self.new ≡ self.old }
        ensures of { IfOk result (λ w. IsWatchOf w self.old) }
        ensures whole { IfOk result (λ w. w.list ≡ self.old.history) }
    {
        let chron = Arc::try_clone(&self.chron)?;
        let Some(place) = &mut self.place else {
            unreachable!()
        };
        let place = place.again(register);
        let reader = self.chron.note(&mut self.writer);
        Ok(Watch {
            item: self.item,
            place,
            reader,
            chron,
        })
    }

    /// Whether a watch is of this item, by their places in the register. A lone item has none. It takes no memory.
    pub fn is_watch(&mut self, register: &Chron<Made>, watch: &mut Watch<N>) -> bool
        requires { register.now ≡ N.deed.register }
        ensures same { (self.new ≡ self.old) × (watch.new ≡ watch.old) }
        ensures exact { result ≡ option_map_or (λ p. p.at == watch.old.at) self.old.place false }
        ensures one { IsTrue result → IsWatchOf watch.old self.old }
    {
        let Some(mine) = &mut self.place else {
            return false;
        };
        let mut mine = mine.again(register);
        let mut theirs = watch.place.again(register);
        mine.is_that(register, &mut theirs)
    }

    /// The watch, which is of this item, has then seen the whole history. It takes no memory.
    pub fn show(&mut self, watch: &mut Watch<N>)
        requires { IsWatchOf watch.old self.old }
        ensures same { self.new ≡ self.old }
        ensures whole { watch.new ≡ record watch.old { list = self.old.history } }
        ensures begins { IsPrefix watch.old.list self.old.history }
    {
        self.chron.whole(&mut self.writer, &mut watch.reader);
    }
}
