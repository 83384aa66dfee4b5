//! The passes of a feed's adapter.
ghost use Rattle.std.specs.Prelude.{◌≡◌, ◌<◌, [], None, Some, OnOk, length, slice_set, option_map};
ghost use Rattle.ls_feed.specs.Replies.{pass_at, Unchanged};

use ls_live::PubPass;
use ls_register::House;
use ls_value::NoMemory;
use std::alloc::Global;
use std::marker::Model;
use std::mem;

/// The passes of an adapter, by the numbers of their items: those of the items that were named. Contracts see them as a
/// list with a place for each number up to the greatest that was named.
#[derive(Drop)]
pub struct Passes<N: House> {
    passes: Vec<Option<PubPass<N>>>,
}

impl<N: House> Model for Passes<N> {
    ghost use Rattle.std.specs.Prelude.{List};
    ghost use Rattle.std.specs.declared.option.Option.{Option as Optional};
    ghost use Rattle.ls_live.specs.Live.{Pass};

    ghost Value = { List (Optional Pass) };

    ghost view = { λ p. p.passes.items };
}

impl<N: House> Passes<N> {
    /// No pass.
    pub(crate) fn new(alloc: Global) -> Passes<N>
        ensures { result ≡ [] }
    {
        Passes {
            passes: Vec::new(alloc),
        }
    }

    /// The pass of the item of a number, where the item was named.
    pub fn get(&self, item: u32) -> Option<&PubPass<N>>
        ensures { option_map (λ p. p.now) result ≡ pass_at self.now item }
    {
        match self.passes.get(item as usize) {
            Some(Some(pass)) => Some(pass),
            _ => None,
        }
    }

    /// Makes room for the pass of an item.
    pub(crate) fn reserve(&mut self, item: u32) -> Result<(), NoMemory>
        ensures same { Unchanged self.old self.new }
        ensures room { OnOk result (item < length self.new) }
    {
        while self.passes.len() <= item as usize {
            self.passes.push(None)?;
        }
        Ok(())
    }

    /// Takes the pass of an item out, where there is one.
    pub(crate) fn take(&mut self, item: u32) -> Option<PubPass<N>>
        requires { item < length self.old }
        ensures pass { result ≡ pass_at self.old item }
        ensures rest { self.new ≡ slice_set self.old item None }
    {
        mem::replace(&mut self.passes[item as usize], None)
    }

    /// Puts the pass of an item in.
    pub(crate) fn put(&mut self, item: u32, pass: PubPass<N>)
        requires { item < length self.old }
        ensures { self.new ≡ slice_set self.old item (Some pass) }
    {
        self.passes[item as usize] = Some(pass);
    }
}
