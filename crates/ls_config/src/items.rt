//! The items of a config, found by their names.
ghost use Rattle.std.specs.Prelude.{◌≡◌, ◌<◌, ◌≤◌, ℕ, List, [], ◌∷◌, ◌++◌, None, Some, IfOk, IfSome, OnErr, length};
ghost use Rattle.std.specs.Prelude.{slice_get, nat_eq, if◌then◌else◌};
ghost use Rattle.ls_value.specs.Values.{place_of};
ghost use Rattle.ls_config.specs.Items.{names_of, may_follow};

use crate::names::Declared;
use ls_event::ItemDef;
use ls_value::NoMemory;
use std::alloc::Global;
use std::marker::Model;

/// How many items a config has at most (this project's profile).
pub const MOST_ITEMS: usize = 4096;

/// Items with distinct names, in the order of their numbers: at most `MOST_ITEMS`. They keep the allocator of `new`.
#[derive(Drop)]
pub struct Items {
    /// The items.
    defs: Vec<ItemDef>,
    /// Their names, in the same order.
    names: Declared,
}

impl Model for Items {
    ghost use Rattle.std.specs.Prelude.{◌≡◌, ◌≤◌, List, length};
    ghost use Rattle.ls_event.specs.declared.item.ItemDef.{ItemDef as Def};
    ghost use Rattle.ls_config.specs.Items.{names_of};
    ghost use Rattle.ls_config.specs.declared.items.TheConstants.{MOST_ITEMS as AS_MANY};

    ghost Value = { List Def };

    ghost view = { λ i. i.defs.items };

    ghost invariant = { λ i. (length i.defs.items ≤ AS_MANY) × (i.names ≡ names_of i.defs.items) };
}

impl Items {
    /// No items.
    pub fn new(alloc: Global) -> Items
        ensures { result ≡ [] }
    {
        Items {
            defs: Vec::new(alloc),
            names: Declared::new(alloc),
        }
    }

    /// Adds an item behind the others, or answers `false` exactly where there are `MOST_ITEMS` or one of them has its
    /// name.
    pub fn add(&mut self, item: ItemDef) -> Result<bool, NoMemory>
        ensures added { IfOk result (λ added. added ≡ may_follow self.old item.name) }
        ensures new { IfOk result (λ added. self.new ≡ (if added then self.old ++ item ∷ [] else self.old)) }
        ensures err { OnErr result (self.new ≡ self.old) }
    {
        if !self.may_follow(item.name.as_bytes()) {
            return Ok(false);
        }
        self.defs.reserve(1)?;
        self.names.add(item.name.as_bytes())?;
        self.defs.push_reserved(item);
        Ok(true)
    }

    /// Whether an item with this name may be added: there are fewer than `MOST_ITEMS`, and none of them has it. No
    /// memory is taken.
    pub fn may_follow(&self, name: &[u8]) -> bool
        ensures { result ≡ may_follow self.now name.now }
    {
        self.defs.len() < MOST_ITEMS && self.names.find(name).is_none()
    }

    /// The number of the item with a name, from 0: `None` exactly where no item has it. No memory is taken.
    pub fn find(&self, name: &[u8]) -> Option<u32>
        ensures first { result ≡ place_of (names_of self.now) name.now }
        ensures within { IfSome result (λ i. i < length self.now) }
        ensures found { IfSome result (λ i. slice_get (names_of self.now) i ≡ Some name.now) }
        ensures absent { result ≡ None → (k : ℕ) → slice_get (names_of self.now) k ≡ Some name.now → ⊥ }
    {
        match self.names.find(name) {
            Some(place) => Some(place as u32),
            None => None,
        }
    }

    /// The items in order.
    pub fn as_slice(&self) -> &[ItemDef]
        ensures { result.now ≡ self.now }
    {
        &self.defs
    }

    /// The number of items.
    pub fn len(&self) -> usize
        ensures { result ≡ length self.now }
    {
        self.defs.len()
    }

    /// Whether there are no items.
    pub fn is_empty(&self) -> bool
        ensures { result ≡ nat_eq (length self.now) 0 }
    {
        self.defs.is_empty()
    }
}
