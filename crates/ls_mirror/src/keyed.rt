//! Rows by key.
ghost use Rattle.std.specs.Prelude.{◌≡◌, OnOk, OnErr, nat_eq, string_bytes};
ghost use Rattle.std.specs.Option.{option_copied};
ghost use Rattle.std.specs.FinMap as finite;

use ls_value::{NoMemory, Row};
use std::alloc::Global;
use std::collections::BTreeMap;
use std::marker::Model;

/// The rows of an item in mode COMMAND, by key in byte order (General Concepts, COMMAND). It keeps the allocator
/// of `new`. Contracts see a finite map.
#[derive(Drop)]
pub struct Keyed {
    alloc: Global,
    rows: BTreeMap<String, Row>,
}

impl Model for Keyed {
    ghost use Rattle.std.specs.Coded.{coded_ℕ, coded_list};
    ghost use Rattle.std.specs.FinMap as finite;
    ghost use Rattle.ls_value.specs.contracts.row.Value as field_value;
    ghost use Rattle.ls_mirror.specs.Keys.{KeyTable, rows_by_key};

    ghost Value = { KeyTable };

    ghost coded = { finite.code (coded_list coded_ℕ) (coded_list field_value.the_row.coded) };

    ghost view = { λ k. rows_by_key k.rows };
}

impl Keyed {
    /// No keys. No memory is taken.
    pub fn new(alloc: Global) -> Keyed
        ensures { result ≡ finite.empty }
    {
        Keyed {
            alloc,
            rows: BTreeMap::new(alloc),
        }
    }

    /// The allocator of `new`, by which its rows are made.
    pub(crate) fn alloc(&self) -> Global {
        self.alloc
    }

    /// The row of a key: `None` exactly where the key has none. No memory is taken.
    pub fn get(&self, key: &str) -> Option<&Row>
        ensures { option_copied result ≡ finite.get self.now key.now }
    {
        self.rows.get(key)
    }

    /// The number of keys. No memory is taken.
    pub fn len(&self) -> usize
        ensures { result ≡ finite.len self.now }
    {
        self.rows.len()
    }

    /// Whether there are no keys. No memory is taken.
    pub fn is_empty(&self) -> bool
        ensures { result ≡ nat_eq (finite.len self.now) 0 }
    {
        self.len() == 0
    }

    /// Sets the row of a key. After `NoMemory` nothing has changed.
    pub fn set(&mut self, key: String, row: Row) -> Result<(), NoMemory>
        ensures ok { OnOk result (self.new ≡ finite.insert self.old (string_bytes key) row) }
        ensures err { OnErr result (self.new ≡ self.old) }
    {
        self.rows.insert(key, row)?;
        Ok(())
    }

    /// Removes a key. Without that key nothing changes. No memory is taken.
    pub fn remove(&mut self, key: &str)
        ensures { self.new ≡ finite.remove self.old key.now }
    {
        self.rows.remove(key);
    }

    /// Removes all keys. No memory is taken.
    pub fn clear(&mut self)
        ensures { self.new ≡ finite.empty }
    {
        self.rows.clear();
    }
}
