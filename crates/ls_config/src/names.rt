//! Declared names, found by their bytes.
ghost use Rattle.std.specs.Prelude.{◌≡◌, ◌<◌, [], ◌∷◌, ◌++◌, None, IfOk, IfSome, OnOk, OnErr, length, nat_eq};
ghost use Rattle.ls_value.specs.Values.{place_of};

use indexmap::IndexSet;
use ls_value::NoMemory;
use std::alloc::{AllocError, AllocFailed, Global};
use std::marker::Model;

/// Names in the order in which they were declared, found by their bytes. They keep the allocator of `new`.
#[derive(Drop)]
pub struct Declared {
    alloc: Global,
    names: IndexSet<Vec<u8>>,
}

impl Model for Declared {
    ghost use Rattle.std.specs.Prelude.{List, ℕ, map};

    ghost Value = { List (List ℕ) };

    ghost view = { λ d. map (λ k. k.items) d.names.keys };
}

impl Declared {
    /// No names.
    pub fn new(alloc: Global) -> Declared
        ensures { result ≡ [] }
    {
        Declared {
            alloc,
            names: IndexSet::new(alloc),
        }
    }

    /// The number of names.
    pub fn len(&self) -> usize
        ensures { result ≡ length self.now }
    {
        self.names.len()
    }

    /// Whether there are no names.
    pub fn is_empty(&self) -> bool
        ensures { result ≡ nat_eq (length self.now) 0 }
    {
        self.names.is_empty()
    }

    /// The place of a name, from 0: `None` exactly where it isn't among them. No memory is taken.
    pub fn find(&self, name: &[u8]) -> Option<usize>
        ensures first { result ≡ place_of self.now name.now }
        ensures within { IfSome result (λ i. i < length self.now) }
    {
        self.names.get_index_of(name)
    }

    /// Adds a name that isn't among them behind the others.
    pub fn add(&mut self, name: &[u8]) -> Result<(), NoMemory>
        requires { place_of self.old name.now ≡ None }
        ensures ok { OnOk result (self.new ≡ self.old ++ name.now ∷ []) }
        ensures err { OnErr result (self.new ≡ self.old) }
    {
        let name = copied(self.alloc, name)?;
        self.names.insert(name)?;
        Ok(())
    }
}

/// These bytes, copied.
fn copied(alloc: Global, bytes: &[u8]) -> Result<Vec<u8>, AllocError>
    ensures { IfOk result (λ copied. copied.items ≡ bytes.now) }
{
    let mut copied = Vec::new(alloc);
    copied.extend_from_slice(bytes)?;
    Ok(copied)
}
