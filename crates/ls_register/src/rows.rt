//! Values that are found by a number.
ghost use Rattle.std.specs.Prelude.{◌≡◌, ◌==◌, ◌<◌, ◌++◌, ◌∷◌, [], not, is_some, nat_lt, length, IfNone, OnOk, OnErr, OnSome};
ghost use Rattle.std.specs.List.{filter};
ghost use Rattle.ls_value.specs.Each.{Each};
ghost use Rattle.ls_register.specs.Sessions.{is_among};

use ls_value::NoMemory;
use std::alloc::Global;
use std::marker::Model;

/// Values, each with its number, in order of the numbers. Contracts see the numbers. It keeps the allocator that its
/// constructor took.
#[derive(Drop)]
pub(crate) struct Rows<H> {
    numbers: Vec<u64>,
    held: Vec<H>,
}

impl<H> Model for Rows<H> {
    ghost use Rattle.std.specs.Prelude.{◌≡◌, List, ℕ, length, vec_len};
    ghost use Rattle.ls_register.specs.Sessions.{AreRising};

    ghost Value = { List ℕ };

    ghost view = { λ r. r.numbers.items };

    ghost invariant = { λ r. AreRising r.numbers.items × (vec_len r.held ≡ length r.numbers.items) };
}

impl<H: Drop> Rows<H> {
    /// No value.
    pub(crate) fn new(alloc: Global) -> Rows<H>
        ensures { result ≡ [] }
    {
        Rows {
            numbers: Vec::new(alloc),
            held: Vec::new(alloc),
        }
    }

    /// How many there are.
    pub(crate) fn len(&self) -> usize
        ensures { result ≡ length self.now }
    {
        self.numbers.len()
    }

    /// The value of a number.
    pub(crate) fn find(&self, number: u64) -> Option<&H>
        ensures { is_some result ≡ is_among number self.now }
    {
        match self.numbers.as_slice().binary_search(&number) {
            Ok(k) => Some(&self.held[k]),
            Err(_) => None,
        }
    }

    /// The value of the k-th number, from 0.
    pub(crate) fn nth(&self, k: usize) -> Option<&H>
        ensures { is_some result ≡ nat_lt k (length self.now) }
    {
        if k < self.held.len() {
            Some(&self.held[k])
        } else {
            None
        }
    }

    /// A value more, whose number is greater than each other.
    pub(crate) fn push(&mut self, number: u64, held: H) -> Result<(), NoMemory>
        requires { Each (λ n. n < number) self.old }
        ensures ok { OnOk result (self.new ≡ self.old ++ number ∷ []) }
        ensures err { OnErr result (self.new ≡ self.old) }
    {
        self.numbers.reserve(1)?;
        self.held.reserve(1)?;
        self.numbers.push_reserved(number);
        self.held.push_reserved(held);
        Ok(())
    }

    /// The value of a number leaves.
    pub(crate) fn remove(&mut self, number: u64) -> Option<H>
        ensures some { is_some result ≡ is_among number self.old }
        ensures rest { OnSome result (self.new ≡ filter (λ n. not (n == number)) self.old) }
        ensures none { IfNone result (self.new ≡ self.old) }
    {
        match self.numbers.as_slice().binary_search(&number) {
            Ok(k) => {
                self.numbers.remove(k);
                Some(self.held.remove(k))
            }
            Err(_) => None,
        }
    }
}
