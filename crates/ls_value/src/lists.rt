//! Places of fields, and their names.
ghost use Rattle.std.specs.Prelude.{◌≡◌, ◌<◌, ◌≤◌, ℕ, Option, Some, None, IfOk, IfSome};
ghost use Rattle.std.specs.Prelude.{is_none, length, nat_eq, slice_get};
ghost use Rattle.ls_value.specs.Values.{place_of, are_distinct};

use crate::text::{NoMemory, Text, same_bytes};
use std::alloc::Global;
use std::marker::Model;

/// Places of fields in a row, from 0, in the order of a schema.
#[derive(Drop)]
pub struct Places {
    places: Vec<usize>,
}

impl Model for Places {
    ghost use Rattle.std.specs.Prelude.{List, ℕ};

    ghost Value = { List ℕ };

    ghost view = { λ p. p.places.items };
}

impl Places {
    /// These places. No memory is taken.
    pub fn of(places: Vec<usize>) -> Places
        ensures { result ≡ places.items }
    {
        Places { places }
    }

    /// An equal list of places.
    pub fn copy(&self, alloc: Global) -> Result<Places, NoMemory>
        ensures { IfOk result (λ copied. copied ≡ self.now) }
    {
        let mut places = Vec::new(alloc);
        places.extend_from_slice(&self.places)?;
        Ok(Places { places })
    }

    /// The places in order.
    pub fn as_slice(&self) -> &[usize]
        ensures { result.now ≡ self.now }
    {
        &self.places
    }

    /// The number of places.
    pub fn len(&self) -> usize
        ensures { result ≡ length self.now }
    {
        self.places.len()
    }

    /// Whether there are no places.
    pub fn is_empty(&self) -> bool
        ensures { result ≡ nat_eq (length self.now) 0 }
    {
        self.places.is_empty()
    }
}

/// Names of fields or items, in order.
#[derive(Drop)]
pub struct Names {
    names: Vec<Text>,
}

impl Model for Names {
    ghost use Rattle.std.specs.Prelude.{List, ℕ};

    ghost Value = { List (List ℕ) };

    ghost view = { λ n. n.names.items };
}

impl Names {
    /// These names. No memory is taken.
    pub fn of(names: Vec<Text>) -> Names
        ensures { result ≡ names.items }
    {
        Names { names }
    }

    /// Equal names.
    pub fn copy(&self, alloc: Global) -> Result<Names, NoMemory>
        ensures { IfOk result (λ copied. copied ≡ self.now) }
    {
        let names = copied_texts(alloc, &self.names)?;
        Ok(Names { names })
    }

    /// The names in order.
    pub fn as_slice(&self) -> &[Text]
        ensures { result.now ≡ self.now }
    {
        &self.names
    }

    /// The number of names.
    pub fn len(&self) -> usize
        ensures { result ≡ length self.now }
    {
        self.names.len()
    }

    /// Whether there are no names.
    pub fn is_empty(&self) -> bool
        ensures { result ≡ nat_eq (length self.now) 0 }
    {
        self.names.is_empty()
    }

    /// The first place of a name, from 0: `None` exactly where none of them is this name. No memory is taken.
    pub fn find(&self, name: &[u8]) -> Option<usize>
        ensures first { result ≡ place_of self.now name.now }
        ensures within { IfSome result (λ i. i < length self.now) }
        ensures found { IfSome result (λ i. slice_get self.now i ≡ Some name.now) }
        ensures earliest { IfSome result (λ i. (k : ℕ) → slice_get self.now k ≡ Some name.now → i ≤ k) }
        ensures absent { result ≡ None → (k : ℕ) → slice_get self.now k ≡ Some name.now → ⊥ }
    {
        first_place(&self.names, name)
    }

    /// Whether no name stands twice. Each is compared with all behind it. No memory is taken.
    pub fn are_distinct(&self) -> bool
        ensures { result ≡ are_distinct self.now }
    {
        are_distinct(&self.names)
    }
}

/// Equal texts.
fn copied_texts(alloc: Global, texts: &[Text]) -> Result<Vec<Text>, NoMemory>
    ensures { IfOk result (λ copied. copied.items ≡ texts.now) }
{
    let mut copied = Vec::with_capacity(alloc, texts.len())?;
    for text in texts {
        copied.push(text.copy(alloc)?)?;
    }
    Ok(copied)
}

/// Whether no text stands twice.
fn are_distinct(texts: &[Text]) -> bool
    ensures { result ≡ are_distinct texts.now }
{
    for i in 0..texts.len() {
        if first_place(&texts[i + 1..], texts[i].as_bytes()).is_some() {
            return false;
        }
    }
    true
}

/// The first place of a name among these.
#[tactic(auto, using(crate::proofs::Rows::place_of_within))]
fn first_place(names: &[Text], name: &[u8]) -> Option<usize>
    ensures first { result ≡ place_of names.now name.now }
    ensures within { IfSome result (λ i. i < length names.now) }
{
    for i in 0..names.len() {
        if same_bytes(names[i].as_bytes(), name) {
            return Some(i);
        }
    }
    None
}
