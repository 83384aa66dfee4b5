//! The slots of items that are marked as settled.
ghost use Rattle.std.specs.Prelude.{◌≡◌, ◌<◌, ℕ, [], false, slice_index_or, slice_set, set, length, OnOk, OnErr};
ghost use Rattle.ls_cells.specs.Settled.{is_marked, is_marked_on};

use ls_value::NoMemory;
use std::alloc::Global;
use std::marker::Model;

/// Which slots of an item are marked, by their numbers. A number for which there is no room isn't.
#[derive(Drop)]
pub struct Marks {
    marks: Vec<bool>,
}

impl Model for Marks {
    ghost use Rattle.std.specs.Prelude.{List, Bool};

    ghost Value = { List Bool };

    ghost view = { λ m. m.marks.items };
}

impl Marks {
    /// No mark, and room for none. No memory is taken.
    pub fn new(alloc: Global) -> Marks
        ensures { result ≡ [] }
    {
        Marks {
            marks: Vec::new(alloc),
        }
    }

    /// Whether a number is marked.
    pub fn has(&self, number: u32) -> bool
        ensures { result ≡ is_marked self.now number }
    {
        match self.marks.get(number as usize) {
            None => false,
            Some(mark) => *mark,
        }
    }

    /// Marks a number, or takes its mark away, where there is room for it.
    pub fn set(&mut self, number: u32, mark: bool)
        ensures { self.new ≡ slice_set self.old number mark }
    {
        let index = number as usize;
        if index < self.marks.len() {
            self.marks[index] = mark;
        }
    }

    /// Takes all marks away, and makes room for the numbers below one. After `NoMemory` all is as before.
    pub fn clear(&mut self, alloc: Global, below: usize) -> Result<(), NoMemory>
        ensures ok { OnOk result ((number : ℕ) → is_marked self.new number ≡ false) }
        ensures err { OnErr result (self.new ≡ self.old) }
    {
        let room = self.marks.len().max(below);
        self.marks = vec![in alloc; false; room]?;
        Ok(())
    }
}

/// Whether a slot of an item is marked.
pub fn has_mark(rows: &[Marks], item: usize, number: u32) -> bool
    ensures { result ≡ is_marked_on rows.now item number }
{
    match rows.get(item) {
        None => false,
        Some(marks) => marks.has(number),
    }
}

/// Marks a slot of an item, or takes its mark away.
pub fn set_mark(rows: &mut Vec<Marks>, item: usize, number: u32, mark: bool)
    requires { item < length rows.old.items }
    ensures { rows.new.items
        ≡ set rows.old.items item (slice_set (slice_index_or rows.old.items item []) number mark) }
{
    rows[item].set(number, mark);
}

/// Takes all marks of an item away, and makes room for the numbers below one. After `NoMemory` all is as before.
pub fn clear_marks(
    alloc: Global,
    rows: &mut Vec<Marks>,
    item: usize,
    below: usize,
) -> Result<(), NoMemory>
    requires { item < length rows.old.items }
    ensures ok { OnOk result ((number : ℕ) → is_marked_on rows.new.items item number ≡ false) }
    ensures err { OnErr result (rows.new.items ≡ rows.old.items) }
    ensures rest { rows.new.items ≡ set rows.old.items item (slice_index_or rows.new.items item []) }
{
    rows[item].clear(alloc, below)
}
