//! Keys that have a turn, in its order.
ghost use Rattle.std.specs.Prelude.{◌≡◌, ◌==◌, IfOk, OnOk, OnErr, length, slice_get};
ghost use Rattle.std.specs.Option.{option_map};
ghost use Rattle.ls_command.specs.Command.{is_touched, key_valued};
ghost use Rattle.ls_command.specs.Entries.{no_keys, keys_touched, keys_owed, keys_owing, keys_turned, HasValues};

use crate::kept::{Kept, Queued};
use crate::key_text::KeyText;
use crate::linked::{clear, copied_entry, first_node, owe, take, touch};
use indexmap::IndexMap;
use ls_event::KeyedRow;
use ls_links::Links;
use ls_value::{NoMemory, Row, Text};
use std::alloc::Global;
use std::marker::Model;

/// Keys that have a turn, in its order: list 0 has those of a snapshot that are owed, and list 1 the others. Each stands
/// once, as a node whose value is the place of its entry. They keep the allocator that `new` took.
#[derive(Drop)]
pub struct Queue {
    alloc: Global,
    links: Links,
    entries: IndexMap<KeyText, Kept>,
}

impl Model for Queue {
    ghost use Rattle.ls_command.specs.Entries.{LinkedKeys, linked_keys, IsKept};

    ghost Value = { LinkedKeys };

    ghost view = { λ q. linked_keys q.entries.entries q.links.lists };

    ghost invariant = { λ q. IsKept q.entries.entries q.links.lists };
}

impl Queue {
    /// No keys.
    pub fn new(alloc: Global) -> Result<Queue, NoMemory>
        ensures { IfOk result (λ queue. queue ≡ no_keys) }
    {
        let links = Links::new(alloc, 2)?;
        links.are_apart();
        Ok(Queue {
            alloc,
            links,
            entries: IndexMap::new(alloc),
        })
    }

    /// Gives a key that is touched this row: it stays where it stands, or goes last where it doesn't stand. The answer is
    /// whether it stood there and was touched. After `NoMemory` the queue is as before.
    pub fn touch(&mut self, key: Text, row: Option<Row>) -> Result<bool, NoMemory>
        ensures queue { OnOk result (self.new ≡ keys_touched self.old key row) }
        ensures touched { IfOk result (λ touched. touched ≡ is_touched self.old.keys key) }
        ensures err { OnErr result (self.new ≡ self.old) }
    {
        touch(&mut self.links, &mut self.entries, KeyText::of(key), row)
    }

    /// Adds a key of a snapshot, which is owed, where all keys are owed. A key that stands there gets the row.
    fn owe(&mut self, new: KeyedRow) -> Result<(), NoMemory>
        requires { self.old.owed ≡ length self.old.keys }
        ensures { OnOk result (self.new ≡ keys_owed self.old new) }
    {
        owe(&mut self.links, &mut self.entries, new)
    }

    /// The first key with its row, copied; `None` where there is no key.
    pub fn first(&self) -> Result<Option<Queued>, NoMemory>
        ensures { IfOk result (λ first. first ≡ slice_get self.now.keys 0) }
    {
        match first_node(&self.links) {
            None => Ok(None),
            Some(node) => {
                let place = self.links.value(node);
                let first = copied_entry(self.alloc, &self.entries, place)?;
                Ok(Some(first))
            }
        }
    }

    /// Takes the first key out; `None` where there is no key. No memory is taken.
    pub fn take_first(&mut self) -> Option<Queued>
        ensures first { result ≡ slice_get self.old.keys 0 }
        ensures rest { self.new ≡ keys_turned self.old }
    {
        match first_node(&self.links) {
            None => None,
            Some(node) => Some(take(&mut self.links, &mut self.entries, node)),
        }
    }

    /// Takes all keys out. No memory is taken.
    pub fn clear(&mut self)
        ensures { self.new ≡ no_keys }
    {
        clear(&mut self.links, &mut self.entries);
    }

    /// How many keys there are. No memory is taken.
    pub fn len(&self) -> usize
        ensures { result ≡ length self.now.keys }
    {
        self.entries.len()
    }

    /// Whether there is no key. No memory is taken.
    pub fn is_empty(&self) -> bool
        ensures { result ≡ (length self.now.keys == 0) }
    {
        self.len() == 0
    }

    /// The links of the nodes. No memory is taken.
    pub fn links(&self) -> &Links
        ensures { HasValues self.now result.now }
    {
        &self.links
    }

    /// The key whose node has a value; `None` where no key has it. No memory is taken.
    pub fn key_of(&self, value: usize) -> Option<&Text>
        ensures { option_map (λ t. t.now) result ≡ key_valued self.now.values self.now.keys value }
    {
        match self.entries.get_index(value) {
            None => None,
            Some((key, _)) => Some(key.text()),
        }
    }
}

/// The keys of a snapshot, in their order. None of them was touched.
pub(crate) fn owed_queue(alloc: Global, rows: Vec<KeyedRow>) -> Result<Queue, NoMemory>
    ensures { IfOk result (λ queue. queue ≡ keys_owing rows.items) }
{
    let mut queue = Queue::new(alloc)?;
    for row in rows {
        queue.owe(row)?;
    }
    Ok(queue)
}
