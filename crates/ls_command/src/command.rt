//! The buffer of a slot in mode COMMAND.
ghost use Rattle.std.specs.Prelude.{◌≡◌, ◌↔◌, ◌+◌, ◌-◌, ◌<◌, ◌≤◌, ℕ, List, All, Option, None, IfOk, OnOk, OnErr};
ghost use Rattle.std.specs.Prelude.{IsSome, IsTrue, Some, [], length, map};
ghost use Rattle.std.specs.Option.{option_map};
ghost use Rattle.ls_value.specs.Values.{cell_at};
ghost use Rattle.ls_value.specs.declared.limits.TheConstants.{GREATEST_NUMBER};
ghost use Rattle.ls_event.specs.Slots.{Plan, Slot};
ghost use Rattle.ls_event.specs.Joining.{command_joined};
ghost use Rattle.ls_event.specs.declared.event.Entry.{Entry};
ghost use Rattle.ls_links.specs.Chains.{list_of};
ghost use Rattle.ls_command.specs.Command.{StandsCommand, IsJoining, IsSnapshotOf, IsOfCommand, IsText, NamesKey};
ghost use Rattle.ls_command.specs.Command.{AreDistinct, AreKeysWide, command_rows, command_joining, command_head};
ghost use Rattle.ls_command.specs.Command.{command_after, command_passed, command_is_pending, command_ended, is_whole};
ghost use Rattle.ls_command.specs.Command.{key_touched, owed_key, turn_passed, key_in};
ghost use Rattle.ls_command.specs.Command.{key_of_value, nodes_of, TellsQueue};

use crate::linked::copied_row;
use crate::queue::{Queue, owed_queue};
use ls_event::{Event, KeyedRow, Snapshot, Stored, Taken};
use ls_links::Links;
use ls_value::{Cell, Cells, NoMemory, Row, Text};
use std::alloc::Global;
use std::marker::Model;

/// What a slot in mode COMMAND still has to tell: the keys of the snapshot that are owed and its end, the last Clear,
/// and the keys that were touched since their last turns, each with its row. It keeps the allocator that `new` took,
/// for all that its later calls take.
#[derive(Drop)]
pub struct CommandBuffer {
    alloc: Global,
    key: usize,
    last: u64,
    owed: usize,
    ends: bool,
    cleared: Option<u64>,
    queue: Queue,
    waiting: u64,
}

impl Model for CommandBuffer {
    ghost use Rattle.std.specs.Prelude.{◌≡◌, ◌≤◌, IsSome};
    ghost use Rattle.ls_command.specs.Command.{Command};

    ghost Value = { Command };

    ghost view = { λ b. record {
      key = b.key;
      last = b.last;
      owed = b.owed;
      ends = b.ends;
      cleared = b.cleared;
      queue = b.queue.keys;
      values = b.queue.values;
      listed = b.queue.owed;
      waiting = b.waiting;
    } };

    ghost invariant = { λ b. (b.waiting ≤ b.last) × (IsSome b.cleared → b.queue.owed ≡ 0) };
}

impl CommandBuffer {
    /// The buffer of a slot that joins where the item has `base` events, and whose fields have the key at the place
    /// `key`: with the item's snapshot, in which no key stands twice, or without one.
    pub fn new(
        alloc: Global,
        base: u64,
        key: usize,
        first: Option<Snapshot>,
    ) -> Result<CommandBuffer, NoMemory>
        requires kind { IsOfCommand first }
        ensures ok { IfOk result (λ b. b ≡ command_joining base key first) }

        // The queue has the keys of the snapshot in their order, and their rows.
        ensures queue { IfOk result (λ b. AreDistinct (map (λ k. k.key) (command_rows first))
            → b.queue ≡ map owed_key (command_rows first)) }
        ensures fields { IfOk result (λ b. (n : ℕ) → All (λ k. length k.row ≡ n) (command_rows first)
            → AreKeysWide n b) }

        // It stands for the slot that joins, where the snapshot is the item's state.
        ensures stands { IfOk result (λ b. (p : Plan) (h : List Entry) (asked : Option ℕ) → IsJoining base key p h
            → IsSnapshotOf p h first asked → StandsCommand b (command_joined p h asked) h) }
    {
        let ends = first.is_some();
        let rows = rows_from(alloc, first);
        let owed = rows.len();
        Ok(CommandBuffer {
            alloc,
            key,
            last: base,
            owed,
            ends,
            cleared: None,
            queue: owed_queue(alloc, rows)?,
            waiting: 0,
        })
    }

    /// The number that was enqueued last; at first the item's number at joining.
    pub fn last(&self) -> u64
        ensures { result ≡ self.now.last }
    {
        self.last
    }

    /// Whether an event can be enqueued: an update has a text in its key's cell. It takes no memory.
    pub fn admits(&self, event: &Event) -> bool
        ensures { IsTrue result ↔ NamesKey self.now.key event.now }
    {
        match event {
            Event::Update(cells) => names_key(cells.as_slice(), self.key),
            Event::Clear => true,
        }
    }

    /// Whether a Clear, a key or the snapshot's end is in a cut to come. It takes no memory.
    pub fn pending(&self) -> bool
        ensures { result ≡ command_is_pending self.now }
    {
        self.cleared.is_some() || self.is_whole() || !self.queue.is_empty()
    }

    /// Whether the snapshot's end is owed, and no key of the snapshot.
    fn is_whole(&self) -> bool
        ensures { result ≡ is_whole self.now }
    {
        self.ends && self.owed == 0
    }

    /// How many keys were touched since their last turns. It takes no memory.
    pub fn waiting(&self) -> u64
        ensures { result ≡ self.now.waiting }
    {
        self.waiting
    }

    /// Takes the event of the next number, with the row that its key then has. An update has a text in its key's cell.
    /// After `NoMemory` it is as before.
    pub fn enqueue(&mut self, event: &Stored) -> Result<(), NoMemory>
        requires few { self.old.last < GREATEST_NUMBER }
        requires key { NamesKey self.old.key event.now.event }
        ensures ok { OnOk result (self.new ≡ command_after self.old event.now.event event.now.after) }
        ensures err { OnErr result (self.new ≡ self.old) }
    {
        match &event.event {
            Event::Update(cells) => {
                let key = key_text(cells, self.key).copy(self.alloc)?;
                let row = copied_row(self.alloc, &event.after)?;
                self.touch(key, row)
            }
            Event::Clear => {
                self.clear();
                Ok(())
            }
        }
    }

    /// Takes the update of the next number, after which its key has this row.
    fn touch(&mut self, key: Text, row: Option<Row>) -> Result<(), NoMemory>
        requires { self.old.last < GREATEST_NUMBER }
        ensures ok { OnOk result (self.new ≡ key_touched self.old key row) }
        ensures err { OnErr result (self.new ≡ self.old) }
    {
        let touched = self.queue.touch(key, row)?;
        self.last += 1;
        if !touched {
            self.waiting += 1;
        }
        Ok(())
    }

    /// Takes the Clear of the next number.
    fn clear(&mut self)
        requires { self.old.last < GREATEST_NUMBER }
        ensures { self.new ≡ command_after self.old Event.Clear None }
    {
        self.last += 1;
        self.cleared = Some(self.last);
        self.queue.clear();
        self.waiting = 0;
    }

    /// The links of the nodes: list 0 has the keys of the snapshot that are owed, and list 1 the other keys of the queue,
    /// which [`key_of`](CommandBuffer::key_of) reads by the nodes' values. Where a Clear is pending, list 0 is empty. It
    /// takes no memory.
    pub fn queue(&self) -> &Links
        ensures lists { length result.now.lists ≡ 2 }
        ensures keys { map (λ l. key_of_value self.now l.value) (nodes_of result.now.lists)
            ≡ map (λ q. Some q.key) self.now.queue }
        ensures values { map (λ l. l.value) (nodes_of result.now.lists) ≡ self.now.values }
        ensures listed { length (list_of result.now 0) ≡ self.now.listed }
        ensures cleared { IsSome self.now.cleared → list_of result.now 0 ≡ [] }
        ensures stands { (s : Slot) (h : List Entry) → StandsCommand self.now s h
            → TellsQueue self.now result.now s h }
    {
        self.queue.links()
    }

    /// The key whose node has a value; `None` exactly where no key of the queue has it. It takes no memory.
    pub fn key_of(&self, value: usize) -> Option<&Text>
        ensures { option_map (λ t. t.now) result ≡ key_of_value self.now value }
    {
        self.queue.key_of(value)
    }

    /// The next cut: where a Clear came, the snapshot's end, if it is owed, and then the Clear; else the snapshot's
    /// end, where none of its keys is owed, or the first key with its row. `None` where there is nothing of these.
    pub fn look(&self) -> Result<Option<Taken>, NoMemory>
        ensures { IfOk result (λ t. t ≡ command_head self.now) }
    {
        if let Some(upto) = self.cleared {
            if self.ends {
                return Ok(Some(Taken::EndOfSnapshot));
            }
            return Ok(Some(Taken::Cleared { upto }));
        }
        if self.is_whole() {
            return Ok(Some(Taken::EndOfSnapshot));
        }
        match self.queue.first()? {
            None => Ok(None),
            Some(first) => Ok(Some(Taken::Key {
                key: first.key,
                row: first.row,
                upto: self.last,
            })),
        }
    }

    /// Moves past the next cut, of which there is one. It takes no memory.
    pub fn pass(&mut self)
        requires { IsSome (command_head self.old) }
        ensures { self.new ≡ command_passed self.old }
    {
        if self.cleared.is_some() {
            if self.ends {
                self.end();
                return;
            }
            self.cleared = None;
            return;
        }
        if self.is_whole() {
            self.end();
            return;
        }
        self.turn();
    }

    /// The turn of the first key.
    fn turn(&mut self)
        ensures { self.new ≡ turn_passed self.old }
    {
        self.owed = self.owed.saturating_sub(1);
        if let Some(first) = self.queue.take_first() {
            if first.touched {
                self.waiting = self.waiting.saturating_sub(1);
            }
        }
    }

    /// The snapshot has ended: no key of it is owed any more.
    fn end(&mut self)
        ensures { self.new ≡ command_ended self.old }
    {
        self.ends = false;
        self.owed = 0;
    }
}

/// Whether the key's cell is a text.
fn names_key(cells: &[Cell], key: usize) -> bool
    ensures { IsTrue result ↔ IsText (cell_at cells.now key) }
{
    match cells.get(key) {
        Some(Cell::Text(_)) => true,
        _ => false,
    }
}

/// The text of the key's cell.
fn key_text(cells: &Cells, key: usize) -> &Text
    requires { NamesKey key (Event.Update cells.now) }
    ensures { result.now ≡ key_in key cells.now }
{
    match &cells.as_slice()[key] {
        Cell::Text(text) => text,
        _ => unreachable!(),
    }
}

/// The keys with their rows of a snapshot of mode COMMAND, and none where there is no snapshot.
fn rows_from(alloc: Global, first: Option<Snapshot>) -> Vec<KeyedRow>
    ensures { result.items ≡ command_rows first }
{
    match first {
        Some(Snapshot::Command(rows)) => rows.into_vec(),
        _ => Vec::new(alloc),
    }
}
