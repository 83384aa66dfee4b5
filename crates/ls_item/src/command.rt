//! The state of a COMMAND item.
ghost use Rattle.std.specs.Prelude.{◌≡◌, ◌<◌, length, List, [], ◌∷◌, Some, None, IfOk, OnOk, OnErr};
ghost use Rattle.std.specs.Prelude.{nat_le, ◌≤◌, ◌&&◌, set};
ghost use Rattle.std.specs.List.{insert};
ghost use Rattle.ls_value.specs.declared.row.Cell.TheVariants as field_cell;
ghost use Rattle.ls_value.specs.Values.{applied, nulls, cell_at};
ghost use Rattle.ls_event.specs.declared.event.Event.TheVariants as event;
ghost use Rattle.ls_event.specs.declared.snapshot.Snapshot.TheVariants as state;
ghost use Rattle.ls_event.specs.History.{HasFields, RowFits};
ghost use Rattle.ls_event.specs.Keyed.{keyed_after, deletes, text_of_cell};
ghost use Rattle.ls_event.specs.States.{key_row, push_refusal, order_cause, keys_refusal, weight_made, key_row_made};
ghost use Rattle.ls_event.specs.States.{adds_key, PushAnswers};
ghost use Rattle.ls_event.specs.Orders.{order_of};
ghost use Rattle.ls_item.specs.Changes.{IsChange};
ghost use Rattle.ls_item.specs.States.{shape_in, checked, IsStateOf};

use crate::keys::find;
use crate::rows::{cells_but, copied_keys, text_copy, text_of};
use crate::weights::{applied_weight_but, cells_weight, check_weight};
use ls_event::{
    CommandRefused, Event, KeyedRow, KeyedRows, MOST_KEYS, Order, PushRefused, Snapshot, command_of,
};
use ls_value::{Cells, NoMemory, Row, applied_row, apply_owned, same_bytes};
use std::alloc::Global;
use std::marker::Model;

/// The state of a COMMAND item: a row for each key, in the order of the keys' bytes (General Concepts, mode COMMAND).
/// In a row the command is null.
#[derive(Drop)]
pub struct CommandState {
    alloc: Global,
    fields: usize,
    key: usize,
    command: usize,
    rows: Vec<KeyedRow>,
}

impl Model for CommandState {
    ghost use Rattle.ls_item.specs.States.{KeyTable, IsKeyTable, keyed_shape};

    ghost Value = { KeyTable };

    ghost view = { λ s. record { fields = s.fields; key = s.key; command = s.command; keys = s.rows.items } };

    ghost invariant = { λ s. IsKeyTable (keyed_shape s.fields s.key s.command) s.rows.items };
}

/// What an update that isn't refused does to the keys.
#[derive(Clone, Copy)]
enum Change {
    /// A key that isn't there is deleted.
    Nothing,
    /// The key at an index is deleted.
    Remove(usize),
    /// The row of the key at an index changes.
    Update(usize),
    /// A new key comes to an index.
    Insert(usize),
}

impl CommandState {
    /// The state of an item of so many fields without events: no keys. The key and the command stand at these places.
    /// It keeps the allocator, by which its later calls take memory.
    pub fn new(
        alloc: Global,
        fields: usize,
        key: usize,
        command: usize,
    ) -> Result<CommandState, NoMemory>
        requires key { key < fields }
        requires command { command < fields }
        ensures { IfOk result (λ s. s ≡ record { fields = fields; key = key; command = command; keys = [] }) }
    {
        let rows = Vec::new(alloc);
        Ok(CommandState {
            alloc,
            fields,
            key,
            command,
            rows,
        })
    }

    /// The number of fields.
    pub fn fields(&self) -> usize
        ensures { result ≡ self.now.fields }
    {
        self.fields
    }

    /// The place of the key.
    pub fn key(&self) -> usize
        ensures { result ≡ self.now.key }
    {
        self.key
    }

    /// The place of the command.
    pub fn command(&self) -> usize
        ensures { result ≡ self.now.command }
    {
        self.command
    }

    /// The first cause that stands against an event, as `push` answers it. It takes no memory.
    pub fn check(&self, event: &Event) -> Result<(), PushRefused>
        requires { HasFields self.now.fields event.now }
        ensures { result ≡ checked (push_refusal (shape_in self.now) (state.Command self.now.keys) event.now) }
    {
        match event {
            Event::Update(cells) => self.check_update(cells),
            Event::Clear => Ok(()),
        }
    }

    /// Adds an event against which nothing stands, and answers the key's row after it, where it has one. After
    /// `NoMemory` the state is as before.
    pub fn add(&mut self, event: &Event) -> Result<Option<Row>, NoMemory>
        requires fields { HasFields self.old.fields event.now }
        requires admitted { push_refusal (shape_in self.old) (state.Command self.old.keys) event.now ≡ None }
        ensures ok { OnOk result (self.new ≡ record self.old {
          keys = keyed_after
              (shape_in self.old) self.old.keys event.now;
        }) }
        ensures row { IfOk result (λ row. row ≡ key_row (shape_in self.old)
            (state.Command (keyed_after (shape_in self.old) self.old.keys event.now)) event.now) }
        ensures fits { IfOk result (RowFits self.old.fields) }
        ensures err { OnErr result (self.new ≡ self.old) }
    {
        match event {
            Event::Update(cells) => {
                let change = self.change_of(cells);
                let row = self.change(cells, change)?;
                Ok(row)
            }
            Event::Clear => {
                self.rows.clear();
                Ok(None)
            }
        }
    }

    /// Adds an event, as `add` does, or answers the first cause that stands against it, of this order: an update has no
    /// text at the key; it has no order at the command; its texts, or those of the row that it makes, weigh more than
    /// [`MOST_WEIGHT`]; it adds a key to [`MOST_KEYS`]. After a refusal the state is as before.
    pub fn push(&mut self, event: &Event) -> Result<Option<Row>, PushRefused>
        requires { HasFields self.old.fields event.now }
        ensures answer { PushAnswers (push_refusal (shape_in self.old) (state.Command self.old.keys) event.now) result }
        ensures ok { OnOk result (self.new ≡ record self.old {
          keys = keyed_after
              (shape_in self.old) self.old.keys event.now;
        }) }
        ensures row { IfOk result (λ row. row ≡ key_row (shape_in self.old)
            (state.Command (keyed_after (shape_in self.old) self.old.keys event.now)) event.now) }
        ensures fits { IfOk result (RowFits self.old.fields) }
        ensures err { OnErr result (self.new ≡ self.old) }
    {
        self.check(event)?;
        let row = self.add(event)?;
        Ok(row)
    }

    /// The state, copied.
    pub fn snapshot(&self) -> Result<Snapshot, NoMemory>
        ensures state { IfOk result (λ s. s ≡ state.Command self.now.keys) }
        ensures fits { IfOk result (IsStateOf (shape_in self.now)) }
    {
        let rows = copied_keys(self.alloc, &self.rows)?;
        Ok(Snapshot::Command(KeyedRows::of(rows)))
    }

    /// The first cause that stands against an update. It takes no memory.
    fn check_update(&self, cells: &Cells) -> Result<(), PushRefused>
        requires { length cells.now ≡ self.now.fields }
        ensures { result ≡ checked (push_refusal (shape_in self.now) (state.Command self.now.keys)
            (event.Update cells.now)) }
    {
        check_order(cells, self.key, self.command)?;
        let change = self.change_of(cells);
        check_weight(self.weight_made(cells, change))?;
        if self.exceeds(cells, change) {
            Err(PushRefused::TooManyKeys)
        } else {
            Ok(())
        }
    }

    /// What an update does to the keys.
    #[tactic(auto, using(crate::proofs::Tables::no_key))]
    fn change_of(&self, cells: &Cells) -> Change
        requires { length cells.now ≡ self.now.fields }
        ensures { IsChange (shape_in self.now) self.now.keys cells.now result }
    {
        let deletes = self.deletes(cells);
        let found = find(&self.rows, text_of(&cells.as_slice()[self.key]));
        match (deletes, found) {
            (true, Ok(at)) => Change::Remove(at),
            (true, Err(_)) => Change::Nothing,
            (false, Ok(at)) => Change::Update(at),
            (false, Err(at)) => Change::Insert(at),
        }
    }

    /// Whether an update deletes its key.
    fn deletes(&self, cells: &Cells) -> bool
        requires { length cells.now ≡ self.now.fields }
        ensures { result ≡ deletes (shape_in self.now) cells.now }
    {
        same_bytes(
            text_of(&cells.as_slice()[self.command]),
            Order::Delete.word().as_bytes(),
        )
    }

    /// The bytes of an update's texts or of the row that it makes, whichever is more, or 2^64 - 1 where that is less. A
    /// row that comes new weighs no more than the update.
    fn weight_made(&self, cells: &Cells, change: Change) -> u64
        requires cells { length cells.now ≡ self.now.fields }
        requires change { IsChange (shape_in self.now) self.now.keys cells.now change }
        ensures { result ≡ weight_made (event.Update cells.now) (key_row_made
            (shape_in self.now) self.now.keys cells.now) }
    {
        let of_event = cells_weight(cells.as_slice());
        match change {
            Change::Update(at) => {
                let row = self.rows[at].row.as_slice();
                of_event.max(applied_weight_but(row, cells.as_slice(), self.command))
            }
            _ => of_event,
        }
    }

    /// Whether a change would add a key to as many as there may be.
    fn exceeds(&self, cells: &Cells, change: Change) -> bool
        requires { IsChange (shape_in self.now) self.now.keys cells.now change }
        ensures { result ≡ (nat_le MOST_KEYS (length self.now.keys) && adds_key
            (shape_in self.now) self.now.keys cells.now) }
    {
        let full = self.rows.len() >= MOST_KEYS;
        match change {
            Change::Insert(_at) => full,
            _ => false,
        }
    }

    /// Makes the change of an update, and answers the key's row after it, where it has one. After `NoMemory` all is as
    /// before.
    fn change(&mut self, cells: &Cells, change: Change) -> Result<Option<Row>, NoMemory>
        requires cells { length cells.now ≡ self.old.fields }
        requires change { IsChange (shape_in self.old) self.old.keys cells.now change }
        requires few { keys_refusal (shape_in self.old) (state.Command self.old.keys) (event.Update cells.now) ≡ None }
        ensures ok { OnOk result (self.new ≡ record self.old {
          keys = keyed_after (shape_in self.old) self.old.keys (event.Update cells.now);
        }) }
        ensures row { IfOk result (λ row. row ≡ key_row (shape_in self.old)
            (state.Command (keyed_after (shape_in self.old) self.old.keys (event.Update cells.now)))
            (event.Update cells.now)) }
        ensures fits { IfOk result (RowFits self.old.fields) }
        ensures err { OnErr result (self.new ≡ self.old) }
    {
        match change {
            Change::Nothing => Ok(None),
            Change::Remove(at) => {
                let _removed = self.rows.remove(at);
                Ok(None)
            }
            Change::Update(at) => self.update(cells, at),
            Change::Insert(at) => self.insert(cells, at),
        }
    }

    /// Changes the row of the key at an index.
    fn update(&mut self, cells: &Cells, at: usize) -> Result<Option<Row>, NoMemory>
        requires cells { length cells.now ≡ self.old.fields }
        requires change { IsChange (shape_in self.old) self.old.keys cells.now (Change.Update at) }
        ensures ok { OnOk result (self.new ≡ record self.old {
          keys = keyed_after (shape_in self.old) self.old.keys (event.Update cells.now);
        }) }
        ensures row { IfOk result (λ row. row ≡ key_row (shape_in self.old)
            (state.Command (keyed_after (shape_in self.old) self.old.keys (event.Update cells.now)))
            (event.Update cells.now)) }
        ensures fits { IfOk result (RowFits self.old.fields) }
        ensures err { OnErr result (self.new ≡ self.old) }
    {
        let kept = cells_but(self.alloc, cells.as_slice(), self.command)?;
        let after = applied_row(self.alloc, &self.rows[at].row, &kept)?;
        apply_owned(&mut self.rows[at].row, kept);
        Ok(Some(after))
    }

    /// Puts a new key with its row at an index.
    fn insert(&mut self, cells: &Cells, at: usize) -> Result<Option<Row>, NoMemory>
        requires cells { length cells.now ≡ self.old.fields }
        requires change { IsChange (shape_in self.old) self.old.keys cells.now (Change.Insert at) }
        requires few { keys_refusal (shape_in self.old) (state.Command self.old.keys) (event.Update cells.now) ≡ None }
        ensures ok { OnOk result (self.new ≡ record self.old {
          keys = keyed_after (shape_in self.old) self.old.keys (event.Update cells.now);
        }) }
        ensures row { IfOk result (λ row. row ≡ key_row (shape_in self.old)
            (state.Command (keyed_after (shape_in self.old) self.old.keys (event.Update cells.now)))
            (event.Update cells.now)) }
        ensures fits { IfOk result (RowFits self.old.fields) }
        ensures err { OnErr result (self.new ≡ self.old) }
    {
        let row = insert_row(
            self.alloc,
            &mut self.rows,
            at,
            cells,
            self.fields,
            self.key,
            self.command,
        )?;
        Ok(Some(row))
    }
}

/// Puts the key of an update with its new row at an index, and answers a copy of that row.
fn insert_row(
    alloc: Global,
    rows: &mut Vec<KeyedRow>,
    at: usize,
    cells: &Cells,
    fields: usize,
    key: usize,
    command: usize,
) -> Result<Row, NoMemory>
    requires at { at ≤ length rows.old.items }
    requires cells { length cells.now ≡ fields }
    requires key { key < fields }
    ensures row { IfOk result (λ row. row ≡ applied (nulls fields) (set cells.now command field_cell.Null)) }
    ensures ok { IfOk result (λ row. rows.new.items ≡ insert rows.old.items at (record
        { key = text_of_cell (cell_at cells.now key); row = row })) }
    ensures err { OnErr result (rows.new.items ≡ rows.old.items) }
{
    let made = new_key(alloc, cells, fields, key, command)?;
    let after = made.row.copy(alloc)?;
    rows.insert(at, made)?;
    Ok(after)
}

/// The key of an update, with the row that it makes where there was none.
fn new_key(
    alloc: Global,
    cells: &Cells,
    fields: usize,
    key: usize,
    command: usize,
) -> Result<KeyedRow, NoMemory>
    requires cells { length cells.now ≡ fields }
    requires key { key < fields }
    ensures { IfOk result (λ made. made ≡ record {
      key = text_of_cell (cell_at cells.now key);
      row = applied (nulls fields) (set cells.now command field_cell.Null);
    }) }
{
    let text = text_copy(alloc, &cells.as_slice()[key])?;
    let kept = cells_but(alloc, cells.as_slice(), command)?;
    let mut row = Row::nulls(alloc, fields)?;
    apply_owned(&mut row, kept);
    Ok(KeyedRow { key: text, row })
}

/// The cause that stands against an update without a key or an order. It takes no memory.
fn check_order(cells: &Cells, key: usize, command: usize) -> Result<(), PushRefused>
    requires key { key < length cells.now }
    requires command { command < length cells.now }
    ensures { result ≡ checked (order_cause (order_of cells.now key command)) }
{
    match command_of(cells, key, command) {
        Ok(_order) => Ok(()),
        Err(CommandRefused::NoKey) => Err(PushRefused::NoKey),
        Err(CommandRefused::BadCommand) => Err(PushRefused::BadCommand),
    }
}
