//! The buffer of mode COMMAND and its plain program.

use super::{Draws, entry, same_cut, word};
use crate::made::cell;
use ls_command::CommandBuffer;
use ls_event::{Entry, Event, KeyedRow, KeyedRows, Snapshot, Stored, Taken};
use ls_plain::{
    CommandShape, CommandSlot, KeyTurn, plain_command_cut, plain_keyed, row_of, text_at,
};
use ls_value::{Cells, NoMemory, Row};
use std::alloc::Global;
use std::test::Fail;

/// The fields of the item: a command, a quantity, a key and a price.
const SHAPE: CommandShape = CommandShape {
    fields: 4,
    key: 2,
    command: 0,
};

/// A slot of mode COMMAND, by its buffer and by its history.
#[derive(Drop)]
struct CommandRun {
    history: Vec<Entry>,
    buffer: CommandBuffer,
    slot: CommandSlot,
    turns: Vec<KeyTurn>,
}

/// A drawn key, of four. One is the beginning of another.
fn key(draws: &mut Draws) -> &'static str {
    match draws.below(4) {
        0 => "a",
        1 => "ab",
        2 => "b",
        _ => "B",
    }
}

/// A drawn order.
fn order(draws: &mut Draws) -> &'static str {
    match draws.below(4) {
        0 => "ADD",
        1 => "DELETE",
        _ => "UPDATE",
    }
}

/// A drawn update.
fn update(alloc: Global, draws: &mut Draws) -> Result<Event, NoMemory> {
    let mut cells = Vec::new(alloc);
    for word in [order(draws), word(draws), key(draws), word(draws)] {
        cells.push(cell(alloc, word)?)?;
    }
    Ok(Event::Update(Cells::of(cells)))
}

/// A drawn event: one in eight is a Clear.
fn event(alloc: Global, draws: &mut Draws) -> Result<Event, NoMemory> {
    if draws.below(8) == 0 {
        Ok(Event::Clear)
    } else {
        update(alloc, draws)
    }
}

/// A drawn history of so many events.
fn history(alloc: Global, draws: &mut Draws, events: u64) -> Result<Vec<Entry>, NoMemory> {
    let mut entries = Vec::new(alloc);
    for i in 0..events {
        let event = event(alloc, draws)?;
        entries.push(entry(i, event))?;
    }
    Ok(entries)
}

/// The keys of the item with their rows after so many events.
fn keyed_at(alloc: Global, history: &[Entry], number: u64) -> Result<Vec<KeyedRow>, Fail> {
    if number as usize > history.len() {
        return Err(Fail::new("no such number"));
    }
    Ok(plain_keyed(alloc, history, &SHAPE, number as usize)?)
}

/// The buffer of a slot that joins with these keys, or without a snapshot.
fn joined(alloc: Global, base: u64, rows: Option<Vec<KeyedRow>>) -> Result<CommandBuffer, Fail> {
    match rows {
        None => Ok(CommandBuffer::new(alloc, base, SHAPE.key, None)?),
        Some(rows) => {
            let first = Snapshot::Command(KeyedRows::of(rows));
            Ok(CommandBuffer::new(alloc, base, SHAPE.key, Some(first))?)
        }
    }
}

/// The keys of the item after so many events, where a snapshot is drawn.
fn drawn_keys(
    alloc: Global,
    draws: &mut Draws,
    history: &[Entry],
    base: u64,
) -> Result<Option<Vec<KeyedRow>>, Fail> {
    if draws.below(3) == 0 {
        return Ok(None);
    }
    Ok(Some(keyed_at(alloc, history, base)?))
}

/// How many keys are owed.
fn owed(rows: &Option<Vec<KeyedRow>>) -> u64 {
    match rows {
        None => 0,
        Some(rows) => rows.len() as u64,
    }
}

/// A drawn slot of mode COMMAND, which joins a drawn history.
fn drawn_run(alloc: Global, draws: &mut Draws) -> Result<CommandRun, Fail> {
    let history = history(alloc, draws, 24)?;
    let base = draws.below(12);
    let rows = drawn_keys(alloc, draws, &history, base)?;
    let slot = CommandSlot {
        shape: SHAPE,
        base,
        last: base,
        cursor: base,
        owed: owed(&rows),
        ends: rows.is_some(),
    };
    Ok(CommandRun {
        history,
        buffer: joined(alloc, base, rows)?,
        slot,
        turns: Vec::new(alloc),
    })
}

/// The row that the key of an event has behind it.
fn row_after(alloc: Global, rows: &[KeyedRow], event: &Event) -> Result<Option<Row>, Fail> {
    match event {
        Event::Update(cells) => {
            let key = text_at(alloc, cells.as_slice(), SHAPE.key)?;
            Ok(row_of(alloc, rows, key.as_bytes())?)
        }
        Event::Clear => Ok(None),
    }
}

impl CommandRun {
    /// The next cut, from the whole history.
    fn plain(&self, alloc: Global) -> Result<Option<Taken>, Fail> {
        let (slot, events) = (self.slot, self.history.len() as u64);
        if slot.cursor > slot.last || slot.last > events || slot.base > events {
            return Err(Fail::new("no such slot"));
        }
        Ok(plain_command_cut(alloc, &self.history, &slot, &self.turns)?)
    }

    /// The event of the next number, with the row that its key then has.
    fn stored(&self, alloc: Global, no: u64) -> Result<Stored, Fail> {
        if no == 0 || no > self.history.len() as u64 {
            return Err(Fail::new("no such number"));
        }
        let event = self.history[no as usize - 1].event.copy(alloc)?;
        let rows = keyed_at(alloc, &self.history, no)?;
        let after = row_after(alloc, &rows, &event)?;
        Ok(Stored { no, event, after })
    }

    /// Enqueues the next event, where there is one.
    fn enqueue(&mut self, alloc: Global) -> Result<(), Fail> {
        let last = self.buffer.last();
        if last >= self.history.len() as u64 || last >= 1000 {
            return Ok(());
        }
        let stored = self.stored(alloc, last + 1)?;
        if !self.buffer.admits(&stored.event) {
            return Err(Fail::new("an update without a key"));
        }
        self.buffer.enqueue(&stored)?;
        self.slot.last = self.buffer.last();
        Ok(())
    }

    /// The slot after a cut.
    fn pass(&mut self, alloc: Global, taken: &Taken) -> Result<(), Fail> {
        match taken {
            Taken::Key { key, row: _, upto } => {
                let key = key.copy(alloc)?;
                let turn = KeyTurn { key, cursor: *upto };
                self.turns.insert(0, turn)?;
                self.slot.owed = self.slot.owed.saturating_sub(1);
            }
            Taken::Cleared { upto } => {
                self.slot.cursor = *upto;
                self.turns.clear();
            }
            Taken::EndOfSnapshot => {
                self.slot.owed = 0;
                self.slot.ends = false;
            }
            _ => {}
        }
        Ok(())
    }

    /// Whether the next cut is that of the plain program; it is passed.
    fn agrees(&mut self, alloc: Global) -> Result<bool, Fail> {
        let plain = self.plain(alloc)?;
        let taken = ls_event::take_one(&mut self.buffer)?;
        if let Some(taken) = &taken {
            self.pass(alloc, taken)?;
        }
        Ok(same_cut(&plain, &taken))
    }
}

/// Whether a drawn slot's cuts are those of the plain program.
fn command_agrees(alloc: Global, draws: &mut Draws) -> Result<bool, Fail> {
    let mut run = drawn_run(alloc, draws)?;
    for _ in 0..40 {
        if draws.below(2) > 0 {
            run.enqueue(alloc)?;
        } else if !run.agrees(alloc)? {
            return Ok(false);
        }
    }
    Ok(true)
}

#[test]
fn command_buffers_give_the_cuts_of_the_plain_program(rt: HostRuntime) -> Result<(), Fail> {
    let alloc = rt.alloc();
    let mut draws = Draws { state: 20_260_104 };
    for i in 0..600 {
        assert!(rt; command_agrees(alloc, &mut draws)?, "in history {i}");
    }
    Ok(())
}
