//! The buffer of mode DISTINCT and its plain program.
ghost use Rattle.std.specs.Prelude.{◌<◌, ◌≤◌};
ghost use Rattle.ls_event.specs.declared.limits.TheConstants.{MOST_BUFFER_SIZE as AS_MANY};

use super::{Draws, history, same_cut};
use ls_distinct::DistinctBuffer;
use ls_event::{Entry, MOST_BUFFER_SIZE, MOST_SNAPSHOT_ROWS, RowList, Snapshot, Taken};
use ls_plain::{DistinctSlot, plain_distinct_cut, plain_recent_rows};
use ls_value::Row;
use std::alloc::Global;
use std::test::Fail;

/// A slot of mode DISTINCT, by its buffer and by its history.
#[derive(Drop)]
struct DistinctRun {
    history: Vec<Entry>,
    buffer: DistinctBuffer,
    slot: DistinctSlot,
}

/// The rows of the item after so many events, where a snapshot is drawn.
fn drawn_rows(
    alloc: Global,
    draws: &mut Draws,
    history: &[Entry],
    base: u64,
) -> Result<Option<Vec<Row>>, Fail> {
    if draws.below(3) == 0 {
        return Ok(None);
    }
    if base as usize > history.len() {
        return Err(Fail::new("no such slot"));
    }
    Ok(Some(plain_recent_rows(alloc, history, base as usize)?))
}

/// The buffer of a slot that joins with so many of these rows, or without a snapshot.
fn joined(
    alloc: Global,
    base: u64,
    size: u32,
    rows: Option<Vec<Row>>,
    owed: u32,
) -> Result<DistinctBuffer, Fail>
    requires some { 0 < size }
    requires most { size ≤ AS_MANY }
{
    match rows {
        None => Ok(DistinctBuffer::new(alloc, base, size, None, 0)?),
        Some(rows) => {
            if owed as usize > rows.len() {
                return Err(Fail::new("too few rows"));
            }
            let first = Snapshot::Distinct(RowList::of(rows));
            Ok(DistinctBuffer::new(alloc, base, size, Some(first), owed)?)
        }
    }
}

/// How many of the rows are owed.
fn drawn_owed(draws: &mut Draws, rows: &Option<Vec<Row>>) -> u32 {
    match rows {
        None => 0,
        Some(rows) => draws.below(rows.len().min(MOST_SNAPSHOT_ROWS) as u64 + 1) as u32,
    }
}

/// A drawn slot of mode DISTINCT of size 1 to 8, which joins a drawn history.
fn drawn_run(alloc: Global, draws: &mut Draws) -> Result<DistinctRun, Fail> {
    let history = history(alloc, draws, 24)?;
    let (base, size) = (draws.below(12), draws.below(8) as u32 + 1);
    let rows = drawn_rows(alloc, draws, &history, base)?;
    let (owed, ends) = (drawn_owed(draws, &rows), rows.is_some());
    if size == 0 || size as usize > MOST_BUFFER_SIZE {
        return Err(Fail::new("no such slot"));
    }
    let buffer = joined(alloc, base, size, rows, owed)?;
    let slot = DistinctSlot {
        size: size as u64,
        base,
        last: base,
        cursor: base,
        owed: owed as u64,
        ends,
    };
    Ok(DistinctRun {
        history,
        buffer,
        slot,
    })
}

impl DistinctRun {
    /// The next cut, from the whole history.
    fn plain(&self, alloc: Global) -> Result<Option<Taken>, Fail> {
        let (slot, events) = (self.slot, self.history.len() as u64);
        if slot.cursor > slot.last || slot.last > events || slot.base > events {
            return Err(Fail::new("no such slot"));
        }
        Ok(plain_distinct_cut(alloc, &self.history, &slot)?)
    }

    /// Enqueues the next event, where there is one.
    fn enqueue(&mut self) -> Result<(), Fail> {
        let last = self.buffer.last();
        if last >= self.history.len() as u64 || last >= 1000 {
            return Ok(());
        }
        self.buffer.enqueue(&self.history[last as usize].event)?;
        self.slot.last = self.buffer.last();
        Ok(())
    }

    /// The slot after a cut.
    fn pass(&mut self, taken: &Taken) {
        match taken {
            Taken::Row { row: _, upto } => {
                self.slot.cursor = *upto;
                self.slot.owed = self.slot.owed.saturating_sub(1);
            }
            Taken::Cleared { upto } => self.slot.cursor = *upto,
            Taken::EndOfSnapshot => {
                self.slot.owed = 0;
                self.slot.ends = false;
            }
            _ => {}
        }
    }

    /// Whether the next cut is that of the plain program; it is passed.
    fn agrees(&mut self, alloc: Global) -> Result<bool, Fail> {
        let plain = self.plain(alloc)?;
        let taken = ls_event::take_one(&mut self.buffer)?;
        if let Some(taken) = &taken {
            self.pass(taken);
        }
        Ok(same_cut(&plain, &taken))
    }
}

/// Whether a drawn slot's cuts are those of the plain program.
fn distinct_agrees(alloc: Global, draws: &mut Draws) -> Result<bool, Fail> {
    let mut run = drawn_run(alloc, draws)?;
    for _ in 0..40 {
        if draws.below(2) > 0 {
            run.enqueue()?;
        } else if !run.agrees(alloc)? {
            return Ok(false);
        }
    }
    Ok(true)
}

#[test]
fn distinct_buffers_give_the_cuts_of_the_plain_program(rt: HostRuntime) -> Result<(), Fail> {
    let alloc = rt.alloc();
    let mut draws = Draws { state: 20_260_103 };
    for i in 0..600 {
        assert!(rt; distinct_agrees(alloc, &mut draws)?, "in history {i}");
    }
    Ok(())
}
