//! The next cut of mode DISTINCT from the whole history.
ghost use Rattle.std.specs.Prelude.{◌≡◌, ◌≤◌, IfOk, length, map, drop, option_map};
ghost use Rattle.ls_event.specs.declared.event.Taken.TheVariants as taken;
ghost use Rattle.ls_event.specs.OwnCuts.{distinct_cut, clear_cut, first_of_last, row_taken};
ghost use Rattle.ls_event.specs.Slots.{Slot};
ghost use Rattle.ls_event.specs.Updates.{recent_rows};
ghost use Rattle.ls_plain.specs.Plain.{distinct_slot};

use crate::updates::{clear_or, last_clear, own_rows};
use ls_event::{Entry, MOST_SNAPSHOT_ROWS, OwnRow, Taken};
use ls_value::{NoMemory, Row};
use std::alloc::Global;

/// The numbers of a slot of mode DISTINCT.
#[derive(Clone, Copy, Debug)]
pub struct DistinctSlot {
    /// The buffer's size.
    pub size: u64,
    /// The item's number when the slot joined.
    pub base: u64,
    /// The last number that was enqueued.
    pub last: u64,
    /// The number up to which lines tell of the item.
    pub cursor: u64,
    /// How many rows of the snapshot are owed.
    pub owed: u64,
    /// Whether the end of the snapshot is owed.
    pub ends: bool,
}

/// The next cut of a slot of mode DISTINCT; `None` where there is none (General Concepts, mode DISTINCT and buffers).
pub fn plain_distinct_cut(
    alloc: Global,
    history: &[Entry],
    slot: &DistinctSlot,
) -> Result<Option<Taken>, NoMemory>
    requires order { slot.now.cursor ≤ slot.now.last }
    requires within { slot.now.last ≤ length history.now }
    requires joined { slot.now.base ≤ length history.now }
    ensures { IfOk result (λ t. t ≡ distinct_cut history.now (distinct_slot slot.now)) }
{
    let (cursor, last) = (slot.cursor as usize, slot.last as usize);
    if let Some(clear) = last_clear(history, cursor, last) {
        return Ok(Some(clear_taken(slot.ends, clear)));
    }
    if slot.owed > 0 {
        return snapshot_taken(alloc, history, slot.base as usize, slot.owed as usize);
    }
    if slot.ends {
        return Ok(Some(Taken::EndOfSnapshot));
    }
    let rows = own_rows(alloc, history, cursor, last)?;
    first_taken(alloc, &rows, slot.size as usize)
}

/// What a Clear gives: the snapshot's end, where it is owed, and then itself.
pub fn clear_taken(ends: bool, clear: u64) -> Taken
    ensures { (s : Slot) → s.ends ≡ ends → Some result ≡ clear_cut s clear }
{
    if ends {
        Taken::EndOfSnapshot
    } else {
        Taken::Cleared { upto: clear }
    }
}

/// The first of the last updates of a size.
fn first_taken(alloc: Global, rows: &[OwnRow], size: usize) -> Result<Option<Taken>, NoMemory>
    ensures { IfOk result (λ t. t ≡ option_map row_taken (first_of_last size rows.now)) }
{
    match rows.get(rows.len().saturating_sub(size)) {
        None => Ok(None),
        Some(own) => Ok(Some(Taken::Row {
            row: own.row.copy(alloc)?,
            upto: own.no,
        })),
    }
}

/// The next row of the snapshot, of which so many of the last are owed.
fn snapshot_taken(
    alloc: Global,
    history: &[Entry],
    base: usize,
    owed: usize,
) -> Result<Option<Taken>, NoMemory>
    requires { base ≤ length history.now }
    ensures { IfOk result (λ t. t
        ≡ option_map (λ row. taken.Row row base) (first_of_last owed (recent_rows history.now base))) }
{
    let rows = plain_recent_rows(alloc, history, base)?;
    match rows.get(rows.len().saturating_sub(owed)) {
        None => Ok(None),
        Some(row) => Ok(Some(Taken::Row {
            row: row.copy(alloc)?,
            upto: base as u64,
        })),
    }
}

/// The state of a DISTINCT item after the first i entries of its history: the own rows since the last
/// Clear, as many of the last as are kept.
#[tactic(auto, using(crate::proofs::More::last_rows))]
pub fn plain_recent_rows(alloc: Global, history: &[Entry], i: usize) -> Result<Vec<Row>, NoMemory>
    requires { i ≤ length history.now }
    ensures { IfOk result (λ rows. rows.items ≡ recent_rows history.now i) }
{
    let own = own_rows(alloc, history, clear_or(history, 0, i), i)?;
    rows_from(alloc, &own, own.len().saturating_sub(MOST_SNAPSHOT_ROWS))
}

/// The rows of these updates behind the first so many.
fn rows_from(alloc: Global, own: &[OwnRow], from: usize) -> Result<Vec<Row>, NoMemory>
    requires { from ≤ length own.now }
    ensures { IfOk result (λ rows. rows.items ≡ map (λ u. u.row) (drop from own.now)) }
{
    let mut rows = Vec::new(alloc);
    for i in from..own.len() {
        rows.push(own[i].row.copy(alloc)?)?;
    }
    Ok(rows)
}
