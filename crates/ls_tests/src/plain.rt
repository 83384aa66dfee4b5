//! Buffers compared with the plain programs on histories that are drawn, always the same ones.
ghost use Rattle.std.specs.Prelude.{◌≤◌};

mod command;
mod distinct;
mod merge;
mod raw;

use crate::made::cell;
use ls_event::{Entry, Event, Taken};
use ls_value::{Cell, Cells, NoMemory, Row};
use std::alloc::Global;

/// A linear congruential generator (Knuth's MMIX).
#[derive(Drop)]
struct Draws {
    state: u64,
}

impl Draws {
    /// A number below n, or 0.
    fn below(&mut self, n: u64) -> u64
        ensures { result ≤ n }
    {
        self.state = self
            .state
            .wrapping_mul(6364136223846793005)
            .wrapping_add(1442695040888963407);
        if n == 0 { 0 } else { (self.state >> 33) % n }
    }
}

/// The word of a drawn cell.
fn word(draws: &mut Draws) -> &'static str {
    match draws.below(5) {
        0 | 1 => "=",
        2 => "#",
        3 => "a",
        _ => "b",
    }
}

/// A drawn event of an item with two fields: one in six is a Clear.
fn event(alloc: Global, draws: &mut Draws) -> Result<Event, NoMemory> {
    if draws.below(6) == 0 {
        return Ok(Event::Clear);
    }
    let mut cells = Vec::new(alloc);
    for word in [word(draws), word(draws)] {
        cells.push(cell(alloc, word)?)?;
    }
    Ok(Event::Update(Cells::of(cells)))
}

/// An entry of a number.
fn entry(seq: u64, event: Event) -> Entry {
    Entry {
        adapter: 1,
        seq,
        event,
    }
}

/// A drawn history of so many events.
fn history(alloc: Global, draws: &mut Draws, events: u64) -> Result<Vec<Entry>, NoMemory> {
    let mut entries = Vec::new(alloc);
    for i in 0..events {
        let event = event(alloc, draws)?;
        entries.push(entry(i, event))?;
    }
    Ok(entries)
}

/// Whether two cells are equal.
fn same_cell(a: &Cell, b: &Cell) -> bool {
    match (a, b) {
        (Cell::Same, Cell::Same) | (Cell::Null, Cell::Null) => true,
        (Cell::Text(s), Cell::Text(t)) => s.as_bytes() == t.as_bytes(),
        _ => false,
    }
}

/// Whether two changes tell the same cells.
fn same_cells(a: &Cells, b: &Cells) -> bool {
    a.len() == b.len()
        && a.as_slice()
            .iter()
            .zip(b.as_slice())
            .all(|(s, t)| same_cell(s, t))
}

/// Whether two cuts are equal.
fn same_cut(a: &Option<Taken>, b: &Option<Taken>) -> bool {
    match (a, b) {
        (None, None) => true,
        (Some(Taken::Change { cells: s, upto: m }), Some(Taken::Change { cells: t, upto: n })) => {
            m == n && same_cells(s, t)
        }
        (Some(Taken::Row { row: s, upto: m }), Some(Taken::Row { row: t, upto: n })) => {
            m == n && ls_value::same(s, t)
        }
        (Some(Taken::Lost { count: s, upto: m }), Some(Taken::Lost { count: t, upto: n })) => {
            m == n && s == t
        }
        (Some(Taken::Cleared { upto: m }), Some(Taken::Cleared { upto: n })) => m == n,
        (Some(Taken::EndOfSnapshot), Some(Taken::EndOfSnapshot)) => true,
        (
            Some(
                Taken::Key {
                    key: j,
                    row: s,
                    upto: m,
                },
            ),
            Some(
                Taken::Key {
                    key: k,
                    row: t,
                    upto: n,
                },
            ),
        ) => m == n && j.as_bytes() == k.as_bytes() && same_rows(s, t),
        _ => false,
    }
}

/// Whether two rows are equal, or there are none.
fn same_rows(a: &Option<Row>, b: &Option<Row>) -> bool {
    match (a, b) {
        (None, None) => true,
        (Some(s), Some(t)) => ls_value::same(s, t),
        _ => false,
    }
}

/// The number that a cut tells up to.
fn upto(taken: &Taken) -> u64 {
    match taken {
        Taken::Change { cells: _, upto } => *upto,
        Taken::Row { row: _, upto } => *upto,
        Taken::Lost { count: _, upto } => *upto,
        Taken::Key {
            key: _,
            row: _,
            upto,
        } => *upto,
        Taken::Cleared { upto } => *upto,
        Taken::EndOfSnapshot => 0,
    }
}
