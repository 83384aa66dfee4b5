//! The updates of a history, and its Clears (General Concepts, modes RAW and DISTINCT).
ghost use Rattle.std.specs.Prelude.{◌≡◌, ◌≤◌, ◌++◌, ℕ, Option, IfOk, OnOk, length};
ghost use Rattle.ls_event.specs.Updates.{own_of, updates_between, clear_of, last_clear, clear_or};

use ls_event::{Entry, Event, OwnRow, own_row};
use ls_value::NoMemory;
use std::alloc::Global;

/// The own rows of the updates numbered `from` + 1 to `to`.
pub fn own_rows(
    alloc: Global,
    history: &[Entry],
    from: usize,
    to: usize,
) -> Result<Vec<OwnRow>, NoMemory>
    requires order { from ≤ to }
    requires within { to ≤ length history.now }
    ensures { IfOk result (λ rows. rows.items ≡ updates_between history.now from to) }
{
    let mut rows = Vec::new(alloc);
    for i in from..to {
        add(alloc, &mut rows, &history[i].event, i as u64 + 1)?;
    }
    Ok(rows)
}

/// Adds the own row of the event of a number, where it is an update.
fn add(alloc: Global, rows: &mut Vec<OwnRow>, event: &Event, no: u64) -> Result<(), NoMemory>
    ensures { OnOk result (rows.new.items ≡ rows.old.items ++ own_of no event.now) }
{
    if let Event::Update(cells) = event {
        let row = own_row(alloc, cells)?;
        rows.push(OwnRow { row, no })?;
    }
    Ok(())
}

/// The number of the last Clear among the events numbered `from` + 1 to `to`.
pub fn last_clear(history: &[Entry], from: usize, to: usize) -> Option<u64>
    requires order { from ≤ to }
    requires within { to ≤ length history.now }
    ensures { result ≡ last_clear history.now from to }
{
    let mut clear = None;
    for i in from..to {
        clear = clear_after(clear, i as u64 + 1, &history[i].event);
    }
    clear
}

/// The number of the last Clear after the event of a number.
fn clear_after(clear: Option<u64>, no: u64, event: &Event) -> Option<u64>
    ensures { result ≡ clear_of clear no event.now }
{
    match event {
        Event::Update(_) => clear,
        Event::Clear => Some(no),
    }
}

/// The number of the last Clear among the events numbered `from` + 1 to `to`, or `from` where there is none.
pub fn clear_or(history: &[Entry], from: usize, to: usize) -> usize
    requires order { from ≤ to }
    requires within { to ≤ length history.now }
    ensures clear { result ≡ clear_or history.now from to }
    ensures within { result ≤ to }
{
    match last_clear(history, from, to) {
        None => from,
        Some(clear) => clear as usize,
    }
}
