//! The rows of seats, and the room for more.
ghost use Rattle.std.specs.Prelude.{◌≡◌, ◌+◌, ◌≤◌, ◌<◌, ◌++◌, ◌∷◌, [], ℕ, OnOk, OnErr, length, set, replicate};
ghost use Rattle.std.specs.List.{range_with_len};
ghost use Rattle.std.specs.Vec.{vec_len, vec_capacity};
ghost use Rattle.indexmap.specs.IndexMap.{spare};
ghost use Rattle.ls_turns.specs.Kept.{no_row};
ghost use Rattle.ls_turns.specs.Seats.{seat_named};
ghost use Rattle.ls_turns.specs.declared.row.SlotName.{SlotName as Name};

use crate::row::{Row, SlotName};
use crate::seats::make_room;
use crate::slot_ref::SlotRef;
use indexmap::IndexMap;
use ls_links::Links;
use ls_value::NoMemory;

/// Gives a seat its row.
pub fn set_row(rows: &mut Vec<Row>, seat: usize, row: Row)
    requires { seat < length rows.old.items }
    ensures { rows.new.items ≡ set rows.old.items seat row }
{
    rows[seat] = row;
}

/// Takes the last free seat.
pub fn take_last(free: &mut Vec<usize>) -> usize
    requires { 0 < length free.old.items }
    ensures items { free.old.items ≡ free.new.items ++ result ∷ [] }
    ensures room { vec_capacity free.new ≡ vec_capacity free.old }
{
    match free.pop() {
        Some(seat) => seat,
        None => unreachable!(),
    }
}

/// Takes room for so many links and names.
pub fn make_rooms(
    links: &mut Links,
    seats: &mut IndexMap<SlotName, usize>,
    n: usize,
) -> Result<(), NoMemory>
    ensures lists { links.new.lists ≡ links.old.lists }
    ensures more { links.old.spare ≤ links.new.spare }
    ensures room { spare seats.old ≤ spare seats.new }
    ensures same { (name : Name) → seat_named seats.new name ≡ seat_named seats.old name }
    ensures links { OnOk result (n ≤ links.new.spare) }
    ensures names { OnOk result (n ≤ spare seats.new) }
{
    links.reserve(n)?;
    make_room(seats, n)?;
    Ok(())
}

/// Adds so many free seats.
pub fn add_seats(rows: &mut Vec<Row>, free: &mut Vec<usize>, more: usize) -> Result<(), NoMemory>
    requires fewer { length free.old.items ≤ length rows.old.items }
    requires room { length rows.old.items ≤ vec_capacity free.old }
    ensures rows { OnOk result (rows.new.items ≡ rows.old.items ++ replicate more no_row) }
    ensures free { OnOk result (free.new.items ≡ free.old.items ++ range_with_len (length rows.old.items) more) }
    ensures room { length rows.new.items ≤ vec_capacity free.new }
    ensures err_rows { OnErr result (rows.new.items ≡ rows.old.items) }
    ensures err_free { OnErr result (free.new.items ≡ free.old.items) }
{
    let used = rows.len() - free.len();
    rows.reserve(more)?;
    free.reserve(used.saturating_add(more))?;
    push_seats(rows, free, more);
    Ok(())
}

/// Pushes so many free seats, for which there is room.
fn push_seats(rows: &mut Vec<Row>, free: &mut Vec<usize>, more: usize)
    requires rows { vec_len rows.old + more ≤ vec_capacity rows.old }
    requires free { vec_len free.old + more ≤ vec_capacity free.old }
    ensures rows { rows.new.items ≡ rows.old.items ++ replicate more no_row }
    ensures free { free.new.items ≡ free.old.items ++ range_with_len (length rows.old.items) more }
    ensures room { vec_capacity free.new ≡ vec_capacity free.old }
{
    for _ in 0..more {
        free.push_reserved(rows.len());
        rows.push_reserved(Row {
            slot: SlotRef {
                sub: 0,
                place: 0,
                item: 0,
                slot: 0,
            },
            node: 0,
        });
    }
}
