//! The seats of slots by their names.
ghost use Rattle.std.specs.Prelude.{◌≡◌, ◌+◌, ◌≤◌, ◌<◌, ℕ, IfSome, IfOk, OnOk, OnErr, None, Some, cond};
ghost use Rattle.indexmap.specs.IndexMap.{spare};
ghost use Rattle.ls_turns.specs.Seats.{is_name, seat_named};
ghost use Rattle.ls_turns.specs.declared.row.SlotName.{SlotName as Name};

use crate::row::SlotName;
use indexmap::IndexMap;
use ls_value::NoMemory;

/// The seat of a name.
pub fn look(seats: &IndexMap<SlotName, usize>, name: SlotName) -> Option<usize>
    ensures { result ≡ seat_named seats.now name }
{
    Some(*seats.get(&name)?)
}

/// Gives a name a seat.
pub fn put(seats: &mut IndexMap<SlotName, usize>, name: SlotName, seat: usize)
    requires { 0 < spare seats.old }
    ensures room { spare seats.old ≤ spare seats.new + 1 }
    ensures after { (n : Name) → seat_named seats.new n ≡ cond (is_name name n) (Some seat) (seat_named seats.old n) }
{
    let _none = seats.insert(name, seat);
}

/// Takes the seat of a name away.
pub fn take(seats: &mut IndexMap<SlotName, usize>, name: SlotName) -> Option<usize>
    ensures seat { result ≡ seat_named seats.old name }
    ensures room { spare seats.old ≤ spare seats.new }
    ensures after { (n : Name) → seat_named seats.new n ≡ cond (is_name name n) None (seat_named seats.old n) }
{
    seats.swap_remove(&name)
}

/// Takes room for so many more names.
pub fn make_room(seats: &mut IndexMap<SlotName, usize>, n: usize) -> Result<(), NoMemory>
    ensures room { OnOk result (n ≤ spare seats.new) }
    ensures less { spare seats.old ≤ spare seats.new }
    ensures same { (n : Name) → seat_named seats.new n ≡ seat_named seats.old n }
{
    seats.reserve(n)?;
    Ok(())
}
