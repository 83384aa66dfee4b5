//! The item's sides of its slots, by number from 1.
ghost use Rattle.std.specs.Prelude.{◌≡◌, ◌+◌, ◌++◌, ◌∷◌, [], ◌≤◌, ◌<◌, IsTrue, IsSome, None, Some, OnOk, OnErr, length, option_map};
ghost use Rattle.std.specs.Vec.{vec_capacity};
ghost use Rattle.ls_cell.specs.Numbered.{slot_at, set_slot, put_slot, free_number};
ghost use Rattle.ls_seated.specs.Seats.{IsTied, cuts_of, side_passed};

use crate::seat::{ItemSlot, Seat};
use ls_bell::Bell;
use ls_chron::Chron;
use ls_register::{House, Made};
use ls_value::NoMemory;
use std::alloc::Global;
use std::sync::Arc;

/// Whether the side of a seat's number is the seat's other one.
pub fn is_side<N: House>(
    sides: &mut Vec<Option<ItemSlot<N>>>,
    register: &Chron<Made>,
    seat: &mut Seat<N>,
) -> bool
    requires { register.now ≡ N.deed.register }
    ensures same { (sides.new.items ≡ sides.old.items) × (seat.new ≡ seat.old) }
    ensures one { IsTrue result → IsTied (slot_at sides.old.items seat.old.number) seat.old }
{
    let number = seat.number() as usize;
    if number == 0 || number > sides.len() {
        return false;
    }
    is_at(&mut sides[number - 1], register, seat)
}

/// Whether a side, if there is one, is a seat's other one.
fn is_at<N: House>(
    side: &mut Option<ItemSlot<N>>,
    register: &Chron<Made>,
    seat: &mut Seat<N>,
) -> bool
    requires { register.now ≡ N.deed.register }
    ensures same { (side.new ≡ side.old) × (seat.new ≡ seat.old) }
    ensures one { IsTrue result → IsTied side.old seat.old }
{
    match side {
        None => false,
        Some(side) => side.is_seat(register, seat),
    }
}

/// The side of a seat's number, which is the seat's other one, passed the same cuts.
pub fn agree<N: House>(sides: &mut Vec<Option<ItemSlot<N>>>, seat: &mut Seat<N>)
    requires { IsTied (slot_at sides.old.items seat.old.number) seat.old }
    ensures agree { cuts_of (slot_at sides.old.items seat.old.number) ≡ seat.old.list }
    ensures same { (sides.new.items ≡ sides.old.items) × (seat.new ≡ seat.old) }
{
    let number = seat.number() as usize;
    agree_at(&mut sides[number - 1], seat);
}

/// A side, which is a seat's other one, passed the same cuts.
fn agree_at<N: House>(side: &mut Option<ItemSlot<N>>, seat: &mut Seat<N>)
    requires { IsTied side.old seat.old }
    ensures agree { cuts_of side.old ≡ seat.old.list }
    ensures same { (side.new ≡ side.old) × (seat.new ≡ seat.old) }
{
    match side {
        None => unreachable!(),
        Some(side) => side.agree(seat),
    }
}

/// The side of a seat's number, which is the seat's other one, and the seat pass a cut.
pub fn pass<N: House>(sides: &mut Vec<Option<ItemSlot<N>>>, seat: &mut Seat<N>, cut: u64)
    requires { IsTied (slot_at sides.old.items seat.old.number) seat.old }
    ensures item { sides.new.items ≡ set_slot sides.old.items seat.old.number
        (option_map (side_passed cut) (slot_at sides.old.items seat.old.number)) }
    ensures seat { seat.new ≡ record seat.old { list = seat.old.list ++ cut ∷ [] } }
{
    let number = seat.number() as usize;
    pass_at(&mut sides[number - 1], seat, cut);
}

/// A side, which is a seat's other one, and the seat pass a cut.
fn pass_at<N: House>(side: &mut Option<ItemSlot<N>>, seat: &mut Seat<N>, cut: u64)
    requires { IsTied side.old seat.old }
    ensures item { side.new ≡ option_map (side_passed cut) side.old }
    ensures seat { seat.new ≡ record seat.old { list = seat.old.list ++ cut ∷ [] } }
{
    match side {
        None => unreachable!(),
        Some(side) => side.pass(seat, cut),
    }
}

/// Puts a side at the index of the first free number. There is room for one.
pub fn put<N: House>(sides: &mut Vec<Option<ItemSlot<N>>>, index: usize, side: ItemSlot<N>)
    requires number { index + 1 ≡ free_number sides.old.items }
    requires room { length sides.old.items < vec_capacity sides.old }
    ensures { sides.new.items ≡ put_slot sides.old.items side }
{
    if index < sides.len() {
        sides[index] = Some(side);
    } else {
        sides.push_reserved(Some(side));
    }
}

/// Drops the side of a number.
pub fn clear<N: House>(sides: &mut Vec<Option<ItemSlot<N>>>, number: u32)
    requires { IsSome (slot_at sides.old.items number) }
    ensures { sides.new.items ≡ set_slot sides.old.items number None }
{
    sides[number as usize - 1] = None;
}

/// The bells of all sides, and one more.
pub fn bells_with<N: House>(
    alloc: Global,
    sides: &[Option<ItemSlot<N>>],
    more: &Arc<Bell, Global>,
) -> Result<Arc<Vec<Arc<Bell, Global>>, Global>, NoMemory> {
    let mut bells = bells_in(alloc, sides)?;
    bells.push(Arc::try_clone(more)?)?;
    Ok(Arc::new(alloc, bells)?)
}

/// The bells of all sides.
pub fn bells_of<N: House>(
    alloc: Global,
    sides: &[Option<ItemSlot<N>>],
) -> Result<Arc<Vec<Arc<Bell, Global>>, Global>, NoMemory> {
    let bells = bells_in(alloc, sides)?;
    Ok(Arc::new(alloc, bells)?)
}

/// A list of the bells of all sides.
fn bells_in<N: House>(
    alloc: Global,
    sides: &[Option<ItemSlot<N>>],
) -> Result<Vec<Arc<Bell, Global>>, NoMemory> {
    let mut bells = Vec::new(alloc);
    for i in 0..sides.len() {
        if let Some(side) = &sides[i] {
            bells.push(Arc::try_clone(side.bell())?)?;
        }
    }
    Ok(bells)
}
