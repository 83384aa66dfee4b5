//! Slots that join an item, and slots that leave it.
ghost use Rattle.std.specs.Prelude.{◌≡◌, ◌≢◌, ◌<◌, ◌≤◌, ◌^◌, ◌+◌, ◌++◌, ◌∷◌, [], ℕ, true, false, nat_le, length, None};
ghost use Rattle.std.specs.Prelude.{IfOk, IfErr, OnOk, OnErr, IsTrue, IsFalse, IsSome};
ghost use Rattle.std.specs.Vec.{vec_capacity};
ghost use mathlib.Core.List.{IsPrefix};
ghost use Rattle.ls_event.specs.declared.limits.TheConstants.{MOST_BUFFER_SIZE, MOST_SLOTS as MOST};
ghost use Rattle.ls_event.specs.Joining.{is_mode_of};
ghost use Rattle.ls_cell.specs.Numbered.{slot_at, set_slot, put_slot, free_number, live_slots};
ghost use Rattle.ls_register.specs.declared.made.Made.TheVariants.{Slot as SlotMade};
ghost use Rattle.ls_live.specs.Live.{IsWatchOf};
ghost use Rattle.ls_seated.specs.Seats.{IsSeated, IsTied, IsJoinCause, joined_seat, joined_side, planned_at};

use crate::planned::{JoinRefused, Planned};
use crate::seat::{ItemSlot, Seat};
use crate::sides::{bells_of, bells_with, clear, is_side, put};
use ls_bell::Bell;
use ls_chron::Chron;
use ls_event::{MOST_SLOTS, Mode, Snap};
use ls_live::{LiveItem, Watch};
use ls_pair::{ItemSide, SessionSide, Tie};
use ls_register::{Book, House, Made};
use ls_value::NoMemory;
use std::alloc::Global;
use std::sync::Arc;

/// What is asked of a slot that joins: its mode, its buffer's size, the snapshot, and for which rank of which
/// subscription it is.
#[derive(Clone, Copy)]
pub struct Asked {
    pub mode: Mode,
    pub size: u32,
    pub snapshot: Snap,
    pub sub: u32,
    pub rank: u32,
}

/// The memory of a slot that joins: its tie, and the list of bells with the session's.
#[derive(Drop)]
struct Ready {
    tie: Tie<u64>,
    item: ItemSide<u64>,
    session: SessionSide<u64>,
    bells: Arc<Vec<Arc<Bell, Global>>, Global>,
    bell: Arc<Bell, Global>,
}

/// Joins a slot behind the whole history. The bells get the session's.
pub fn join_in<N: House, H: Drop>(
    alloc: Global,
    live: &mut LiveItem<N>,
    sides: &mut Vec<Option<ItemSlot<N>>>,
    bells: &mut Arc<Vec<Arc<Bell, Global>>, Global>,
    register: &Chron<Made>,
    book: &mut Book<N, H>,
    asked: Asked,
    watch: &mut Watch<N>,
    bell: Arc<Bell, Global>,
) -> Result<Seat<N>, JoinRefused>
    requires register { register.now ≡ N.deed.register }
    requires mode { is_mode_of asked.mode live.old.shape.kind ≡ true }
    requires some { 0 < asked.size }
    requires most { asked.size ≤ MOST_BUFFER_SIZE }
    requires watch { IsWatchOf watch.old live.old }
    requires seated { IsSeated live.old sides.old.items }
    ensures live { live.new ≡ record live.old { cell = live.new.cell } }
    ensures seated { IsSeated live.new sides.new.items }
    ensures seat { IfOk result (λ t. t ≡ joined_seat asked.sub asked.rank live.old.item t.number
        (planned_at asked.mode asked.size asked.snapshot (length live.old.history)) t.table) }
    ensures number { IfOk result (λ t. t.number ≡ free_number sides.old.items) }
    ensures sides { IfOk result (λ t. sides.new.items ≡ put_slot sides.old.items (joined_side t)) }
    ensures book { IfOk result (λ t. book.new ≡ book.old ++ SlotMade live.old.item t.number t.table ∷ []) }
    ensures begins { OnOk result (IsPrefix watch.old.list live.old.history) }
    ensures watch { OnOk result (watch.new ≡ record watch.old { list = live.old.history }) }
    ensures cause { IfErr result (IsJoinCause (live_slots live.old.cell.slots) (length book.old)) }
    ensures few { OnOk result (live_slots live.old.cell.slots < MOST) }
    ensures err { OnErr result ((live.new ≡ live.old) × (sides.new.items ≡ sides.old.items)
        × (watch.new ≡ watch.old) × (book.new ≡ book.old)) }
{
    if live.slots() as usize >= MOST_SLOTS {
        return Err(JoinRefused::Full);
    }
    if book.is_spent() {
        return Err(JoinRefused::Spent);
    }
    let Ok(ready) = prepare(alloc, sides, bell) else {
        return Err(JoinRefused::NoMemory);
    };
    let base = live.number();
    let Ok(joined) = live.join(asked.mode, asked.size, asked.snapshot) else {
        return Err(JoinRefused::NoMemory);
    };
    live.show(watch);
    Ok(seat_in(
        sides,
        bells,
        register,
        book,
        live.item(),
        joined.slot,
        base,
        asked,
        ready,
    ))
}

/// Takes the memory of a slot that joins, and room for its side.
fn prepare<N: House>(
    alloc: Global,
    sides: &mut Vec<Option<ItemSlot<N>>>,
    bell: Arc<Bell, Global>,
) -> Result<Ready, NoMemory>
    ensures tie { IfOk result (λ r. (r.item.table ≡ r.tie) × (r.item.list ≡ [])
        × (r.session.table ≡ r.tie) × (r.session.list ≡ [])) }
    ensures room { OnOk result (length sides.new.items < vec_capacity sides.new) }
    ensures same { sides.new.items ≡ sides.old.items }
{
    sides.reserve(1)?;
    let bells = bells_with(alloc, sides.as_slice(), &bell)?;
    let (tie, item, session) = Tie::start(alloc)?;
    Ok(Ready {
        tie,
        item,
        session,
        bells,
        bell,
    })
}

/// Puts the item's side of a slot to the others, and answers the session's. The register then says which slot it is.
fn seat_in<N: House, H: Drop>(
    sides: &mut Vec<Option<ItemSlot<N>>>,
    bells: &mut Arc<Vec<Arc<Bell, Global>>, Global>,
    register: &Chron<Made>,
    book: &mut Book<N, H>,
    item: u32,
    number: u32,
    base: u64,
    asked: Asked,
    ready: Ready,
) -> Seat<N>
    requires register { register.now ≡ N.deed.register }
    requires number { number ≡ free_number sides.old.items }
    requires room { length sides.old.items < vec_capacity sides.old }
    requires few { length book.old < 2 ^ 60 }
    requires tie { (ready.item.table ≡ ready.tie) × (ready.item.list ≡ [])
        × (ready.session.table ≡ ready.tie) × (ready.session.list ≡ []) }
    ensures seat { result ≡ joined_seat asked.sub asked.rank item number
        (planned_at asked.mode asked.size asked.snapshot base) result.table }
    ensures sides { sides.new.items ≡ put_slot sides.old.items (joined_side result) }
    ensures book { book.new ≡ book.old ++ SlotMade item number result.table ∷ [] }
{
    let Ready {
        tie,
        item: mut side,
        session,
        bells: more,
        bell,
    } = ready;
    let table = tie.sign(&mut side);
    let mut place = book.add_slot(register, item, number, table);
    let again = place.again(register);
    let plan = Planned {
        mode: asked.mode,
        size: asked.size,
        base,
        snapshot: asked.snapshot,
    };
    let index = index_of(number);
    put(sides, index, ItemSlot::joined(plan, tie, side, place, bell));
    *bells = more;
    Seat::joined(asked.sub, asked.rank, item, number, plan, session, again)
}

/// The index of a number from 1.
fn index_of(number: u32) -> usize
    requires { 0 < number }
    ensures { result + 1 ≡ number }
{
    number as usize - 1
}

/// Drops the slot of a seat, if it has one here, and says whether it had.
pub fn leave_in<N: House>(
    alloc: Global,
    live: &mut LiveItem<N>,
    sides: &mut Vec<Option<ItemSlot<N>>>,
    bells: &mut Arc<Vec<Arc<Bell, Global>>, Global>,
    register: &Chron<Made>,
    seat: &mut Seat<N>,
) -> bool
    requires register { register.now ≡ N.deed.register }
    requires seated { IsSeated live.old sides.old.items }
    ensures live { live.new ≡ record live.old { cell = live.new.cell } }
    ensures seated { IsSeated live.new sides.new.items }
    ensures seat { seat.new ≡ seat.old }
    ensures gone { IsTrue result → IsTied (slot_at sides.old.items seat.old.number) seat.old
        × (sides.new.items ≡ set_slot sides.old.items seat.old.number None) }
    ensures stays { IsFalse result → (live.new ≡ live.old) × (sides.new.items ≡ sides.old.items) }
{
    if is_side(sides, register, seat) {
        drop_slot(live, sides, seat.number());
        if let Ok(fewer) = bells_of(alloc, sides.as_slice()) {
            *bells = fewer;
        }
        true
    } else {
        false
    }
}

/// Drops the slot of a number with its side.
fn drop_slot<N: House>(live: &mut LiveItem<N>, sides: &mut Vec<Option<ItemSlot<N>>>, number: u32)
    requires seated { IsSeated live.old sides.old.items }
    requires side { IsSome (slot_at sides.old.items number) }
    ensures live { live.new ≡ record live.old { cell = live.new.cell } }
    ensures seated { IsSeated live.new sides.new.items }
    ensures sides { sides.new.items ≡ set_slot sides.old.items number None }
{
    live.leave(number);
    clear(sides, number);
}
