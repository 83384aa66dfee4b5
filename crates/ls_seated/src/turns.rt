//! The steps of a turn on a slot.
ghost use Rattle.std.specs.Prelude.{◌≡◌, ◌++◌, ◌∷◌, [], false, OnOk, OnErr, IsSome, length, option_map};
ghost use mathlib.Core.List.{IsPrefix};
ghost use Rattle.ls_event.specs.Cuts.{cut};
ghost use Rattle.ls_cell.specs.Cell.{last_in};
ghost use Rattle.ls_cell.specs.Numbered.{slot_at, set_slot};
ghost use Rattle.ls_live.specs.Live.{IsWatchOf};
ghost use Rattle.ls_seated.specs.Seats.{IsSeated, IsTied, cuts_of, side_passed, slot_of};

use crate::seat::{ItemSlot, Seat};
use crate::sides::{agree, pass};
use ls_live::{LiveItem, Watch};
use ls_register::House;
use ls_value::NoMemory;

/// Enqueues into a seat's slot until it has every event, and shows the watch the whole history. Both sides then passed
/// the same cuts.
pub fn catch_up_in<N: House>(
    live: &mut LiveItem<N>,
    sides: &mut Vec<Option<ItemSlot<N>>>,
    seat: &mut Seat<N>,
    watch: &mut Watch<N>,
) -> Result<(), NoMemory>
    requires seated { IsSeated live.old sides.old.items }
    requires tied { IsTied (slot_at sides.old.items seat.old.number) seat.old }
    requires watch { IsWatchOf watch.old live.old }
    ensures seated { IsSeated live.new sides.new.items }
    ensures live { live.new ≡ record live.old { cell = live.new.cell } }
    ensures sides { sides.new.items ≡ sides.old.items }
    ensures cuts { OnOk result (cuts_of (slot_at sides.old.items seat.old.number) ≡ seat.old.list) }
    ensures last { OnOk result (last_in live.new.cell seat.old.number ≡ length live.old.history) }
    ensures seat { OnOk result (seat.new ≡ record seat.old { last = length live.old.history; quiet = false }) }
    ensures begins { OnOk result (IsPrefix watch.old.list live.old.history) }
    ensures watch { OnOk result (watch.new ≡ record watch.old { list = live.old.history }) }
    ensures err { OnErr result ((seat.new ≡ seat.old) × (watch.new ≡ watch.old)) }
{
    let Ok(()) = live.catch_up(seat.number()) else {
        return Err(NoMemory);
    };
    agree(sides, seat);
    live.show(watch);
    seat.keep_last(live.number());
    seat.keep_quiet(false);
    Ok(())
}

/// Passes the next cut of a seat's slot, which has every event, on both sides.
pub fn pass_in<N: House>(
    live: &mut LiveItem<N>,
    sides: &mut Vec<Option<ItemSlot<N>>>,
    seat: &mut Seat<N>,
)
    requires seated { IsSeated live.old sides.old.items }
    requires tied { IsTied (slot_at sides.old.items seat.old.number) seat.old }
    requires cuts { cuts_of (slot_at sides.old.items seat.old.number) ≡ seat.old.list }
    requires last { last_in live.old.cell seat.old.number ≡ length live.old.history }
    requires cut { IsSome (cut live.old.history
        (slot_of live.old.shape live.old.history seat.old.plan seat.old.list)) }
    ensures seated { IsSeated live.new sides.new.items }
    ensures live { live.new ≡ record live.old { cell = live.new.cell } }
    ensures sides { sides.new.items ≡ set_slot sides.old.items seat.old.number
        (option_map (side_passed (length live.old.history)) (slot_at sides.old.items seat.old.number)) }
    ensures seat { seat.new ≡ record seat.old {
      list = seat.old.list ++ length live.old.history ∷ [];
      quiet = false;
    } }
    ensures last { last_in live.new.cell seat.old.number ≡ length live.old.history }
{
    live.pass_cut(seat.number());
    let cut = live.number();
    pass(sides, seat, cut);
    seat.keep_quiet(false);
}
