//! Where a slot of a session is found, and how it is caught up with its item.
ghost use Rattle.std.specs.Prelude.{◌≡◌, ◌-◌, ℕ, List, Some, None, IfSome, IfNone, OnOk, OnErr};
ghost use Rattle.std.specs.Prelude.{length, slice_get};
ghost use Rattle.ls_register.specs.declared.told.Told.{Told as Entry};
ghost use Rattle.ls_session.specs.declared.session.Ask.{Ask as Asking};
ghost use Rattle.ls_session.specs.declared.session.Session.{Session as Kept};
ghost use Rattle.ls_session.specs.Record.{Record, Question};
ghost use Rattle.ls_told.specs.Seen.{SeesMore};
ghost use Rattle.ls_taking.specs.Groups.{SubSeen};
ghost use Rattle.ls_taking.specs.Lives.{NoneBehind};
ghost use Rattle.ls_taking.specs.Taking.{IsFound, IsCaught, IsAskedFrom, IsWhole, NoneFrom, caught_up, asked_now};

use crate::seats::SubSeats;
use ls_chron::Chron;
use ls_live::Watch;
use ls_register::{House, Made};
use ls_seated::Seated;
use ls_sight::{find_watch, fits};
use ls_subs::SlotRef;
use ls_value::NoMemory;

/// Where a slot of a session is found: the seats of its subscription among those of all, and the watch of its item.
#[derive(Clone, Copy)]
pub struct Found {
    pub seats: usize,
    pub watch: usize,
}

/// Where a slot is found on an item, by watches and the seats of subscriptions: `None` where the item isn't that of the slot,
/// by their places in the register. It takes no memory.
pub fn find_in<N: House>(
    watches: &mut Vec<Watch<N>>,
    subs: &mut Vec<SubSeats<N>>,
    register: &Chron<Made>,
    item: &mut Seated<N>,
    slot: SlotRef,
) -> Option<Found>
    requires { register.now ≡ N.deed.register }
    ensures watches { watches.new.items ≡ watches.old.items }
    ensures subs { subs.new.items ≡ subs.old.items }
    ensures item { item.new ≡ item.old }
    ensures found { IfSome result (λ f. IsFound N.deed.config watches.old.items subs.old.items f.seats f.watch slot
        item.old) }
{
    if !item.has_item(slot.item) {
        return None;
    }
    let Some(watch) = find_watch(watches, slot.item) else {
        return None;
    };
    let Some(seats) = last_place(subs, slot.sub) else {
        return None;
    };
    if !item.is_watch(register, &mut watches[watch]) {
        return None;
    }
    if !subs[seats].is_seat(register, item, slot.place) {
        return None;
    }
    Some(Found { seats, watch })
}

/// Where the last seats of a subscription stand among those of all; `None` only where it has none.
pub fn last_place<N: House>(subs: &Vec<SubSeats<N>>, sub: u32) -> Option<usize>
    ensures found { IfSome result (λ k. (g : SubSeen) × (slice_get subs.now.items k ≡ Some g) × (g.sub ≡ sub)
        × NoneBehind subs.now.items k sub) }
    ensures none { IfNone result (NoneFrom subs.now.items 0 sub) }
{
    for i in 0..subs.len() {
        let place = subs.len() - 1 - i;
        if subs[place].sub() == sub {
            return Some(place);
        }
    }
    None
}

/// A slot that was found gets every event of its item, and its watch the whole history. After `NoMemory` both are as before.
pub fn catch_up_in<N: House>(
    watches: &mut Vec<Watch<N>>,
    subs: &mut Vec<SubSeats<N>>,
    item: &mut Seated<N>,
    slot: SlotRef,
    found: Found,
) -> Result<(), NoMemory>
    requires found { IsFound N.deed.config watches.old.items subs.old.items found.seats found.watch slot item.old }
    ensures item { item.new.item ≡ record item.old.item { cell = item.new.item.cell } }
    ensures ready { OnOk result (IsCaught subs.new.items found.seats slot item.new) }
    ensures more { SeesMore watches.old.items watches.new.items }
    ensures caught { OnOk result ((number now : ℕ) (es : List Entry) (k : Kept) (r : Record) (q : Question) (ask : Asking)
        → ask.slot ≡ slot → IsAskedFrom N.deed.config number es watches.old.items subs.old.items k r q ask now
        → IsAskedFrom N.deed.config number es watches.new.items subs.new.items k
        (caught_up (length item.old.item.history) r) (asked_now (length item.old.item.history) q) ask now
        × IsWhole N.deed.config watches.new.items (asked_now (length item.old.item.history) q) item.new) }
    ensures err { OnErr result ((watches.new.items ≡ watches.old.items) × (subs.new.items ≡ subs.old.items)) }
{
    let group = &mut subs[found.seats];
    let watch = &mut watches[found.watch];
    let Ok(()) = group.catch_up(item, watch, slot.place) else {
        return Err(NoMemory);
    };
    fits(watch);
    Ok(())
}
