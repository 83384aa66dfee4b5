//! Walks over the slots of a round.
ghost use Rattle.std.specs.Prelude.{◌≡◌, ◌≤◌, ◌+◌, ◌++◌, ◌∷◌, [], length, false, IfOk, OnOk};
ghost use Rattle.std.specs.List.{list_any};
ghost use Rattle.std.specs.Vec.{vec_len, vec_capacity};
ghost use Rattle.ls_turns.specs.Round.{is_of, slots_of};
ghost use Rattle.ls_session.specs.Session.{refs_from, refs_of};
ghost use Rattle.ls_record.specs.declared.TheConstants.{MOST_GROUP_ITEMS};

use ls_subs::{PlanItem, SlotRef};
use ls_turns::Turns;
use ls_value::NoMemory;
use std::alloc::Global;

/// The slots of a subscription's items join as the last, by their places.
pub(crate) fn join_slots(turns: &mut Turns, sub: u32, items: &[PlanItem], slots: &[u32])
    requires spare { length items.now ≤ turns.old.spare }
    requires absent { list_any (is_of sub) turns.old.seats ≡ false }
    requires numbers { length slots.now ≡ length items.now }
    requires few { length items.now ≤ MOST_GROUP_ITEMS }
    ensures { slots_of turns.new ≡ slots_of turns.old ++ refs_from sub 1 items.now slots.now }
{
    for i in 0..items.len() {
        turns.join(SlotRef {
            sub,
            place: i as u32 + 1,
            item: items[i].item,
            slot: slots[i],
        });
    }
}

/// The slots of a subscription, in their order.
pub(crate) fn append_of(alloc: Global, turns: &Turns, sub: u32) -> Result<Vec<SlotRef>, NoMemory>
    ensures { IfOk result (λ slots. slots.items ≡ refs_of sub (slots_of turns.now)) }
{
    let mut found = Vec::new(alloc);
    let mut node = turns.first();
    for _i in 0..turns.len() {
        let Some(here) = node else {
            return Ok(found);
        };
        push_of(&mut found, turns.slot(here), sub)?;
        node = turns.next(here);
    }
    Ok(found)
}

/// Appends a slot that is of a subscription, and no other.
fn push_of(found: &mut Vec<SlotRef>, slot: SlotRef, sub: u32) -> Result<(), NoMemory>
    ensures { OnOk result (found.new.items ≡ found.old.items ++ refs_of sub (slot ∷ [])) }
{
    if sub == slot.sub {
        found.push(slot)?;
    }
    Ok(())
}

/// Appends all slots, in their order.
pub(crate) fn append_slots(slots: &mut Vec<SlotRef>, turns: &Turns)
    requires { vec_len slots.old + length turns.now.seats ≤ vec_capacity slots.old }
    ensures { slots.new.items ≡ slots.old.items ++ slots_of turns.now }
{
    let mut node = turns.first();
    for _i in 0..turns.len() {
        let Some(here) = node else {
            return;
        };
        slots.push_reserved(turns.slot(here));
        node = turns.next(here);
    }
}
