//! The slots of a subscription join its items, and leave them (General Concepts, subscriptions).
ghost use Rattle.std.specs.Prelude.{◌≡◌, ◌≤◌, ◌+◌, ◌++◌, ◌∷◌, List, length, map, IfOk, OnOk, OnErr};
ghost use Rattle.std.specs.Vec.{vec_len, vec_capacity};
ghost use Rattle.ls_record.specs.Records.{Item, LiveSlot};
ghost use Rattle.ls_subs.specs.Standing.{ref_of};
ghost use Rattle.ls_acts.specs.Joining.{Joins, JoinInOrder, JoinedAs, Leave};

use crate::slots::ItemSlots;
use ls_subs::{PlanItem, SlotRef};
use ls_value::NoMemory;
use std::alloc::Global;

/// The items of a plan join in their order: the numbers of their slots. Where one can't join, all is as before.
pub(crate) fn joined<S: ItemSlots>(
    alloc: Global,
    slots: &mut S,
    items: &[PlanItem],
) -> Result<Vec<u32>, NoMemory>
    ensures count { IfOk result (λ numbers. length numbers.items ≡ length items.now) }
    ensures joined { IfOk result (λ numbers. (declared : List Item) (a b vs : List LiveSlot)
        → S.stands slots.old declared (a ++ b) → JoinInOrder declared a b items.now vs
        → (numbers.items ≡ map (λ v. v.number) vs) × S.stands slots.new declared ((a ++ vs) ++ b)) }
    ensures err { OnErr result ((declared : List Item) (lives : List LiveSlot) → S.stands slots.old declared lives
        → S.stands slots.new declared lives) }
{
    let mut numbers = Vec::with_capacity(alloc, items.len())?;
    join_all(slots, items, &mut numbers)?;
    Ok(numbers)
}

/// The items of a plan join in their order; the numbers of their slots follow the others. Where one can't join, those
/// before it leave again, and all is as before.
fn join_all<S: ItemSlots>(
    slots: &mut S,
    items: &[PlanItem],
    numbers: &mut Vec<u32>,
) -> Result<(), NoMemory>
    requires room { vec_len numbers.old + length items.now ≤ vec_capacity numbers.old }
    ensures count { OnOk result (length numbers.new.items ≡ length numbers.old.items + length items.now) }
    ensures joined { OnOk result ((declared : List Item) (a b vs : List LiveSlot)
        → S.stands slots.old declared (a ++ b) → JoinInOrder declared a b items.now vs
        → (numbers.new.items ≡ numbers.old.items ++ map (λ v. v.number) vs)
        × S.stands slots.new declared ((a ++ vs) ++ b)) }
    ensures err { OnErr result ((declared : List Item) (lives : List LiveSlot) → S.stands slots.old declared lives
        → S.stands slots.new declared lives) }
{
    let Some((item, rest)) = items.split_first() else {
        return Ok(());
    };
    let number = join(slots, item)?;
    numbers.push_reserved(number);
    match join_all(slots, rest, numbers) {
        Ok(()) => Ok(()),
        Err(cause) => {
            slots.leave(item.item, number);
            Err(cause)
        }
    }
}

/// An item joins: its slot's number. Where it can't, all is as before.
fn join<S: ItemSlots>(slots: &mut S, item: &PlanItem) -> Result<u32, NoMemory>
    ensures joined { IfOk result (λ number. (declared : List Item) (a b : List LiveSlot) (v : LiveSlot)
        → S.stands slots.old declared (a ++ b) → Joins declared (a ++ b) item.now v
        → (number ≡ v.number) × S.stands slots.new declared (a ++ v ∷ b)) }
    ensures one { IfOk result (λ number. (declared : List Item) (lives : List LiveSlot)
        → S.stands slots.old declared lives → JoinedAs (S.stands slots.new) declared lives item.now.item number) }
    ensures err { OnErr result ((declared : List Item) (lives : List LiveSlot) → S.stands slots.old declared lives
        → S.stands slots.new declared lives) }
{
    let joined = slots.join(item.item, item.mode, item.n, item.snapshot)?;
    match joined {
        Some(number) => Ok(number),
        None => Err(NoMemory),
    }
}

/// Slots leave the items that they are on.
pub(crate) fn leave_all<S: ItemSlots>(slots: &mut S, refs: &[SlotRef])
    ensures { (declared : List Item) (lives left vs : List LiveSlot) → S.stands slots.old declared lives
        → refs.now ≡ map ref_of vs → Leave vs lives left → S.stands slots.new declared left }
{
    for slot in refs {
        slots.leave(slot.item, slot.slot);
    }
}
