//! Linked lists, and the round of a session's slots over them. What a call requires is tested before it.
ghost use Rattle.std.specs.Prelude.{◌≡◌, ◌<◌, ◌==◌, ◌&&◌, length};
ghost use Rattle.ls_links.specs.Chains.{node_at};
ghost use Rattle.ls_turns.specs.Round.{node_of_place, has_slot};

use ls_links::Links;
use ls_turns::{SlotRef, Turns};
use ls_value::NoMemory;
use std::alloc::Global;
use std::test::Fail;

/// The node at a place of a list, from 0, `None` past the last.
fn node_at(links: &Links, list: usize, place: usize) -> Option<usize>
    requires { list < length links.now.lists }
    ensures { result ≡ node_at links.now list place }
{
    let mut next = links.first(list);
    for _ in 0..place {
        match next {
            Some(node) => next = links.next(node),
            None => return None,
        }
    }
    next
}

/// The value at a place of a list, `None` past the last.
pub fn value_at(links: &Links, list: usize, place: usize) -> Option<usize>
    requires { list < length links.now.lists }
{
    match node_at(links, list, place) {
        Some(node) => Some(links.value(node)),
        None => None,
    }
}

/// Whether a list has these values in order, and no more.
fn has_values(links: &Links, list: usize, values: &[usize]) -> bool
    requires { list < length links.now.lists }
{
    for place in 0..values.len() {
        if value_at(links, list, place) != Some(values[place]) {
            return false;
        }
    }
    value_at(links, list, values.len()).is_none()
}

/// Links a node of a value, where there is room. Whether its number is that of the node at a place.
fn push(links: &mut Links, list: usize, place: usize, value: usize) -> bool
    requires { list < length links.old.lists }
    ensures { length links.new.lists ≡ length links.old.lists }
{
    if links.spare() == 0 {
        return false;
    }
    let node = links.push_back(list, value);
    node_at(links, list, place) == Some(node)
}

/// Links a node of each value to an empty list, and answers whether all are linked.
fn push_all(links: &mut Links, list: usize, values: &[usize]) -> bool
    requires { list < length links.old.lists }
    ensures { length links.new.lists ≡ length links.old.lists }
{
    for place in 0..values.len() {
        if !push(links, list, place, values[place]) {
            return false;
        }
    }
    true
}

/// Makes the node at a place the last, where there is one.
fn move_to_back(links: &mut Links, list: usize, place: usize)
    requires { list < length links.old.lists }
    ensures { length links.new.lists ≡ length links.old.lists }
{
    if let Some(node) = node_at(links, list, place) {
        links.move_to_back(node);
    }
}

/// Gives the node at a place another value, where there is one.
fn set_value(links: &mut Links, list: usize, place: usize, value: usize)
    requires { list < length links.old.lists }
    ensures { length links.new.lists ≡ length links.old.lists }
{
    if let Some(node) = node_at(links, list, place) {
        links.set_value(node, value);
    }
}

/// Unlinks the node at a place, and answers its value, `None` where there is no node.
fn unlink(links: &mut Links, list: usize, place: usize) -> Option<usize>
    requires { list < length links.old.lists }
    ensures { length links.new.lists ≡ length links.old.lists }
{
    match node_at(links, list, place) {
        Some(node) => Some(links.unlink(node)),
        None => None,
    }
}

/// Whether three nodes of a list are pushed, one goes to the back, one is unlinked, and one gets another value.
fn a_list_changes(alloc: Global) -> Result<bool, NoMemory> {
    let mut links = Links::new(alloc, 1)?;
    links.reserve(3)?;
    let pushed = push_all(&mut links, 0, &[1, 2, 3]);
    let first = has_values(&links, 0, &[1, 2, 3]) && links.spare() == 0;
    move_to_back(&mut links, 0, 0);
    let moved = has_values(&links, 0, &[2, 3, 1]) && links.spare() == 0;
    let unlinked = unlink(&mut links, 0, 1) == Some(3);
    let last = has_values(&links, 0, &[2, 1]) && links.spare() == 1;
    set_value(&mut links, 0, 1, 4);
    let valued = has_values(&links, 0, &[2, 4]) && links.spare() == 1;
    Ok(pushed && first && moved && unlinked && last && valued)
}

/// Whether a list stays as it is while another one loses its node.
fn lists_are_apart(alloc: Global) -> Result<bool, NoMemory> {
    let mut links = Links::new(alloc, 2)?;
    links.reserve(2)?;
    let pushed = push_all(&mut links, 0, &[7]) && push_all(&mut links, 1, &[8]);
    let before = has_values(&links, 0, &[7]) && has_values(&links, 1, &[8]);
    let unlinked = unlink(&mut links, 0, 0) == Some(7);
    let after = links.first(0).is_none() && has_values(&links, 1, &[8]);
    Ok(pushed && before && unlinked && after)
}

/// Whether less room than there is changes nothing.
fn room_stays(alloc: Global) -> Result<bool, NoMemory> {
    let mut links = Links::new(alloc, 1)?;
    links.reserve(2)?;
    links.reserve(1)?;
    Ok(links.spare() == 2)
}

#[test]
fn lists_are_linked(rt: HostRuntime) -> Result<(), Fail> {
    assert!(rt; a_list_changes(rt.alloc())?);
    assert!(rt; lists_are_apart(rt.alloc())? && room_stays(rt.alloc())?);
    Ok(())
}

/// A slot of a place in a subscription.
fn slot(sub: u32, place: u32) -> SlotRef {
    SlotRef {
        sub,
        place,
        item: place,
        slot: sub,
    }
}

/// Whether a slot is of a place in a subscription.
fn is_of(slot: SlotRef, sub: u32, place: u32) -> bool
    ensures { result ≡ (slot.sub == sub && slot.place == place) }
{
    slot.sub == sub && slot.place == place
}

/// Whether the slot of a place in a subscription is in the round.
fn has(turns: &Turns, sub: u32, place: u32) -> bool
    ensures { result ≡ has_slot sub place turns.now }
{
    for i in 0..turns.len() {
        let Some(slot) = turns.get(i) else {
            return false;
        };
        if is_of(slot, sub, place) {
            return true;
        }
    }
    false
}

/// A slot joins, where there is room and it isn't in the round.
fn join(turns: &mut Turns, slot: SlotRef) -> bool {
    if turns.spare() == 0 {
        return false;
    }
    if has(turns, slot.sub, slot.place) {
        return false;
    }
    turns.join(slot);
    true
}

/// A slot gave a line, where it is in the round.
fn gave(turns: &mut Turns, slot: SlotRef) -> bool {
    if has(turns, slot.sub, slot.place) {
        turns.gave(&slot);
        return true;
    }
    false
}

/// Whether a round has these slots, by subscription and place, in order, and no more.
fn has_slots(turns: &Turns, slots: &[(u32, u32)]) -> bool {
    for i in 0..slots.len() {
        let (sub, place) = slots[i];
        if turns.get(i) != Some(slot(sub, place)) {
            return false;
        }
    }
    turns.get(slots.len()).is_none() && turns.len() == slots.len()
}

/// The round 1.1 1.2 2.1.
fn three(alloc: Global) -> Result<Turns, Fail> {
    let mut turns = Turns::new(alloc)?;
    turns.reserve(3)?;
    for (sub, place) in [(1, 1), (1, 2), (2, 1)] {
        if !join(&mut turns, slot(sub, place)) {
            return Err(Fail::new("a slot doesn't join"));
        }
    }
    Ok(turns)
}

/// Whether a slot that gave goes to the back, and those of a subscription leave, whose room counts from `reserve` on.
fn a_round_changes(alloc: Global) -> Result<bool, Fail> {
    let mut turns = three(alloc)?;
    let first = has_slots(&turns, &[(1, 1), (1, 2), (2, 1)]) && turns.spare() == 0;
    let given = gave(&mut turns, slot(1, 1)) && has_slots(&turns, &[(1, 2), (2, 1), (1, 1)]);
    turns.leave(1);
    let left = has_slots(&turns, &[(2, 1)]) && turns.spare() == 0;
    turns.reserve(2)?;
    let joined = join(&mut turns, slot(1, 1)) && has_slots(&turns, &[(2, 1), (1, 1)]);
    Ok(first && given && left && joined)
}

/// Whether a subscription that isn't there leaves all as it is, and no slot is left of a round that is cleared.
fn a_round_is_cleared(alloc: Global) -> Result<bool, Fail> {
    let mut turns = three(alloc)?;
    turns.leave(3);
    let same = has_slots(&turns, &[(1, 1), (1, 2), (2, 1)]) && turns.spare() == 0;
    turns.clear();
    Ok(same && turns.is_empty() && turns.first().is_none() && has_slots(&turns, &[]))
}

/// The node of the slot at a place of the round, from 0, `None` past the last.
fn node_of(turns: &Turns, place: usize) -> Option<usize>
    ensures { result ≡ node_of_place turns.now place }
{
    let mut next = turns.first();
    for _ in 0..place {
        match next {
            Some(node) => next = turns.next(node),
            None => return None,
        }
    }
    next
}

/// The slot at a place by its node.
fn slot_of(turns: &Turns, place: usize) -> Option<SlotRef> {
    match node_of(turns, place) {
        Some(node) => Some(turns.slot(node)),
        None => None,
    }
}

/// The value of the node at a place.
fn value_of(turns: &Turns, place: usize) -> Option<usize> {
    match node_of(turns, place) {
        Some(node) => Some(turns.links().value(node)),
        None => None,
    }
}

/// The slot at a place by the value of its node.
fn slot_of_value(turns: &Turns, place: usize) -> Option<SlotRef> {
    match value_of(turns, place) {
        Some(value) => turns.at(value),
        None => None,
    }
}

/// Whether the slots by their nodes, and by the values of these, are those by place, and past the last none.
fn are_found(turns: &Turns) -> bool {
    for place in 0..turns.len() {
        let slot = turns.get(place);
        if slot.is_none() || slot_of(turns, place) != slot || slot_of_value(turns, place) != slot {
            return false;
        }
    }
    node_of(turns, turns.len()).is_none()
}

/// Whether the slots of a round are found, and no slot by the value of one that left, or by a value past all.
fn slots_are_found(alloc: Global) -> Result<bool, Fail> {
    let mut turns = three(alloc)?;
    let found = are_found(&turns) && turns.at(3).is_none();
    let value = value_of(&turns, 0).unwrap_or(3);
    turns.leave(1);
    Ok(found && are_found(&turns) && value < 3 && turns.at(value).is_none())
}

#[test]
fn a_round_is_asked_in_order(rt: HostRuntime) -> Result<(), Fail> {
    assert!(rt; a_round_changes(rt.alloc())?);
    assert!(rt; a_round_is_cleared(rt.alloc())? && slots_are_found(rt.alloc())?);
    Ok(())
}
