//! Slots by number.
ghost use Rattle.std.specs.Prelude.{◌≡◌, ◌+◌, ◌-◌, ◌<◌, ◌≤◌, ◌^◌, ℕ, List, [], Option, None, Some, IfOk, OnOk, OnErr};
ghost use Rattle.std.specs.Prelude.{IsSome, IsTrue, All, take, drop, length, option_and_then, is_some, false};
ghost use Rattle.std.specs.Option.{ForSome, option_map_or};
ghost use Rattle.ls_event.specs.declared.event.Entry.{Entry};
ghost use Rattle.ls_event.specs.declared.event.Taken.{Taken as ATaken};
ghost use Rattle.ls_event.specs.History.{HasFields, RowFits};
ghost use Rattle.ls_event.specs.declared.limits.TheConstants.{MOST_SLOTS};
ghost use Rattle.ls_event.specs.Shapes.{Shape};
ghost use Rattle.ls_value.specs.declared.limits.TheConstants.{GREATEST_NUMBER};
ghost use Rattle.ls_event.specs.Slots.{Slot, IsNext, enqueued, passed};
ghost use Rattle.ls_event.specs.Cuts.{cut, Fits};
ghost use Rattle.ls_merge.specs.Runs.{IsRun};
ghost use Rattle.ls_cell.specs.Any.{any_last, any_cut, any_pending, AnyAdmits};
ghost use Rattle.ls_cell.specs.Numbered.{slot_at, set_slot, free_number, put_slot, live_slots, IsAt, EachSlot, lags};
ghost use Rattle.ls_cell.specs.Numbered.{first_lagging, StandsAt, StandsAll};
ghost use Rattle.ls_cell.specs.Standing.{IsSlotOf, StandsSlot, last_at};

use crate::any::AnyBuffer;
use ls_event::{Buffer, MOST_LAG, Stored, Taken};
use ls_value::NoMemory;
use std::alloc::Global;
use std::collections::VecDeque;
use std::marker::Model;

/// The slots of an item by number, from 1 on: each one that is live has its buffer.
///
/// `live` is how many are live, so that no call has to count them. No slot at an index below `first` is free, so that a
/// slot that joins looks for its number from there on: one step where slots join in a row, and after some have left
/// the steps from the least of these. No live slot has a last number below `least`, so that no slot is looked at while that
/// one lags by less than [`MOST_LAG`].
#[derive(Drop)]
pub struct Slots {
    slots: Vec<Option<AnyBuffer>>,
    live: u32,
    first: usize,
    least: u64,
}

impl Model for Slots {
    ghost use Rattle.std.specs.Prelude.{List, Option, ◌≡◌, ◌<◌, ◌≤◌, length};
    ghost use Rattle.ls_cell.specs.declared.any.AnyBuffer.{AnyBuffer as ABuffer};
    ghost use Rattle.ls_cell.specs.Any.{any_last};
    ghost use Rattle.ls_cell.specs.Numbered.{live_slots, free_number, EachSlot};
    ghost use Rattle.ls_event.specs.declared.limits.TheConstants.{MOST_SLOTS};

    ghost Value = { List (Option ABuffer) };

    ghost view = { λ t. t.slots.items };

    ghost invariant = { λ t. (length t.slots.items ≤ MOST_SLOTS) × (t.live ≡ live_slots t.slots.items)
        × (t.first < free_number t.slots.items) × EachSlot (λ b. t.least ≤ any_last b) t.slots.items };
}

impl Slots {
    /// No slot.
    pub fn new(alloc: Global) -> Slots
        ensures { result ≡ [] }
    {
        Slots {
            slots: Vec::new(alloc),
            live: 0,
            first: 0,
            least: 0,
        }
    }

    /// How many slots are live.
    pub fn live(&self) -> u32
        ensures { result ≡ live_slots self.now }
    {
        self.live
    }

    /// Whether a slot of this number is live.
    pub fn has(&self, slot: u32) -> bool
        ensures { result ≡ is_some (slot_at self.now slot) }
    {
        slot > 0 && is_live(&self.slots, slot as usize - 1)
    }

    /// The number that was enqueued last into a live slot.
    #[tactic(auto, using(crate::proofs::Changes::slot_read, crate::proofs::Changes::read_live))]
    pub fn last(&self, slot: u32) -> u64
        requires { IsSome (slot_at self.now slot) }
        ensures { result ≡ last_at (slot_at self.now slot) }
    {
        last_of(&self.slots[slot as usize - 1])
    }

    /// Whether a live slot is pending.
    #[tactic(auto, using(crate::proofs::Changes::slot_read, crate::proofs::Changes::read_live))]
    pub fn pending(&self, slot: u32) -> bool
        requires { IsSome (slot_at self.now slot) }
        ensures { result ≡ option_map_or any_pending (slot_at self.now slot) false }
    {
        is_pending(&self.slots[slot as usize - 1])
    }

    /// The next cut of a live slot.
    pub fn look(&self, slot: u32) -> Result<Option<Taken>, NoMemory>
        requires { IsSome (slot_at self.now slot) }
        ensures head { IfOk result (λ t. t ≡ option_and_then any_cut (slot_at self.now slot)) }
        ensures fits { IfOk result (λ t. (p : Shape) (number kept : ℕ) → EachSlot (IsSlotOf p number kept) self.now
            → Fits p.fields t) }
    {
        let taken = look_at(&self.slots[slot as usize - 1])?;
        Ok(taken)
    }

    /// Takes the event of the next number into a live slot. After `NoMemory` all is as before.
    pub fn enqueue(&mut self, slot: u32, event: &Stored) -> Result<(), NoMemory>
        requires live { IsSome (slot_at self.old slot) }
        requires next { event.now.no ≡ last_at (slot_at self.old slot) + 1 }
        requires few { event.now.no ≤ GREATEST_NUMBER }
        requires admits { ForSome (slot_at self.old slot) (λ b. AnyAdmits b event.now.event) }
        ensures one { OnOk result (self.new ≡ set_slot self.old slot (slot_at self.new slot)) }
        ensures live { OnOk result (IsSome (slot_at self.new slot)) }
        ensures last { OnOk result (last_at (slot_at self.new slot) ≡ event.now.no) }
        ensures sound { OnOk result ((p : Shape) (number kept : ℕ) → event.now.no ≤ number
            → HasFields p.fields event.now.event → RowFits p.fields event.now.after
            → EachSlot (IsSlotOf p number kept) self.old → EachSlot (IsSlotOf p number kept) self.new) }
        ensures stands { OnOk result ((p : Shape) (ss : List (Option Slot)) (h : List Entry) (s : Slot)
            → StandsAll (StandsSlot p) self.old ss h
            → slot_at ss slot ≡ Some s → IsNext s h event.now → StandsAll (StandsSlot p) self.new
            (set_slot ss slot (Some (enqueued s))) h) }
        ensures err { OnErr result (self.new ≡ self.old) }
    {
        enqueue_at(&mut self.slots[slot as usize - 1], event)?;
        Ok(())
    }

    /// Has a live slot take the events from an index on, which are those of the next numbers, all at once, where it can.
    /// Answers how many it took. After `NoMemory` all is as before.
    pub fn enqueue_run(
        &mut self,
        slot: u32,
        events: &VecDeque<Stored>,
        from: usize,
    ) -> Result<usize, NoMemory>
        requires live { IsSome (slot_at self.old slot) }
        requires few { last_at (slot_at self.old slot) + (length events.now.items - from) ≤ GREATEST_NUMBER }
        requires admits { ForSome (slot_at self.old slot)
            (λ b. All (λ x. AnyAdmits b x.event) (drop from events.now.items)) }
        ensures one { OnOk result (self.new ≡ set_slot self.old slot (slot_at self.new slot)) }
        ensures live { OnOk result (IsSome (slot_at self.new slot)) }
        ensures most { IfOk result (λ n. n ≤ length events.now.items - from) }
        ensures last { IfOk result (λ n. last_at (slot_at self.new slot) ≡ last_at (slot_at self.old slot) + n) }
        ensures sound { IfOk result (λ n. (p : Shape) (number kept : ℕ) → last_at (slot_at self.old slot) + n ≤ number
            → EachSlot (IsSlotOf p number kept) self.old → EachSlot (IsSlotOf p number kept) self.new) }
        ensures stands { IfOk result (λ n. (p : Shape) (ss : List (Option Slot)) (h : List Entry) (s : Slot)
            → StandsAll (StandsSlot p) self.old ss h → slot_at ss slot ≡ Some s
            → IsRun s h (take n (drop from events.now.items)) → StandsAll (StandsSlot p) self.new
            (set_slot ss slot (Some (record s { last = s.last + n }))) h) }
        ensures err { OnErr result (self.new ≡ self.old) }
    {
        let taken = enqueue_run_at(&mut self.slots[slot as usize - 1], events, from)?;
        Ok(taken)
    }

    /// Moves a live slot past its next cut, of which there is one. It takes no memory.
    pub fn pass(&mut self, slot: u32)
        requires { IsSome (option_and_then any_cut (slot_at self.old slot)) }
        ensures one { self.new ≡ set_slot self.old slot (slot_at self.new slot) }
        ensures live { IsSome (slot_at self.new slot) }
        ensures last { last_at (slot_at self.new slot) ≡ last_at (slot_at self.old slot) }
        ensures sound { (p : Shape) (number kept : ℕ) → EachSlot (IsSlotOf p number kept) self.old
            → EachSlot (IsSlotOf p number kept) self.new }
        ensures stands { (p : Shape) (ss : List (Option Slot)) (h : List Entry) (s : Slot) (t : ATaken)
            → StandsAll (StandsSlot p) self.old ss h
            → slot_at ss slot ≡ Some s → cut h s ≡ Some t → StandsAll (StandsSlot p) self.new
            (set_slot ss slot (Some (passed s t))) h }
    {
        pass_at(&mut self.slots[slot as usize - 1]);
    }

    /// The least slot that lags by [`MOST_LAG`] behind so many events.
    pub fn lagging(&self, number: u64) -> Option<u32>
        ensures { result ≡ first_lagging any_last number 1 self.now }
    {
        if keeps_up(self.least, number) {
            None
        } else {
            first_lagging(&self.slots, number)
        }
    }

    /// Looks at all slots, where one may lag by [`MOST_LAG`] behind so many events, so that `lagging` need not look at any
    /// until the slowest of them may lag so.
    pub fn settle(&mut self, number: u64)
        ensures { self.new ≡ self.old }
    {
        if !keeps_up(self.least, number) {
            self.least = least_last(&self.slots, number);
        }
    }

    /// Drops a live slot.
    pub fn leave(&mut self, slot: u32)
        requires { IsSome (slot_at self.old slot) }
        ensures { self.new ≡ set_slot self.old slot None }
    {
        let index = slot as usize - 1;
        self.slots[index] = None;
        self.live -= 1;
        self.first = self.first.min(index);
    }

    /// Puts a slot at the least free number, which it answers. After `NoMemory` all is as before.
    #[tactic(auto, using(crate::proofs::Changes::free_low))]
    pub fn join(&mut self, buffer: AnyBuffer) -> Result<u32, NoMemory>
        requires { live_slots self.old < MOST_SLOTS }
        ensures number { IfOk result (λ n. n ≡ free_number self.old) }
        ensures ok { OnOk result (self.new ≡ put_slot self.old buffer) }
        ensures err { OnErr result (self.new ≡ self.old) }
    {
        let index = free_from(&self.slots, self.first);
        let last = buffer.last();
        put(&mut self.slots, index, buffer)?;
        self.least = self.least.min(last);
        self.live += 1;
        self.first = index + 1;
        Ok(index as u32 + 1)
    }
}

/// Whether there is a slot at an index.
fn is_live(slots: &[Option<AnyBuffer>], index: usize) -> bool
    ensures { result ≡ is_some (slot_at slots.now (index + 1)) }
{
    matches!(slots.get(index), Some(Some(_)))
}

/// The number that was enqueued last into a live slot.
fn last_of(slot: &Option<AnyBuffer>) -> u64
    requires { IsSome slot.now }
    ensures { result ≡ last_at slot.now }
{
    match slot {
        None => unreachable!(),
        Some(buffer) => buffer.last(),
    }
}

/// Whether a live slot is pending.
fn is_pending(slot: &Option<AnyBuffer>) -> bool
    requires { IsSome slot.now }
    ensures { result ≡ option_map_or any_pending slot.now false }
{
    match slot {
        None => unreachable!(),
        Some(buffer) => Buffer::pending(buffer),
    }
}

/// The next cut of a live slot.
fn look_at(slot: &Option<AnyBuffer>) -> Result<Option<Taken>, NoMemory>
    requires { IsSome slot.now }
    ensures head { IfOk result (λ t. t ≡ option_and_then any_cut slot.now) }
    ensures fits { IfOk result (λ t. (p : Shape) (number kept : ℕ) → IsAt (IsSlotOf p number kept) slot.now
        → Fits p.fields t) }
{
    match slot {
        None => unreachable!(),
        Some(buffer) => {
            let taken = Buffer::look(buffer)?;
            Ok(taken)
        }
    }
}

/// Takes the event of the next number into a live slot.
fn enqueue_at(slot: &mut Option<AnyBuffer>, event: &Stored) -> Result<(), NoMemory>
    requires live { IsSome slot.old }
    requires next { event.now.no ≡ last_at slot.old + 1 }
    requires few { event.now.no ≤ GREATEST_NUMBER }
    requires admits { ForSome slot.old (λ b. AnyAdmits b event.now.event) }
    ensures live { OnOk result (IsSome slot.new) }
    ensures last { OnOk result (last_at slot.new ≡ event.now.no) }
    ensures sound { OnOk result ((p : Shape) (number kept : ℕ) → event.now.no ≤ number
        → HasFields p.fields event.now.event → RowFits p.fields event.now.after
        → IsAt (IsSlotOf p number kept) slot.old → IsAt (IsSlotOf p number kept) slot.new) }
    ensures stands { OnOk result ((p : Shape) (s : Slot) (h : List Entry) → StandsAt (StandsSlot p) slot.old (Some s) h
        → IsNext s h event.now
        → StandsAt (StandsSlot p) slot.new (Some (enqueued s)) h) }
    ensures err { OnErr result (slot.new ≡ slot.old) }
{
    match slot {
        None => unreachable!(),
        Some(buffer) => {
            Buffer::enqueue(buffer, event)?;
            Ok(())
        }
    }
}

/// Has a live slot take the events from an index on all at once, where it can; how many it took.
fn enqueue_run_at(
    slot: &mut Option<AnyBuffer>,
    events: &VecDeque<Stored>,
    from: usize,
) -> Result<usize, NoMemory>
    requires live { IsSome slot.old }
    requires few { last_at slot.old + (length events.now.items - from) ≤ GREATEST_NUMBER }
    requires admits { ForSome slot.old (λ b. All (λ x. AnyAdmits b x.event) (drop from events.now.items)) }
    ensures live { OnOk result (IsSome slot.new) }
    ensures most { IfOk result (λ n. n ≤ length events.now.items - from) }
    ensures last { IfOk result (λ n. last_at slot.new ≡ last_at slot.old + n) }
    ensures sound { IfOk result (λ n. (p : Shape) (number kept : ℕ) → last_at slot.old + n ≤ number
        → IsAt (IsSlotOf p number kept) slot.old → IsAt (IsSlotOf p number kept) slot.new) }
    ensures stands { IfOk result (λ n. (p : Shape) (s : Slot) (h : List Entry)
        → StandsAt (StandsSlot p) slot.old (Some s) h → IsRun s h (take n (drop from events.now.items))
        → StandsAt (StandsSlot p) slot.new (Some (record s { last = s.last + n })) h) }
    ensures err { OnErr result (slot.new ≡ slot.old) }
{
    match slot {
        None => unreachable!(),
        Some(buffer) => {
            let taken = buffer.enqueue_run(events, from)?;
            Ok(taken)
        }
    }
}

/// Moves a live slot past its next cut, of which there is one.
fn pass_at(slot: &mut Option<AnyBuffer>)
    requires { IsSome (option_and_then any_cut slot.old) }
    ensures live { IsSome slot.new }
    ensures last { last_at slot.new ≡ last_at slot.old }
    ensures sound { (p : Shape) (number kept : ℕ) → IsAt (IsSlotOf p number kept) slot.old
        → IsAt (IsSlotOf p number kept) slot.new }
    ensures stands { (p : Shape) (s : Slot) (h : List Entry) (t : ATaken) → StandsAt (StandsSlot p) slot.old (Some s) h
        → cut h s ≡ Some t
        → StandsAt (StandsSlot p) slot.new (Some (passed s t)) h }
{
    match slot {
        None => unreachable!(),
        Some(buffer) => Buffer::pass(buffer),
    }
}

/// Whether a slot with this last number lags by less than [`MOST_LAG`] behind so many events.
fn keeps_up(last: u64, number: u64) -> bool
    ensures { IsTrue result → number < last + MOST_LAG }
{
    number < MOST_LAG || number - MOST_LAG < last
}

/// The least number that was enqueued last into a slot, and no greater one than `most`.
fn least_last(slots: &[Option<AnyBuffer>], most: u64) -> u64
    ensures { EachSlot (λ b. result ≤ any_last b) slots.now }
{
    let mut least = most;
    for i in 0..slots.len() {
        least = least_of(&slots[i], least);
    }
    least
}

/// The lesser one of a slot's last number, if there is one, and another number.
fn least_of(slot: &Option<AnyBuffer>, other: u64) -> u64
    ensures slot { IsAt (λ b. result ≤ any_last b) slot.now }
    ensures other { result ≤ other }
{
    match slot {
        None => other,
        Some(buffer) => other.min(buffer.last()),
    }
}

/// The least number of a slot that lags by [`MOST_LAG`].
fn first_lagging(slots: &[Option<AnyBuffer>], number: u64) -> Option<u32>
    requires { length slots.now ≤ MOST_SLOTS }
    ensures { result ≡ first_lagging any_last number 1 slots.now }
{
    for i in 0..slots.len() {
        if is_lagging(&slots[i], number) {
            return Some(i as u32 + 1);
        }
    }
    None
}

/// Whether a slot lags by [`MOST_LAG`], if there is one.
fn is_lagging(slot: &Option<AnyBuffer>, number: u64) -> bool
    ensures { result ≡ lags any_last number slot.now }
{
    match slot {
        None => false,
        Some(buffer) => number >= MOST_LAG && number - MOST_LAG >= buffer.last(),
    }
}

/// The first free index, where none below `from` is free.
fn free_from(slots: &[Option<AnyBuffer>], from: usize) -> usize
    requires { from < free_number slots.now }
    ensures { result + 1 ≡ free_number slots.now }
{
    for i in from..slots.len() {
        if slots[i].is_none() {
            return i;
        }
    }
    slots.len()
}

/// Puts a slot at the first free index.
fn put(slots: &mut Vec<Option<AnyBuffer>>, index: usize, buffer: AnyBuffer) -> Result<(), NoMemory>
    requires { index + 1 ≡ free_number slots.old.items }
    ensures ok { OnOk result (slots.new.items ≡ put_slot slots.old.items buffer) }
    ensures err { OnErr result (slots.new.items ≡ slots.old.items) }
{
    if index < slots.len() {
        slots[index] = Some(buffer);
    } else {
        slots.push(Some(buffer))?;
    }
    Ok(())
}
