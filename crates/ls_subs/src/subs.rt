//! The live subscriptions of a session, and what its client has by their lines (TLCP 2.1, subscriptions).
ghost use Rattle.std.specs.Prelude.{◌≡◌, ◌==◌, ◌≤◌, ℕ, List, [], ◌∷◌, ◌++◌, length, Bool, false, None, Option, IfOk};
ghost use Rattle.std.specs.Prelude.{OnOk, OnErr};
ghost use Rattle.std.specs.Prelude.{IsErrOf, Ok, Some, option_map, is_some};
ghost use Rattle.std.specs.Prelude.{◌<◌, map, slice_get};
ghost use Rattle.std.specs.Option.{ForSome};
ghost use Rattle.ls_budget.specs.Budget.{frequency_tick};
ghost use Rattle.ls_budget.specs.Due.{due_at};
ghost use Rattle.ls_budget.specs.Kept.{StandsFrequency};
ghost use Rattle.ls_budget.specs.declared.due.Due.TheVariants as due;
ghost use Rattle.ls_value.specs.declared.limits.TheConstants.{GREATEST_TICK};
ghost use Rattle.ls_mirror.specs.declared.command.KeyPlaces.{KeyPlaces as Keys};
ghost use Rattle.ls_event.specs.declared.event.Snap.{Snap};
ghost use Rattle.ls_record.specs.Lines.{Line, Begins, Ends, Configures, updated};
ghost use Rattle.ls_record.specs.Records.{LiveSlot, live_at, is_used, with_frequency, without};
ghost use Rattle.ls_record.specs.Acting.{subscriptions};
ghost use Rattle.ls_request.specs.Ranges.{AddFits};
ghost use Rattle.ls_value.specs.Each.{Each};
ghost use Rattle.ls_subs.specs.Kept.{item_at, kept_at, has_sub, room_of, named, with_slots, line_of, heard_at, limited};
ghost use Rattle.ls_subs.specs.Kept.{AreAlike};
ghost use Rattle.ls_subs.specs.Plans.{refusal_of, IsPlan, MayJoin, IsReady, JoinAll};
ghost use Rattle.ls_subs.specs.Subscription.{Appends};
ghost use Rattle.ls_subs.specs.Standing.{ref_of, StandsSubs, Suits, AskedSlot, IsAsked, what_of, AcceptedAs};
ghost use Rattle.ls_subs.specs.declared.cut_line.CutLine.TheVariants as tells;

use crate::adding::plan_of;
use crate::cut_line::CutLine;
use crate::plan::{AddPlan, PlanItem, Refusal};
use indexmap::IndexMap;
use ls_budget::Due;
use ls_config::Config;
use ls_event::{Mode, Taken};
use ls_request::Add;
use ls_turns::SlotRef;
use ls_value::NoMemory;
use std::alloc::Global;

/// The live subscriptions of a session: the items of each, by its number. It keeps the allocator that its constructor
/// took.
#[derive(Drop)]
pub struct Subs {
    alloc: Global,
    items: IndexMap<u64, Vec<PlanItem>>,
}

impl Subs {
    /// No subscription. No memory is taken.
    pub fn new(alloc: Global) -> Subs
        ensures { (lines : List Line) → StandsSubs result lines [] }
    {
        Subs {
            alloc,
            items: IndexMap::new(alloc),
        }
    }

    /// Whether a subscription of this number is live.
    pub fn has(&self, sub: u32) -> bool
        ensures own { result ≡ has_sub self.now sub }
        ensures used { (lines : List Line) (round : List LiveSlot) → StandsSubs self.now lines round
            → result ≡ is_used sub round }
    {
        self.items.contains_key(&(sub as u64))
    }

    /// How many subscriptions are live.
    pub fn len(&self) -> usize
        ensures { (lines : List Line) (round : List LiveSlot) → StandsSubs self.now lines round
            → result ≡ subscriptions round }
    {
        self.items.len()
    }

    /// Whether none is live.
    pub fn is_empty(&self) -> bool
        ensures { (lines : List Line) (round : List LiveSlot) → StandsSubs self.now lines round
            → result ≡ (subscriptions round == 0) }
    {
        self.items.is_empty()
    }

    /// The slot of a place, from 1, of a subscription: `None` exactly where no such subscription is live, or it has no
    /// such place. No memory is taken.
    pub fn find(&self, sub: u64, place: u64) -> Option<SlotRef>
        ensures { (lines : List Line) (round : List LiveSlot) → StandsSubs self.now lines round
            → result ≡ option_map ref_of (live_at sub place round) }
    {
        let items = self.items.get(&sub)?;
        slot_at(items, place)
    }

    /// Whether a slot may give an update at a tick, in ms, by its subscription's greatest frequency, and else at which
    /// tick first. It may where there is no such slot. No memory is taken.
    pub fn due(&self, slot: &SlotRef, now: u64) -> Due
        ensures stands { (lines : List Line) (round : List LiveSlot) (place : ℕ) (v : LiveSlot)
            → StandsSubs self.now lines round → slice_get round place ≡ Some v → ref_of v ≡ slot.now
            → result ≡ due_at (frequency_tick v.frequency (updated v.sub v.rank lines)) now }
        ensures absent { kept_at self.now slot.now.sub slot.now.place ≡ None → result ≡ due.Now }
    {
        match self.items.get(&(slot.sub as u64)) {
            None => Due::Now,
            Some(items) => due_at(items, slot.place, now),
        }
    }

    /// The mode of a slot: `None` exactly where there is no such slot. No memory is taken.
    pub fn slot_mode(&self, slot: &SlotRef) -> Option<Mode>
        ensures { result ≡ option_map (λ p. p.mode) (kept_at self.now slot.now.sub slot.now.place) }
    {
        let items = self.items.get(&(slot.sub as u64))?;
        mode_at(items, slot.place)
    }

    /// The mode of a subscription: `None` exactly where none of this number is live. No memory is taken.
    pub fn mode(&self, sub: u32) -> Option<Mode>
        ensures { (lines : List Line) (round : List LiveSlot) → StandsSubs self.now lines round
            → result ≡ option_map (λ v. v.slot.plan.mode) (live_at sub 1 round) }
    {
        let items = self.items.get(&(sub as u64))?;
        first_mode(items)
    }

    /// Sets the greatest frequency of each item of a subscription, in thousandths of an update per second; `None` is
    /// unlimited. The ticks of their last updates stay, and so does what the client has. No memory is taken.
    pub fn set_frequency(&mut self, sub: u32, frequency: Option<u64>)
        requires { ForSome frequency (λ f. 0 < f) }
        ensures stands { (lines : List Line) (round : List LiveSlot) (f : Option ℕ) (filtered : Bool)
            → StandsSubs self.old lines round
            → StandsSubs self.new (Configures sub f filtered ∷ lines) (map (with_frequency sub frequency) round) }
        ensures kept { (q place : ℕ) → is_some (kept_at self.new q place) ≡ is_some (kept_at self.old q place) }
        ensures room { room_of self.new ≡ room_of self.old }
    {
        match self.items.get_mut(&(sub as u64)) {
            None => {}
            Some(items) => set_all(items, frequency),
        }
    }

    /// Appends the line that a slot's cut makes at a tick, in ms, and answers which one: none where the client has that
    /// already, or where there is no such slot. Then the client has it, and an update is the item's last one. After
    /// `NoMemory` all is as before, and a part of the line may be there.
    pub fn accept(
        &mut self,
        slot: &SlotRef,
        taken: Taken,
        now: u64,
        text: &mut Vec<u8>,
    ) -> Result<CutLine, NoMemory>
        ensures accepted { IfOk result (λ told. (q : AskedSlot) → IsAsked q → ref_of q.live ≡ slot.now
            → q.now ≡ now → now ≤ GREATEST_TICK → Suits q.live.slot.plan.mode taken
            → StandsSubs self.old q.lines q.round → AcceptedAs (what_of q.lines q.live taken) self.new q taken
            (record { told = told; before = text.old.items; after = text.new.items })) }
        ensures absent { kept_at self.old slot.now.sub slot.now.place ≡ None
            → (result ≡ Ok tells.Nothing) × AreAlike self.old self.new × (text.new.items ≡ text.old.items) }
        ensures err { OnErr result (AreAlike self.old self.new) }
        ensures stands { OnErr result ((lines : List Line) (round : List LiveSlot) → StandsSubs self.old lines round
            → StandsSubs self.new lines round) }
        ensures kept { (sub place : ℕ) → is_some (kept_at self.new sub place) ≡ is_some (kept_at self.old sub place) }
        ensures room { room_of self.new ≡ room_of self.old }
    {
        match self.items.get_mut(&(slot.sub as u64)) {
            None => Ok(CutLine::Nothing),
            Some(items) => accept_at(items, slot.place, taken, now, text),
        }
    }

    /// What a new subscription asks for. It takes all the memory that `finish` needs. It is refused, in this order: 72
    /// where a subscription of its number is live, 21 where its group isn't one of declared items, 24 where its mode is
    /// not allowed on one of them, and 23 where its schema isn't one of the mode and of each of them.
    pub fn prepare(&mut self, add: &Add, config: &Config) -> Result<AddPlan, Refusal>
        requires { AddFits add.now }
        ensures free { OnOk result (refusal_of self.old config.now.items add.now ≡ None) }
        ensures plan { IfOk result (λ p. IsPlan config.now.items add.now p) }
        ensures join { IfOk result (λ p. Each (MayJoin config.now.items) p.items.items) }
        ensures new { IfOk result (λ p. has_sub self.new p.sub ≡ false) }
        ensures ready { IfOk result (λ p. IsReady p.sub p.items.items) }
        ensures room { OnOk result (1 ≤ room_of self.new) }
        ensures refused { (code : ℕ) → IsErrOf result (Refusal.Code code)
            → refusal_of self.old config.now.items add.now ≡ Some code }
        ensures same { (lines : List Line) (round : List LiveSlot) → StandsSubs self.old lines round
            → StandsSubs self.new lines round }
        ensures live { (sub : ℕ) → has_sub self.new sub ≡ has_sub self.old sub }
    {
        if self.has(add.sub) {
            return Err(Refusal::Code(72));
        }
        let plan = plan_of(self.alloc, add, config)?;
        self.reserve()?;
        Ok(plan)
    }

    /// Makes room for one subscription more.
    fn reserve(&mut self) -> Result<(), NoMemory>
        ensures room { OnOk result (1 ≤ room_of self.new) }
        ensures same { AreAlike self.old self.new }
    {
        self.items.reserve(1)?;
        Ok(())
    }

    /// A subscription is live, with these slots, one for each of its items. These are of the plan that the last
    /// [`Subs::prepare`] told, and nothing changed since. Takes no memory.
    pub fn finish(&mut self, sub: u32, items: Vec<PlanItem>, slots: &[u32])
        requires room { 1 ≤ room_of self.old }
        requires new { has_sub self.old sub ≡ false }
        requires ready { IsReady sub items.items }
        requires slots { length slots.now ≡ length items.items }
        ensures { (lines : List Line) (round vs : List LiveSlot) (filtered : Bool) (most fields : ℕ) (keys : Option Keys)
            (frequency : Option ℕ) → StandsSubs self.old lines round → JoinAll items.items slots.now vs
            → StandsSubs self.new
            (Configures sub frequency filtered ∷ Begins sub most fields keys ∷ lines) (round ++ vs) }
    {
        let items = with_slots(items, slots);
        let _none = self.items.insert(sub as u64, items);
    }

    /// A subscription is no longer live: `false` exactly where there is none of this number. Takes no memory.
    pub fn remove(&mut self, sub: u32) -> bool
        ensures was { (lines : List Line) (round : List LiveSlot) → StandsSubs self.old lines round
            → result ≡ is_used sub round }
        ensures stands { (lines : List Line) (round : List LiveSlot) → StandsSubs self.old lines round
            → StandsSubs self.new (Ends sub ∷ lines) (without sub round) }
    {
        self.items.swap_remove(&(sub as u64)).is_some()
    }

    /// None is live any more, and their memory is given back. No memory is taken.
    pub fn clear(&mut self)
        ensures { (lines : List Line) → StandsSubs self.new lines [] }
    {
        self.items = IndexMap::new(self.alloc);
    }
}

/// The slot of the item at a place, from 1.
fn slot_at(items: &[PlanItem], place: u64) -> Option<SlotRef>
    ensures { result ≡ option_map named (item_at items.now place) }
{
    let index = place.checked_sub(1)?;
    let item = items.get(usize::try_from(index).ok()?)?;
    Some(SlotRef {
        sub: item.followed.sub(),
        place: item.followed.rank(),
        item: item.item,
        slot: item.slot,
    })
}

/// Items with these slots.
fn with_slots(items: Vec<PlanItem>, slots: &[u32]) -> Vec<PlanItem>
    requires { length slots.now ≡ length items.items }
    ensures { result.items ≡ with_slots items.items slots.now }
{
    let mut items = items;
    for i in 0..slots.len() {
        items[i].slot = slots[i];
    }
    items
}

/// Whether the item at a place may give an update at a tick, and else at which tick first.
fn due_at(items: &[PlanItem], place: u32, now: u64) -> Due
    ensures stands { (p : PlanItem) (f last : Option ℕ) → item_at items.now place ≡ Some p
        → StandsFrequency p.frequency f last → result ≡ due_at (frequency_tick f last) now }
    ensures absent { item_at items.now place ≡ None → result ≡ due.Now }
{
    if place == 0 {
        return Due::Now;
    }
    match items.get(place as usize - 1) {
        None => Due::Now,
        Some(item) => item.frequency.due(now),
    }
}

/// The mode of the item at a place.
fn mode_at(items: &[PlanItem], place: u32) -> Option<Mode>
    ensures { result ≡ option_map (λ p. p.mode) (item_at items.now place) }
{
    let index = place.checked_sub(1)?;
    let item = items.get(index as usize)?;
    Some(item.mode)
}

/// The mode of the first item.
fn first_mode(items: &[PlanItem]) -> Option<Mode>
    ensures { result ≡ option_map (λ p. p.mode) (item_at items.now 1) }
{
    match items.first() {
        None => None,
        Some(item) => Some(item.mode),
    }
}

/// Sets the greatest frequency of items.
fn set_all(items: &mut Vec<PlanItem>, frequency: Option<u64>)
    requires { ForSome frequency (λ f. 0 < f) }
    ensures { items.new.items ≡ map (limited frequency) items.old.items }
{
    for i in 0..items.len() {
        items[i].frequency.set(frequency);
    }
}

/// Appends the line that a cut of the item at a place makes at a tick, and answers which one; there is none where there
/// is no such place. Then the client has it, and an update is the item's last one. After `NoMemory` the items are as
/// before, and a part of the line may be there.
fn accept_at(
    items: &mut Vec<PlanItem>,
    place: u32,
    taken: Taken,
    now: u64,
    text: &mut Vec<u8>,
) -> Result<CutLine, NoMemory>
    ensures line { IfOk result (λ told. Appends
        (record { told = told; before = text.old.items; after = text.new.items })
        (line_of (item_at items.old.items place) taken)) }
    ensures absent { item_at items.old.items place ≡ None
        → (result ≡ Ok tells.Nothing) × (text.new.items ≡ text.old.items) }
    ensures ok { OnOk result (items.new.items ≡ heard_at place now taken items.old.items) }
    ensures err { OnErr result (items.new.items ≡ items.old.items) }
{
    if place == 0 {
        return Ok(CutLine::Nothing);
    }
    let index = place as usize - 1;
    if index >= items.len() {
        return Ok(CutLine::Nothing);
    }
    items[index].accept(taken, now, text)
}
