//! An item with its slots (General Concepts, items, modes and buffers).
ghost use Rattle.std.specs.Prelude.{◌≡◌, true, ◌+◌, ◌-◌, ◌<◌, ◌≤◌, ◌++◌, [], ◌∷◌, ℕ, List, Option, None, Some, IfOk};
ghost use Rattle.std.specs.Prelude.{IfErr, OnOk, OnErr, IsOk, IsSome, length, is_some, nat_lt};
ghost use Rattle.ls_event.specs.declared.event.Entry.{Entry};
ghost use Rattle.ls_event.specs.declared.event.Taken.{Taken as ATaken};
ghost use Rattle.ls_event.specs.History.{HasFields, RowFits};
ghost use Rattle.ls_event.specs.Shapes.{IsShape, shape_of};
ghost use Rattle.ls_event.specs.States.{push_refusal, state_after, key_row};
ghost use Rattle.ls_event.specs.Publishes.{refusal};
ghost use Rattle.ls_event.specs.Slots.{Slot, passed};
ghost use Rattle.ls_event.specs.Cuts.{Fits, cut, is_pending as is_pending};
ghost use Rattle.ls_event.specs.Joining.{plan_of, rows_asked, joined, is_mode_of};
ghost use Rattle.ls_event.specs.declared.limits.TheConstants.{MOST_BUFFER_SIZE, MOST_SLOTS};
ghost use Rattle.ls_item.specs.States.{checked};
ghost use Rattle.ls_cell.specs.Any.{any_pending};
ghost use Rattle.ls_cell.specs.Numbered.{slot_at, set_slot, put_slot, free_number, live_slots};
ghost use Rattle.ls_cell.specs.Cell.{StandsCell, HasSlot, AnswersFirst, refusal_of, least_lagging, published};
ghost use Rattle.ls_cell.specs.Cell.{tail_after, stored_next, cut_at, pending_at, last_in, next_last, enqueue_answer};
ghost use Rattle.ls_cell.specs.Cell.{enqueued_at, Going};

use crate::joining::buffer_of;
use crate::slots::Slots;
use ls_event::{
    Event, ItemDef, Kind, MOST_ADAPTERS, MOST_LAG, Mode, PublishRefused, Snap, Stored, Taken,
};
use ls_item::ItemState;
use ls_value::{GREATEST_NUMBER, NoMemory};
use std::alloc::Global;
use std::collections::VecDeque;
use std::marker::Model;

/// A slot that joined: its number, and the item's number at joining.
#[derive(Clone, Copy, Debug, PartialEq, Eq)]
pub struct Joined {
    pub slot: u32,
    pub base: u64,
}

/// What an enqueue did.
#[derive(Clone, Copy, Debug, PartialEq, Eq)]
pub enum Enqueued {
    /// The slot took the event of this number.
    Moved { no: u64 },
    /// The slot had every event of the item.
    UpToDate,
}

/// An item with its slots: its state, its number of events, the last [`MOST_LAG`] of them, the last seq of each
/// adapter, and the slots by number. A slot's number is the least from 1 that is not in use. It keeps the allocator
/// that its constructor took.
#[derive(Drop)]
pub struct ItemCell {
    alloc: Global,
    item: ItemState,
    number: u64,
    tail: VecDeque<Stored>,
    seqs: Vec<u64>,
    slots: Slots,
}

impl Model for ItemCell {
    ghost use Rattle.ls_cell.specs.Cell.{Held, IsSound};

    ghost Value = { Held };

    ghost view = { λ c. record {
      item = c.item;
      number = c.number;
      tail = c.tail.items;
      seqs = c.seqs.items;
      slots =
          c.slots;
    } };

    ghost invariant = { λ c. IsSound (record {
      item = c.item;
      number = c.number;
      tail = c.tail.items;
      seqs =
          c.seqs.items;
      slots = c.slots;
    }) };
}

impl ItemCell {
    /// An item as declared, without events and without a slot. It has 1 to [`MOST_FIELDS`](ls_event::MOST_FIELDS)
    /// fields, and in kind COMMAND a key and a command among them. Its later calls take memory by this allocator.
    pub fn new(alloc: Global, item: &ItemDef) -> Result<ItemCell, NoMemory>
        requires { IsShape (shape_of item.now) }
        ensures shape { IfOk result (λ c. c.item.shape ≡ shape_of item.now) }

        // It stands for the empty history.
        ensures stands { IfOk result (λ c. StandsCell c [] []) }
    {
        // The seqs come last: those of adapters with high numbers seldom change, so that of two items made one after
        // another no parts that change are neighbours in memory.
        let state = ItemState::new(alloc, item)?;
        let seqs = vec![in alloc; 0u64; MOST_ADAPTERS as usize + 1]?;
        Ok(ItemCell {
            alloc,
            item: state,
            number: 0,
            tail: VecDeque::new(alloc),
            seqs,
            slots: Slots::new(alloc),
        })
    }

    /// The number of events of the history.
    pub fn number(&self) -> u64
        ensures number { result ≡ self.now.number }
        ensures events { (ss : List (Option Slot)) (h : List Entry) → StandsCell self.now ss h → result ≡ length h }
    {
        self.number
    }

    /// The number of fields.
    pub fn fields(&self) -> usize
        ensures { result ≡ self.now.item.shape.fields }
    {
        self.item.fields()
    }

    /// The kind.
    pub fn kind(&self) -> Kind
        ensures { result ≡ self.now.item.shape.kind }
    {
        self.item.kind()
    }

    /// How many slots are live.
    pub fn slots(&self) -> u32
        ensures live { result ≡ live_slots self.now.slots }
        ensures records { (ss : List (Option Slot)) (h : List Entry) → StandsCell self.now ss h
            → result ≡ live_slots ss }
    {
        self.slots.live()
    }

    /// Whether a slot of this number is live.
    pub fn has(&self, slot: u32) -> bool
        ensures live { result ≡ is_some (slot_at self.now.slots slot) }
        ensures records { (ss : List (Option Slot)) (h : List Entry) → StandsCell self.now ss h
            → result ≡ is_some (slot_at ss slot) }
    {
        self.slots.has(slot)
    }

    /// Adds an event to the end of the history, and answers its number. The adapter is 1 to [`MOST_ADAPTERS`], and an
    /// update has a cell for each field. Refusals change nothing, and the first of this order is answered:
    /// - `Repeated`: the seq isn't above the adapter's last one;
    /// - `NoKey`, `BadCommand`: an update of a COMMAND item names no key, or no order;
    /// - `TooLong`: the event's texts, or those of the row that it makes, weigh more than [`MOST_WEIGHT`];
    /// - `TooManyKeys`: a COMMAND item has [`MOST_KEYS`] keys, and the event adds one;
    /// - `Backlog`: a slot lags by [`MOST_LAG`] events, of which the least is named;
    /// - `Spent`: there are [`GREATEST_NUMBER`] events;
    /// - `NoMemory`: want of memory, where nothing else is in the way.
    ///
    /// [`MOST_KEYS`]: ls_event::MOST_KEYS
    /// [`MOST_WEIGHT`]: ls_event::MOST_WEIGHT
    pub fn publish(&mut self, adapter: u8, seq: u64, event: Event) -> Result<u64, PublishRefused>
        requires adapter { adapter ≤ MOST_ADAPTERS }
        requires fields { HasFields self.old.item.shape.fields event }
        ensures answer { AnswersFirst
            (refusal_of self.old (record { adapter = adapter; seq = seq; event = event }))
            (self.old.number + 1)
            result }
        ensures ok { OnOk result (self.new ≡ published self.old (record
            { adapter = adapter; seq = seq; event = event })) }
        ensures shape { self.new.item.shape ≡ self.old.item.shape }

        // The history and the records of the slots decide.
        ensures first_cause { (ss : List (Option Slot)) (h : List Entry) → StandsCell self.old ss h
            → AnswersFirst
            (refusal self.old.item.shape h (least_lagging (length h) ss) (record
            { adapter = adapter; seq = seq; event = event }))
            (length h + 1)
            result }

        // It goes on standing for its history, which has the entry at its end.
        ensures stands { OnOk result ((ss : List (Option Slot)) (h : List Entry) → StandsCell self.old ss h
            → StandsCell self.new ss (h ++ record { adapter = adapter; seq = seq; event = event } ∷ [])) }
        ensures err { OnErr result (self.new ≡ self.old) }
    {
        self.append(adapter, seq, event)
    }

    /// The first cause that stands against an event, as `publish` answers it, want of memory aside: it is `Ok` exactly
    /// where there is none, and then `add` adds the event. The adapter is 1 to [`MOST_ADAPTERS`], and an update has a
    /// cell for each field. It takes no memory, and never answers `NoMemory`.
    pub fn check(&self, adapter: u8, seq: u64, event: &Event) -> Result<(), PublishRefused>
        requires adapter { adapter ≤ MOST_ADAPTERS }
        requires fields { HasFields self.now.item.shape.fields event.now }
        ensures ok { OnOk result
            (refusal_of self.now (record { adapter = adapter; seq = seq; event = event.now }) ≡ None) }
        ensures err { IfErr result
            (λ e. refusal_of self.now (record { adapter = adapter; seq = seq; event = event.now }) ≡ Some e) }

        // The history and the records of the slots decide.
        ensures admitted { OnOk result ((ss : List (Option Slot)) (h : List Entry) → StandsCell self.now ss h
            → refusal self.now.item.shape h (least_lagging (length h) ss)
            (record { adapter = adapter; seq = seq; event = event.now }) ≡ None) }
        ensures first_cause { IfErr result (λ e. (ss : List (Option Slot)) (h : List Entry) → StandsCell self.now ss h
            → refusal self.now.item.shape h (least_lagging (length h) ss)
            (record { adapter = adapter; seq = seq; event = event.now }) ≡ Some e) }
    {
        self.first_cause(adapter, seq, event)
    }

    /// Adds an event against which nothing stands, as `check` tells, to the end of the history. After `NoMemory` all is
    /// as before.
    pub fn add(&mut self, adapter: u8, seq: u64, event: Event) -> Result<(), NoMemory>
        requires adapter { adapter ≤ MOST_ADAPTERS }
        requires fields { HasFields self.old.item.shape.fields event }
        requires admitted { refusal_of self.old (record { adapter = adapter; seq = seq; event = event }) ≡ None }
        ensures ok { OnOk result (self.new ≡ published self.old (record
            { adapter = adapter; seq = seq; event = event })) }
        ensures stands { OnOk result ((ss : List (Option Slot)) (h : List Entry) → StandsCell self.old ss h
            → StandsCell self.new ss (h ++ record { adapter = adapter; seq = seq; event = event } ∷ [])) }
        ensures err { OnErr result (self.new ≡ self.old) }
    {
        keep(&mut self.item, &mut self.tail, self.number + 1, event)?;
        self.seqs[adapter as usize] = seq;
        self.number += 1;
        self.slots.settle(self.number);
        Ok(())
    }

    /// Joins a slot at the item's number, in mode RAW or the one of the item's kind. Its buffer has the size `n`, which
    /// is 1 to [`MOST_BUFFER_SIZE`] and counts in modes MERGE and DISTINCT alone. Fewer than [`MOST_SLOTS`] slots are
    /// live. After `NoMemory` all is as before.
    ///
    /// [`MOST_BUFFER_SIZE`]: ls_event::MOST_BUFFER_SIZE
    /// [`MOST_SLOTS`]: ls_event::MOST_SLOTS
    pub fn join(&mut self, mode: Mode, n: u32, snapshot: Snap) -> Result<Joined, NoMemory>
        requires mode { is_mode_of mode self.old.item.shape.kind ≡ true }
        requires some { 0 < n }
        requires most { n ≤ MOST_BUFFER_SIZE }
        requires few { live_slots self.old.slots < MOST_SLOTS }
        ensures answer { IfOk result (λ j. j ≡ record { slot = free_number self.old.slots; base = self.old.number }) }
        ensures records { IfOk result (λ j. (ss : List (Option Slot)) (h : List Entry)
            → StandsCell self.old ss h → j ≡ record { slot = free_number ss; base = length h }) }
        ensures rest { OnOk result (self.new ≡ record self.old { slots = self.new.slots }) }
        ensures live { IfOk result (λ j. HasSlot self.new j.slot) }

        // It stands for a fresh record at the least free number.
        ensures stands { OnOk result ((ss : List (Option Slot)) (h : List Entry) → StandsCell self.old ss h
            → StandsCell self.new (put_slot ss (joined (plan_of self.old.item.shape h mode n) h (rows_asked snapshot)))
            h) }
        ensures err { OnErr result (self.new ≡ self.old) }
    {
        let base = self.number;
        let buffer = buffer_of(self.alloc, &self.item, base, mode, n, snapshot)?;
        let slot = self.slots.join(buffer)?;
        Ok(Joined { slot, base })
    }

    /// Drops a live slot, whose number is free then. It takes no memory.
    pub fn leave(&mut self, slot: u32)
        requires { HasSlot self.old slot }
        ensures rest { self.new ≡ record self.old { slots = set_slot self.old.slots slot None } }
        ensures stands { (ss : List (Option Slot)) (h : List Entry) → StandsCell self.old ss h
            → StandsCell self.new (set_slot ss slot None) h }
    {
        self.slots.leave(slot);
    }

    /// Enqueues the next event into a live slot: `UpToDate` exactly where it has every event of the item.
    /// After `NoMemory` all is as before.
    pub fn enqueue(&mut self, slot: u32) -> Result<Enqueued, NoMemory>
        requires { HasSlot self.old slot }
        ensures answer { IfOk result (λ e. e ≡ enqueue_answer self.old.number (last_in self.old slot)) }
        ensures answered { IfOk result (λ e. (ss : List (Option Slot)) (h : List Entry) (s : Slot)
            → StandsCell self.old ss h → slot_at ss slot ≡ Some s
            → e ≡ enqueue_answer (length h) s.last) }
        ensures rest { OnOk result (self.new ≡ record self.old {
          slots = set_slot self.old.slots slot
              (slot_at self.new.slots slot);
        }) }
        ensures live { OnOk result (HasSlot self.new slot) }
        ensures last { OnOk result (last_in self.new slot ≡ next_last self.old.number (last_in self.old slot)) }
        ensures stands { OnOk result ((ss : List (Option Slot)) (h : List Entry) (s : Slot) → StandsCell self.old ss h
            → slot_at ss slot ≡ Some s
            → StandsCell self.new (set_slot ss slot (Some (enqueued_at h s))) h) }
        ensures err { OnErr result (self.new ≡ self.old) }
    {
        let last = self.slots.last(slot);
        if last >= self.number {
            return Ok(Enqueued::UpToDate);
        }
        let index = last - (self.number - self.tail.len() as u64);
        self.slots.enqueue(slot, &self.tail[index as usize])?;
        Ok(Enqueued::Moved { no: last + 1 })
    }

    /// Enqueues into a live slot until it has every event of the item. After `NoMemory` the slot has made some of these
    /// enqueues in order, maybe none and never all, and `lag` says how many are to come; the rest of the cell is as
    /// before. No memory is taken where it has them all.
    pub fn catch_up(&mut self, slot: u32) -> Result<(), NoMemory>
        requires { HasSlot self.old slot }
        ensures last { OnOk result (last_in self.new slot ≡ self.old.number) }
        ensures some { last_in self.old slot ≤ last_in self.new slot }
        ensures behind { OnErr result (last_in self.new slot < self.old.number) }
        ensures no_memory { last_in self.old slot ≡ self.old.number → IsOk result }
        ensures rest { self.new ≡ record self.old {
          slots = set_slot self.old.slots slot
              (slot_at self.new.slots slot);
        } }
        ensures live { HasSlot self.new slot }
        ensures caught_up { OnOk result ((ss : List (Option Slot)) (h : List Entry) (s : Slot)
            → StandsCell self.old ss h → slot_at ss slot ≡ Some s
            → StandsCell self.new (set_slot ss slot (Some (record s { last = length h }))) h) }

        // After `NoMemory` too it stands for the record with the last number that was enqueued.
        ensures stands { (ss : List (Option Slot)) (h : List Entry) (s : Slot) → StandsCell self.old ss h
            → slot_at ss slot ≡ Some s
            → StandsCell self.new (set_slot ss slot (Some (record s { last = last_in self.new slot }))) h }
    {
        self.enqueue_run(slot)?;
        self.enqueue_each(slot)?;
        Ok(())
    }

    /// The next cut of a live slot, whether it makes a line or not; `None` where there is none.
    pub fn look(&self, slot: u32) -> Result<Option<Taken>, NoMemory>
        requires { HasSlot self.now slot }
        ensures own { IfOk result (λ t. t ≡ cut_at self.now slot) }
        ensures fits { IfOk result (Fits self.now.item.shape.fields) }
        ensures cut { IfOk result (λ t. (ss : List (Option Slot)) (h : List Entry) (s : Slot) → StandsCell self.now ss h
            → slot_at ss slot ≡ Some s → t ≡ cut h s) }
    {
        let taken = self.slots.look(slot)?;
        Ok(taken)
    }

    /// Moves a live slot past its next cut, of which there is one. It takes no memory.
    pub fn pass(&mut self, slot: u32)
        requires { IsSome (cut_at self.old slot) }
        ensures rest { self.new ≡ record self.old {
          slots = set_slot self.old.slots slot
              (slot_at self.new.slots slot);
        } }
        ensures live { HasSlot self.new slot }
        ensures stands { (ss : List (Option Slot)) (h : List Entry) (s : Slot) (t : ATaken) → StandsCell self.old ss h
            → slot_at ss slot ≡ Some s → cut h s ≡ Some t
            → StandsCell self.new (set_slot ss slot (Some (passed s t))) h }
    {
        self.slots.pass(slot);
    }

    /// Whether a live slot is pending: something is enqueued that no cut took. It takes no memory.
    pub fn pending(&self, slot: u32) -> bool
        requires { HasSlot self.now slot }
        ensures own { result ≡ pending_at self.now slot }
        ensures pending { (ss : List (Option Slot)) (h : List Entry) (s : Slot) → StandsCell self.now ss h
            → slot_at ss slot ≡ Some s → result ≡ is_pending h s }
    {
        self.slots.pending(slot)
    }

    /// How many events of the item a live slot doesn't have yet. It takes no memory.
    pub fn lag(&self, slot: u32) -> u64
        requires { HasSlot self.now slot }
        ensures lag { last_in self.now slot + result ≡ self.now.number }
        ensures behind { (ss : List (Option Slot)) (h : List Entry) (s : Slot) → StandsCell self.now ss h
            → slot_at ss slot ≡ Some s → result ≡ length h - s.last }
    {
        let last = self.slots.last(slot);
        self.number - last
    }

    /// Has a live slot take all events of the item that it doesn't have yet at once, where they are several and its buffer
    /// can. After `NoMemory` all is as before.
    fn enqueue_run(&mut self, slot: u32) -> Result<(), NoMemory>
        requires { HasSlot self.old slot }
        ensures going { Going self.old self.new slot (last_in self.new slot - last_in self.old slot) }
        ensures most { last_in self.new slot ≤ self.old.number }
        ensures behind { OnErr result (last_in self.new slot < self.old.number) }
    {
        let lag = self.lag(slot);
        if lag < 2 {
            return Ok(());
        }
        let from = self.tail.len() as u64 - lag;
        self.slots.enqueue_run(slot, &self.tail, from as usize)?;
        Ok(())
    }

    /// Enqueues into a live slot one event after another, until it has every event of the item.
    fn enqueue_each(&mut self, slot: u32) -> Result<(), NoMemory>
        requires { HasSlot self.old slot }
        ensures going { Going self.old self.new slot (last_in self.new slot - last_in self.old slot) }
        ensures last { OnOk result (last_in self.new slot ≡ self.old.number) }
        ensures behind { OnErr result (last_in self.new slot < self.old.number) }
        ensures no_memory { last_in self.old slot ≡ self.old.number → IsOk result }
    {
        for _ in 0..self.lag(slot) {
            self.enqueue(slot)?;
        }
        Ok(())
    }

    /// Adds an event, or answers the first cause that stands against it.
    fn append(&mut self, adapter: u8, seq: u64, event: Event) -> Result<u64, PublishRefused>
        requires adapter { adapter ≤ MOST_ADAPTERS }
        requires fields { HasFields self.old.item.shape.fields event }
        ensures answer { AnswersFirst
            (refusal_of self.old (record { adapter = adapter; seq = seq; event = event }))
            (self.old.number + 1)
            result }
        ensures ok { OnOk result (self.new ≡ published self.old
            (record { adapter = adapter; seq = seq; event = event })) }
        ensures stands { OnOk result ((ss : List (Option Slot)) (h : List Entry) → StandsCell self.old ss h
            → StandsCell self.new ss (h ++ record { adapter = adapter; seq = seq; event = event } ∷ [])) }
        ensures err { OnErr result (self.new ≡ self.old) }
    {
        self.check(adapter, seq, &event)?;
        self.add(adapter, seq, event)?;
        Ok(self.number)
    }

    /// The first cause that stands against an event, want of memory aside. It takes no memory.
    fn first_cause(&self, adapter: u8, seq: u64, event: &Event) -> Result<(), PublishRefused>
        requires adapter { adapter ≤ MOST_ADAPTERS }
        requires fields { HasFields self.now.item.shape.fields event.now }
        ensures ok { OnOk result
            (refusal_of self.now (record { adapter = adapter; seq = seq; event = event.now }) ≡ None) }
        ensures err { IfErr result
            (λ e. refusal_of self.now (record { adapter = adapter; seq = seq; event = event.now }) ≡ Some e) }
    {
        let last = self.seqs[adapter as usize];
        if seq <= last {
            return Err(PublishRefused::Repeated { last });
        }
        self.item.check(event)?;
        if let Some(slot) = self.slots.lagging(self.number) {
            return Err(PublishRefused::Backlog { slot });
        }
        if self.number >= GREATEST_NUMBER {
            return Err(PublishRefused::Spent);
        }
        Ok(())
    }
}

/// Adds the event of a number, against which nothing stands, to the state and to the last events, into which it moves.
fn keep(
    item: &mut ItemState,
    tail: &mut VecDeque<Stored>,
    no: u64,
    event: Event,
) -> Result<(), NoMemory>
    requires fields { HasFields item.old.shape.fields event }
    requires admitted { push_refusal item.old.shape item.old.state event ≡ None }
    requires most { length tail.old.items ≤ MOST_LAG }
    ensures item { OnOk result (item.new
        ≡ record item.old { state = state_after item.old.shape item.old.state event }) }
    ensures tail { OnOk result (tail.new.items ≡ tail_after tail.old.items (record {
      no = no;
      event = event;
      after = key_row item.old.shape (state_after item.old.shape item.old.state event) event;
    })) }
    ensures fits { OnOk result (RowFits item.old.shape.fields
        (key_row item.old.shape (state_after item.old.shape item.old.state event) event)) }
    ensures err { OnErr result ((item.new ≡ item.old) × (tail.new.items ≡ tail.old.items)) }
{
    tail.reserve(1)?;
    let after = item.add(&event)?;
    tail.push_back_reserved(Stored { no, event, after });
    if tail.len() > MOST_LAG as usize {
        let _first = tail.pop_front();
    }
    Ok(())
}
