//! All items of a server by their numbers.
ghost use Rattle.std.specs.Prelude.{◌≡◌, true, ◌+◌, ◌-◌, ◌<◌, ◌≤◌, ◌++◌, [], ◌∷◌, List, Option, None, Some, IfOk};
ghost use Rattle.std.specs.Prelude.{OnOk, OnErr, IsSome, length, slice_get, false};
ghost use Rattle.std.specs.Option.{option_map_or};
ghost use Rattle.ls_event.specs.declared.event.Entry.{Entry};
ghost use Rattle.ls_event.specs.declared.event.Taken.{Taken as ATaken};
ghost use Rattle.ls_event.specs.declared.limits.TheConstants.{MOST_BUFFER_SIZE, MOST_SLOTS};
ghost use Rattle.ls_event.specs.Cuts.{Fits, cut, is_pending};
ghost use Rattle.ls_event.specs.Joining.{plan_of, rows_asked, joined, is_mode_of};
ghost use Rattle.ls_event.specs.Publishes.{refusal};
ghost use Rattle.ls_event.specs.Shapes.{IsShape, shape_of};
ghost use Rattle.ls_event.specs.Slots.{Slot, passed};
ghost use Rattle.ls_cell.specs.Cell.{StandsCell, AnswersFirst, enqueue_answer, enqueued_at, cut_at, pending_at};
ghost use Rattle.ls_cell.specs.Numbered.{slot_at, set_slot, put_slot, free_number, live_slots};
ghost use Rattle.ls_value.specs.Each.{Each};
ghost use Rattle.ls_record.specs.Records.{grown, is_whole};
ghost use Rattle.ls_record.specs.Records.{Item, LiveSlot, history_of, shape_at, change, enqueue_slot};
ghost use Rattle.ls_cells.specs.Cells.{StandsCells, MayJoin, slot_numbered, free_in, far_in, takes_of, fields_of};
ghost use Rattle.ls_cells.specs.Cells.{cut_of_slot, pending_of_slot};
ghost use Rattle.ls_cells.specs.Settled.{OthersStay, KnowsSettled};

use crate::marks::{Marks, clear_marks, has_mark, set_mark};
use ls_cell::{Enqueued, ItemCell};
use ls_event::{
    Event, ItemDef, Kind, MOST_ADAPTERS, MOST_BUFFER_SIZE, MOST_SLOTS, Mode, PublishRefused, Snap,
    Taken,
};
use ls_value::NoMemory;
use std::alloc::Global;
use std::marker::Model;

/// All items of a server by their numbers, from 0 on: each with its events and its slots (General Concepts, items). It
/// counts the live slots of all items, and marks slots of which nothing is pending as settled. It keeps the allocator
/// that its constructor took.
#[derive(Drop)]
pub struct AllItems {
    alloc: Global,
    cells: Vec<ItemCell>,
    settled: Vec<Marks>,
    live: u32,
}

impl Model for AllItems {
    ghost use Rattle.ls_cells.specs.Cells.{AllCells};
    ghost use Rattle.ls_cells.specs.Settled.{KnowsSettled};

    ghost Value = { AllCells };

    ghost view = { λ k. record { cells = k.cells.items; live = k.live } };

    ghost invariant = { λ k. KnowsSettled k.settled.items k.cells.items };
}

impl AllItems {
    /// No item.
    pub fn new(alloc: Global) -> AllItems
        ensures { StandsCells result [] [] }
    {
        AllItems {
            alloc,
            cells: Vec::new(alloc),
            settled: Vec::new(alloc),
            live: 0,
        }
    }

    /// One more item, without events. It has 1 to [`MOST_FIELDS`](ls_event::MOST_FIELDS) fields, and in kind COMMAND a
    /// key and a command among them. After `NoMemory` all is as before.
    pub fn declare(&mut self, definition: &ItemDef) -> Result<(), NoMemory>
        requires { IsShape (shape_of definition.now) }
        ensures ok { OnOk result ((items : List Item) (lives : List LiveSlot) → StandsCells self.old items lives
            → StandsCells self.new (items ++ record { definition = definition.now; history = [] } ∷ []) lives) }
        ensures err { OnErr result ((items : List Item) (lives : List LiveSlot) → StandsCells self.old items lives
            → StandsCells self.new items lives) }
    {
        self.settled.reserve(1)?;
        self.cells.reserve(1)?;
        let cell = ItemCell::new(self.alloc, definition)?;
        self.cells.push_reserved(cell);
        self.settled.push_reserved(Marks::new(self.alloc));
        Ok(())
    }

    /// Takes the last item back, on which no slot is. It takes no memory.
    pub fn take_back(&mut self)
        ensures { (items : List Item) (i : Item) (lives : List LiveSlot) → StandsCells self.old (items ++ i ∷ []) lives
            → Each (λ v. v.item < length items) lives → StandsCells self.new items lives }
    {
        self.cells.pop();
        self.settled.pop();
    }

    /// Whether there is an item of this number, and an update has a cell for each of its fields.
    pub fn takes(&self, item: u32, event: &Event) -> bool
        ensures own { result ≡ takes_of self.now item event.now }
        ensures known { (items : List Item) (lives : List LiveSlot) → StandsCells self.now items lives
            → result ≡ option_map_or (λ i. is_whole (length i.definition.fields) event.now) (slice_get items item)
            false }
    {
        takes_in(&self.cells, item as usize, event)
    }

    /// Adds an event to the end of an item's history, and answers its number, as
    /// [`ItemCell::publish`](ls_cell::ItemCell::publish) does. The adapter is 1 to [`MOST_ADAPTERS`]; there is such an
    /// item, and an update has a cell for each of its fields. Refusals change nothing.
    pub fn publish(
        &mut self,
        item: u32,
        adapter: u8,
        seq: u64,
        event: Event,
    ) -> Result<u64, PublishRefused>
        requires adapter { adapter ≤ MOST_ADAPTERS }
        requires takes { takes_of self.old item event ≡ true }
        ensures answer { (items : List Item) (lives : List LiveSlot) (i : Item) → StandsCells self.old items lives
            → slice_get items item ≡ Some i
            → AnswersFirst
            (refusal (shape_of i.definition) i.history (far_in item (length i.history) lives) (record
            { adapter = adapter; seq = seq; event = event }))
            (length i.history + 1)
            result }
        ensures ok { OnOk result ((items : List Item) (lives : List LiveSlot) → StandsCells self.old items lives
            → StandsCells self.new
            (change item (grown (record { adapter = adapter; seq = seq; event = event })) items)
            lives) }
        ensures err { OnErr result ((items : List Item) (lives : List LiveSlot) → StandsCells self.old items lives
            → StandsCells self.new items lives) }
    {
        self.cells[item as usize].publish(adapter, seq, event)
    }

    /// Enqueues an item's next event into a slot on it: `UpToDate` exactly where it has every event of the item, and
    /// `None` where there is no such slot. After `NoMemory` all is as before.
    pub fn enqueue(&mut self, item: u32, slot: u32) -> Result<Option<Enqueued>, NoMemory>
        ensures ok { IfOk result (λ answer. (items : List Item) (a b : List LiveSlot) (v : LiveSlot)
            → StandsCells self.old items (a ++ v ∷ b) → v.item ≡ item → v.number ≡ slot
            → (answer ≡ Some (enqueue_answer (length (history_of items v.item)) v.slot.last))
            × StandsCells self.new items (a ++ enqueue_slot (history_of items v.item) v ∷ b)) }
        ensures none { IfOk result (λ answer. (items : List Item) (lives : List LiveSlot)
            → StandsCells self.old items lives → slot_numbered item slot lives ≡ None
            → (answer ≡ None) × StandsCells self.new items lives) }
        ensures err { OnErr result ((items : List Item) (lives : List LiveSlot) → StandsCells self.old items lives
            → StandsCells self.new items lives) }
    {
        let index = item as usize;
        if index >= self.cells.len() {
            return Ok(None);
        }
        let enqueued = enqueue_on(&mut self.cells[index], slot)?;
        set_mark(&mut self.settled, index, slot, false);
        Ok(enqueued)
    }

    /// The next cut of a slot on an item; `None` where it has none, or there is no such slot.
    pub fn look(&self, item: u32, slot: u32) -> Result<Option<Taken>, NoMemory>
        ensures own { IfOk result (λ t. t ≡ cut_of_slot self.now item slot) }
        ensures fits { IfOk result (Fits (fields_of self.now item)) }
        ensures cut { IfOk result (λ t. (items : List Item) (a b : List LiveSlot) (v : LiveSlot)
            → StandsCells self.now items (a ++ v ∷ b) → v.item ≡ item → v.number ≡ slot
            → t ≡ cut (history_of items v.item) v.slot) }
        ensures none { IfOk result (λ t. (items : List Item) (lives : List LiveSlot) → StandsCells self.now items lives
            → slot_numbered item slot lives ≡ None → t ≡ None) }
    {
        let index = item as usize;
        if index >= self.cells.len() {
            return Ok(None);
        }
        let taken = look_on(&self.cells[index], slot)?;
        Ok(taken)
    }

    /// Whether something is pending of a slot on an item: enqueued, and in no cut that was taken. `false` where there
    /// is no such slot. It takes no memory.
    pub fn pending(&self, item: u32, slot: u32) -> bool
        ensures own { result ≡ pending_of_slot self.now item slot }
        ensures known { (items : List Item) (a b : List LiveSlot) (v : LiveSlot) → StandsCells self.now items (a ++ v ∷ b)
            → v.item ≡ item → v.number ≡ slot → result ≡ is_pending (history_of items v.item) v.slot }
        ensures none { (items : List Item) (lives : List LiveSlot) → StandsCells self.now items lives
            → slot_numbered item slot lives ≡ None → result ≡ false }
    {
        let index = item as usize;
        if index >= self.cells.len() {
            return false;
        }
        pending_on(&self.cells[index], slot)
    }

    /// Whether a slot on an item is known to be settled: then nothing of it is pending. It is known where the last call
    /// on the slot was a [`pass`](AllItems::pass) that left nothing pending, and no slot joined the item since. It takes
    /// no memory, and less time than [`look`](AllItems::look) and [`pending`](AllItems::pending).
    pub fn is_settled(&self, item: u32, slot: u32) -> bool
        ensures { result ≡ true → (items : List Item) (a b : List LiveSlot) (v : LiveSlot)
            → StandsCells self.now items (a ++ v ∷ b) → v.item ≡ item → v.number ≡ slot
            → is_pending (history_of items v.item) v.slot ≡ false }
    {
        has_mark(&self.settled, item as usize, slot)
    }

    /// Moves a slot on an item past its next cut, of which there is one. It takes no memory.
    pub fn pass(&mut self, item: u32, slot: u32)
        requires { IsSome (cut_of_slot self.old item slot) }
        ensures { (items : List Item) (a b : List LiveSlot) (v : LiveSlot) (t : ATaken)
            → StandsCells self.old items (a ++ v ∷ b) → v.item ≡ item → v.number ≡ slot
            → cut (history_of items v.item) v.slot ≡ Some t
            → StandsCells self.new items (a ++ record v { slot = passed v.slot t } ∷ b) }
    {
        let index = item as usize;
        let pending = pass_on(&mut self.cells[index], slot);
        set_mark(&mut self.settled, index, slot, !pending);
    }

    /// A slot joins an item, and its number on it is answered: the least from 1 that is not in use. `None` where there
    /// is no such item, the mode is not allowed on it, the size `n` is 0 or above [`MOST_BUFFER_SIZE`], or
    /// [`MOST_SLOTS`] slots are live. After `NoMemory` all is as before.
    pub fn join(
        &mut self,
        item: u32,
        mode: Mode,
        n: u32,
        snapshot: Snap,
    ) -> Result<Option<u32>, NoMemory>
        ensures joined { IfOk result (λ number. (items : List Item) (a b : List LiveSlot) (v : LiveSlot)
            → StandsCells self.old items (a ++ b) → v.item ≡ item → item < length items
            → is_mode_of mode (shape_at items item).kind ≡ true → 0 < n → n ≤ MOST_BUFFER_SIZE
            → length (a ++ b) < MOST_SLOTS → v.number ≡ free_in (a ++ b) item
            → v.slot ≡ joined (plan_of (shape_at items item) (history_of items item) mode n) (history_of items item)
            (rows_asked snapshot)
            → (number ≡ Some v.number) × StandsCells self.new items (a ++ v ∷ b)) }
        ensures may { IfOk result (λ number. (items : List Item) (lives : List LiveSlot) → StandsCells self.old items lives
            → IsSome number → MayJoin items lives item mode n) }
        ensures none { IfOk result (λ number. (items : List Item) (lives : List LiveSlot)
            → StandsCells self.old items lives → number ≡ None → StandsCells self.new items lives) }
        ensures err { OnErr result ((items : List Item) (lives : List LiveSlot) → StandsCells self.old items lives
            → StandsCells self.new items lives) }
    {
        join_in(
            self.alloc,
            &mut self.cells,
            &mut self.settled,
            &mut self.live,
            item,
            mode,
            n,
            snapshot,
        )
    }

    /// A slot on an item leaves, if it is live; its number is free then. It takes no memory.
    pub fn leave(&mut self, item: u32, slot: u32)
        ensures left { (items : List Item) (a b : List LiveSlot) (v : LiveSlot) → StandsCells self.old items (a ++ v ∷ b)
            → v.item ≡ item → v.number ≡ slot → StandsCells self.new items (a ++ b) }
        ensures none { (items : List Item) (lives : List LiveSlot) → StandsCells self.old items lives
            → slot_numbered item slot lives ≡ None → StandsCells self.new items lives }
    {
        let index = item as usize;
        if index >= self.cells.len() {
            return;
        }
        if leave_on(&mut self.cells[index], slot) {
            self.live = self.live.saturating_sub(1);
        }
    }

    /// How many slots may still join, on all items together.
    pub fn free(&self) -> u32
        ensures { (items : List Item) (lives : List LiveSlot) → StandsCells self.now items lives
            → result ≡ MOST_SLOTS - length lives }
    {
        (MOST_SLOTS as u32).saturating_sub(self.live)
    }
}

/// Whether there is a cell at an index, and an update has a cell of its own for each field of the item.
fn takes_in(cells: &[ItemCell], index: usize, event: &Event) -> bool
    ensures { result ≡ option_map_or (λ c. is_whole c.item.shape.fields event.now) (slice_get cells.now index) false }
{
    match cells.get(index) {
        None => false,
        Some(cell) => is_whole(event, cell.fields()),
    }
}

/// Whether an event is an update with a cell for each of so many fields, or none.
fn is_whole(event: &Event, fields: usize) -> bool
    ensures { result ≡ is_whole fields event.now }
{
    match event {
        Event::Update(cells) => cells.len() == fields,
        Event::Clear => true,
    }
}

/// The next cut of an item's slot, if it is live and has one.
fn look_on(cell: &ItemCell, slot: u32) -> Result<Option<Taken>, NoMemory>
    ensures own { IfOk result (λ t. t ≡ cut_at cell.now slot) }
    ensures fits { IfOk result (Fits cell.now.item.shape.fields) }
    ensures cut { IfOk result (λ t. (ss : List (Option Slot)) (h : List Entry) (s : Slot) → StandsCell cell.now ss h
        → slot_at ss slot ≡ Some s → t ≡ cut h s) }
    ensures none { IfOk result (λ t. (ss : List (Option Slot)) (h : List Entry) → StandsCell cell.now ss h
        → slot_at ss slot ≡ None → t ≡ None) }
{
    if !cell.has(slot) {
        return Ok(None);
    }
    let taken = cell.look(slot)?;
    Ok(taken)
}

/// Whether something is pending of an item's slot, if it is live.
fn pending_on(cell: &ItemCell, slot: u32) -> bool
    ensures own { result ≡ pending_at cell.now slot }
    ensures pending { (ss : List (Option Slot)) (h : List Entry) (s : Slot) → StandsCell cell.now ss h
        → slot_at ss slot ≡ Some s → result ≡ is_pending h s }
    ensures none { (ss : List (Option Slot)) (h : List Entry) → StandsCell cell.now ss h
        → slot_at ss slot ≡ None → result ≡ false }
{
    if cell.has(slot) {
        cell.pending(slot)
    } else {
        false
    }
}

/// Enqueues an item's next event into a slot, if it is live.
fn enqueue_on(cell: &mut ItemCell, slot: u32) -> Result<Option<Enqueued>, NoMemory>
    ensures answer { IfOk result (λ answer. (ss : List (Option Slot)) (h : List Entry) (s : Slot)
        → StandsCell cell.old ss h → slot_at ss slot ≡ Some s
        → answer ≡ Some (enqueue_answer (length h) s.last)) }
    ensures shape { cell.new.item.shape ≡ cell.old.item.shape }
    ensures stands { OnOk result ((ss : List (Option Slot)) (h : List Entry) (s : Slot) → StandsCell cell.old ss h
        → slot_at ss slot ≡ Some s → StandsCell cell.new (set_slot ss slot (Some (enqueued_at h s))) h) }
    ensures none { IfOk result (λ answer. (ss : List (Option Slot)) (h : List Entry) → StandsCell cell.old ss h
        → slot_at ss slot ≡ None → (answer ≡ None) × (cell.new ≡ cell.old)) }
    ensures others { OnOk result (OthersStay slot cell.old cell.new) }
    ensures err { OnErr result (cell.new ≡ cell.old) }
{
    if !cell.has(slot) {
        return Ok(None);
    }
    let enqueued = cell.enqueue(slot)?;
    Ok(Some(enqueued))
}

/// Moves an item's slot past its next cut, of which there is one, and answers whether something of it is pending then.
fn pass_on(cell: &mut ItemCell, slot: u32) -> bool
    requires { IsSome (cut_at cell.old slot) }
    ensures pending { result ≡ pending_at cell.new slot }
    ensures others { OthersStay slot cell.old cell.new }
    ensures shape { cell.new.item.shape ≡ cell.old.item.shape }
    ensures stands { (ss : List (Option Slot)) (h : List Entry) (s : Slot) (t : ATaken) → StandsCell cell.old ss h
        → slot_at ss slot ≡ Some s → cut h s ≡ Some t
        → StandsCell cell.new (set_slot ss slot (Some (passed s t))) h }
{
    cell.pass(slot);
    cell.pending(slot)
}

/// A slot joins one of the items, if it may, and its number; no slot on that item is marked after it.
fn join_in(
    alloc: Global,
    cells: &mut Vec<ItemCell>,
    settled: &mut Vec<Marks>,
    live: &mut u32,
    item: u32,
    mode: Mode,
    n: u32,
    snapshot: Snap,
) -> Result<Option<u32>, NoMemory>
    requires { KnowsSettled settled.old.items cells.old.items }
    ensures settled { KnowsSettled settled.new.items cells.new.items }
    ensures joined { IfOk result (λ number. (items : List Item) (a b : List LiveSlot) (v : LiveSlot)
        → StandsCells (record { cells = cells.old.items; live = live.old }) items (a ++ b) → v.item ≡ item
        → item < length items → is_mode_of mode (shape_at items item).kind ≡ true → 0 < n → n ≤ MOST_BUFFER_SIZE
        → length (a ++ b) < MOST_SLOTS → v.number ≡ free_in (a ++ b) item
        → v.slot ≡ joined (plan_of (shape_at items item) (history_of items item) mode n) (history_of items item)
        (rows_asked snapshot)
        → (number ≡ Some v.number)
        × StandsCells (record { cells = cells.new.items; live = live.new }) items (a ++ v ∷ b)) }
    ensures may { IfOk result (λ number. (items : List Item) (lives : List LiveSlot)
        → StandsCells (record { cells = cells.old.items; live = live.old }) items lives → IsSome number
        → MayJoin items lives item mode n) }
    ensures none { IfOk result (λ number. number ≡ None
        → (cells.new.items ≡ cells.old.items) × (live.new ≡ live.old)) }
    ensures err { OnErr result ((cells.new.items ≡ cells.old.items) × (live.new ≡ live.old)) }
{
    let index = item as usize;
    if index >= cells.len() {
        return Ok(None);
    }
    if *live >= MOST_SLOTS as u32 {
        return Ok(None);
    }
    let below = cells[index].slots() as usize + 2;
    let Ok(()) = clear_marks(alloc, settled, index, below) else {
        return Err(NoMemory);
    };
    match join_on(&mut cells[index], mode, n, snapshot) {
        Err(cause) => Err(cause),
        Ok(None) => Ok(None),
        Ok(Some(number)) => {
            *live += 1;
            Ok(Some(number))
        }
    }
}

/// A slot joins an item, if it may, and its number.
fn join_on(cell: &mut ItemCell, mode: Mode, n: u32, snapshot: Snap) -> Result<Option<u32>, NoMemory>
    ensures answer { IfOk result (λ answer. (ss : List (Option Slot)) (h : List Entry) → StandsCell cell.old ss h
        → is_mode_of mode cell.old.item.shape.kind ≡ true → 0 < n → n ≤ MOST_BUFFER_SIZE → live_slots ss < MOST_SLOTS
        → answer ≡ Some (free_number ss)) }
    ensures shape { cell.new.item.shape ≡ cell.old.item.shape }
    ensures stands { OnOk result ((ss : List (Option Slot)) (h : List Entry) → StandsCell cell.old ss h
        → is_mode_of mode cell.old.item.shape.kind ≡ true → 0 < n → n ≤ MOST_BUFFER_SIZE → live_slots ss < MOST_SLOTS
        → StandsCell cell.new
        (put_slot ss (joined (plan_of cell.old.item.shape h mode n) h (rows_asked snapshot)))
        h) }
    ensures may { IfOk result (λ answer. IsSome answer → (is_mode_of mode cell.old.item.shape.kind ≡ true) × (0 < n)
        × (n ≤ MOST_BUFFER_SIZE)) }
    ensures none { IfOk result (λ answer. answer ≡ None → cell.new ≡ cell.old) }
    ensures err { OnErr result (cell.new ≡ cell.old) }
{
    if !may_join(cell, mode, n) {
        return Ok(None);
    }
    let joined = cell.join(mode, n, snapshot)?;
    Ok(Some(joined.slot))
}

/// Whether a slot of a mode and of a buffer's size may join an item.
fn may_join(cell: &ItemCell, mode: Mode, n: u32) -> bool
    ensures mode { result ≡ true → is_mode_of mode cell.now.item.shape.kind ≡ true }
    ensures some { result ≡ true → 0 < n }
    ensures most { result ≡ true → n ≤ MOST_BUFFER_SIZE }
    ensures few { result ≡ true → live_slots cell.now.slots < MOST_SLOTS }
    ensures may { is_mode_of mode cell.now.item.shape.kind ≡ true → 0 < n → n ≤ MOST_BUFFER_SIZE
        → live_slots cell.now.slots < MOST_SLOTS → result ≡ true }
{
    is_allowed(mode, cell.kind())
        && n > 0
        && n <= MOST_BUFFER_SIZE as u32
        && cell.slots() < MOST_SLOTS as u32
}

/// Whether a mode is allowed on an item of a kind: RAW is on each, and else the kind's own mode.
fn is_allowed(mode: Mode, kind: Kind) -> bool
    ensures { result ≡ is_mode_of mode kind }
{
    match (mode, kind) {
        (Mode::Raw, _) => true,
        (Mode::Merge, Kind::Merge) => true,
        (Mode::Distinct, Kind::Distinct) => true,
        (Mode::Command, Kind::Command) => true,
        _ => false,
    }
}

/// An item's slot leaves, if it is live, and whether it was.
fn leave_on(cell: &mut ItemCell, slot: u32) -> bool
    ensures shape { cell.new.item.shape ≡ cell.old.item.shape }
    ensures stands { (ss : List (Option Slot)) (h : List Entry) (s : Slot) → StandsCell cell.old ss h
        → slot_at ss slot ≡ Some s → (result ≡ true) × StandsCell cell.new (set_slot ss slot None) h }
    ensures none { (ss : List (Option Slot)) (h : List Entry) → StandsCell cell.old ss h → slot_at ss slot ≡ None
        → (result ≡ false) × (cell.new ≡ cell.old) }
    ensures others { OthersStay slot cell.old cell.new }
    ensures settled { pending_at cell.new slot ≡ false }
{
    if !cell.has(slot) {
        return false;
    }
    cell.leave(slot);
    true
}
