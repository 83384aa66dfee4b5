//! The slots of an item with its history.
ghost use Rattle.std.specs.Prelude.{◌≡◌, true, ◌-◌, ◌<◌, ◌≤◌, List, Option, None, Some, IfOk, OnOk, OnErr, IsOk, IsSome, length};
ghost use Rattle.ls_event.specs.declared.limits.TheConstants.{MOST_BUFFER_SIZE, MOST_SLOTS};
ghost use Rattle.ls_event.specs.declared.event.Taken.{Taken as ATaken};
ghost use Rattle.ls_event.specs.Slots.{Slot, passed};
ghost use Rattle.ls_event.specs.Cuts.{Fits, cut, is_pending as is_pending};
ghost use Rattle.ls_event.specs.Joining.{plan_of, rows_asked, joined, is_mode_of};
ghost use Rattle.ls_cell.specs.Numbered.{slot_at, set_slot, put_slot, free_number, live_slots};
ghost use Rattle.ls_cell.specs.Cell.{StandsCell, HasSlot, cut_at, last_in};

use crate::live::LiveItem;
use ls_cell::Joined;
use ls_event::{Mode, Snap, Taken};
use ls_register::House;
use ls_value::NoMemory;

impl<N: House> LiveItem<N> {
    /// Its number, from 0, where it has a place in the register.
    pub fn item(&self) -> u32
        ensures { result ≡ self.now.item }
    {
        self.item
    }

    /// The number of events of its history.
    pub fn number(&self) -> u64
        ensures { result ≡ length self.now.history }
    {
        self.cell.number()
    }

    /// How many slots are live.
    pub fn slots(&self) -> u32
        ensures { result ≡ live_slots self.now.cell.slots }
    {
        self.cell.slots()
    }

    /// Joins a slot behind the whole history, as [`ItemCell::join`](ls_cell::ItemCell::join) does: in mode RAW or the
    /// one of the item's kind, with a buffer of size `n`, 1 to [`MOST_BUFFER_SIZE`](ls_event::MOST_BUFFER_SIZE), where
    /// fewer than [`MOST_SLOTS`](ls_event::MOST_SLOTS) slots are live. After `NoMemory` all is as before.
    pub fn join(&mut self, mode: Mode, n: u32, snapshot: Snap) -> Result<Joined, NoMemory>
        requires mode { is_mode_of mode self.old.shape.kind ≡ true }
        requires some { 0 < n }
        requires most { n ≤ MOST_BUFFER_SIZE }
        requires few { live_slots self.old.cell.slots < MOST_SLOTS }
        ensures base { IfOk result (λ j. j.base ≡ length self.old.history) }
        ensures number { IfOk result (λ j. (ss : List (Option Slot)) → StandsCell self.old.cell ss self.old.history
            → j.slot ≡ free_number ss) }
        ensures rest { self.new ≡ record self.old { cell = self.new.cell } }
        ensures stands { OnOk result ((ss : List (Option Slot)) → StandsCell self.old.cell ss self.old.history
            → StandsCell self.new.cell
            (put_slot ss (joined (plan_of self.old.shape self.old.history mode n) self.old.history (rows_asked snapshot)))
            self.old.history) }
        ensures err { OnErr result (self.new ≡ self.old) }
    {
        let joined = self.cell.join(mode, n, snapshot)?;
        Ok(joined)
    }

    /// Drops a live slot, whose number is free then. It takes no memory.
    pub fn leave(&mut self, slot: u32)
        requires { HasSlot self.old.cell slot }
        ensures rest { self.new ≡ record self.old { cell = self.new.cell } }
        ensures stands { (ss : List (Option Slot)) → StandsCell self.old.cell ss self.old.history
            → StandsCell self.new.cell (set_slot ss slot None) self.old.history }
    {
        self.cell.leave(slot);
    }

    /// Enqueues into a live slot until it has every event of the history. After `NoMemory` it has some more of them, maybe
    /// none. No memory is taken where it has them all.
    pub fn catch_up(&mut self, slot: u32) -> Result<(), NoMemory>
        requires { HasSlot self.old.cell slot }
        ensures rest { self.new ≡ record self.old { cell = self.new.cell } }
        ensures live { HasSlot self.new.cell slot }
        ensures last { OnOk result (last_in self.new.cell slot ≡ length self.old.history) }
        ensures no_memory { last_in self.old.cell slot ≡ length self.old.history → IsOk result }
        ensures stands { (ss : List (Option Slot)) (s : Slot) → StandsCell self.old.cell ss self.old.history
            → slot_at ss slot ≡ Some s
            → StandsCell self.new.cell (set_slot ss slot (Some (record s { last = last_in self.new.cell slot })))
            self.old.history }
    {
        self.cell.catch_up(slot)?;
        Ok(())
    }

    /// The next cut of a live slot, whether it makes a line or not; `None` where there is none.
    pub fn look(&self, slot: u32) -> Result<Option<Taken>, NoMemory>
        requires { HasSlot self.now.cell slot }
        ensures own { IfOk result (λ t. t ≡ cut_at self.now.cell slot) }
        ensures fits { IfOk result (Fits self.now.shape.fields) }
        ensures cut { IfOk result (λ t. (ss : List (Option Slot)) (s : Slot) → StandsCell self.now.cell ss self.now.history
            → slot_at ss slot ≡ Some s → t ≡ cut self.now.history s) }
    {
        let taken = self.cell.look(slot)?;
        Ok(taken)
    }

    /// Moves a live slot past its next cut, of which there is one. It takes no memory.
    pub fn pass_cut(&mut self, slot: u32)
        requires { IsSome (cut_at self.old.cell slot) }
        ensures rest { self.new ≡ record self.old { cell = self.new.cell } }
        ensures live { HasSlot self.new.cell slot }
        ensures stands { (ss : List (Option Slot)) (s : Slot) (t : ATaken) → StandsCell self.old.cell ss self.old.history
            → slot_at ss slot ≡ Some s → cut self.old.history s ≡ Some t
            → StandsCell self.new.cell (set_slot ss slot (Some (passed s t))) self.old.history }
    {
        self.cell.pass(slot);
    }

    /// Whether a live slot is pending: something is enqueued that no cut took. It takes no memory.
    pub fn pending(&self, slot: u32) -> bool
        requires { HasSlot self.now.cell slot }
        ensures { (ss : List (Option Slot)) (s : Slot) → StandsCell self.now.cell ss self.now.history
            → slot_at ss slot ≡ Some s → result ≡ is_pending self.now.history s }
    {
        self.cell.pending(slot)
    }

    /// How many events of the history a live slot doesn't have yet. It takes no memory.
    pub fn lag(&self, slot: u32) -> u64
        requires { HasSlot self.now.cell slot }
        ensures { (ss : List (Option Slot)) (s : Slot) → StandsCell self.now.cell ss self.now.history
            → slot_at ss slot ≡ Some s → result ≡ length self.now.history - s.last }
    {
        self.cell.lag(slot)
    }
}
