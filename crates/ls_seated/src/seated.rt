//! An item with the item's side of each of its slots.
ghost use Rattle.std.specs.Prelude.{◌≡◌, ◌≢◌, ◌≤◌, ◌<◌, ◌++◌, ◌∷◌, [], ℕ, true, ◌&&◌, ◌==◌, is_some, false, None, length};
ghost use Rattle.std.specs.Prelude.{IfOk, IfErr, OnOk, OnErr, IsSome, IsTrue, IsFalse};
ghost use Rattle.std.specs.Arc.{arc_value};
ghost use Rattle.std.specs.Option.{option_map_or};
ghost use mathlib.Core.List.{IsPrefix};
ghost use Rattle.ls_event.specs.declared.limits.TheConstants.{MOST_ADAPTERS as MOST, MOST_BUFFER_SIZE, MOST_SLOTS};
ghost use Rattle.ls_event.specs.History.{HasFields};
ghost use Rattle.ls_event.specs.Publishes.{IsHistory};
ghost use Rattle.ls_event.specs.Textual.{Textual};
ghost use Rattle.ls_event.specs.Cuts.{Fits, cut, is_pending as is_pending};
ghost use Rattle.ls_event.specs.Joining.{plan_of, rows_asked, joined, is_mode_of};
ghost use Rattle.ls_cell.specs.Cell.{StandsCell};
ghost use Rattle.ls_cell.specs.Numbered.{slot_at, live_slots};
ghost use Rattle.ls_register.specs.declared.made.Made.TheVariants.{Slot as SlotMade};
ghost use Rattle.ls_live.specs.Live.{IsOf, IsPassFor, IsCause, IsWatchOf, are_one, cause_in, entry_of, whole_pass};
ghost use Rattle.ls_seated.specs.Seats.{IsSeatOf, IsReady, IsAt, IsJoinCause, first_cursor, slot_of};

use crate::joining::{Asked, join_in, leave_in};
use crate::planned::JoinRefused;
use crate::seat::{ItemSlot, Seat};
use crate::sides::is_side;
use crate::turns::{catch_up_in, pass_in};
use ls_bell::Bell;
use ls_chron::Chron;
use ls_event::{Entry, Event, Mode, PublishRefused, Snap, Taken};
use ls_live::{CopiedEntry, LiveItem, PubPass, Watch, publish_copied};
use ls_register::{Book, House, Made};
use ls_value::NoMemory;
use std::alloc::Global;
use std::marker::Model;
use std::sync::Arc;

/// An item of a server with its side of each of its slots. Contracts see the item, and these sides by the slots'
/// numbers: each slot's record is the one that its side says, on the item's whole history.
#[derive(Drop)]
pub struct Seated<N: House> {
    alloc: Global,
    live: LiveItem<N>,
    sides: Vec<Option<ItemSlot<N>>>,
    bells: Arc<Vec<Arc<Bell, Global>>, Global>,
}

impl<N: House> Model for Seated<N> {
    ghost use Rattle.ls_seated.specs.Seats.{SeatedItem, IsSeated};

    ghost Value = { SeatedItem };

    ghost view = { λ i. record { item = i.live; sides = i.sides.items } };

    ghost invariant = { λ i. IsSeated i.live i.sides.items };
}

impl<N: House> Seated<N> {
    /// An item that has a place in the register, and no slot. It takes no memory but for the list of bells.
    pub fn new(alloc: Global, live: LiveItem<N>) -> Result<Seated<N>, NoMemory>
        requires placed { IsSome live.place }
        requires slots { StandsCell live.cell [] live.history }
        ensures { IfOk result (λ i. (i.item ≡ live) × (i.sides ≡ [])) }
    {
        let sides = Vec::new(alloc);
        let bells = Arc::new(alloc, Vec::new(alloc))?;
        Ok(Seated {
            alloc,
            live,
            sides,
            bells,
        })
    }

    /// The item's shared history, to be kept beside its lock. It takes no memory, and is refused only where it is held
    /// 2^63 times.
    pub fn history(&self) -> Result<Arc<Chron<Entry>, Global>, NoMemory>
        ensures { IfOk result (λ chron. arc_value chron ≡ self.now.item.table) }
    {
        self.live.history()
    }

    /// A pass of an adapter, as [`LiveItem::pass_at`] gives it.
    pub fn pass_at(&mut self, register: &Chron<Made>, adapter: u8) -> PubPass<N>
        requires register { register.now ≡ N.deed.register }
        requires some { 1 ≤ adapter }
        requires most { adapter ≤ MOST }
        ensures same { self.new ≡ self.old }
        ensures pass { result ≡ whole_pass self.old.item adapter }
        ensures textual { Textual result.list }
    {
        self.live.pass_at(register, adapter)
    }

    /// Whether it is the declared item of this number, from 0, as [`LiveItem::has_item`] tells.
    pub fn has_item(&self, item: u32) -> bool
        ensures exact { result ≡ (is_some self.now.item.place && (self.now.item.item == item)) }
        ensures of { IsTrue result → (adapter : ℕ) → IsPassFor N.deed.config item (whole_pass self.now.item adapter) }
    {
        self.live.has_item(item)
    }

    /// Whether the pass is of this item, as [`LiveItem::is_of`] tells.
    pub fn is_of(&mut self, register: &Chron<Made>, pass: &mut PubPass<N>) -> bool
        requires { register.now ≡ N.deed.register }
        ensures same { (self.new ≡ self.old) × (pass.new ≡ pass.old) }
        ensures exact { result ≡ are_one self.old.item.place pass.old.place }
        ensures one { IsTrue result → IsOf pass.old self.old.item }
    {
        self.live.is_of(register, pass)
    }

    /// Adds an event to the history, as [`publish_copied`](ls_live::publish_copied) does. The sides stay as they were.
    pub fn publish_copied(
        &mut self,
        pass: &mut PubPass<N>,
        seq: u64,
        event: Event,
        entry: &Result<CopiedEntry, NoMemory>,
    ) -> Result<u64, PublishRefused>
        requires of { IsOf pass.old self.old.item }
        requires fields { HasFields self.old.item.shape.fields event }
        requires copy { IfOk entry.now (λ e. e ≡ entry_of pass.old.adapter seq event) }
        ensures item { self.new.item
            ≡ record self.old.item { cell = self.new.item.cell; history = self.new.item.history } }
        ensures sides { self.new.sides ≡ self.old.sides }
        ensures pass { pass.new ≡ record pass.old { list = self.new.item.history } }
        ensures begins { IsPrefix pass.old.list self.old.item.history }
        ensures done { IfOk result (λ number.
            (self.new.item.history ≡ self.old.item.history ++ entry_of pass.old.adapter seq event ∷ [])
            × (number ≡ length self.new.item.history)) }
        ensures admitted { IfOk result (λ _. cause_in self.old.item.shape self.old.item.history
            (entry_of pass.old.adapter seq event) ≡ None) }
        ensures refused { IfErr result (λ cause. (self.new.item.history ≡ self.old.item.history)
            × IsCause (cause_in self.old.item.shape self.old.item.history (entry_of pass.old.adapter seq event)) cause) }
        ensures lawful { IsHistory self.old.item.shape self.new.item.history }
        ensures textual { Textual self.new.item.history }
    {
        publish_copied(&mut self.live, pass, seq, event, entry)
    }

    /// The bells of the sessions that have slots here, to be rung when the item's lock was let go. It takes no memory,
    /// and is refused only where the list is held 2^63 times.
    pub fn bells(&self) -> Result<Arc<Vec<Arc<Bell, Global>, Global>, Global>, NoMemory> {
        Ok(Arc::try_clone(&self.bells)?)
    }

    /// A watch that has seen the whole history. It takes no memory, and is refused only where the history is held 2^63
    /// times.
    pub fn watch(&mut self, register: &Chron<Made>) -> Result<Watch<N>, NoMemory>
        requires register { register.now ≡ N.deed.register }
        ensures same { self.new ≡ self.old }
        ensures of { IfOk result (λ w. IsWatchOf w self.old.item) }
        ensures whole { IfOk result (λ w. w.list ≡ self.old.item.history) }
    {
        self.live.watch(register)
    }

    /// Whether a watch is of this item, by their places in the register. It takes no memory.
    pub fn is_watch(&mut self, register: &Chron<Made>, watch: &mut Watch<N>) -> bool
        requires { register.now ≡ N.deed.register }
        ensures same { (self.new ≡ self.old) × (watch.new ≡ watch.old) }
        ensures exact { result ≡ option_map_or (λ p. p.at == watch.old.at) self.old.item.place false }
        ensures one { IsTrue result → IsWatchOf watch.old self.old.item }
    {
        self.live.is_watch(register, watch)
    }

    /// Joins a slot behind the whole history, in mode RAW or the one of the item's kind, with a buffer of size `n`, 1 to
    /// [`MOST_BUFFER_SIZE`](ls_event::MOST_BUFFER_SIZE), for a subscription's item of a rank, from 0, and answers the
    /// session's side of it. The register then says which slot it is, and the watch has seen the whole history. The bell
    /// is the session's. Refusals change nothing; `Full` and `Spent` are answered before `NoMemory`.
    pub fn join<H: Drop>(
        &mut self,
        alloc: Global,
        register: &Chron<Made>,
        book: &mut Book<N, H>,
        mode: Mode,
        n: u32,
        snapshot: Snap,
        watch: &mut Watch<N>,
        sub: u32,
        rank: u32,
        bell: Arc<Bell, Global>,
    ) -> Result<Seat<N>, JoinRefused>
        requires register { register.now ≡ N.deed.register }
        requires mode { is_mode_of mode self.old.item.shape.kind ≡ true }
        requires some { 0 < n }
        requires most { n ≤ MOST_BUFFER_SIZE }
        requires watch { IsWatchOf watch.old self.old.item }
        ensures item { self.new.item ≡ record self.old.item { cell = self.new.item.cell } }
        ensures of { IfOk result (λ t. IsSeatOf t self.new) }
        ensures seat { IfOk result (λ t. t ≡ record {
          sub = sub;
          rank = rank;
          item = self.old.item.item;
          number = t.number;
          plan = record { mode = mode; size = n; base = length self.old.item.history; snapshot = snapshot };
          table = t.table;
          list = [];
          last = length self.old.item.history;
          quiet = false;
          cursor = first_cursor mode (length self.old.item.history) (rows_asked snapshot);
        }) }
        ensures at { IfOk result (λ t. IsAt self.old.item.shape self.old.item.history t.plan []
            (joined (plan_of self.old.item.shape self.old.item.history mode n) self.old.item.history
            (rows_asked snapshot))) }
        ensures others { IfOk result (λ t. (k : ℕ) → k ≢ t.number → slot_at self.new.sides k ≡ slot_at self.old.sides k) }
        ensures free { IfOk result (λ t. slot_at self.old.sides t.number ≡ None) }
        ensures book { IfOk result (λ t.
            book.new ≡ book.old ++ SlotMade self.old.item.item t.number t.table ∷ []) }
        ensures begins { OnOk result (IsPrefix watch.old.list self.old.item.history) }
        ensures watch { OnOk result (watch.new ≡ record watch.old { list = self.old.item.history }) }
        ensures cause { IfErr result (IsJoinCause (live_slots self.old.item.cell.slots) (length book.old)) }
        ensures few { OnOk result (live_slots self.old.item.cell.slots < MOST_SLOTS) }
        ensures err { OnErr result ((self.new ≡ self.old) × (watch.new ≡ watch.old) × (book.new ≡ book.old)) }
    {
        let Seated {
            live,
            sides,
            bells,
            ..
        } = self;
        let asked = Asked {
            mode,
            size: n,
            snapshot,
            sub,
            rank,
        };
        join_in(
            alloc, live, sides, bells, register, book, asked, watch, bell,
        )
    }

    /// Drops the slot of a seat, whose number is free then, and says whether it did: not where the seat is of no slot
    /// here. It takes no memory; the bell is let go with the next slot that joins or leaves where there is memory.
    pub fn leave(&mut self, register: &Chron<Made>, seat: &mut Seat<N>) -> bool
        requires { register.now ≡ N.deed.register }
        ensures seat { seat.new ≡ seat.old }
        ensures item { self.new.item ≡ record self.old.item { cell = self.new.item.cell } }
        ensures gone { IsTrue result → IsSeatOf seat.old self.old × (slot_at self.new.sides seat.old.number ≡ None) }
        ensures others { (k : ℕ) → k ≢ seat.old.number → slot_at self.new.sides k ≡ slot_at self.old.sides k }
        ensures stays { IsFalse result → self.new ≡ self.old }
    {
        let Seated {
            alloc,
            live,
            sides,
            bells,
        } = self;
        leave_in(*alloc, live, sides, bells, register, seat)
    }

    /// Whether the item has the other side of a seat, by their places in the register, and the slot joined as the seat
    /// says. It takes no memory.
    pub fn is_at(&mut self, register: &Chron<Made>, seat: &mut Seat<N>) -> bool
        requires { register.now ≡ N.deed.register }
        ensures same { (self.new ≡ self.old) × (seat.new ≡ seat.old) }
        ensures one { IsTrue result → IsSeatOf seat.old self.old }
    {
        is_side(&mut self.sides, register, seat)
    }

    /// Enqueues into a seat's slot until it has every event of the history, and brings the watch to the whole history.
    /// Both sides then passed the same cuts. After `NoMemory` the slot has some more of the events, maybe none; the seat
    /// and the watch are as before. No memory is taken where the slot has them all. The seat then isn't known to have
    /// nothing to tell, nor is it after [`Seated::pass`].
    pub fn catch_up(&mut self, seat: &mut Seat<N>, watch: &mut Watch<N>) -> Result<(), NoMemory>
        requires seat { IsSeatOf seat.old self.old }
        requires watch { IsWatchOf watch.old self.old.item }
        ensures item { self.new.item ≡ record self.old.item { cell = self.new.item.cell } }
        ensures sides { self.new.sides ≡ self.old.sides }
        ensures ready { OnOk result (IsReady seat.new self.new) }
        ensures seat { OnOk result (seat.new
            ≡ record seat.old { last = length self.old.item.history; quiet = false }) }
        ensures begins { OnOk result (IsPrefix watch.old.list self.old.item.history) }
        ensures watch { OnOk result (watch.new ≡ record watch.old { list = self.old.item.history }) }
        ensures err { OnErr result ((seat.new ≡ seat.old) × (watch.new ≡ watch.old)) }
    {
        catch_up_in(&mut self.live, &mut self.sides, seat, watch)
    }

    /// The next cut of a seat's slot, which has every event; `None` where there is none.
    pub fn look(&self, seat: &Seat<N>) -> Result<Option<Taken>, NoMemory>
        requires { IsReady seat.now self.now }
        ensures cut { IfOk result (λ t. t ≡ cut self.now.item.history
            (slot_of self.now.item.shape self.now.item.history seat.now.plan seat.now.list)) }
        ensures fits { IfOk result (Fits self.now.item.shape.fields) }
    {
        self.live.look(seat.number())
    }

    /// Whether a seat's slot, which has every event, is pending: something is enqueued that no cut took. It takes no
    /// memory.
    pub fn pending(&self, seat: &Seat<N>) -> bool
        requires { IsReady seat.now self.now }
        ensures { result ≡ is_pending self.now.item.history
            (slot_of self.now.item.shape self.now.item.history seat.now.plan seat.now.list) }
    {
        self.live.pending(seat.number())
    }

    /// Passes the next cut of a seat's slot on both sides. The slot has every event, and there is such a cut. It takes
    /// no memory.
    pub fn pass(&mut self, seat: &mut Seat<N>)
        requires ready { IsReady seat.old self.old }
        requires cut { IsSome (cut self.old.item.history
            (slot_of self.old.item.shape self.old.item.history seat.old.plan seat.old.list)) }
        ensures item { self.new.item ≡ record self.old.item { cell = self.new.item.cell } }
        ensures seat { seat.new ≡ record seat.old {
          list = seat.old.list ++ length self.old.item.history ∷ [];
          quiet = false;
        } }
        ensures ready { IsReady seat.new self.new }
    {
        pass_in(&mut self.live, &mut self.sides, seat);
    }
}
