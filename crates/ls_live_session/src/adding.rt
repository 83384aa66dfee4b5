//! A subscription is added to a session: its slots join their items one after another (TLCP 2.1, control with LS_op add).
ghost use Rattle.std.specs.Prelude.{◌≡◌, ◌≤◌, ◌+◌, ◌++◌, ◌∷◌, [], ℕ, None, Some, IfOk, IfErr, OnOk, OnErr, IsTrue, IsFalse};
ghost use Rattle.std.specs.Prelude.{false, length, map, slice_get};
ghost use Rattle.ls_value.specs.declared.limits.TheConstants.{GREATEST_TICK};
ghost use Rattle.ls_request.specs.Ranges.{AddFits};
ghost use Rattle.ls_record.specs.Acting.{asks_of};
ghost use Rattle.ls_record.specs.Cutting.{Ask as Asks};
ghost use Rattle.ls_subs.specs.declared.plan.Refusal.TheVariants as Refusal;
ghost use Rattle.ls_told.specs.Seen.{SeesMore};
ghost use Rattle.ls_told.specs.Heard.{counts_as};
ghost use Rattle.ls_told.specs.Requests.{is_spent};
ghost use Rattle.atomic_table.specs.Seated.{TableId};
ghost use Rattle.ls_cell.specs.Numbered.{live_slots};
ghost use Rattle.ls_register.specs.declared.made.Made.TheVariants.{Slot as SlotMade};
ghost use Rattle.ls_seated.specs.Seats.{IsJoinCause};
ghost use Rattle.ls_joining.specs.Sights.{AreOneItems};
ghost use Rattle.ls_joining.specs.Adding.{AddsTo};
ghost use Rattle.ls_live_session.specs.Adding.{FindsAdd};

use crate::live::LiveSession;
use ls_chron::Chron;
use ls_config::Config;
use ls_joining::{
    Prepared, SessionParts, Sight, SubSeats, finish_in, item_at, join_next, prepare_in,
};
use ls_register::{Book, House, Made, SlotBegun};
use ls_request::Add;
use ls_seated::{JoinRefused, Seat, Seated};
use ls_subs::{AddPlan, Refusal};
use ls_value::{Names, NoMemory};
use std::marker::Model;

/// A session to which a subscription is added, while its slots join their items. It has all the memory that the session
/// needs for the subscription.
#[derive(Drop)]
pub struct Adding<'a, N: House> {
    add: &'a Add,
    free: u32,
    parts: Box<SessionParts<N>>,
    plan: AddPlan,
    schema: Names,
    slots: Vec<SlotBegun>,
    seats: Vec<Seat<N>>,
    numbers: Vec<u32>,
}

impl<'a, N: House> Model for Adding<'a, N> {
    ghost use Rattle.std.specs.Prelude.{map, length};
    ghost use Rattle.ls_subs.specs.declared.plan.PlanItem.{PlanItem};
    ghost use Rattle.ls_live_session.specs.Adding.{AddingSeen};

    ghost Value = { AddingSeen };

    ghost view = { λ d. record {
      number = d.parts.value.number;
      place = d.parts.value.place;
      table = d.parts.value.history.table;
      lines = d.parts.value.history.list;
      watches = d.parts.value.watches.items;
      add = d.add.now;
      free = d.free;
      items = map (λ (p : PlanItem). p.item) d.plan.items.items;
      joined = length d.seats.items;
    } };

    ghost use Rattle.std.specs.Prelude.{◌≡◌, ◌≤◌, ◌+◌, IfSome};
    ghost use Rattle.std.specs.Vec.{vec_len, vec_capacity};
    ghost use Rattle.ls_session.specs.Record.{Record};
    ghost use Rattle.ls_joining.specs.Sights.{ShowsIt};
    ghost use Rattle.ls_joining.specs.Adding.{IsAdding};
    ghost use Rattle.ls_live_session.specs.Adding.{MayBegin};

    ghost invariant = { λ d. ((r : Record) × IsAdding N.deed.config d.parts.value.number d.parts.value.history.list
        d.parts.value.watches.items d.parts.value.subs.items d.parts.value.session d.add.now d.free d.plan d.seats.items d.numbers.items r)
        × IfSome d.parts.value.place (λ p. ShowsIt p d.parts.value.number d.parts.value.history.table)
        × (vec_len d.parts.value.subs + 1 ≤ vec_capacity d.parts.value.subs)
        × MayBegin d.add.now (length d.plan.items.items) d.schema d.slots.items (vec_len d.slots) (vec_capacity d.slots) };
}

/// A session to which a subscription can't be added, and why.
#[derive(Drop)]
pub struct NotAdded<N: House> {
    pub session: LiveSession<N>,
    pub cause: Refusal,
}

/// A session to which no subscription was added, and the seats of the slots that had joined, which are to leave.
#[derive(Drop)]
pub struct Undone<N: House> {
    pub session: LiveSession<N>,
    pub seats: SubSeats<N>,
}

impl<N: House> LiveSession<N> {
    /// Begins to add a subscription, where nothing stands against it. `free` is the number of slots that the server may
    /// still give, and `spent` says whether its register is. It is refused, in this order: 20 where the session has ended,
    /// 72, 70, 21, 24, 23, 71, 74 as [`Session::prepare_add`](ls_session::Session::prepare_add) says, and 74 where the
    /// session's history or the register is spent. A refusal changes nothing.
    pub fn begin_add<'a>(
        self,
        add: &'a Add,
        config: &Config,
        free: u32,
        spent: bool,
    ) -> Result<Adding<'a, N>, NotAdded<N>>
        requires fits { AddFits add.now }
        requires config { config.now.items ≡ N.deed.config }
        ensures begun { IfOk result (λ d. d ≡ record {
          number = self.number;
          place = self.place;
          table = self.table;
          lines = self.lines;
          watches = self.watches;
          add = add.now;
          free = free;
          items = map (λ (a : Asks). a.item) (asks_of N.deed.config add.now);
          joined = 0;
        }) }
        ensures accepted { OnOk result (FindsAdd N.deed.config self.number self.lines self.watches free spent add.now None
            × (is_spent self.lines ≡ false) × (spent ≡ false)) }
        ensures refused { IfErr result (λ e. (code : ℕ) → e.cause ≡ Refusal.Code code
            → FindsAdd N.deed.config self.number self.lines self.watches free spent add.now (Some code)) }
        ensures same { IfErr result (λ e. e.session ≡ self) }
    {
        let LiveSession { mut parts } = self;
        match prepare_in(&mut *parts, add, config, free, spent) {
            Ok(prepared) => {
                let alloc = parts.alloc;
                let Prepared {
                    plan,
                    schema,
                    slots,
                } = prepared;
                Ok(Adding {
                    add,
                    free,
                    parts,
                    plan,
                    schema,
                    slots,
                    seats: Vec::new(alloc),
                    numbers: Vec::new(alloc),
                })
            }
            Err(cause) => Err(NotAdded {
                session: LiveSession { parts },
                cause,
            }),
        }
    }
}

impl<'a, N: House> Adding<'a, N> {
    /// How many slots join.
    pub fn slots(&self) -> usize
        ensures { result ≡ length self.now.items }
    {
        self.plan.items.len()
    }

    /// The number of the item that joins next, `None` where all have a slot.
    pub fn next_item(&self) -> Option<u32>
        ensures { result ≡ slice_get self.now.items self.now.joined }
    {
        item_at(&self.plan.items, self.seats.len())
    }

    /// The slot of the next item joins it, and the session has then seen the item's whole history. `false`, where this
    /// isn't the next item as the register knows it, changes nothing. A refusal changes no slot.
    pub fn join<H: Drop>(
        &mut self,
        register: &Chron<Made>,
        item: &mut Seated<N>,
        book: &mut Book<N, H>,
    ) -> Result<bool, JoinRefused>
        requires register { register.now ≡ N.deed.register }
        ensures rest { self.new ≡ record self.old { watches = self.new.watches; joined = self.new.joined } }
        ensures more { SeesMore self.old.watches self.new.watches }
        ensures joined { IfOk result (λ joins. IsTrue joins → self.new.joined ≡ self.old.joined + 1) }
        ensures other { IfOk result (λ joins. IsFalse joins → (self.new.joined ≡ self.old.joined)
            × (item.new ≡ item.old) × (book.new ≡ book.old)) }
        ensures item { item.new.item ≡ record item.old.item { cell = item.new.item.cell } }
        ensures err { OnErr result ((self.new.joined ≡ self.old.joined) × (item.new ≡ item.old) × (book.new ≡ book.old)) }
        ensures cause { IfErr result (IsJoinCause (live_slots item.old.item.cell.slots) (length book.old)) }
        ensures book { IfOk result (λ joins. IsTrue joins → (number : ℕ) × (table : TableId)
            × (book.new ≡ book.old ++ SlotMade item.old.item.item number table ∷ [])) }
    {
        let Adding {
            parts,
            plan,
            seats,
            numbers,
            ..
        } = self;
        join_next(&mut *parts, plan, seats, numbers, register, item, book)
    }

    /// The sight watches each item that the session watches by now, as [`LiveSession::show_items`] has it.
    pub fn show_items(
        &mut self,
        register: &Chron<Made>,
        sight: &mut Sight<N>,
    ) -> Result<bool, NoMemory>
        requires { register.now ≡ N.deed.register }
        ensures same { self.new ≡ self.old }
        ensures sight { sight.new ≡ record sight.old { watches = sight.new.watches } }
        ensures more { SeesMore sight.old.watches sight.new.watches }
        ensures one { IfOk result (λ yes. IsTrue yes → AreOneItems self.old.watches sight.new.watches) }
        ensures not_one { IfOk result (λ yes. IsFalse yes → AreOneItems self.old.watches sight.new.watches → ⊥) }
        ensures err { OnErr result (sight.new ≡ sight.old) }
    {
        let Adding { parts, .. } = self;
        sight.watch_items(register, &mut parts.watches)
    }

    /// The subscription begins at a tick, in ms: the history has its SUBOK or SUBCMD and its CONF, and the session has
    /// the seats of its slots. All items have joined. It takes no memory.
    pub fn finish(self, now: u64) -> LiveSession<N>
        requires tick { now ≤ GREATEST_TICK }
        requires all { self.joined ≡ length self.items }
        ensures session { result ≡ record {
          number = self.entry.number;
          place = self.entry.place;
          table = self.entry.table;
          lines = result.lines;
          watches = self.entry.watches;
        } }
        ensures added { AddsTo N.deed.config self.entry.number self.entry.add self.entry.free
            (counts_as now self.entry.lines) self.entry.lines result.lines self.entry.watches }
    {
        let Adding {
            add: _,
            free: _,
            mut parts,
            plan,
            schema,
            slots,
            seats,
            numbers,
        } = self;
        finish_in(&mut *parts, plan, schema, slots, seats, &numbers, now);
        LiveSession { parts }
    }

    /// The session without the subscription, and the seats of the slots that have joined by now, which are to leave their
    /// items. It takes no memory.
    pub fn undo(self) -> Undone<N>
        ensures session { result.session ≡ record {
          number = self.entry.number;
          place = self.entry.place;
          table = self.entry.table;
          lines = self.entry.lines;
          watches = self.entry.watches;
        } }
        ensures seats { length result.seats.seats ≡ self.entry.joined }
    {
        let Adding {
            add: _,
            free: _,
            parts,
            plan,
            schema: _,
            slots: _,
            seats,
            numbers: _,
        } = self;
        Undone {
            session: LiveSession { parts },
            seats: SubSeats::new(plan.sub, seats),
        }
    }
}
