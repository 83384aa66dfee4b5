//! The two sides of a slot.
ghost use Rattle.std.specs.Prelude.{◌≡◌, ◌++◌, ◌∷◌, [], IsTrue};
ghost use Rattle.ls_register.specs.Items.{ShowsSlot};
ghost use Rattle.ls_seated.specs.Seats.{IsSlotPlace, joined_seat, joined_cursor};

use crate::planned::{Planned, are_same};
use ls_bell::Bell;
use ls_chron::Chron;
use ls_event::{Mode, Snap};
use ls_pair::{ItemSide, SessionSide, Tie};
use ls_register::{House, Made, Place};
use std::alloc::Global;
use std::marker::Model;
use std::sync::Arc;

/// The session's side of a slot. Contracts see which slot it is, how it joined, the table of its tie, the cuts that were
/// passed, the number that was enqueued last as the session knows it, whether it had nothing to tell then, and the
/// number up to which its lines tell of the item.
#[derive(Drop)]
pub struct Seat<N: House> {
    sub: u32,
    rank: u32,
    item: u32,
    number: u32,
    plan: Planned,
    side: SessionSide<u64>,
    place: Place<N>,
    last: u64,
    quiet: bool,
    cursor: u64,
}

impl<N: House> Model for Seat<N> {
    ghost use Rattle.std.specs.Prelude.{◌≡◌};
    ghost use Rattle.ls_register.specs.Items.{ShowsSlot};
    ghost use Rattle.ls_seated.specs.Seats.{SeatSeen};

    ghost Value = { SeatSeen };

    ghost view = { λ t. record {
      sub = t.sub;
      rank = t.rank;
      item = t.item;
      number = t.number;
      plan = t.plan;
      table = t.side.table;
      list = t.side.list;
      last = t.last;
      quiet = t.quiet;
      cursor = t.cursor;
    } };

    ghost invariant = { λ t. ShowsSlot t.place t.item t.number t.side.table };
}

/// The item's side of a slot, with the session's bell. Contracts see how the slot joined, the table of its tie, and the
/// cuts that were passed.
#[derive(Drop)]
pub struct ItemSlot<N: House> {
    plan: Planned,
    tie: Tie<u64>,
    side: ItemSide<u64>,
    place: Place<N>,
    bell: Arc<Bell, Global>,
}

impl<N: House> Model for ItemSlot<N> {
    ghost use Rattle.std.specs.Prelude.{◌≡◌};
    ghost use Rattle.ls_seated.specs.Seats.{SideSeen, IsSlotPlace};

    ghost Value = { SideSeen };

    ghost view = { λ i. record {
      plan = i.plan;
      table = i.tie;
      list = i.side.list;
    } };

    ghost invariant = { λ i. (i.side.table ≡ i.tie) × IsSlotPlace i.place i.tie };
}

impl<N: House> Seat<N> {
    /// The session's side of a slot that joined, at its place in the register.
    pub fn joined(
        sub: u32,
        rank: u32,
        item: u32,
        number: u32,
        plan: Planned,
        side: SessionSide<u64>,
        place: Place<N>,
    ) -> Seat<N>
        requires none { side.list ≡ [] }
        requires place { ShowsSlot place item number side.table }
        ensures { result ≡ joined_seat sub rank item number plan side.table }
    {
        Seat {
            sub,
            rank,
            item,
            number,
            plan,
            side,
            place,
            last: plan.base,
            quiet: false,
            cursor: first_cursor(plan),
        }
    }

    /// Its subscription's number in the session.
    pub fn sub(&self) -> u32
        ensures { result ≡ self.now.sub }
    {
        self.sub
    }

    /// Its item's rank in the subscription, from 0.
    pub fn rank(&self) -> u32
        ensures { result ≡ self.now.rank }
    {
        self.rank
    }

    /// Its item's number, from 0.
    pub fn item(&self) -> u32
        ensures { result ≡ self.now.item }
    {
        self.item
    }

    /// Its number on the item, from 1.
    pub fn number(&self) -> u32
        ensures { result ≡ self.now.number }
    {
        self.number
    }

    /// How it joined.
    pub fn plan(&self) -> Planned
        ensures { result ≡ self.now.plan }
    {
        self.plan
    }

    /// The number that was enqueued last, as the session knows it.
    pub fn last(&self) -> u64
        ensures { result ≡ self.now.last }
    {
        self.last
    }

    /// Whether it had nothing to tell then.
    pub fn is_quiet(&self) -> bool
        ensures { result ≡ self.now.quiet }
    {
        self.quiet
    }

    /// Keeps whether it has nothing to tell, behind the number that was enqueued last.
    pub fn keep_quiet(&mut self, quiet: bool)
        ensures { self.new ≡ record self.old { quiet = quiet } }
    {
        self.quiet = quiet;
    }

    /// The number up to which its lines tell of the item.
    pub fn cursor(&self) -> u64
        ensures { result ≡ self.now.cursor }
    {
        self.cursor
    }

    /// Keeps the number up to which its lines tell of the item.
    pub fn keep_cursor(&mut self, cursor: u64)
        ensures { self.new ≡ record self.old { cursor = cursor } }
    {
        self.cursor = cursor;
    }

    /// Keeps the number that was enqueued last.
    pub fn keep_last(&mut self, last: u64)
        ensures { self.new ≡ record self.old { last = last } }
    {
        self.last = last;
    }
}

/// The number up to which a slot that joins has told of its item: in mode MERGE with a snapshot the item's state is told
/// as if its last event had come just now.
fn first_cursor(plan: Planned) -> u64
    ensures { result ≡ joined_cursor plan }
{
    match plan.mode {
        Mode::Merge => match plan.snapshot {
            Snap::No => plan.base,
            Snap::All => plan.base.saturating_sub(1),
            Snap::Last(_) => plan.base.saturating_sub(1),
        },
        Mode::Raw => plan.base,
        Mode::Distinct => plan.base,
        Mode::Command => plan.base,
    }
}

impl<N: House> ItemSlot<N> {
    /// The item's side of a slot that joined, at its place in the register.
    pub fn joined(
        plan: Planned,
        tie: Tie<u64>,
        side: ItemSide<u64>,
        place: Place<N>,
        bell: Arc<Bell, Global>,
    ) -> ItemSlot<N>
        requires table { side.table ≡ tie }
        requires none { side.list ≡ [] }
        requires place { IsSlotPlace place tie }
        ensures { result ≡ record { plan = plan; table = tie; list = [] } }
    {
        ItemSlot {
            plan,
            tie,
            side,
            place,
            bell,
        }
    }

    /// The session's bell.
    pub fn bell(&self) -> &Arc<Bell, Global> {
        &self.bell
    }

    /// Whether it is the other side of a seat, by their places in the register, and the slot joined as the seat says. It
    /// takes no memory.
    pub fn is_seat(&mut self, register: &Chron<Made>, seat: &mut Seat<N>) -> bool
        requires { register.now ≡ N.deed.register }
        ensures same { (self.new ≡ self.old) × (seat.new ≡ seat.old) }
        ensures one { IsTrue result → (self.old.table ≡ seat.old.table) × (self.old.plan ≡ seat.old.plan) }
    {
        let mut mine = self.place.again(register);
        let mut theirs = seat.place.again(register);
        if mine.is_that(register, &mut theirs) {
            are_same(self.plan, seat.plan)
        } else {
            false
        }
    }

    /// Both sides passed the same cuts. They are of one tie, and stay as they were.
    pub fn agree(&mut self, seat: &mut Seat<N>)
        requires { self.old.table ≡ seat.old.table }
        ensures agree { self.old.list ≡ seat.old.list }
        ensures same { (self.new ≡ self.old) × (seat.new ≡ seat.old) }
    {
        self.tie.agree(&mut self.side, &mut seat.side);
    }

    /// Both sides pass a cut. They are of one tie.
    pub fn pass(&mut self, seat: &mut Seat<N>, cut: u64)
        requires { self.old.table ≡ seat.old.table }
        ensures item { self.new ≡ record self.old { list = self.old.list ++ cut ∷ [] } }
        ensures seat { seat.new ≡ record seat.old { list = seat.old.list ++ cut ∷ [] } }
    {
        self.tie.pass(&mut self.side, &mut seat.side, &cut);
    }
}
