//! The seats of a subscription, by which its slots are caught up with their items and cut.
ghost use Rattle.std.specs.Prelude.{◌≡◌, ◌≤◌, ◌-◌, ◌++◌, ◌∷◌, [], Some, Bool, IfOk, IfSome, IfNone, OnOk, OnErr, IsTrue, IsSome};
ghost use Rattle.std.specs.Prelude.{true, false, length, slice_get};
ghost use mathlib.Core.List.{IsPrefix};
ghost use Rattle.ls_event.specs.Cuts.{cut, is_pending};
ghost use Rattle.ls_seated.specs.Seats.{SeatSeen, IsSeatOf, IsReady, slot_of};
ghost use Rattle.ls_live.specs.Live.{IsWatchOf};
ghost use Rattle.ls_taking.specs.Groups.{SubSeen};
ghost use Rattle.ls_taking.specs.Taking.{seat_set, told_to, cursor_after};

use ls_chron::Chron;
use ls_event::Taken;
use ls_live::Watch;
use ls_register::{House, Made};
use ls_seated::{Seat, Seated};
use ls_sight::CutOf;
use ls_subs::SlotRef;
use ls_value::NoMemory;
use std::marker::Model;

/// The seats of a subscription, in the order of its items. Contracts see its number and the seats.
#[derive(Drop)]
pub struct SubSeats<N: House> {
    sub: u32,
    seats: Vec<Seat<N>>,
}

impl<N: House> Model for SubSeats<N> {
    ghost use Rattle.ls_taking.specs.Groups.{SubSeen};

    ghost Value = { SubSeen };

    ghost view = { λ s. record { sub = s.sub; seats = s.seats.items } };
}

impl<N: House> SubSeats<N> {
    /// The seats of a subscription of this number, in the order of its items.
    pub fn new(sub: u32, seats: Vec<Seat<N>>) -> SubSeats<N>
        ensures { result ≡ record { sub = sub; seats = seats.items } }
    {
        SubSeats { sub, seats }
    }

    /// The last seat, which is taken out; `None` only where there is none.
    pub fn pop(&mut self) -> Option<Seat<N>>
        ensures last { IfSome result (λ t. self.old ≡ record self.new { seats = self.new.seats ++ t ∷ [] }) }
        ensures none { IfNone result ((self.old.seats ≡ []) × (self.new ≡ self.old)) }
    {
        self.seats.pop()
    }

    /// The subscription's number.
    pub fn sub(&self) -> u32
        ensures { result ≡ self.now.sub }
    {
        self.sub
    }

    /// Whether an item has the other side of the seat of a rank, from 1.
    pub(crate) fn is_seat(
        &mut self,
        register: &Chron<Made>,
        item: &mut Seated<N>,
        rank: u32,
    ) -> bool
        requires { register.now ≡ N.deed.register }
        ensures same { (self.new ≡ self.old) × (item.new ≡ item.old) }
        ensures one { IsTrue result → (1 ≤ rank) × ((t : SeatSeen) × (slice_get self.old.seats (rank - 1) ≡ Some t)
            × IsSeatOf t item.old) }
    {
        let rank = rank as usize;
        if rank == 0 || rank > self.seats.len() {
            return false;
        }
        let seat = &mut self.seats[rank - 1];
        item.is_at(register, seat)
    }

    /// The slot of the seat of a rank, from 1, gets every event of its item, and a watch the whole history.
    pub(crate) fn catch_up(
        &mut self,
        item: &mut Seated<N>,
        watch: &mut Watch<N>,
        rank: u32,
    ) -> Result<(), NoMemory>
        requires some { 1 ≤ rank }
        requires seat { (t : SeatSeen) × (slice_get self.old.seats (rank - 1) ≡ Some t) × IsSeatOf t item.old }
        requires watch { IsWatchOf watch.old item.old.item }
        ensures item { item.new.item ≡ record item.old.item { cell = item.new.item.cell } }
        ensures ready { OnOk result ((t : SeatSeen) → slice_get self.old.seats (rank - 1) ≡ Some t
            → IsReady (record t { last = length item.old.item.history; quiet = false }) item.new
            × (self.new ≡ seat_set self.old rank (record t { last = length item.old.item.history; quiet = false }))) }
        ensures watch { OnOk result ((watch.new ≡ record watch.old { list = item.old.item.history })
            × IsPrefix watch.old.list item.old.item.history) }
        ensures err { OnErr result ((self.new ≡ self.old) × (watch.new ≡ watch.old)) }
    {
        let seat = &mut self.seats[rank as usize - 1];
        item.catch_up(seat, watch)
    }

    /// The next cut of the slot of the seat of a rank, from 1, which has every event; `None` where it has nothing to tell.
    pub fn look(&self, item: &Seated<N>, rank: u32) -> Result<Option<Taken>, NoMemory>
        requires some { 1 ≤ rank }
        requires seat { (t : SeatSeen) × (slice_get self.now.seats (rank - 1) ≡ Some t) × IsReady t item.now }
        ensures { IfOk result (λ o. (t : SeatSeen) → slice_get self.now.seats (rank - 1) ≡ Some t
            → o ≡ cut item.now.item.history (slot_of item.now.item.shape item.now.item.history t.plan t.list)) }
    {
        item.look(&self.seats[rank as usize - 1])
    }

    /// Whether the slot of the seat of a rank, from 1, which has every event, is pending.
    pub fn pending(&self, item: &Seated<N>, rank: u32) -> bool
        requires some { 1 ≤ rank }
        requires seat { (t : SeatSeen) × (slice_get self.now.seats (rank - 1) ≡ Some t) × IsReady t item.now }
        ensures { (t : SeatSeen) → slice_get self.now.seats (rank - 1) ≡ Some t → result ≡ is_pending
            item.now.item.history (slot_of item.now.item.shape item.now.item.history t.plan t.list) }
    {
        item.pending(&self.seats[rank as usize - 1])
    }

    /// The seat of a rank, from 1, keeps whether its slot, which has every event, isn't pending.
    pub fn rest(&mut self, item: &Seated<N>, rank: u32)
        requires some { 1 ≤ rank }
        requires seat { (t : SeatSeen) × (slice_get self.old.seats (rank - 1) ≡ Some t) × IsReady t item.now }
        ensures { (t : SeatSeen) → slice_get self.old.seats (rank - 1) ≡ Some t → (quiet : Bool)
            × (self.new ≡ seat_set self.old rank (record t { quiet = quiet }))
            × (quiet ≡ true → is_pending item.now.item.history
            (slot_of item.now.item.shape item.now.item.history t.plan t.list) ≡ false) }
    {
        let seat = &mut self.seats[rank as usize - 1];
        let quiet = !item.pending(seat);
        seat.keep_quiet(quiet);
    }

    /// Whether the seat of a rank, from 1, knows that its slot had nothing to tell with so many events enqueued.
    pub fn is_quiet(&self, rank: u32, events: u64) -> bool
        ensures { IsTrue result → (1 ≤ rank) × ((t : SeatSeen) × (slice_get self.now.seats (rank - 1) ≡ Some t)
            × (t.quiet ≡ true) × (t.last ≡ events)) }
    {
        let rank = rank as usize;
        if rank == 0 || rank > self.seats.len() {
            return false;
        }
        is_quiet(&self.seats[rank - 1], events)
    }

    /// The next cut of the slot of the seat of a rank, from 1, which has every event, is passed on both sides. Its lines
    /// then tell of the item up to the cursor.
    pub fn pass(&mut self, item: &mut Seated<N>, rank: u32, cursor: u64)
        requires some { 1 ≤ rank }
        requires seat { (t : SeatSeen) × (slice_get self.old.seats (rank - 1) ≡ Some t) × IsReady t item.old
            × IsSome (cut item.old.item.history
            (slot_of item.old.item.shape item.old.item.history t.plan t.list)) }
        ensures item { item.new.item ≡ record item.old.item { cell = item.new.item.cell } }
        ensures moves { (t : SeatSeen) → slice_get self.old.seats (rank - 1) ≡ Some t
            → self.new ≡ seat_set self.old rank (record t {
              list = t.list ++ length item.old.item.history ∷ [];
              quiet = false;
              cursor = cursor;
            }) }
    {
        let seat = &mut self.seats[rank as usize - 1];
        item.pass(seat);
        seat.keep_cursor(cursor);
    }

    /// The number up to which the lines of a slot tell of its item after a cut: a key of mode COMMAND and the snapshot's
    /// end leave it as it was.
    pub fn cursor_after(&self, rank: u32, taken: &Taken) -> u64
        requires some { 1 ≤ rank }
        requires seat { (t : SeatSeen) × (slice_get self.now.seats (rank - 1) ≡ Some t) }
        ensures { (t : SeatSeen) → slice_get self.now.seats (rank - 1) ≡ Some t
            → result ≡ cursor_after t.cursor taken.now }
    {
        moved(taken, self.seats[rank as usize - 1].cursor())
    }

    /// What the history is to tell of the next cut of a slot, which has every event: the slot, its cursor before and after it,
    /// and the number of the event at which its row stands.
    pub fn cut_of(&self, slot: SlotRef, taken: &Taken) -> CutOf
        requires some { 1 ≤ slot.place }
        requires seat { (t : SeatSeen) × (slice_get self.now.seats (slot.place - 1) ≡ Some t) }
        ensures slot { result.slot ≡ Some slot }
        ensures numbers { (t : SeatSeen) → slice_get self.now.seats (slot.place - 1) ≡ Some t
            → (result.before ≡ t.cursor) × (result.upto ≡ told_to t.cursor taken.now) × (result.at ≡ t.last) }
    {
        let seat = &self.seats[slot.place as usize - 1];
        CutOf {
            slot: Some(slot),
            before: seat.cursor(),
            upto: upto(taken, seat.cursor()),
            at: seat.last(),
        }
    }
}

/// Whether a seat knows that its slot had nothing to tell with so many events enqueued.
fn is_quiet<N: House>(seat: &Seat<N>, events: u64) -> bool
    ensures { IsTrue result → (seat.now.quiet ≡ true) × (seat.now.last ≡ events) }
{
    seat.is_quiet() && seat.last() == events
}

/// The number up to which a cut tells, where the slot told up to this one.
fn upto(taken: &Taken, cursor: u64) -> u64
    ensures { result ≡ told_to cursor taken.now }
{
    match taken {
        Taken::Row { upto, .. } => *upto,
        Taken::Lost { upto, .. } => *upto,
        Taken::Change { upto, .. } => *upto,
        Taken::Key { upto, .. } => *upto,
        Taken::Cleared { upto } => *upto,
        Taken::EndOfSnapshot => cursor,
    }
}

/// The number up to which a slot tells after a cut, where it told up to this one.
fn moved(taken: &Taken, cursor: u64) -> u64
    ensures { result ≡ cursor_after cursor taken.now }
{
    match taken {
        Taken::Row { upto, .. } => *upto,
        Taken::Lost { upto, .. } => *upto,
        Taken::Change { upto, .. } => *upto,
        Taken::Key { .. } => cursor,
        Taken::Cleared { upto } => *upto,
        Taken::EndOfSnapshot => cursor,
    }
}
