//! Sessions that end, and their slots, which leave.
ghost use Rattle.std.specs.Prelude.{◌≡◌, ◌≤◌, ◌<◌, ◌⊎◌, ◌++◌, ◌∷◌, [], ℕ, true};
ghost use mathlib.Core.List.{IsPrefix};
ghost use Rattle.ls_value.specs.declared.limits.TheConstants.{GREATEST_TICK};
ghost use Rattle.ls_record.specs.Records.{is_alive};
ghost use Rattle.ls_told.specs.Heard.{heard, counts_as};
ghost use Rattle.ls_told.specs.Requests.{InTime};
ghost use Rattle.ls_shared.specs.Operations.{AddsNothing};

use crate::shared::Shared;
use ls_live_session::{Left, LiveSession, SubSeats};
use ls_register::{House, wait_for_good};
use ls_seated::Seat;
use ls_session::TIMED_OUT;
use ls_value::NoMemory;
use std::sync::atomic::Ordering;
use std::sync::{Arc, Wait};

impl<N: House> Shared<N> {
    /// Ends each session that was without a stream for too long, at a tick, in ms, of at most
    /// [`GREATEST_TICK`](ls_value::GREATEST_TICK). After `NoMemory` some of them have ended, and the next sweep goes on.
    /// The call may wait.
    pub fn sweep<R: Wait>(&self, rt: &R, now: u64) -> Result<(), NoMemory>
        requires { now ≤ GREATEST_TICK }
    {
        if now < self.overdue.load(Ordering::SeqCst) {
            return Ok(());
        }
        self.overdue.store(u64::MAX, Ordering::SeqCst);
        let live = self.book.lock(rt).live();
        for k in 0..live {
            if let Err(refused) = self.sweep_one(rt, live - 1 - k, now) {
                self.overdue.store(0, Ordering::SeqCst);
                return Err(refused);
            }
        }
        Ok(())
    }

    /// Ends the k-th session that lives, where it is without a stream for too long.
    fn sweep_one<R: Wait>(&self, rt: &R, k: usize, now: u64) -> Result<(), NoMemory>
        requires { now ≤ GREATEST_TICK }
    {
        let held = match self.book.lock(rt).nth(k) {
            None => return Ok(()),
            Some(held) => Arc::try_clone(held)?,
        };
        let mut guard = held.lock(rt);
        let Some(live) = &mut *guard else {
            wait_for_good(rt);
            unreachable!()
        };
        if live.is_alive() {
            self.end_overdue(rt, live, now);
            self.note_loss(live);
        }
        Ok(())
    }

    /// Ends a session that is without a stream for too long at a tick, in ms.
    pub(crate) fn end_overdue<R: Wait>(&self, rt: &R, live: &mut LiveSession<N>, now: u64)
        requires tick { now ≤ GREATEST_TICK }
        ensures rest { live.new ≡ record live.old { lines = live.new.lines } }
        ensures begins { IsPrefix live.old.lines live.new.lines }
        ensures ends { AddsNothing live.old.number now live.old.lines live.new.lines }
        ensures in_time { is_alive (heard live.new.number live.new.lines).life ≡ true
            → InTime (counts_as now live.new.lines) (heard live.new.number live.new.lines) }
    {
        if live.is_overdue(now) {
            let left = live.end(TIMED_OUT, now);
            let number = live.number();
            live.bell().ring();
            self.clear(rt, number, left);
        }
    }

    /// The slots of a session that has ended leave, and it is gone from the register.
    pub(crate) fn clear<R: Wait>(&self, rt: &R, number: u64, left: Left<N>) {
        let Left { subs, slots } = left;
        self.leave_all(rt, subs);
        let Ok(slots) = u32::try_from(slots) else {
            wait_for_good(rt);
            unreachable!()
        };
        let row = self.book.lock(rt).gone(&self.register, number, slots);
        if row.is_none() {
            wait_for_good(rt);
        }
    }

    /// The slots of these seats leave their items.
    pub(crate) fn leave_all<R: Wait>(&self, rt: &R, subs: Vec<SubSeats<N>>) {
        let mut subs = subs;
        for _ in rt.forever() {
            match subs.pop() {
                Some(seats) => self.leave_these(rt, seats),
                None => return,
            }
        }
    }

    /// Those of a subscription.
    pub(crate) fn leave_these<R: Wait>(&self, rt: &R, seats: SubSeats<N>) {
        let mut seats = seats;
        for _ in rt.forever() {
            match seats.pop() {
                Some(seat) => self.leave_item(rt, seat),
                None => return,
            }
        }
    }

    /// The slot of a seat leaves its item. Where the item doesn't have it, it waits for good.
    fn leave_item<R: Wait>(&self, rt: &R, seat: Seat<N>) {
        let mut seat = seat;
        let Some(lock) = self.items.get(seat.item() as usize) else {
            wait_for_good(rt);
            unreachable!()
        };
        if !lock.lock(rt).leave(&self.register, &mut seat) {
            wait_for_good(rt);
        }
    }
}
