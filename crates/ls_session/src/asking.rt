//! The round of a session's slots at a tick, and how far it was asked (this project's profile).
ghost use Rattle.std.specs.Prelude.{◌≡◌, ◌≤◌, ◌<◌, ◌+◌, ◌++◌, ℕ, [], length, true, None, Some, IfOk, OnOk, OnErr, IfSome};
ghost use Rattle.std.specs.Option.{ForSome};
ghost use Rattle.std.specs.Vec.{vec_len, vec_capacity};
ghost use Rattle.ls_turns.specs.Round.{AreApart, node_of_place, slot_of_place, slots_of, has_slot, left, gave};
ghost use Rattle.ls_session.specs.Asking.{asked_anew, resumed, questioned, waiting, unasked, Passes, with_turns, with_gave};
ghost use Rattle.ls_session.specs.Asking.{Extends, BeginsAtFront, PassesTo};
ghost use Rattle.ls_session.specs.declared.asking.Front.{Front as TheFront};
ghost use Rattle.ls_session.specs.Session.{refs_from, refs_of};
ghost use Rattle.ls_record.specs.declared.TheConstants.{MOST_GROUP_ITEMS};

use crate::walks::{append_of, append_slots, join_slots};
use ls_budget::Due;
use ls_subs::{PlanItem, SlotRef};
use ls_turns::Turns;
use ls_value::NoMemory;
use std::alloc::Global;
use std::marker::Model;
use std::mem::replace;

/// A question that stands: the slot, and when it is due.
#[derive(Clone, Copy, Debug, PartialEq, Eq)]
pub struct Asked {
    pub(crate) slot: SlotRef,
    pub(crate) due: Due,
}

/// The first slots of a round, which wait for their frequency: the node of the last of them, and the least tick at which
/// the frequency of one of them allows an update.
#[derive(Clone, Copy, Debug, PartialEq, Eq)]
pub struct Front {
    pub(crate) node: usize,
    pub(crate) tick: u64,
}

/// The round of a session's slots, the tick at which it is asked, the node of the slot that is asked or is asked next,
/// the question that stands, the least tick at which one of those that wait is due, and the first slots that are known
/// to wait. When the session ends its slots are put into `leaving`, which has room for all of them, and `empty` takes
/// the place of their round.
#[derive(Drop)]
pub struct Asking {
    turns: Turns,
    tick: u64,
    next: Option<usize>,
    question: Option<Asked>,
    wait: Option<u64>,
    front: Option<Front>,
    leaving: Vec<SlotRef>,
    empty: Option<Turns>,
}

impl Model for Asking {
    ghost use Rattle.std.specs.Prelude.{◌≡◌, []};
    ghost use Rattle.std.specs.Vec.{vec_capacity};
    ghost use Rattle.std.specs.Option.{ForSome};
    ghost use Rattle.ls_turns.specs.Round.{IsSeated};
    ghost use Rattle.ls_session.specs.Asking.{Asking as Kept, Holds};

    ghost Value = { Kept };

    ghost view = { λ a. record {
      turns = a.turns;
      tick = a.tick;
      next = a.next;
      question = a.question;
      wait = a.wait;
      front = a.front;
      room = vec_capacity a.leaving;
    } };

    ghost invariant = { λ a.
        Holds a.turns a.next a.question (vec_capacity a.leaving) × (a.leaving.items ≡ [])
        × ForSome a.front (λ f. IsSeated a.turns f.node)
        × ForSome a.empty (λ turns. turns.seats ≡ []) };
}

impl Asking {
    /// No slot, at a tick.
    pub(crate) fn new(alloc: Global, now: u64) -> Result<Asking, NoMemory>
        ensures { IfOk result (λ a. (a.turns.seats ≡ []) × (a ≡ asked_anew now a) × (a.front ≡ None)) }
    {
        let turns = Turns::new(alloc)?;
        let empty = Turns::new(alloc)?;
        Ok(Asking {
            turns,
            tick: now,
            next: None,
            question: None,
            wait: None,
            front: None,
            leaving: Vec::new(alloc),
            empty: Some(empty),
        })
    }

    /// The tick.
    pub(crate) fn tick(&self) -> u64
        ensures { result ≡ self.now.tick }
    {
        self.tick
    }

    /// The question that stands.
    pub(crate) fn question(&self) -> Option<Asked>
        ensures asked { result ≡ self.now.question }
        ensures named { IfSome result (λ q. has_slot q.slot.sub q.slot.place self.now.turns ≡ true) }
    {
        self.question
    }

    /// The least tick at which one of the slots that wait is due.
    pub(crate) fn wait(&self) -> Option<u64>
        ensures { result ≡ self.now.wait }
    {
        self.wait
    }

    /// The slot that is asked next, if there is one.
    pub(crate) fn slot(&self) -> Option<SlotRef>
        ensures at { (i : ℕ) → self.now.next ≡ node_of_place self.now.turns i
            → result ≡ slot_of_place self.now.turns i }
        ensures named { IfSome result (λ s. has_slot s.sub s.place self.now.turns ≡ true) }
    {
        match self.next {
            Some(node) => Some(self.turns.slot(node)),
            None => None,
        }
    }

    /// No question stands, and the round begins anew at a tick.
    pub(crate) fn begin(&mut self, now: u64)
        ensures { self.new ≡ asked_anew now self.old }
    {
        self.tick = now;
        self.next = self.turns.first();
        self.question = None;
        self.wait = None;
    }

    /// The round goes on at the same tick, where no question stands, and else begins anew.
    pub(crate) fn resume(&mut self, now: u64)
        ensures { self.new ≡ resumed now self.old }
    {
        if self.question.is_some() || self.tick != now {
            self.begin(now);
        }
    }

    /// A question stands.
    pub(crate) fn ask(&mut self, asked: Asked)
        requires { has_slot asked.slot.sub asked.slot.place self.old.turns ≡ true }
        ensures { self.new ≡ questioned asked self.old }
    {
        self.question = Some(asked);
    }

    /// The question was answered in vain: the next slot is asked next.
    pub(crate) fn pass(&mut self)
        ensures { Passes self.old self.new }
    {
        self.question = None;
        if let Some(node) = self.next {
            self.next = self.turns.next(node);
        }
    }

    /// It was answered that the slot waits until a tick: the next slot is asked next.
    pub(crate) fn hold(&mut self, tick: u64)
        ensures { Passes (waiting tick self.old) self.new }
    {
        let least = match self.wait {
            Some(wait) => tick.min(wait),
            None => tick,
        };
        self.wait = Some(least);
        self.pass();
    }

    /// The slot that is asked next waits for its frequency until a tick: it is one of the first that do, where no other
    /// slot stands between.
    pub(crate) fn extend_front(&mut self, tick: u64)
        ensures front { Extends tick self.old self.new }
        ensures apart { AreApart self.new.turns }
    {
        self.turns.are_apart();
        let behind = match self.front {
            None => self.turns.first(),
            Some(front) => self.turns.next(front.node),
        };
        if behind == self.next
            && let Some(node) = self.next
        {
            let least = match self.front {
                None => tick,
                Some(front) => tick.min(front.tick),
            };
            self.front = Some(Front { node, tick: least });
        }
    }

    /// The least tick at which the frequency of one of the first slots that are known to wait allows an update, where
    /// the round is at its first slot.
    pub(crate) fn front_tick(&self) -> Option<u64>
        ensures { IfSome result (λ tick. BeginsAtFront tick self.now) }
    {
        self.turns.are_apart();
        let front = self.front?;
        if self.wait.is_none() && self.next == self.turns.first() {
            Some(front.tick)
        } else {
            None
        }
    }

    /// The first slots that are known to wait are passed over. One of them is due at a tick, and none before it.
    pub(crate) fn pass_front(&mut self, tick: u64)
        ensures { (f : TheFront) → self.old.front ≡ Some f → PassesTo f.node tick self.old self.new }
    {
        if let Some(front) = self.front {
            self.next = self.turns.next(front.node);
            self.question = None;
            self.wait = Some(tick);
        }
    }

    /// No slot is known to wait whose frequency allows an update at the round's tick.
    pub(crate) fn drop_due_front(&mut self)
        ensures same { self.new ≡ record self.old { front = self.new.front } }
        ensures later { ForSome self.new.front (λ f. (self.old.front ≡ Some f) × (self.old.tick < f.tick)) }
    {
        if let Some(front) = self.front
            && front.tick <= self.tick
        {
            self.front = None;
        }
    }

    /// The round begins anew at the same tick, and no slot is known to wait.
    pub(crate) fn restart(&mut self)
        ensures { self.new ≡ with_turns self.old.turns self.old }
    {
        self.front = None;
        let same_tick = self.tick;
        self.begin(same_tick);
    }

    /// The question was answered: the slot is asked again.
    pub(crate) fn again(&mut self)
        ensures { self.new ≡ unasked self.old }
    {
        self.question = None;
    }

    /// A slot gave a line: it goes to the back, and the round begins anew.
    pub(crate) fn give(&mut self, slot: &SlotRef)
        requires { has_slot slot.now.sub slot.now.place self.old.turns ≡ true }
        ensures { self.new ≡ with_gave (gave slot.now.sub slot.now.place self.old.turns) self.old }
    {
        self.turns.gave(slot);
        self.next = self.turns.first();
        self.question = None;
        self.wait = None;
    }

    /// Takes memory, so that so many more slots may join. After `NoMemory` the slots are as before.
    pub(crate) fn reserve(&mut self, slots: usize) -> Result<(), NoMemory>
        ensures spare { OnOk result (slots ≤ self.new.turns.spare) }
        ensures room { OnOk result (length self.new.turns.seats + slots ≤ self.new.room) }
        ensures seats { self.new.turns.seats ≡ self.old.turns.seats }
        ensures rest { self.new ≡ record self.old { turns = self.new.turns; room = self.new.room } }
    {
        let Some(all) = self.turns.len().checked_add(slots) else {
            return Err(NoMemory);
        };
        self.turns.reserve(slots)?;
        self.leaving.reserve(all)?;
        Ok(())
    }

    /// The slots of a subscription's items join as the last, where those of its number left, and the round begins anew.
    pub(crate) fn join(&mut self, sub: u32, items: &[PlanItem], slots: &[u32])
        requires numbers { length slots.now ≡ length items.now }
        requires few { length items.now ≤ MOST_GROUP_ITEMS }
        requires spare { length items.now ≤ self.old.turns.spare }
        requires room { length self.old.turns.seats + length items.now ≤ self.old.room }
        ensures joined { slots_of self.new.turns
            ≡ slots_of (left sub self.old.turns) ++ refs_from sub 1 items.now slots.now }
        ensures rest { self.new ≡ with_turns self.new.turns self.old }
    {
        self.turns.leave(sub);
        join_slots(&mut self.turns, sub, items, slots);
        self.next = self.turns.first();
        self.question = None;
        self.wait = None;
        self.front = None;
    }

    /// The slots of a subscription, in their order.
    pub(crate) fn slots_of(&self, alloc: Global, sub: u32) -> Result<Vec<SlotRef>, NoMemory>
        ensures { IfOk result (λ slots. slots.items ≡ refs_of sub (slots_of self.now.turns)) }
    {
        append_of(alloc, &self.turns, sub)
    }

    /// The slots of a subscription leave, and the round begins anew.
    pub(crate) fn leave(&mut self, sub: u32)
        ensures { self.new ≡ with_turns (left sub self.old.turns) self.old }
    {
        self.turns.leave(sub);
        self.next = self.turns.first();
        self.question = None;
        self.wait = None;
        self.front = None;
    }

    /// All slots leave, and are handed back in their order; the memory of their round is given back. No memory is taken.
    pub(crate) fn finish(&mut self, alloc: Global) -> Vec<SlotRef>
        ensures slots { result.items ≡ slots_of self.old.turns }
        ensures none { self.new.turns.seats ≡ [] }
        ensures rest { self.new ≡ record (with_turns self.new.turns self.old) { room = self.new.room } }
    {
        let mut leaving = replace(&mut self.leaving, Vec::new(alloc));
        append_slots(&mut leaving, &self.turns);
        match self.empty.take() {
            Some(turns) => self.turns = turns,
            None => self.turns.clear(),
        }
        self.next = None;
        self.question = None;
        self.wait = None;
        self.front = None;
        leaving
    }
}
