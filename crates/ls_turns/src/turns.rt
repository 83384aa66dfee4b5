//! The slots of a session in the order in which they are asked.
ghost use Rattle.std.specs.Prelude.{◌≡◌, ◌+◌, ◌<◌, ◌≤◌, ℕ, [], IfOk, OnOk, OnErr, length, map, max};
ghost use Rattle.std.specs.Prelude.{true, false, nat_eq, Some};
ghost use Rattle.ls_links.specs.Chains.{list_of};
ghost use Rattle.ls_turns.specs.Round.{Seat, IsSeated, AreApart, Joins, seat_at, slot_of_place, node_of_place};
ghost use Rattle.ls_turns.specs.Round.{link_of, slot_of_value, has_slot, left, left_one, gave, cleared, HasPlacesTo};
ghost use Rattle.ls_turns.specs.Moves.{Joined, Left, IsMoved, GivesAt};

use crate::row::{Row, SlotName};
use crate::rows::{add_seats, make_rooms, set_row, take_last};
use crate::seats::{look, put, take};
use crate::slot_ref::SlotRef;
use indexmap::IndexMap;
use ls_links::Links;
use ls_value::NoMemory;
use std::alloc::Global;
use std::marker::Model;

/// The slots of a session, each once, in the order in which they are asked.
#[derive(Drop)]
pub struct Turns {
    links: Links,
    rows: Vec<Row>,
    free: Vec<usize>,
    seats: IndexMap<SlotName, usize>,
    spare: usize,
    places: u32,
}

impl Model for Turns {
    ghost use Rattle.std.specs.Vec.{vec_capacity};
    ghost use Rattle.indexmap.specs.IndexMap.{spare as names_spare};
    ghost use Rattle.ls_turns.specs.Kept.{round_of, IsSound};
    ghost use Rattle.ls_turns.specs.Round.{Round};
    ghost use Rattle.ls_turns.specs.Seats.{seat_named};

    ghost Value = { Round };

    ghost view = { λ t. round_of
        (record { chains = t.links; rows = t.rows.items; free = t.free.items; spare = t.spare; places = t.places }) };

    ghost invariant = { λ t. IsSound
        (record { chains = t.links; rows = t.rows.items; free = t.free.items; spare = t.spare; places = t.places })
        (seat_named t.seats) (names_spare t.seats) (vec_capacity t.free) };
}

impl Turns {
    /// No slot.
    pub fn new(alloc: Global) -> Result<Turns, NoMemory>
        ensures { IfOk result (λ t. t ≡ record { seats = []; spare = 0 }) }
    {
        let links = Links::new(alloc, 1)?;
        links.are_apart();
        Ok(Turns {
            links,
            rows: Vec::new(alloc),
            free: Vec::new(alloc),
            seats: IndexMap::new(alloc),
            spare: 0,
            places: 0,
        })
    }

    /// Takes memory, so that n more slots may join. After `NoMemory` all is as before.
    pub fn reserve(&mut self, n: usize) -> Result<(), NoMemory>
        ensures ok { OnOk result (self.new ≡ record self.old { spare = max self.old.spare n }) }
        ensures err { OnErr result (self.new ≡ self.old) }
    {
        if n <= self.spare {
            return Ok(());
        }
        let more = n.saturating_sub(self.free.len());
        make_rooms(&mut self.links, &mut self.seats, n)?;
        add_seats(&mut self.rows, &mut self.free, more)?;
        self.spare = n;
        Ok(())
    }

    /// How many more slots may join without memory. Those that left count again from the next `reserve` on.
    pub fn spare(&self) -> usize
        ensures { result ≡ self.now.spare }
    {
        self.spare
    }

    /// A slot joins, as the last. No slot of its place in its subscription is in the round.
    pub fn join(&mut self, slot: SlotRef)
        requires room { 0 < self.old.spare }
        requires absent { has_slot slot.sub slot.place self.old ≡ false }
        ensures seats { Joins slot self.old self.new }
        ensures moved { IsMoved (Joined slot) self.old self.new }
    {
        let seat = take_last(&mut self.free);
        let node = self.links.push_back(0, seat);
        self.links.are_apart();
        set_row(&mut self.rows, seat, Row { slot, node });
        put(
            &mut self.seats,
            SlotName {
                sub: slot.sub,
                place: slot.place,
            },
            seat,
        );
        self.spare -= 1;
        self.places = self.places.max(slot.place);
    }

    /// The slots of a subscription leave; the others keep their order. It looks for each place up to the greatest one
    /// that a slot had.
    pub fn leave(&mut self, sub: u32)
        ensures seats { self.new ≡ left sub self.old }
        ensures moved { IsMoved (Left sub) self.old self.new }
    {
        let places = self.places();
        for place in 0..places {
            self.leave_one(sub, place);
        }
        self.leave_one(sub, places);
    }

    /// The greatest place that a slot had.
    fn places(&self) -> u32
        ensures { HasPlacesTo result self.now }
    {
        self.places
    }

    /// The slot of a place in a subscription leaves, if it is in the round.
    fn leave_one(&mut self, sub: u32, place: u32)
        ensures { self.new ≡ left_one sub place self.old }
    {
        let name = SlotName { sub, place };
        let Some(seat) = look(&self.seats, name) else {
            return;
        };
        let node = self.rows[seat].node;
        let _seat = self.links.unlink(node);
        self.links.are_apart();
        let _same = take(&mut self.seats, name);
        self.free.push_reserved(seat);
    }

    /// A slot gave a line: it is asked last. It is in the round. With `join` and `leave` this makes the moves of which
    /// [`no_slot_is_passed_over`](crate::no_slot_is_passed_over) speaks.
    pub fn gave(&mut self, slot: &SlotRef)
        requires { has_slot slot.now.sub slot.now.place self.old ≡ true }
        ensures seats { self.new ≡ gave slot.now.sub slot.now.place self.old }
        ensures moved { GivesAt slot.now.sub slot.now.place self.old self.new }
    {
        let name = SlotName {
            sub: slot.sub,
            place: slot.place,
        };
        let Some(seat) = look(&self.seats, name) else {
            return;
        };
        let node = self.rows[seat].node;
        self.links.move_to_back(node);
        self.links.are_apart();
    }

    /// No slot is in the round any more.
    pub fn clear(&mut self)
        ensures { self.new ≡ cleared self.old }
    {
        while let Some(node) = self.first() {
            let slot = self.slot(node);
            self.leave_one(slot.sub, slot.place);
        }
    }

    /// The slot at a place of the round, from 0, `None` past the last. It walks there.
    pub fn get(&self, i: usize) -> Option<SlotRef>
        ensures { result ≡ slot_of_place self.now i }
    {
        let mut next = self.first();
        for _ in 0..i {
            match next {
                Some(node) => next = self.next(node),
                None => return None,
            }
        }
        match next {
            Some(node) => Some(self.slot(node)),
            None => None,
        }
    }

    /// How many slots are in the round.
    pub fn len(&self) -> usize
        ensures { result ≡ length self.now.seats }
    {
        self.rows.len() - self.free.len()
    }

    /// Whether no slot is.
    pub fn is_empty(&self) -> bool
        ensures { result ≡ nat_eq (length self.now.seats) 0 }
    {
        self.len() == 0
    }

    /// The links whose list 0 is the round; [`at`](Turns::at) reads their values.
    pub fn links(&self) -> &Links
        ensures { list_of result.now 0 ≡ map link_of self.now.seats }
    {
        &self.links
    }

    /// The slot whose node has a value, `None` exactly where there is none.
    pub fn at(&self, value: usize) -> Option<SlotRef>
        ensures { result ≡ slot_of_value self.now value }
    {
        if value >= self.rows.len() {
            return None;
        }
        let slot = self.rows[value].slot;
        let name = SlotName {
            sub: slot.sub,
            place: slot.place,
        };
        match look(&self.seats, name) {
            Some(seat) => { if seat == value { Some(slot) } else { None } }
            None => None,
        }
    }

    /// The node of the first slot, `None` where there is none.
    pub fn first(&self) -> Option<usize>
        ensures { result ≡ node_of_place self.now 0 }
    {
        self.links.first(0)
    }

    /// The node of the slot behind that of a node, `None` at the last.
    pub fn next(&self, node: usize) -> Option<usize>
        requires { IsSeated self.now node }
        ensures { (i : ℕ) (s : Seat) → seat_at self.now i ≡ Some s → s.node ≡ node
            → result ≡ node_of_place self.now (i + 1) }
    {
        self.links.next(node)
    }

    /// The slot of a node.
    pub fn slot(&self, node: usize) -> SlotRef
        requires { IsSeated self.now node }
        ensures { (i : ℕ) (s : Seat) → seat_at self.now i ≡ Some s → s.node ≡ node → result ≡ s.slot }
    {
        self.rows[self.links.value(node)].slot
    }

    /// No two slots are of one node or value, or of one place of one subscription.
    pub fn are_apart(&self)
        ensures { AreApart self.now }
    {
        let _spare = self.spare;
    }
}
