ghost use Rattle.std.specs.Prelude.{◌≡◌, ◌≤◌, ◌^◌, ◌++◌, ◌∷◌, ◌⊎◌, [], length, IfOk, MatchResult};
ghost use mathlib.Core.List.{IsPrefix};

use crate::steps::{Append, Compare, Count, OneHistory, Share, TakeIn};
use crate::view::View;
use atomic_table::{Badge, Seat, Table};
use ls_value::NoMemory;
use std::alloc::Global;
use std::marker::Model;
use std::mem;

/// How many entries a history has at most: 2^61.
pub const MOST_ENTRIES: u64 = 1 << 61;

/// The history has 2^61 entries, and takes no further one.
#[derive(Clone, Copy, Debug, PartialEq, Eq)]
pub struct Spent;

/// A history that threads share. Contracts see the table on which it stands.
#[derive(Drop)]
pub struct Chron<E> {
    table: Table<E, View<E>, (), OneHistory, Global>,
}

impl<E> Model for Chron<E> {
    ghost use Rattle.std.specs.Prelude.{◌≡◌};
    ghost use Rattle.atomic_table.specs.Seated.{TableId};

    ghost Value = { TableId };

    ghost view = { λ c. c.table.shared.table_id };

    ghost invariant = { λ c. c.table.shared.table_id.words ≡ 1 };
}

/// The one writer of a history. Contracts see the history's table, and the whole history.
#[derive(Drop)]
pub struct Writer<E> {
    count: u64,
    seat: Seat<E, View<E>>,
}

impl<E> Model for Writer<E> {
    ghost use Rattle.std.specs.Prelude.{◌≡◌, ◌≤◌, ◌^◌, [], length};
    ghost use Rattle.ls_chron.specs.Seen.{Seen};

    ghost Value = { Seen E };

    ghost use Rattle.ls_chron.specs.History.{writer};

    ghost view = { λ w. record { table = w.seat.table_id; list = w.seat.me.0.list } };

    ghost invariant = { λ w.
        (w.count ≡ length w.seat.me.0.list) × (w.count ≤ 2 ^ 61) × (w.seat.me ≡ (writer w.seat.me.0.list, [])) };
}

/// A reader of a history. Contracts see the history's table, and a beginning of the history.
#[derive(Drop)]
pub struct Reader<E> {
    seat: Seat<E, View<E>>,
}

impl<E> Model for Reader<E> {
    ghost use Rattle.std.specs.Prelude.{◌≡◌, []};
    ghost use Rattle.ls_chron.specs.Seen.{Seen};

    ghost Value = { Seen E };

    ghost use Rattle.ls_chron.specs.History.{reader};

    ghost view = { λ r. record { table = r.seat.table_id; list = r.seat.me.0.list } };

    ghost invariant = { λ r. r.seat.me ≡ (reader r.seat.me.0.list, []) };
}

/// Which history it is, for contracts alone: they see the table on which it stands. It has no bytes.
#[derive(Drop)]
pub struct Sign<E> {
    badge: Badge<View<E>>,
}

impl<E> Model for Sign<E> {
    ghost use Rattle.atomic_table.specs.Seated.{TableId};

    ghost Value = { TableId };

    ghost view = { λ s. s.badge.table_id };
}

impl<E> Reader<E> {
    /// Which history the reader is of. The reader is given up for it.
    pub fn sign(self) -> Sign<E>
        ensures { result ≡ self.table }
    {
        let Reader { seat } = self;
        Sign {
            badge: seat.into_badge(),
        }
    }
}

impl<E> Chron<E> {
    /// An empty history with its writer.
    pub fn start(alloc: Global) -> Result<(Chron<E>, Writer<E>), NoMemory>
        ensures { IfOk result (λ r. (r.1.table ≡ r.0) × (r.1.list ≡ [])) }
    {
        let Ok((table, seat)) = Table::of_words(alloc, &[0], &()) else {
            return Err(NoMemory);
        };
        Ok((Chron { table }, Writer { count: 0, seat }))
    }

    /// Adds an entry, and answers its number, from 1. `Spent` comes exactly where the history has 2^61 entries. The
    /// writer is of this history.
    pub fn append(&self, w: &mut Writer<E>, entry: &E) -> Result<u64, Spent>
        requires { w.old.table ≡ self.now }
        ensures table { w.new.table ≡ w.old.table }
        ensures added { MatchResult result
            (λ no. (w.new.list ≡ w.old.list ++ entry.now ∷ []) × (no ≡ length w.new.list) × (no ≤ 2 ^ 61))
            (λ _. (w.new.list ≡ w.old.list) × (length w.old.list ≡ 2 ^ 61)) }
    {
        let Writer { count, seat } = w;
        if *count >= MOST_ENTRIES {
            return Err(Spent);
        }
        let next = *count + 1;
        self.table
            .shared
            .compare_exchange_with::<Append>(seat, 0, *count, next, entry);
        *count = next;
        Ok(next)
    }

    /// A reader that has the writer's list, which is the whole. The writer is of this history.
    pub fn note(&self, w: &mut Writer<E>) -> Reader<E>
        requires { w.old.table ≡ self.now }
        ensures { (result ≡ w.old) × (w.new ≡ w.old) }
    {
        let seat = self.table.shared.split_seat::<Share>(&mut w.seat);
        Reader { seat }
    }

    /// A second reader, which has the same list. The reader is of this history.
    pub fn share(&self, r: &mut Reader<E>) -> Reader<E>
        requires { r.old.table ≡ self.now }
        ensures { (result ≡ r.old) × (r.new ≡ r.old) }
    {
        let seat = self.table.shared.split_seat::<Share>(&mut r.seat);
        Reader { seat }
    }

    /// The reader gets the longer of its list and the note's, which were beginnings of one another. Both are of this
    /// history.
    pub fn meet(&self, r: &mut Reader<E>, note: Reader<E>)
        requires { (r.old.table ≡ self.now) × (note.table ≡ self.now) }
        ensures table { r.new.table ≡ r.old.table }
        ensures one { (r.new.list ≡ r.old.list) ⊎ (r.new.list ≡ note.list) }
        ensures mine { IsPrefix r.old.list r.new.list }
        ensures theirs { IsPrefix note.list r.new.list }
    {
        let Reader { seat } = note;
        self.table.shared.join_seat::<TakeIn>(&mut r.seat, seat);
        self.table.shared.load::<Compare>(&mut r.seat, 0);
    }

    /// How many entries the history has now, which is no fewer than the reader has. The reader is of this history.
    pub fn count(&self, r: &mut Reader<E>) -> u64
        requires { r.old.table ≡ self.now }
        ensures count { length r.old.list ≤ result }
        ensures same { r.new ≡ r.old }
    {
        self.table.shared.load::<Count>(&mut r.seat, 0)
    }

    /// The reader, whose list was a beginning of the writer's, gets the whole. Both are of this history.
    pub fn whole(&self, w: &mut Writer<E>, r: &mut Reader<E>)
        requires { (w.old.table ≡ self.now) × (r.old.table ≡ self.now) }
        ensures writer { w.new ≡ w.old }
        ensures beginning { IsPrefix r.old.list w.old.list }
        ensures reader { r.new ≡ w.old }
    {
        let fresh = self.note(w);
        let Reader { seat } = mem::replace(r, fresh);
        self.table.shared.join_seat::<TakeIn>(&mut w.seat, seat);
        self.table.shared.load::<Compare>(&mut w.seat, 0);
    }
}
