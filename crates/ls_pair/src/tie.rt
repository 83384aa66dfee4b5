ghost use Rattle.std.specs.Prelude.{◌≡◌, ◌<◌, ◌++◌, ◌∷◌, [], IfOk};
ghost use Rattle.ls_pair.specs.Ties.{pair, side, list_of};
ghost use Rattle.ls_pair.specs.declared.side.Role.TheVariants.{Item, Session};

use crate::side::Side;
use crate::steps::{Agree, Both, Cut, Nothing, Pass, TwoSides};
use atomic_table::{Badge, Seat, Table};
use ls_value::NoMemory;
use std::alloc::Global;
use std::marker::Model;
use std::mem;

/// A tie of two sides, whose lists are equal. Contracts see the table on which it stands.
#[derive(Drop)]
pub struct Tie<E> {
    table: Table<E, Side<E>, (), TwoSides, Global>,
}

impl<E> Model for Tie<E> {
    ghost use Rattle.std.specs.Prelude.{◌≡◌};
    ghost use Rattle.atomic_table.specs.Seated.{TableId};

    ghost Value = { TableId };

    ghost view = { λ t. t.table.shared.table_id };

    ghost invariant = { λ t. t.table.shared.table_id.words ≡ 1 };
}

/// The item's side of a tie. Contracts see the tie's table, and the cuts that were passed.
#[derive(Drop)]
pub struct ItemSide<E> {
    seat: Seat<E, Side<E>>,
}

impl<E> Model for ItemSide<E> {
    ghost use Rattle.std.specs.Prelude.{◌≡◌, []};
    ghost use Rattle.ls_pair.specs.Seen.{Seen};

    ghost Value = { Seen E };

    ghost use Rattle.ls_pair.specs.Ties.{side};
    ghost use Rattle.ls_pair.specs.declared.side.Role.TheVariants.{Item};

    ghost view = { λ i. record { table = i.seat.table_id; list = i.seat.me.0.list } };

    ghost invariant = { λ i. i.seat.me ≡ (side Item i.seat.me.0.list, []) };
}

/// The session's side of a tie. Contracts see the tie's table, and the cuts that were passed.
#[derive(Drop)]
pub struct SessionSide<E> {
    badge: Badge<Side<E>>,
}

impl<E> Model for SessionSide<E> {
    ghost use Rattle.std.specs.Prelude.{◌≡◌, [], ◌∷◌};
    ghost use Rattle.ls_pair.specs.Seen.{Seen};

    ghost Value = { Seen E };

    ghost use Rattle.ls_pair.specs.Ties.{side, list_of};
    ghost use Rattle.ls_pair.specs.declared.side.Role.TheVariants.{Session};

    ghost view = { λ s. record { table = s.badge.table_id; list = list_of s.badge.views } };

    ghost invariant = { λ s. s.badge.views ≡ side Session (list_of s.badge.views) ∷ [] };
}

/// Which tie it is, for contracts alone: they see the table on which it stands. It has no bytes.
#[derive(Drop)]
pub struct Sign<E> {
    badge: Badge<Side<E>>,
}

impl<E> Model for Sign<E> {
    ghost use Rattle.atomic_table.specs.Seated.{TableId};

    ghost Value = { TableId };

    ghost view = { λ s. s.badge.table_id };
}

impl<E> Tie<E> {
    /// A tie whose two lists are empty, with its sides.
    pub fn start(alloc: Global) -> Result<(Tie<E>, ItemSide<E>, SessionSide<E>), NoMemory>
        ensures { IfOk result (λ r. (r.1.table ≡ r.0) × (r.1.list ≡ []) × (r.2.table ≡ r.0) × (r.2.list ≡ [])) }
    {
        let Ok((table, mut seat)) = Table::of_words(alloc, &[0], &()) else {
            return Err(NoMemory);
        };
        let tie = Tie { table };
        let badge = tie.cut(&mut seat);
        Ok((tie, ItemSide { seat }, SessionSide { badge }))
    }

    /// Which tie it is. The side is of this tie, and stays as it was.
    pub fn sign(&self, i: &mut ItemSide<E>) -> Sign<E>
        requires { i.old.table ≡ self.now }
        ensures { (result ≡ self.now) × (i.new ≡ i.old) }
    {
        let seat = self.table.shared.split_seat::<Nothing>(&mut i.seat);
        Sign {
            badge: seat.into_badge(),
        }
    }

    /// Tells that the two lists are equal. Both sides are of this tie, and stay as they were.
    pub fn agree(&self, i: &mut ItemSide<E>, s: &mut SessionSide<E>)
        requires { (i.old.table ≡ self.now) × (s.old.table ≡ self.now) }
        ensures agree { i.old.list ≡ s.old.list }
        ensures same { (i.new ≡ i.old) × (s.new ≡ s.old) }
    {
        let badge = mem::replace(&mut s.badge, Badge::blank());
        self.join(&mut i.seat, badge);
        s.badge = self.cut(&mut i.seat);
    }

    /// A cut is passed: the two lists were equal, and both grow by it. Both sides are of this tie.
    pub fn pass(&self, i: &mut ItemSide<E>, s: &mut SessionSide<E>, cut: &E)
        requires { (i.old.table ≡ self.now) × (s.old.table ≡ self.now) }
        ensures agree { i.old.list ≡ s.old.list }
        ensures tables { (i.new.table ≡ i.old.table) × (s.new.table ≡ s.old.table) }
        ensures item { i.new.list ≡ i.old.list ++ cut.now ∷ [] }
        ensures session { s.new.list ≡ s.old.list ++ cut.now ∷ [] }
    {
        let badge = mem::replace(&mut s.badge, Badge::blank());
        self.join(&mut i.seat, badge);
        let shared = &self.table.shared;
        shared.compare_exchange_with::<Pass>(&mut i.seat, 0, 0, 0, cut);
        s.badge = self.cut(&mut i.seat);
    }

    /// The item's side becomes the pair, by the session's.
    fn join(&self, seat: &mut Seat<E, Side<E>>, badge: Badge<Side<E>>)
        requires tables { (seat.old.table_id ≡ self.now) × (badge.table_id ≡ self.now) }
        requires item { seat.old.me ≡ (side Item seat.old.me.0.list, []) }
        requires session { badge.views ≡ side Session (list_of badge.views) ∷ [] }
        ensures seat { (seat.new.table_id ≡ seat.old.table_id) × (seat.new.me ≡ (pair seat.old.me.0.list, [])) }
        ensures equal { seat.old.me.0.list ≡ list_of badge.views }
    {
        let other = badge.into_seat();
        self.table.shared.join_seat::<Both>(seat, other);
        self.table.shared.load::<Agree>(seat, 0);
    }

    /// The pair becomes the item's side, and gives the session's.
    fn cut(&self, seat: &mut Seat<E, Side<E>>) -> Badge<Side<E>>
        requires table { seat.old.table_id ≡ self.now }
        requires pair { seat.old.me ≡ (pair seat.old.me.0.list, []) }
        ensures item { (seat.new.table_id ≡ seat.old.table_id) × (seat.new.me ≡ (side Item seat.old.me.0.list, [])) }
        ensures table { result.table_id ≡ seat.old.table_id }
        ensures session { result.views ≡ side Session seat.old.me.0.list ∷ [] }
    {
        let other = self.table.shared.split_seat::<Cut>(seat);
        other.into_badge()
    }
}
