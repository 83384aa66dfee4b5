//! Places in the register.
ghost use Rattle.std.specs.Prelude.{◌≡◌, ◌<◌, ◌==◌, length};
ghost use mathlib.Core.List.{IsPrefix};

use crate::house::House;
use crate::made::Made;
use ls_chron::{Chron, Reader, Writer};
use std::marker::{Model, PhantomData};

/// Whether two places of the register are one. Both readers take the longer of their lists, so at one place both have
/// one entry, which shows one table. It takes no memory.
pub fn one_table(
    register: &Chron<Made>,
    a: &mut Reader<Made>,
    i: u64,
    b: &mut Reader<Made>,
    j: u64,
) -> bool
    requires tables { (a.old.table ≡ register.now) × (b.old.table ≡ register.now) }
    requires places { (i < length a.old.list) × (j < length b.old.list) }
    ensures tables { (a.new.table ≡ register.now) × (b.new.table ≡ register.now) }
    ensures one { result ≡ (i == j) }
    ensures lists { a.new.list ≡ b.new.list }
    ensures first { IsPrefix a.old.list a.new.list }
    ensures second { IsPrefix b.old.list b.new.list }
{
    let theirs = register.share(b);
    let mine = register.share(a);
    register.meet(a, theirs);
    register.meet(b, mine);
    i == j
}

/// A place in the register, from 0, with a reader whose list has it. Contracts see the place and the list. A place is
/// never used again, so what it shows it shows for good.
#[derive(Drop)]
pub struct Place<N: House> {
    at: u64,
    seen: Reader<Made>,
    house: PhantomData<N>,
}

impl<N: House> Model for Place<N> {
    ghost use Rattle.std.specs.Prelude.{◌≡◌, ◌<◌, length};
    ghost use Rattle.ls_register.specs.Places.{Placed};

    ghost Value = { Placed };

    ghost view = { λ p. record { at = p.at; list = p.seen.list } };

    ghost invariant = { λ p. (p.seen.table ≡ N.deed.register) × (p.at < length p.seen.list) };
}

impl<N: House> Place<N> {
    /// A place that the reader's list has.
    pub fn new(at: u64, seen: Reader<Made>) -> Place<N>
        requires table { seen.table ≡ N.deed.register }
        requires within { at < length seen.list }
        ensures { result ≡ record { at = at; list = seen.list } }
    {
        Place {
            at,
            seen,
            house: PhantomData,
        }
    }

    /// Whether it is the other's place. Then both show one entry. It takes no memory.
    pub fn is_that(&mut self, register: &Chron<Made>, other: &mut Place<N>) -> bool
        requires { register.now ≡ N.deed.register }
        ensures same { (self.new.at ≡ self.old.at) × (other.new.at ≡ other.old.at) }
        ensures one { result ≡ (self.old.at == other.old.at) }
        ensures lists { self.new.list ≡ other.new.list }
        ensures first { IsPrefix self.old.list self.new.list }
        ensures second { IsPrefix other.old.list other.new.list }
    {
        one_table(register, &mut self.seen, self.at, &mut other.seen, other.at)
    }

    /// Its reader has then the whole register. It takes no memory.
    pub(crate) fn show(&mut self, register: &Chron<Made>, writer: &mut Writer<Made>)
        requires register { register.now ≡ N.deed.register }
        requires writer { writer.old.table ≡ register.now }
        ensures writer { writer.new ≡ writer.old }
        ensures whole { self.new ≡ record { at = self.old.at; list = writer.old.list } }
        ensures begins { IsPrefix self.old.list writer.old.list }
    {
        register.whole(writer, &mut self.seen);
    }

    /// One more token of the place. It takes no memory.
    pub fn again(&mut self, register: &Chron<Made>) -> Place<N>
        requires { register.now ≡ N.deed.register }
        ensures { (result ≡ self.old) × (self.new ≡ self.old) }
    {
        Place {
            at: self.at,
            seen: register.share(&mut self.seen),
            house: PhantomData,
        }
    }
}
