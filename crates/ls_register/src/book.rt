//! The register's writer with the live sessions, and what is seen of the register.
ghost use Rattle.std.specs.Prelude.{◌≡◌, ◌≤◌, ◌<◌, ◌+◌, ◌++◌, ◌∷◌, [], ◌^◌, ◌&&◌, List, true, false, length};
ghost use Rattle.std.specs.Prelude.{IfOk, IfSome, IfNone, OnOk, OnErr, OnSome, IsErrOf, IsTrue, IsFalse, is_some, not, nat_lt};
ghost use mathlib.Core.List.{IsPrefix};
ghost use Rattle.ls_register.specs.Items.{items_of, facts_of, ShowsSlot};
ghost use Rattle.ls_register.specs.Places.{Placed};
ghost use Rattle.ls_register.specs.Sessions.{live_of, is_live, sessions_of, free_in, is_spent, are_spent, keeps_freed, keeps_gone};
ghost use Rattle.ls_register.specs.declared.made.Made.{Made as WasMade};
ghost use Rattle.ls_register.specs.declared.made.Made.TheVariants.{Session, Slot, Claimed, Freed, Gone};
ghost use Rattle.ls_register.specs.declared.book.ClaimRefused.TheVariants as ClaimRefused;

use crate::house::House;
use crate::made::Made;
use crate::place::Place;
use crate::rows::Rows;
use crate::told::Told;
use ls_chron::{Chron, MOST_ENTRIES, Reader, Sign, Writer};
use ls_event::MOST_SLOTS;
use ls_value::{GREATEST_NUMBER, NoMemory};
use std::alloc::Global;
use std::marker::{Model, PhantomData};

/// The register's writer with what is held of each live session, in order of their numbers: what stands behind the
/// register's lock. Contracts see the register's list, whose items are those that the server was made with. It keeps the
/// allocator that its constructor took.
#[derive(Drop)]
pub struct Book<N: House, H> {
    made: u64,
    entries: u64,
    claimed: u32,
    rows: Rows<H>,
    writer: Writer<Made>,
    house: PhantomData<N>,
}

impl<N: House, H> Model for Book<N, H> {
    ghost use Rattle.std.specs.Prelude.{◌≡◌, List};
    ghost use Rattle.ls_register.specs.declared.made.Made.{Made as WasMade};
    ghost use Rattle.ls_register.specs.Items.{items_of, facts_of};
    ghost use Rattle.ls_register.specs.Sessions.{IsCounted};

    ghost Value = { List WasMade };

    ghost view = { λ b. b.writer.list };

    ghost invariant = { λ b. (b.writer.table ≡ N.deed.register)
        × (items_of b.writer.list ≡ facts_of N.deed.config)
        × IsCounted b.made b.claimed b.entries b.rows b.writer.list };
}

/// A reader of the register. Contracts see its list, a beginning of the register.
#[derive(Drop)]
pub struct View<N: House> {
    reader: Reader<Made>,
    house: PhantomData<N>,
}

impl<N: House> Model for View<N> {
    ghost use Rattle.std.specs.Prelude.{◌≡◌, List};
    ghost use Rattle.ls_register.specs.declared.made.Made.{Made as WasMade};

    ghost Value = { List WasMade };

    ghost view = { λ v. v.reader.list };

    ghost invariant = { λ v. v.reader.table ≡ N.deed.register };
}

/// Why room for slots isn't taken.
#[derive(Clone, Copy, Debug, PartialEq, Eq)]
pub enum ClaimRefused {
    /// The server has no room for so many.
    Full,
    /// The register is spent.
    Spent,
}

impl<N: House, H: Drop> Book<N, H> {
    /// The book of a register that has the server's items, so many, and nothing else.
    pub fn new(alloc: Global, writer: Writer<Made>, items: u64) -> Book<N, H>
        requires table { writer.table ≡ N.deed.register }
        requires items { items_of writer.list ≡ facts_of N.deed.config }
        requires number { items ≡ length writer.list }
        requires nothing { length (items_of writer.list) ≡ length writer.list }
        ensures { result ≡ writer.list }
    {
        Book {
            made: 0,
            entries: items,
            claimed: 0,
            rows: Rows::new(alloc),
            writer,
            house: PhantomData,
        }
    }

    /// A view of the whole register. It takes no memory.
    pub fn view(&mut self, register: &Chron<Made>) -> View<N>
        requires { register.now ≡ N.deed.register }
        ensures same { self.new ≡ self.old }
        ensures whole { result ≡ self.old }
        ensures items { items_of self.old ≡ facts_of N.deed.config }
    {
        View {
            reader: register.note(&mut self.writer),
            house: PhantomData,
        }
    }

    /// The view has then the whole register. It takes no memory.
    pub fn show(&mut self, register: &Chron<Made>, view: &mut View<N>)
        requires { register.now ≡ N.deed.register }
        ensures same { self.new ≡ self.old }
        ensures whole { view.new ≡ self.old }
        ensures begins { IsPrefix view.old self.old }
    {
        register.whole(&mut self.writer, &mut view.reader);
    }

    /// The place's reader has then the whole register. It takes no memory.
    pub fn show_place(&mut self, register: &Chron<Made>, place: &mut Place<N>)
        requires { register.now ≡ N.deed.register }
        ensures same { self.new ≡ self.old }
        ensures whole { place.new ≡ record { at = place.old.at; list = self.old } }
        ensures begins { IsPrefix place.old.list self.old }
    {
        place.show(register, &mut self.writer);
    }

    /// How many sessions live.
    pub fn live(&self) -> usize
        ensures { result ≡ length (live_of self.now) }
    {
        self.rows.len()
    }

    /// The number of the next session, from 1: `None` exactly where none is left or the register is spent.
    pub fn next_session(&self) -> Option<u64>
        ensures number { IfSome result (λ n. (n ≡ length (sessions_of self.now) + 1) × (n ≤ 2 ^ 60)) }
        ensures some { is_some result ≡ not (are_spent self.now) }
    {
        if self.made >= GREATEST_NUMBER || self.is_spent() {
            None
        } else {
            Some(self.made + 1)
        }
    }

    /// A session is made, whose history `table` shows, and its place is answered. Its number is the next one.
    pub fn add_session(
        &mut self,
        register: &Chron<Made>,
        table: Sign<Told>,
        held: H,
    ) -> Result<Place<N>, NoMemory>
        requires register { register.now ≡ N.deed.register }
        requires left { are_spent self.old ≡ false }
        ensures made { OnOk result
            (self.new ≡ self.old ++ Session (length (sessions_of self.old) + 1) table ∷ []) }
        ensures place { IfOk result (λ p. p ≡ record { at = length self.old; list = self.new }) }
        ensures live { OnOk result (is_live self.new (length (sessions_of self.old) + 1) ≡ true) }
        ensures fresh { (ms : List WasMade) → IsPrefix ms self.old
            → is_live ms (length (sessions_of self.old) + 1) ≡ false }
        ensures err { OnErr result (self.new ≡ self.old) }
    {
        let session = self.made + 1;
        self.rows.push(session, held)?;
        self.made = session;
        let entry = Made::Session { session, table };
        append(register, &mut self.writer, &mut self.entries, &entry);
        Ok(Place::new(self.entries - 1, register.note(&mut self.writer)))
    }

    /// What is held of a session: `None` exactly where it doesn't live.
    pub fn find(&self, session: u64) -> Option<&H>
        ensures { is_some result ≡ is_live self.now session }
    {
        self.rows.find(session)
    }

    /// What is held of the k-th live session, from 0: `None` exactly where there are no more.
    pub fn nth(&self, k: usize) -> Option<&H>
        ensures { is_some result ≡ nat_lt k (length (live_of self.now)) }
    {
        self.rows.nth(k)
    }

    /// A session that lives is gone, and room for so many slots is given back; what was held of the session is answered.
    /// `None` comes, and changes nothing, exactly where it doesn't live, where room for fewer slots is claimed, or where
    /// the register has nearly as many entries as a shared history may.
    pub fn gone(&mut self, register: &Chron<Made>, session: u64, slots: u32) -> Option<H>
        requires { register.now ≡ N.deed.register }
        ensures done { OnSome result (self.new ≡ self.old ++ Freed slots ∷ Gone session ∷ []) }
        ensures gone { OnSome result (is_live self.new session ≡ false) }
        ensures lived { OnSome result (is_live self.old session ≡ true) }
        ensures held { OnSome result (keeps_gone self.old slots ≡ true) }
        ensures none { IfNone result (self.new ≡ self.old) }
        ensures cause { IfNone result ((is_live self.old session && keeps_gone self.old slots) ≡ false) }
    {
        if slots > self.claimed || self.entries >= MOST_ENTRIES - 1 {
            return None;
        }
        let held = self.rows.remove(session)?;
        self.claimed -= slots;
        let freed = Made::Freed { slots };
        append(register, &mut self.writer, &mut self.entries, &freed);
        let gone = Made::Gone { session };
        append(register, &mut self.writer, &mut self.entries, &gone);
        Some(held)
    }

    /// Whether the register is spent: it takes no more entries that a request adds.
    pub fn is_spent(&self) -> bool
        ensures { result ≡ is_spent self.now }
    {
        self.entries >= GREATEST_NUMBER
    }

    /// For how many slots there is room.
    pub fn free_slots(&self) -> u32
        ensures { result ≡ free_in self.now }
    {
        MOST_SLOTS as u32 - self.claimed
    }

    /// Takes room for so many slots. It is refused exactly where there is no room for so many, and else where the
    /// register is spent. It takes no memory.
    pub fn claim(&mut self, register: &Chron<Made>, slots: u32) -> Result<(), ClaimRefused>
        requires { register.now ≡ N.deed.register }
        ensures ok { OnOk result (self.new ≡ self.old ++ Claimed slots ∷ []) }
        ensures room { OnOk result ((slots ≤ free_in self.old) × (is_spent self.old ≡ false)) }
        ensures full { IsErrOf result ClaimRefused.Full → free_in self.old < slots }
        ensures spent { IsErrOf result ClaimRefused.Spent
            → (slots ≤ free_in self.old) × (is_spent self.old ≡ true) }
        ensures err { OnErr result (self.new ≡ self.old) }
    {
        if slots > self.free_slots() {
            return Err(ClaimRefused::Full);
        }
        if self.is_spent() {
            return Err(ClaimRefused::Spent);
        }
        self.claimed += slots;
        let claimed = Made::Claimed { slots };
        append(register, &mut self.writer, &mut self.entries, &claimed);
        Ok(())
    }

    /// Gives room for so many slots back. `false` comes, and nothing changes, exactly where room for fewer is claimed, or
    /// where the register has as many entries as a shared history may. It takes no memory.
    pub fn free(&mut self, register: &Chron<Made>, slots: u32) -> bool
        requires { register.now ≡ N.deed.register }
        ensures done { IsTrue result → self.new ≡ self.old ++ Freed slots ∷ [] }
        ensures not { IsFalse result → self.new ≡ self.old }
        ensures exact { result ≡ keeps_freed self.old slots }
    {
        if slots > self.claimed || self.entries >= MOST_ENTRIES {
            return false;
        }
        self.claimed -= slots;
        let freed = Made::Freed { slots };
        append(register, &mut self.writer, &mut self.entries, &freed);
        true
    }

    /// A slot is made, by its item's number and its own number there, whose tie `table` shows, and its place is answered.
    /// The register isn't spent. It takes no memory.
    pub fn add_slot(
        &mut self,
        register: &Chron<Made>,
        item: u32,
        slot: u32,
        table: ls_pair::Sign<u64>,
    ) -> Place<N>
        requires register { register.now ≡ N.deed.register }
        requires room { length self.old < 2 ^ 60 }
        ensures more { self.new ≡ self.old ++ Slot item slot table ∷ [] }
        ensures place { ShowsSlot result item slot table }
        ensures list { result.list ≡ self.new }
    {
        let entry = Made::Slot { item, slot, table };
        append(register, &mut self.writer, &mut self.entries, &entry);
        Place::new(self.entries - 1, register.note(&mut self.writer))
    }
}

/// An entry more, of a register that has room for it.
fn append(register: &Chron<Made>, writer: &mut Writer<Made>, entries: &mut u64, entry: &Made)
    requires register { writer.old.table ≡ register.now }
    requires number { entries.old ≡ length writer.old.list }
    requires room { entries.old < 2 ^ 61 }
    ensures table { writer.new.table ≡ writer.old.table }
    ensures added { writer.new.list ≡ writer.old.list ++ entry.now ∷ [] }
    ensures number { entries.new ≡ entries.old + 1 }
{
    let Ok(number) = register.append(writer, entry) else {
        unreachable!()
    };
    *entries = number;
}
