//! What a caller has seen of a session.
ghost use Rattle.std.specs.Prelude.{◌≡◌, ◌≤◌, ◌^◌, ◌++◌, ◌∷◌, ◌+◌, [], IfOk, IfSome, IfNone, IsTrue, IsFalse, OnErr, length};
ghost use mathlib.Core.List.{IsPrefix};
ghost use Rattle.ls_value.specs.Each.{Each};
ghost use Rattle.ls_record.specs.Records.{Session};
ghost use Rattle.ls_told.specs.Heard.{keepalive_of};
ghost use Rattle.ls_told.specs.Keeping.{KeepsTold};
ghost use Rattle.ls_told.specs.Seen.{LawfulTold, SeesMore, FitsWatch, Grows, seen_of};
ghost use Rattle.ls_sight.specs.Sights.{ShowsIt, IsGiven, GaveAt, SeesOf, MeetEach, AreOneItems, NoneBefore};

use crate::watches::{add_copies, agree_all, all_fit, are_one, count_of, meet_all};
use ls_bell::Bell;
use ls_chron::{Chron, Reader, Writer};
use ls_history::History;
use ls_live::{PubPass, Watch};
use ls_register::{Book, House, Made, Place, Told};
use ls_value::NoMemory;
use std::alloc::Global;
use std::marker::Model;
use std::sync::Arc;

/// What a caller has seen of a session: a beginning of its history, a longer one, the places in the first of the lines
/// that were given to this caller, and what was seen of the session's items. Contracts see it as
/// `Rattle.ls_told.specs.Seen.Testified`; it is lawful.
#[derive(Drop)]
pub struct Sight<N: House> {
    number: u64,
    lines: Reader<Told>,
    later: Reader<Told>,
    tally: Chron<u64>,
    mine: Writer<u64>,
    place: Place<N>,
    watches: Vec<Watch<N>>,
    bell: Arc<Bell, Global>,
    /// The keep-alive of the newest stream, in ms.
    keepalive: u32,
}

impl<N: House> Model for Sight<N> {
    ghost use Rattle.std.specs.Prelude.{◌≡◌};
    ghost use Rattle.ls_told.specs.Seen.{Testified};
    ghost use Rattle.ls_told.specs.Heard.{keepalive_of};

    ghost Value = { Testified };

    ghost use Rattle.ls_sight.specs.Sights.{IsSight};

    ghost view = { λ s. record {
      number = s.number;
      table = s.lines.table;
      lines = s.lines.list;
      later = s.later.list;
      mine = s.mine.list;
      watches = s.watches.items;
      register = s.place.list;
    } };

    ghost invariant = { λ s. (s.later.table ≡ s.lines.table) × (s.mine.table ≡ s.tally)
        × IsSight N.deed.config s.place (record {
          number = s.number;
          table = s.lines.table;
          lines = s.lines.list;
          later = s.later.list;
          mine = s.mine.list;
          watches = s.watches.items;
          register = s.place.list;
        }) × (s.keepalive ≡ keepalive_of s.lines.list) };
}

/// The memory of the list of lines that were given to a caller, which is empty.
#[derive(Drop)]
pub struct SightStart {
    tally: Chron<u64>,
    mine: Writer<u64>,
    ghost of: { mine.table ≡ tally },
    ghost empty: { mine.list ≡ [] },
}

impl SightStart {
    /// An empty list.
    pub fn new(alloc: Global) -> Result<SightStart, NoMemory> {
        let (tally, mine) = Chron::start(alloc)?;
        Ok(SightStart { tally, mine })
    }
}

impl<N: House> Sight<N> {
    /// A sight of all of a session's history, and of what these watches have seen of its items, to which no line was given.
    /// `place` is the session's place in the register, and `bell` its bell. It takes no memory.
    pub fn begin(
        number: u64,
        history: &mut History,
        place: Place<N>,
        start: SightStart,
        watches: Vec<Watch<N>>,
        bell: Arc<Bell, Global>,
    ) -> Sight<N>
        requires few { length history.old.list ≤ 2 ^ 61 }
        requires told { (s : Session) × KeepsTold N.deed.config number history.old.list watches.items s }
        requires shows { ShowsIt place number history.old.table }
        ensures same { history.new ≡ history.old }
        ensures sight { result ≡ record {
          number = number;
          table = history.old.table;
          lines = history.old.list;
          later = history.old.list;
          mine = [];
          watches = watches.items;
          register = place.list;
        } }
    {
        let SightStart { tally, mine } = start;
        Sight {
            number,
            keepalive: history.keepalive(),
            lines: history.note(),
            later: history.note(),
            tally,
            mine,
            place,
            watches,
            bell,
        }
    }

    /// The session's number.
    pub fn number(&self) -> u64
        ensures { result ≡ self.now.number }
    {
        self.number
    }

    /// How many entries the history of an item has now, which is no fewer than were seen of it; `None` only where the item
    /// isn't watched. It takes no lock and no memory.
    pub fn count(&mut self, item: u32) -> Option<u64>
        ensures same { self.new ≡ self.old }
        ensures count { IfSome result (λ n. length (seen_of self.old.watches item) ≤ n) }
        ensures none { IfNone result (NoneBefore self.old.watches (length self.old.watches) item) }
    {
        count_of(&mut self.watches, item)
    }

    /// The keep-alive, in ms, of the newest stream that was seen, 0 where there was none.
    pub fn keepalive(&self) -> u32
        ensures { result ≡ keepalive_of self.now.lines }
    {
        self.keepalive
    }

    /// The session's bell.
    pub fn bell(&self) -> &Arc<Bell, Global> {
        &self.bell
    }

    /// The session's place in the register, once more. It takes no memory.
    pub fn place(&mut self, register: &Chron<Made>) -> Place<N>
        requires { register.now ≡ N.deed.register }
        ensures same { self.new ≡ self.old }
        ensures shows { ShowsIt result self.old.number self.old.table }
    {
        self.place.again(register)
    }

    /// What was seen is lawful, and a line was given to this caller at each of its places.
    pub fn vouch(&self)
        ensures lawful { LawfulTold N.deed.config self.now }
        ensures later { IsPrefix self.now.lines self.now.later }
        ensures given { IsGiven self.now }
    {
        let _ = &self.number;
    }

    /// The line that was given last was given to this caller: it stands at this place, the last one.
    pub fn own(&mut self, place: u64)
        requires last { length self.old.lines ≡ place + 1 }
        requires gave { GaveAt self.old.lines place }
        requires fresh { length self.old.mine ≤ place }
        ensures { self.new ≡ record self.old { mine = self.old.mine ++ place ∷ [] } }
    {
        let Ok(_) = self.tally.append(&mut self.mine, &place) else {
            unreachable!()
        };
    }

    /// Of the register the sight has then seen all. It takes no memory.
    pub fn show_register<H: Drop>(&mut self, register: &Chron<Made>, book: &mut Book<N, H>)
        requires { register.now ≡ N.deed.register }
        ensures book { book.new ≡ book.old }
        ensures sight { self.new ≡ record self.old { register = book.old } }
        ensures begins { IsPrefix self.old.register book.old }
    {
        book.show_place(register, &mut self.place);
    }

    /// The sight watches each item of these watches, and answers whether both are of the same ones then. After `NoMemory`
    /// the sight is as before.
    pub fn watch_items(
        &mut self,
        register: &Chron<Made>,
        watches: &mut Vec<Watch<N>>,
    ) -> Result<bool, NoMemory>
        requires { register.now ≡ N.deed.register }
        ensures same { watches.new.items ≡ watches.old.items }
        ensures sight { self.new ≡ record self.old { watches = self.new.watches } }
        ensures more { SeesMore self.old.watches self.new.watches }
        ensures one { IfOk result (λ yes. IsTrue yes → AreOneItems watches.old.items self.new.watches) }
        ensures not_one { IfOk result (λ yes. IsFalse yes → AreOneItems watches.old.items self.new.watches → ⊥) }
        ensures err { OnErr result (self.new ≡ self.old) }
    {
        let added = add_copies(register, watches, &mut self.watches);
        all_fit(&self.watches);
        match added {
            Ok(()) => Ok(are_one(register, watches, &mut self.watches)),
            Err(cause) => Err(cause),
        }
    }

    /// Where a publisher's pass is of an item that was watched, what it has of the item's history was seen then.
    pub fn meet(&mut self, register: &Chron<Made>, pass: &mut PubPass<N>)
        requires { register.now ≡ N.deed.register }
        ensures same { pass.new ≡ pass.old }
        ensures rest { self.new ≡ record self.old { watches = self.new.watches } }
        ensures more { SeesMore self.old.watches self.new.watches }
        ensures has { IfSome pass.old.place (λ p. SeesOf p.at pass.old.list self.new.watches) }
        ensures each { MeetEach pass.old self.old.watches self.new.watches }
    {
        meet_all(&mut self.watches, register, pass);
        all_fit(&self.watches);
    }

    /// The sight sees all of its session's history, and the session's watches and its own, which are of the same items, have
    /// then seen what one of them had. It takes no memory.
    pub fn show(
        &mut self,
        register: &Chron<Made>,
        watches: &mut Vec<Watch<N>>,
        history: &mut History,
    )
        requires register { register.now ≡ N.deed.register }
        requires of { self.old.table ≡ history.old.table }
        requires few { length history.old.list ≤ 2 ^ 61 }
        requires told { (s : Session) × KeepsTold N.deed.config self.old.number history.old.list watches.old.items s }
        requires one { AreOneItems watches.old.items self.old.watches }
        ensures same { history.new ≡ history.old }
        ensures more { SeesMore watches.old.items watches.new.items }
        ensures fit { Each (FitsWatch N.deed.config) watches.new.items }
        ensures sight { self.new ≡ record self.old {
          lines = history.old.list;
          later = history.old.list;
          watches = watches.new.items;
        } }
        ensures grows { Grows self.old self.new }
    {
        agree_all(register, watches, &mut self.watches);
        all_fit(watches);
        self.keepalive = history.keepalive();
        history.show(&mut self.later);
        history.show(&mut self.lines);
    }

    /// The sight sees all of its session's history, which is kept on what was seen of the items. It takes no memory.
    pub fn show_lines(&mut self, history: &mut History)
        requires of { self.old.table ≡ history.old.table }
        requires few { length history.old.list ≤ 2 ^ 61 }
        requires told { (s : Session) × KeepsTold N.deed.config self.old.number history.old.list self.old.watches s }
        ensures same { history.new ≡ history.old }
        ensures sight { self.new ≡ record self.old { lines = history.old.list; later = history.old.list } }
        ensures lines { IsPrefix self.old.lines history.old.list }
        ensures later { IsPrefix self.old.later history.old.list }
    {
        self.keepalive = history.keepalive();
        history.show(&mut self.later);
        history.show(&mut self.lines);
    }

    /// Of its session's history the sight has all in its later list; all else stays. It takes no memory.
    pub fn show_later(&mut self, history: &mut History)
        requires { self.old.table ≡ history.old.table }
        ensures same { history.new ≡ history.old }
        ensures later { self.new ≡ record self.old { later = history.old.list } }
        ensures begins { IsPrefix self.old.later history.old.list }
    {
        history.show(&mut self.later);
    }
}
