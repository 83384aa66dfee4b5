//! What a session shows to callers.
ghost use Rattle.std.specs.Prelude.{◌≡◌, [], IfOk, IfSome, IsTrue, IsFalse, IsSome, OnErr};
ghost use mathlib.Core.List.{IsPrefix};
ghost use Rattle.ls_value.specs.Each.{Each};
ghost use Rattle.ls_told.specs.Seen.{SeesMore, Grows, FitsWatch};
ghost use Rattle.ls_joining.specs.Sights.{ShowsIt, AreOneItems, ShowsAll};
ghost use Rattle.ls_joining.specs.Lives.{Lives};

use crate::live::LiveSession;
use ls_bell::Bell;
use ls_chron::Chron;
use ls_joining::{SessionParts, Sight, SightStart, copies};
use ls_live::Watch;
use ls_register::{House, Made};
use ls_value::NoMemory;
use std::alloc::Global;
use std::sync::Arc;

impl<N: House> LiveSession<N> {
    /// A sight of all that the session has, to which no line was given. The session has a place in the register.
    pub fn tell(&mut self, alloc: Global, register: &Chron<Made>) -> Result<Sight<N>, NoMemory>
        requires register { register.now ≡ N.deed.register }
        requires placed { IsSome self.old.place }
        ensures same { self.new ≡ self.old }
        ensures sight { IfOk result (λ t. ShowsAll self.old t × (t.mine ≡ [])) }
    {
        let start = SightStart::new(alloc)?;
        let watches = copies(alloc, register, &mut self.parts.watches)?;
        let bell = Arc::try_clone(&self.parts.bell)?;
        Ok(sight_of(&mut *self.parts, register, start, watches, bell))
    }

    /// The same of a session that watches no item yet, in memory that was taken before; `bell` is the session's.
    pub fn tell_first(
        &mut self,
        alloc: Global,
        register: &Chron<Made>,
        start: SightStart,
        bell: Arc<Bell, Global>,
    ) -> Sight<N>
        requires register { register.now ≡ N.deed.register }
        requires placed { IsSome self.old.place }
        requires none { self.old.watches ≡ [] }
        ensures same { self.new ≡ self.old }
        ensures sight { ShowsAll self.old result × (result.mine ≡ []) }
    {
        sight_of(&mut *self.parts, register, start, Vec::new(alloc), bell)
    }

    /// Whether the sight is of this session, by their places in the register. A session without a place has none. It
    /// takes no memory.
    pub fn is_of(&mut self, register: &Chron<Made>, sight: &mut Sight<N>) -> bool
        requires { register.now ≡ N.deed.register }
        ensures same { (self.new ≡ self.old) × (sight.new ≡ sight.old) }
        ensures one { IsTrue result → (sight.old.number ≡ self.old.number) × (sight.old.table ≡ self.old.table) }
    {
        let Some(place) = &mut self.parts.place else {
            return false;
        };
        let mut mine = place.again(register);
        let mut theirs = sight.place(register);
        mine.is_that(register, &mut theirs)
    }

    /// The sight watches each item that the session watches, and answers whether both watch the same ones then: no call
    /// brings about that they don't. After `NoMemory` the sight is as before.
    pub fn show_items(
        &mut self,
        register: &Chron<Made>,
        sight: &mut Sight<N>,
    ) -> Result<bool, NoMemory>
        requires { register.now ≡ N.deed.register }
        ensures same { self.new ≡ self.old }
        ensures sight { sight.new ≡ record sight.old { watches = sight.new.watches } }
        ensures more { SeesMore sight.old.watches sight.new.watches }
        ensures one { IfOk result (λ yes. IsTrue yes → AreOneItems self.old.watches sight.new.watches) }
        ensures not_one { IfOk result (λ yes. IsFalse yes → AreOneItems self.old.watches sight.new.watches → ⊥) }
        ensures err { OnErr result (sight.new ≡ sight.old) }
    {
        sight.watch_items(register, &mut self.parts.watches)
    }

    /// The sight sees all that the session has, and the session then has seen of its items what the sight had. They
    /// watch the same items. It takes no memory.
    pub fn show(&mut self, register: &Chron<Made>, sight: &mut Sight<N>)
        requires register { register.now ≡ N.deed.register }
        requires of { (sight.old.number ≡ self.old.number) × (sight.old.table ≡ self.old.table) }
        requires one { AreOneItems self.old.watches sight.old.watches }
        ensures session { self.new ≡ record self.old { watches = self.new.watches } }
        ensures more { SeesMore self.old.watches self.new.watches }
        ensures fit { Each (FitsWatch N.deed.config) self.new.watches }
        ensures sight { ShowsAll self.new sight.new }
        ensures mine { sight.new.mine ≡ sight.old.mine }
        ensures grows { Grows sight.old sight.new }
    {
        self.parts.show(register, sight);
    }

    /// The sight sees all of the session's history. Of the items it has seen what the session has. It takes no memory.
    pub fn show_lines(&mut self, sight: &mut Sight<N>)
        requires of { (sight.old.number ≡ self.old.number) × (sight.old.table ≡ self.old.table) }
        requires items { sight.old.watches ≡ self.old.watches }
        ensures same { self.new ≡ self.old }
        ensures sight { sight.new ≡ record sight.old { lines = self.old.lines; later = self.old.lines } }
        ensures lines { IsPrefix sight.old.lines self.old.lines }
        ensures later { IsPrefix sight.old.later self.old.lines }
    {
        sight.show_lines(&mut self.parts.history);
    }

    /// Of the session's history the sight has all in its later list; all else stays. It takes no memory.
    pub fn show_later(&mut self, sight: &mut Sight<N>)
        requires { sight.old.table ≡ self.old.table }
        ensures same { self.new ≡ self.old }
        ensures later { sight.new ≡ record sight.old { later = self.old.lines } }
        ensures begins { IsPrefix sight.old.later self.old.lines }
    {
        sight.show_later(&mut self.parts.history);
    }
}

/// A sight of all that the parts have, to which no line was given.
fn sight_of<N: House>(
    parts: &mut SessionParts<N>,
    register: &Chron<Made>,
    start: SightStart,
    watches: Vec<Watch<N>>,
    bell: Arc<Bell, Global>,
) -> Sight<N>
    requires register { register.now ≡ N.deed.register }
    requires lives { Lives N.deed.config parts.old.number parts.old.history.list parts.old.watches.items
        parts.old.subs.items parts.old.session }
    requires shows { IfSome parts.old.place (λ p. ShowsIt p parts.old.number parts.old.history.table) }
    requires placed { IsSome parts.old.place }
    requires watches { watches.items ≡ parts.old.watches.items }
    ensures same { parts.new ≡ parts.old }
    ensures sight { (result.number ≡ parts.old.number) × (result.table ≡ parts.old.history.table)
        × (result.lines ≡ parts.old.history.list) × (result.later ≡ parts.old.history.list)
        × (result.watches ≡ parts.old.watches.items) × (result.mine ≡ []) }
{
    let Some(place) = &mut parts.place else {
        unreachable!()
    };
    let place = place.again(register);
    Sight::begin(
        parts.number,
        &mut parts.history,
        place,
        start,
        watches,
        bell,
    )
}
