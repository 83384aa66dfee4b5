//! What a session shows to callers.
ghost use Rattle.std.specs.Prelude.{◌≡◌};
ghost use Rattle.ls_value.specs.Each.{Each};
ghost use Rattle.ls_told.specs.Seen.{SeesMore, Grows, FitsWatch};
ghost use Rattle.ls_session.specs.Record.{Record};
ghost use Rattle.ls_taking.specs.Lives.{Lives, LivesAs};
ghost use Rattle.ls_taking.specs.Sights.{AreOneItems, ShowsAll};

use crate::parts::SessionParts;
use ls_chron::Chron;
use ls_register::{House, Made};
use ls_taking::Sight;

impl<N: House> SessionParts<N> {
    /// The sight sees all that a session in parts has, and the session then has seen of its items what the sight had. They
    /// watch the same items. It takes no memory.
    pub fn show(&mut self, register: &Chron<Made>, sight: &mut Sight<N>)
        requires register { register.now ≡ N.deed.register }
        requires lives { Lives N.deed.config self.old.number self.old.history.list self.old.watches.items
            self.old.subs.items self.old.session }
        requires of { (sight.old.number ≡ self.old.number) × (sight.old.table ≡ self.old.history.table) }
        requires one { AreOneItems self.old.watches.items sight.old.watches }
        ensures rest { self.new ≡ record self.old { watches = self.new.watches; history = self.new.history } }
        ensures history { self.new.history ≡ self.old.history }
        ensures more { SeesMore self.old.watches.items self.new.watches.items }
        ensures fit { Each (FitsWatch N.deed.config) self.new.watches.items }
        ensures lives { (r : Record) → LivesAs N.deed.config self.old.number self.old.history.list
            self.old.watches.items self.old.subs.items self.old.session r
            → LivesAs N.deed.config self.old.number self.old.history.list self.new.watches.items self.old.subs.items
            self.old.session r }
        ensures sight { ShowsAll (record {
          number = self.old.number;
          place = self.old.place;
          table = self.old.history.table;
          lines = self.old.history.list;
          watches = self.new.watches.items;
        }) sight.new }
        ensures mine { sight.new.mine ≡ sight.old.mine }
        ensures grows { Grows sight.old sight.new }
    {
        sight.show(register, &mut self.watches, &mut self.history);
    }
}
