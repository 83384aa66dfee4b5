//! How the calls of an object in memory go.
ghost use Rattle.std.specs.Prelude.{◌≡◌, drop};
ghost use Rattle.ls_outside.specs.Memory.{next_call};

use ls_outside::Call;
use std::marker::Model;
use std::vec::IntoIter;

/// How the calls to come go, the next one first. Calls past the end of the list go as usual.
#[derive(Drop)]
pub(crate) struct Calls {
    rest: IntoIter<Call>,
}

impl Model for Calls {
    ghost use Rattle.std.specs.Prelude.{List};
    ghost use Rattle.std.specs.Vec.Iter.{into_iter_items};
    ghost use Rattle.ls_outside.specs.declared.call.Call.{Call as CallToCome};

    ghost Value = { List CallToCome };

    ghost view = { λ c. into_iter_items c.rest };
}

impl Calls {
    /// Calls that go by a list.
    pub(crate) fn of(calls: Vec<Call>) -> Calls
        ensures { result ≡ calls.items }
    {
        Calls {
            rest: calls.into_iter(),
        }
    }

    /// Takes the next one.
    pub(crate) fn next(&mut self) -> Call
        ensures call { result ≡ next_call self.old }
        ensures rest { self.new ≡ drop 1 self.old }
    {
        match self.rest.next() {
            Some(call) => call,
            None => Call::Go,
        }
    }
}
