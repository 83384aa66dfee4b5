//! Who comes in.
ghost use Rattle.std.specs.Prelude.{◌≡◌, ℕ};
ghost use Rattle.ls_door.specs.Doors.{Ports, Opens, HasHeardCause, HasVisitCause};

use ls_bell::Bell;
use ls_outside::Pipe;
use ls_wake::Wakes;
use std::alloc::Global;
use std::marker::Send;
use std::sync::Arc;

/// The answer of `listen`.
#[derive(Clone, Copy, Debug, PartialEq, Eq)]
pub enum Heard {
    /// The door listens: for clients on `port`, for feeds on `feed`. Where 0 was asked for, it is a port that was free.
    Ready { port: u16, feed: u16 },

    /// It doesn't listen. It counts as a fault.
    Failed,
}

/// The answer of `accept`.
#[derive(Drop)]
pub enum Visit<C> {
    /// A client came, on the port for clients.
    Client(C),

    /// A feed came, on the port for feeds.
    Feed(C),

    /// Nobody is there yet. It counts as an idle call.
    Idle,

    /// A visitor couldn't be let in. It counts as a fault.
    Failed,
}

/// A door with two ports, which counts its faults and its idle calls.
pub trait Door {
    /// What a visitor is spoken with over.
    type Conn: Pipe + Wakes + Send + Drop + 'static;

    /// The count of faults.
    ghost failures: { Self → ℕ };

    /// The count of idle calls.
    ghost waits: { Self → ℕ };

    /// The two ports on which it listens.
    ghost opened: { Self → Ports };

    /// How many calls have failed, or 2^64 - 1 where that is less. It never falls.
    fn faults(&self) -> u64
        ensures { result ≡ failures self.now };

    /// How many calls of `accept` found nobody, or 2^64 - 1 where that is less. It never falls.
    fn idles(&self) -> u64
        ensures { result ≡ waits self.now };

    /// The ports on which it listens, that for clients first. Both are 0 before it listens.
    fn ports(&self) -> (u16, u16)
        ensures client { result.0 ≡ (opened self.now).port }
        ensures feed { result.1 ≡ (opened self.now).feed };

    /// Listens on these ports; 0 stands for one that is free. After `Ready` these are the ports of that answer. At
    /// `Failed` `faults` rises by one, and the ports are as before; else the count is as before.
    fn listen(&mut self, port: u16, feed: u16) -> Heard
        ensures ports { Opens (opened self.old) (opened self.new) result }
        ensures cause { HasHeardCause result (failures self.old) (failures self.new) }
        ensures waits { waits self.new ≡ waits self.old };

    /// Lets the next visitor in, if one is there. It leaves the ports. At `Failed` `faults` rises by one, at `Idle`
    /// `idles` does, and else both counts are as before. So a door whose counts are always 0 answers neither.
    fn accept(&mut self) -> Visit<Self::Conn>
        ensures ports { opened self.new ≡ opened self.old }
        ensures cause { HasVisitCause result (failures self.old) (failures self.new) (waits self.old) (waits self.new) };

    /// Has this bell rung from now on whenever a visitor comes. One ring may stand for many, so who was woken lets them in
    /// until nobody is there, and a bell may ring although nobody came. Answers whether it will be: if not, who waits for
    /// visitors has to look again and again. Nothing else of the door changes.
    fn wake_with(&self, bell: &Arc<Bell, Global>) -> bool;
}
