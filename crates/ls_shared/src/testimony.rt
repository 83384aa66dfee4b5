//! What callers have seen of sessions.
ghost use Rattle.std.specs.Prelude.{◌≡◌};
ghost use Rattle.ls_told.specs.Heard.{keepalive_of};
ghost use Rattle.ls_told.specs.Seen.{LawfulTold};

use ls_bell::Bell;
use ls_live_session::{LiveSession, Sight};
use ls_register::House;
use std::alloc::Global;
use std::marker::Model;
use std::sync::{Arc, Mutex};

/// A session behind its lock. It is there once the lock was let go for the first time.
pub(crate) type Held<N> = Arc<Mutex<Option<LiveSession<N>>>, Global>;

/// What a caller has seen of a session, and of the items of its slots, with the lines that it took itself. Contracts see
/// the session's number, a beginning of its history and a longer one, the places in the first of the lines that this
/// caller was given, what was seen of each item, and of the register. It is lawful: what a client decodes from the texts
/// of the numbered lines is true of the items' histories.
#[derive(Drop)]
pub struct Testimony<N: House> {
    pub(crate) held: Held<N>,
    pub(crate) sight: Sight<N>,
}

impl<N: House> Model for Testimony<N> {
    ghost use Rattle.ls_told.specs.Seen.{Testified};

    ghost Value = { Testified };

    ghost view = { λ t. t.sight };
}

impl<N: House> Testimony<N> {
    /// The session's number. It takes no lock and no memory.
    pub fn session(&self) -> u64
        ensures { result ≡ self.now.number }
    {
        self.sight.number()
    }

    /// The keep-alive time, in ms, of the newest stream that was seen. It takes no lock and no memory.
    pub fn keepalive(&self) -> u64
        ensures { result ≡ keepalive_of self.now.lines }
    {
        self.sight.keepalive() as u64
    }

    /// What rings where the session may have something to give. It takes no lock and no memory.
    pub fn bell(&self) -> &Arc<Bell, Global> {
        self.sight.bell()
    }

    /// What was seen is lawful.
    pub fn vouch(&self)
        ensures { LawfulTold N.deed.config self.now }
    {
        self.sight.vouch();
    }
}

/// A new session: its number, from 1, the epoch of its first stream, and what its maker has seen of it.
#[derive(Drop)]
pub struct Opened<N: House> {
    pub session: u64,
    pub epoch: u64,
    pub seen: Testimony<N>,
}
