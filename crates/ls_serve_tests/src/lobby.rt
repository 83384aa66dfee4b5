//! A door and a clock that another thread has in its hands.
ghost use Rattle.std.specs.Prelude.{◌≡◌, ◌≤◌};
ghost use Rattle.ls_value.specs.declared.limits.TheConstants.{GREATEST_TICK as MOST};

use ls_door::{Bell, Door, Duct, Heard, Visit};
use ls_outside::Clock;
use ls_value::{GREATEST_TICK, NoMemory};
use std::alloc::{AllocError, Global};
use std::collections::VecDeque;
use std::marker::{Send, Sync};
use std::rt::Clock as HostClock;
use std::sync::atomic::{AtomicU64, Ordering};
use std::sync::{Arc, Mutex, Wait};
use std::thread;
use std::time::Duration;

/// Who waits at a door, and the tick that clocks tell.
#[derive(Drop)]
pub(crate) struct Lobby<R: Wait + Drop> {
    waiting: Mutex<VecDeque<Visit<Duct<R>>>>,
    tick: AtomicU64,
}

impl<R: Wait + Drop> Lobby<R> {
    /// Nobody waits yet, and the tick is 0.
    pub(crate) fn new(alloc: Global) -> Lobby<R> {
        Lobby {
            waiting: Mutex::new(VecDeque::new(alloc)),
            tick: AtomicU64::new(0),
        }
    }

    /// A visitor comes.
    pub(crate) fn enter<W: Wait>(&self, rt: &W, visit: Visit<Duct<R>>) -> Result<(), AllocError> {
        self.waiting.lock(rt).push_back(visit)?;
        Ok(())
    }

    /// Who came first of those that wait, if anyone does.
    fn next<W: Wait>(&self, rt: &W) -> Option<Visit<Duct<R>>> {
        self.waiting.lock(rt).pop_front()
    }

    /// Clocks tell this tick from now on.
    pub(crate) fn set_tick(&self, tick: u64) {
        self.tick.store(tick, Ordering::SeqCst);
    }
}

/// A door that lets in who waits in a lobby. It listens on the ports that are asked for.
#[derive(Drop)]
pub(crate) struct LobbyDoor<R: Wait + Drop> {
    rt: R,
    lobby: Arc<Lobby<R>>,
    port: u16,
    feed: u16,
    idles: u64,
}

impl<R: Wait + Drop> LobbyDoor<R> {
    /// A door to this lobby.
    pub(crate) fn new(rt: R, lobby: Arc<Lobby<R>>) -> LobbyDoor<R> {
        LobbyDoor {
            rt,
            lobby,
            port: 0,
            feed: 0,
            idles: 0,
        }
    }
}

impl<R: Wait + Drop + Send + Sync + 'static> Door for LobbyDoor<R> {
    type Conn = Duct<R>;

    ghost failures = { λ _. 0 };

    ghost waits = { λ d. d.idles };

    ghost opened = { λ d. record { port = d.port; feed = d.feed } };

    fn faults(&self) -> u64 {
        0
    }

    fn idles(&self) -> u64 {
        self.idles
    }

    fn ports(&self) -> (u16, u16) {
        (self.port, self.feed)
    }

    fn listen(&mut self, port: u16, feed: u16) -> Heard {
        self.port = port;
        self.feed = feed;
        Heard::Ready { port, feed }
    }

    fn accept(&mut self) -> Visit<Duct<R>> {
        match self.lobby.next(&self.rt) {
            Some(Visit::Client(conn)) => Visit::Client(conn),
            Some(Visit::Feed(conn)) => Visit::Feed(conn),
            Some(Visit::Idle | Visit::Failed) | None => {
                self.idles = self.idles.saturating_add(1);
                Visit::Idle
            }
        }
    }

    /// Nobody rings: who waits for visitors has to look again.
    fn wake_with(&self, _bell: &Arc<Bell, Global>) -> bool {
        false
    }
}

/// A clock that tells a lobby's tick. However long it is let wait, it waits 1 ms.
#[derive(Drop)]
pub(crate) struct LobbyClock<R: Wait + Drop> {
    rt: R,
    lobby: Arc<Lobby<R>>,
    told: u64,
    ghost tick: { told ≤ MOST },
}

impl<R: Wait + Drop> LobbyClock<R> {
    /// A clock of this lobby, which told nothing yet.
    pub(crate) fn new(rt: R, lobby: Arc<Lobby<R>>) -> LobbyClock<R> {
        LobbyClock { rt, lobby, told: 0 }
    }
}

impl<R: Wait + HostClock + Copy + Drop> Clock for LobbyClock<R> {
    ghost told = { λ c. c.told };

    fn now(&mut self) -> u64 {
        let tick = self.lobby.tick.load(Ordering::SeqCst);
        self.told = self.told.max(tick.min(GREATEST_TICK));
        self.told
    }

    fn wait(&mut self, _: u64) {
        thread::sleep(&self.rt, Duration::from_millis(1));
    }

    fn runs(&self) -> bool {
        false
    }

    fn twin(&self) -> Result<LobbyClock<R>, NoMemory> {
        Ok(LobbyClock {
            rt: self.rt,
            lobby: Arc::try_clone(&self.lobby)?,
            told: self.told,
        })
    }
}
