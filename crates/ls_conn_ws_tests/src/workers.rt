//! Connections at workers.
ghost use Rattle.std.specs.Prelude.{◌≡◌, None, true, refl};
ghost use Rattle.ls_config.specs.Items.{are_items};

use crate::clients::{LATEST, LIMIT, TALK, comes, talks};
use crate::rung::{Rung, two_ends};
use crate::serving::{FED, ITEMS, pipe_of};
use ls_bell::Bell;
use ls_config::{Config, read};
use ls_conn_http::{ConnEnd, First, Shared, WsWire, serve_first};
use ls_door::Duct;
use ls_feed::serve_feed;
use ls_net::SysClock;
use ls_outside::{Clock, Got, MemClock, MemPipe, OpenGate, Pipe, Put, Sink, Source, write_all};
use ls_register::{Blank, House};
use ls_wake::Wakes;
use ls_workers::{Socket, Workers};
use std::alloc::Global;
use std::cell::Cell;
use std::marker::{Brand, Send, Sync};
use std::rt::Clock as HostClock;
use std::sync::{Arc, Wait};
use std::test::Fail;
use std::thread::{Threads, join};

/// How many ms at most a client that is behind waits for what it must be told. Its keep-alive would be due long after.
const SOON: u64 = 1_000;

/// Serves a client's handshake and its WebSocket, at a worker, until it leaves. Answers whether it left the worker since it
/// had ended.
fn serves_at_worker<N: House, R: Wait + HostClock + Copy + Drop>(
    rt: &R,
    alloc: Global,
    shared: &Shared<N>,
    far: Rung<R, Duct<R>>,
) -> Option<bool> {
    let mut far = far;
    let mut clock = SysClock::new(*rt);
    let workers = Workers::new(alloc).ok()?;
    match serve_first(rt, alloc, &mut far, shared, &mut clock, &OpenGate, LATEST) {
        First::Ended(_) => Some(false),
        First::Socket { rest } => {
            let wire = WsWire::over_after(alloc, far, rest);
            let socket = Socket::new(rt, alloc, shared, wire);
            workers.serve(rt, shared, &mut clock, &OpenGate, LATEST, socket);
            let leaver = workers.next_leaver(rt)?;
            Some(leaver.end() == Some(ConnEnd::PeerLeft) && workers.next_leaver(rt).is_none())
        }
    }
}

/// Feeds the items, and serves a client at a worker. Answers whether both saw what they must.
fn meet<N: House + Send + Sync, R: Threads + Wait + HostClock + Copy + Drop + Send + Sync>(
    rt: &R,
    alloc: Global,
    blank: Blank,
    config: Config,
    feed: &mut MemPipe,
) -> Option<bool>
    requires register { blank.register ≡ N.deed.register }
    requires set { config.set ≡ N.deed.set }
    requires config { config.items ≡ N.deed.config }
    requires items { are_items config.items ≡ true }
{
    let shared = Shared::<N>::new(alloc, blank, config).ok()?;
    let mut clock = SysClock::new(*rt);
    serve_feed(rt, alloc, feed, &shared, &mut clock, &OpenGate, LATEST);
    let (near, far) = two_ends(*rt, alloc, LIMIT).ok()?;
    let (served, told) = join(
        rt,
        || serves_at_worker(rt, alloc, &shared, far),
        || talks(rt, near),
    );
    Some(served? && told)
}

/// The same over the items of tests.
fn met<R: Threads + Wait + HostClock + Copy + Drop + Send + Sync>(
    rt: &R,
    alloc: Global,
) -> Option<bool> {
    let config = read(alloc, ITEMS).ok()?;
    let blank = Blank::new(alloc).ok()?;
    let mut feed = pipe_of(alloc, FED).ok()?;
    meet::<Brand, R>(rt, alloc, blank, config, &mut feed)
}

#[test]
fn a_client_at_a_worker_is_told_its_lines_and_lets_it_sleep(rt: HostRuntime) -> Result<(), Fail> {
    assert!(rt; met(&rt, rt.alloc()) == Some(true));
    Ok(())
}

/// A pipe and what is kept of what was written to it.
#[derive(Drop)]
struct Full<C> {
    pipe: C,
    kept: Vec<u8>,
}

/// A pipe whose peer has no room for what is written while writes aren't to wait. It keeps that, and writes all of it once
/// so many tries were in vain.
#[derive(Drop)]
struct Behind<C> {
    full: Cell<Option<Full<C>>>,
    waits: Cell<bool>,
    is_behind: Cell<bool>,
    tries: Cell<u64>,
    vain: u64,
    read_faults: u64,
    idles: u64,
    write_faults: u64,
}

/// A pipe that has kept nothing, and whose writes wait.
fn behind_of<C>(alloc: Global, pipe: C, vain: u64) -> Behind<C> {
    let kept = Vec::new(alloc);
    Behind {
        full: Cell::new(Some(Full { pipe, kept })),
        waits: Cell::new(true),
        is_behind: Cell::new(false),
        tries: Cell::new(0),
        vain,
        read_faults: 0,
        idles: 0,
        write_faults: 0,
    }
}

impl<C: Sink + Drop> Behind<C> {
    /// Tries to write what is kept. Answers how many bytes were written; `None` where that failed.
    fn attempt(&self) -> Option<usize> {
        if !self.is_behind.get() {
            return Some(0);
        }
        let tries = self.tries.get();
        if !self.waits.get() && tries < self.vain {
            self.tries.set(tries.saturating_add(1));
            return Some(0);
        }
        let Full { mut pipe, mut kept } = self.full.replace(None)?;
        let count = kept.len();
        let put = write_all(&mut pipe, kept.as_slice());
        kept.clear();
        self.full.set(Some(Full { pipe, kept }));
        self.is_behind.set(false);
        self.tries.set(0);
        match put {
            Put::Taken(_) => Some(count),
            Put::Failed => None,
        }
    }
}

impl<C: Pipe + Drop> Source for Behind<C> {
    ghost unread = { λ _. None };

    ghost faults = { λ b. b.read_faults };

    ghost waits = { λ b. b.idles };

    ghost holds = { λ b. record { held = None; faults = b.write_faults } };

    fn read_faults(&self) -> u64 {
        self.read_faults
    }

    fn idles(&self) -> u64 {
        self.idles
    }

    fn read(&mut self, piece: &mut [u8]) -> Got {
        let written = self.attempt();
        let got = match self.full.get_mut() {
            Some(full) if written.is_some() => full.pipe.read(piece),
            _ => Got::Failed,
        };
        match got {
            Got::NotYet => self.idles = self.idles.saturating_add(1),
            Got::Failed => self.read_faults = self.read_faults.saturating_add(1),
            Got::Bytes(_) | Got::End => {}
        }
        got
    }
}

impl<C: Pipe + Drop> Sink for Behind<C> {
    ghost held = { λ _. None };

    ghost faults = { λ b. b.write_faults };

    ghost gives = { λ b. record { unread = None; faults = b.read_faults; waits = b.idles } };

    fn write_faults(&self) -> u64 {
        self.write_faults
    }

    fn write(&mut self, piece: &[u8]) -> Put {
        let waits = self.waits.get();
        if self.attempt().is_none() {
            self.write_faults = self.write_faults.saturating_add(1);
            return Put::Failed;
        }
        let Some(full) = self.full.get_mut() else {
            self.write_faults = self.write_faults.saturating_add(1);
            return Put::Failed;
        };
        if !waits && full.kept.extend_from_slice(piece).is_ok() {
            self.is_behind.set(true);
            return Put::Taken(piece.len());
        }
        let put = full.pipe.write(piece);
        if put == Put::Failed {
            self.write_faults = self.write_faults.saturating_add(1);
        }
        put
    }
}

impl<C: Pipe + Drop> Pipe for Behind<C> {
    ghost sink_is_left = { λ _. refl };

    ghost source_is_left = { λ _. refl };
}

impl<C: Pipe + Wakes + Drop> Wakes for Behind<C> {
    fn wake_with(&self, bell: &Arc<Bell, Global>) -> bool {
        let Some(full) = self.full.replace(None) else {
            return false;
        };
        let wakes = full.pipe.wake_with(bell);
        self.full.set(Some(full));
        wakes
    }

    fn wait_for_room(&self, _: Global, waits: bool) {
        self.waits.set(waits);
    }

    fn is_behind(&self) -> bool {
        self.is_behind.get()
    }

    fn catch_up(&self) -> Option<usize> {
        self.attempt()
    }
}

/// How many tries to write are in vain before there is room.
const VAIN: u64 = 5;

/// Serves a client that is behind, at a worker, until it leaves. Answers whether it left the worker since it had ended.
fn serves_behind<N: House, R: Wait + HostClock + Copy + Drop>(
    rt: &R,
    alloc: Global,
    shared: &Shared<N>,
    far: Rung<R, Duct<R>>,
) -> Option<bool> {
    let mut clock = SysClock::new(*rt);
    let workers = Workers::new(alloc).ok()?;
    let wire = WsWire::over(alloc, behind_of(alloc, far, VAIN));
    let socket = Socket::new(rt, alloc, shared, wire);
    workers.serve(rt, shared, &mut clock, &OpenGate, LATEST, socket);
    let leaver = workers.next_leaver(rt)?;
    Some(leaver.end() == Some(ConnEnd::PeerLeft) && workers.next_leaver(rt).is_none())
}

/// Opens a stream as a client, and is silent from then on. Answers whether it was told soon what it must be.
fn is_told_soon<R: Wait + HostClock + Copy + Drop>(rt: &R, near: Rung<R, Duct<R>>) -> bool {
    let mut near = near;
    let mut clock = SysClock::new(*rt);
    let since = clock.now();
    write_all(&mut near, TALK[1].0);
    write_all(&mut near, TALK[2].0);
    let told = comes(&mut near, &mut clock, TALK[1].1) && comes(&mut near, &mut clock, TALK[2].1);
    let ms = clock.now().saturating_sub(since);
    near.leave();
    told && ms <= SOON
}

/// Serves a client that is behind. Answers whether both saw what they must.
fn stays<N: House + Send + Sync, R: Threads + Wait + HostClock + Copy + Drop + Send + Sync>(
    rt: &R,
    alloc: Global,
    blank: Blank,
    config: Config,
) -> Option<bool>
    requires register { blank.register ≡ N.deed.register }
    requires set { config.set ≡ N.deed.set }
    requires config { config.items ≡ N.deed.config }
    requires items { are_items config.items ≡ true }
{
    let shared = Shared::<N>::new(alloc, blank, config).ok()?;
    let (near, far) = two_ends(*rt, alloc, LIMIT).ok()?;
    let (served, told) = join(
        rt,
        || serves_behind(rt, alloc, &shared, far),
        || is_told_soon(rt, near),
    );
    Some(served? && told)
}

/// The same over the items of tests.
fn stayed<R: Threads + Wait + HostClock + Copy + Drop + Send + Sync>(
    rt: &R,
    alloc: Global,
) -> Option<bool> {
    let config = read(alloc, ITEMS).ok()?;
    let blank = Blank::new(alloc).ok()?;
    stays::<Brand, R>(rt, alloc, blank, config)
}

#[test]
fn a_client_that_is_behind_stays_at_its_worker_and_is_told_all(
    rt: HostRuntime,
) -> Result<(), Fail> {
    assert!(rt; stayed(&rt, rt.alloc()) == Some(true));
    Ok(())
}

/// A clock that goes on by 20 ms each time that it is asked, to `LATEST` and further.
fn swift_clock(alloc: Global) -> Option<MemClock> {
    let mut ticks = Vec::new(alloc);
    for number in 0..4_000 {
        ticks.push(number * 20).ok()?;
    }
    Some(MemClock::new(alloc, ticks))
}

/// Serves a client whose peer never has room. Answers whether it was given up after 30 s, without a word to it.
fn gives_up<N: House, R: Wait + Copy + Drop>(
    rt: &R,
    alloc: Global,
    blank: Blank,
    config: Config,
) -> Option<bool>
    requires register { blank.register ≡ N.deed.register }
    requires set { config.set ≡ N.deed.set }
    requires config { config.items ≡ N.deed.config }
    requires items { are_items config.items ≡ true }
{
    let shared = Shared::<N>::new(alloc, blank, config).ok()?;
    let (mut near, far) = two_ends(*rt, alloc, LIMIT).ok()?;
    write_all(&mut near, TALK[1].0);
    write_all(&mut near, TALK[2].0);
    let mut clock = swift_clock(alloc)?;
    let workers = Workers::new(alloc).ok()?;
    let wire = WsWire::over(alloc, behind_of(alloc, far, u64::MAX));
    let socket = Socket::new(rt, alloc, &shared, wire);
    workers.serve(rt, &shared, &mut clock, &OpenGate, LATEST, socket);
    let now = clock.now();
    let is_alone = workers.next_leaver(rt).is_none() && near.read(&mut [0u8; 1]) == Got::End;
    Some(is_alone && now >= 30_000 && now < LATEST)
}

/// The same over the items of tests.
fn gave_up<R: Wait + Copy + Drop>(rt: &R, alloc: Global) -> Option<bool> {
    let config = read(alloc, ITEMS).ok()?;
    let blank = Blank::new(alloc).ok()?;
    gives_up::<Brand, R>(rt, alloc, blank, config)
}

#[test]
fn a_client_that_takes_nothing_is_given_up(rt: HostRuntime) -> Result<(), Fail> {
    assert!(rt; gave_up(&rt, rt.alloc()) == Some(true));
    Ok(())
}
