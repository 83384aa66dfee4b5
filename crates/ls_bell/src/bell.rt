//! What wakes a thread that waits for something to do.

use std::alloc::Global;
use std::sync::atomic::{AtomicU64, Ordering};
use std::sync::{Arc, OnceLock, Wait};
use std::time::Duration;

/// A count of rings that threads may wait for.
#[derive(Drop)]
struct Signal {
    rings: AtomicU64,
    is_awaited: AtomicU64,

    /// How often the mark was taken away that a thread waits. A thread that waits sleeps only while this stays.
    wakes: AtomicU64,
}

impl Signal {
    /// One that wasn't rung.
    fn new() -> Signal {
        Signal {
            rings: AtomicU64::new(0),
            is_awaited: AtomicU64::new(0),
            wakes: AtomicU64::new(0),
        }
    }

    /// How many times it was rung, modulo 2^64.
    fn rings(&self) -> u64 {
        self.rings.load(Ordering::SeqCst)
    }

    /// Counts a ring, and wakes nobody yet.
    fn note(&self) {
        self.rings.fetch_add(1, Ordering::SeqCst);
    }

    /// Wakes who waits.
    fn wake(&self) {
        if self.is_awaited.load(Ordering::SeqCst) != 0
            && self.is_awaited.swap(0, Ordering::SeqCst) != 0
        {
            self.wakes.fetch_add(1, Ordering::SeqCst);
            self.wakes.wake_all();
        }
    }

    /// Waits until it is rung, but no longer than so many ms.
    fn wait<R: Wait>(&self, rt: &R, seen: u64, ms: u64) {
        // Asked before the mark is set: so a thread whose mark was taken away doesn't fall asleep without one.
        let wakes = self.wakes.load(Ordering::SeqCst);
        self.is_awaited.store(1, Ordering::SeqCst);
        if self.rings() == seen {
            self.wakes.park_timeout(rt, (wakes & 0xffff_ffff) as u32, Duration::from_millis(ms));
        }
    }
}

/// A bell for a thread that waits for many bells at once: each of them passes its rings on to it. It has a number, by
/// which who made it knows it again.
#[derive(Drop)]
pub struct CommonBell {
    number: u64,
    signal: Signal,
}

impl CommonBell {
    /// A bell of this number that wasn't rung.
    pub fn new(number: u64) -> CommonBell {
        CommonBell {
            number,
            signal: Signal::new(),
        }
    }

    /// Its number.
    pub fn number(&self) -> u64 {
        self.number
    }

    /// How many times it was rung, modulo 2^64.
    pub fn rings(&self) -> u64 {
        self.signal.rings()
    }

    /// Rings it: every thread that waits for it goes on.
    pub fn ring(&self) {
        self.signal.note();
        self.signal.wake();
    }

    /// Waits as for a [`Bell`].
    pub fn wait<R: Wait>(&self, rt: &R, seen: u64, ms: u64) {
        self.signal.wait(rt, seen, ms);
    }
}

/// A bell that any thread may ring and any thread may wait for. A thread reads the count of rings, looks whether there
/// is something to do, and waits with that count: so no ring is lost between the look and the wait. Where nobody waits,
/// a ring makes no call of the system, and of many rings before the waiting threads run only the first makes one. No
/// contract speaks of time, nor of who wakes.
///
/// Once it is tied to a [`CommonBell`], it passes its rings on to that, for a thread that waits for many bells.
///
/// A ring may be a call: then it says that a peer has sent something, or has left. Calls are counted apart, too.
#[derive(Drop)]
pub struct Bell {
    signal: Signal,
    calls: AtomicU64,
    common: OnceLock<Arc<CommonBell, Global>>,
}

impl Bell {
    /// A bell that wasn't rung, and is tied to none.
    pub fn new() -> Bell {
        Bell {
            signal: Signal::new(),
            calls: AtomicU64::new(0),
            common: OnceLock::new(),
        }
    }

    /// How many times it was rung, modulo 2^64.
    pub fn rings(&self) -> u64 {
        self.signal.rings()
    }

    /// How many of these rings were calls, modulo 2^64.
    pub fn calls(&self) -> u64 {
        self.calls.load(Ordering::SeqCst)
    }

    /// Rings it: every thread that waits goes on. It is a [`note`](Bell::note) and a [`wake`](Bell::wake).
    pub fn ring(&self) {
        self.note();
        self.wake();
    }

    /// Counts a call, and rings it.
    pub fn call(&self) {
        self.calls.fetch_add(1, Ordering::SeqCst);
        self.ring();
    }

    /// Counts a ring, here and at the common bell, and wakes nobody yet: a thread that sleeps may sleep on until
    /// [`wake`](Bell::wake) is called. Who rings many bells at once notes each of them before any is woken. Then a thread
    /// that waits for many of them finds them all rung when it wakes.
    pub fn note(&self) {
        self.signal.note();
        if let Some(common) = self.common.get() {
            common.signal.note();
        }
    }

    /// Wakes every thread that waits for it, or for its common bell. Without a note before it, a thread that wakes finds
    /// that nothing was rung.
    pub fn wake(&self) {
        self.signal.wake();
        if let Some(common) = self.common.get() {
            common.signal.wake();
        }
    }

    /// Waits until it is rung, but no longer than so many ms. It returns at once where the count of rings isn't `seen`,
    /// and may return early for no reason.
    pub fn wait<R: Wait>(&self, rt: &R, seen: u64, ms: u64) {
        self.signal.wait(rt, seen, ms);
    }

    /// Ties it for good to a common bell, unless it is tied to one already, and answers the number of the one that it is
    /// tied to: its rings are passed on to that. Who waits for the common bell reads its count, ties this one, and only then
    /// looks whether there is something to do. `None` where there are 2^63 - 1 holds on the common bell.
    pub fn tie<R: Wait>(&self, rt: &R, common: &Arc<CommonBell, Global>) -> Option<u64> {
        if let Some(tied) = self.common.get() {
            return Some(tied.number());
        }
        let hold = Arc::try_clone(common).ok()?;
        let _ = self.common.set(rt, hold);
        let tied = self.common.get()?;
        Some(tied.number())
    }
}
