//! Who calls a bell when a socket has bytes.
ghost use Rattle.std.specs.Prelude.{◌≡◌, None, false};

use ls_bell::Bell;
use mio::unix::SourceFd;
use mio::{Events, Interest, Poll, Registry, Token, Waker};
use sharded_slab::Slab;
use std::alloc::Global;
use std::cell::Cell;
use std::io;
use std::net::Net;
use std::os::fd::RawFd;
use std::sync::atomic::{AtomicU64, Ordering};
use std::sync::{Arc, Wait};
use std::thread::{Builder, JoinHandle, Threads};
use std::time::Duration;

/// The stack of the watcher's thread, in bytes: the least that there is.
const STACK_BYTES: usize = 131_072;

/// How many sockets' events are taken from the system at a time.
const MOST_EVENTS: usize = 256;

/// In how many parts the bells are kept, so that a part which is just growing keeps nobody waiting.
const SHARDS: usize = 8;

/// How many ms the watcher sleeps at most, before it looks whether it is to end.
const LOOK_MS: u64 = 1_000;

/// The token of the watcher's own waker. No bell has it: the part of a key that names a shard is less than 8.
const WAKER: Token = Token(usize::MAX);

/// What a watcher and the connections that it watches share: their sockets, of which the system holds the set, and the
/// bell of each. It has one entry for each connection that is watched, and its memory is that of the most at one moment.
#[derive(Drop)]
pub struct WatchedSockets {
    registry: Registry,
    waker: Waker,
    bells: Slab<Arc<Bell, Global>>,
    watched: AtomicU64,
    over: AtomicU64,
}

impl WatchedSockets {
    /// No socket yet. Those to come are reported to this poll.
    fn new(poll: &Poll, alloc: Global) -> io::Result<WatchedSockets> {
        let registry = poll.registry().try_clone()?;
        let waker = Waker::new(&registry, WAKER)?;
        Ok(WatchedSockets {
            registry,
            waker,
            bells: Slab::new(alloc, SHARDS)?,
            watched: AtomicU64::new(0),
            over: AtomicU64::new(0),
        })
    }

    /// How many connections are watched now.
    pub fn watched(&self) -> u64 {
        self.watched.load(Ordering::SeqCst)
    }

    /// Whether nobody calls the bells any more.
    pub fn is_over(&self) -> bool {
        self.over.load(Ordering::SeqCst) != 0
    }

    /// Keeps a bell, and answers its key. `None` for want of memory.
    fn keep(&self, socket: RawFd, bell: &Arc<Bell, Global>) -> Option<usize> {
        let bell = Arc::try_clone(bell).ok()?;
        let key = self
            .bells
            .insert(socket.unsigned_abs() as usize, bell)
            .ok()?;
        self.watched.fetch_add(1, Ordering::SeqCst);
        Some(key)
    }

    /// Lets a bell go.
    fn forget(&self, key: usize) {
        if self.bells.remove(key) {
            self.watched.fetch_sub(1, Ordering::SeqCst);
        }
    }

    /// Has the system report a socket under a key: at once where it has bytes. `true` where the socket is reported already
    /// under another key, which this one replaces. Answers whether it will be.
    fn report(&self, socket: RawFd, key: usize, again: bool) -> bool {
        let mut source = SourceFd(&socket);
        let reported = if again {
            self.registry
                .reregister(&mut source, Token(key), Interest::READABLE)
        } else {
            self.registry
                .register(&mut source, Token(key), Interest::READABLE)
        };
        reported.is_ok()
    }

    /// Calls the bells of the sockets that the system reported.
    fn call(&self, events: &Events) {
        for event in events.iter() {
            if let Some(bell) = self.bells.get(event.token().0) {
                bell.value().call();
            }
        }
    }

    /// Ends it, and wakes the thread.
    fn end(&self) {
        self.over.store(1, Ordering::SeqCst);
        let _unwoken = self.waker.wake();
    }
}

/// The place of one connection with a watcher, if it has one. It is given up when it is dropped; the system forgets the
/// socket itself once it is closed.
pub(crate) struct Seat {
    sockets: Option<Arc<WatchedSockets, Global>>,
    key: Cell<Option<usize>>,
}

impl Drop for Seat {
    fn drop(self) {
        let Self { sockets, key } = self;
        if let (Some(sockets), Some(key)) = (&sockets, key.get()) {
            sockets.forget(key);
        }
    }
}

impl Seat {
    /// A place among these sockets, which isn't taken yet; or none.
    pub(crate) fn with(sockets: Option<Arc<WatchedSockets, Global>>) -> Seat
        ensures { result.sockets ≡ sockets }
    {
        Seat {
            sockets,
            key: Cell::new(None),
        }
    }

    /// Has the bell called whenever this socket, which is the connection's one and only, has bytes or its end. Answers
    /// whether it will be; if not, what was before stays. Where there is no watcher it never is.
    pub(crate) fn take(&self, socket: RawFd, bell: &Arc<Bell, Global>) -> bool
        ensures { self.now.sockets ≡ None → result ≡ false }
    {
        match &self.sockets {
            Some(sockets) => self.take_among(sockets, socket, bell),
            None => false,
        }
    }

    /// The same among these sockets.
    fn take_among(
        &self,
        sockets: &WatchedSockets,
        socket: RawFd,
        bell: &Arc<Bell, Global>,
    ) -> bool {
        if sockets.is_over() {
            return false;
        }
        let Some(key) = sockets.keep(socket, bell) else {
            return false;
        };
        let before = self.key.get();
        if !sockets.report(socket, key, before.is_some()) {
            sockets.forget(key);
            return false;
        }
        self.key.set(Some(key));
        if let Some(before) = before {
            sockets.forget(before);
        }
        true
    }
}

/// Calls bells until it is to end, or the system's wait fails.
fn keep_watch<R: Wait>(rt: &R, mut poll: Poll, mut events: Events, sockets: &WatchedSockets) {
    for _ in rt.forever() {
        let waited = poll.poll(&mut events, Some(Duration::from_millis(LOOK_MS)));
        sockets.call(&events);
        if waited.is_err() || sockets.is_over() {
            break;
        }
    }
    sockets.over.store(1, Ordering::SeqCst);
}

/// A thread that calls the bells of connections whose sockets have bytes. It sleeps in one call of the system for all of
/// them, and does as much work as there are events.
#[derive(Drop)]
pub struct Watcher {
    sockets: Arc<WatchedSockets, Global>,
    thread: JoinHandle<()>,
}

impl Watcher {
    /// Starts a watcher. `None` where the system gives no thread, or no set of sockets to wait for, and for want of
    /// memory: then nobody calls, and who waits for bytes has to look again and again.
    pub fn start<R: Threads + Wait + Net + Copy + Send + 'static>(
        rt: &R,
        alloc: Global,
    ) -> Option<Watcher> {
        let poll = Poll::new(rt).ok()?;
        let events = Events::with_capacity(alloc, MOST_EVENTS).ok()?;
        let sockets = Arc::new(alloc, WatchedSockets::new(&poll, alloc).ok()?).ok()?;
        let its_sockets = Arc::try_clone(&sockets).ok()?;
        let its_rt = *rt;
        let task = move || keep_watch(&its_rt, poll, events, &its_sockets);
        let thread = Builder::new().stack_size(STACK_BYTES).spawn(rt, task).ok()?;
        Some(Watcher { sockets, thread })
    }

    /// What a door is given, so that its clients' connections are watched. `None` where there are 2^63 - 1 holds on it.
    pub fn sockets(&self) -> Option<Arc<WatchedSockets, Global>> {
        Arc::try_clone(&self.sockets).ok()
    }

    /// Ends it: no bell is called from now on, and its thread is joined.
    pub fn settle<R: Threads>(self, rt: &R) {
        let Watcher { sockets, thread } = self;
        sockets.end();
        thread.join(rt);
    }
}
