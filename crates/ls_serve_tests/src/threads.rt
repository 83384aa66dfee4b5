//! Two feeds and two clients at the same time, each served by a thread of its own.
use crate::listener::{Listener, comes};
use crate::lobby::{Lobby, LobbyClock, LobbyDoor};
use crate::running::{Input, ran_by};
use crate::talk::{ADDED, CREATE, OPENED, OPENED_SECOND, knock, post};
use ls_door::{Duct, STACK_BYTES, Spawner, Visit};
use ls_outside::MemSink;
use ls_program::Status;
use std::alloc::{AllocError, Global};
use std::marker::{Send, Sync};
use std::rt::Clock as HostClock;
use std::sync::{Arc, Wait};
use std::test::Fail;
use std::thread::{Threads, join};

/// How many updates a feed publishes.
const UPDATES: u64 = 200;

/// The last one's text.
const LAST: &str = "200";

/// The tick at which the server ends.
const END: u64 = 9;

/// What the server says.
const SAID: &[u8] = b"listening 1 2\nstopped\n";

/// A subscription of the first session, which is told the last state.
const ADD_MERGE: &str =
    "LS_reqId=1&LS_session=S1&LS_op=add&LS_subId=1&LS_mode=MERGE&LS_group=q+p&LS_schema=x";

/// A subscription of the second session, which is told each update.
const ADD_RAW: &str =
    "LS_reqId=1&LS_session=S2&LS_op=add&LS_subId=1&LS_mode=RAW&LS_group=q+p&LS_schema=x";

/// What a feed says.
fn feed_text(alloc: Global, adapter: u64, item: &str) -> Result<String, AllocError> {
    let mut text = format!(in alloc; "feed {adapter}\n")?;
    for i in 0..UPDATES {
        let seq = i + 1;
        let line = format!(in alloc; "{item} {seq} x={seq}\n")?;
        text.push_str(&line)?;
    }
    Ok(text)
}

/// What a feed is replied.
fn replies(alloc: Global) -> Result<String, AllocError> {
    let mut text = String::new(alloc);
    for i in 0..UPDATES {
        let no = i + 1;
        let line = format!(in alloc; "ok {no}\n")?;
        text.push_str(&line)?;
    }
    Ok(text)
}

/// Those who visit a server: where they knock, and a clock by which they wait.
#[derive(Drop)]
struct Visitors<R: Wait + Drop> {
    rt: R,
    alloc: Global,
    lobby: Arc<Lobby<R>>,
    clock: LobbyClock<R>,
}

impl<R: Wait + HostClock + Copy + Drop> Visitors<R> {
    /// A client comes and says this.
    fn client(&self, bytes: &[u8]) -> Option<Duct<R>> {
        let (near, far) = knock(self.rt, self.alloc, bytes)?;
        self.lobby.enter(&self.rt, Visit::Client(far)).ok()?;
        Some(near)
    }

    /// A feed comes and publishes an item.
    fn feed(&self, adapter: u64, item: &str) -> Option<Duct<R>> {
        let text = feed_text(self.alloc, adapter, item).ok()?;
        let (near, far) = knock(self.rt, self.alloc, text.as_bytes())?;
        self.lobby.enter(&self.rt, Visit::Feed(far)).ok()?;
        Some(near)
    }

    /// A client gets a stream that begins so.
    fn opened(&mut self, begin: &[u8]) -> Option<Duct<R>> {
        let mut stream = self.client(CREATE)?;
        comes(&mut stream, &mut self.clock, begin).then_some(stream)
    }

    /// Whether a client gets a subscription.
    fn is_added(&mut self, add: &str) -> Option<bool> {
        let request = post(self.alloc, "control", add).ok()?;
        let mut control = self.client(request.as_bytes())?;
        Some(comes(&mut control, &mut self.clock, ADDED))
    }

    /// A client gets a stream that begins so, and a subscription for its session.
    fn listener(&mut self, begin: &[u8], add: &str) -> Option<Listener<R>> {
        let stream = self.opened(begin)?;
        if self.is_added(add)? {
            Listener::new(self.alloc, stream).ok()
        } else {
            None
        }
    }

    /// Whether a feed for each item gets its replies.
    fn are_published(&mut self) -> Option<bool> {
        let mut first = self.feed(1, "q")?;
        let mut second = self.feed(2, "p")?;
        let text = replies(self.alloc).ok()?;
        Some(
            comes(&mut first, &mut self.clock, text.as_bytes())
                && comes(&mut second, &mut self.clock, text.as_bytes()),
        )
    }

    /// Two clients subscribe to both items, and a feed for each publishes. Answers whether both clients are told what
    /// their modes promise.
    fn visit(&mut self) -> Option<bool> {
        let mut merge = self.listener(OPENED, ADD_MERGE)?;
        let mut raw = self.listener(OPENED_SECOND, ADD_RAW)?;
        let are_published = self.are_published()?;
        let are_told = merge.gets_to(&mut self.clock, LAST) && raw.gets_to(&mut self.clock, LAST);
        Some(are_published && are_told && are_in_merge(&merge) && are_in_raw(&raw))
    }
}

/// Whether no more came of either item than was published, and nothing was lost.
fn are_in_merge<R: Wait + Drop>(listener: &Listener<R>) -> bool {
    let (first, first_lost) = listener.counts(1);
    let (second, second_lost) = listener.counts(2);
    first <= UPDATES && second <= UPDATES && first_lost == 0 && second_lost == 0
}

/// Whether of either item each update came or was told as lost.
fn are_in_raw<R: Wait + Drop>(listener: &Listener<R>) -> bool {
    let (first, first_lost) = listener.counts(1);
    let (second, second_lost) = listener.counts(2);
    first.saturating_add(first_lost) == UPDATES && second.saturating_add(second_lost) == UPDATES
}

/// The visitors of a lobby's server.
fn visitors_of<R: Wait + HostClock + Copy + Drop>(
    rt: &R,
    alloc: Global,
    lobby: &Arc<Lobby<R>>,
) -> Option<Visitors<R>> {
    let theirs = Arc::try_clone(lobby).ok()?;
    let clock = LobbyClock::new(*rt, Arc::try_clone(lobby).ok()?);
    Some(Visitors {
        rt: *rt,
        alloc,
        lobby: theirs,
        clock,
    })
}

/// Visits a lobby's server, and then lets it end. Answers whether the visitors got what they must.
fn visits_to_end<R: Wait + HostClock + Copy + Drop>(
    rt: &R,
    alloc: Global,
    lobby: &Arc<Lobby<R>>,
) -> bool {
    let told = match visitors_of(rt, alloc, lobby) {
        Some(mut visitors) => visitors.visit(),
        None => None,
    };
    lobby.set_tick(END);
    told == Some(true)
}

/// Runs a server for those who come to a lobby. Answers its status and what it said.
fn server<R: Threads + Wait + HostClock + Copy + Drop + Send + Sync + 'static>(
    rt: &R,
    alloc: Global,
    lobby: &Arc<Lobby<R>>,
) -> Result<(Status, MemSink), AllocError> {
    let input = Input {
        words: "serve 1 2 9",
        bytes: b"q MERGE x\np MERGE x\n",
        reads: &[],
        writes: &[],
        ticks: &[],
    };
    let mut clock = LobbyClock::new(*rt, Arc::try_clone(lobby)?);
    let mut door = LobbyDoor::new(*rt, Arc::try_clone(lobby)?);
    let mut spawner = Spawner::threads(alloc, STACK_BYTES);
    ran_by(rt, alloc, &input, &mut clock, &mut door, &mut spawner)
}

/// Whether a server ends well, and says that it listened and stopped.
fn ends_well<R: Threads + Wait + HostClock + Copy + Drop + Send + Sync + 'static>(
    rt: &R,
    alloc: Global,
    lobby: &Arc<Lobby<R>>,
) -> bool {
    match server(rt, alloc, lobby) {
        Ok((status, sink)) => { status == Status::Ok && sink.bytes() == SAID }
        Err(_) => false,
    }
}

/// Runs a server in a thread, and its visitors in another.
fn all_are_served<R: Threads + Wait + HostClock + Copy + Drop + Send + Sync + 'static>(
    rt: &R,
    alloc: Global,
) -> Result<bool, AllocError> {
    let lobby = Arc::new(alloc, Lobby::new(alloc))?;
    let (ended, served) = join(
        rt,
        || ends_well(rt, alloc, &lobby),
        || visits_to_end(rt, alloc, &lobby),
    );
    Ok(ended && served)
}

#[test]
fn two_feeds_and_two_clients_in_threads(rt: HostRuntime) -> Result<(), Fail> {
    assert!(rt; all_are_served(&rt, rt.alloc())?);
    Ok(())
}
