//! A stream in a thread of its own, which sleeps until its session's bell rings.
ghost use Rattle.std.specs.Prelude.{◌≡◌, true};
ghost use Rattle.ls_config.specs.Items.{are_items};

use crate::guest::Guest;
use ls_config::{Config, read};
use ls_conn::{Acted, Seen, Shared, StreamEnd, act};
use ls_net::SysClock;
use ls_outside::Clock;
use ls_register::{Blank, House};
use ls_request::LinkKind;
use ls_talk::PlainLines;
use ls_value::same_bytes;
use std::alloc::Global;
use std::marker::{Brand, Send, Sync};
use std::rt::Clock as HostClock;
use std::sync::Wait;
use std::test::Fail;
use std::thread::{Threads, join};

/// What is asked of the session: the longest keep-alive that may be, in ms.
const CREATE: &[u8] = b"LS_keepalive_millis=30000";

/// A request that ends the first session.
const DESTROY: &[u8] = b"LS_reqId=1&LS_session=S1&LS_op=destroy";

/// How many ms are waited before each such request. By then the stream sleeps.
const PAUSE: u64 = 500;

/// How many such requests there are at most.
const MOST_REQUESTS: u32 = 40;

/// How many ms the stream may take: less than its keep-alive.
const MOST_MS: u64 = 20_000;

/// The tick, in ms, at which the stream ends at the latest.
const LATEST: u64 = 50_000;

/// Opens a session, and gives its stream. Answers whether a request ended it, before its keep-alive was due.
fn gives<N: House, R: Wait + HostClock + Copy>(rt: &R, alloc: Global, shared: &Shared<N>) -> bool {
    let mut clock = SysClock::new(*rt);
    let mut view = shared.view(rt);
    let come = Guest::come(
        rt,
        alloc,
        shared,
        LinkKind::Http,
        b"create_session",
        CREATE,
        0,
        &mut view,
    );
    let Ok(mut guest) = come else {
        return false;
    };
    let mut lines = PlainLines::new(alloc);
    let end = guest.stream(rt, alloc, shared, &mut lines, &mut clock, LATEST);
    end == StreamEnd::Ended { code: 31 } && clock.now() < MOST_MS
}

/// Asks once that the session is ended. Answers whether it was.
fn is_ended<N: House, R: Wait>(rt: &R, alloc: Global, shared: &Shared<N>) -> bool {
    let mut view = shared.view(rt);
    let mut seen = Seen::new(alloc);
    let answer = act(
        rt,
        alloc,
        shared,
        LinkKind::Http,
        None,
        b"control",
        DESTROY,
        0,
        &mut view,
        &mut seen,
    );
    match answer {
        Acted::Line(text) => same_bytes(text.as_slice(), b"REQOK,1"),
        Acted::Opened {
            session: _,
            epoch: _,
        }
        | Acted::NoMemory => false,
    }
}

/// Asks until the session is ended, while its stream sleeps. Answers whether it was.
fn ends<N: House, R: Wait + HostClock + Copy>(rt: &R, alloc: Global, shared: &Shared<N>) -> bool {
    let mut clock = SysClock::new(*rt);
    for _ in 0..MOST_REQUESTS {
        clock.wait(PAUSE);
        if is_ended(rt, alloc, shared) {
            return true;
        }
    }
    false
}

/// Gives a stream in a thread, and ends its session in another. Answers whether both went well.
fn meet<N: House + Send + Sync, R: Threads + Wait + HostClock + Copy + Drop + Send + Sync>(
    rt: &R,
    alloc: Global,
    blank: Blank,
    config: Config,
) -> Option<bool>
    requires register { blank.register ≡ N.deed.register }
    requires set { config.set ≡ N.deed.set }
    requires config { config.items ≡ N.deed.config }
    requires items { are_items config.items ≡ true }
{
    let shared = Shared::<N>::new(alloc, blank, config).ok()?;
    let (given, ended) = join(
        rt,
        || gives(rt, alloc, &shared),
        || ends(rt, alloc, &shared),
    );
    Some(given && ended)
}

/// The same over one item.
fn met<R: Threads + Wait + HostClock + Copy + Drop + Send + Sync>(
    rt: &R,
    alloc: Global,
) -> Option<bool> {
    let config = read(alloc, b"q MERGE x\n").ok()?;
    let blank = Blank::new(alloc).ok()?;
    meet::<Brand, R>(rt, alloc, blank, config)
}

#[test]
fn a_stream_sleeps_until_its_bell_rings(rt: HostRuntime) -> Result<(), Fail> {
    assert!(rt; met(&rt, rt.alloc()) == Some(true));
    Ok(())
}
