//! A client in a thread of its own, over a pipe in memory: the lines that it is told, and that its connection sleeps while
//! there is nothing to do.
ghost use Rattle.std.specs.Prelude.{◌≡◌, true};
ghost use Rattle.ls_config.specs.Items.{are_items};

use crate::rung::{Rung, two_ends};
use crate::serving::{FED, ITEMS, pipe_of};
use crate::upgrades::{ANSWER, HEAD, REPLY, WSOK};
use ls_config::{Config, read};
use ls_conn_http::{ConnEnd, Shared, serve_one};
use ls_door::Duct;
use ls_feed::serve_feed;
use ls_net::SysClock;
use ls_outside::{Clock, Got, MemPipe, OpenGate, Put, Source, write_all};
use ls_register::{Blank, House};
use std::alloc::Global;
use std::marker::{Brand, Send, Sync};
use std::rt::Clock as HostClock;
use std::sync::Wait;
use std::test::Fail;
use std::thread::{Threads, join};

/// How many bytes wait in a duct at most, each way.
pub(crate) const LIMIT: usize = 65_536;

/// How often a client looks whether something came, before it gives up. It waits 1 ms each time. So it gives up long
/// before the session's keep-alive of 30,000 ms is due, by which a connection would wake without its bell.
const MOST_LOOKS: u32 = 10_000;

/// How many ms a client is silent.
const SILENCE: u64 = 600;

/// How often a connection looks in vain, at most, while its client is silent.
const MOST_VAIN: u64 = 10;

/// The tick, in ms, at which a connection ends at the latest.
pub(crate) const LATEST: u64 = 60_000;

/// What a client says, each message in a masked frame, and what it is told before it goes on.
pub(crate) const TALK: [(&[u8], &[u8]); 4] = [
    (HEAD, REPLY),
    (WSOK, ANSWER),
    (
        b"\x81\xfc\x00\x00\x00\x00create_session\r\nLS_cid=mgQkwtwdysogQz2BJ4Ji%20kOj2Bg&LS_adapter_set=DEFAULT&LS_cause=api&LS_user=u&LS_keepalive_millis=30000",
        b"\x81\x18CONOK,S1,50000,30000,*\r\n\x81\x10SERVNAME,tlcpd\r\n\x81\x10CONS,unlimited\r\n",
    ),
    (
        b"\x81\xfe\x00\xbe\x00\x00\x00\x00control\r\nLS_reqId=2&LS_op=add&LS_subId=1&LS_mode=MERGE&LS_group=item1+item2&LS_schema=last_price+time+stock_name&LS_data_adapter=QUOTE_ADAPTER&LS_snapshot=true&LS_requested_max_frequency=3.0",
        b"\x81\x09REQOK,2\r\n\x81\x0dSUBOK,1,2,3\r\n\x81\x15CONF,1,3.0,filtered\r\n\x81\x1cU,1,1,3.04|20:00:33|Anduct\r\n\x81\x24U,1,2,16.09|20:00:30|Ations Europe\r\n",
    ),
];

/// Whether just these bytes come next.
pub(crate) fn comes<S: Source, K: Clock>(source: &mut S, clock: &mut K, bytes: &[u8]) -> bool {
    let mut at = 0;
    for _ in 0..MOST_LOOKS {
        if at >= bytes.len() {
            return true;
        }
        let mut piece = [0u8; 1];
        match source.read(&mut piece) {
            Got::Bytes(_) => {
                if piece[0] != bytes[at] {
                    return false;
                }
                at += 1;
            }
            Got::NotYet => clock.wait(1),
            Got::End | Got::Failed => return false,
        }
    }
    false
}

/// Whether a client that says this is told that.
fn is_told<R: Wait + Copy + Drop, K: Clock>(
    near: &mut Rung<R, Duct<R>>,
    clock: &mut K,
    said: &[u8],
    told: &[u8],
) -> bool {
    match write_all(near, said) {
        Put::Taken(_) => comes(near, clock, told),
        Put::Failed => false,
    }
}

/// Whether a connection whose client is silent for a while sleeps.
fn sleeps<R: Wait + Copy + Drop, K: Clock>(near: &Rung<R, Duct<R>>, clock: &mut K) -> bool {
    let before = near.looks();
    clock.wait(SILENCE);
    near.looks().saturating_sub(before) <= MOST_VAIN
}

/// Talks as a client, is silent for a while, and talks again. Answers whether it was told what it must be, and its
/// connection slept.
pub(crate) fn talks<R: Wait + HostClock + Copy + Drop>(rt: &R, near: Rung<R, Duct<R>>) -> bool {
    let mut near = near;
    let mut clock = SysClock::new(*rt);
    for (said, told) in TALK {
        if !is_told(&mut near, &mut clock, said, told) {
            return false;
        }
    }
    let slept = sleeps(&near, &mut clock);
    let told = is_told(&mut near, &mut clock, WSOK, ANSWER);
    near.leave();
    slept && told
}

/// Serves a client until it leaves. Answers whether it ended so.
fn serves<N: House, R: Wait + HostClock + Copy + Drop>(
    rt: &R,
    alloc: Global,
    shared: &Shared<N>,
    far: Rung<R, Duct<R>>,
) -> bool {
    let mut far = far;
    let mut clock = SysClock::new(*rt);
    let report = serve_one(rt, alloc, &mut far, shared, &mut clock, &OpenGate, LATEST);
    report.end == ConnEnd::PeerLeft
}

/// Feeds the items, and serves a client in a thread of its own. Answers whether both saw what they must.
fn meet<N: House + Send + Sync, R: Threads + Wait + HostClock + Copy + Drop + Send + Sync>(
    rt: &R,
    alloc: Global,
    blank: Blank,
    config: Config,
    feed: &mut MemPipe,
) -> Option<bool>
    requires register { blank.register ≡ N.deed.register }
    requires set { config.set ≡ N.deed.set }
    requires config { config.items ≡ N.deed.config }
    requires items { are_items config.items ≡ true }
{
    let shared = Shared::<N>::new(alloc, blank, config).ok()?;
    let mut clock = SysClock::new(*rt);
    serve_feed(rt, alloc, feed, &shared, &mut clock, &OpenGate, LATEST);
    let (near, far) = two_ends(*rt, alloc, LIMIT).ok()?;
    let (served, told) = join(rt, || serves(rt, alloc, &shared, far), || talks(rt, near));
    Some(served && told)
}

/// The same over the items of tests.
fn met<R: Threads + Wait + HostClock + Copy + Drop + Send + Sync>(
    rt: &R,
    alloc: Global,
) -> Option<bool> {
    let config = read(alloc, ITEMS).ok()?;
    let blank = Blank::new(alloc).ok()?;
    let mut feed = pipe_of(alloc, FED).ok()?;
    meet::<Brand, R>(rt, alloc, blank, config, &mut feed)
}

#[test]
fn a_client_is_told_its_lines_and_lets_its_connection_sleep(rt: HostRuntime) -> Result<(), Fail> {
    assert!(rt; met(&rt, rt.alloc()) == Some(true));
    Ok(())
}
