//! A feed over a duct, whose client waits for each reply before it sends its next line. What no contract says is that a
//! reply is written before the next read.
ghost use Rattle.std.specs.Prelude.{◌≡◌, true};
ghost use Rattle.ls_config.specs.Items.{are_items};

use ls_config::{Config, read};
use ls_door::{Duct, STACK_BYTES, Spawner};
use ls_feed::{FeedEnd, Shared, serve_feed};
use ls_net::SysClock;
use ls_outside::{Clock, Got, OpenGate, Pipe, Put, Sink, Source};
use ls_register::{Blank, House};
use std::alloc::Global;
use std::marker::{Brand, Send};
use std::rt::Clock as HostClock;
use std::sync::Wait;
use std::test::*;
use std::thread::Threads;

/// How often a client looks for a byte of a reply, 1 ms apart, before it gives up.
const MOST_LOOKS: u32 = 5_000;

/// The lines of a client, and the replies for which it waits. A hello has none.
const TALK: [(&[u8], &[u8]); 6] = [
    (b"feed 1\n", b""),
    (b"q 1 a=x\n", b"ok 1\n"),
    (b"q 1 a=y\n", b"repeated 1\n"),
    (b"q 2 b=1\n", b"bad 3\n"),
    (b"q 2\n", b"bad 1\n"),
    (b"q 2 a=z\n", b"ok 2\n"),
];

/// Serves a feed over the items of a config.
fn feed_over<N: House, R: Wait, C: Pipe, K: Clock>(
    rt: &R,
    alloc: Global,
    blank: Blank,
    config: Config,
    pipe: &mut C,
    clock: &mut K,
) -> Option<FeedEnd>
    requires register { blank.register ≡ N.deed.register }
    requires set { config.set ≡ N.deed.set }
    requires config { config.items ≡ N.deed.config }
    requires items { are_items config.items ≡ true }
{
    let shared = Shared::<N>::new(alloc, blank, config).ok()?;
    let report = serve_feed(rt, alloc, pipe, &shared, clock, &OpenGate, u64::MAX);
    Some(report.end)
}

/// Serves a feed over one item, until its client is gone. Answers how it ended.
fn served<R: Wait, C: Pipe, K: Clock>(
    rt: &R,
    alloc: Global,
    pipe: &mut C,
    clock: &mut K,
) -> Option<FeedEnd> {
    let config = read(alloc, b"q MERGE a\n").ok()?;
    let blank = Blank::new(alloc).ok()?;
    feed_over::<Brand, R, C, K>(rt, alloc, blank, config, pipe, clock)
}

/// The job of a feed.
fn serve<R: Wait + HostClock + Copy + Drop>(rt: R, alloc: Global, mut pipe: Duct<R>) {
    let mut clock = SysClock::new(rt);
    let _ = served(&rt, alloc, &mut pipe, &mut clock);
}

/// Whether these bytes come before the client gives up, and no others.
fn is_told<S: Source, K: Clock>(source: &mut S, clock: &mut K, bytes: &[u8]) -> bool {
    let mut at = 0;
    for _ in 0..MOST_LOOKS {
        if at >= bytes.len() {
            return true;
        }
        let mut piece = [0u8; 1];
        match source.read(&mut piece) {
            Got::Bytes(_) => {
                if piece[0] != bytes[at] {
                    return false;
                }
                at += 1;
            }
            Got::NotYet => clock.wait(1),
            Got::End | Got::Failed => return false,
        }
    }
    false
}

/// Whether each line has its reply before the next line is sent.
fn is_answered_at_once<C: Pipe, K: Clock>(pipe: &mut C, clock: &mut K) -> bool {
    for (line, reply) in TALK {
        if pipe.write(line) != Put::Taken(line.len()) || !is_told(pipe, clock, reply) {
            return false;
        }
    }
    true
}

/// Talks to a feed that a thread serves. Answers whether each reply came before the next line.
fn talks<R: Threads + Wait + HostClock + Copy + Send + Drop + 'static>(
    rt: R,
    alloc: Global,
    spawner: &mut Spawner,
) -> Result<bool, Fail> {
    let (mut near, far) = Duct::pair(rt, alloc, 64)?;
    if spawner
        .start(rt, far, move |far| serve(rt, alloc, far))
        .is_err()
    {
        return Ok(false);
    }
    let mut clock = SysClock::new(rt);
    Ok(is_answered_at_once(&mut near, &mut clock))
}

#[test]
fn a_feed_replies_before_it_reads_on(rt: HostRuntime) -> Result<(), Fail> {
    let mut spawner = Spawner::threads(rt.alloc(), STACK_BYTES);
    let is_answered = talks(rt, rt.alloc(), &mut spawner)?;
    spawner.settle(&rt);
    assert!(rt; is_answered);
    Ok(())
}
