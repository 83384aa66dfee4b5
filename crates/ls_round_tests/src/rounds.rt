//! Two publishers on two items, and four takers, each of a session with slots on both, in threads at the same time.
ghost use Rattle.std.specs.Prelude.{◌≡◌, ◌≤◌, true};
ghost use Rattle.ls_config.specs.Items.{are_items};
ghost use Rattle.ls_value.specs.declared.limits.TheConstants.{GREATEST_TICK};

use crate::taker::{KEYS, Taker};
use ls_config::{Config, read as read_config};
use ls_guest::{Guest, Shared, control_of, create_of, publish_text};
use ls_register::{Blank, House};
use ls_value::{GREATEST_TICK, NoMemory};
use std::alloc::{AllocError, Global};
use std::marker::{Brand, Send};
use std::sync::Wait;
use std::test::Fail;
use std::thread::{Threads, for_each_mut};

/// How often all threads are started and joined.
const ROUNDS: u64 = 100;

/// How many events each publisher offers in a round.
const EVENTS: u64 = 8;

/// How many acts of each taker there are in a round. The first one is slow, so that events are lost in RAW.
const ACTS: [u64; 4] = [6, 30, 40, 60];

/// How many turns each taker may have at the end.
const MOST_TURNS: u64 = 10_000;

/// The items.
const ITEMS: &[u8] = b"q MERGE a,b\nk COMMAND key,command,qty\n";

/// The subscriptions of each session.
const SUBS: [&str; 4] = [
    "LS_reqId=1&LS_op=add&LS_subId=1&LS_mode=MERGE&LS_group=q&LS_schema=a+b&LS_snapshot=true",
    "LS_reqId=2&LS_op=add&LS_subId=2&LS_mode=COMMAND&LS_group=k&LS_schema=key+command+qty&LS_snapshot=true",
    "LS_reqId=3&LS_op=add&LS_subId=3&LS_mode=RAW&LS_group=q&LS_schema=a+b",
    "LS_reqId=4&LS_op=add&LS_subId=4&LS_mode=RAW&LS_group=k&LS_schema=key+command+qty",
];

/// A publisher of an item: whether that is `k`, how many events it offered, and whether one was refused.
#[derive(Drop)]
struct Publisher {
    alloc: Global,
    is_keyed: bool,
    offered: u64,
    is_refused: bool,
}

/// What a thread does.
#[derive(Drop)]
enum Worker<N: House> {
    Publishes(Publisher),
    Takes(Taker<N>),
}

/// Event n of the item `q`.
fn event_of_q(alloc: Global, n: u64) -> Result<String, AllocError> {
    if n % 3 == 0 {
        return format!(in alloc; "a={n}&b={n}");
    }
    format!(in alloc; "a={n}")
}

/// Event n of the item `k`.
fn event_of_k(alloc: Global, n: u64) -> Result<String, AllocError> {
    if n % 7 == 0 {
        return format!(in alloc; "key=k{}&command=DELETE", n % KEYS);
    }
    format!(in alloc; "key=k{}&command=ADD&qty={n}", n % KEYS)
}

impl Publisher {
    /// Offers the next event, and answers whether it is that one's number.
    fn offer<N: House, R: Wait>(&mut self, rt: &R, shared: &Shared<N>) -> Result<bool, AllocError> {
        let n = self.offered.saturating_add(1);
        self.offered = n;
        let (name, text) = if self.is_keyed {
            ("k", event_of_k(self.alloc, n)?)
        } else {
            ("q", event_of_q(self.alloc, n)?)
        };
        Ok(publish_text(rt, self.alloc, shared, name, n, text.as_str()) == Some(Ok(n)))
    }

    /// Offers the events of a round.
    fn work<N: House, R: Wait>(&mut self, rt: &R, shared: &Shared<N>) {
        for _ in 0..EVENTS {
            match self.offer(rt, shared) {
                Ok(true) => {}
                _ => self.is_refused = true,
            }
        }
    }
}

impl<N: House> Worker<N> {
    /// Does what there is to do in a round, whose number is the tick.
    fn work<R: Wait>(&mut self, rt: &R, shared: &Shared<N>, round: u64) {
        let now = round.min(GREATEST_TICK);
        match self {
            Worker::Publishes(publisher) => publisher.work(rt, shared),
            Worker::Takes(taker) => taker.work(rt, shared, now),
        }
    }

    /// Takes what is left, and looks at it: what went wrong first.
    fn end<R: Wait>(
        &mut self,
        rt: &R,
        shared: &Shared<N>,
        now: u64,
    ) -> Result<&'static str, NoMemory>
        requires { now ≤ GREATEST_TICK }
    {
        match self {
            Worker::Publishes(publisher) => Ok(if publisher.is_refused { "refused" } else { "" }),
            Worker::Takes(taker) => {
                taker.drain(rt, shared, MOST_TURNS, now);
                taker.see_last(ROUNDS * EVENTS)?;
                Ok(taker.fault())
            }
        }
    }

    /// How many events were lost in RAW, and how many lines came again.
    fn losses(&self) -> (u64, u64) {
        match self {
            Worker::Publishes(_) => (0, 0),
            Worker::Takes(taker) => taker.losses(),
        }
    }
}

/// A session with the four subscriptions.
fn subscribed<N: House, R: Wait>(
    rt: &R,
    alloc: Global,
    shared: &Shared<N>,
) -> Result<Guest<N>, Fail> {
    let Ok(create) = create_of(alloc, "") else {
        return Err(Fail::new("no request"));
    };
    let mut view = shared.view(rt);
    let Ok(guest) = Guest::open(rt, shared, &create, 0, &mut view) else {
        return Err(Fail::new("no session"));
    };
    let mut guest = guest;
    for params in SUBS {
        if !is_added(rt, alloc, shared, &mut guest, params) {
            return Err(Fail::new("no subscription"));
        }
    }
    Ok(guest)
}

/// Whether a subscription is added.
fn is_added<N: House, R: Wait>(
    rt: &R,
    alloc: Global,
    shared: &Shared<N>,
    guest: &mut Guest<N>,
    params: &str,
) -> bool {
    let Ok(control) = control_of(alloc, params) else {
        return false;
    };
    guest.control(rt, shared, &control.op, 0).is_ok()
}

/// A publisher of an item.
fn publishes<N: House>(alloc: Global, is_keyed: bool) -> Worker<N> {
    Worker::Publishes(Publisher {
        alloc,
        is_keyed,
        offered: 0,
        is_refused: false,
    })
}

/// A taker of a session of its own.
fn takes<N: House, R: Wait>(
    rt: &R,
    alloc: Global,
    shared: &Shared<N>,
    acts: u64,
) -> Result<Worker<N>, Fail> {
    let guest = subscribed(rt, alloc, shared)?;
    Ok(Worker::Takes(Taker::new(alloc, guest, acts)?))
}

/// Both publishers and all takers.
fn workers<N: House, R: Wait>(
    rt: &R,
    alloc: Global,
    shared: &Shared<N>,
) -> Result<Vec<Worker<N>>, Fail> {
    let mut workers = Vec::new(alloc);
    workers.push(publishes(alloc, false))?;
    workers.push(publishes(alloc, true))?;
    for acts in ACTS {
        workers.push(takes(rt, alloc, shared, acts)?)?;
    }
    Ok(workers)
}

/// What goes wrong first with the workers at the end.
fn first_fault<N: House, R: Wait>(
    rt: &R,
    shared: &Shared<N>,
    workers: &mut [Worker<N>],
) -> Result<&'static str, NoMemory> {
    let mut first = "";
    for worker in workers.iter_mut() {
        let fault = worker.end(rt, shared, ROUNDS)?;
        if first.is_empty() {
            first = fault;
        }
    }
    Ok(first)
}

/// Whether events were lost in RAW, and lines came again.
fn has_losses<N: House>(workers: &[Worker<N>]) -> bool {
    let mut lost: u64 = 0;
    let mut again: u64 = 0;
    for worker in workers {
        let (more, twice) = worker.losses();
        lost = lost.saturating_add(more);
        again = again.saturating_add(twice);
    }
    lost > 0 && again > 0
}

/// All rounds: what went wrong first.
fn all_rounds<N: House + Send + Sync, R: Threads + Wait + Sync>(
    rt: &R,
    alloc: Global,
    blank: Blank,
    config: Config,
) -> Result<String, Fail>
    requires register { blank.register ≡ N.deed.register }
    requires set { config.set ≡ N.deed.set }
    requires config { config.items ≡ N.deed.config }
    requires items { are_items config.items ≡ true }
{
    let shared = Shared::<N>::new(alloc, blank, config)?;
    let mut workers = workers(rt, alloc, &shared)?;
    for round in 0..ROUNDS {
        for_each_mut(
            rt,
            workers.as_mut_slice(),
            6,
            &|_, worker| { worker.work(rt, &shared, round) },
        );
    }
    let fault = first_fault(rt, &shared, workers.as_mut_slice())?;
    if fault.is_empty() && !has_losses(workers.as_slice()) {
        return Ok(String::from_str(alloc, "nothing was lost")?);
    }
    Ok(String::from_str(alloc, fault)?)
}

#[test]
fn what_clients_decode_was_published(rt: HostRuntime) -> Result<(), Fail> {
    let config = read_config(rt.alloc(), ITEMS)?;
    let blank = Blank::new(rt.alloc())?;
    let fault = all_rounds::<Brand, _>(&rt, rt.alloc(), blank, config)?;
    assert!(rt; fault.is_empty(), "{fault}");
    Ok(())
}
