//! Each public call once, two publishers of one item, and offers to two items at the same time.
ghost use Rattle.std.specs.Prelude.{◌≡◌, ◌<◌, ◌≤◌, true, length, IfOk};
ghost use Rattle.ls_config.specs.Items.{are_items};

use ls_config::{Config, read};
use ls_event::{Event, PublishRefused};
use ls_feed::{Blank, House, Shared};
use ls_outside::{Gate, OpenGate, Point};
use std::alloc::Global;
use std::marker::Brand;
use std::process::Abort;
use std::sync::Wait;
use std::sync::atomic::{AtomicBool, Ordering};
use std::test::*;
use std::thread::{Threads, join};

/// How often a test looks whether another thread did its part, before it is marked as failed.
const MOST_LOOKS: u64 = 100_000_000;

/// How many events each of two publishers offers.
const EVENTS: u64 = 1000;

/// A config with two items of one shape.
fn two_items(alloc: Global) -> Result<Config, Fail>
    ensures { IfOk result (λ c. are_items c.items ≡ true) }
{
    Ok(read(alloc, b"first MERGE last,time\nsecond MERGE bid,ask\n")?)
}

/// Whether a Clear with this seq, which adapter 3 offers to an item by a pass of it, is answered this.
fn is_answered<N: House, R: Wait>(
    rt: &R,
    shared: &Shared<N>,
    item: u32,
    seq: u64,
    answer: Result<u64, PublishRefused>,
) -> bool {
    if item as usize >= shared.config().items.len() {
        return false;
    }
    let mut pass = shared.pass(rt, item, 3);
    let is_of = pass.item() == item;
    is_of && shared.offer(rt, &mut pass, seq, Event::Clear, &OpenGate) == answer
}

/// Whether each call answers as it has to, for two items: what is offered to one isn't in the other's history.
fn is_served<N: House, R: Wait>(
    rt: &R,
    alloc: Global,
    blank: Blank,
    config: Config,
) -> Result<bool, Fail>
    requires register { blank.register ≡ N.deed.register }
    requires set { config.set ≡ N.deed.set }
    requires config { config.items ≡ N.deed.config }
    requires items { are_items config.items ≡ true }
{
    let shared = Shared::<N>::new(alloc, blank, config)?;
    let view = shared.view(rt);
    drop(view);
    Ok(
        is_answered(rt, &shared, 1, 7, Ok(1))
            && is_answered(rt, &shared, 0, 7, Ok(1))
            && is_answered(rt, &shared, 0, 7, Err(PublishRefused::Repeated { last: 7 }))
            && is_answered(rt, &shared, 0, 8, Ok(2)),
    )
}

#[test]
fn each_call_answers(rt: HostRuntime) -> Result<(), Fail> {
    let blank = Blank::new(rt.alloc())?;
    let config = two_items(rt.alloc())?;
    assert!(rt; is_served::<Brand, _>(&rt, rt.alloc(), blank, config)?);
    Ok(())
}

/// Offers so many Clears of an adapter to the first item, and gives the numbers that were answered.
fn numbers<N: House, R: Wait>(
    rt: &R,
    alloc: Global,
    shared: &Shared<N>,
    adapter: u8,
) -> Option<Vec<u64>>
    requires some { 1 ≤ adapter }
    requires most { adapter ≤ 64 }
{
    if shared.config().items.is_empty() {
        return None;
    }
    let mut pass = shared.pass(rt, 0, adapter);
    let mut numbers = Vec::new(alloc);
    for seq in 0..EVENTS {
        let offered = shared.offer(rt, &mut pass, seq + 1, Event::Clear, &OpenGate);
        numbers.push(offered.ok()?).ok()?;
    }
    Some(numbers)
}

/// The numbers that two publishers of one item are answered, in order.
fn sorted<N: House + Send + Sync, R: Threads + Wait + Sync>(
    rt: &R,
    alloc: Global,
    blank: Blank,
    config: Config,
) -> Result<Vec<u64>, Fail>
    requires register { blank.register ≡ N.deed.register }
    requires set { config.set ≡ N.deed.set }
    requires config { config.items ≡ N.deed.config }
    requires items { are_items config.items ≡ true }
{
    let shared = Shared::<N>::new(alloc, blank, config)?;
    let (first, second) = join(
        rt,
        || numbers(rt, alloc, &shared, 1),
        || numbers(rt, alloc, &shared, 2),
    );
    let mut all = first.ok_or("the first publisher's")?;
    let more = second.ok_or("the second publisher's")?;
    all.extend_from_slice(&more)?;
    all.sort()?;
    Ok(all)
}

#[test]
fn two_publishers_are_answered_each_number_once(rt: HostRuntime) -> Result<(), Fail> {
    let blank = Blank::new(rt.alloc())?;
    let config = two_items(rt.alloc())?;
    let all = sorted::<Brand, _>(&rt, rt.alloc(), blank, config)?;
    assert_eq!(rt; all.len(), 2000);
    for i in 0..all.len() {
        assert!(rt; all[i] == i as u64 + 1);
    }
    Ok(())
}

/// A gate that is held until another offer was answered, and says whether it was held too long.
#[derive(Drop)]
struct HeldGate {
    is_entered: AtomicBool,
    is_answered: AtomicBool,
    is_late: AtomicBool,
}

/// Whether a flag is set, as long as this is looked at.
fn is_set_in_time(flag: &AtomicBool) -> bool {
    for _ in 0..MOST_LOOKS {
        if flag.load(Ordering::SeqCst) {
            return true;
        }
    }
    false
}

impl Gate for HeldGate {
    fn pass(&self, _: Point) {
        self.is_entered.store(true, Ordering::SeqCst);
        if !is_set_in_time(&self.is_answered) {
            self.is_late.store(true, Ordering::SeqCst);
        }
    }
}

/// Whether an offer to the first item is answered behind the held gate.
fn is_held<N: House, R: Wait>(rt: &R, shared: &Shared<N>, gate: &HeldGate) -> bool {
    if shared.config().items.is_empty() {
        return false;
    }
    let mut pass = shared.pass(rt, 0, 1);
    let offered = shared.offer(rt, &mut pass, 1, Event::Clear, gate);
    offered == Ok(1) && !gate.is_late.load(Ordering::SeqCst)
}

/// Whether an offer to the second item is answered while the first one's is held.
fn is_answered_meanwhile<N: House, R: Wait>(rt: &R, shared: &Shared<N>, gate: &HeldGate) -> bool {
    let is_entered = is_set_in_time(&gate.is_entered);
    let is_answered = is_answered(rt, shared, 1, 1, Ok(1));
    gate.is_answered.store(true, Ordering::SeqCst);
    is_entered && is_answered
}

/// Whether an offer to one item is answered while an offer to another one is held under its lock.
fn both_are_answered<N: House + Send + Sync, R: Threads + Wait + Sync>(
    rt: &R,
    alloc: Global,
    blank: Blank,
    config: Config,
) -> Result<bool, Fail>
    requires register { blank.register ≡ N.deed.register }
    requires set { config.set ≡ N.deed.set }
    requires config { config.items ≡ N.deed.config }
    requires items { are_items config.items ≡ true }
{
    let shared = Shared::<N>::new(alloc, blank, config)?;
    let gate = HeldGate {
        is_entered: AtomicBool::new(false),
        is_answered: AtomicBool::new(false),
        is_late: AtomicBool::new(false),
    };
    let (held, answered) = join(
        rt,
        || is_held(rt, &shared, &gate),
        || is_answered_meanwhile(rt, &shared, &gate),
    );
    Ok(held && answered)
}

#[test]
fn an_offer_is_answered_while_another_items_is_held(rt: HostRuntime) -> Result<(), Fail> {
    let blank = Blank::new(rt.alloc())?;
    let config = two_items(rt.alloc())?;
    assert!(rt; both_are_answered::<Brand, _>(&rt, rt.alloc(), blank, config)?);
    Ok(())
}
