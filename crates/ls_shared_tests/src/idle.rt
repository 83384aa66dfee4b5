//! A session that has nothing new has its turn while the locks of its items are held.
ghost use Rattle.std.specs.Prelude.{◌≡◌, true};
ghost use Rattle.ls_config.specs.Items.{are_items};

use ls_config::{Config, read as read_config};
use ls_event::Event;
use ls_guest::{Guest, Shared, Turn, control_of, create_of};
use ls_line::LineBuf;
use ls_outside::{Gate, OpenGate, Point};
use ls_register::{Blank, House};
use ls_value::NoMemory;
use std::alloc::Global;
use std::marker::{Brand, Send};
use std::sync::Wait;
use std::sync::atomic::{AtomicBool, Ordering};
use std::test::Fail;
use std::thread;
use std::thread::{Threads, join};

/// How often a test looks whether another thread did its part, before it is marked as failed.
const MOST_LOOKS: u64 = 200_000;

/// A gate that holds an offer until a turn was had, and says whether it was held too long.
#[derive(Drop)]
struct HeldGate {
    is_entered: AtomicBool,
    is_had: AtomicBool,
    is_late: AtomicBool,
}

/// Whether a flag is set, as long as this is looked at.
fn is_set_in_time(flag: &AtomicBool) -> bool {
    for _ in 0..MOST_LOOKS {
        if flag.load(Ordering::SeqCst) {
            return true;
        }
        thread::yield_now();
    }
    false
}

impl Gate for HeldGate {
    fn pass(&self, point: Point) {
        if matches!(point, Point::Offering { item: 0 }) {
            self.is_entered.store(true, Ordering::SeqCst);
            if !is_set_in_time(&self.is_had) {
                self.is_late.store(true, Ordering::SeqCst);
            }
        }
    }
}

/// A session with a slot of the first item.
fn subscribed<N: House, R: Wait>(rt: &R, alloc: Global, shared: &Shared<N>) -> Option<Guest<N>> {
    let create = create_of(alloc, "").ok()?;
    let params = "LS_reqId=1&LS_op=add&LS_subId=1&LS_mode=MERGE&LS_group=q&LS_schema=a";
    let control = control_of(alloc, params).ok()?;
    let mut view = shared.view(rt);
    let mut guest = Guest::open(rt, shared, &create, 0, &mut view).ok()?;
    guest.control(rt, shared, &control.op, 0).ok()?;
    Some(guest)
}

/// Turns until there is nothing to give: the last one.
fn settle<N: House, R: Wait>(
    rt: &R,
    shared: &Shared<N>,
    guest: &mut Guest<N>,
    into: &mut LineBuf,
) -> Result<Turn, NoMemory> {
    for _ in 0..20 {
        let turn = guest.take(rt, shared, 0, into, &OpenGate)?;
        if turn != Turn::Send {
            return Ok(turn);
        }
    }
    Ok(Turn::Send)
}

/// Whether an offer to the first item is answered while the gate holds it.
fn is_held<N: House, R: Wait>(rt: &R, shared: &Shared<N>, gate: &HeldGate) -> bool {
    if shared.config().items.is_empty() {
        return false;
    }
    let mut pass = shared.pass(rt, 0, 1);
    let offered = shared.offer(rt, &mut pass, 1, Event::Clear, gate);
    offered == Ok(1) && !gate.is_late.load(Ordering::SeqCst)
}

/// Whether a session without news has its turn while the item's lock is held.
fn is_idle_meanwhile<N: House, R: Wait>(
    rt: &R,
    alloc: Global,
    shared: &Shared<N>,
    gate: &HeldGate,
    guest: &mut Guest<N>,
) -> Result<bool, NoMemory> {
    let mut into = LineBuf::new(alloc)?;
    let is_entered = is_set_in_time(&gate.is_entered);
    let turn = guest.take(rt, shared, 0, &mut into, &OpenGate);
    gate.is_had.store(true, Ordering::SeqCst);
    Ok(is_entered && turn == Ok(Turn::Idle))
}

/// Whether an idle turn takes no lock of an item, and the next one tells what was offered then.
fn is_idle_without_locks<N: House + Send + Sync, R: Threads + Wait + Sync>(
    rt: &R,
    alloc: Global,
    blank: Blank,
    config: Config,
) -> Result<bool, Fail>
    requires register { blank.register ≡ N.deed.register }
    requires set { config.set ≡ N.deed.set }
    requires config { config.items ≡ N.deed.config }
    requires items { are_items config.items ≡ true }
{
    let shared = Shared::<N>::new(alloc, blank, config)?;
    let mut into = LineBuf::new(alloc)?;
    let mut guest = subscribed(rt, alloc, &shared).ok_or("a session")?;
    let is_quiet = settle(rt, &shared, &mut guest, &mut into)? == Turn::Idle;
    let gate = HeldGate {
        is_entered: AtomicBool::new(false),
        is_had: AtomicBool::new(false),
        is_late: AtomicBool::new(false),
    };
    let (held, idle) = join(
        rt,
        || is_held(rt, &shared, &gate),
        || is_idle_meanwhile(rt, alloc, &shared, &gate, &mut guest),
    );
    let is_told = guest.take(rt, &shared, 0, &mut into, &OpenGate)? == Turn::Send;
    Ok(is_quiet && held && idle? && is_told && into.text() == b"U,1,1,#".as_slice())
}

#[test]
fn an_idle_turn_takes_no_items_lock(rt: HostRuntime) -> Result<(), Fail> {
    let config = read_config(rt.alloc(), b"q MERGE a\n")?;
    let blank = Blank::new(rt.alloc())?;
    assert!(rt; is_idle_without_locks::<Brand, _>(&rt, rt.alloc(), blank, config)?);
    Ok(())
}
