//! How many events a second threads offer.
ghost use Rattle.std.specs.Prelude.{◌≡◌, ◌<◌, ◌≤◌, true, Some, IsTrue, IfSome, IfOk, length, slice_get};
ghost use Rattle.ls_event.specs.History.{HasFields};
ghost use Rattle.ls_config.specs.Items.{are_items};

use crate::Failed;
use ls_config::Config;
use ls_event::{Event, read_event};
use ls_outside::OpenGate;
use ls_shared::{Blank, House, PubPass, Shared};
use std::alloc::{AllocError, Global};
use std::fmt::Write;
use std::rt::Runtime;
use std::sync::Wait;
use std::thread;
use std::thread::Threads;
use std::time::Instant;

/// How many items a round has: one for each thread, and two on which it is measured what one of them takes.
const ROUND_ITEMS: u32 = 6;

/// What is offered each time: an update of two of eight fields.
const UPDATE: &[u8] = b"f2=3.04&f7=20:00:33";

/// How many threads offer side by side.
const THREADS: usize = 4;

/// How many events each thread offers in a round.
const EVENTS: u64 = 1_000_000;

/// How many rounds there are; the best of them counts.
const ROUNDS: u32 = 10;

/// How many times as many events, in hundredths, four threads on four items have to offer as one on one.
const LEAST: u128 = 250;

/// The items: each round has its own, as each feed of a server has, so that no thread gives back memory that another
/// one took.
pub fn items(alloc: Global) -> Result<String, AllocError> {
    let mut text = String::new(alloc);
    for item in 0..ROUNDS * ROUND_ITEMS {
        write!(text, "i{item} MERGE f1,f2,f3,f4,f5,f6,f7,f8\n")?;
    }
    Ok(text)
}

/// Whether an event has a cell for each of so many fields.
fn is_of(event: &Event, fields: usize) -> bool
    ensures { IsTrue result → HasFields fields event.now }
{
    match event {
        Event::Update(cells) => cells.len() == fields,
        Event::Clear => true,
    }
}

/// A pass of an item with its number of fields, where there is the item.
fn pass_of<N: House, R: Wait>(
    rt: &R,
    shared: &Shared<N>,
    item: u32,
    adapter: u8,
) -> Option<(PubPass<N>, usize)>
    requires some { 1 ≤ adapter }
    requires most { adapter ≤ 64 }
    ensures { IfSome result (λ p. p.0.shape.fields ≡ p.1) }
{
    let definition = shared.config().items.as_slice().get(item as usize)?;
    let pass = shared.pass(rt, item, adapter);
    Some((pass, definition.fields.len()))
}

/// What threads offer side by side, to the items of a round: each to the one of its own number behind a first one, or
/// all to that one.
struct Work {
    threads: usize,
    first: u32,
    is_apart: bool,
}

const ONE_ON_ONE: Work = Work {
    threads: 1,
    first: 4,
    is_apart: false,
};

const FOUR_ON_FOUR: Work = Work {
    threads: THREADS,
    first: 0,
    is_apart: true,
};

const FOUR_ON_ONE: Work = Work {
    threads: THREADS,
    first: 5,
    is_apart: false,
};

/// Offers the events of a thread and a round, and answers whether all are numbered.
fn offer_often<N: House, R: Wait>(
    rt: &R,
    alloc: Global,
    shared: &Shared<N>,
    work: &Work,
    index: usize,
    round: u32,
    update: &Event,
) -> Option<()> {
    let thread = (index % THREADS) as u32;
    let apart = if work.is_apart { thread } else { 0 };
    let first = round.saturating_mul(ROUND_ITEMS);
    let item = first.saturating_add(work.first).saturating_add(apart);
    let (mut pass, fields) = pass_of(rt, shared, item, thread as u8 + 1)?;
    if !is_of(update, fields) {
        return None;
    }
    for n in 0..EVENTS {
        let event = update.copy(alloc).ok()?;
        shared.offer(rt, &mut pass, n + 1, event, &OpenGate).ok()?;
    }
    Some(())
}

/// How many nanoseconds a round takes.
fn timed<N: House + Send + Sync, R: Runtime + AllocGlobal + Threads + Wait + Sync>(
    rt: &R,
    shared: &Shared<N>,
    work: &Work,
    round: u32,
    update: &Event,
) -> Result<u128, Failed> {
    let alloc = rt.alloc();
    let start = Instant::now(rt)?;
    let all = thread::map_indices(
        rt,
        alloc,
        work.threads,
        &|index| { offer_often(rt, alloc, shared, work, index, round, update) },
    )?;
    let nanoseconds = start.elapsed(rt)?.as_nanos();
    if all.iter().all(|done| done.is_some()) {
        Ok(nanoseconds.max(1))
    } else {
        Err(Failed::Refused)
    }
}

/// How many events a second were offered, at these nanoseconds a round.
fn rate_of(work: &Work, nanoseconds: u128) -> u128 {
    let events = (work.threads as u128).saturating_mul(EVENTS as u128);
    events.saturating_mul(1_000_000_000) / nanoseconds.max(1)
}

/// Prints what each kind of work offers, and fails where four threads on four items offer too few.
fn report<R: Runtime + AllocGlobal>(
    rt: &R,
    one: u128,
    apart: u128,
    together: u128,
) -> Result<(), Failed> {
    let hundredths = apart.saturating_mul(100) / one.max(1);
    println!(rt; "one thread on one item: {one} offers/s")?;
    println!(rt; "four threads on one item: {together} offers/s")?;
    println!(rt;
        "four threads on four items: {apart} offers/s, {}.{:02} times one on one",
        hundredths / 100,
        hundredths % 100
    )?;
    if hundredths < LEAST {
        return Err(Failed::TooSlow);
    }
    Ok(())
}

/// Measures one thread on one item, four on four, and four on one, by turns.
pub fn measure<N: House + Send + Sync, R: Runtime + AllocGlobal + Threads + Wait + Sync>(
    rt: &R,
    blank: Blank,
    config: Config,
) -> Result<(), Failed>
    requires register { blank.register ≡ N.deed.register }
    requires set { config.set ≡ N.deed.set }
    requires config { config.items ≡ N.deed.config }
    requires items { are_items config.items ≡ true }
{
    let shared = Shared::<N>::new(rt.alloc(), blank, config)?;
    let update = update_of(rt.alloc(), &shared)?;
    let mut one = u128::MAX;
    let mut apart = u128::MAX;
    let mut together = u128::MAX;
    for round in 0..ROUNDS {
        one = one.min(timed(rt, &shared, &ONE_ON_ONE, round, &update)?);
        apart = apart.min(timed(rt, &shared, &FOUR_ON_FOUR, round, &update)?);
        together = together.min(timed(rt, &shared, &FOUR_ON_ONE, round, &update)?);
    }
    report(
        rt,
        rate_of(&ONE_ON_ONE, one),
        rate_of(&FOUR_ON_FOUR, apart),
        rate_of(&FOUR_ON_ONE, together),
    )
}

/// The update that is offered.
fn update_of<N: House>(alloc: Global, shared: &Shared<N>) -> Result<Event, Failed> {
    let Some(definition) = shared.config().items.as_slice().first() else {
        return Err(Failed::Refused);
    };
    match read_event(alloc, UPDATE, &definition.fields) {
        Ok(event) => Ok(event),
        Err(_) => Err(Failed::Refused),
    }
}
