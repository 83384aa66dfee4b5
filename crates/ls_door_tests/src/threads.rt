//! Spawners, bells and ducts.
use ls_bell::CommonBell;
use ls_door::{Bell, Duct, STACK_BYTES, Spawner};
use ls_outside::{Got, Put, Sink, Source};
use std::marker::Send;
use std::sync::atomic::{AtomicU64, Ordering};
use std::sync::{Arc, Wait};
use std::test::*;
use std::thread;
use std::thread::Threads;

/// How often a test looks whether another thread did its part, before it is marked as failed.
const MOST_LOOKS: u64 = 100_000_000;

/// How many jobs are started one after another.
const JOBS: u64 = 1_000;

/// Whether a count gets there.
fn is_reached(count: &AtomicU64, goal: u64) -> bool {
    for _ in 0..MOST_LOOKS {
        if count.load(Ordering::SeqCst) >= goal {
            return true;
        }
        thread::yield_now();
    }
    false
}

/// A job: it adds one.
fn add(count: Arc<AtomicU64>) {
    count.fetch_add(1, Ordering::SeqCst);
}

/// Starts jobs, each after the one before it was done. Answers whether all were, and whether few threads were kept.
fn one_after_another<R: Threads + Wait + Copy + Send + 'static>(
    rt: R,
    spawner: &mut Spawner,
    count: &Arc<AtomicU64>,
) -> Result<bool, Fail> {
    for i in 0..JOBS {
        let theirs = Arc::try_clone(count)?;
        if spawner.start(rt, theirs, |theirs| add(theirs)).is_err() || !is_reached(count, i + 1) {
            return Ok(false);
        }
    }
    Ok(spawner.running() < 100)
}

#[test]
fn a_thousand_jobs_leave_few_threads(rt: HostRuntime) -> Result<(), Fail> {
    let count = Arc::new(rt.alloc(), AtomicU64::new(0))?;
    let mut spawner = Spawner::threads(rt.alloc(), STACK_BYTES);
    assert!(rt; one_after_another(rt, &mut spawner, &count)?);
    spawner.settle(&rt);
    assert!(rt; spawner.running() == 0 && spawner.refused() == 0);
    assert!(rt; count.load(Ordering::SeqCst) == JOBS);
    Ok(())
}

/// Starts a job. Answers whether it came back, and how many jobs were done.
fn answers_to<R: Threads + Wait + Copy + Send + 'static>(
    rt: R,
    spawner: &mut Spawner,
    count: &Arc<AtomicU64>,
) -> Result<(bool, u64), Fail> {
    let before = count.load(Ordering::SeqCst);
    let is_back = match spawner.start(rt, Arc::try_clone(count)?, |theirs| add(theirs)) {
        Ok(()) => false,
        Err(job) => {
            drop(job);
            true
        }
    };
    let done = count.load(Ordering::SeqCst).saturating_sub(before);
    Ok((is_back, done))
}

#[test]
fn at_once_nothing_is_refused(rt: HostRuntime) -> Result<(), Fail> {
    let count = Arc::new(rt.alloc(), AtomicU64::new(0))?;
    let mut spawner = Spawner::at_once(rt.alloc());
    assert!(rt; answers_to(rt, &mut spawner, &count)? == (false, 1));
    assert!(rt; spawner.running() == 0 && spawner.refused() == 0);
    Ok(())
}

#[test]
fn a_list_refuses(rt: HostRuntime) -> Result<(), Fail> {
    let count = Arc::new(rt.alloc(), AtomicU64::new(0))?;
    let refusals = Vec::from_slice(rt.alloc(), &[false, true])?;
    let mut spawner = Spawner::by_list(rt.alloc(), refusals);
    assert!(rt; answers_to(rt, &mut spawner, &count)? == (false, 1));
    assert!(rt; answers_to(rt, &mut spawner, &count)? == (true, 0) && spawner.refused() == 1);
    assert!(rt; answers_to(rt, &mut spawner, &count)? == (false, 1) && spawner.refused() == 1);
    Ok(())
}

#[test]
fn a_thread_that_cannot_be_made_is_a_refusal(rt: HostRuntime) -> Result<(), Fail> {
    let count = Arc::new(rt.alloc(), AtomicU64::new(0))?;
    let mut spawner = Spawner::threads(rt.alloc(), usize::MAX);
    assert!(rt; answers_to(rt, &mut spawner, &count)? == (true, 0));
    assert!(rt; spawner.running() == 0 && spawner.refused() == 1);
    Ok(())
}

/// How many ms a thread lets go by, so that another one sleeps meanwhile.
const LATER_MS: u64 = 20;

/// How many ms a thread sleeps at most that is to be woken. It is more than a test may take.
const LONG_MS: u64 = 100_000;

/// Waits until a bell is rung beyond this count.
fn wait_for_ring<R: Wait>(rt: &R, bell: &Bell, seen: u64) {
    for _ in 0..MOST_LOOKS {
        if bell.rings() != seen {
            break;
        }
        bell.wait(rt, seen, LONG_MS);
    }
}

/// Rings a bell, once its thread waits or before.
fn rings(bell: Arc<Bell>) {
    bell.ring();
}

#[test]
fn a_ring_is_not_lost(rt: HostRuntime) -> Result<(), Fail> {
    let bell = Arc::new(rt.alloc(), Bell::new())?;
    let seen = bell.rings();
    bell.wait(&rt, seen, 1);
    let mut spawner = Spawner::threads(rt.alloc(), STACK_BYTES);
    assert!(rt;
        spawner
            .start(rt, Arc::try_clone(&bell)?, |bell| rings(bell))
            .is_ok()
    );
    wait_for_ring(&rt, &bell, seen);
    assert!(rt; bell.rings() == 1 && bell.calls() == 0);
    spawner.settle(&rt);
    Ok(())
}

/// Lets some ms go by.
fn let_pass<R: Wait>(rt: &R) {
    Bell::new().wait(rt, 0, LATER_MS);
}

/// Notes a bell once a thread sleeps on it, and wakes the thread later. Then it does so again, by a call.
fn wakes_twice<R: Wait>(rt: &R, bell: Arc<Bell>) {
    let_pass(rt);
    bell.note();
    let_pass(rt);
    bell.wake();
    let_pass(rt);
    bell.call();
}

#[test]
fn a_note_and_a_wake_are_a_ring_and_so_is_a_call(rt: HostRuntime) -> Result<(), Fail> {
    let bell = Arc::new(rt.alloc(), Bell::new())?;
    let mut spawner = Spawner::threads(rt.alloc(), STACK_BYTES);
    let work = move |bell| wakes_twice(&rt, bell);
    assert!(rt; spawner.start(rt, Arc::try_clone(&bell)?, work).is_ok());
    wait_for_ring(&rt, &bell, 0);
    wait_for_ring(&rt, &bell, 1);
    assert!(rt; bell.rings() == 2 && bell.calls() == 1);
    spawner.settle(&rt);
    Ok(())
}

#[test]
fn a_common_bell_is_noted_with_each_bell(rt: HostRuntime) -> Result<(), Fail> {
    let common = Arc::new(rt.alloc(), CommonBell::new(7))?;
    let one = Bell::new();
    let other = Bell::new();
    assert!(rt; one.tie(&rt, &common) == Some(7) && other.tie(&rt, &common) == Some(7));
    one.note();
    other.note();
    assert!(rt; common.rings() == 2);
    one.wake();
    other.wake();
    assert!(rt; common.rings() == 2);
    one.call();
    assert!(rt; common.rings() == 3 && one.calls() == 1 && other.calls() == 0);
    Ok(())
}

/// Reads all that comes, to the end, and answers with as many bytes.
fn echo<R: Wait + Drop>(mut end: Duct<R>) {
    for _ in 0..MOST_LOOKS {
        let mut piece = [0u8; 3];
        match end.read(&mut piece) {
            Got::Bytes(count) => {
                let _ = end.write(&piece[..count]);
            }
            Got::NotYet => thread::yield_now(),
            Got::End | Got::Failed => return,
        }
    }
}

/// Whether these bytes come, and nothing before them.
fn is_told<S: Source>(source: &mut S, bytes: &[u8]) -> bool {
    let mut at = 0;
    for _ in 0..MOST_LOOKS {
        if at >= bytes.len() {
            return true;
        }
        let mut piece = [0u8; 1];
        match source.read(&mut piece) {
            Got::Bytes(_) => {
                if piece[0] != bytes[at] {
                    return false;
                }
                at += 1;
            }
            Got::NotYet => thread::yield_now(),
            Got::End | Got::Failed => return false,
        }
    }
    false
}

#[test]
fn a_duct_between_threads(rt: HostRuntime) -> Result<(), Fail> {
    let (mut near, far) = Duct::pair(rt, rt.alloc(), 8)?;
    let mut spawner = Spawner::threads(rt.alloc(), STACK_BYTES);
    assert!(rt; near.read(&mut [0u8; 2]) == Got::NotYet && near.idles() == 1);
    assert!(rt; near.write(b"0123456789") == Put::Taken(8));
    assert!(rt; near.write(b"x") == Put::Failed && near.write_faults() == 1);
    assert!(rt; spawner.start(rt, far, |far| echo(far)).is_ok());
    assert!(rt; is_told(&mut near, b"01234567"));
    drop(near);
    spawner.settle(&rt);
    Ok(())
}

#[test]
fn a_duct_whose_end_is_gone(rt: HostRuntime) -> Result<(), Fail> {
    let (mut near, mut far) = Duct::pair(rt, rt.alloc(), 8)?;
    assert!(rt; far.write(b"bye") == Put::Taken(3));
    drop(far);
    assert!(rt; is_told(&mut near, b"bye"));
    assert!(rt; near.read(&mut [0u8; 2]) == Got::End && near.write(b"x") == Put::Failed);
    Ok(())
}
