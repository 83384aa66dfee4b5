//! Visitors, one after another.
ghost use Rattle.std.specs.Prelude.{◌≡◌};
ghost use Rattle.ls_serve.specs.Serving.{StopsAt};

use crate::visits::{Common, admit_client, admit_feed, drop_leavers, serve_leavers};
use ls_door::{Bell, Door, Spawner, Visit};
use ls_outside::Clock;
use ls_register::House;
use std::alloc::Global;
use std::marker::{Send, Sync};
use std::sync::{Arc, Wait};
use std::thread::Threads;

/// How many ms are waited after a visitor, where no other one is there: those who ask one request after another come at
/// once again.
const LEAST_PAUSE: u64 = 1;

/// How many ms are waited at most where nobody came, or a visitor couldn't be let in.
const MOST_PAUSE: u64 = 10;

/// How many ms at most are waited for the bell: sessions may have to end.
const MOST_NAP: u64 = 100;

/// The pause after one in which nobody came.
fn longer(pause: u64) -> u64 {
    pause.saturating_mul(2).min(MOST_PAUSE)
}

/// The bell that rings when a WebSocket left its worker, where the door can have it rung when a visitor comes, too.
fn bell_of<'a, N: House, D: Door>(
    common: &'a Arc<Common<N, D::Conn>>,
    door: &D,
) -> Option<&'a Arc<Bell, Global>> {
    let bell = common.workers.bell();
    if door.wake_with(bell) {
        Some(bell)
    } else {
        None
    }
}

/// How often a bell was rung.
fn rings_of(bell: Option<&Arc<Bell, Global>>) -> u64 {
    match bell {
        Some(bell) => bell.rings(),
        None => 0,
    }
}

/// Waits where nobody is there: until the bell rings, which was rung so often before it was looked, but for `nap` ms at
/// most; or so many ms, where there is no bell. Answers how many they are the next time.
fn pass_time<R: Wait, C: Clock>(
    rt: &R,
    clock: &mut C,
    bell: Option<&Arc<Bell, Global>>,
    rings: u64,
    nap: u64,
    pause: u64,
) -> u64 {
    match bell {
        Some(bell) => {
            if nap > 0 {
                bell.wait(rt, rings, nap);
            }
            MOST_PAUSE
        }
        None => {
            clock.wait(pause);
            longer(pause)
        }
    }
}

/// Lets the next visitor in, if one is there, and gives it to a job. Where none is there it waits, until the bell rings if
/// there is one, which was rung so often before it was looked, and for `nap` ms at most; where one couldn't be let in the
/// clock waits so many ms. Answers how many they are the next time.
fn admit<
    N: House + Send + Sync + 'static,
    R: Threads + Wait + Copy + Send + Sync + 'static,
    C: Clock + Send + Drop + 'static,
    D: Door,
>(
    rt: R,
    alloc: Global,
    common: &Arc<Common<N, D::Conn>>,
    clock: &mut C,
    until: u64,
    door: &mut D,
    spawner: &mut Spawner,
    bell: Option<&Arc<Bell, Global>>,
    rings: u64,
    nap: u64,
    pause: u64,
) -> u64
    ensures { D.opened door.new ≡ D.opened door.old }
{
    match door.accept() {
        Visit::Client(conn) => admit_client(rt, alloc, common, clock, until, spawner, conn),
        Visit::Feed(conn) => admit_feed(rt, alloc, common, clock, until, spawner, conn),
        Visit::Idle => return pass_time(&rt, clock, bell, rings, nap, pause),
        Visit::Failed => {
            clock.wait(pause);
            return longer(pause);
        }
    }
    LEAST_PAUSE
}

/// Lets visitors in until the tick at which it is to end, and waits for their jobs.
pub(crate) fn attend<
    N: House + Send + Sync + 'static,
    R: Threads + Wait + Copy + Send + Sync + 'static,
    C: Clock + Send + Drop + 'static,
    D: Door,
>(
    rt: &R,
    alloc: Global,
    common: &Arc<Common<N, D::Conn>>,
    clock: &mut C,
    door: &mut D,
    spawner: &mut Spawner,
    end: Option<u64>,
)
    ensures stopped { StopsAt end (C.told clock.new) }
    ensures ports { D.opened door.new ≡ D.opened door.old }
{
    let until = end.unwrap_or(u64::MAX);
    let bell = bell_of(common, door);
    let mut pause = MOST_PAUSE;
    for _ in rt.forever() {
        let now = clock.now();
        if now >= until {
            break;
        }
        // A bell that rings from here on ends the nap.
        let rings = rings_of(bell);
        let all_went = serve_leavers(*rt, common, clock, until, spawner);
        let nap = if all_went {
            MOST_NAP.min(until.saturating_sub(now))
        } else {
            0
        };
        pause = admit(
            *rt, alloc, common, clock, until, door, spawner, bell, rings, nap, pause,
        );
        // Where it finds no memory, the next one goes on.
        let _ = common.shared.sweep(rt, now);
    }
    spawner.settle(rt);
    drop_leavers(rt, common, clock);
}
