//! Workers, and who comes to them and leaves them.

use crate::seats::{MOST_TURNS, Seats, give_up};
use ls_bell::{Bell, CommonBell};
use ls_conn_ws::{ConnEnd, LineBuf, Shared, Socket, Step};
use ls_outside::{Clock, Gate};
use ls_register::House;
use ls_talk::Talk;
use ls_value::NoMemory;
use ls_wake::Wakes;
use std::alloc::Global;
use std::sync::{Arc, Mutex, Wait};

/// How many workers there are.
pub const WORKERS: u64 = 8;

/// How many ms at most a clock is let wait that doesn't run by itself.
const PAUSE: u64 = 10;

/// Who has come to a worker and has no seat yet, and whether a thread is at it.
#[derive(Drop)]
struct Lobby<N: House, T: Talk> {
    coming: Vec<Socket<N, T>>,
    is_manned: bool,
}

/// A worker: the bell for which its thread waits, and its lobby.
#[derive(Drop)]
struct Worker<N: House, T: Talk> {
    bell: Arc<CommonBell, Global>,
    lobby: Mutex<Lobby<N, T>>,
}

/// What became of a connection that came to a worker.
enum Entered<N: House, T: Talk> {
    /// The worker has it.
    Taken,

    /// The worker has it, and the thread that brought it is to stay.
    Stay,

    /// It was refused for want of memory.
    Refused(Socket<N, T>),
}

/// The workers of a server, for threads to share.
#[derive(Drop)]
pub struct Workers<N: House, T: Talk> {
    alloc: Global,
    workers: Vec<Worker<N, T>>,
    leavers: Mutex<Vec<Socket<N, T>>>,
    bell: Arc<Bell, Global>,
}

/// The workers, at which nobody is.
fn idle_workers<N: House, T: Talk + Drop>(alloc: Global) -> Result<Vec<Worker<N, T>>, NoMemory> {
    let mut workers = Vec::new(alloc);
    for number in 0..WORKERS {
        workers.push(Worker {
            bell: Arc::new(alloc, CommonBell::new(number))?,
            lobby: Mutex::new(Lobby {
                coming: Vec::new(alloc),
                is_manned: false,
            }),
        })?;
    }
    Ok(workers)
}

/// How often the bell of a connection's session was rung.
fn rings_of<N: House, T: Talk + Wakes>(socket: &Socket<N, T>) -> u64 {
    match socket.bell() {
        Some(bell) => bell.rings(),
        None => 0,
    }
}

/// Sleeps until the bell of a connection's session rings, but no longer than so many ms.
fn sleep_alone<N: House, R: Wait, T: Talk + Wakes, K: Clock>(
    rt: &R,
    clock: &mut K,
    socket: &Socket<N, T>,
    rings: u64,
    ms: u64,
) {
    match socket.bell() {
        Some(bell) => {
            if clock.runs() {
                bell.wait(rt, rings, ms);
            } else {
                clock.wait(ms.min(PAUSE));
            }
        }
        None => clock.wait(ms.min(PAUSE)),
    }
}

impl<N: House, T: Talk + Wakes + Drop> Workers<N, T> {
    /// Workers at which nobody is.
    pub fn new(alloc: Global) -> Result<Workers<N, T>, NoMemory> {
        Ok(Workers {
            alloc,
            workers: idle_workers(alloc)?,
            leavers: Mutex::new(Vec::new(alloc)),
            bell: Arc::new(alloc, Bell::new())?,
        })
    }

    /// A bell that is rung when a connection left its worker.
    pub fn bell(&self) -> &Arc<Bell, Global> {
        &self.bell
    }

    /// Serves a connection, in the thread of the caller until it has a stream, and then by the worker of its session, whose
    /// thread the caller's becomes if it has none: then it returns when that worker's connections are gone. A connection
    /// that comes with something its peer had no room for is served by the caller's thread to its end, and so is one for
    /// which there is no memory at a worker. One that has ended is closed.
    ///
    /// At a worker, a connection whose peer has no room for what it was told has no turns until it has. Where it takes
    /// nothing for 30,000 ms, it is given up.
    ///
    /// Each connection has its turns until the tick `until`, in ms, or a later one.
    pub fn serve<R: Wait, K: Clock, G: Gate>(
        &self,
        rt: &R,
        shared: &Shared<N>,
        clock: &mut K,
        gate: &G,
        until: u64,
        mut socket: Socket<N, T>,
    ) {
        let Ok(mut into) = LineBuf::new(self.alloc) else {
            give_up(rt, shared, clock, socket);
            return;
        };
        let is_alone = socket.talk().is_behind();
        if !self.turns(
            rt,
            shared,
            clock,
            gate,
            until,
            is_alone,
            &mut socket,
            &mut into,
        ) {
            give_up(rt, shared, clock, socket);
            return;
        }
        match self.enter(rt, socket) {
            (Entered::Taken, _) => {}
            (Entered::Stay, number) => {
                self.work(rt, shared, clock, gate, until, number, &mut into);
            }
            (Entered::Refused(mut socket), _) => {
                self.turns(rt, shared, clock, gate, until, true, &mut socket, &mut into);
                give_up(rt, shared, clock, socket);
            }
        }
    }

    /// A connection that left its worker, if there is one. Whoever takes it serves it, or gives it up.
    pub fn next_leaver<R: Wait>(&self, rt: &R) -> Option<Socket<N, T>> {
        self.leavers.lock(rt).pop()
    }

    /// Gives up a connection that nobody can serve: its stream is lost, and it is closed.
    pub fn give_up<R: Wait, K: Clock>(
        &self,
        rt: &R,
        shared: &Shared<N>,
        clock: &mut K,
        socket: Socket<N, T>,
    ) {
        give_up(rt, shared, clock, socket);
    }

    /// Has turns of a connection, and sleeps between them: to its end where it is alone, else until it rests with a stream
    /// that goes on, or has had many turns with one. Answers whether it goes on.
    fn turns<R: Wait, K: Clock, G: Gate>(
        &self,
        rt: &R,
        shared: &Shared<N>,
        clock: &mut K,
        gate: &G,
        until: u64,
        is_alone: bool,
        socket: &mut Socket<N, T>,
        into: &mut LineBuf,
    ) -> bool {
        socket.talk().wait_for_room(self.alloc, is_alone);
        let mut given: u32 = 0;
        for _ in rt.forever() {
            let rings = rings_of(socket);
            let step = socket.turn(rt, self.alloc, shared, clock, gate, until, into);
            let may_enter = !is_alone && socket.session().is_some();
            match step {
                Step::Goes => {
                    given = given.saturating_add(may_enter as u32);
                    if given >= MOST_TURNS {
                        return true;
                    }
                }
                Step::Rests { ms: _ } if may_enter => return true,
                Step::Rests { ms } => sleep_alone(rt, clock, socket, rings, ms),
                Step::Ended(_) => break,
            }
        }
        false
    }

    /// Brings a connection to the worker of its session. Answers the worker's number, too.
    fn enter<R: Wait>(&self, rt: &R, socket: Socket<N, T>) -> (Entered<N, T>, u64) {
        let Some((worker, number)) = self.worker_of(rt, &socket) else {
            return (Entered::Refused(socket), 0);
        };
        let mut lobby = worker.lobby.lock(rt);
        if lobby.coming.reserve(1).is_err() {
            return (Entered::Refused(socket), number);
        }
        lobby.coming.push_reserved(socket);
        if !lobby.is_manned {
            lobby.is_manned = true;
            return (Entered::Stay, number);
        }
        drop(lobby);
        worker.bell.ring();
        (Entered::Taken, number)
    }

    /// The worker of a connection's session, and its number: the one to which the session's bell is tied.
    fn worker_of<R: Wait>(&self, rt: &R, socket: &Socket<N, T>) -> Option<(&Worker<N, T>, u64)> {
        let session = socket.session()?;
        let bell = socket.bell()?;
        let first = self.workers.get((session % WORKERS) as usize)?;
        let number = bell.tie(rt, &first.bell)?;
        let worker = self.workers.get(number as usize)?;
        Some((worker, number))
    }

    /// Works at a worker until its connections are gone.
    fn work<R: Wait, K: Clock, G: Gate>(
        &self,
        rt: &R,
        shared: &Shared<N>,
        clock: &mut K,
        gate: &G,
        until: u64,
        number: u64,
        into: &mut LineBuf,
    ) {
        let Some(worker) = self.workers.get(number as usize) else {
            return;
        };
        let mut seats = Seats::new(self.alloc);
        let mut leavers = Vec::new(self.alloc);
        let mut before = worker.bell.rings();
        for _ in rt.forever() {
            let rings = worker.bell.rings();
            let is_rung = rings != before;
            before = rings;
            if !take_in(rt, worker, &mut seats, leavers.is_empty()) {
                break;
            }
            let ms = seats.round(
                rt,
                self.alloc,
                shared,
                clock,
                gate,
                until,
                is_rung,
                into,
                &mut leavers,
            );
            let is_done = self.let_go(rt, shared, clock, &mut leavers);
            let ms = if is_done { ms } else { ms.min(PAUSE) };
            if ms > 0 && !seats.is_empty() {
                sleep(rt, clock, worker, rings, ms);
            }
        }
    }

    /// Lets leavers go. One that was stopped is closed at once. Answers whether all of them went: there may be no memory.
    fn let_go<R: Wait, K: Clock>(
        &self,
        rt: &R,
        shared: &Shared<N>,
        clock: &mut K,
        leavers: &mut Vec<Socket<N, T>>,
    ) -> bool {
        for _ in 0..leavers.len() {
            let Some(socket) = leavers.pop() else {
                break;
            };
            if socket.end() == Some(ConnEnd::Stopped) {
                give_up(rt, shared, clock, socket);
                continue;
            }
            let mut leaving = self.leavers.lock(rt);
            if leaving.reserve(1).is_err() {
                // There is room for it: it was there.
                leavers.push_reserved(socket);
                return false;
            }
            leaving.push_reserved(socket);
            drop(leaving);
            self.bell.ring();
        }
        true
    }
}

/// Sleeps until a worker's bell rings, but no longer than so many ms.
fn sleep<N: House, R: Wait, T: Talk, K: Clock>(
    rt: &R,
    clock: &mut K,
    worker: &Worker<N, T>,
    rings: u64,
    ms: u64,
) {
    if clock.runs() {
        worker.bell.wait(rt, rings, ms);
    } else {
        clock.wait(ms.min(PAUSE));
    }
}

/// Gives those in the lobby a seat, as far as there is memory. Where there is nobody at all, the thread leaves the worker:
/// `false`.
fn take_in<N: House, R: Wait, T: Talk + Wakes + Drop>(
    rt: &R,
    worker: &Worker<N, T>,
    seats: &mut Seats<N, T>,
    is_free: bool,
) -> bool {
    let mut lobby = worker.lobby.lock(rt);
    if lobby.coming.is_empty() && seats.is_empty() && is_free {
        lobby.is_manned = false;
        return false;
    }
    for _ in 0..lobby.coming.len() {
        let Some(socket) = lobby.coming.pop() else {
            break;
        };
        if let Err(socket) = seats.add(socket) {
            // There is room for it: it was there.
            lobby.coming.push_reserved(socket);
            break;
        }
    }
    true
}
