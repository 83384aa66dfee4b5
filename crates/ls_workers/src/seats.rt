//! The connections of one worker.

use ls_bell::Bell;
use ls_conn_ws::{LineBuf, Shared, Socket, Step};
use ls_outside::{Clock, Gate};
use ls_register::House;
use ls_talk::Talk;
use ls_wake::Wakes;
use std::alloc::Global;
use std::sync::{Arc, Wait};

/// How many turns a connection has at most before the next one has its turns.
pub(crate) const MOST_TURNS: u32 = 64;

/// How many ms a worker sleeps at most.
const MOST_SLEEP: u64 = 1_000;

/// How many ms at least and at most a worker lets pass before it looks again whether a peer has room.
const LEAST_WAIT: u64 = 10;

const MOST_WAIT: u64 = 100;

/// How many ms a connection stays at its worker whose peer takes nothing.
const MOST_BEHIND: u64 = 30_000;

/// A connection at a worker.
#[derive(Drop)]
struct Seat<N: House, T: Talk> {
    socket: Socket<N, T>,

    /// The session of its stream when it came.
    session: Option<u64>,

    /// The tick, in ms, since which its peer took nothing of what it has no room for. None where nothing is kept for it.
    behind: Option<u64>,
}

/// What calls a connection at a worker. A worker looks through these, and goes to those connections alone that are called.
#[derive(Drop)]
struct Call {
    /// The bell of the session of its stream when it came.
    bell: Option<Arc<Bell, Global>>,

    /// How often that was rung before the last turn.
    rings: u64,

    /// The tick, in ms, at which it has a turn although no bell rang.
    due: u64,

    /// Whether its peer had no room after the last turn: then no bell counts.
    is_behind: bool,
}

/// What became of a connection by its turns.
#[derive(Clone, Copy, Debug, PartialEq, Eq)]
enum Visited {
    /// It rests so many ms; none where it has more to do.
    Rests { ms: u64 },

    /// It can't stay.
    Leaves,

    /// Its peer took nothing for too long.
    Lost,
}

/// Gives up a connection: its stream is lost, and it is closed.
pub(crate) fn give_up<N: House, R: Wait, T: Talk + Wakes + Drop, K: Clock>(
    rt: &R,
    shared: &Shared<N>,
    clock: &mut K,
    socket: Socket<N, T>,
) {
    let now = clock.now();
    let (report, talk) = socket.finish(rt, shared, now);
    drop(report);
    drop(talk);
}

/// How often the bell of a seat was rung.
fn rings_of(bell: &Option<Arc<Bell, Global>>) -> u64 {
    match bell {
        Some(bell) => bell.rings(),
        None => 0,
    }
}

impl Call {
    /// What calls a connection that has its first turn at once. `None` where there is no further hold on its bell.
    fn of<N: House, T: Talk + Wakes>(socket: &Socket<N, T>) -> Option<Call> {
        let bell = match socket.bell() {
            Some(bell) => Some(Arc::try_clone(bell).ok()?),
            None => None,
        };
        Some(Call {
            bell,
            rings: 0,
            due: 0,
            is_behind: false,
        })
    }

    /// Whether there may be something to do: its tick has come, or its bell was rung, which counts only where some bell of
    /// the worker was, and its peer had room.
    fn comes(&self, now: u64, is_rung: bool) -> bool {
        now >= self.due || is_rung && !self.is_behind && rings_of(&self.bell) != self.rings
    }
}

impl<N: House, T: Talk + Wakes + Drop> Seat<N, T> {
    /// Whether its stream is of no other session than when it came.
    fn is_same(&self) -> bool {
        match self.socket.session() {
            Some(session) => self.session == Some(session),
            None => true,
        }
    }

    /// What becomes of it after a turn that let it rest so many ms. Where its peer had no room for what the turn told, it
    /// looks again soon.
    fn rest(&mut self, now: u64, ms: u64) -> Visited {
        if !self.is_same() {
            return Visited::Leaves;
        }
        if !self.socket.talk().is_behind() {
            return Visited::Rests { ms };
        }
        self.behind = Some(self.behind.unwrap_or(now));
        let ms = ms.min(LEAST_WAIT);
        Visited::Rests { ms }
    }

    /// Writes what its peer had no room for, at a tick before `until`. None where the connection may have a turn: its peer has
    /// room for all of that, or is gone, which the turn finds.
    fn wait_for_room(&mut self, now: u64, until: u64) -> Option<Visited> {
        let talk = self.socket.talk();
        if !talk.is_behind() {
            self.behind = None;
            return None;
        }
        let taken = talk.catch_up()?;
        if !talk.is_behind() {
            self.behind = None;
            return None;
        }
        let since = if taken > 0 {
            now
        } else {
            self.behind.unwrap_or(now)
        };
        self.behind = Some(since);
        if now >= until {
            return None;
        }
        let waited = now.saturating_sub(since);
        if waited >= MOST_BEHIND {
            return Some(Visited::Lost);
        }
        let ms = (waited / 4).clamp(LEAST_WAIT, MOST_WAIT);
        Some(Visited::Rests { ms })
    }

    /// Has turns at a tick, until it rests; for how many ms. While its peer has no room it has none.
    fn visit<R: Wait, K: Clock, G: Gate>(
        &mut self,
        rt: &R,
        alloc: Global,
        shared: &Shared<N>,
        clock: &mut K,
        gate: &G,
        now: u64,
        until: u64,
        into: &mut LineBuf,
    ) -> Visited {
        for _ in 0..MOST_TURNS {
            if let Some(visited) = self.wait_for_room(now, until) {
                return visited;
            }
            match self
                .socket
                .turn(rt, alloc, shared, clock, gate, until, into)
            {
                Step::Goes => {}
                Step::Rests { ms } => return self.rest(now, ms),
                Step::Ended(_) => return Visited::Leaves,
            }
        }
        self.rest(now, 0)
    }
}

/// The connections of a worker, and what calls each of them.
#[derive(Drop)]
pub(crate) struct Seats<N: House, T: Talk> {
    seats: Vec<Seat<N, T>>,
    calls: Vec<Call>,
}

impl<N: House, T: Talk + Wakes + Drop> Seats<N, T> {
    /// No connection.
    pub(crate) fn new(alloc: Global) -> Seats<N, T> {
        Seats {
            seats: Vec::new(alloc),
            calls: Vec::new(alloc),
        }
    }

    /// Whether there is none.
    pub(crate) fn is_empty(&self) -> bool {
        self.seats.is_empty()
    }

    /// Has a connection sit down. After a refusal it is handed back.
    pub(crate) fn add(&mut self, socket: Socket<N, T>) -> Result<(), Socket<N, T>> {
        if self.seats.reserve(1).is_err() || self.calls.reserve(1).is_err() {
            return Err(socket);
        }
        let Some(call) = Call::of(&socket) else {
            return Err(socket);
        };
        let session = socket.session();
        self.seats.push_reserved(Seat {
            socket,
            session,
            behind: None,
        });
        self.calls.push_reserved(call);
        Ok(())
    }

    /// Has all connections that are called have their turns at a tick, and answers how many ms the worker may sleep. Those
    /// that can't stay are put to `leavers`. Where no bell was rung since the last round, `is_rung` is false.
    pub(crate) fn round<R: Wait, K: Clock, G: Gate>(
        &mut self,
        rt: &R,
        alloc: Global,
        shared: &Shared<N>,
        clock: &mut K,
        gate: &G,
        until: u64,
        is_rung: bool,
        into: &mut LineBuf,
        leavers: &mut Vec<Socket<N, T>>,
    ) -> u64 {
        let now = clock.now();
        let mut soonest = now.saturating_add(MOST_SLEEP);
        let mut at = 0;
        for _ in 0..self.calls.len() {
            let Some(call) = self.calls.get_mut(at) else {
                break;
            };
            if !call.comes(now, is_rung) {
                soonest = soonest.min(call.due);
                at += 1;
                continue;
            }
            call.rings = rings_of(&call.bell);
            call.due = now;
            let Some(seat) = self.seats.get_mut(at) else {
                break;
            };
            let visited = seat.visit(rt, alloc, shared, clock, gate, now, until, into);
            call.is_behind = seat.behind.is_some();
            match visited {
                Visited::Rests { ms } => {
                    call.due = now.saturating_add(ms);
                    soonest = soonest.min(call.due);
                    at += 1;
                }
                Visited::Leaves => at += self.let_leave(at, leavers) as usize,
                Visited::Lost => {
                    if let Some(socket) = self.stand_up(at) {
                        give_up(rt, shared, clock, socket);
                    }
                }
            }
        }
        soonest.saturating_sub(now)
    }

    /// Takes a connection out; the last one takes its place.
    fn stand_up(&mut self, at: usize) -> Option<Socket<N, T>> {
        if at >= self.seats.len() || at >= self.calls.len() {
            return None;
        }
        drop(self.calls.swap_remove(at));
        let Seat { socket, .. } = self.seats.swap_remove(at);
        Some(socket)
    }

    /// Has a connection leave. Answers whether it stays, for want of memory.
    fn let_leave(&mut self, at: usize, leavers: &mut Vec<Socket<N, T>>) -> bool {
        if leavers.reserve(1).is_err() {
            return true;
        }
        if let Some(socket) = self.stand_up(at) {
            leavers.push_reserved(socket);
        }
        false
    }
}
