//! What is done for a visitor.
ghost use Rattle.ls_outside.specs.Causes.{WritesAll, HasWriteCause};
ghost use Rattle.ls_http.specs.Replies.{refusal_text};

use ls_conn_http::{First, Shared, WsWire, serve_first};
use ls_door::Spawner;
use ls_feed::serve_feed;
use ls_outside::{Clock, OpenGate, Pipe, Put, Sink, write_all};
use ls_register::House;
use ls_value::NoMemory;
use ls_wake::Wakes;
use ls_workers::{Socket, Workers};
use std::alloc::Global;
use std::marker::{Send, Sync};
use std::sync::{Arc, Wait};
use std::thread::Threads;

/// What a client is answered that no job can be given to.
const UNAVAILABLE: &[u8] =
    b"HTTP/1.1 503 Service Unavailable\r\nContent-Length: 0\r\nConnection: close\r\n\r\n";

/// How many WebSockets that left their workers are given to jobs between two visitors.
const MOST_LEAVERS: u32 = 64;

/// What all visitors share: the items and the sessions, and the workers of WebSockets.
#[derive(Drop)]
pub(crate) struct Common<N: House, P: Pipe + Drop> {
    pub(crate) shared: Shared<N>,
    pub(crate) workers: Workers<N, WsWire<P>>,
}

/// What serves a visitor: what all visitors share, and a clock of its own.
#[derive(Drop)]
pub(crate) struct Host<N: House, P: Pipe + Drop, C> {
    common: Arc<Common<N, P>>,
    clock: C,
    until: u64,
}

/// A further one.
fn host_of<N: House, P: Pipe + Drop, C: Clock + Drop>(
    common: &Arc<Common<N, P>>,
    clock: &C,
    until: u64,
) -> Result<Host<N, P, C>, NoMemory> {
    let common = Arc::try_clone(common)?;
    let clock = clock.twin()?;
    Ok(Host {
        common,
        clock,
        until,
    })
}

/// Serves a client: its first request, and then, where that was a handshake, its WebSocket.
fn serve_client<N: House, R: Wait, P: Pipe + Wakes + Drop, C: Clock + Drop>(
    rt: &R,
    alloc: Global,
    host: Host<N, P, C>,
    mut conn: P,
) {
    let Host {
        common,
        mut clock,
        until,
    } = host;
    let shared = &common.shared;
    match serve_first(rt, alloc, &mut conn, shared, &mut clock, &OpenGate, until) {
        First::Ended(report) => drop(report),
        First::Socket { rest } => {
            let wire = WsWire::over_after(alloc, conn, rest);
            let socket = Socket::new(rt, alloc, shared, wire);
            let workers = &common.workers;
            workers.serve(rt, shared, &mut clock, &OpenGate, until, socket);
        }
    }
}

/// Serves a WebSocket that left its worker.
fn serve_leaver<N: House, R: Wait, P: Pipe + Wakes + Drop, C: Clock + Drop>(
    rt: &R,
    host: Host<N, P, C>,
    socket: Socket<N, WsWire<P>>,
) {
    let Host {
        common,
        mut clock,
        until,
    } = host;
    let shared = &common.shared;
    let workers = &common.workers;
    workers.serve(rt, shared, &mut clock, &OpenGate, until, socket);
}

/// Serves a feed.
fn serve_publisher<N: House, R: Wait, P: Pipe + Drop, C: Clock + Drop>(
    rt: &R,
    alloc: Global,
    host: Host<N, P, C>,
    mut conn: P,
) {
    let Host {
        common,
        mut clock,
        until,
    } = host;
    let shared = &common.shared;
    let report = serve_feed(rt, alloc, &mut conn, shared, &mut clock, &OpenGate, until);
    drop(report);
}

/// Answers a client that no job can be given to. It takes no memory.
fn refuse<P: Sink>(conn: &mut P) -> Put
    ensures answer { WritesAll (P.held conn.old) (P.held conn.new) result (refusal_text 503) }
    ensures cause { HasWriteCause result (P.faults conn.old) (P.faults conn.new) }
{
    write_all(conn, UNAVAILABLE)
}

/// Gives a client to a job of its own, or answers it that none can be had. Where memory is refused it is closed.
pub(crate) fn admit_client<
    N: House + Send + Sync + 'static,
    R: Threads + Wait + Copy + Send + Sync + 'static,
    P: Pipe + Wakes + Send + Drop + 'static,
    C: Clock + Send + Drop + 'static,
>(
    rt: R,
    alloc: Global,
    common: &Arc<Common<N, P>>,
    clock: &C,
    until: u64,
    spawner: &mut Spawner,
    conn: P,
) {
    let Ok(host) = host_of(common, clock, until) else {
        return;
    };
    let work = move |conn| serve_client(&rt, alloc, host, conn);
    if let Err(mut conn) = spawner.start(rt, conn, work) {
        refuse(&mut conn);
    }
}

/// Gives a feed to a job of its own. Where none can be had, or memory is refused, it is closed.
pub(crate) fn admit_feed<
    N: House + Send + Sync + 'static,
    R: Threads + Wait + Copy + Send + Sync + 'static,
    P: Pipe + Send + Drop + 'static,
    C: Clock + Send + Drop + 'static,
>(
    rt: R,
    alloc: Global,
    common: &Arc<Common<N, P>>,
    clock: &C,
    until: u64,
    spawner: &mut Spawner,
    conn: P,
) {
    let Ok(host) = host_of(common, clock, until) else {
        return;
    };
    let work = move |conn| serve_publisher(&rt, alloc, host, conn);
    if let Err(conn) = spawner.start(rt, conn, work) {
        drop(conn);
    }
}

/// Gives each WebSocket that left its worker to a job of its own, up to 64 of them; answers whether there were no more.
/// Where no job can be had, or memory is refused, it is given up.
pub(crate) fn serve_leavers<
    N: House + Send + Sync + 'static,
    R: Threads + Wait + Copy + Send + Sync + 'static,
    P: Pipe + Wakes + Send + Drop + 'static,
    C: Clock + Send + Drop + 'static,
>(rt: R, common: &Arc<Common<N, P>>, clock: &mut C, until: u64, spawner: &mut Spawner) -> bool {
    for _ in 0..MOST_LEAVERS {
        let Some(socket) = common.workers.next_leaver(&rt) else {
            return true;
        };
        let Ok(host) = host_of(common, clock, until) else {
            common.workers.give_up(&rt, &common.shared, clock, socket);
            continue;
        };
        let work = move |socket| serve_leaver(&rt, host, socket);
        if let Err(socket) = spawner.start(rt, socket, work) {
            common.workers.give_up(&rt, &common.shared, clock, socket);
        }
    }
    false
}

/// Gives up all WebSockets that left their workers, by a twin of the clock; where there is no memory for one, they are
/// closed with the server.
pub(crate) fn drop_leavers<N: House, R: Wait, P: Pipe + Wakes + Drop, C: Clock + Drop>(
    rt: &R,
    common: &Common<N, P>,
    clock: &C,
) {
    let Ok(mut clock) = clock.twin() else {
        return;
    };
    for _ in rt.forever() {
        match common.workers.next_leaver(rt) {
            Some(socket) => common
                .workers
                .give_up(rt, &common.shared, &mut clock, socket),
            None => return,
        }
    }
}
