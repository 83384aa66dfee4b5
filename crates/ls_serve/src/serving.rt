//! A server from its config to its end.
ghost use Rattle.std.specs.Prelude.{◌≡◌, ◌⊎◌, true, IfOk, OnOk, IsErrOf};
ghost use Rattle.ls_outside.specs.Causes.{Rose, RoseBy};
ghost use Rattle.ls_config.specs.Items.{are_items};
ghost use Rattle.ls_serve.specs.Serving.{Served, Told, RefusesConfig, StopsAt, PutsText, listening_line};

use crate::attending::attend;
use crate::reading::read_config;
use crate::visits::Common;
use ls_config::Config;
use ls_conn_http::Shared;
use ls_door::{Door, Heard, Spawner};
use ls_outside::{Clock, Pipe, Put, Sink, Source, write_all};
use ls_register::{Blank, House};
use ls_value::NoMemory;
use ls_wake::Wakes;
use ls_words::append_decimal;
use ls_workers::Workers;
use std::alloc::Global;
use std::marker::{Brand, Send, Sync};
use std::sync::{Arc, Wait};
use std::thread::Threads;

/// What a server is to do.
#[derive(Clone, Copy, Debug, PartialEq, Eq)]
pub struct Order {
    /// The port for clients. 0 stands for one that is free.
    pub port: u16,

    /// The port for feeds. 0 stands for one that is free.
    pub feed: u16,

    /// The tick at which it is to end, in ms; `None` for never.
    pub end: Option<u64>,
}

/// How a server ended.
#[derive(Clone, Copy, Debug, PartialEq, Eq)]
pub enum ServeEnd {
    /// The clock told the tick at which it was to end, or a later one. Each job was done.
    Stopped,

    /// A read of the config failed, or 3,000 reads in a row found no byte yet. Nothing was written.
    ReadFault,

    /// A write failed. A part of what it says was written, from its front.
    WriteFault,

    /// Memory was refused before the first visitor could come.
    NoMemory,

    /// The door didn't listen. Nothing was written.
    DoorFault,

    /// A line of the config is outside the format. Nothing was written.
    BadConfig {
        /// Its number in the config, from 1. It is the first such line.
        line: u64,
    },
}

/// The line that says at which ports the door listens.
fn listening(alloc: Global, port: u16, feed: u16) -> Result<Vec<u8>, NoMemory>
    ensures { IfOk result (λ text. text.items ≡ listening_line (record { port = port; feed = feed })) }
{
    let mut text = Vec::from_slice(alloc, b"listening ")?;
    append_decimal(&mut text, port as u64)?;
    text.push(b' ')?;
    append_decimal(&mut text, feed as u64)?;
    text.push(b'\n')?;
    Ok(text)
}

/// Writes a text.
fn put<K: Sink>(sink: &mut K, text: &[u8]) -> Result<(), ServeEnd>
    ensures puts { PutsText result (K.held sink.old) (K.held sink.new) text.now }
    ensures fault { IsErrOf result ServeEnd.WriteFault → Rose (K.faults sink.old) (K.faults sink.new) }
    ensures well { OnOk result (K.faults sink.new ≡ K.faults sink.old) }
    ensures not_memory { ¬ IsErrOf result ServeEnd.NoMemory }
{
    match write_all(sink, text) {
        Put::Taken(_) => Ok(()),
        Put::Failed => Err(ServeEnd::WriteFault),
    }
}

/// Says at which ports the door listens.
fn announce<K: Sink>(alloc: Global, port: u16, feed: u16, sink: &mut K) -> Result<(), ServeEnd>
    ensures puts { PutsText result (K.held sink.old) (K.held sink.new)
        (listening_line (record { port = port; feed = feed })) }
    ensures fault { IsErrOf result ServeEnd.WriteFault → Rose (K.faults sink.old) (K.faults sink.new) }
    ensures well { OnOk result (K.faults sink.new ≡ K.faults sink.old) }
{
    match listening(alloc, port, feed) {
        Ok(text) => put(sink, &text),
        Err(NoMemory) => Err(ServeEnd::NoMemory),
    }
}

/// Listens, says so, attends to visitors until the end, and says that it stopped.
fn listen<
    N: House + Send + Sync + 'static,
    R: Threads + Wait + Copy + Send + Sync + 'static,
    K: Sink,
    C: Clock + Send + Drop + 'static,
    D: Door,
>(
    rt: &R,
    alloc: Global,
    common: &Arc<Common<N, D::Conn>>,
    order: Order,
    sink: &mut K,
    clock: &mut C,
    door: &mut D,
    spawner: &mut Spawner,
) -> ServeEnd
    ensures told { Told result (D.opened door.new) (K.held sink.old) (K.held sink.new) }
    ensures write_fault { result ≡ ServeEnd.WriteFault → Rose (K.faults sink.old) (K.faults sink.new) }
    ensures door_fault { result ≡ ServeEnd.DoorFault → Rose (D.failures door.old) (D.failures door.new) }
    ensures stopped { result ≡ ServeEnd.Stopped → StopsAt order.end (C.told clock.new) }
    ensures well { result ≡ ServeEnd.Stopped → K.faults sink.new ≡ K.faults sink.old }
{
    let (port, feed) = match door.listen(order.port, order.feed) {
        Heard::Ready { port, feed } => (port, feed),
        Heard::Failed => return ServeEnd::DoorFault,
    };
    if let Err(end) = announce(alloc, port, feed, sink) {
        return end;
    }
    attend(rt, alloc, common, clock, door, spawner, order.end);
    match put(sink, b"stopped\n") {
        Ok(()) => ServeEnd::Stopped,
        Err(end) => end,
    }
}

/// The items of a config, without sessions, and the workers.
fn common_of<N: House, P: Pipe + Wakes + Drop>(
    alloc: Global,
    blank: Blank,
    config: Config,
) -> Result<Arc<Common<N, P>>, NoMemory>
    requires register { blank.register ≡ N.deed.register }
    requires set { config.set ≡ N.deed.set }
    requires config { config.items ≡ N.deed.config }
    requires items { are_items config.items ≡ true }
{
    let shared = Shared::<N>::new(alloc, blank, config)?;
    let workers = Workers::new(alloc)?;
    Ok(Arc::new(alloc, Common { shared, workers })?)
}

/// Makes the items of a config, and serves them.
fn open<
    N: House + Send + Sync + 'static,
    R: Threads + Wait + Copy + Send + Sync + 'static,
    K: Sink,
    C: Clock + Send + Drop + 'static,
    D: Door,
>(
    rt: &R,
    alloc: Global,
    blank: Blank,
    config: Config,
    order: Order,
    sink: &mut K,
    clock: &mut C,
    door: &mut D,
    spawner: &mut Spawner,
) -> ServeEnd
    requires register { blank.register ≡ N.deed.register }
    requires set { config.set ≡ N.deed.set }
    requires config { config.items ≡ N.deed.config }
    requires items { are_items config.items ≡ true }
    ensures told { Told result (D.opened door.new) (K.held sink.old) (K.held sink.new) }
    ensures write_fault { result ≡ ServeEnd.WriteFault → Rose (K.faults sink.old) (K.faults sink.new) }
    ensures door_fault { result ≡ ServeEnd.DoorFault → Rose (D.failures door.old) (D.failures door.new) }
    ensures stopped { result ≡ ServeEnd.Stopped → StopsAt order.end (C.told clock.new) }
    ensures well { result ≡ ServeEnd.Stopped → K.faults sink.new ≡ K.faults sink.old }
{
    match common_of::<N, D::Conn>(alloc, blank, config) {
        Ok(common) => listen(rt, alloc, &common, order, sink, clock, door, spawner),
        Err(NoMemory) => ServeEnd::NoMemory,
    }
}

/// Serves the items of a config until the end.
fn serve_config<
    R: Threads + Wait + Copy + Send + Sync + 'static,
    K: Sink,
    C: Clock + Send + Drop + 'static,
    D: Door,
>(
    rt: &R,
    alloc: Global,
    config: Config,
    order: Order,
    sink: &mut K,
    clock: &mut C,
    door: &mut D,
    spawner: &mut Spawner,
) -> ServeEnd
    requires { are_items config.items ≡ true }
    ensures told { Told result (D.opened door.new) (K.held sink.old) (K.held sink.new) }
    ensures write_fault { result ≡ ServeEnd.WriteFault → Rose (K.faults sink.old) (K.faults sink.new) }
    ensures door_fault { result ≡ ServeEnd.DoorFault → Rose (D.failures door.old) (D.failures door.new) }
    ensures stopped { result ≡ ServeEnd.Stopped → StopsAt order.end (C.told clock.new) }
    ensures well { result ≡ ServeEnd.Stopped → K.faults sink.new ≡ K.faults sink.old }
{
    match Blank::new(alloc) {
        Ok(blank) => open::<Brand, R, K, C, D>(
            rt, alloc, blank, config, order, sink, clock, door, spawner,
        ),
        Err(NoMemory) => ServeEnd::NoMemory,
    }
}

/// Runs a server: reads a config from the source to its end, listens, writes `listening <port> <feed>` and LF to the
/// sink, and gives each visitor to a job of its own, until the order's end (this project's profile).
///
/// A client's first request is served by `serve_first`, a WebSocket by the workers, a feed by `serve_feed`, each with a
/// twin of the clock. Where the spawner refuses the job, a client is answered 503 and a feed closed; where memory is
/// refused for it, the visitor is closed. Before each look for a visitor WebSockets that left their workers are given to
/// jobs, and after it the sessions end that were without a stream for too long. Where nobody came, the server waits for a
/// bell, which visitors and leavers ring, and for 100 ms at most. Over a door that rings none, and where a visitor couldn't
/// be let in, the clock waits: 1 ms after a visitor, twice as long after each wait in vain, and 10 ms at most. At the
/// order's end all jobs are waited for, and `stopped` and LF is written. The server begins with empty
/// histories and no sessions.
///
/// Contracts say at each end what was read and written. `Stopped` comes only where the clock told the order's end or a
/// later tick. A config whose source tells it, and which has a line outside the format, is answered `BadConfig` with
/// the first such line, or memory was refused.
pub fn serve<
    R: Threads + Wait + Copy + Send + Sync + 'static,
    S: Source,
    K: Sink,
    C: Clock + Send + Drop + 'static,
    D: Door,
>(
    rt: &R,
    alloc: Global,
    order: Order,
    source: &mut S,
    sink: &mut K,
    clock: &mut C,
    door: &mut D,
    spawner: &mut Spawner,
) -> ServeEnd
    ensures served { Served result (D.opened door.new) (S.unread source.old) (S.unread source.new)
        (K.held sink.old) (K.held sink.new) }
    ensures read_fault { result ≡ ServeEnd.ReadFault → Rose (S.faults source.old) (S.faults source.new)
        ⊎ RoseBy 3000 (S.waits source.old) (S.waits source.new) }
    ensures write_fault { result ≡ ServeEnd.WriteFault → Rose (K.faults sink.old) (K.faults sink.new) }
    ensures door_fault { result ≡ ServeEnd.DoorFault → Rose (D.failures door.old) (D.failures door.new) }
    ensures stopped { result ≡ ServeEnd.Stopped → StopsAt order.end (C.told clock.new) }
    ensures no_fault { result ≡ ServeEnd.Stopped → (S.faults source.new ≡ S.faults source.old)
        × (K.faults sink.new ≡ K.faults sink.old) }
    ensures complete { ¬ Rose (S.faults source.old) (S.faults source.new)
        → ¬ RoseBy 3000 (S.waits source.old) (S.waits source.new)
        → RefusesConfig result (S.unread source.old) }
{
    match read_config(rt, alloc, source) {
        Ok(config) => serve_config(rt, alloc, config, order, sink, clock, door, spawner),
        Err(end) => end,
    }
}
