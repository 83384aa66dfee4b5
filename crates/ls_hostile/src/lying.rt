//! Pipes that aren't honest about their content. Whatever bytes a liar gives, and whatever becomes of those that it
//! takes, each end is one of the named ones, and has its cause by the liar's counts or by the clock: the contracts here
//! say so at this very type.
ghost use Rattle.std.specs.Prelude.{◌≡◌, ◌≤◌, ◌⊎◌, true};
ghost use Rattle.ls_config.specs.Items.{are_items};
ghost use Rattle.ls_conn.specs.declared.ended.TheConstants.{MOST_IDLES};
ghost use Rattle.ls_outside.specs.Causes.{Rose, RoseBy};
ghost use Rattle.ls_run.specs.Ran.{CountsNoFault};
ghost use Rattle.ls_hostile.specs.Lying.{IsOfScript};

use crate::failed::Failed;
use crate::served::{End, HANDSHAKE, ITEMS, NEVER, Work, long_clock, words_of};
use crate::servers;
use crate::spelling::meant;
use ls_config::{Config, read};
use ls_conn_http::{ConnEnd, serve_one};
use ls_door::{MemDoor, Spawner};
use ls_feed::{FeedEnd, serve_feed};
use ls_outside::{Liar, MemClock, OpenGate};
use ls_program::run as run_program;
use ls_register::{Blank, House};
use ls_run::{Status, run};
use ls_shared::Shared;
use std::alloc::{AllocError, Global};
use std::marker::{Brand, Send, Sync};
use std::sync::Wait;
use std::thread::Threads;

/// Runs a script that a liar gives, and prints to another.
fn play_over<R: Wait>(
    rt: &R,
    alloc: Global,
    words: &[String],
    source: &mut Liar,
    sink: &mut Liar,
) -> Status
    ensures named { IsOfScript result }
    ensures read_fault { result ≡ Status.ReadFault → Rose source.old.read_faults source.new.read_faults
        ⊎ RoseBy 3000 source.old.idles source.new.idles }
    ensures write_fault { result ≡ Status.WriteFault → Rose sink.old.write_faults sink.new.write_faults }
    ensures no_fault { CountsNoFault result source.old.read_faults source.new.read_faults
        sink.old.write_faults sink.new.write_faults }
{
    run(rt, alloc, words, source, sink)
}

/// Runs the program by these words where a liar gives what it reads, and another takes what it writes.
fn run_over<R: Threads + Wait + Copy + Send + Sync + 'static>(
    rt: &R,
    alloc: Global,
    words: &[String],
    source: &mut Liar,
    sink: &mut Liar,
    clock: &mut MemClock,
    door: &mut MemDoor,
    spawner: &mut Spawner,
) -> Status
    ensures read_fault { result ≡ Status.ReadFault → Rose source.old.read_faults source.new.read_faults
        ⊎ RoseBy 3000 source.old.idles source.new.idles }
    ensures write_fault { result ≡ Status.WriteFault → Rose sink.old.write_faults sink.new.write_faults }
    ensures door_fault { result ≡ Status.DoorFault → Rose door.old.faults door.new.faults }
    ensures no_fault { CountsNoFault result source.old.read_faults source.new.read_faults
        sink.old.write_faults sink.new.write_faults }
{
    run_program(rt, alloc, words, source, sink, clock, door, spawner)
}

/// How a server without visitors ends whose config is these pieces of a liar.
pub(crate) fn server_end<R: Threads + Wait + Copy + Send + Sync + 'static>(
    rt: &R,
    alloc: Global,
    input: &str,
) -> Result<End, Failed> {
    let words = servers::words_of(alloc)?;
    let mut source = liar_of(alloc, pieces_of(alloc, Work::Script, input)?);
    let mut sink = liar_of(alloc, Vec::new(alloc));
    let mut clock = servers::clock_of(alloc)?;
    let mut door = MemDoor::new(Vec::new(alloc), Vec::new(alloc));
    let mut spawner = Spawner::at_once(alloc);
    let status = run_over(
        rt,
        alloc,
        &words,
        &mut source,
        &mut sink,
        &mut clock,
        &mut door,
        &mut spawner,
    );
    Ok(End::Script(status))
}

/// Serves a client that is a liar.
fn serve_client<N: House, R: Wait>(
    rt: &R,
    alloc: Global,
    shared: &Shared<N>,
    liar: &mut Liar,
    clock: &mut MemClock,
) -> ConnEnd
    ensures read_fault { result ≡ ConnEnd.ReadFault → Rose liar.old.read_faults liar.new.read_faults }
    ensures write_fault { result ≡ ConnEnd.WriteFault → Rose liar.old.write_faults liar.new.write_faults }
    ensures too_slow { result ≡ ConnEnd.TooSlow → RoseBy MOST_IDLES liar.old.idles liar.new.idles }
    ensures stopped { result ≡ ConnEnd.Stopped → NEVER ≤ clock.new.told }
{
    let report = serve_one(rt, alloc, liar, shared, clock, &OpenGate, NEVER);
    report.end
}

/// Serves a feed that is a liar.
fn serve_publisher<N: House, R: Wait>(
    rt: &R,
    alloc: Global,
    shared: &Shared<N>,
    liar: &mut Liar,
    clock: &mut MemClock,
) -> FeedEnd
    ensures read_fault { result ≡ FeedEnd.ReadFault → Rose liar.old.read_faults liar.new.read_faults }
    ensures write_fault { result ≡ FeedEnd.WriteFault → Rose liar.old.write_faults liar.new.write_faults }
    ensures stopped { result ≡ FeedEnd.Stopped → NEVER ≤ clock.new.told }
{
    let report = serve_feed(rt, alloc, liar, shared, clock, &OpenGate, NEVER);
    report.end
}

/// Serves a liar, as a client or as a feed.
fn serve_liar<N: House, R: Wait>(
    rt: &R,
    alloc: Global,
    blank: Blank,
    config: Config,
    is_feed: bool,
    liar: &mut Liar,
    clock: &mut MemClock,
) -> Option<End>
    requires register { blank.register ≡ N.deed.register }
    requires set { config.set ≡ N.deed.set }
    requires config { config.items ≡ N.deed.config }
    requires items { are_items config.items ≡ true }
{
    let shared = Shared::<N>::new(alloc, blank, config).ok()?;
    if is_feed {
        let end = serve_publisher(rt, alloc, &shared, liar, clock);
        return Some(End::Feed(end));
    }
    let end = serve_client(rt, alloc, &shared, liar, clock);
    Some(End::Client(end))
}

/// Serves a liar on a new server, as a client or as a feed.
fn serve_liar_new<R: Wait>(rt: &R, alloc: Global, is_feed: bool, liar: &mut Liar) -> Option<End> {
    let config = read(alloc, ITEMS).ok()?;
    let blank = Blank::new(alloc).ok()?;
    let mut clock = long_clock(alloc).ok()?;
    serve_liar::<Brand, R>(rt, alloc, blank, config, is_feed, liar, &mut clock)
}

/// The pieces that `|` divides, each as bytes; before them a handshake for a WebSocket.
fn pieces_of(alloc: Global, work: Work, input: &str) -> Result<Vec<Vec<u8>>, Failed> {
    let mut pieces = Vec::new(alloc);
    if work == Work::Socket {
        pieces.push(Vec::from_slice(alloc, HANDSHAKE)?)?;
    }
    for piece in input.split('|') {
        pieces.push(meant(alloc, piece)?)?;
    }
    Ok(pieces)
}

/// A liar whose calls go as usual.
fn liar_of(alloc: Global, pieces: Vec<Vec<u8>>) -> Liar {
    Liar::new(pieces, Vec::new(alloc), Vec::new(alloc))
}

/// How the run of a script ends that a liar gives.
fn play<R: Wait>(rt: &R, alloc: Global, source: &mut Liar) -> Result<End, AllocError> {
    let words = words_of(alloc)?;
    let mut sink = liar_of(alloc, Vec::new(alloc));
    let status = play_over(rt, alloc, &words, source, &mut sink);
    Ok(End::Script(status))
}

/// How a work ends over a liar that gives these pieces.
pub(crate) fn end_of<R: Wait>(
    rt: &R,
    alloc: Global,
    work: Work,
    input: &str,
) -> Result<End, Failed> {
    let mut liar = liar_of(alloc, pieces_of(alloc, work, input)?);
    let end = match work {
        Work::Script => Some(play(rt, alloc, &mut liar)?),
        Work::Client | Work::Socket => serve_liar_new(rt, alloc, false, &mut liar),
        Work::Feed => serve_liar_new(rt, alloc, true, &mut liar),
    };
    match end {
        Some(end) => Ok(end),
        None => Err(Failed::NoMemory),
    }
}
