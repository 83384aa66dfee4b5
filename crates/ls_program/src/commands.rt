//! Runs in which a server or a soak is asked for.
ghost use Rattle.std.specs.Prelude.{◌≡◌, ◌⊎◌};
ghost use Rattle.ls_outside.specs.Causes.{Rose, RoseBy};
ghost use Rattle.ls_run.specs.Ran.{CountsNoFault};
ghost use Rattle.ls_serve.specs.Serving.{StopsAt};
ghost use Rattle.ls_program.specs.Running.{server_of, soak_of, RanServer, RefusesConfig, status_at, soak_status};
ghost use Rattle.ls_program.specs.Running.{RanSoak};

use ls_arguments::CommandLine;
use ls_door::{Door, Spawner};
use ls_outside::{Clock, Sink, Source};
use ls_run::Status;
use ls_serve::{Order, ServeEnd, serve};
use ls_soak::{SoakEnd, SoakOrder, soak};
use std::alloc::Global;
use std::marker::{Send, Sync};
use std::sync::Wait;
use std::thread::Threads;

/// What a command line asks a server for.
pub(crate) fn server_of(line: CommandLine) -> Option<Order>
    ensures { result ≡ server_of line }
{
    match line {
        CommandLine::Serve { port, feed, end } => Some(Order { port, feed, end }),
        _ => None,
    }
}

/// What a command line asks a soak for.
pub(crate) fn soak_of(line: CommandLine) -> Option<SoakOrder>
    ensures { result ≡ soak_of line }
{
    match line {
        CommandLine::Soak { start, steps } => Some(SoakOrder { start, steps }),
        _ => None,
    }
}

/// The status of a server that ended so.
fn status_of(end: ServeEnd) -> Status
    ensures { result ≡ status_at end }
{
    match end {
        ServeEnd::Stopped => Status::Ok,
        ServeEnd::ReadFault => Status::ReadFault,
        ServeEnd::WriteFault => Status::WriteFault,
        ServeEnd::NoMemory => Status::NoMemory,
        ServeEnd::DoorFault => Status::DoorFault,
        ServeEnd::BadConfig { line } => Status::BadConfig { line },
    }
}

/// Runs a server.
pub(crate) fn run_server<
    R: Threads + Wait + Copy + Send + Sync + 'static,
    S: Source,
    K: Sink,
    C: Clock + Send + Drop + 'static,
    D: Door,
>(
    rt: &R,
    alloc: Global,
    order: Order,
    source: &mut S,
    sink: &mut K,
    clock: &mut C,
    door: &mut D,
    spawner: &mut Spawner,
) -> Status
    ensures not_usage { ¬ (result ≡ Status.Usage) }
    ensures served { RanServer result (D.opened door.new) (S.unread source.old) (S.unread source.new)
        (K.held sink.old) (K.held sink.new) }
    ensures stopped { result ≡ Status.Ok → StopsAt order.end (C.told clock.new) }
    ensures refuses { ¬ Rose (S.faults source.old) (S.faults source.new)
        → ¬ RoseBy 3000 (S.waits source.old) (S.waits source.new)
        → RefusesConfig result (S.unread source.old) }
    ensures door_fault { result ≡ Status.DoorFault → Rose (D.failures door.old) (D.failures door.new) }
    ensures read_fault { result ≡ Status.ReadFault → Rose (S.faults source.old) (S.faults source.new)
        ⊎ RoseBy 3000 (S.waits source.old) (S.waits source.new) }
    ensures write_fault { result ≡ Status.WriteFault → Rose (K.faults sink.old) (K.faults sink.new) }
    ensures no_fault { CountsNoFault result (S.faults source.old) (S.faults source.new)
        (K.faults sink.old) (K.faults sink.new) }
{
    let end = serve(rt, alloc, order, source, sink, clock, door, spawner);
    status_of(end)
}

/// The status of a soak that ended so.
fn soak_status(end: SoakEnd) -> Status
    ensures { result ≡ soak_status end }
{
    match end {
        SoakEnd::Done => Status::Ok,
        SoakEnd::WriteFault => Status::WriteFault,
        SoakEnd::NoMemory => Status::NoMemory,
    }
}

/// Runs a soak.
pub(crate) fn run_soak<K: Sink>(alloc: Global, order: SoakOrder, sink: &mut K) -> Status
    ensures not_usage { ¬ (result ≡ Status.Usage) }
    ensures not_read { ¬ (result ≡ Status.ReadFault) }
    ensures not_door { ¬ (result ≡ Status.DoorFault) }
    ensures soaked { RanSoak result order.start order.steps (K.held sink.old) (K.held sink.new) }
    ensures write_fault { result ≡ Status.WriteFault → Rose (K.faults sink.old) (K.faults sink.new) }
    ensures well { result ≡ Status.Ok → K.faults sink.new ≡ K.faults sink.old }
{
    let end = soak(alloc, order, sink);
    soak_status(end)
}
