//! A run of the program, from its words to its status.
ghost use Rattle.std.specs.Prelude.{◌≡◌, ◌⊎◌, ◌↔◌, ℕ, Option, None, Some, map};
ghost use Rattle.std.specs.String.{string_bytes};
ghost use Rattle.ls_arguments.specs.CommandLines.{command_line_of};
ghost use Rattle.ls_outside.specs.Causes.{Rose, RoseBy};
ghost use Rattle.ls_run.specs.Ran.{Ran, Completes, CountsNoFault};
ghost use Rattle.ls_serve.specs.Serving.{StopsAt};
ghost use Rattle.ls_program.specs.Running.{RanServer, RefusesConfig, RanSoak};

use crate::commands::{run_server, run_soak, server_of, soak_of};
use ls_arguments::{CommandLine, WordsRefused, read};
use ls_door::{Door, Spawner};
use ls_outside::{Clock, Sink, Source};
use ls_run::{Status, run as run_script};
use std::alloc::Global;
use std::marker::{Send, Sync};
use std::sync::Wait;
use std::thread::Threads;

/// Runs the program by its words, which don't hold its name.
///
/// `replay` reads a script from the source, does its lines and writes what they print, as `run` of ls_run says. `serve`
/// with the ports for clients and for feeds, and maybe the tick of the end in ms, reads a config from the source and
/// serves its items through the door, as `serve` of ls_serve says. `soak` with a number and the count of steps draws a
/// script, runs it and writes what was counted, as `soak` of ls_soak says; it reads nothing. Other words are answered
/// `Status::Usage`, and nothing is read or written. That is so exactly where the words are no command line by the
/// definition of ls_arguments, whose `read` reads them. Words that are one may also be answered `Status::NoMemory` at
/// once.
pub fn run<
    R: Threads + Wait + Copy + Send + Sync + 'static,
    S: Source,
    K: Sink,
    C: Clock + Send + Drop + 'static,
    D: Door,
>(
    rt: &R,
    alloc: Global,
    words: &[String],
    source: &mut S,
    sink: &mut K,
    clock: &mut C,
    door: &mut D,
    spawner: &mut Spawner,
) -> Status
    ensures usage { (result ≡ Status.Usage) ↔ (command_line_of (map string_bytes words.now) ≡ None) }
    ensures nothing { command_line_of (map string_bytes words.now) ≡ None
        → (S.unread source.new ≡ S.unread source.old) × (K.held sink.new ≡ K.held sink.old) }

    // A script.
    ensures ran { command_line_of (map string_bytes words.now) ≡ Some CommandLine.Replay
        → Ran result (S.unread source.old) (S.unread source.new) (K.held sink.old) (K.held sink.new) }
    ensures complete { command_line_of (map string_bytes words.now) ≡ Some CommandLine.Replay
        → ¬ Rose (S.faults source.old) (S.faults source.new)
        → ¬ RoseBy 3000 (S.waits source.old) (S.waits source.new)
        → ¬ Rose (K.faults sink.old) (K.faults sink.new)
        → Completes result (S.unread source.old) (K.held sink.old) (K.held sink.new) }

    // A server.
    ensures served { (port feed : ℕ) (end : Option ℕ)
        → command_line_of (map string_bytes words.now) ≡ Some (CommandLine.Serve port feed end)
        → RanServer result (D.opened door.new) (S.unread source.old) (S.unread source.new)
        (K.held sink.old) (K.held sink.new) }
    ensures stopped { (port feed : ℕ) (end : Option ℕ)
        → command_line_of (map string_bytes words.now) ≡ Some (CommandLine.Serve port feed end)
        → result ≡ Status.Ok → StopsAt end (C.told clock.new) }
    ensures refuses { (port feed : ℕ) (end : Option ℕ)
        → command_line_of (map string_bytes words.now) ≡ Some (CommandLine.Serve port feed end)
        → ¬ Rose (S.faults source.old) (S.faults source.new)
        → ¬ RoseBy 3000 (S.waits source.old) (S.waits source.new)
        → RefusesConfig result (S.unread source.old) }
    ensures door_fault { result ≡ Status.DoorFault → Rose (D.failures door.old) (D.failures door.new) }

    // A soak.
    ensures soaked { (start steps : ℕ)
        → command_line_of (map string_bytes words.now) ≡ Some (CommandLine.Soak start steps)
        → RanSoak result start steps (K.held sink.old) (K.held sink.new) }
    ensures unread { (start steps : ℕ)
        → command_line_of (map string_bytes words.now) ≡ Some (CommandLine.Soak start steps)
        → S.unread source.new ≡ S.unread source.old }

    // All.
    ensures read_fault { result ≡ Status.ReadFault → Rose (S.faults source.old) (S.faults source.new)
        ⊎ RoseBy 3000 (S.waits source.old) (S.waits source.new) }
    ensures write_fault { result ≡ Status.WriteFault → Rose (K.faults sink.old) (K.faults sink.new) }
    ensures no_fault { CountsNoFault result (S.faults source.old) (S.faults source.new)
        (K.faults sink.old) (K.faults sink.new) }
{
    match read(alloc, words) {
        Ok(line) => match (server_of(line), soak_of(line)) {
            (Some(order), _) => run_server(rt, alloc, order, source, sink, clock, door, spawner),
            (None, Some(order)) => run_soak(alloc, order, sink),
            (None, None) => run_script(rt, alloc, words, source, sink),
        },
        Err(WordsRefused::Usage) => Status::Usage,
        Err(WordsRefused::NoMemory) => Status::NoMemory,
    }
}
