//! A run of the program, from its words to its status.
ghost use Rattle.std.specs.Prelude.{◌≡◌, ◌⊎◌, ◌↔◌, IsTrue, map};
ghost use Rattle.std.specs.String.{string_bytes};
ghost use Rattle.ls_outside.specs.Causes.{Rose, RoseBy};
ghost use Rattle.ls_run.specs.Ran.{Ran, Completes, CountsNoFault, IsReplay, status_at, number_at};
ghost use Rattle.ls_run.specs.Replay.{StandsFor, start};

use crate::replay::{Fed, Replay};
use ls_outside::{Got, Sink, Source};
use ls_value::NoMemory;
use std::alloc::Global;
use std::fmt;
use std::sync::Wait;

/// How many bytes of a script are read at once, at most.
const PIECE: usize = 8192;

/// How often in a row a read may find no byte yet. The last of these reads counts as a fault.
const MAX_IDLES: u32 = 3000;

/// How a run ended.
#[derive(Clone, Copy, Debug, PartialEq, Eq)]
pub enum Status {
    /// The script was read to its end, and each of its lines was done.
    Ok,

    /// The words are none of a command, so nothing was read or written.
    Usage,

    /// A read failed, or 3,000 reads in a row found no byte yet. Each line that had ended was done.
    ReadFault,

    /// A write failed.
    WriteFault,

    /// Memory was wanting, or the script has more than 2^64 - 1 lines.
    NoMemory,

    /// A line is outside the grammar of scripts, or names something that isn't declared. Each line before it was done.
    BadScript {
        /// Its number in the script, from 1.
        line: u64,
    },

    /// The door of a server didn't listen. No run of a script ends so.
    DoorFault,

    /// A line of a server's config is outside the format. No run of a script ends so.
    BadConfig {
        /// Its number in the config, from 1.
        line: u64,
    },
}

impl Status {
    /// The number with which the program ends.
    pub fn number(self) -> u8
        ensures { result ≡ number_at self }
    {
        match self {
            Status::Ok => 0,
            Status::Usage => 2,
            Status::BadScript { line: _ } => 3,
            Status::ReadFault => 4,
            Status::WriteFault => 5,
            Status::NoMemory => 6,
            Status::DoorFault => 7,
            Status::BadConfig { line: _ } => 8,
        }
    }
}

/// Shows the fault, as it stands behind the program's name on standard error.
impl fmt::Display for Status {
    ghost use Rattle.std.specs.Prelude.{Some};
    ghost use Rattle.ls_run.specs.Ran.{fault_text};

    ghost output = { λ s. Some (fault_text s) };

    fn fmt<W: fmt::Write>(&self, f: &mut fmt::Formatter<W>) -> fmt::Result {
        match self {
            Status::Ok => write!(f, "ok"),
            Status::Usage => write!(f, "usage"),
            Status::ReadFault => write!(f, "read fault"),
            Status::WriteFault => write!(f, "write fault"),
            Status::NoMemory => write!(f, "out of memory"),
            Status::BadScript { line } => write!(f, "bad script line {line}"),
            Status::DoorFault => write!(f, "door fault"),
            Status::BadConfig { line } => write!(f, "bad config line {line}"),
        }
    }
}

/// Whether these words ask for a replay.
fn is_replay(words: &[String]) -> bool
    ensures { IsTrue result ↔ IsReplay (map string_bytes words.now) }
{
    match words {
        [word] => word.as_str() == "replay",
        _ => false,
    }
}

/// The status where no more is done.
fn status_of(fed: Fed) -> Status
    ensures { result ≡ status_at fed }
{
    match fed {
        Fed::All => Status::Ok,
        Fed::Stopped { line } => Status::BadScript { line },
        Fed::WriteFault => Status::WriteFault,
        Fed::NoMemory => Status::NoMemory,
    }
}

/// Reads a script to its end, does its lines and writes what they print.
fn run_script<R: Wait, S: Source, K: Sink>(
    rt: &R,
    alloc: Global,
    source: &mut S,
    sink: &mut K,
) -> Status
    ensures not_usage { ¬ (result ≡ Status.Usage) }
    ensures ran { Ran result (S.unread source.old) (S.unread source.new) (K.held sink.old) (K.held sink.new) }
    ensures read_fault { result ≡ Status.ReadFault → Rose (S.faults source.old) (S.faults source.new)
        ⊎ RoseBy 3000 (S.waits source.old) (S.waits source.new) }
    ensures write_fault { result ≡ Status.WriteFault → Rose (K.faults sink.old) (K.faults sink.new) }
    ensures no_fault { CountsNoFault result (S.faults source.old) (S.faults source.new)
        (K.faults sink.old) (K.faults sink.new) }
{
    match Replay::new(alloc) {
        Ok(mut replay) => play(rt, source, sink, &mut replay),
        Err(NoMemory) => Status::NoMemory,
    }
}

/// Reads a script to its end, from before its first byte.
fn play<R: Wait, S: Source, K: Sink>(
    rt: &R,
    source: &mut S,
    sink: &mut K,
    replay: &mut Replay,
) -> Status
    requires { StandsFor replay.old start }
    ensures not_usage { ¬ (result ≡ Status.Usage) }
    ensures ran { Ran result (S.unread source.old) (S.unread source.new) (K.held sink.old) (K.held sink.new) }
    ensures read_fault { result ≡ Status.ReadFault → Rose (S.faults source.old) (S.faults source.new)
        ⊎ RoseBy 3000 (S.waits source.old) (S.waits source.new) }
    ensures write_fault { result ≡ Status.WriteFault → Rose (K.faults sink.old) (K.faults sink.new) }
    ensures no_fault { CountsNoFault result (S.faults source.old) (S.faults source.new)
        (K.faults sink.old) (K.faults sink.new) }
{
    let mut piece = [0u8; PIECE];
    let mut idles = 0u32;
    for _ in rt.forever() {
        match source.read(&mut piece) {
            Got::Bytes(count) => {
                idles = 0;
                match replay.feed(sink, &piece[..count]) {
                    Fed::All => {}
                    stopped => return status_of(stopped),
                }
            }
            Got::End => return status_of(replay.finish(sink)),
            Got::NotYet => {
                idles += 1;
                if idles >= MAX_IDLES {
                    return Status::ReadFault;
                }
            }
            Got::Failed => return Status::ReadFault,
        }
    }
    unreachable!()
}

/// Runs the program by its words, which don't hold its name.
///
/// `replay` reads a script from the source to its end, piece by piece, does its lines one by one, and writes what the
/// lines of a piece print before the next one is read. Other words are answered `Status::Usage`.
///
/// Where neither a read nor a write fails, and fewer than 3,000 reads find no byte yet, a script without a bad line is
/// done whole and ends `Status::Ok`, and another is done to its first bad line and ends `Status::BadScript` with its
/// number, or memory was wanting. `Status::Ok` comes only where neither the source nor the sink counted a fault.
pub fn run<R: Wait, S: Source, K: Sink>(
    rt: &R,
    alloc: Global,
    words: &[String],
    source: &mut S,
    sink: &mut K,
) -> Status
    ensures usage { (result ≡ Status.Usage) ↔ ¬ IsReplay (map string_bytes words.now) }
    ensures ran { Ran result (S.unread source.old) (S.unread source.new) (K.held sink.old) (K.held sink.new) }
    ensures read_fault { result ≡ Status.ReadFault → Rose (S.faults source.old) (S.faults source.new)
        ⊎ RoseBy 3000 (S.waits source.old) (S.waits source.new) }
    ensures write_fault { result ≡ Status.WriteFault → Rose (K.faults sink.old) (K.faults sink.new) }
    ensures no_fault { CountsNoFault result (S.faults source.old) (S.faults source.new)
        (K.faults sink.old) (K.faults sink.new) }
    ensures complete { IsReplay (map string_bytes words.now)
        → ¬ Rose (S.faults source.old) (S.faults source.new)
        → ¬ RoseBy 3000 (S.waits source.old) (S.waits source.new)
        → ¬ Rose (K.faults sink.old) (K.faults sink.new)
        → Completes result (S.unread source.old) (K.held sink.old) (K.held sink.new) }
{
    if !is_replay(words) {
        return Status::Usage;
    }
    run_script(rt, alloc, source, sink)
}
