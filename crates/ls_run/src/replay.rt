//! A script in the middle of its run: pieces of its bytes come, and its lines are done as they end.
ghost use Rattle.std.specs.Prelude.{◌≡◌, ◌<◌, ◌≤◌, [], ◌∷◌, length, take, IfOk, IsErrOf};
ghost use Rattle.ls_world.specs.World.{World};
ghost use Rattle.ls_world.specs.Script.{whole_from, last_line, world_of};
ghost use Rattle.ls_outside.specs.Causes.{Rose};
ghost use Rattle.ls_run.specs.Engine.{StandsEngine};
ghost use Rattle.ls_run.specs.Replay.{Progress, start, progress_after, kept_with};
ghost use Rattle.ls_run.specs.Replay.{StandsWithin, StandsFor, Feeds, Holds, HoldsNext, Writes};

use crate::engine::{Engine, LineRefused};
use ls_lines::LineCutter;
use ls_outside::{Put, Sink, write_all};
use ls_value::NoMemory;
use std::alloc::Global;
use std::marker::Model;

/// How many bytes may be held back within a piece before they are written.
const MOST_UNWRITTEN: usize = 65_536;

/// What became of the bytes that were fed.
#[derive(Clone, Copy, Debug, PartialEq, Eq)]
pub enum Fed {
    /// Each line that ended in them was done, and what it prints was written.
    All,

    /// A line is bad, so nothing of it or behind it was done. What the lines before it print was written.
    Stopped {
        /// Its number in the script, from 1.
        line: u64,
    },

    /// The sink failed. A part of what the lines print was written, from its front.
    WriteFault,

    /// Memory was wanting, or a line would have had a number past 2^64 - 1. A part of what the lines print was
    /// written, from its front.
    NoMemory,
}

/// The engine, the bytes behind the last line that ended, and what lines print that isn't written yet.
///
/// It takes pieces as long as each answer is `Fed::All`; after another answer nothing is claimed of it. Between two
/// pieces nothing is held back.
#[derive(Drop)]
pub struct Replay {
    engine: Engine,
    lines: LineCutter,
    /// What one line prints. Its room is used again by the next.
    text: Vec<u8>,
    unwritten: Vec<u8>,
}

impl Model for Replay {
    ghost use Rattle.std.specs.Coded.{codes};
    ghost use Rattle.ls_run.specs.contracts.engine.Engine as an_engine;
    ghost use Rattle.ls_run.specs.Replay.{KeptReplay};

    ghost Value = { KeptReplay };

    ghost coded = { Prim.hlevel (codes, an_engine.the_row.coded) };

    ghost view = { λ r. record { engine = r.engine; carry = r.lines.carry; unwritten = r.unwritten.items } };
}

impl Replay {
    /// Before any byte.
    pub fn new(alloc: Global) -> Result<Replay, NoMemory>
        ensures { IfOk result (λ r. StandsFor r start) }
    {
        Ok(Replay {
            engine: Engine::new(alloc)?,
            lines: LineCutter::new(alloc, usize::MAX),
            text: Vec::new(alloc),
            unwritten: Vec::new(alloc),
        })
    }

    /// Takes bytes from the front of a piece, up to the end of the first line in it, does the line and holds back what it
    /// prints; all of them, where none ends. Answers how many they were, or why no more is done.
    fn next(&mut self, piece: &[u8]) -> Result<usize, Fed>
        requires { 0 < length piece.now }
        ensures used { IfOk result (λ used. (0 < used) × (used ≤ length piece.now)) }
        ensures holds { (p : Progress) → StandsWithin self.old p
            → HoldsNext result p piece.now self.old.unwritten self.new.unwritten }
        ensures ok { IfOk result (λ used. (p : Progress) → StandsWithin self.old p
            → StandsWithin self.new (progress_after p (take used piece.now))) }
        ensures stops { (IsErrOf result Fed.All → ⊥) × (IsErrOf result Fed.WriteFault → ⊥) }
    {
        let used = match self.lines.take(piece) {
            Ok(Some(used)) => used,
            Ok(None) => return Ok(piece.len()),
            Err(_) => return Err(Fed::NoMemory),
        };
        match done(
            &mut self.engine,
            self.lines.line(piece, used),
            &mut self.text,
            &mut self.unwritten,
        ) {
            Fed::All => {}
            stopped => return Err(stopped),
        }
        Ok(used)
    }

    /// Writes what is held back. Answers what became of the bytes before, or that the sink failed.
    fn write<K: Sink>(&mut self, sink: &mut K, before: Fed) -> Fed
        requires { ¬ (before ≡ Fed.WriteFault) }
        ensures writes { Writes result before (K.held sink.old) (K.held sink.new) self.old.unwritten [] }
        ensures rest { self.new ≡ kept_with self.old [] }
        ensures cause { result ≡ Fed.WriteFault → Rose (K.faults sink.old) (K.faults sink.new) }
        ensures well { result ≡ Fed.All → K.faults sink.new ≡ K.faults sink.old }
        ensures later { K.faults sink.old ≤ K.faults sink.new }
    {
        let put = write_all(sink, &self.unwritten);
        self.unwritten.clear();
        match put {
            Put::Taken(_) => before,
            Put::Failed => Fed::WriteFault,
        }
    }

    /// Writes what is held back, where it is too much to be held any longer.
    fn write_much<K: Sink>(&mut self, sink: &mut K) -> Fed
        ensures writes { Writes result Fed.All (K.held sink.old) (K.held sink.new)
            self.old.unwritten self.new.unwritten }
        ensures rest { self.new ≡ kept_with self.old self.new.unwritten }
        ensures cause { result ≡ Fed.WriteFault → Rose (K.faults sink.old) (K.faults sink.new) }
        ensures well { result ≡ Fed.All → K.faults sink.new ≡ K.faults sink.old }
        ensures later { K.faults sink.old ≤ K.faults sink.new }
    {
        if self.unwritten.len() <= MOST_UNWRITTEN {
            return Fed::All;
        }
        self.write(sink, Fed::All)
    }
}

impl Replay {
    /// Takes a piece of the script. Each line that ends in it is done. What they print is written at once, or in
    /// parts where it is long, before the answer.
    pub fn feed<K: Sink>(&mut self, sink: &mut K, piece: &[u8]) -> Fed
        ensures feeds { (p : Progress) → StandsFor self.old p
            → Feeds result p.world (whole_from p.carry piece.now) (K.held sink.old) (K.held sink.new) [] }
        ensures all { result ≡ Fed.All → (p : Progress) → StandsFor self.old p
            → StandsFor self.new (progress_after p piece.now) }
        ensures cause { result ≡ Fed.WriteFault → Rose (K.faults sink.old) (K.faults sink.new) }
        ensures well { result ≡ Fed.All → K.faults sink.new ≡ K.faults sink.old }
        ensures later { K.faults sink.old ≤ K.faults sink.new }
    {
        let mut rest = piece;
        while !rest.is_empty() {
            let used = match self.next(rest) {
                Ok(used) => used,
                Err(stopped) => return self.write(sink, stopped),
            };
            match self.write_much(sink) {
                Fed::All => rest = &rest[used..],
                failed => return failed,
            }
        }
        self.write(sink, Fed::All)
    }

    /// Takes the end of the script: a rest that isn't empty is its last line.
    pub fn finish<K: Sink>(&mut self, sink: &mut K) -> Fed
        ensures feeds { (p : Progress) → StandsFor self.old p
            → Feeds result p.world (last_line p.carry) (K.held sink.old) (K.held sink.new) [] }
        ensures cause { result ≡ Fed.WriteFault → Rose (K.faults sink.old) (K.faults sink.new) }
        ensures well { result ≡ Fed.All → K.faults sink.new ≡ K.faults sink.old }
        ensures later { K.faults sink.old ≤ K.faults sink.new }
    {
        if self.lines.rest().is_empty() {
            return Fed::All;
        }
        let fed = done(
            &mut self.engine,
            self.lines.rest(),
            &mut self.text,
            &mut self.unwritten,
        );
        self.write(sink, fed)
    }
}

/// Does a line, and holds back what it prints. The text is for that alone.
fn done(engine: &mut Engine, line: &[u8], text: &mut Vec<u8>, unwritten: &mut Vec<u8>) -> Fed
    ensures holds { (w : World) → StandsEngine engine.old w
        → Holds result w (line.now ∷ []) unwritten.old.items unwritten.new.items }
    ensures all { result ≡ Fed.All → (w : World) → StandsEngine engine.old w
        → StandsEngine engine.new (world_of w (line.now ∷ [])) }
    ensures not_fault { ¬ (result ≡ Fed.WriteFault) }
{
    text.clear();
    match engine.line(line, text) {
        Ok(()) => match unwritten.extend_from_slice(text) {
            Ok(()) => Fed::All,
            Err(_) => Fed::NoMemory,
        },
        Err(LineRefused::BadLine) => Fed::Stopped {
            line: engine.number(),
        },
        Err(LineRefused::NoMemory) => Fed::NoMemory,
    }
}
