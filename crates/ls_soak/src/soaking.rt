//! A soak: the lines of its script, done one by one, and what they print counted.
ghost use Rattle.std.specs.Prelude.{◌≡◌, ◌≤◌, ◌+◌, ◌++◌, ◌∷◌, [], ℕ, List, IfOk, OnOk, IsErrOf, if◌then◌else◌};
ghost use Rattle.std.specs.String.{string_bytes};
ghost use Rattle.ls_outside.specs.Causes.{Rose};
ghost use Rattle.ls_world.specs.World.{empty};
ghost use Rattle.ls_run.specs.Engine.{StandsEngine};
ghost use Rattle.ls_soak.specs.declared.tally.Tally.{Tally as TallyOf};
ghost use Rattle.ls_soak.specs.Drawing.{opening, choice_of, line_by, drawn};
ghost use Rattle.ls_soak.specs.Tallies.{no_lines, tally_of, lines_in};
ghost use Rattle.ls_soak.specs.Soaking.{Leaves, Reported, Soaked, printed, report_of};

use crate::drawing::{append_line, choice_of, following};
use crate::tally::{Tally, with_text};
use ls_outside::{Put, Sink, write_all};
use ls_run::{Engine, LineRefused};
use ls_value::NoMemory;
use ls_words::first_piece;
use std::alloc::{AllocError, Global};

/// The lines before the first step: three items, and two sessions with a subscription to each of them.
const OPENING: &[u8] = b"\
item m MERGE a,b,c
item d DISTINCT a,b
item k COMMAND key,command,a
open c
open e
add c 1 m a,b,c MERGE snapshot=true
add c 2 d a,b DISTINCT snapshot=true
add c 3 k key,command,a COMMAND snapshot=true
add e 1 m a,b,c RAW
add e 2 k key,command,a COMMAND
add e 3 d a,b DISTINCT buffer=2
";

/// What a soak draws its script from.
#[derive(Clone, Copy, Debug, PartialEq, Eq)]
pub struct SoakOrder {
    /// The number that the generator starts with.
    pub start: u64,

    /// How many steps follow the lines that open the sessions.
    pub steps: u32,
}

/// How a soak ended.
#[derive(Clone, Copy, Debug, PartialEq, Eq)]
pub enum SoakEnd {
    /// The script was done to its end, and the three lines were written.
    Done,

    /// The sink failed. A part of the three lines was written, from their front.
    WriteFault,

    /// Memory was wanting, and nothing was written.
    NoMemory,
}

/// The lines before the first step.
fn opening_lines() -> &'static [u8]
    ensures { lines_in result.now ≡ opening }
{
    OPENING
}

/// An engine, and what was counted of the lines that it printed.
#[derive(Drop)]
struct Soaking {
    engine: Engine,
    tally: Tally,
    /// What one line prints. Its room is used again by the next.
    text: Vec<u8>,
}

impl Soaking {
    /// Before any line.
    fn new(alloc: Global) -> Result<Soaking, NoMemory>
        ensures stands { IfOk result (λ s. StandsEngine s.engine empty) }
        ensures none { IfOk result (λ s. s.tally ≡ no_lines) }
    {
        let engine = Engine::new(alloc)?;
        Ok(Soaking {
            engine,
            tally: Tally {
                lines: 0,
                updates: 0,
            },
            text: Vec::new(alloc),
        })
    }

    /// Does a line, and counts what it prints.
    fn play(&mut self, line: &[u8]) -> Result<(), LineRefused>
        ensures ok { OnOk result ((lines : List (List ℕ)) (all : TallyOf)
            → Leaves self.old.engine self.old.tally (line.now ∷ lines) all
            → Leaves self.new.engine self.new.tally lines all) }
        ensures bad { IsErrOf result LineRefused.BadLine → (lines : List (List ℕ)) (all : TallyOf)
            → Leaves self.old.engine self.old.tally (line.now ∷ lines) all → ⊥ }
    {
        self.text.clear();
        match self.engine.line(line, &mut self.text) {
            Ok(()) => match with_text(self.tally, &self.text) {
                Ok(tally) => {
                    self.tally = tally;
                    Ok(())
                }
                Err(NoMemory) => Err(LineRefused::NoMemory),
            },
            Err(cause) => Err(cause),
        }
    }

    /// Does a piece of a text, if it isn't the last one, and so is a line.
    fn play_piece(&mut self, piece: &[u8], last: bool) -> Result<(), LineRefused>
        ensures ok { OnOk result ((lines : List (List ℕ)) (all : TallyOf)
            → Leaves self.old.engine self.old.tally (if last then lines else piece.now ∷ lines) all
            → Leaves self.new.engine self.new.tally lines all) }
        ensures bad { IsErrOf result LineRefused.BadLine → (lines : List (List ℕ)) (all : TallyOf)
            → Leaves self.old.engine self.old.tally (if last then lines else piece.now ∷ lines) all → ⊥ }
    {
        if last {
            return Ok(());
        }
        self.play(piece)
    }

    /// Does the lines of a text, each of which ends with LF.
    fn open(&mut self, text: &[u8]) -> Result<(), LineRefused>
        ensures ok { OnOk result ((lines : List (List ℕ)) (all : TallyOf)
            → Leaves self.old.engine self.old.tally (lines_in text.now ++ lines) all
            → Leaves self.new.engine self.new.tally lines all) }
        ensures bad { IsErrOf result LineRefused.BadLine → (lines : List (List ℕ)) (all : TallyOf)
            → Leaves self.old.engine self.old.tally (lines_in text.now ++ lines) all → ⊥ }
    {
        let mut rest = Some(text);
        while let Some(unread) = rest {
            let (line, behind) = first_piece(b'\n', unread);
            match self.play_piece(line, behind.is_none()) {
                Ok(()) => rest = behind,
                Err(cause) => return Err(cause),
            }
        }
        Ok(())
    }

    /// Does the line of a step that follows so many, and that this number was drawn for. The text is for that alone.
    fn step(&mut self, line: &mut String, before: u32, x: u64) -> Result<(), LineRefused>
        ensures ok { OnOk result ((lines : List (List ℕ)) (all : TallyOf)
            → Leaves self.old.engine self.old.tally (line_by (before + 1) (choice_of x) ∷ lines) all
            → Leaves self.new.engine self.new.tally lines all) }
        ensures bad { IsErrOf result LineRefused.BadLine → (lines : List (List ℕ)) (all : TallyOf)
            → Leaves self.old.engine self.old.tally (line_by (before + 1) (choice_of x) ∷ lines) all → ⊥ }
    {
        line.clear();
        match append_line(line, before as u64 + 1, choice_of(x)) {
            Ok(()) => self.play(line.as_bytes()),
            Err(_) => Err(LineRefused::NoMemory),
        }
    }

    /// Does the lines of so many steps, from before the first one.
    fn draw(&mut self, line: &mut String, start: u64, steps: u32) -> Result<(), LineRefused>
        ensures ok { OnOk result ((all : TallyOf)
            → Leaves self.old.engine self.old.tally (drawn start 0 steps) all
            → Leaves self.new.engine self.new.tally [] all) }
        ensures bad { IsErrOf result LineRefused.BadLine → (all : TallyOf)
            → Leaves self.old.engine self.old.tally (drawn start 0 steps) all → ⊥ }
    {
        let mut x = start;
        let mut before: u32 = 0;
        while before < steps {
            x = following(x);
            match self.step(line, before, x) {
                Ok(()) => before += 1,
                Err(cause) => return Err(cause),
            }
        }
        Ok(())
    }

    /// Does the whole script, from before its first line, and answers what was counted.
    fn run(&mut self, line: &mut String, start: u64, steps: u32) -> Result<Tally, LineRefused>
        requires stands { StandsEngine self.old.engine empty }
        requires none { self.old.tally ≡ no_lines }
        ensures ok { IfOk result (λ t. t ≡ tally_of (lines_in (printed start steps))) }
        ensures good { IsErrOf result LineRefused.BadLine → ⊥ }
    {
        match self.open(opening_lines()) {
            Ok(()) => {}
            Err(cause) => return Err(cause),
        }
        match self.draw(line, start, steps) {
            Ok(()) => Ok(self.tally),
            Err(cause) => Err(cause),
        }
    }
}

/// What is counted of the lines that a script prints.
fn tallied(alloc: Global, order: SoakOrder) -> Result<Tally, NoMemory>
    ensures { IfOk result (λ t. t ≡ tally_of (lines_in (printed order.start order.steps))) }
{
    let mut soaking = Soaking::new(alloc)?;
    let mut line = String::new(alloc);
    match soaking.run(&mut line, order.start, order.steps) {
        Ok(tally) => Ok(tally),
        Err(LineRefused::NoMemory) => Err(NoMemory),
        Err(LineRefused::BadLine) => unreachable!(),
    }
}

/// The three lines of a soak.
fn report_text(alloc: Global, steps: u32, tally: Tally) -> Result<String, AllocError>
    ensures { IfOk result (λ t. string_bytes t ≡ report_of steps tally) }
{
    let lines = tally.lines;
    let updates = tally.updates;
    let mut text = format!(in alloc; "steps {steps}\n")?;
    write!(text, "lines {lines}\n")?;
    write!(text, "updates {updates}\n")?;
    Ok(text)
}

/// Writes the three lines of a soak.
fn report<K: Sink>(alloc: Global, steps: u32, tally: Tally, sink: &mut K) -> SoakEnd
    ensures reported { Reported result (report_of steps tally) (K.held sink.old) (K.held sink.new) }
    ensures write_fault { result ≡ SoakEnd.WriteFault → Rose (K.faults sink.old) (K.faults sink.new) }
    ensures well { (result ≡ SoakEnd.WriteFault → ⊥) → K.faults sink.new ≡ K.faults sink.old }
{
    match report_text(alloc, steps, tally) {
        Ok(text) => match write_all(sink, text.as_bytes()) {
            Put::Taken(_) => SoakEnd::Done,
            Put::Failed => SoakEnd::WriteFault,
        },
        Err(_) => SoakEnd::NoMemory,
    }
}

/// Draws a script from a number, runs it in the engine, line by line, and writes three lines: `steps` with the number
/// of steps, `lines` with the number of lines that the script prints, and `updates` with the number of those that are
/// updates. What the script prints isn't written. Nothing is read.
pub fn soak<K: Sink>(alloc: Global, order: SoakOrder, sink: &mut K) -> SoakEnd
    ensures soaked { Soaked result order.start order.steps (K.held sink.old) (K.held sink.new) }
    ensures write_fault { result ≡ SoakEnd.WriteFault → Rose (K.faults sink.old) (K.faults sink.new) }
    ensures well { (result ≡ SoakEnd.WriteFault → ⊥) → K.faults sink.new ≡ K.faults sink.old }
{
    match tallied(alloc, order) {
        Ok(tally) => report(alloc, order.steps, tally, sink),
        Err(NoMemory) => SoakEnd::NoMemory,
    }
}
