//! A whole server over memory with its visitors, each served to its end before the next one comes.
ghost use Rattle.std.specs.Prelude.{◌≡◌};

use crate::failed::Failed;
use crate::spelling::spell;
use crate::visitors::{Visitor, Visitors};
use ls_callers::{ListDoor, Shaky, Tally};
use ls_door::{Duct, Spawner, Visit};
use ls_outside::{Call, Got, MemClock, MemSink, MemSource, Put, Source, write_all};
use ls_program::run;
use ls_run::Status;
use std::alloc::{AllocError, Global};
use std::marker::{Send, Sync};
use std::sync::{Arc, Wait};
use std::thread::Threads;

/// The words of a server that ends at a tick.
const WORDS: &str = "serve 1 2 9";

/// Its config.
const CONFIG: &[u8] = b"q MERGE x\n";

/// What it says.
const SAID: &[u8] = b"listening 1 2\nstopped\n";

/// How often its clock tells 0, before it tells the end.
const ZEROS: usize = 80;

/// The tick of its end.
const END: u64 = 9;

/// How many bytes wait at most between a visitor and the server, each way.
const LIMIT: usize = 65_536;

/// How many calls are let fail in turn, at most.
const MOST: u64 = 10_000;

/// How many bytes of the config a read gives where one of them fails, and how many a write takes.
const PART: usize = 4;

/// The words, each as a text of its own.
pub(crate) fn words_of(alloc: Global) -> Result<Vec<String>, AllocError> {
    let mut words = Vec::new(alloc);
    for word in WORDS.split(' ') {
        words.push(String::from_str(alloc, word)?)?;
    }
    Ok(words)
}

/// A clock that tells 0 for a while, and at last the end.
pub(crate) fn clock_of(alloc: Global) -> Result<MemClock, AllocError> {
    let mut ticks = Vec::new(alloc);
    ticks.resize(ZEROS, 0)?;
    ticks.push(END)?;
    Ok(MemClock::new(alloc, ticks))
}

/// A server's visitors, and the near ends of the ducts over which they speak.
#[derive(Drop)]
struct Meeting<R: Wait + Drop> {
    visits: Vec<Visit<Shaky<Duct<R>>>>,
    ends: Vec<Duct<R>>,
}

impl<R: Wait + Copy + Drop> Meeting<R> {
    /// One more comes, and says what it has to.
    fn invite(
        &mut self,
        rt: R,
        alloc: Global,
        visitor: &Visitor,
        tally: &Arc<Tally, Global>,
    ) -> Result<(), Failed> {
        let (mut near, far) = Duct::pair(rt, alloc, LIMIT)?;
        if write_all(&mut near, &visitor.bytes) == Put::Failed {
            return Err(Failed::NoMemory);
        }
        let pipe = Shaky::new(far, Arc::try_clone(tally)?);
        self.visits.push(if visitor.is_feed {
            Visit::Feed(pipe)
        } else {
            Visit::Client(pipe)
        })?;
        self.ends.push(near)?;
        Ok(())
    }
}

/// Visitors who have said what they have to.
fn meeting_of<R: Wait + Copy + Drop>(
    rt: R,
    alloc: Global,
    visitors: &Visitors,
    tally: &Arc<Tally, Global>,
) -> Result<Meeting<R>, Failed> {
    let mut meeting = Meeting {
        visits: Vec::new(alloc),
        ends: Vec::new(alloc),
    };
    for visitor in &visitors.all {
        meeting.invite(rt, alloc, visitor, tally)?;
    }
    Ok(meeting)
}

/// All that comes from a source until it has no more.
fn all_of<S: Source>(alloc: Global, source: &mut S) -> Result<Vec<u8>, AllocError> {
    let mut all = Vec::new(alloc);
    for _ in 0..LIMIT {
        let mut piece = [0u8; 256];
        match source.read(&mut piece) {
            Got::Bytes(count) => all.extend_from_slice(&piece[..count])?,
            Got::End | Got::NotYet | Got::Failed => break,
        }
    }
    Ok(all)
}

/// What came of a server: its status, what it said, what each visitor was told, and whether a call failed.
#[derive(Drop)]
struct Served {
    status: Status,
    said: Vec<u8>,
    told: Vec<Vec<u8>>,
    has_failed: bool,
}

/// How the reads of the config and the writes of what a server says go.
#[derive(Drop)]
struct Edges {
    reads: Vec<Call>,
    writes: Vec<Call>,
}

/// As usual.
fn usual_edges(alloc: Global) -> Edges {
    Edges {
        reads: Vec::new(alloc),
        writes: Vec::new(alloc),
    }
}

/// Runs a server for these visitors. The call behind so many others of all visitors' pipes fails.
fn ran<R: Threads + Wait + Copy + Drop + Send + Sync + 'static>(
    rt: &R,
    alloc: Global,
    visitors: &Visitors,
    failing: u64,
    edges: Edges,
) -> Result<Served, Failed> {
    let tally = Arc::new(alloc, Tally::new(failing))?;
    let Meeting { visits, mut ends } = meeting_of(*rt, alloc, visitors, &tally)?;
    let words = words_of(alloc)?;
    let Edges { reads, writes } = edges;
    let config = Vec::from_slice(alloc, CONFIG)?;
    let mut source = MemSource::new(config, Vec::new(alloc), reads);
    let mut sink = MemSink::new(alloc, writes);
    let mut clock = clock_of(alloc)?;
    let mut door = ListDoor::new(visits);
    let mut spawner = Spawner::at_once(alloc);
    let status = run(
        rt,
        alloc,
        &words,
        &mut source,
        &mut sink,
        &mut clock,
        &mut door,
        &mut spawner,
    );
    Ok(Served {
        status,
        said: Vec::from_slice(alloc, sink.bytes())?,
        told: all_told(alloc, &mut ends)?,
        has_failed: tally.has_failed(),
    })
}

/// What came at each of these ends.
fn all_told<R: Wait + Drop>(
    alloc: Global,
    ends: &mut [Duct<R>],
) -> Result<Vec<Vec<u8>>, AllocError> {
    let mut told = Vec::new(alloc);
    for end in ends {
        told.push(all_of(alloc, end)?)?;
    }
    Ok(told)
}

/// The answer to a case that is as it must be.
fn right(alloc: Global) -> Result<String, Failed> {
    Ok(String::from_str(alloc, "right")?)
}

/// The answer to a case that isn't: which call failed, and what came of the server.
fn wrong(alloc: Global, failing: u64, ran: &Served) -> Result<String, Failed> {
    let mut out = format!(in alloc; "wrong at {failing}: status {} ", ran.status.number())?;
    spell(&mut out, &ran.said)?;
    for text in &ran.told {
        out.push_str(" | ")?;
        spell(&mut out, text)?;
    }
    Ok(out)
}

/// Whether a server ended well.
fn ended_well(ran: &Served) -> bool {
    ran.status == Status::Ok && ran.said.as_slice() == SAID
}

/// Whether each visitor was told what it is told as usual.
fn are_usual(visitors: &Visitors, ran: &Served) -> bool {
    ran.told.len() == visitors.all.len()
        && visitors
            .all
            .iter()
            .zip(&ran.told)
            .all(|(visitor, text)| visitor.is_usual(text))
}

/// Whether each visitor was told a text that it may be told, or a front part of one, and at most one of them no whole
/// one.
fn are_cut_once(visitors: &Visitors, ran: &Served) -> bool {
    let mut cut: u64 = 0;
    for (visitor, text) in visitors.all.iter().zip(&ran.told) {
        if !visitor.is_front(text) {
            return false;
        }
        if !visitor.is_whole(text) {
            cut = cut.saturating_add(1);
        }
    }
    cut <= 1 && ran.told.len() == visitors.all.len()
}

/// Whether each visitor was told what it may be told where memory was refused.
fn are_starved(visitors: &Visitors, ran: &Served) -> bool {
    visitors
        .all
        .iter()
        .zip(&ran.told)
        .all(|(visitor, text)| visitor.is_starved(text))
}

/// A server whose calls all go as usual.
pub(crate) fn whole<R: Threads + Wait + Copy + Drop + Send + Sync + 'static>(
    rt: &R,
    alloc: Global,
    visitors: &Visitors,
) -> Result<String, Failed> {
    let ran = ran(rt, alloc, visitors, u64::MAX, usual_edges(alloc))?;
    if ended_well(&ran) && are_usual(visitors, &ran) {
        return right(alloc);
    }
    wrong(alloc, u64::MAX, &ran)
}

/// A server of whose visitors' reads and writes each fails in turn: it ends well, and all visitors but one are told a
/// whole text, and that one a front part.
pub(crate) fn faults<R: Threads + Wait + Copy + Drop + Send + Sync + 'static>(
    rt: &R,
    alloc: Global,
    visitors: &Visitors,
) -> Result<String, Failed> {
    for failing in 0..MOST {
        let ran = ran(rt, alloc, visitors, failing, usual_edges(alloc))?;
        if !ended_well(&ran) || !are_cut_once(visitors, &ran) {
            return wrong(alloc, failing, &ran);
        }
        if !ran.has_failed {
            return if failing > 0 && are_usual(visitors, &ran) {
                right(alloc)
            } else {
                wrong(alloc, failing, &ran)
            };
        }
    }
    Err(Failed::BadCase)
}

/// Whether a server ended for want of memory, its own or the sink's, whose write then fails, after a front part of what it
/// says.
fn ended_starved(ran: &Served) -> bool {
    let is_want = ran.status == Status::NoMemory || ran.status == Status::WriteFault;
    is_want && SAID.starts_with(&ran.said)
}

/// A server that may be refused memory: it ends well, or for want of memory after a front part of what it says.
pub(crate) fn memory<R: Threads + Wait + Copy + Drop + Send + Sync + 'static>(
    rt: &R,
    alloc: Global,
    visitors: &Visitors,
) -> Result<String, Failed> {
    let ran = ran(rt, alloc, visitors, u64::MAX, usual_edges(alloc))?;
    if (ended_well(&ran) || ended_starved(&ran)) && are_starved(visitors, &ran) {
        return right(alloc);
    }
    wrong(alloc, u64::MAX, &ran)
}

/// So many calls of a few bytes, and one that fails.
fn failing_calls(alloc: Global, times: u64) -> Result<Vec<Call>, AllocError> {
    let mut calls = Vec::new(alloc);
    for _ in 0..times {
        calls.push(Call::Part(PART))?;
    }
    calls.push(Call::Fail)?;
    Ok(calls)
}

/// The edges of which a read, or a write, behind so many fails.
fn failing_edges(alloc: Global, is_read: bool, times: u64) -> Result<Edges, AllocError> {
    let calls = failing_calls(alloc, times)?;
    Ok(if is_read {
        Edges {
            reads: calls,
            writes: Vec::new(alloc),
        }
    } else {
        Edges {
            reads: Vec::new(alloc),
            writes: calls,
        }
    })
}

/// Whether a server ended by a read, or a write, that failed: nothing was said, or a front part of what it says.
fn ended_by_fault(ran: &Served, is_read: bool) -> bool {
    if is_read {
        ran.status == Status::ReadFault && ran.said.is_empty()
    } else {
        ran.status == Status::WriteFault && SAID.starts_with(&ran.said)
    }
}

/// A server without visitors of whose reads of the config, or of whose writes of what it says, each fails in turn: how
/// many there are.
pub(crate) fn edge_faults<R: Threads + Wait + Copy + Drop + Send + Sync + 'static>(
    rt: &R,
    alloc: Global,
    is_read: bool,
) -> Result<String, Failed> {
    let nobody = Visitors::new(alloc);
    for times in 0..MOST {
        let edges = failing_edges(alloc, is_read, times)?;
        let ran = ran(rt, alloc, &nobody, u64::MAX, edges)?;
        if ended_well(&ran) {
            return Ok(format!(in alloc; "{times} faults")?);
        }
        if !ended_by_fault(&ran, is_read) {
            return wrong(alloc, times, &ran);
        }
    }
    Err(Failed::BadCase)
}
