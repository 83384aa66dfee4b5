//! Runs over memory.
use ls_door::{Door, Spawner};
use ls_outside::{Call, Clock, MemClock, MemSink, MemSource};
use ls_program::{Status, run};
use std::alloc::{AllocError, Global};
use std::marker::{Send, Sync};
use std::sync::Wait;
use std::thread::Threads;

/// How so many calls of a source or a sink go.
pub(crate) type Calls = (Call, usize);

/// Calls that go so.
fn calls_of(alloc: Global, runs: &[Calls]) -> Result<Vec<Call>, AllocError> {
    let mut calls = Vec::new(alloc);
    for (call, times) in runs {
        for _ in 0..*times {
            calls.push(*call)?;
        }
    }
    Ok(calls)
}

/// These words, divided by single spaces, each as a text of its own; none where there is no text.
fn words_of(alloc: Global, words: &str) -> Result<Vec<String>, AllocError> {
    let mut owned = Vec::new(alloc);
    if words.is_empty() {
        return Ok(owned);
    }
    for word in words.split(' ') {
        owned.push(String::from_str(alloc, word)?)?;
    }
    Ok(owned)
}

/// What is read and told in a run, and how its reads and writes go.
#[derive(Drop)]
pub(crate) struct Input<'a> {
    pub(crate) words: &'a str,
    pub(crate) bytes: &'a [u8],
    pub(crate) reads: &'a [Calls],
    pub(crate) writes: &'a [Calls],
    pub(crate) ticks: &'a [u64],
}

/// Runs the program over memory, but for its clock. Answers the status and the sink.
pub(crate) fn ran_by<
    R: Threads + Wait + Copy + Send + Sync + 'static,
    C: Clock + Send + Drop + 'static,
    D: Door,
>(
    rt: &R,
    alloc: Global,
    input: &Input<'_>,
    clock: &mut C,
    door: &mut D,
    spawner: &mut Spawner,
) -> Result<(Status, MemSink), AllocError> {
    let words = words_of(alloc, input.words)?;
    let bytes = Vec::from_slice(alloc, input.bytes)?;
    let reads = calls_of(alloc, input.reads)?;
    let mut source = MemSource::new(bytes, Vec::new(alloc), reads);
    let mut sink = MemSink::new(alloc, calls_of(alloc, input.writes)?);
    let status = run(
        rt,
        alloc,
        &words,
        &mut source,
        &mut sink,
        clock,
        door,
        spawner,
    );
    Ok((status, sink))
}

/// Runs the program over memory. Answers the status and the sink.
pub(crate) fn ran<R: Threads + Wait + Copy + Send + Sync + 'static, D: Door>(
    rt: &R,
    alloc: Global,
    input: &Input<'_>,
    door: &mut D,
    spawner: &mut Spawner,
) -> Result<(Status, MemSink), AllocError> {
    let mut clock = MemClock::new(alloc, Vec::from_slice(alloc, input.ticks)?);
    ran_by(rt, alloc, input, &mut clock, door, spawner)
}

/// So many ticks 0, and the others behind them.
pub(crate) fn ticks_of(
    alloc: Global,
    zeros: usize,
    others: &[u64],
) -> Result<Vec<u64>, AllocError> {
    let mut ticks = Vec::new(alloc);
    for _ in 0..zeros {
        ticks.push(0)?;
    }
    ticks.extend_from_slice(others)?;
    Ok(ticks)
}
