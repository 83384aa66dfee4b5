//! Lines in memory and clocks in words, and what a stream came to.
use ls_conn::StreamEnd;
use ls_guest::number;
use ls_outside::{Call, MemClock};
use std::alloc::{AllocError, Global};
use std::str;

/// A tick that no clock of a test tells before the others.
pub const NEVER: u64 = 1_000_000;

/// A clock that tells these ticks, divided by commas, and then the one at which each stream is to end. `5x3` is 5 three
/// times.
pub fn clock_of(alloc: Global, words: &str) -> Result<MemClock, AllocError> {
    let mut ticks = Vec::new(alloc);
    for word in words.split(',') {
        let mut parts = word.split('x');
        let tick = number(parts.next().unwrap_or(""));
        let times = number(parts.next().unwrap_or("1"));
        for _ in 0..times {
            ticks.push(tick)?;
        }
    }
    ticks.push(NEVER)?;
    Ok(MemClock::new(alloc, ticks))
}

/// How a put goes, in a word.
fn call_of(word: &str) -> Call {
    match word {
        "fail" => Call::Fail,
        "part" => Call::Part(3),
        _ => Call::Go,
    }
}

/// How puts go, by words that commas divide.
pub fn calls_of(alloc: Global, words: &str) -> Result<Vec<Call>, AllocError> {
    let mut calls = Vec::new(alloc);
    for word in words.split(',') {
        calls.push(call_of(word))?;
    }
    Ok(calls)
}

/// Why a stream ended, in words.
fn ended(alloc: Global, end: StreamEnd) -> Result<String, AllocError> {
    match end {
        StreamEnd::Looped => String::from_str(alloc, "looped"),
        StreamEnd::Ended { code } => format!(in alloc; "ended {code}"),
        StreamEnd::Superseded { epoch } => format!(in alloc; "superseded {epoch}"),
        StreamEnd::Unbound => String::from_str(alloc, "unbound"),
        StreamEnd::PeerLeft => String::from_str(alloc, "left"),
        StreamEnd::WriteFault => String::from_str(alloc, "fault"),
        StreamEnd::Stopped => String::from_str(alloc, "stopped"),
        StreamEnd::Spent => String::from_str(alloc, "spent"),
        StreamEnd::NoMemory => String::from_str(alloc, "memory"),
    }
}

/// Adds lines to what is said.
fn push_lines(said: &mut String, lines: &str) -> Result<(), AllocError> {
    for line in lines.split("\r\n") {
        said.push_str(line)?;
        said.push_str(" / ")?;
    }
    Ok(())
}

/// What a stream came to: its lines, why it ended, and how many ms it waited. A line that didn't go out whole has a
/// tilde after it.
pub fn streamed(
    alloc: Global,
    bytes: &[u8],
    end: StreamEnd,
    waited: u64,
) -> Result<String, AllocError> {
    let mut said = String::new(alloc);
    let text = str::from_utf8(bytes).unwrap_or("?");
    let rest = match text.rsplit_once("\r\n") {
        Some((lines, rest)) => {
            push_lines(&mut said, lines)?;
            rest
        }
        None => text,
    };
    if !rest.is_empty() {
        said.push_str(rest)?;
        said.push_str("~ / ")?;
    }
    let end = ended(alloc, end)?;
    said.push_str(format!(in alloc; "-{} waited {waited}", end.as_str())?.as_str())?;
    Ok(said)
}

/// How many lines a text has.
fn line_count(text: &str) -> u64 {
    let mut count: u64 = 0;
    for _ in text.lines() {
        count = count.saturating_add(1);
    }
    count
}

/// The last line of a text.
fn last_line(text: &str) -> &str {
    let text = text.strip_suffix("\r\n").unwrap_or(text);
    match text.rsplit_once("\r\n") {
        Some((_, last)) => last,
        None => text,
    }
}

/// What a stream of many lines came to: how many, the last one, why it ended, and how many ms it waited.
pub fn counted(
    alloc: Global,
    bytes: &[u8],
    end: StreamEnd,
    waited: u64,
) -> Result<String, AllocError> {
    let text = str::from_utf8(bytes).unwrap_or("?");
    let count = line_count(text);
    let end = ended(alloc, end)?;
    format!(in alloc;
        "{count} {} / -{} waited {waited}",
        last_line(text),
        end.as_str()
    )
}
