//! The ways in which bytes come, and in which calls fail.
use crate::failed::Failed;
use crate::served::{End, Outcome, Work, serve_bytes};
use crate::words::outcome_words;
use ls_conn_http::ConnEnd;
use ls_feed::FeedEnd;
use ls_outside::Call;
use ls_run::Status;
use ls_value::same_bytes;
use std::alloc::{AllocError, Global};
use std::str;
use std::sync::Wait;

/// How many bytes a read gives where one of them fails.
const READ: usize = 16;

/// How many bytes a write takes where one of them fails.
const WRITE: usize = 7;

/// How many calls are let fail in turn, at most.
const MOST: usize = 10_000;

/// So many calls that go so, and one that fails.
fn failing(alloc: Global, call: Call, times: usize) -> Result<Vec<Call>, AllocError> {
    let mut calls = Vec::with_capacity(alloc, times.saturating_add(1))?;
    calls.resize(times, call)?;
    calls.push(Call::Fail)?;
    Ok(calls)
}

/// What comes of bytes that come as usual.
fn usual<R: Wait>(rt: &R, alloc: Global, work: Work, bytes: &[u8]) -> Result<Outcome, Failed> {
    serve_bytes(rt, alloc, work, bytes, Vec::new(alloc), Vec::new(alloc))
}

/// What is said of bytes that come as usual.
pub(crate) fn whole<R: Wait>(
    rt: &R,
    alloc: Global,
    work: Work,
    bytes: &[u8],
) -> Result<String, Failed> {
    let told = usual(rt, alloc, work, bytes)?;
    outcome_words(alloc, &told)
}

/// Whether two works came to the same.
fn are_same(a: &Outcome, b: &Outcome) -> bool {
    a.end == b.end && same_bytes(&a.written, &b.written)
}

/// What is said of bytes that end at each place: each outcome that differs from the one before, behind the number of
/// bytes from which on it comes.
pub(crate) fn cut<R: Wait>(
    rt: &R,
    alloc: Global,
    work: Work,
    bytes: &[u8],
) -> Result<String, Failed> {
    let mut out = String::new(alloc);
    let mut last = usual(rt, alloc, work, b"")?;
    push_from(alloc, &mut out, 0, &last)?;
    for len in 1..=bytes.len() {
        let next = usual(rt, alloc, work, &bytes[..len])?;
        if !are_same(&last, &next) {
            out.push_str(" | ")?;
            push_from(alloc, &mut out, len, &next)?;
            last = next;
        }
    }
    Ok(out)
}

/// Appends an outcome, behind the number of bytes from which on it comes.
fn push_from(alloc: Global, out: &mut String, len: usize, outcome: &Outcome) -> Result<(), Failed> {
    write!(out, "{len} {}", outcome_words(alloc, outcome)?.as_str())?;
    Ok(())
}

/// How the reads go of so many bytes that come one by one, between which so many reads find none yet.
fn slow_reads(alloc: Global, bytes: usize, idles: usize) -> Result<Vec<Call>, AllocError> {
    let mut calls = Vec::new(alloc);
    let most = bytes.max(1);
    for i in 0..most {
        let before = idles.saturating_mul(i) / most;
        let after = idles.saturating_mul(i + 1) / most;
        let len = calls.len();
        calls.resize(len.saturating_add(after.saturating_sub(before)), Call::Idle)?;
        calls.push(Call::Part(1))?;
    }
    Ok(calls)
}

/// What is said of bytes that come one by one, where so many reads before the last one find none yet.
pub(crate) fn slow<R: Wait>(
    rt: &R,
    alloc: Global,
    work: Work,
    idles: usize,
    bytes: &[u8],
) -> Result<String, Failed> {
    let reads = slow_reads(alloc, bytes.len(), idles)?;
    let told = serve_bytes(rt, alloc, work, bytes, reads, Vec::new(alloc))?;
    outcome_words(alloc, &told)
}

/// Whether a work ended for want of memory: its own, or the sink's, whose write then fails.
fn is_starved(end: End) -> bool {
    let is_own = match end {
        End::Script(status) => status == Status::NoMemory,
        End::Client(end) => end == ConnEnd::NoMemory,
        End::Feed(end) => end == FeedEnd::NoMemory,
    };
    is_own || is_write_fault(end)
}

/// What a client is told, and a feed, in place of an answer for which memory was refused.
const STARVED: [&str; 2] = ["75,Out of memory\r\n", "bad 9\n"];

/// Whether a client left before the last of what was put for it was written, and ended so as usual too: a WebSocket writes
/// what it held back once more then, and whether that fails isn't told.
fn has_left(told: &Outcome, usual: &Outcome) -> bool {
    told.end == End::Client(ConnEnd::PeerLeft) && usual.end == told.end
}

/// Whether this is what may be told where memory is refused and that is told as usual: a front part, where the work ended
/// so or the client has left; or an answer that says it.
fn may_be(told: &Outcome, usual: &Outcome) -> bool {
    if is_starved(told.end) || has_left(told, usual) {
        return usual.written.starts_with(&told.written);
    }
    let text = str::from_utf8(&told.written).unwrap_or("");
    STARVED.iter().any(|starved| text.contains(*starved))
}

/// What is said of bytes that come twice, where memory may be refused once: that it is right, if both times it comes to
/// the same, or once to what may be told then.
pub(crate) fn memory<R: Wait>(
    rt: &R,
    alloc: Global,
    work: Work,
    bytes: &[u8],
) -> Result<String, Failed> {
    let first = usual(rt, alloc, work, bytes)?;
    let second = usual(rt, alloc, work, bytes)?;
    if are_same(&first, &second) || may_be(&first, &second) || may_be(&second, &first) {
        return Ok(String::from_str(alloc, "right")?);
    }
    let mut out = outcome_words(alloc, &first)?;
    out.push_str(" | ")?;
    out.push_str(outcome_words(alloc, &second)?.as_str())?;
    Ok(out)
}

/// Whether a work ended by a read that failed.
fn is_read_fault(end: End) -> bool {
    match end {
        End::Script(status) => status == Status::ReadFault,
        End::Client(end) => end == ConnEnd::ReadFault,
        End::Feed(end) => end == FeedEnd::ReadFault,
    }
}

/// Whether a work ended by a write that failed.
fn is_write_fault(end: End) -> bool {
    match end {
        End::Script(status) => status == Status::WriteFault,
        End::Client(end) => end == ConnEnd::WriteFault,
        End::Feed(end) => end == FeedEnd::WriteFault,
    }
}

/// What comes where the read, or the write, behind so many fails.
fn outcome_failing<R: Wait>(
    rt: &R,
    alloc: Global,
    work: Work,
    bytes: &[u8],
    is_read: bool,
    times: usize,
) -> Result<Outcome, Failed> {
    if is_read {
        let reads = failing(alloc, Call::Part(READ), times)?;
        return serve_bytes(rt, alloc, work, bytes, reads, Vec::new(alloc));
    }
    let writes = failing(alloc, Call::Part(WRITE), times)?;
    serve_bytes(rt, alloc, work, bytes, Vec::new(alloc), writes)
}

/// What is said where each read, or each write, fails in turn: how many there are, if each ends the work by that fault,
/// after a front part of what is written as usual; else the first that ends otherwise.
pub(crate) fn faults<R: Wait>(
    rt: &R,
    alloc: Global,
    work: Work,
    bytes: &[u8],
    is_read: bool,
) -> Result<String, Failed> {
    let wanted = usual(rt, alloc, work, bytes)?;
    for times in 0..MOST {
        let told = outcome_failing(rt, alloc, work, bytes, is_read, times)?;
        if are_same(&told, &wanted) {
            return Ok(format!(in alloc; "{times} faults")?);
        }
        let is_fault = if is_read {
            is_read_fault(told.end)
        } else {
            is_write_fault(told.end)
        };
        if !is_fault || !wanted.written.starts_with(&told.written) {
            let words = outcome_words(alloc, &told)?;
            return Ok(format!(in alloc; "fault {times}: {}", words.as_str())?);
        }
    }
    Err(Failed::BadCase)
}
