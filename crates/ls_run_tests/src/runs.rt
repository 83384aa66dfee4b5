//! Runs over memory: worked scripts, streams that are lost, the greatest sizes, and reads and writes that fail, each in
//! turn.
use crate::budgets::{BUDGETS, CHANGES, LOST, OWED};
use crate::codes::{FIELDS, LINES, REQUESTED, SESSIONS, SLOTS, SUBSCRIPTIONS};
use crate::longest::{BACKLOG, BYTES, KEYS, Long, RAW_256, RAW_300, SILENT, WIDE, text_of};
use crate::recovery::{BOUND, GIVEN_AGAIN, KEPT, OWED_WITHOUT_STREAM, RECOVERED, UNSENT};
use crate::streams::{
    ALL_TIMED_OUT, FAR, LOOPED, OWED_OVER_HTTP, OWED_OVER_WS, RECOVERED_OVER_HTTP, TIMED_OUT,
};
use crate::worked::{QUOTE, QUOTE_PRINTED, REFUSED, Row, WORKED};
use ls_outside::{Call, MemSink, MemSource};
use ls_run::{Status, run};
use std::alloc::{AllocError, Global};
use std::sync::Wait;
use std::test::Fail;

/// How so many calls of a source or a sink go.
type Calls = (Call, usize);

/// A script in memory: what it is, where it is cut, how its reads and writes go, and what is to come of it.
struct Case {
    script: &'static [u8],
    cuts: &'static [usize],
    reads: &'static [Calls],
    writes: &'static [Calls],
    status: Status,
    written: &'static [u8],
}

/// Calls that go so.
fn calls_of(alloc: Global, runs: &[Calls]) -> Result<Vec<Call>, AllocError> {
    let mut calls = Vec::new(alloc);
    for (call, times) in runs {
        for _ in 0..*times {
            calls.push(*call)?;
        }
    }
    Ok(calls)
}

/// These words, each as a text of its own.
fn words_of(alloc: Global, words: &[&str]) -> Result<Vec<String>, AllocError> {
    let mut owned = Vec::new(alloc);
    for word in words {
        owned.push(String::from_str(alloc, word)?)?;
    }
    Ok(owned)
}

/// A source of a script in memory.
fn source_of(
    alloc: Global,
    script: &[u8],
    cuts: &[usize],
    reads: &[Calls],
) -> Result<MemSource, AllocError> {
    let script = Vec::from_slice(alloc, script)?;
    let cuts = Vec::from_slice(alloc, cuts)?;
    Ok(MemSource::new(script, cuts, calls_of(alloc, reads)?))
}

/// Runs a script over memory. Answers the status and the sink.
fn played<R: Wait>(
    rt: &R,
    alloc: Global,
    mut source: MemSource,
    writes: &[Calls],
) -> Result<(Status, MemSink), AllocError> {
    let words = words_of(alloc, &["replay"])?;
    let mut sink = MemSink::new(alloc, calls_of(alloc, writes)?);
    let status = run(rt, alloc, &words, &mut source, &mut sink);
    Ok((status, sink))
}

/// Whether a case ends as it says.
fn holds<R: Wait>(rt: &R, alloc: Global, case: &Case) -> Result<bool, AllocError> {
    let source = source_of(alloc, case.script, case.cuts, case.reads)?;
    let (status, sink) = played(rt, alloc, source, case.writes)?;
    Ok(status == case.status && sink.bytes() == case.written)
}

/// Whether a script that is read and written without a fault ends so, and prints this.
pub(crate) fn prints<R: Wait>(
    rt: &R,
    alloc: Global,
    script: &[u8],
    status: Status,
    printed: &[u8],
) -> Result<bool, AllocError> {
    let source = source_of(alloc, script, &[], &[])?;
    let (ended, sink) = played(rt, alloc, source, &[])?;
    Ok(ended == status && sink.bytes() == printed)
}

/// The first row that is answered otherwise, by its number from 0.
fn first_unlike<R: Wait>(rt: &R, alloc: Global, rows: &[Row]) -> Result<Option<usize>, AllocError> {
    for (number, (script, status, printed)) in rows.iter().enumerate() {
        if !prints(rt, alloc, script, *status, printed)? {
            return Ok(Some(number));
        }
    }
    Ok(None)
}

#[test]
fn worked_scripts(rt: HostRuntime) -> Result<(), Fail> {
    assert!(rt; first_unlike(&rt, rt.alloc(), &WORKED)?.is_none());
    assert!(rt; first_unlike(&rt, rt.alloc(), &REFUSED)?.is_none());
    assert!(rt; first_unlike(&rt, rt.alloc(), &REQUESTED)?.is_none());
    assert!(rt; first_unlike(&rt, rt.alloc(), &BUDGETS)?.is_none());
    Ok(())
}

#[test]
fn streams_that_are_lost(rt: HostRuntime) -> Result<(), Fail> {
    assert!(rt; first_unlike(&rt, rt.alloc(), &RECOVERED)?.is_none());
    assert!(rt; first_unlike(&rt, rt.alloc(), &BOUND)?.is_none());
    assert!(rt; first_unlike(&rt, rt.alloc(), &LOOPED)?.is_none());
    assert!(rt; first_unlike(&rt, rt.alloc(), &TIMED_OUT)?.is_none());
    Ok(())
}

/// Scripts that come in parts, whose reads find no byte for long, or whose reads or writes fail.
const CASES: [Case; 7] = [
    Case {
        script: QUOTE,
        cuts: &[1, 26, 27, 28, 33, 34],
        reads: &[(Call::Part(7), 9)],
        writes: &[(Call::Part(1), 1), (Call::Part(3), 1), (Call::Part(0), 1)],
        status: Status::Ok,
        written: QUOTE_PRINTED,
    },
    Case {
        script: b"item q MERGE x\npub 1 1 q x=A\npub 1 2 q x=B",
        cuts: &[],
        reads: &[(Call::Part(30), 1), (Call::Idle, 1), (Call::Fail, 1)],
        writes: &[],
        status: Status::ReadFault,
        written: b"-no 1\n",
    },
    Case {
        script: b"# a\n",
        cuts: &[],
        reads: &[(Call::Idle, 3000)],
        writes: &[],
        status: Status::ReadFault,
        written: b"",
    },
    Case {
        script: b"",
        cuts: &[],
        reads: &[(Call::Idle, 2999)],
        writes: &[],
        status: Status::Ok,
        written: b"",
    },
    Case {
        script: b"# a\n",
        cuts: &[],
        reads: &[(Call::Idle, 2999), (Call::Part(2), 1), (Call::Idle, 2999)],
        writes: &[],
        status: Status::Ok,
        written: b"",
    },
    Case {
        script: b"item q MERGE x\npub 1 1 q x=A\npub 1 2 q x=B\n",
        cuts: &[],
        reads: &[],
        writes: &[(Call::Part(10), 1), (Call::Fail, 1)],
        status: Status::WriteFault,
        written: b"-no 1\n-no ",
    },
    Case {
        script: b"item q MERGE x\npub 1 1 q x=A\nstop\n",
        cuts: &[],
        reads: &[],
        writes: &[(Call::Part(2), 1), (Call::Fail, 1)],
        status: Status::WriteFault,
        written: b"-n",
    },
];

/// The first case that ends otherwise, by its number from 0.
fn first_wrong<R: Wait>(rt: &R, alloc: Global) -> Result<Option<usize>, AllocError> {
    for (number, case) in CASES.iter().enumerate() {
        if !holds(rt, alloc, case)? {
            return Ok(Some(number));
        }
    }
    Ok(None)
}

#[test]
fn parts_and_faults(rt: HostRuntime) -> Result<(), Fail> {
    assert!(rt; first_wrong(&rt, rt.alloc())?.is_none());
    Ok(())
}

/// Whether a script of the greatest sizes prints what it says.
fn is_printed<R: Wait>(rt: &R, alloc: Global, long: Long) -> Result<bool, Fail> {
    let script = text_of(alloc, long.0)?;
    let printed = text_of(alloc, long.1)?;
    Ok(prints(rt, alloc, &script, Status::Ok, &printed)?)
}

/// The first of these scripts that prints something else, by its number from 0.
fn first_long_unlike<R: Wait>(rt: &R, alloc: Global, long: &[Long]) -> Result<Option<usize>, Fail> {
    for (number, long) in long.iter().enumerate() {
        if !is_printed(rt, alloc, *long)? {
            return Ok(Some(number));
        }
    }
    Ok(None)
}

#[test]
fn the_greatest_sizes(rt: HostRuntime) -> Result<(), Fail> {
    let long = [RAW_300, RAW_256, KEYS, WIDE, SILENT, BACKLOG, BYTES];
    assert!(rt; first_long_unlike(&rt, rt.alloc(), &long)?.is_none());
    Ok(())
}

#[test]
fn the_limits_of_requests(rt: HostRuntime) -> Result<(), Fail> {
    let long = [
        SESSIONS,
        SUBSCRIPTIONS,
        LINES,
        SLOTS,
        FIELDS,
        CHANGES,
        OWED,
        LOST,
    ];
    assert!(rt; first_long_unlike(&rt, rt.alloc(), &long)?.is_none());
    Ok(())
}

#[test]
fn many_lines_of_streams(rt: HostRuntime) -> Result<(), Fail> {
    let long = [
        KEPT,
        GIVEN_AGAIN,
        UNSENT,
        OWED_WITHOUT_STREAM,
        OWED_OVER_HTTP,
        OWED_OVER_WS,
        RECOVERED_OVER_HTTP,
        ALL_TIMED_OUT,
        FAR,
    ];
    assert!(rt; first_long_unlike(&rt, rt.alloc(), &long)?.is_none());
    Ok(())
}

/// How many bytes are read at once where reads fail.
const PART: usize = 64;

/// The lines of the bytes that so many reads give.
fn ended(script: &[u8], reads: usize) -> &[u8] {
    let read = &script[..script.len().min(reads.saturating_mul(PART))];
    match memchr::memrchr(b'\n', read) {
        Some(last) => &read[..last],
        None => &[],
    }
}

/// Runs a script whose read behind so many fails. Answers the status, and whether what is printed is as the status
/// says.
fn read_fails<R: Wait>(
    rt: &R,
    alloc: Global,
    script: &[u8],
    reads: usize,
) -> Result<(Status, bool), AllocError> {
    let calls = [(Call::Part(PART), reads), (Call::Fail, 1)];
    let (status, sink) = played(rt, alloc, source_of(alloc, script, &[], &calls)?, &[])?;
    let lines = if status == Status::Ok {
        script
    } else {
        ended(script, reads)
    };
    Ok((status, prints(rt, alloc, lines, Status::Ok, sink.bytes())?))
}

/// How many reads the longest script takes, where each of them that fails is answered as it must be.
fn reads_until_ok<R: Wait>(rt: &R, alloc: Global) -> Result<Option<usize>, Fail> {
    let script = text_of(alloc, RAW_300.0)?;
    for reads in 0..1000 {
        match read_fails(rt, alloc, &script, reads)? {
            (Status::Ok, true) => return Ok(Some(reads)),
            (Status::ReadFault, true) => {}
            _ => return Ok(None),
        }
    }
    Ok(None)
}

#[test]
fn each_read_fails_in_turn(rt: HostRuntime) -> Result<(), Fail> {
    assert_eq!(rt; reads_until_ok(&rt, rt.alloc())?, Some(130));
    Ok(())
}

/// Runs a script whose write behind so many fails. Answers the status, and how many bytes of what it prints were
/// written, if those from the front.
fn write_fails<R: Wait>(
    rt: &R,
    alloc: Global,
    source: MemSource,
    printed: &[u8],
    writes: usize,
) -> Result<(Status, Option<usize>), AllocError> {
    let (status, sink) = played(rt, alloc, source, &[(Call::Go, writes), (Call::Fail, 1)])?;
    let written = sink.bytes();
    Ok((
        status,
        if printed.starts_with(written) {
            Some(written.len())
        } else {
            None
        },
    ))
}

/// How many writes a script takes whose reads go so, where each write that fails is answered as it must be.
fn writes_of<R: Wait>(
    rt: &R,
    alloc: Global,
    script: &[u8],
    reads: &[Calls],
    printed: &[u8],
) -> Result<Option<usize>, AllocError> {
    let mut next = 0;
    for writes in 0..1000 {
        let source = source_of(alloc, script, &[], reads)?;
        match write_fails(rt, alloc, source, printed, writes)? {
            (Status::Ok, Some(len)) if len == printed.len() => return Ok(Some(writes)),
            (Status::WriteFault, Some(len)) if len >= next && len < printed.len() => next = len + 1,
            _ => return Ok(None),
        }
    }
    Ok(None)
}

/// The same of a script of the greatest sizes.
fn writes_of_long<R: Wait>(
    rt: &R,
    alloc: Global,
    long: Long,
    reads: &[Calls],
) -> Result<Option<usize>, Fail> {
    let script = text_of(alloc, long.0)?;
    let printed = text_of(alloc, long.1)?;
    Ok(writes_of(rt, alloc, &script, reads, &printed)?)
}

#[test]
fn a_piece_is_written_at_once(rt: HostRuntime) -> Result<(), Fail> {
    let alloc = rt.alloc();
    assert_eq!(rt; writes_of(&rt, alloc, QUOTE, &[], QUOTE_PRINTED)?, Some(1));
    assert_eq!(rt; writes_of_long(&rt, alloc, RAW_300, &[])?, Some(2));
    Ok(())
}

#[test]
fn each_write_fails_in_turn(rt: HostRuntime) -> Result<(), Fail> {
    let alloc = rt.alloc();
    assert_eq!(rt;
        writes_of_long(&rt, alloc, RAW_300, &[(Call::Part(PART), 129)])?,
        Some(129)
    );
    assert_eq!(rt; writes_of_long(&rt, alloc, WIDE, &[])?, Some(10));
    Ok(())
}

/// Whether each cut of a script in two leaves what it prints.
fn cuts_change_nothing<R: Wait>(rt: &R, alloc: Global) -> Result<bool, AllocError> {
    for cut in 0..QUOTE.len() {
        let (status, sink) = played(rt, alloc, source_of(alloc, QUOTE, &[cut], &[])?, &[])?;
        if status != Status::Ok || sink.bytes() != QUOTE_PRINTED {
            return Ok(false);
        }
    }
    Ok(true)
}

#[test]
fn a_script_cut_at_each_byte(rt: HostRuntime) -> Result<(), Fail> {
    assert!(rt; cuts_change_nothing(&rt, rt.alloc())?);
    Ok(())
}

/// Whether these words are answered as none of a command, and nothing is read or written.
fn is_usage<R: Wait>(rt: &R, alloc: Global, words: &[&str]) -> Result<bool, AllocError> {
    let words = words_of(alloc, words)?;
    let mut source = source_of(alloc, b"stop\n", &[], &[])?;
    let mut sink = MemSink::new(alloc, Vec::new(alloc));
    let status = run(rt, alloc, &words, &mut source, &mut sink);
    Ok(status == Status::Usage && sink.bytes().is_empty())
}

#[test]
fn words_of_no_command(rt: HostRuntime) -> Result<(), Fail> {
    let cases: [&[&str]; 5] = [&[], &["-x"], &["serve"], &["replay", "replay"], &["--help"]];
    for words in cases {
        assert!(rt; is_usage(&rt, rt.alloc(), words)?);
    }
    Ok(())
}
