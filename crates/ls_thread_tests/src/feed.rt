//! What no contract says: that a feed is served with ample memory, which texts the replies are, and how long it waits.
ghost use Rattle.std.specs.Prelude.{◌≡◌, true};
ghost use Rattle.ls_config.specs.Items.{are_items};

use ls_config::{Config, read};
use ls_feed::{FeedEnd, LONGEST_LINE, Shared, serve_feed};
use ls_outside::{Call, MemClock, MemPipe, MemSink, MemSource, OpenGate};
use ls_register::{Blank, House};
use ls_words::append_decimal;
use std::alloc::{AllocError, Global};
use std::marker::Brand;
use std::sync::Wait;
use std::test::Fail;

/// The items that tests feed.
const ITEMS: &[u8] = b"q MERGE a\nk COMMAND key,command,x\n";

/// A tick that no clock of a test tells.
const NEVER: u64 = 1000;

/// What is fed, and how the reads, the writes and the clock go.
#[derive(Drop)]
struct Input {
    bytes: Vec<u8>,
    reads: Vec<Call>,
    writes: Vec<Call>,
    ticks: Vec<u64>,
}

/// How a feed ended, what was written, and how many ms it waited.
#[derive(Drop)]
struct Output {
    end: FeedEnd,
    written: Vec<u8>,
    waited: u64,
}

/// Serves a feed over the items of a config.
fn feed_over<N: House, R: Wait>(
    rt: &R,
    alloc: Global,
    blank: Blank,
    config: Config,
    pipe: &mut MemPipe,
    clock: &mut MemClock,
) -> Option<FeedEnd>
    requires register { blank.register ≡ N.deed.register }
    requires set { config.set ≡ N.deed.set }
    requires config { config.items ≡ N.deed.config }
    requires items { are_items config.items ≡ true }
{
    let shared = Shared::<N>::new(alloc, blank, config).ok()?;
    let report = serve_feed(rt, alloc, pipe, &shared, clock, &OpenGate, NEVER);
    Some(report.end)
}

/// Serves a feed over the items of tests.
fn fed<R: Wait>(rt: &R, alloc: Global, input: Input) -> Option<Output> {
    let config = read(alloc, ITEMS).ok()?;
    let blank = Blank::new(alloc).ok()?;
    let mut clock = MemClock::new(alloc, input.ticks);
    let mut pipe = MemPipe {
        source: MemSource::new(input.bytes, Vec::new(alloc), input.reads),
        sink: MemSink::new(alloc, input.writes),
    };
    let end = feed_over::<Brand, R>(rt, alloc, blank, config, &mut pipe, &mut clock)?;
    let written = Vec::from_slice(alloc, pipe.sink.bytes()).ok()?;
    Some(Output {
        end,
        written,
        waited: clock.waited(),
    })
}

/// These bytes, fed as they come.
fn plain(alloc: Global, bytes: &[u8]) -> Result<Input, AllocError> {
    Ok(Input {
        bytes: Vec::from_slice(alloc, bytes)?,
        reads: Vec::new(alloc),
        writes: Vec::new(alloc),
        ticks: Vec::new(alloc),
    })
}

/// Whether a feed ends so, and so much is written.
fn ends<R: Wait>(
    rt: &R,
    alloc: Global,
    bytes: &[u8],
    end: FeedEnd,
    written: &[u8],
) -> Result<bool, AllocError> {
    match fed(rt, alloc, plain(alloc, bytes)?) {
        Some(out) => Ok(out.end == end && out.written.as_slice() == written),
        None => Ok(false),
    }
}

/// Lines of one feed behind its hello, and the replies.
const LINES: [(&[u8], &[u8]); 29] = [
    (b"q 1 a=x", b"ok 1"),
    (b"q 1 a=y", b"repeated 1"),
    (b"q 2 b=1", b"bad 3"),
    (b"z 1 a=1", b"bad 2"),
    (b"q x a=1", b"bad 1"),
    (b"", b"bad 1"),
    (b"q", b"bad 1"),
    (b"q 2", b"bad 1"),
    (b"q  2 a=1", b"bad 1"),
    (b" 2 a=1", b"bad 1"),
    (b"q 2 ", b"bad 1"),
    (b"q 2 a=1 b", b"bad 1"),
    (b"q 0 a=1", b"bad 1"),
    (b"q 02 a=1", b"bad 1"),
    (b"q 18446744073709551616 a=1", b"bad 1"),
    (b"q 2 a", b"bad 1"),
    (b"q 2 a=1&a=2", b"bad 1"),
    (b"q 2 a=%C3", b"bad 1"),
    (b"q 2 a=1&b=1", b"bad 3"),
    (b"z x a=1", b"bad 1"),
    (b"z 1 a", b"bad 2"),
    (b"q 2 !", b"ok 2"),
    (b"q 3 a=1\r", b"ok 3"),
    (b"k 1 x=1", b"bad 4"),
    (b"k 1 key=a&command=GO", b"bad 5"),
    (b"k 1 key=a&command=ADD&x=1", b"ok 1"),
    (b"k 1 key=a&command=DELETE", b"repeated 1"),
    (b"q 18446744073709551615 a=1", b"ok 4"),
    (b"q 4 a=1", b"repeated 18446744073709551615"),
];

/// These lines and these replies, each with its LF, and a hello before the lines.
fn both(alloc: Global) -> Result<(Vec<u8>, Vec<u8>), AllocError> {
    let mut lines = Vec::from_slice(alloc, b"feed 7\n")?;
    let mut replies = Vec::new(alloc);
    for (line, reply) in LINES {
        lines.extend_from_slice(line)?;
        lines.push(b'\n')?;
        replies.extend_from_slice(reply)?;
        replies.push(b'\n')?;
    }
    Ok((lines, replies))
}

#[test]
fn each_line_has_its_reply(rt: HostRuntime) -> Result<(), Fail> {
    let (lines, replies) = both(rt.alloc())?;
    assert!(rt; ends(&rt, rt.alloc(), &lines, FeedEnd::Closed, &replies)?);
    Ok(())
}

/// What is fed, how it ends, and what is written.
const ENDS: [(&[u8], FeedEnd, &[u8]); 16] = [
    (b"", FeedEnd::Closed, b""),
    (b"feed 1", FeedEnd::Closed, b""),
    (b"feed 1\n", FeedEnd::Closed, b""),
    (b"feed 64\nq 1 a=1\n", FeedEnd::Closed, b"ok 1\n"),
    (b"feed 1\nq 1 a=1\nq 2 a=2", FeedEnd::Closed, b"ok 1\n"),
    (
        b"feed 1\nq 3 x\nq 3 a=1\nq 3 a=1\nq 2 a=1\nq 4 a=1\n",
        FeedEnd::Closed,
        b"bad 1\nok 1\nrepeated 3\nrepeated 3\nok 2\n",
    ),
    (b"feed 0\nq 1 a=1\n", FeedEnd::BadHello, b""),
    (b"feed 65\nq 1 a=1\n", FeedEnd::BadHello, b""),
    (b"feed 1x\n", FeedEnd::BadHello, b""),
    (b"feed 01\n", FeedEnd::BadHello, b""),
    (b"feed  1\n", FeedEnd::BadHello, b""),
    (b"feed 1 \n", FeedEnd::BadHello, b""),
    (b"feed 1\r\n", FeedEnd::BadHello, b""),
    (b"feed\n", FeedEnd::BadHello, b""),
    (b"food 1\n", FeedEnd::BadHello, b""),
    (b"\n", FeedEnd::BadHello, b""),
];

#[test]
fn each_feed_ends_so(rt: HostRuntime) -> Result<(), Fail> {
    for (bytes, end, written) in ENDS {
        assert!(rt; ends(&rt, rt.alloc(), bytes, end, written)?);
    }
    Ok(())
}

/// What stands in front, a line of so many bytes, and one more line.
fn long(alloc: Global, front: &[u8], len: usize) -> Result<Vec<u8>, AllocError> {
    let mut bytes = Vec::from_slice(alloc, front)?;
    bytes.extend_from_slice(b"q 1 a=")?;
    for _ in 6..len {
        bytes.push(b'x')?;
    }
    bytes.extend_from_slice(b"\nq 1 a=1\n")?;
    Ok(bytes)
}

#[test]
fn lines_of_the_greatest_length(rt: HostRuntime) -> Result<(), Fail> {
    let alloc = rt.alloc();
    let fits = long(alloc, b"feed 1\n", LONGEST_LINE)?;
    assert!(rt; ends(&rt, alloc, &fits, FeedEnd::Closed, b"bad 7\nok 1\n")?);
    let too_long = long(alloc, b"feed 1\n", LONGEST_LINE + 1)?;
    assert!(rt; ends(&rt, alloc, &too_long, FeedEnd::LongLine, b"bad 1\n")?);
    let no_hello = long(alloc, b"", LONGEST_LINE + 1)?;
    assert!(rt; ends(&rt, alloc, &no_hello, FeedEnd::BadHello, b"")?);
    Ok(())
}

/// A hello, and lines that add the keys from 1 that are below a number.
fn keys(alloc: Global, below: u64) -> Result<Vec<u8>, AllocError> {
    let mut bytes = Vec::from_slice(alloc, b"feed 1\n")?;
    for key in 1..below {
        bytes.extend_from_slice(b"k ")?;
        let _ = append_decimal(&mut bytes, key);
        bytes.extend_from_slice(b" command=ADD&key=")?;
        let _ = append_decimal(&mut bytes, key);
        bytes.push(b'\n')?;
    }
    Ok(bytes)
}

#[test]
fn a_key_too_many(rt: HostRuntime) -> Result<(), Fail> {
    let bytes = keys(rt.alloc(), 1026)?;
    let out = fed(&rt, rt.alloc(), plain(rt.alloc(), &bytes)?).ok_or("a feed")?;
    assert!(rt; out.end == FeedEnd::Closed);
    assert!(rt; out.written.ends_with(b"ok 1023\nok 1024\nbad 6\n"));
    Ok(())
}

/// So many calls that go so, and one that fails.
fn failing(alloc: Global, call: Call, times: usize) -> Result<Vec<Call>, AllocError> {
    let mut calls = Vec::new(alloc);
    for _ in 0..times {
        calls.push(call)?;
    }
    calls.push(Call::Fail)?;
    Ok(calls)
}

/// How many bytes a read gives where reads fail.
const PART: usize = 5;

/// How many of these bytes are LF.
fn count_lines(bytes: &[u8]) -> usize {
    bytes.iter().filter(|b| **b == b'\n').count()
}

/// Feeds all lines, and lets the read behind so many fail. Answers how it ends, if the replies to the lines that had
/// ended were written.
fn read_fails<R: Wait>(rt: &R, alloc: Global, times: usize) -> Result<Option<FeedEnd>, AllocError> {
    let (lines, replies) = both(alloc)?;
    let mut input = plain(alloc, &lines)?;
    input.reads = failing(alloc, Call::Part(PART), times)?;
    let Some(out) = fed(rt, alloc, input) else {
        return Ok(None);
    };
    let read = &lines[..lines.len().min(times.saturating_mul(PART))];
    let answered = count_lines(read).saturating_sub(1);
    if replies.starts_with(&out.written) && count_lines(&out.written) == answered {
        Ok(Some(out.end))
    } else {
        Ok(None)
    }
}

/// How many reads all lines take, where each of them that fails is answered as it must be.
fn reads_until_closed<R: Wait>(rt: &R, alloc: Global) -> Result<Option<usize>, AllocError> {
    for times in 0..1000 {
        match read_fails(rt, alloc, times)? {
            Some(FeedEnd::Closed) => return Ok(Some(times)),
            Some(FeedEnd::ReadFault) => {}
            _ => return Ok(None),
        }
    }
    Ok(None)
}

#[test]
fn each_read_fails_in_turn(rt: HostRuntime) -> Result<(), Fail> {
    let (lines, _) = both(rt.alloc())?;
    let reads = reads_until_closed(&rt, rt.alloc())?;
    assert!(rt; reads == Some(lines.len().div_ceil(PART) + 1));
    Ok(())
}

/// Feeds all lines, and lets the write behind so many fail. Answers how it ends, if what was written are so many
/// replies.
fn write_fails<R: Wait>(
    rt: &R,
    alloc: Global,
    times: usize,
) -> Result<Option<FeedEnd>, AllocError> {
    let (lines, replies) = both(alloc)?;
    let mut input = plain(alloc, &lines)?;
    input.writes = failing(alloc, Call::Go, times)?;
    let Some(out) = fed(rt, alloc, input) else {
        return Ok(None);
    };
    if replies.starts_with(&out.written) && count_lines(&out.written) == times.min(LINES.len()) {
        Ok(Some(out.end))
    } else {
        Ok(None)
    }
}

#[test]
fn each_write_fails_in_turn(rt: HostRuntime) -> Result<(), Fail> {
    for times in 0..LINES.len() {
        assert!(rt; write_fails(&rt, rt.alloc(), times)? == Some(FeedEnd::WriteFault));
    }
    assert!(rt; write_fails(&rt, rt.alloc(), LINES.len())? == Some(FeedEnd::Closed));
    Ok(())
}

/// How the reads of a feed go that lacks bytes at times.
const READS: [Call; 6] = [
    Call::Idle,
    Call::Part(3),
    Call::Idle,
    Call::Idle,
    Call::Part(9),
    Call::Idle,
];

#[test]
fn a_feed_waits_for_bytes(rt: HostRuntime) -> Result<(), Fail> {
    let mut input = plain(rt.alloc(), b"feed 1\nq 1 a=1\n")?;
    input.reads = Vec::from_slice(rt.alloc(), &READS)?;
    let out = fed(&rt, rt.alloc(), input).ok_or("a feed")?;
    assert!(rt; out.end == FeedEnd::Closed && out.written.as_slice() == b"ok 1\n".as_slice());
    assert!(rt; out.waited == 40);
    Ok(())
}

#[test]
fn the_clock_stops_a_feed(rt: HostRuntime) -> Result<(), Fail> {
    let mut input = plain(rt.alloc(), b"feed 1\nq 1 a=1\nq 2 a=2\n")?;
    input.reads = failing(rt.alloc(), Call::Part(8), 9)?;
    input.ticks = Vec::from_slice(rt.alloc(), &[0, 999, NEVER])?;
    let out = fed(&rt, rt.alloc(), input).ok_or("a feed")?;
    assert!(rt; out.end == FeedEnd::Stopped && out.written.as_slice() == b"ok 1\n".as_slice());
    Ok(())
}
