//! What no contract says: that the calls succeed with ample memory, and that the adapters fit std's readers and
//! writers.
use ls_outside::{
    Call, Clock, Got, MemClock, MemPipe, MemSink, MemSource, Pipe, PlainPipe, PlainSink,
    PlainSource, Put, Sink, Source, write_all,
};
use ls_real::{StdSink, StdSource};
use ls_value::NoMemory;
use std::alloc::{AllocError, Global};
use std::io::{Error, ErrorKind, Read, Result as IoResult, Write};
use std::test::Fail;

/// What so many reads with a piece of 4 bytes answer: the bytes with a dot behind them, or a letter.
fn answers<S: Source>(alloc: Global, source: &mut S, times: usize) -> Result<Vec<u8>, AllocError> {
    let mut said = Vec::new(alloc);
    for _ in 0..times {
        let mut piece = [0u8; 4];
        let mark = match source.read(&mut piece) {
            Got::Bytes(count) => {
                said.extend_from_slice(&piece[..count])?;
                b'.'
            }
            Got::End => b'E',
            Got::NotYet => b'N',
            Got::Failed => b'F',
        };
        said.push(mark)?;
    }
    Ok(said)
}

fn stop_at_cuts(alloc: Global) -> Result<bool, AllocError> {
    let bytes = Vec::from_slice(alloc, b"abcdefghij")?;
    let cuts = Vec::from_slice(alloc, &[0, 3, 4, 4, 2, 9])?;
    let mut source = PlainSource::new(bytes, cuts);
    let said = answers(alloc, &mut source, 6)?;
    let counts = (source.read_faults(), source.idles());
    Ok(said.as_slice() == b"abc.d.efgh.i.j.E".as_slice() && counts == (0, 0))
}

#[test]
fn reads_stop_at_cuts(rt: HostRuntime) -> Result<(), Fail> {
    assert!(rt; stop_at_cuts(rt.alloc())?);
    Ok(())
}

/// How the reads of a test go.
const READS: [Call; 7] = [
    Call::Fail,
    Call::Idle,
    Call::Part(0),
    Call::Part(2),
    Call::Go,
    Call::Part(9),
    Call::Idle,
];

fn reads_go(alloc: Global) -> Result<bool, AllocError> {
    let bytes = Vec::from_slice(alloc, b"abcdefgh")?;
    let mut source = MemSource::new(bytes, Vec::new(alloc), Vec::from_slice(alloc, &READS)?);
    let said = answers(alloc, &mut source, 8)?;
    let counts = (source.read_faults(), source.idles());
    Ok(said.as_slice() == b"FNa.bc.defg.h.NE".as_slice() && counts == (1, 2))
}

#[test]
fn reads_go_by_the_list(rt: HostRuntime) -> Result<(), Fail> {
    assert!(rt; reads_go(rt.alloc())?);
    Ok(())
}

/// How the writes of a test go.
const WRITES: [Call; 6] = [
    Call::Part(1),
    Call::Idle,
    Call::Part(0),
    Call::Part(2),
    Call::Fail,
    Call::Go,
];

fn writes_go(alloc: Global) -> Result<bool, AllocError> {
    let mut sink = MemSink::new(alloc, Vec::from_slice(alloc, &WRITES)?);
    let first = write_all(&mut sink, b"abc");
    let second = write_all(&mut sink, b"defx");
    let third = write_all(&mut sink, b"ghi");
    let is_so = first == Put::Taken(3) && second == Put::Failed && third == Put::Taken(3);
    Ok(is_so && sink.bytes() == b"abcdefghi".as_slice() && sink.write_faults() == 1)
}

#[test]
fn writes_go_by_the_list(rt: HostRuntime) -> Result<(), Fail> {
    assert!(rt; writes_go(rt.alloc())?);
    Ok(())
}

#[test]
fn writes_that_keep_nothing(rt: HostRuntime) {
    let mut sink = PlainSink::new();
    let answer = write_all(&mut sink, b"abc");
    assert!(rt; answer == Put::Taken(3) && sink.taken() == 3 && sink.write_faults() == 0);
}

/// A reader or a writer whose first call gives an error of this kind.
#[derive(Drop)]
struct Faulty<T> {
    inner: T,
    kind: Option<ErrorKind>,
}

impl<T: Read> Read for Faulty<T> {
    fn read(&mut self, buf: &mut [u8]) -> IoResult<usize> {
        match self.kind.take() {
            Some(kind) => Err(Error::from(kind)),
            None => self.inner.read(buf),
        }
    }
}

impl<T: Write> Write for Faulty<T> {
    fn write(&mut self, buf: &[u8]) -> IoResult<usize> {
        match self.kind.take() {
            Some(kind) => Err(Error::from(kind)),
            None => self.inner.write(buf),
        }
    }

    fn flush(&mut self) -> IoResult<()> {
        Ok(())
    }
}

/// What reads answer where the first one gives an error of this kind.
fn reads_after(alloc: Global, kind: ErrorKind) -> Result<Vec<u8>, AllocError> {
    let text: &[u8] = b"abcdef";
    let kind = Some(kind);
    answers(alloc, &mut StdSource::new(Faulty { inner: text, kind }), 4)
}

#[test]
fn reads_of_std(rt: HostRuntime) -> Result<(), Fail> {
    let cases: [(ErrorKind, &[u8]); 3] = [
        (ErrorKind::Interrupted, b"Nabcd.ef.E"),
        (ErrorKind::WouldBlock, b"Nabcd.ef.E"),
        (ErrorKind::TimedOut, b"Fabcd.ef.E"),
    ];
    for (kind, said) in cases {
        assert!(rt; reads_after(rt.alloc(), kind)?.as_slice() == said);
    }
    Ok(())
}

/// What a write of two bytes into room for so many answers, whose first try gives an error of this kind.
fn write_after(kind: ErrorKind, room: &mut [u8]) -> (Put, u64) {
    let kind = Some(kind);
    let mut sink = StdSink::new(Faulty { inner: room, kind });
    let answer = write_all(&mut sink, b"ab");
    (answer, sink.write_faults())
}

#[test]
fn writes_of_std(rt: HostRuntime) {
    let mut room = [0u8; 2];
    assert!(rt; write_after(ErrorKind::Interrupted, &mut room) == (Put::Taken(2), 0));
    assert!(rt; write_after(ErrorKind::BrokenPipe, &mut room) == (Put::Failed, 1));
    // A slice takes bytes until it is full, and then none.
    assert!(rt; write_after(ErrorKind::Interrupted, &mut room[..1]) == (Put::Failed, 1));
    assert!(rt; room == [b'a', b'b']);
}

/// A pipe's faults of reading, its idle calls, and its faults of writing.
fn counts<P: Pipe>(pipe: &P) -> (u64, u64, u64) {
    (pipe.read_faults(), pipe.idles(), pipe.write_faults())
}

/// A pipe whose calls go by the two lists.
fn mem_pipe(alloc: Global) -> Result<MemPipe, AllocError> {
    let bytes = Vec::from_slice(alloc, b"abcdefgh")?;
    let reads = Vec::from_slice(alloc, &READS)?;
    let writes = Vec::from_slice(alloc, &WRITES)?;
    Ok(MemPipe {
        source: MemSource::new(bytes, Vec::new(alloc), reads),
        sink: MemSink::new(alloc, writes),
    })
}

fn both_ways_go(alloc: Global) -> Result<bool, AllocError> {
    let mut pipe = mem_pipe(alloc)?;
    let first = answers(alloc, &mut pipe, 2)?;
    let is_read = first.as_slice() == b"FN".as_slice() && counts(&pipe) == (1, 1, 0);
    let taken = write_all(&mut pipe, b"abc");
    let refused = write_all(&mut pipe, b"defx");
    let is_written = taken == Put::Taken(3) && refused == Put::Failed && counts(&pipe) == (1, 1, 1);
    let rest = answers(alloc, &mut pipe, 6)?;
    let is_left = pipe.sink.bytes() == b"abcdef".as_slice() && counts(&pipe) == (1, 2, 1);
    Ok(is_read && is_written && rest.as_slice() == b"a.bc.defg.h.NE".as_slice() && is_left)
}

#[test]
fn a_pipe_goes_both_ways(rt: HostRuntime) -> Result<(), Fail> {
    assert!(rt; both_ways_go(rt.alloc())?);
    Ok(())
}

fn both_ways_never_fail(alloc: Global) -> Result<bool, AllocError> {
    let mut pipe = PlainPipe {
        source: PlainSource::new(Vec::from_slice(alloc, b"abcdef")?, Vec::new(alloc)),
        sink: PlainSink::new(),
    };
    let first = answers(alloc, &mut pipe, 1)?;
    let answer = write_all(&mut pipe, b"xyz");
    let is_written = answer == Put::Taken(3) && pipe.sink.taken() == 3;
    let rest = answers(alloc, &mut pipe, 2)?;
    let is_read = first.as_slice() == b"abcd.".as_slice() && rest.as_slice() == b"ef.E".as_slice();
    Ok(is_read && is_written && counts(&pipe) == (0, 0, 0))
}

#[test]
fn a_plain_pipe_never_fails(rt: HostRuntime) -> Result<(), Fail> {
    assert!(rt; both_ways_never_fail(rt.alloc())?);
    Ok(())
}

/// What so many calls of a clock tell.
fn told(alloc: Global, clock: &mut MemClock, times: usize) -> Result<Vec<u64>, AllocError> {
    let mut told = Vec::new(alloc);
    for _ in 0..times {
        told.push(clock.now())?;
    }
    Ok(told)
}

/// Lists of ticks, and what clocks tell by them.
const CLOCKS: [(&[u64], &[u64]); 5] = [
    (&[], &[0, 0]),
    (&[5, 8], &[5, 8, 8, 8]),
    (&[5, 3, 6, 0], &[5, 5, 6, 6, 6]),
    (&[1_000_000_000_000_000_000], &[1_000_000_000_000_000_000]),
    (
        &[1_000_000_000_000_000_001, u64::MAX, 7],
        &[
            1_000_000_000_000_000_000,
            1_000_000_000_000_000_000,
            1_000_000_000_000_000_000,
        ],
    ),
];

fn is_told(alloc: Global, ticks: &[u64], expected: &[u64]) -> Result<bool, AllocError> {
    let mut clock = MemClock::new(alloc, Vec::from_slice(alloc, ticks)?);
    let told = told(alloc, &mut clock, expected.len())?;
    Ok(told.as_slice() == expected)
}

#[test]
fn clocks_tell_by_their_lists(rt: HostRuntime) -> Result<(), Fail> {
    for (ticks, expected) in CLOCKS {
        assert!(rt; is_told(rt.alloc(), ticks, expected)?);
    }
    Ok(())
}

#[test]
fn clocks_count_what_they_wait(rt: HostRuntime) {
    let mut clock = MemClock::new(rt.alloc(), Vec::new(rt.alloc()));
    assert!(rt; clock.waited() == 0);
    clock.wait(10);
    clock.wait(5);
    assert!(rt; clock.waited() == 15 && clock.now() == 0);
    clock.wait(u64::MAX);
    assert!(rt; clock.waited() == u64::MAX);
}

fn twins_go_apart(alloc: Global) -> Result<bool, NoMemory> {
    let mut clock = MemClock::new(alloc, Vec::from_slice(alloc, &[4, 2, 9, 12])?);
    let first = clock.now();
    clock.wait(10);
    let mut twin = clock.twin()?;
    let of_twin = told(alloc, &mut twin, 4)?;
    let own = told(alloc, &mut clock, 4)?;
    let is_apart = first == 4 && twin.waited() == 0 && clock.waited() == 10;
    let expected: &[u64] = &[4, 9, 12, 12];
    Ok(is_apart && of_twin.as_slice() == expected && own.as_slice() == expected)
}

#[test]
fn a_twin_tells_the_ticks_to_come(rt: HostRuntime) -> Result<(), Fail> {
    assert!(rt; twins_go_apart(rt.alloc())?);
    Ok(())
}
