//! How servers end, by their words, their config, their door, and reads and writes that fail; and how soaks end.
use crate::running::{Calls, Input, ran};
use ls_door::{Heard, MemDoor, Spawner};
use ls_outside::Call;
use ls_program::Status;
use std::alloc::{AllocError, Global};
use std::marker::{Send, Sync};
use std::sync::Wait;
use std::test::Fail;
use std::thread::Threads;

/// A server over memory to which nobody comes: its words and its config, how reads, writes and `listen` go, and what is
/// to come of it.
#[derive(Drop)]
struct Case {
    words: &'static str,
    config: &'static [u8],
    reads: &'static [Calls],
    writes: &'static [Calls],
    listens: &'static [Heard],
    ticks: &'static [u64],
    status: Status,
    written: &'static [u8],
}

/// Whether a case ends as it says.
fn holds<R: Threads + Wait + Copy + Send + Sync + 'static>(
    rt: &R,
    alloc: Global,
    case: &Case,
) -> Result<bool, AllocError> {
    let input = Input {
        words: case.words,
        bytes: case.config,
        reads: case.reads,
        writes: case.writes,
        ticks: case.ticks,
    };
    let mut door = MemDoor::new(Vec::from_slice(alloc, case.listens)?, Vec::new(alloc));
    let mut spawner = Spawner::at_once(alloc);
    let (status, sink) = ran(rt, alloc, &input, &mut door, &mut spawner)?;
    Ok(status == case.status && sink.bytes() == case.written)
}

/// The first case that ends otherwise, by its number from 0.
fn first_wrong<R: Threads + Wait + Copy + Send + Sync + 'static>(
    rt: &R,
    alloc: Global,
    cases: &[Case],
) -> Result<Option<usize>, AllocError> {
    for (number, case) in cases.iter().enumerate() {
        if !holds(rt, alloc, case)? {
            return Ok(Some(number));
        }
    }
    Ok(None)
}

/// A config.
const CONFIG: &[u8] =
    b"set S\n\n# two items\nquote MERGE last,time\nbook COMMAND key,command,qty\n";

/// Servers whose clock is at the end from the beginning.
const ENDED: [Case; 9] = [
    Case {
        words: "serve 8080 9090 0",
        config: CONFIG,
        reads: &[],
        writes: &[],
        listens: &[],
        ticks: &[],
        status: Status::Ok,
        written: b"listening 8080 9090\nstopped\n",
    },
    Case {
        words: "serve 0 0 999999999999999999",
        config: b"",
        reads: &[(Call::Idle, 2999)],
        writes: &[(Call::Part(3), 2)],
        listens: &[Heard::Ready {
            port: 65_535,
            feed: 1,
        }],
        ticks: &[1_000_000_000_000_000_000],
        status: Status::Ok,
        written: b"listening 65535 1\nstopped\n",
    },
    Case {
        words: "serve 0 0 5",
        config: b"quote MERGE last,time\nbook COMMAND key,qty\n",
        reads: &[(Call::Part(9), 3)],
        writes: &[],
        listens: &[],
        ticks: &[5],
        status: Status::BadConfig { line: 2 },
        written: b"",
    },
    Case {
        words: "serve 0 0 5",
        config: CONFIG,
        reads: &[],
        writes: &[],
        listens: &[Heard::Failed],
        ticks: &[5],
        status: Status::DoorFault,
        written: b"",
    },
    Case {
        words: "serve 0 0 5",
        config: b"stop",
        reads: &[(Call::Part(2), 1), (Call::Idle, 1), (Call::Fail, 1)],
        writes: &[],
        listens: &[],
        ticks: &[5],
        status: Status::ReadFault,
        written: b"",
    },
    Case {
        words: "serve 0 0 5",
        config: CONFIG,
        reads: &[(Call::Part(7), 1), (Call::Idle, 3000)],
        writes: &[],
        listens: &[],
        ticks: &[5],
        status: Status::ReadFault,
        written: b"",
    },
    Case {
        words: "serve 1 2 5",
        config: CONFIG,
        reads: &[],
        writes: &[(Call::Part(4), 1), (Call::Fail, 1)],
        listens: &[],
        ticks: &[5],
        status: Status::WriteFault,
        written: b"list",
    },
    Case {
        words: "serve 1 2 5",
        config: CONFIG,
        reads: &[],
        writes: &[(Call::Go, 1), (Call::Part(3), 1), (Call::Fail, 1)],
        listens: &[],
        ticks: &[5],
        status: Status::WriteFault,
        written: b"listening 1 2\nsto",
    },
    Case {
        words: "replay",
        config: b"item q MERGE x\npub 1 1 q x=A\n",
        reads: &[],
        writes: &[],
        listens: &[],
        ticks: &[],
        status: Status::Ok,
        written: b"-no 1\n",
    },
];

#[test]
fn each_end_has_its_cause(rt: HostRuntime) -> Result<(), Fail> {
    assert!(rt; first_wrong(&rt, rt.alloc(), &ENDED)?.is_none());
    Ok(())
}

/// Servers whose clock goes on, and to which nobody comes.
const WAITING: [Case; 1] = [Case {
    words: "serve 8080 9090 7",
    config: CONFIG,
    reads: &[],
    writes: &[],
    listens: &[],
    ticks: &[0, 3, 6, 9],
    status: Status::Ok,
    written: b"listening 8080 9090\nstopped\n",
}];

#[test]
fn a_server_waits_for_its_end(rt: HostRuntime) -> Result<(), Fail> {
    assert!(rt; first_wrong(&rt, rt.alloc(), &WAITING)?.is_none());
    Ok(())
}

/// The words of a soak, how writes go, how it ends, and what is written.
type Soak = (&'static str, &'static [Calls], Status, &'static [u8]);

/// Soaks that are done, and soaks whose writes fail.
const SOAKS: [Soak; 10] = [
    (
        "soak 7 0",
        &[],
        Status::Ok,
        b"steps 0\nlines 6\nupdates 0\n",
    ),
    (
        "soak 7 1",
        &[],
        Status::Ok,
        b"steps 1\nlines 7\nupdates 0\n",
    ),
    (
        "soak 0 100",
        &[],
        Status::Ok,
        b"steps 100\nlines 150\nupdates 3\n",
    ),
    (
        "soak 7 100",
        &[],
        Status::Ok,
        b"steps 100\nlines 176\nupdates 10\n",
    ),
    (
        "soak 999999999999999999 50",
        &[(Call::Part(1), 9)],
        Status::Ok,
        b"steps 50\nlines 90\nupdates 5\n",
    ),
    (
        "soak 1 1000",
        &[],
        Status::Ok,
        b"steps 1000\nlines 1839\nupdates 318\n",
    ),
    (
        "soak 2 1000",
        &[],
        Status::Ok,
        b"steps 1000\nlines 1765\nupdates 249\n",
    ),
    ("soak 7 0", &[(Call::Fail, 1)], Status::WriteFault, b""),
    (
        "soak 7 0",
        &[(Call::Part(9), 1), (Call::Fail, 1)],
        Status::WriteFault,
        b"steps 0\nl",
    ),
    (
        "soak 7 1",
        &[(Call::Part(13), 1), (Call::Part(11), 1), (Call::Fail, 1)],
        Status::WriteFault,
        b"steps 1\nlines 7\nupdates ",
    ),
];

/// Whether a soak ends so. No read would succeed, and the door wouldn't listen.
fn soak_holds<R: Threads + Wait + Copy + Send + Sync + 'static>(
    rt: &R,
    alloc: Global,
    soak: &Soak,
) -> Result<bool, AllocError> {
    let (words, writes, status, written) = *soak;
    let case = Case {
        words,
        config: CONFIG,
        reads: &[(Call::Fail, 1)],
        writes,
        listens: &[Heard::Failed],
        ticks: &[],
        status,
        written,
    };
    holds(rt, alloc, &case)
}

#[test]
fn a_soak_tells_what_it_counted(rt: HostRuntime) -> Result<(), Fail> {
    for soak in SOAKS {
        assert!(rt; soak_holds(&rt, rt.alloc(), &soak)?);
    }
    Ok(())
}

/// Words that are none of a command.
const NO_COMMAND: [&str; 39] = [
    "",
    "-x",
    "--help",
    "serve",
    "serves 0 0",
    "serve 0",
    "serve 0 0 0 0",
    "serve x 0",
    "serve 0 x 0",
    "serve 0 0 x",
    "serve 65536 0",
    "serve 0 65536",
    "serve 00 0",
    "serve 0 01",
    "serve 0 0 00",
    "serve -1 0",
    "serve 0 0 -1",
    "serve 0 0 1000000000000000000",
    "serve 0  0",
    "replay 0",
    "soak",
    "soak 7",
    "soak 7 0 0",
    "soaks 7 0",
    "Soak 7 0",
    " soak 7 0",
    "soak  7 0",
    "soak 7 0 ",
    "soak x 0",
    "soak 7 x",
    "soak 07 0",
    "soak 7 00",
    "soak +7 0",
    "soak -1 0",
    "soak 7 -1",
    "soak 1000000000000000000 0",
    "soak 7 1000001",
    "-h soak 7 0",
    "soak 7 0 --help",
];

/// Whether words are answered as none of a command, and nothing is read or written.
fn is_usage<R: Threads + Wait + Copy + Send + Sync + 'static>(
    rt: &R,
    alloc: Global,
    words: &'static str,
) -> Result<bool, AllocError> {
    let case = Case {
        words,
        config: CONFIG,
        reads: &[(Call::Fail, 1)],
        writes: &[(Call::Fail, 1)],
        listens: &[Heard::Failed],
        ticks: &[],
        status: Status::Usage,
        written: b"",
    };
    holds(rt, alloc, &case)
}

#[test]
fn words_of_no_command(rt: HostRuntime) -> Result<(), Fail> {
    for words in NO_COMMAND {
        assert!(rt; is_usage(&rt, rt.alloc(), words)?);
    }
    Ok(())
}
