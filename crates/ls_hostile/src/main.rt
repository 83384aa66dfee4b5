//! A table of hostile input: bytes that a stranger sends, cut, slow, too long, over a pipe that fails, or where memory is
//! refused. A program of tests, and no part of the server.
//!
//! Each line of the input is a case: what serves the bytes, the way in which they come, and the bytes. Each gives one
//! line of output: how it ended, and what was written. Empty lines and comments, which begin with `#`, give an empty
//! line, so that line n of `stdout` (what is expected, worked out by hand) belongs to line n of `stdin`.
//!
//! | What serves them | |
//! |---|---|
//! | `script` | a run of a script; it ends by its status |
//! | `client` | a client's connection to a new server, which has the item `q MERGE x` |
//! | `socket` | the same after a handshake; what is said to have been written doesn't hold the answer to that |
//! | `feed` | a feed's connection to such a server |
//!
//! | The way | What it says |
//! |---|---|
//! | `whole` | the outcome |
//! | `cut` | what comes where the bytes end at each place: each outcome that differs from the one before, behind the number of bytes from which on it comes |
//! | `slow` and a number | the outcome where the bytes come one by one, and so many reads before the last of them find none yet |
//! | `reads`, `writes` | how many reads of 16 bytes, or writes of 7, there are, if each that fails ends the work by that fault, after a front part of what is written as usual; else the first outcome that isn't so |
//! | `lies` | how it ends over a pipe that isn't honest about its content: it gives pieces of the bytes, which `|` divides. The rest of a piece that a read has no room for is lost, and a piece without a byte is an end |
//! | `memory` | `right`, if the bytes come to the same twice, or once to what may be told where memory is refused |
//!
//! `steps` and a script are a case too: what its lines print, each of whose steps is done again where it is refused memory.
//! So are `calls`, a config, an empty line, and calls of a server: what each call answers, which is made again where it is
//! refused memory.
//! A whole server is a case of several lines, which give empty lines except for the last kind:
//!
//! | Line | |
//! |---|---|
//! | `nobody` | the visitors of earlier lines are forgotten |
//! | `visit feed`, `visit client`, and bytes | one more visitor, who says this |
//! | `told` and bytes | what the last visitor may be told; the first such line has what it is told as usual |
//! | `starved` and bytes | what it may be told where memory was refused |
//! | `serve whole` | `right`, if a server with these visitors ends well, and each is told what it is as usual |
//! | `serve faults` | `right`, if that is so with each read and each write of the visitors' pipes failing in turn, except that one of them is told a front part, and others what they may be told |
//! | `serve memory` | `right`, if it ends well or for want of memory, and each visitor is told what it may be told then |
//! | `serve lies` and pieces | the status of a server without visitors whose config a pipe gives that isn't honest about its content |
//! | `serve reads`, `serve writes` | how many reads of the config, or writes of what the server says, each end it by that fault |
//!
//! `\n` and `\r` are LF and CR, `\\` a backslash, and `\xC3` the byte of these hexadecimal digits, in cases and in what is
//! said. In a case `{9 ab}` is `ab`, nine times.
//!
//! Where memory is refused, the program fails for itself, or a case tells it; the cases whose way is `memory` say the same
//! as ever. `examples/hostile/refused_memory` refuses each allocation in turn.
#![tactic(auto)]

mod calls;
mod failed;
mod lying;
mod served;
mod servers;
mod spelling;
mod steps;
mod visitors;
mod ways;
mod words;

use failed::Failed;
use served::Work;
use spelling::{meant, number, spell};
use std::alloc::Global;
use std::marker::{Send, Sync};
use std::process::ExitCode;
use std::rt::Runtime;
use std::sync::Wait;
use std::thread::Threads;
use visitors::Visitors;
use words::push_end;

/// What serves the bytes of a case.
fn work_of(word: &str) -> Result<Work, Failed> {
    match word {
        "script" => Ok(Work::Script),
        "client" => Ok(Work::Client),
        "socket" => Ok(Work::Socket),
        "feed" => Ok(Work::Feed),
        _ => Err(Failed::BadCase),
    }
}

/// What is said of a case whose bytes come one by one.
fn slow_words<R: Wait>(rt: &R, alloc: Global, work: Work, rest: &str) -> Result<String, Failed> {
    let (idles, input) = rest.split_once(' ').unwrap_or((rest, ""));
    let bytes = meant(alloc, input)?;
    ways::slow(rt, alloc, work, number(idles)?, &bytes)
}

/// What is said of a case whose bytes a liar gives.
fn lies_words<R: Wait>(rt: &R, alloc: Global, work: Work, input: &str) -> Result<String, Failed> {
    let end = lying::end_of(rt, alloc, work, input)?;
    let mut out = String::new(alloc);
    push_end(&mut out, end)?;
    Ok(out)
}

/// What is said of a case of bytes.
fn bytes_words<R: Wait>(rt: &R, alloc: Global, work: Work, rest: &str) -> Result<String, Failed> {
    let (way, input) = rest.split_once(' ').unwrap_or((rest, ""));
    match way {
        "slow" => return slow_words(rt, alloc, work, input),
        "lies" => return lies_words(rt, alloc, work, input),
        _ => {}
    }
    let bytes = meant(alloc, input)?;
    match way {
        "whole" => ways::whole(rt, alloc, work, &bytes),
        "cut" => ways::cut(rt, alloc, work, &bytes),
        "reads" => ways::faults(rt, alloc, work, &bytes, true),
        "writes" => ways::faults(rt, alloc, work, &bytes, false),
        "memory" => ways::memory(rt, alloc, work, &bytes),
        _ => Err(Failed::BadCase),
    }
}

/// What is said of a script whose steps are done again where they are refused memory.
fn steps_words(alloc: Global, input: &str) -> Result<String, Failed> {
    let script = meant(alloc, input)?;
    let mut out = String::new(alloc);
    spell(&mut out, &steps::printed(alloc, &script)?)?;
    Ok(out)
}

/// What the calls of a server answer, each made again where it is refused memory.
fn calls_words<R: Wait>(rt: &R, alloc: Global, input: &str) -> Result<String, Failed> {
    let Some((config, calls)) = input.split_once("\\n\\n") else {
        return Err(Failed::BadCase);
    };
    let config = meant(alloc, config)?;
    let calls = meant(alloc, calls)?;
    let answers = calls::answers(rt, alloc, &config, &calls)?;
    let mut out = String::new(alloc);
    spell(&mut out, answers.as_bytes())?;
    Ok(out)
}

/// What is said of a server with these visitors.
fn server_words<R: Threads + Wait + Copy + Drop + Send + Sync + 'static>(
    rt: &R,
    alloc: Global,
    visitors: &Visitors,
    way: &str,
) -> Result<String, Failed> {
    if let Some(input) = way.strip_prefix("lies ") {
        let mut out = String::new(alloc);
        push_end(&mut out, lying::server_end(rt, alloc, input)?)?;
        return Ok(out);
    }
    match way {
        "whole" => servers::whole(rt, alloc, visitors),
        "faults" => servers::faults(rt, alloc, visitors),
        "memory" => servers::memory(rt, alloc, visitors),
        "reads" => servers::edge_faults(rt, alloc, true),
        "writes" => servers::edge_faults(rt, alloc, false),
        _ => Err(Failed::BadCase),
    }
}

/// One more visitor comes: a feed or a client, and bytes.
fn visit(alloc: Global, visitors: &mut Visitors, rest: &str) -> Result<(), Failed> {
    let (who, input) = rest.split_once(' ').unwrap_or((rest, ""));
    let bytes = meant(alloc, input)?;
    match who {
        "feed" => visitors.visit(true, bytes),
        "client" => visitors.visit(false, bytes),
        _ => Err(Failed::BadCase),
    }
}

/// Takes a line that says who visits a server, and what they may be told. Answers whether it is one.
fn is_taken(
    alloc: Global,
    visitors: &mut Visitors,
    word: &str,
    rest: &str,
) -> Result<bool, Failed> {
    match word {
        "nobody" => *visitors = Visitors::new(alloc),
        "visit" => visit(alloc, visitors, rest)?,
        "told" => visitors.tell(meant(alloc, rest)?)?,
        "starved" => visitors.starve(meant(alloc, rest)?)?,
        _ => return Ok(false),
    }
    Ok(true)
}

/// What is said of a case.
fn answered<R: Threads + Wait + Copy + Drop + Send + Sync + 'static>(
    rt: &R,
    alloc: Global,
    visitors: &mut Visitors,
    case: &str,
) -> Result<String, Failed> {
    let (word, rest) = case.split_once(' ').unwrap_or((case, ""));
    if is_taken(alloc, visitors, word, rest)? {
        return Ok(String::new(alloc));
    }
    match word {
        "serve" => server_words(rt, alloc, visitors, rest),
        "steps" => steps_words(alloc, rest),
        "calls" => calls_words(rt, alloc, rest),
        _ => bytes_words(rt, alloc, work_of(word)?, rest),
    }
}

/// Answers each case of the input.
fn run<R: Runtime + AllocGlobal + Threads + Wait + Copy + Drop + Send + Sync + 'static>(
    rt: &R,
) -> Result<(), Failed> {
    let mut visitors = Visitors::new(rt.alloc());
    for line in rt.lines(rt.alloc()) {
        let line = line?;
        if line.as_str().is_empty() || line.as_str().starts_with('#') {
            println!(rt; "")?;
        } else {
            let text = answered(rt, rt.alloc(), &mut visitors, line.as_str())?;
            println!(rt; "{text}")?;
        }
    }
    Ok(())
}

fn main(rt: HostRuntime) -> ExitCode {
    match run(&rt) {
        Ok(()) => ExitCode::SUCCESS,
        Err(failed) => {
            let _unwritten = eprintln!(rt; "ls_hostile: {}", failed.text());
            ExitCode::FAILURE
        }
    }
}
