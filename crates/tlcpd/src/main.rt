//! A push server for the protocol TLCP 2.1: the program.
//!
//! `main` has the command line, the real input and output, the system's clock, a door over TCP and a spawner of threads,
//! and hands them to `run` of ls_program: words and objects in, a `Status` out. What `run` promises is said there. For a
//! server it also starts the thread that wakes others when their sockets have bytes, and ends it afterwards.
#![tactic(auto)]

use ls_arguments::information_of;
use ls_door::{STACK_BYTES, Spawner};
use ls_net::{SysClock, TcpDoor, WatchedSockets, Watcher};
use ls_outside::{Put, write_all};
use ls_program::{Status, run};
use ls_real::{StdSink, StdSource};
use std::alloc::Global;
use std::env;
use std::io::{self, ErrorKind};
use std::marker::{Send, Sync};
use std::net::{Net, TcpListener, TcpStream};
use std::process::ExitCode;
use std::rt::Runtime;
use std::sync::{Arc, Wait};
use std::thread::Threads;

/// The words of the command line, without the program's name.
fn read_words<R: Runtime + AllocGlobal>(rt: &R) -> io::Result<Vec<String>> {
    let mut args = env::args(rt)?;
    let _name = args.next();
    let words = args.collect(rt.alloc())?;
    Ok(words)
}

/// Whether the words ask for a server.
fn ask_to_serve(words: &[String]) -> bool {
    match words.first() {
        Some(word) => word.as_str() == "serve",
        None => false,
    }
}

/// The thread that wakes others when their sockets have bytes, where the words ask for a server and the system gives it.
fn watcher_for<R: Threads + Wait + Net + AllocGlobal + Copy + Send + 'static>(
    rt: &R,
    words: &[String],
) -> Option<Watcher> {
    if ask_to_serve(words) {
        Watcher::start(rt, rt.alloc())
    } else {
        None
    }
}

/// What a door is given of a watcher, if there is one.
fn sockets_of(watcher: &Option<Watcher>) -> Option<Arc<WatchedSockets, Global>> {
    watcher.as_ref()?.sockets()
}

/// Runs the program by the words of the command line. Words that aren't text are none of a command.
fn start<
    R: Runtime
        + AllocGlobal
        + Threads
        + Wait
        + Net<Listener = TcpListener, Stream = TcpStream>
        + Copy
        + Send
        + Sync
        + 'static,
>(rt: &R) -> Status {
    let words = match read_words(rt) {
        Ok(words) => words,
        Err(error) if error.kind() == ErrorKind::OutOfMemory => return Status::NoMemory,
        Err(_) => return Status::Usage,
    };
    let mut sink = StdSink::new(io::writer(rt));
    if let Some(information) = information_of(&words) {
        return match write_all(&mut sink, information.text().as_bytes()) {
            Put::Taken(_) => Status::Ok,
            Put::Failed => Status::WriteFault,
        };
    }
    let mut source = StdSource::new(rt.reader());
    let mut clock = SysClock::new(*rt);
    let watcher = watcher_for(rt, &words);
    let mut door = TcpDoor::new(*rt, sockets_of(&watcher));
    let mut spawner = Spawner::threads(rt.alloc(), STACK_BYTES);
    let status = run(
        rt,
        rt.alloc(),
        &words,
        &mut source,
        &mut sink,
        &mut clock,
        &mut door,
        &mut spawner,
    );
    if let Some(watcher) = watcher {
        watcher.settle(rt);
    }
    status
}

fn main(rt: HostRuntime) -> ExitCode {
    let status = start(&rt);
    if status != Status::Ok {
        let _unwritten = eprintln!(rt; "tlcpd: {status}");
    }
    ExitCode::from(status.number())
}
