//! Bells that a watcher calls when a socket has bytes, over loopback.
use ls_door::{Bell, Door, Heard, Visit};
use ls_net::{TcpDoor, TcpPipe, Watcher};
use ls_outside::{Got, Source};
use ls_wake::Wakes;
use std::io::Write;
use std::net::{Net, TcpListener, TcpStream};
use std::sync::{Arc, Wait};
use std::test::*;
use std::thread;

/// How often a test looks for a visitor or for bytes, before it is marked as failed.
const MOST_LOOKS: u64 = 10_000_000;

/// How often a test waits for a call, 10 ms at most, before it is marked as failed.
const MOST_WAITS: u32 = 1_000;

/// How many ms a test waits for a call that isn't to come.
const QUIET_MS: u64 = 20;

/// Whether a bell is called beyond this count.
fn is_called<R: Wait>(rt: &R, bell: &Bell, heard: u64) -> bool {
    for _ in 0..MOST_WAITS {
        let seen = bell.rings();
        if bell.calls() != heard {
            return true;
        }
        bell.wait(rt, seen, 10);
    }
    false
}

/// The next answer other than `NotYet`.
fn next_read(pipe: &mut TcpPipe, piece: &mut [u8; 1]) -> Got {
    for _ in 0..MOST_LOOKS {
        match pipe.read(piece) {
            Got::NotYet => thread::yield_now(),
            answer => return answer,
        }
    }
    Got::NotYet
}

/// The pipe of the client that comes next.
fn next_client<R: Net<Listener = TcpListener, Stream = TcpStream> + Drop>(
    door: &mut TcpDoor<R>,
) -> Option<TcpPipe> {
    for _ in 0..MOST_LOOKS {
        match door.accept() {
            Visit::Client(pipe) => return Some(pipe),
            Visit::Idle => thread::yield_now(),
            Visit::Feed(_) | Visit::Failed => return None,
        }
    }
    None
}

/// A client that is connected, and the server's pipe to it.
fn connected<R: Net<Listener = TcpListener, Stream = TcpStream> + Drop>(
    rt: &R,
    door: &mut TcpDoor<R>,
) -> Option<(TcpStream, TcpPipe)> {
    let port = door.ports().0;
    let client = TcpStream::connect(rt, ("127.0.0.1", port)).ok()?;
    let pipe = next_client(door)?;
    Some((client, pipe))
}

#[test]
fn bytes_and_a_close_call_the_bell(rt: HostRuntime) -> Result<(), Fail> {
    let watcher = Watcher::start(&rt, rt.alloc()).expect(&rt, "a watcher starts");
    let sockets = watcher.sockets().expect(&rt, "there is a hold on it");
    let mut door = TcpDoor::new(rt, watcher.sockets());
    assert!(rt; matches!(door.listen(0, 0), Heard::Ready { .. }));
    let (mut client, mut pipe) = connected(&rt, &mut door).expect(&rt, "a client comes");
    let bell = Arc::new(rt.alloc(), Bell::new())?;
    let mut piece = [0u8; 1];
    assert!(rt; pipe.wake_with(&bell) && sockets.watched() == 1);
    assert!(rt; pipe.read(&mut piece) == Got::NotYet);
    let heard = bell.calls();
    bell.wait(&rt, bell.rings(), QUIET_MS);
    assert!(rt; bell.calls() == heard);
    client.write_all(b"a").expect(&rt, "the client writes");
    assert!(rt; is_called(&rt, &bell, heard));
    assert!(rt; next_read(&mut pipe, &mut piece) == Got::Bytes(1) && piece == *b"a");
    assert!(rt; pipe.read(&mut piece) == Got::NotYet);
    let heard = bell.calls();
    drop(client);
    assert!(rt; is_called(&rt, &bell, heard));
    assert!(rt; next_read(&mut pipe, &mut piece) == Got::End);
    drop(pipe);
    assert!(rt; sockets.watched() == 0);
    watcher.settle(&rt);
    Ok(())
}

#[test]
fn bytes_that_are_there_already_call_the_bell(rt: HostRuntime) -> Result<(), Fail> {
    let watcher = Watcher::start(&rt, rt.alloc()).expect(&rt, "a watcher starts");
    let sockets = watcher.sockets().expect(&rt, "there is a hold on it");
    let mut door = TcpDoor::new(rt, watcher.sockets());
    assert!(rt; matches!(door.listen(0, 0), Heard::Ready { .. }));
    let (mut client, mut pipe) = connected(&rt, &mut door).expect(&rt, "a client comes");
    let mut piece = [0u8; 1];
    client.write_all(b"abc").expect(&rt, "the client writes");
    assert!(rt; next_read(&mut pipe, &mut piece) == Got::Bytes(1) && piece == *b"a");
    let first = Arc::new(rt.alloc(), Bell::new())?;
    assert!(rt; pipe.wake_with(&first) && is_called(&rt, &first, 0));
    let second = Arc::new(rt.alloc(), Bell::new())?;
    assert!(rt; pipe.wake_with(&second) && is_called(&rt, &second, 0));
    assert!(rt; sockets.watched() == 1);
    let heard = first.calls();
    let second_heard = second.calls();
    client.write_all(b"d").expect(&rt, "the client writes");
    assert!(rt; is_called(&rt, &second, second_heard) && first.calls() == heard);
    drop(pipe);
    assert!(rt; sockets.watched() == 0);
    watcher.settle(&rt);
    Ok(())
}

#[test]
fn without_a_watcher_no_bell_is_called(rt: HostRuntime) -> Result<(), Fail> {
    let bell = Arc::new(rt.alloc(), Bell::new())?;
    let mut unwatched = TcpDoor::new(rt, None);
    assert!(rt; matches!(unwatched.listen(0, 0), Heard::Ready { .. }));
    let (one, pipe) = connected(&rt, &mut unwatched).expect(&rt, "a client comes");
    assert!(rt; !pipe.wake_with(&bell));
    let watcher = Watcher::start(&rt, rt.alloc()).expect(&rt, "a watcher starts");
    let sockets = watcher.sockets().expect(&rt, "there is a hold on it");
    let mut door = TcpDoor::new(rt, watcher.sockets());
    assert!(rt; matches!(door.listen(0, 0), Heard::Ready { .. }));
    let (other, pipe) = connected(&rt, &mut door).expect(&rt, "a client comes");
    watcher.settle(&rt);
    assert!(rt; sockets.is_over() && !pipe.wake_with(&bell) && sockets.watched() == 0);
    drop(one);
    drop(other);
    Ok(())
}

#[test]
fn a_visitor_calls_the_doors_bell(rt: HostRuntime) -> Result<(), Fail> {
    let watcher = Watcher::start(&rt, rt.alloc()).expect(&rt, "a watcher starts");
    let sockets = watcher.sockets().expect(&rt, "there is a hold on it");
    let mut door = TcpDoor::new(rt, watcher.sockets());
    let bell = Arc::new(rt.alloc(), Bell::new())?;
    assert!(rt; !door.wake_with(&bell));
    assert!(rt; matches!(door.listen(0, 0), Heard::Ready { .. }));
    assert!(rt; door.wake_with(&bell) && sockets.watched() == 2);
    let (port, feed) = door.ports();
    let heard = bell.calls();
    let client = TcpStream::connect(&rt, ("127.0.0.1", port)).expect(&rt, "a client comes");
    assert!(rt; is_called(&rt, &bell, heard));
    let pipe = next_client(&mut door).expect(&rt, "the client is let in");
    let heard = bell.calls();
    let publisher = TcpStream::connect(&rt, ("127.0.0.1", feed)).expect(&rt, "a feed comes");
    assert!(rt; is_called(&rt, &bell, heard));
    drop(pipe);
    drop(client);
    drop(publisher);
    drop(door);
    assert!(rt; sockets.watched() == 0);
    watcher.settle(&rt);
    Ok(())
}
