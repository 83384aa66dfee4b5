//! The door, the pipes and the clock of the system, over loopback.
use ls_door::{Door, Heard, Visit};
use ls_net::{SysClock, TcpDoor, TcpPipe};
use ls_outside::{Clock, Got, Put, Sink, Source, write_all};
use ls_wake::Wakes;
use std::alloc::{AllocError, Global};
use std::io::{Read, Write};
use std::net::TcpStream;
use std::test::*;
use std::thread;

/// How often a test looks whether something came over a socket, before it is marked as failed.
const MOST_LOOKS: u64 = 10_000_000;

/// Who came.
#[derive(Drop)]
enum Visitor<C> {
    Client(C),
    Feed(C),
}

/// Who comes next, if someone does.
fn next<D: Door>(door: &mut D) -> Option<Visitor<D::Conn>> {
    for _ in 0..MOST_LOOKS {
        match door.accept() {
            Visit::Client(conn) => return Some(Visitor::Client(conn)),
            Visit::Feed(conn) => return Some(Visitor::Feed(conn)),
            Visit::Idle => thread::yield_now(),
            Visit::Failed => return None,
        }
    }
    None
}

/// The client that comes next.
fn next_client<D: Door>(door: &mut D) -> Option<D::Conn> {
    match next(door) {
        Some(Visitor::Client(conn)) => Some(conn),
        _ => None,
    }
}

/// Whether the next one is a feed.
fn is_feed_next<D: Door>(door: &mut D) -> bool {
    matches!(next(door), Some(Visitor::Feed(_)))
}

/// The next answer other than `NotYet`.
fn next_read<S: Source>(source: &mut S, piece: &mut [u8; 8]) -> Got {
    for _ in 0..MOST_LOOKS {
        match source.read(piece) {
            Got::NotYet => thread::yield_now(),
            answer => return answer,
        }
    }
    Got::NotYet
}

#[test]
fn a_door_lets_clients_and_feeds_in(rt: HostRuntime) {
    let mut door = TcpDoor::new(rt, None);
    assert!(rt; matches!(door.accept(), Visit::Idle) && door.idles() == 1);
    let Heard::Ready { port, feed } = door.listen(0, 0) else {
        panic!(rt; "it doesn't listen")
    };
    assert!(rt; door.ports() == (port, feed) && port != 0 && feed != 0 && port != feed);
    assert!(rt; matches!(door.accept(), Visit::Idle) && door.idles() == 2);
    let one = TcpStream::connect(&rt, ("127.0.0.1", feed)).expect(&rt, "a feed connects");
    assert!(rt; is_feed_next(&mut door));
    let two = TcpStream::connect(&rt, ("127.0.0.2", port)).expect(&rt, "a client connects");
    assert!(rt; next_client(&mut door).is_some());
    assert!(rt; TcpStream::connect(&rt, ("127.0.0.2", feed)).is_err());
    assert!(rt; door.listen(port, feed) == Heard::Failed);
    assert!(rt; door.faults() == 1 && door.ports() == (port, feed));
    drop(one);
    drop(two);
}

#[test]
fn a_pipe_reads_and_writes(rt: HostRuntime) {
    let mut door = TcpDoor::new(rt, None);
    let Heard::Ready { port, .. } = door.listen(0, 0) else {
        panic!(rt; "it doesn't listen")
    };
    let mut client = TcpStream::connect(&rt, ("127.0.0.1", port)).expect(&rt, "a client connects");
    let Some(mut pipe) = next_client(&mut door) else {
        panic!(rt; "no client came")
    };
    let mut piece = [0u8; 8];
    assert!(rt; pipe.read(&mut piece) == Got::NotYet && pipe.idles() == 1);
    client.write_all(b"abc").expect(&rt, "the client writes");
    assert!(rt; next_read(&mut pipe, &mut piece) == Got::Bytes(3) && piece.starts_with(b"abc"));
    assert!(rt; write_all(&mut pipe, b"defg") == Put::Taken(4));
    client
        .read_exact(&mut piece[..4])
        .expect(&rt, "the client reads");
    assert!(rt; piece.starts_with(b"defg"));
    drop(client);
    assert!(rt; next_read(&mut pipe, &mut piece) == Got::End);
    assert!(rt; pipe.read_faults() == 0 && pipe.write_faults() == 0);
}

/// Writes as long as the other side has room. Answers whether a write then failed.
fn is_full_at_last(pipe: &mut TcpPipe, piece: &[u8]) -> bool {
    for _ in 0..10_000 {
        if pipe.write(piece) == Put::Failed {
            return true;
        }
    }
    false
}

#[test]
fn a_client_that_does_not_read_is_given_up(rt: HostRuntime) -> Result<(), Fail> {
    let mut door = TcpDoor::new(rt, None);
    let Heard::Ready { port, .. } = door.listen(0, 0) else {
        panic!(rt; "it doesn't listen")
    };
    let client = TcpStream::connect(&rt, ("127.0.0.1", port)).expect(&rt, "a client connects");
    let Some(mut pipe) = next_client(&mut door) else {
        panic!(rt; "no client came")
    };
    let mut piece = Vec::new(rt.alloc());
    for _ in 0..65_536 {
        piece.push(b'x')?;
    }
    assert!(rt; is_full_at_last(&mut pipe, &piece) && pipe.write_faults() == 1);
    assert!(rt; pipe.read(&mut [0u8; 1]) == Got::NotYet);
    drop(client);
    Ok(())
}

/// How many bytes a piece has.
const PIECE: usize = 65_536;

/// More pieces than the system and a pipe keep for a peer that reads nothing, two more among them.
const MOST_PIECES: u8 = 16;

/// A piece whose bytes are all its number.
fn piece_of(alloc: Global, number: u8) -> Result<Vec<u8>, AllocError> {
    let mut piece = Vec::with_capacity(alloc, PIECE)?;
    for _ in 0..PIECE {
        piece.push(number)?;
    }
    Ok(piece)
}

/// Writes pieces to a pipe whose writes don't wait until it is behind, and two more. Answers how many they are.
fn pieces_until_behind(alloc: Global, pipe: &mut TcpPipe) -> Result<u8, AllocError> {
    let mut more: u8 = 2;
    for number in 0..250 {
        let piece = piece_of(alloc, number)?;
        if more == 0 || write_all(pipe, &piece) == Put::Failed {
            return Ok(number);
        }
        if pipe.is_behind() {
            more = more.saturating_sub(1);
        }
    }
    Ok(250)
}

/// Whether a client reads these pieces and no more, while the pipe is read.
fn are_read(pipe: &mut TcpPipe, client: &mut TcpStream, pieces: u8) -> bool {
    let mut part = [0u8; 4096];
    let mut at: usize = 0;
    for _ in 0..MOST_LOOKS {
        if at >= pieces as usize * PIECE {
            return at == pieces as usize * PIECE;
        }
        if pipe.read(&mut [0u8; 1]) != Got::NotYet {
            return false;
        }
        let count = client.read(&mut part).unwrap_or(0);
        for byte in part.iter().take(count) {
            if *byte as usize != at / PIECE {
                return false;
            }
            at = at.saturating_add(1);
        }
        if count == 0 {
            return false;
        }
    }
    false
}

#[test]
fn a_write_that_is_not_to_wait_is_kept_and_written_later(rt: HostRuntime) -> Result<(), Fail> {
    let mut door = TcpDoor::new(rt, None);
    let Heard::Ready { port, .. } = door.listen(0, 0) else {
        panic!(rt; "it doesn't listen")
    };
    let mut client = TcpStream::connect(&rt, ("127.0.0.1", port)).expect(&rt, "a client connects");
    let Some(mut pipe) = next_client(&mut door) else {
        panic!(rt; "no client came")
    };
    assert!(rt; !pipe.is_behind());
    pipe.wait_for_room(rt.alloc(), false);
    let pieces = pieces_until_behind(rt.alloc(), &mut pipe)?;
    assert!(rt; pipe.is_behind() && pieces < MOST_PIECES);
    pipe.wait_for_room(rt.alloc(), true);
    pipe.wait_for_room(rt.alloc(), false);
    assert!(rt; are_read(&mut pipe, &mut client, pieces));
    assert!(rt; !pipe.is_behind() && pipe.write_faults() == 0 && pipe.read_faults() == 0);
    Ok(())
}

/// Whether a pipe that is behind writes all that it keeps in the end, while a client reads these pieces, and nothing while
/// the client doesn't.
fn catches_up(pipe: &mut TcpPipe, client: &mut TcpStream, pieces: u8) -> bool {
    let mut part = [0u8; 4096];
    let mut left = pieces as usize * PIECE;
    let mut written: usize = 0;
    if pipe.catch_up() != Some(0) {
        return false;
    }
    for _ in 0..MOST_LOOKS {
        if left == 0 {
            return !pipe.is_behind() && written > 0 && pipe.catch_up() == Some(0);
        }
        let Some(count) = pipe.catch_up() else {
            return false;
        };
        written = written.saturating_add(count);
        let Ok(count) = client.read(&mut part) else {
            return false;
        };
        left = left.saturating_sub(count);
    }
    false
}

#[test]
fn what_is_kept_is_written_as_soon_as_there_is_room(rt: HostRuntime) -> Result<(), Fail> {
    let mut door = TcpDoor::new(rt, None);
    let Heard::Ready { port, .. } = door.listen(0, 0) else {
        panic!(rt; "it doesn't listen")
    };
    let mut client = TcpStream::connect(&rt, ("127.0.0.1", port)).expect(&rt, "a client connects");
    let Some(mut pipe) = next_client(&mut door) else {
        panic!(rt; "no client came")
    };
    pipe.wait_for_room(rt.alloc(), false);
    let pieces = pieces_until_behind(rt.alloc(), &mut pipe)?;
    assert!(rt; pipe.is_behind());
    assert!(rt; catches_up(&mut pipe, &mut client, pieces));
    let pieces = pieces_until_behind(rt.alloc(), &mut pipe)?;
    assert!(rt; pipe.is_behind() && pieces < MOST_PIECES);
    drop(client);
    assert!(rt; pipe.catch_up() == None && pipe.read(&mut [0u8; 1]) == Got::Failed);
    assert!(rt; pipe.read_faults() == 1 && pipe.write_faults() == 0);
    Ok(())
}

#[test]
fn the_systems_clock_does_not_go_back(rt: HostRuntime) -> Result<(), Fail> {
    let mut clock = SysClock::new(rt);
    let first = clock.now();
    clock.wait(5);
    let second = clock.now();
    let mut twin = clock.twin()?;
    assert!(rt; first < second && second <= twin.now());
    Ok(())
}
