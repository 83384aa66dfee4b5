//! Doors in memory.
use ls_door::{Door, Heard, MemDoor, PlainDoor, Visit};
use ls_outside::{Got, MemPipe, MemSink, MemSource, PlainPipe, PlainSink, PlainSource, Source};
use std::alloc::{AllocError, Global};
use std::test::Fail;

/// A letter for who came.
fn mark<C: Drop>(visit: Visit<C>) -> u8 {
    match visit {
        Visit::Client(_) => b'c',
        Visit::Feed(_) => b'f',
        Visit::Idle => b'i',
        Visit::Failed => b'x',
    }
}

fn mem_pipe(alloc: Global) -> MemPipe {
    MemPipe {
        source: MemSource::new(Vec::new(alloc), Vec::new(alloc), Vec::new(alloc)),
        sink: MemSink::new(alloc, Vec::new(alloc)),
    }
}

/// A door that fails to listen once, and then has some visitors.
fn a_door(alloc: Global) -> Result<MemDoor, AllocError> {
    let mut listens = Vec::new(alloc);
    listens.push(Heard::Failed)?;
    listens.push(Heard::Ready { port: 7, feed: 8 })?;
    let mut visits = Vec::new(alloc);
    visits.push(Visit::Client(mem_pipe(alloc)))?;
    visits.push(Visit::Failed)?;
    visits.push(Visit::Feed(mem_pipe(alloc)))?;
    Ok(MemDoor::new(listens, visits))
}

fn goes_by_its_lists(alloc: Global) -> Result<bool, AllocError> {
    let mut door = a_door(alloc)?;
    let failed = door.listen(1, 2) == Heard::Failed && door.ports() == (0, 0);
    let listed = door.listen(1, 2) == Heard::Ready { port: 7, feed: 8 } && door.ports() == (7, 8);
    let asked = door.listen(1, 2) == Heard::Ready { port: 1, feed: 2 } && door.ports() == (1, 2);
    let mut marks = [0u8; 5];
    for place in marks.iter_mut() {
        *place = mark(door.accept());
    }
    let counts = (door.faults(), door.idles());
    Ok(failed && listed && asked && marks == *b"cxfii" && counts == (2, 2))
}

#[test]
fn a_door_in_memory_goes_by_its_lists(rt: HostRuntime) -> Result<(), Fail> {
    assert!(rt; goes_by_its_lists(rt.alloc())?);
    Ok(())
}

fn plain_pipe(alloc: Global, bytes: &[u8]) -> Result<PlainPipe, AllocError> {
    Ok(PlainPipe {
        source: PlainSource::new(Vec::from_slice(alloc, bytes)?, Vec::new(alloc)),
        sink: PlainSink::new(),
    })
}

/// Whether a visitor is a client that says nothing.
fn says_nothing(visit: Visit<PlainPipe>) -> bool {
    match visit {
        Visit::Client(mut pipe) => pipe.read(&mut [0u8; 4]) == Got::End,
        _ => false,
    }
}

fn always_has_a_visitor(alloc: Global) -> Result<bool, AllocError> {
    let mut feeds = Vec::new(alloc);
    feeds.push(plain_pipe(alloc, b"feed")?)?;
    let mut clients = Vec::new(alloc);
    clients.push(plain_pipe(alloc, b"client")?)?;
    let mut door = PlainDoor::new(alloc, feeds, clients);
    let heard = door.listen(5, 6) == Heard::Ready { port: 5, feed: 6 } && door.ports() == (5, 6);
    let came = mark(door.accept()) == b'f' && mark(door.accept()) == b'c';
    let quiet = says_nothing(door.accept()) && says_nothing(door.accept());
    Ok(heard && came && quiet && (door.faults(), door.idles()) == (0, 0))
}

#[test]
fn a_plain_door_always_has_a_visitor(rt: HostRuntime) -> Result<(), Fail> {
    assert!(rt; always_has_a_visitor(rt.alloc())?);
    Ok(())
}
