//! A connection.
ghost use Rattle.std.specs.Prelude.{◌≡◌, ◌≤◌, ◌↔◌, IsTrue, IfOk, IfSome, None, false, length, refl};
ghost use Rattle.std.specs.IoError.{error_kind};
ghost use Rattle.ls_net.specs.Sockets.{IsLater};

use crate::backlog::Room;
use crate::watcher::{Seat, WatchedSockets};
use ls_bell::Bell;
use ls_outside::{Got, Pipe, Put, Sink, Source};
use ls_wake::Wakes;
use std::alloc::Global;
use std::io::{Error, ErrorKind, Read, Result, Write};
use std::net::{Shutdown, TcpStream};
use std::os::fd::AsRawFd;
use std::sync::Arc;
use std::time::Duration;

/// How long a write waits for room at most, in ms. So long may a network be away without the loss of a stream; and no
/// longer than this does a client that stopped reading hold a thread with one write.
pub const ROOM_MS: u64 = 5_000;

/// How long a read of a feed waits for a byte at most, in ms. A feed's bytes wake its thread; this is only how often the
/// thread of a feed that says nothing looks at the time.
pub const BYTE_MS: u64 = 1_000;

/// How many pieces of what the peer sends too late are read at most before a connection is closed.
const LATE_PIECES: usize = 64;

/// Whether the call may be made again: it would have had to wait, or a signal interrupted it.
pub(crate) fn is_later(error: &Error) -> bool
    ensures { IsTrue result ↔ IsLater (error_kind error.now) }
{
    error.kind() == ErrorKind::WouldBlock || error.kind() == ErrorKind::Interrupted
}

/// A TCP connection. It tells nothing of its bytes.
///
/// A client's read doesn't wait, and a feed's read waits for a byte, at most `BYTE_MS`: where none is there it is
/// `NotYet`. A write waits for room, at most `ROOM_MS`; after that it is `Failed`, as it is after every other error.
/// Bytes are sent at once (`set_nodelay`). The connection is closed when the pipe is dropped, in stages (RFC 9112, 9.6), so
/// that a peer which still sends gets what was written. What is kept is written first: all of it where writes are to wait,
/// else as much as there is room for.
///
/// A client's pipe that a watcher watches can have a bell called when bytes are there (`Wakes`). Where its writes aren't to
/// wait, it keeps what there is no room for, and waits only for want of memory. A read or a write before which it can't
/// write what it keeps fails; that is so after `ROOM_MS` without enough room, once writes are to wait again.
pub struct TcpPipe {
    stream: TcpStream,
    seat: Seat,
    room: Room,
    waits_for_bytes: bool,
    read_faults: u64,
    idles: u64,
    write_faults: u64,
}

impl Drop for TcpPipe {
    fn drop(self) {
        let TcpPipe {
            mut stream,
            seat: _,
            room,
            waits_for_bytes: _,
            read_faults: _,
            idles: _,
            write_faults: _,
        } = self;
        if room.catch_up(&stream).is_ok() && !room.is_behind() {
            close_in_stages(&mut stream);
        }
    }
}

/// Says that nothing more is written and, where bytes are there that nobody read, reads on: at most `LATE_PIECES` pieces,
/// and until none comes for `BYTE_MS`. With bytes unread the system would reset the connection, and the peer might lose the
/// last reply.
#[inline(never)]
fn close_in_stages(stream: &mut TcpStream) {
    let ended = stream.shutdown(Shutdown::Write);
    if ended.is_err() || stream.set_nonblocking(true).is_err() {
        return;
    }
    let mut piece = [0; 4096];
    for late in 0..LATE_PIECES {
        match stream.read(&mut piece) {
            Ok(count) if count > 0 => {}
            _ => return,
        }
        if late == 0 && stream.set_nonblocking(false).is_err() {
            return;
        }
    }
}

impl TcpPipe {
    /// A pipe over a client's connection, with each count 0, whose socket is one of these, if there are any, once a bell is
    /// named. `Err` where the system doesn't let its options be set; the connection is then closed.
    pub fn over(stream: TcpStream, sockets: Option<Arc<WatchedSockets, Global>>) -> Result<TcpPipe>
        ensures watched { IfOk result (λ p. p.seat.sockets ≡ sockets) }
        ensures counts { IfOk result (λ p. (p.read_faults ≡ 0) × (p.idles ≡ 0) × (p.write_faults ≡ 0)) }
    {
        TcpPipe::set_up(stream, sockets, false)
    }

    /// A pipe over a feed's connection, whose reads wait for a byte, with each count 0. `Err` as of `over`.
    pub fn over_feed(stream: TcpStream) -> Result<TcpPipe>
        ensures unwatched { IfOk result (λ p. p.seat.sockets ≡ None) }
        ensures counts { IfOk result (λ p. (p.read_faults ≡ 0) × (p.idles ≡ 0) × (p.write_faults ≡ 0)) }
    {
        TcpPipe::set_up(stream, None, true)
    }

    /// A pipe whose reads wait for a byte, or don't.
    fn set_up(
        stream: TcpStream,
        sockets: Option<Arc<WatchedSockets, Global>>,
        waits_for_bytes: bool,
    ) -> Result<TcpPipe>
        ensures watched { IfOk result (λ p. p.seat.sockets ≡ sockets) }
        ensures counts { IfOk result (λ p. (p.read_faults ≡ 0) × (p.idles ≡ 0) × (p.write_faults ≡ 0)) }
    {
        stream.set_nodelay(true)?;
        stream.set_read_timeout(Some(Duration::from_millis(BYTE_MS)))?;
        stream.set_write_timeout(Some(Duration::from_millis(ROOM_MS)))?;
        stream.set_nonblocking(!waits_for_bytes)?;
        Ok(TcpPipe {
            stream,
            seat: Seat::with(sockets),
            room: Room::new(),
            waits_for_bytes,
            read_faults: 0,
            idles: 0,
            write_faults: 0,
        })
    }
}

impl Source for TcpPipe {
    ghost unread = { λ _. None };

    ghost faults = { λ p. p.read_faults };

    ghost waits = { λ p. p.idles };

    ghost holds = { λ p. record { held = None; faults = p.write_faults } };

    fn read_faults(&self) -> u64 {
        self.read_faults
    }

    fn idles(&self) -> u64 {
        self.idles
    }

    fn read(&mut self, piece: &mut [u8]) -> Got {
        if self.room.catch_up(&self.stream).is_err() {
            self.read_faults = self.read_faults.saturating_add(1);
            return Got::Failed;
        }
        match self.stream.read(piece) {
            Ok(0) => Got::End,
            Ok(count) => Got::Bytes(count),
            Err(error) => {
                if is_later(&error) {
                    self.idles = self.idles.saturating_add(1);
                    return Got::NotYet;
                }
                self.read_faults = self.read_faults.saturating_add(1);
                Got::Failed
            }
        }
    }
}

/// Writes from the front of a piece. `None` where there is no room: now, or within the stream's time where it blocks.
pub(crate) fn write_now(mut stream: &TcpStream, piece: &[u8]) -> Result<Option<usize>>
    ensures { IfOk result (λ taken. IfSome taken (λ count. count ≤ length piece.now)) }
{
    match stream.write(piece) {
        Ok(count) => Ok(Some(count)),
        Err(error) => {
            if is_later(&error) {
                Ok(None)
            } else {
                Err(error)
            }
        }
    }
}

/// Writes what there is room for. Where there is none it waits, at most `ROOM_MS`, and then takes what room there is: the
/// system ends the wait only once a third of its buffer is free. Whether the stream blocks anyway is said, and stays so.
fn write_waiting(mut stream: &TcpStream, blocks: bool, piece: &[u8]) -> Result<usize>
    ensures { IfOk result (λ count. count ≤ length piece.now) }
{
    if blocks {
        return stream.write(piece);
    }
    if let Some(count) = write_now(stream, piece)? {
        return Ok(count);
    }
    stream.set_nonblocking(false)?;
    let taken = write_now(stream, piece);
    stream.set_nonblocking(true)?;
    match taken? {
        Some(count) => Ok(count),
        None => stream.write(piece),
    }
}

/// Writes from the front of a piece, after what is kept. Where there is no room it waits, or keeps the piece; for want of
/// memory it waits anyway.
fn write_on(stream: &TcpStream, room: &mut Room, blocks: bool, piece: &[u8]) -> Result<usize>
    ensures { IfOk result (λ count. count ≤ length piece.now) }
{
    room.catch_up(stream)?;
    if room.waits() || blocks {
        return write_waiting(stream, blocks, piece);
    }
    if !room.is_behind() {
        if let Some(count) = write_now(stream, piece)? {
            return Ok(count);
        }
    }
    if room.keep(piece) {
        return Ok(piece.len());
    }
    room.write_rest(stream)?;
    write_waiting(stream, false, piece)
}

impl Sink for TcpPipe {
    ghost held = { λ _. None };

    ghost faults = { λ p. p.write_faults };

    ghost gives = { λ p. record { unread = None; faults = p.read_faults; waits = p.idles } };

    fn write_faults(&self) -> u64 {
        self.write_faults
    }

    fn write(&mut self, piece: &[u8]) -> Put {
        match write_on(&self.stream, &mut self.room, self.waits_for_bytes, piece) {
            Ok(count) if count > 0 || piece.is_empty() => Put::Taken(count),
            _ => {
                self.write_faults = self.write_faults.saturating_add(1);
                Put::Failed
            }
        }
    }
}

impl Pipe for TcpPipe {
    ghost sink_is_left = { λ p. refl };

    ghost source_is_left = { λ p. refl };
}

impl Wakes for TcpPipe {
    /// A feed's pipe, and a client's that no watcher watches, calls no bell.
    fn wake_with(&self, bell: &Arc<Bell, Global>) -> bool
        ensures unwatched { self.now.seat.sockets ≡ None → result ≡ false }
    {
        self.seat.take(self.stream.as_raw_fd(), bell)
    }

    /// A feed's pipe waits anyway.
    fn wait_for_room(&self, alloc: Global, waits: bool) {
        self.room.wait(alloc, waits);
    }

    fn is_behind(&self) -> bool {
        self.room.is_behind()
    }

    fn catch_up(&self) -> Option<usize> {
        self.room.write_some(&self.stream).ok()
    }
}
