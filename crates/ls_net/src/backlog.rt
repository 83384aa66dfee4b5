//! What a peer had no room for.

use crate::pipe::write_now;
use std::alloc::{AllocError, Global};
use std::cell::Cell;
use std::io::{self, ErrorKind};
use std::net::TcpStream;

/// Bytes of writes for which the peer had no room yet, in order.
#[derive(Drop)]
struct Backlog {
    bytes: Vec<u8>,
    sent: usize,
}

impl Backlog {
    /// Keeps some more. After a refusal none of them.
    fn keep(&mut self, piece: &[u8]) -> Result<(), AllocError> {
        self.bytes.extend_from_slice(piece)
    }

    /// Whether none are kept.
    fn is_empty(&self) -> bool {
        self.bytes.is_empty()
    }

    /// Writes them from the front, as far as there is room, and answers how many were written.
    fn write_to(&mut self, stream: &TcpStream) -> io::Result<usize> {
        let Some(rest) = self.bytes.get(self.sent..) else {
            return Ok(0);
        };
        let left = rest.len();
        let count = write_now(stream, rest)?.unwrap_or(0);
        if count < left {
            self.sent = self.sent.saturating_add(count);
        } else {
            self.bytes.clear();
            self.sent = 0;
        }
        Ok(count)
    }
}

/// Whether writes wait for room, and what is kept because they don't.
#[derive(Drop)]
pub(crate) struct Room {
    waits: Cell<bool>,
    is_behind: Cell<bool>,
    backlog: Cell<Option<Backlog>>,
}

impl Room {
    /// Writes wait, and nothing is kept.
    pub(crate) fn new() -> Room {
        Room {
            waits: Cell::new(true),
            is_behind: Cell::new(false),
            backlog: Cell::new(None),
        }
    }

    /// Has writes wait from now on, or not.
    pub(crate) fn wait(&self, alloc: Global, waits: bool) {
        self.waits.set(waits);
        if self.is_behind.get() {
            return;
        }
        let empty = Backlog {
            bytes: Vec::new(alloc),
            sent: 0,
        };
        self.backlog.set(Some(empty));
    }

    /// Whether writes wait.
    pub(crate) fn waits(&self) -> bool {
        self.waits.get()
    }

    /// Whether something is kept.
    pub(crate) fn is_behind(&self) -> bool {
        self.is_behind.get()
    }

    /// Keeps a piece behind what is kept. Answers whether there was memory for it.
    pub(crate) fn keep(&mut self, piece: &[u8]) -> bool {
        let Some(backlog) = self.backlog.get_mut() else {
            return false;
        };
        if backlog.keep(piece).is_err() {
            return false;
        }
        self.is_behind.set(true);
        true
    }

    /// Writes what is kept: all of it where writes wait, else as much as there is room for.
    pub(crate) fn catch_up(&self, stream: &TcpStream) -> io::Result<()> {
        if self.waits() {
            return self.write_rest(stream);
        }
        self.write_some(stream)?;
        Ok(())
    }

    /// Writes what is kept, as far as there is room at once, and answers how many bytes were written.
    pub(crate) fn write_some(&self, stream: &TcpStream) -> io::Result<usize> {
        if !self.is_behind() {
            return Ok(0);
        }
        let Some(mut backlog) = self.backlog.replace(None) else {
            return Ok(0);
        };
        let written = backlog.write_to(stream);
        self.is_behind.set(!backlog.is_empty());
        self.backlog.set(Some(backlog));
        written
    }

    /// Writes all that is kept to a stream that doesn't block, and waits for room. Room that was too little to end the wait
    /// is used too.
    pub(crate) fn write_rest(&self, stream: &TcpStream) -> io::Result<()> {
        if !self.is_behind() {
            return Ok(());
        }
        stream.set_nonblocking(false)?;
        let written = self.write_some(stream);
        stream.set_nonblocking(true)?;
        written?;
        self.write_some(stream)?;
        if self.is_behind() {
            return Err(io::Error::from(ErrorKind::TimedOut));
        }
        Ok(())
    }
}
