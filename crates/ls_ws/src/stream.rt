//! A pipe as std's reader and writer.
ghost use Rattle.std.specs.Prelude.{◌≡◌, []};
ghost use Rattle.std.specs.Io.KnownBytes.{append_known};

use ls_outside::{Got, Pipe, Put};
use ls_wire::{MOST_UNSENT, Unsent, let_go};
use std::alloc::Global;
use std::io;
use std::io::{ErrorKind, Read, Write};

/// A pipe as std's reader and writer, over which a socket works. What is written is held back until it is flushed, or
/// until [`MOST_UNSENT`] bytes would be held. What the pipe tells of its bytes, it tells too: those that were written to
/// the pipe, and then those that are held back.
#[derive(Drop)]
pub(crate) struct Stream<C> {
    pub(crate) pipe: C,
    pub(crate) unsent: Unsent,
}

impl<C: Pipe> Stream<C> {
    /// Over a pipe, to which nothing was written.
    pub(crate) fn over(alloc: Global, pipe: C) -> Stream<C>
        ensures pipe { result.pipe ≡ pipe }
        ensures unsent { result.unsent ≡ [] }
    {
        Stream {
            pipe,
            unsent: Unsent::new(alloc),
        }
    }
}

impl<C: Pipe> Read for Stream<C> {
    ghost remaining = { λ s. C.unread s.pipe };

    fn read(&mut self, buf: &mut [u8]) -> io::Result<usize> {
        if buf.is_empty() {
            return Ok(0);
        }
        match self.pipe.read(buf) {
            Got::Bytes(count) => Ok(count),
            Got::End => Ok(0),
            Got::NotYet => Err(io::Error::from(ErrorKind::WouldBlock)),
            Got::Failed => Err(io::Error::from(ErrorKind::Other)),
        }
    }
}

impl<C: Pipe> Write for Stream<C> {
    ghost contents = { λ s. append_known (C.held s.pipe) s.unsent };

    /// Holds the bytes back. Where there is no memory for them, they are written at once.
    fn write(&mut self, buf: &[u8]) -> io::Result<usize> {
        if self.unsent.bytes().len() + buf.len() > MOST_UNSENT
            && !let_go(&mut self.pipe, &mut self.unsent)
        {
            return Err(io::Error::from(ErrorKind::Other));
        }
        if self.unsent.add(buf).is_ok() {
            return Ok(buf.len());
        }
        if !let_go(&mut self.pipe, &mut self.unsent) {
            return Err(io::Error::from(ErrorKind::Other));
        }
        match self.pipe.write(buf) {
            Put::Taken(count) => Ok(count),
            Put::Failed => Err(io::Error::from(ErrorKind::Other)),
        }
    }

    fn flush(&mut self) -> io::Result<()> {
        if let_go(&mut self.pipe, &mut self.unsent) {
            Ok(())
        } else {
            Err(io::Error::from(ErrorKind::Other))
        }
    }
}
