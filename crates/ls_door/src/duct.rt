//! A pipe of two ends between threads.
ghost use Rattle.std.specs.Prelude.{◌≡◌, ◌≤◌, ◌<◌, IfSome, length, None, false, refl};

use ls_bell::Bell;
use ls_outside::{Got, Pipe, Put, Sink, Source};
use ls_value::NoMemory;
use ls_wake::Wakes;
use std::alloc::Global;
use std::collections::VecDeque;
use std::io::{Read, Write};
use std::sync::{Arc, Mutex, Wait};

/// The bytes that go one way and weren't read yet, and whether no more will come.
#[derive(Drop)]
struct Lane {
    bytes: VecDeque<u8>,
    limit: usize,
    closed: bool,
}

impl Lane {
    /// Takes bytes, as many as there are and fit. Answers how many.
    fn take(&mut self, piece: &mut [u8]) -> usize
        ensures { result ≤ length piece.old }
    {
        self.bytes.read(piece).unwrap_or(0)
    }

    /// Puts bytes from the front of a piece, as many as there is room for. `None` where there is room for none, where
    /// the lane is closed, and for want of memory.
    fn put(&mut self, piece: &[u8]) -> Option<usize>
        ensures fits { IfSome result (λ count. count ≤ length piece.now) }
        ensures some { IfSome result (λ count. 0 < length piece.now → 0 < count) }
    {
        let count = self.limit.saturating_sub(self.bytes.len()).min(piece.len());
        if self.closed || count == 0 && !piece.is_empty() {
            return None;
        }
        match self.bytes.write_all(&piece[..count]) {
            Ok(()) => Some(count),
            Err(_) => None,
        }
    }
}

/// One end of a pipe between threads, for tests. Its bytes stand behind a lock. It tells nothing of them, and contracts
/// see its counts.
///
/// A read that finds no byte is `NotYet`. A write that finds no room is `Failed`. Where one end is dropped, the other
/// reads what is left and then `End`, and its writes are `Failed`.
pub struct Duct<R: Wait> {
    rt: R,
    from: Arc<Mutex<Lane>>,
    to: Arc<Mutex<Lane>>,
    idles: u64,
    write_faults: u64,
}

impl<R: Wait + Drop> Drop for Duct<R> {
    fn drop(self) {
        let Self {
            rt,
            from,
            to,
            idles: _,
            write_faults: _,
        } = self;
        from.lock(&rt).closed = true;
        to.lock(&rt).closed = true;
    }
}

/// A lane without bytes.
fn empty_lane(alloc: Global, limit: usize) -> Result<Arc<Mutex<Lane>>, NoMemory> {
    let lane = Lane {
        bytes: VecDeque::new(alloc),
        limit,
        closed: false,
    };
    Ok(Arc::new(alloc, Mutex::new(lane))?)
}

impl<R: Wait + Copy + Drop> Duct<R> {
    /// The two ends of a pipe. Each way holds at most `limit` bytes that weren't read yet.
    pub fn pair(rt: R, alloc: Global, limit: usize) -> Result<(Duct<R>, Duct<R>), NoMemory> {
        let one = empty_lane(alloc, limit)?;
        let other = empty_lane(alloc, limit)?;
        let near = Duct {
            rt,
            from: Arc::try_clone(&one)?,
            to: Arc::try_clone(&other)?,
            idles: 0,
            write_faults: 0,
        };
        let far = Duct {
            rt,
            from: other,
            to: one,
            idles: 0,
            write_faults: 0,
        };
        Ok((near, far))
    }
}

impl<R: Wait> Source for Duct<R> {
    ghost unread = { λ _. None };

    ghost faults = { λ _. 0 };

    ghost waits = { λ d. d.idles };

    ghost holds = { λ d. record { held = None; faults = d.write_faults } };

    fn read_faults(&self) -> u64 {
        0
    }

    fn idles(&self) -> u64 {
        self.idles
    }

    fn read(&mut self, piece: &mut [u8]) -> Got {
        let mut lane = self.from.lock(&self.rt);
        let count = lane.take(piece);
        let closed = lane.closed;
        drop(lane);
        if count > 0 {
            Got::Bytes(count)
        } else if closed {
            Got::End
        } else {
            self.idles = self.idles.saturating_add(1);
            Got::NotYet
        }
    }
}

impl<R: Wait> Sink for Duct<R> {
    ghost held = { λ _. None };

    ghost faults = { λ d. d.write_faults };

    ghost gives = { λ d. record { unread = None; faults = 0; waits = d.idles } };

    fn write_faults(&self) -> u64 {
        self.write_faults
    }

    fn write(&mut self, piece: &[u8]) -> Put {
        let mut lane = self.to.lock(&self.rt);
        let put = lane.put(piece);
        drop(lane);
        match put {
            Some(count) => Put::Taken(count),
            None => {
                self.write_faults = self.write_faults.saturating_add(1);
                Put::Failed
            }
        }
    }
}

impl<R: Wait> Pipe for Duct<R> {
    ghost sink_is_left = { λ d. refl };

    ghost source_is_left = { λ d. refl };
}

impl<R: Wait> Wakes for Duct<R> {
    fn wake_with(&self, _: &Arc<Bell, Global>) -> bool
        ensures { result ≡ false }
    {
        false
    }
}
