//! A pipe that is lent.
ghost use Rattle.std.specs.Prelude.{◌≡◌};

use ls_bell::Bell;
use ls_outside::{Got, Pipe, Put, Sink, Source};
use ls_wake::Wakes;
use std::alloc::Global;
use std::sync::Arc;

/// A pipe that is lent to what takes one.
#[derive(Drop)]
pub(crate) struct Lent<'a, C> {
    pub(crate) pipe: &'a mut C,
}

impl<'a, C: Pipe> Source for Lent<'a, C> {
    ghost unread = { λ l. C.unread l.pipe.now };

    ghost faults = { λ l. C.Source.faults l.pipe.now };

    ghost waits = { λ l. C.waits l.pipe.now };

    ghost holds = { λ l. C.holds l.pipe.now };

    fn read_faults(&self) -> u64 {
        self.pipe.read_faults()
    }

    fn idles(&self) -> u64 {
        self.pipe.idles()
    }

    fn read(&mut self, piece: &mut [u8]) -> Got {
        self.pipe.read(piece)
    }
}

impl<'a, C: Pipe> Sink for Lent<'a, C> {
    ghost held = { λ l. C.held l.pipe.now };

    ghost faults = { λ l. C.Sink.faults l.pipe.now };

    ghost gives = { λ l. C.gives l.pipe.now };

    fn write_faults(&self) -> u64 {
        self.pipe.write_faults()
    }

    fn write(&mut self, piece: &[u8]) -> Put {
        self.pipe.write(piece)
    }
}

impl<'a, C: Pipe> Pipe for Lent<'a, C> {
    ghost sink_is_left = { λ l. C.sink_is_left l.pipe.now };

    ghost source_is_left = { λ l. C.source_is_left l.pipe.now };
}

impl<'a, C: Wakes> Wakes for Lent<'a, C> {
    fn wake_with(&self, bell: &Arc<Bell, Global>) -> bool {
        self.pipe.wake_with(bell)
    }

    fn wait_for_room(&self, alloc: Global, waits: bool) {
        self.pipe.wait_for_room(alloc, waits);
    }

    fn is_behind(&self) -> bool {
        self.pipe.is_behind()
    }

    fn catch_up(&self) -> Option<usize> {
        self.pipe.catch_up()
    }
}
