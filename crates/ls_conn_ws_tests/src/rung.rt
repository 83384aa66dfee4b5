//! A pipe of two ends, each of which calls a bell of the other one.
use ls_bell::Bell;
use ls_door::Duct;
use ls_outside::{Got, Pipe, Put, Sink, Source};
use ls_value::NoMemory;
use ls_wake::Wakes;
use std::alloc::Global;
use std::sync::atomic::{AtomicU64, Ordering};
use std::sync::{Arc, Mutex, Wait};

/// The bell that an end has named, if it has named one.
type Hook = Arc<Mutex<Option<Arc<Bell, Global>>>, Global>;

/// An end of a pipe. Where it writes, the other end's bell is called.
#[derive(Drop)]
pub(crate) struct Rung<R, C> {
    rt: R,
    pipe: C,
    mine: Hook,
    theirs: Hook,

    /// How many reads of either end found nothing yet of which the other end knows.
    looks: Arc<AtomicU64, Global>,

    /// Whether this end's reads are counted there.
    is_counted: bool,
}

/// Calls a bell, if there is one.
fn call<R: Wait>(rt: &R, hook: &Hook) {
    if let Some(bell) = &*hook.lock(rt) {
        bell.call();
    }
}

/// A hook without a bell.
fn hook(alloc: Global) -> Result<Hook, NoMemory> {
    Ok(Arc::new(alloc, Mutex::new(None))?)
}

/// The two ends of a duct that ring bells. The reads of the far one that find nothing are counted.
pub(crate) fn two_ends<R: Wait + Copy + Drop>(
    rt: R,
    alloc: Global,
    limit: usize,
) -> Result<(Rung<R, Duct<R>>, Rung<R, Duct<R>>), NoMemory> {
    let (near, far) = Duct::pair(rt, alloc, limit)?;
    let one = hook(alloc)?;
    let other = hook(alloc)?;
    let looks = Arc::new(alloc, AtomicU64::new(0))?;
    let near = Rung {
        rt,
        pipe: near,
        mine: Arc::try_clone(&one)?,
        theirs: Arc::try_clone(&other)?,
        looks: Arc::try_clone(&looks)?,
        is_counted: false,
    };
    let far = Rung {
        rt,
        pipe: far,
        mine: other,
        theirs: one,
        looks,
        is_counted: true,
    };
    Ok((near, far))
}

impl<R: Wait, C> Rung<R, C> {
    /// How many reads of the far end found nothing yet.
    pub(crate) fn looks(&self) -> u64 {
        self.looks.load(Ordering::SeqCst)
    }
}

impl<R: Wait + Drop, C: Drop> Rung<R, C> {
    /// Closes this end.
    pub(crate) fn leave(self) {
        let Rung {
            rt,
            pipe,
            theirs,
            ..
        } = self;
        drop(pipe);
        call(&rt, &theirs);
    }
}

impl<R: Wait, C: Pipe> Source for Rung<R, C> {
    ghost unread = { λ r. C.unread r.pipe };

    ghost faults = { λ r. C.Source.faults r.pipe };

    ghost waits = { λ r. C.waits r.pipe };

    ghost holds = { λ r. C.holds r.pipe };

    fn read_faults(&self) -> u64 {
        self.pipe.read_faults()
    }

    fn idles(&self) -> u64 {
        self.pipe.idles()
    }

    fn read(&mut self, piece: &mut [u8]) -> Got {
        let got = self.pipe.read(piece);
        if self.is_counted && got == Got::NotYet {
            self.looks.fetch_add(1, Ordering::SeqCst);
        }
        got
    }
}

impl<R: Wait, C: Pipe> Sink for Rung<R, C> {
    ghost held = { λ r. C.held r.pipe };

    ghost faults = { λ r. C.Sink.faults r.pipe };

    ghost gives = { λ r. C.gives r.pipe };

    fn write_faults(&self) -> u64 {
        self.pipe.write_faults()
    }

    fn write(&mut self, piece: &[u8]) -> Put {
        let put = self.pipe.write(piece);
        call(&self.rt, &self.theirs);
        put
    }
}

impl<R: Wait, C: Pipe> Pipe for Rung<R, C> {
    ghost sink_is_left = { λ r. C.sink_is_left r.pipe };

    ghost source_is_left = { λ r. C.source_is_left r.pipe };
}

impl<R: Wait, C> Wakes for Rung<R, C> {
    /// The bell is called once at once: bytes may be there already.
    fn wake_with(&self, bell: &Arc<Bell, Global>) -> bool {
        let Ok(other) = Arc::try_clone(bell) else {
            return false;
        };
        *self.mine.lock(&self.rt) = Some(other);
        bell.call();
        true
    }
}
