//! What may go to another thread.
use crate::clock::MemClock;
use crate::gate::{OpenGate, Point};
use crate::liar::Liar;
use crate::mem_sink::{MemSink, PlainSink};
use crate::mem_source::{MemSource, PlainSource};
use crate::pipe::{MemPipe, PlainPipe};

/// A type whose values may be sent.
fn sends<T: Send>() {}

/// A type whose values may be shared.
fn syncs<T: Sync>() {}

/// Sources, sinks and pipes in memory.
pub(crate) fn memory() {
    sends::<MemSource>();
    sends::<MemSink>();
    sends::<MemPipe>();
    sends::<Liar>();
}

/// Those that never fail.
pub(crate) fn plain() {
    sends::<PlainSource>();
    sends::<PlainSink>();
    sends::<PlainPipe>();
}

/// A clock in memory.
pub(crate) fn clock() {
    sends::<MemClock>();
}

/// Gates and the points that they are passed.
pub(crate) fn gate() {
    sends::<Point>();
    syncs::<OpenGate>();
}
