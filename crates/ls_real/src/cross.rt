//! What may go to another thread.
use crate::std_io::{StdSink, StdSource};

/// A type whose values may be sent.
fn sends<T: Send>() {}

/// The source and the sink over std's readers and writers.
pub(crate) fn over_std<T: Send>() {
    sends::<StdSource<T>>();
    sends::<StdSink<T>>();
}
