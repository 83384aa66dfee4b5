//! What may go to another thread.
use crate::cutter::{LineCutter, LineRefused};

/// A type whose values may be sent.
fn sends<T: Send>() {}

/// A cutter and its refusals.
pub(crate) fn cutters() {
    sends::<LineCutter>();
    sends::<LineRefused>();
}
