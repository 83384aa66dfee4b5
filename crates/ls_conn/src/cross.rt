//! What may go to another thread.
use crate::seen::Seen;
use ls_register::House;

/// A type whose values may be sent.
fn sends<T: Send>() {}

/// What was seen of sessions.
pub(crate) fn seen<N: House + Send + Sync>() {
    sends::<Seen<N>>();
}
