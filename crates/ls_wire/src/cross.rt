//! What may go to another thread.
use crate::http_wire::HttpWire;
use crate::unsent::Unsent;
use ls_outside::Pipe;

/// A type whose values may be sent.
fn sends<T: Send>() {}

/// Bytes that are held back.
pub(crate) fn unsent() {
    sends::<Unsent>();
}

/// A wire over a pipe that may be sent.
pub(crate) fn wire<'a, C: Pipe + Send + 'a>() {
    sends::<HttpWire<'a, C>>();
}
