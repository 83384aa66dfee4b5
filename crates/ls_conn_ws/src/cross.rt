//! What may go to another thread.
use crate::running::Running;
use crate::socket::Socket;
use ls_register::House;
use ls_talk::Talk;

/// A type whose values may be sent.
fn sends<T: Send>() {}

/// A stream of a connection.
pub(crate) fn running<N: House + Send + Sync>() {
    sends::<Running<N>>();
}

/// A connection between two turns.
pub(crate) fn socket<N: House + Send + Sync, T: Talk + Send>() {
    sends::<Socket<N, T>>();
}
