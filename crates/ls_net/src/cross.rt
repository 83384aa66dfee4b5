//! What may go to another thread.
use crate::clock::SysClock;
use crate::pipe::TcpPipe;
use crate::watcher::WatchedSockets;
use std::alloc::Global;
use std::rt::Clock as HostClock;
use std::sync::Arc;

/// A type whose values may be sent.
fn sends<T: Send>() {}

/// Connections.
pub(crate) fn pipe() {
    sends::<TcpPipe>();
}

/// Clocks.
pub(crate) fn clock<R: HostClock + Send>() {
    sends::<SysClock<R>>();
}

/// Holds on watched sockets.
pub(crate) fn watched_sockets() {
    sends::<Arc<WatchedSockets, Global>>();
}
