//! What may go to another thread.
use crate::serving::{Order, ServeEnd};
use crate::visits::{Common, Host};
use ls_outside::Pipe;
use ls_register::House;
use std::alloc::Global;
use std::sync::Arc;

/// A type whose values may be sent.
fn sends<T: Send>() {}

/// What is ordered, and how it ends.
pub(crate) fn orders() {
    sends::<Order>();
    sends::<ServeEnd>();
}

/// The items, sessions and workers that jobs share.
pub(crate) fn a_hold_on_it<N: House + Send + Sync, P: Pipe + Send + Drop>() {
    sends::<Arc<Common<N, P>, Global>>();
}

/// What serves a visitor.
pub(crate) fn a_host<N: House + Send + Sync, P: Pipe + Send + Drop, C: Send>() {
    sends::<Host<N, P, C>>();
}
