//! What may go to another thread, and what threads may share.
use crate::workers::Workers;
use ls_register::House;
use ls_talk::Talk;
use std::alloc::Global;
use std::sync::Arc;

/// A type whose values may be sent.
fn sends<T: Send>() {}

/// A hold on the workers.
pub(crate) fn workers<N: House + Send + Sync, T: Talk + Send>() {
    sends::<Arc<Workers<N, T>, Global>>();
}
