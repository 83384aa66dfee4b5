//! What other threads may be sent, and what they may share.
use crate::bell::{Bell, CommonBell};
use std::alloc::Global;
use std::sync::Arc;

fn sends<T: Send>() {}

fn syncs<T: Sync>() {}

pub fn bell_is_sent() {
    sends::<Bell>()
}

pub fn bell_is_shared() {
    syncs::<Bell>()
}

pub fn a_hold_on_it_is_sent() {
    sends::<Arc<Bell, Global>>()
}

pub fn common_bell_is_shared() {
    syncs::<CommonBell>()
}

pub fn a_hold_on_a_common_bell_is_sent() {
    sends::<Arc<CommonBell, Global>>()
}
