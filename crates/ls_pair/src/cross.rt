//! What other threads may be sent, and what they may share.
use crate::tie::{ItemSide, SessionSide, Sign, Tie};

fn sends<T: Send>() {}

fn syncs<T: Sync>() {}

pub fn tie_is_sent<E: Send + Drop>() {
    sends::<Tie<E>>()
}

pub fn tie_is_shared<E: Send + Drop>() {
    syncs::<Tie<E>>()
}

pub fn item_side_is_sent<E: Send + Drop>() {
    sends::<ItemSide<E>>()
}

pub fn session_side_is_sent<E: Send + Drop>() {
    sends::<SessionSide<E>>()
}

pub fn sign_is_sent<E: Send + Drop>() {
    sends::<Sign<E>>()
}
