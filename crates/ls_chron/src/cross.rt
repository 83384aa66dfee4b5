//! What other threads may be sent, and what they may share.
use crate::chron::{Chron, Reader, Sign, Writer};

fn sends<T: Send>() {}

fn syncs<T: Sync>() {}

pub fn chron_is_sent<E: Send + Drop>() {
    sends::<Chron<E>>()
}

pub fn chron_is_shared<E: Send + Drop>() {
    syncs::<Chron<E>>()
}

pub fn writer_is_sent<E: Send + Drop>() {
    sends::<Writer<E>>()
}

pub fn reader_is_sent<E: Send + Drop>() {
    sends::<Reader<E>>()
}

pub fn sign_is_sent<E: Send + Drop>() {
    sends::<Sign<E>>()
}
