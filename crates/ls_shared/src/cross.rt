//! What other threads may be sent, and what they may share.
use crate::shared::Shared;
use crate::testimony::Testimony;
use ls_config::Config;
use ls_live::{LiveItem, PubPass};
use ls_register::House;
use std::alloc::Global;
use std::sync::{Arc, Mutex};

fn sends<T: Send>() {}

fn syncs<T: Sync>() {}

pub fn config_is_shared() {
    syncs::<Config>()
}

pub fn pass_is_sent<N: House + Send + Sync>() {
    sends::<PubPass<N>>()
}

pub fn testimony_is_sent<N: House + Send + Sync>() {
    sends::<Testimony<N>>()
}

pub fn item_is_shared<N: House + Send + Sync>() {
    syncs::<Mutex<LiveItem<N>>>()
}

pub fn shared_is_sent<N: House + Send + Sync>() {
    sends::<Shared<N>>()
}

pub fn shared_is_shared<N: House + Send + Sync>() {
    syncs::<Shared<N>>()
}

pub fn a_hold_on_it_is_sent<N: House + Send + Sync>() {
    sends::<Arc<Shared<N>, Global>>()
}
