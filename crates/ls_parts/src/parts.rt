//! A session in parts, while its turns are taken.
ghost use Rattle.std.specs.Prelude.{◌≡◌};

use ls_bell::Bell;
use ls_live::Watch;
use ls_register::{House, Place};
use ls_session::Session;
use ls_taking::{History, SubSeats};
use std::alloc::Global;
use std::sync::Arc;

/// What is left where slots leave a session: their seats, by subscription, and how many slots they are.
#[derive(Drop)]
pub struct Left<N: House> {
    pub subs: Vec<SubSeats<N>>,
    pub slots: u64,
}

/// The parts of a session whose turns are taken and which requests change: its number, what it gives next (ls_session), its
/// history, its place in the register, where it has one, its watches of items, its seats on them, and its bell. What holds
/// of them is said of the records that they stand for. It keeps the allocator that its constructor took.
#[derive(Drop)]
pub struct SessionParts<N: House> {
    pub alloc: Global,
    pub number: u64,
    pub session: Session,
    pub history: History,
    pub place: Option<Place<N>>,
    pub watches: Vec<Watch<N>>,
    pub subs: Vec<SubSeats<N>>,
    pub bell: Arc<Bell, Global>,
}

impl<N: House> SessionParts<N> {
    /// Its number.
    pub fn number(&self) -> u64
        ensures { result ≡ self.now.number }
    {
        self.number
    }

    /// The bell that is rung where there may be something to give.
    pub fn bell(&self) -> &Bell {
        &self.bell
    }
}
