//! What was made in a server.

use crate::told::Told;
use ls_chron::Sign;
use ls_event::{Entry, Kind};

/// What was made in a server, or is gone. Contracts also see, by a token without bytes, on which table the history or
/// the tie stands that was made.
#[derive(Drop)]
pub enum Made {
    /// An item, by its number from 0, with its number of fields, its kind and its history.
    Item {
        item: u32,
        fields: u32,
        kind: Kind,
        table: Sign<Entry>,
    },
    /// A session, by its number from 1, with its history.
    Session {
        session: u64,
        table: Sign<Told>,
    },
    /// A slot, by its item's number and its own number there, from 1, with the tie of its two sides.
    Slot {
        item: u32,
        slot: u32,
        table: ls_pair::Sign<u64>,
    },
    /// A session has ended.
    Gone {
        session: u64,
    },
    /// Room for so many slots was taken.
    Claimed {
        slots: u32,
    },
    /// Room for so many slots was given back.
    Freed {
        slots: u32,
    },
}
