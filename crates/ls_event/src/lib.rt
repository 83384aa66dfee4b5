//! Events of an item, and what a slot still has to tell of them.
//!
//! An item is declared by an [`ItemDef`]: a name, a [`Kind`] and the names of its fields. What happens to it is an
//! [`Event`], an update with a cell for each field or a Clear; [`read_event`] reads one from a text. An [`Entry`] is an
//! event in the item's history, and [`Stored`] an event with its number and, in kind COMMAND, the row that its key then
//! has. What an update says by itself is [`own_row`] and [`command_of`]. [`PushRefused`] and [`PublishRefused`] say why
//! an event is refused, by the first cause of an order. The limits are the constants `MOST_..` and [`RAW_KEEPS`].
//!
//! A slot tells of its item by its [`Mode`]. What it enqueued and still has to tell is kept by a [`Buffer`];
//! [`take_one`] takes the next cut, a [`Taken`], where there is one:
//!
//! ```text
//! buffer.enqueue(&stored)?;
//! while let Some(taken) = take_one(&mut buffer)? { .. }
//! ```
//!
//! The definitions (specs/) say what the state of an item is after so many events, why a publish is refused, and what
//! the next cut of a slot is, in each mode, over the whole history. This crate keeps no state of an item and no slot,
//! and has no buffer of its own: there is a crate for each mode.
#![tactic(auto)]

mod buffer;
mod event;
mod event_text;
mod item;
mod limits;
mod orders;
mod snapshot;
mod updates;

pub use buffer::{Buffer, take_one};
pub use event::{Entry, Event, Mode, PublishRefused, PushRefused, Snap, Stored, Taken};
pub use event_text::{EventRefused, read_event};
pub use item::{ItemDef, Kind};
pub use limits::{
    MOST_ADAPTERS, MOST_BUFFER_SIZE, MOST_FIELDS, MOST_KEYS, MOST_LAG, MOST_SLOTS,
    MOST_SNAPSHOT_ROWS, MOST_WEIGHT, RAW_KEEPS,
};
pub use orders::{CommandRefused, Order, command_of, own_row};
pub use snapshot::{KeyedRow, KeyedRows, RowList, Snapshot};
pub use updates::OwnRow;
