//! What a client knows by the lines that it was given (TLCP 2.1, notifications).
//!
//! A `Client` is fed lines, and keeps a `Table` for each item of its live subscriptions: the last row, in mode COMMAND
//! the rows by key (`Keyed`), and how many updates came and were lost:
//!
//! ```text
//! client.feed(&line)?;
//! client.table(1, 1)      the table of subscription 1's first item, if it is live
//! ```
//!
//! The definitions (`specs/Client.antt`, `specs/Commands.antt`) say the same of all lines that were given, and are
//! those by which the laws read a session's lines. `law` has that they determine what came. It knows nothing of
//! streams, of lines that were not given, or of what the server keeps.
#![tactic(auto)]

mod client;
mod command;
mod keyed;
mod law;
mod refused;
mod subscription;
mod table;

pub use client::Client;
pub use command::KeyPlaces;
pub use keyed::Keyed;
pub use law::{a_table_is_determined, what_came_is_determined};
pub use refused::MirrorRefused;
pub use table::Table;
