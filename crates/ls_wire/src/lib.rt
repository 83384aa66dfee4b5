//! Lines over a pipe, as a stream over HTTP has them: one after another, each with its CR LF.
//!
//! An [`HttpWire`] collects what it has to give and writes it at once: where a stream has nothing more to give for now,
//! at its end, and where [`MOST_UNSENT`] bytes would be held. What it holds for contracts is what was written to the
//! pipe, and then what wasn't yet.
//!
//! ```text
//! let mut unsent = Unsent::with_room(alloc, ROOM)?;
//! let lent = Snapshot::of(&conn);
//! let mut wire = HttpWire::over(&mut conn, &mut unsent, &lent);
//! wire.put(b"PROBE")?;            // held back
//! wire.between(now);              // written
//! ```
//!
//! It reads nothing, and knows neither heads nor sessions.
#![tactic(auto)]

mod cross;
mod http_wire;
mod unsent;

pub use http_wire::{HttpWire, MOST_UNSENT, ROOM, let_go};
pub use unsent::Unsent;
