//! Visitors of a server in memory, for tests of servers.
//!
//! A `ListDoor` lets visitors in by a list, over whatever pipes. A `Shaky` pipe counts its calls by a tally, which others
//! may share, and the tally says which call of all fails.
//!
//! ```text
//! let tally = Arc::new(alloc, Tally::new(7))?;
//! let mut door = ListDoor::new(vec![in alloc; Visit::Client(Shaky::new(pipe, Arc::try_clone(&tally)?))]?);
//! ```
#![tactic(auto)]

mod cross;
mod list_door;
mod shaky;

pub use list_door::ListDoor;
pub use shaky::{Shaky, Tally};
