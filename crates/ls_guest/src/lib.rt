//! Clients of a server, by the calls of `Shared`, for tests of sessions that threads share.
//!
//! A `Guest` is a client's newest stream of a session, with what the client has seen of it. Requests are read from
//! parameters, as they come over a connection, and events from their texts.
//!
//! ```text
//! let create = create_of(alloc, "LS_keepalive_millis=1000")?;
//! let mut guest = Guest::open(rt, &shared, &create, now, &mut view)?;
//! let turn = guest.take(rt, &shared, now, &mut into, &OpenGate)?;
//! ```
#![tactic(auto)]

mod guest;
mod publish;
mod requests;
mod values;

pub use guest::Guest;
pub use ls_shared::{Lost, PublishRefused, Refusal, Shared, Turn};
pub use publish::publish_text;
pub use requests::{bind_of, control_of, create_of};
pub use values::{number, row_text};
