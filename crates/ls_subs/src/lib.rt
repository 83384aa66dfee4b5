//! The live subscriptions of a session: what each client has of the items of each, and which line a cut makes of it
//! (TLCP 2.1, subscriptions and notifications; General Concepts, modes).
//!
//! `Subs` keeps the items of each subscription by its number. `prepare` says what a request for a new one asks of the
//! items of its group (an `AddPlan`), or why it is refused; once slots joined them, `finish` makes it live. `find`
//! names the slot of an item, a `SlotRef`. `accept` takes a cut of a slot (ls_event's `Taken`) and appends the line
//! that it makes, if it makes one (`CutLine` says which); then the client has what the line tells. `due` says when a slot
//! may give an update by its subscription's greatest frequency, and `set_frequency` sets another one.
//!
//! ```text
//! last|time  3.04|20:00:33        what the client has
//!            3.05|=               a cut's cells
//! U,1,1,3.05|                     the line, coded against what the client has
//! ```
//!
//! It neither looks at items nor numbers lines or keeps them: those are the engine's and the session's.
#![tactic(auto)]

mod adding;
mod cut_line;
mod followed;
mod lines;
mod plan;
mod schema;
mod subs;

pub use adding::{frequency_in, is_filtered};
pub use cut_line::CutLine;
pub use followed::Followed;
pub use lines::{begin_text, configure_text};
pub use ls_turns::SlotRef;
pub use plan::{AddPlan, PlanItem, Refusal};
pub use subs::Subs;
