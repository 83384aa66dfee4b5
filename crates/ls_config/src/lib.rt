//! The items file of a server: the name of its adapter set, and its items.
//!
//! `read` makes a `Config` of a file's bytes, or tells the first line outside the format. `Items` are items with
//! distinct names, found by them; `item_said` reads one, also for other formats that declare items. `Declared` is what
//! `Items` stands on: names in the order in which they were declared, found by their bytes in one step.
//!
//! ```text
//! # the set's name, then each item with its kind and its fields
//! set QUOTES
//! quote MERGE last,time
//! orders COMMAND key,command,qty
//! ```
//!
//! It knows nothing of what is published on an item.
#![tactic(auto)]

mod config;
mod fields;
mod items;
mod names;
mod reading;

pub use config::Config;
pub use fields::item_said;
pub use items::{Items, MOST_ITEMS};
pub use ls_event::{ItemDef, Kind};
pub use names::Declared;
pub use reading::{ConfigRefused, is_skipped, read};
