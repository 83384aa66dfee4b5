//! The register of a server: one shared history that says what was made in it. By places in it the values behind locks
//! and the tokens of callers know one another.
//!
//! Of a value behind a lock only what its type keeps is known. So every type that has to agree on the register has a
//! parameter `N: House`, which names the register, the adapter set and the items of one server. A [`Made`] is an entry of the register:
//! an item, a session or a slot, each with the table on which its history or tie stands, a session that is gone, or
//! room for slots that was claimed or freed. A [`Told`] is an entry of a session's history.
//!
//! A [`Place`] is a place in the register with a reader that has it. Two tokens of one place show one entry, and so one
//! table: [`one_table`] compares two, and makes their readers have one list. [`Blank`] is a register that is being
//! made, to which [`add_item`] adds the items; [`Book`] is what stands behind the register's lock then, and a [`View`]
//! what is seen of it:
//!
//! ```text
//! let Blank { register, mut writer } = blank;
//! let place = add_item::<N>(&register, &mut writer, 0, &def, live.sign())?;    // for each item, in order
//! let mut book = Book::<N, H>::new(alloc, writer, 1);     // so many items; H is what is held of a session
//! let view = book.view(&register);       // its items are the server's
//! ```
//!
//! It takes no lock and has no threads. [`wait_for_good`] is what a call does that finds a token of another place than
//! it was told.
#![tactic(auto)]

mod begun;
mod blank;
mod book;
mod cross;
mod house;
mod made;
mod place;
mod rows;
mod told;
mod waiting;

pub use begun::SlotBegun;
pub use blank::{Blank, add_item};
pub use book::{Book, ClaimRefused, View};
pub use house::House;
pub use made::Made;
pub use place::{Place, one_table};
pub use told::{Begun, Numbered, Told};
pub use waiting::wait_for_good;
