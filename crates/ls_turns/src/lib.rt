//! The round of a session's slots (this project's profile).
//!
//! `Turns` has the slots in the order in which they are asked: a slot that joins is the last, and so is one that gave a
//! line; when a subscription ends, its slots leave, and the others keep their order. `reserve` takes room for so many
//! more slots, and no other call but `new` takes memory.
//!
//! ```text
//! 1.1 1.2 2.1        the slots of places 1 and 2 of subscription 1, and of place 1 of subscription 2
//! 1.2 2.1 1.1        after 1.1 gave a line
//! 2.1                after subscription 1 left
//! ```
#![tactic(auto)]

mod law;
mod row;
mod rows;
mod seats;
mod slot_ref;
mod turns;

pub use law::no_slot_is_passed_over;
pub use slot_ref::SlotRef;
pub use turns::Turns;
