//! Budgets: how often a slot may give an update, and how much a session may give (General Concepts, frequency and
//! bandwidth).
//!
//! A [`Frequency`] keeps the tick of the last update, and a [`Bandwidth`] what its credit lacks. Each says by `due`
//! whether an update may be given at a tick, and else at which tick first; `spend` tells it of the update. A tick is a
//! ms. The definitions are `specs/Budget.antt`, over all spends since the rate was set; `src/law.rt` says what follows
//! for the spends in a window of ticks.
#![tactic(auto)]

mod bandwidth;
mod due;
mod frequency;
mod law;
mod limits;

pub use bandwidth::Bandwidth;
pub use due::Due;
pub use frequency::{Frequency, interval_of};
pub use law::{
    a_credit_tick_is_the_first_with_credit, an_interval_is_rounded_up,
    credit_never_falls_with_time, spends_of_a_window_are_bounded,
};
pub use limits::MOST_BYTES;
pub use ls_value::GREATEST_TICK;
