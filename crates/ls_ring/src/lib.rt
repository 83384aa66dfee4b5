//! A ring of updates whose room is taken as they come.
//!
//! [`push`] keeps an update behind the others, of which as many of the last stay as are asked for, and tells whether
//! the first was lost. The ring itself is the kit's `HeapCircularBuffer`, from which the updates are read and taken.
#![tactic(auto)]

mod ring;

pub use ring::push;
