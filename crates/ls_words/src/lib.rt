//! Words, names and numbers: what the texts of scripts, configurations, requests and feeds share.
//!
//! `divided` gives the pieces of a text between a byte, `first_piece` and `split_once` one at a time, without memory.
//! `name_of` reads a name, and `number_in` a decimal number in a range: `number_in(b"64", 1, 64)` is 64, and a text
//! with a sign or a leading zero is none. Their definitions (`specs/Words.antt`, `specs/Numbers.antt`) are those by
//! which other readers of such texts are defined. That a number's own digits are read again is a lemma
//! (`proofs/ReadBack.antt`). Nothing here knows what a text is for.
#![tactic(auto)]

mod names;
mod numbers;
mod pieces;

pub use names::{LONGEST_NAME, is_name, name_of};
pub use numbers::{append_decimal, number_in};
pub use pieces::{divided, first_piece, split_once};
