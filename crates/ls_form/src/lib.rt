//! Form text, in which requests are sent, and decimals of thousandths, in which frequencies and bandwidths are written.
//!
//! `pairs` reads the pairs of a form text, decoded, or tells why it is refused; `Params` finds the text of a name:
//!
//! ```text
//! LS_op=add&LS_subId=1        find(b"LS_subId") is "1"
//! ```
//!
//! `read_milli` and `print_milli` read and print a decimal such as `0.25` as thousandths; what is printed is read as
//! itself (`law`). What the names mean is for the crates above.
#![tactic(auto)]

mod form;
mod law;
mod milli;

pub use form::{FormRefused, LONGEST_FORM, Pair, Params, pairs};
pub use law::a_printed_decimal_is_read_as_itself;
pub use milli::{print_milli, read_milli};
