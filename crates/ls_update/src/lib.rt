//! The coded fields of a U line: how an update is written, and how it is read (TLCP 2.1, notification U).
//!
//! [`append`] writes a row behind a text, after another row of as many fields or without one, in the one spelling that
//! this project chose; [`write`] gives it in memory of its own. [`read`] reads every spelling of a row, or says by
//! [`ReadRefused`] what is wrong first.
//!
//! After `("a", "b", "c")` the row `("a", null, "c")` is written `|#|`, and read from that again.
//!
//! What is written and what is read are defined apart, and `a_written_row_is_read` is the law between them. The front
//! of the line, up to its fields, is `ls_line`'s.
#![tactic(auto)]

mod law;
mod reading;
mod writing;

pub use law::{a_written_row_is_read, tokens_have_one_answer};
pub use reading::{ReadRefused, read};
pub use writing::{append, write};
