//! The numbered lines of a session that are kept, so that a client whose stream was lost goes on behind the lines that
//! it has (TLCP 2.1, recovery).
//!
//! `push` numbers a line, from 1 on, and `mark` gives the next one. Lines that were given are kept as long as they are
//! among the last 1,024 lines and 262,144 bytes; the given-up number is that of the last line that isn't kept. Lines
//! that weren't given are always kept. `resume` goes back, or forth, to what a client has:
//!
//! ```text
//! push, push, push      lines 1, 2 and 3
//! mark, mark            lines 1 and 2 are given
//! resume(1)             line 2 is to be given again
//! resume(4)             Beyond { last: 3 }
//! ```
//!
//! The texts of the lines lie in one piece of memory, each after the one before, and are lent from there. `reserve` takes
//! room for so many more lines and gives back what those that were given up had, and `blank` takes the memory in which a
//! text is written; no other call takes memory.
#![tactic(auto)]

mod keep;
mod law;
mod limits;
mod queue;
mod texts;

pub use keep::{Keep, ResumeRefused};
pub use law::{
    no_line_is_given_up_unsent, no_more_lines_are_kept_than_may_be,
    the_given_up_number_never_falls, the_latest_lines_are_kept, the_oldest_lines_are_given_up,
};
pub use limits::{MOST_KEPT_BYTES, MOST_KEPT_LINES};
