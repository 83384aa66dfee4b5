//! What a script's lines ask for, and what they print (this project's profile): the types, and their definitions.
//!
//! A line asks for a `Step`, a number of times (`Repeat`); a step prints lines (`Out`), whose texts `print` makes and
//! `append` puts behind a text. The definitions: `specs/Grammar.antt` says which step a line asks for (`line_of`), by
//! what the lines before it declared (`Known`); `specs/Ranges.antt` what such a step keeps to; `specs/Adding.antt`
//! which request an `add` line stands for; `specs/Notes.antt` the printed texts.
//!
//! The world's definitions stand on these. Nothing here reads a line: `ls_script` does.
#![tactic(auto)]

mod limits;
mod out;
mod step;

pub use limits::{GREATEST_IN_LINE, LONGEST_NOTE, MOST_CONNECTIONS, MOST_TIMES};
pub use out::{Out, append, append_line, print};
pub use step::{AddWords, Extras, Repeat, Step};
