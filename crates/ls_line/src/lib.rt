//! Lines of TLCP 2.1, as data and as text.
//!
//! [`Line`] has a variant for each tag, with a field for each part. [`append`] writes a line's text behind others,
//! and [`text`] and [`into_text`] give it in memory of its own; [`append_update`] writes a U line up to its coded
//! fields, which `ls_update` appends. [`read`] reads a line, or says by [`LineRefused`] why there is none; [`counts`]
//! tells which lines PROG counts. [`LineBuf`] holds one text in room that it has from its beginning.
//!
//! `Line::Ov { sub: 3, item: 1, lost: 6 }` has the text `OV,3,1,6`, and is read from it again.
//!
//! All of them follow one table, `lines!` in `table.rt`; its definitions are `shape_of` and `form_of`. A new line is
//! a variant of `Line` and of `Tag`, a row there, and a row in each of these two.
//!
//! A text is without CR LF: who sends it adds them. What coded fields mean is `ls_update`'s, and what a client makes
//! of lines is `ls_mirror`'s.
#![tactic(auto)]

mod buffer;
mod law;
mod limits;
mod line;
mod pieces;
mod reading;
mod table;
mod writing;

pub use buffer::LineBuf;
pub use law::{
    each_line_has_one_text, each_line_read_can_be_written, each_text_without_a_cause_is_a_line,
    each_written_line_is_read_again,
};
pub use limits::LONGEST_TEXT;
pub use line::{Line, LineRefused};
pub use reading::read;
pub use writing::{append, append_update, counts, into_text, text};
