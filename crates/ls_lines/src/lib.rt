//! Lines that are cut out of bytes which come in pieces: of scripts, feeds and whatever else has a line to each thing.
//!
//! A [`LineCutter`] takes a piece up to the end of the first line in it, and keeps the bytes of a line that hasn't ended
//! yet for the next piece. A line ends with LF, which isn't a part of it. A line longer than the limit is refused before
//! it is kept, so no more memory is held than two lines of that length need.
//!
//! ```text
//! piece "ab\ncd"    line "ab", 3 bytes used; then none: "cd" is kept
//! piece "e\n"       line "cde", 2 bytes used
//! ```
//!
//! A line that lies whole in its piece is lent from there and not copied. Each other byte is copied once, however the
//! bytes are cut into pieces, and each byte is looked at once. The cutter reads nothing, and a CR means nothing to it.
#![tactic(auto)]

mod cross;
mod cutter;

pub use cutter::{LineCutter, LineRefused};
