//! The limit of a line's text.

/// How many bytes the text of a line has at most, without CR LF (this project's profile).
pub const LONGEST_TEXT: usize = 16_384;
