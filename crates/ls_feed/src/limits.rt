//! Limits of feeds (this project's profile).

/// The most bytes of a line, without its LF.
pub const LONGEST_LINE: usize = 16_384;
