//! Limits of scripts (this project's profile).

/// The greatest number that a line says: 18 digits.
pub const GREATEST_IN_LINE: u64 = 999_999_999_999_999_999;

/// How many bytes a note has at most, with its LF.
pub const LONGEST_NOTE: usize = 33;

/// How often a line's step is made at most.
pub const MOST_TIMES: u64 = 1000;

/// How many connections a script declares at most.
pub const MOST_CONNECTIONS: usize = 65_536;
