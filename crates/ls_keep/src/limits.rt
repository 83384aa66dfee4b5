//! How much is kept of a session's lines.

/// How many lines are kept at most of those that were given (this project's profile).
pub const MOST_KEPT_LINES: usize = 1024;

/// How many bytes the texts of these lines have at most, without CR LF (this project's profile).
pub const MOST_KEPT_BYTES: usize = 262_144;
