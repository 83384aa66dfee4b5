//! The limit of a spend.

/// The most bytes of one spend (this project's profile).
pub const MOST_BYTES: u64 = 16_386;
