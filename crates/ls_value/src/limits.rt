//! The greatest numbers that lines, histories and clocks have.

/// The greatest number of a subscription, of an item in one, of a field in a line, of items or of fields (TLCP 2.1).
pub const GREATEST_ORDINAL: u32 = 999_999_999;

/// The greatest number of an event or of a line, and the greatest count that a line tells (this project's profile).
pub const GREATEST_NUMBER: u64 = 1 << 60;

/// The greatest tick, in ms (this project's profile).
pub const GREATEST_TICK: u64 = 1_000_000_000_000_000_000;
