//! Limits of requests (this project's profile).

/// The shortest keep-alive time in milliseconds: a shorter one is read as this one.
pub const LEAST_KEEPALIVE: u64 = 1000;

/// The longest keep-alive time in milliseconds: a longer one is read as this one.
pub const GREATEST_KEEPALIVE: u64 = 30_000;

/// The keep-alive time in milliseconds where none is asked for.
pub const DEFAULT_KEEPALIVE: u32 = 5000;

/// The least content length of a stream in bytes: a lesser one is read as this one.
pub const LEAST_LENGTH: u64 = 1000;

/// The content length of a stream in bytes where none is asked for.
pub const DEFAULT_LENGTH: u64 = 50_000_000;

/// How many letters and digits a request's own name has at most.
pub const MOST_OWN_NAME: usize = 32;
