//! Limits of items, of slots and of what they keep (this project's profile).

/// How many fields an item has at most.
pub const MOST_FIELDS: usize = 64;

/// The greatest number of an adapter; the least is 1.
pub const MOST_ADAPTERS: u8 = 64;

/// How many events a slot may be behind its item. The next publish is refused; as many events an item keeps.
pub const MOST_LAG: u64 = 64;

/// How many bytes the texts of an event, or of the row that it makes, have at most.
pub const MOST_WEIGHT: u64 = 4096;

/// How many keys an item of kind COMMAND has at most.
pub const MOST_KEYS: usize = 1024;

/// How many rows an item of kind DISTINCT keeps for snapshots.
pub const MOST_SNAPSHOT_ROWS: usize = 32;

/// The greatest size of a buffer, which is also that of mode DISTINCT where none is asked for.
pub const MOST_BUFFER_SIZE: usize = 256;

/// How many updates a slot of mode RAW keeps; what comes before them is lost.
pub const RAW_KEEPS: usize = 256;

/// How many slots an item has at most, and how many all sessions have.
pub const MOST_SLOTS: usize = 4096;
