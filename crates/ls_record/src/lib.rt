//! What a session is, and nothing that runs: the records of a session, its slots, its numbered lines and its streams,
//! and what a turn of it gives. It knows no script.
//!
//! `Session` is a session's record: its board with all numbered lines and the round of its slots, its bandwidth, what is
//! owed to its stream, and its streams. `session_turn` says which line it gives next and what it is after that. `Acting`
//! has the order in which requests are refused, with their codes and messages, and what an accepted request does to the
//! record. `Lines` says which line of the protocol a numbered line is, and what comes to a client by it.
//!
//! ls_stream, ls_subs, ls_session, ls_cells and ls_acts have contracts in these terms. ls_lawful says when a record is
//! lawful, and ls_world what a script makes of many of them. Of Rust there are only limits, and the messages of codes.
#![tactic(auto)]

mod codes;

pub use codes::message_of;

/// How many items a group names at most.
pub const MOST_GROUP_ITEMS: usize = 64;

/// How many subscriptions a session has at most.
pub const MOST_SUBSCRIPTIONS: usize = 256;

/// How many sessions there are at most.
pub const MOST_SESSIONS: usize = 1024;

/// How many numbered lines may wait to be given on a session's stream.
pub const MOST_UNSENT: usize = 512;

/// For how long a session may be without a stream, in ms: after that it ends.
pub const MOST_UNBOUND: u64 = 30_000;
