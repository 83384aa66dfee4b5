//! What a turn of a connection came to.

use ls_conn::ConnEnd;

/// What a turn of a connection came to.
#[derive(Clone, Copy, Debug, PartialEq, Eq)]
pub enum Step {
    /// A line was given, or a message was heard: there may be more to do at once.
    Goes,

    /// There is nothing to do before so many ms have gone by, unless the session's bell rings. What was held back was let
    /// go.
    Rests { ms: u64 },

    /// The connection has ended.
    Ended(ConnEnd),
}
