//! How a stream ended.

use ls_register::House;
use ls_shared::Testimony;

/// Why a stream ended.
#[derive(Clone, Copy, Debug, PartialEq, Eq)]
pub enum StreamEnd {
    /// LOOP was given: the client may bind again.
    Looped,

    /// The session has ended for the cause of a code, and END was given; or the stream was lost before.
    Ended { code: u16 },

    /// A newer stream of the session was bound; its epoch.
    Superseded { epoch: u64 },

    /// The stream was lost.
    Unbound,

    /// The peer left.
    PeerLeft,

    /// The wire failed. A part of the last line may have gone out.
    WriteFault,

    /// The clock told the tick at which it was to end, or a later one.
    Stopped,

    /// The session has no number left for a line.
    Spent,

    /// Memory was refused. The last line that was given may not have gone out.
    NoMemory,
}

/// What came of a stream: why it ended, and what was seen of its session by then.
#[derive(Drop)]
pub struct StreamReport<N: House> {
    pub end: StreamEnd,
    pub told: Testimony<N>,
}
