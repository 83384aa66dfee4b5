//! How a connection ended.

use crate::seen::Seen;
use ls_register::{House, View};
use ls_shared::Testimony;

/// How many reads may find nothing before a request is whole (this project's profile).
pub const MOST_IDLES: u64 = 3000;

/// Why a connection ended.
#[derive(Clone, Copy, Debug, PartialEq, Eq)]
pub enum ConnEnd {
    /// A whole request was read, and its answer was written whole; or its stream ended by itself.
    Served,

    /// The head was refused with a status, and the refusal was written whole.
    Refused { status: u16 },

    /// The peer left: over HTTP before its request was whole, and then nothing was written.
    PeerLeft,

    /// So many reads found nothing before a request was whole, and no stream ran.
    TooSlow,

    /// A read failed.
    ReadFault,

    /// A write failed.
    WriteFault,

    /// The clock told the tick at which it was to end, or a later one.
    Stopped,

    /// Memory was refused.
    NoMemory,
}

/// What came of a connection: why it ended, the view of the register by which its requests were done, what was seen of
/// the sessions of its last body or message, and what was seen of the session of its last stream, where one ran.
#[derive(Drop)]
pub struct ConnReport<N: House> {
    pub end: ConnEnd,
    pub view: View<N>,
    pub seen: Seen<N>,
    pub told: Option<Testimony<N>>,
}
