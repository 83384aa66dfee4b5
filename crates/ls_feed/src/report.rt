//! How a feed ended.

use crate::passes::Passes;
use ls_register::House;

/// Why a feed ended.
#[derive(Clone, Copy, Debug, PartialEq, Eq)]
pub enum FeedEnd {
    /// Its input ended. Each whole line behind the hello was answered; a last line without LF wasn't acted on.
    Closed,

    /// Its first line isn't a hello, or is too long to be one. Nothing was written.
    BadHello,

    /// A line behind the hello is longer than [`crate::LONGEST_LINE`]. It was answered `bad 1`.
    LongLine,

    /// A read failed. Each line that had ended was answered.
    ReadFault,

    /// A write failed. Of the replies to the lines that were acted on a part was written, from the front.
    WriteFault,

    /// The clock told the tick at which it was to end, or a later one. Each line that had ended was answered.
    Stopped,

    /// Memory was wanting. Of the replies to the lines that were acted on a part was written, from the front.
    NoMemory,
}

/// What came of a feed: why it ended, and the passes of its adapter, which have seen each event that it published.
#[derive(Drop)]
pub struct FeedReport<N: House> {
    pub end: FeedEnd,
    pub passes: Passes<N>,
}
