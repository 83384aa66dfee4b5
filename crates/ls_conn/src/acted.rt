//! What came of a request.
use ls_value::Bytes;

/// What came of a request.
#[derive(Drop)]
pub enum Acted {
    /// Its answer: a line's text, without CR LF.
    Line(Bytes),

    /// A stream of a session is bound, and is to be given: the session's number, and the stream's epoch.
    Opened { session: u64, epoch: u64 },

    /// Memory was refused, for the answer too.
    NoMemory,
}
