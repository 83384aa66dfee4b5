//! Wires over pipes in memory, and what is looked for in answers.
use ls_outside::{Call, MemPipe, MemSink, MemSource};
use ls_talk::{Incoming, Talk};
use ls_value::same_bytes;
use ls_ws::WsWire;
use std::alloc::{AllocError, Global};

/// The text `Hello` in one masked frame (RFC 6455, section 5.7).
pub(crate) const HELLO: &[u8] = b"\x81\x85\x37\xfa\x21\x3d\x7f\x9f\x4d\x51\x58";

/// A pipe that gives these bytes, whose reads and writes go by lists.
pub(crate) fn pipe_of(
    alloc: Global,
    bytes: &[u8],
    reads: &[Call],
    writes: &[Call],
) -> Result<MemPipe, AllocError> {
    let given = Vec::from_slice(alloc, bytes)?;
    let reads = Vec::from_slice(alloc, reads)?;
    let writes = Vec::from_slice(alloc, writes)?;
    Ok(MemPipe {
        source: MemSource::new(given, Vec::new(alloc), reads),
        sink: MemSink::new(alloc, writes),
    })
}

/// A wire over a pipe that gives these bytes, and whose calls go as usual.
pub(crate) fn wire_of(alloc: Global, bytes: &[u8]) -> Result<WsWire<MemPipe>, AllocError> {
    Ok(WsWire::over(alloc, pipe_of(alloc, bytes, &[], &[])?))
}

/// Whether an answer is this text.
pub(crate) fn is_text(answer: &Incoming, wanted: &[u8]) -> bool {
    match answer {
        Incoming::Text(text) => same_bytes(text.as_slice(), wanted),
        _ => false,
    }
}

/// Whether an answer is that a ping or a pong came.
pub(crate) fn is_control(answer: &Incoming) -> bool {
    matches!(answer, Incoming::Control)
}

/// Whether an answer is that a binary message came.
pub(crate) fn is_binary(answer: &Incoming) -> bool {
    matches!(answer, Incoming::Binary)
}

/// Whether an answer is that a text message came that is too long.
pub(crate) fn is_long(answer: &Incoming) -> bool {
    matches!(answer, Incoming::Long)
}

/// Whether an answer is that no message is there yet.
pub(crate) fn is_not_yet(answer: &Incoming) -> bool {
    matches!(answer, Incoming::NotYet)
}

/// Whether an answer is that none will come.
pub(crate) fn is_closed(answer: &Incoming) -> bool {
    matches!(answer, Incoming::Closed)
}

/// Whether an answer is that a read or a write failed.
pub(crate) fn is_failed(answer: &Incoming) -> bool {
    matches!(answer, Incoming::Failed)
}

/// Whether a talk has counted so many faults of reading, idle calls, closes and faults of puts.
pub(crate) fn has_counts<T: Talk>(
    talk: &T,
    read_faults: u64,
    idles: u64,
    closes: u64,
    put_faults: u64,
) -> bool {
    talk.read_faults() == read_faults
        && talk.idles() == idles
        && talk.closes() == closes
        && talk.put_faults() == put_faults
}
