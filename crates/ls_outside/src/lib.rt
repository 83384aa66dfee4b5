//! The outside of the server: what is read from and what is written to, what tells the time, and where tests hold calls
//! up. Of what it stands on it uses only that memory may be wanting.
//!
//! A `Source` gives bytes and a `Sink` takes them; `write_all` writes a whole piece. Each counts its faults, and a
//! source its idle calls too. A count never falls, rises by one with its own answer alone, and at its type's last value
//! stands still.
//!
//! `MemSource` and `MemSink` are in memory, and their calls go by a list, for tests; `PlainSource` and `PlainSink`
//! never fail. What a source has not given yet and what a sink holds is told by objects in memory. A socket or a
//! terminal tells nothing, and then nothing is claimed of the bytes; such real objects are made elsewhere.
//!
//! A `Pipe` is both, as a connection is, and neither half changes the other; `MemPipe` and `PlainPipe` are made of the
//! halves above. `Liar` is a pipe that tells nothing and isn't honest about its content. A `Clock` tells ticks that
//! never fall, and `MemClock` tells those of a list. A `Gate` is passed by calls that hold a lock; `OpenGate` holds
//! nobody up.
//!
//! ```text
//! let mut pipe = MemPipe { source: MemSource::new(bytes, cuts, calls), sink: MemSink::new(alloc, faults) };
//! ```
//!
//! It opens no file and no socket, and keeps no bytes between a read and the next.
#![tactic(auto)]

mod call;
mod clock;
mod cross;
mod gate;
mod liar;
mod mem_sink;
mod mem_source;
mod pipe;
mod sink;
mod source;

pub use call::Call;
pub use clock::{Clock, MemClock};
pub use gate::{Gate, OpenGate, Point};
pub use liar::Liar;
pub use mem_sink::{MemSink, PlainSink};
pub use mem_source::{MemSource, PlainSource};
pub use pipe::{MemPipe, Pipe, PlainPipe};
pub use sink::{Put, Sink, write_all};
pub use source::{Got, Source};
