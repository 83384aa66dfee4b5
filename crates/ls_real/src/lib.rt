//! The real outside: a source over std's readers and a sink over std's writers, as a program reads its input and writes
//! its output.
//!
//! `StdSource` and `StdSink` meet the traits of ls_outside. They tell what their reader or writer tells; a socket or a
//! terminal tells nothing, and then nothing is claimed of the bytes. A `Reader` and a `Writer` are those of std, and
//! contracts can name the answer of one call:
//!
//! ```text
//! let mut source = StdSource::new(rt.reader());
//! let mut sink = StdSink::new(io::writer(rt));
//! ```
//!
//! It opens no file and no socket, and keeps no bytes between a call and the next.
#![tactic(auto)]

mod cross;
mod once;
mod std_io;

pub use once::{Reader, Writer};
pub use std_io::{StdSink, StdSource, WRITE_TRIES};
