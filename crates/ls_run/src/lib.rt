//! A run of the program, from its words to its status.
//!
//! `run` has words, a `Source` and a `Sink` for its input and output, and a `Status` for its end. It reads pieces and
//! feeds them to a `Replay`, which finds the lines in them, has each done by an `Engine`, and writes at once what the
//! lines of a piece print. `Engine::line` does one line: it reads its step and has the hub do it.
//!
//! ```text
//! let status = run(rt, alloc, &words, &mut source, &mut sink);   // words: replay
//! let number = status.number();                                  // the number with which the program ends
//! ```
//!
//! What `run` promises is `Ran` and `Completes` in specs/. The command line and the real input and output are the
//! program's own. It serves no network: a script stands for the feeds and the clients.
#![tactic(auto)]

mod engine;
mod replay;
mod running;

pub use engine::{Engine, LineRefused};
pub use running::{Status, run};
