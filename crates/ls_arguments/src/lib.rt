//! The command line of the program.
//!
//! `read` says what the words ask the program to do, or that they are none of a command:
//!
//! ```text
//! serve 8080 9090          CommandLine::Serve { port: 8080, feed: 9090, end: None }
//! serve 8080               WordsRefused::Usage
//! ```
//!
//! `information_of` says whether they ask what the program says of itself, `--help` or `--version`, and
//! `Information::text` is what it says. Both take the words without the program's name. Clap reads the words, and this
//! crate the numbers among them; which words are a command line is a definition of this crate's own, in
//! `specs/CommandLines.antt`. Nothing here reads the process's own words, and nothing is printed.
#![tactic(auto)]

mod command_line;
mod information;
mod parser;
mod reading;
#[cfg(test)]
mod tests;
mod values;

pub use command_line::{CommandLine, WordsRefused};
pub use information::{Information, information_of};
pub use reading::read;
