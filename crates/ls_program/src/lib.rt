//! A run of the program, from its words to its status.
//!
//! `run` has words, a source and a sink, a clock, a door and a spawner, and a `Status` for its end. ls_arguments reads
//! the words. `replay` plays a script, as `run` of ls_run does; `serve` runs a server, as `serve` of ls_serve does;
//! `soak` draws a script and counts what it prints, as `soak` of ls_soak does. Other words are none of a command:
//!
//! ```text
//! let mut spawner = Spawner::threads(alloc, STACK_BYTES);
//! let status = run(rt, alloc, &words, &mut source, &mut sink, &mut clock, &mut door, &mut spawner);
//! ```
//!
//! The words don't hold the program's name. The command line and the real objects are the program's own.
#![tactic(auto)]

mod commands;
mod running;

pub use ls_run::Status;
pub use running::run;
