//! The reader of scripts (this project's profile).
//!
//! A `Script` keeps what the lines so far declared. `Script::read` says what the next line asks for, as a `Step` and
//! how often, and declares what it declares; `add_params` gives the parameters of the request that an `add` line
//! stands for. It does no step: `ls_hub` does. The types, and what they mean, are those of `ls_step`, and have their
//! names here too.
#![tactic(auto)]

mod adding;
mod extras;
mod script;
mod words;

pub use adding::add_params;
pub use ls_step::{AddWords, Extras, Out, Repeat, Step, append, print};
pub use script::{Script, ScriptRefused};
