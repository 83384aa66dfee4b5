//! The tests of the libraries that no threads share: each public call once with ample memory, and what no line of text can
//! say. Those of what threads share stand in `ls_thread_tests`.
//!
//! They stand together here, a module for each crate, and not beside what they test: a crate with tests is proved
//! twice, and each set of tests is linked with all that it calls, and loads what is proved of that. What a line of text
//! can say is a case of `ls_tables`, and costs no proof. A test is short, since it is proved too: a helper with two or
//! three `?` answers whether all is as it must be.
#![tactic(auto)]

#[cfg(test)]
mod budget;
#[cfg(test)]
mod cell;
#[cfg(test)]
mod config;
#[cfg(test)]
mod event;
#[cfg(test)]
mod event_text;
#[cfg(test)]
mod form;
#[cfg(test)]
mod keep;
#[cfg(test)]
mod line;
#[cfg(test)]
mod lines;
#[cfg(test)]
mod made;
#[cfg(test)]
mod mirror;
#[cfg(test)]
mod orders;
#[cfg(test)]
mod outside;
#[cfg(test)]
mod plain;
#[cfg(test)]
mod queue;
#[cfg(test)]
mod request;
#[cfg(test)]
mod round;
#[cfg(test)]
mod script;
#[cfg(test)]
mod update;
#[cfg(test)]
mod value;
#[cfg(test)]
mod words;
