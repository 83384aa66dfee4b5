//! Measures calls of the libraries by themselves. It is no part of the server; `bench/` has its commands.
#![tactic(auto)]

mod fields;
mod forms;
mod offers;

use ls_config::read;
use ls_shared::Blank;
use ls_value::NoMemory;
use std::alloc::AllocError;
use std::marker::Brand;
use std::process::ExitCode;
use std::rt::Runtime;
use std::{env, io};

/// What is shown without a word that names a measurement.
const USAGE: &str = "usage: ls_bench fields, forms or offers";

/// Why a measurement ended.
#[derive(Drop)]
pub enum Failed {
    /// Memory was refused.
    NoMemory,
    /// The clock, the words or the output failed.
    System,
    /// What was written wasn't read.
    Unread,
    /// The time grows faster than what is read.
    Grows,
    /// An offer was refused.
    Refused,
    /// Four threads on four items offer too few.
    TooSlow,
}

impl From<NoMemory> for Failed {
    fn from(_: NoMemory) -> Failed {
        Failed::NoMemory
    }
}

impl From<AllocError> for Failed {
    fn from(_: AllocError) -> Failed {
        Failed::NoMemory
    }
}

impl From<io::Error> for Failed {
    fn from(_: io::Error) -> Failed {
        Failed::System
    }
}

/// What can be measured.
enum Measurement {
    Fields,
    Forms,
    Offers,
}

/// The measurement that the word of the command line names.
fn asked<R: Runtime + AllocGlobal>(rt: &R) -> Result<Option<Measurement>, Failed> {
    let mut words = env::args(rt)?;
    let _name = words.next();
    match words.next() {
        Some(word) if word.as_str() == "fields" => Ok(Some(Measurement::Fields)),
        Some(word) if word.as_str() == "forms" => Ok(Some(Measurement::Forms)),
        Some(word) if word.as_str() == "offers" => Ok(Some(Measurement::Offers)),
        _ => Ok(None),
    }
}

/// The status of an end.
fn status_of(ended: Result<(), Failed>) -> ExitCode {
    match ended {
        Ok(()) => ExitCode::SUCCESS,
        Err(_) => ExitCode::FAILURE,
    }
}

/// Says how it is used.
fn say_usage<R: Runtime + AllocGlobal>(rt: &R) -> Result<(), Failed> {
    println!(rt; "{USAGE}")?;
    Ok(())
}

fn main(rt: HostRuntime) -> ExitCode {
    match asked(&rt) {
        Ok(Some(Measurement::Fields)) => return status_of(fields::measure(&rt)),
        Ok(Some(Measurement::Forms)) => return status_of(forms::measure(&rt)),
        Ok(Some(Measurement::Offers)) => {}
        Ok(None) => return status_of(say_usage(&rt)),
        Err(_) => return ExitCode::FAILURE,
    }
    let Ok(blank) = Blank::new(rt.alloc()) else {
        return ExitCode::FAILURE;
    };
    let Ok(items) = offers::items(rt.alloc()) else {
        return ExitCode::FAILURE;
    };
    let Ok(config) = read(rt.alloc(), items.as_bytes()) else {
        return ExitCode::FAILURE;
    };
    status_of(offers::measure::<Brand, _>(&rt, blank, config))
}
