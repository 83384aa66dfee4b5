//! Tables of cases for what reads and prints text formats: a program of tests, and no part of the server.
//!
//! Each line of the input is a case: a reader's name, a space, and what it is given. Each gives one line of output:
//! what the reader says. Empty lines and comments, which begin with `#`, give an empty line, so that line n of `stdout`
//! (what is expected, worked out by hand) belongs to line n of `stdin`.
//!
//! `\n` is a line end, `\\` a backslash, and `\xC3` the byte of these hexadecimal digits, in cases and in what is said.
//! In a case `{0..3 a#b}` is `a0ba1ba2b`: the text for each number from 0 below 3, which takes the place of `#`.
//!
//! | Reader | What it is given | What it says |
//! |---|---|---|
//! | `new` | nothing | forgets the lines of `given` |
//! | `given` | a line of a script | its step, behind the earlier lines of `given`; and keeps it as one of them |
//! | `script` | lines of a script | the step of the last of them, behind the lines of `given` |
//! | `params` | a number, an `add` line | the parameters that it stands for at that line, behind the lines of `given` |
//! | `note` | a note's name, its number | the note's text |
//! | `request` | `ws` or `http`, a name, a form text | the request |
//! | `pairs` | pairs `name=text`, divided by `;` | the control request of these pairs over a WebSocket |
//! | `form` | a form text | its pairs, each with `;` behind it |
//! | `form_count` | a form text | the number of its pairs |
//! | `milli` | a decimal | its thousandths |
//! | `decimal` | thousandths | their decimal |
//! | `config` | an items file | the set's name; each item with the first letter of its kind, and its fields |
//! | `item_count` | an items file | the number of its items |
//! | `event` | names of fields, an event text | the event |
//! | `order` | cells | the order, where the second cell is the key and the third the command |
//! | `own_row` | cells | the row that they make of nulls |
//! | `row` | two rows | the coded fields of the second after the first |
//! | `first_row` | a row | its coded fields |
//! | `fields` | a row, coded fields | the row that they say after it |
//! | `first_fields` | a number, coded fields | the row of so many fields that they say |
//! | `line` | a line of the protocol | whether it counts as data, and its text |
//!
//! Fields, cells and values are divided by commas. A cell `_` is unchanged; a cell or a value `NULL` is null. What is
//! refused is said by a word for its cause, and the number that the cause tells.
#![tactic(auto)]

mod configs;
mod events;
mod failed;
mod forms;
mod lines;
mod requests;
mod scripts;
mod spelling;
mod updates;
mod words;

use failed::Failed;
use ls_form::read_milli;
use scripts::Given;
use spelling::{meant, spelled};
use std::alloc::Global;
use std::process::ExitCode;
use std::rt::Runtime;
use words::maybe_number;

/// What a reader says of its input.
fn said(alloc: Global, given: &mut Given, reader: &str, input: &[u8]) -> Result<Vec<u8>, Failed> {
    match reader {
        "new" => {
            *given = Given::new(alloc);
            Ok(Vec::new(alloc))
        }
        "given" => given.given(alloc, input),
        "script" => given.script(alloc, input),
        "params" => given.params(alloc, input),
        "line" => lines::line(alloc, input),
        _ => {
            let text = text_said(alloc, reader, input)?;
            Ok(text.into_bytes())
        }
    }
}

/// What a reader that keeps nothing says of its input.
fn text_said(alloc: Global, reader: &str, input: &[u8]) -> Result<String, Failed> {
    match reader {
        "note" => scripts::note(alloc, input),
        "request" => requests::request(alloc, input),
        "pairs" => requests::pairs(alloc, input),
        "form" => forms::form(alloc, input, false),
        "form_count" => forms::form(alloc, input, true),
        "milli" => maybe_number(alloc, read_milli(input)),
        "decimal" => forms::decimal(alloc, input),
        "config" => configs::config(alloc, input, false),
        "item_count" => configs::config(alloc, input, true),
        "event" => events::event(alloc, input),
        "order" => events::order(alloc, input),
        "own_row" => events::own_row(alloc, input),
        "row" => updates::row(alloc, input),
        "first_row" => updates::first_row(alloc, input),
        "fields" => updates::fields(alloc, input),
        "first_fields" => updates::first_fields(alloc, input),
        _ => Err(Failed::BadCase),
    }
}

/// The line of output for a case.
fn answered(alloc: Global, given: &mut Given, case: &str) -> Result<String, Failed> {
    let (reader, input) = match case.split_once(' ') {
        Some(parts) => parts,
        None => (case, ""),
    };
    let input = meant(alloc, input)?;
    let text = said(alloc, given, reader, &input)?;
    spelled(alloc, &text)
}

/// Answers each case of the input.
fn run<R: Runtime + AllocGlobal>(rt: &R) -> Result<(), Failed> {
    let mut given = Given::new(rt.alloc());
    for line in rt.lines(rt.alloc()) {
        let line = line?;
        if line.as_str().is_empty() || line.as_str().starts_with('#') {
            println!(rt; "")?;
        } else {
            let text = answered(rt.alloc(), &mut given, line.as_str())?;
            println!(rt; "{text}")?;
        }
    }
    Ok(())
}

fn main(rt: HostRuntime) -> ExitCode {
    match run(&rt) {
        Ok(()) => ExitCode::SUCCESS,
        Err(failed) => {
            let _unwritten = eprintln!(rt; "ls_tables: {}", failed.text());
            ExitCode::FAILURE
        }
    }
}
