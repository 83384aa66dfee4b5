//! How words are read.
ghost use Rattle.std.specs.Prelude.{◌≡◌, ◌↔◌, IsTrue, IfOk, Err, None, Some, is_some, map, true};
ghost use Rattle.std.specs.String.{string_bytes};
ghost use Rattle.std.specs.List.{list_all};
ghost use Rattle.ls_arguments.specs.CommandLines.{command_line_of, is_plain};
ghost use Rattle.ls_arguments.specs.CommandLines.{replay_said, serve_said, soak_said};

use crate::command_line::{CommandLine, WordsRefused};
use crate::parser::parsed;
use crate::values::{serve_between, soak_between};
use ls_value::NoMemory;
use std::alloc::Global;

/// Whether a word isn't empty and doesn't begin with `-`.
fn is_plain(word: &str) -> bool
    ensures { result ≡ is_plain word.now }
{
    match word.as_bytes().first() {
        Some(byte) => *byte != b'-',
        None => false,
    }
}

/// Whether each word isn't empty and doesn't begin with `-`.
fn are_plain(words: &[String]) -> bool
    ensures { result ≡ list_all is_plain (map string_bytes words.now) }
{
    for word in words {
        if !is_plain(word.as_str()) {
            return false;
        }
    }
    true
}

/// What the words after `replay` say.
fn replay_said(words: &[String]) -> Option<CommandLine>
    ensures { result ≡ replay_said (map string_bytes words.now) }
{
    match words {
        [] => Some(CommandLine::Replay),
        _ => None,
    }
}

/// What the words after `serve` say.
fn serve_said(words: &[String]) -> Option<CommandLine>
    ensures { result ≡ serve_said (map string_bytes words.now) }
{
    match words {
        [port, feed] => serve_between(port.as_str(), feed.as_str(), None),
        [port, feed, end] => serve_between(port.as_str(), feed.as_str(), Some(end.as_str())),
        _ => None,
    }
}

/// What the words after `soak` say.
fn soak_said(words: &[String]) -> Option<CommandLine>
    ensures { result ≡ soak_said (map string_bytes words.now) }
{
    match words {
        [start, steps] => soak_between(start.as_str(), steps.as_str()),
        _ => None,
    }
}

/// The command line that words are. No memory is taken.
fn line_of(words: &[String]) -> Option<CommandLine>
    ensures { result ≡ command_line_of (map string_bytes words.now) }
{
    let (name, values) = words.split_first()?;
    match name.as_str() {
        "replay" => replay_said(values),
        "serve" => serve_said(values),
        "soak" => soak_said(values),
        _ => None,
    }
}

/// Reads the words of a command line, which don't hold the program's name.
///
/// Words of which one is empty or begins with `-` are no command line. clap reads all others. Where memory is refused
/// to clap they are read without it, so `WordsRefused::Usage` comes exactly where the words are no command line, and
/// `WordsRefused::NoMemory` only where they are one.
pub fn read(alloc: Global, words: &[String]) -> Result<CommandLine, WordsRefused>
    ensures line { IfOk result (λ line. command_line_of (map string_bytes words.now) ≡ Some line) }
    ensures usage { (result ≡ Err WordsRefused.Usage) ↔ (command_line_of (map string_bytes words.now) ≡ None) }
{
    if !are_plain(words) {
        return Err(WordsRefused::Usage);
    }
    match parsed(alloc, words) {
        Ok(Some(line)) => Ok(line),
        Ok(None) => Err(WordsRefused::Usage),
        Err(NoMemory) => match line_of(words) {
            Some(_) => Err(WordsRefused::NoMemory),
            None => Err(WordsRefused::Usage),
        },
    }
}
