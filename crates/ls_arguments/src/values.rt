//! Commands by the texts of their values.
ghost use Rattle.std.specs.Prelude.{◌≡◌, None, option_map};
ghost use Rattle.ls_arguments.specs.CommandLines.{port_in, long_in, steps_in, serve_with, serve_until};
ghost use Rattle.ls_arguments.specs.CommandLines.{serve_between, soak_with, soak_between};

use crate::command_line::CommandLine;
use ls_words::number_in;

/// The greatest number of 18 digits: of the tick of a server's end, and of what a soak starts from (this project's
/// profile).
const GREATEST_LONG: u64 = 999_999_999_999_999_999;

/// The most steps of a soak (this project's profile).
const MOST_STEPS: u64 = 1_000_000;

/// The port that a text says.
fn port_in(text: &str) -> Option<u16>
    ensures { result ≡ port_in text.now }
{
    match number_in(text.as_bytes(), 0, 65_535) {
        Some(port) => Some(port as u16),
        None => None,
    }
}

/// The number of steps that a text says.
fn steps_in(text: &str) -> Option<u32>
    ensures { result ≡ steps_in text.now }
{
    match number_in(text.as_bytes(), 0, MOST_STEPS) {
        Some(steps) => Some(steps as u32),
        None => None,
    }
}

/// A server with these ports, which ends at this tick.
fn serve_with(port: Option<u16>, feed: Option<u16>, end: Option<u64>) -> Option<CommandLine>
    ensures { result ≡ serve_with port feed end }
{
    match (port, feed) {
        (Some(port), Some(feed)) => Some(CommandLine::Serve { port, feed, end }),
        _ => None,
    }
}

/// A server with these ports, which ends at the tick that a text says.
fn serve_until(port: Option<u16>, feed: Option<u16>, end: &str) -> Option<CommandLine>
    ensures { result ≡ serve_until port feed (long_in end.now) }
{
    match number_in(end.as_bytes(), 0, GREATEST_LONG) {
        Some(end) => serve_with(port, feed, Some(end)),
        None => None,
    }
}

/// A server with the ports that two texts say, and with the end that a third one says, where there is one.
pub(crate) fn serve_between(port: &str, feed: &str, end: Option<&str>) -> Option<CommandLine>
    ensures { result ≡ serve_between port.now feed.now (option_map (λ text. text.now) end.entry) }
{
    match end {
        Some(end) => serve_until(port_in(port), port_in(feed), end),
        None => serve_with(port_in(port), port_in(feed), None),
    }
}

/// A soak from this number on and with so many steps.
fn soak_with(start: Option<u64>, steps: Option<u32>) -> Option<CommandLine>
    ensures { result ≡ soak_with start steps }
{
    match (start, steps) {
        (Some(start), Some(steps)) => Some(CommandLine::Soak { start, steps }),
        _ => None,
    }
}

/// A soak by the numbers that two texts say.
pub(crate) fn soak_between(start: &str, steps: &str) -> Option<CommandLine>
    ensures { result ≡ soak_between start.now steps.now }
{
    soak_with(
        number_in(start.as_bytes(), 0, GREATEST_LONG),
        steps_in(steps),
    )
}
