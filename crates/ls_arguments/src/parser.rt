//! The commands as clap reads them.
ghost use Rattle.std.specs.Prelude.{◌≡◌, IfOk, true, false, codes, map, option_map};
ghost use Rattle.std.specs.String.{string_bytes};
ghost use Rattle.std.specs.List.{list_all};
ghost use Rattle.clap.specs.Matches.{found_of};
ghost use Rattle.clap.specs.Walk.{rows_of, first_of};
ghost use Rattle.clap.specs.Simple.{app_of, on_top, new_app, subcommand_rows_of};
ghost use Rattle.clap.specs.declared.builder.command.Command.TheViews.{out-Command as fields_of};
ghost use Rattle.ls_arguments.specs.CommandLines.{command_line_of, is_plain};
ghost use Rattle.ls_arguments.specs.Parser.{serve_app, soak_app, settings, program_app};
ghost use Rattle.ls_arguments.specs.Parser.{serve_in, soak_in, line_found, entered_line};

use crate::command_line::CommandLine;
use crate::values::{serve_between, soak_between};
use clap::error::ErrorKind;
use clap::{Arg, ArgMatches, Command};
use ls_value::NoMemory;
use std::alloc::{AllocError, Global};

/// `serve <port> <feed> [<end>]`.
fn serve<'a>(alloc: Global) -> Result<Command<'a>, AllocError>
    ensures shape { IfOk result (λ c. app_of c ≡ serve_app) }
    ensures local { IfOk result (λ c. (fields_of c).has_globals ≡ false) }
{
    let port = Arg::new(alloc, "port").required(true);
    let feed = Arg::new(alloc, "feed").required(true);
    let end = Arg::new(alloc, "end");
    let command = Command::new(alloc, "serve").arg(port)?.arg(feed)?.arg(end)?;
    Ok(command)
}

/// `soak <start> <steps>`.
fn soak<'a>(alloc: Global) -> Result<Command<'a>, AllocError>
    ensures shape { IfOk result (λ c. app_of c ≡ soak_app) }
    ensures local { IfOk result (λ c. (fields_of c).has_globals ≡ false) }
{
    let start = Arg::new(alloc, "start").required(true);
    let steps = Arg::new(alloc, "steps").required(true);
    let command = Command::new(alloc, "soak").arg(start)?.arg(steps)?;
    Ok(command)
}

/// The program without its commands. Its words don't hold its name, and nothing of clap's own is added to its commands.
fn program<'a>(alloc: Global) -> Command<'a>
    ensures { app_of result ≡ on_top settings (new_app (codes "tlcpd")) }
{
    Command::new(alloc, "tlcpd")
        .no_binary_name(true)
        .disable_help_flag(true)
        .disable_help_subcommand(true)
        .disable_version_flag(true)
        .subcommand_required(true)
}

/// The program with its commands.
fn command<'a>(alloc: Global) -> Result<Command<'a>, AllocError>
    ensures { IfOk result (λ c. app_of c ≡ program_app) }
{
    let replay = Command::new(alloc, "replay");
    let serve = serve(alloc)?;
    let soak = soak(alloc)?;
    let command = program(alloc)
        .subcommand(replay)?
        .subcommand(serve)?
        .subcommand(soak)?;
    Ok(command)
}

/// The first value that clap found of an argument.
fn value_of<'a>(values: &ArgMatches<'a>, id: &str) -> Option<&'a str>
    ensures { option_map (λ s. s.now) result ≡ first_of id.now (rows_of (found_of values.now)) }
{
    values.get_str(id)
}

/// A server by the values that clap found.
fn serve_in(values: &ArgMatches) -> Option<CommandLine>
    ensures { result ≡ serve_in (rows_of (found_of values.now)) }
{
    let port = value_of(values, "port")?;
    let feed = value_of(values, "feed")?;
    serve_between(port, feed, value_of(values, "end"))
}

/// A soak by the values that clap found.
fn soak_in(values: &ArgMatches) -> Option<CommandLine>
    ensures { result ≡ soak_in (rows_of (found_of values.now)) }
{
    let start = value_of(values, "start")?;
    let steps = value_of(values, "steps")?;
    soak_between(start, steps)
}

/// The command of this name with the values that clap found.
fn line_found(name: &str, values: &ArgMatches) -> Option<CommandLine>
    ensures { result ≡ line_found name.now (rows_of (found_of values.now)) }
{
    match name {
        "replay" => Some(CommandLine::Replay),
        "serve" => serve_in(values),
        "soak" => soak_in(values),
        _ => None,
    }
}

/// The command that clap entered, with the values that it found.
fn entered_line(matches: &ArgMatches) -> Option<CommandLine>
    ensures { result ≡ entered_line (subcommand_rows_of matches.now) }
{
    let (name, values) = matches.subcommand()?;
    line_found(name, values)
}

/// The command line that words are, as clap reads them: `None` exactly where they are none.
pub(crate) fn parsed(alloc: Global, words: &[String]) -> Result<Option<CommandLine>, NoMemory>
    requires { list_all is_plain (map string_bytes words.now) ≡ true }
    ensures { IfOk result (λ line. line ≡ command_line_of (map string_bytes words.now)) }
{
    let Ok(command) = command(alloc) else {
        return Err(NoMemory);
    };
    match command.try_get_matches_from(words) {
        Ok(matches) => Ok(entered_line(&matches)),
        Err(error) => match error.kind() {
            ErrorKind::OutOfMemory => Err(NoMemory),
            _ => Ok(None),
        },
    }
}
