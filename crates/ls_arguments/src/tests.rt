//! Command lines by tables: every command, every fault of usage, and what the program says of itself.
use crate::command_line::{CommandLine, WordsRefused};
use crate::information::{Information, information_of};
use crate::reading::read;
use std::alloc::{AllocError, Global};
use std::test::Fail;

/// Words and the command lines that they are.
const COMMAND_LINES: &[(&str, CommandLine)] = &[
    ("replay", CommandLine::Replay),
    (
        "serve 0 0",
        CommandLine::Serve {
            port: 0,
            feed: 0,
            end: None,
        },
    ),
    (
        "serve 8080 9090",
        CommandLine::Serve {
            port: 8_080,
            feed: 9_090,
            end: None,
        },
    ),
    (
        "serve 65535 1",
        CommandLine::Serve {
            port: 65_535,
            feed: 1,
            end: None,
        },
    ),
    (
        "serve 1 65535 0",
        CommandLine::Serve {
            port: 1,
            feed: 65_535,
            end: Some(0),
        },
    ),
    (
        "serve 1 2 999999999999999999",
        CommandLine::Serve {
            port: 1,
            feed: 2,
            end: Some(999_999_999_999_999_999),
        },
    ),
    ("soak 0 0", CommandLine::Soak { start: 0, steps: 0 }),
    (
        "soak 1 100000",
        CommandLine::Soak {
            start: 1,
            steps: 100_000,
        },
    ),
    (
        "soak 999999999999999999 1000000",
        CommandLine::Soak {
            start: 999_999_999_999_999_999,
            steps: 1_000_000,
        },
    ),
];

/// Words that are none of a command.
const NO_COMMAND: &[&str] = &[
    // No command.
    "",
    "help",
    "tap",
    "relay",
    "Replay",
    "REPLAY",
    "replays",
    "repla",
    " replay",
    "8080 9090",
    "tlcpd replay",
    // Too many words and too few.
    "replay replay",
    "replay script",
    "replay 1",
    "replay ",
    "serve",
    "serve 1",
    "serve 1 2 3 4",
    "serve 1 2 3 4 5",
    "soak",
    "soak 1",
    "soak 1 2 3",
    "soak 1 2 3 4",
    // Numbers out of range.
    "serve 65536 1",
    "serve 1 65536",
    "serve 1 2 1000000000000000000",
    "serve 99999999999999999999 1",
    "soak 1000000000000000000 1",
    "soak 1 1000001",
    "soak 18446744073709551617 1",
    // Texts that are no numbers.
    "serve x 1",
    "serve 1 x",
    "serve 1 2 x",
    "serve 01 1",
    "serve 1 00",
    "serve +1 1",
    "serve 1 2 +3",
    "serve 0x1 1",
    "serve 1.0 1",
    "serve 1 2\t",
    "soak x 1",
    "soak 1 x",
    "soak 01 1",
    "soak 1 +1",
    // Empty words.
    "serve  1",
    "serve 1 2 ",
    " serve 1 2",
    "soak  1",
    "soak 1 2 ",
    // Words that begin with `-`.
    "-",
    "--",
    "-replay",
    "replay -",
    "replay --",
    "-- replay",
    "serve -- 1 2",
    "serve 1 -- 2",
    "serve 1 2 --",
    "serve -1 2",
    "serve 1 -2",
    "serve 1 2 -3",
    "soak -1 1",
    "soak 1 -1",
    "soak -- 1 2",
    "soak --start=1 2",
    // What clap would answer if it were asked to.
    "-h",
    "-V",
    "--help",
    "--version",
    "help replay",
    "replay help",
    "serve 1 2 help",
    "serve help",
    "replay --help",
    "--help replay",
    "soak --version",
    "serve --port=1 2",
];

/// Words, and what they ask the program to say of itself.
const ASKED: &[(&str, Option<Information>)] = &[
    ("--help", Some(Information::Help)),
    ("--version", Some(Information::Version)),
    ("", None),
    ("replay", None),
    ("help", None),
    ("-h", None),
    ("-V", None),
    ("-help", None),
    ("--Help", None),
    ("--help ", None),
    ("--help --help", None),
    ("--help --version", None),
    ("replay --help", None),
    ("--version replay", None),
];

/// How the program is used: each form stands on a line of the help.
const FORMS: &[&str] = &[
    "Usage: tlcpd replay",
    "       tlcpd serve <port> <feed> [<end>]",
    "       tlcpd soak <start> <steps>",
    "       tlcpd --help | --version",
];

/// The examples of the help: each command once, with where its reference stands.
const EXAMPLES: &[(&str, CommandLine)] = &[
    ("docs/SCRIPT.md", CommandLine::Replay),
    (
        "docs/SERVE.md",
        CommandLine::Serve {
            port: 8080,
            feed: 9090,
            end: None,
        },
    ),
    (
        "docs/SCRIPT.md",
        CommandLine::Soak {
            start: 1,
            steps: 100_000,
        },
    ),
];

/// These words, divided by single spaces, each as a text of its own.
fn words_of(alloc: Global, words: &str) -> Result<Vec<String>, AllocError> {
    let mut owned = Vec::new(alloc);
    for word in words.split(' ') {
        owned.push(String::from_str(alloc, word)?)?;
    }
    Ok(owned)
}

/// What is read of these words.
fn read_of(alloc: Global, words: &str) -> Result<Result<CommandLine, WordsRefused>, AllocError> {
    let words = words_of(alloc, words)?;
    Ok(read(alloc, &words))
}

#[test]
fn command_lines(rt: HostRuntime) -> Result<(), Fail> {
    for (words, line) in COMMAND_LINES {
        assert_eq!(rt; read_of(rt.alloc(), words)?, Ok(*line), "at {words}");
    }
    Ok(())
}

#[test]
fn words_of_no_command(rt: HostRuntime) -> Result<(), Fail> {
    let none = Vec::new(rt.alloc());
    assert_eq!(rt; read(rt.alloc(), &none), Err(WordsRefused::Usage));
    for words in NO_COMMAND {
        assert_eq!(rt;
            read_of(rt.alloc(), words)?,
            Err(WordsRefused::Usage),
            "at {words}"
        );
    }
    Ok(())
}

#[test]
fn what_is_asked_of_the_program(rt: HostRuntime) -> Result<(), Fail> {
    for (words, wanted) in ASKED {
        let words_said = words_of(rt.alloc(), words)?;
        assert_eq!(rt; information_of(&words_said), *wanted, "at {words}");
    }
    assert_eq!(rt; Information::Version.text(), "tlcpd 0.1.0\n");
    Ok(())
}

#[test]
fn the_help_shows_how_the_program_is_used(rt: HostRuntime) -> Result<(), Fail> {
    let help = Information::Help.text();
    assert!(rt; help.ends_with('\n'));
    for line in help.lines() {
        assert!(rt; line.len() <= 80, "at {line}");
    }
    for form in FORMS {
        assert!(rt; help.lines().any(|line| line == *form), "at {form}");
    }
    Ok(())
}

/// The words of an example of the help, up to where its input or its reference begins.
fn example_of(line: &str) -> &str {
    let words = line.strip_prefix("tlcpd ").unwrap_or("");
    let words = words.split('<').next().unwrap_or("");
    words.split("  ").next().unwrap_or("").trim_end()
}

#[test]
fn the_examples_of_the_help_are_command_lines(rt: HostRuntime) -> Result<(), Fail> {
    let help = Information::Help.text();
    let mut lines = help
        .lines()
        .skip_while(|line| !line.starts_with("Examples: "));
    for (reference, wanted) in EXAMPLES {
        let line = lines.next().unwrap_or("");
        let line = line.strip_prefix("Examples: ").unwrap_or(line.trim_start());
        assert!(rt; line.contains(*reference), "at {line}");
        assert_eq!(rt;
            read_of(rt.alloc(), example_of(line))?,
            Ok(*wanted),
            "at {line}"
        );
    }
    Ok(())
}
