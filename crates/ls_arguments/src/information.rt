//! What the program says of itself.
ghost use Rattle.std.specs.Prelude.{◌≡◌, map};
ghost use Rattle.std.specs.String.{string_bytes};
ghost use Rattle.ls_arguments.specs.CommandLines.{information_in, information_of};

/// What `--help` shows.
const HELP: &str = "\
tlcpd: a push server for the protocol TLCP 2.1

Usage: tlcpd replay
       tlcpd serve <port> <feed> [<end>]
       tlcpd soak <start> <steps>
       tlcpd --help | --version

replay   reads a script from standard input, does its lines one by one,
         and writes what they print to standard output
serve    reads a config from standard input, listens for clients on <port>
         and for feeds of this machine on <feed>, and serves until the tick
         <end>, in ms from its start, or for good where none is given.
         A port 0 is one that is free: the first line of standard output
         has both ports.
soak     draws a script of <steps> steps from the number <start>, does its
         lines, and writes how many lines and updates they print

Examples: tlcpd replay <script            docs/SCRIPT.md is the reference
          tlcpd serve 8080 9090 <config   docs/SERVE.md
          tlcpd soak 1 100000             docs/SCRIPT.md
docs/TLCP.md is for authors of clients: the requests, lines and codes of TLCP.

A script and a config are text in UTF-8 whose lines end with LF alone (no CR, no
byte-order mark). Numbers are decimal digits without a sign or a leading zero:
ports to 65535, <end> and <start> to 999999999999999999, <steps> to 1000000.

Status   0  the script was read to its end, and each line was done; or the
            server came to its end; or the soak was done
         2  the words are no command
         3  a line is outside the grammar, or names what isn't declared
         4  a read failed
         5  a write failed
         6  memory was refused
         7  a port can't be listened on
         8  a line of the config is outside the format
Standard error has the cause, with the line's number at 3 and 8.
";

/// What `--version` shows.
const VERSION: &str = "tlcpd 0.1.0\n";

/// What the program says of itself, where its only word asks for it.
#[derive(Clone, Copy, Debug, PartialEq, Eq)]
pub enum Information {
    /// How it is used: each command with an example, and where its reference stands.
    Help,
    /// Which version it is.
    Version,
}

impl Information {
    /// Its text, whole lines.
    pub fn text(self) -> &'static str
        ensures help { self ≡ Information.Help → result.now ≡ HELP.now }
        ensures version { self ≡ Information.Version → result.now ≡ VERSION.now }
    {
        match self {
            Information::Help => HELP,
            Information::Version => VERSION,
        }
    }
}

/// What the words of a command line, which don't hold the program's name, ask it to say of itself: `None` exactly where
/// they aren't `--help` or `--version` alone. `read` answers these two words `WordsRefused::Usage`.
pub fn information_of(words: &[String]) -> Option<Information>
    ensures { result ≡ information_of (map string_bytes words.now) }
{
    match words {
        [word] => information_in(word.as_str()),
        _ => None,
    }
}

/// What this word alone asks for.
fn information_in(word: &str) -> Option<Information>
    ensures { result ≡ information_in word.now }
{
    match word {
        "--help" => Some(Information::Help),
        "--version" => Some(Information::Version),
        _ => None,
    }
}
