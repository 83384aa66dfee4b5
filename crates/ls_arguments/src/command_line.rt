//! What the words of the command line are, or why they are none.

/// What the words ask the program to do.
#[derive(Clone, Copy, Debug, PartialEq, Eq)]
pub enum CommandLine {
    /// To replay a script.
    Replay,

    /// To run a server.
    Serve {
        /// The port for clients; 0 is one that is free.
        port: u16,
        /// The port for feeds; 0 is one that is free.
        feed: u16,
        /// The tick at which the server ends, in ms from its start. Without one it serves for good.
        end: Option<u64>,
    },

    /// To draw a script, and to count what it prints.
    Soak {
        /// The number that the script is drawn from.
        start: u64,
        /// How many steps it has.
        steps: u32,
    },
}

/// Why words are no command line.
#[derive(Clone, Copy, Debug, PartialEq, Eq)]
pub enum WordsRefused {
    /// They are none of a command.
    Usage,
    /// They are one, and memory was refused.
    NoMemory,
}
