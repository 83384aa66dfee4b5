//! Why the program ends early.
use ls_config::ConfigRefused;
use ls_script::ScriptRefused;
use ls_value::NoMemory;
use std::alloc::{AllocError, AllocFailed};
use std::io::{self, ErrorKind};

/// Why the program ends early.
#[derive(Drop)]
pub(crate) enum Failed {
    /// Memory was refused.
    NoMemory,

    /// The input or the output failed.
    System,

    /// A line is outside the form of cases.
    BadCase,
}

impl Failed {
    /// What is shown.
    pub(crate) fn text(&self) -> &'static str {
        match self {
            Failed::NoMemory => "out of memory",
            Failed::System => "the input or the output failed",
            Failed::BadCase => "a line is no case",
        }
    }
}

impl From<NoMemory> for Failed {
    fn from(_: NoMemory) -> Failed {
        Failed::NoMemory
    }
}

impl From<ConfigRefused> for Failed {
    fn from(cause: ConfigRefused) -> Failed {
        match cause {
            ConfigRefused::BadConfig { line: _ } => Failed::BadCase,
            ConfigRefused::NoMemory => Failed::NoMemory,
        }
    }
}

impl From<ScriptRefused> for Failed {
    fn from(cause: ScriptRefused) -> Failed {
        match cause {
            ScriptRefused::BadLine => Failed::BadCase,
            ScriptRefused::NoMemory => Failed::NoMemory,
        }
    }
}

impl From<AllocError> for Failed {
    fn from(_: AllocError) -> Failed {
        Failed::NoMemory
    }
}

impl<T: Drop> From<AllocFailed<T>> for Failed {
    fn from(_: AllocFailed<T>) -> Failed {
        Failed::NoMemory
    }
}

impl From<io::Error> for Failed {
    fn from(error: io::Error) -> Failed {
        match error.kind() {
            ErrorKind::OutOfMemory => Failed::NoMemory,
            _ => Failed::System,
        }
    }
}
