//! Why the program ends early.
use ls_value::{NoMemory, TextRefused};
use std::alloc::{AllocError, AllocFailed};
use std::io::{self, ErrorKind};

/// Why the program ends early.
#[derive(Drop)]
pub enum Failed {
    /// Memory was refused.
    NoMemory,
    /// The input or the output failed.
    System,
    /// A line is outside the form of cases.
    BadCase,
}

impl Failed {
    /// What is shown.
    pub fn text(&self) -> &'static str {
        match self {
            Failed::NoMemory => "out of memory",
            Failed::System => "the input or the output failed",
            Failed::BadCase => "a line is no case",
        }
    }
}

impl From<NoMemory> for Failed {
    fn from(_: NoMemory) -> Failed {
        Failed::NoMemory
    }
}

impl From<AllocError> for Failed {
    fn from(_: AllocError) -> Failed {
        Failed::NoMemory
    }
}

impl<T: Drop> From<AllocFailed<T>> for Failed {
    fn from(_: AllocFailed<T>) -> Failed {
        Failed::NoMemory
    }
}

impl From<TextRefused> for Failed {
    fn from(refused: TextRefused) -> Failed {
        match refused {
            TextRefused::NotUtf8 => Failed::BadCase,
            TextRefused::NoMemory => Failed::NoMemory,
        }
    }
}

impl From<io::Error> for Failed {
    fn from(error: io::Error) -> Failed {
        match error.kind() {
            ErrorKind::OutOfMemory => Failed::NoMemory,
            _ => Failed::System,
        }
    }
}
