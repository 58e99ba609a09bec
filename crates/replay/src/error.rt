//! What ends a run before its input does.

use std::alloc::{AllocError, AllocFailed};
use std::{fmt, io};

/// What is wrong with a line.
#[derive(Clone, Copy, PartialEq, Eq, Debug)]
pub enum ScriptError {
    Text,
    Command,
    Number,
    Escape,
    Hex,
    Signature,
    Description,
    Setting,
    Argument,
    Handle,
    Child,
    NoInterface,
    NotConnected,
    Connected,
}

/// A line that is wrong, or a failure of the system's.
#[derive(Debug, Drop)]
pub enum Stop {
    Script(ScriptError),
    Memory,
    Io(io::Error),
}

impl From<ScriptError> for Stop {
    fn from(error: ScriptError) -> Stop {
        Stop::Script(error)
    }
}

impl From<AllocError> for Stop {
    fn from(_error: AllocError) -> Stop {
        Stop::Memory
    }
}

impl<T: Drop> From<AllocFailed<T>> for Stop {
    fn from(_error: AllocFailed<T>) -> Stop {
        Stop::Memory
    }
}

impl From<io::Error> for Stop {
    fn from(error: io::Error) -> Stop {
        Stop::Io(error)
    }
}

impl ScriptError {
    fn text(self) -> &'static str {
        match self {
            ScriptError::Text => "not UTF-8",
            ScriptError::Command => "no such command, or not with these words",
            ScriptError::Number => "not a number of this range",
            ScriptError::Escape => "a % without two hexadecimal digits",
            ScriptError::Hex => "not bytes in hexadecimal digits",
            ScriptError::Signature => "not a signature",
            ScriptError::Description => "not a word of a description",
            ScriptError::Setting => "not a setting of a connection",
            ScriptError::Argument => "not an argument",
            ScriptError::Handle => "not the name of a handle",
            ScriptError::Child => "not an interface and a version",
            ScriptError::NoInterface => "no interface is declared before it",
            ScriptError::NotConnected => "not before connect",
            ScriptError::Connected => "not after connect",
        }
    }
}

impl fmt::Display for ScriptError {
    fn fmt<W: fmt::Write>(&self, f: &mut fmt::Formatter<W>) -> fmt::Result {
        f.pad(self.text())
    }
}
