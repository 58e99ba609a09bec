//! The faults of a connection.

ghost use Rattle.std.specs.Prelude.{◌≡◌, Some};
ghost use Rattle.protocol.specs.Faults.{reason_number, fault_text, reason_text, interface_text, protocol_text, error_text};
ghost use Rattle.protocol.specs.declared.error.WaylandError.TheVariants.{Io as IoCase, Protocol as ProtocolCase};

use std::fmt;

/// A fault of the transport: the layer that it comes from, and a code of the system's.
// The code is a number and no enum: the system's codes are an open set.
#[derive(Clone, Copy, Debug, PartialEq, Eq)]
pub struct TransportFault {
    pub layer: u32,
    pub code: u32,
}

impl TransportFault {
    /// Nothing can be read or written now.
    pub const WOULD_BLOCK: u32 = 11;
    /// The other side is gone.
    pub const BROKEN_PIPE: u32 = 32;
    /// The frames that are held back are too many.
    pub const TOO_BIG: u32 = 7;
}

/// What broke the protocol.
#[derive(Clone, Copy, Debug, PartialEq, Eq)]
pub enum ProtocolReason {
    /// The server sent an `error` event with a text of this length.
    ErrorEvent {
        text_len: u32,
    },
    /// A frame that does not fit its description.
    Malformed,
    /// An argument names an object that does not exist.
    UnknownObject {
        number: u32,
    },
    /// An argument names an object of another interface than expected.
    WrongInterface {
        number: u32,
        expected: u16,
        found: u16,
    },
    /// The server may not give this number to a new object.
    UnusableNumber {
        interface: u16,
        number: u32,
    },
    /// No slot is left for the server's new object.
    NoSlot {
        interface: u16,
        number: u32,
    },
}

impl ProtocolReason {
    /// The number of a reason, 1 to 6.
    pub fn number(self) -> u32
        ensures { result ≡ reason_number self }
    {
        // By a match: `as u32` reads no enum whose variants hold values.
        match self {
            ProtocolReason::ErrorEvent { .. } => 1,
            ProtocolReason::Malformed => 2,
            ProtocolReason::UnknownObject { .. } => 3,
            ProtocolReason::WrongInterface { .. } => 4,
            ProtocolReason::UnusableNumber { .. } => 5,
            ProtocolReason::NoSlot { .. } => 6,
        }
    }
}

/// The interface of the object that an error is about.
#[derive(Clone, Copy, Debug, PartialEq, Eq)]
pub enum ErrorInterface {
    /// The error is about no object.
    Empty,
    /// The object was found.
    Known(u16),
    /// No such object was found.
    Unknown,
}

/// The server or the client broke the protocol.
#[derive(Clone, Copy, Debug, PartialEq, Eq)]
pub struct ProtocolError {
    pub code: u32,
    pub object_id: u32,
    pub object_interface: ErrorInterface,
    pub reason: ProtocolReason,
}

/// A fault of a connection.
#[derive(Clone, Copy, Debug, PartialEq, Eq)]
pub enum WaylandError {
    Io(TransportFault),
    Protocol(ProtocolError),
}

impl From<TransportFault> for WaylandError {
    ghost from_gives = { λ x r. r ≡ IoCase x };

    fn from(err: TransportFault) -> WaylandError {
        WaylandError::Io(err)
    }
}

impl From<ProtocolError> for WaylandError {
    ghost from_gives = { λ x r. r ≡ ProtocolCase x };

    fn from(err: ProtocolError) -> WaylandError {
        WaylandError::Protocol(err)
    }
}

impl fmt::Display for TransportFault {
    ghost output = { λ x. Some (fault_text x) };

    fn fmt<W: fmt::Write>(&self, f: &mut fmt::Formatter<W>) -> fmt::Result {
        match self.code {
            TransportFault::WOULD_BLOCK => f.pad("would block"),
            TransportFault::BROKEN_PIPE => f.pad("broken pipe"),
            TransportFault::TOO_BIG => write!(f, "too big at layer {}", self.layer),
            code => write!(f, "system error {code}"),
        }
    }
}

impl fmt::Display for ProtocolReason {
    ghost output = { λ x. Some (reason_text x) };

    fn fmt<W: fmt::Write>(&self, f: &mut fmt::Formatter<W>) -> fmt::Result {
        match *self {
            ProtocolReason::ErrorEvent { .. } => f.pad("error event"),
            ProtocolReason::Malformed => f.pad("malformed frame"),
            ProtocolReason::UnknownObject { number } => write!(f, "unknown object {number}"),
            ProtocolReason::WrongInterface { number, .. } => write!(
                f,
                "object {number} of another interface"
            ),
            ProtocolReason::UnusableNumber { number, .. } => write!(
                f,
                "unusable new number {number}"
            ),
            ProtocolReason::NoSlot { number, .. } => write!(
                f,
                "no slot for the new number {number}"
            ),
        }
    }
}

impl fmt::Display for ErrorInterface {
    ghost output = { λ x. Some (interface_text x) };

    fn fmt<W: fmt::Write>(&self, f: &mut fmt::Formatter<W>) -> fmt::Result {
        match *self {
            ErrorInterface::Empty => f.pad(""),
            ErrorInterface::Known(interface) => write!(f, "interface {interface}"),
            ErrorInterface::Unknown => f.pad("<unknown>"),
        }
    }
}

impl fmt::Display for ProtocolError {
    ghost output = { λ x. Some (protocol_text x) };

    fn fmt<W: fmt::Write>(&self, f: &mut fmt::Formatter<W>) -> fmt::Result {
        write!(
            f,
            "Protocol error {} on object {}@{}: {}",
            self.code, self.object_interface, self.object_id, self.reason
        )
    }
}

impl fmt::Display for WaylandError {
    ghost output = { λ x. Some (error_text x) };

    fn fmt<W: fmt::Write>(&self, f: &mut fmt::Formatter<W>) -> fmt::Result {
        match *self {
            WaylandError::Io(fault) => write!(f, "Io error: {fault}"),
            WaylandError::Protocol(error) => write!(f, "{error}"),
        }
    }
}

impl std::error::Error for TransportFault {}

impl std::error::Error for ProtocolError {}

impl std::error::Error for WaylandError {}
