//! What a call fails with.

ghost use Rattle.std.specs.Prelude.{◌≡◌};
ghost use Rattle.protocol.specs.declared.error.WaylandError.TheVariants.{Io};
ghost use Rattle.client.specs.declared.error.CallError.TheVariants.{Refused, Fault};

use protocol::error::{TransportFault, WaylandError};
use protocol::refusal::Refusal;

/// A call that asks for what it may not have is refused, and changes nothing; a fault is the connection's.
#[derive(Clone, Copy, Debug, PartialEq, Eq)]
pub enum CallError {
    Refused(Refusal),
    Fault(WaylandError),
}

impl From<Refusal> for CallError {
    ghost from_gives = { λ x r. r ≡ Refused x };

    fn from(refusal: Refusal) -> CallError {
        CallError::Refused(refusal)
    }
}

impl From<WaylandError> for CallError {
    ghost from_gives = { λ x r. r ≡ Fault x };

    fn from(fault: WaylandError) -> CallError {
        CallError::Fault(fault)
    }
}

impl From<TransportFault> for CallError {
    ghost from_gives = { λ x r. r ≡ Fault (Io x) };

    fn from(fault: TransportFault) -> CallError {
        CallError::Fault(WaylandError::Io(fault))
    }
}
