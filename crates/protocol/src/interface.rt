//! What an interface and its messages look like.

use crate::argument::ArgumentType;

/// What a request or an event carries.
#[derive(Clone, Copy, Debug, PartialEq, Eq)]
pub struct MessageDesc<'a> {
    pub signature: &'a [ArgumentType],
    /// Whether the message destroys the object that it is sent to or comes from.
    pub is_destructor: bool,
    /// The interface of the object that the message creates, where it is fixed.
    pub child_interface: Option<u16>,
    /// The interfaces of the object arguments, in order.
    pub arg_interfaces: &'a [u16],
}

/// An interface: its name, and its messages by opcode.
#[derive(Clone, Copy, Debug, PartialEq, Eq)]
pub struct Interface<'a> {
    pub name: &'a [u8],
    pub requests: &'a [MessageDesc<'a>],
    pub events: &'a [MessageDesc<'a>],
}
