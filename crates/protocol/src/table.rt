//! The interface table.

ghost use Rattle.std.specs.Prelude.{◌≡◌};
ghost use Rattle.std.specs.Option.{option_map};
ghost use Rattle.protocol.specs.Descriptions.{message_of, description_of};
ghost use Rattle.protocol.specs.Laws.{Told};
ghost use Rattle.protocol.specs.Lookups.{table_of, in_table, interface_at, name_at, request_at, event_at, same_interface, fits_interface};
ghost use Rattle.protocol.specs.Rules.{checked};

use crate::core_interfaces::{ANONYMOUS, ANONYMOUS_INTERFACE};
use crate::interface::{Interface, MessageDesc};
use crate::refusal::Refusal;
use crate::rules::well_formed;

/// The interfaces of a protocol, known to keep the rules.
#[derive(Clone, Copy, PartialEq, Eq, Debug)]
pub struct InterfaceTable<'a> {
    interfaces: &'a [Interface<'a>],
}

impl<'a> InterfaceTable<'a> {
    /// A table of these interfaces, where they keep every rule.
    #[tactic(auto, using(crate::proofs::Decisions::sound_decides))]
    pub fn new(interfaces: &'a [Interface<'a>]) -> Result<InterfaceTable<'a>, Refusal>
        ensures value { result ≡ checked interfaces.entry }
        ensures words { Told interfaces.now result }
    {
        if well_formed(interfaces) {
            Ok(InterfaceTable { interfaces })
        } else {
            Err(Refusal::BadRoom)
        }
    }

    /// Whether an interface number lies in the table.
    pub fn contains(&self, number: u16) -> bool
        ensures { result ≡ in_table (table_of self.now) number }
    {
        usize::from(number) < self.interfaces.len()
    }

    /// An interface by its number. A number outside the table is read as `<anonymous>`.
    pub fn interface(&self, number: u16) -> Interface<'a>
        ensures { description_of result ≡ interface_at (table_of self.now) number }
    {
        // No `or` between the two: it would look both up at each call.
        if let Some(interface) = self.interfaces.get(usize::from(number)) {
            return *interface;
        }
        self.interfaces
            .get(usize::from(ANONYMOUS))
            .copied()
            .unwrap_or(ANONYMOUS_INTERFACE)
    }

    /// The name of an interface.
    pub fn name(&self, number: u16) -> &'a [u8]
        ensures { result.now ≡ name_at (table_of self.now) number }
    {
        self.interface(number).name
    }

    /// What a request carries, if the interface has it.
    pub fn request(&self, interface: u16, opcode: u16) -> Option<MessageDesc<'a>>
        ensures { option_map message_of result ≡ request_at (table_of self.now) interface opcode }
    {
        self.interface(interface)
            .requests
            .get(usize::from(opcode))
            .copied()
    }

    /// What an event carries, if the interface has it.
    pub fn event(&self, interface: u16, opcode: u16) -> Option<MessageDesc<'a>>
        ensures { option_map message_of result ≡ event_at (table_of self.now) interface opcode }
    {
        self.interface(interface)
            .events
            .get(usize::from(opcode))
            .copied()
    }

    /// Whether two interfaces have one name.
    pub fn same_interface(&self, a: u16, b: u16) -> bool
        ensures { result ≡ same_interface (table_of self.now) a b }
    {
        self.name(a) == self.name(b)
    }

    /// Whether an object of the interface `actual` fits where `expected` is asked for.
    pub fn fits(&self, expected: u16, actual: u16) -> bool
        ensures { result ≡ fits_interface (table_of self.now) expected actual }
    {
        self.same_interface(expected, actual) || self.name(expected) == ANONYMOUS_INTERFACE.name
    }
}
