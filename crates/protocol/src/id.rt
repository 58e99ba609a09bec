//! The handles of objects.

ghost use Rattle.std.specs.Prelude.{◌≡◌, ◌==◌};
ghost use Rattle.protocol.specs.Lookups.{table_of, same_object, null_id, display_id};

use crate::core_interfaces::{ANONYMOUS, DISPLAY};
use crate::table::InterfaceTable;

/// A handle: the number of an object on the wire, the serial that tells it from others that had
/// the number, and the number of its interface.
// No `==`: `InterfaceTable::same_object` compares the names of the interfaces.
#[derive(Clone, Copy, Debug)]
pub struct ObjectId {
    pub number: u32,
    pub serial: u32,
    pub interface: u16,
}

impl ObjectId {
    /// The handle of no object.
    pub fn null() -> ObjectId
        ensures { result ≡ null_id }
    {
        ObjectId {
            number: 0,
            serial: 0,
            interface: ANONYMOUS,
        }
    }

    /// The handle of the display.
    pub fn display() -> ObjectId
        ensures { result ≡ display_id }
    {
        ObjectId {
            number: 1,
            serial: 0,
            interface: DISPLAY,
        }
    }

    /// Whether this is the handle of no object: 0 is the null of the wire itself.
    pub fn is_null(&self) -> bool
        ensures { result ≡ (self.now.number == 0) }
    {
        self.number == 0
    }
}

impl InterfaceTable<'_> {
    /// Whether two handles are the same: number, serial and the name of the interface.
    pub fn same_object(&self, a: ObjectId, b: ObjectId) -> bool
        ensures { result ≡ same_object (table_of self.now) a b }
    {
        a.number == b.number
            && a.serial == b.serial
            && self.same_interface(a.interface, b.interface)
    }
}

/// What an object is: its number on the wire, its interface and its version.
#[derive(Clone, Copy, PartialEq, Eq, Debug)]
pub struct ObjectInfo {
    pub id: u32,
    pub interface: u16,
    pub version: u32,
}
