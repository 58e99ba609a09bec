//! Objects, and what is said of them.

ghost use Rattle.std.specs.Prelude.{◌≡◌};
ghost use Rattle.client.specs.Events.{newborn};
ghost use Rattle.client.specs.Requests.{child_of};
ghost use Rattle.client.specs.State.{notice_of, handle_of};

use protocol::core_interfaces::DISPLAY;
use protocol::id::ObjectId;

/// What a slot holds: an object of the connection.
#[derive(Clone, Copy, PartialEq, Eq, Debug)]
pub struct Object {
    pub(crate) interface: u16,
    pub(crate) version: u32,
    /// The number that the object's user knows it by; 0 is none, and is refused where one is wanted.
    pub(crate) data: u64,
    /// Tells the object from others that had its number.
    pub(crate) serial: u32,
    /// The client has destroyed it.
    pub(crate) client_destroyed: bool,
    /// The server has destroyed it, or lets its number go.
    pub(crate) server_destroyed: bool,
}

/// Tells that an object was destroyed: its handle and its data number.
#[derive(Clone, Copy)]
pub struct Notice {
    pub id: ObjectId,
    pub data: u64,
}

/// What a request asks its new object to be.
#[derive(Clone, Copy, PartialEq, Eq, Debug)]
pub struct ChildSpec {
    pub interface: u16,
    pub version: u32,
}

impl Object {
    /// The display, as every connection begins with it.
    pub(crate) const DISPLAY: Object = Object {
        interface: DISPLAY,
        version: 1,
        data: 0,
        serial: 0,
        client_destroyed: false,
        server_destroyed: false,
    };

    /// The handle of this object at a number.
    pub(crate) fn handle(&self, number: u32) -> ObjectId
        ensures { result ≡ handle_of number self.now }
    {
        ObjectId {
            number,
            serial: self.serial,
            interface: self.interface,
        }
    }

    /// The child that an event to this object creates.
    pub(crate) fn newborn(&self, interface: u16, serial: u32) -> Object
        ensures { result ≡ newborn self.now interface serial }
    {
        Object {
            interface,
            version: self.version,
            data: 0,
            serial,
            client_destroyed: self.client_destroyed,
            server_destroyed: false,
        }
    }

    /// Its notice: its handle at a number, and its data number.
    pub(crate) fn notice(&self, number: u32) -> Notice
        ensures { result ≡ notice_of number self.now }
    {
        Notice {
            id: self.handle(number),
            data: self.data,
        }
    }
}

impl ChildSpec {
    /// The object that is asked for, as it is placed.
    pub(crate) fn object(&self, data: u64, serial: u32) -> Object
        ensures { result ≡ child_of self.now «data» serial }
    {
        Object {
            interface: self.interface,
            version: self.version,
            data,
            serial,
            client_destroyed: false,
            server_destroyed: false,
        }
    }
}
