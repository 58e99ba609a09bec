//! The arguments of an event, passed on: numbers become handles, and new objects are placed.

ghost use Rattle.std.specs.Prelude.{◌≡◌, true};
ghost use Rattle.object_map.specs.Map.{map_of, fits};
ghost use Rattle.protocol.specs.Descriptions.{message_of};
ghost use Rattle.protocol.specs.Lookups.{table_of};
ghost use Rattle.protocol.specs.declared.argument.Argument.TheVariants.{Object as ObjectArg, NewId as NewIdArg};
ghost use Rattle.client.specs.Coded.{passing_of, HandleAs, WalkedAs, KeepsConn};
ghost use Rattle.client.specs.Events.{vacated, pass_object, pass_new, pass_arg, pass_all};
ghost use Rattle.client.specs.Requests.{rest};
ghost use Rattle.client.specs.State.{seen_in};

use crate::connection::Connection;
use crate::object::Object;
use object_map::number::SERVER_ID_LIMIT;
use object_map::refusal::Refusal;
use protocol::argument::Argument;
use protocol::core_interfaces::ANONYMOUS;
use protocol::error::ProtocolReason;
use protocol::id::ObjectId;
use protocol::interface::MessageDesc;
use protocol::table::InterfaceTable;

/// How far the passing has come: the number of the object that was created, and the arg interfaces that are left.
#[derive(Clone, Copy)]
pub(crate) struct Passing<'t> {
    pub(crate) child: Option<u32>,
    pub(crate) wants: &'t [u16],
}

impl Passing<'_> {
    // One arg interface is consumed.
    fn consume(&mut self)
        ensures child { self.new.child ≡ self.old.child }
        ensures wants { self.new.wants.now ≡ rest self.old.wants.now }
    {
        self.wants = self.wants.get(1..).unwrap_or(&[]);
    }
}

impl Connection {
    // An object that is named has to be there, and to fit the next arg interface, if there is one; null passes.
    fn pass_object(
        &self,
        table: &InterfaceTable<'_>,
        client: &[Option<Object>],
        server: &[Option<Object>],
        passing: &mut Passing<'_>,
        number: u32,
    ) -> Result<ObjectId, ProtocolReason>
        requires { fits (map_of self.now.map client.now server.now) ≡ true }
        ensures { HandleAs ObjectArg result (passing_of passing.new self.now (map_of self.now.map client.now server.now)) (pass_object (table_of table.now) (passing_of passing.old self.now (map_of self.now.map client.now server.now)) number) }
    {
        if number == 0 {
            passing.consume();
            return Ok(ObjectId::null());
        }
        let object = self
            .map
            .find(client, server, number)
            .ok()
            .flatten()
            .ok_or(ProtocolReason::UnknownObject { number })?;
        if let Some(expected) = passing.wants.first().copied() {
            if !table.fits(expected, object.interface) {
                return Err(ProtocolReason::WrongInterface {
                    number,
                    expected,
                    found: object.interface,
                });
            }
        }
        passing.consume();
        Ok(object.handle(number))
    }

    // A number whose object the client destroyed may be used again: its slot is emptied.
    fn vacate(&self, client: &mut [Option<Object>], server: &mut [Option<Object>], number: u32)
        requires { fits (map_of self.now.map client.old server.old) ≡ true }
        ensures slots { map_of self.now.map client.new server.new ≡ vacated number (map_of self.now.map client.old server.old) (seen_in (map_of self.now.map client.old server.old) number) }
        ensures fit { fits (map_of self.now.map client.new server.new) ≡ true }
    {
        let found = self.map.find(client, server, number).ok().flatten();
        if found.is_some_and(|object| object.client_destroyed) {
            let _ = self.map.remove(client, server, number);
        }
    }

    // A new object: a serial is drawn, whether it finds a place or not.
    fn pass_new(
        &mut self,
        client: &mut [Option<Object>],
        server: &mut [Option<Object>],
        passing: &mut Passing<'_>,
        by: &Object,
        interface: u16,
        number: u32,
    ) -> Result<ObjectId, ProtocolReason>
        requires { fits (map_of self.old.map client.old server.old) ≡ true }
        ensures passed { HandleAs NewIdArg result (passing_of passing.new self.new (map_of self.new.map client.new server.new)) (pass_new by.now interface (passing_of passing.old self.old (map_of self.old.map client.old server.old)) number) }
        ensures fit { fits (map_of self.new.map client.new server.new) ≡ true }
        ensures conn { KeepsConn self.old self.new }
    {
        self.last_serial = self.last_serial.wrapping_add(1);
        if number < SERVER_ID_LIMIT {
            return Err(ProtocolReason::UnusableNumber { interface, number });
        }
        self.vacate(client, server, number);
        let child = by.newborn(interface, self.last_serial);
        match self.map.insert_at(client, server, number, child) {
            Ok(()) => {
                passing.child = Some(number);
                Ok(child.handle(number))
            }
            Err(Refusal::NoSlot) => Err(ProtocolReason::NoSlot { interface, number }),
            Err(_) => Err(ProtocolReason::UnusableNumber { interface, number }),
        }
    }

    // One argument of an event to the object `by`.
    pub(crate) fn pass_arg(
        &mut self,
        table: &InterfaceTable<'_>,
        client: &mut [Option<Object>],
        server: &mut [Option<Object>],
        passing: &mut Passing<'_>,
        by: &Object,
        desc: &MessageDesc<'_>,
        arg: Argument<ObjectId>,
    ) -> Result<Argument<ObjectId>, ProtocolReason>
        requires { fits (map_of self.old.map client.old server.old) ≡ true }
        ensures passed { (result, passing_of passing.new self.new (map_of self.new.map client.new server.new)) ≡ pass_arg (table_of table.now) by.now (message_of desc.now) (passing_of passing.old self.old (map_of self.old.map client.old server.old)) arg }
        ensures fit { fits (map_of self.new.map client.new server.new) ≡ true }
        ensures conn { KeepsConn self.old self.new }
    {
        match arg {
            Argument::Object(id) => {
                let handle = self.pass_object(table, client, server, passing, id.number)?;
                Ok(Argument::Object(handle))
            }
            Argument::NewId(id) => {
                let interface = desc.child_interface.unwrap_or(ANONYMOUS);
                let handle = self.pass_new(client, server, passing, by, interface, id.number)?;
                Ok(Argument::NewId(handle))
            }
            _ => Ok(arg),
        }
    }

    // All of them, in order, each rewritten where it lies; the number of the object that was created, or why one fails.
    pub(crate) fn pass_all(
        &mut self,
        table: &InterfaceTable<'_>,
        client: &mut [Option<Object>],
        server: &mut [Option<Object>],
        by: &Object,
        desc: &MessageDesc<'_>,
        args: &mut [Argument<ObjectId>],
    ) -> Result<Option<u32>, ProtocolReason>
        requires { fits (map_of self.old.map client.old server.old) ≡ true }
        ensures passed { WalkedAs result args.new self.new.last_serial (map_of self.new.map client.new server.new) (pass_all (table_of table.now) by.now (message_of desc.now) (map_of self.old.map client.old server.old) self.old.last_serial args.old) }
        ensures fit { fits (map_of self.new.map client.new server.new) ≡ true }
        ensures conn { KeepsConn self.old self.new }
    {
        let mut passing = Passing {
            child: None,
            wants: desc.arg_interfaces,
        };
        for arg in args.iter_mut() {
            *arg = self.pass_arg(table, client, server, &mut passing, by, desc, *arg)?;
        }
        Ok(passing.child)
    }
}
