//! Requests, sent.

ghost use Rattle.std.specs.Prelude.{◌≡◌, true};
ghost use Rattle.object_map.specs.Map.{map_of, fits};
ghost use Rattle.protocol.specs.Lookups.{table_of};
ghost use Rattle.client.specs.Calls.{send_request, with_birth, child_handle, defined};
ghost use Rattle.client.specs.Coded.{Leaves, replied, request_of, sent_reply, outgoing_with, Puts, Places};
ghost use Rattle.client.specs.State.{moment_of, conn_of, changed_at, client_marked, none};

use crate::connection::Connection;
use crate::object::{Notice, Object};
use crate::requests::{Child, Request};
use protocol::id::ObjectId;
use protocol::refusal::Refusal;
use protocol::table::InterfaceTable;
use transport::outgoing::Outgoing;
use transport::transport::Transport;

/// An accepted request: the handle of the object that it created, or null, and a notice if it destroyed its sender.
#[derive(Clone, Copy)]
pub struct Sent {
    pub child: ObjectId,
    pub notice: Option<Notice>,
}

impl Connection {
    /// Sends a request that nothing stands against; a fault of the transport is stored.
    pub(crate) fn send<E: Transport>(
        &mut self,
        table: &InterfaceTable<'_>,
        client: &mut [Option<Object>],
        server: &mut [Option<Object>],
        end: &mut E,
        request: &Request<'_>,
    ) -> Result<Sent, Refusal>
        ensures { Leaves (defined (table_of table.now) (moment_of self.old client.old server.old (E.Transport.means end.old)) (send_request (request_of request.now))) (replied sent_reply result) (moment_of self.new client.new server.new (E.Transport.means end.new)) none }
    {
        if !self.map.fits(client, server) {
            return Err(Refusal::BadRoom);
        }
        let sending = self.check_request(table, client, server, request)?;
        let child = self.place(client, server, sending.child);
        self.put(end, sending.message, child.number);
        let notice = if sending.desc.is_destructor {
            self.mark_client(client, server, request.sender.number);
            Some(sending.by.notice(request.sender.number))
        } else {
            None
        };
        Ok(Sent { child, notice })
    }

    // Places the child, if there is one, and answers its handle.
    fn place(
        &mut self,
        client: &mut [Option<Object>],
        server: &[Option<Object>],
        child: Option<Child>,
    ) -> ObjectId
        requires { fits (map_of self.old.map client.old server.now) ≡ true }
        ensures handle { result ≡ child_handle child }
        ensures conn { conn_of self.new ≡ with_birth child (conn_of self.old) }
        ensures slots { Places child (map_of self.old.map client.old server.now) (map_of self.new.map client.new server.now) }
    {
        let Some((number, object)) = child else {
            return ObjectId::null();
        };
        let _ = self.map.client_insert_new(client, server, object);
        self.last_serial = object.serial;
        object.handle(number)
    }

    // Puts a message whose placeholder stands for a child; a fault is stored.
    fn put<E: Transport>(&mut self, end: &mut E, message: Outgoing<'_>, child: u32)
        ensures { Puts (outgoing_with child message.entry) self.old (E.Transport.means end.old) self.new (E.Transport.means end.new) }
    {
        if let Err(fault) = end.put(&message.with_child(child)) {
            self.last_error = Some(fault.into());
        }
    }

    // Marks the object at a number as destroyed by the client.
    pub(crate) fn mark_client(
        &self,
        client: &mut [Option<Object>],
        server: &mut [Option<Object>],
        number: u32,
    )
        requires { fits (map_of self.now.map client.old server.old) ≡ true }
        ensures { map_of self.now.map client.new server.new ≡ changed_at client_marked number (map_of self.now.map client.old server.old) }
    {
        let _ = self.map.update(
            client,
            server,
            number,
            |object| Object {
                client_destroyed: true,
                ..object
            },
        );
    }
}
