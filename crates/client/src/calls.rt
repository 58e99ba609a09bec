//! The twelve calls.
//!
//! Each says by one definition what it answers and what it leaves, on every input (`defined`), and what it does to every
//! history of calls that it goes on, with the law over whole runs (`stands`). The slots are two rooms that are lent to each
//! call; rooms of other lengths than at creation are refused. A refusal changes nothing, and gives a token back.

ghost use Rattle.std.specs.Prelude.{◌≡◌, List};
ghost use Rattle.protocol.specs.Lookups.{table_of};
ghost use Rattle.transport.specs.Ends.{End};
ghost use Rattle.client.specs.Calls as calls;
ghost use Rattle.client.specs.Coded.{Leaves, replied, replied_with, GivesBack, read_reply, resume_reply, settled_reply, sent_reply, next_reply, flush_reply, request_of, rooms_in, Created, Begins};
ghost use Rattle.client.specs.Promise.{Stands};
ghost use Rattle.client.specs.Requests.{Table};
ghost use Rattle.client.specs.State.{moment_of, none, prepared, done, content, destroyed, informed};

use crate::connection::{Connection, HandedEvent, ReadIntent, Round, WaitingRead};
use crate::error::CallError;
use crate::next::NextAnswer;
use crate::object::{Notice, Object};
use crate::reads::{ReadAnswer, ResumeAnswer};
use crate::requests::Request;
use crate::sending::Sent;
use crate::settling::Settled;
use protocol::argument::Argument;
use protocol::id::{ObjectId, ObjectInfo};
use protocol::refusal::Refusal;
use protocol::table::InterfaceTable;
use transport::transport::Transport;

impl Connection {
    /// A connection with a number of its maker's, over rooms that it empties but for the display at 1: 1 to 65,535 client
    /// places, 0 to 65,535 server places.
    pub fn new(
        number: u32,
        client: &mut [Option<Object>],
        server: &mut [Option<Object>],
    ) -> Result<Connection, Refusal>
        ensures defined { Created number client.old server.old result client.new server.new }
        ensures begins { Begins number client.old server.old result client.new server.new }
    {
        Connection::create(number, client, server)
    }

    /// Prepares a read. Refused in an open round, and where 65,535 are prepared.
    pub fn prepare(
        &mut self,
        client: &[Option<Object>],
        server: &[Option<Object>],
    ) -> Result<ReadIntent, Refusal>
        ensures defined { (t : Table) (e : End) → Leaves (calls.defined t (moment_of self.old client.now server.now e) calls.prepare) (replied prepared result) (moment_of self.new client.now server.now e) none }
        ensures stands { (t : Table) (e : End) → Stands t calls.prepare (moment_of self.old client.now server.now e) (moment_of self.new client.now server.now e) }
    {
        self.prepare_read(client, server)
    }

    /// Gives a prepared read up.
    pub fn cancel(
        &mut self,
        client: &[Option<Object>],
        server: &[Option<Object>],
        intent: ReadIntent,
    ) -> Result<(), (Refusal, ReadIntent)>
        ensures defined { (t : Table) (e : End) → Leaves (calls.defined t (moment_of self.old client.now server.now e) (calls.cancel intent)) (replied_with (λ _. done) result) (moment_of self.new client.now server.now e) none }
        ensures back { GivesBack intent result }
        ensures stands { (t : Table) (e : End) → Stands t (calls.cancel intent) (moment_of self.old client.now server.now e) (moment_of self.new client.now server.now e) }
    {
        self.cancel_read(client, server, intent)
    }

    /// Begins a prepared read: it waits while others are prepared, and else opens a round, unless a fault is stored.
    pub fn read(
        &mut self,
        client: &[Option<Object>],
        server: &[Option<Object>],
        intent: ReadIntent,
    ) -> Result<ReadAnswer, (Refusal, ReadIntent)>
        ensures defined { (t : Table) (e : End) → Leaves (calls.defined t (moment_of self.old client.now server.now e) (calls.read intent)) (replied_with read_reply result) (moment_of self.new client.now server.now e) none }
        ensures back { GivesBack intent result }
        ensures stands { (t : Table) (e : End) → Stands t (calls.read intent) (moment_of self.old client.now server.now e) (moment_of self.new client.now server.now e) }
    {
        self.begin_read(client, server, intent)
    }

    /// Goes on with a read that waited: it waits until a round was over or the last other read was cancelled.
    pub fn resume(
        &self,
        client: &[Option<Object>],
        server: &[Option<Object>],
        waiting: WaitingRead,
    ) -> Result<ResumeAnswer, Refusal>
        ensures defined { (t : Table) (e : End) → Leaves (calls.defined t (moment_of self.now client.now server.now e) (calls.resume waiting)) (replied resume_reply result) (moment_of self.now client.now server.now e) none }
        ensures stands { (t : Table) (e : End) → Stands t (calls.resume waiting) (moment_of self.now client.now server.now e) (moment_of self.now client.now server.now e) }
    {
        self.resume_read(client, server, waiting)
    }

    /// What comes next in an open round, into rooms of at least 20 arguments and 1,024 bytes each.
    pub fn next<E: Transport>(
        &mut self,
        table: &InterfaceTable<'_>,
        client: &mut [Option<Object>],
        server: &mut [Option<Object>],
        end: &mut E,
        round: Round,
        args: &mut [Argument<ObjectId>],
        text: &mut [u8],
        fault_text: &mut [u8],
    ) -> Result<NextAnswer, (Refusal, Round)>
        ensures defined { Leaves (calls.defined (table_of table.now) (moment_of self.old client.old server.old (E.Transport.means end.old)) (calls.next round (rooms_in args.old text.old fault_text.old))) (replied_with next_reply result) (moment_of self.new client.new server.new (E.Transport.means end.new)) (rooms_in args.new text.new fault_text.new) }
        ensures back { GivesBack round result }
        ensures stands { Stands (table_of table.now) (calls.next round (rooms_in args.old text.old fault_text.old)) (moment_of self.old client.old server.old (E.Transport.means end.old)) (moment_of self.new client.new server.new (E.Transport.means end.new)) }
    {
        self.next_event(table, client, server, end, round, args, text, fault_text)
    }

    /// Ends the event in hand. An object that it created gets its data number; without one that is 0.
    pub fn settle(
        &mut self,
        client: &mut [Option<Object>],
        server: &mut [Option<Object>],
        event: HandedEvent,
        data: u64,
    ) -> Result<Settled, (Refusal, HandedEvent)>
        ensures defined { (t : Table) (e : End) → Leaves (calls.defined t (moment_of self.old client.old server.old e) (calls.settle event «data»)) (replied_with settled_reply result) (moment_of self.new client.new server.new e) none }
        ensures back { GivesBack event result }
        ensures stands { (t : Table) (e : End) → Stands t (calls.settle event «data») (moment_of self.old client.old server.old e) (moment_of self.new client.new server.new e) }
    {
        self.settle_event(client, server, event, data)
    }

    /// Sends a request that nothing stands against; a fault of the transport is stored.
    pub fn send_request<E: Transport>(
        &mut self,
        table: &InterfaceTable<'_>,
        client: &mut [Option<Object>],
        server: &mut [Option<Object>],
        end: &mut E,
        request: &Request<'_>,
    ) -> Result<Sent, Refusal>
        ensures defined { Leaves (calls.defined (table_of table.now) (moment_of self.old client.old server.old (E.Transport.means end.old)) (calls.send_request (request_of request.now))) (replied sent_reply result) (moment_of self.new client.new server.new (E.Transport.means end.new)) none }
        ensures stands { Stands (table_of table.now) (calls.send_request (request_of request.now)) (moment_of self.old client.old server.old (E.Transport.means end.old)) (moment_of self.new client.new server.new (E.Transport.means end.new)) }
    {
        self.send(table, client, server, end, request)
    }

    /// Destroys an object for the client. The display stays.
    pub fn destroy_object(
        &mut self,
        client: &mut [Option<Object>],
        server: &mut [Option<Object>],
        handle: ObjectId,
    ) -> Result<Notice, Refusal>
        ensures defined { (t : Table) (e : End) → Leaves (calls.defined t (moment_of self.old client.old server.old e) (calls.destroy_object handle)) (replied destroyed result) (moment_of self.new client.new server.new e) none }
        ensures stands { (t : Table) (e : End) → Stands t (calls.destroy_object handle) (moment_of self.old client.old server.old e) (moment_of self.new client.new server.new e) }
    {
        self.destroy(client, server, handle)
    }

    /// The data number of an object, whether it is destroyed or not.
    pub fn get_data(
        &self,
        client: &[Option<Object>],
        server: &[Option<Object>],
        handle: ObjectId,
    ) -> Result<u64, Refusal>
        ensures defined { (t : Table) (e : End) → Leaves (calls.defined t (moment_of self.now client.now server.now e) (calls.get_data handle)) (replied content result) (moment_of self.now client.now server.now e) none }
        ensures stands { (t : Table) (e : End) → Stands t (calls.get_data handle) (moment_of self.now client.now server.now e) (moment_of self.now client.now server.now e) }
    {
        self.data_of(client, server, handle)
    }

    /// Gives an object another data number. The display keeps its own.
    pub fn set_data(
        &mut self,
        client: &mut [Option<Object>],
        server: &mut [Option<Object>],
        handle: ObjectId,
        data: u64,
    ) -> Result<(), Refusal>
        ensures defined { (t : Table) (e : End) → Leaves (calls.defined t (moment_of self.old client.old server.old e) (calls.set_data handle «data»)) (replied (λ _. done) result) (moment_of self.new client.new server.new e) none }
        ensures stands { (t : Table) (e : End) → Stands t (calls.set_data handle «data») (moment_of self.old client.old server.old e) (moment_of self.new client.new server.new e) }
    {
        self.set_data_of(client, server, handle, data)
    }

    /// What an object is, unless the client has destroyed it.
    pub fn info(
        &self,
        client: &[Option<Object>],
        server: &[Option<Object>],
        handle: ObjectId,
    ) -> Result<ObjectInfo, Refusal>
        ensures defined { (t : Table) (e : End) → Leaves (calls.defined t (moment_of self.now client.now server.now e) (calls.info handle)) (replied informed result) (moment_of self.now client.now server.now e) none }
        ensures stands { (t : Table) (e : End) → Stands t (calls.info handle) (moment_of self.now client.now server.now e) (moment_of self.now client.now server.now e) }
    {
        self.info_of(client, server, handle)
    }

    /// Passes what was sent on, as far as it goes. A stored fault is answered instead; a new one is stored, but not that it
    /// would block.
    pub fn flush<E: Transport>(
        &mut self,
        client: &[Option<Object>],
        server: &[Option<Object>],
        end: &mut E,
    ) -> Result<(), CallError>
        ensures defined { (t : Table) → Leaves (calls.defined t (moment_of self.old client.now server.now (E.Transport.means end.old)) calls.flush) (flush_reply result) (moment_of self.new client.now server.now (E.Transport.means end.new)) none }
        ensures stands { (t : Table) → Stands t calls.flush (moment_of self.old client.now server.now (E.Transport.means end.old)) (moment_of self.new client.now server.now (E.Transport.means end.new)) }
    {
        self.flush_end(client, server, end)
    }
}
