//! The next event of an open round.

ghost use Rattle.std.specs.Prelude.{◌≡◌, ℕ, ◌≤◌, true, List, length, take, Ok, Option};
ghost use Rattle.object_map.specs.Map.{map_of, fits, lookup};
ghost use Rattle.protocol.specs.Descriptions.{message_of};
ghost use Rattle.protocol.specs.Lookups.{table_of};
ghost use Rattle.protocol.specs.declared.argument.Argument.{Argument};
ghost use Rattle.protocol.specs.declared.id.ObjectId.{ObjectId};
ghost use Rattle.transport.specs.Ends.{End};
ghost use Rattle.transport.specs.Layout.{written};
ghost use Rattle.transport.specs.Wire.{Arg};
ghost use Rattle.client.specs.Events.{pass_all};
ghost use Rattle.client.specs.Calls.{ended, breach, acknowledged, resting, from_display, passing, passed_into, sent_by, next, defined};
ghost use Rattle.client.specs.Coded.{Leaves, replied_with, GivesBack, next_reply, Becomes, over_fault, text_lens, number_given, error_given, TakesAs, Holding, rooms_in};
ghost use Rattle.client.specs.declared.object.Object.{Object};
ghost use Rattle.client.specs.State.{Rooms, moment_of, conn_of, seen_in, with_fault};

use crate::connection::{Connection, Event, HandedEvent, Phase, Round};
use crate::object::Object;
use protocol::argument::{Argument, ArgumentType};
use protocol::error::{
    ErrorInterface, ProtocolError, ProtocolReason, TransportFault, WaylandError,
};
use protocol::id::ObjectId;
use protocol::interface::MessageDesc;
use protocol::refusal::Refusal;
use protocol::table::InterfaceTable;
use transport::transport::Transport;
use transport::{MAX_ARGS, MAX_TEXT};

/// What became of the first frame that waits.
pub enum NextAnswer {
    /// It told nothing to the user; the round goes on.
    Quiet(Round),
    /// An event for an object: its arguments are in the rooms, and it has to be settled before the round goes on.
    Handed {
        event: HandedEvent,
        receiver: ObjectId,
        opcode: u16,
    },
    /// The round is over, with so many settled events, or with a fault.
    Over(Result<u64, WaylandError>),
}

// How many bytes of text arguments have in all, as far as a frame holds them.
fn text_len(args: &[Argument<ObjectId>]) -> usize
    ensures most { result ≤ 1024 }
    ensures len { text_lens args.now ≤ 1024 → result ≡ text_lens args.now }
{
    let mut len = 0;
    for arg in args {
        let more = match arg {
            Argument::Str(Some(span)) | Argument::Array(span) => span.len,
            _ => 0,
        };
        len = MAX_TEXT.min(len + more.min(MAX_TEXT));
    }
    len
}

// The number that an argument carries.
fn number_at(args: &[Argument<ObjectId>], i: usize) -> u32
    ensures { result ≡ number_given args.now i }
{
    match args.get(i) {
        Some(Argument::Uint(number)) | Some(Argument::Fd(number)) => *number,
        Some(Argument::Object(id)) | Some(Argument::NewId(id)) => id.number,
        _ => 0,
    }
}

// Takes the first frame, where it fits: how many arguments it has.
fn take_first<E: Transport>(
    end: &mut E,
    signature: &[ArgumentType],
    args: &mut [Argument<ObjectId>],
    text: &mut [u8],
) -> Option<usize>
    requires args { 20 ≤ length args.old }
    requires text { 1024 ≤ length text.old }
    ensures { TakesAs signature.now (E.Transport.means end.old) args.old text.old result (E.Transport.means end.new) args.new text.new }
{
    // No frame has more text than that: so what is taken fits any room that is large enough.
    end.take(signature, args, &mut text[..MAX_TEXT]).ok()
}

impl Connection {
    // The round is over with a fault, which is stored.
    fn over(&mut self, fault: WaylandError) -> NextAnswer
        ensures answer { next_reply result ≡ over_fault fault }
        ensures left { Becomes self.old (ended (with_fault fault (conn_of self.old))) self.new }
    {
        self.last_error = Some(fault);
        self.close();
        NextAnswer::Over(Err(fault))
    }

    // The round is over, and those who wait go on.
    fn close(&mut self)
        ensures { Becomes self.old (ended (conn_of self.old)) self.new }
    {
        self.wake();
        self.phase = Phase::Idle;
    }

    // The round is over with what the client itself finds.
    fn breach(&mut self, reason: ProtocolReason) -> NextAnswer
        ensures answer { next_reply result ≡ over_fault (breach reason) }
        ensures left { Becomes self.old (ended (with_fault (breach reason) (conn_of self.old))) self.new }
    {
        self.over(WaylandError::Protocol(ProtocolError {
            code: 0,
            object_id: 0,
            object_interface: ErrorInterface::Empty,
            reason,
        }))
    }

    // No frame waits: over with the number of settled events; none settled would block; a stop is stored.
    fn rest(&mut self, settled: u64, fault: TransportFault) -> NextAnswer
        ensures { (c s : List (Option Object)) (e : End) (r : Rooms) → Leaves (resting (moment_of self.old c s e) r settled fault) (Ok (next_reply result)) (moment_of self.new c s e) r }
    {
        if fault.code != TransportFault::WOULD_BLOCK {
            return self.over(WaylandError::Io(fault));
        }
        self.close();
        NextAnswer::Over(if settled == 0 {
            Err(WaylandError::Io(fault))
        } else {
            Ok(settled)
        })
    }

    // A number that the server lets go: its object is marked, and leaves its slot if the client destroyed it too.
    fn acknowledge(&self, client: &mut [Option<Object>], server: &mut [Option<Object>], number: u32)
        requires { fits (map_of self.now.map client.old server.old) ≡ true }
        ensures { map_of self.now.map client.new server.new ≡ acknowledged number (map_of self.now.map client.old server.old) (seen_in (map_of self.now.map client.old server.old) number) }
    {
        let found = self.map.find(client, server, number).ok().flatten();
        if found.is_some_and(|object| object.client_destroyed) {
            let _ = self.map.remove(client, server, number);
        } else {
            let _ = self.map.update(
                client,
                server,
                number,
                |object| Object {
                    server_destroyed: true,
                    ..object
                },
            );
        }
    }

    // An error event: the round is over with the fault that it tells; its text opens the room for it.
    fn hear_error(
        &mut self,
        client: &[Option<Object>],
        server: &[Option<Object>],
        args: &[Argument<ObjectId>],
        text: &[u8],
        fault_text: &mut [u8],
    ) -> NextAnswer
        requires fit { fits (map_of self.old.map client.now server.now) ≡ true }
        requires from { 1024 ≤ length text.now }
        requires to { 1024 ≤ length fault_text.old }
        ensures answer { text_lens args.now ≤ 1024 → next_reply result ≡ over_fault (error_given (map_of self.old.map client.now server.now) args.now) }
        ensures left { text_lens args.now ≤ 1024 → Becomes self.old (ended (with_fault (error_given (map_of self.old.map client.now server.now) args.now) (conn_of self.old))) self.new }
        ensures told { text_lens args.now ≤ 1024 → fault_text.new ≡ written (take (text_lens args.now) text.now) fault_text.old }
    {
        let object_id = number_at(args, 0);
        let found = self.map.find(client, server, object_id).ok().flatten();
        let len = text_len(args);
        fault_text[..len].copy_from_slice(&text[..len]);
        self.over(WaylandError::Protocol(ProtocolError {
            code: number_at(args, 1),
            object_id,
            object_interface: match found {
                Some(object) => ErrorInterface::Known(object.interface),
                None => ErrorInterface::Unknown,
            },
            reason: ProtocolReason::ErrorEvent {
                text_len: len as u32,
            },
        }))
    }

    // An event of the display: an error is over, a number that is let go is quiet.
    fn hear_display(
        &mut self,
        client: &mut [Option<Object>],
        server: &mut [Option<Object>],
        opcode: u16,
        args: &[Argument<ObjectId>],
        text: &[u8],
        fault_text: &mut [u8],
    ) -> NextAnswer
        requires fit { fits (map_of self.old.map client.old server.old) ≡ true }
        requires from { 1024 ≤ length text.now }
        requires to { 1024 ≤ length fault_text.old }
        ensures { (xs : List Arg) → Holding xs args.now text.now → (a : List (Argument ObjectId)) (b : List ℕ) (e : End) → Leaves (from_display (moment_of self.old client.old server.old e) (rooms_in a b fault_text.old) opcode xs) (Ok (next_reply result)) (moment_of self.new client.new server.new e) (rooms_in a b fault_text.new) }
    {
        if opcode == 0 {
            return self.hear_error(client, server, args, text, fault_text);
        }
        self.acknowledge(client, server, number_at(args, 0));
        NextAnswer::Quiet(Round {
            connection: self.number,
        })
    }

    // An event of another object: its arguments are passed; then it is handed out, unless its receiver is destroyed.
    fn hear_event(
        &mut self,
        table: &InterfaceTable<'_>,
        client: &mut [Option<Object>],
        server: &mut [Option<Object>],
        settled: u64,
        sender: u32,
        opcode: u16,
        receiver: &Object,
        desc: &MessageDesc<'_>,
        args: &mut [Argument<ObjectId>],
    ) -> NextAnswer
        requires { fits (map_of self.old.map client.old server.old) ≡ true }
        ensures { (e : End) (r : Rooms) → Leaves (passing (moment_of self.old client.old server.old e) r settled sender opcode receiver.now (message_of desc.now) (pass_all (table_of table.now) receiver.now (message_of desc.now) (map_of self.old.map client.old server.old) self.old.last_serial args.old)) (Ok (next_reply result)) (moment_of self.new client.new server.new e) (passed_into args.new r) }
    {
        let child = match self.pass_all(table, client, server, receiver, desc, args) {
            Ok(child) => child,
            Err(reason) => return self.breach(reason),
        };
        if receiver.client_destroyed {
            return NextAnswer::Quiet(Round {
                connection: self.number,
            });
        }
        self.phase = Phase::Handed(
            settled,
            Event {
                receiver: receiver.handle(sender),
                data: receiver.data,
                destroys: desc.is_destructor,
                child,
            },
        );
        NextAnswer::Handed {
            event: HandedEvent {
                connection: self.number,
                number: sender,
                serial: receiver.serial,
            },
            receiver: receiver.handle(sender),
            opcode,
        }
    }

    // The first frame: its sender has to be there and to have the opcode, and its arguments to fit; then it is taken.
    fn hear<E: Transport>(
        &mut self,
        table: &InterfaceTable<'_>,
        client: &mut [Option<Object>],
        server: &mut [Option<Object>],
        end: &mut E,
        settled: u64,
        sender: u32,
        opcode: u16,
        args: &mut [Argument<ObjectId>],
        text: &mut [u8],
        fault_text: &mut [u8],
    ) -> NextAnswer
        requires fit { fits (map_of self.old.map client.old server.old) ≡ true }
        requires places { 20 ≤ length args.old }
        requires text { 1024 ≤ length text.old }
        requires told { 1024 ≤ length fault_text.old }
        ensures { Leaves (sent_by (table_of table.now) (moment_of self.old client.old server.old (E.Transport.means end.old)) (rooms_in args.old text.old fault_text.old) settled sender opcode (lookup sender (map_of self.old.map client.old server.old))) (Ok (next_reply result)) (moment_of self.new client.new server.new (E.Transport.means end.new)) (rooms_in args.new text.new fault_text.new) }
    {
        let found = self.map.find(client, server, sender).ok().flatten();
        let Some(receiver) = found else {
            return self.breach(ProtocolReason::Malformed);
        };
        let Some(desc) = table.event(receiver.interface, opcode) else {
            return self.breach(ProtocolReason::Malformed);
        };
        let Some(count) = take_first(end, desc.signature, args, text) else {
            return self.breach(ProtocolReason::Malformed);
        };
        let args = &mut args[..count];
        if sender == 1 {
            return self.hear_display(client, server, opcode, args, text, fault_text);
        }
        self.hear_event(
            table, client, server, settled, sender, opcode, &receiver, &desc, args,
        )
    }

    /// What comes next in an open round, into rooms that any frame fits into.
    pub(crate) fn next_event<E: Transport>(
        &mut self,
        table: &InterfaceTable<'_>,
        client: &mut [Option<Object>],
        server: &mut [Option<Object>],
        end: &mut E,
        round: Round,
        args: &mut [Argument<ObjectId>],
        text: &mut [u8],
        fault_text: &mut [u8],
    ) -> Result<NextAnswer, (Refusal, Round)>
        ensures defined { Leaves (defined (table_of table.now) (moment_of self.old client.old server.old (E.Transport.means end.old)) (next round (rooms_in args.old text.old fault_text.old))) (replied_with next_reply result) (moment_of self.new client.new server.new (E.Transport.means end.new)) (rooms_in args.new text.new fault_text.new) }
        ensures back { GivesBack round result }
    {
        let lent = self.map.fits(client, server)
            && args.len() >= MAX_ARGS
            && text.len() >= MAX_TEXT
            && fault_text.len() >= MAX_TEXT;
        if !lent {
            return Err((Refusal::BadRoom, round));
        }
        if round.connection != self.number {
            return Err((Refusal::BadToken, round));
        }
        match (self.phase, end.first()) {
            (Phase::Reading(settled), Ok((sender, opcode))) => {
                let Round { connection: _ } = round;
                Ok(self.hear(
                    table, client, server, end, settled, sender, opcode, args, text, fault_text,
                ))
            }
            (Phase::Reading(settled), Err(fault)) => {
                let Round { connection: _ } = round;
                Ok(self.rest(settled, fault))
            }
            (Phase::Idle | Phase::Handed(_, _), _) => Err((Refusal::BadToken, round)),
        }
    }
}
