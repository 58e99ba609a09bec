//! The calls of the crate `client` as a user makes them: what they give is spent once, and nothing of it is let go.
//!
//! A prepared read, an open round and an event in hand are values that are used up by the call that takes them. A refused
//! call gives its value back, and then it goes out with the answer here. `refused/` has what a user may not write.
#![tactic(auto)]

#[cfg(test)]
mod worked;

use client::connection::{Connection, HandedEvent, ReadIntent, Round, WaitingRead};
use client::next::NextAnswer;
use client::object::Object;
use client::reads::ReadAnswer;
use client::requests::Request;
use client::sending::Sent;
use client::settling::Settled;
use protocol::argument::Argument;
use protocol::error::WaylandError;
use protocol::id::ObjectId;
use protocol::refusal::Refusal;
use protocol::table::InterfaceTable;
use transport::frame::Frame;
use transport::list_end::ListEnd;

/// The rooms that a user lends to the calls.
#[derive(Drop)]
pub struct Lent {
    pub client: [Option<Object>; 8],
    pub server: [Option<Object>; 2],
    pub args: [Argument<ObjectId>; 20],
    pub text: [u8; 1024],
    pub fault_text: [u8; 1024],
}

/// The rooms of a list end: four frames each way.
#[derive(Drop)]
pub struct Frames {
    pub incoming: [Frame; 4],
    pub outgoing: [Frame; 4],
}

/// What stands in the way, with what the user still holds.
pub enum Held {
    Nothing(Refusal),
    Intent(Refusal, ReadIntent),
    Round(Refusal, Round),
    Event(Refusal, HandedEvent),
}

/// What became of a turn.
pub enum Turn {
    /// Another read is prepared.
    Waits(WaitingRead),
    /// The connection has a fault.
    Fault(WaylandError),
    /// The frame told nothing; the round is open.
    Quiet(Round),
    /// The round is over, with so many events.
    Over(u64),
    /// An event is settled, and a `sync` was sent or refused; the round is open.
    Answered(Settled, Result<Sent, Refusal>),
}

impl Lent {
    /// Rooms without an object, an argument or a byte.
    pub fn new() -> Lent {
        Lent {
            client: [None; 8],
            server: [None; 2],
            args: [Argument::Int(0); 20],
            text: [0; 1024],
            fault_text: [0; 1024],
        }
    }
}

impl Frames {
    /// Places for frames, all empty.
    pub fn new() -> Frames {
        Frames {
            incoming: [Frame::EMPTY; 4],
            outgoing: [Frame::EMPTY; 4],
        }
    }
}

/// A `sync`, whose callback is to have this data number.
pub fn send_sync(
    connection: &mut Connection,
    table: &InterfaceTable<'_>,
    lent: &mut Lent,
    end: &mut ListEnd<'_>,
    data: u64,
) -> Result<Sent, Refusal> {
    let args = [Argument::NewId(ObjectId::null())];
    let request = Request {
        sender: ObjectId::display(),
        opcode: 0,
        args: &args,
        text: &[],
        data,
        child: None,
    };
    connection.send_request(table, &mut lent.client, &mut lent.server, end, &request)
}

/// The next of an open round.
pub fn ask(
    connection: &mut Connection,
    table: &InterfaceTable<'_>,
    lent: &mut Lent,
    end: &mut ListEnd<'_>,
    round: Round,
) -> Result<NextAnswer, (Refusal, Round)> {
    connection.next(
        table,
        &mut lent.client,
        &mut lent.server,
        end,
        round,
        &mut lent.args,
        &mut lent.text,
        &mut lent.fault_text,
    )
}

/// A read is prepared and given up again.
pub fn change_mind(connection: &mut Connection, lent: &Lent) -> Result<(), Held> {
    let intent = connection
        .prepare(&lent.client, &lent.server)
        .map_err(|refusal| Held::Nothing(refusal))?;
    let cancelled = connection.cancel(&lent.client, &lent.server, intent);
    cancelled.map_err(|(refusal, intent)| Held::Intent(refusal, intent))
}

/// Reads one event, settles it and answers it with a `sync`.
pub fn take_turn(
    connection: &mut Connection,
    table: &InterfaceTable<'_>,
    lent: &mut Lent,
    end: &mut ListEnd<'_>,
    data: u64,
) -> Result<Turn, Held> {
    let intent = match connection.prepare(&lent.client, &lent.server) {
        Ok(intent) => intent,
        Err(refusal) => return Err(Held::Nothing(refusal)),
    };
    let round = match connection.read(&lent.client, &lent.server, intent) {
        Ok(ReadAnswer::Round(round)) => round,
        Ok(ReadAnswer::Waits(waiting)) => return Ok(Turn::Waits(waiting)),
        Ok(ReadAnswer::Fault(fault)) => return Ok(Turn::Fault(fault)),
        Err((refusal, intent)) => return Err(Held::Intent(refusal, intent)),
    };
    let event = match ask(connection, table, lent, end, round) {
        Ok(
            NextAnswer::Handed {
                event,
                receiver: _,
                opcode: _,
            },
        ) => event,
        Ok(NextAnswer::Quiet(round)) => return Ok(Turn::Quiet(round)),
        Ok(NextAnswer::Over(Ok(count))) => return Ok(Turn::Over(count)),
        Ok(NextAnswer::Over(Err(fault))) => return Ok(Turn::Fault(fault)),
        Err((refusal, round)) => return Err(Held::Round(refusal, round)),
    };
    let settled = match connection.settle(&mut lent.client, &mut lent.server, event, 0) {
        Ok(settled) => settled,
        Err((refusal, event)) => return Err(Held::Event(refusal, event)),
    };
    let sent = send_sync(connection, table, lent, end, data);
    Ok(Turn::Answered(settled, sent))
}
