//! A connection, and the tokens that its reads go by.

ghost use Rattle.client.specs.Coded.{Created};

use crate::object::Object;
use object_map::map::ObjectMap;
use protocol::error::WaylandError;
use protocol::id::ObjectId;
use protocol::refusal::Refusal;

/// An event that was handed out and is not settled yet.
#[derive(Clone, Copy)]
pub struct Event {
    /// The handle and the data number of its receiver, as they were when it was handed out.
    pub(crate) receiver: ObjectId,
    pub(crate) data: u64,
    /// Whether it destroys its receiver.
    pub(crate) destroys: bool,
    /// The number of the object that it created.
    pub(crate) child: Option<u32>,
}

/// How far the reading has come. A round is the taking of frames by one reader, from `read` to the end of what waits.
#[derive(Clone, Copy)]
pub enum Phase {
    Idle,
    /// A round is open, and so many of its events are settled.
    Reading(u64),
    /// So many are settled, and one more is handed out.
    Handed(u64, Event),
}

/// The engine's half of a connection. Its slots are lent to each call.
pub struct Connection {
    pub(crate) number: u32,
    pub(crate) map: ObjectMap,
    pub(crate) last_serial: u32,
    pub(crate) last_error: Option<WaylandError>,
    pub(crate) prepared_reads: u16,
    pub(crate) read_serial: u64,
    pub(crate) phase: Phase,
}

/// A read that is prepared: to be read or cancelled.
pub struct ReadIntent {
    pub(crate) connection: u32,
}

/// A read that waits for another one's round to end.
#[derive(Clone, Copy)]
pub struct WaitingRead {
    pub(crate) connection: u32,
    pub(crate) read_serial: u64,
}

/// An open round: the right to ask for the next event.
pub struct Round {
    pub(crate) connection: u32,
}

/// An event in hand: to be settled before the round goes on.
pub struct HandedEvent {
    pub(crate) connection: u32,
    pub(crate) number: u32,
    pub(crate) serial: u32,
}

impl Connection {
    // A connection over two rooms that are emptied, but for the display at 1.
    pub(crate) fn create(
        number: u32,
        client: &mut [Option<Object>],
        server: &mut [Option<Object>],
    ) -> Result<Connection, Refusal>
        ensures { Created number client.old server.old result client.new server.new }
    {
        let mut map = ObjectMap::new(client, server).map_err(|_| Refusal::BadRoom)?;
        let _ = map.insert_at(client, server, 1, Object::DISPLAY);
        Ok(Connection {
            number,
            map,
            last_serial: 0,
            last_error: None,
            prepared_reads: 0,
            read_serial: 0,
            phase: Phase::Idle,
        })
    }
}
