//! A connection with all that its calls are lent.

use crate::message::{object_of, renamed};
use crate::print::{ShownArg, ShownFault};
use crate::script::{Queued, Settings};
use client::connection::{Connection, HandedEvent, ReadIntent, Round, WaitingRead};
use client::ending::Ended;
use client::error::CallError;
use client::next::NextAnswer;
use client::object::{Notice, Object};
use client::reads::{ReadAnswer, ResumeAnswer};
use client::requests::Request;
use client::sending::Sent;
use client::settling::Settled;
use object_map::map::MAX_PLACES;
use protocol::argument::Argument;
use protocol::error::{TransportFault, WaylandError};
use protocol::id::{ObjectId, ObjectInfo};
use protocol::refusal::Refusal;
use protocol::table::InterfaceTable;
use std::alloc::{AllocError, Global};
use transport::outgoing::Outgoing;
use transport::world::World;
use transport::{MAX_ARGS, MAX_TEXT};

/// The connection, its slots, its end and the rooms for arguments and texts.
pub struct Engine<'t, E> {
    connection: Connection,
    pub table: InterfaceTable<'t>,
    client: Vec<Option<Object>>,
    server: Vec<Option<Object>>,
    end: E,
    /// Whether the end holds frames above the list.
    holds: bool,
    pub args: Vec<Argument<ObjectId>>,
    pub text: Vec<u8>,
    fault_text: Vec<u8>,
}

// Empty slots: as many as are asked for, or one more than there may be.
fn slots(alloc: Global, places: usize) -> Result<Vec<Option<Object>>, AllocError> {
    Ok(vec![in alloc; None; places.min(MAX_PLACES + 1)]?)
}

impl<'t, E: World + Drop> Engine<'t, E> {
    /// None where the connection is refused.
    pub fn new(
        alloc: Global,
        table: InterfaceTable<'t>,
        end: E,
        settings: Settings,
    ) -> Result<Option<Engine<'t, E>>, AllocError> {
        let mut client = slots(alloc, settings.client)?;
        let mut server = slots(alloc, settings.server)?;
        let args = vec![in alloc; Argument::Int(0); MAX_ARGS]?;
        let text = vec![in alloc; 0; MAX_TEXT]?;
        let fault_text = vec![in alloc; 0; MAX_TEXT]?;
        let Ok(connection) = Connection::new(settings.number, &mut client, &mut server) else {
            return Ok(None);
        };
        Ok(Some(Engine {
            connection,
            table,
            client,
            server,
            end,
            holds: settings.frames > 0,
            args,
            text,
            fault_text,
        }))
    }

    /// Ends the connection; the rooms go.
    pub fn close(self) -> Ended {
        let Engine {
            connection,
            table: _,
            client: _,
            server: _,
            end: _,
            holds: _,
            args: _,
            text: _,
            fault_text: _,
        } = self;
        connection.end()
    }
}

/// The calls, lent what they need.
impl<E: World> Engine<'_, E> {
    pub fn prepare(&mut self) -> Result<ReadIntent, Refusal> {
        self.connection.prepare(&self.client, &self.server)
    }

    pub fn cancel(&mut self, intent: ReadIntent) -> Result<(), (Refusal, ReadIntent)> {
        self.connection.cancel(&self.client, &self.server, intent)
    }

    pub fn read(&mut self, intent: ReadIntent) -> Result<ReadAnswer, (Refusal, ReadIntent)> {
        self.connection.read(&self.client, &self.server, intent)
    }

    pub fn resume(&self, waiting: WaitingRead) -> Result<ResumeAnswer, Refusal> {
        self.connection.resume(&self.client, &self.server, waiting)
    }

    pub fn next(&mut self, round: Round) -> Result<NextAnswer, (Refusal, Round)> {
        self.connection.next(
            &self.table,
            &mut self.client,
            &mut self.server,
            &mut self.end,
            round,
            &mut self.args,
            &mut self.text,
            &mut self.fault_text,
        )
    }

    /// What comes next that is not quiet.
    pub fn next_told(&mut self, round: Round) -> Result<NextAnswer, (Refusal, Round)> {
        let mut round = round;
        for _ in 0..u64::MAX {
            match self.next(round)? {
                NextAnswer::Quiet(again) => round = again,
                told => return Ok(told),
            }
        }
        Ok(NextAnswer::Quiet(round))
    }

    pub fn settle(
        &mut self,
        event: HandedEvent,
        data: u64,
    ) -> Result<Settled, (Refusal, HandedEvent)> {
        self.connection
            .settle(&mut self.client, &mut self.server, event, data)
    }

    pub fn send(&mut self, request: &Request<'_>) -> Result<Sent, Refusal> {
        self.connection.send_request(
            &self.table,
            &mut self.client,
            &mut self.server,
            &mut self.end,
            request,
        )
    }

    pub fn destroy(&mut self, handle: ObjectId) -> Result<Notice, Refusal> {
        self.connection
            .destroy_object(&mut self.client, &mut self.server, handle)
    }

    pub fn get(&self, handle: ObjectId) -> Result<u64, Refusal> {
        self.connection.get_data(&self.client, &self.server, handle)
    }

    pub fn set(&mut self, handle: ObjectId, data: u64) -> Result<(), Refusal> {
        self.connection
            .set_data(&mut self.client, &mut self.server, handle, data)
    }

    pub fn info(&self, handle: ObjectId) -> Result<ObjectInfo, Refusal> {
        self.connection.info(&self.client, &self.server, handle)
    }

    pub fn flush(&mut self) -> Result<(), CallError> {
        self.connection
            .flush(&self.client, &self.server, &mut self.end)
    }
}

/// What the compositor does, and what is shown.
impl<E: World> Engine<'_, E> {
    /// A frame arrives; false where there is no place for it.
    pub fn deliver(&mut self, queued: &Queued) -> Result<bool, Refusal> {
        let frame = Outgoing::new(
            queued.sender,
            queued.opcode,
            &queued.message.args,
            &queued.message.text,
        )?;
        Ok(self.end.deliver(&frame))
    }

    /// The compositor is gone.
    pub fn hang_up(&mut self) {
        self.end.set_read_stop(Some(TransportFault::BROKEN_PIPE));
        self.end.set_write_stop(Some(TransportFault::BROKEN_PIPE));
    }

    /// How many sent frames have reached the bottom.
    pub fn sent_len(&self) -> usize {
        self.end.sent_len()
    }

    /// The first sent frame, as a line; it is collected.
    pub fn collect(&mut self, alloc: Global) -> Result<String, AllocError> {
        let mut line = String::from_str(alloc, "sent")?;
        if let Some(frame) = self.end.sent_at(0) {
            let (sender, opcode) = frame.head();
            write!(line, " {sender} {opcode}")?;
            let count = frame.read(&mut self.args, &mut self.text).unwrap_or(0);
            for arg in self.args.iter().take(count) {
                let number = object_of(*arg).map_or(0, |id| id.number);
                let arg = renamed(*arg, number);
                let text = self.text.as_slice();
                write!(line, " {}", ShownArg { arg, text })?;
            }
        }
        self.end.collect(1);
        Ok(line)
    }

    /// A fault, to be shown.
    pub fn shown(&self, fault: WaylandError) -> ShownFault<'_> {
        ShownFault {
            fault,
            table: self.table,
            text: &self.fault_text,
        }
    }

    /// The fault that is stored. No call tells it alone: once the compositor reads all that was sent, and does not stop
    /// writing, a flush answers nothing else but that frames are still held.
    pub fn last_fault(&mut self) -> Option<WaylandError> {
        self.end.set_write_stop(None);
        self.end.collect(usize::MAX);
        match self.flush() {
            Err(CallError::Fault(fault)) => Some(fault).filter(|fault| !self.tells_held(*fault)),
            _ => None,
        }
    }

    // Whether a flush answers this fault because frames are still held: then it is not stored.
    fn tells_held(&self, fault: WaylandError) -> bool {
        let blocked = WaylandError::Io(TransportFault {
            layer: 0,
            code: TransportFault::WOULD_BLOCK,
        });
        self.holds && fault == blocked
    }
}
