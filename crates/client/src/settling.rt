//! Events in hand, settled; and the flush.

ghost use Rattle.std.specs.Prelude.{◌≡◌, true};
ghost use Rattle.object_map.specs.Map.{map_of, fits};
ghost use Rattle.transport.specs.Ends.{End};
ghost use Rattle.client.specs.Calls.{settle, flush, defined};
ghost use Rattle.client.specs.Coded.{Leaves, replied_with, GivesBack, settled_reply, flush_reply};
ghost use Rattle.client.specs.Requests.{Table};
ghost use Rattle.client.specs.State.{moment_of, both_marked, with_data, changed_at, none};

use crate::connection::{Connection, HandedEvent, Phase, Round};
use crate::error::CallError;
use crate::object::{Notice, Object};
use protocol::error::TransportFault;
use protocol::refusal::Refusal;
use transport::transport::Transport;

/// An event is settled: the round goes on, and a notice tells of a receiver that it destroyed.
pub struct Settled {
    pub round: Round,
    pub notice: Option<Notice>,
}

impl Connection {
    /// Ends the event in hand; the object that it created gets its data number.
    pub(crate) fn settle_event(
        &mut self,
        client: &mut [Option<Object>],
        server: &mut [Option<Object>],
        event: HandedEvent,
        data: u64,
    ) -> Result<Settled, (Refusal, HandedEvent)>
        ensures defined { (t : Table) (e : End) → Leaves (defined t (moment_of self.old client.old server.old e) (settle event «data»)) (replied_with settled_reply result) (moment_of self.new client.new server.new e) none }
        ensures back { GivesBack event result }
    {
        if !self.map.fits(client, server) {
            return Err((Refusal::BadRoom, event));
        }
        let Phase::Handed(count, handed) = self.phase else {
            return Err((Refusal::BadToken, event));
        };
        if event.connection != self.number
            || event.number != handed.receiver.number
            || event.serial != handed.receiver.serial
        {
            return Err((Refusal::BadToken, event));
        }
        if handed.child.is_some() != (data != 0) {
            return Err((Refusal::BadData, event));
        }
        let HandedEvent {
            connection: _,
            number: _,
            serial: _,
        } = event;
        if handed.destroys {
            self.mark_both(client, server, handed.receiver.number);
        }
        if let Some(child) = handed.child {
            self.give_data(client, server, child, data);
        }
        self.phase = Phase::Reading(count.saturating_add(1));
        Ok(Settled {
            round: Round {
                connection: self.number,
            },
            notice: handed.destroys.then_some(Notice {
                id: handed.receiver,
                data: handed.data,
            }),
        })
    }

    /// Passes what was sent on, as far as it goes, unless a fault is stored.
    pub(crate) fn flush_end<E: Transport>(
        &mut self,
        client: &[Option<Object>],
        server: &[Option<Object>],
        end: &mut E,
    ) -> Result<(), CallError>
        ensures { (t : Table) → Leaves (defined t (moment_of self.old client.now server.now (E.Transport.means end.old)) flush) (flush_reply result) (moment_of self.new client.now server.now (E.Transport.means end.new)) none }
    {
        if !self.map.fits(client, server) {
            return Err(CallError::Refused(Refusal::BadRoom));
        }
        if let Some(fault) = self.last_error {
            return Err(CallError::Fault(fault));
        }
        let flushed = end.flush();
        if let Err(fault) = flushed {
            if fault.code != TransportFault::WOULD_BLOCK {
                self.last_error = Some(fault.into());
            }
        }
        Ok(flushed?)
    }

    // Marks the object at a number as destroyed by both sides; an empty slot takes no mark.
    fn mark_both(&self, client: &mut [Option<Object>], server: &mut [Option<Object>], number: u32)
        requires { fits (map_of self.now.map client.old server.old) ≡ true }
        ensures slots { map_of self.now.map client.new server.new ≡ changed_at both_marked number (map_of self.now.map client.old server.old) }
        ensures fit { fits (map_of self.now.map client.new server.new) ≡ true }
    {
        let _ = self.map.update(
            client,
            server,
            number,
            |object| Object {
                client_destroyed: true,
                server_destroyed: true,
                ..object
            },
        );
    }

    // Gives the object at a number its data number; an empty slot takes none.
    fn give_data(
        &self,
        client: &mut [Option<Object>],
        server: &mut [Option<Object>],
        number: u32,
        data: u64,
    )
        requires { fits (map_of self.now.map client.old server.old) ≡ true }
        ensures { map_of self.now.map client.new server.new ≡ changed_at (with_data «data») number (map_of self.now.map client.old server.old) }
    {
        let _ = self
            .map
            .update(client, server, number, |object| Object { data, ..object });
    }
}
