//! Reads: prepared, cancelled, begun and resumed.

ghost use Rattle.std.specs.Prelude.{◌≡◌, cond, Ok, Err};
ghost use Rattle.protocol.specs.declared.refusal.Refusal.TheVariants.{BadToken};
ghost use Rattle.transport.specs.Ends.{End};
ghost use Rattle.client.specs.Calls.{prepare, cancel, read, resume, holds_intent, one_less, defined};
ghost use Rattle.client.specs.Coded.{Leaves, replied, replied_with, GivesBack, read_reply, resume_reply, Becomes};
ghost use Rattle.client.specs.Requests.{Table};
ghost use Rattle.client.specs.State.{conn_of, moment_of, woken, none, prepared, done};

use crate::connection::{Connection, Phase, ReadIntent, Round, WaitingRead};
use crate::object::Object;
use protocol::error::WaylandError;
use protocol::refusal::Refusal;

/// What became of a read.
pub enum ReadAnswer {
    /// Others are prepared: it waits until their round is over.
    Waits(WaitingRead),
    /// It was the last one: its round is open.
    Round(Round),
    /// It was the last one, and a fault is stored.
    Fault(WaylandError),
}

/// What became of a read that waited.
#[derive(Clone, Copy)]
pub enum ResumeAnswer {
    /// The round that it waits for is not over yet.
    Waits(WaitingRead),
    /// It is over.
    Over,
    /// It is over, and a fault is stored.
    Fault(WaylandError),
}

impl Connection {
    /// One read more is prepared, unless a round is open or 65,535 are.
    pub(crate) fn prepare_read(
        &mut self,
        client: &[Option<Object>],
        server: &[Option<Object>],
    ) -> Result<ReadIntent, Refusal>
        ensures { (t : Table) (e : End) → Leaves (defined t (moment_of self.old client.now server.now e) prepare) (replied prepared result) (moment_of self.new client.now server.now e) none }
    {
        if !self.map.fits(client, server) {
            return Err(Refusal::BadRoom);
        }
        if !matches!(self.phase, Phase::Idle) || self.prepared_reads == u16::MAX {
            return Err(Refusal::CannotPrepare);
        }
        self.prepared_reads += 1;
        Ok(ReadIntent {
            connection: self.number,
        })
    }

    /// Gives a prepared read up; after the last one those who wait go on.
    pub(crate) fn cancel_read(
        &mut self,
        client: &[Option<Object>],
        server: &[Option<Object>],
        intent: ReadIntent,
    ) -> Result<(), (Refusal, ReadIntent)>
        ensures defined { (t : Table) (e : End) → Leaves (defined t (moment_of self.old client.now server.now e) (cancel intent)) (replied_with (λ _. done) result) (moment_of self.new client.now server.now e) none }
        ensures back { GivesBack intent result }
    {
        if !self.map.fits(client, server) {
            return Err((Refusal::BadRoom, intent));
        }
        self.take_intent(intent)?;
        if self.prepared_reads == 0 {
            self.wake();
        }
        Ok(())
    }

    /// Begins a prepared read: it waits for the others, or opens a round.
    pub(crate) fn begin_read(
        &mut self,
        client: &[Option<Object>],
        server: &[Option<Object>],
        intent: ReadIntent,
    ) -> Result<ReadAnswer, (Refusal, ReadIntent)>
        ensures defined { (t : Table) (e : End) → Leaves (defined t (moment_of self.old client.now server.now e) (read intent)) (replied_with read_reply result) (moment_of self.new client.now server.now e) none }
        ensures back { GivesBack intent result }
    {
        if !self.map.fits(client, server) {
            return Err((Refusal::BadRoom, intent));
        }
        self.take_intent(intent)?;
        if self.prepared_reads > 0 {
            return Ok(ReadAnswer::Waits(WaitingRead {
                connection: self.number,
                read_serial: self.read_serial,
            }));
        }
        if let Some(fault) = self.last_error {
            self.wake();
            return Ok(ReadAnswer::Fault(fault));
        }
        self.phase = Phase::Reading(0);
        Ok(ReadAnswer::Round(Round {
            connection: self.number,
        }))
    }

    /// Goes on with a read that waited, once the read serial has changed.
    pub(crate) fn resume_read(
        &self,
        client: &[Option<Object>],
        server: &[Option<Object>],
        waiting: WaitingRead,
    ) -> Result<ResumeAnswer, Refusal>
        ensures { (t : Table) (e : End) → Leaves (defined t (moment_of self.now client.now server.now e) (resume waiting)) (replied resume_reply result) (moment_of self.now client.now server.now e) none }
    {
        if !self.map.fits(client, server) {
            return Err(Refusal::BadRoom);
        }
        if waiting.connection != self.number {
            return Err(Refusal::BadToken);
        }
        if waiting.read_serial == self.read_serial {
            return Ok(ResumeAnswer::Waits(waiting));
        }
        Ok(match self.last_error {
            Some(fault) => ResumeAnswer::Fault(fault),
            None => ResumeAnswer::Over,
        })
    }

    // Spends an intent of this connection's: one read less.
    fn take_intent(&mut self, intent: ReadIntent) -> Result<(), (Refusal, ReadIntent)>
        ensures answer { result ≡ cond (holds_intent (conn_of self.old) intent) (Ok tt) (Err (BadToken, intent)) }
        ensures left { Becomes self.old (cond (holds_intent (conn_of self.old) intent) (one_less (conn_of self.old)) (conn_of self.old)) self.new }
    {
        if intent.connection != self.number || self.prepared_reads == 0 {
            return Err((Refusal::BadToken, intent));
        }
        self.prepared_reads -= 1;
        let ReadIntent { connection: _ } = intent;
        Ok(())
    }

    // Those who wait for a read may go on.
    pub(crate) fn wake(&mut self)
        ensures { Becomes self.old (woken (conn_of self.old)) self.new }
    {
        self.read_serial = self.read_serial.wrapping_add(1);
    }
}
