//! An end that holds frames above another, so that a put rarely has to wait for the end below.

ghost use Rattle.std.specs.Prelude.{◌≡◌, [], ◌∷◌, ◌++◌};
ghost use Rattle.transport.specs.Drafts.{outgoing_of};
ghost use Rattle.transport.specs.Ends.{putting, flushing, Grounded, GroundedIf};
ghost use Rattle.transport.specs.Layers.{held_of, over, passing, raised, put_through, flush_through, buffering, layered};
ghost use Rattle.transport.specs.Grounds.{over_grounded, held_some};
ghost use Rattle.transport.specs.Stacks.{stacked_more};

use crate::frame::{Frame, TakeError};
use crate::held::{Held, MAX_HELD};
use crate::outgoing::Outgoing;
use crate::transport::Transport;
use crate::world::World;
use protocol::argument::{Argument, ArgumentType};
use protocol::error::TransportFault;
use protocol::id::ObjectId;
use protocol::refusal::Refusal;

/// An end over `lower`, with up to 8 frames held above it.
#[derive(Drop)]
pub struct BufferedEnd<E> {
    lower: E,
    held: Held,
}

// Passes what is held down, in order, until the end below faults.
fn pass<E: Transport>(lower: &mut E, held: &mut Held) -> Result<(), TransportFault>
    ensures { (result, E.Transport.means lower.new, held_of held.new) ≡ passing (E.Transport.means lower.old) (held_of held.old) }
{
    while let Some(frame) = held.first() {
        lower.put(&frame.message())?;
        held.release_first();
    }
    Ok(())
}

// The fault of the end below as that of the layer above it.
fn raise(fault: TransportFault) -> TransportFault
    ensures { result ≡ raised fault }
{
    if fault.code == TransportFault::WOULD_BLOCK {
        TransportFault {
            layer: 1,
            code: TransportFault::TOO_BIG,
        }
    } else {
        fault
    }
}

impl<E: Transport> Transport for BufferedEnd<E> {
    ghost means = { λ s. over (E.Transport.means s.lower) (held_of s.held) };

    ghost grounded = { λ s. over_grounded (E.Transport.means s.lower) (held_of s.held) (E.Transport.grounded s.lower) (held_some s.held) };

    fn first(&self) -> Result<(u32, u16), TransportFault> {
        self.lower.first()
    }

    fn take(
        &mut self,
        signature: &[ArgumentType],
        args: &mut [Argument<ObjectId>],
        text: &mut [u8],
    ) -> Result<usize, TakeError> {
        self.lower.take(signature, args, text)
    }

    // Beyond what the trait says: which frames are held then, and which are below.
    fn put(&mut self, message: &Outgoing<'_>) -> Result<(), TransportFault>
        ensures layers { (result, E.Transport.means self.new.lower, held_of self.new.held) ≡ put_through (outgoing_of message.now) (E.Transport.means self.old.lower) (held_of self.old.held) }
        ensures defined { (result, over (E.Transport.means self.new.lower) (held_of self.new.held)) ≡ putting (outgoing_of message.now) (over (E.Transport.means self.old.lower) (held_of self.old.held)) }
        ensures grounded { GroundedIf result (over (E.Transport.means self.old.lower) (held_of self.old.held)) }
    {
        if self.held.push(message) {
            return Ok(());
        }
        let passed = pass(&mut self.lower, &mut self.held);
        if self.held.push(message) {
            return Ok(());
        }
        passed.map_err(raise)
    }

    // The same: all is passed down first.
    fn flush(&mut self) -> Result<(), TransportFault>
        ensures layers { (result, E.Transport.means self.new.lower, held_of self.new.held) ≡ flush_through (E.Transport.means self.old.lower) (held_of self.old.held) }
        ensures same { over (E.Transport.means self.new.lower) (held_of self.new.held) ≡ over (E.Transport.means self.old.lower) (held_of self.old.held) }
        ensures answer { result ≡ flushing (over (E.Transport.means self.old.lower) (held_of self.old.held)) }
        ensures grounded { Grounded (over (E.Transport.means self.old.lower) (held_of self.old.held)) }
    {
        let passed = pass(&mut self.lower, &mut self.held);
        self.lower.flush()?;
        passed.map_err(|_| TransportFault {
            layer: 0,
            code: TransportFault::WOULD_BLOCK,
        })
    }
}

impl<E: Transport> BufferedEnd<E> {
    /// An end over `lower` that holds up to 1 to 8 frames; else `lower` comes back, refused for a bad room.
    pub fn new(lower: E, frames: usize) -> Result<BufferedEnd<E>, (Refusal, E)>
        ensures { layered result ≡ buffering lower frames }
    {
        if !(1..=MAX_HELD).contains(&frames) {
            return Err((Refusal::BadRoom, lower));
        }
        Ok(BufferedEnd {
            lower,
            held: Held::new(frames),
        })
    }
}

impl<E: World> World for BufferedEnd<E> {
    ghost bottom = { λ s. E.World.bottom s.lower };

    ghost above = { λ s. E.World.above s.lower ++ held_of s.held ∷ [] };

    ghost stack = { λ s. stacked_more (held_of s.held) (E.Transport.means s.lower) (E.World.bottom s.lower) (E.World.above s.lower) (E.World.stack s.lower) };

    #[tactic(auto, using(crate::specs::Stacks::stacked_more))]
    fn deliver(&mut self, message: &Outgoing<'_>) -> bool {
        self.lower.deliver(message)
    }

    #[tactic(auto, using(crate::specs::Stacks::stacked_more))]
    fn collect(&mut self, n: usize) -> usize {
        self.lower.collect(n)
    }

    fn sent_len(&self) -> usize {
        self.lower.sent_len()
    }

    fn sent_at(&self, i: usize) -> Option<&Frame> {
        self.lower.sent_at(i)
    }

    #[tactic(auto, using(crate::specs::Stacks::stacked_more))]
    fn set_read_stop(&mut self, stop: Option<u32>) {
        self.lower.set_read_stop(stop);
    }

    #[tactic(auto, using(crate::specs::Stacks::stacked_more))]
    fn set_write_stop(&mut self, stop: Option<u32>) {
        self.lower.set_write_stop(stop);
    }
}
