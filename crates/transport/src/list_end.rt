//! The end at the bottom: two rooms of frames that the caller lends, and what the world does to them.

ghost use Rattle.std.specs.Prelude.{◌≡◌, [], length, refl};
ghost use Rattle.transport.specs.Ends.{taking};
ghost use Rattle.transport.specs.Lists.{list_of, list_means, code_of, code_in, stop_of, fresh};
ghost use Rattle.transport.specs.Grounds.{list_grounded};

use crate::frame::{Frame, TakeError};
use crate::layout::check_rooms;
use crate::outgoing::Outgoing;
use crate::ring::Ring;
use crate::transport::Transport;
use crate::world::World;
use protocol::argument::{Argument, ArgumentType};
use protocol::error::TransportFault;
use protocol::id::ObjectId;

/// Frames wait in one room to be taken, and frames that were put stay in the other until they are collected.
#[derive(Drop)]
pub struct ListEnd<'a> {
    incoming: &'a mut [Frame],
    waiting: Ring,
    read_stop: Option<u32>,
    outgoing: &'a mut [Frame],
    sent: Ring,
    write_stop: Option<u32>,
}

// A stop is never 0, and never "would block".
fn stopped_by(stop: Option<u32>) -> Option<u32>
    ensures { result ≡ code_in (stop_of (code_of stop)) }
{
    stop.filter(|code| !matches!(*code, 0 | TransportFault::WOULD_BLOCK))
}

impl<'a> ListEnd<'a> {
    /// An end without frames, over a room for those that will wait and a room for those that will be sent.
    pub fn new(incoming: &'a mut [Frame], outgoing: &'a mut [Frame]) -> ListEnd<'a>
        ensures { list_of result ≡ fresh (length incoming.old) (length outgoing.old) }
    {
        ListEnd {
            incoming,
            waiting: Ring::EMPTY,
            read_stop: None,
            outgoing,
            sent: Ring::EMPTY,
            write_stop: None,
        }
    }
}

impl ListEnd<'_> {
    // What `take` writes and answers; the frame stays.
    fn unpack_first(
        &self,
        signature: &[ArgumentType],
        args: &mut [Argument<ObjectId>],
        text: &mut [u8],
    ) -> Result<usize, TakeError>
        ensures { (result, args.new, text.new) ≡ (taking signature.now (list_means self.now) args.old text.old).0 }
    {
        check_rooms(args, text)?;
        let frame = self
            .waiting
            .get(self.incoming, 0)
            .ok_or(TakeError::Malformed)?;
        frame.unpack(signature, args, text)
    }
}

impl<'a> Transport for ListEnd<'a> {
    ghost means = { list_means };

    ghost grounded = { list_grounded };

    fn first(&self) -> Result<(u32, u16), TransportFault> {
        match self.waiting.get(self.incoming, 0) {
            Some(frame) => Ok(frame.head()),
            None => Err(TransportFault {
                layer: 0,
                code: stopped_by(self.read_stop).unwrap_or(TransportFault::WOULD_BLOCK),
            }),
        }
    }

    fn take(
        &mut self,
        signature: &[ArgumentType],
        args: &mut [Argument<ObjectId>],
        text: &mut [u8],
    ) -> Result<usize, TakeError> {
        let count = self.unpack_first(signature, args, text)?;
        self.waiting.release(self.incoming.len(), 1);
        Ok(count)
    }

    #[tactic(auto, using(crate::specs::Grounds::list_grounded))]
    fn put(&mut self, message: &Outgoing<'_>) -> Result<(), TransportFault> {
        if let Some(code) = stopped_by(self.write_stop) {
            return Err(TransportFault { layer: 0, code });
        }
        if self.sent.push(self.outgoing, message) {
            Ok(())
        } else {
            Err(TransportFault {
                layer: 0,
                code: TransportFault::WOULD_BLOCK,
            })
        }
    }

    #[tactic(auto, using(crate::specs::Grounds::list_grounded))]
    fn flush(&mut self) -> Result<(), TransportFault> {
        match stopped_by(self.write_stop) {
            None => Ok(()),
            Some(code) => Err(TransportFault { layer: 0, code }),
        }
    }
}

impl<'a> World for ListEnd<'a> {
    ghost bottom = { list_of };

    ghost above = { λ _. [] };

    ghost stack = { λ _. refl };

    fn deliver(&mut self, message: &Outgoing<'_>) -> bool {
        self.waiting.push(self.incoming, message)
    }

    fn collect(&mut self, n: usize) -> usize {
        let gone = n.min(self.sent_len());
        self.sent.release(self.outgoing.len(), n);
        gone
    }

    fn sent_len(&self) -> usize {
        self.sent.len(self.outgoing.len())
    }

    fn sent_at(&self, i: usize) -> Option<&Frame> {
        self.sent.get(self.outgoing, i)
    }

    fn set_read_stop(&mut self, stop: Option<u32>) {
        self.read_stop = stop;
    }

    fn set_write_stop(&mut self, stop: Option<u32>) {
        self.write_stop = stop;
    }
}
