//! The ends of a transport.

ghost use Rattle.std.specs.Prelude.{◌≡◌};
ghost use Rattle.transport.specs.Drafts.{outgoing_of};
ghost use Rattle.transport.specs.Ends.{End, first_in, taking, putting, flushing, Grounded, GroundedIf};

use crate::frame::TakeError;
use crate::outgoing::Outgoing;
use protocol::argument::{Argument, ArgumentType};
use protocol::error::TransportFault;
use protocol::id::ObjectId;

/// An end: frames wait there to be taken, and frames are put there to be sent.
pub trait Transport {
    ghost means: { Self → End };

    /// The sender and the opcode of the first frame that waits. Where none does it faults: with the code that stopped
    /// reading; else it would block.
    fn first(&self) -> Result<(u32, u16), TransportFault>
        ensures { result ≡ first_in (means self.now) };

    /// Takes the first frame, where it fits the signature: its arguments and their texts are written from the start of
    /// the two rooms, which have at least 20 places and 1,024 bytes, and what lies behind stays. Answers how many
    /// arguments there are. Where it fails nothing is changed.
    // The rooms are two parameters: a layer that passes a struct of both on loses what they hold afterwards.
    fn take(
        &mut self,
        signature: &[ArgumentType],
        args: &mut [Argument<ObjectId>],
        text: &mut [u8],
    ) -> Result<usize, TakeError>
        ensures { ((result, args.new, text.new), means self.new) ≡ taking signature.now (means self.old) args.old text.old };

    /// Accepts a message behind the others. Where there is no room it faults and changes nothing: with the code that
    /// stopped writing; else it would block, at the bottom, and the frames that are held back are too many, above it.
    fn put(&mut self, message: &Outgoing<'_>) -> Result<(), TransportFault>
        ensures defined { (result, means self.new) ≡ putting (outgoing_of message.now) (means self.old) }
        ensures grounded { GroundedIf result (means self.old) };

    /// Passes what was accepted on, as far as it goes. Faults with the code that stopped writing; else it would block
    /// where not all reached the bottom.
    fn flush(&mut self) -> Result<(), TransportFault>
        ensures same { means self.new ≡ means self.old }
        ensures answer { result ≡ flushing (means self.old) }
        ensures grounded { Grounded (means self.old) };

    // A law: where nothing lies above the bottom no layer is named, and a stop is never "would block". The calls say it too,
    // since who calls through a `dyn` reaches no law.
    ghost grounded: { (s : Self) → Grounded (means s) };
}
