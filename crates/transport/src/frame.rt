//! A frame: a message in a place of fixed size, written only as far as it is used.

ghost use Rattle.std.specs.Prelude.{◌≡◌, ◌≤◌, [], Some, length, take};
ghost use Rattle.transport.specs.Layout.{arg_of};
ghost use Rattle.transport.specs.Texts.{take_text};
ghost use Rattle.transport.specs.Signatures.{takes, kind_of, fits_raw};

use crate::layout::{MAX_ARGS, check_rooms, lay};
use crate::outgoing::Outgoing;
use protocol::argument::{AllowNull, Argument, ArgumentType};
use protocol::id::ObjectId;
use protocol::refusal::Refusal;
use std::fmt;

/// A place for one message.
// Arrays of fixed length and a count: nothing allocates, and a frame is written where it lies. No ghost field says that the
// count is at most 20: a caller's type that holds a frame beside a `&mut` could then be no type argument.
#[derive(Clone, Copy)]
pub struct Frame {
    sender: u32,
    opcode: u16,
    count: usize,
    args: [Argument<ObjectId>; 20],
    text: [u8; 1024],
}

/// Why no frame was taken.
#[derive(Clone, Copy, PartialEq, Eq, Debug)]
pub enum TakeError {
    /// No frame waits, or it does not fit the signature.
    Malformed,
    /// A room is too small for a frame.
    Refused(Refusal),
}

impl fmt::Display for TakeError {
    ghost output = { λ e. Some (take_text e) };

    fn fmt<W: fmt::Write>(&self, f: &mut fmt::Formatter<W>) -> fmt::Result {
        match *self {
            TakeError::Malformed => f.pad("malformed frame"),
            TakeError::Refused(why) => write!(f, "refused: {why}"),
        }
    }
}

impl std::error::Error for TakeError {}

impl From<Refusal> for TakeError {
    ghost use Rattle.transport.specs.declared.frame.TakeError.TheVariants.{Refused};

    ghost from_gives = { λ x r. r ≡ Refused x };

    fn from(refusal: Refusal) -> TakeError {
        TakeError::Refused(refusal)
    }
}

impl Frame {
    ghost use Rattle.transport.specs.Drafts.{outgoing_of};
    ghost use Rattle.transport.specs.Frames.{frame_of, reading, unpacking};

    /// A place to fill: a frame without arguments.
    pub const EMPTY: Frame = Frame {
        sender: 0,
        opcode: 0,
        count: 0,
        args: [Argument::Int(0); 20],
        text: [0; 1024],
    };

    /// The number of the object that the message is for or from, and which of its messages it is.
    pub fn head(&self) -> (u32, u16)
        ensures { result ≡ ((frame_of self.now).sender, (frame_of self.now).opcode) }
    {
        (self.sender, self.opcode)
    }

    /// The frame as a message to send again: nothing is copied.
    pub fn message(&self) -> Outgoing<'_>
        ensures { outgoing_of result ≡ frame_of self.now }
    {
        Outgoing {
            sender: self.sender,
            opcode: self.opcode,
            child: 0,
            args: self.in_use(),
            text: &self.text,
        }
    }

    /// Writes a message into the place, as far as it goes.
    pub fn set(&mut self, message: &Outgoing<'_>)
        ensures { frame_of self.new ≡ outgoing_of message.now }
    {
        self.sender = message.sender;
        self.opcode = message.opcode;
        self.count = lay(
            message.child,
            message.args,
            message.text,
            &mut self.args,
            &mut self.text,
        );
    }

    /// Copies the arguments and their texts out, into rooms of at least 20 places and 1,024 bytes.
    pub fn read(&self, args: &mut [Argument<ObjectId>], text: &mut [u8]) -> Result<usize, Refusal>
        ensures { (result, args.new, text.new) ≡ reading (frame_of self.now).args args.old text.old }
    {
        check_rooms(args, text)?;
        Ok(lay(0, self.in_use(), &self.text, args, text))
    }

    /// The same where the arguments fit a signature.
    pub(crate) fn unpack(
        &self,
        signature: &[ArgumentType],
        args: &mut [Argument<ObjectId>],
        text: &mut [u8],
    ) -> Result<usize, TakeError>
        requires args { 20 ≤ length args.old }
        requires text { 1024 ≤ length text.old }
        ensures { (result, args.new, text.new) ≡ unpacking signature.now (frame_of self.now).args args.old text.old }
    {
        if !accepts_all(signature, self.in_use()) {
            return Err(TakeError::Malformed);
        }
        Ok(lay(0, self.in_use(), &self.text, args, text))
    }

    // The arguments in use. `message` and `set` count 20 at most; a count above that would mean all 20.
    fn in_use(&self) -> &[Argument<ObjectId>]
        ensures { result.now ≡ take self.now.count self.now.args }
    {
        &self.args[..self.count.min(MAX_ARGS)]
    }
}

fn accepts(kind: ArgumentType, arg: Argument<ObjectId>) -> bool
    ensures { result ≡ takes kind (kind_of (arg_of [] arg)) }
{
    kind.same_type(arg.get_type())
        && !matches!(
            (kind, arg),
            (ArgumentType::Str(AllowNull::No), Argument::Str(None))
        )
}

fn accepts_all(signature: &[ArgumentType], args: &[Argument<ObjectId>]) -> bool
    ensures { result ≡ fits_raw signature.now args.now }
{
    signature.len() == args.len()
        && signature
            .iter()
            .zip(args)
            .all(|(kind, arg)| accepts(*kind, *arg))
}
