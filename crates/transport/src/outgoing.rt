//! A message on its way out, over rooms that the caller lends.

ghost use Rattle.std.specs.Prelude.{◌≡◌, IfOk};
ghost use Rattle.std.specs.Option.{option_map};
ghost use Rattle.transport.specs.Drafts.{draft_of, with_child, Whole, part, left_after, sendable, composing, composed};

use crate::layout::{MAX_ARGS, MAX_TEXT};
use protocol::argument::{Argument, Span};
use protocol::id::ObjectId;
use protocol::refusal::Refusal;

/// A message that was checked: at most 20 arguments, and at most 1,024 bytes of strings and arrays, which lie in the
/// text.
#[derive(Clone, Copy)]
pub struct Outgoing<'a> {
    pub(crate) sender: u32,
    pub(crate) opcode: u16,
    // What a null new object stands for; 0, the null of the wire, where there is none: an `Option` would name that twice.
    pub(crate) child: u32,
    pub(crate) args: &'a [Argument<ObjectId>],
    pub(crate) text: &'a [u8],
}

impl<'a> Outgoing<'a> {
    /// Refused as a bad signature where there are more than 20 arguments, where a string or an array lies outside the
    /// text, where a string has a zero byte, and where they have more than 1,024 bytes in all.
    pub fn new(
        sender: u32,
        opcode: u16,
        args: &'a [Argument<ObjectId>],
        text: &'a [u8],
    ) -> Result<Outgoing<'a>, Refusal>
        ensures defined { composed result ≡ composing sender opcode args.now text.now }
        ensures whole { IfOk result (λ o. Whole (draft_of o)) }
    {
        if args.len() > MAX_ARGS || !all_sendable(args, text) {
            return Err(Refusal::BadSignature);
        }
        Ok(Outgoing {
            sender,
            opcode,
            child: 0,
            args,
            text,
        })
    }

    /// A null new object among the arguments then stands for this number.
    pub fn with_child(self, number: u32) -> Outgoing<'a>
        ensures { draft_of result ≡ with_child number (draft_of self.entry) }
    {
        Outgoing {
            child: number,
            ..self
        }
    }
}

// The bytes that a span names, if they lie in the text and are at most `left`.
fn part(left: usize, text: &[u8], span: Span) -> Option<&[u8]>
    ensures { option_map (λ s. s.now) result ≡ part left text.now span }
{
    let bytes = text.get(span.start..)?.get(..span.len)?;
    (bytes.len() <= left).then_some(bytes)
}

// How many of the bytes that are left an argument leaves, if it may be sent.
fn left_after(left: usize, text: &[u8], arg: Argument<ObjectId>) -> Option<usize>
    ensures { result ≡ left_after left text.now arg }
{
    match arg {
        Argument::Str(Some(span)) => {
            let bytes = part(left, text, span)?;
            (!bytes.contains(&0)).then_some(left - bytes.len())
        }
        Argument::Array(span) => Some(left - part(left, text, span)?.len()),
        Argument::Str(None)
        | Argument::Int(_)
        | Argument::Uint(_)
        | Argument::Fixed(_)
        | Argument::Object(_)
        | Argument::NewId(_)
        | Argument::Fd(_) => Some(left),
    }
}

fn all_sendable(args: &[Argument<ObjectId>], text: &[u8]) -> bool
    ensures { result ≡ sendable 1024 text.now args.now }
{
    args.iter()
        .try_fold(MAX_TEXT, |left, arg| left_after(left, text, *arg))
        .is_some()
}
