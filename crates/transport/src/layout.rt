//! Arguments and their texts, copied from room to room.

ghost use Rattle.std.specs.Prelude.{◌≡◌, ◌+◌, ◌-◌, ◌≤◌, map, length, take, if◌then◌else◌};
ghost use Rattle.protocol.specs.declared.refusal.Refusal.TheVariants.{BadRoom};
ghost use Rattle.transport.specs.Wire.{given, held};
ghost use Rattle.transport.specs.Frames.{roomy};
ghost use Rattle.transport.specs.Layout.{arg_of, args_of, raw, spanned, overwritten, lay_one, lay_into};

use protocol::argument::{Argument, Span};
use protocol::id::ObjectId;
use protocol::refusal::Refusal;

/// How many arguments a frame has at most.
pub const MAX_ARGS: usize = 20;
/// How many bytes its strings and arrays have at most, all together.
pub const MAX_TEXT: usize = 1024;

/// Whether any frame fits into two rooms.
pub(crate) fn check_rooms(args: &[Argument<ObjectId>], text: &[u8]) -> Result<(), Refusal>
    ensures { result ≡ (if roomy args.now text.now then Ok tt else Err BadRoom) }
{
    if args.len() >= MAX_ARGS && text.len() >= MAX_TEXT {
        Ok(())
    } else {
        Err(Refusal::BadRoom)
    }
}

fn raw_handle(number: u32) -> ObjectId
    ensures { result ≡ raw number }
{
    ObjectId {
        number,
        ..ObjectId::null()
    }
}

// What is asked of the lent rooms stands in each contract here: a struct of both was tried, and a layer that passes it on
// loses what they hold. (Arrays of the least lengths were tried too: the goals of the callers stayed open.)

// Copies as much of a span as a text of `MAX_TEXT` bytes has left behind `at`.
fn copy_span(text: &[u8], span: Span, room: &mut [u8], at: usize) -> usize
    requires room { 1024 ≤ length room.old }
    requires at { at ≤ 1024 }
    ensures fits { at + result ≤ 1024 }
    ensures len { result ≡ length (take (1024 - at) (spanned text.now span)) }
    ensures room { room.new ≡ overwritten at (take (1024 - at) (spanned text.now span)) room.old }
{
    let behind = &text[span.start.min(text.len())..];
    let part = &behind[..span.len.min(behind.len()).min(MAX_TEXT - at)];
    room[at..at + part.len()].copy_from_slice(part);
    part.len()
}

// Lays one argument behind the `at` bytes in use: the argument for its new room, and the bytes in use then.
fn lay_one(
    child: u32,
    arg: Argument<ObjectId>,
    text: &[u8],
    room: &mut [u8],
    at: usize,
) -> (Argument<ObjectId>, usize)
    requires room { 1024 ≤ length room.old }
    requires at { at ≤ 1024 }
    ensures { (result, room.new) ≡ lay_one at (given child (arg_of text.now arg)) room.old }
{
    match arg {
        Argument::Str(Some(span)) => {
            let len = copy_span(text, span, room, at);
            (Argument::Str(Some(Span { start: at, len })), at + len)
        }
        Argument::Array(span) => {
            let len = copy_span(text, span, room, at);
            (Argument::Array(Span { start: at, len }), at + len)
        }
        Argument::Object(id) => (Argument::Object(raw_handle(id.number)), at),
        Argument::NewId(id) => {
            let number = if id.number == 0 { child } else { id.number };
            (Argument::NewId(raw_handle(number)), at)
        }
        Argument::Str(None)
        | Argument::Int(_)
        | Argument::Uint(_)
        | Argument::Fixed(_)
        | Argument::Fd(_) => (arg, at),
    }
}

/// Lays arguments and their texts into two rooms from their start, one after another, as far as a
/// frame holds them; a null new object becomes the child. Answers how many arguments it laid.
pub(crate) fn lay(
    child: u32,
    args: &[Argument<ObjectId>],
    text: &[u8],
    places: &mut [Argument<ObjectId>],
    room: &mut [u8],
) -> usize
    requires places { 20 ≤ length places.old }
    requires room { 1024 ≤ length room.old }
    ensures { (result, places.new, room.new) ≡ lay_into (held (map (given child) (args_of args.now text.now))) places.old room.old }
{
    let args = &args[..args.len().min(MAX_ARGS)];
    let mut end = 0;
    // By index: after an adapter of `iter_mut` a proof knows nothing of the places.
    for (i, arg) in args.iter().enumerate() {
        (places[i], end) = lay_one(child, *arg, text, room, end);
    }
    args.len()
}
