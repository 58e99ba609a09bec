//! The arguments of a frame or a request, as a line has them.

use crate::error::{ScriptError, Stop};
use crate::words::{read_hex, read_i32, read_u32, read_usize, unescape};
use protocol::argument::{Argument, Span};
use protocol::core_interfaces::ANONYMOUS;
use protocol::id::ObjectId;
use std::alloc::Global;

/// The name of a handle: `h` and the place that it has among those that were printed.
#[derive(Clone, Copy, PartialEq, Eq, Debug)]
pub struct HandleName(pub usize);

/// How an object is named in an argument.
pub trait ObjectName: Copy {
    fn read(word: &str) -> Result<Self, ScriptError>;

    /// The name of a new object.
    fn read_new(word: &str) -> Result<Self, ScriptError>;
}

/// Arguments, and the text that their strings and arrays lie in.
#[derive(Drop)]
pub struct Message<N: Copy> {
    pub args: Vec<Argument<N>>,
    pub text: Vec<u8>,
}

impl HandleName {
    pub const NULL: HandleName = HandleName(0);

    pub fn read(word: &str) -> Result<HandleName, ScriptError> {
        let place = word.strip_prefix("h").ok_or(ScriptError::Handle)?;
        let place = read_usize(place).map_err(|_| ScriptError::Handle)?;
        Ok(HandleName(place))
    }
}

impl ObjectName for HandleName {
    fn read(word: &str) -> Result<HandleName, ScriptError> {
        HandleName::read(word)
    }

    fn read_new(word: &str) -> Result<HandleName, ScriptError> {
        match word {
            "null" => Ok(HandleName::NULL),
            _ => HandleName::read(word),
        }
    }
}

// On the wire an object is its number.
impl ObjectName for ObjectId {
    fn read(word: &str) -> Result<ObjectId, ScriptError> {
        Ok(ObjectId {
            number: read_u32(word)?,
            serial: 0,
            interface: ANONYMOUS,
        })
    }

    fn read_new(word: &str) -> Result<ObjectId, ScriptError> {
        <ObjectId as ObjectName>::read(word)
    }
}

// Lays bytes behind a text.
fn lay(text: &mut Vec<u8>, bytes: &[u8]) -> Result<Span, Stop> {
    let start = text.len();
    text.extend_from_slice(bytes)?;
    Ok(Span {
        start,
        len: bytes.len(),
    })
}

fn read_arg<N: ObjectName>(
    alloc: Global,
    word: &str,
    text: &mut Vec<u8>,
) -> Result<Argument<N>, Stop> {
    if word == "h" {
        return Ok(Argument::Fd(0));
    }
    let (kind, value) = word.split_once(':').ok_or(ScriptError::Argument)?;
    Ok(match kind {
        "i" => Argument::Int(read_i32(value)?),
        "u" => Argument::Uint(read_u32(value)?),
        "f" => Argument::Fixed(read_i32(value)?),
        "o" => Argument::Object(N::read(value)?),
        "n" => Argument::NewId(N::read_new(value)?),
        "s" if value == "null" => Argument::Str(None),
        "s" => Argument::Str(Some(lay(text, &unescape(alloc, value)?)?)),
        "a" => Argument::Array(lay(text, &read_hex(alloc, value)?)?),
        _ => return Err(Stop::Script(ScriptError::Argument)),
    })
}

impl<N: ObjectName> Message<N> {
    pub fn read(alloc: Global, words: &[&str]) -> Result<Message<N>, Stop> {
        let mut message = Message {
            args: Vec::new(alloc),
            text: Vec::new(alloc),
        };
        for word in words {
            let arg = read_arg(alloc, word, &mut message.text)?;
            message.args.push(arg)?;
        }
        Ok(message)
    }
}

/// The object that an argument names.
pub fn object_of<N: Copy>(arg: Argument<N>) -> Option<N> {
    match arg {
        Argument::Object(name) | Argument::NewId(name) => Some(name),
        _ => None,
    }
}

/// The same argument; an object in it gets another name.
pub fn renamed<N: Copy, M: Copy>(arg: Argument<N>, name: M) -> Argument<M> {
    match arg {
        Argument::Int(value) => Argument::Int(value),
        Argument::Uint(value) => Argument::Uint(value),
        Argument::Fixed(value) => Argument::Fixed(value),
        Argument::Str(span) => Argument::Str(span),
        Argument::Object(_) => Argument::Object(name),
        Argument::NewId(_) => Argument::NewId(name),
        Argument::Array(span) => Argument::Array(span),
        Argument::Fd(fd) => Argument::Fd(fd),
    }
}
