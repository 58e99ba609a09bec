//! How answers are shown.

use crate::message::HandleName;
use protocol::argument::{Argument, Span};
use protocol::error::{
    ErrorInterface, ProtocolError, ProtocolReason, TransportFault, WaylandError,
};
use protocol::id::{ObjectId, ObjectInfo};
use protocol::table::InterfaceTable;
use std::fmt;

/// A name or a string: other bytes than 0x21 to 0x7e, and `%`, are escaped.
#[derive(Clone, Copy)]
pub struct Escaped<'a>(pub &'a [u8]);

/// A text between quotation marks: blanks stay, and quotation marks are escaped.
#[derive(Clone, Copy)]
pub struct Quoted<'a>(pub &'a [u8]);

/// Bytes in hexadecimal digits.
#[derive(Clone, Copy)]
pub struct HexBytes<'a>(pub &'a [u8]);

/// A handle with its name, number, serial and interface.
#[derive(Clone, Copy)]
pub struct ShownHandle<'a> {
    pub name: HandleName,
    pub id: ObjectId,
    pub interface: &'a [u8],
}

/// An argument; its string or array lies in the text.
#[derive(Clone, Copy)]
pub struct ShownArg<'a, N> {
    pub arg: Argument<N>,
    pub text: &'a [u8],
}

/// What `info` answers.
#[derive(Clone, Copy)]
pub struct ShownInfo<'a> {
    pub info: ObjectInfo,
    pub interface: &'a [u8],
}

/// A fault; the text of an error event is the first part of the text.
#[derive(Clone, Copy)]
pub struct ShownFault<'a> {
    pub fault: WaylandError,
    pub table: InterfaceTable<'a>,
    pub text: &'a [u8],
}

impl fmt::Display for Escaped<'_> {
    fn fmt<W: fmt::Write>(&self, f: &mut fmt::Formatter<W>) -> fmt::Result {
        for byte in self.0 {
            match *byte {
                b'%' => f.write_str("%25")?,
                0x21..=0x7e => f.write_char(char::from(*byte))?,
                other => write!(f, "%{other:02X}")?,
            }
        }
        Ok(())
    }
}

impl fmt::Display for Quoted<'_> {
    fn fmt<W: fmt::Write>(&self, f: &mut fmt::Formatter<W>) -> fmt::Result {
        for byte in self.0 {
            match *byte {
                b'%' => f.write_str("%25")?,
                b'"' => f.write_str("%22")?,
                0x20..=0x7e => f.write_char(char::from(*byte))?,
                other => write!(f, "%{other:02X}")?,
            }
        }
        Ok(())
    }
}

impl fmt::Display for HexBytes<'_> {
    fn fmt<W: fmt::Write>(&self, f: &mut fmt::Formatter<W>) -> fmt::Result {
        for byte in self.0 {
            write!(f, "{byte:02X}")?;
        }
        Ok(())
    }
}

impl fmt::Display for HandleName {
    fn fmt<W: fmt::Write>(&self, f: &mut fmt::Formatter<W>) -> fmt::Result {
        write!(f, "h{}", self.0)
    }
}

impl fmt::Display for ShownHandle<'_> {
    fn fmt<W: fmt::Write>(&self, f: &mut fmt::Formatter<W>) -> fmt::Result {
        if self.id.is_null() {
            return write!(f, "{}", self.name);
        }
        let ObjectId { number, serial, .. } = self.id;
        write!(
            f,
            "{}={number}/{serial}/{}",
            self.name,
            Escaped(self.interface)
        )
    }
}

// The bytes that a span names.
fn part(text: &[u8], span: Span) -> &[u8] {
    text.get(span.start..)
        .and_then(|behind| behind.get(..span.len))
        .unwrap_or(&[])
}

// A string; the text `null` is escaped, so that it is not taken for none.
fn write_string<W: fmt::Write>(f: &mut fmt::Formatter<W>, bytes: &[u8]) -> fmt::Result {
    match bytes {
        b"null" => f.write_str("s:%6Eull"),
        _ => write!(f, "s:{}", Escaped(bytes)),
    }
}

impl<N: fmt::Display + Copy> fmt::Display for ShownArg<'_, N> {
    fn fmt<W: fmt::Write>(&self, f: &mut fmt::Formatter<W>) -> fmt::Result {
        match self.arg {
            Argument::Int(value) => write!(f, "i:{value}"),
            Argument::Uint(value) => write!(f, "u:{value}"),
            Argument::Fixed(value) => write!(f, "f:{value}"),
            Argument::Str(None) => f.write_str("s:null"),
            Argument::Str(Some(span)) => write_string(f, part(self.text, span)),
            Argument::Object(name) => write!(f, "o:{name}"),
            Argument::NewId(name) => write!(f, "n:{name}"),
            Argument::Array(span) => write!(f, "a:{}", HexBytes(part(self.text, span))),
            Argument::Fd(_) => f.write_str("h"),
        }
    }
}

impl fmt::Display for ShownInfo<'_> {
    fn fmt<W: fmt::Write>(&self, f: &mut fmt::Formatter<W>) -> fmt::Result {
        let ObjectInfo { id, version, .. } = self.info;
        write!(f, "{id} {} {version}", Escaped(self.interface))
    }
}

impl ShownFault<'_> {
    fn write_interface<W: fmt::Write>(
        &self,
        f: &mut fmt::Formatter<W>,
        interface: ErrorInterface,
    ) -> fmt::Result {
        match interface {
            ErrorInterface::Empty => f.write_str("-"),
            ErrorInterface::Known(number) => write!(f, "{}", Escaped(self.table.name(number))),
            ErrorInterface::Unknown => f.write_str("<unknown>"),
        }
    }

    fn write_reason<W: fmt::Write>(
        &self,
        f: &mut fmt::Formatter<W>,
        reason: ProtocolReason,
    ) -> fmt::Result {
        match reason {
            ProtocolReason::ErrorEvent { text_len } => {
                let span = Span {
                    start: 0,
                    len: text_len as usize,
                };
                write!(f, "{}", Quoted(part(self.text, span)))
            }
            ProtocolReason::Malformed => f.write_str("Malformed Wayland message."),
            ProtocolReason::UnknownObject { number } => write!(f, "Unknown object {number}."),
            ProtocolReason::WrongInterface {
                number,
                expected,
                found,
            } => self.write_mismatch(f, number, expected, found),
            ProtocolReason::UnusableNumber { interface, number }
            | ProtocolReason::NoSlot { interface, number } => write!(
                f,
                "Protocol error: server tried to create an object %22{}%22 with invalid id {number}.",
                Quoted(self.table.name(interface))
            ),
        }
    }

    fn write_mismatch<W: fmt::Write>(
        &self,
        f: &mut fmt::Formatter<W>,
        number: u32,
        expected: u16,
        found: u16,
    ) -> fmt::Result {
        write!(
            f,
            "Protocol error: server sent object {number} for interface {}, but it has interface {}.",
            Quoted(self.table.name(expected)),
            Quoted(self.table.name(found))
        )
    }

    fn write_protocol<W: fmt::Write>(
        &self,
        f: &mut fmt::Formatter<W>,
        error: ProtocolError,
    ) -> fmt::Result {
        write!(f, "protocol {} {} ", error.code, error.object_id)?;
        self.write_interface(f, error.object_interface)?;
        f.write_str(" \"")?;
        self.write_reason(f, error.reason)?;
        f.write_str("\"")
    }
}

impl fmt::Display for ShownFault<'_> {
    fn fmt<W: fmt::Write>(&self, f: &mut fmt::Formatter<W>) -> fmt::Result {
        match self.fault {
            WaylandError::Io(TransportFault { layer: 0, code }) => write!(f, "io {code}"),
            WaylandError::Io(TransportFault { layer, code }) => {
                write!(f, "io {code} layer {layer}")
            }
            WaylandError::Protocol(error) => self.write_protocol(f, error),
        }
    }
}
