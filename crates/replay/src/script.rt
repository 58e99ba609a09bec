//! The commands, as a line of a script has them: words with one blank between.

use crate::declared::Declared;
use crate::error::{ScriptError, Stop};
use crate::message::{HandleName, Message};
use crate::words::{read_u16, read_u32, read_u64, read_usize, unescape};
use client::object::ChildSpec;
use protocol::id::ObjectId;
use std::alloc::Global;

/// What a connection is made of.
#[derive(Clone, Copy)]
pub struct Settings {
    pub number: u32,
    /// Slots for the client's and the server's objects.
    pub client: usize,
    pub server: usize,
    /// Frames that the buffered end holds; 0: there is none.
    pub frames: usize,
    /// Frames that the list end has places for, each way.
    pub places: usize,
}

/// A frame from the compositor.
#[derive(Drop)]
pub struct Queued {
    pub sender: u32,
    pub opcode: u16,
    pub message: Message<ObjectId>,
}

/// A request to send.
#[derive(Drop)]
pub struct Asked {
    pub sender: HandleName,
    pub opcode: u16,
    pub data: u64,
    pub child: Option<ChildSpec>,
    pub message: Message<HandleName>,
}

/// What comes before a connection is made.
#[derive(Drop)]
pub enum Declaration {
    Interface(Vec<u8>),
    Request(Declared),
    Event(Declared),
}

/// What is done with a connection.
#[derive(Drop)]
pub enum Call {
    Queue(Queued),
    Hangup,
    Prepare,
    Cancel,
    Read,
    Resume,
    Settle(u64),
    Send(Asked),
    Destroy(HandleName),
    Get(HandleName),
    Set(HandleName, u64),
    Info(HandleName),
    Flush,
}

/// What a line asks for.
#[derive(Drop)]
pub enum Command {
    /// The script before ends, and one of this name begins.
    Script(String),
    Declare(Declaration),
    Connect(Settings),
    Call(Call),
}

impl Settings {
    const DEFAULT: Settings = Settings {
        number: 1,
        client: 1024,
        server: 1024,
        frames: 8,
        places: 1024,
    };

    fn read(words: &[&str]) -> Result<Settings, ScriptError> {
        let mut settings = Settings::DEFAULT;
        for word in words {
            let (name, value) = word.split_once('=').ok_or(ScriptError::Setting)?;
            match name {
                "number" => settings.number = read_u32(value)?,
                "client" => settings.client = read_usize(value)?,
                "server" => settings.server = read_usize(value)?,
                "frames" => settings.frames = read_usize(value)?,
                "places" => settings.places = read_usize(value)?,
                _ => return Err(ScriptError::Setting),
            }
        }
        Ok(settings)
    }
}

// What a new object is to be: `-`, or an interface and a version.
fn read_spec(word: &str) -> Result<Option<ChildSpec>, ScriptError> {
    if word == "-" {
        return Ok(None);
    }
    let (interface, version) = word.split_once(':').ok_or(ScriptError::Child)?;
    Ok(Some(ChildSpec {
        interface: read_u16(interface)?,
        version: read_u32(version)?,
    }))
}

fn read_queued(alloc: Global, sender: &str, opcode: &str, args: &[&str]) -> Result<Queued, Stop> {
    Ok(Queued {
        sender: read_u32(sender)?,
        opcode: read_u16(opcode)?,
        message: Message::read(alloc, args)?,
    })
}

fn read_asked(
    alloc: Global,
    sender: &str,
    opcode: &str,
    data: &str,
    child: &str,
    args: &[&str],
) -> Result<Asked, Stop> {
    Ok(Asked {
        sender: HandleName::read(sender)?,
        opcode: read_u16(opcode)?,
        data: read_u64(data)?,
        child: read_spec(child)?,
        message: Message::read(alloc, args)?,
    })
}

fn read_call(alloc: Global, words: &[&str]) -> Result<Call, Stop> {
    Ok(match *words {
        ["queue", sender, opcode, ref args @ ..] => {
            Call::Queue(read_queued(alloc, sender, opcode, args)?)
        }
        ["send", sender, opcode, data, child, ref args @ ..] => {
            Call::Send(read_asked(alloc, sender, opcode, data, child, args)?)
        }
        ["settle", data] => Call::Settle(read_u64(data)?),
        ["destroy", handle] => Call::Destroy(HandleName::read(handle)?),
        ["get", handle] => Call::Get(HandleName::read(handle)?),
        ["set", handle, data] => Call::Set(HandleName::read(handle)?, read_u64(data)?),
        ["info", handle] => Call::Info(HandleName::read(handle)?),
        [word] => read_plain(word)?,
        _ => return Err(Stop::Script(ScriptError::Command)),
    })
}

// The commands of one word.
fn read_plain(word: &str) -> Result<Call, ScriptError> {
    match word {
        "hangup" => Ok(Call::Hangup),
        "prepare" => Ok(Call::Prepare),
        "cancel" => Ok(Call::Cancel),
        "read" => Ok(Call::Read),
        "resume" => Ok(Call::Resume),
        "flush" => Ok(Call::Flush),
        _ => Err(ScriptError::Command),
    }
}

impl Command {
    pub fn read(alloc: Global, line: &str) -> Result<Command, Stop> {
        let words: Vec<&str> = line.split(' ').collect(alloc)?;
        Command::from_words(alloc, &words)
    }

    fn from_words(alloc: Global, words: &[&str]) -> Result<Command, Stop> {
        Ok(match *words {
            ["script", name] => Command::Script(String::from_str(alloc, name)?),
            ["interface", name] => {
                Command::Declare(Declaration::Interface(unescape(alloc, name)?))
            }
            ["request", signature, ref words @ ..] => Command::Declare(Declaration::Request(
                Declared::read_request(alloc, signature, words)?,
            )),
            ["event", signature, ref words @ ..] => Command::Declare(Declaration::Event(
                Declared::read_event(alloc, signature, words)?,
            )),
            ["connect", ref words @ ..] => Command::Connect(Settings::read(words)?),
            _ => Command::Call(read_call(alloc, words)?),
        })
    }
}
