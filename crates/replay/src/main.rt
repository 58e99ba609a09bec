//! Runs scripts through the calls of a connection, and prints what each call answers.
#![tactic(auto)]

mod declared;
mod engine;
mod error;
mod hand;
mod handles;
mod lines;
mod message;
mod print;
mod script;
mod session;
mod words;

use anyhow::anyhow;
use declared::{DeclaredInterface, all_interfaces, describe_all};
use engine::Engine;
use error::{ScriptError, Stop};
use handles::Handles;
use lines::Lines;
use protocol::table::InterfaceTable;
use script::{Command, Declaration, Settings};
use session::Session;
use std::alloc::Global;
use std::io::{BufRead, BufReader};
use std::process::ExitCode;
use transport::buffered::BufferedEnd;
use transport::frame::Frame;
use transport::list_end::ListEnd;
use transport::world::World;

/// What ends a connection, or keeps it from being made.
#[derive(Drop)]
enum After {
    Refused,
    /// Another script begins.
    Script(String),
    Input,
}

// One more interface, or one more message of the last one.
fn declare(
    alloc: Global,
    interfaces: &mut Vec<DeclaredInterface>,
    declaration: Declaration,
) -> Result<(), Stop> {
    match declaration {
        Declaration::Interface(name) => interfaces.push(DeclaredInterface {
            name,
            requests: Vec::new(alloc),
            events: Vec::new(alloc),
        })?,
        Declaration::Request(request) => {
            let interface = interfaces.last_mut().ok_or(ScriptError::NoInterface)?;
            interface.requests.push(request)?;
        }
        Declaration::Event(event) => {
            let interface = interfaces.last_mut().ok_or(ScriptError::NoInterface)?;
            interface.events.push(event)?;
        }
    }
    Ok(())
}

// Obeys a script from its connection to its end.
fn obey_all<R: Print + AllocGlobal, B: BufRead, E: World>(
    rt: &R,
    lines: &mut Lines<B>,
    session: &mut Session<'_, E>,
) -> Result<After, Stop> {
    rt.println("connect ok")?;
    for _ in 0..u64::MAX {
        match lines.next(rt.alloc())? {
            Some(Command::Call(call)) => session.obey(rt, &call)?,
            Some(Command::Script(name)) => {
                session.report(rt)?;
                return Ok(After::Script(name));
            }
            Some(_) => return Err(Stop::Script(ScriptError::Connected)),
            None => break,
        }
    }
    session.report(rt)?;
    Ok(After::Input)
}

// Makes a connection over an end, and runs the rest of the script.
fn hold<R: Print + AllocGlobal, B: BufRead, E: World + Drop>(
    rt: &R,
    lines: &mut Lines<B>,
    table: InterfaceTable<'_>,
    end: E,
    settings: Settings,
) -> Result<After, Stop> {
    let alloc = rt.alloc();
    let handles = Handles::new(alloc)?;
    let Some(engine) = Engine::new(alloc, table, end, settings)? else {
        return Ok(After::Refused);
    };
    let mut session = Session::new(alloc, engine, handles);
    let after = obey_all(rt, lines, &mut session);
    session.close();
    after
}

// Checks the table and makes the ends, for a connection over them.
fn connect<R: Print + AllocGlobal, B: BufRead>(
    rt: &R,
    lines: &mut Lines<B>,
    interfaces: &[DeclaredInterface],
    settings: Settings,
) -> Result<After, Stop> {
    let alloc = rt.alloc();
    let messages = describe_all(alloc, interfaces)?;
    let described = all_interfaces(alloc, &messages)?;
    let Ok(table) = InterfaceTable::new(&described) else {
        return Ok(After::Refused);
    };
    let mut incoming = vec![in alloc; Frame::EMPTY; settings.places]?;
    let mut outgoing = vec![in alloc; Frame::EMPTY; settings.places]?;
    let list = ListEnd::new(&mut incoming, &mut outgoing);
    if settings.frames == 0 {
        return hold(rt, lines, table, list, settings);
    }
    match BufferedEnd::new(list, settings.frames) {
        Ok(end) => hold(rt, lines, table, end, settings),
        Err(_) => Ok(After::Refused),
    }
}

// Runs scripts until the input ends.
fn run<R: Print + AllocGlobal, B: BufRead>(rt: &R, lines: &mut Lines<B>) -> Result<(), Stop> {
    let alloc = rt.alloc();
    let mut interfaces = Vec::new(alloc);
    for _ in 0..u64::MAX {
        let begun = match lines.next(alloc)? {
            None => break,
            Some(Command::Declare(declaration)) => {
                declare(alloc, &mut interfaces, declaration)?;
                continue;
            }
            Some(Command::Call(_)) => return Err(Stop::Script(ScriptError::NotConnected)),
            Some(Command::Script(name)) => name,
            Some(Command::Connect(settings)) => {
                match connect(rt, lines, &interfaces, settings)? {
                    After::Script(name) => name,
                    After::Input => break,
                    After::Refused => {
                        rt.println("connect refused 12")?;
                        continue;
                    }
                }
            }
        };
        interfaces.clear();
        println!(rt; "script {begun}")?;
    }
    Ok(())
}

fn main(rt: HostRuntime) -> anyhow::Result<ExitCode> {
    let input = BufReader::new(rt.alloc(), rt.stdin())?;
    let mut lines = Lines::new(rt.alloc(), input);
    match run(&rt, &mut lines) {
        Ok(()) => Ok(ExitCode::SUCCESS),
        Err(Stop::Script(error)) => {
            println!(rt; "script error at line {}: {error}", lines.number())?;
            Ok(ExitCode::FAILURE)
        }
        Err(Stop::Memory) => Err(anyhow!("out of memory")),
        Err(Stop::Io(error)) => Err(error.into()),
    }
}
