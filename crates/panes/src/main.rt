//! A viewer's pane table, driven by commands on standard input, one a line.
#![tactic(auto)]

mod command;
mod pane;
mod table;

use anyhow::Context;
use command::{Command, parse};
use object_map::refusal::Refusal;
use pane::Pane;
use std::io;
use std::io::{BufRead, BufReader};
use table::{Answer, PaneTable};

/// How many panes may be open at once.
const PLACES: usize = 1024;

/// A line without its line feed.
fn content(line: &[u8]) -> &[u8] {
    line.strip_suffix(b"\n").unwrap_or(line)
}

/// Tells what a command did, or why it did nothing.
fn tell(rt: &impl Print, answer: Result<Answer, Refusal>) -> io::Result<()> {
    match answer {
        Ok(answer) => rt.println(answer),
        Err(refusal) => println!(rt; "refused ({}): {refusal}", refusal.number()),
    }
}

/// Every open pane, in the order of the numbers.
fn list(rt: &impl Print, table: &mut PaneTable) -> io::Result<()> {
    tell(rt, table.apply(Command::List))?;
    for number in 1..=table.last() {
        if let Ok(answer) = table.apply(Command::Show(number)) {
            rt.println(answer)?;
        }
    }
    Ok(())
}

/// What one line asks for; blank lines and those that begin with `#` ask for nothing.
fn obey(rt: &impl Print, table: &mut PaneTable, number: u64, line: &[u8]) -> io::Result<()> {
    if let [] | [b'#', ..] = line {
        return Ok(());
    }
    match parse(line) {
        Some(Command::List) => list(rt, table),
        Some(command) => tell(rt, table.apply(command)),
        None => match std::str::from_utf8(line) {
            Ok(text) => println!(rt; "line {number}: not a command: {text}"),
            Err(_) => println!(rt; "line {number}: not a command"),
        },
    }
}

/// Obeys the lines of standard input, with a place in `panes` for each pane.
fn run(rt: &HostRuntime, panes: &mut [Option<Pane>]) -> anyhow::Result<()> {
    let mut table = PaneTable::new(panes).context("no room for panes")?;
    let mut input = BufReader::new(rt.alloc(), rt.stdin())?;
    let mut line = Vec::new(rt.alloc());
    for number in 1..u64::MAX {
        line.clear();
        if input.read_until(b'\n', &mut line)? == 0 {
            break;
        }
        obey(rt, &mut table, number, content(&line))?;
    }
    Ok(())
}

fn main(rt: HostRuntime) -> anyhow::Result<()> {
    let mut panes: [Option<Pane>; PLACES] = [None; PLACES];
    run(&rt, &mut panes)
}
