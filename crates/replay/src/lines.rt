//! The lines of the input, one command after another.

use crate::error::{ScriptError, Stop};
use crate::script::Command;
use std::alloc::Global;
use std::io::BufRead;

/// Reads lines and counts them.
#[derive(Drop)]
pub struct Lines<B> {
    input: B,
    line: Vec<u8>,
    number: u64,
}

// A line without its line feed.
fn content(line: &[u8]) -> &[u8] {
    line.strip_suffix(b"\n").unwrap_or(line)
}

impl<B: BufRead> Lines<B> {
    pub fn new(alloc: Global, input: B) -> Lines<B> {
        Lines {
            input,
            line: Vec::new(alloc),
            number: 0,
        }
    }

    /// The number of the line that was read last.
    pub fn number(&self) -> u64 {
        self.number
    }

    /// The next command, if there is one; blank lines and those that begin with `#` are skipped.
    pub fn next(&mut self, alloc: Global) -> Result<Option<Command>, Stop> {
        for _ in 0..u64::MAX {
            self.line.clear();
            if self.input.read_until(b'\n', &mut self.line)? == 0 {
                break;
            }
            self.number = self.number.saturating_add(1);
            let line = content(&self.line);
            if let [] | [b'#', ..] = line {
                continue;
            }
            let text = std::str::from_utf8(line).map_err(|_| ScriptError::Text)?;
            return Ok(Some(Command::read(alloc, text)?));
        }
        Ok(None)
    }
}
