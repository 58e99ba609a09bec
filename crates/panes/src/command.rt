//! The commands, as a line of text has them: words with one space between, numbers in decimal.

ghost use Rattle.std.specs.Prelude.{◌≡◌, Some};
ghost use Rattle.panes.specs.Lines.{word, rest, pushed, number_of, object_of, pane_of, asked, command_of};

use super::pane::Pane;

/// What a line asks for.
#[derive(Clone, Copy, PartialEq, Eq, Debug)]
pub enum Command {
    Open(Pane),
    Show(u32),
    Resize(u32, Pane),
    Close(u32),
    List,
}

/// The first word of a line, and what follows the space after it.
fn cut(line: &[u8]) -> (&[u8], &[u8])
    ensures first { result.0.now ≡ word line.now }
    ensures after { result.1.now ≡ rest line.now }
{
    match line.iter().position(|byte| *byte == b' ') {
        Some(end) => (&line[..end], &line[end + 1..]),
        None => (line, &[]),
    }
}

/// A decimal number with one more digit, while it fits.
fn push(n: u64, byte: u8) -> Option<u64>
    ensures { result ≡ pushed (Some n) byte }
{
    match byte {
        b'0'..=b'9' => n.checked_mul(10)?.checked_add(u64::from(byte - b'0')),
        _ => None,
    }
}

/// A decimal number below 2^64. The library's `parse` would take a plus sign before it.
fn read_number(text: &[u8]) -> Option<u64>
    ensures { result ≡ number_of text.now }
{
    if text.is_empty() {
        return None;
    }
    text.iter().try_fold(0, |n, byte| push(n, *byte))
}

/// An object's number, below 2^32.
fn read_object(text: &[u8]) -> Option<u32>
    ensures { result ≡ object_of (number_of text.now) }
{
    u32::try_from(read_number(text)?).ok()
}

/// A width and a height.
fn read_pane(text: &[u8]) -> Option<Pane>
    ensures { result ≡ pane_of (number_of (word text.now)) (number_of (rest text.now)) }
{
    let (width, height) = cut(text);
    Some(Pane {
        width: read_number(width)?,
        height: read_number(height)?,
    })
}

/// The command that a line's first word makes with what follows.
fn ask(first: &[u8], after: &[u8]) -> Option<Command>
    ensures { result ≡ asked first.now after.now }
{
    match first {
        b"open" => Some(Command::Open(read_pane(after)?)),
        b"show" => Some(Command::Show(read_object(after)?)),
        b"close" => Some(Command::Close(read_object(after)?)),
        b"resize" => {
            let (number, size) = cut(after);
            Some(Command::Resize(read_object(number)?, read_pane(size)?))
        }
        _ => None,
    }
}

/// The command of a line.
pub fn parse(line: &[u8]) -> Option<Command>
    ensures { result ≡ command_of line.now }
{
    if let b"list" = line {
        return Some(Command::List);
    }
    let (first, after) = cut(line);
    ask(first, after)
}
