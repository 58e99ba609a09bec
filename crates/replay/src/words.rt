//! The words of a line: numbers, escaped texts, bytes in hexadecimal digits.

ghost use Rattle.std.specs.Prelude.{◌<◌, IfSome};

use crate::error::{ScriptError, Stop};
use std::alloc::Global;

/// A number below 2^64 in decimal digits. `parse` alone would take a plus sign before them.
pub fn read_u64(word: &str) -> Result<u64, ScriptError> {
    if word.starts_with('+') {
        return Err(ScriptError::Number);
    }
    word.parse::<u64>().map_err(|_| ScriptError::Number)
}

pub fn read_u32(word: &str) -> Result<u32, ScriptError> {
    u32::try_from(read_u64(word)?).map_err(|_| ScriptError::Number)
}

pub fn read_u16(word: &str) -> Result<u16, ScriptError> {
    u16::try_from(read_u64(word)?).map_err(|_| ScriptError::Number)
}

pub fn read_usize(word: &str) -> Result<usize, ScriptError> {
    usize::try_from(read_u64(word)?).map_err(|_| ScriptError::Number)
}

/// A number from -2^31 to 2^31 - 1.
pub fn read_i32(word: &str) -> Result<i32, ScriptError> {
    if word.starts_with('+') {
        return Err(ScriptError::Number);
    }
    word.parse::<i32>().map_err(|_| ScriptError::Number)
}

/// Numbers with commas between.
pub fn read_list(alloc: Global, word: &str) -> Result<Vec<u16>, Stop> {
    let mut numbers = Vec::new(alloc);
    if word.is_empty() {
        return Ok(numbers);
    }
    for part in word.split(',') {
        numbers.push(read_u16(part)?)?;
    }
    Ok(numbers)
}

fn digit(byte: u8) -> Option<u8>
    ensures { IfSome result (λ d. d < 16) }
{
    match byte {
        b'0'..=b'9' => Some(byte - b'0'),
        b'A'..=b'F' => Some(byte - b'A' + 10),
        b'a'..=b'f' => Some(byte - b'a' + 10),
        _ => None,
    }
}

fn byte_of(high: u8, low: u8) -> Option<u8> {
    Some(digit(high)? * 16 + digit(low)?)
}

/// The bytes of a text in which `%` and two hexadecimal digits stand for a byte.
pub fn unescape(alloc: Global, word: &str) -> Result<Vec<u8>, Stop> {
    let (plain, escaped) = match word.split_once('%') {
        Some((plain, escaped)) => (plain, Some(escaped)),
        None => (word, None),
    };
    let mut bytes = Vec::from_slice(alloc, plain.as_bytes())?;
    let Some(escaped) = escaped else {
        return Ok(bytes);
    };
    for part in escaped.split('%') {
        let [high, low, plain @ ..] = part.as_bytes() else {
            return Err(Stop::Script(ScriptError::Escape));
        };
        bytes.push(byte_of(*high, *low).ok_or(ScriptError::Escape)?)?;
        bytes.extend_from_slice(plain)?;
    }
    Ok(bytes)
}

/// The bytes that pairs of hexadecimal digits stand for.
pub fn read_hex(alloc: Global, word: &str) -> Result<Vec<u8>, Stop> {
    let mut bytes = Vec::new(alloc);
    for pair in word.as_bytes().chunks(2) {
        let [high, low] = pair else {
            return Err(Stop::Script(ScriptError::Hex));
        };
        bytes.push(byte_of(*high, *low).ok_or(ScriptError::Hex)?)?;
    }
    Ok(bytes)
}
