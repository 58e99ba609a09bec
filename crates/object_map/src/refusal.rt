//! Why a call of the map is refused. A refused call leaves everything as it was.

ghost use Rattle.std.specs.Prelude.{◌≡◌, Some};
ghost use Rattle.object_map.specs.Refusals.{number as number_of, text};

use std::error::Error;
use std::fmt;

/// The reasons, each with a number that a definition fixes.
#[derive(Clone, Copy, PartialEq, Eq, Debug)]
pub enum Refusal {
    /// No record has the number.
    Vacant = 1,
    /// Every place of the client room is occupied.
    ClientFull = 5,
    /// A room is out of range, or not of its length at creation.
    Rooms = 12,
    /// The number 0 names no slot.
    Null = 21,
    /// The number's slot holds a record.
    Occupied = 22,
    /// The number before it has never been used.
    Gap = 23,
    /// The number is the next one to be used, and the room has no place for it.
    NoSlot = 24,
}

impl Refusal {
    /// The number that the refusal is known by.
    pub fn number(self) -> u32
        ensures { result ≡ number_of self }
    {
        self as u32
    }
}

impl fmt::Display for Refusal {
    ghost output = { λ r. Some (text r) };

    fn fmt<W: fmt::Write>(&self, f: &mut fmt::Formatter<W>) -> fmt::Result {
        f.write_str(match self {
            Refusal::Vacant => "no record has this number",
            Refusal::ClientFull => "the client room is full",
            Refusal::Rooms => "a room is out of range or not of its length at creation",
            Refusal::Null => "the number 0 names no slot",
            Refusal::Occupied => "the number is in use",
            Refusal::Gap => "the number before it has never been used",
            Refusal::NoSlot => "the room has no place for this number",
        })
    }
}

impl Error for Refusal {}
