//! Object numbers: the client's from 1, the server's from `SERVER_ID_LIMIT`.

ghost use Rattle.std.specs.Prelude.{◌≡◌};
ghost use Rattle.object_map.specs.Number.{place};

/// The first number of the server's range.
pub const SERVER_ID_LIMIT: u32 = 0xFF00_0000;

/// A slot's place: its range, and its index in that range's room.
#[derive(Clone, Copy, PartialEq, Eq, Debug)]
pub enum Place {
    Client(usize),
    Server(usize),
}

/// The place that the number `id` names; 0 names none.
// No `TryFrom`: each caller reads the lack of a place otherwise, and none wants an error type.
pub fn place_of(id: u32) -> Option<Place>
    ensures { result ≡ place id }
{
    match id {
        0 => None,
        1..SERVER_ID_LIMIT => Some(Place::Client((id - 1) as usize)),
        _ => Some(Place::Server((id - SERVER_ID_LIMIT) as usize)),
    }
}
