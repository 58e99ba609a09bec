//! A queue of frames in a room of places, each written where it lies; every call costs the same, however many wait.

ghost use Rattle.std.specs.Prelude.{◌≡◌, min};
ghost use Rattle.std.specs.Option.{option_map};
ghost use Rattle.std.specs.List.{slice_get};
ghost use Rattle.transport.specs.Drafts.{outgoing_of};
ghost use Rattle.transport.specs.Frames.{frame_of};
ghost use Rattle.transport.specs.Rings.{place, ring_of, queue_of, pushing, Released};

use crate::frame::Frame;
use crate::outgoing::Outgoing;

/// Where the first frame lies in the room, and how many there are. The room is lent to each call.
// Two numbers beside a room: nothing allocates, and one ring serves rooms that are lent and places that are owned.
#[derive(Clone, Copy, PartialEq, Eq, Debug)]
pub struct Ring {
    head: usize,
    count: usize,
}

// The place that lies `i` behind `head`, in a room of `places`.
fn place_of(places: usize, head: usize, i: usize) -> usize
    ensures { result ≡ place places head i }
{
    let start = if head < places { head } else { 0 };
    let ahead = places - start;
    if i < ahead { start + i } else { i - ahead }
}

impl Ring {
    pub const EMPTY: Ring = Ring { head: 0, count: 0 };

    /// How many frames there are in a room of `places`.
    pub fn len(&self, places: usize) -> usize
        ensures { result ≡ min self.now.count places }
    {
        self.count.min(places)
    }

    /// Writes a message behind the others, where there is a place.
    // A yes or no: a room that is full has nothing more to say.
    pub fn push(&mut self, room: &mut [Frame], message: &Outgoing<'_>) -> bool
        ensures { (result, queue_of self.new room.new) ≡ pushing (outgoing_of message.now) (queue_of self.old room.old) }
    {
        if self.count >= room.len() {
            return false;
        }
        let i = place_of(room.len(), self.head, self.count);
        room[i].set(message);
        self.count += 1;
        true
    }

    /// The frame that `i` others are before.
    pub fn get<'a>(&self, room: &'a [Frame], i: usize) -> Option<&'a Frame>
        ensures { option_map (λ f. frame_of f.now) result ≡ slice_get (ring_of self.now room.now) i }
    {
        if i >= self.len(room.len()) {
            return None;
        }
        let at = place_of(room.len(), self.head, i);
        Some(&room[at])
    }

    /// Lets the first `n` frames go, in a room of `places`.
    pub fn release(&mut self, places: usize, n: usize)
        ensures { Released places n self.old self.new }
    {
        let len = self.len(places);
        let gone = n.min(len);
        self.head = place_of(places, self.head, gone);
        self.count = len - gone;
    }
}
