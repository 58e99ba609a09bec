//! The frames that a buffered end keeps.

ghost use Rattle.std.specs.Prelude.{◌≡◌, ◌≤◌, [], take};
ghost use Rattle.transport.specs.Kept.{Kept, kept};

use crate::frame::Frame;
use crate::outgoing::Outgoing;
use crate::ring::Ring;
use std::marker::Model;

/// How many frames a buffered end keeps at most.
pub const MAX_HELD: usize = 8;

/// A queue in places of its own, of which the first 1 to 8 are in use.
// Fixed places: nothing allocates, and a frame that is held is written where it lies.
#[derive(Drop)]
pub struct Held {
    places: [Frame; 8],
    ring: Ring,
    capacity: usize,
}

// A ghost field would say the capacity's range as well, but a stack of ends that ends in a `&mut` may hold none.
impl Model for Held {
    ghost Value = { Kept };

    ghost view = { λ h. kept h.ring (take h.capacity h.places) };

    ghost invariant = { λ h. (1 ≤ h.capacity) × (h.capacity ≤ 8) };
}

impl Held {
    ghost use Rattle.std.specs.Option.{option_map};
    ghost use Rattle.std.specs.List.{slice_get};
    ghost use Rattle.transport.specs.Drafts.{outgoing_of};
    ghost use Rattle.transport.specs.Frames.{frame_of};
    ghost use Rattle.transport.specs.Rings.{pushing, releasing};
    ghost use Rattle.transport.specs.Layers.{held_of, queue};

    pub(crate) fn new(capacity: usize) -> Held
        requires { (1 ≤ capacity) × (capacity ≤ 8) }
        ensures { held_of result ≡ queue [] capacity }
    {
        Held {
            places: [Frame::EMPTY; 8],
            ring: Ring::EMPTY,
            capacity,
        }
    }

    /// Keeps a message behind the others, where there is a place.
    // A yes or no: what is full has nothing more to say.
    pub fn push(&mut self, message: &Outgoing<'_>) -> bool
        ensures { (result, held_of self.new) ≡ pushing (outgoing_of message.now) (held_of self.old) }
    {
        // `0..`: a part `..n` of an array field is not lent as `&mut` yet.
        self.ring.push(&mut self.places[0..self.capacity], message)
    }

    /// The frame that came first.
    pub fn first(&self) -> Option<&Frame>
        ensures { option_map (λ f. frame_of f.now) result ≡ slice_get (held_of self.now).frames 0 }
    {
        self.ring.get(&self.places[..self.capacity], 0)
    }

    /// Lets the first frame go.
    pub fn release_first(&mut self)
        ensures { held_of self.new ≡ releasing 1 (held_of self.old) }
    {
        self.ring.release(self.capacity, 1);
    }
}
