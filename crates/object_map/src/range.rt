//! One range of the map, over a room of slots that is lent to each call.

ghost use Rattle.std.specs.Prelude.{◌≡◌, ◌^◌, ◌<◌, ◌==◌, length, IfOk};
ghost use Rattle.object_map.specs.Map.{fresh};
ghost use Rattle.object_map.specs.Store.{store_of, at, emptied, vacate, fill, insert, first_free, insert_free, RewritesBy};

use crate::refusal::Refusal;

/// What the map remembers of a range between calls.
#[derive(Clone, Copy, PartialEq, Eq, Debug)]
pub(crate) struct Range {
    /// How many places the room had at creation.
    places: u16,
    /// How many of them, from the start, have been in use.
    len: u16,
}

// That a room is short is asked of each method anew, a fact about what is lent; and each says that `places` stays, a fact
// about two values: no type here can hold either.
impl Range {
    /// A range with nothing in use, over a room that it empties.
    pub(crate) fn new<R: Copy>(room: &mut [Option<R>]) -> Range
        requires { length room.old < 2 ^ 16 }
        ensures begins { result ≡ fresh (length room.old) }
        ensures empties { room.new ≡ emptied room.old }
    {
        room.fill(None);
        Range {
            places: room.len() as u16,
            len: 0,
        }
    }

    /// How many places have been in use.
    pub(crate) fn len(&self) -> u16
        ensures { result ≡ self.now.len }
    {
        self.len
    }

    /// Whether `room` has its length at creation.
    pub(crate) fn fits<R: Copy>(&self, room: &[Option<R>]) -> bool
        ensures answer { result ≡ (length room.now == self.now.places) }
        ensures few { self.now.places < 2 ^ 16 }
    {
        room.len() == usize::from(self.places)
    }

    /// The record at `index`.
    pub(crate) fn find<R: Copy>(&self, room: &[Option<R>], index: usize) -> Option<R>
        ensures { result ≡ at index (store_of room.now self.now.len) }
    {
        if index < usize::from(self.len) {
            room.get(index).copied().flatten()
        } else {
            None
        }
    }

    /// Empties the slot at `index`.
    pub(crate) fn vacate<R: Copy>(&self, room: &mut [Option<R>], index: usize)
        ensures { store_of room.new self.now.len ≡ vacate index (store_of room.old self.now.len) }
    {
        // By index: after `get_mut` a proof knows nothing of the slots.
        if index < usize::from(self.len) && index < room.len() {
            room[index] = None;
        }
    }

    /// Puts `record` at `index`, an empty place or the next one.
    pub(crate) fn insert_at<R: Copy>(
        &mut self,
        room: &mut [Option<R>],
        index: usize,
        record: R,
    ) -> Result<(), Refusal>
        requires { length room.old < 2 ^ 16 }
        ensures places { self.new.places ≡ self.old.places }
        ensures defined { (result, store_of room.new self.new.len) ≡ insert «record» index (store_of room.old self.old.len) }
    {
        if index > usize::from(self.len) {
            return Err(Refusal::Gap);
        }
        if index >= room.len() {
            return Err(Refusal::NoSlot);
        }
        if self.find(room, index).is_some() {
            return Err(Refusal::Occupied);
        }
        self.fill(room, index, record);
        Ok(())
    }

    /// Puts `record` at the first empty place, else at the next one.
    pub(crate) fn insert<R: Copy>(
        &mut self,
        room: &mut [Option<R>],
        record: R,
    ) -> Result<usize, Refusal>
        requires { length room.old < 2 ^ 16 }
        ensures places { self.new.places ≡ self.old.places }
        ensures within { IfOk result (λ i. i < length room.old) }
        ensures defined { (result, store_of room.new self.new.len) ≡ insert_free «record» (store_of room.old self.old.len) }
    {
        let index = self.first_free(room);
        if index >= room.len() {
            return Err(Refusal::ClientFull);
        }
        self.fill(room, index, record);
        Ok(index)
    }

    /// Changes the record at `index`.
    pub(crate) fn update<R: Copy, F: FnOnce(R) -> R + Drop>(
        &self,
        room: &mut [Option<R>],
        index: usize,
        change: F,
    ) -> Result<(), Refusal>
        requires { F.IsAlwaysCallable change }
        ensures { RewritesBy (F.post change) index (store_of room.old self.now.len) result (store_of room.new self.now.len) }
    {
        let record = self.find(room, index).ok_or(Refusal::Vacant)?;
        room[index] = Some(change(record));
        Ok(())
    }

    // The first empty place in use, else the next one.
    pub(crate) fn first_free<R: Copy>(&self, room: &[Option<R>]) -> usize
        ensures { result ≡ first_free (store_of room.now self.now.len) }
    {
        // A loop that yields the index by break: a form that this project asks for here.
        let mut index = 0;
        loop {
            if self.find(room, index).is_none() {
                break index;
            }
            index += 1;
        }
    }

    // Puts `record` at `index`, which has then been in use.
    fn fill<R: Copy>(&mut self, room: &mut [Option<R>], index: usize, record: R)
        requires few { length room.old < 2 ^ 16 }
        requires within { index < length room.old }
        ensures places { self.new.places ≡ self.old.places }
        ensures defined { store_of room.new self.new.len ≡ fill «record» index (store_of room.old self.old.len) }
    {
        room[index] = Some(record);
        self.len = self.len.max(index as u16 + 1);
    }
}
