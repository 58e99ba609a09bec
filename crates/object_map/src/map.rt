//! The map by number: four lengths, over two rooms of slots that are lent to each call.
//!
//! Every call says by one definition what it answers and what it leaves (`defined`), what that comes to for a reader of
//! the map (`puts`, `empties`), and what holds of every run that the call goes on (`stands`); `update` has all three in one.

mod calls;

ghost use Rattle.std.specs.Prelude.{◌≡◌};
ghost use Rattle.object_map.specs.Map.{map_of, creation, fits, nexting, finding, removing, inserting_at, inserting_new};
ghost use Rattle.object_map.specs.Laws.{Inserts, InsertsNew, Removes};
ghost use Rattle.object_map.specs.Runs.{Stands, Begins, find_call, remove_call, insert_at_call, insert_new_call, UpdatesBy};

use crate::range::Range;
use crate::refusal::Refusal;

/// The most places that a room may have.
pub const MAX_PLACES: usize = 65535;

/// What the map remembers of its two ranges between calls.
// The rooms are parameters of their own: a struct of both would be needed twice, shared and exclusive, and made at each call.
#[derive(Clone, Copy, PartialEq, Eq, Debug)]
pub struct ObjectMap {
    client: Range,
    server: Range,
}

impl ObjectMap {
    /// A map without records, over rooms that it empties: 1 to 65,535 client places, 0 to 65,535 server places.
    pub fn new<R: Copy>(
        client: &mut [Option<R>],
        server: &mut [Option<R>],
    ) -> Result<ObjectMap, Refusal>
        ensures defined { (result, client.new, server.new) ≡ creation client.old server.old }
        ensures begins { Begins result client.new server.new }
    {
        calls::create(client, server)
    }

    /// How many places of the client room have been in use: the client's numbers so far are 1 to this one.
    pub fn client_len(&self) -> u16
        ensures { result ≡ self.now.client.len }
    {
        self.client.len()
    }

    /// How many places of the server room have been in use.
    pub fn server_len(&self) -> u16
        ensures { result ≡ self.now.server.len }
    {
        self.server.len()
    }

    /// Whether the rooms have their lengths at creation.
    pub fn fits<R: Copy>(&self, client: &[Option<R>], server: &[Option<R>]) -> bool
        ensures { result ≡ fits (map_of self.now client.now server.now) }
    {
        self.client.fits(client) && self.server.fits(server)
    }

    /// The number that the next record of the client's range gets, if its room has a place for it.
    pub fn client_next<R: Copy>(
        &self,
        client: &[Option<R>],
        server: &[Option<R>],
    ) -> Result<Option<u32>, Refusal>
        ensures { result ≡ nexting (map_of self.now client.now server.now) }
    {
        calls::client_next(self, client, server)
    }

    /// The record with the number `id`.
    pub fn find<R: Copy>(
        &self,
        client: &[Option<R>],
        server: &[Option<R>],
        id: u32,
    ) -> Result<Option<R>, Refusal>
        ensures defined { result ≡ finding id (map_of self.now client.now server.now) }
        ensures stands { Stands (find_call id) (map_of self.now client.now server.now) (map_of self.now client.now server.now) }
    {
        calls::find(self, client, server, id)
    }

    /// Lets the record with the number `id` go, if there is one.
    pub fn remove<R: Copy>(
        &self,
        client: &mut [Option<R>],
        server: &mut [Option<R>],
        id: u32,
    ) -> Result<(), Refusal>
        ensures defined { (result, map_of self.now client.new server.new) ≡ removing id (map_of self.now client.old server.old) }
        ensures empties { Removes id (map_of self.now client.old server.old) result (map_of self.now client.new server.new) }
        ensures stands { Stands (remove_call id) (map_of self.now client.old server.old) (map_of self.now client.new server.new) }
    {
        calls::remove(self, client, server, id)
    }

    /// Puts `record` at the number `id`, one that was used before and is empty, or the next one of its range.
    pub fn insert_at<R: Copy>(
        &mut self,
        client: &mut [Option<R>],
        server: &mut [Option<R>],
        id: u32,
        record: R,
    ) -> Result<(), Refusal>
        ensures defined { (result, map_of self.new client.new server.new) ≡ inserting_at id «record» (map_of self.old client.old server.old) }
        ensures puts { Inserts id «record» (map_of self.old client.old server.old) result (map_of self.new client.new server.new) }
        ensures stands { Stands (insert_at_call id «record») (map_of self.old client.old server.old) (map_of self.new client.new server.new) }
    {
        calls::insert_at(self, client, server, id, record)
    }

    /// Gives `record` the smallest free number of the client's range.
    pub fn client_insert_new<R: Copy>(
        &mut self,
        client: &mut [Option<R>],
        server: &[Option<R>],
        record: R,
    ) -> Result<u32, Refusal>
        ensures defined { (result, map_of self.new client.new server.now) ≡ inserting_new «record» (map_of self.old client.old server.now) }
        ensures puts { InsertsNew «record» (map_of self.old client.old server.now) result (map_of self.new client.new server.now) }
        ensures stands { Stands (insert_new_call «record») (map_of self.old client.old server.now) (map_of self.new client.new server.now) }
    {
        calls::client_insert_new(self, client, server, record)
    }

    /// Changes the record with the number `id` in its slot to what `change` makes of it.
    pub fn update<R: Copy, F: FnOnce(R) -> R + Drop>(
        &self,
        client: &mut [Option<R>],
        server: &mut [Option<R>],
        id: u32,
        change: F,
    ) -> Result<(), Refusal>
        requires { F.IsAlwaysCallable change }
        ensures { UpdatesBy (F.post change) id (map_of self.now client.old server.old) result (map_of self.now client.new server.new) }
    {
        calls::update(self, client, server, id, change)
    }
}
