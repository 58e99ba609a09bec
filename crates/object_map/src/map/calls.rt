//! The work of the calls, each held to its definition.
//!
//! Functions beside the public methods and not methods: each has one clause, from which the method derives its laws.

ghost use Rattle.std.specs.Prelude.{◌≡◌, ◌^◌, ◌<◌, length, OnOk};
ghost use Rattle.object_map.specs.Map.{map_of, creation, lent, nexting, finding, removing, inserting_at, inserting_new};
ghost use Rattle.object_map.specs.Runs.{UpdatesBy};

use super::{MAX_PLACES, ObjectMap};
use crate::number::{Place, place_of};
use crate::range::Range;
use crate::refusal::Refusal;

pub(crate) fn create<R: Copy>(
    client: &mut [Option<R>],
    server: &mut [Option<R>],
) -> Result<ObjectMap, Refusal>
    ensures { (result, client.new, server.new) ≡ creation client.old server.old }
{
    if client.is_empty() || client.len() > MAX_PLACES || server.len() > MAX_PLACES {
        return Err(Refusal::Rooms);
    }
    Ok(ObjectMap {
        client: Range::new(client),
        server: Range::new(server),
    })
}

// Rooms of other lengths than at creation are refused by every call.
fn check_rooms<R: Copy>(
    map: &ObjectMap,
    client: &[Option<R>],
    server: &[Option<R>],
) -> Result<(), Refusal>
    ensures answer { result ≡ lent (map_of map.now client.now server.now) }
    ensures few { OnOk result ((length client.now < 2 ^ 16) × (length server.now < 2 ^ 16)) }
    ensures places { map.now.client.places < 2 ^ 16 }
{
    if map.client.fits(client) && map.server.fits(server) {
        Ok(())
    } else {
        Err(Refusal::Rooms)
    }
}

pub(crate) fn client_next<R: Copy>(
    map: &ObjectMap,
    client: &[Option<R>],
    server: &[Option<R>],
) -> Result<Option<u32>, Refusal>
    ensures { result ≡ nexting (map_of map.now client.now server.now) }
{
    check_rooms(map, client, server)?;
    let index = map.client.first_free(client);
    Ok(if index < client.len() {
        Some(index as u32 + 1)
    } else {
        None
    })
}

pub(crate) fn find<R: Copy>(
    map: &ObjectMap,
    client: &[Option<R>],
    server: &[Option<R>],
    id: u32,
) -> Result<Option<R>, Refusal>
    ensures { result ≡ finding id (map_of map.now client.now server.now) }
{
    check_rooms(map, client, server)?;
    Ok(match place_of(id) {
        None => None,
        Some(Place::Client(index)) => map.client.find(client, index),
        Some(Place::Server(index)) => map.server.find(server, index),
    })
}

pub(crate) fn remove<R: Copy>(
    map: &ObjectMap,
    client: &mut [Option<R>],
    server: &mut [Option<R>],
    id: u32,
) -> Result<(), Refusal>
    ensures { (result, map_of map.now client.new server.new) ≡ removing id (map_of map.now client.old server.old) }
{
    check_rooms(map, client, server)?;
    match place_of(id) {
        None => {}
        Some(Place::Client(index)) => map.client.vacate(client, index),
        Some(Place::Server(index)) => map.server.vacate(server, index),
    }
    Ok(())
}

pub(crate) fn insert_at<R: Copy>(
    map: &mut ObjectMap,
    client: &mut [Option<R>],
    server: &mut [Option<R>],
    id: u32,
    record: R,
) -> Result<(), Refusal>
    ensures { (result, map_of map.new client.new server.new) ≡ inserting_at id «record» (map_of map.old client.old server.old) }
{
    check_rooms(map, client, server)?;
    match place_of(id) {
        None => Err(Refusal::Null),
        Some(Place::Client(index)) => map.client.insert_at(client, index, record),
        Some(Place::Server(index)) => map.server.insert_at(server, index, record),
    }
}

pub(crate) fn client_insert_new<R: Copy>(
    map: &mut ObjectMap,
    client: &mut [Option<R>],
    server: &[Option<R>],
    record: R,
) -> Result<u32, Refusal>
    ensures places { map.old.client.places < 2 ^ 16 }
    ensures defined { (result, map_of map.new client.new server.now) ≡ inserting_new «record» (map_of map.old client.old server.now) }
{
    check_rooms(map, client, server)?;
    let index = map.client.insert(client, record)?;
    Ok(index as u32 + 1)
}

pub(crate) fn update<R: Copy, F: FnOnce(R) -> R + Drop>(
    map: &ObjectMap,
    client: &mut [Option<R>],
    server: &mut [Option<R>],
    id: u32,
    change: F,
) -> Result<(), Refusal>
    requires { F.IsAlwaysCallable change }
    ensures { UpdatesBy (F.post change) id (map_of map.now client.old server.old) result (map_of map.now client.new server.new) }
{
    check_rooms(map, client, server)?;
    match place_of(id) {
        None => Err(Refusal::Vacant),
        Some(Place::Client(index)) => map.client.update(client, index, change),
        Some(Place::Server(index)) => map.server.update(server, index, change),
    }
}
