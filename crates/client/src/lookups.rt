//! Look-ups by handle, and what changes an object in its slot.

ghost use Rattle.std.specs.Prelude.{◌≡◌, cond, Ok, Err};
ghost use Rattle.object_map.specs.Map.{map_of, fits};
ghost use Rattle.protocol.specs.declared.refusal.Refusal.TheVariants.{BadRoom};
ghost use Rattle.transport.specs.Ends.{End};
ghost use Rattle.client.specs.Calls.{get_data, info, set_data, destroy_object, defined};
ghost use Rattle.client.specs.Coded.{Leaves, replied};
ghost use Rattle.client.specs.Requests.{Table};
ghost use Rattle.client.specs.State.{moment_of, seen_in, resolved, none, done, content, destroyed, informed};

use crate::connection::Connection;
use crate::object::{Notice, Object};
use protocol::id::{ObjectId, ObjectInfo};
use protocol::refusal::Refusal;

impl Connection {
    // The object that a handle resolves to; rooms of other lengths than at creation are refused.
    pub(crate) fn resolve(
        &self,
        client: &[Option<Object>],
        server: &[Option<Object>],
        handle: ObjectId,
    ) -> Result<Option<Object>, Refusal>
        ensures { result ≡ cond (fits (map_of self.now.map client.now server.now)) (Ok (resolved (seen_in (map_of self.now.map client.now server.now)) handle)) (Err BadRoom) }
    {
        let found = self
            .map
            .find(client, server, handle.number)
            .map_err(|_| Refusal::BadRoom)?;
        Ok(found.filter(|object| object.serial == handle.serial))
    }

    /// The data number of an object, destroyed or not.
    pub(crate) fn data_of(
        &self,
        client: &[Option<Object>],
        server: &[Option<Object>],
        handle: ObjectId,
    ) -> Result<u64, Refusal>
        ensures { (t : Table) (e : End) → Leaves (defined t (moment_of self.now client.now server.now e) (get_data handle)) (replied content result) (moment_of self.now client.now server.now e) none }
    {
        let object = self
            .resolve(client, server, handle)?
            .ok_or(Refusal::InvalidId)?;
        Ok(object.data)
    }

    /// What an object is, unless the client has destroyed it.
    pub(crate) fn info_of(
        &self,
        client: &[Option<Object>],
        server: &[Option<Object>],
        handle: ObjectId,
    ) -> Result<ObjectInfo, Refusal>
        ensures { (t : Table) (e : End) → Leaves (defined t (moment_of self.now client.now server.now e) (info handle)) (replied informed result) (moment_of self.now client.now server.now e) none }
    {
        match self.resolve(client, server, handle)? {
            Some(object) if !object.client_destroyed => Ok(ObjectInfo {
                id: handle.number,
                interface: object.interface,
                version: object.version,
            }),
            _ => Err(Refusal::InvalidId),
        }
    }

    /// Gives an object another data number; the display keeps its own.
    pub(crate) fn set_data_of(
        &self,
        client: &mut [Option<Object>],
        server: &mut [Option<Object>],
        handle: ObjectId,
        data: u64,
    ) -> Result<(), Refusal>
        ensures { (t : Table) (e : End) → Leaves (defined t (moment_of self.now client.old server.old e) (set_data handle «data»)) (replied (λ _. done) result) (moment_of self.now client.new server.new e) none }
    {
        self.resolve(client, server, handle)?
            .ok_or(Refusal::InvalidId)?;
        if handle.number == 1 {
            return Err(Refusal::DisplayProtected);
        }
        if data == 0 {
            return Err(Refusal::BadData);
        }
        let _ = self.map.update(
            client,
            server,
            handle.number,
            |object| Object { data, ..object },
        );
        Ok(())
    }

    /// Destroys an object for the client; the display stays.
    pub(crate) fn destroy(
        &self,
        client: &mut [Option<Object>],
        server: &mut [Option<Object>],
        handle: ObjectId,
    ) -> Result<Notice, Refusal>
        ensures { (t : Table) (e : End) → Leaves (defined t (moment_of self.now client.old server.old e) (destroy_object handle)) (replied destroyed result) (moment_of self.now client.new server.new e) none }
    {
        let Some(object) = self.resolve(client, server, handle)? else {
            return Err(Refusal::InvalidId);
        };
        if object.client_destroyed {
            return Err(Refusal::InvalidId);
        }
        if handle.number == 1 {
            return Err(Refusal::DisplayProtected);
        }
        let _ = self.map.update(
            client,
            server,
            handle.number,
            |object| Object {
                client_destroyed: true,
                ..object
            },
        );
        Ok(object.notice(handle.number))
    }
}
