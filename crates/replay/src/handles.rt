//! The handles that a script was told, by their names.

ghost use Rattle.std.specs.Prelude.{◌≡◌, ◌≢◌, ◌<◌, ℕ, IfOk, Ok, Some, [], ◌∷◌, vec_len};
ghost use Rattle.std.specs.List.{slice_get};
ghost use Rattle.protocol.specs.Lookups.{null_id, display_id};

use crate::message::{HandleName, Message, object_of, renamed};
use protocol::argument::Argument;
use protocol::id::ObjectId;
use std::alloc::{AllocError, Global};

/// First null and the display, then each handle in the order in which they were printed.
#[derive(Drop)]
pub struct Handles {
    told: Vec<ObjectId>,
}

impl Handles {
    pub fn new(alloc: Global) -> Result<Handles, AllocError>
        ensures { IfOk result (λ handles. handles.told.items ≡ null_id ∷ display_id ∷ []) }
    {
        let mut told = Vec::new(alloc);
        told.push(ObjectId::null())?;
        told.push(ObjectId::display())?;
        Ok(Handles { told })
    }

    /// A name for a handle that is printed; null keeps its own. Names that were given keep their handles.
    pub fn name(&mut self, id: ObjectId) -> Result<HandleName, AllocError>
        ensures null { id.number ≡ 0 → result ≡ Ok HandleName.NULL }
        ensures named { IfOk result (λ name. id.number ≢ 0 → slice_get self.new.told.items name.0 ≡ Some id) }
        ensures kept { (k : ℕ) → k < vec_len self.old.told → slice_get self.new.told.items k ≡ slice_get self.old.told.items k }
    {
        if id.is_null() {
            return Ok(HandleName::NULL);
        }
        let name = HandleName(self.told.len());
        self.told.push(id)?;
        Ok(name)
    }

    pub fn find(&self, name: HandleName) -> Option<ObjectId>
        ensures { result ≡ slice_get self.now.told.items name.0 }
    {
        self.told.get(name.0).copied()
    }

    /// The arguments of a message with the handles in place of their names, if all were printed.
    pub fn resolve(
        &self,
        alloc: Global,
        message: &Message<HandleName>,
    ) -> Result<Option<Vec<Argument<ObjectId>>>, AllocError> {
        let mut args = Vec::new(alloc);
        for arg in &message.args {
            let named = object_of(*arg).unwrap_or(HandleName::NULL);
            let Some(id) = self.find(named) else {
                return Ok(None);
            };
            args.push(renamed(*arg, id))?;
        }
        Ok(Some(args))
    }

    /// The handles that were printed, in order.
    pub fn printed(&self) -> &[ObjectId] {
        self.told.get(2..).unwrap_or(&[])
    }
}
