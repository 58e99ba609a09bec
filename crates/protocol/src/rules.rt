//! The rules of an interface table, one function for each.

ghost use Rattle.std.specs.Prelude.{◌≡◌, ◌-◌, ◌≤◌, SomeIff, count_by};
ghost use Rattle.protocol.specs.Arguments.{same_type};
ghost use Rattle.protocol.specs.Descriptions.{message_of, description_of, described};
ghost use Rattle.protocol.specs.Rules.{new_ids, objects, name_fits, few_arguments, one_new_id, names_child, args_exact, args_within, inside, request_fits, event_fits, interface_fits, sized, message_count, few_messages, begins_with_core, well_formed};

use crate::argument::{AllowNull, ArgumentType};
use crate::core_interfaces::core_interfaces;
use crate::interface::{Interface, MessageDesc};

impl MessageDesc<'_> {
    /// How many arguments are of a kind.
    fn count_kind(&self, kind: ArgumentType) -> usize
        ensures { result ≡ count_by (same_type kind) self.now.signature.now }
    {
        // No `filter(..).count()`: it branches at each argument, and took half as long again.
        let mut count = 0;
        for k in self.signature {
            if kind.same_type(*k) {
                count += 1;
            }
        }
        count
    }

    /// How many new objects a message has.
    pub fn new_ids(&self) -> usize
        ensures { result ≡ new_ids (message_of self.now) }
    {
        self.count_kind(ArgumentType::NewId)
    }

    /// How many object arguments a message has.
    fn objects(&self) -> usize
        ensures { result ≡ objects (message_of self.now) }
    {
        self.count_kind(ArgumentType::Object(AllowNull::Yes))
    }

    /// A message has at most 20 arguments.
    fn has_few_arguments(&self) -> bool
        ensures { result ≡ few_arguments (message_of self.now) }
    {
        self.signature.len() <= 20
    }

    /// A message has at most one new object.
    fn has_one_new_id(&self) -> bool
        ensures { result ≡ one_new_id (message_of self.now) }
    {
        self.new_ids() <= 1
    }

    /// Where an event has a new object, it names the child's interface.
    fn names_child(&self) -> bool
        ensures { result ≡ names_child (message_of self.now) }
    {
        self.new_ids() == 0 || self.child_interface.is_some()
    }

    /// A request names one arg interface for each object argument.
    fn names_all_args(&self) -> bool
        ensures { result ≡ args_exact (message_of self.now) }
    {
        self.arg_interfaces.len() == self.objects()
    }

    /// An event names at most one arg interface for each object argument.
    fn names_only_args(&self) -> bool
        ensures { result ≡ args_within (message_of self.now) }
    {
        self.arg_interfaces.len() <= self.objects()
    }

    /// The child's interface and the arg interfaces are among the first `count`.
    fn lies_inside(&self, count: usize) -> bool
        ensures { result ≡ inside count (message_of self.now) }
    {
        self.child_interface
            .is_none_or(|child| usize::from(child) < count)
            && self
                .arg_interfaces
                .iter()
                .all(|arg| usize::from(*arg) < count)
    }

    /// All that is asked of a request in a table of `count`.
    fn fits_as_request(&self, count: usize) -> bool
        ensures { result ≡ request_fits count (message_of self.now) }
    {
        self.has_few_arguments()
            && self.has_one_new_id()
            && self.names_all_args()
            && self.lies_inside(count)
    }

    /// All that is asked of an event.
    fn fits_as_event(&self, count: usize) -> bool
        ensures { result ≡ event_fits count (message_of self.now) }
    {
        self.has_few_arguments()
            && self.has_one_new_id()
            && self.names_child()
            && self.names_only_args()
            && self.lies_inside(count)
    }
}

/// A name has 1 to 64 bytes, and none of them is zero.
#[tactic(auto, using(crate::proofs::Names::none_zero))]
fn name_fits(name: &[u8]) -> bool
    ensures { result ≡ name_fits name.now }
{
    (1..=64).contains(&name.len()) && !name.contains(&0)
}

impl Interface<'_> {
    /// All that is asked of one interface in a table of `count`.
    fn fits(&self, count: usize) -> bool
        ensures { result ≡ interface_fits count (description_of self.now) }
    {
        name_fits(self.name)
            && self
                .requests
                .iter()
                .all(|request| request.fits_as_request(count))
            && self.events.iter().all(|event| event.fits_as_event(count))
    }

    /// What is left of `left` messages without those of this interface, where it has not more.
    fn taken_off(&self, left: usize) -> Option<usize>
        ensures { SomeIff result (message_count (description_of self.now) ≤ left) (left - message_count (description_of self.now)) }
    {
        left.checked_sub(self.requests.len())?
            .checked_sub(self.events.len())
    }
}

/// There are 4 to 256 interfaces.
fn table_sized(interfaces: &[Interface<'_>]) -> bool
    ensures { result ≡ sized (described interfaces.now) }
{
    (4..=256).contains(&interfaces.len())
}

/// There are at most 4,096 messages in all.
fn few_messages(interfaces: &[Interface<'_>]) -> bool
    ensures { result ≡ few_messages (described interfaces.now) }
{
    interfaces
        .iter()
        .try_fold(4096, |left, interface| interface.taken_off(left))
        .is_some()
}

/// Interfaces 0 to 3 are the core ones.
#[tactic(auto, using(crate::proofs::Equals::starts_with_core))]
fn begins_with_core(interfaces: &[Interface<'_>]) -> bool
    ensures { result ≡ begins_with_core (described interfaces.now) }
{
    interfaces.starts_with(&core_interfaces())
}

/// All rules together.
pub(crate) fn well_formed(interfaces: &[Interface<'_>]) -> bool
    ensures { result ≡ well_formed (described interfaces.now) }
{
    table_sized(interfaces)
        && few_messages(interfaces)
        && interfaces
            .iter()
            .all(|interface| interface.fits(interfaces.len()))
        && begins_with_core(interfaces)
}
