//! Requests: what is checked of one, in which order.

ghost use Rattle.std.specs.Prelude.{◌≡◌, true, cond, IfOk, ◌==◌};
ghost use Rattle.object_map.specs.Map.{map_of, fits};
ghost use Rattle.protocol.specs.Descriptions.{message_of};
ghost use Rattle.protocol.specs.Lookups.{table_of};
ghost use Rattle.protocol.specs.declared.refusal.Refusal.TheVariants.{BadObject};
ghost use Rattle.transport.specs.Drafts.{draft_of, Whole, composing, composed};
ghost use Rattle.client.specs.Coded.{request_of, DescribedAs, SentAs};
ghost use Rattle.client.specs.Requests.{creates, placeholders, child_for, child_of, child_stands, counting, holds_or, nullable, usable, objects_stand, sender_stands, checked};
ghost use Rattle.client.specs.State.{seen_in, resolved, next_serial};

use crate::connection::Connection;
use crate::object::{ChildSpec, Object};
use protocol::argument::{AllowNull, Argument, ArgumentType, check_for_signature};
use protocol::id::ObjectId;
use protocol::interface::MessageDesc;
use protocol::refusal::Refusal;
use protocol::table::InterfaceTable;
use transport::outgoing::Outgoing;

/// A request as its caller gives it; its strings and arrays lie in the text.
#[derive(Clone, Copy)]
pub struct Request<'a> {
    pub sender: ObjectId,
    pub opcode: u16,
    pub args: &'a [Argument<ObjectId>],
    pub text: &'a [u8],
    /// The data number of the object that it creates, if it does.
    pub data: u64,
    /// What that object is to be, where the description leaves it open.
    pub child: Option<ChildSpec>,
}

/// A new object, with the number that it will have.
pub(crate) type Child = (u32, Object);

impl<'a> Request<'a> {
    // The request as a message to put, where it may be sent.
    fn message(&self) -> Result<Outgoing<'a>, Refusal>
        ensures defined { composed result ≡ composing self.now.sender.number self.now.opcode self.now.args.now self.now.text.now }
        ensures whole { IfOk result (λ o. Whole (draft_of o)) }
    {
        Outgoing::new(self.sender.number, self.opcode, self.args, self.text)
    }
}

// The sender's object and the message: it resolves, it has the opcode, it is not destroyed, and the arguments have the
// kinds of the signature and may be sent.
pub(crate) fn describe<'t, 'a>(
    table: &InterfaceTable<'t>,
    request: &Request<'a>,
    sender: Option<Object>,
) -> Result<(Object, MessageDesc<'t>, Outgoing<'a>), Refusal>
    ensures { DescribedAs request.now result (sender_stands (table_of table.now) (request_of request.now) sender) }
{
    let object = sender.ok_or(Refusal::InvalidId)?;
    let desc = table
        .request(object.interface, request.opcode)
        .ok_or(Refusal::UnknownOpcode)?;
    if object.client_destroyed {
        return Err(Refusal::InvalidId);
    }
    if !check_for_signature(desc.signature, request.args) {
        return Err(Refusal::BadSignature);
    }
    let message = request.message()?;
    Ok((object, desc, message))
}

// What a child is to be, by its description, its sender's version and a spec.
pub(crate) fn choose_child(
    table: &InterfaceTable<'_>,
    described: Option<u16>,
    version: u32,
    spec: Option<ChildSpec>,
) -> Option<ChildSpec>
    ensures { result ≡ child_for (table_of table.now) described version spec }
{
    match (described, spec) {
        (None, None) => None,
        (Some(interface), None) => Some(ChildSpec { interface, version }),
        (None, Some(spec)) => table.contains(spec.interface).then_some(spec),
        (Some(interface), Some(spec)) => {
            let agrees = table.contains(spec.interface)
                && table.same_interface(interface, spec.interface)
                && spec.version == version;
            agrees.then_some(spec)
        }
    }
}

// What is to be created is given as null.
fn all_placeholders(args: &[Argument<ObjectId>]) -> bool
    ensures { result ≡ placeholders args.now }
{
    args.iter().all(|arg| match arg {
        Argument::NewId(id) => id.is_null(),
        _ => true,
    })
}

// Whether a message creates an object.
fn creates_one(desc: &MessageDesc<'_>) -> bool
    ensures { result ≡ creates (message_of desc.now) }
{
    desc.new_ids() > 0
}

// The child of a message that creates one: its spec, a slot, a data number, a placeholder.
pub(crate) fn choose_number(
    table: &InterfaceTable<'_>,
    free: Option<u32>,
    serial: u32,
    request: &Request<'_>,
    sender: &Object,
    desc: &MessageDesc<'_>,
) -> Result<Option<Child>, Refusal>
    ensures { result ≡ child_stands (table_of table.now) free serial (request_of request.now) (sender.now, message_of desc.now) }
{
    if !creates_one(desc) {
        return Ok(None);
    }
    let spec = choose_child(table, desc.child_interface, sender.version, request.child).ok_or(
        Refusal::BadChild,
    )?;
    let number = free.ok_or(Refusal::ClientRoomFull)?;
    if request.data == 0 {
        return Err(Refusal::BadData);
    }
    if !all_placeholders(request.args) {
        return Err(Refusal::NewIdNotNull);
    }
    Ok(Some((number, spec.object(request.data, serial))))
}

// An object that a request names: it is there, not destroyed, and fits what is wanted, if anything is.
fn check_usable(
    table: &InterfaceTable<'_>,
    want: Option<u16>,
    found: Option<Object>,
) -> Result<(), Refusal>
    ensures { result ≡ usable (table_of table.now) want found }
{
    let object = found.ok_or(Refusal::InvalidId)?;
    if object.client_destroyed {
        return Err(Refusal::InvalidId);
    }
    match want {
        Some(want) if !table.fits(want, object.interface) => Err(Refusal::BadObject),
        _ => Ok(()),
    }
}

impl Connection {
    // The object at a number, the child counting as placed.
    fn look(
        &self,
        client: &[Option<Object>],
        server: &[Option<Object>],
        child: Option<Child>,
        number: u32,
    ) -> Option<Object>
        requires { fits (map_of self.now.map client.now server.now) ≡ true }
        ensures { result ≡ counting child (seen_in (map_of self.now.map client.now server.now)) number }
    {
        match child {
            Some((at, object)) if at == number => Some(object),
            _ => self.map.find(client, server, number).ok().flatten(),
        }
    }

    // An object argument: null stands where it may; another resolves, is not destroyed, and fits what is wanted.
    fn check_object(
        &self,
        table: &InterfaceTable<'_>,
        client: &[Option<Object>],
        server: &[Option<Object>],
        child: Option<Child>,
        want: Option<u16>,
        kind: ArgumentType,
        handle: ObjectId,
    ) -> Result<(), Refusal>
        requires { fits (map_of self.now.map client.now server.now) ≡ true }
        ensures { result ≡ cond (handle.number == 0) (holds_or BadObject (nullable kind)) (usable (table_of table.now) want (resolved (counting child (seen_in (map_of self.now.map client.now server.now))) handle)) }
    {
        if handle.is_null() {
            return if kind == ArgumentType::Object(AllowNull::Yes) {
                Ok(())
            } else {
                Err(Refusal::BadObject)
            };
        }
        let found = self
            .look(client, server, child, handle.number)
            .filter(|object| object.serial == handle.serial);
        check_usable(table, want, found)
    }

    // The object arguments in order; each consumes an arg interface.
    pub(crate) fn check_objects(
        &self,
        table: &InterfaceTable<'_>,
        client: &[Option<Object>],
        server: &[Option<Object>],
        child: Option<Child>,
        desc: &MessageDesc<'_>,
        args: &[Argument<ObjectId>],
    ) -> Result<(), Refusal>
        requires { fits (map_of self.now.map client.now server.now) ≡ true }
        ensures { result ≡ objects_stand (table_of table.now) (counting child (seen_in (map_of self.now.map client.now server.now))) (message_of desc.now).args (message_of desc.now).signature args.now }
    {
        let mut wants = desc.arg_interfaces;
        let mut kinds = desc.signature;
        let mut rest = args;
        while let (Some((kind, more_kinds)), Some((arg, more_args))) = (
            kinds.split_first(),
            rest.split_first(),
        ) {
            if let Argument::Object(handle) = arg {
                let want = wants.first().copied();
                self.check_object(table, client, server, child, want, *kind, *handle)?;
                wants = wants.get(1..).unwrap_or(&[]);
            }
            kinds = more_kinds;
            rest = more_args;
        }
        Ok(())
    }
}

/// A request that nothing stands against: its sender's object, its description, its child and the message to put.
#[derive(Clone, Copy)]
pub(crate) struct Sending<'t, 'a> {
    pub(crate) by: Object,
    pub(crate) desc: MessageDesc<'t>,
    pub(crate) child: Option<Child>,
    pub(crate) message: Outgoing<'a>,
}

impl Connection {
    // All checks in their order.
    pub(crate) fn check_request<'t, 'a>(
        &self,
        table: &InterfaceTable<'t>,
        client: &[Option<Object>],
        server: &[Option<Object>],
        request: &Request<'a>,
    ) -> Result<Sending<'t, 'a>, Refusal>
        requires { fits (map_of self.now.map client.now server.now) ≡ true }
        ensures { SentAs request.now result (checked (table_of table.now) (map_of self.now.map client.now server.now) (next_serial self.now.last_serial) (request_of request.now)) }
    {
        let sender = self.resolve(client, server, request.sender)?;
        let (by, desc, message) = describe(table, request, sender)?;
        let free = self.map.client_next(client, server).ok().flatten();
        let serial = self.last_serial.wrapping_add(1);
        let child = choose_number(table, free, serial, request, &by, &desc)?;
        self.check_objects(table, client, server, child, &desc, request.args)?;
        Ok(Sending {
            by,
            desc,
            child,
            message,
        })
    }
}
