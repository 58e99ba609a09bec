//! Handles by the table that they are compared in.

use protocol::core_interfaces::core_interfaces;
use protocol::id::ObjectId;
use protocol::interface::Interface;
use protocol::refusal::Refusal;
use protocol::table::InterfaceTable;
use std::test::Fail;

/// Whether two handles are the same in a table whose interface 4 is a second `wl_callback`.
fn same(a: ObjectId, b: ObjectId) -> Result<bool, Refusal> {
    let [display, registry, callback, anonymous] = core_interfaces();
    let second = Interface {
        name: b"wl_callback",
        requests: &[],
        events: &[],
    };
    let interfaces = [display, registry, callback, anonymous, second];
    Ok(InterfaceTable::new(&interfaces)?.same_object(a, b))
}

#[test]
fn equality_goes_by_name(rt: HostRuntime) -> Result<(), Fail> {
    let id = ObjectId {
        number: 7,
        serial: 9,
        interface: 2,
    };
    assert!(rt;
        same(id, ObjectId { interface: 4, ..id })?,
        "another interface of the same name"
    );
    assert!(rt; !same(id, ObjectId { interface: 1, ..id })?, "another name");
    assert!(rt; !same(id, ObjectId { serial: 8, ..id })?, "another serial");
    assert!(rt; !same(id, ObjectId { number: 6, ..id })?, "another number");
    assert!(rt;
        same(
            ObjectId {
                interface: 900,
                ..id
            },
            ObjectId { interface: 3, ..id },
        )?,
        "outside the table is anonymous"
    );
    Ok(())
}

#[test]
fn refusals_have_their_numbers(rt: HostRuntime) {
    assert!(rt; Refusal::InvalidId.number() == 1 && Refusal::BadRoom.number() == 12);
}
