//! Each rule of an interface table broken once, but for the sizes of whole tables, which only theorems reach.

use protocol::argument::{AllowNull, ArgumentType};
use protocol::core_interfaces::{
    ANONYMOUS_INTERFACE, WL_CALLBACK_INTERFACE, WL_DISPLAY_INTERFACE, WL_REGISTRY_INTERFACE,
    core_interfaces,
};
use protocol::interface::{Interface, MessageDesc};
use protocol::table::InterfaceTable;
use std::test::Fail;

const OBJECT: ArgumentType = ArgumentType::Object(AllowNull::No);

const PLAIN: MessageDesc<'static> = MessageDesc {
    signature: &[],
    is_destructor: false,
    child_interface: None,
    arg_interfaces: &[],
};

/// A pane's interface: a request that carries an object and creates one, an event that creates one.
const PANE: Interface<'static> = Interface {
    name: b"pane",
    requests: &[MessageDesc {
        signature: &[OBJECT, ArgumentType::NewId],
        is_destructor: false,
        child_interface: Some(4),
        arg_interfaces: &[0],
    }],
    events: &[MessageDesc {
        signature: &[ArgumentType::NewId, OBJECT],
        is_destructor: false,
        child_interface: Some(4),
        arg_interfaces: &[],
    }],
};

/// The same interface with another request in the place of its messages.
macro_rules! request {
    ($($field:ident: $value:expr),*) => {
        Interface { requests: &[MessageDesc { $($field: $value,)* ..PLAIN }], events: &[], ..PANE }
    };
}

/// The same with another event.
macro_rules! event {
    ($($field:ident: $value:expr),*) => {
        Interface { requests: &[], events: &[MessageDesc { $($field: $value,)* ..PLAIN }], ..PANE }
    };
}

/// Whether these make a table.
fn makes_table(interfaces: [Interface<'static>; 5]) -> bool {
    InterfaceTable::new(&interfaces).is_ok()
}

/// Whether the core with one interface more makes a table.
fn accepts(last: Interface<'static>) -> bool {
    let [display, registry, callback, anonymous] = core_interfaces();
    makes_table([display, registry, callback, anonymous, last])
}

#[test]
fn names(rt: HostRuntime) {
    assert!(rt; accepts(PANE));
    assert!(rt; !accepts(Interface { name: b"", ..PANE }), "no name");
    assert!(rt;
        accepts(Interface {
            name: &[b'a'; 64],
            ..PANE
        }),
        "64 bytes"
    );
    assert!(rt;
        !accepts(Interface {
            name: &[b'a'; 65],
            ..PANE
        }),
        "65 bytes"
    );
    assert!(rt;
        !accepts(Interface {
            name: b"pa\0ne",
            ..PANE
        }),
        "a zero byte"
    );
}

#[test]
fn arguments(rt: HostRuntime) -> Result<(), Fail> {
    assert!(rt;
        accepts(request!(signature: &[ArgumentType::Int; 20])),
        "20 arguments"
    );
    assert!(rt;
        !accepts(request!(signature: &[ArgumentType::Int; 21])),
        "21 arguments"
    );
    assert!(rt;
        !accepts(request!(signature: &[ArgumentType::NewId; 2])),
        "two new objects"
    );
    assert!(rt;
        accepts(request!(signature: &[ArgumentType::NewId])),
        "a generic constructor"
    );
    assert!(rt;
        !accepts(event!(signature: &[ArgumentType::NewId])),
        "an event's child unnamed"
    );
    Ok(())
}

#[test]
fn interfaces(rt: HostRuntime) -> Result<(), Fail> {
    assert!(rt;
        !accepts(request!(signature: &[OBJECT])),
        "too few arg interfaces"
    );
    assert!(rt;
        accepts(event!(signature: &[OBJECT])),
        "an event may leave them out"
    );
    assert!(rt;
        !accepts(event!(arg_interfaces: &[0])),
        "too many arg interfaces"
    );
    assert!(rt;
        !accepts(request!(child_interface: Some(5))),
        "a child outside the table"
    );
    assert!(rt;
        !accepts(event!(signature: &[OBJECT], arg_interfaces: &[5])),
        "an arg outside the table"
    );
    Ok(())
}

#[test]
fn core(rt: HostRuntime) -> Result<(), Fail> {
    assert!(rt;
        !makes_table([
            WL_REGISTRY_INTERFACE,
            WL_DISPLAY_INTERFACE,
            WL_CALLBACK_INTERFACE,
            ANONYMOUS_INTERFACE,
            PANE,
        ]),
        "swapped"
    );
    assert!(rt;
        !makes_table([
            WL_DISPLAY_INTERFACE,
            WL_REGISTRY_INTERFACE,
            PANE,
            ANONYMOUS_INTERFACE,
            PANE,
        ]),
        "another name"
    );
    let lasting = Interface {
        name: b"wl_callback",
        ..event!(signature: &[ArgumentType::Uint])
    };
    assert!(rt;
        !makes_table([
            WL_DISPLAY_INTERFACE,
            WL_REGISTRY_INTERFACE,
            lasting,
            ANONYMOUS_INTERFACE,
            PANE,
        ]),
        "done does not destroy"
    );
    Ok(())
}
