//! The interfaces that every table begins with. They are frozen in the protocol.

ghost use Rattle.std.specs.Prelude.{◌≡◌};
ghost use Rattle.protocol.specs.Descriptions.{described};
ghost use Rattle.protocol.specs.Core.{core};

use crate::argument::{AllowNull, ArgumentType};
use crate::interface::{Interface, MessageDesc};

/// The place of `wl_display` in every table.
pub const DISPLAY: u16 = 0;
/// The place of `wl_registry` in every table.
pub const REGISTRY: u16 = 1;
/// The place of `wl_callback` in every table.
pub const CALLBACK: u16 = 2;
/// The place of `<anonymous>`, which any object fits, in every table.
pub const ANONYMOUS: u16 = 3;

/// The interface `wl_display`.
pub const WL_DISPLAY_INTERFACE: Interface<'static> = Interface {
    name: b"wl_display",
    requests: &[
        // sync
        MessageDesc {
            signature: &[ArgumentType::NewId],
            is_destructor: false,
            child_interface: Some(CALLBACK),
            arg_interfaces: &[],
        },
        // get_registry
        MessageDesc {
            signature: &[ArgumentType::NewId],
            is_destructor: false,
            child_interface: Some(REGISTRY),
            arg_interfaces: &[],
        },
    ],
    events: &[
        // error
        MessageDesc {
            signature: &[
                ArgumentType::Object(AllowNull::No),
                ArgumentType::Uint,
                ArgumentType::Str(AllowNull::No),
            ],
            is_destructor: false,
            child_interface: None,
            arg_interfaces: &[ANONYMOUS],
        },
        // delete_id
        MessageDesc {
            signature: &[ArgumentType::Uint],
            is_destructor: false,
            child_interface: None,
            arg_interfaces: &[],
        },
    ],
};

/// The interface `wl_registry`.
pub const WL_REGISTRY_INTERFACE: Interface<'static> = Interface {
    name: b"wl_registry",
    requests: &[
        // bind
        MessageDesc {
            signature: &[
                ArgumentType::Uint,
                ArgumentType::Str(AllowNull::No),
                ArgumentType::Uint,
                ArgumentType::NewId,
            ],
            is_destructor: false,
            child_interface: None,
            arg_interfaces: &[],
        },
    ],
    events: &[
        // global
        MessageDesc {
            signature: &[
                ArgumentType::Uint,
                ArgumentType::Str(AllowNull::No),
                ArgumentType::Uint,
            ],
            is_destructor: false,
            child_interface: None,
            arg_interfaces: &[],
        },
        // global_remove
        MessageDesc {
            signature: &[ArgumentType::Uint],
            is_destructor: false,
            child_interface: None,
            arg_interfaces: &[],
        },
    ],
};

/// The interface `wl_callback`.
pub const WL_CALLBACK_INTERFACE: Interface<'static> = Interface {
    name: b"wl_callback",
    requests: &[],
    events: &[
        // done
        MessageDesc {
            signature: &[ArgumentType::Uint],
            is_destructor: true,
            child_interface: None,
            arg_interfaces: &[],
        },
    ],
};

/// The interface `<anonymous>`.
pub const ANONYMOUS_INTERFACE: Interface<'static> = Interface {
    name: b"<anonymous>",
    requests: &[],
    events: &[],
};

/// The core interfaces in their order.
pub fn core_interfaces() -> [Interface<'static>; 4]
    ensures { described result ≡ core }
{
    [
        WL_DISPLAY_INTERFACE,
        WL_REGISTRY_INTERFACE,
        WL_CALLBACK_INTERFACE,
        ANONYMOUS_INTERFACE,
    ]
}
