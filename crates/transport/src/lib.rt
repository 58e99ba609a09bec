//! The transport of a Wayland client: frames as fixed places, and the ends that they pass through.
#![tactic(auto)]

pub mod buffered;
pub mod frame;
mod held;
pub mod laws;
mod layout;
pub mod list_end;
pub mod outgoing;
mod ring;
pub mod transport;
pub mod world;

pub use layout::{MAX_ARGS, MAX_TEXT};
