//! Records by object number, in slots that the caller lends to each call.
//!
//! One map serves any `Copy` record. It allocates nothing: the slots are two slices, the client's and the server's,
//! and the map itself is four small numbers.
#![tactic(auto)]

pub mod map;
pub mod number;
mod range;
pub mod refusal;
