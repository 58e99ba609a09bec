//! The descriptions of a Wayland protocol, the handles of its objects, and what can go wrong.
#![tactic(auto)]

pub mod argument;
pub mod core_interfaces;
pub mod error;
pub mod id;
pub mod interface;
pub mod laws;
pub mod refusal;
mod rules;
pub mod table;
