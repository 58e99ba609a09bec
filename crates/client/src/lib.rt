//! The client side of a Wayland connection: what each call answers and leaves, and the law over whole runs.
#![tactic(auto)]

mod calls;
pub mod connection;
pub mod ending;
pub mod error;
pub mod laws;
mod lookups;
pub mod next;
pub mod object;
mod passing;
pub mod reads;
pub mod requests;
pub mod sending;
pub mod settling;
