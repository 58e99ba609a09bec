//! Examples for the crate `protocol`: tables that keep the rules but for one, and handles.
#![tactic(auto)]

#[cfg(test)]
mod handles;
#[cfg(test)]
mod tables;
