//! Examples for the crate `transport`: stacks of ends that fill up, stop and empty again.
#![tactic(auto)]

#[cfg(test)]
mod stacks;
