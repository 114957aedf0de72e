//! Maps made of maps: the commands `bundle`, `compile` and `remap` of the program `sourcemap`.
#![tactic(auto)]

pub mod bundle;
mod codes;
pub mod compile;
mod own;
mod rebasing;
pub mod remap;
