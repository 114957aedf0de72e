//! Compiled maps: a map as bytes that are made once, opened in constant time, and looked up where they lie. Part of
//! `oxc_sourcemap`.
#![tactic(auto)]

mod decompiling;
mod errors;
mod fields;
mod laws;
mod layout;
mod lookup;
mod map;
mod numbers;
mod opened;
mod search;
mod writing;

pub use errors::CompiledError;
pub use laws::compiled_means_map;
pub use map::{CompiledMap, CompiledOriginal};
pub use writing::compile;
