//! Compiled maps: made of maps, opened in bytes of the caller, and asked.

pub mod asking;
pub mod making;
