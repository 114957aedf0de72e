//! The `mappings` text of a source map of version 3 (ECMA-426, "Mappings structure"): read into tokens, and written from
//! them. Part of `oxc_sourcemap`.
#![tactic(auto)]

mod decode;
mod encode;
mod fault_at;
mod near;
mod reason;

pub use decode::{decode_mappings, read_mappings};
pub use encode::{encode_chunk, encode_mappings};
pub use fault_at::mappings_fault_at;
pub use reason::{SegmentReason, mappings_fault_reason};
