//! Lookups from original positions to generated ones.

mod index_tokens;
mod laws;
mod order;
mod search;
mod source_index;
mod source_order;

pub use index_tokens::IndexTokens;
pub use laws::{reverse_lookups, reverse_round_trip};
pub use source_index::SourceIndex;
pub use source_order::SourceOrder;
