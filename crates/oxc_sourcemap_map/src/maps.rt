//! `SourceMap` and `OwnedSourceMap`, with views of their tokens: thin calls over the crates that read, write, look up, compose and
//! remap parts.

mod compose;
mod lookup;
mod owned_sourcemap;
mod remap;
mod simplify;
mod source_view_token;
mod sourcemap;
mod view_tokens;

pub use owned_sourcemap::OwnedSourceMap;
pub use source_view_token::SourceViewToken;
pub use sourcemap::{SourceMap, parts_of};
pub use view_tokens::ViewTokens;
