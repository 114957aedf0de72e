//! Source maps of version 3 (ECMA-426): a port of the Rust crate `oxc_sourcemap`, with each call proved to meet its
//! contract.
//!
//! Users name this crate alone. Its items are made in other crates, one for each subject (`crates.txt`).
#![tactic(auto)]

mod decoding;
mod encoding;
mod evaluation;
mod finding;
pub mod laws;

pub use decoding::{decode, decode_from_string, decode_value};
pub use encoding::{encode, encode_to_string};
pub use evaluation::evaluate;
pub use finding::{Found, read_found};
pub use oxc_sourcemap_compiled::{CompiledError, CompiledMap, CompiledOriginal, compile};
pub use oxc_sourcemap_found::{Mend, MendKind, fault_reason, found_fault_at};
pub use oxc_sourcemap_json::{
    FaultReason, JSONSourceMap, encode_mappings_within, file_from_value, json_fault_at,
    json_fault_reason, push_json_string, value_fault_at,
};
pub use oxc_sourcemap_map::{
    ConcatSourceMapBuilder, IndexTokens, OwnedSourceMap, SourceIndex, SourceMap, SourceMapBuilder,
    SourceViewToken, SourcemapVisualizer, ViewTokens, parts_of,
};
pub use oxc_sourcemap_mappings::{
    SegmentReason, decode_mappings, encode_chunk, encode_mappings, mappings_fault_at,
    mappings_fault_reason,
};
pub use oxc_sourcemap_parts::{Contents, Names, SourceMapParts, Sources, Tokens};
pub use oxc_sourcemap_plan::{Plan, plan_fault_at};
pub use oxc_sourcemap_queries::{Piece, Pieces};
pub use oxc_sourcemap_scopes::{
    CallSite, Frames, GeneratedRange, OriginalScope, ScopeChainEntry, ScopeFrame, Scopes,
    ScopesError, ScopesFault, ScopesFaultKind, decode_scopes, read_scopes,
};
pub use oxc_sourcemap_text::{
    DataUrlError, Language, PositionError, SourceMappingComment, TextPositions, decode_data_url,
    source_mapping_comment, source_mapping_url,
};
pub use oxc_sourcemap_tokens::{
    Error, FaultPlace, FaultSpot, Field, JsonFault, PlanError, Position, Result, SegmentPlace,
    Token, TokenChunk, chunk_fault,
};
