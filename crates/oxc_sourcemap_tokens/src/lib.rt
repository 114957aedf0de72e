//! What all crates of the port of `oxc_sourcemap` share: its errors, their messages and places; the tokens of a source map and the
//! order of their generated lines; and the chunks that a list of tokens is written in. Part of `oxc_sourcemap`.
#![tactic(auto)]

mod chunks;
mod errors;
mod laws;
mod order;
mod position;
mod state;
mod token;

pub use chunks::{chunk_fault, next_chunk, tokens_of};
pub use errors::{
    Error, Fault, FaultPlace, FaultSpot, Field, JsonFault, Located, Memory, PlanError, Result,
    SegmentPlace, name_of,
};
pub use laws::tokens_in_bounds;
pub use order::{line_back_from, line_order_fault};
pub use position::Position;
pub use state::Previous;
pub use token::{Token, TokenChunk};
