//! What positions and stack traces come from: the commands `trace` and `resolve` of the program `sourcemap`.
#![tactic(auto)]

mod brackets;
mod code;
mod colours;
mod context;
mod counts;
mod debug_ids;
mod functions;
mod lines;
mod maps;
mod positions;
mod reading;
pub mod resolve;
mod reversing;
mod source_frames;
pub mod trace;

pub use reversing::push_reversed;
