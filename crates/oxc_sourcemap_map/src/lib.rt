//! What users hold: maps, builders, the index by original positions, and the visualizer. Part of `oxc_sourcemap`.
#![tactic(auto)]

mod builders;
mod maps;
mod reverse;
mod sourcemap_visualizer;

pub use builders::{ConcatSourceMapBuilder, SourceMapBuilder, name_ids_unique};
pub use maps::{OwnedSourceMap, SourceMap, SourceViewToken, ViewTokens, parts_of};
pub use reverse::{IndexTokens, SourceIndex, SourceOrder, reverse_lookups, reverse_round_trip};
pub use sourcemap_visualizer::SourcemapVisualizer;
