//! Two builders of maps: `SourceMapBuilder` builds a map call by call, and `ConcatSourceMapBuilder` joins maps. With the law on the
//! ids of names.

mod concat_sourcemap_builder;
mod laws;
mod sourcemap_builder;

pub use concat_sourcemap_builder::ConcatSourceMapBuilder;
pub use laws::name_ids_unique;
pub use sourcemap_builder::SourceMapBuilder;
