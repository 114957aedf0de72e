//! Remapping: a map some of whose sources are themselves generated, and the maps of these, made one.

mod as_parts;
mod blocks;
mod inputs;
mod lists;
mod moving;
mod needed_names;
mod owned;
mod remap;

pub use as_parts::AsParts;
pub use inputs::ignored_flags;
pub use owned::{remap_owned_parts, remap_through_owned_parts};
pub use remap::remap_parts;
