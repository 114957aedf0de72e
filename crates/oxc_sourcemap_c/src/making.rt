//! The calls for C that make maps, and that change what handles hold.

pub mod builders;
pub mod changing;
mod failure;
pub mod joins;
pub mod maps_of_maps;
pub mod plans;
pub mod reading_texts;
pub mod sharing;
pub mod whole_lists;
