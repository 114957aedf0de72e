//! Joins: the parts of maps as one, each map at its line and column. Part of `oxc_sourcemap`.
#![tactic(auto)]

mod join;
mod joined_parts;
mod lists;
mod reach;
mod shift;

pub use join::{join_owned_parts, with_lengths, with_room};
pub use joined_parts::JoinedParts;
pub use lists::Lengths;
