//! Texts of the program `sourcemap`, as functions over values: how they are shown, positions in words, which code a path names, and
//! the places of the members of a JSON text.
#![tactic(auto)]

mod matching;
mod members;
mod paths;
mod placing;
mod positions;
mod texts;

pub use matching::{Candidate, Choice, Prefix, choose, longest_prefix};
pub use members::{Member, Piece, entries_of, has_member, maps_in, members_of, top_of, value_of};
pub use paths::{is_url, relative_path, stands_by_itself};
pub use placing::{Placed, place_below};
pub use positions::{position_of, source_position_of};
pub use texts::{
    is_hidden, push_shown, push_visible, push_visible_char, push_visible_string,
    visible_strings_told_apart,
};
