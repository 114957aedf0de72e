//! What is asked of a whole map: its pieces, and where two maps differ first. Part of `oxc_sourcemap`.
#![tactic(auto)]

mod differ;
mod pieces;

pub use differ::first_difference_of_parts;
pub use pieces::{Piece, Pieces, pieces_in, range_pieces};
