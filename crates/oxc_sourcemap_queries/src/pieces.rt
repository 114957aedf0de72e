//! The pieces of a range of generated code: between which positions which token holds. `cuts` is for `differ`, too.

mod cuts;
mod iterator;
mod laws;

pub use cuts::{Piece, column_of, count_passed, holder, line_of, token_at, token_position};
pub use iterator::{Pieces, pieces_in};
pub use laws::range_pieces;
