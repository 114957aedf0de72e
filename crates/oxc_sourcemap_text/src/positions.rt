//! The lines of a text, and positions in it: lines and columns, and offsets in UTF-16 code units.

mod laws;
mod position_error;
mod scan;
mod text_lines;
mod text_positions;

pub use laws::positions_and_offsets_inverse;
pub use position_error::PositionError;
pub use text_lines::{Lines, utf16_units};
pub use text_positions::TextPositions;
