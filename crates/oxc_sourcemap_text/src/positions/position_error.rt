//! The errors of positions in a text.
ghost use Rattle.std.specs.Prelude.{Some};
ghost use Rattle.oxc_sourcemap_text.specs.Words.{position_error_text};

use std::fmt;

/// Why a text does not have a position, or an offset is none of its positions.
#[derive(Clone, Copy, Debug, PartialEq, Eq)]
pub enum PositionError {
    /// The offset is past the end of the text.
    PastText,
    /// The text has no line of this number.
    NoLine,
    /// The column is past the end of its line.
    PastLine,
    /// The position is between the two halves of a surrogate pair, inside a character.
    InsidePair,
}

impl fmt::Display for PositionError {
    ghost output = { λ error. Some (position_error_text error) };

    fn fmt<W: fmt::Write>(&self, f: &mut fmt::Formatter<W>) -> fmt::Result {
        match self {
            PositionError::PastText => write!(f, "The offset is past the end of the text"),
            PositionError::NoLine => write!(f, "The text has no such line"),
            PositionError::PastLine => write!(f, "The column is past the end of its line"),
            PositionError::InsidePair => write!(f, "The position is inside a surrogate pair"),
        }
    }
}

impl std::error::Error for PositionError {}
