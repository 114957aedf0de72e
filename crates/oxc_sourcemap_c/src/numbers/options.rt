//! Choices of calls, as numbers for C.
ghost use Rattle.std.specs.Prelude.{◌≡◌, MatchOption, Ok, Err};
ghost use Rattle.oxc_sourcemap_c.specs.Words.{bias_of, direction_of, BadOption};

use crate::numbers::call_error::CallError;
use oxc_sourcemap_lookup::Bias;

/// The bias with this number. Fails with `BadOption` if there is none.
pub fn bias_from(number: u32) -> Result<Bias, CallError>
    ensures { MatchOption (bias_of number) (result ≡ Err BadOption) (λ bias. result ≡ Ok bias) }
{
    match number {
        0 => Ok(Bias::Before),
        1 => Ok(Bias::Clamped),
        2 => Ok(Bias::After),
        _ => Err(CallError::BadOption),
    }
}

/// Which tokens answer for an original position.
#[derive(Clone, Copy)]
pub enum Direction {
    /// Those at this line and column.
    At,
    /// Those at the last column of the line, at or before this one, that has any.
    For,
    /// Those at the first column of the line, at or after this one, that has any.
    From,
    /// Those on this line.
    OnLine,
}

impl Direction {
    /// The direction with this number. Fails with `BadOption` if there is none.
    pub fn of(number: u32) -> Result<Direction, CallError>
        ensures { MatchOption (direction_of number) (result ≡ Err BadOption)
            (λ direction. result ≡ Ok direction) }
    {
        match number {
            0 => Ok(Direction::At),
            1 => Ok(Direction::For),
            2 => Ok(Direction::From),
            3 => Ok(Direction::OnLine),
            _ => Err(CallError::BadOption),
        }
    }
}
