//! Positions in words.
ghost use Rattle.std.specs.Prelude.{ℕ, List, MatchOption};
ghost use Rattle.sourcemap_texts.specs.Words.{IsNumber, IsPosition, IsSourcePosition};

use oxc_sourcemap_tokens::Position;

/// The number of a word of decimal digits, counted from 0, of a word that counts from `base`.
fn number_of(word: &str, base: u32) -> Option<u32>
    ensures { MatchOption result ((n : ℕ) → ¬ IsNumber base word.now n) (IsNumber base word.now) }
{
    if word.starts_with('+') {
        return None;
    }
    match word.parse::<u32>() {
        Ok(number) => number.checked_sub(base),
        Err(_) => None,
    }
}

/// The position of a word `LINE:COLUMN`, whose numbers count from `base`. None for any other word, and for a number below `base` or above
/// 4294967295.
pub fn position_of(word: &str, base: u32) -> Option<Position>
    ensures { MatchOption result ((p : Position) → ¬ IsPosition base word.now p)
        (IsPosition base word.now) }
{
    let (line, column) = word.split_once(':')?;
    Some(Position {
        line: number_of(line, base)?,
        column: number_of(column, base)?,
    })
}

/// The source and the position of a word `SOURCE:LINE:COLUMN`, whose numbers count from `base`; a source may have colons. None for any
/// other word.
pub fn source_position_of(word: &str, base: u32) -> Option<(&str, Position)>
    ensures { MatchOption result
        ((source : List ℕ) (p : Position) → ¬ IsSourcePosition base word.now source p)
        (λ found. IsSourcePosition base word.now found.0.now found.1) }
{
    let (rest, column) = word.rsplit_once(':')?;
    let (source, line) = rest.rsplit_once(':')?;
    let position = Position {
        line: number_of(line, base)?,
        column: number_of(column, base)?,
    };
    Some((source, position))
}
