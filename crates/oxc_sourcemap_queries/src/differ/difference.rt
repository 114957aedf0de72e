//! The first position at which the traces of two maps differ.
ghost use Rattle.std.specs.Prelude.{◌≡◌, ◌↔◌, IsNone, IfSome, Some};
ghost use Rattle.oxc_sourcemap_queries.specs.Words.{record_of_parts, line_of, column_of};
ghost use Rattle.oxc_sourcemap_queries.specs.Words.{HaveSameTraceEverywhere, IsFirstDifference};
ghost use Rattle.oxc_sourcemap_queries.specs.Words.{IfBothSorted};

use crate::differ::originals::{is_found_alike, shared_sources};
use crate::differ::walk::{earlier, step_at};
use crate::pieces::{column_of, holder, line_of, token_at};
use oxc_sourcemap_parts::SourceMapParts;
use oxc_sourcemap_tokens::{Position, tokens_in_bounds};

/// The position of a place.
fn position_from(place: u64) -> Position
    ensures { result ≡ record { line = line_of place; column = column_of place } }
{
    Position {
        line: line_of(place),
        column: column_of(place),
    }
}

/// The first position of generated code, by line and then by column, at which the exact traces of two maps differ: one finds a
/// token and the other none, or they find tokens that do not point to the same. None if they are the same at every position.
/// Tokens point to the same if their sources have equal paths and contents, and their source lines, source columns and names are
/// equal, or if both are unmapped; an id out of range counts as none. So maps with other ids, or with tokens that change no
/// trace, do not differ. (Lines and columns count from 0, columns in UTF-16 code units.)
///
/// The tokens of both maps have to be sorted: else the result is some position, or None. Columns are at most 4294967295, so of
/// several tokens at that column of a line only the first is found.
///
/// It goes once over the lists of sources, as far as they are equal, and over the tokens of both maps. The texts of other sources are
/// compared where tokens lead to others than those before. It takes no memory.
pub fn first_difference_of_parts(a: &SourceMapParts<'_>, b: &SourceMapParts<'_>) -> Option<Position>
    ensures same { IfBothSorted (record_of_parts a.now) (record_of_parts b.now) (IsNone result
        ↔ HaveSameTraceEverywhere (record_of_parts a.now) (record_of_parts b.now)) }
    ensures first { IfBothSorted (record_of_parts a.now) (record_of_parts b.now) (IfSome result
        (IsFirstDifference (record_of_parts a.now) (record_of_parts b.now))) }
{
    let (first, second) = (a.tokens.as_slice(), b.tokens.as_slice());
    tokens_in_bounds(first);
    tokens_in_bounds(second);
    let (mut passed_first, mut passed_second) = (0, 0);
    let mut equal = shared_sources(a, b);
    let mut place = 0;
    loop {
        let found_first = token_at(first, holder(first, passed_first, place));
        let found_second = token_at(second, holder(second, passed_second, place));
        if !is_found_alike(a, found_first, b, found_second, &mut equal) {
            return Some(position_from(place));
        }
        let step_first = step_at(first, passed_first, place);
        let step_second = step_at(second, passed_second, place);
        place = earlier(step_first.change, step_second.change)?;
        passed_first = step_first.passed;
        passed_second = step_second.passed;
    }
}
