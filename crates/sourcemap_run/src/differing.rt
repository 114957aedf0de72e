//! Counts the places for which two maps answer differently.
ghost use Rattle.std.specs.Prelude.{◌≡◌};
ghost use Rattle.std.specs.List.{count_by};
ghost use Rattle.sourcemap_run.specs.Words.{lent_item, original_seen, seen};
ghost use Rattle.sourcemap_run.specs.Words.{is_same_text, is_same_original, is_same_answer};
ghost use Rattle.sourcemap_run.specs.Words.{differ_at};

use crate::tracer::{Answer, Spot, Tracer};
use oxc_sourcemap_lookup::Bias;
use oxc_sourcemap_tokens::Position;

/// Whether two texts that may be there are equal.
fn is_same_text(a: Option<&str>, b: Option<&str>) -> bool
    ensures { result ≡ is_same_text (lent_item a.entry) (lent_item b.entry) }
{
    match (a, b) {
        (Some(x), Some(y)) => x == y,
        (None, None) => true,
        _ => false,
    }
}

/// Whether two original positions are equal, with their names and the contents of their sources.
fn is_same_spot(a: &Spot<'_>, b: &Spot<'_>) -> bool
    ensures { result ≡ is_same_original (original_seen a.now) (original_seen b.now) }
{
    a.source == b.source
        && a.line == b.line
        && a.column == b.column
        && is_same_text(a.name, b.name)
        && is_same_text(a.content, b.content)
}

/// Whether two answers are equal.
fn is_same_answer(a: Answer<'_>, b: Answer<'_>) -> bool
    ensures { result ≡ is_same_answer (seen a.entry) (seen b.entry) }
{
    match (a, b) {
        (Answer::Nothing, Answer::Nothing) => true,
        (Answer::Unmapped, Answer::Unmapped) => true,
        (Answer::At(x), Answer::At(y)) => is_same_spot(&x, &y),
        _ => false,
    }
}

/// Whether two maps answer differently for a line and a column.
fn differ_at(a: &Tracer, b: &Tracer, place: (u32, u32)) -> bool
    ensures { result ≡ differ_at a.now b.now place }
{
    let position = Position {
        line: place.0,
        column: place.1,
    };
    !is_same_answer(
        a.answer(position, Bias::Before),
        b.answer(position, Bias::Before),
    )
}

/// For how many of these lines and columns two maps answer differently, contents of sources included.
pub fn count_differences(a: &Tracer, b: &Tracer, places: &[(u32, u32)]) -> usize
    ensures { result ≡ count_by (differ_at a.now b.now) places.now }
{
    let mut count = 0;
    for place in places {
        if differ_at(a, b, *place) {
            count += 1;
        }
    }
    count
}
