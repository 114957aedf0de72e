//! From one place to the next where another token may be found. Positions stand as numbers here (`place`, in `RangePieces`), so
//! that they compare as numbers do.
ghost use Rattle.std.specs.Prelude.{◌≡◌, ◌≤◌, length, option_map, slice_get};
ghost use Rattle.oxc_sourcemap_queries.specs.Words.{step_at, earlier, token_position};

use crate::pieces::{count_passed, token_position};
use oxc_sourcemap_tokens::Token;

/// The tokens that do not lie after a place, and where another one may be found next.
#[derive(Clone, Copy)]
pub(crate) struct Step {
    /// How many tokens do not lie after the place.
    pub(crate) passed: usize,
    /// The first place after it where another token may be found on the same line, or one on a later line; None if there is none.
    pub(crate) change: Option<u64>,
}

/// The place of the token at an index, if there is one.
fn position_at(tokens: &[Token], i: usize) -> Option<u64>
    ensures { result ≡ option_map token_position (slice_get tokens.now i) }
{
    Some(token_position(tokens.get(i)?))
}

/// The step from a place, if `next` is the index of the first token that does not lie before it. Of several tokens at the place the
/// first is found there, and the last from the next column on.
pub(crate) fn step_at(tokens: &[Token], next: usize, place: u64) -> Step
    requires { next ≤ length tokens.now }
    ensures { result ≡ step_at tokens.now next place }
{
    let count = count_passed(&tokens[next..], place);
    let passed = next + count;
    let change = if count > 1 {
        place.checked_add(1)
    } else {
        position_at(tokens, passed)
    };
    Step { passed, change }
}

/// The lesser of two places, where there are some.
pub(crate) fn earlier(first: Option<u64>, second: Option<u64>) -> Option<u64>
    ensures { result ≡ earlier first second }
{
    match (first, second) {
        (Some(p), Some(q)) => Some(p.min(q)),
        _ => first.or(second),
    }
}
