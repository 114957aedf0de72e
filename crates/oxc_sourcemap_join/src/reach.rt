//! How far tokens reach: numbers that their lines, columns and ids do not pass.
ghost use Rattle.std.specs.Prelude.{◌≡◌, ◌↔◌, ◌<◌, ◌+◌, []};
ghost use Rattle.std.specs.Prelude.{IsTrue, IfSome};
ghost use Rattle.std.specs.Prelude.{ℕ, ◌∷◌, bit_or, slice_index_or};
ghost use Rattle.std.specs.Option.{unwrap_or};
ghost use Rattle.oxc_sourcemap_join.specs.Words.{IsInBounds};
ghost use Rattle.oxc_sourcemap_join.specs.Words.{id_limit, IsInReach};
ghost use Rattle.oxc_sourcemap_join.specs.Words.{TokenRecord};

use oxc_sourcemap_tokens::Token;
use std::simd::u32x4;

/// The generated line and column of a token, and its source line and column.
pub(crate) fn position_lanes(token: &Token) -> u32x4
    ensures lanes { result ≡ token.now.dst_line ∷ token.now.dst_col
        ∷ token.now.src_line ∷ token.now.src_col ∷ [] }

    // True of every token, and stated here for callers that need it.
    ensures in_bounds { IsInBounds token.now }
{
    u32x4::from_array([
        token.get_dst_line(),
        token.get_dst_col(),
        token.get_src_line(),
        token.get_src_col(),
    ])
}

/// The source id and the name id of a token; 4294967295 stands for none. The other lanes are not used.
pub(crate) fn id_lanes(token: &Token) -> u32x4
    ensures lanes { result ≡ unwrap_or token.now.source_id 4294967295
        ∷ unwrap_or token.now.name_id 4294967295 ∷ 0 ∷ 0 ∷ [] }
    ensures source { IfSome token.now.source_id (λ id. id < 4294967295) }
    ensures name { IfSome token.now.name_id (λ id. id < 4294967295) }
{
    u32x4::from_array([
        token.get_source_id().unwrap_or(4294967295),
        token.get_name_id().unwrap_or(4294967295),
        0,
        0,
    ])
}

/// One more than the source id and the name id of a token; 0 where there is none. The other lanes are not used.
fn limit_lanes(token: &Token) -> u32x4
    ensures { result ≡ id_limit token.now.source_id ∷ id_limit token.now.name_id ∷ 1 ∷ 1 ∷ [] }
{
    id_lanes(token) + u32x4::splat(1)
}

/// In each lane the bits of both numbers: a number that is not below either. It takes no comparison.
fn bits_of_both(a: u32x4, b: u32x4) -> u32x4
    ensures { (j : ℕ) → j < 4
        → slice_index_or result j 0 ≡ bit_or (slice_index_or a j 0) (slice_index_or b j 0) }
{
    a | b
}

/// Numbers that some tokens do not pass, in lanes as `position_lanes` and `limit_lanes` have them.
#[derive(Clone, Copy)]
pub(crate) struct Reach {
    pub(crate) positions: u32x4,
    pub(crate) ids: u32x4,
}

impl Reach {
    /// A reach of no tokens.
    pub(crate) fn of_none() -> Reach {
        Reach {
            positions: u32x4::splat(0),
            ids: u32x4::splat(0),
        }
    }

    /// The reach of one more token.
    pub(crate) fn with(self, token: &Token) -> Reach
        ensures token { IsInReach result token.now }
        ensures others { (t : TokenRecord) → IsInReach self t → IsInReach result t }
    {
        Reach {
            positions: bits_of_both(self.positions, position_lanes(token)),
            ids: bits_of_both(self.ids, limit_lanes(token)),
        }
    }
}

/// Whether a number, raised by another, is at most 4294967295.
pub(crate) fn is_in_reach(greatest: u32, number: u32) -> bool
    ensures { IsTrue result ↔ (greatest + number < 4294967296) }
{
    u64::from(greatest) + u64::from(number) < 4294967296
}
