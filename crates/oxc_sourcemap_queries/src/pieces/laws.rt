//! The law of the pieces of a range.
ghost use Rattle.oxc_sourcemap_queries.specs.Words.{PiecesCover, PiecesHold, PiecesTrace};
ghost use Rattle.oxc_sourcemap_queries.specs.Words.{PiecesIndex};

/// What the pieces of a range (`pieces_of`) are, in any list of tokens; `pieces` gives these for a sorted map.
/// - They are in order, do not overlap, cover the range exactly, and none is empty (`cover`).
/// - At every position of a piece the exact lookup (`token_for`) finds the token of the piece (`hold`),
///   and that token has the index of the piece (`index`).
/// - So the trace of the map there is what that token points to (`traces`).
pub fn range_pieces()
    ensures cover { PiecesCover }
    ensures hold { PiecesHold }
    ensures index { PiecesIndex }
    ensures traces { PiecesTrace }
{}
