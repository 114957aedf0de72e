//! The iterator over the pieces of a range.
ghost use Rattle.std.specs.Prelude.{◌≡◌, length, IfSome, Some, true};
ghost use Rattle.std.specs.Iterator.{YieldsFirst, item_count, UpTo};
ghost use Rattle.std.specs.Iterator.SizeHint.{IsWithinCount};
ghost use Rattle.oxc_sourcemap_queries.specs.Words.{place, pieces_of, DoCover, are_tokens_sorted};

use crate::pieces::cuts::{Piece, count_before, count_pieces, cut_at, piece_to, place};
use oxc_sourcemap_tokens::{Token, tokens_in_bounds};
use std::marker::Model;

/// The pieces of a range, from left to right. It takes no memory, and its length is the number of pieces that are left.
#[derive(Drop)]
pub struct Pieces<'m> {
    tokens: &'m [Token],
    /// How many tokens lie before the place, if they are sorted.
    next: usize,
    /// Where the next piece begins.
    place: u64,
    /// Where the range ends.
    end: u64,
    left: usize,
}

impl<'m> Model for Pieces<'m> {
    ghost use Rattle.std.specs.Prelude.{List};
    ghost use Rattle.oxc_sourcemap_queries.specs.declared.pieces.cuts.Piece.{Piece};
    ghost use Rattle.oxc_sourcemap_queries.specs.Cuts.{pieces_left, AreLeft};

    // The pieces that are left.
    ghost Value = { List Piece };

    ghost view = { λ it. pieces_left it.tokens.now it.next it.place it.end it.left };

    ghost invariant = { λ it. AreLeft it.tokens.now it.next it.place it.end it.left };
}

/// The pieces of the range from a position up to but not including another.
pub fn pieces_in(tokens: &[Token], line: u32, col: u32, end_line: u32, end_col: u32) -> Pieces<'_>
    ensures cover { DoCover (place line col) (place end_line end_col) result }
    ensures pieces { are_tokens_sorted tokens.now ≡ true
        → result ≡ pieces_of tokens.now line col end_line end_col }
{
    tokens_in_bounds(tokens);
    let start = place(line, col);
    let end = place(end_line, end_col);
    let next = count_before(tokens, start);
    let left = count_pieces(tokens, next, start, end);
    Pieces {
        tokens,
        next,
        place: start,
        end,
        left,
    }
}

impl<'m> Iterator for Pieces<'m> {
    type Item = Piece;

    ghost next_gives = { YieldsFirst (λ left. left) };

    ghost remaining = { item_count (λ left. left) };

    fn next(&mut self) -> Option<Piece> {
        if self.left == 0 {
            return None;
        }
        let cut = cut_at(self.tokens, self.next, self.place, self.end);
        let piece = piece_to(self.tokens, self.place, cut);
        self.next = cut.next;
        self.place = cut.end;
        self.left -= 1;
        Some(piece)
    }

    fn size_hint(&self) -> (usize, Option<usize>)
        ensures lower { IsWithinCount result.0 (item_count (λ left. left) self.now) }
        ensures upper { IfSome result.1 (UpTo (item_count (λ left. left) self.now)) }
        ensures exact { result ≡ (length self.now, Some (length self.now)) }
    {
        let len = self.len();
        (len, Some(len))
    }
}

impl<'m> ExactSizeIterator for Pieces<'m> {
    fn len(&self) -> usize {
        self.left
    }
}
