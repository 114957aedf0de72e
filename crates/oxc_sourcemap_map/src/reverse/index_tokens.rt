//! The iterator over tokens that an index found.
ghost use Rattle.std.specs.Prelude.{◌≡◌, ◌<◌, length, IfSome, Some};
ghost use Rattle.std.specs.List.{All};
ghost use Rattle.std.specs.Iterator.{YieldsFirst, item_count, UpTo};
ghost use Rattle.std.specs.Iterator.SizeHint.{IsWithinCount};
ghost use Rattle.oxc_sourcemap_map.specs.Words.{listed};

use oxc_sourcemap_tokens::Token;
use std::marker::Model;
use std::slice;

/// The tokens that a call of `SourceIndex` found, in the order that the call states. It takes no memory.
#[derive(Drop)]
pub struct IndexTokens<'i> {
    tokens: &'i [Token],
    order: slice::Iter<'i, u32>,
}

impl<'i> Model for IndexTokens<'i> {
    ghost use Rattle.std.specs.Prelude.{List, ◌<◌, length};
    ghost use Rattle.std.specs.List.{All};
    ghost use Rattle.std.specs.Slice.Iter.{iter_rest};
    ghost use Rattle.oxc_sourcemap_tokens.specs.Token.{TokenRecord};
    ghost use Rattle.oxc_sourcemap_map.specs.Places.{listed};

    // The tokens that are left.
    ghost Value = { List TokenRecord };

    ghost view = { λ it. listed it.tokens.now (iter_rest it.order) };

    ghost invariant = { λ it. All (λ i. i < length it.tokens.now) (iter_rest it.order) };
}

impl<'i> IndexTokens<'i> {
    /// The tokens with these indices.
    pub(crate) fn new(tokens: &'i [Token], order: &'i [u32]) -> IndexTokens<'i>
        requires { All (λ i. i < length tokens.now) order.now }
        ensures { result ≡ listed tokens.now order.now }
    {
        IndexTokens {
            tokens,
            order: order.iter(),
        }
    }
}

impl<'i> Iterator for IndexTokens<'i> {
    type Item = Token;

    ghost next_gives = { YieldsFirst (λ left. left) };

    ghost remaining = { item_count (λ left. left) };

    fn next(&mut self) -> Option<Token> {
        let i = self.order.next()?;
        let tokens = self.tokens;
        Some(tokens[*i as usize])
    }

    fn size_hint(&self) -> (usize, Option<usize>)
        ensures lower { IsWithinCount result.0 (item_count (λ left. left) self.now) }
        ensures upper { IfSome result.1 (UpTo (item_count (λ left. left) self.now)) }
        ensures exact { result ≡ (length self.now, Some (length self.now)) }
    {
        let len = self.len();
        (len, Some(len))
    }
}

impl<'i> ExactSizeIterator for IndexTokens<'i> {
    fn len(&self) -> usize {
        self.order.len()
    }
}
