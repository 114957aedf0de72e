//! The iterator over the tokens of a map as views of it.
ghost use Rattle.std.specs.Prelude.{◌≡◌, map, length, IfSome, Some};
ghost use Rattle.std.specs.Iterator.{YieldsFirstBy, item_count, UpTo};
ghost use Rattle.std.specs.Iterator.SizeHint.{IsWithinCount};
ghost use Rattle.oxc_sourcemap_map.specs.Words.{view_of, seen_in};

use crate::maps::source_view_token::SourceViewToken;
use crate::maps::sourcemap::SourceMap;
use oxc_sourcemap_tokens::Token;
use std::marker::Model;
use std::slice;

/// The tokens of a map, in order, each as a view of the map.
#[derive(Drop)]
pub struct ViewTokens<'s, 'd> {
    rest: slice::Iter<'s, Token>,
    sourcemap: &'s SourceMap<'d>,
}

impl<'s, 'd> Model for ViewTokens<'s, 'd> {
    ghost use Rattle.std.specs.Prelude.{List, map};
    ghost use Rattle.std.specs.Slice.Iter.{iter_rest};
    ghost use Rattle.oxc_sourcemap_map.specs.View.{ViewRecord, seen_in};

    // The value of an iterator is the list of views that it has yet to give.
    ghost Value = { List ViewRecord };

    ghost view = { λ it. map (seen_in it.sourcemap.now) (iter_rest it.rest) };
}

impl<'s, 'd> ViewTokens<'s, 'd> {
    pub(crate) fn new(sourcemap: &'s SourceMap<'d>) -> ViewTokens<'s, 'd>
        ensures { result ≡ map (seen_in sourcemap.now) sourcemap.now.tokens }
    {
        ViewTokens {
            rest: sourcemap.parts.tokens.as_slice().iter(),
            sourcemap,
        }
    }
}

impl<'s, 'd> Iterator for ViewTokens<'s, 'd> {
    type Item = SourceViewToken<'s, 'd>;

    ghost next_gives = { YieldsFirstBy view_of (λ left. left) };

    ghost remaining = { item_count (λ left. left) };

    fn next(&mut self) -> Option<SourceViewToken<'s, 'd>> {
        Some(SourceViewToken::new(*self.rest.next()?, self.sourcemap))
    }

    fn size_hint(&self) -> (usize, Option<usize>)
        ensures lower { IsWithinCount result.0 (item_count (λ left. left) self.now) }
        ensures upper { IfSome result.1 (UpTo (item_count (λ left. left) self.now)) }
        ensures exact { result ≡ (length self.now, Some (length self.now)) }
    {
        let len = self.len();
        (len, Some(len))
    }
}

impl<'s, 'd> ExactSizeIterator for ViewTokens<'s, 'd> {
    fn len(&self) -> usize {
        self.rest.len()
    }
}
