//! The named iterators over the lists of a map. Each gives the items in order and then None, has the exact number of items
//! left as its length, and takes no memory.
ghost use Rattle.std.specs.Prelude.{◌≡◌, map, option_map, length, IfSome, Some};
ghost use Rattle.std.specs.Iterator.{YieldsFirst, YieldsFirstBy, item_count, UpTo};
ghost use Rattle.std.specs.Iterator.SizeHint.{IsWithinCount};
ghost use Rattle.oxc_sourcemap_parts.specs.Words.{text_of, cow_texts};

use oxc_sourcemap_tokens::Token;
use std::borrow::CowStr;
use std::marker::Model;
use std::slice;

/// The names or the sources of a map, in order of their ids.
#[derive(Drop)]
pub struct Texts<'s, 'd> {
    texts: slice::Iter<'s, CowStr<'d>>,
}

/// The names of a map, in order of their ids.
pub type Names<'s, 'd> = Texts<'s, 'd>;

/// The sources of a map, in order of their ids.
pub type Sources<'s, 'd> = Texts<'s, 'd>;

impl<'s, 'd> Model for Texts<'s, 'd> {
    ghost use Rattle.std.specs.Prelude.{List};
    ghost use Rattle.std.specs.Slice.Iter.{iter_rest};
    ghost use Rattle.oxc_sourcemap_parts.specs.Record.{Text};
    ghost use Rattle.oxc_sourcemap_parts.specs.Views.{cow_texts};

    // The texts that are left.
    ghost Value = { List Text };

    ghost view = { λ it. cow_texts (iter_rest it.texts) };
}

/// An iterator over names or sources.
pub fn texts_in<'s, 'd>(texts: &'s [CowStr<'d>]) -> Texts<'s, 'd>
    ensures { result ≡ cow_texts texts.now }
{
    Texts {
        texts: texts.iter(),
    }
}

impl<'s, 'd> Iterator for Texts<'s, 'd> {
    type Item = &'s str;

    ghost next_gives = { YieldsFirstBy (λ text. text.now) (λ left. left) };

    ghost remaining = { item_count (λ left. left) };

    fn next(&mut self) -> Option<&'s str> {
        Some(self.texts.next()?.as_str())
    }

    fn size_hint(&self) -> (usize, Option<usize>)
        ensures lower { IsWithinCount result.0 (item_count (λ left. left) self.now) }
        ensures upper { IfSome result.1 (UpTo (item_count (λ left. left) self.now)) }
        ensures exact { result ≡ (length self.now, Some (length self.now)) }
    {
        let len = self.len();
        (len, Some(len))
    }
}

impl<'s, 'd> ExactSizeIterator for Texts<'s, 'd> {
    fn len(&self) -> usize {
        self.texts.len()
    }
}

/// The contents of a map's sources, in order of the sources' ids; None where a content is not known.
#[derive(Drop)]
pub struct Contents<'s, 'd> {
    contents: slice::Iter<'s, Option<CowStr<'d>>>,
}

impl<'s, 'd> Model for Contents<'s, 'd> {
    ghost use Rattle.std.specs.Prelude.{List, Option, map};
    ghost use Rattle.std.specs.Slice.Iter.{iter_rest};
    ghost use Rattle.oxc_sourcemap_parts.specs.Views.{text_of};
    ghost use Rattle.oxc_sourcemap_parts.specs.Record.{Text};

    // The contents that are left.
    ghost Value = { List (Option Text) };

    ghost view = { λ it. map text_of (iter_rest it.contents) };
}

/// An iterator over contents of sources.
pub fn contents_in<'s, 'd>(contents: &'s [Option<CowStr<'d>>]) -> Contents<'s, 'd>
    ensures { result ≡ map text_of contents.now }
{
    Contents {
        contents: contents.iter(),
    }
}

impl<'s, 'd> Iterator for Contents<'s, 'd> {
    type Item = Option<&'s str>;

    ghost next_gives = { YieldsFirstBy (λ content. option_map (λ text. text.now) content)
        (λ left. left) };

    ghost remaining = { item_count (λ left. left) };

    fn next(&mut self) -> Option<Option<&'s str>> {
        Some(self.contents.next()?.as_deref())
    }

    fn size_hint(&self) -> (usize, Option<usize>)
        ensures lower { IsWithinCount result.0 (item_count (λ left. left) self.now) }
        ensures upper { IfSome result.1 (UpTo (item_count (λ left. left) self.now)) }
        ensures exact { result ≡ (length self.now, Some (length self.now)) }
    {
        let len = self.len();
        (len, Some(len))
    }
}

impl<'s, 'd> ExactSizeIterator for Contents<'s, 'd> {
    fn len(&self) -> usize {
        self.contents.len()
    }
}

/// The tokens of a map, in order.
#[derive(Drop)]
pub struct Tokens<'s> {
    tokens: slice::Iter<'s, Token>,
}

impl<'s> Model for Tokens<'s> {
    ghost use Rattle.std.specs.Prelude.{List};
    ghost use Rattle.std.specs.Slice.Iter.{iter_rest};
    ghost use Rattle.oxc_sourcemap_tokens.specs.Token.{TokenRecord};

    // The tokens that are left.
    ghost Value = { List TokenRecord };

    ghost view = { λ it. iter_rest it.tokens };
}

impl<'s> Tokens<'s> {
    /// The tokens that are left, as a slice of the map's list.
    pub fn as_slice(&self) -> &'s [Token]
        ensures { result.now ≡ self.now }
    {
        self.tokens.as_slice()
    }
}

impl<'s> Iterator for Tokens<'s> {
    type Item = Token;

    ghost next_gives = { YieldsFirst (λ left. left) };

    ghost remaining = { item_count (λ left. left) };

    fn next(&mut self) -> Option<Token> {
        self.tokens.next().copied()
    }

    fn size_hint(&self) -> (usize, Option<usize>)
        ensures lower { IsWithinCount result.0 (item_count (λ left. left) self.now) }
        ensures upper { IfSome result.1 (UpTo (item_count (λ left. left) self.now)) }
        ensures exact { result ≡ (length self.now, Some (length self.now)) }
    {
        let len = self.len();
        (len, Some(len))
    }
}

impl<'s> ExactSizeIterator for Tokens<'s> {
    fn len(&self) -> usize {
        self.tokens.len()
    }
}

/// An iterator over tokens.
pub fn tokens_in(tokens: &[Token]) -> Tokens<'_>
    ensures { result ≡ tokens.now }
{
    Tokens {
        tokens: tokens.iter(),
    }
}
