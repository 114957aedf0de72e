//! Which token answers for a generated position.
ghost use Rattle.std.specs.Prelude.{◌≡◌, ◌<◌, true, length, IfSome};
ghost use Rattle.oxc_sourcemap_lookup.specs.Words.{IsIndexOf, are_tokens_sorted};
ghost use Rattle.oxc_sourcemap_lookup.specs.Words.{index_by, token_by};

use crate::line_index::LineIndex;
use oxc_sourcemap_tokens::{Position, Token};

/// Which token answers for a generated position.
#[derive(Clone, Copy)]
pub enum Bias {
    /// The last one on its line at or before its column; of several at the column itself the first.
    Before,
    /// The same, or else the first one on its line.
    Clamped,
    /// The first one on its line at or after its column; of several at the column itself the last.
    After,
}

/// The tokens of a map and the index of their lines, to be asked together.
#[derive(Clone, Copy)]
pub struct Traced<'t> {
    tokens: &'t [Token],
    index: &'t LineIndex,
}

impl<'t> Traced<'t> {
    /// The tokens with the index of their lines.
    #[inline(always)]
    pub fn new(tokens: &'t [Token], index: &'t LineIndex) -> Traced<'t>
        requires { IsIndexOf tokens.now index.now }
        ensures tokens { result.tokens.now ≡ tokens.now }
        ensures index { IsIndexOf result.tokens.now result.index.now }
    {
        Traced { tokens, index }
    }

    /// The index of the token that answers for a position. On a line whose columns go back, it is that of some token, or None.
    /// Takes no memory.
    #[inline(always)]
    pub fn find(self, at: Position, bias: Bias) -> Option<usize>
        requires { IsIndexOf self.tokens.now self.index.now }
        ensures found { are_tokens_sorted self.entry.tokens.now ≡ true
            → result ≡ index_by bias self.entry.tokens.now at.line at.column }
        ensures within { IfSome result (λ i. i < length self.entry.tokens.now) }
    {
        let Traced { tokens, index } = self;
        match bias {
            Bias::Before => index.lookup_index(tokens, at.line, at.column),
            Bias::Clamped => index.lookup_index_clamped(tokens, at.line, at.column),
            Bias::After => index.lookup_index_after(tokens, at.line, at.column),
        }
    }

    /// The token that answers for a position: that at the index that `find` gives.
    pub fn token(self, at: Position, bias: Bias) -> Option<Token>
        requires { IsIndexOf self.tokens.now self.index.now }
        ensures { are_tokens_sorted self.entry.tokens.now ≡ true
            → result ≡ token_by bias self.entry.tokens.now at.line at.column }
    {
        let i = self.find(at, bias)?;
        Some(self.tokens[i])
    }
}
