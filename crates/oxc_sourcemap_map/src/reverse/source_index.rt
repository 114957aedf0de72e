//! The index of a map by original positions.
ghost use Rattle.std.specs.Prelude.{◌≡◌, ◌+◌, ◌*◌, ◌<◌, ◌≤◌, ℕ, ◌==◌, ◌&&◌, filter, length, Ok};
ghost use Rattle.std.specs.List.Sorted.{IsNonDecreasingBy};
ghost use Rattle.oxc_sourcemap_map.specs.Words.{TokenRecord, is_mapped, is_into, Answers, Reports};
ghost use Rattle.oxc_sourcemap_map.specs.Words.{generated_at, generated_for, generated_from};
ghost use Rattle.oxc_sourcemap_map.specs.Words.{all_generated_for, all_generated_from};
ghost use Rattle.oxc_sourcemap_map.specs.Words.{IsLineByColumn, index_fault, indexed};
ghost use Rattle.oxc_sourcemap_map.specs.Words.{token_original, AreBetween, AreInBounds};
ghost use Rattle.oxc_sourcemap_map.specs.Words.{binary_digits};

use crate::maps::{SourceMap, parts_of};
use crate::reverse::index_tokens::IndexTokens;
use crate::reverse::order::{between, original_number};
use crate::reverse::search::{find_for, find_from};
use crate::reverse::source_order::SourceOrder;
use oxc_sourcemap_tokens::{Result, Token};
use std::alloc::Global;
use std::marker::Model;

/// The index of a map by original positions, made once for many lookups: which tokens were generated from a place of a source?
///
/// ```rust
/// use oxc_sourcemap::{SourceIndex, SourceMap};
///
/// let text = r#"{"version":3,"sources":["a.js"],"mappings":"AAAA,IAAI;AAAA"}"#;
/// let map = SourceMap::from_json_string(alloc, text)?;
/// let index = SourceIndex::new(alloc, &map)?;
/// // Line 0, column 4 of the source became column 4 of line 0, and column 0 of line 1.
/// assert_eq!(rt; index.generated_at(0, 0, 4).len(), 2);
/// let found = index.generated_for(0, 0, 6);
/// assert_eq!(rt; found.map(|token| (token.get_dst_line(), token.get_dst_col())), Some((1, 0)));
/// assert_eq!(rt; index.generated_from(0, 0, 6), None);
/// ```
///
/// Sources are named by their ids. Lines and columns count from 0, columns in UTF-16 units. The map need not be sorted, and its
/// ids may be out of range. A source id that no token has gives nothing, and so does 4294967295. The index borrows the tokens
/// of the map, and holds 4 bytes for each token that has a source; while it is made, up to 32 for each token.
///
/// No lookup takes memory. One compares at most four times as many places as the number of tokens has binary digits, and two:
/// `search_at`, `search_for` and `search_from` count them, and the other calls make up to two of these.
#[derive(Drop)]
pub struct SourceIndex<'m> {
    tokens: &'m [Token],
    order: SourceOrder,
}

impl<'m> Model for SourceIndex<'m> {
    ghost use Rattle.std.specs.Prelude.{List};
    ghost use Rattle.oxc_sourcemap_tokens.specs.Token.{TokenRecord};
    ghost use Rattle.oxc_sourcemap_map.specs.Orders.{IsSourceOrderOf};

    // The tokens of the map, in order.
    ghost Value = { List TokenRecord };

    ghost view = { λ index. index.tokens.now };

    ghost invariant = { λ index. IsSourceOrderOf index.tokens.now index.order };
}

impl<'m> SourceIndex<'m> {
    /// The index of a map. Fails with `TooLarge` if the map has more than 4294967295 tokens, and else only with `OutOfMemory`.
    pub fn new(alloc: Global, map: &'m SourceMap<'_>) -> Result<SourceIndex<'m>>
        ensures index { Answers (λ index. index) result (indexed map.now.tokens) }
        ensures fault { Reports (index_fault map.now.tokens) result }
    {
        let tokens = parts_of(map).tokens.as_slice();
        let order = SourceOrder::new(alloc, tokens)?;
        Ok(SourceIndex { tokens, order })
    }

    /// All tokens that point to exactly this place, in the order of the map.
    pub fn generated_at(&self, source_id: u32, line: u32, col: u32) -> IndexTokens<'_>
        ensures { result ≡ generated_at source_id line col self.now }
    {
        self.search_at(source_id, line, col, &mut 0)
    }

    /// All tokens that point to this line, by source column, and those of one column in the order of the map.
    pub fn pointing_to(&self, source_id: u32, line: u32) -> IndexTokens<'_>
        ensures { IsLineByColumn source_id line self.now result }
    {
        let _ = &self.tokens;
        let start = original_number(source_id, line, 0);
        self.between(start, start + 4294967296, &mut 0)
    }

    /// On this line, the tokens of the greatest source column that is not after `col` are considered, and the first of them in the
    /// order of the map is found if that column is `col`, else the last of them. None if there are none.
    pub fn generated_for(&self, source_id: u32, line: u32, col: u32) -> Option<Token>
        ensures { result ≡ generated_for source_id line col self.now }
    {
        self.search_for(source_id, line, col, &mut 0)
    }

    /// The mirror image of `generated_for`. On this line, the tokens of the least source column that is not before `col` are
    /// considered, and the last of them in the order of the map is found if that column is `col`, else the first of them. None if
    /// there are none.
    pub fn generated_from(&self, source_id: u32, line: u32, col: u32) -> Option<Token>
        ensures { result ≡ generated_from source_id line col self.now }
    {
        self.search_from(source_id, line, col, &mut 0)
    }

    /// All tokens that point where the one that `generated_for` finds does, in the order of the map.
    pub fn all_generated_for(&self, source_id: u32, line: u32, col: u32) -> IndexTokens<'_>
        ensures { result ≡ all_generated_for source_id line col self.now }
    {
        match self.generated_for(source_id, line, col) {
            Some(found) => self.generated_at(source_id, line, found.get_src_col()),
            None => IndexTokens::new(self.tokens, &[]),
        }
    }

    /// All tokens that point where the one that `generated_from` finds does, in the order of the map.
    pub fn all_generated_from(&self, source_id: u32, line: u32, col: u32) -> IndexTokens<'_>
        ensures { result ≡ all_generated_from source_id line col self.now }
    {
        match self.generated_from(source_id, line, col) {
            Some(found) => self.generated_at(source_id, line, found.get_src_col()),
            None => IndexTokens::new(self.tokens, &[]),
        }
    }

    /// As `generated_at`. `steps` is set to the number of places that were compared with the given one: at most twice as many as
    /// the number of tokens has binary digits.
    pub fn search_at(&self, source_id: u32, line: u32, col: u32, steps: &mut u64) -> IndexTokens<'_>
        ensures found { result ≡ generated_at source_id line col self.now }
        ensures counted { steps.new ≤ 2 * binary_digits (length self.now) }
    {
        let _ = &self.tokens;
        *steps = 0;
        let place = original_number(source_id, line, col);
        self.between(place, place + 1, steps)
    }

    /// As `generated_for`. `steps` is set to the number of places that were compared with the given one, or with its line: at most
    /// two more than the number of tokens has binary digits.
    pub fn search_for(&self, source_id: u32, line: u32, col: u32, steps: &mut u64) -> Option<Token>
        ensures found { result ≡ generated_for source_id line col self.now }
        ensures counted { steps.new ≤ binary_digits (length self.now) + 2 }
    {
        *steps = 0;
        self.find_for(source_id, line, col, steps)
    }

    /// As `generated_from`. `steps` is set to the number of places that were compared with the given one, or with its line: at most
    /// one more than twice as many as the number of tokens has binary digits.
    pub fn search_from(&self, source_id: u32, line: u32, col: u32, steps: &mut u64) -> Option<Token>
        ensures found { result ≡ generated_from source_id line col self.now }
        ensures counted { steps.new ≤ 2 * binary_digits (length self.now) + 1 }
    {
        *steps = 0;
        self.find_from(source_id, line, col, steps)
    }

    /// The tokens from one place up to but not including another, by place, and those of one place in the order of the map.
    fn between(&self, from: u128, to: u128, steps: &mut u64) -> IndexTokens<'_>
        requires forward { from < to }
        requires few { steps.old ≤ 1024 }
        ensures in_bounds { AreInBounds result }
        ensures only { AreBetween from to result }
        ensures rises { IsNonDecreasingBy token_original result }
        ensures each { (place : ℕ) → from ≤ place → place < to
            → filter (λ t. token_original t == place) result
            ≡ filter (λ t. is_mapped t && token_original t == place) self.now }
        ensures counted { steps.new ≤ steps.old + 2 * binary_digits (length self.now) }
        ensures few { steps.new ≤ steps.old + 128 }
    {
        let found = between(self.tokens, self.order.as_slice(), from, to, steps);
        IndexTokens::new(self.tokens, found)
    }

    /// As `generated_for`. `steps` counts the places that were compared.
    fn find_for(&self, source_id: u32, line: u32, col: u32, steps: &mut u64) -> Option<Token>
        requires { steps.old ≤ 1024 }
        ensures found { result ≡ generated_for source_id line col self.now }
        ensures counted { steps.new ≤ steps.old + binary_digits (length self.now) + 2 }
        ensures few { steps.new ≤ steps.old + 66 }
    {
        find_for(
            self.tokens,
            self.order.as_slice(),
            source_id,
            line,
            col,
            steps,
        )
    }

    /// As `generated_from`. `steps` counts the places that were compared.
    fn find_from(&self, source_id: u32, line: u32, col: u32, steps: &mut u64) -> Option<Token>
        requires { steps.old ≤ 1024 }
        ensures found { result ≡ generated_from source_id line col self.now }
        ensures counted { steps.new ≤ steps.old + 2 * binary_digits (length self.now) + 1 }
        ensures few { steps.new ≤ steps.old + 129 }
    {
        find_from(
            self.tokens,
            self.order.as_slice(),
            source_id,
            line,
            col,
            steps,
        )
    }
}
