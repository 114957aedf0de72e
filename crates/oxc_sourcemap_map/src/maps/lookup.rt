//! The lookups of `SourceMap` by generated position. (The Rust crate has these calls in the module `sourcemap`.)
ghost use Rattle.std.specs.Prelude.{◌≡◌, ◌↔◌, ◌+◌, ◌<◌, ◌≤◌, true, length, option_map, IfSome};
ghost use Rattle.std.specs.Prelude.{IsNone, []};
ghost use Rattle.std.specs.List.{Contains};
ghost use Rattle.oxc_sourcemap_map.specs.Words.{token_column, binary_digits, at};
ghost use Rattle.oxc_sourcemap_map.specs.Words.{no_column_goes_back, token_for, clamped_token_for};
ghost use Rattle.oxc_sourcemap_map.specs.Words.{table_fault, line_table, view_of, seen_in, Answers};
ghost use Rattle.oxc_sourcemap_map.specs.Words.{Reports, lent_items, at_or_after, token_after};
ghost use Rattle.oxc_sourcemap_map.specs.Words.{index_for, clamped_index_for, index_after, place};
ghost use Rattle.oxc_sourcemap_map.specs.Words.{pieces_of, DoCover, are_tokens_sorted};
ghost use Rattle.oxc_sourcemap_map.specs.Words.{IfBothSorted, HaveSameTraceEverywhere};
ghost use Rattle.oxc_sourcemap_map.specs.Words.{IsFirstDifference, Finds, FindsClamped, Sees};
ghost use Rattle.oxc_sourcemap_map.specs.Words.{SeesClamped, FindsIndex};

use crate::maps::source_view_token::SourceViewToken;
use crate::maps::sourcemap::SourceMap;
use oxc_sourcemap_lookup::{
    index_from_line, lookup_table, search, search_after, search_clamped, search_index,
    search_index_after, search_index_clamped, slice_of,
};
use oxc_sourcemap_queries::{Pieces, first_difference_of_parts, pieces_in};
use oxc_sourcemap_tokens::{Position, Result, Token};
use std::alloc::Global;

impl<'a> SourceMap<'a> {
    /// A token, if there is one, as a view of this map.
    pub(crate) fn view_token(&self, token: Option<Token>) -> Option<SourceViewToken<'_, 'a>>
        ensures { option_map view_of result ≡ option_map (seen_in self.now) token }
    {
        Some(SourceViewToken::new(token?, self))
    }

    /// The lookup table: for each generated line up to the last token's, the tokens on it, borrowed from this map, in
    /// order. Without tokens it has no slices.
    ///
    /// Fails with `LineOrder(i)` for the first token whose line is smaller than that of the token before, and with
    /// `OutOfMemory` for want of memory; the table takes a slice for each line, with tokens or without. The first is returned
    /// even if memory runs out.
    pub fn generate_lookup_table(&self, alloc: Global) -> Result<Vec<&[Token]>>
        ensures table { Answers (λ table. lent_items table.items) result
            (line_table self.now.tokens) }
        ensures fault { Reports (table_fault self.now.tokens) result }
    {
        lookup_table(alloc, self.parts.tokens.as_slice())
    }

    /// Looks up a column on one line. The result is the first token at `col`; if none is there, the last token of the greatest
    /// column below `col`; if all are above, None. On a line whose columns go back, it is some token of the line, or None.
    ///
    /// `steps` is set to the number of columns that were compared with `col`, which is at most one more than the number of
    /// binary digits of the number of tokens. Takes no memory.
    pub fn search(line: &[Token], col: u32, steps: &mut u64) -> Option<Token>
        ensures found { no_column_goes_back token_column line.now ≡ true
            → result ≡ at token_column line.now col }
        ensures among { IfSome result (Contains line.now) }
        ensures counted { (steps.new ≤ binary_digits (length line.now) + 1)
            × (line.now ≡ [] → steps.new ≡ 0) }
        ensures started { 0 < length line.now → 0 < steps.new }
    {
        search(line, col, steps)
    }

    /// The token at a generated position (line and column from 0, the column in UTF-16 code units); None if the table has no
    /// tokens on the line, or the position is before the first of them. The rule is that of `search`.
    ///
    /// Pass the table that `generate_lookup_table` makes of this map: only the table is read, so the table of another map
    /// gives tokens of that map. Takes no memory.
    pub fn lookup_token(&self, lookup_table: &[&[Token]], line: u32, col: u32) -> Option<Token>
        ensures { Finds (at token_column) token_for self.now
            (lent_items lookup_table.now) line col result }
    {
        search(slice_of(lookup_table, line), col, &mut 0)
    }

    /// The token that `lookup_token` finds, as a view of this map. Takes no memory.
    pub fn lookup_source_view_token(
        &self,
        lookup_table: &[&[Token]],
        line: u32,
        col: u32,
    ) -> Option<SourceViewToken<'_, 'a>>
        ensures { Sees self.now (lent_items lookup_table.now) line col result }
    {
        self.view_token(self.lookup_token(lookup_table, line, col))
    }

    /// As `lookup_token`, but a position before the first token of its line gives that token (the *clamped* lookup, by
    /// which maps are composed). None only if the line has no tokens. Takes no memory.
    pub fn lookup_token_approx(
        &self,
        lookup_table: &[&[Token]],
        line: u32,
        col: u32,
    ) -> Option<Token>
        ensures { FindsClamped self.now (lent_items lookup_table.now) line col result }
    {
        search_clamped(slice_of(lookup_table, line), col)
    }

    /// The first token at or after a generated position on its line (line and column from 0, the column in UTF-16 code units): of
    /// the tokens at the least column that is not before `col`, the last if that is `col`, else the first. None if there is none
    /// on the line. On a line whose columns go back, it is some token of the line, or None.
    ///
    /// Pass the table that `generate_lookup_table` makes of this map: only the table is read, so the table of another map
    /// gives tokens of that map. Takes no memory.
    pub fn lookup_token_after(
        &self,
        lookup_table: &[&[Token]],
        line: u32,
        col: u32,
    ) -> Option<Token>
        ensures { Finds (at_or_after token_column) token_after self.now
            (lent_items lookup_table.now) line col result }
    {
        search_after(slice_of(lookup_table, line), col, &mut 0)
    }

    /// The token that `lookup_token_approx` finds, as a view of this map. Takes no memory.
    pub fn lookup_source_view_token_approx(
        &self,
        lookup_table: &[&[Token]],
        line: u32,
        col: u32,
    ) -> Option<SourceViewToken<'_, 'a>>
        ensures { SeesClamped self.now (lent_items lookup_table.now) line col result }
    {
        self.view_token(self.lookup_token_approx(lookup_table, line, col))
    }

    /// The index in this map of the token that `lookup_token` finds.
    ///
    /// Pass the table that `generate_lookup_table` makes of this map, whose tokens must be sorted: for another table, or other
    /// tokens, the result is the index of some token of this map, or None. Takes no memory.
    pub fn lookup_token_index(
        &self,
        lookup_table: &[&[Token]],
        line: u32,
        col: u32,
    ) -> Option<usize>
        ensures { FindsIndex index_for token_for self.now
            (lent_items lookup_table.now) line col result }
    {
        let index = search_index(slice_of(lookup_table, line), col);
        index_from_line(self.parts.tokens.as_slice(), line, index)
    }

    /// The index in this map of the token that `lookup_token_approx` finds.
    ///
    /// Pass the table that `generate_lookup_table` makes of this map, whose tokens must be sorted: for another table, or other
    /// tokens, the result is the index of some token of this map, or None. Takes no memory.
    pub fn lookup_token_index_approx(
        &self,
        lookup_table: &[&[Token]],
        line: u32,
        col: u32,
    ) -> Option<usize>
        ensures { FindsIndex clamped_index_for clamped_token_for self.now
            (lent_items lookup_table.now) line col result }
    {
        let index = search_index_clamped(slice_of(lookup_table, line), col);
        index_from_line(self.parts.tokens.as_slice(), line, index)
    }

    /// The index in this map of the token that `lookup_token_after` finds.
    ///
    /// Pass the table that `generate_lookup_table` makes of this map, whose tokens must be sorted: for another table, or other
    /// tokens, the result is the index of some token of this map, or None. Takes no memory.
    pub fn lookup_token_index_after(
        &self,
        lookup_table: &[&[Token]],
        line: u32,
        col: u32,
    ) -> Option<usize>
        ensures { FindsIndex index_after token_after self.now
            (lent_items lookup_table.now) line col result }
    {
        let index = search_index_after(slice_of(lookup_table, line), col, &mut 0);
        index_from_line(self.parts.tokens.as_slice(), line, index)
    }

    /// The pieces of the range of generated code from a line and a column up to but not including another: for each, where it
    /// begins and ends, and the token that `lookup_token` finds at each of its positions, or None. They are in order, none is
    /// empty, and together they are the range; one that ends at or before its beginning has none. (Lines and columns count from
    /// 0, columns in UTF-16 code units.)
    ///
    /// A token holds to the end of its line at most, so its last piece there ends at column 0 of the next line, unless the range
    /// ends before. Several tokens at one column: the first holds there, and the last from the next column on. In a map that is
    /// not sorted the pieces are still in order and together the range, but which tokens they have is open.
    ///
    /// ```rust
    /// use oxc_sourcemap::SourceMap;
    ///
    /// let map = SourceMap::from_json_string(alloc, r#"{"version":3,"sources":["a.js"],"mappings":"EAAA,GAAG"}"#)?;
    /// let mut pieces = map.pieces(0, 0, 0, 9);
    /// assert_eq!(rt; pieces.len(), 3);
    /// let first = pieces.next().map(|piece| (piece.col, piece.end_col, piece.token));
    /// assert_eq!(rt; first, Some((0, 2, None)));
    /// let second = pieces.next().map(|piece| (piece.col, piece.end_col, piece.token));
    /// assert_eq!(rt; second, Some((2, 5, map.get_token(0))));
    /// ```
    ///
    /// It halves the tokens once, goes over those in the range, and takes no memory.
    pub fn pieces(&self, line: u32, col: u32, end_line: u32, end_col: u32) -> Pieces<'_>
        ensures cover { DoCover (place line col) (place end_line end_col) result }
        ensures pieces { are_tokens_sorted self.now.tokens ≡ true
            → result ≡ pieces_of self.now.tokens line col end_line end_col }
    {
        pieces_in(self.parts.tokens.as_slice(), line, col, end_line, end_col)
    }

    /// The first position of generated code, by line and then by column, at which this map and another have different exact traces:
    /// one finds a token and the other none, or they find tokens that do not point to the same. None if the traces are the same at
    /// every position. Tokens point to the same if their sources have equal paths and contents, and their source lines, source
    /// columns and names are equal, or if both are unmapped; an id out of range counts as none. So maps with other ids, or with
    /// tokens that change no trace, do not differ, whatever else they hold. (Lines and columns count from 0, columns in UTF-16 code
    /// units.)
    ///
    /// The tokens of both maps have to be sorted (`is_sorted`): else the result is some position, or None. Columns are at most
    /// 4294967295: of several tokens at one column the last is found from the next column on, and so not at all at that one.
    ///
    /// ```rust
    /// use oxc_sourcemap::SourceMap;
    ///
    /// let text = r#"{"version":3,"sources":["a.js"],"mappings":"EAAA,GAAG"}"#;
    /// let map = SourceMap::from_json_string(alloc, text)?;
    /// let text = r#"{"version":3,"sources":["b.js","a.js"],"mappings":"ECAA,GAAI"}"#;
    /// let other = SourceMap::from_json_string(alloc, text)?;
    /// let found = map.first_difference(&other).map(|at| (at.line, at.column));
    /// assert_eq!(rt; found, Some((0, 5)));
    /// assert!(rt; map.first_difference(&map).is_none());
    /// ```
    ///
    /// It goes once over the lists of sources, as far as they are equal, and over the tokens of both maps. The texts of other sources
    /// are compared where tokens lead to others than those before. It takes no memory.
    pub fn first_difference(&self, other: &SourceMap<'_>) -> Option<Position>
        ensures same { IfBothSorted self.now other.now
            (IsNone result ↔ HaveSameTraceEverywhere self.now other.now) }
        ensures first { IfBothSorted self.now other.now
            (IfSome result (IsFirstDifference self.now other.now)) }
    {
        first_difference_of_parts(&self.parts, &other.parts)
    }
}
