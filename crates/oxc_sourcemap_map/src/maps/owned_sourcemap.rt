//! A map in a type without a lifetime.
ghost use Rattle.oxc_sourcemap_map.specs.Words.{static, OutOfMemory, IsInLineOrder, json_record};
ghost use Rattle.oxc_sourcemap_map.specs.Words.{record_of_parts, empty_record, are_tokens_sorted};
ghost use Rattle.oxc_sourcemap_map.specs.Words.{token_column, IsSound, decoded_map_of, decoded};
ghost use Rattle.oxc_sourcemap_map.specs.Words.{json_fault, encoded, read_map, read_decoded_map};
ghost use Rattle.oxc_sourcemap_map.specs.Words.{map_text, map_url, at, table_fault, line_table};
ghost use Rattle.oxc_sourcemap_map.specs.Words.{token_for, clamped_token_for, view_of, seen_in};
ghost use Rattle.oxc_sourcemap_map.specs.Words.{content_at, source_and_content_at, the_row};
ghost use Rattle.oxc_sourcemap_map.specs.Words.{map_row, Answers, OnlyMemory, Reports, lent_items};
ghost use Rattle.oxc_sourcemap_map.specs.Words.{lent_item, appended, rooted, at_or_after};
ghost use Rattle.oxc_sourcemap_map.specs.Words.{token_after, index_for, clamped_index_for};
ghost use Rattle.oxc_sourcemap_map.specs.Words.{index_after, sorted_map, place, pieces_of, DoCover};
ghost use Rattle.oxc_sourcemap_map.specs.Words.{Map, Unsorted, simplification, IfBothSorted};
ghost use Rattle.oxc_sourcemap_map.specs.Words.{HaveSameTraceEverywhere, IsFirstDifference};
ghost use Rattle.oxc_sourcemap_map.specs.Words.{early_fault, map_text_within, map_url_within};
ghost use Rattle.oxc_sourcemap_map.specs.Words.{Finds, FindsClamped, Sees, SeesClamped, FindsIndex};
ghost use Rattle.oxc_sourcemap_map.specs.Words.{Composes, IsChanged};
ghost use Rattle.std.specs.Prelude.{IsOk, ◌≡◌, ◌≢◌, List, [], map, option_map, slice_get};
ghost use Rattle.std.specs.Prelude.{string_bytes, IfOk, IfErr, IfSome, IsNone, Ok, Err, Some, OnOk};
ghost use Rattle.std.specs.Prelude.{OnErr, ◌↔◌, true, false};
ghost use Rattle.std.specs.Borrow.{Lends, sem};
ghost use Rattle.std.specs.Iterator.{IsFinite, Drains};

use crate::maps::source_view_token::SourceViewToken;
use crate::maps::sourcemap::SourceMap;
use crate::maps::view_tokens::ViewTokens;
use oxc_sourcemap_json::{JSONSourceMap, decode_parts_from_string};
use oxc_sourcemap_parts::{Contents, Names, SourceMapParts, Sources, Tokens};
use oxc_sourcemap_queries::Pieces;
use oxc_sourcemap_tokens::{PlanError, Position, Result, Token};
use std::alloc::Global;
use std::convert::AsStr;
use std::marker::Model;
use std::ops::{Deref, DerefMut};

/// A map that borrows nothing, in a type without a lifetime: a `SourceMap<'static>`, for fields that keep a map.
///
/// ```rust
/// use oxc_sourcemap::OwnedSourceMap;
///
/// let text = r#"{"version":3,"sources":["a.js"],"mappings":"AAAA"}"#;
/// let mut map = OwnedSourceMap::from_json_string(alloc, text)?;
/// map.set_file(alloc, "out.js")?;
/// let text = r#"{"version":3,"file":"out.js","names":[],"sources":["a.js"],"mappings":"AAAA"}"#;
/// assert_eq!(rt; map.to_json_string(alloc)?.as_str(), text);
/// assert!(rt; map.is_sound());
/// ```
///
/// Its calls return what those of `SourceMap` return, and fail as those do. Calls that are not listed here, such as
/// `is_sound`, are reached through `Deref`.
#[derive(Drop)]
pub struct OwnedSourceMap {
    inner: SourceMap<'static>,
}

impl Model for OwnedSourceMap {
    ghost use Rattle.oxc_sourcemap_parts.specs.Record.{MapRecord};

    ghost Value = { MapRecord };

    ghost view = { λ owned. owned.inner };
}

impl OwnedSourceMap {
    /// Wraps a map. Takes no memory.
    pub fn new(inner: SourceMap<'static>) -> OwnedSourceMap
        ensures { result ≡ inner.entry }
    {
        OwnedSourceMap { inner }
    }

    /// The map with nothing in it. Fails only with `OutOfMemory`.
    pub fn empty(alloc: Global) -> Result<OwnedSourceMap>
        ensures map { IfOk result (λ map. map ≡ empty_record) }
        ensures error { OnlyMemory result }
    {
        Ok(OwnedSourceMap::new(SourceMap::empty(alloc)?))
    }

    /// A map equal to this one. Fails only with `OutOfMemory`.
    pub fn clone(&self, alloc: Global) -> Result<OwnedSourceMap>
        ensures map { IfOk result (λ map. map ≡ self.now) }
        ensures error { OnlyMemory result }
    {
        Ok(OwnedSourceMap::new(self.inner.clone(alloc)?))
    }

    /// The wrapped map.
    pub fn as_source_map(&self) -> &SourceMap<'static>
        ensures { result.now ≡ self.now }
    {
        &self.inner
    }

    /// The wrapped map, for changes: what is written to it is what this map then holds.
    pub fn as_source_map_mut(&mut self) -> &mut SourceMap<'static>
        ensures* writes_back { sem 𝓛 (Lends the_row
            (map_row (record { mir = static; lft = [] })) self.entry result (λ w. w)) }
        ensures value { result.now ≡ self.old }
    {
        &mut self.inner
    }

    /// The wrapped map, moved out. Takes no memory.
    pub fn into_inner(self) -> SourceMap<'static>
        ensures { result ≡ self }
    {
        self.inner
    }

    /// Makes a map of a `JSONSourceMap`, as `SourceMap::from_json` does, and fails as that does.
    pub fn from_json(alloc: Global, value: JSONSourceMap) -> Result<OwnedSourceMap>
        ensures map { Answers (λ map. map) result (decoded (json_record value)) }
        ensures fault { Reports (json_fault (json_record value)) result }
    {
        Ok(OwnedSourceMap::new(SourceMap::from_json(alloc, value)?))
    }

    /// Reads a map from its JSON text, as `SourceMap::from_json_string` does, and fails as that does.
    #[tactic(auto, using(oxc_sourcemap_json::proofs::WellRead::read_map_sound, oxc_sourcemap_json::proofs::WellRead::read_in_order))]
    pub fn from_json_string(alloc: Global, text: &str) -> Result<OwnedSourceMap>
        ensures map { Answers (λ map. map) result (read_map text.now) }
        ensures decoded_map { IfOk result (λ map. read_decoded_map text.now
            ≡ Ok (decoded_map_of map)) }
        ensures sound { IfOk result (λ map. IsSound map ↔ (are_tokens_sorted map.tokens ≡ true)) }
        ensures in_line_order { IfOk result (λ map. IsInLineOrder map.tokens) }
    {
        let parts = decode_parts_from_string(alloc, text)?;
        Ok(OwnedSourceMap::new(SourceMap::from_parts(parts)))
    }

    /// Makes a `JSONSourceMap` of this map, as `SourceMap::to_json` does, and fails as that does.
    pub fn to_json(&self, alloc: Global) -> Result<JSONSourceMap>
        ensures { Answers json_record result (encoded self.now) }
    {
        self.inner.to_json(alloc)
    }

    /// Writes the JSON text of this map, as `SourceMap::to_json_string` does, and fails as that does.
    pub fn to_json_string(&self, alloc: Global) -> Result<String>
        ensures { Answers string_bytes result (map_text self.now) }
    {
        self.inner.to_json_string(alloc)
    }

    /// Writes the JSON text of this map, if it has at most `limit` bytes, as `SourceMap::to_json_string_within` does, and fails
    /// as that does.
    pub fn to_json_string_within(&self, alloc: Global, limit: usize) -> Result<String>
        ensures text { Answers string_bytes result (map_text_within limit self.now) }
        ensures early { Reports (early_fault limit self.now.tokens self.now.token_chunks) result }
    {
        self.inner.to_json_string_within(alloc, limit)
    }

    /// Appends the JSON text of this map to `out`, as `SourceMap::write_json_string` does, and fails as that does; `out` is
    /// then as it was.
    pub fn write_json_string(&self, out: &mut String) -> Result<()>
        ensures text { Answers (λ _. string_bytes out.new) result
            (appended (string_bytes out.old) (map_text self.now)) }
        ensures unchanged { OnErr result (string_bytes out.new ≡ string_bytes out.old) }
    {
        self.inner.write_json_string(out)
    }

    /// Writes the data URL of the JSON text of this map, as `SourceMap::to_data_url` does, and fails as that does.
    pub fn to_data_url(&self, alloc: Global) -> Result<String>
        ensures { Answers string_bytes result (map_url self.now) }
    {
        self.inner.to_data_url(alloc)
    }

    /// Writes the data URL of the JSON text of this map, if it has at most `limit` bytes, as `SourceMap::to_data_url_within`
    /// does, and fails as that does.
    pub fn to_data_url_within(&self, alloc: Global, limit: usize) -> Result<String>
        ensures text { Answers string_bytes result (map_url_within limit self.now) }
        ensures early { Reports (early_fault limit self.now.tokens self.now.token_chunks) result }
    {
        self.inner.to_data_url_within(alloc, limit)
    }

    /// Composes this map, from generated to intermediate code, with `input`, from there to original code, as
    /// `SourceMap::compose` does, and fails as that does; both maps are then dropped.
    pub fn compose(self, alloc: Global, input: OwnedSourceMap) -> Result<OwnedSourceMap>
        ensures { Composes self input result }
    {
        Ok(OwnedSourceMap::new(self.inner.compose(alloc, input.inner)?))
    }

    /// The name of the generated file.
    pub fn get_file(&self) -> Option<&str>
        ensures { lent_item result ≡ self.now.file }
    {
        self.inner.get_file()
    }

    /// Sets the name of the generated file to a copy of this string. Fails only with `OutOfMemory`; the map is then as it
    /// was.
    pub fn set_file(&mut self, alloc: Global, file: &str) -> Result<()>
        ensures { IsChanged result self.old self.new
            (record self.old { file = Some file.now }) }
    {
        self.inner.set_file(alloc, file)
    }

    /// The source root, which consumers prepend to each source. `get_source` and `get_sources` return sources without it;
    /// `apply_source_root` puts it before them.
    pub fn get_source_root(&self) -> Option<&str>
        ensures { lent_item result ≡ self.now.source_root }
    {
        self.inner.get_source_root()
    }

    /// Sets the source root to a copy of this string. Sources stay as they are. Fails only with `OutOfMemory`; the map is then
    /// as it was.
    pub fn set_source_root(&mut self, alloc: Global, source_root: &str) -> Result<()>
        ensures { IsChanged result self.old self.new
            (record self.old { source_root = Some source_root.now }) }
    {
        self.inner.set_source_root(alloc, source_root)
    }

    /// Puts the source root before each source, and leaves the map without one. A `/` stands between the two, unless the root
    /// is empty or ends in one. A source that begins with `/`, or with a scheme and `:`, stays as it is. Without a source root
    /// nothing changes. Joins and remappings drop roots: call this before them.
    ///
    /// Fails only with `OutOfMemory`; the map is then as it was.
    pub fn apply_source_root(&mut self, alloc: Global) -> Result<()>
        ensures { IsChanged result self.old self.new (rooted self.old) }
    {
        self.inner.apply_source_root(alloc)
    }

    /// Sorts the tokens by generated line, then by generated column; tokens at one position stay in their order. Chunks are dropped,
    /// as they would not fit. A map that is sorted stays as it is, with its chunks, and takes no memory.
    ///
    /// Fails only with `OutOfMemory`; the map is then as it was.
    pub fn sort(&mut self, alloc: Global) -> Result<()>
        ensures sorted { OnOk result (self.new ≡ sorted_map self.old) }
        ensures error { OnlyMemory result }
        ensures unchanged { OnErr result (self.new ≡ self.old) }
        ensures no_memory { are_tokens_sorted self.old.tokens ≡ true → IsOk result }
    {
        self.inner.sort(alloc)
    }

    /// Simplifies this map, as `SourceMap::simplify` does, with its errors: the map is then as it was.
    pub fn simplify(&mut self, alloc: Global) -> std::result::Result<(), PlanError>
        ensures simplified { OnOk result (simplification self.old ≡ Ok self.new) }
        ensures error { IfErr result (λ e. (e ≢ Map OutOfMemory)
            → simplification self.old ≡ Err e) }
        ensures unchanged { OnErr result (self.new ≡ self.old) }
        ensures unsorted { are_tokens_sorted self.old.tokens ≡ false → result ≡ Err Unsorted }
    {
        self.inner.simplify(alloc)
    }

    /// The indices of third-party sources, which debuggers may skip.
    pub fn get_ignore_list(&self) -> Option<&[u32]>
        ensures { lent_item result ≡ self.now.ignore_list }
    {
        self.inner.get_ignore_list()
    }

    /// Sets the ignore list. Nothing is checked, and it takes no memory.
    pub fn set_ignore_list(&mut self, ignore_list: Vec<u32>)
        ensures { self.new ≡ record self.old { ignore_list = Some ignore_list.items } }
    {
        self.inner.set_ignore_list(ignore_list);
    }

    /// The id that ties this map to its generated code.
    pub fn get_debug_id(&self) -> Option<&str>
        ensures { lent_item result ≡ self.now.debug_id }
    {
        self.inner.get_debug_id()
    }

    /// Sets the debug id to a copy of this string. Fails only with `OutOfMemory`; the map is then as it was.
    pub fn set_debug_id(&mut self, alloc: Global, debug_id: &str) -> Result<()>
        ensures { IsChanged result self.old self.new
            (record self.old { debug_id = Some debug_id.now }) }
    {
        self.inner.set_debug_id(alloc, debug_id)
    }

    /// The names, in order of their ids.
    pub fn get_names(&self) -> Names<'_, 'static>
        ensures { result ≡ self.now.names }
    {
        self.inner.get_names()
    }

    /// The sources, in order of their ids.
    pub fn get_sources(&self) -> Sources<'_, 'static>
        ensures { result ≡ self.now.sources }
    {
        self.inner.get_sources()
    }

    /// Sets the sources to copies of these strings. Tokens, contents and the ignore list stay as they are, so ids may then
    /// be out of range.
    ///
    /// The iterator must end. Fails only with `OutOfMemory`; the map is then as it was.
    pub fn set_sources<S: AsStr, I: Iterator<Item = S>>(
        &mut self,
        alloc: Global,
        sources: I,
    ) -> Result<()>
    where
        S: Drop,
        requires can { I.can_next sources }
        requires ends { IsFinite (I.remaining sources) }
        ensures set { OnOk result ((items : List S) × Drains I.next_gives sources items
            × (self.new ≡ record self.old { sources = map S.text items })) }
        ensures error { OnlyMemory result }
        ensures unchanged { OnErr result (self.new ≡ self.old) }
    {
        self.inner.set_sources(alloc, sources)
    }

    /// The contents of sources, in order of the sources' ids, None if a content is not known.
    pub fn get_source_contents(&self) -> Contents<'_, 'static>
        ensures { result ≡ self.now.source_contents }
    {
        self.inner.get_source_contents()
    }

    /// Sets the contents of sources to copies of these strings, None if a content is not known. There may be fewer or
    /// more than there are sources. Fails only with `OutOfMemory`; the map is then as it was.
    pub fn set_source_contents(
        &mut self,
        alloc: Global,
        source_contents: Vec<Option<&str>>,
    ) -> Result<()>
        ensures { let contents = map (option_map
            (λ content. content.now)) source_contents.entry.items in
            IsChanged result self.old self.new (record self.old { source_contents = contents }) }
    {
        self.inner.set_source_contents(alloc, source_contents)
    }

    /// The name with this id. None if there is none.
    pub fn get_name(&self, id: u32) -> Option<&str>
        ensures { lent_item result ≡ slice_get self.now.names id }
    {
        self.inner.get_name(id)
    }

    /// The source with this id. None if there is none.
    pub fn get_source(&self, id: u32) -> Option<&str>
        ensures { lent_item result ≡ slice_get self.now.sources id }
    {
        self.inner.get_source(id)
    }

    /// The content listed for the source with this id. None if none is listed, or it is not known.
    pub fn get_source_content(&self, id: u32) -> Option<&str>
        ensures { lent_item result ≡ content_at self.now.source_contents id }
    {
        self.inner.get_source_content(id)
    }

    /// The source with this id, and its content. None unless both exist.
    pub fn get_source_and_content(&self, id: u32) -> Option<(&str, &str)>
        ensures { option_map (λ texts. (texts.0.now, texts.1.now)) result
            ≡ source_and_content_at self.now id }
    {
        self.inner.get_source_and_content(id)
    }

    /// The token at an index. None if there is none.
    pub fn get_token(&self, index: u32) -> Option<Token>
        ensures { result ≡ slice_get self.now.tokens index }
    {
        self.inner.get_token(index)
    }

    /// The tokens, in order.
    pub fn get_tokens(&self) -> Tokens<'_>
        ensures { result ≡ self.now.tokens }
    {
        self.inner.get_tokens()
    }

    /// The token at an index, as a view of this map. None if there is none.
    pub fn get_source_view_token(&self, index: u32) -> Option<SourceViewToken<'_, 'static>>
        ensures { option_map view_of result ≡ option_map (seen_in self.now)
            (slice_get self.now.tokens index) }
    {
        self.inner.get_source_view_token(index)
    }

    /// The tokens, in order, each as a view of this map.
    pub fn get_source_view_tokens(&self) -> ViewTokens<'_, 'static>
        ensures { result ≡ map (seen_in self.now) self.now.tokens }
    {
        self.inner.get_source_view_tokens()
    }

    /// The lookup table: for each generated line up to the last token's, the tokens on it, borrowed from this map, in
    /// order. Without tokens it has no slices.
    ///
    /// Fails with `LineOrder(i)` for the first token whose line is smaller than that of the token before, and with
    /// `OutOfMemory` for want of memory; the table takes a slice for each line, with tokens or without. The first is returned
    /// even if memory runs out.
    pub fn generate_lookup_table(&self, alloc: Global) -> Result<Vec<&[Token]>>
        ensures table { Answers (λ table. lent_items table.items) result
            (line_table self.now.tokens) }
        ensures fault { Reports (table_fault self.now.tokens) result }
    {
        self.inner.generate_lookup_table(alloc)
    }

    /// The token at a generated position, or None if the position is before the first token of its line or the table has no
    /// such line. The rule is that of `SourceMap::search`.
    ///
    /// Pass the table that `generate_lookup_table` makes of this map: only the table is read, so the table of another map
    /// gives tokens of that map. Takes no memory.
    pub fn lookup_token(&self, lookup_table: &[&[Token]], line: u32, col: u32) -> Option<Token>
        ensures { Finds (at token_column) token_for self.now
            (lent_items lookup_table.now) line col result }
    {
        self.inner.lookup_token(lookup_table, line, col)
    }

    /// The token that `lookup_token` finds, as a view of this map. Takes no memory.
    pub fn lookup_source_view_token(
        &self,
        lookup_table: &[&[Token]],
        line: u32,
        col: u32,
    ) -> Option<SourceViewToken<'_, 'static>>
        ensures { Sees self.now (lent_items lookup_table.now) line col result }
    {
        self.inner.lookup_source_view_token(lookup_table, line, col)
    }

    /// As `lookup_token`, but a position before the first token of its line gives that token (the *clamped* lookup, by
    /// which maps are composed). None only if the line has no tokens. Takes no memory.
    pub fn lookup_token_approx(
        &self,
        lookup_table: &[&[Token]],
        line: u32,
        col: u32,
    ) -> Option<Token>
        ensures { FindsClamped self.now (lent_items lookup_table.now) line col result }
    {
        self.inner.lookup_token_approx(lookup_table, line, col)
    }

    /// The first token at or after a generated position on its line (line and column from 0, the column in UTF-16 code units): of
    /// the tokens at the least column that is not before `col`, the last if that is `col`, else the first. None if there is none
    /// on the line. On a line whose columns go back, it is some token of the line, or None.
    ///
    /// Pass the table that `generate_lookup_table` makes of this map: only the table is read, so the table of another map
    /// gives tokens of that map. Takes no memory.
    pub fn lookup_token_after(
        &self,
        lookup_table: &[&[Token]],
        line: u32,
        col: u32,
    ) -> Option<Token>
        ensures { Finds (at_or_after token_column) token_after self.now
            (lent_items lookup_table.now) line col result }
    {
        self.inner.lookup_token_after(lookup_table, line, col)
    }

    /// The token that `lookup_token_approx` finds, as a view of this map. Takes no memory.
    pub fn lookup_source_view_token_approx(
        &self,
        lookup_table: &[&[Token]],
        line: u32,
        col: u32,
    ) -> Option<SourceViewToken<'_, 'static>>
        ensures { SeesClamped self.now (lent_items lookup_table.now) line col result }
    {
        self.inner
            .lookup_source_view_token_approx(lookup_table, line, col)
    }

    /// The index in this map of the token that `lookup_token` finds.
    ///
    /// Pass the table that `generate_lookup_table` makes of this map, whose tokens must be sorted: for another table, or other
    /// tokens, the result is the index of some token of this map, or None. Takes no memory.
    pub fn lookup_token_index(
        &self,
        lookup_table: &[&[Token]],
        line: u32,
        col: u32,
    ) -> Option<usize>
        ensures { FindsIndex index_for token_for self.now
            (lent_items lookup_table.now) line col result }
    {
        self.inner.lookup_token_index(lookup_table, line, col)
    }

    /// The index in this map of the token that `lookup_token_approx` finds.
    ///
    /// Pass the table that `generate_lookup_table` makes of this map, whose tokens must be sorted: for another table, or other
    /// tokens, the result is the index of some token of this map, or None. Takes no memory.
    pub fn lookup_token_index_approx(
        &self,
        lookup_table: &[&[Token]],
        line: u32,
        col: u32,
    ) -> Option<usize>
        ensures { FindsIndex clamped_index_for clamped_token_for self.now
            (lent_items lookup_table.now) line col result }
    {
        self.inner
            .lookup_token_index_approx(lookup_table, line, col)
    }

    /// The index in this map of the token that `lookup_token_after` finds.
    ///
    /// Pass the table that `generate_lookup_table` makes of this map, whose tokens must be sorted: for another table, or other
    /// tokens, the result is the index of some token of this map, or None. Takes no memory.
    pub fn lookup_token_index_after(
        &self,
        lookup_table: &[&[Token]],
        line: u32,
        col: u32,
    ) -> Option<usize>
        ensures { FindsIndex index_after token_after self.now
            (lent_items lookup_table.now) line col result }
    {
        self.inner.lookup_token_index_after(lookup_table, line, col)
    }

    /// The pieces of a range of generated code, as `SourceMap::pieces` has them. Takes no memory.
    pub fn pieces(&self, line: u32, col: u32, end_line: u32, end_col: u32) -> Pieces<'_>
        ensures cover { DoCover (place line col) (place end_line end_col) result }
        ensures pieces { are_tokens_sorted self.now.tokens ≡ true
            → result ≡ pieces_of self.now.tokens line col end_line end_col }
    {
        self.inner.pieces(line, col, end_line, end_col)
    }

    /// The first position of generated code at which the exact traces of this map and another differ, as
    /// `SourceMap::first_difference` has it. None if there is none. Takes no memory.
    pub fn first_difference(&self, other: &OwnedSourceMap) -> Option<Position>
        ensures same { IfBothSorted self.now other.now
            (IsNone result ↔ HaveSameTraceEverywhere self.now other.now) }
        ensures first { IfBothSorted self.now other.now
            (IfSome result (IsFirstDifference self.now other.now)) }
    {
        self.inner.first_difference(&other.inner)
    }

    /// The parts of this map, unchanged. Takes no memory.
    pub fn into_parts(self) -> SourceMapParts<'static>
        ensures { record_of_parts result ≡ self }
    {
        self.inner.into_parts()
    }

    /// The map of these parts, unchanged. Nothing is checked, and it takes no memory.
    pub fn from_parts(parts: SourceMapParts<'static>) -> OwnedSourceMap
        ensures { result ≡ record_of_parts parts.entry }
    {
        OwnedSourceMap::new(SourceMap::from_parts(parts))
    }
}

impl From<SourceMap<'static>> for OwnedSourceMap {
    ghost from_gives = { λ inner owned. owned ≡ inner };

    /// This map, wrapped.
    fn from(inner: SourceMap<'static>) -> OwnedSourceMap {
        OwnedSourceMap::new(inner)
    }
}

impl From<OwnedSourceMap> for SourceMap<'static> {
    ghost from_gives = { λ owned inner. inner ≡ owned };

    /// The wrapped map.
    fn from(owned: OwnedSourceMap) -> SourceMap<'static> {
        owned.into_inner()
    }
}

impl<'a> SourceMap<'a> {
    /// The same map, borrowing nothing, in a type without a lifetime. Fails as `into_owned` does.
    pub fn into_owned_sourcemap(self, alloc: Global) -> Result<OwnedSourceMap>
        ensures map { IfOk result (λ map. map ≡ self.entry) }
        ensures error { OnlyMemory result }
    {
        Ok(OwnedSourceMap::new(self.into_owned(alloc)?))
    }
}

impl Deref for OwnedSourceMap {
    type Target = SourceMap<'static>;

    /// The wrapped map.
    fn deref(&self) -> &SourceMap<'static>
        ensures { result.now ≡ self.now }
    {
        self.as_source_map()
    }
}

impl DerefMut for OwnedSourceMap {
    /// The wrapped map, for changes: what is written to it is what this map then holds.
    fn deref_mut(&mut self) -> &mut SourceMap<'static>
        ensures* writes_back { sem 𝓛 (Lends the_row
            (map_row (record { mir = static; lft = [] })) self.entry result (λ w. w)) }
        ensures value { result.now ≡ self.old }
    {
        let OwnedSourceMap { inner } = self;
        inner
    }
}
