//! Joining maps into one.
ghost use Rattle.std.specs.Prelude.{◌≡◌, ◌⊎◌, IfSome, IfOk, IfErr};
ghost use Rattle.oxc_sourcemap_map.specs.Words.{OutOfMemory, TooLarge, ChunksFit, at_line};
ghost use Rattle.oxc_sourcemap_map.specs.Words.{at_lines, nothing_joined, joined, IsAdded};
ghost use Rattle.oxc_sourcemap_map.specs.Words.{lent_maps, IsWithinLimits, position, OnlyMemory};
ghost use Rattle.oxc_sourcemap_map.specs.Words.{record_of_parts};

use crate::maps::{OwnedSourceMap, SourceMap, parts_of};
use oxc_sourcemap_join::{JoinedParts, Lengths, with_lengths, with_room};
use oxc_sourcemap_parts::SourceMapParts;
use oxc_sourcemap_tokens::{Position, Result, Token};
use std::alloc::Global;
use std::marker::Model;

/// Joins maps into one, each at a line and a column of the joined code. Source roots are dropped: `apply_source_root` of a map,
/// called before it is added, keeps its root, in its sources. The strings of borrowed maps are borrowed for `'a`, those of owned
/// maps are moved: adding a map copies no string, unless that is asked for (`add_sourcemap_copied_at`).
///
/// ```rust
/// use oxc_sourcemap::{ConcatSourceMapBuilder, SourceMap};
///
/// let a = SourceMap::from_json_string(alloc, r#"{"version":3,"sources":["a.js"],"mappings":"AAAA"}"#)?;
/// let b = SourceMap::from_json_string(alloc, r#"{"version":3,"sources":["b.js"],"mappings":"AAAA"}"#)?;
/// let mut builder = ConcatSourceMapBuilder::empty(alloc);
/// builder.add_sourcemap(&a, 0)?;
/// builder.add_sourcemap(&b, 2)?;
/// let map = builder.into_sourcemap()?;
/// let text = r#"{"version":3,"names":[],"sources":["a.js","b.js"],"mappings":"AAAA;;ACAA"}"#;
/// assert_eq!(rt; map.to_json_string(alloc)?.as_str(), text);
/// ```
///
/// An add that fails leaves the builder as it was. Whether the result is sorted is not checked here; `SourceMap::is_sorted`
/// does.
#[derive(Drop)]
pub struct ConcatSourceMapBuilder<'a> {
    alloc: Global,
    parts: JoinedParts<'a>,
}

impl<'a> Model for ConcatSourceMapBuilder<'a> {
    ghost use Rattle.oxc_sourcemap_parts.specs.Record.{MapRecord};

    ghost Value = { MapRecord };

    ghost view = { λ b. b.parts };
}

impl<'a> ConcatSourceMapBuilder<'a> {
    /// A builder of the join of no maps. It keeps the allocator, and takes no memory.
    pub fn empty(alloc: Global) -> ConcatSourceMapBuilder<'a>
        ensures { result ≡ nothing_joined }
    {
        ConcatSourceMapBuilder {
            alloc,
            parts: JoinedParts::empty(alloc),
        }
    }

    /// A builder of the join of no maps, with room for this many names, sources, tokens and chunks. Fails only with
    /// `OutOfMemory`.
    pub fn with_capacity(
        alloc: Global,
        names_len: usize,
        sources_len: usize,
        tokens_len: usize,
        token_chunks_len: usize,
    ) -> Result<ConcatSourceMapBuilder<'a>>
        ensures builder { IfOk result (λ builder. builder ≡ nothing_joined) }
        ensures error { OnlyMemory result }
    {
        let parts = JoinedParts::with_capacity(
            alloc,
            names_len,
            sources_len,
            tokens_len,
            token_chunks_len,
        )?;
        Ok(ConcatSourceMapBuilder { alloc, parts })
    }

    /// Appends a map, without its source root (`apply_source_root`, called before, keeps it), whose code begins at line
    /// `line_offset` (from 0) and column 0 of the joined code, as `add_sourcemap_at` does, and fails as that does.
    pub fn add_sourcemap(&mut self, sourcemap: &'a SourceMap<'_>, line_offset: u32) -> Result<()>
        ensures { IsAdded result self.old self.new sourcemap.now (at_line line_offset) }
    {
        self.add_sourcemap_at(sourcemap, line_offset, 0)
    }

    /// Appends a map, without its source root (`apply_source_root`, called before, keeps it), whose code begins at this line
    /// and column of the joined code (docs/FORMAT.md, "Joins"). Lines and columns count from 0; columns are in UTF-16 code
    /// units.
    ///
    /// - Its names, sources and contents are borrowed. Each source gets one content: missing ones become None, surplus ones
    ///   are dropped. Its file and debug id are dropped.
    /// - Its tokens are shifted by the line, and those on its line 0 by the column too; their ids by the numbers of names and
    ///   sources so far. The first token is left out if it is then the same, in all six fields, as the last token so far.
    /// - Records one chunk, possibly empty, whose header is the state before it.
    /// - If it has an ignore list, the entries are appended to the ignore list of the join, increased by the number of sources
    ///   so far; an empty list counts as a list.
    ///
    /// Fails with `TooLarge` if there would be more than 4294967295 names, sources or tokens, a line or a column above
    /// 4294967295, or an id or an entry of the ignore list above 4294967294, then with `OutOfMemory` for want of memory;
    /// the builder is then as it was.
    pub fn add_sourcemap_at(
        &mut self,
        sourcemap: &'a SourceMap<'_>,
        line: u32,
        column: u32,
    ) -> Result<()>
        ensures { IsAdded result self.old self.new sourcemap.now (position line column) }
    {
        self.parts
            .add_lent(parts_of(sourcemap), Position { line, column })
    }

    /// Adds a map after the others as `add_sourcemap` does, with the same result, but moves its strings and drops the rest of
    /// it, its source root as well (`apply_source_root`, called before, keeps it). Fails as that does; the builder is then as
    /// it was, and the map is dropped.
    pub fn add_sourcemap_owned(&mut self, sourcemap: SourceMap<'a>, line_offset: u32) -> Result<()>
        ensures { IsAdded result self.old self.new sourcemap.entry (at_line line_offset) }
    {
        self.add_sourcemap_owned_at(sourcemap, line_offset, 0)
    }

    /// Adds a map after the others as `add_sourcemap_at` does, with the same result, but moves its strings and drops the rest
    /// of it, its source root as well (`apply_source_root`, called before, keeps it). Fails as that does; the builder is then
    /// as it was, and the map is dropped.
    pub fn add_sourcemap_owned_at(
        &mut self,
        sourcemap: SourceMap<'a>,
        line: u32,
        column: u32,
    ) -> Result<()>
        ensures { IsAdded result self.old self.new sourcemap.entry (position line column) }
    {
        self.parts
            .add_moved(sourcemap.into_parts(), Position { line, column })
    }

    /// Adds a map after the others as `add_sourcemap_at` does, with the same result, but copies its strings: the map may be
    /// dropped before the builder. Fails as that does; the builder is then as it was.
    ///
    /// ```rust
    /// use oxc_sourcemap::{ConcatSourceMapBuilder, SourceMap};
    ///
    /// let mut builder = ConcatSourceMapBuilder::empty(alloc);
    /// for line in 0..2 {
    ///     let map = SourceMap::from_json_string(alloc, r#"{"version":3,"sources":["a.js"],"mappings":"AAAA"}"#)?;
    ///     builder.add_sourcemap_copied_at(&map, line, 10)?;
    /// }
    /// let map = builder.into_sourcemap()?;
    /// let text = r#"{"version":3,"names":[],"sources":["a.js","a.js"],"mappings":"UAAA;UCAA"}"#;
    /// assert_eq!(rt; map.to_json_string(alloc)?.as_str(), text);
    /// ```
    pub fn add_sourcemap_copied_at(
        &mut self,
        sourcemap: &SourceMap<'_>,
        line: u32,
        column: u32,
    ) -> Result<()>
        ensures { IsAdded result self.old self.new sourcemap.now (position line column) }
    {
        self.parts
            .add_copied(parts_of(sourcemap), Position { line, column })
    }

    /// A builder of the join of these maps, each with its line offset, added in order as `add_sourcemap` does. Their source
    /// roots are dropped (`apply_source_root`, called before, keeps them); their strings are borrowed.
    ///
    /// Room is taken first for all of them (`OutOfMemory`); then the first error of an add is returned. The builder is then
    /// dropped.
    pub fn from_sourcemaps(
        alloc: Global,
        sourcemap_and_line_offsets: &[(&'a SourceMap<'_>, u32)],
    ) -> Result<ConcatSourceMapBuilder<'a>>
        ensures joined { IfOk result (λ builder. builder
            ≡ joined (lent_maps sourcemap_and_line_offsets.now)) }
        ensures limits { IfOk result IsWithinLimits }
        ensures error { IfErr result (λ e. (e ≡ OutOfMemory)
            ⊎ ((e ≡ TooLarge) × ¬ (IsWithinLimits
            (joined (lent_maps sourcemap_and_line_offsets.now))))) }
    {
        let lengths = lent_lengths(sourcemap_and_line_offsets);
        let parts = with_room(alloc, lengths, sourcemap_and_line_offsets.len())?;
        let mut builder = ConcatSourceMapBuilder { alloc, parts };
        for (sourcemap, line_offset) in sourcemap_and_line_offsets {
            builder.add_sourcemap(sourcemap, *line_offset)?;
        }
        Ok(builder)
    }

    /// A builder of the join of these maps, as `from_sourcemaps` makes it, without their source roots (`apply_source_root`,
    /// called before, keeps them), but their strings are moved. Fails as that does; the builder and all maps are then dropped.
    pub fn from_owned_sourcemaps(
        alloc: Global,
        sourcemap_and_line_offsets: Vec<(SourceMap<'a>, u32)>,
    ) -> Result<ConcatSourceMapBuilder<'a>>
        ensures joined { IfOk result (λ builder. builder
            ≡ joined (at_lines sourcemap_and_line_offsets.entry.items)) }
        ensures limits { IfOk result IsWithinLimits }
        ensures error { IfErr result (λ e. (e ≡ OutOfMemory)
            ⊎ ((e ≡ TooLarge) × ¬ (IsWithinLimits
            (joined (at_lines sourcemap_and_line_offsets.entry.items))))) }
    {
        let lengths = owned_lengths(sourcemap_and_line_offsets.as_slice());
        let parts = with_room(alloc, lengths, sourcemap_and_line_offsets.len())?;
        let mut builder = ConcatSourceMapBuilder { alloc, parts };
        for (sourcemap, line_offset) in sourcemap_and_line_offsets {
            builder.add_sourcemap_owned(sourcemap, line_offset)?;
        }
        Ok(builder)
    }

    /// The tokens of the maps that were added, in order, as they are in the joined map.
    pub fn get_tokens(&self) -> &[Token]
        ensures { result.now ≡ self.now.tokens }
    {
        self.parts.tokens()
    }

    /// The parts of the joined map, as `into_sourcemap` has them. Takes no memory, and cannot fail.
    pub fn into_parts(self) -> SourceMapParts<'a>
        ensures parts { record_of_parts result ≡ self.entry }
        ensures fits { IfSome self.entry.token_chunks (ChunksFit self.entry.tokens) }
        ensures limits { IsWithinLimits self.entry }
    {
        self.parts.into_parts()
    }

    /// The joined map: with chunks, which fit, with an ignore list if one of its maps has one, and without file, source root
    /// and debug id. Borrowed strings stay borrowed. Fails only with `OutOfMemory`; the builder is then dropped.
    pub fn into_sourcemap(self) -> Result<SourceMap<'a>>
        ensures map { IfOk result (λ map. map ≡ self.entry) }
        ensures fits { IfOk result (λ map. IfSome map.token_chunks (ChunksFit map.tokens)) }
        ensures limits { IfOk result IsWithinLimits }
        ensures error { OnlyMemory result }
    {
        Ok(SourceMap::from_parts(self.parts.into_parts()))
    }

    /// The joined map as `into_sourcemap` returns it, with copies of borrowed strings; owned strings are moved, not copied.
    /// Fails only with `OutOfMemory`; the builder is then dropped.
    pub fn into_owned_sourcemap(self) -> Result<OwnedSourceMap>
        ensures map { IfOk result (λ map. map ≡ self.entry) }
        ensures fits { IfOk result (λ map. IfSome map.token_chunks (ChunksFit map.tokens)) }
        ensures limits { IfOk result IsWithinLimits }
        ensures error { OnlyMemory result }
    {
        let alloc = self.alloc;
        self.into_sourcemap()?.into_owned_sourcemap(alloc)
    }
}

/// The lengths of borrowed maps, summed.
fn lent_lengths(maps: &[(&SourceMap<'_>, u32)]) -> Lengths {
    let mut lengths = Lengths::default();
    for (sourcemap, _) in maps {
        lengths = with_lengths(lengths, parts_of(sourcemap));
    }
    lengths
}

/// The lengths of owned maps, summed.
fn owned_lengths(maps: &[(SourceMap<'_>, u32)]) -> Lengths {
    let mut lengths = Lengths::default();
    for (sourcemap, _) in maps {
        lengths = with_lengths(lengths, parts_of(sourcemap));
    }
    lengths
}
