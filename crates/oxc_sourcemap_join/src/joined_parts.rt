//! Joining the parts of maps into those of one.
ghost use Rattle.std.specs.Prelude.{◌≡◌, ◌≤◌, ◌+◌, []};
ghost use Rattle.std.specs.Prelude.{length, Some, None};
ghost use Rattle.std.specs.Prelude.{IfSome, IfOk, OnOk, vec_len};
ghost use Rattle.std.specs.Vec.{vec_capacity};
ghost use Rattle.std.specs.Option.{unwrap_or};
ghost use Rattle.oxc_sourcemap_join.specs.Words.{last, ChunksFit, texts_of, contents_of, ids_of};
ghost use Rattle.oxc_sourcemap_join.specs.Words.{record_of_parts};
ghost use Rattle.oxc_sourcemap_join.specs.Words.{added, nothing_joined, IsAdded};
ghost use Rattle.oxc_sourcemap_join.specs.Words.{IsWithinLimits};
ghost use Rattle.oxc_sourcemap_join.specs.Words.{IsAddition, map_of, lent_item};
ghost use Rattle.oxc_sourcemap_join.specs.Words.{OnlyMemory};

use crate::lists::{Copied, Lengths, Lent, Lists, Strings, make_room};
use crate::shift::{Shift, push_tokens};
use oxc_sourcemap_parts::SourceMapParts;
use oxc_sourcemap_tokens::{Error, Memory, Position, Result, Token, TokenChunk, next_chunk};
use std::alloc::Global;
use std::marker::Model;

/// The largest count of names, sources or tokens of a join.
const MAX_COUNT: usize = 4294967295;

/// What is worked out before a map is added: how its tokens are moved, how many at the front are left out, and the chunk of
/// the others.
#[derive(Drop)]
struct Addition {
    shift: Shift,
    passed: usize,
    chunk: TokenChunk,
}

/// Takes room for this many names, sources with their contents, and tokens, and for a chunk.
#[inline(always)]
fn make_room_for<'a>(
    lists: &mut Lists<'a>,
    tokens: &mut Vec<Token>,
    chunks: &mut Vec<TokenChunk>,
    lengths: Lengths,
) -> Memory<()>
    ensures names { lists.new.names.items ≡ lists.old.names.items }
    ensures sources { lists.new.sources.items ≡ lists.old.sources.items }
    ensures contents { lists.new.contents.items ≡ lists.old.contents.items }
    ensures tokens { tokens.new.items ≡ tokens.old.items }
    ensures chunks { chunks.new.items ≡ chunks.old.items }
    ensures room_for_names { OnOk result
        (vec_len lists.new.names + lengths.names ≤ vec_capacity lists.new.names) }
    ensures room_for_sources { OnOk result
        (vec_len lists.new.sources + lengths.sources ≤ vec_capacity lists.new.sources) }
    ensures room_for_contents { OnOk result
        (vec_len lists.new.contents + lengths.sources ≤ vec_capacity lists.new.contents) }
    ensures room_for_tokens { OnOk result
        (vec_len tokens.new + lengths.tokens ≤ vec_capacity tokens.new) }
    ensures room_for_chunk { OnOk result (vec_len chunks.new + 1 ≤ vec_capacity chunks.new) }
{
    lists.make_room(lengths.names, lengths.sources)?;
    make_room(tokens, lengths.tokens)?;
    make_room(chunks, 1)
}

/// The parts of the join of some maps, each at a position of the joined code. `add_lent` borrows the strings of a map for
/// `'a`, `add_moved` moves them, `add_copied` copies them.
///
/// An add that fails leaves the join as it was. Whether the result is sorted is not checked.
#[derive(Drop)]
pub struct JoinedParts<'a> {
    alloc: Global,
    lists: Lists<'a>,
    tokens: Vec<Token>,
    token_chunks: Vec<TokenChunk>,
    ignore_list: Option<Vec<u32>>,
}

impl<'a> Model for JoinedParts<'a> {
    ghost use Rattle.std.specs.Prelude.{Some, None};
    ghost use Rattle.oxc_sourcemap_parts.specs.Record.{MapRecord};
    ghost use Rattle.oxc_sourcemap_parts.specs.Views.{texts_of, contents_of, ids_of};
    ghost use Rattle.oxc_sourcemap_join.specs.Joining.{IsJoin};

    ghost Value = { MapRecord };

    ghost view = { λ b. record {
      file = None;
      names = texts_of b.lists.names;
      source_root = None;
      sources = texts_of b.lists.sources;
      source_contents = contents_of b.lists.contents;
      tokens = b.tokens.items;
      token_chunks = Some b.token_chunks.items;
      ignore_list = ids_of b.ignore_list;
      debug_id = None;
    } };

    ghost invariant = { λ b. IsJoin (texts_of b.lists.names) (texts_of b.lists.sources)
        (contents_of b.lists.contents) b.tokens.items b.token_chunks.items
        (ids_of b.ignore_list) };
}

impl<'a> JoinedParts<'a> {
    /// The join of no maps. It keeps the allocator, and takes no memory.
    pub fn empty(alloc: Global) -> JoinedParts<'a>
        ensures { result ≡ nothing_joined }
    {
        JoinedParts {
            alloc,
            lists: Lists {
                names: Vec::new(alloc),
                sources: Vec::new(alloc),
                contents: Vec::new(alloc),
            },
            tokens: Vec::new(alloc),
            token_chunks: Vec::new(alloc),
            ignore_list: None,
        }
    }

    /// The join of no maps, with room for this many names, sources, tokens and chunks. Fails only with `OutOfMemory`.
    pub fn with_capacity(
        alloc: Global,
        names_len: usize,
        sources_len: usize,
        tokens_len: usize,
        token_chunks_len: usize,
    ) -> Result<JoinedParts<'a>>
        ensures parts { IfOk result (λ parts. parts ≡ nothing_joined) }
        ensures error { OnlyMemory result }
    {
        Ok(JoinedParts {
            alloc,
            lists: Lists {
                names: Vec::with_capacity(alloc, names_len)?,
                sources: Vec::with_capacity(alloc, sources_len)?,
                contents: Vec::with_capacity(alloc, sources_len)?,
            },
            tokens: Vec::with_capacity(alloc, tokens_len)?,
            token_chunks: Vec::with_capacity(alloc, token_chunks_len)?,
            ignore_list: None,
        })
    }

    /// The number of maps so far.
    pub fn map_count(&self) -> usize
        ensures { result ≡ length (unwrap_or self.now.token_chunks []) }
    {
        self.token_chunks.len()
    }

    /// The tokens so far.
    pub fn tokens(&self) -> &[Token]
        ensures { result.now ≡ self.now.tokens }
    {
        self.tokens.as_slice()
    }

    /// The last token so far.
    pub fn last_token(&self) -> Option<Token>
        ensures { result ≡ last self.now.tokens }
    {
        self.tokens.as_slice().last().copied()
    }

    /// What is worked out before these tokens, and an ignore list, of a map with these strings are added; None if the join would
    /// pass a limit.
    #[inline(always)]
    fn addition<S: Strings<'a>>(
        &self,
        strings: &S,
        tokens: &[Token],
        ignored: Option<&[u32]>,
        position: Position,
    ) -> Option<Addition>
        ensures fits { IfSome result (λ a. IsAddition self.now
            (map_of (S.names strings.now) (S.sources strings.now) (S.contents strings.now)
            tokens.now (lent_item ignored.entry)) position a) }
        ensures too_large { result ≡ None → ¬ (IsWithinLimits (added self.now
            (map_of (S.names strings.now) (S.sources strings.now) (S.contents strings.now)
            tokens.now (lent_item ignored.entry)) position)) }
    {
        let shift = Shift {
            names: self.lists.names.len() as u32,
            sources: self.lists.sources.len() as u32,
            position,
        };
        if strings.names_len() > MAX_COUNT - self.lists.names.len()
            || strings.sources_len() > MAX_COUNT - self.lists.sources.len()
        {
            return None;
        }
        if !shift.fits_ignore_list(ignored) {
            return None;
        }
        let passed = shift.skip_len(self.last_token(), tokens);
        let kept = tokens.len() - passed;
        if kept > MAX_COUNT - self.tokens.len() {
            return None;
        }
        let end = self.tokens.len() + kept;
        let chunk = next_chunk(
            self.tokens.as_slice(),
            self.token_chunks.as_slice(),
            end as u32,
        );
        Some(Addition {
            shift,
            passed,
            chunk,
        })
    }

    /// Appends a map of these strings, tokens and ignore list, as `add_lent` does.
    #[inline(always)]
    fn add<S: Strings<'a>>(
        &mut self,
        strings: S,
        tokens: &[Token],
        ignored: Option<&[u32]>,
        position: Position,
    ) -> Result<()>
        ensures { IsAdded result self.old self.new
            (map_of (S.names strings) (S.sources strings) (S.contents strings)
            tokens.now (lent_item ignored.entry)) position }
    {
        let Some(addition) = self.addition(&strings, tokens, ignored, position) else {
            return Err(Error::TooLarge);
        };
        let shift = addition.shift;
        let kept = &tokens[addition.passed..];
        let (names_len, sources_len) = (self.lists.names.len(), self.lists.sources.len());
        let Ok(()) = make_room_for(
            &mut self.lists,
            &mut self.tokens,
            &mut self.token_chunks,
            Lengths {
                names: strings.names_len(),
                sources: strings.sources_len(),
                tokens: kept.len(),
            },
        ) else {
            return Err(shift.error_without_room(kept));
        };
        let Ok(()) = strings.push(self.alloc, &mut self.lists) else {
            self.lists.cut(names_len, sources_len);
            return Err(shift.error_without_room(kept));
        };
        let (list, ignore_list) = (&mut self.tokens, &mut self.ignore_list);
        if let Err(e) = push_tokens(self.alloc, list, ignore_list, shift, kept, ignored) {
            self.lists.cut(names_len, sources_len);
            return Err(e);
        }
        self.token_chunks.push_reserved(addition.chunk);
        Ok(())
    }

    /// Appends a map whose code begins at this position of the joined code (docs/FORMAT.md, "Joins"). The strings of the map are
    /// borrowed.
    ///
    /// Fails with `TooLarge` if there would be more than 4294967295 names, sources or tokens, a line or a column above
    /// 4294967295, or an id or an entry of the ignore list above 4294967294, then with `OutOfMemory` for want of memory;
    /// the join is then as it was.
    pub fn add_lent(&mut self, parts: &'a SourceMapParts<'_>, position: Position) -> Result<()>
        ensures { IsAdded result self.old self.new (record_of_parts parts.now) position }
    {
        let tokens = parts.tokens.as_slice();
        let ignored = parts.ignore_list.as_deref();
        self.add(Lent(parts), tokens, ignored, position)
    }

    /// Appends a map as `add_lent` does, with the same result, but moves its strings and drops the rest of it. Fails as
    /// `add_lent` does; the join is then as it was, and the map is dropped.
    pub fn add_moved(&mut self, parts: SourceMapParts<'a>, position: Position) -> Result<()>
        ensures { IsAdded result self.old self.new (record_of_parts parts.entry) position }
    {
        let SourceMapParts {
            names,
            sources,
            source_contents: contents,
            tokens,
            ignore_list,
            ..
        } = parts;
        let lists = Lists {
            names,
            sources,
            contents,
        };
        self.add(lists, tokens.as_slice(), ignore_list.as_deref(), position)
    }

    /// Appends a map as `add_lent` does, with the same result, but copies its strings. Fails as `add_lent` does; the join is then
    /// as it was.
    #[inline(always)]
    pub fn add_copied(&mut self, parts: &SourceMapParts<'_>, position: Position) -> Result<()>
        ensures { IsAdded result self.old self.new (record_of_parts parts.now) position }
    {
        let tokens = parts.tokens.as_slice();
        let ignored = parts.ignore_list.as_deref();
        self.add(Copied(parts), tokens, ignored, position)
    }

    /// The parts of the joined map: with chunks, which fit, with an ignore list if one of its maps has one, and without file,
    /// source root and debug id. Takes no memory.
    pub fn into_parts(self) -> SourceMapParts<'a>
        ensures parts { record_of_parts result ≡ self.entry }
        ensures fits { IfSome self.entry.token_chunks (ChunksFit self.entry.tokens) }
        ensures limits { IsWithinLimits self.entry }
    {
        SourceMapParts {
            file: None,
            names: self.lists.names,
            source_root: None,
            sources: self.lists.sources,
            source_contents: self.lists.contents,
            tokens: self.tokens.into_boxed_slice(),
            token_chunks: Some(self.token_chunks),
            ignore_list: self.ignore_list,
            debug_id: None,
        }
    }
}
