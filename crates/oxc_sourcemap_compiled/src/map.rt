//! Compiled maps that are opened.
ghost use Rattle.std.specs.Prelude.{◌≡◌, ◌+◌, ◌*◌, ◌<◌, ◌≤◌, IfSome, IfOk, IsTrue, ◌↔◌, length};
ghost use Rattle.std.specs.Prelude.{option_map, [], is_some, take, drop};
ghost use Rattle.std.specs.List.{AllZip, Contains};
ghost use Rattle.std.specs.Option.{option_and_then, unwrap_or};
ghost use Rattle.std.specs.Prelude.{slice_get, Some, None, Ok};
ghost use Rattle.oxc_sourcemap_tokens.specs.Results.{Gives, lent_item};
ghost use Rattle.oxc_sourcemap_lookup.specs.Words.{index_for, clamped_index_for, index_after};
ghost use Rattle.oxc_sourcemap_lookup.specs.Words.{binary_digits};
ghost use Rattle.oxc_sourcemap_compiled.specs.Words.{compiled_meaning, compiled_in, IsInOrder};
ghost use Rattle.oxc_sourcemap_compiled.specs.Words.{header_in, IsOnLine, IsTokenAt, IsTokenOn};
ghost use Rattle.oxc_sourcemap_lookup.specs.Words.{token_for, clamped_token_for};
ghost use Rattle.oxc_sourcemap_lookup.specs.Words.{index_by};
ghost use Rattle.oxc_sourcemap_lookup.specs.Lookup.{token_after};
ghost use Rattle.oxc_sourcemap_compiled.specs.Words.{optional_text, listed_text, utf8_text};
ghost use Rattle.oxc_sourcemap_compiled.specs.Words.{checked_map, token_in, IsIndexFor};
ghost use Rattle.oxc_sourcemap_compiled.specs.Words.{DoesNotGoBack};
ghost use Rattle.oxc_sourcemap_parts.specs.Words.{record_of_parts};

use crate::errors::CompiledError;
use crate::numbers::u64_at;
use crate::opened::Opened;
use oxc_sourcemap_lookup::Bias;
use oxc_sourcemap_parts::SourceMapParts;
use oxc_sourcemap_tokens::{Memory, Position, Token};
use std::alloc::Global;
use std::marker::Model;

/// A compiled map, in the bytes that it lies in. It holds no memory of its own: what it answers is read from the bytes.
#[derive(Drop)]
pub struct CompiledMap<'a> {
    opened: Opened<'a>,
}

impl<'a> Model for CompiledMap<'a> {
    ghost use Rattle.std.specs.Prelude.{List, ℕ};
    ghost use Rattle.oxc_sourcemap_compiled.specs.Opened.{IsOpened};

    ghost Value = { List ℕ };

    ghost view = { λ m. m.opened.bytes.now };

    ghost invariant = { λ m. IsOpened m.opened };
}

/// What a token of a compiled map points to: a position in a source (line and column from 0, the column in UTF-16 code
/// units), and a name where there is one.
#[derive(Clone, Copy)]
pub struct CompiledOriginal<'a> {
    /// The source.
    pub source: &'a str,
    /// The line in the source.
    pub src_line: u32,
    /// The column in the source.
    pub src_col: u32,
    /// The name; None without one, where its id is past the last name, or where it is not UTF-8.
    pub name: Option<&'a str>,
}

/// Bytes as a text; None if they are not UTF-8.
pub(crate) fn utf8(bytes: &[u8]) -> Option<&str>
    ensures { lent_item result ≡ utf8_text bytes.now }
{
    match std::str::from_utf8(bytes) {
        Ok(text) => Some(text),
        Err(_) => None,
    }
}

/// As `utf8`, of bytes that may be absent.
fn utf8_of(bytes: Option<&[u8]>) -> Option<&str>
    ensures { lent_item result ≡ optional_text (lent_item bytes.entry) }
{
    match bytes {
        Some(bytes) => utf8(bytes),
        None => None,
    }
}

impl<'a> CompiledMap<'a> {
    /// Opens the bytes of a compiled map, in constant time: only the header and the row of the first block are read. Fails with the
    /// first `CompiledError` that holds.
    pub fn open(bytes: &'a [u8]) -> Result<CompiledMap<'a>, CompiledError>
        ensures meaning { Gives compiled_in result (compiled_meaning bytes.now) }
        ensures bytes { IfOk result (λ map. map ≡ bytes.now) }
    {
        match Opened::open(bytes) {
            Ok(opened) => Ok(CompiledMap { opened }),
            Err(error) => Err(error),
        }
    }

    /// The index of the token at a generated position (line and column from 0, the column in UTF-16 code units): of the first
    /// token at `col`; if none is there, of the last token of the greatest column below `col`; None if no token of the line is
    /// there or before. Where bytes are not in order (`compile` makes none), it is that of some token of the line, or None.
    pub fn lookup_token_index(&self, line: u32, col: u32) -> Option<usize>
        ensures found { IsInOrder self.now
            → result ≡ index_for (compiled_in self.now).content.tokens line col }
        ensures among { IfSome result (IsOnLine self.now (header_in self.now) line) }
    {
        let at = Position { line, column: col };
        self.opened.find_index(at, Bias::Before, &mut 0)
    }

    /// As `lookup_token_index`; all lookups of this map are by the same call. `steps` is set to how many columns and numbers of lines
    /// were compared (that none is left out is no clause), at most as many as the number of lines and that of tokens have binary
    /// digits, and four more, whatever the bytes are.
    pub fn lookup_token_index_counted(&self, line: u32, col: u32, steps: &mut u64) -> Option<usize>
        ensures found { IsInOrder self.now
            → result ≡ index_for (compiled_in self.now).content.tokens line col }
        ensures among { IfSome result (IsOnLine self.now (header_in self.now) line) }
        ensures counted { steps.new ≤ binary_digits (header_in self.now).lines
            + binary_digits (header_in self.now).tokens + 4 }
    {
        let at = Position { line, column: col };
        self.opened.find_index(at, Bias::Before, steps)
    }

    /// As `lookup_token_index`, but a position before the first token of its line gives that token.
    pub fn lookup_token_index_approx(&self, line: u32, col: u32) -> Option<usize>
        ensures found { IsInOrder self.now
            → result ≡ clamped_index_for (compiled_in self.now).content.tokens line col }
        ensures among { IfSome result (IsOnLine self.now (header_in self.now) line) }
    {
        let at = Position { line, column: col };
        self.opened.find_index(at, Bias::Clamped, &mut 0)
    }

    /// The index of the first token of the least column from `col` on, of several at `col` of the last; None if the line has
    /// none. Where bytes are not in order, it is that of some token of the line, or None.
    pub fn lookup_token_index_after(&self, line: u32, col: u32) -> Option<usize>
        ensures found { IsInOrder self.now
            → result ≡ index_after (compiled_in self.now).content.tokens line col }
        ensures among { IfSome result (IsOnLine self.now (header_in self.now) line) }
    {
        let at = Position { line, column: col };
        self.opened.find_index(at, Bias::After, &mut 0)
    }

    /// The token of the index that `lookup_token_index` finds. Where bytes are not in order, it is some token of the line, or None.
    pub fn lookup_token(&self, line: u32, col: u32) -> Option<Token>
        ensures found { IsInOrder self.now
            → result ≡ token_for (compiled_in self.now).content.tokens line col }
        ensures among { IfSome result (IsTokenOn self.now (header_in self.now) line) }
    {
        let at = Position { line, column: col };
        self.opened.lookup_token(at, Bias::Before)
    }

    /// The token of the index that `lookup_token_index_approx` finds. Where bytes are not in order, it is some token of the line, or None.
    pub fn lookup_token_approx(&self, line: u32, col: u32) -> Option<Token>
        ensures found { IsInOrder self.now
            → result ≡ clamped_token_for (compiled_in self.now).content.tokens line col }
        ensures among { IfSome result (IsTokenOn self.now (header_in self.now) line) }
    {
        let at = Position { line, column: col };
        self.opened.lookup_token(at, Bias::Clamped)
    }

    /// The token of the index that `lookup_token_index_after` finds. Where bytes are not in order, it is some token of the line, or None.
    pub fn lookup_token_after(&self, line: u32, col: u32) -> Option<Token>
        ensures found { IsInOrder self.now
            → result ≡ token_after (compiled_in self.now).content.tokens line col }
        ensures among { IfSome result (IsTokenOn self.now (header_in self.now) line) }
    {
        let at = Position { line, column: col };
        self.opened.lookup_token(at, Bias::After)
    }

    /// The token that answers for a generated position by this bias, and its index. Where bytes are not in order, it is some token of
    /// the line, or None.
    #[inline(always)]
    pub fn find(&self, at: Position, bias: Bias) -> Option<(usize, Token)>
        ensures found { IsInOrder self.now → option_map (λ found. found.0) result
            ≡ index_by bias (compiled_in self.now).content.tokens at.line at.column }
        ensures token { IfSome result (λ found. IsInOrder self.now
            → slice_get (compiled_in self.now).content.tokens found.0 ≡ Some found.1) }
        ensures among { IfSome result (λ found. IsOnLine self.now (header_in self.now) at.line
            found.0 × (found.1 ≡ token_in self.now (header_in self.now) at.line found.0)) }
    {
        self.opened.find(at, bias)
    }

    /// The index of the token that answers for a generated position by this bias. Where bytes are not in order, it is that of some
    /// token of the line, or None.
    #[inline(always)]
    pub fn find_index(&self, at: Position, bias: Bias) -> Option<usize>
        ensures found { IsInOrder self.now
            → result ≡ index_by bias (compiled_in self.now).content.tokens at.line at.column }
        ensures among { IfSome result (IsOnLine self.now (header_in self.now) at.line) }
    {
        self.opened.find_index(at, bias, &mut 0)
    }

    /// The indices of the tokens that answer for generated positions by this bias, each at the index of its position, as far as there
    /// are both positions and room.
    pub fn find_all(&self, positions: &[Position], bias: Bias, out: &mut [Option<usize>])
        ensures found { AllZip (IsIndexFor bias self.now) (take (length out.old) positions.now)
            (take (length positions.now) out.new) }
        ensures others { drop (length positions.now) out.new
            ≡ drop (length positions.now) out.old }
    {
        for i in 0..positions.len().min(out.len()) {
            out[i] = self.find_index(positions[i], bias);
        }
    }

    /// What a token points to, borrowed from the bytes; its content is `get_source_content`. None where it has no source id, one past
    /// the last source, or the source is not UTF-8.
    pub fn original_of(&self, token: Token) -> Option<CompiledOriginal<'a>>
        ensures there { IsTrue (is_some result) ↔ IsTrue (is_some (option_and_then
            (listed_text (compiled_in self.now).content.sources) token.source_id)) }
        ensures source { IfSome result (λ original. Some original.source.now ≡ option_and_then
            (listed_text (compiled_in self.now).content.sources) token.source_id) }
        ensures line { IfSome result (λ original. original.src_line ≡ token.src_line) }
        ensures column { IfSome result (λ original. original.src_col ≡ token.src_col) }
        ensures name { IfSome result (λ original. lent_item original.name ≡ option_and_then
            (listed_text (compiled_in self.now).content.names) token.name_id) }
    {
        let source = match token.get_source_id() {
            Some(id) => self.get_source(id),
            None => None,
        };
        let name = match token.get_name_id() {
            Some(id) => self.get_name(id),
            None => None,
        };
        match source {
            Some(source) => Some(CompiledOriginal {
                source,
                src_line: token.get_src_line(),
                src_col: token.get_src_col(),
                name,
            }),
            None => None,
        }
    }

    /// The token at an index; None past the last. Where bytes are not in order, its line is that of some entry, or it is None.
    pub fn get_token(&self, index: usize) -> Option<Token>
        ensures found { IsInOrder self.now
            → result ≡ slice_get (compiled_in self.now).content.tokens index }
        ensures among { IfSome result (IsTokenAt self.now (header_in self.now) index) }
    {
        self.opened.token(index)
    }

    /// How many tokens there are.
    pub fn token_count(&self) -> usize
        ensures { result ≡ (header_in self.now).tokens }
    {
        self.opened.header.tokens
    }

    /// How many sources there are.
    pub fn source_count(&self) -> usize
        ensures { result ≡ length (compiled_in self.now).content.sources }
    {
        self.opened.header.sources
    }

    /// How many names there are.
    pub fn name_count(&self) -> usize
        ensures { result ≡ length (compiled_in self.now).content.names }
    {
        self.opened.header.names
    }

    /// The bytes of a source by its id, borrowed; None past the last one. They are UTF-8 where `compile` made the map.
    pub fn source_bytes(&self, id: u32) -> Option<&'a [u8]>
        ensures { lent_item result ≡ slice_get (compiled_in self.now).content.sources id }
    {
        let opened = self.opened;
        if (id as usize) < opened.header.sources {
            Some(opened.listed_text(id as usize))
        } else {
            None
        }
    }

    /// A source by its id, borrowed from the bytes; None past the last one, or where it is not UTF-8; empty where its offsets go back, or
    /// past the end.
    pub fn get_source(&self, id: u32) -> Option<&'a str>
        ensures { lent_item result ≡ listed_text (compiled_in self.now).content.sources id }
    {
        utf8_of(self.source_bytes(id))
    }

    /// The content of a source, borrowed from the bytes; None past the last one, or where it is not known, or not UTF-8.
    pub fn get_source_content(&self, id: u32) -> Option<&'a str>
        ensures { lent_item result ≡ optional_text
            (option_and_then (λ text. text)
            (slice_get (compiled_in self.now).content.source_contents id)) }
    {
        utf8_of(self.source_content_bytes(id))
    }

    /// The bytes of the content of a source, borrowed; None past the last source, or where it is not known. They are UTF-8 where
    /// `compile` made the map.
    pub fn source_content_bytes(&self, id: u32) -> Option<&'a [u8]>
        ensures { lent_item result ≡ option_and_then (λ text. text)
            (slice_get (compiled_in self.now).content.source_contents id) }
    {
        let opened = self.opened;
        if (id as usize) < opened.header.sources {
            opened.optional_text(opened.header.sources + id as usize)
        } else {
            None
        }
    }

    /// A name by its id, borrowed from the bytes; None past the last one, or where it is not UTF-8; empty where its offsets go back, or
    /// past the end.
    pub fn get_name(&self, id: u32) -> Option<&'a str>
        ensures { lent_item result ≡ listed_text (compiled_in self.now).content.names id }
    {
        utf8_of(self.name_bytes(id))
    }

    /// The bytes of a name by its id, borrowed; None past the last one. They are UTF-8 where `compile` made the map.
    pub fn name_bytes(&self, id: u32) -> Option<&'a [u8]>
        ensures { lent_item result ≡ slice_get (compiled_in self.now).content.names id }
    {
        let opened = self.opened;
        if (id as usize) < opened.header.names {
            Some(opened.listed_text(2 * opened.header.sources + id as usize))
        } else {
            None
        }
    }

    /// The name of the generated file, borrowed from the bytes; None where there is none, or it is not UTF-8.
    pub fn get_file(&self) -> Option<&'a str>
        ensures { lent_item result ≡ optional_text (compiled_in self.now).content.file }
    {
        utf8_of(self.file_bytes())
    }

    /// The bytes of the name of the generated file, borrowed; None where there is none. They are UTF-8 where `compile` made the map.
    pub fn file_bytes(&self) -> Option<&'a [u8]>
        ensures { lent_item result ≡ (compiled_in self.now).content.file }
    {
        let opened = self.opened;
        opened.optional_text(2 * opened.header.sources + opened.header.names)
    }

    /// The source root, borrowed from the bytes; None where there is none, or it is not UTF-8.
    pub fn get_source_root(&self) -> Option<&'a str>
        ensures { lent_item result ≡ optional_text (compiled_in self.now).content.source_root }
    {
        utf8_of(self.source_root_bytes())
    }

    /// The bytes of the source root, borrowed; None where there is none. They are UTF-8 where `compile` made the map.
    pub fn source_root_bytes(&self) -> Option<&'a [u8]>
        ensures { lent_item result ≡ (compiled_in self.now).content.source_root }
    {
        let opened = self.opened;
        opened.optional_text(2 * opened.header.sources + opened.header.names + 1)
    }

    /// The debug id, borrowed from the bytes; None where there is none, or it is not UTF-8.
    pub fn get_debug_id(&self) -> Option<&'a str>
        ensures { lent_item result ≡ optional_text (compiled_in self.now).content.debug_id }
    {
        utf8_of(self.debug_id_bytes())
    }

    /// The bytes of the debug id, borrowed; None where there is none. They are UTF-8 where `compile` made the map.
    pub fn debug_id_bytes(&self) -> Option<&'a [u8]>
        ensures { lent_item result ≡ (compiled_in self.now).content.debug_id }
    {
        let opened = self.opened;
        opened.optional_text(2 * opened.header.sources + opened.header.names + 2)
    }

    /// The number of bytes of the text that the map was read from, as it was given to `compile`.
    pub fn text_length(&self) -> u64
        ensures { result ≡ (compiled_in self.now).text_length }
    {
        u64_at(self.opened.bytes, 16)
    }

    /// The 32 bytes that `compile` was given, as a hash of the text that the map was read from.
    pub fn stamp(&self) -> &'a [u8]
        ensures { result.now ≡ (compiled_in self.now).stamp }
    {
        let bytes = self.opened.bytes;
        &bytes[24..56]
    }

    /// The parts of the map, which borrow their texts from the bytes: at most `token_count` tokens. None if a text is not UTF-8, or, as in
    /// no bytes that `compile` made, lines or texts go back: the tokens of a line, or the bytes of a text, begin before those of the one in
    /// front, or the last ones end before they begin. That takes no memory, and else fails only for want of it. A map of bytes that are not
    /// in order may be unsorted.
    ///
    /// ```rust
    /// use oxc_sourcemap::{SourceMapParts, Token};
    /// use oxc_sourcemap_compiled::{CompiledMap, compile};
    ///
    /// let mut parts = SourceMapParts::empty(alloc)?;
    /// parts.tokens = vec![in alloc; Token::new(0, 4, 2, 1, None, None)]?.into_boxed_slice();
    /// let bytes = compile(alloc, &parts, 0, &[0; 32])?;
    /// let back = CompiledMap::open(&bytes)?.decompile(alloc)?;
    /// assert!(rt; back.is_some_and(|back| back.tokens.as_slice() == parts.tokens.as_slice()));
    /// ```
    pub fn decompile(&self, alloc: Global) -> Memory<Option<SourceMapParts<'a>>>
        ensures map { IfOk result (λ parts. IfSome parts (λ made. checked_map
            (compiled_in self.now).content ≡ Some (record_of_parts made))) }
        ensures few { IfOk result (λ parts. IfSome parts
            (λ made. length (record_of_parts made).tokens ≤ (header_in self.now).tokens)) }
        ensures refused { ¬ (DoesNotGoBack self.now (header_in self.now)) → result ≡ Ok None }
        ensures none { IfOk result (λ parts. parts ≡ None
            → DoesNotGoBack self.now (header_in self.now)
            → checked_map (compiled_in self.now).content ≡ None) }
    {
        self.opened.parts(alloc)
    }

    /// How many entries the ignore list has; None where there is no list.
    pub fn ignored_count(&self) -> Option<usize>
        ensures { result ≡ option_map length (compiled_in self.now).content.ignore_list }
    {
        if self.opened.header.has_ignore_list {
            Some(self.opened.header.ignored)
        } else {
            None
        }
    }

    /// Whether the ignore list has this id of a source.
    pub fn is_ignored(&self, id: u32) -> bool
        ensures { IsTrue result
            ↔ Contains (unwrap_or (compiled_in self.now).content.ignore_list []) id }
    {
        self.opened.header.has_ignore_list && self.opened.has_ignored(id)
    }
}
