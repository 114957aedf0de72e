//! What C reads: borrowed bytes, and structs of numbers and borrowed bytes.
ghost use Rattle.std.specs.Prelude.{◌≡◌, [], Some, None, slice_get};
ghost use Rattle.std.specs.Option.{unwrap_or, option_and_then};
ghost use Rattle.oxc_sourcemap_c.specs.Words.{view_of, view_name, view_original, HasOriginal};
ghost use Rattle.oxc_sourcemap_c.specs.Words.{number_or_none, numbers_of, no_numbers};
ghost use Rattle.oxc_sourcemap_c.specs.Words.{lent_item, index_number, IsSeen};
ghost use Rattle.oxc_sourcemap_c.specs.Words.{piece_numbers, kind_by, name_of, IsShown};
ghost use Rattle.oxc_sourcemap_compiled.specs.Words.{compiled_in};

use oxc_sourcemap_compiled::CompiledMap;
use oxc_sourcemap_map::{SourceMap, SourceViewToken};
use oxc_sourcemap_queries::Piece;
use oxc_sourcemap_tokens::{Position, Token};

/// The bytes of a text that is borrowed to C, for the lifetime `'c`.
#[repr(C)]
#[derive(Clone, Copy)]
pub struct Text<'c> {
    pub bytes: &'c [u8],
}

impl<'c> Text<'c> {
    /// The bytes of this text.
    pub fn of(text: &'c str) -> Text<'c>
        ensures { result.bytes.now ≡ text.now }
    {
        Text {
            bytes: text.as_bytes(),
        }
    }

    /// The bytes of this text, none if there is no text.
    #[inline(always)]
    pub fn of_option(text: Option<&'c str>) -> Text<'c>
        ensures { result.bytes.now ≡ unwrap_or (lent_item text.entry) [] }
    {
        match text {
            Some(text) => Text::of(text),
            None => Text { bytes: &[] },
        }
    }
}

impl<'c> Text<'c> {
    /// These bytes, none if there are none.
    #[inline(always)]
    pub fn of_bytes(bytes: Option<&'c [u8]>) -> Text<'c>
        ensures { result.bytes.now ≡ unwrap_or (lent_item bytes.entry) [] }
    {
        match bytes {
            Some(bytes) => Text { bytes },
            None => Text { bytes: &[] },
        }
    }
}

/// An id as a number, 4294967295 for none.
pub(crate) fn number_or_none(id: Option<u32>) -> u32
    ensures { result ≡ number_or_none id }
{
    match id {
        Some(id) => id,
        None => 4294967295,
    }
}

/// The index of a token as a number, 4294967295 for none, and for one that is not below it.
pub fn index_or_none(index: Option<usize>) -> u32
    ensures { result ≡ index_number index }
{
    match index {
        Some(index) => index.min(4294967295) as u32,
        None => 4294967295,
    }
}

/// The six numbers of a token; 4294967295 stands for no id.
#[repr(C)]
#[derive(Clone, Copy)]
pub struct TokenNumbers {
    pub dst_line: u32,
    pub dst_col: u32,
    pub src_line: u32,
    pub src_col: u32,
    pub source_id: u32,
    pub name_id: u32,
}

impl TokenNumbers {
    /// The numbers of no token.
    fn none() -> TokenNumbers
        ensures { result ≡ no_numbers }
    {
        TokenNumbers {
            dst_line: 0,
            dst_col: 0,
            src_line: 0,
            src_col: 0,
            source_id: 4294967295,
            name_id: 4294967295,
        }
    }

    /// The numbers of a token.
    pub fn of(token: &Token) -> TokenNumbers
        ensures { result ≡ numbers_of token.now }
    {
        TokenNumbers {
            dst_line: token.get_dst_line(),
            dst_col: token.get_dst_col(),
            src_line: token.get_src_line(),
            src_col: token.get_src_col(),
            source_id: number_or_none(token.get_source_id()),
            name_id: number_or_none(token.get_name_id()),
        }
    }
}

/// How many entries the lists of a map have, how many lines up to that of the last token, and how many bytes of memory the map and
/// its indices hold.
#[repr(C)]
#[derive(Clone, Copy)]
pub struct Counts {
    pub tokens: usize,
    pub names: usize,
    pub sources: usize,
    pub source_contents: usize,
    pub ignore_list: usize,
    pub lines: usize,
    pub bytes: usize,
}

/// What a map says of a generated position. The kind is 0 for no token, 1 for an unmapped one, 2 for an original position and 3
/// for one with a name. A missing text is empty, a missing id or index 4294967295.
#[repr(C)]
#[derive(Clone, Copy)]
pub struct Original<'c> {
    pub kind: u32,
    pub index: u32,
    pub token: TokenNumbers,
    pub source: Text<'c>,
    pub name: Text<'c>,
}

impl<'c> Original<'c> {
    /// The answer if there is no token.
    #[inline(always)]
    pub fn nothing() -> Original<'c>
        ensures kind { HasOriginal result None }
        ensures index { result.index ≡ 4294967295 }
        ensures token { result.token ≡ no_numbers }
    {
        Original {
            kind: 0,
            index: 4294967295,
            token: TokenNumbers::none(),
            source: Text::of_option(None),
            name: Text::of_option(None),
        }
    }

    /// Writes the source and the name of a token, as a view of its map has them, and the kind that follows from these.
    // Each is written where it is found, and not gathered first: so the usual lookup saves few registers.
    #[inline(always)]
    fn write_texts(&mut self, view: &SourceViewToken<'c, '_>)
        ensures kept { (self.new.index ≡ self.old.index) × (self.new.token ≡ self.old.token) }
        ensures name { self.new.name.bytes.now ≡ unwrap_or (view_name (view_of view.now)) [] }
        ensures original { self.old.token.src_line ≡ (view_of view.now).token.src_line
            → self.old.token.src_col ≡ (view_of view.now).token.src_col
            → HasOriginal self.new (Some (view_original (view_of view.now))) }
    {
        match view.get_source() {
            Some(source) => {
                self.source = Text::of(source);
                match view.get_name() {
                    Some(name) => {
                        self.name = Text::of(name);
                        self.kind = 3;
                    }
                    None => {
                        self.name = Text::of_option(None);
                        self.kind = 2;
                    }
                }
            }
            None => {
                self.source = Text::of_option(None);
                self.name = Text::of_option(view.get_name());
                self.kind = 1;
            }
        }
    }

    /// Writes what the token at this index of a map says.
    #[inline(always)]
    pub fn write(&mut self, index: usize, token: Token, map: &'c SourceMap<'static>)
        requires { slice_get map.now.tokens index ≡ Some token }
        ensures { IsSeen map.now (Some index) self.new }
    {
        self.index = index_or_none(Some(index));
        self.token = TokenNumbers::of(&token);
        self.write_texts(&SourceViewToken::new(token, map));
    }
}

/// The kind of a token by its source and its name: 1 without a source, 2 without a name, else 3.
#[inline(always)]
fn kind_by(source: Option<&[u8]>, name: Option<&[u8]>) -> u32
    ensures { result ≡ kind_by (lent_item source.entry) (lent_item name.entry) }
{
    match (source, name) {
        (None, _) => 1,
        (Some(_), None) => 2,
        (Some(_), Some(_)) => 3,
    }
}

/// The bytes of the source of a token of a compiled map.
#[inline(always)]
fn source_in<'c>(map: &'c CompiledMap<'static>, token: &Token) -> Option<&'c [u8]>
    ensures { lent_item result ≡ option_and_then
        (slice_get (compiled_in map.now).content.sources) token.now.source_id }
{
    map.source_bytes(token.get_source_id()?)
}

/// The bytes of the name of a token of a compiled map.
#[inline(always)]
fn name_in<'c>(map: &'c CompiledMap<'static>, token: &Token) -> Option<&'c [u8]>
    ensures { lent_item result ≡ name_of (compiled_in map.now).content.names token.now }
{
    map.name_bytes(token.get_name_id()?)
}

impl<'c> Original<'c> {
    /// Writes what the token at this index of a compiled map says.
    #[inline(always)]
    pub fn write_compiled(&mut self, index: usize, token: Token, map: &'c CompiledMap<'static>)
        ensures { IsShown (compiled_in map.now).content index token self.new }
    {
        let source = source_in(map, &token);
        let name = name_in(map, &token);
        *self = Original {
            kind: kind_by(source, name),
            index: index_or_none(Some(index)),
            token: TokenNumbers::of(&token),
            source: Text::of_bytes(source),
            name: Text::of_bytes(name),
        };
    }
}

/// A piece of a range of generated code, and the index of its token; 4294967295 stands for none.
#[repr(C)]
#[derive(Clone, Copy)]
pub struct PieceNumbers {
    pub begin: Position,
    pub end: Position,
    pub index: u32,
}

impl PieceNumbers {
    /// The numbers of a piece.
    pub fn of(piece: &Piece) -> PieceNumbers
        ensures { result ≡ piece_numbers piece.now }
    {
        PieceNumbers {
            begin: Position {
                line: piece.line,
                column: piece.col,
            },
            end: Position {
                line: piece.end_line,
                column: piece.end_col,
            },
            index: index_or_none(piece.index),
        }
    }
}
