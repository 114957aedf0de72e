//! A token together with its map. (The Rust crate has it in the module `token`.)
ghost use Rattle.std.specs.Prelude.{◌≡◌, option_map, MatchOption, Some, None};
ghost use Rattle.oxc_sourcemap_map.specs.Words.{view_of, seen_in, view_name, view_source};
ghost use Rattle.oxc_sourcemap_map.specs.Words.{view_content, view_source_and_content};
ghost use Rattle.oxc_sourcemap_map.specs.Words.{view_original, lent_item};

use crate::maps::sourcemap::SourceMap;
use oxc_sourcemap_tokens::Token;

/// A token, and the map that its ids are looked up in. Strings that it returns borrow from the map, for `'sm`; `'data` is
/// the lifetime of what the map itself borrows.
///
/// ```rust
/// use oxc_sourcemap::{SourceMap, SourceViewToken, Token};
///
/// let text = r#"{"version":3,"sources":["a.js"],"names":["x"],"mappings":"AAAA,IAAIA"}"#;
/// let map = SourceMap::from_json_string(alloc, text)?;
/// let view = SourceViewToken::new(Token::new(0, 4, 0, 4, Some(0), Some(0)), &map);
/// assert_eq!(rt; view.get_source(), Some("a.js"));
/// assert_eq!(rt; view.get_name(), Some("x"));
/// assert_eq!(rt; view.get_source_content(), None);
/// ```
///
/// An id that is missing or out of range names nothing, except that a content may be listed past the last source. Lines and
/// columns count from 0; columns are in UTF-16 code units. No call takes memory.
#[derive(Clone, Copy)]
pub struct SourceViewToken<'sm, 'data> {
    token: Token,
    sourcemap: &'sm SourceMap<'data>,
}

impl<'sm, 'data> SourceViewToken<'sm, 'data> {
    /// A view of a token in a map. Nothing is checked: it may be a token of another map.
    pub fn new(token: Token, sourcemap: &'sm SourceMap<'data>) -> SourceViewToken<'sm, 'data>
        ensures { view_of result ≡ seen_in sourcemap.now token }
    {
        SourceViewToken { token, sourcemap }
    }

    /// The generated line.
    pub fn get_dst_line(&self) -> u32
        ensures { result ≡ (view_of self.now).token.dst_line }
    {
        self.token.get_dst_line()
    }

    /// The generated column.
    pub fn get_dst_col(&self) -> u32
        ensures { result ≡ (view_of self.now).token.dst_col }
    {
        self.token.get_dst_col()
    }

    /// The source line.
    pub fn get_src_line(&self) -> u32
        ensures { result ≡ (view_of self.now).token.src_line }
    {
        self.token.get_src_line()
    }

    /// The source column.
    pub fn get_src_col(&self) -> u32
        ensures { result ≡ (view_of self.now).token.src_col }
    {
        self.token.get_src_col()
    }

    /// The name id, in range or not. None if the token has no name.
    pub fn get_name_id(&self) -> Option<u32>
        ensures { result ≡ (view_of self.now).token.name_id }
    {
        self.token.get_name_id()
    }

    /// The source id, in range or not. None if the token is unmapped.
    pub fn get_source_id(&self) -> Option<u32>
        ensures { result ≡ (view_of self.now).token.source_id }
    {
        self.token.get_source_id()
    }

    /// The name. None if the token has no name id, or the map no such name.
    #[inline(always)]
    pub fn get_name(&self) -> Option<&'sm str>
        ensures { lent_item result ≡ view_name (view_of self.now) }
    {
        let sourcemap = self.sourcemap;
        sourcemap.get_name(self.get_name_id()?)
    }

    /// The source. None if the token has no source id, or the map no such source.
    #[inline(always)]
    pub fn get_source(&self) -> Option<&'sm str>
        ensures { lent_item result ≡ view_source (view_of self.now) }
    {
        let sourcemap = self.sourcemap;
        sourcemap.get_source(self.get_source_id()?)
    }

    /// The content that the map lists at the token's source id, also past the last source. None if the token has no source
    /// id, or the map lists no content there.
    pub fn get_source_content(&self) -> Option<&'sm str>
        ensures { lent_item result ≡ view_content (view_of self.now) }
    {
        let sourcemap = self.sourcemap;
        sourcemap.get_source_content(self.get_source_id()?)
    }

    /// The source and its content. None unless both exist.
    pub fn get_source_and_content(&self) -> Option<(&'sm str, &'sm str)>
        ensures { option_map (λ texts. (texts.0.now, texts.1.now)) result
            ≡ view_source_and_content (view_of self.now) }
    {
        let sourcemap = self.sourcemap;
        sourcemap.get_source_and_content(self.get_source_id()?)
    }

    /// The source, the source line, the source column and the name.
    #[inline(always)]
    pub fn to_tuple(&self) -> (Option<&'sm str>, u32, u32, Option<&'sm str>)
        ensures source { lent_item result.0 ≡ view_source (view_of self.now) }
        ensures line { result.1 ≡ (view_of self.now).token.src_line }
        ensures column { result.2 ≡ (view_of self.now).token.src_col }
        ensures name { lent_item result.3 ≡ view_name (view_of self.now) }

        // The tuple, in the words of decoded maps: what the token points to, and no source if it points to nothing.
        ensures original { MatchOption (view_original (view_of self.now))
            (lent_item result.0 ≡ None) (λ original.
            (lent_item result.0 ≡ Some original.source.path) × (result.1 ≡ original.src_line)
            × (result.2 ≡ original.src_col)
            × (lent_item result.3 ≡ original.name)) }
    {
        (
            self.get_source(),
            self.get_src_line(),
            self.get_src_col(),
            self.get_name(),
        )
    }
}
