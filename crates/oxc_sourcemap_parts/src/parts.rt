//! The parts of a map: its nine fields.
ghost use Rattle.std.specs.Prelude.{◌≡◌, IfOk};
ghost use Rattle.oxc_sourcemap_parts.specs.Words.{text_of, texts_of, contents_of, record_of_parts};
ghost use Rattle.oxc_sourcemap_parts.specs.Words.{empty_record, OnlyMemory};

use crate::strings::{
    clone_chunks, clone_contents, clone_ids, clone_text, clone_texts, into_owned_contents,
    into_owned_text, into_owned_texts,
};
use oxc_sourcemap_tokens::{Memory, Result, Token, TokenChunk};
use std::alloc::Global;
use std::borrow::CowStr;
use std::boxed::BoxedSlice;

/// The nine fields of a map, for taking it apart and putting it together.
///
/// ```rust
/// use oxc_sourcemap::{SourceMap, SourceMapParts, Token};
///
/// let mut parts = SourceMapParts::empty(alloc)?;
/// parts.tokens = vec![in alloc; Token::new(0, 1, 0, 0, None, None)]?.into_boxed_slice();
/// let map = SourceMap::from_parts(parts);
/// assert_eq!(rt; map.to_json(alloc)?.mappings.as_str(), "C");
/// ```
#[derive(Drop)]
pub struct SourceMapParts<'a> {
    // (What joins read comes first, so that it lies in few lines of the cache.)
    /// The tokens.
    pub tokens: BoxedSlice<Token>,
    /// The names that tokens refer to by their index.
    pub names: Vec<CowStr<'a>>,
    /// The sources that tokens refer to by their index.
    pub sources: Vec<CowStr<'a>>,
    /// The content of each source, None where it is not known. There may be fewer or more than there are sources.
    pub source_contents: Vec<Option<CowStr<'a>>>,
    /// The indices of sources that debuggers may ignore, as third-party code.
    pub ignore_list: Option<Vec<u32>>,
    /// The name of the generated file.
    pub file: Option<CowStr<'a>>,
    /// The prefix of every source, for whoever resolves them; sources are kept without it.
    pub source_root: Option<CowStr<'a>>,
    /// The chunks in which the tokens are written, if any.
    pub token_chunks: Option<Vec<TokenChunk>>,
    /// An id that ties this map to its generated code.
    pub debug_id: Option<CowStr<'a>>,
}

impl<'a> SourceMapParts<'a> {
    /// The parts of a map with nothing in it. Fails only with `OutOfMemory`.
    pub fn empty(alloc: Global) -> Result<SourceMapParts<'a>>
        ensures parts { IfOk result (λ parts. record_of_parts parts ≡ empty_record) }
        ensures error { OnlyMemory result }
    {
        Ok(SourceMapParts {
            file: None,
            names: Vec::new(alloc),
            source_root: None,
            sources: Vec::new(alloc),
            source_contents: Vec::new(alloc),
            tokens: Vec::new(alloc).into_boxed_slice(),
            token_chunks: None,
            ignore_list: None,
            debug_id: None,
        })
    }

    /// Parts equal to these. A borrowed string stays borrowed. Fails only with `OutOfMemory`.
    pub fn clone(&self, alloc: Global) -> Result<SourceMapParts<'a>>
        ensures parts { IfOk result (λ parts. record_of_parts parts ≡ record_of_parts self.now) }
        ensures error { OnlyMemory result }
    {
        let tokens = self.tokens.as_slice().to_vec(alloc)?;
        let token_chunks = clone_chunks(alloc, &self.token_chunks)?;
        let ignore_list = clone_ids(alloc, &self.ignore_list)?;
        let texts = clone_single(self)?;
        let lists = clone_lists(alloc, self)?;
        Ok(SourceMapParts {
            file: texts.file,
            names: lists.names,
            source_root: texts.source_root,
            sources: lists.sources,
            source_contents: lists.contents,
            tokens: tokens.into_boxed_slice(),
            token_chunks,
            ignore_list,
            debug_id: texts.debug_id,
        })
    }
}

/// The strings of a map that are in no list.
#[derive(Drop)]
struct Single<'a> {
    file: Option<CowStr<'a>>,
    source_root: Option<CowStr<'a>>,
    debug_id: Option<CowStr<'a>>,
}

/// The lists of strings of a map.
#[derive(Drop)]
struct TextLists<'a> {
    names: Vec<CowStr<'a>>,
    sources: Vec<CowStr<'a>>,
    contents: Vec<Option<CowStr<'a>>>,
}

/// Clones of the file, source root and debug id of these parts.
fn clone_single<'a>(parts: &SourceMapParts<'a>) -> Memory<Single<'a>>
    ensures file { IfOk result (λ texts. text_of texts.file ≡ text_of parts.now.file) }
    ensures source_root { IfOk result (λ texts. text_of texts.source_root
        ≡ text_of parts.now.source_root) }
    ensures debug_id { IfOk result (λ texts. text_of texts.debug_id ≡ text_of parts.now.debug_id) }
{
    Ok(Single {
        file: clone_text(&parts.file)?,
        source_root: clone_text(&parts.source_root)?,
        debug_id: clone_text(&parts.debug_id)?,
    })
}

/// Clones of the lists of strings of these parts.
fn clone_lists<'a>(alloc: Global, parts: &SourceMapParts<'a>) -> Memory<TextLists<'a>>
    ensures names { IfOk result (λ lists. texts_of lists.names ≡ texts_of parts.now.names) }
    ensures sources { IfOk result (λ lists. texts_of lists.sources ≡ texts_of parts.now.sources) }
    ensures contents { IfOk result (λ lists. contents_of lists.contents
        ≡ contents_of parts.now.source_contents) }
{
    Ok(TextLists {
        names: clone_texts(alloc, parts.names.as_slice())?,
        sources: clone_texts(alloc, parts.sources.as_slice())?,
        contents: clone_contents(alloc, parts.source_contents.as_slice())?,
    })
}

/// File, source root and debug id, made to borrow nothing.
fn into_owned_single(alloc: Global, texts: Single<'_>) -> Memory<Single<'static>>
    ensures file { IfOk result (λ owned. text_of owned.file ≡ text_of texts.entry.file) }
    ensures source_root { IfOk result (λ owned. text_of owned.source_root
        ≡ text_of texts.entry.source_root) }
    ensures debug_id { IfOk result (λ owned. text_of owned.debug_id
        ≡ text_of texts.entry.debug_id) }
{
    Ok(Single {
        file: into_owned_text(alloc, texts.file)?,
        source_root: into_owned_text(alloc, texts.source_root)?,
        debug_id: into_owned_text(alloc, texts.debug_id)?,
    })
}

/// Names, sources and contents, made to borrow nothing.
fn into_owned_lists(alloc: Global, lists: TextLists<'_>) -> Memory<TextLists<'static>>
    ensures names { IfOk result (λ owned. texts_of owned.names ≡ texts_of lists.entry.names) }
    ensures sources { IfOk result (λ owned. texts_of owned.sources ≡ texts_of lists.entry.sources) }
    ensures contents { IfOk result (λ owned. contents_of owned.contents
        ≡ contents_of lists.entry.contents) }
{
    Ok(TextLists {
        names: into_owned_texts(alloc, lists.names)?,
        sources: into_owned_texts(alloc, lists.sources)?,
        contents: into_owned_contents(alloc, lists.contents)?,
    })
}

/// Parts equal to these that borrow nothing: owned strings are moved, borrowed ones copied. Fails only with `OutOfMemory`;
/// the parts are then dropped.
pub fn owned_parts(alloc: Global, parts: SourceMapParts<'_>) -> Result<SourceMapParts<'static>>
    ensures parts { IfOk result (λ owned. record_of_parts owned ≡ record_of_parts parts.entry) }
    ensures error { OnlyMemory result }
{
    let texts = Single {
        file: parts.file,
        source_root: parts.source_root,
        debug_id: parts.debug_id,
    };
    let lists = TextLists {
        names: parts.names,
        sources: parts.sources,
        contents: parts.source_contents,
    };
    let texts = into_owned_single(alloc, texts)?;
    let lists = into_owned_lists(alloc, lists)?;
    Ok(SourceMapParts {
        file: texts.file,
        names: lists.names,
        source_root: texts.source_root,
        sources: lists.sources,
        source_contents: lists.contents,
        tokens: parts.tokens,
        token_chunks: parts.token_chunks,
        ignore_list: parts.ignore_list,
        debug_id: texts.debug_id,
    })
}
