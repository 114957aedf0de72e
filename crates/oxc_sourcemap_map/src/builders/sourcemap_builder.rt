//! Building a map call by call.
ghost use Rattle.std.specs.Prelude.{◌≡◌, ◌↔◌, ◌≤◌, ◌<◌, ◌++◌, ◌∷◌, [], length, Some, None, IfOk};
ghost use Rattle.std.specs.Prelude.{IfErr, IsErrOf, OnOk, OnErr};
ghost use Rattle.std.specs.Cow.{cow_str_bytes};
ghost use Rattle.oxc_sourcemap_map.specs.Words.{TooLarge, kept_id, texts_of, contents_of, index_of};
ghost use Rattle.oxc_sourcemap_map.specs.Words.{nothing_built, with_name, with_name_at};
ghost use Rattle.oxc_sourcemap_map.specs.Words.{with_another_source, with_path, with_path_at};
ghost use Rattle.oxc_sourcemap_map.specs.Words.{with_bare_path, OnlyMemory, text_of};
ghost use Rattle.oxc_sourcemap_map.specs.Words.{record_of_parts, HasNoIdForName, HasNoIdForPath};
ghost use Rattle.oxc_sourcemap_map.specs.Words.{HasNoIdForSource, GivesId};

use crate::maps::{OwnedSourceMap, SourceMap};
use oxc_sourcemap_parts::{SourceMapParts, owned_text};
use oxc_sourcemap_tokens::{Error, Memory, Result, Token, TokenChunk};
use std::alloc::Global;
use std::borrow::CowStr;
use std::collections::HashMap;
use std::marker::Model;

/// Builds a map call by call. Strings are borrowed for `'a`, except those given to the calls that end in `_copied`: of these
/// the builder keeps copies. A builder whose strings are all copied is a `SourceMapBuilder<'static>`.
///
/// ```rust
/// use oxc_sourcemap::SourceMapBuilder;
///
/// let mut builder = SourceMapBuilder::empty(alloc);
/// let source = builder.add_source_and_content("a.js", "let x;")?;
/// let name = builder.add_name("x")?;
/// builder.add_token(0, 4, 0, 4, Some(source), Some(name))?;
/// let map = builder.into_sourcemap()?;
/// let text = r#"{"version":3,"names":["x"],"sources":["a.js"],"sourcesContent":["let x;"],"mappings":"IAAIA"}"#;
/// assert_eq!(rt; map.to_json_string(alloc)?.as_str(), text);
/// ```
///
/// Ids are counted from 0, in the order in which names and sources come. Lines and columns count from 0; columns are in
/// UTF-16 code units. An add that fails leaves the builder unchanged, and an `into_` call that fails drops it.
#[derive(Drop)]
pub struct SourceMapBuilder<'a> {
    alloc: Global,
    file: Option<CowStr<'a>>,
    names: Vec<CowStr<'a>>,
    /// The index of each name.
    name_ids: HashMap<CowStr<'a>, u32>,
    sources: Vec<CowStr<'a>>,
    source_contents: Vec<Option<CowStr<'a>>>,
    tokens: Vec<Token>,
    token_chunks: Option<Vec<TokenChunk>>,
    /// The ids that `add_source_and_content` has given to paths.
    given: HashMap<CowStr<'a>, u32>,
}

impl<'a> Model for SourceMapBuilder<'a> {
    ghost use Rattle.std.specs.Prelude.{map, None, length, ◌≤◌};
    ghost use Rattle.std.specs.Cow.{cow_str_bytes};
    ghost use Rattle.std.specs.Coded.{codes};
    ghost use Rattle.std.specs.FinMap as fin;
    ghost use Rattle.oxc_sourcemap_parts.specs.Views.{text_of, texts_of, contents_of, chunks_of};
    ghost use Rattle.oxc_sourcemap_map.specs.Built.{Built, ids_code, HasIndices};

    ghost Value = { Built };

    ghost coded = { Prim.hlevel (codes, ids_code) };

    ghost view = { λ b. record {
      map = record {
        file = text_of b.file;
        names = texts_of b.names;
        source_root = None;
        sources = texts_of b.sources;
        source_contents = contents_of b.source_contents;
        tokens = b.tokens.items;
        token_chunks = chunks_of b.token_chunks;
        ignore_list = None;
        debug_id = None;
      };
      given = fin.from_entries (map (λ entry. (cow_str_bytes entry.0, entry.1)) b.given.entries);
    } };

    // So the index of a name fits in a `u32`, and `name_ids` has it.
    ghost invariant = { λ b. (length b.names.items ≤ 4294967295) × HasIndices b.names b.name_ids };
}

/// The id of a new last item after this many others.
fn next_id(count: usize) -> Result<u32>
    ensures id { IfOk result (λ id. id ≡ count) }
    ensures too_large { IsErrOf result TooLarge ↔ (4294967295 ≤ count) }
    ensures error { IfErr result (λ e. e ≡ TooLarge) }
{
    if count >= 4294967295 {
        return Err(Error::TooLarge);
    }
    Ok(count as u32)
}

/// Adds a path and a content, None if it is not known, or neither for want of memory.
fn push_source<'a>(
    sources: &mut Vec<CowStr<'a>>,
    contents: &mut Vec<Option<CowStr<'a>>>,
    path: CowStr<'a>,
    content: Option<CowStr<'a>>,
) -> Memory<()>
    ensures sources { OnOk result (texts_of sources.new ≡ texts_of sources.old
        ++ cow_str_bytes path.entry ∷ []) }
    ensures contents { OnOk result (contents_of contents.new ≡ contents_of contents.old
        ++ text_of content.entry ∷ []) }
    ensures unchanged { OnErr result ((sources.new.items ≡ sources.old.items)
        × (contents.new.items ≡ contents.old.items)) }
{
    sources.reserve(1)?;
    contents.reserve(1)?;
    let pushed: std::result::Result<_, _> = sources.push(path);
    pushed.unwrap();
    let pushed: std::result::Result<_, _> = contents.push(content);
    pushed.unwrap();
    Ok(())
}

impl<'a> SourceMapBuilder<'a> {
    /// A builder with nothing in it. It keeps the allocator, and takes no memory.
    pub fn empty(alloc: Global) -> SourceMapBuilder<'a>
        ensures { result ≡ nothing_built }
    {
        SourceMapBuilder {
            alloc,
            file: None,
            names: Vec::new(alloc),
            name_ids: HashMap::new(alloc),
            sources: Vec::new(alloc),
            source_contents: Vec::new(alloc),
            tokens: Vec::new(alloc),
            token_chunks: None,
            given: HashMap::new(alloc),
        }
    }

    /// Adds a name and returns its id. A name that was added before keeps its id.
    ///
    /// Fails with `TooLarge` if the new id would be 4294967295, then with `OutOfMemory` for want of memory; the builder
    /// is then as it was.
    pub fn add_name(&mut self, name: &'a str) -> Result<u32>
        ensures { GivesId result self.old self.new (with_name self.old name.now)
            (HasNoIdForName self.old name.now) }
    {
        if let Some(id) = self.name_ids.get(name) {
            return Ok(*id);
        }
        let id = next_id(self.names.len())?;
        self.push_name(CowStr::Borrowed(name), CowStr::Borrowed(name), id)?;
        Ok(id)
    }

    /// As `add_name`, but a new name is copied.
    pub fn add_name_copied(&mut self, name: &str) -> Result<u32>
        ensures { GivesId result self.old self.new (with_name self.old name.now)
            (HasNoIdForName self.old name.now) }
    {
        if let Some(known) = self.name_ids.get(name) {
            return Ok(*known);
        }
        let id = next_id(self.names.len())?;
        let key = owned_text(self.alloc, name)?;
        let copy = owned_text(self.alloc, name)?;
        self.push_name(key, copy, id)?;
        Ok(id)
    }

    /// Adds a new name and the same string as its key, or neither for want of memory.
    fn push_name(&mut self, key: CowStr<'a>, name: CowStr<'a>, id: u32) -> Memory<()>
        requires same { cow_str_bytes key ≡ cow_str_bytes name }
        requires new { index_of (cow_str_bytes name) self.old.map.names ≡ None }
        requires id { (id ≡ length self.old.map.names) × (id < 4294967295) }
        ensures added { OnOk result (self.new ≡
            (with_name_at self.old (cow_str_bytes name.entry) None).0) }
        ensures unchanged { OnErr result (self.new ≡ self.old) }
    {
        self.names.reserve(1)?;
        self.name_ids.reserve(1)?;
        let inserted: std::result::Result<_, _> = self.name_ids.insert(key, id);
        let _none = inserted.unwrap();
        let pushed: std::result::Result<_, _> = self.names.push(name);
        pushed.unwrap();
        Ok(())
    }

    /// Adds a source with its content and returns its id. A path that this call has added before keeps its id and its first
    /// content; sources added by `set_source_and_content` are ignored.
    ///
    /// Fails with `TooLarge` if the new id would be 4294967295, then with `OutOfMemory` for want of memory; the builder
    /// is then as it was.
    pub fn add_source_and_content(&mut self, path: &'a str, content: &'a str) -> Result<u32>
        ensures { GivesId result self.old self.new (with_path self.old path.now content.now)
            (HasNoIdForPath self.old path.now) }
    {
        if let Some(id) = self.given.get(path) {
            return Ok(*id);
        }
        let id = next_id(self.sources.len())?;
        self.push_given(
            CowStr::Borrowed(path),
            CowStr::Borrowed(path),
            Some(CowStr::Borrowed(content)),
            id,
        )?;
        Ok(id)
    }

    /// As `add_source_and_content`, but a new path and its content are copied.
    pub fn add_source_and_content_copied(&mut self, path: &str, content: &str) -> Result<u32>
        ensures { GivesId result self.old self.new (with_path self.old path.now content.now)
            (HasNoIdForPath self.old path.now) }
    {
        if let Some(known) = self.given.get(path) {
            return Ok(*known);
        }
        let id = next_id(self.sources.len())?;
        let key = owned_text(self.alloc, path)?;
        let listed = owned_text(self.alloc, path)?;
        let text = owned_text(self.alloc, content)?;
        self.push_given(key, listed, Some(text), id)?;
        Ok(id)
    }

    /// Adds a source without a content and returns its id: `sourcesContent` has null for it. A path that was added before, here
    /// or with a content, keeps its id and its first content.
    ///
    /// ```rust
    /// use oxc_sourcemap::SourceMapBuilder;
    ///
    /// let mut builder = SourceMapBuilder::empty(alloc);
    /// assert_eq!(rt; builder.add_source("a.js"), Ok(0));
    /// assert_eq!(rt; builder.add_source_and_content("b.js", "B"), Ok(1));
    /// let map = builder.into_sourcemap()?;
    /// let text = r#"{"version":3,"names":[],"sources":["a.js","b.js"],"sourcesContent":[null,"B"],"mappings":""}"#;
    /// assert_eq!(rt; map.to_json_string(alloc)?.as_str(), text);
    /// ```
    ///
    /// Fails with `TooLarge` if the new id would be 4294967295, then with `OutOfMemory` for want of memory; the builder
    /// is then as it was.
    pub fn add_source(&mut self, path: &'a str) -> Result<u32>
        ensures { GivesId result self.old self.new (with_bare_path self.old path.now)
            (HasNoIdForPath self.old path.now) }
    {
        if let Some(found) = self.given.get(path) {
            return Ok(*found);
        }
        let id = next_id(self.sources.len())?;
        self.push_given(CowStr::Borrowed(path), CowStr::Borrowed(path), None, id)?;
        Ok(id)
    }

    /// As `add_source`, but a new path is copied.
    pub fn add_source_copied(&mut self, path: &str) -> Result<u32>
        ensures { GivesId result self.old self.new (with_bare_path self.old path.now)
            (HasNoIdForPath self.old path.now) }
    {
        if let Some(given) = self.given.get(path) {
            return Ok(*given);
        }
        let id = next_id(self.sources.len())?;
        let key = owned_text(self.alloc, path)?;
        let kept = owned_text(self.alloc, path)?;
        self.push_given(key, kept, None, id)?;
        Ok(id)
    }

    /// Adds a source and its content, if it is known, and gives the id to its path, or does nothing for want of memory.
    fn push_given(
        &mut self,
        key: CowStr<'a>,
        path: CowStr<'a>,
        content: Option<CowStr<'a>>,
        id: u32,
    ) -> Memory<()>
        requires same { cow_str_bytes key ≡ cow_str_bytes path }
        requires id { id ≡ length self.old.map.sources }
        ensures added { OnOk result (self.new ≡
            (with_path_at self.old (cow_str_bytes path.entry)
            (text_of content.entry) None).0) }
        ensures unchanged { OnErr result (self.new ≡ self.old) }
    {
        self.given.reserve(1)?;
        push_source(&mut self.sources, &mut self.source_contents, path, content)?;
        let inserted: std::result::Result<_, _> = self.given.insert(key, id);
        let _none = inserted.unwrap();
        Ok(())
    }

    /// Appends a source with its content, even if there is one of this path, and returns the new id. It replaces nothing,
    /// and `add_source_and_content` does not find it.
    ///
    /// Fails with `TooLarge` if the new id would be 4294967295, then with `OutOfMemory` for want of memory; the builder
    /// is then as it was.
    pub fn set_source_and_content(&mut self, path: &'a str, content: &'a str) -> Result<u32>
        ensures { GivesId result self.old self.new
            (with_another_source self.old path.now content.now) (HasNoIdForSource self.old) }
    {
        let last = next_id(self.sources.len())?;
        push_source(
            &mut self.sources,
            &mut self.source_contents,
            CowStr::Borrowed(path),
            Some(CowStr::Borrowed(content)),
        )?;
        Ok(last)
    }

    /// As `set_source_and_content`, but the path and the content are copied.
    pub fn set_source_and_content_copied(&mut self, path: &str, content: &str) -> Result<u32>
        ensures { GivesId result self.old self.new
            (with_another_source self.old path.now content.now) (HasNoIdForSource self.old) }
    {
        let new_id = next_id(self.sources.len())?;
        let path = owned_text(self.alloc, path)?;
        let content = owned_text(self.alloc, content)?;
        push_source(
            &mut self.sources,
            &mut self.source_contents,
            path,
            Some(content),
        )?;
        Ok(new_id)
    }

    /// Appends a token, as `Token::new` makes it: unmapped if `src_id` is None, without a name if `name_id` is None. Nothing
    /// is checked, not even ids. Add tokens in the order of their generated positions, since writing a map whose lines
    /// decrease fails with `LineOrder`, and lookups expect sorted columns.
    ///
    /// Fails only with `OutOfMemory`; the builder is then as it was.
    pub fn add_token(
        &mut self,
        dst_line: u32,
        dst_col: u32,
        src_line: u32,
        src_col: u32,
        src_id: Option<u32>,
        name_id: Option<u32>,
    ) -> Result<()>
        ensures added { OnOk result (self.new ≡ record self.old {
          map = record self.old.map {
            tokens = self.old.map.tokens ++ record {
              dst_line = dst_line;
              dst_col = dst_col;
              src_line = src_line;
              src_col = src_col;
              source_id = kept_id src_id;
              name_id = kept_id name_id;
            } ∷ [];
          };
        }) }
        ensures error { OnlyMemory result }
        ensures unchanged { OnErr result (self.new ≡ self.old) }
    {
        self.tokens.push(Token::new(dst_line, dst_col, src_line, src_col, src_id, name_id))?;
        Ok(())
    }

    /// Appends tokens, all of them or none. As with `add_token`, nothing is checked.
    ///
    /// ```rust
    /// use oxc_sourcemap::{SourceMapBuilder, Token};
    ///
    /// let mut builder = SourceMapBuilder::empty(alloc);
    /// let source = builder.add_source("a.js")?;
    /// builder.add_tokens(&[Token::new(0, 0, 0, 0, Some(source), None), Token::new(0, 4, 0, 0, None, None)])?;
    /// assert_eq!(rt; builder.into_sourcemap()?.to_json(alloc)?.mappings.as_str(), "AAAA,I");
    /// ```
    ///
    /// Fails only with `OutOfMemory`; the builder is then as it was.
    pub fn add_tokens(&mut self, tokens: &[Token]) -> Result<()>
        ensures added { OnOk result (self.new ≡ record self.old {
          map = record self.old.map { tokens = self.old.map.tokens ++ tokens.now };
        }) }
        ensures error { OnlyMemory result }
        ensures unchanged { OnErr result (self.new ≡ self.old) }
    {
        self.tokens.extend_from_slice(tokens)?;
        Ok(())
    }

    /// The tokens that were added, in order.
    pub fn get_tokens(&self) -> &[Token]
        ensures { result.now ≡ self.now.map.tokens }
    {
        self.tokens.as_slice()
    }

    /// Sets the name of the generated file. Cannot fail.
    pub fn set_file(&mut self, file: &'a str)
        ensures { self.new
            ≡ record self.old { map = record self.old.map { file = Some file.now } } }
    {
        self.file = Some(CowStr::Borrowed(file));
    }

    /// Sets the name of the generated file to a copy of this one. Fails only with `OutOfMemory`; the builder is then as it
    /// was.
    pub fn set_file_copied(&mut self, file: &str) -> Result<()>
        ensures set { OnOk result
            (self.new ≡ record self.old { map = record self.old.map { file = Some file.now } }) }
        ensures error { OnlyMemory result }
        ensures unchanged { OnErr result (self.new ≡ self.old) }
    {
        self.file = Some(owned_text(self.alloc, file)?);
        Ok(())
    }

    /// Sets the chunks in which the tokens are written. Nothing is checked, and it cannot fail.
    pub fn set_token_chunks(&mut self, token_chunks: Vec<TokenChunk>)
        ensures { self.new ≡ record self.old {
          map = record self.old.map { token_chunks = Some token_chunks.items };
        } }
    {
        self.token_chunks = Some(token_chunks);
    }

    /// The parts of the map that was built, without source root, ignore list and debug id. Its strings are those of the builder,
    /// borrowed or owned. Takes no memory, and cannot fail.
    pub fn into_parts(self) -> SourceMapParts<'a>
        ensures { record_of_parts result ≡ self.entry.map }
    {
        SourceMapParts {
            file: self.file,
            names: self.names,
            source_root: None,
            sources: self.sources,
            source_contents: self.source_contents,
            tokens: self.tokens.into_boxed_slice(),
            token_chunks: self.token_chunks,
            ignore_list: None,
            debug_id: None,
        }
    }

    /// The map that was built, without source root, ignore list and debug id. Its strings are those of the builder, borrowed
    /// or owned. Takes no memory.
    pub fn into_sourcemap(self) -> Result<SourceMap<'a>>
        ensures map { IfOk result (λ map. map ≡ self.entry.map) }
        ensures nothing_else { IfOk result (λ map. (map.source_root ≡ None)
            × (map.ignore_list ≡ None) × (map.debug_id ≡ None)) }
        ensures error { OnlyMemory result }
    {
        Ok(SourceMap::from_parts(self.into_parts()))
    }

    /// The map that was built, as `into_sourcemap` gives it, with copies of its borrowed strings. Fails only with
    /// `OutOfMemory`; the builder is then dropped.
    pub fn into_owned_sourcemap(self) -> Result<OwnedSourceMap>
        ensures map { IfOk result (λ map. map ≡ self.entry.map) }
        ensures nothing_else { IfOk result (λ map. (map.source_root ≡ None)
            × (map.ignore_list ≡ None) × (map.debug_id ≡ None)) }
        ensures error { OnlyMemory result }
    {
        let alloc = self.alloc;
        self.into_sourcemap()?.into_owned_sourcemap(alloc)
    }
}
