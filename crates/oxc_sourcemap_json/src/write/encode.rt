//! Writing the parts of a map as a JSON source map.
ghost use Rattle.std.specs.Prelude.{◌≡◌, ◌≢◌, map, option_map, string_bytes, IfOk, IfErr, Ok, Some};
ghost use Rattle.std.specs.Prelude.{None, OnOk};
ghost use Rattle.std.specs.Cow.{cow_str_bytes};
ghost use Rattle.std.specs.List.{list_any};
ghost use Rattle.std.specs.Option.{is_some};
ghost use Rattle.oxc_sourcemap_json.specs.Words.{OutOfMemory, canonical, lent_chunks};
ghost use Rattle.oxc_sourcemap_json.specs.Words.{writing_fault, text_of, record_of_parts};
ghost use Rattle.oxc_sourcemap_json.specs.Words.{json_record, json_contents, encoded};
ghost use Rattle.oxc_sourcemap_json.specs.Words.{written_contents, Answers, texts_of, contents_of};

use crate::object::JSONSourceMap;
use oxc_sourcemap_mappings::encode_mappings;
use oxc_sourcemap_parts::{
    SourceMapParts, clone_ids, into_optional_strings, into_string, into_strings,
    to_optional_strings, to_string, to_strings,
};
use oxc_sourcemap_tokens::{Memory, Result, TokenChunk};
use std::alloc::Global;
use std::borrow::CowStr;

/// Whether a list has some known content.
pub(crate) fn has_content(contents: &[Option<CowStr<'_>>]) -> bool
    ensures { result ≡ list_any is_some (map (option_map cow_str_bytes) contents.now) }
{
    for content in contents {
        if content.is_some() {
            return true;
        }
    }
    false
}

/// Copies of contents; none if no content is known.
fn to_contents(
    alloc: Global,
    contents: &[Option<CowStr<'_>>],
) -> Memory<Option<Vec<Option<String>>>>
    ensures { IfOk result (λ strings. json_contents strings
        ≡ written_contents (map text_of contents.now)) }
{
    if !has_content(contents) {
        return Ok(None);
    }
    Ok(Some(to_optional_strings(alloc, contents)?))
}

/// The chunks of a map, borrowed.
pub(crate) fn chunks_of<'p>(parts: &'p SourceMapParts<'_>) -> Option<&'p [TokenChunk]>
    ensures { lent_chunks result ≡ (record_of_parts parts.now).token_chunks }
{
    match &parts.token_chunks {
        Some(chunks) => Some(chunks.as_slice()),
        None => None,
    }
}

/// The canonical text of the tokens of a map. Chunks change nothing but have to fit.
///
/// Fails as `encode_mappings` does for the tokens and chunks.
fn mappings_of(alloc: Global, parts: &SourceMapParts<'_>) -> Result<String>
    ensures text { let r = record_of_parts parts.now in
        IfOk result (λ text. string_bytes text ≡ canonical r.tokens) }
    ensures clean { let r = record_of_parts parts.now in
        OnOk result (writing_fault r.tokens r.token_chunks ≡ None) }
    ensures error { let r = record_of_parts parts.now in
        IfErr result (λ e. (e ≢ OutOfMemory) → writing_fault r.tokens r.token_chunks ≡ Some e) }
{
    let mut mappings = String::new(alloc);
    encode_mappings(parts.tokens.as_slice(), chunks_of(parts), &mut mappings)?;
    Ok(mappings)
}

/// The JSON source map of a map: copies of its fields, and its tokens in their canonical text. A list of contents that are
/// all unknown is left out; any other is written whole. Chunks change nothing but have to fit.
///
/// Fails as `encode_mappings` does for the tokens and chunks: with `LineOrder(i)`, `BadChunks(k)`, `TooLarge`, in this order;
/// and with `OutOfMemory` for want of memory.
pub fn encode_parts(alloc: Global, parts: &SourceMapParts<'_>) -> Result<JSONSourceMap>
    ensures { Answers json_record result (encoded (record_of_parts parts.now)) }
{
    let mappings = mappings_of(alloc, parts)?;
    Ok(JSONSourceMap {
        version: 3,
        file: to_string(alloc, &parts.file)?,
        mappings,
        source_root: to_string(alloc, &parts.source_root)?,
        sources: to_strings(alloc, parts.sources.as_slice())?,
        sources_content: to_contents(alloc, parts.source_contents.as_slice())?,
        names: to_strings(alloc, parts.names.as_slice())?,
        debug_id: to_string(alloc, &parts.debug_id)?,
        ignore_list: clone_ids(alloc, &parts.ignore_list)?,
    })
}

/// The strings of a JSON source map that stand alone.
#[derive(Drop)]
struct Single {
    file: Option<String>,
    source_root: Option<String>,
    debug_id: Option<String>,
}

/// The lists of strings of a JSON source map.
#[derive(Drop)]
struct StringLists {
    names: Vec<String>,
    sources: Vec<String>,
    contents: Option<Vec<Option<String>>>,
}

/// Owned strings of a map that stand alone, moved.
fn into_single(
    alloc: Global,
    file: Option<CowStr<'_>>,
    source_root: Option<CowStr<'_>>,
    debug_id: Option<CowStr<'_>>,
) -> Memory<Single>
    ensures file { IfOk result (λ single. option_map string_bytes single.file
        ≡ text_of file.entry) }
    ensures source_root { IfOk result (λ single. option_map string_bytes single.source_root
        ≡ text_of source_root.entry) }
    ensures debug_id { IfOk result (λ single. option_map string_bytes single.debug_id
        ≡ text_of debug_id.entry) }
{
    Ok(Single {
        file: into_string(alloc, file)?,
        source_root: into_string(alloc, source_root)?,
        debug_id: into_string(alloc, debug_id)?,
    })
}

/// Owned contents, moved, where there is some content among them.
fn into_contents(
    alloc: Global,
    contents: Vec<Option<CowStr<'_>>>,
) -> Memory<Option<Vec<Option<String>>>>
    ensures { IfOk result (λ strings. json_contents strings
        ≡ written_contents (contents_of contents.entry)) }
{
    if !has_content(contents.as_slice()) {
        return Ok(None);
    }
    Ok(Some(into_optional_strings(alloc, contents)?))
}

/// Owned lists of strings of a map, moved.
fn into_lists(
    alloc: Global,
    names: Vec<CowStr<'_>>,
    sources: Vec<CowStr<'_>>,
    contents: Vec<Option<CowStr<'_>>>,
) -> Memory<StringLists>
    ensures names { IfOk result (λ lists. map string_bytes lists.names.items
        ≡ texts_of names.entry) }
    ensures sources { IfOk result (λ lists. map string_bytes lists.sources.items
        ≡ texts_of sources.entry) }
    ensures contents { IfOk result (λ lists. json_contents lists.contents
        ≡ written_contents (contents_of contents.entry)) }
{
    Ok(StringLists {
        names: into_strings(alloc, names)?,
        sources: into_strings(alloc, sources)?,
        contents: into_contents(alloc, contents)?,
    })
}

/// The JSON source map of owned parts, as `encode_parts` makes it of borrowed ones; owned strings are moved. Fails as that does;
/// the parts are then dropped.
pub fn encode_owned_parts(alloc: Global, parts: SourceMapParts<'_>) -> Result<JSONSourceMap>
    ensures { Answers json_record result (encoded (record_of_parts parts.entry)) }
{
    let mappings = mappings_of(alloc, &parts)?;
    let single = into_single(alloc, parts.file, parts.source_root, parts.debug_id)?;
    let lists = into_lists(alloc, parts.names, parts.sources, parts.source_contents)?;
    Ok(JSONSourceMap {
        version: 3,
        file: single.file,
        mappings,
        source_root: single.source_root,
        sources: lists.sources,
        sources_content: lists.contents,
        names: lists.names,
        debug_id: single.debug_id,
        ignore_list: parts.ignore_list,
    })
}
