//! Reading the parts of a map from a JSON source map.
ghost use Rattle.std.specs.Prelude.{◌≡◌, map, string_bytes, option_map, IfOk, None, length, nat_le};
ghost use Rattle.std.specs.Prelude.{position, IfSome, is_some, true};
ghost use Rattle.std.specs.Option.{option_map_or, option_and_then};
ghost use Rattle.oxc_sourcemap_json.specs.Words.{Error, texts_of, contents_of, record_of_parts};
ghost use Rattle.oxc_sourcemap_json.specs.Words.{json_record, json_contents, decoded, json_fault};
ghost use Rattle.oxc_sourcemap_json.specs.Words.{first_not_below, Answers, Reports, Reads};
ghost use Rattle.oxc_sourcemap_json.specs.Words.{BadSourceReference, usual_record, json_ids};
ghost use Rattle.oxc_sourcemap_json.specs.Words.{Locates, Refuses, fields_spot, place_at, Entry};

use crate::object::{JSONSourceMap, UsualMap};
use oxc_sourcemap_mappings::read_mappings;
use oxc_sourcemap_parts::{SourceMapParts, from_optional_strings, from_string, from_strings};
use oxc_sourcemap_tokens::{Error, Fault, FaultSpot, Field, JsonFault, Located, Memory, Result};
use std::alloc::Global;
use std::borrow::CowStr;

/// The index of the first id that is not below a count.
fn first_past(count: usize, ids: &[u32]) -> Option<usize>
    ensures { result ≡ position (λ id. nat_le count id) ids.now }
{
    ids.iter().position(|id| *id as usize >= count)
}

/// The contents of a JSON source map as those of a map.
fn from_contents(
    alloc: Global,
    contents: Option<Vec<Option<String>>>,
) -> Memory<Option<Vec<Option<CowStr<'static>>>>>
    ensures { IfOk result (λ list. option_map contents_of list ≡ json_contents contents) }
{
    match contents {
        Some(contents) => Ok(Some(from_optional_strings(alloc, contents)?)),
        None => Ok(None),
    }
}

/// The lists of strings of a map.
#[derive(Drop)]
struct TextLists {
    names: Vec<CowStr<'static>>,
    sources: Vec<CowStr<'static>>,
    contents: Option<Vec<Option<CowStr<'static>>>>,
}

/// The lists of strings of a JSON source map as those of a map.
fn from_lists(
    alloc: Global,
    names: Vec<String>,
    sources: Vec<String>,
    contents: Option<Vec<Option<String>>>,
) -> Memory<TextLists>
    ensures names { IfOk result (λ lists. texts_of lists.names ≡ map string_bytes names.items) }
    ensures sources { IfOk result (λ lists. texts_of lists.sources
        ≡ map string_bytes sources.items) }
    ensures contents { IfOk result (λ lists.
        option_map contents_of lists.contents ≡ json_contents contents) }
{
    Ok(TextLists {
        names: from_strings(alloc, names)?,
        sources: from_strings(alloc, sources)?,
        contents: from_contents(alloc, contents)?,
    })
}

/// The fault of an ignore list, which is this member, for so many sources: the first entry that is not below their number.
fn list_fault(ignored: Field, list: &Option<Vec<u32>>, sources: usize) -> Option<Fault>
    ensures error { option_map (λ f. f.error) result ≡ option_map BadSourceReference
        (option_map_or (first_not_below sources) (json_ids list.now) None) }
    ensures place { option_and_then (λ f. f.place) result ≡ option_map (λ i. place_at
        (Entry ignored i)) (option_and_then (position (λ id. nat_le sources id))
        (json_ids list.now)) }
    ensures told { IfSome result (λ f. is_some f.place ≡ true) }
{
    let ids = list.as_ref()?.as_slice();
    let index = first_past(sources, ids)?;
    let error = Error::BadSourceReference(ids[index]);
    Some(Fault::at(error, FaultSpot::Entry(ignored, index)))
}

/// The first fault of a JSON source map, whose ignore list is this member, besides those of its mappings.
fn json_fault(ignored: Field, json: &JSONSourceMap) -> Option<Fault>
    ensures error { option_map (λ f. f.error) result ≡ json_fault (json_record json.now) }
    ensures place { (json_record json.now).version ≡ 3 → option_and_then (λ f. f.place) result
        ≡ option_map (λ i. place_at (Entry ignored i)) (option_and_then (position (λ id.
        nat_le (length (json_record json.now).sources) id)) (json_record json.now).ignore_list) }
    ensures told { IfSome result (λ f. is_some f.place ≡ true) }
{
    if json.version != 3 {
        let error = Error::BadJson(JsonFault::Version(json.version));
        return Some(Fault::at(error, FaultSpot::Member(Field::Version)));
    }
    list_fault(ignored, &json.ignore_list, json.sources.len())
}

/// The parts of the map of these fields. Fails as `decode_parts` does, but for the version, which is 3.
pub(crate) fn read_usual(alloc: Global, map: UsualMap<'_>) -> Located<SourceMapParts<'static>>
    ensures map { Reads record_of_parts result (decoded (usual_record map.entry)) }
    ensures place { Locates result (option_map place_at
        (fields_spot map.entry.ignored (usual_record map.entry))) }
    ensures fault { Refuses (json_fault (usual_record map.entry)) result }
{
    if let Some(fault) = list_fault(map.ignored, &map.ignore_list, map.sources.len()) {
        return Err(fault);
    }
    let tokens = read_mappings(alloc, map.mappings, map.names.len(), map.sources.len())?;
    Ok(SourceMapParts {
        file: from_string(map.file),
        names: map.names,
        source_root: from_string(map.source_root),
        sources: map.sources,
        source_contents: map.source_contents.unwrap_or(Vec::new(alloc)),
        tokens,
        token_chunks: None,
        ignore_list: map.ignore_list,
        debug_id: from_string(map.debug_id),
    })
}

/// The parts of the map of a JSON source map. Its strings are moved, a missing list of contents is an empty one, and it has
/// no chunks.
///
/// Fails with the first of these in this order, and the value is then dropped:
/// - `BadJson(Version(n))` for a version n other than 3;
/// - `BadSourceReference(id)` for the first entry of the ignore list that is not below the number of sources;
/// - the errors of `decode_mappings`, with the numbers of names and sources.
///
/// The first two are found before any memory is asked for. Also `OutOfMemory` for want of memory, which may be before an
/// error of the mappings is found.
pub fn decode_parts(alloc: Global, json: JSONSourceMap) -> Result<SourceMapParts<'static>>
    ensures map { Answers record_of_parts result (decoded (json_record json)) }
    ensures fault { Reports (json_fault (json_record json)) result }
{
    Ok(read_fields(alloc, json, Field::IgnoreList)?)
}

/// The parts of the map of a JSON source map, as `decode_parts` reads it, whose ignore list is this member.
pub fn read_fields(
    alloc: Global,
    json: JSONSourceMap,
    ignored: Field,
) -> Located<SourceMapParts<'static>>
    ensures map { Reads record_of_parts result (decoded (json_record json)) }
    ensures place { (json_record json).version ≡ 3 → Locates result (option_map place_at
        (fields_spot ignored (json_record json))) }
    ensures fault { Refuses (json_fault (json_record json)) result }
{
    if let Some(fault) = json_fault(ignored, &json) {
        return Err(fault);
    }
    let JSONSourceMap {
        version: _,
        file,
        mappings,
        source_root,
        sources,
        sources_content,
        names,
        debug_id,
        ignore_list,
    } = json;
    let lists = from_lists(alloc, names, sources, sources_content)?;
    let map = UsualMap {
        file,
        mappings: mappings.as_str(),
        source_root,
        sources: lists.sources,
        source_contents: lists.contents,
        names: lists.names,
        debug_id,
        ignore_list,
        ignored,
    };
    read_usual(alloc, map)
}
