//! Reading a map from a JSON source map, from a JSON value and from a JSON text.
ghost use Rattle.std.specs.Prelude.{◌≡◌, ◌↔◌, true, IfOk, Ok};
ghost use Rattle.oxc_sourcemap.specs.Words.{view, IsInLineOrder, are_tokens_sorted};
ghost use Rattle.oxc_sourcemap.specs.Words.{IsSound, json_record, decoded, json_fault, read_value};
ghost use Rattle.oxc_sourcemap.specs.Words.{read_map, Answers, Reports};

use oxc_sourcemap_json::{JSONSourceMap, decode_parts_from_value};
use oxc_sourcemap_map::SourceMap;
use oxc_sourcemap_tokens::Result;
use serde_json::Value;
use std::alloc::Global;

/// Makes the map of a JSON source map. Its strings are moved; if it has no list of contents, the map's is empty. The map has
/// no chunks.
///
/// ```rust
/// use oxc_sourcemap::{JSONSourceMap, decode};
/// use serde_json::Value;
///
/// let value = Value::from_str(alloc, r#"{"version":3,"sources":["a.js"],"mappings":"AAAA,I"}"#)?;
/// let map = decode(alloc, JSONSourceMap::from_value(alloc, &value)?)?;
/// assert_eq!(rt; map.get_tokens().len(), 2);
/// ```
///
/// Fails with the first of these in this order, and the value is then dropped:
/// - `BadJson(Version(n))` for a version n other than 3;
/// - `BadSourceReference(id)` for the first entry of the ignore list that is not below the number of sources;
/// - the errors of `decode_mappings`, with the numbers of names and sources.
///
/// Also `OutOfMemory` for want of memory, which may be before an error of the mappings is found.
pub fn decode(alloc: Global, json: JSONSourceMap) -> Result<SourceMap<'static>>
    ensures map { Answers (λ map. map) result (decoded (json_record json)) }
    ensures fault { Reports (json_fault (json_record json)) result }
{
    SourceMap::from_json(alloc, json)
}

/// Reads the map of a JSON value. A value whose `sections` is there and is not null is an indexed map (ECMA-426, "Index source
/// map"): the maps of its sections are joined, each at its offset, without their source roots, and the joined map gets the file
/// of the value. To keep the roots, read the maps of the sections one by one, and call `apply_source_root` of each before it is
/// joined. Any other value is read by `JSONSourceMap::from_value` and `decode`, and keeps its source root. The value is cloned,
/// and all strings of the map are owned. The map has no chunks, its ids are in range, and its tokens are in line order, so it
/// is sound exactly if it is sorted.
///
/// ```rust
/// use oxc_sourcemap::decode_value;
/// use serde_json::Value;
///
/// let text = r#"{"version":3,"sections":[
///     {"offset":{"line":0,"column":0},"map":{"version":3,"sources":["a.js"],"mappings":"AAAA"}},
///     {"offset":{"line":2,"column":0},"map":{"version":3,"sources":["b.js"],"mappings":"AAAA"}}]}"#;
/// let map = decode_value(alloc, &Value::from_str(alloc, text)?)?;
/// let text = r#"{"version":3,"names":[],"sources":["a.js","b.js"],"mappings":"AAAA;;ACAA"}"#;
/// assert_eq!(rt; map.to_json_string(alloc)?.as_str(), text);
/// ```
///
/// Of the keys beside the `sections` of an indexed map, only `version` and `file` are looked at. It fails with the errors of
/// `file_from_value`, then with `BadJson(Shape(Sections))` if `sections` is not a list, then with the first error of a section.
/// Each section is read and joined before the next one is looked at, and fails with the first of these in this order:
/// - `BadJson(Shape(Sections))` if it is not an object;
/// - `BadJson(Shape(Offset))` if its `offset` is not an object whose `line` and `column` are whole numbers of 0 to 4294967295;
/// - `SectionOrder(k)` if its offset is before that of the section before it, or before the last token so far, where k is the
///   index of this section, from 0;
/// - `BadJson(Shape(Map))` if its `map` is not an object, or is an indexed map itself;
/// - the errors of `JSONSourceMap::from_value` and of `decode` for its `map`;
/// - `TooLarge` if the join with its map would be too large, as for `ConcatSourceMapBuilder::add_sourcemap_at`.
///
/// Also `OutOfMemory` for want of memory, which may be before another error is found.
#[tactic(auto, using(oxc_sourcemap_json::proofs::WellRead::value_sound, oxc_sourcemap_json::proofs::WellRead::value_in_order))]
pub fn decode_value(alloc: Global, value: &Value) -> Result<SourceMap<'static>>
    ensures map { Answers (λ map. map) result (read_value (view value.now)) }
    ensures sound { IfOk result (λ map. IsSound map ↔ (are_tokens_sorted map.tokens ≡ true)) }
    ensures in_line_order { IfOk result (λ map. IsInLineOrder map.tokens) }
{
    Ok(SourceMap::from_parts(decode_parts_from_value(alloc, value)?))
}

/// Reads the map of a JSON text: `serde_json` reads the text, and the value is read as `decode_value` reads it. All strings of
/// the map are owned.
///
/// ```rust
/// use oxc_sourcemap::{Error, JsonFault, decode_from_string};
///
/// let map = decode_from_string(alloc, r#"{"version":3,"sources":["a.js"],"mappings":"AAAA"}"#)?;
/// assert_eq!(rt; map.get_source(0), Some("a.js"));
/// let fault = decode_from_string(alloc, r#"{"version":4}"#).err();
/// assert_eq!(rt; fault, Some(Error::BadJson(JsonFault::Version(4))));
/// ```
///
/// Fails in this order:
/// - `BadJson(Reading)` if `serde_json` reads no value, as for a text that is not JSON, one with more than white space
///   after the value, or one that nests deeper than 127;
/// - the errors of `decode_value`.
///
/// Also `OutOfMemory` for want of memory, which may be before another error is found.
pub fn decode_from_string(alloc: Global, text: &str) -> Result<SourceMap<'static>>
    ensures map { Answers (λ map. map) result (read_map text.now) }
    ensures sound { IfOk result (λ map. IsSound map ↔ (are_tokens_sorted map.tokens ≡ true)) }
    ensures in_line_order { IfOk result (λ map. IsInLineOrder map.tokens) }
{
    SourceMap::from_json_string(alloc, text)
}
