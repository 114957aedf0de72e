//! Writing a map as a JSON source map and as a JSON text.
ghost use Rattle.std.specs.Prelude.{string_bytes};
ghost use Rattle.oxc_sourcemap.specs.Words.{json_record, encoded, map_text, Answers};

use oxc_sourcemap_json::JSONSourceMap;
use oxc_sourcemap_map::SourceMap;
use oxc_sourcemap_tokens::Result;
use std::alloc::Global;

/// Makes the JSON source map of a map: copies of its fields, and the canonical text of its tokens. A list of contents that are
/// all unknown is left out; any other is written whole. Chunks change nothing, but have to fit.
///
/// ```rust
/// use oxc_sourcemap::{SourceMap, encode};
///
/// let map = SourceMap::from_json_string(alloc, r#"{"version":3,"sources":["a.js"],"mappings":"AAAA"}"#)?;
/// let json = encode(alloc, &map)?;
/// assert_eq!(rt; json.mappings.as_str(), "AAAA");
/// assert!(rt; json.sources_content.is_none());
/// ```
///
/// Fails as `encode_mappings` does for the tokens and chunks: with `LineOrder(i)`, `BadChunks(k)`, `TooLarge`, in this order;
/// and with `OutOfMemory` for want of memory.
pub fn encode(alloc: Global, sourcemap: &SourceMap<'_>) -> Result<JSONSourceMap>
    ensures { Answers json_record result (encoded sourcemap.now) }
{
    sourcemap.to_json(alloc)
}

/// Writes the JSON text of a map, without spaces and in the order `version`, `file`, `sourceRoot`, `names`, `sources`,
/// `sourcesContent`, `ignoreList`, `mappings`, `debugId`. `names`, `sources` and `mappings` are always there,
/// `sourcesContent` if some content is known, and the others if the map has them. The `mappings` are the canonical text of
/// the tokens. Chunks change nothing, but have to fit.
///
/// ```rust
/// use oxc_sourcemap::{SourceMap, encode_to_string};
///
/// let map = SourceMap::from_json_string(alloc, r#"{"mappings":"AAAA","version":3,"sources":["a.js"]}"#)?;
/// let text = r#"{"version":3,"names":[],"sources":["a.js"],"mappings":"AAAA"}"#;
/// assert_eq!(rt; encode_to_string(alloc, &map)?.as_str(), text);
/// ```
///
/// Fails as `encode` does: with `LineOrder(i)`, `BadChunks(k)`, `TooLarge`, in this order, and with `OutOfMemory` for want of
/// memory.
pub fn encode_to_string(alloc: Global, sourcemap: &SourceMap<'_>) -> Result<String>
    ensures { Answers string_bytes result (map_text sourcemap.now) }
{
    sourcemap.to_json_string(alloc)
}
