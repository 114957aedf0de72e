//! Reading a map as it is found.
ghost use Rattle.oxc_sourcemap.specs.Words.{Answers, found, found_view};

use oxc_sourcemap_found::{FoundParts, Mend, read_found_parts};
use oxc_sourcemap_map::SourceMap;
use oxc_sourcemap_tokens::Result;
use std::alloc::Global;

/// A map as it was found, and what was mended to read it.
#[derive(Drop)]
pub struct Found {
    /// The map. It is sound.
    pub map: SourceMap<'static>,
    /// What was mended, in the order in which it is checked; empty if nothing was.
    pub mends: Vec<Mend>,
}

/// Reads the map of a JSON text as it is found: what docs/FORMAT.md, "Maps as they are found", lists is mended, and
/// each mend is reported. These are things that the exact reader refuses, and the order of tokens, which it keeps. The map is
/// sound: its tokens are sorted, and its ids are in range. It owns all its strings.
///
/// ```rust
/// use oxc_sourcemap::{MendKind, read_found};
///
/// let text = ")]}'\n{\"version\":3,\"sources\":[null,\"b.js\"],\"names\":[],\"mappings\":\"AAAA,CCAA\"}";
/// let found = read_found(alloc, text)?;
/// assert_eq!(rt; found.map.get_source(1), Some("b.js"));
/// let kinds = [found.mends[0].kind, found.mends[1].kind];
/// assert_eq!(rt; kinds, [MendKind::JsonPrefix, MendKind::NullSource(0)]);
/// ```
///
/// A text that the exact reader reads gives the same map with its tokens sorted, and only `Unsorted` is reported, if they were
/// not; it reads each text of which no mend is reported (`mending_harmless`). All else is refused, in this order:
/// - `BadJson(Reading)` if `serde_json` reads no value in what is left of the text, as for any URL but a data URL of JSON;
/// - `BadJson(Shape(Object))` if the value is no object, and then the errors of `JSONSourceMap::from_value` for the mended object;
/// - the errors of `decode_mappings`, for as many names and sources as there can be: a source or name id may be up to 4294967294;
/// - for an indexed map the errors of `decode_value`, and of its sections the above, but `SectionOrder(k)` only if the offset of
///   section k is before that of the section in front of it; last of all `TooLarge`.
///
/// Also `OutOfMemory` for want of memory, which may be before another error is found.
pub fn read_found(alloc: Global, text: &str) -> Result<Found>
    ensures { Answers found_view result (found text.now) }
{
    let FoundParts { parts, mends } = read_found_parts(alloc, text)?;
    let map = SourceMap::from_parts(parts);
    Ok(Found { map, mends })
}
