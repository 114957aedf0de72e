//! Remapping: of a map and maps for some of its sources, one map to the originals is made.
ghost use Rattle.oxc_sourcemap_map.specs.Words.{lent_inputs, Remaps};

use crate::maps::owned_sourcemap::OwnedSourceMap;
use crate::maps::sourcemap::SourceMap;
use oxc_sourcemap_parts::SourceMapParts;
use oxc_sourcemap_steps::{AsParts, remap_parts};
use oxc_sourcemap_tokens::Result;
use std::alloc::Global;

impl<'a> AsParts for SourceMap<'a> {
    ghost as_record = { λ map. map };

    /// The parts, borrowed.
    fn as_parts(&self) -> &SourceMapParts<'_> {
        &self.parts
    }
}

impl AsParts for OwnedSourceMap {
    ghost as_record = { λ map. map };

    /// The parts of the wrapped map, borrowed.
    fn as_parts(&self) -> &SourceMapParts<'_> {
        &self.as_source_map().parts
    }
}

impl<'a> SourceMap<'a> {
    /// Remaps this map: where some of its sources are generated themselves, as the modules of a bundle are, it is led on to
    /// their originals through their maps, the `inputs`. Each is given with the source that it is for, byte for byte as this
    /// map has it (docs/FORMAT.md, "Remapping").
    ///
    /// ```rust
    /// use oxc_sourcemap::SourceMap;
    ///
    /// // Of a bundle of two modules, a.js is compiled from line 2 of a.ts, and b.js is written by hand.
    /// let text = r#"{"version":3,"file":"out.js","sources":["a.js","b.js"],"mappings":"AAAA;ACAA"}"#;
    /// let bundle = SourceMap::from_json_string(alloc, text)?;
    /// let text = r#"{"version":3,"sources":["a.ts"],"mappings":"AAEA"}"#;
    /// let module = SourceMap::from_json_string(alloc, text)?;
    /// let map = bundle.remap(alloc, &[("a.js", &module)])?;
    /// let text = r#"{"version":3,"file":"out.js","names":[],"sources":["a.ts","b.js"],"mappings":"AAEA;ACFA"}"#;
    /// assert_eq!(rt; map.to_json_string(alloc)?.as_str(), text);
    /// ```
    ///
    /// Each token of this map gives one token at the same generated position, in the same order. If its source has an input,
    /// its source position is looked up there by the clamped lookup (`lookup_token_approx`), and it gets the source, the
    /// source position and the name of the token found; if that has no name, it keeps its own. If none is found, or an
    /// unmapped one or one whose source id is out of range, it is unmapped, at source position 0:0 and without a name. So is a
    /// token without a source, or whose source id is out of range. One whose source has no input keeps source, source position
    /// and name. A name id out of range counts as none.
    ///
    /// In place of a source that has an input stand all sources of the input, with their contents, also where equal ones come
    /// up several times. A source is ignored if the map that it comes from ignores it. Names are those that tokens need, each
    /// once, in order of first need. File and debug id are those of this map; there are no chunks and no source root. As
    /// paths are compared without roots, call `apply_source_root` before if there are any.
    ///
    /// If several inputs are for one source, the first counts; one that is for no source is not used. If columns decrease on a
    /// line of an input, it is left open which token of that line is found. All strings of the result are borrowed from this
    /// map and the maps of `inputs`.
    ///
    /// Fails with the first of
    /// - `InputLineOrder(k)` for the first input, k from 0, whose tokens go back in lines, used or not;
    /// - `TooLarge` if sources or names would number above 4294967295.
    ///
    /// `OutOfMemory`, for want of memory, may come in place of `TooLarge`; the first is reported whenever it holds.
    pub fn remap<'m>(
        &'m self,
        alloc: Global,
        inputs: &[(&str, &'m SourceMap<'_>)],
    ) -> Result<SourceMap<'m>>
        ensures { Remaps self.now (lent_inputs inputs.now) result }
    {
        Ok(SourceMap::from_parts(remap_parts(alloc, &self.parts, inputs)?))
    }
}

impl OwnedSourceMap {
    /// Remaps this map through maps for some of its sources, as `SourceMap::remap` does, and fails as that does; the strings
    /// of the result are copies.
    pub fn remap(&self, alloc: Global, inputs: &[(&str, &OwnedSourceMap)]) -> Result<OwnedSourceMap>
        ensures { Remaps self.now (lent_inputs inputs.now) result }
    {
        let map = self.as_source_map();
        let lent = SourceMap::from_parts(remap_parts(alloc, &map.parts, inputs)?);
        Ok(lent.into_owned_sourcemap(alloc)?)
    }
}
