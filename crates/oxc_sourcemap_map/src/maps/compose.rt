//! Composition: of a map from generated to intermediate code and one from intermediate to original code, one map from
//! generated to original code is made.
ghost use Rattle.oxc_sourcemap_map.specs.Words.{Composes};

use crate::maps::sourcemap::SourceMap;
use oxc_sourcemap_steps::compose_parts;
use oxc_sourcemap_tokens::Result;
use std::alloc::Global;

impl<'a> SourceMap<'a> {
    /// Composes this map, from generated to intermediate code, with `input`, from there to original code, into one map from
    /// generated to original code (docs/FORMAT.md, "Composition").
    ///
    /// ```rust
    /// use oxc_sourcemap::SourceMap;
    ///
    /// // Line 0 of out.js comes from line 1 of mid.js, and that from line 2 and column 2 of main.ts.
    /// let text = r#"{"version":3,"file":"out.js","sources":["mid.js"],"mappings":"AACA"}"#;
    /// let map = SourceMap::from_json_string(alloc, text)?;
    /// let text = r#"{"version":3,"sources":["main.ts"],"mappings":";AAEE"}"#;
    /// let input = SourceMap::from_json_string(alloc, text)?;
    /// let text = r#"{"version":3,"file":"out.js","names":[],"sources":["main.ts"],"mappings":"AAEE"}"#;
    /// assert_eq!(rt; map.compose(alloc, input)?.to_json_string(alloc)?.as_str(), text);
    /// ```
    ///
    /// Each token of this map gives one token at the same generated position, in the same order. Its source position is looked
    /// up in `input` by the clamped lookup (`lookup_token_approx`):
    /// - If the token of this map or the token found is unmapped, or none is found, the result is unmapped, with source
    ///   position 0:0 and no name.
    /// - Else the result has the source id, source position and name of the token found; if that has no name, the name of
    ///   the token of this map, if it has one in range.
    ///
    /// File and debug id are those of this map; source root, sources, contents and ignore list those of `input`. Names are
    /// those of `input`, followed by the new ones from this map. There are no chunks. If columns decrease on a line of
    /// `input`, it is left open which token of that line is found.
    ///
    /// Fails in this order; both maps are then dropped:
    /// - `SeveralSources(n)` if this map has n sources, and n is above 1 (`remap` takes an input for each);
    /// - `LineOrder(i)` for the first token i of `input` whose line is smaller than that of the token before it;
    /// - `TooLarge` if a name from this map would have an id above 4294967294;
    /// - `OutOfMemory` for want of memory.
    ///
    /// The first two are returned even if memory runs out.
    pub fn compose<'input>(
        self,
        alloc: Global,
        input: SourceMap<'input>,
    ) -> Result<SourceMap<'input>>
        ensures { Composes self.entry input.entry result }
    {
        let parts = compose_parts(alloc, self.parts, input.parts)?;
        Ok(SourceMap::from_parts(parts))
    }
}
