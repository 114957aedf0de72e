//! Simplifying of maps.
ghost use Rattle.std.specs.Prelude.{◌≡◌, ◌≢◌, false, OnOk, OnErr, IfErr, Ok, Err};
ghost use Rattle.oxc_sourcemap_map.specs.Words.{OutOfMemory, Map, Unsorted, are_tokens_sorted};
ghost use Rattle.oxc_sourcemap_map.specs.Words.{simplification};

use crate::maps::sourcemap::SourceMap;
use oxc_sourcemap_steps::simplify_parts;
use oxc_sourcemap_tokens::PlanError;
use std::alloc::Global;

impl<'a> SourceMap<'a> {
    /// Simplifies this map: all its traces stay, exact and clamped, and tokens, names and sources go that they do not need, but
    /// for a source that is listed both ignored and not (docs/FORMAT.md, "Simplifying"). Its tokens have to be sorted (`sort`).
    ///
    /// ```rust
    /// use oxc_sourcemap::SourceMap;
    ///
    /// // The second token points where the first one points, and nothing uses the name.
    /// let text = r#"{"version":3,"names":["x"],"sources":["a.js"],"mappings":"AAAA,IAAA,IACA"}"#;
    /// let mut map = SourceMap::from_json_string(alloc, text)?;
    /// map.simplify(alloc)?;
    /// let text = r#"{"version":3,"names":[],"sources":["a.js"],"mappings":"AAAA,QACA"}"#;
    /// assert_eq!(rt; map.to_json_string(alloc)?.as_str(), text);
    /// ```
    ///
    /// - On each line a token goes that points where the one before it points, and one that no lookup finds. Where the first of
    ///   two tokens at one position goes for that, the second one moves to the next column.
    /// - Equal names become one, and those go that no token needs. They are in the order in which tokens need them first.
    /// - So are sources: equal are those with equal paths and contents. But such a source stands twice, first as not ignored, if
    ///   it is listed both ignored and not, also where tokens need only one of these.
    /// - A token whose source id is out of range becomes unmapped, at source position 0:0; a name id out of range goes.
    /// - File, source root and debug id stay. There are no chunks, and an ignore list only if it has entries.
    ///
    /// Strings are moved, not copied. Fails with `Unsorted` if the tokens are not sorted, whatever else holds; else with
    /// `Map(TooLarge)` if sources would number above 4294967295 or a token would move past that column, or with
    /// `Map(OutOfMemory)`. The map is then as it was.
    pub fn simplify(&mut self, alloc: Global) -> std::result::Result<(), PlanError>
        ensures simplified { OnOk result (simplification self.old ≡ Ok self.new) }
        ensures error { IfErr result (λ e. (e ≢ Map OutOfMemory)
            → simplification self.old ≡ Err e) }
        ensures unchanged { OnErr result (self.new ≡ self.old) }
        ensures unsorted { are_tokens_sorted self.old.tokens ≡ false → result ≡ Err Unsorted }
    {
        simplify_parts(alloc, &mut self.parts)
    }
}
