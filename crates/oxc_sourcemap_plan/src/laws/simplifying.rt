//! Laws of simplified maps as wholes.
ghost use Rattle.oxc_sourcemap_plan.specs.Words.{SimplifyingAgain, SimplificationAgain};
ghost use Rattle.oxc_sourcemap_plan.specs.Words.{SimplifiedNamesNeeded, SimplifiedSourcesNeeded};
ghost use Rattle.oxc_sourcemap_plan.specs.Words.{SimplifiedTracesSame, SimplificationTracesSame};
ghost use Rattle.oxc_sourcemap_plan.specs.Words.{SimplifiedIsLeast, SimplificationNeeded};

/// Simplifying a second time changes nothing.
/// - A sorted map that was simplified stays the same in every field (`again`).
/// - So what `simplify` makes is simplified without an error, and stays the same (`result`).
///
/// ```rust
/// use oxc_sourcemap::SourceMap;
///
/// let text = r#"{"version":3,"names":["x"],"sources":["a.js"],"mappings":"AAAA,IAAA,IACA"}"#;
/// let mut map = SourceMap::from_json_string(alloc, text)?;
/// map.simplify(alloc)?;
/// let once = map.to_json_string(alloc)?;
/// map.simplify(alloc)?;
/// assert_eq!(rt; map.to_json_string(alloc)?.as_str(), once.as_str());
/// ```
pub fn simplifying_idempotent()
    ensures again { SimplifyingAgain }
    ensures result { SimplificationAgain }
{}

/// What is left of the names and the sources of a simplified map is needed.
/// - The names differ, each is that of a token, and they are in the order in which tokens have them first (`names`).
/// - The sources differ in path, content or in whether they are ignored. Each is that of a token, or its twin is: the source of
///   the same path and content of which one is ignored and the other not. They are in the order in which tokens need them
///   first; of twins the one that is not ignored stands first, and right behind it the other (`sources`).
/// - Both hold whether or not the map is sorted, and so of what `simplify` makes (`result`).
///
/// ```rust
/// use oxc_sourcemap::SourceMap;
///
/// // Two names are one, b.js is not needed, and a.js is listed twice: of the twins a token has only the ignored one.
/// let text = r#"{"version":3,"names":["x","y","x"],"sources":["b.js","a.js","a.js"],"ignoreList":[1],"mappings":"ACAAE"}"#;
/// let mut map = SourceMap::from_json_string(alloc, text)?;
/// map.simplify(alloc)?;
/// let text = r#"{"version":3,"names":["x"],"sources":["a.js","a.js"],"ignoreList":[1],"mappings":"ACAAA"}"#;
/// assert_eq!(rt; map.to_json_string(alloc)?.as_str(), text);
/// ```
pub fn simplified_needed()
    ensures names { SimplifiedNamesNeeded }
    ensures sources { SimplifiedSourcesNeeded }
    ensures result { SimplificationNeeded }
{}

/// A map and the simplified one have the same exact traces.
/// - A sorted map and the simplified one have the same exact trace at every position (`traces`). So has a map and what `simplify`
///   makes of it, and both are sorted (`result`): their `first_difference` is None.
/// - No sorted map from which a map does not differ has fewer tokens than the map has once it is simplified, if no token of the two
///   is at the greatest column, 4294967295 (`least`).
///
/// ```rust
/// use oxc_sourcemap::SourceMap;
///
/// let text = r#"{"version":3,"sources":["a.js"],"mappings":"AAAA,IAAA,IACA"}"#;
/// let map = SourceMap::from_json_string(alloc, text)?;
/// let mut simple = map.clone(alloc)?;
/// simple.simplify(alloc)?;
/// assert!(rt; map.first_difference(&simple).is_none());
/// ```
pub fn simplified_differs_nowhere()
    ensures traces { SimplifiedTracesSame }
    ensures result { SimplificationTracesSame }
    ensures least { SimplifiedIsLeast }
{}
