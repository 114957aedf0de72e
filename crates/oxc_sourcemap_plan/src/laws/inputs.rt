//! The law of the inputs of a remapping.
ghost use Rattle.oxc_sourcemap_plan.specs.Words.{FirstInputsCount, InputsMayBePermuted};
ghost use Rattle.oxc_sourcemap_plan.specs.Words.{InputsMayBeLeftOut};

/// The inputs of a remapping count by their paths alone.
/// - Of inputs only the first for the path of each source counts (`first`).
/// - So inputs for distinct paths may be permuted: the remapped map is the same in every field, and if no input has a fault, so is
///   the result of `remap`. In either order one has a fault, or in neither (`permuted`).
/// - In the same way inputs that are for no source may be left out (`left_out`). But a fault of one of them is reported.
///
/// ```rust
/// use oxc_sourcemap::SourceMap;
///
/// let text = r#"{"version":3,"sources":["a.js","b.js"],"mappings":"AAAA;ACAA"}"#;
/// let bundle = SourceMap::from_json_string(alloc, text)?;
/// let a = SourceMap::from_json_string(alloc, r#"{"version":3,"sources":["a.ts"],"mappings":"AAEA"}"#)?;
/// let b = SourceMap::from_json_string(alloc, r#"{"version":3,"sources":["b.ts"],"mappings":"AAIA"}"#)?;
/// let map = bundle.remap(alloc, &[("a.js", &a), ("b.js", &b)])?;
/// let same = bundle.remap(alloc, &[("c.js", &a), ("b.js", &b), ("a.js", &a)])?;
/// let text = map.to_json_string(alloc)?;
/// assert_eq!(rt; same.to_json_string(alloc)?.as_str(), text.as_str());
/// ```
pub fn remap_inputs_by_path()
    ensures first { FirstInputsCount }
    ensures permuted { InputsMayBePermuted }
    ensures left_out { InputsMayBeLeftOut }
{}
