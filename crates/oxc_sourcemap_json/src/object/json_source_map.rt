//! The fields of a source map as its JSON object has them.

/// The fields of a source map as its JSON object has them (ECMA-426, "Source map format").
///
/// ```rust
/// use oxc_sourcemap::JSONSourceMap;
/// use serde_json::Value;
///
/// let value = Value::from_str(alloc, r#"{"version":3,"sources":["a.js"],"mappings":"AAAA"}"#)?;
/// let json = JSONSourceMap::from_value(alloc, &value)?;
/// assert_eq!(rt; json.mappings.as_str(), "AAAA");
/// assert!(rt; json.names.is_empty() && json.file.is_none());
/// ```
#[derive(Drop)]
pub struct JSONSourceMap {
    /// The version. `decode` fails for any but 3.
    pub version: u32,
    /// The name of the generated file.
    pub file: Option<String>,
    /// The mappings text.
    pub mappings: String,
    /// The prefix of every source, for whoever resolves them; sources are kept without it.
    pub source_root: Option<String>,
    /// The sources that the mappings refer to by their index.
    pub sources: Vec<String>,
    /// The content of each source, None where it is not known. There may be fewer or more than there are sources. None
    /// where the object has no list, which reads as the empty one.
    pub sources_content: Option<Vec<Option<String>>>,
    /// The names that the mappings refer to by their index.
    pub names: Vec<String>,
    /// An id that ties this map to its generated code.
    pub debug_id: Option<String>,
    /// The indices of sources that debuggers may ignore, as third-party code. `decode` fails for one that is not below the
    /// number of sources.
    pub ignore_list: Option<Vec<u32>>,
}
