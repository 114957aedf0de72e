//! The shape of a source map as a JSON value.
ghost use Rattle.std.specs.Prelude.{◌≡◌, option_map, string_bytes, Some};
ghost use Rattle.oxc_sourcemap_json.specs.Words.{view, get, Answers, json_record, json_ids};
ghost use Rattle.oxc_sourcemap_json.specs.Words.{lent_member, present, optional, text_in, ids_in};
ghost use Rattle.oxc_sourcemap_json.specs.Words.{version_of, ignore_list_of, as_id, file_of, shape};
ghost use Rattle.oxc_sourcemap_json.specs.Words.{Data, Reads, Member, ids_spot, misshapen};
ghost use Rattle.oxc_sourcemap_json.specs.Words.{misshapen_ids, ignored_field, FailsAs};
ghost use Rattle.oxc_sourcemap_json.specs.Words.{FailsWithin};

use crate::object::json_source_map::JSONSourceMap;
use crate::object::members::json_of;
use oxc_sourcemap_tokens::{Error, Fault, FaultSpot, Field, JsonFault, Located, Result};
use serde_json::Value;
use std::alloc::Global;

/// The fault of a field that is missing or has the wrong type, at this spot.
pub(crate) fn misshapen(field: Field, spot: FaultSpot) -> Fault
    ensures { result ≡ misshapen field spot }
{
    Fault::at(Error::BadJson(JsonFault::Shape(field)), spot)
}

/// A member that is there and is not null.
fn present(member: Option<&Value>) -> Option<&Value>
    ensures { lent_member result ≡ present (lent_member member.entry) }
{
    let value = member?;
    if value.is_null() { None } else { Some(value) }
}

/// A copy of the string of a member, or the fault of its field.
fn copy_text(alloc: Global, member: &Value, field: Field) -> Located<String>
    ensures text { Reads string_bytes result (text_in field (view member.now)) }
    ensures fault { FailsAs (misshapen field (Member field)) result }
{
    let Some(text) = member.as_str() else {
        return Err(misshapen(field, FaultSpot::Member(field)));
    };
    Ok(String::from_str(alloc, text)?)
}

/// The number of a value that is a whole number of 0 to 4294967295, None for any other value.
pub fn read_id(item: &Value) -> Option<u32>
    ensures { result ≡ as_id (view item.now) }
{
    let number = item.as_u64()?;
    if number > 4294967295 {
        return None;
    }
    Some(number as u32)
}

/// The numbers of a member that is a list of whole numbers of 0 to 4294967295, or the fault of its field.
fn read_ids(alloc: Global, member: &Value, field: Field) -> Located<Vec<u32>>
    ensures ids { Reads (λ ids. ids.items) result (ids_in field (view member.now)) }
    ensures fault { FailsAs (misshapen field (ids_spot field (view member.now))) result }
{
    let Some(items) = member.as_array() else {
        return Err(misshapen(field, FaultSpot::Member(field)));
    };
    let mut ids = Vec::new(alloc);
    for item in items {
        let Some(id) = read_id(item) else {
            return Err(misshapen(field, FaultSpot::Entry(field, ids.len())));
        };
        ids.push(id)?;
    }
    Ok(ids)
}

/// The version, which must be 3.
pub(crate) fn read_version(member: Option<&Value>) -> Located<u32>
    ensures version { Reads (λ version. version) result (version_of (lent_member member.entry)) }
    ensures place { (d : Data) → FailsWithin d result }
{
    let spot = FaultSpot::Member(Field::Version);
    let Some(version) = member.and_then(read_id) else {
        return Err(misshapen(Field::Version, spot));
    };
    if version != 3 {
        return Err(Fault::at(Error::BadJson(JsonFault::Version(version)), spot));
    }
    Ok(version)
}

/// A copy of the string of a member that may be missing or null.
fn optional_text(alloc: Global, value: &Value, key: &str, field: Field) -> Located<Option<String>>
    ensures text { Reads (option_map string_bytes) result
        (optional (text_in field) (present (get key.now (view value.now)))) }
    ensures fault { FailsAs (misshapen field (Member field)) result }
{
    let Some(member) = present(value.get(key)) else {
        return Ok(None);
    };
    Ok(Some(copy_text(alloc, member, field)?))
}

/// The ignore list; if it is missing or null, the one of the older key, which may be missing or null, too.
pub(crate) fn read_either_list(
    alloc: Global,
    member: Option<&Value>,
    older: Option<&Value>,
) -> Located<Option<Vec<u32>>>
    ensures ids { Reads json_ids result
        (ignore_list_of (present (lent_member member.entry)) (present (lent_member older.entry))) }
    ensures fault { FailsAs (misshapen_ids (present (lent_member member.entry))
        (present (lent_member older.entry))) result }
{
    if let Some(list) = present(member) {
        return Ok(Some(read_ids(alloc, list, Field::IgnoreList)?));
    }
    let Some(list) = present(older) else {
        return Ok(None);
    };
    Ok(Some(read_ids(alloc, list, Field::GoogleIgnoreList)?))
}

/// The file of a JSON value that is a source map, indexed or not (docs/FORMAT.md, "The shape of a JSON value"); None if it
/// is null or missing. Only the `version` and the `file` of the value are looked at.
///
/// ```rust
/// use oxc_sourcemap::file_from_value;
/// use serde_json::Value;
///
/// let value = Value::from_str(alloc, r#"{"version":3,"file":"out.js","sections":[]}"#)?;
/// assert_eq!(rt; file_from_value(alloc, &value)?.as_deref(), Some("out.js"));
/// ```
///
/// Fails with `BadJson` for the first of these in this order, and with `OutOfMemory` for want of memory:
/// - `Shape(Object)` unless the value is an object;
/// - `version`, which has to be 3: `Version(n)` for another whole number n of 0 to 4294967295, `Shape(Version)` for any other
///   value, and if it is missing;
/// - `file`: `Shape(File)` unless it is a string, null or missing.
pub fn file_from_value(alloc: Global, value: &Value) -> Result<Option<String>>
    ensures { Answers (option_map string_bytes) result (file_of (view value.now)) }
{
    Ok(read_file(alloc, value)?)
}

/// The file of a JSON value as `file_from_value` reads it; an error is at the value, its version or its file.
pub fn read_file(alloc: Global, value: &Value) -> Located<Option<String>>
    ensures file { Reads (option_map string_bytes) result (file_of (view value.now)) }
    ensures place { FailsWithin (view value.now) result }
{
    if value.as_object().is_none() {
        return Err(misshapen(Field::Object, FaultSpot::Member(Field::Object)));
    }
    let _version = read_version(value.get("version"))?;
    optional_text(alloc, value, "file", Field::File)
}

/// The member that is the ignore list of a map: `x_google_ignoreList` if `ignoreList` is null or missing.
pub fn ignored_field(value: &Value) -> Field
    ensures { result ≡ ignored_field (view value.now) }
{
    match value.get("ignoreList") {
        None => Field::GoogleIgnoreList,
        Some(Value::Null) => Field::GoogleIgnoreList,
        Some(_) => Field::IgnoreList,
    }
}

impl JSONSourceMap {
    /// The fields of a JSON value (docs/FORMAT.md, "The shape of a JSON value"; ECMA-426, "Source map format"). Keys that
    /// are not listed here are ignored. The value is cloned, and its strings are moved out of the clone.
    ///
    /// Fails with `BadJson` for the first of these in this order, and with `OutOfMemory` for want of memory, which may be before
    /// another error is found:
    /// - `Shape(Object)` unless the value is an object;
    /// - `version`, which has to be 3: `Version(n)` for another whole number n of 0 to 4294967295, `Shape(Version)` for any
    ///   other value, and if it is missing;
    /// - `file`: `Shape(File)` unless it is a string, null or missing;
    /// - `mappings`: `Shape(Mappings)` unless it is a string;
    /// - `sourceRoot`: `Shape(SourceRoot)` unless it is a string, null or missing;
    /// - `sources`: `Shape(Sources)` unless it is a list of strings;
    /// - `sourcesContent`: `Shape(SourcesContent)` unless it is a list of strings and nulls, null or missing;
    /// - `names`: `Shape(Names)` unless it is a list of strings, or missing;
    /// - `debugId`: `Shape(DebugId)` unless it is a string, null or missing;
    /// - `ignoreList`: `Shape(IgnoreList)` unless it is a list of whole numbers of 0 to 4294967295, null or missing; if it is
    ///   null or missing, `x_google_ignoreList` in its place, with `Shape(GoogleIgnoreList)`.
    pub fn from_value(alloc: Global, value: &Value) -> Result<JSONSourceMap>
        ensures { Answers json_record result (shape (view value.now)) }
    {
        Ok(json_of(alloc, value.clone()?)?)
    }
}
