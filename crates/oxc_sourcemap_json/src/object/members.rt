//! The members of a source map, moved out of a JSON value: strings are moved, and never copied.
ghost use Rattle.std.specs.Prelude.{◌≡◌, ℕ, List, option_map, string_bytes, codes, false, Some};
ghost use Rattle.std.specs.Str.{bytes_eq};
ghost use Rattle.oxc_sourcemap_json.specs.Words.{view, Mappings, Sources, SourcesContent};
ghost use Rattle.oxc_sourcemap_json.specs.Words.{json_record, json_texts, json_content_list};
ghost use Rattle.oxc_sourcemap_json.specs.Words.{json_contents, lent_member, member_in, present};
ghost use Rattle.oxc_sourcemap_json.specs.Words.{optional, required, text_in, texts_in, as_content};
ghost use Rattle.oxc_sourcemap_json.specs.Words.{contents_in, names_of, shape, Reads, Member};
ghost use Rattle.oxc_sourcemap_json.specs.Words.{Names, list_spot, texts_spot, misshapen, as_str};
ghost use Rattle.oxc_sourcemap_json.specs.Words.{FailsAs, FailsWithin};

use crate::object::json_source_map::JSONSourceMap;
use crate::object::shape::{misshapen, read_either_list, read_version};
use oxc_sourcemap_tokens::{FaultSpot, Field, Located};
use serde_json::{Map, Value};
use std::alloc::Global;

/// A member, moved out of an object. The other members stay.
fn take(object: &mut Map<String, Value>, key: &str) -> Option<Value>
    ensures member { option_map view result ≡ member_in key.now object.old.entries }
    ensures others { (other : List ℕ) → bytes_eq other key.now ≡ false
        → member_in other object.new.entries ≡ member_in other object.old.entries }
{
    object.remove(key)
}

/// The members of a source map.
#[derive(Drop)]
struct Members {
    version: Option<Value>,
    file: Option<Value>,
    mappings: Option<Value>,
    source_root: Option<Value>,
    sources: Option<Value>,
    sources_content: Option<Value>,
    names: Option<Value>,
    debug_id: Option<Value>,
    ignore_list: Option<Value>,
    older_ignore_list: Option<Value>,
}

/// The members of a source map, moved out of an object. All others are dropped.
fn members_of(mut object: Map<String, Value>) -> Members
    ensures version { option_map view result.version ≡ member_in (codes "version") object.entries }
    ensures file { option_map view result.file ≡ member_in (codes "file") object.entries }
    ensures mappings { option_map view result.mappings
        ≡ member_in (codes "mappings") object.entries }
    ensures source_root { option_map view result.source_root
        ≡ member_in (codes "sourceRoot") object.entries }
    ensures sources { option_map view result.sources ≡ member_in (codes "sources") object.entries }
    ensures sources_content { option_map view result.sources_content
        ≡ member_in (codes "sourcesContent") object.entries }
    ensures names { option_map view result.names ≡ member_in (codes "names") object.entries }
    ensures debug_id { option_map view result.debug_id
        ≡ member_in (codes "debugId") object.entries }
    ensures ignore_list { option_map view result.ignore_list
        ≡ member_in (codes "ignoreList") object.entries }
    ensures older_ignore_list { option_map view result.older_ignore_list
        ≡ member_in (codes "x_google_ignoreList") object.entries }
{
    let version = take(&mut object, "version");
    let file = take(&mut object, "file");
    let mappings = take(&mut object, "mappings");
    let source_root = take(&mut object, "sourceRoot");
    let sources = take(&mut object, "sources");
    let sources_content = take(&mut object, "sourcesContent");
    let names = take(&mut object, "names");
    let debug_id = take(&mut object, "debugId");
    let ignore_list = take(&mut object, "ignoreList");
    let older_ignore_list = take(&mut object, "x_google_ignoreList");
    Members {
        version,
        file,
        mappings,
        source_root,
        sources,
        sources_content,
        names,
        debug_id,
        ignore_list,
        older_ignore_list,
    }
}

/// A member that may be there, borrowed.
fn member_ref(member: &Option<Value>) -> Option<&Value>
    ensures { lent_member result ≡ option_map view member.now }
{
    match member {
        Some(value) => Some(value),
        None => None,
    }
}

/// A member that is there and is not null.
fn present(member: Option<Value>) -> Option<Value>
    ensures { option_map view result ≡ present (option_map view member) }
{
    match member {
        None | Some(Value::Null) => None,
        Some(value) => Some(value),
    }
}

/// The string of a member, or the fault of its field.
fn text_of(member: Value, field: Field) -> Located<String>
    ensures text { Reads string_bytes result (text_in field (view member)) }
    ensures fault { FailsAs (misshapen field (Member field)) result }
{
    match member {
        Value::String(text) => Ok(text),
        _ => Err(misshapen(field, FaultSpot::Member(field))),
    }
}

/// A string of a list.
fn string_of(item: Value) -> Option<String>
    ensures { option_map string_bytes result ≡ as_str (view item) }
{
    match item {
        Value::String(text) => Some(text),
        _ => None,
    }
}

/// The strings of a member that is a list of them, or the fault of its field.
fn texts_of(alloc: Global, member: Value, field: Field) -> Located<Vec<String>>
    ensures texts { Reads json_texts result (texts_in field (view member)) }
    ensures fault { FailsAs (misshapen field (texts_spot field (view member))) result }
{
    let Value::Array(items) = member else {
        return Err(misshapen(field, FaultSpot::Member(field)));
    };
    let mut texts = Vec::with_capacity(alloc, items.len())?;
    for item in items {
        let Some(text) = string_of(item) else {
            return Err(misshapen(field, FaultSpot::Entry(field, texts.len())));
        };
        texts.push(text)?;
    }
    Ok(texts)
}

/// A content: a string, or null if it is not known; None for any other value.
fn content_of(item: Value) -> Option<Option<String>>
    ensures { option_map (option_map string_bytes) result ≡ as_content (view item) }
{
    match item {
        Value::Null => Some(None),
        Value::String(text) => Some(Some(text)),
        _ => None,
    }
}

/// The contents of a member that is a list of strings and nulls, or the fault of the contents of sources.
fn contents_of(alloc: Global, member: Value) -> Located<Vec<Option<String>>>
    ensures contents { Reads json_content_list result (contents_in SourcesContent (view member)) }
    ensures fault { FailsAs (misshapen SourcesContent (list_spot SourcesContent
        (Some (view member)))) result }
{
    let field = Field::SourcesContent;
    let Value::Array(items) = member else {
        return Err(misshapen(field, FaultSpot::Member(field)));
    };
    let mut contents = Vec::with_capacity(alloc, items.len())?;
    for item in items {
        let Some(content) = content_of(item) else {
            return Err(misshapen(field, FaultSpot::Entry(field, contents.len())));
        };
        contents.push(content)?;
    }
    Ok(contents)
}

/// The string of a member that may be missing or null.
fn optional_text(member: Option<Value>, field: Field) -> Located<Option<String>>
    ensures text { Reads (option_map string_bytes) result
        (optional (text_in field) (present (option_map view member))) }
    ensures fault { FailsAs (misshapen field (Member field)) result }
{
    match present(member) {
        Some(value) => Ok(Some(text_of(value, field)?)),
        None => Ok(None),
    }
}

/// The mappings, which must be there.
fn mappings_of(member: Option<Value>) -> Located<String>
    ensures text { Reads string_bytes result (required Mappings (text_in Mappings)
        (option_map view member)) }
    ensures fault { FailsAs (misshapen Mappings (Member Mappings)) result }
{
    match member {
        Some(value) => text_of(value, Field::Mappings),
        None => Err(misshapen(Field::Mappings, FaultSpot::Member(Field::Mappings))),
    }
}

/// The sources, which must be there.
fn sources_of(alloc: Global, member: Option<Value>) -> Located<Vec<String>>
    ensures texts { Reads json_texts result (required Sources (texts_in Sources)
        (option_map view member)) }
    ensures fault { FailsAs (misshapen Sources (list_spot Sources (option_map view member)))
        result }
{
    match member {
        Some(value) => texts_of(alloc, value, Field::Sources),
        None => Err(misshapen(Field::Sources, FaultSpot::Member(Field::Sources))),
    }
}

/// The contents of sources, which may be missing or null.
fn sources_content_of(alloc: Global, member: Option<Value>) -> Located<Option<Vec<Option<String>>>>
    ensures contents { Reads json_contents result
        (optional (contents_in SourcesContent) (present (option_map view member))) }
    ensures fault { FailsAs (misshapen SourcesContent (list_spot SourcesContent
        (present (option_map view member)))) result }
{
    match present(member) {
        Some(value) => Ok(Some(contents_of(alloc, value)?)),
        None => Ok(None),
    }
}

/// The names, which may be missing but not null.
fn names_of(alloc: Global, member: Option<Value>) -> Located<Vec<String>>
    ensures texts { Reads json_texts result (names_of (option_map view member)) }
    ensures fault { FailsAs (misshapen Names (list_spot Names (option_map view member))) result }
{
    match member {
        Some(value) => texts_of(alloc, value, Field::Names),
        None => Ok(Vec::new(alloc)),
    }
}

/// The fields of an owned JSON value, as `JSONSourceMap::from_value` reads them; its strings are moved, and the rest of the
/// value is dropped. Fails as that call does, at the member or the entry of a list that is at fault.
#[tactic(auto, unfolding(crate::specs::Shape::shape))]
pub fn json_of(alloc: Global, value: Value) -> Located<JSONSourceMap>
    ensures fields { Reads json_record result (shape (view value)) }
    ensures place { FailsWithin (view value) result }
{
    let Value::Object(object) = value else {
        return Err(misshapen(Field::Object, FaultSpot::Member(Field::Object)));
    };
    let mut members = members_of(object);
    let version = read_version(member_ref(&members.version))?;
    let file = optional_text(members.file.take(), Field::File)?;
    let mappings = mappings_of(members.mappings.take())?;
    let source_root = optional_text(members.source_root.take(), Field::SourceRoot)?;
    let sources = sources_of(alloc, members.sources.take())?;
    let sources_content = sources_content_of(alloc, members.sources_content.take())?;
    let names = names_of(alloc, members.names.take())?;
    let debug_id = optional_text(members.debug_id.take(), Field::DebugId)?;
    let ignore_list = read_either_list(
        alloc,
        member_ref(&members.ignore_list),
        member_ref(&members.older_ignore_list),
    )?;
    Ok(JSONSourceMap {
        version,
        file,
        mappings,
        source_root,
        sources,
        sources_content,
        names,
        debug_id,
        ignore_list,
    })
}
