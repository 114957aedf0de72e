//! A map by itself, mended.
ghost use Rattle.std.specs.Prelude.{◌≡◌, option_map, IfOk};
ghost use Rattle.oxc_sourcemap_found.specs.Words.{view, json_record, record_of_parts, Reads};
ghost use Rattle.oxc_sourcemap_found.specs.Words.{decoded_with_any_ids, mended_map, plain_map};
ghost use Rattle.oxc_sourcemap_found.specs.Words.{mended_view, members_view, as_object};
ghost use Rattle.oxc_sourcemap_found.specs.Words.{found_fields_spot, plain_spot, place_at, Locates};

use crate::mending::members::mend_object;
use crate::mending::mend::MendKind;
use crate::mending::tokens::mend_ids;
use oxc_sourcemap_json::{JSONSourceMap, ignored_field, json_of, read_fields};
use oxc_sourcemap_mappings::read_mappings;
use oxc_sourcemap_parts::SourceMapParts;
use oxc_sourcemap_tokens::{Field, Located, Memory};
use serde_json::{Map, Value};
use std::alloc::Global;
use std::mem;

/// The parts of a map by itself, and what was mended in it.
#[derive(Drop)]
pub(crate) struct MendedParts {
    pub(crate) parts: SourceMapParts<'static>,
    pub(crate) kinds: Vec<MendKind>,
}

/// The parts of the map of a JSON source map, whose mappings may have any ids and whose ignore list is this member.
fn read_with_any_ids(
    alloc: Global,
    mut json: JSONSourceMap,
    ignored: Field,
) -> Located<SourceMapParts<'static>>
    ensures map { Reads record_of_parts result (decoded_with_any_ids (json_record json)) }
    ensures place { (json_record json).version ≡ 3 → Locates result (option_map place_at
        (found_fields_spot ignored (json_record json))) }
{
    let mappings = mem::replace(&mut json.mappings, String::new(alloc));
    let mut parts = read_fields(alloc, json, ignored)?;
    let any = u32::MAX as usize;
    parts.tokens = read_mappings(alloc, mappings.as_str(), any, any)?;
    Ok(parts)
}

/// The object that a value is.
pub(crate) fn into_object(value: Value) -> Option<Map<String, Value>>
    ensures { option_map (λ object. members_view object.entries) result ≡ as_object (view value) }
{
    match value {
        Value::Object(object) => Some(object),
        _ => None,
    }
}

/// These parts with their ids in range, and what was mended before and is mended now.
fn mend_tokens(
    alloc: Global,
    mut kinds: Vec<MendKind>,
    mut parts: SourceMapParts<'static>,
) -> Memory<MendedParts>
    ensures { IfOk result (λ m. mended_view m
        ≡ mended_map kinds.items (record_of_parts parts.entry)) }
{
    mend_ids(alloc, &mut kinds, &mut parts)?;
    Ok(MendedParts { parts, kinds })
}

/// The parts of the map of an object that is no indexed map.
pub(crate) fn mend_plain(alloc: Global, object: Map<String, Value>) -> Located<MendedParts>
    ensures map { Reads mended_view result (plain_map (members_view object.entries)) }
    ensures place { Locates result (option_map place_at
        (plain_spot (members_view object.entries))) }
{
    let (object, kinds) = mend_object(alloc, object)?;
    let value = Value::Object(object);
    let ignored = ignored_field(&value);
    let json = json_of(alloc, value)?;
    let parts = read_with_any_ids(alloc, json, ignored)?;
    Ok(mend_tokens(alloc, kinds, parts)?)
}
