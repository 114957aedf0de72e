//! The map of a JSON text or value; the sections of an indexed map are read one after the other into a join.
ghost use Rattle.std.specs.Prelude.{◌≡◌, ◌≢◌, option_map, string_bytes, Some, Ok, Err, IfOk, IfErr};
ghost use Rattle.std.specs.Prelude.{IfSome, []};
ghost use Rattle.oxc_sourcemap_json.specs.Words.{view, items_view, get, record_of_parts, file_of};
ghost use Rattle.oxc_sourcemap_json.specs.Words.{is_indexed, is_plain, section_map, all_sections};
ghost use Rattle.oxc_sourcemap_json.specs.Words.{joined_sections, sections_in, indexed_form};
ghost use Rattle.oxc_sourcemap_json.specs.Words.{indexed_record, map_of_form, read_value, read_map};
ghost use Rattle.oxc_sourcemap_json.specs.Words.{Answers, OutOfMemory, Reads, Locates, read_alone};
ghost use Rattle.oxc_sourcemap_json.specs.Words.{value_spot, plain_map, map_spot, place_at};
ghost use Rattle.oxc_sourcemap_json.specs.Words.{offset_place, sections_place, indexed_place};
ghost use Rattle.oxc_sourcemap_json.specs.Words.{value_place, limit_place, HasNoPlace, IsPlacedIn};
ghost use Rattle.oxc_sourcemap_json.specs.Words.{LocatesIn, misshapen};

use crate::object::{ignored_field, json_of, plain_map, read_file, usual_map};
use crate::read::decode::{read_fields, read_usual};
use crate::read::offsets::offset_after;
use crate::read::reading::reading_fault;
use json::Scratch;
use oxc_sourcemap_join::JoinedParts;
use oxc_sourcemap_parts::{SourceMapParts, from_string};
use oxc_sourcemap_tokens::{
    Error, Fault, FaultPlace, FaultSpot, Field, JsonFault, Located, Result,
};
use serde_json::Value;
use std::alloc::Global;

/// A member of a value, moved out of it. The rest of the value is dropped.
pub fn into_member(value: Value, key: &str) -> Option<Value>
    ensures { option_map view result ≡ get key.now (view value) }
{
    match value {
        Value::Object(mut object) => object.remove(key),
        _ => None,
    }
}

/// Whether a value is an indexed map.
pub fn is_indexed(value: &Value) -> bool
    ensures { result ≡ is_indexed (view value.now) }
{
    match value.get("sections") {
        Some(sections) => !sections.is_null(),
        None => false,
    }
}

/// Whether a value may be the map of a section: an object that is not an indexed map.
pub fn is_plain(value: &Value) -> bool
    ensures { result ≡ is_plain (view value.now) }
{
    !is_indexed(value) && value.is_object()
}

/// The fault of this field, at this spot.
fn misshapen(field: Field, spot: FaultSpot) -> Fault
    ensures { result ≡ misshapen field spot }
{
    Fault::at(Error::BadJson(JsonFault::Shape(field)), spot)
}

/// The parts of the map of a value by itself.
#[tactic(auto, unfolding(crate::specs::ValuePlaces::value_spot))]
fn read_alone(alloc: Global, value: Value) -> Located<SourceMapParts<'static>>
    ensures map { Reads record_of_parts result (read_alone (view value)) }
    ensures place { Locates result (option_map place_at (value_spot (view value))) }
{
    let ignored = ignored_field(&value);
    let json = json_of(alloc, value)?;
    read_fields(alloc, json, ignored)
}

/// The map of a section, if it is an object that is no indexed map.
fn into_map(section: Value) -> Option<Value>
    ensures { option_map view result ≡ plain_map (view section) }
{
    let map = into_member(section, "map")?;
    if is_plain(&map) { Some(map) } else { None }
}

/// The parts of the map of a section.
fn read_section(alloc: Global, section: Value) -> Located<SourceMapParts<'static>>
    ensures map { Reads record_of_parts result (section_map (view section)) }
    ensures place { Locates result (option_map place_at (map_spot (plain_map (view section)))) }
{
    match into_map(section) {
        Some(map) => read_alone(alloc, map),
        None => Err(misshapen(Field::Map, FaultSpot::Member(Field::Map))),
    }
}

/// Where the section of this number is at fault by its offset.
pub fn offset_place(number: usize, section: &Value) -> FaultPlace
    ensures { result ≡ offset_place number (view section.now) }
{
    if section.is_object() {
        FaultPlace::new(Some(number), FaultSpot::Member(Field::Offset))
    } else {
        FaultPlace::new(None, FaultSpot::Entry(Field::Sections, number))
    }
}

/// The fault of a join that the map of the section of this number would make too large, or want of memory.
fn limit_fault(error: Error, number: usize) -> Fault
    ensures error { result.error ≡ error }
    ensures place { error ≢ OutOfMemory → result.place ≡ Some (limit_place number) }
{
    if error == Error::OutOfMemory {
        return Fault::without_place(error);
    }
    Fault::at(error, FaultSpot::Member(Field::Map)).in_section(number)
}

/// The join of sections. Each is read, joined and dropped before the next one is looked at, so the first bad one is reported.
fn join_sections(alloc: Global, sections: Vec<Value>) -> Located<JoinedParts<'static>>
    ensures map { Reads (λ joined. joined) result
        (joined_sections (all_sections (items_view sections.items))) }
    ensures place { Locates result (sections_place [] (items_view sections.items)) }
{
    let mut joined = JoinedParts::empty(alloc);
    let mut before = None;
    for section in sections {
        let number = joined.map_count();
        let position = match offset_after(&joined, before, &section) {
            Ok(position) => position,
            Err(error) => {
                let place = Some(offset_place(number, &section));
                return Err(Fault { error, place });
            }
        };
        let parts = match read_section(alloc, section) {
            Ok(parts) => parts,
            Err(fault) => return Err(fault.in_section(number)),
        };
        match joined.add_moved(parts, position) {
            Ok(()) => before = Some(position),
            Err(error) => return Err(limit_fault(error, number)),
        }
    }
    Ok(joined)
}

/// The parts of an indexed map: the join of its sections, with its file and without chunks.
fn indexed_parts(joined: JoinedParts<'static>, file: Option<String>) -> SourceMapParts<'static>
    ensures { record_of_parts result ≡ indexed_record (option_map string_bytes file) joined.entry }
{
    let mut parts = joined.into_parts();
    parts.file = from_string(file);
    parts.token_chunks = None;
    parts
}

/// The parts of the map that an indexed map stands for.
fn read_indexed(alloc: Global, value: Value) -> Located<SourceMapParts<'static>>
    ensures map { Reads record_of_parts result (map_of_form
        (indexed_form (file_of (view value)) (sections_in (view value)))) }
    ensures place { Locates result (indexed_place (view value)) }
{
    let file = read_file(alloc, &value)?;
    let Some(Value::Array(sections)) = into_member(value, "sections") else {
        return Err(misshapen(Field::Sections, FaultSpot::Member(Field::Sections)));
    };
    let joined = join_sections(alloc, sections)?;
    Ok(indexed_parts(joined, file))
}

/// The parts of the map of a JSON value, which may be an indexed map. `decode_value` of `oxc_sourcemap` has the rules and the
/// errors in their order.
pub fn decode_parts_from_value(alloc: Global, value: &Value) -> Result<SourceMapParts<'static>>
    ensures { Answers record_of_parts result (read_value (view value.now)) }
{
    Ok(read_parts_from_value(alloc, value)?)
}

/// The same, and of an error the place.
pub fn read_parts_from_value(alloc: Global, value: &Value) -> Located<SourceMapParts<'static>>
    ensures map { Reads record_of_parts result (read_value (view value.now)) }
    ensures place { Locates result (value_place (view value.now)) }
{
    read_owned_value(alloc, value.clone()?)
}

/// The parts of the map of a JSON value, whose strings are moved.
#[tactic(auto, unfolding(crate::specs::ReadMap::read_value, crate::specs::ValuePlaces::value_place))]
fn read_owned_value(alloc: Global, value: Value) -> Located<SourceMapParts<'static>>
    ensures map { Reads record_of_parts result (read_value (view value)) }
    ensures place { Locates result (value_place (view value)) }
{
    if is_indexed(&value) {
        return read_indexed(alloc, value);
    }
    read_alone(alloc, value)
}

/// The parts of the map of a JSON text, if that is usual. They are read with memory that is given back then.
// A call of its own: that memory takes 16 kB of the stack.
#[tactic(auto, unfolding(crate::specs::ReadMap::read_map, crate::specs::ReadMap::read_value))]
#[inline(never)]
fn read_usual_text(alloc: Global, text: &str) -> Located<Option<SourceMapParts<'static>>>
    ensures read { IfOk result (λ found. IfSome found
        (λ parts. read_map text.now ≡ Ok (record_of_parts parts))) }
    ensures error { IfErr result (λ f. (f.error ≢ OutOfMemory) → read_map text.now ≡ Err f.error) }
    ensures none { IfOk result (λ found. IfSome found (λ _. HasNoPlace text.now)) }
    ensures place { IfErr result (IsPlacedIn text.now) }
{
    let mut scratch = Scratch::new(alloc);
    match usual_map(alloc, text, &mut scratch)? {
        Some(map) => Ok(Some(read_usual(alloc, map)?)),
        None => Ok(None),
    }
}

/// The parts of the map of a JSON text that is not short and plain: token by token if it is usual, else by its value.
#[tactic(auto, unfolding(crate::specs::ReadMap::read_map, crate::specs::ReadMap::read_value))]
#[inline(never)]
fn read_long(alloc: Global, text: &str) -> Located<SourceMapParts<'static>>
    ensures map { Reads record_of_parts result (read_map text.now) }
    ensures place { LocatesIn text.now result }
{
    if let Some(parts) = read_usual_text(alloc, text)? {
        return Ok(parts);
    }
    match Value::from_str(alloc, text) {
        Ok(value) => read_owned_value(alloc, value),
        Err(error) => Err(reading_fault(text, &error)),
    }
}

/// The parts of the map of a JSON text. `decode_from_string` of `oxc_sourcemap` has the errors in their order. All strings
/// are owned: those of a usual text are copied out of it once; of another one, none but the file of an indexed map is copied
/// from its value.
pub fn decode_parts_from_string(alloc: Global, text: &str) -> Result<SourceMapParts<'static>>
    ensures { Answers record_of_parts result (read_map text.now) }
{
    Ok(read_parts_from_string(alloc, text)?)
}

/// The same, and of an error the place.
#[tactic(auto, unfolding(crate::specs::ReadMap::read_map, crate::specs::ReadMap::read_value))]
pub fn read_parts_from_string(alloc: Global, text: &str) -> Located<SourceMapParts<'static>>
    ensures map { Reads record_of_parts result (read_map text.now) }
    ensures place { LocatesIn text.now result }
{
    if let Some(map) = plain_map(alloc, text)? {
        return read_usual(alloc, map);
    }
    read_long(alloc, text)
}
