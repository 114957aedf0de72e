//! Reading a map as it is found.
ghost use Rattle.std.specs.Prelude.{◌≡◌, ◌≢◌, option_map, string_bytes, IfOk, IfErr, IfSome, Ok};
ghost use Rattle.oxc_sourcemap_found.specs.Words.{view, Answers, record_of_parts, owned_records};
ghost use Rattle.oxc_sourcemap_found.specs.Words.{joined_map, found_record, found_sections};
ghost use Rattle.oxc_sourcemap_found.specs.Words.{indexed_record, Reads, OutOfMemory, OnlyMemory};
ghost use Rattle.oxc_sourcemap_found.specs.Words.{found_value, found, found_view, found_map};
ghost use Rattle.oxc_sourcemap_found.specs.Words.{with_version, as_found, members_view, plain_spot};
ghost use Rattle.oxc_sourcemap_found.specs.Words.{place_at, found_indexed_place, found_value_place};
ghost use Rattle.oxc_sourcemap_found.specs.Words.{LocatesFault, LocatesFaultIn, no_place, in_order};
ghost use Rattle.oxc_sourcemap_found.specs.Words.{IsFoundPlace};
ghost use Rattle.oxc_sourcemap_found.specs.Words.{HasPlaceIfRefused, TooLarge, IsFoundFault};

use crate::mending::cut::{cut_sections, mends_in};
use crate::mending::members::mend_version;
use crate::mending::mend::Mend;
use crate::mending::plain::{into_object, mend_plain};
use crate::mending::sections::{misshapen, read_sections};
use crate::mending::tokens::mend_order;
use crate::opening::open;
use crate::reading::text_fault;
use oxc_sourcemap_join::join_owned_parts;
use oxc_sourcemap_json::{decode_parts_from_string, into_member, is_indexed, place_of, read_file};
use oxc_sourcemap_parts::{SourceMapParts, from_string};
use oxc_sourcemap_tokens::{
    Error, Fault, FaultPlace, FaultSpot, Field, Located, Memory, Position, Result,
};
use serde_json::{Map, Value};
use std::alloc::{AllocError, Global};

/// The parts of a map as it was found, and what was mended to read it. The map is sound.
#[derive(Drop)]
pub struct FoundParts {
    pub parts: SourceMapParts<'static>,
    /// What was mended, in the order in which it is looked at; empty if nothing was.
    pub mends: Vec<Mend>,
}

/// The parts of a join as those of a map with this file, without chunks.
fn with_file(mut parts: SourceMapParts<'static>, file: Option<String>) -> SourceMapParts<'static>
    ensures { record_of_parts result
        ≡ indexed_record (option_map string_bytes file) (record_of_parts parts.entry) }
{
    parts.file = from_string(file);
    parts.token_chunks = None;
    parts
}

/// The join of the maps of sections as a map with this file. That it is too large has no place.
fn join_maps(
    alloc: Global,
    maps: Vec<(SourceMapParts<'static>, Position)>,
    file: Option<String>,
) -> Located<SourceMapParts<'static>>
    ensures map { Reads record_of_parts result
        (joined_map (owned_records maps.entry.items) (option_map string_bytes file)) }
    ensures place { IfErr result (λ f. (f.error ≢ OutOfMemory) → f ≡ no_place TooLarge) }
{
    match join_owned_parts(alloc, maps) {
        Ok(parts) => Ok(with_file(parts, file)),
        Err(error) => Err(Fault::without_place(error)),
    }
}

/// The parts of the map of an indexed map. Its mends are added behind the mends so far.
fn parts_of_indexed(
    alloc: Global,
    object: Map<String, Value>,
    mends: &mut Vec<Mend>,
) -> Located<SourceMapParts<'static>>
    ensures map { Reads (λ parts. found_record mends.new.items (record_of_parts parts)) result
        (found_sections mends.old.items (with_version (as_found (members_view object.entries)))) }
    ensures place { LocatesFault result
        (found_indexed_place (with_version (as_found (members_view object.entries))).members) }
{
    let (object, kinds) = mend_version(alloc, object)?;
    let value = Value::Object(object);
    let file = read_file(alloc, &value)?;
    let Some(Value::Array(items)) = into_member(value, "sections") else {
        return Err(misshapen(Field::Sections, FaultSpot::Member(Field::Sections)));
    };
    let sections = read_sections(alloc, items)?;
    let mut cut = cut_sections(alloc, sections)?;
    let mut told = mends_in(alloc, None, kinds.as_slice())?;
    mends.append(&mut told)?;
    mends.append(&mut cut.mends)?;
    join_maps(alloc, cut.maps, file)
}

/// The parts of the map of a map by itself. Its mends are added behind the mends so far.
fn parts_of_plain(
    alloc: Global,
    object: Map<String, Value>,
    mends: &mut Vec<Mend>,
) -> Located<SourceMapParts<'static>>
    ensures map { Reads (λ parts. found_record mends.new.items (record_of_parts parts)) result
        (found_map mends.old.items (members_view object.entries)) }
    ensures place { LocatesFault result (option_map place_at
        (plain_spot (members_view object.entries))) }
{
    let map = mend_plain(alloc, object)?;
    let mut told = mends_in(alloc, None, map.kinds.as_slice())?;
    mends.append(&mut told)?;
    Ok(map.parts)
}

/// The parts of the map of a JSON value. Its mends are added behind the mends so far.
fn parts_of_value(
    alloc: Global,
    value: Value,
    mends: &mut Vec<Mend>,
) -> Located<SourceMapParts<'static>>
    ensures map { Reads (λ parts. found_record mends.new.items (record_of_parts parts)) result
        (found_value mends.old.items (view value)) }
    ensures place { LocatesFault result (found_value_place (view value)) }
{
    let has_sections = is_indexed(&value);
    let Some(object) = into_object(value) else {
        return Err(misshapen(Field::Object, FaultSpot::Member(Field::Object)));
    };
    if has_sections {
        parts_of_indexed(alloc, object, mends)
    } else {
        parts_of_plain(alloc, object, mends)
    }
}

/// A map with its tokens sorted, as it was found.
fn in_order(
    alloc: Global,
    mut parts: SourceMapParts<'static>,
    mut mends: Vec<Mend>,
) -> Memory<FoundParts>
    ensures { IfOk result (λ found. found_view found
        ≡ in_order (found_record mends.items (record_of_parts parts.entry))) }
{
    mend_order(alloc, &mut mends, &mut parts)?;
    Ok(FoundParts { parts, mends })
}

/// The map of a text, mended. An error is where `found_fault_at` says.
#[tactic(auto, unfolding(crate::specs::FoundMaps::found))]
fn read_text(alloc: Global, text: &str) -> Located<FoundParts>
    ensures map { Reads found_view result (found text.now) }
    ensures place { LocatesFaultIn text.now result }
{
    let (json, kinds) = open(alloc, text)?;
    let mut mends = mends_in(alloc, None, kinds.as_slice())?;
    let value = match Value::from_str(alloc, json.as_str()) {
        Ok(value) => value,
        Err(error) => return Err(text_fault(text, &json, &error)),
    };
    let parts = parts_of_value(alloc, value, &mut mends)?;
    Ok(in_order(alloc, parts, mends)?)
}

/// The map of a text that the exact reader reads, in which nothing is to be mended but the order of its tokens.
fn read_exact(alloc: Global, text: &str) -> Memory<Option<FoundParts>>
    ensures { IfOk result (λ read. IfSome read (λ f. found text.now ≡ Ok (found_view f))) }
{
    match decode_parts_from_string(alloc, text) {
        Ok(parts) => Ok(Some(in_order(alloc, parts, Vec::new(alloc))?)),
        Err(Error::OutOfMemory) => Err(AllocError),
        Err(_) => Ok(None),
    }
}

/// Reads the parts of the map of a text as `read_found_parts` does; an error has the place that `found_fault_at` returns.
pub fn read_located(alloc: Global, text: &str) -> Located<FoundParts>
    ensures map { Reads found_view result (found text.now) }
    ensures place { IfErr result (IsFoundFault text.now) }
{
    // Most texts have nothing to mend, and the exact reader is the fast one.
    match read_exact(alloc, text)? {
        Some(found) => Ok(found),
        None => read_text(alloc, text),
    }
}

/// Reads the parts of the map of a text as it is found, as `oxc_sourcemap::read_found` does, with its errors.
pub fn read_found_parts(alloc: Global, text: &str) -> Result<FoundParts>
    ensures { Answers found_view result (found text.now) }
{
    Ok(read_located(alloc, text)?)
}

/// Where a text has the fault for which `read_found` refuses it; None if it reads the text, or if the join of the sections of an
/// indexed map passes a limit (`TooLarge`).
///
/// If the text is not JSON, the place that the reader gives, counted in the whole text, with what is passed over in front; of a data
/// URL in the text that it has. Else that of the first fault that is not mended: the member that is missing or has the wrong type, and
/// of a list with an entry that is not mended the first such entry, or the value if it is no object; then the segment of the mappings.
/// Of an indexed map it is its version or its file; `sections`, if that is no list, or the entry of it that is no object; else a place in
/// the first section that is refused: its offset, its map, or the place in that. Fails only with `OutOfMemory`.
///
/// ```rust
/// use oxc_sourcemap::{Field, FaultSpot, found_fault_at};
///
/// let place = found_fault_at(alloc, ")]}'\n{\"version\":\"3\",\"sources\":[null,7],\"mappings\":\"\"}")?;
/// assert_eq!(rt; place.map(|place| place.spot), Some(FaultSpot::Entry(Field::Sources, 1)));
/// let place = found_fault_at(alloc, ")]}'\n<html>")?;
/// assert_eq!(rt; place.map(|place| place.spot), Some(FaultSpot::Reading { line: 1, column: 0, byte: 5 }));
/// ```
pub fn found_fault_at(alloc: Global, text: &str) -> Result<Option<FaultPlace>>
    ensures place { IfOk result (IsFoundPlace text.now) }
    ensures found { IfOk result (HasPlaceIfRefused (found text.now)) }
    ensures error { OnlyMemory result }
{
    let fault = match read_text(alloc, text) {
        Ok(_) => return Ok(None),
        Err(fault) => fault,
    };
    place_of(fault)
}
