//! The sections of an indexed map, each mended as a map by itself.
ghost use Rattle.std.specs.Prelude.{◌≡◌, map, option_map, Some, None};
ghost use Rattle.oxc_sourcemap_found.specs.Words.{view, items_view, offset_from, map_from, Reads};
ghost use Rattle.oxc_sourcemap_found.specs.Words.{section_from, sections_from, mended_view};
ghost use Rattle.oxc_sourcemap_found.specs.Words.{section_view, Locates, misshapen, place_at};
ghost use Rattle.oxc_sourcemap_found.specs.Words.{found_map_spot, section_place, offset_place};
ghost use Rattle.oxc_sourcemap_found.specs.Words.{found_sections_place, or_place};

use crate::mending::plain::{MendedParts, into_object, mend_plain};
use oxc_sourcemap_json::{into_member, is_plain, may_follow, offset_in, offset_place};
use oxc_sourcemap_tokens::{Error, Fault, FaultSpot, Field, JsonFault, Located, Position, Result};
use serde_json::Value;
use std::alloc::Global;

/// A section: its map, mended, and its offset.
#[derive(Drop)]
pub(crate) struct Section {
    pub(crate) map: MendedParts,
    pub(crate) place: Position,
}

/// The offset of the section of this number, behind one at `before`.
pub(crate) fn offset_after(
    before: Option<Position>,
    number: usize,
    section: &Value,
) -> Result<Position>
    ensures { result ≡ offset_from before number (view section.now) }
{
    let place = offset_in(section)?;
    if may_follow(before, place) {
        Ok(place)
    } else {
        Err(Error::SectionOrder(number))
    }
}

/// The fault of this field, which is missing or has the wrong type, at this spot.
pub(crate) fn misshapen(field: Field, spot: FaultSpot) -> Fault
    ensures { result ≡ misshapen field spot }
{
    Fault::at(Error::BadJson(JsonFault::Shape(field)), spot)
}

/// The map of a section.
fn map_of(alloc: Global, section: Value) -> Located<MendedParts>
    ensures map { Reads mended_view result (map_from (view section)) }
    ensures place { Locates result (option_map place_at (found_map_spot (view section))) }
{
    let Some(map) = into_member(section, "map") else {
        return Err(misshapen(Field::Map, FaultSpot::Member(Field::Map)));
    };
    if !is_plain(&map) {
        return Err(misshapen(Field::Map, FaultSpot::Member(Field::Map)));
    }
    let Some(object) = into_object(map) else {
        return Err(misshapen(Field::Object, FaultSpot::Member(Field::Map)));
    };
    mend_plain(alloc, object)
}

/// The section of this number, behind one at `before`.
fn read_section(
    alloc: Global,
    before: Option<Position>,
    number: usize,
    section: Value,
) -> Located<Section>
    ensures section { Reads section_view result (section_from before number (view section)) }
    ensures place { Locates result (or_place (offset_from before number (view section))
        (λ _. Some (offset_place number (view section)))
        (λ _. section_place number (view section))) }
{
    let place = match offset_after(before, number, &section) {
        Ok(place) => place,
        Err(error) => {
            let place = Some(offset_place(number, &section));
            return Err(Fault { error, place });
        }
    };
    match map_of(alloc, section) {
        Ok(map) => Ok(Section { map, place }),
        Err(fault) => Err(fault.in_section(number)),
    }
}

/// All sections of a list. The first bad one is reported.
pub(crate) fn read_sections(alloc: Global, items: Vec<Value>) -> Located<Vec<Section>>
    ensures sections { Reads (λ sections. map section_view sections.items) result
        (sections_from None 0 (items_view items.items)) }
    ensures place { Locates result (found_sections_place None 0 (items_view items.items)) }
{
    let mut sections = Vec::with_capacity(alloc, items.len())?;
    let mut before = None;
    for item in items {
        let section = read_section(alloc, before, sections.len(), item)?;
        before = Some(section.place);
        sections.push(section)?;
    }
    Ok(sections)
}
