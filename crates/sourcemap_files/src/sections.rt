//! The maps of the sections of an indexed map, and their source roots, for which the map that they make together has no place.
ghost use Rattle.std.specs.Prelude.{◌≡◌, map, IfOk, MatchBool};
ghost use Rattle.oxc_sourcemap_parts.specs.Words.{record_of_parts, texts_of, rooted};
ghost use Rattle.sourcemap_files.specs.Sections.{sources_of, IsRooted};

use crate::contents::copies_of;
use crate::finding::found_error_text;
use oxc_sourcemap_found::{FoundParts, read_found_parts};
use oxc_sourcemap_parts::{SourceMapParts, apply_root};
use oxc_sourcemap_tokens::Memory;
use sourcemap_texts::maps_in;
use sourcemap_words::{Outcome, failure_of};
use std::alloc::Global;
use std::borrow::CowStr;

/// The parts of a map, or of that of a section, whose mends were reported before. `name` is for messages.
fn own_parts(alloc: Global, name: &str, text: &str) -> Outcome<SourceMapParts<'static>> {
    match read_found_parts(alloc, text) {
        Ok(FoundParts { parts, .. }) => Ok(parts),
        Err(error) => {
            let why = found_error_text(alloc, text, error)?;
            Err(failure_of(alloc, name, why.as_str()))
        }
    }
}

/// The maps of the sections of an indexed map, in order; none of a map by itself. `name` is for messages.
pub fn section_maps(
    alloc: Global,
    name: &str,
    text: &str,
) -> Outcome<Vec<SourceMapParts<'static>>> {
    let mut maps = Vec::new(alloc);
    for piece in &maps_in(alloc, text)? {
        if piece.end() < text.len() {
            maps.push(own_parts(alloc, name, piece.text)?)?;
        }
    }
    Ok(maps)
}

/// Whether two lists have the same texts.
pub fn are_same(a: &[CowStr<'_>], b: &[CowStr<'_>]) -> bool {
    a.len() == b.len()
        && a.iter()
            .zip(b.iter())
            .all(|(a, b)| a.as_str() == b.as_str())
}

/// The sources of maps, one after the other.
fn sources_of(alloc: Global, maps: &[SourceMapParts<'static>]) -> Outcome<Vec<CowStr<'static>>>
    ensures { IfOk result (λ sources. texts_of sources
        ≡ sources_of (map record_of_parts maps.now)) }
{
    let mut sources = Vec::new(alloc);
    for map in maps {
        sources.append(&mut copies_of(alloc, map.sources.as_slice())?)?;
    }
    Ok(sources)
}

/// The sources of a map, its source root before each.
fn rooted_sources(alloc: Global, map: SourceMapParts<'static>) -> Memory<Vec<CowStr<'static>>>
    ensures { IfOk result (λ sources. texts_of sources
        ≡ (rooted (record_of_parts map.entry)).sources) }
{
    let mut map = map;
    apply_root(alloc, &mut map)?;
    Ok(map.sources)
}

/// The sources of maps, one after the other, the source root of each before its own.
fn all_rooted(alloc: Global, maps: Vec<SourceMapParts<'static>>) -> Memory<Vec<CowStr<'static>>>
    ensures { IfOk result (λ sources. texts_of sources
        ≡ sources_of (map rooted (map record_of_parts maps.entry.items))) }
{
    let mut sources = Vec::new(alloc);
    for map in maps {
        sources.append(&mut rooted_sources(alloc, map)?)?;
    }
    Ok(sources)
}

/// Puts the source roots of maps before the sources of the map that they make together, one after the other. Returns whether these are
/// its sources; if not, it stays as it is.
fn put_roots(
    alloc: Global,
    parts: &mut SourceMapParts<'static>,
    maps: Vec<SourceMapParts<'static>>,
) -> Outcome<bool>
    ensures { IfOk result (λ done. MatchBool done
        (IsRooted (map record_of_parts maps.entry.items) (record_of_parts parts.old)
        (record_of_parts parts.new))
        (record_of_parts parts.new ≡ record_of_parts parts.old)) }
{
    let theirs = sources_of(alloc, maps.as_slice())?;
    if !are_same(theirs.as_slice(), parts.sources.as_slice()) {
        return Ok(false);
    }
    parts.sources = all_rooted(alloc, maps)?;
    Ok(true)
}

/// Whether a text may be that of an indexed map of which a section has a source root.
fn may_have_roots(text: &str) -> bool {
    text.contains("\"sections\"") && text.contains("\"sourceRoot\"")
}

/// Puts the source roots of the sections of an indexed map before their sources. `parts` are those of the map of this text, which has no
/// place for more than one root. Returns whether there is nothing left out. `name` is for messages.
pub fn root_sections(
    alloc: Global,
    name: &str,
    text: &str,
    parts: &mut SourceMapParts<'static>,
) -> Outcome<bool> {
    if !may_have_roots(text) {
        return Ok(true);
    }
    let maps = section_maps(alloc, name, text)?;
    if maps.iter().all(|map| map.source_root.is_none()) {
        return Ok(true);
    }
    put_roots(alloc, parts, maps)
}

/// The parts of a map, the source roots of sections applied; what is mended was reported before. `name` is for messages.
pub fn parts_in(alloc: Global, name: &str, text: &str) -> Outcome<SourceMapParts<'static>> {
    let mut parts = own_parts(alloc, name, text)?;
    root_sections(alloc, name, text, &mut parts)?;
    Ok(parts)
}
