//! The remapping of maps that are owned, and all there.
ghost use Rattle.std.specs.Prelude.{◌≡◌, ◌≢◌, IfOk, IfErr, Ok, Err};
ghost use Rattle.oxc_sourcemap_steps.specs.Words.{OutOfMemory, record_of_parts, input_records};
ghost use Rattle.oxc_sourcemap_steps.specs.Words.{owned_input_records, NoInputColumnGoesBack};
ghost use Rattle.oxc_sourcemap_steps.specs.Words.{remapping, SomeRemapping, without_sources};
ghost use Rattle.oxc_sourcemap_steps.specs.Words.{MapRecord};

use crate::remap::moving::{lend_sources, move_sources, split_sources, take_sources};
use crate::remap::remap::remap_parts;
use oxc_sourcemap_parts::{SourceMapParts, owned_parts};
use oxc_sourcemap_tokens::{Memory, Result};
use std::alloc::Global;

/// The maps of inputs, borrowed.
fn lent_maps<'m>(
    alloc: Global,
    inputs: &'m [(&str, SourceMapParts<'_>)],
) -> Memory<Vec<(&'m str, &'m SourceMapParts<'m>)>>
    ensures { IfOk result (λ lent. input_records record_of_parts lent.items
        ≡ owned_input_records inputs.now) }
{
    let mut lent = Vec::with_capacity(alloc, inputs.len())?;
    for (path, map) in inputs {
        lent.push((*path, map))?;
    }
    Ok(lent)
}

/// The remapping of a map, but for its sources and their contents: these stay where they are.
fn remap_without_sources<'a>(
    alloc: Global,
    map: &SourceMapParts<'_>,
    inputs: &[(&str, SourceMapParts<'_>)],
) -> Result<SourceMapParts<'a>>
    ensures map { IfOk result (λ parts. (made : MapRecord) × SomeRemapping
        (record_of_parts map.now) (owned_input_records inputs.now) (Ok made)
        × (record_of_parts parts ≡ without_sources made)) }
    ensures error { IfErr result (λ e. (e ≢ OutOfMemory)
        → SomeRemapping (record_of_parts map.now) (owned_input_records inputs.now) (Err e)) }
{
    let lent = lent_maps(alloc, inputs)?;
    let mut parts = remap_parts(alloc, map, lent.as_slice())?;
    parts.sources = Vec::new(alloc);
    parts.source_contents = Vec::new(alloc);
    Ok(owned_parts(alloc, parts)?)
}

/// The remapping, with the sources that it has moved out of the maps. `remap_owned_parts` has the errors.
fn remap_moved(
    alloc: Global,
    map: SourceMapParts<'static>,
    inputs: Vec<(&str, SourceMapParts<'static>)>,
) -> Result<SourceMapParts<'static>>
    ensures made { IfOk result (λ parts. SomeRemapping (record_of_parts map.entry)
        (owned_input_records inputs.entry.items) (Ok (record_of_parts parts))) }
    ensures error { IfErr result (λ e. (e ≢ OutOfMemory) → SomeRemapping
        (record_of_parts map.entry) (owned_input_records inputs.entry.items) (Err e)) }
{
    let mut parts = remap_without_sources(alloc, &map, inputs.as_slice())?;
    let sources = take_sources(alloc, map)?;
    let sources = move_sources(alloc, sources, inputs)?;
    let (paths, contents) = split_sources(alloc, sources)?;
    parts.sources = paths;
    parts.source_contents = contents;
    Ok(parts)
}

/// The remapping of a map by maps that are not borrowed, as `remap_parts` makes it. The sources that the result has and their
/// contents are moved out of the maps; what is copied are names, and the sources of an input that stands for several.
///
/// Fails as `remap_parts` does, but that `OutOfMemory` may come in place of every error, also of `InputLineOrder`: the list of
/// the maps, borrowed, is made before they are looked at. All maps are then dropped.
pub fn remap_owned_parts(
    alloc: Global,
    map: SourceMapParts<'static>,
    inputs: Vec<(&str, SourceMapParts<'static>)>,
) -> Result<SourceMapParts<'static>>
    ensures map { let a = record_of_parts map.entry in
        let inputs = owned_input_records inputs.entry.items in NoInputColumnGoesBack inputs
        → IfOk result (λ parts. remapping a inputs ≡ Ok (record_of_parts parts)) }
    ensures error { let a = record_of_parts map.entry in
        let inputs = owned_input_records inputs.entry.items in NoInputColumnGoesBack inputs
        → IfErr result (λ e. (e ≢ OutOfMemory) → remapping a inputs ≡ Err e) }
    ensures any_map { IfOk result (λ parts. SomeRemapping (record_of_parts map.entry)
        (owned_input_records inputs.entry.items) (Ok (record_of_parts parts))) }
    ensures any_error { IfErr result (λ e. (e ≢ OutOfMemory) → SomeRemapping
        (record_of_parts map.entry) (owned_input_records inputs.entry.items) (Err e)) }
{
    remap_moved(alloc, map, inputs)
}

/// The remapping of a map that stays as it is, with the sources that are moved out of the inputs and copies of those that are
/// the map's. `remap_through_owned_parts` has the errors.
fn remap_lent<'m>(
    alloc: Global,
    map: &'m SourceMapParts<'m>,
    inputs: Vec<(&str, SourceMapParts<'m>)>,
) -> Result<SourceMapParts<'static>>
    ensures made { IfOk result (λ parts. SomeRemapping (record_of_parts map.now)
        (owned_input_records inputs.entry.items) (Ok (record_of_parts parts))) }
    ensures error { IfErr result (λ e. (e ≢ OutOfMemory) → SomeRemapping
        (record_of_parts map.now) (owned_input_records inputs.entry.items) (Err e)) }
{
    let mut parts: SourceMapParts<'m> = remap_without_sources(alloc, map, inputs.as_slice())?;
    let sources = lend_sources(alloc, map)?;
    let sources = move_sources(alloc, sources, inputs)?;
    let (paths, contents) = split_sources(alloc, sources)?;
    parts.sources = paths;
    parts.source_contents = contents;
    Ok(owned_parts(alloc, parts)?)
}

/// The remapping of a map that stays as it is by maps that are not borrowed, as `remap_owned_parts` makes it; the sources that
/// the result has of the map itself are copies. Fails as that does.
pub fn remap_through_owned_parts(
    alloc: Global,
    map: &SourceMapParts<'_>,
    inputs: Vec<(&str, SourceMapParts<'static>)>,
) -> Result<SourceMapParts<'static>>
    ensures map { let inputs = owned_input_records inputs.entry.items in
        NoInputColumnGoesBack inputs → IfOk result
        (λ parts. remapping (record_of_parts map.now) inputs ≡ Ok (record_of_parts parts)) }
    ensures error { let inputs = owned_input_records inputs.entry.items in
        NoInputColumnGoesBack inputs → IfErr result
        (λ e. (e ≢ OutOfMemory) → remapping (record_of_parts map.now) inputs ≡ Err e) }
    ensures any_map { IfOk result (λ parts. SomeRemapping (record_of_parts map.now)
        (owned_input_records inputs.entry.items) (Ok (record_of_parts parts))) }
    ensures any_error { IfErr result (λ e. (e ≢ OutOfMemory) → SomeRemapping
        (record_of_parts map.now) (owned_input_records inputs.entry.items) (Err e)) }
{
    remap_lent(alloc, map, inputs)
}
