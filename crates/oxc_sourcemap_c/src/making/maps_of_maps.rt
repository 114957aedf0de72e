//! Compositions, remappings and joins of the maps of handles. Results own their texts.
ghost use Rattle.std.specs.Prelude.{◌≡◌, ◌≢◌, Some, None, Ok, Err, length, IfOk, IfErr};
ghost use Rattle.std.specs.Prelude.{MatchOption, OnOk, map};
ghost use Rattle.oxc_sourcemap_c.specs.Words.{out_of_memory, held_map, HoldMaps};
ghost use Rattle.oxc_sourcemap_c.specs.Words.{NullHandle, IsCompositionError, IsComposition};
ghost use Rattle.oxc_sourcemap_c.specs.Words.{all_lent, all_maps, lent_items, by_path};
ghost use Rattle.oxc_sourcemap_c.specs.Words.{IsRemapped, IsRemapError, IsRemappingError};
ghost use Rattle.oxc_sourcemap_c.specs.Words.{IsRemapping, AreTexts, IsJoinOfLent, IsJoinErrorOf};
ghost use Rattle.oxc_sourcemap_c.specs.Words.{added, lent_inputs, nothing_joined};
ghost use Rattle.oxc_sourcemap_c.specs.Words.{IsMapMissing, IsAddErrorOf, IsComposingError};
ghost use Rattle.oxc_sourcemap_c.specs.Words.{no_fault, HoldsMap, IsErrorAs, own_map};
ghost use Rattle.oxc_sourcemap_c.specs.Words.{CallError, Error, IsSureComposeError, code_of};
ghost use Rattle.oxc_sourcemap_c.specs.Words.{IsSureJoinError, IsSureRemapError};
ghost use Rattle.oxc_sourcemap_c.specs.Words.{composition_fault, of_map};

use crate::holding::{Handle, Lent, put_map};
use crate::numbers::{CallError, Fault};
use crate::texts::texts_of;
use oxc_sourcemap_join::{JoinedParts, Lengths, with_lengths, with_room};
use oxc_sourcemap_map::{OwnedSourceMap, parts_of};
use oxc_sourcemap_steps::compose_lent_parts;
use oxc_sourcemap_tokens::{Memory, Position};
use std::alloc::Global;

/// The map that is borrowed. Fails with `NullHandle` if there is none.
fn lent_map(map: &Lent) -> Result<&OwnedSourceMap, CallError>
    ensures map { IfOk result (λ found. held_map map.now.held ≡ Some found.now) }
    ensures error { IfErr result (IsMapMissing map.now.held) }
    ensures sure { (r : CallError) → IsMapMissing map.now.held r → result ≡ Err r }
{
    map.source_map()
}

/// A map that is equal to the one that is borrowed.
fn clone_map(alloc: Global, map: &Lent) -> Result<OwnedSourceMap, CallError>
    ensures map { IfOk result (λ made. held_map map.now.held ≡ Some made) }
    ensures error { IfErr result (λ r. (r ≢ out_of_memory) → IsMapMissing map.now.held r) }
    ensures sure { (r : CallError) → IsMapMissing map.now.held r → result ≡ Err r }
{
    Ok(lent_map(map)?.clone(alloc)?)
}

/// Makes a map that is equal to another.
#[unsafe(no_mangle)]
pub extern "C" fn proved_clone(
    alloc: Global,
    map: &Lent,
    out: &mut Handle,
    fault: &mut Fault,
) -> u32
    ensures map { result ≡ 0 → HoldsMap map.now.held (λ m. held_map out.new.held ≡ Some m) }
    ensures own { result ≡ 0 → own_map out.new.held ≡ held_map out.new.held }
    ensures no_error { result ≡ 0 → fault.new ≡ no_fault }
    ensures error { result ≢ 0 → (out.new.held ≡ out.old.held)
        × IsErrorAs result fault.new (IsMapMissing map.now.held) }
    ensures sure { (r : CallError) → IsMapMissing map.now.held r → result ≡ code_of r }
{
    put_map(alloc, clone_map(alloc, map), out, fault)
}

fn compose_maps(
    alloc: Global,
    first: &OwnedSourceMap,
    input: &OwnedSourceMap,
) -> Result<OwnedSourceMap, CallError>
    ensures map { IfOk result (IsComposition first.now input.now) }
    ensures error { IfErr result (λ r. (r ≢ out_of_memory)
        → IsComposingError first.now input.now r) }
    ensures sure { (e : Error) → composition_fault first.now input.now ≡ Some e
        → result ≡ Err (of_map e) }
{
    let parts = compose_lent_parts(
        alloc,
        parts_of(first.as_source_map()),
        parts_of(input.as_source_map()),
    )?;
    Ok(OwnedSourceMap::from_parts(parts))
}

/// The composition of two maps that are borrowed.
fn compose(alloc: Global, first: &Lent, input: &Lent) -> Result<OwnedSourceMap, CallError>
    ensures map { IfOk result (λ made. HoldMaps first.now.held input.now.held
        (λ a b. IsComposition a b made)) }
    ensures error { IfErr result (λ r. (r ≢ out_of_memory)
        → IsCompositionError (held_map first.now.held) (held_map input.now.held) r) }
    ensures sure { (r : CallError) → IsSureComposeError (held_map first.now.held)
        (held_map input.now.held) r → result ≡ Err r }
{
    compose_maps(alloc, lent_map(first)?, lent_map(input)?)
}

/// Composes a map from generated to intermediate code with one from intermediate to original code.
#[unsafe(no_mangle)]
pub extern "C" fn proved_compose(
    alloc: Global,
    map: &Lent,
    input: &Lent,
    out: &mut Handle,
    fault: &mut Fault,
) -> u32
    ensures map { result ≡ 0 → HoldsMap out.new.held
        (λ m. HoldMaps map.now.held input.now.held (λ a b. IsComposition a b m)) }
    ensures no_error { result ≡ 0 → fault.new ≡ no_fault }
    ensures error { result ≢ 0 → (out.new.held ≡ out.old.held)
        × IsErrorAs result fault.new (IsCompositionError (held_map map.now.held)
        (held_map input.now.held)) }
    ensures sure { (r : CallError) → IsSureComposeError (held_map map.now.held)
        (held_map input.now.held) r → result ≡ code_of r }
{
    put_map(alloc, compose(alloc, map, input), out, fault)
}

/// The maps that are borrowed. Fails with `NullHandle` if one is missing.
fn maps_of<'m>(alloc: Global, lent: &'m [Lent]) -> Result<Vec<&'m OwnedSourceMap>, CallError>
    ensures maps { IfOk result (λ maps. all_maps (all_lent lent.now)
        ≡ Some (lent_items maps.items)) }
    ensures error { IfErr result (λ r. (r ≢ out_of_memory)
        → (r ≡ NullHandle) × (all_maps (all_lent lent.now) ≡ None)) }
{
    let mut maps = Vec::with_capacity(alloc, lent.len())?;
    for i in 0..lent.len() {
        maps.push(lent_map(&lent[i])?)?;
    }
    Ok(maps)
}

/// Maps with their paths.
fn with_paths<'m>(
    alloc: Global,
    paths: &[&'m str],
    maps: &[&'m OwnedSourceMap],
) -> Memory<Vec<(&'m str, &'m OwnedSourceMap)>>
    requires { length paths.now ≡ length maps.now }
    ensures { IfOk result (λ inputs. lent_inputs inputs.items
        ≡ by_path (lent_items paths.now) (lent_items maps.now)) }
{
    let mut inputs = Vec::with_capacity(alloc, paths.len())?;
    for i in 0..paths.len() {
        let path = paths[i];
        let map = maps[i];
        inputs.push((path, map))?;
    }
    Ok(inputs)
}

fn remap_map(
    alloc: Global,
    map: &OwnedSourceMap,
    paths: &[&[u8]],
    inputs: &[&OwnedSourceMap],
) -> Result<OwnedSourceMap, CallError>
    ensures map { IfOk result (λ made. (length paths.now ≡ length inputs.now)
        × AreTexts (lent_items paths.now) × IsRemapping map.now
        (by_path (lent_items paths.now) (lent_items inputs.now)) made) }
    ensures error { IfErr result (λ r. (r ≢ out_of_memory)
        → IsRemappingError map.now (lent_items paths.now) (lent_items inputs.now) r) }
{
    if paths.len() != inputs.len() {
        return Err(CallError::Lengths);
    }
    let paths = texts_of(alloc, paths)?;
    let inputs = with_paths(alloc, paths.as_slice(), inputs)?;
    let made = map.remap(alloc, inputs.as_slice())?;
    Ok(made)
}

/// The map that is borrowed, traced through the maps of the sources with these paths.
fn remap(
    alloc: Global,
    map: &Lent,
    paths: &[&[u8]],
    inputs: &[Lent],
) -> Result<OwnedSourceMap, CallError>
    ensures map { IfOk result (IsRemapped map.now.held (lent_items paths.now)
        (all_lent inputs.now)) }
    ensures error { IfErr result (λ r. (r ≢ out_of_memory) → IsRemapError map.now.held
        (lent_items paths.now) (all_lent inputs.now) r) }
    ensures sure { (r : CallError) → IsSureRemapError map.now.held (lent_items paths.now)
        (all_lent inputs.now) r → result ≡ Err r }
{
    let map = lent_map(map)?;
    // (what needs no memory is found first)
    all_lengths(inputs)?;
    if paths.len() != inputs.len() {
        return Err(CallError::Lengths);
    }
    let inputs = maps_of(alloc, inputs)?;
    remap_map(alloc, map, paths, inputs.as_slice())
}

/// Leads a map through the maps of its sources.
#[unsafe(no_mangle)]
pub extern "C" fn proved_remap(
    alloc: Global,
    map: &Lent,
    paths: &[&[u8]],
    inputs: &[Lent],
    out: &mut Handle,
    fault: &mut Fault,
) -> u32
    ensures map { result ≡ 0 → HoldsMap out.new.held (IsRemapped map.now.held
        (lent_items paths.now) (all_lent inputs.now)) }
    ensures no_error { result ≡ 0 → fault.new ≡ no_fault }
    ensures error { result ≢ 0 → (out.new.held ≡ out.old.held)
        × IsErrorAs result fault.new (IsRemapError map.now.held (lent_items paths.now)
        (all_lent inputs.now)) }
    ensures sure { (r : CallError) → IsSureRemapError map.now.held (lent_items paths.now)
        (all_lent inputs.now) r → result ≡ code_of r }
{
    put_map(alloc, remap(alloc, map, paths, inputs), out, fault)
}

/// Lengths with those of a borrowed map more.
fn with_lent(lengths: Lengths, map: &Lent) -> Result<Lengths, CallError>
    ensures there { OnOk result (held_map map.now.held ≢ None) }
    ensures error { IfErr result (IsMapMissing map.now.held) }
    ensures sure { (r : CallError) → IsMapMissing map.now.held r → result ≡ Err r }
{
    let map = lent_map(map)?;
    Ok(with_lengths(lengths, parts_of(map.as_source_map())))
}

/// The lengths of the maps that are borrowed, summed. Fails with `NullHandle` if one is missing.
fn all_lengths(maps: &[Lent]) -> Result<Lengths, CallError>
    ensures there { OnOk result (all_maps (all_lent maps.now) ≢ None) }
    ensures error { IfErr result (λ r. (r ≡ NullHandle) × (all_maps (all_lent maps.now) ≡ None)) }
{
    let mut lengths = Lengths::default();
    for i in 0..maps.len() {
        lengths = with_lent(lengths, &maps[i])?;
    }
    Ok(lengths)
}

/// Adds a map that is borrowed to a join.
fn add_lent<'a>(
    joined: &mut JoinedParts<'a>,
    map: &Lent,
    position: Position,
) -> Result<(), CallError>
    ensures added { OnOk result (MatchOption (held_map map.now.held) ⊥
        (λ m. joined.new ≡ added joined.old m position)) }
    ensures error { IfErr result (λ r. (r ≢ out_of_memory) → IsAddErrorOf joined.old
        (held_map map.now.held) position r) }
{
    let map = lent_map(map)?;
    joined.add_copied(parts_of(map.as_source_map()), position)?;
    Ok(())
}

/// Adds the maps that are borrowed to a join, each at its position. None is missing.
fn add_all<'a>(
    joined: &mut JoinedParts<'a>,
    maps: &[Lent],
    positions: &[Position],
) -> Result<(), CallError>
    requires empty { joined.old ≡ nothing_joined }
    requires there { all_maps (all_lent maps.now) ≢ None }
    requires pairs { length maps.now ≡ length positions.now }
    ensures joined { OnOk result (IsJoinOfLent (all_lent maps.now) positions.now joined.new) }
    ensures error { IfErr result (λ r. (r ≢ out_of_memory)
        → IsJoinErrorOf (all_lent maps.now) positions.now r) }
{
    for i in 0..maps.len() {
        add_lent(joined, &maps[i], positions[i])?;
    }
    Ok(())
}

/// The join of the maps that are borrowed, each at its position.
fn join_all(
    alloc: Global,
    maps: &[Lent],
    positions: &[Position],
) -> Result<OwnedSourceMap, CallError>
    ensures map { IfOk result (IsJoinOfLent (all_lent maps.now) positions.now) }
    ensures error { IfErr result (λ r. (r ≢ out_of_memory)
        → IsJoinErrorOf (all_lent maps.now) positions.now r) }
    ensures sure { (r : CallError) → IsSureJoinError (all_lent maps.now) positions.now r
        → result ≡ Err r }
{
    let lengths = all_lengths(maps)?;
    if maps.len() != positions.len() {
        return Err(CallError::Lengths);
    }
    let mut joined = with_room(alloc, lengths, maps.len())?;
    add_all(&mut joined, maps, positions)?;
    Ok(OwnedSourceMap::from_parts(joined.into_parts()))
}

/// Joins maps, each at its position.
#[unsafe(no_mangle)]
pub extern "C" fn proved_join_all(
    alloc: Global,
    maps: &[Lent],
    positions: &[Position],
    out: &mut Handle,
    fault: &mut Fault,
) -> u32
    ensures map { result ≡ 0 → HoldsMap out.new.held
        (IsJoinOfLent (all_lent maps.now) positions.now) }
    ensures no_error { result ≡ 0 → fault.new ≡ no_fault }
    ensures error { result ≢ 0 → (out.new.held ≡ out.old.held)
        × IsErrorAs result fault.new (IsJoinErrorOf (all_lent maps.now) positions.now) }
    ensures sure { (r : CallError) → IsSureJoinError (all_lent maps.now) positions.now r
        → result ≡ code_of r }
{
    put_map(alloc, join_all(alloc, maps, positions), out, fault)
}
