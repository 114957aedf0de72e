//! Maps made of texts, and put into handles.
ghost use Rattle.std.specs.Prelude.{◌≡◌, ◌≢◌, Some, Ok, IfOk, IfErr, MatchResult, map};
ghost use Rattle.std.specs.Prelude.{MatchOption};
ghost use Rattle.oxc_sourcemap_c.specs.Words.{read_map, out_of_memory, no_fault, fault_at};
ghost use Rattle.oxc_sourcemap_c.specs.Words.{fault_of, code_of, held_map, held_mends, IsFailure};
ghost use Rattle.oxc_sourcemap_c.specs.Words.{IsTextErrorAt, IsReadErrorAt};
ghost use Rattle.oxc_sourcemap_c.specs.Words.{IsSegmentErrorAt, found, IsMappingsErrorAt, IsSound};
ghost use Rattle.oxc_sourcemap_c.specs.Words.{reading, map_of_tokens, found_record, IsFoundErrorAt};
ghost use Rattle.oxc_sourcemap_c.specs.Words.{IsFoundTextErrorAt, HoldsMap, IsErrorAt};

use crate::holding::{Handle, Held, box_map};
use crate::making::failure::Failure;
use crate::numbers::{CallError, Fault};
use crate::texts::text_of;
use oxc_sourcemap_found::{Mend, mending_harmless, read_located};
use oxc_sourcemap_json::read_parts_from_string;
use oxc_sourcemap_map::OwnedSourceMap;
use oxc_sourcemap_mappings::read_mappings;
use oxc_sourcemap_parts::SourceMapParts;
use std::alloc::Global;

fn read_owned_map(alloc: Global, text: &str) -> Result<OwnedSourceMap, Failure>
    ensures map { IfOk result (λ map. read_map text.now ≡ Ok map) }
    ensures error { IfErr result (IsFailure (IsTextErrorAt text.now)) }
{
    let parts = read_parts_from_string(alloc, text)?;
    Ok(OwnedSourceMap::from_parts(parts))
}

/// The map of a JSON text.
fn read(alloc: Global, json: &[u8]) -> Result<OwnedSourceMap, Failure>
    ensures map { IfOk result (λ map. read_map json.now ≡ Ok map) }
    ensures error { IfErr result (IsFailure (IsReadErrorAt json.now)) }
{
    match text_of(json) {
        Ok(text) => read_owned_map(alloc, text),
        Err(error) => Err(Failure::of(error)),
    }
}

/// Makes a map of its JSON text.
#[unsafe(no_mangle)]
pub extern "C" fn proved_from_json_string(
    alloc: Global,
    json: &[u8],
    out: &mut Handle,
    fault: &mut Fault,
) -> u32
    ensures map { result ≡ 0 → HoldsMap out.new.held (λ m. read_map json.now ≡ Ok m) }
    ensures no_error { result ≡ 0 → fault.new ≡ no_fault }
    ensures error { result ≢ 0 → (out.new.held ≡ out.old.held)
        × IsErrorAt result fault.new (IsReadErrorAt json.now) }
{
    put_read(alloc, read(alloc, json), out, fault)
}

fn decode_text(
    alloc: Global,
    text: &str,
    names: usize,
    sources: usize,
) -> Result<OwnedSourceMap, Failure>
    ensures map { IfOk result (λ map. (map ≡ map_of_tokens map.tokens)
        × (reading text.now names sources ≡ Ok map.tokens)) }
    ensures error { IfErr result (IsFailure (IsSegmentErrorAt text.now names sources)) }
{
    let tokens = read_mappings(alloc, text, names, sources)?;
    let Ok(mut parts) = SourceMapParts::empty(alloc) else {
        return Err(Failure::memory());
    };
    parts.tokens = tokens;
    Ok(OwnedSourceMap::from_parts(parts))
}

/// The map that has the tokens of a mappings text and nothing else. Ids are to be below these numbers of names and sources.
fn decode_mappings(
    alloc: Global,
    mappings: &[u8],
    names: usize,
    sources: usize,
) -> Result<OwnedSourceMap, Failure>
    ensures map { IfOk result (λ map. (map ≡ map_of_tokens map.tokens)
        × (reading mappings.now names sources ≡ Ok map.tokens)) }
    ensures error { IfErr result (IsFailure (IsMappingsErrorAt mappings.now names sources)) }
{
    match text_of(mappings) {
        Ok(text) => decode_text(alloc, text, names, sources),
        Err(error) => Err(Failure::of(error)),
    }
}

/// Makes the map that has the tokens of a mappings text and nothing else. Ids are to be below these numbers of names and sources.
#[unsafe(no_mangle)]
pub extern "C" fn proved_decode_mappings(
    alloc: Global,
    mappings: &[u8],
    names: usize,
    sources: usize,
    out: &mut Handle,
    fault: &mut Fault,
) -> u32
    ensures map { result ≡ 0 → HoldsMap out.new.held (λ m. (m ≡ map_of_tokens m.tokens)
        × (reading mappings.now names sources ≡ Ok m.tokens)) }
    ensures no_error { result ≡ 0 → fault.new ≡ no_fault }
    ensures error { result ≢ 0 → (out.new.held ≡ out.old.held)
        × IsErrorAt result fault.new (IsMappingsErrorAt mappings.now names sources) }
{
    put_read(
        alloc,
        decode_mappings(alloc, mappings, names, sources),
        out,
        fault,
    )
}

/// Writes a failure, and returns its code.
fn write_failure(failure: Failure, fault: &mut Fault) -> u32
    ensures { (fault.new ≡ fault_at failure.error failure.place)
        × (result ≡ code_of failure.error) }
{
    *fault = Fault::at(failure.error, failure.place);
    fault.code
}

/// Puts a map that was read into a handle, whose old map is then dropped, and returns the code.
pub fn put_read(
    alloc: Global,
    made: Result<OwnedSourceMap, Failure>,
    handle: &mut Handle,
    fault: &mut Fault,
) -> u32
    ensures map { result ≡ 0 → MatchResult made
        (λ map. (held_map handle.new.held ≡ Some map) × (fault.new ≡ no_fault)) (λ _. ⊥) }
    ensures error { result ≢ 0 → (handle.new.held ≡ handle.old.held)
        × MatchResult made (λ _. (fault.new ≡ fault_of out_of_memory)
        × (result ≡ code_of out_of_memory)) (λ f. (fault.new ≡ fault_at f.error f.place)
        × (result ≡ code_of f.error)) }
{
    match made {
        Ok(map) => crate::holding::put(alloc, box_map(alloc, map), handle, fault),
        Err(failure) => write_failure(failure, fault),
    }
}

fn read_found_text(alloc: Global, text: &str) -> Result<(OwnedSourceMap, Vec<Mend>), Failure>
    ensures found { IfOk result (λ f. found text.now ≡ Ok (found_record f.1.items f.0)) }
    ensures sound { IfOk result (λ f. IsSound f.0) }
    ensures error { IfErr result (IsFailure (IsFoundTextErrorAt text.now)) }
{
    mending_harmless();
    let found = read_located(alloc, text)?;
    Ok((OwnedSourceMap::from_parts(found.parts), found.mends))
}

/// The map of a text as it is found, with what was mended.
fn read_found(alloc: Global, text: &[u8]) -> Result<(OwnedSourceMap, Vec<Mend>), Failure>
    ensures found { IfOk result (λ f. found text.now ≡ Ok (found_record f.1.items f.0)) }
    ensures sound { IfOk result (λ f. IsSound f.0) }
    ensures error { IfErr result (IsFailure (IsFoundErrorAt text.now)) }
{
    match text_of(text) {
        Ok(text) => read_found_text(alloc, text),
        Err(error) => Err(Failure::of(error)),
    }
}

/// Makes a map of a text as it is found, and reports what was mended.
#[unsafe(no_mangle)]
pub extern "C" fn proved_read_found(
    alloc: Global,
    text: &[u8],
    out: &mut Handle,
    mends: &mut Handle,
    fault: &mut Fault,
) -> u32
    ensures map { result ≡ 0 → HoldsMap out.new.held (λ m. MatchOption (held_mends mends.new.held) ⊥
        (λ ms. found text.now ≡ Ok (found_record ms m))) }
    ensures sound { result ≡ 0 → HoldsMap out.new.held IsSound }
    ensures no_error { result ≡ 0 → fault.new ≡ no_fault }
    ensures error { result ≢ 0 → (out.new.held ≡ out.old.held)
        × (mends.new.held ≡ mends.old.held)
        × IsErrorAt result fault.new (IsFoundErrorAt text.now) }
{
    put_found(alloc, read_found(alloc, text), out, mends, fault)
}

/// A map that was found and its mends, in boxes for handles.
fn box_found(
    alloc: Global,
    map: OwnedSourceMap,
    mends: Vec<Mend>,
) -> Result<(Box<Held>, Box<Held>), CallError>
    ensures boxes { IfOk result (λ b. (held_map (Some b.0.value) ≡ Some map)
        × (held_mends (Some b.1.value) ≡ Some mends.items)) }
    ensures error { IfErr result (λ r. r ≡ out_of_memory) }
{
    let map = box_map(alloc, map)?;
    Ok((map, Box::new(alloc, Held::Mended(mends))?))
}

/// Puts a map that was found and its mends into handles, whose old contents are then dropped, and returns the code.
fn put_found(
    alloc: Global,
    made: Result<(OwnedSourceMap, Vec<Mend>), Failure>,
    handle: &mut Handle,
    mends: &mut Handle,
    fault: &mut Fault,
) -> u32
    ensures found { result ≡ 0 → MatchResult made (λ f. (held_map handle.new.held ≡ Some f.0)
        × (held_mends mends.new.held ≡ Some f.1.items) × (fault.new ≡ no_fault)) (λ _. ⊥) }
    ensures error { result ≢ 0 → (handle.new.held ≡ handle.old.held)
        × (mends.new.held ≡ mends.old.held)
        × MatchResult made (λ _. (fault.new ≡ fault_of out_of_memory)
        × (result ≡ code_of out_of_memory)) (λ f. (fault.new ≡ fault_at f.error f.place)
        × (result ≡ code_of f.error)) }
{
    let (map, told) = match made {
        Ok(found) => found,
        Err(failure) => return write_failure(failure, fault),
    };
    match box_found(alloc, map, told) {
        Ok((map, told)) => {
            drop(handle.take(alloc));
            handle.put(map);
            drop(mends.take(alloc));
            mends.put(told);
            *fault = Fault::none();
            0
        }
        Err(error) => {
            *fault = Fault::of(error);
            fault.code
        }
    }
}
