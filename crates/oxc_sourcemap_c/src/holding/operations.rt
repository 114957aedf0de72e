//! Putting results into handles.
ghost use Rattle.std.specs.Prelude.{◌≡◌, ◌≢◌, Some, Err, string_bytes, IfOk, IfErr, MatchResult};
ghost use Rattle.oxc_sourcemap_c.specs.Words.{out_of_memory, fault_of, code_of, no_fault};
ghost use Rattle.oxc_sourcemap_c.specs.Words.{held_map, own_map, held_text, held_scopes, IsErrorAs};

use crate::holding::handle::Handle;
use crate::holding::held::{Held, LoadedMap, index_of};
use crate::numbers::call_error::CallError;
use crate::numbers::fault::Fault;
use oxc_sourcemap_map::OwnedSourceMap;
use oxc_sourcemap_scopes::Scopes;
use std::alloc::Global;

/// A box for what is made later: until then it holds an empty text.
pub fn empty_box(alloc: Global) -> Result<Box<Held>, CallError>
    ensures { IfErr result (λ r. r ≡ out_of_memory) }
{
    Ok(Box::new(alloc, Held::Written(String::new(alloc)))?)
}

/// A map in a box for a handle, with its index.
// The box and the index are made first, so that the map is copied into the box at once.
pub fn box_map(alloc: Global, map: OwnedSourceMap) -> Result<Box<Held>, CallError>
    ensures map { IfOk result (λ held. held_map (Some held.value) ≡ Some map) }
    ensures own { IfOk result (λ held. own_map (Some held.value) ≡ Some map) }
    ensures error { IfErr result (λ r. r ≡ out_of_memory) }
{
    let mut held = empty_box(alloc)?;
    let index = index_of(alloc, map.get_tokens().as_slice())?;
    *held.as_mut() = Held::Map(LoadedMap::with_index(map, index));
    Ok(held)
}

/// Puts a map that was made into a handle, whose old map is then dropped, and returns the code.
pub fn put_map(
    alloc: Global,
    made: Result<OwnedSourceMap, CallError>,
    handle: &mut Handle,
    fault: &mut Fault,
) -> u32
    ensures map { result ≡ 0 → MatchResult made
        (λ map. (held_map handle.new.held ≡ Some map) × (fault.new ≡ no_fault)) (λ _. ⊥) }
    ensures error { result ≢ 0 → (handle.new.held ≡ handle.old.held)
        × IsErrorAs result fault.new (λ r. made ≡ Err r) }
    ensures own { result ≡ 0 → own_map handle.new.held ≡ held_map handle.new.held }
    ensures told { IfErr made (λ r. result ≡ code_of r) }
{
    let held = match made {
        Ok(map) => box_map(alloc, map),
        Err(error) => Err(error),
    };
    put(alloc, held, handle, fault)
}

/// Puts a text that was written into a handle, whose old text is then dropped, and returns the code.
pub fn put_text(
    alloc: Global,
    written: Result<String, CallError>,
    handle: &mut Handle,
    fault: &mut Fault,
) -> u32
    ensures text { result ≡ 0 → MatchResult written
        (λ text. (held_text handle.new.held ≡ Some (string_bytes text)) × (fault.new ≡ no_fault))
        (λ _. ⊥) }
    ensures error { result ≢ 0 → (handle.new.held ≡ handle.old.held)
        × IsErrorAs result fault.new (λ r. written ≡ Err r) }
    ensures told { IfErr written (λ r. result ≡ code_of r) }
{
    let held = match written {
        Ok(text) => match Box::new(alloc, Held::Written(text)) {
            Ok(held) => Ok(held),
            Err(_) => Err(CallError::memory()),
        },
        Err(error) => Err(error),
    };
    put(alloc, held, handle, fault)
}

/// Scopes in a box for a handle.
fn box_scopes(alloc: Global, scopes: Scopes) -> Result<Box<Held>, CallError>
    ensures scopes { IfOk result (λ held. held_scopes (Some held.value) ≡ Some scopes) }
    ensures error { IfErr result (λ r. r ≡ out_of_memory) }
{
    let mut held = empty_box(alloc)?;
    *held.as_mut() = Held::Scopes(scopes);
    Ok(held)
}

/// Puts scopes that were read into a handle, whose old ones are then dropped, and returns the code.
pub fn put_scopes(
    alloc: Global,
    read: Result<Scopes, CallError>,
    handle: &mut Handle,
    fault: &mut Fault,
) -> u32
    ensures scopes { result ≡ 0 → MatchResult read
        (λ scopes. (held_scopes handle.new.held ≡ Some scopes) × (fault.new ≡ no_fault))
        (λ _. ⊥) }
    ensures error { result ≢ 0 → (handle.new.held ≡ handle.old.held)
        × IsErrorAs result fault.new (λ r. read ≡ Err r) }
    ensures told { IfErr read (λ r. result ≡ code_of r) }
{
    let held = match read {
        Ok(scopes) => box_scopes(alloc, scopes),
        Err(error) => Err(error),
    };
    put(alloc, held, handle, fault)
}

/// Puts what was made into a handle, or on an error leaves the handle as it is, and returns the code.
pub fn put(
    alloc: Global,
    made: Result<Box<Held>, CallError>,
    handle: &mut Handle,
    fault: &mut Fault,
) -> u32
    ensures held { result ≡ 0 → MatchResult made
        (λ held. (handle.new.held ≡ Some held.value) × (fault.new ≡ no_fault)) (λ _. ⊥) }
    ensures error { result ≢ 0 → (handle.new.held ≡ handle.old.held)
        × MatchResult made (λ _. ⊥) (λ r. (fault.new ≡ fault_of r) × (result ≡ code_of r)) }
{
    match made {
        Ok(held) => {
            drop(handle.take(alloc));
            handle.put(held);
            *fault = Fault::none();
            0
        }
        Err(error) => {
            *fault = Fault::of(error);
            fault.code
        }
    }
}
