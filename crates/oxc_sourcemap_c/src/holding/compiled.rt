//! What compiled maps in handles say of generated positions, and how they come into handles.
ghost use Rattle.std.specs.Prelude.{◌≡◌, ◌≢◌, Some, Err, length, IfOk, IfErr, MatchResult};
ghost use Rattle.std.specs.List.{AllZip};
ghost use Rattle.oxc_sourcemap_c.specs.Words.{IsCompiledTrace, IsCompiledIndex, held_text};
ghost use Rattle.oxc_sourcemap_c.specs.Words.{held_compiled, no_fault, out_of_memory};
ghost use Rattle.oxc_sourcemap_c.specs.Words.{code_of, IsErrorAs};

use crate::holding::handle::Handle;
use crate::holding::held::Held;
use crate::holding::operations::put;
use crate::numbers::call_error::CallError;
use crate::numbers::fault::Fault;
use crate::texts::text::{Original, index_or_none};
use oxc_sourcemap_compiled::CompiledMap;
use oxc_sourcemap_lookup::Bias;
use oxc_sourcemap_tokens::Position;
use std::alloc::Global;

/// Writes what a compiled map says of a generated position.
#[inline(always)]
pub fn trace_compiled<'c>(
    map: &'c CompiledMap<'static>,
    at: Position,
    bias: Bias,
    out: &mut Original<'c>,
)
    ensures { IsCompiledTrace bias map.now at out.new }
{
    match map.find(at, bias) {
        Some(found) => out.write_compiled(found.0, found.1, map),
        None => *out = Original::nothing(),
    }
}

/// What a compiled map says of many positions, each at the index of its position.
pub fn trace_all_compiled<'c>(
    map: &'c CompiledMap<'static>,
    positions: &[Position],
    bias: Bias,
    out: &mut [Original<'c>],
)
    requires { length positions.now ≡ length out.old }
    ensures { AllZip (IsCompiledTrace bias map.now) positions.now out.new }
{
    for i in 0..positions.len() {
        trace_compiled(map, positions[i], bias, &mut out[i]);
    }
}

/// The indices of the tokens that answer for many positions, each at the index of its position; 4294967295 for none.
pub fn find_all_compiled(
    map: &CompiledMap<'static>,
    positions: &[Position],
    bias: Bias,
    out: &mut [u32],
)
    requires { length positions.now ≡ length out.old }
    ensures { AllZip (IsCompiledIndex bias map.now) positions.now out.new }
{
    for i in 0..positions.len() {
        out[i] = index_or_none(map.find_index(positions[i], bias));
    }
}

/// Puts the bytes of a compiled map that was made into a handle, whose old text is then dropped, and returns the code.
pub fn put_bytes(
    alloc: Global,
    made: Result<Vec<u8>, CallError>,
    handle: &mut Handle,
    fault: &mut Fault,
) -> u32
    ensures bytes { result ≡ 0 → MatchResult made
        (λ bytes. (held_text handle.new.held ≡ Some bytes.items) × (fault.new ≡ no_fault))
        (λ _. ⊥) }
    ensures error { result ≢ 0 → (handle.new.held ≡ handle.old.held)
        × IsErrorAs result fault.new (λ r. made ≡ Err r) }
    ensures told { IfErr made (λ r. result ≡ code_of r) }
{
    let held = match made {
        Ok(bytes) => match Box::new(alloc, Held::Bytes(bytes)) {
            Ok(held) => Ok(held),
            Err(_) => Err(CallError::memory()),
        },
        Err(error) => Err(error),
    };
    put(alloc, held, handle, fault)
}

/// A compiled map in a box for a handle.
fn box_compiled(alloc: Global, map: CompiledMap<'static>) -> Result<Box<Held>, CallError>
    ensures map { IfOk result (λ held. held_compiled (Some held.value) ≡ Some map.entry) }
    ensures error { IfErr result (λ r. r ≡ out_of_memory) }
{
    Ok(Box::new(alloc, Held::Compiled(map))?)
}

/// Puts a compiled map that was opened into a handle, whose old one is then dropped, and returns the code.
pub fn put_compiled(
    alloc: Global,
    opened: Result<CompiledMap<'static>, CallError>,
    handle: &mut Handle,
    fault: &mut Fault,
) -> u32
    ensures map { result ≡ 0 → MatchResult opened.entry
        (λ map. (held_compiled handle.new.held ≡ Some map) × (fault.new ≡ no_fault)) (λ _. ⊥) }
    ensures error { result ≢ 0 → (handle.new.held ≡ handle.old.held)
        × IsErrorAs result fault.new (λ r. opened.entry ≡ Err r) }
    ensures told { IfErr opened.entry (λ r. result ≡ code_of r) }
{
    let held = match opened {
        Ok(map) => box_compiled(alloc, map),
        Err(error) => Err(error),
    };
    put(alloc, held, handle, fault)
}
