//! Maps that several handles hold.
ghost use Rattle.std.specs.Prelude.{◌≡◌, ◌≢◌, Ok, Err, Some, IfOk, IfErr, OnOk, OnErr};
ghost use Rattle.oxc_sourcemap_c.specs.Words.{HeldMap, shared_loaded, IsShared, IsSharedOf};
ghost use Rattle.oxc_sourcemap_c.specs.Words.{CallError, IsMapMissing, IsRetainError, IsErrorAs};
ghost use Rattle.oxc_sourcemap_c.specs.Words.{out_of_memory, code_of, no_fault};

use crate::answers::write_fault;
use crate::holding::{Handle, Held, Lent, LoadedMap, put};
use crate::numbers::{CallError, Fault};
use std::alloc::Global;
use std::mem;
use std::sync::Arc;

/// A map, shared, or as it was for want of memory.
fn shared(alloc: Global, loaded: LoadedMap) -> (Held, Result<(), CallError>)
    ensures shared { OnOk result.1 (shared_loaded (Some result.0) ≡ Some loaded) }
    ensures error { IfErr result.1 (λ r. r ≡ out_of_memory) }
    ensures unchanged { OnErr result.1 (result.0 ≡ HeldMap loaded) }
{
    match Arc::new(alloc, loaded) {
        Ok(map) => (Held::Shared(map), Ok(())),
        Err(failed) => (Held::Map(failed.value), Err(CallError::memory())),
    }
}

/// Shares the map in what a handle holds. Fails with `NullHandle` if there is none, and for want of memory.
fn share_held(alloc: Global, held: &mut Held) -> Result<(), CallError>
    ensures shared { OnOk result (IsSharedOf (Some held.old) (Some held.new)) }
    ensures kept { IsShared (Some held.old) → (result ≡ Ok tt) × (held.new ≡ held.old) }
    ensures error { IfErr result (λ r. (r ≢ out_of_memory) → IsMapMissing (Some held.old) r) }
    ensures sure { (r : CallError) → IsMapMissing (Some held.old) r → result ≡ Err r }
    ensures unchanged { OnErr result (held.new ≡ held.old) }
{
    let (now, answer) = match mem::replace(held, Held::Written(String::new(alloc))) {
        Held::Map(loaded) => shared(alloc, loaded),
        Held::Shared(map) => (Held::Shared(map), Ok(())),
        other => (other, Err(CallError::NullHandle)),
    };
    *held = now;
    answer
}

/// Shares the map in a handle. Fails with `NullHandle` if there is none, and for want of memory; on an error the map is as it was.
fn share_map(alloc: Global, handle: &mut Handle) -> Result<(), CallError>
    ensures shared { OnOk result (IsSharedOf handle.old.held handle.new.held) }
    ensures kept { IsShared handle.old.held
        → (result ≡ Ok tt) × (handle.new.held ≡ handle.old.held) }
    ensures error { IfErr result (λ r. (r ≢ out_of_memory) → IsMapMissing handle.old.held r) }
    ensures sure { (r : CallError) → IsMapMissing handle.old.held r → result ≡ Err r }
    ensures unchanged { OnErr result (handle.new.held ≡ handle.old.held) }
{
    match handle.take(alloc) {
        Some(held) => {
            let mut held = held;
            let shared = share_held(alloc, held.as_mut());
            handle.put(held);
            shared
        }
        None => Err(CallError::NullHandle),
    }
}

/// Makes a map one that several handles may hold, and that no call changes. One that is shared stays as it is.
#[unsafe(no_mangle)]
pub extern "C" fn proved_share_map(alloc: Global, map: &mut Handle, fault: &mut Fault) -> u32
    ensures shared { result ≡ 0 → IsSharedOf map.old.held map.new.held }
    ensures kept { IsShared map.old.held → (result ≡ 0) × (map.new.held ≡ map.old.held) }
    ensures no_error { result ≡ 0 → fault.new ≡ no_fault }
    ensures error { result ≢ 0 → (map.new.held ≡ map.old.held)
        × IsErrorAs result fault.new (IsMapMissing map.old.held) }
    ensures sure { (r : CallError) → IsMapMissing map.old.held r → result ≡ code_of r }
{
    write_fault(share_map(alloc, map), fault)
}

/// Another handle of the shared map that is borrowed. Fails with `NullHandle` if there is no map, with `NotShared` if it is not
/// shared, and for want of memory.
fn retained(alloc: Global, map: &Lent) -> Result<Box<Held>, CallError>
    ensures shared { IfOk result (λ held. IsShared map.now.held
        × IsSharedOf map.now.held (Some held.value)) }
    ensures error { IfErr result (λ r. (r ≢ out_of_memory) → IsRetainError map.now.held r) }
    ensures sure { (r : CallError) → IsRetainError map.now.held r → result ≡ Err r }
{
    match map.get() {
        Some(Held::Shared(shared)) => {
            Ok(Box::new(alloc, Held::Shared(Arc::try_clone(shared)?))?)
        }
        Some(Held::Map(_)) => Err(CallError::NotShared),
        _ => Err(CallError::NullHandle),
    }
}

/// Makes another handle of a shared map, which is freed with its last handle.
#[unsafe(no_mangle)]
pub extern "C" fn proved_retain_map(
    alloc: Global,
    map: &Lent,
    out: &mut Handle,
    fault: &mut Fault,
) -> u32
    ensures shared { result ≡ 0 → IsShared map.now.held
        × IsSharedOf map.now.held out.new.held }
    ensures no_error { result ≡ 0 → fault.new ≡ no_fault }
    ensures error { result ≢ 0 → (out.new.held ≡ out.old.held)
        × IsErrorAs result fault.new (IsRetainError map.now.held) }
    ensures sure { (r : CallError) → IsRetainError map.now.held r → result ≡ code_of r }
{
    put(alloc, retained(alloc, map), out, fault)
}
