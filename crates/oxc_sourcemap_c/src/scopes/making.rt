//! Scopes read into handles.
ghost use Rattle.std.specs.Prelude.{◌≡◌, ◌≢◌, Ok, Err, IfOk, IfErr};
ghost use Rattle.oxc_sourcemap_c.specs.Words.{HoldsScopes, IsErrorAs, IsReadScopesError, no_fault};
ghost use Rattle.oxc_sourcemap_c.specs.Words.{IsDecodeScopesError, out_of_memory, IsNotText};
ghost use Rattle.oxc_sourcemap_c.specs.Words.{AreSound};
ghost use Rattle.oxc_sourcemap_c.specs.Words.{scopes_of, read_scopes, CallError, code_of};

use crate::holding::{Handle, put_scopes};
use crate::numbers::{CallError, Fault};
use crate::texts::text_of;
use oxc_sourcemap_scopes::{Scopes, decode_scopes, read_scopes};
use std::alloc::Global;

/// The scopes of a map, by the bytes of its JSON text.
fn read(alloc: Global, json: &[u8]) -> Result<Scopes, CallError>
    ensures scopes { IfOk result (λ s. read_scopes json.now ≡ Ok s) }
    ensures sound { IfOk result AreSound }
    ensures error { IfErr result (λ r. (r ≢ out_of_memory) → IsReadScopesError json.now r) }
    ensures sure { (r : CallError) → IsNotText json.now r → result ≡ Err r }
{
    Ok(read_scopes(alloc, text_of(json)?)?)
}

/// Reads the scopes of a map, by its JSON text.
#[unsafe(no_mangle)]
pub extern "C" fn proved_read_scopes(
    alloc: Global,
    json: &[u8],
    out: &mut Handle,
    fault: &mut Fault,
) -> u32
    ensures scopes { result ≡ 0 → HoldsScopes out.new.held (λ s. read_scopes json.now ≡ Ok s) }
    ensures sound { result ≡ 0 → HoldsScopes out.new.held AreSound }
    ensures no_error { result ≡ 0 → fault.new ≡ no_fault }
    ensures error { result ≢ 0 → (out.new.held ≡ out.old.held)
        × IsErrorAs result fault.new (IsReadScopesError json.now) }
    ensures sure { (r : CallError) → IsNotText json.now r → result ≡ code_of r }
{
    put_scopes(alloc, read(alloc, json), out, fault)
}

/// The scopes that the bytes of a text mean, where there are so many names.
fn decode(alloc: Global, text: &[u8], names: usize) -> Result<Scopes, CallError>
    ensures scopes { IfOk result (λ s. scopes_of text.now names ≡ Ok s) }
    ensures sound { IfOk result AreSound }
    ensures error { IfErr result (λ r. (r ≢ out_of_memory)
        → IsDecodeScopesError text.now names r) }
    ensures sure { (r : CallError) → IsNotText text.now r → result ≡ Err r }
{
    Ok(decode_scopes(alloc, text_of(text)?, names)?)
}

/// Reads the member `scopes` of a map with so many names.
#[unsafe(no_mangle)]
pub extern "C" fn proved_decode_scopes(
    alloc: Global,
    text: &[u8],
    names: usize,
    out: &mut Handle,
    fault: &mut Fault,
) -> u32
    ensures scopes { result ≡ 0 → HoldsScopes out.new.held (λ s. scopes_of text.now names ≡ Ok s) }
    ensures sound { result ≡ 0 → HoldsScopes out.new.held AreSound }
    ensures no_error { result ≡ 0 → fault.new ≡ no_fault }
    ensures error { result ≢ 0 → (out.new.held ≡ out.old.held)
        × IsErrorAs result fault.new (IsDecodeScopesError text.now names) }
    ensures sure { (r : CallError) → IsNotText text.now r → result ≡ code_of r }
{
    put_scopes(alloc, decode(alloc, text, names), out, fault)
}
