//! Compiled maps made of maps, opened, and taken apart.
ghost use Rattle.std.specs.Prelude.{◌≡◌, ◌≢◌, Some, None, Err, length, IfOk, IfErr};
ghost use Rattle.oxc_sourcemap_c.specs.Words.{HoldsMap, HoldsString, HoldsCompiled, IsErrorAs};
ghost use Rattle.oxc_sourcemap_c.specs.Words.{no_fault, out_of_memory, IsCompiledFrom, Lengths};
ghost use Rattle.oxc_sourcemap_c.specs.Words.{IsCompileError, IsOpenError, IsDecompileError};
ghost use Rattle.oxc_sourcemap_c.specs.Words.{held_compiled, held_map, compiled_fault};
ghost use Rattle.oxc_sourcemap_c.specs.Words.{code_of, CallError, IsTakenApart, IsUncompiled};
ghost use Rattle.oxc_sourcemap_c.specs.Words.{IsSureDecompileError, IsSureCompileError, IsUnsorted};

use crate::holding::{Handle, Lent, put_bytes, put_compiled, put_map};
use crate::numbers::{CallError, Fault};
use oxc_sourcemap_compiled::{CompiledMap, compile};
use oxc_sourcemap_map::{OwnedSourceMap, SourceMap, parts_of};
use oxc_sourcemap_parts::owned_parts;
use std::alloc::Global;

/// The 32 bytes of a stamp. Fails with `Lengths` if there are more or fewer.
fn stamp_of(bytes: &[u8]) -> Result<&[u8; 32], CallError>
    ensures stamp { IfOk result (λ stamp. stamp.now ≡ bytes.now) }
    ensures size { IfOk result (λ stamp. length bytes.now ≡ 32) }
    ensures error { IfErr result (λ r. (r ≡ Lengths) × (length bytes.now ≢ 32)) }
{
    match <&[u8; 32]>::try_from(bytes) {
        Ok(stamp) => Ok(stamp),
        Err(_) => Err(CallError::Lengths),
    }
}

/// The bytes of a map, compiled.
fn compile_map(
    alloc: Global,
    map: &SourceMap<'static>,
    text_length: u64,
    stamp: &[u8; 32],
) -> Result<Vec<u8>, CallError>
    ensures bytes { IfOk result
        (λ bytes. IsCompiledFrom map.now text_length stamp.now bytes.items) }
    ensures error { IfErr result (λ r. (r ≢ out_of_memory) → IsUncompiled map.now r) }
    ensures sure { (r : CallError) → IsUnsorted map.now r → result ≡ Err r }
{
    Ok(compile(alloc, parts_of(map), text_length, stamp)?)
}

/// The bytes of the map that is borrowed, compiled.
fn compile_lent(
    alloc: Global,
    map: &Lent,
    text_length: u64,
    stamp: &[u8],
) -> Result<Vec<u8>, CallError>
    ensures bytes { IfOk result (λ bytes. HoldsMap map.now.held
        (λ m. IsCompiledFrom m text_length stamp.now bytes.items)) }
    ensures error { IfErr result (λ r. (r ≢ out_of_memory)
        → IsCompileError (held_map map.now.held) stamp.now r) }
    ensures sure { (r : CallError) → IsSureCompileError (held_map map.now.held) stamp.now r
        → result ≡ Err r }
{
    let map = map.source_map()?;
    let stamp = stamp_of(stamp)?;
    compile_map(alloc, map.as_source_map(), text_length, stamp)
}

/// Compiles a map, with the number of bytes of its text, and 32 bytes that are kept as they are.
#[unsafe(no_mangle)]
pub extern "C" fn proved_compile(
    alloc: Global,
    map: &Lent,
    text_length: u64,
    stamp: &[u8],
    out: &mut Handle,
    fault: &mut Fault,
) -> u32
    ensures bytes { result ≡ 0 → HoldsMap map.now.held (λ m. HoldsString out.new.held
        (IsCompiledFrom m text_length stamp.now)) }
    ensures no_error { result ≡ 0 → fault.new ≡ no_fault }
    ensures error { result ≢ 0 → (out.new.held ≡ out.old.held) × IsErrorAs result fault.new
        (IsCompileError (held_map map.now.held) stamp.now) }
    ensures sure { (r : CallError) → IsSureCompileError (held_map map.now.held) stamp.now r
        → result ≡ code_of r }
{
    put_bytes(
        alloc,
        compile_lent(alloc, map, text_length, stamp),
        out,
        fault,
    )
}

/// Opens bytes that are a compiled map.
fn open(bytes: &'static [u8]) -> Result<CompiledMap<'static>, CallError>
    ensures map { IfOk result (λ map. (map ≡ bytes.now) × (compiled_fault bytes.now ≡ None)) }
    ensures error { IfErr result (IsOpenError bytes.now) }
{
    Ok(CompiledMap::open(bytes)?)
}

/// Opens the bytes of a compiled map, which C keeps as they are until the handle is freed.
#[unsafe(no_mangle)]
pub extern "C" fn proved_open_compiled(
    alloc: Global,
    bytes: &'static [u8],
    out: &mut Handle,
    fault: &mut Fault,
) -> u32
    ensures map { result ≡ 0 → (held_compiled out.new.held ≡ Some bytes.now)
        × (compiled_fault bytes.now ≡ None) }
    ensures no_error { result ≡ 0 → fault.new ≡ no_fault }
    ensures error { result ≢ 0 → (out.new.held ≡ out.old.held)
        × IsErrorAs result fault.new (IsOpenError bytes.now) }
{
    put_compiled(alloc, open(bytes), out, fault)
}

/// The map that a compiled map was made of. Fails with `NoEntry` if its lines or texts go back, or a text is not UTF-8.
fn decompile(alloc: Global, map: &Lent) -> Result<OwnedSourceMap, CallError>
    ensures map { IfOk result (λ made. HoldsCompiled map.now.held
        (λ bytes. IsTakenApart bytes made)) }
    ensures error { IfErr result (λ r. (r ≢ out_of_memory) → IsDecompileError map.now.held r) }
    ensures sure { (r : CallError) → IsSureDecompileError map.now.held r → result ≡ Err r }
{
    let compiled = map.compiled()?;
    match compiled.decompile(alloc)? {
        Some(parts) => Ok(OwnedSourceMap::from_parts(owned_parts(alloc, parts)?)),
        None => Err(CallError::NoEntry),
    }
}

/// Makes a map of a compiled map.
#[unsafe(no_mangle)]
pub extern "C" fn proved_decompile(
    alloc: Global,
    map: &Lent,
    out: &mut Handle,
    fault: &mut Fault,
) -> u32
    ensures map { result ≡ 0 → HoldsMap out.new.held (λ m. HoldsCompiled map.now.held
        (λ bytes. IsTakenApart bytes m)) }
    ensures no_error { result ≡ 0 → fault.new ≡ no_fault }
    ensures error { result ≢ 0 → (out.new.held ≡ out.old.held)
        × IsErrorAs result fault.new (IsDecompileError map.now.held) }
    ensures sure { (r : CallError) → IsSureDecompileError map.now.held r → result ≡ code_of r }
{
    put_map(alloc, decompile(alloc, map), out, fault)
}
