//! Calls on the joins that handles hold.
ghost use Rattle.std.specs.Prelude.{◌≡◌, ◌≢◌, Some, Ok, Err, IfOk, IfErr, OnOk, OnErr, MatchResult};
ghost use Rattle.std.specs.Prelude.{IfSome, None, map};
ghost use Rattle.oxc_sourcemap_c.specs.Words.{out_of_memory, no_fault, held_join, held_map};
ghost use Rattle.oxc_sourcemap_c.specs.Words.{IsErrorAs, added, IsWithinLimits, nothing_joined};
ghost use Rattle.oxc_sourcemap_c.specs.Words.{IsJoined, IsAddError, IsOneNull, IsPartsError};
ghost use Rattle.oxc_sourcemap_c.specs.Words.{IsJoinFinished, IsNullJoin, CallError, ChunksFit};
ghost use Rattle.oxc_sourcemap_c.specs.Words.{code_of, position};

use crate::answers::write_fault;
use crate::holding::{Handle, Held, Lent, LoadedMap, empty_box, index_of, put};
use crate::numbers::{CallError, Fault};
use oxc_sourcemap_map::{ConcatSourceMapBuilder, OwnedSourceMap};
use oxc_sourcemap_tokens::Position;
use std::alloc::Global;
use std::mem;

fn add_copy(
    join: &mut ConcatSourceMapBuilder<'static>,
    map: &OwnedSourceMap,
    position: Position,
) -> Result<(), CallError>
    ensures added { OnOk result ((join.new ≡ added join.old map.now position)
        × IsWithinLimits join.new) }
    ensures error { IfErr result (λ r. (r ≢ out_of_memory)
        → IsPartsError join.old map.now position r) }
    ensures unchanged { OnErr result (join.new ≡ join.old) }
{
    join.add_sourcemap_copied_at(map.as_source_map(), position.line, position.column)?;
    Ok(())
}

fn add_held(held: &mut Held, map: &Lent, position: Position) -> Result<(), CallError>
    ensures added { OnOk result (IsJoined (Some held.old) (Some held.new)
        map.now.held position) }
    ensures error { IfErr result (λ r. (r ≢ out_of_memory)
        → IsAddError (Some held.old) map.now.held position r) }
    ensures sure { (r : CallError) → IsOneNull (Some held.old) map.now.held r
        → result ≡ Err r }
    ensures unchanged { OnErr result (held.new ≡ held.old) }
{
    match held {
        Held::Joining(join) => add_copy(join, map.map()?.map(), position),
        _ => Err(CallError::NullHandle),
    }
}

/// Adds a map to the join in a handle, at a position. Its strings are copied. Fails with `NullHandle` if there is no join or no
/// map, with `TooLarge` if the join would pass a limit, or for want of memory; the join is then as it was.
fn add_to_join(
    alloc: Global,
    handle: &mut Handle,
    map: &Lent,
    position: Position,
) -> Result<(), CallError>
    ensures added { OnOk result (IsJoined handle.old.held handle.new.held
        map.now.held position) }
    ensures error { IfErr result (λ r. (r ≢ out_of_memory)
        → IsAddError handle.old.held map.now.held position r) }
    ensures sure { (r : CallError) → IsOneNull handle.old.held map.now.held r
        → result ≡ Err r }
    ensures unchanged { OnErr result (handle.new.held ≡ handle.old.held) }
{
    match handle.take(alloc) {
        Some(held) => {
            let mut held = held;
            let joined = add_held(held.as_mut(), map, position);
            handle.put(held);
            joined
        }
        None => Err(CallError::NullHandle),
    }
}

/// Adds a map to a join, at the position where its code begins in the joined code.
#[unsafe(no_mangle)]
pub extern "C" fn proved_join_add(
    alloc: Global,
    join: &mut Handle,
    map: &Lent,
    line: u32,
    column: u32,
    fault: &mut Fault,
) -> u32
    ensures added { result ≡ 0 → IsJoined join.old.held join.new.held map.now.held
        (position line column) }
    ensures no_error { result ≡ 0 → fault.new ≡ no_fault }
    ensures error { result ≢ 0 → (join.new.held ≡ join.old.held)
        × IsErrorAs result fault.new (IsAddError join.old.held map.now.held
        (position line column)) }
    ensures sure { (r : CallError) → IsOneNull join.old.held map.now.held r
        → result ≡ code_of r }
{
    let added = add_to_join(alloc, join, map, Position { line, column });
    write_fault(added, fault)
}

/// A box with the join of no maps.
fn new_join(alloc: Global) -> Result<Box<Held>, CallError>
    ensures joined { IfOk result (λ held. held_join (Some held.value) ≡ Some nothing_joined) }
    ensures error { IfErr result (λ r. r ≡ out_of_memory) }
{
    let join = ConcatSourceMapBuilder::empty(alloc);
    Ok(Box::new(alloc, Held::Joining(join))?)
}

/// Puts the join of no maps into a handle, and returns the code.
fn put_join(alloc: Global, handle: &mut Handle, fault: &mut Fault) -> u32
    ensures joined { result ≡ 0 → (held_join handle.new.held ≡ Some nothing_joined)
        × (fault.new ≡ no_fault) }
    ensures error { result ≢ 0 → (handle.new.held ≡ handle.old.held)
        × IsErrorAs result fault.new (λ r. ⊥) }
{
    let made = new_join(alloc);
    put(alloc, made, handle, fault)
}

/// Makes the join of no maps.
#[unsafe(no_mangle)]
pub extern "C" fn proved_join_new(alloc: Global, out: &mut Handle, fault: &mut Fault) -> u32
    ensures joined { result ≡ 0 → held_join out.new.held ≡ Some nothing_joined }
    ensures no_error { result ≡ 0 → fault.new ≡ no_fault }
    ensures error { result ≢ 0 → (out.new.held ≡ out.old.held)
        × IsErrorAs result fault.new (λ r. ⊥) }
{
    put_join(alloc, out, fault)
}

/// The joined map, in a box. The join is then as a new one. What takes memory is done before that.
fn finish_parts(
    join: &mut ConcatSourceMapBuilder<'static>,
    alloc: Global,
) -> Result<Box<Held>, CallError>
    ensures map { IfOk result (λ made. held_map (Some made.value) ≡ Some join.old) }
    ensures limits { OnOk result (IsWithinLimits join.old) }
    ensures fits { OnOk result (IfSome join.old.token_chunks (ChunksFit join.old.tokens)) }
    ensures emptied { OnOk result (join.new ≡ nothing_joined) }
    ensures error { IfErr result (λ r. r ≡ out_of_memory) }
    ensures unchanged { OnErr result (join.new ≡ join.old) }
{
    let index = index_of(alloc, join.get_tokens())?;
    let mut made = empty_box(alloc)?;
    let joined = mem::replace(join, ConcatSourceMapBuilder::empty(alloc));
    let map = OwnedSourceMap::from_parts(joined.into_parts());
    *made.as_mut() = Held::Map(LoadedMap::with_index(map, index));
    Ok(made)
}

fn finish_held(held: &mut Held, alloc: Global) -> Result<Box<Held>, CallError>
    ensures map { IfOk result (λ made. IsJoinFinished (Some held.old) (Some held.new)
        (Some made.value)) }
    ensures error { IfErr result (λ r. (r ≢ out_of_memory) → IsNullJoin (Some held.old) r) }
    ensures sure { (r : CallError) → IsNullJoin (Some held.old) r
        → MatchResult result (λ _. ⊥) (λ e. e ≡ r) }
    ensures unchanged { OnErr result (held.new ≡ held.old) }
{
    match held {
        Held::Joining(join) => finish_parts(join, alloc),
        _ => Err(CallError::NullHandle),
    }
}

/// The joined map of the join in a handle, in a box. The join is then as a new one. Fails with `NullHandle` if there is none; on
/// an error the join is as it was.
fn finish_join(alloc: Global, handle: &mut Handle) -> Result<Box<Held>, CallError>
    ensures map { IfOk result (λ made. IsJoinFinished handle.old.held handle.new.held
        (Some made.value)) }
    ensures error { IfErr result (λ r. (r ≢ out_of_memory) → IsNullJoin handle.old.held r) }
    ensures sure { (r : CallError) → IsNullJoin handle.old.held r
        → MatchResult result (λ _. ⊥) (λ e. e ≡ r) }
    ensures unchanged { OnErr result (handle.new.held ≡ handle.old.held) }
{
    match handle.take(alloc) {
        Some(held) => {
            let mut held = held;
            let made = finish_held(held.as_mut(), alloc);
            handle.put(held);
            made
        }
        None => Err(CallError::NullHandle),
    }
}

/// Makes the joined map. The join is then as a new one.
#[unsafe(no_mangle)]
pub extern "C" fn proved_join_finish(
    alloc: Global,
    join: &mut Handle,
    out: &mut Handle,
    fault: &mut Fault,
) -> u32
    ensures map { result ≡ 0 → IsJoinFinished join.old.held join.new.held out.new.held }
    ensures no_error { result ≡ 0 → fault.new ≡ no_fault }
    ensures error { result ≢ 0 → (join.new.held ≡ join.old.held)
        × (out.new.held ≡ out.old.held)
        × IsErrorAs result fault.new (IsNullJoin join.old.held) }
    ensures sure { (r : CallError) → IsNullJoin join.old.held r → result ≡ code_of r }
{
    let made = finish_join(alloc, join);
    put(alloc, made, out, fault)
}

/// Frees a join, or nothing.
#[unsafe(no_mangle)]
pub extern "C" fn proved_free_join(alloc: Global, join: &mut Handle)
    ensures { join.new.held ≡ None }
{
    drop(join.take(alloc));
}
