//! What scopes in handles say.
ghost use Rattle.std.specs.Prelude.{◌≡◌, ◌≢◌, None, Some, Result, Ok, Err, ℕ, map};
ghost use Rattle.std.specs.Prelude.{MatchOption, option_map};
ghost use Rattle.oxc_sourcemap_c.specs.Words.{IsScopesAnswer, IsWrittenOut, held_scopes, filled};
ghost use Rattle.oxc_sourcemap_c.specs.Words.{index_number};
ghost use Rattle.oxc_sourcemap_c.specs.Words.{IsIndexAnswer, IsIndexWritten};
ghost use Rattle.oxc_sourcemap_c.specs.Words.{scopes_counts_of, scope_numbers, range_numbers};
ghost use Rattle.oxc_sourcemap_c.specs.Words.{frame_numbers, NullHandle, NoEntry, code_of};
ghost use Rattle.oxc_sourcemap_c.specs.Words.{scope_seen, range_seen, scope_at, range_at};
ghost use Rattle.oxc_sourcemap_c.specs.Words.{function_at, ListsFrames, out_of_memory};
ghost use Rattle.oxc_sourcemap_c.specs.Words.{CallError, ScopeNumbers, RangeNumbers};
ghost use Rattle.oxc_sourcemap_c.specs.Words.{AreFrames, frames_record};

use crate::answers::write_found;
use crate::holding::Lent;
use crate::numbers::{CallError, Fault};
use crate::reading::getters::flag;
use crate::texts::{FrameNumbers, RangeNumbers, ScopeNumbers, ScopesCounts, index_or_none};
use oxc_sourcemap_scopes::{Frames, Scopes};
use std::alloc::Global;

/// The counts of the scopes that are borrowed.
fn counts(scopes: &Lent) -> Result<ScopesCounts, CallError>
    ensures { MatchOption (held_scopes scopes.now.held) (result ≡ Err NullHandle)
        (λ s. result ≡ Ok (scopes_counts_of s)) }
{
    Ok(ScopesCounts::of(scopes.scopes()?))
}

/// How many sources, scopes and ranges there are.
#[unsafe(no_mangle)]
pub extern "C" fn proved_scopes_counts(scopes: &Lent, out: &mut ScopesCounts) -> u32
    ensures found { MatchOption (held_scopes scopes.now.held) (result ≡ code_of NullHandle)
        (λ s. (result ≡ 0) × (out.new ≡ scopes_counts_of s)) }
    ensures unchanged { result ≢ 0 → out.new ≡ out.old }
{
    write_found(counts(scopes), out)
}

/// A scope of those that are borrowed, by its index.
fn scope(scopes: &Lent, index: u32) -> Result<ScopeNumbers, CallError>
    ensures { IsScopesAnswer scopes.now.held
        (λ s. option_map scope_numbers (scope_seen s index)) result }
{
    match scopes.scopes()?.get_scope(index as usize) {
        Some(scope) => Ok(ScopeNumbers::of(&scope)),
        None => Err(CallError::NoEntry),
    }
}

/// A scope by its index.
#[unsafe(no_mangle)]
pub extern "C" fn proved_scope(scopes: &Lent, index: u32, out: &mut ScopeNumbers) -> u32
    ensures { (answer : Result ScopeNumbers CallError)
        × IsScopesAnswer scopes.now.held
        (λ s. option_map scope_numbers (scope_seen s index)) answer
        × IsWrittenOut answer result out.old out.new }
{
    write_found(scope(scopes, index), out)
}

/// A range of those that are borrowed, by its index.
fn range(scopes: &Lent, index: u32) -> Result<RangeNumbers, CallError>
    ensures { IsScopesAnswer scopes.now.held
        (λ s. option_map range_numbers (range_seen s index)) result }
{
    match scopes.scopes()?.get_range(index as usize) {
        Some(range) => Ok(RangeNumbers::of(&range)),
        None => Err(CallError::NoEntry),
    }
}

/// A range by its index.
#[unsafe(no_mangle)]
pub extern "C" fn proved_range(scopes: &Lent, index: u32, out: &mut RangeNumbers) -> u32
    ensures { (answer : Result RangeNumbers CallError)
        × IsScopesAnswer scopes.now.held
        (λ s. option_map range_numbers (range_seen s index)) answer
        × IsWrittenOut answer result out.old out.new }
{
    write_found(range(scopes, index), out)
}

/// The number of an index that was found. Fails with `NoEntry` if there is none.
fn found(index: Option<usize>) -> Result<u32, CallError>
    ensures { MatchOption index (result ≡ Err NoEntry) (λ i. result ≡ Ok (index_number (Some i))) }
{
    match index {
        Some(index) => Ok(index_or_none(Some(index))),
        None => Err(CallError::NoEntry),
    }
}

/// The index of the innermost scope at a position of a source, in those that are borrowed.
fn find_scope(scopes: &Lent, source: u32, line: u32, column: u32) -> Result<u32, CallError>
    ensures { IsIndexAnswer scopes.now.held (λ s. scope_at s source line column) result }
{
    found(scopes.scopes()?.scope_at(source, line, column))
}

/// The index of the innermost scope at a position of a source.
#[unsafe(no_mangle)]
pub extern "C" fn proved_scope_at(
    scopes: &Lent,
    source: u32,
    line: u32,
    column: u32,
    out: &mut u32,
) -> u32
    ensures { IsIndexWritten scopes.now.held (λ s. scope_at s source line column)
        result out.old out.new }
{
    write_found(find_scope(scopes, source, line, column), out)
}

/// The index of the function at a position of a source, in the scopes that are borrowed.
fn find_function(scopes: &Lent, source: u32, line: u32, column: u32) -> Result<u32, CallError>
    ensures { IsIndexAnswer scopes.now.held (λ s. function_at s source line column) result }
{
    found(scopes.scopes()?.function_at(source, line, column))
}

/// The index of the scope of the function at a position of a source.
#[unsafe(no_mangle)]
pub extern "C" fn proved_function_at(
    scopes: &Lent,
    source: u32,
    line: u32,
    column: u32,
    out: &mut u32,
) -> u32
    ensures { IsIndexWritten scopes.now.held (λ s. function_at s source line column)
        result out.old out.new }
{
    write_found(find_function(scopes, source, line, column), out)
}

/// The index of the innermost range at a generated position, in the scopes that are borrowed.
fn find_range(scopes: &Lent, line: u32, column: u32) -> Result<u32, CallError>
    ensures { IsIndexAnswer scopes.now.held (λ s. range_at s line column) result }
{
    found(scopes.scopes()?.range_at(line, column))
}

/// The index of the innermost range at a generated position.
#[unsafe(no_mangle)]
pub extern "C" fn proved_range_at(scopes: &Lent, line: u32, column: u32, out: &mut u32) -> u32
    ensures { IsIndexWritten scopes.now.held (λ s. range_at s line column)
        result out.old out.new }
{
    write_found(find_range(scopes, line, column), out)
}

/// Writes as many frames as there is room for.
fn write_frames(scopes: &Scopes, frames: &Frames, out: &mut [FrameNumbers])
    ensures { out.new ≡ filled (map (frame_numbers scopes.now) (frames_record frames.now).frames)
        out.old }
{
    let count = frames.frames.len();
    for i in 0..count.min(out.len()) {
        out[i] = FrameNumbers::of(scopes, &frames.frames[i]);
    }
}

/// How many frames a generated position stands for, and whether they are hidden. Writes as many as there is room for, and nothing on
/// an error.
fn frames(
    alloc: Global,
    scopes: &Lent,
    line: u32,
    column: u32,
    out: &mut [FrameNumbers],
) -> Result<(usize, u32), CallError>
    ensures { AreFrames scopes.now.held line column result out.old out.new }
{
    let scopes = scopes.scopes()?;
    let frames = scopes.frames_at(alloc, line, column)?;
    write_frames(scopes, &frames, out);
    Ok((frames.frames.len(), flag(frames.is_hidden)))
}

/// The frames of the source that a generated position stands for, as many as there is room for, how many there are, and 1 if the
/// source has no frame there, else 0.
#[unsafe(no_mangle)]
pub extern "C" fn proved_frames_at(
    alloc: Global,
    scopes: &Lent,
    line: u32,
    column: u32,
    out: &mut [FrameNumbers],
    count: &mut usize,
    is_hidden: &mut u32,
) -> u32
    ensures frames { result ≡ 0 → ListsFrames scopes.now.held line column out.old out.new
        count.new is_hidden.new }
    ensures null { held_scopes scopes.now.held ≡ None → result ≡ code_of NullHandle }
    ensures error { result ≢ 0 → (out.new ≡ out.old) × (count.new ≡ count.old)
        × (is_hidden.new ≡ is_hidden.old)
        × (result ≢ code_of out_of_memory → held_scopes scopes.now.held ≡ None) }
{
    match frames(alloc, scopes, line, column, out) {
        Ok((found, hidden)) => {
            *count = found;
            *is_hidden = hidden;
            0
        }
        Err(error) => Fault::of(error).code,
    }
}
