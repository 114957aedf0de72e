//! The chains of scopes around generated positions, from the inside out.
ghost use Rattle.std.specs.Prelude.{◌≡◌, ℕ, Result, map};
ghost use Rattle.oxc_sourcemap_c.specs.Words.{IsChainAt, IsChainOf, IsWrittenOut, CallError};
ghost use Rattle.oxc_sourcemap_c.specs.Words.{filled, chain_entry_numbers};

use crate::answers::write_found;
use crate::holding::Lent;
use crate::numbers::CallError;
use crate::texts::ChainEntryNumbers;
use oxc_sourcemap_scopes::ScopeChainEntry;
use std::alloc::Global;

/// Writes as many entries of a chain as there is room for.
fn write_chain(chain: &[ScopeChainEntry], out: &mut [ChainEntryNumbers])
    ensures { out.new ≡ filled (map chain_entry_numbers chain.now) out.old }
{
    for i in 0..chain.len().min(out.len()) {
        out[i] = ChainEntryNumbers::of(&chain[i]);
    }
}

/// How many entries the chain at a generated position has, of the scopes that are borrowed. Writes as many as there is room for, and
/// nothing on an error.
fn chain_at(
    alloc: Global,
    scopes: &Lent,
    line: u32,
    column: u32,
    out: &mut [ChainEntryNumbers],
) -> Result<usize, CallError>
    ensures { IsChainAt scopes.now.held line column result out.old out.new }
{
    let chain = scopes.scopes()?.scope_chain_at(alloc, line, column)?;
    write_chain(chain.as_slice(), out);
    Ok(chain.len())
}

/// The chain of scopes at a generated position, as many entries as there is room for, and how many there are.
#[unsafe(no_mangle)]
pub extern "C" fn proved_scope_chain_at(
    alloc: Global,
    scopes: &Lent,
    line: u32,
    column: u32,
    out: &mut [ChainEntryNumbers],
    count: &mut usize,
) -> u32
    ensures { (answer : Result ℕ CallError)
        × IsChainAt scopes.now.held line column answer out.old out.new
        × IsWrittenOut answer result count.old count.new }
{
    write_found(chain_at(alloc, scopes, line, column, out), count)
}

/// How many entries the chain of a frame has, by its index among the frames at a generated position, of the scopes that are borrowed.
/// Writes as many as there is room for, and nothing on an error.
fn chain_of(
    alloc: Global,
    scopes: &Lent,
    frame: u32,
    line: u32,
    column: u32,
    out: &mut [ChainEntryNumbers],
) -> Result<usize, CallError>
    ensures { IsChainOf scopes.now.held frame line column result out.old out.new }
{
    match scopes
        .scopes()?
        .scope_chain(alloc, frame as usize, line, column)?
    {
        Some(entries) => {
            write_chain(entries.as_slice(), out);
            Ok(entries.len())
        }
        None => Err(CallError::NoEntry),
    }
}

/// The chain of a frame, by its index among the frames at a generated position, as many entries as there is room for, and how many
/// there are.
#[unsafe(no_mangle)]
pub extern "C" fn proved_scope_chain(
    alloc: Global,
    scopes: &Lent,
    frame: u32,
    line: u32,
    column: u32,
    out: &mut [ChainEntryNumbers],
    count: &mut usize,
) -> u32
    ensures { (answer : Result ℕ CallError)
        × IsChainOf scopes.now.held frame line column answer out.old out.new
        × IsWrittenOut answer result count.old count.new }
{
    write_found(chain_of(alloc, scopes, frame, line, column, out), count)
}
