//! The numbers of an item, one by one.
ghost use Rattle.std.specs.Prelude.{◌≡◌, ◌≤◌, ◌<◌, ℕ, length, Some, None, IfOk, IfSome, IfNone};
ghost use Rattle.std.specs.Prelude.{OnOk};
ghost use Rattle.std.specs.Prelude.{string_bytes, is_some, slice_get};
ghost use Rattle.oxc_sourcemap_scopes.specs.Words.{Reads, number_at, number_if, moved, index_moved};
ghost use Rattle.oxc_sourcemap_scopes.specs.Words.{index_if, has_flag, small_at, source_at};
ghost use Rattle.oxc_sourcemap_scopes.specs.Words.{range_end};
ghost use Rattle.oxc_sourcemap_scopes.specs.Words.{room_in};
ghost use Rattle.oxc_sourcemap_scopes.specs.Words.{place_of};

use crate::errors::{ScopesError, ScopesFaultKind};
use crate::trees::Tree;
use oxc_sourcemap_tokens::Position;

// Numbers of items are read by these; `at` is where the item begins in the text.

/// A number of an item by its index.
pub(crate) fn number_at(at: usize, numbers: &[u64], k: usize) -> Result<u64, ScopesError>
    ensures { Reads (λ n. n) result (number_at at numbers.now k) }
{
    match numbers.get(k) {
        Some(number) => Ok(*number),
        None => Err(ScopesError::at(ScopesFaultKind::MissingNumber, at)),
    }
}

/// A number of 32 bits.
pub(crate) fn small_at(at: usize, numbers: &[u64], k: usize) -> Result<u32, ScopesError>
    ensures { Reads (λ n. n) result (small_at at numbers.now k) }
{
    let number = number_at(at, numbers, k)?;
    if number > 4294967295 {
        return Err(ScopesError::at(ScopesFaultKind::TooLarge, at));
    }
    Ok(number as u32)
}

/// The index of a source, at most 4294967294.
pub(crate) fn source_at(at: usize, numbers: &[u64], k: usize) -> Result<u32, ScopesError>
    ensures { Reads (λ n. n) result (source_at at numbers.now k) }
{
    let number = number_at(at, numbers, k)?;
    if number > 4294967294 {
        return Err(ScopesError::at(ScopesFaultKind::TooLarge, at));
    }
    Ok(number as u32)
}

/// A number of an item where it has one by its flags, else 0.
pub(crate) fn number_if(
    is_there: bool,
    at: usize,
    numbers: &[u64],
    k: usize,
) -> Result<u64, ScopesError>
    ensures { Reads (λ n. n) result (number_if is_there at numbers.now k) }
{
    if is_there {
        number_at(at, numbers, k)
    } else {
        Ok(0)
    }
}

/// A position moved: to a later line, where the column counts from 0, or by columns on its line.
pub(crate) fn moved(
    at: usize,
    from: Position,
    line: u64,
    column: u64,
) -> Result<Position, ScopesError>
    ensures moved { Reads (λ p. p) result (moved at from line column) }
    ensures after { IfOk result (λ p. place_of from ≤ place_of p) }
{
    let Some(to_line) = line.checked_add(u64::from(from.line)) else {
        return Err(ScopesError::at(ScopesFaultKind::TooLarge, at));
    };
    let start = if line == 0 { u64::from(from.column) } else { 0 };
    let Some(to_column) = column.checked_add(start) else {
        return Err(ScopesError::at(ScopesFaultKind::TooLarge, at));
    };
    if to_line > 4294967295 || to_column > 4294967295 {
        return Err(ScopesError::at(ScopesFaultKind::TooLarge, at));
    }
    Ok(Position {
        line: to_line as u32,
        column: to_column as u32,
    })
}

/// An index moved by a signed number, below a count, and at most 4294967294.
pub(crate) fn index_moved(at: usize, last: u32, raw: u64, count: usize) -> Result<u32, ScopesError>
    ensures index { Reads (λ i. i) result (index_moved at last raw count) }
    ensures below { IfOk result (λ i. i < count) }
{
    let last = u64::from(last);
    let by = raw / 2;
    let index = if raw % 2 == 1 {
        last.checked_sub(by)
    } else {
        last.checked_add(by)
    };
    match index {
        Some(index) if index < (count as u64).min(4294967295) => Ok(index as u32),
        _ => Err(ScopesError::at(ScopesFaultKind::BadIndex, at)),
    }
}

/// The index that an item has by its flags, relative to the last one.
pub(crate) fn index_if(
    is_there: bool,
    at: usize,
    numbers: &[u64],
    k: usize,
    last: u32,
    count: usize,
) -> Result<Option<u32>, ScopesError>
    ensures index { Reads (λ i. i) result (index_if is_there at numbers.now k last count) }
    ensures below { IfOk result (λ found. IfSome found (λ i. i < count)) }
{
    if !is_there {
        return Ok(None);
    }
    let raw = number_at(at, numbers, k)?;
    Ok(Some(index_moved(at, last, raw, count)?))
}

/// One of the flags of an item, by its weight.
pub(crate) fn has_flag(flags: u64, weight: u64) -> bool
    requires { 0 < weight }
    ensures { result ≡ has_flag flags weight }
{
    flags / weight % 2 == 1
}

/// Where a range ends: in its column, or on a later line.
#[tactic(auto, unfolding(crate::specs::Items::range_end))]
pub(crate) fn range_end(at: usize, from: Position, numbers: &[u64]) -> Result<Position, ScopesError>
    ensures end { Reads (λ p. p) result (range_end at from numbers.now) }
    ensures after { IfOk result (λ p. place_of from ≤ place_of p) }
{
    let first = number_at(at, numbers, 1)?;
    match numbers.get(2) {
        Some(column) => moved(at, from, first, *column),
        None => moved(at, from, 0, first),
    }
}

/// How many spans of a tree are open, where one more may be.
pub(crate) fn room_in(at: usize, tree: &Tree) -> Result<usize, ScopesError>
    ensures room { Reads (λ n. n) result (room_in at tree.now) }
    ensures below { OnOk result (tree.now.depth < 1024) }
{
    if tree.depth() < 1024 {
        Ok(tree.depth())
    } else {
        Err(ScopesError::at(ScopesFaultKind::TooDeep, at))
    }
}
