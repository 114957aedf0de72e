//! What items append to the lists of a scope or a range: its variables, its values, or their pieces.
ghost use Rattle.std.specs.Prelude.{◌≡◌, ◌≤◌, drop, length, set, true, IfOk};
ghost use Rattle.oxc_sourcemap_scopes.specs.Words.{Reads, indices_moved, with_indices, value_read};
ghost use Rattle.oxc_sourcemap_scopes.specs.Words.{all_values, with_others, value_to_split};
ghost use Rattle.oxc_sourcemap_scopes.specs.Words.{first_piece, all_pieces};

use crate::errors::{ScopesError, ScopesFaultKind};
use crate::fields::{index_moved, moved, number_at};
use crate::scopes::{Value, ValuePiece};
use oxc_sourcemap_tokens::Position;

/// The numbers of an item after its tag.
pub(crate) fn after_tag(numbers: &[u64]) -> &[u64]
    ensures { result.now ≡ drop 1 numbers.now }
{
    if numbers.is_empty() {
        numbers
    } else {
        &numbers[1..]
    }
}

/// Appends the indices to which signed numbers lead, each relative to the one before it, and returns the last. After an `Err` some may
/// be there.
#[tactic(auto, using(crate::proofs::Appended::one_index))]
pub(crate) fn push_indices(
    list: &mut Vec<u32>,
    at: usize,
    before: u32,
    count: usize,
    raws: &[u64],
) -> Result<u32, ScopesError>
    ensures { Reads (λ last. (list.new.items, last)) result (with_indices list.old.items before
        (indices_moved at before count raws.now)) }
{
    let mut last = before;
    for raw in raws {
        last = index_moved(at, last, *raw, count)?;
        list.push(last)?;
    }
    Ok(last)
}

/// The value that a number stands for.
fn value_of(at: usize, count: usize, raw: u64) -> Result<Value, ScopesError>
    ensures { Reads (λ value. value) result (value_read at count raw) }
{
    let Some(index) = raw.checked_sub(1) else {
        return Ok(Value {
            expression: None,
            is_split: false,
        });
    };
    if index >= (count as u64).min(4294967295) {
        return Err(ScopesError::at(ScopesFaultKind::BadIndex, at));
    }
    Ok(Value {
        expression: Some(index as u32),
        is_split: false,
    })
}

/// Appends the values that numbers stand for. After an `Err` some may be there.
#[tactic(auto, using(crate::proofs::Appended::one_value))]
pub(crate) fn push_values(
    list: &mut Vec<Value>,
    at: usize,
    count: usize,
    raws: &[u64],
) -> Result<(), ScopesError>
    ensures { Reads (λ _. list.new.items) result (with_others list.old.items
        (all_values at count raws.now)) }
{
    for raw in raws {
        list.push(value_of(at, count, *raw)?)?;
    }
    Ok(())
}

/// Marks a value, by the index of its variable, as one that has pieces, and returns it as it was. It may be marked once.
pub(crate) fn split_value(
    list: &mut Vec<Value>,
    at: usize,
    variable: u64,
) -> Result<Value, ScopesError>
    ensures value { Reads (λ value. value) result (value_to_split at list.old.items variable) }
    ensures marked { IfOk result (λ value. list.new.items
        ≡ set list.old.items variable (record value { is_split = true })) }
{
    let index = variable as usize;
    let value = match list.get(index) {
        Some(value) => *value,
        None => return Err(ScopesError::at(ScopesFaultKind::BadIndex, at)),
    };
    if value.is_split {
        return Err(ScopesError::at(ScopesFaultKind::SplitTwice, at));
    }
    list[index] = Value {
        is_split: true,
        ..value
    };
    Ok(value)
}

/// The piece of a variable's value that the first three of these numbers stand for, behind the piece before it or the start of its
/// range.
fn first_piece(
    at: usize,
    variable: u64,
    from: Position,
    count: usize,
    numbers: &[u64],
) -> Result<ValuePiece, ScopesError>
    ensures piece { Reads (λ piece. piece) result (first_piece at variable from count numbers.now) }
    ensures three { IfOk result (λ _. 3 ≤ length numbers.now) }
{
    let line = number_at(at, numbers, 0)?;
    let column = number_at(at, numbers, 1)?;
    let raw = number_at(at, numbers, 2)?;
    let start = moved(at, from, line, column)?;
    let value = value_of(at, count, raw)?;
    Ok(ValuePiece {
        variable,
        start,
        expression: value.expression,
    })
}

/// The numbers after the first three.
fn after_three(numbers: &[u64]) -> &[u64]
    requires { 3 ≤ length numbers.now }
    ensures { result.now ≡ drop 3 numbers.now }
{
    &numbers[3..]
}

/// Appends the pieces of a variable's value that numbers stand for, three each. After an `Err` some may be there.
#[tactic(auto, using(crate::proofs::Appended::one_piece))]
pub(crate) fn push_pieces(
    list: &mut Vec<ValuePiece>,
    at: usize,
    variable: u64,
    start: Position,
    count: usize,
    numbers: &[u64],
) -> Result<(), ScopesError>
    ensures { Reads (λ _. list.new.items) result (with_others list.old.items
        (all_pieces at variable start count numbers.now)) }
{
    let mut from = start;
    let mut rest = numbers;
    while !rest.is_empty() {
        let piece = first_piece(at, variable, from, count, rest)?;
        list.push(piece)?;
        from = piece.start;
        rest = after_three(rest);
    }
    Ok(())
}
