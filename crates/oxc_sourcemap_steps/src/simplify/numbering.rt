//! Numbers given to indices of a list, one after the other.
ghost use Rattle.std.specs.Prelude.{◌≡◌, ◌≢◌, ◌<◌, [], length, IfOk, OnOk, IfErr, IfSome};
ghost use Rattle.oxc_sourcemap_steps.specs.Words.{OutOfMemory, TooLarge, with_number, with_any};
ghost use Rattle.oxc_sourcemap_steps.specs.Words.{index_in, IsNumbering, IsBelow};
ghost use Rattle.std.specs.Option.{option_and_then};

use oxc_sourcemap_tokens::{Error, Memory, Result};
use std::alloc::Global;

/// Indices of a list in the order in which they were first needed.
#[derive(Drop)]
pub(crate) struct Numbering {
    pub(crate) order: Vec<usize>,
    /// For each index of the list its place in that order, if it has one.
    numbers: Vec<Option<u32>>,
}

/// No index of a list of this length is needed.
pub(crate) fn no_numbers(alloc: Global, len: usize) -> Memory<Numbering>
    ensures numbering { IfOk result IsNumbering }
    ensures none { IfOk result (λ numbering. numbering.order.items ≡ []) }
    ensures len { IfOk result (λ numbering. length numbering.numbers.items ≡ len) }
{
    let mut numbers = Vec::with_capacity(alloc, len)?;
    numbers.resize(len, None)?;
    Ok(Numbering {
        order: Vec::new(alloc),
        numbers,
    })
}

/// Gives an index the next number, if it has none.
fn need(numbering: &mut Numbering, k: usize) -> Result<()>
    requires numbering { IsNumbering numbering.old }
    requires within { k < length numbering.old.numbers.items }
    ensures order { OnOk result (numbering.new.order.items
        ≡ with_number numbering.old.order.items k) }
    ensures numbering { OnOk result (IsNumbering numbering.new) }
    ensures len { length numbering.new.numbers.items ≡ length numbering.old.numbers.items }
    ensures error { IfErr result (λ e. (e ≢ OutOfMemory) → (e ≡ TooLarge)
        × (4294967295 < length (with_number numbering.old.order.items k))) }
{
    if numbering.numbers[k].is_some() {
        return Ok(());
    }
    let count = numbering.order.len();
    if count >= 4294967295 {
        return Err(Error::TooLarge);
    }
    numbering.order.push(k)?;
    numbering.numbers[k] = Some(count as u32);
    Ok(())
}

/// The same, if there is an index.
pub(crate) fn need_any(numbering: &mut Numbering, k: Option<usize>) -> Result<()>
    requires numbering { IsNumbering numbering.old }
    requires within { IsBelow (length numbering.old.numbers.items) k }
    ensures order { OnOk result (numbering.new.order.items
        ≡ with_any numbering.old.order.items k) }
    ensures numbering { OnOk result (IsNumbering numbering.new) }
    ensures len { length numbering.new.numbers.items ≡ length numbering.old.numbers.items }
    ensures error { IfErr result (λ e. (e ≢ OutOfMemory) → (e ≡ TooLarge)
        × (4294967295 < length (with_any numbering.old.order.items k))) }
{
    match k {
        Some(k) => need(numbering, k),
        None => Ok(()),
    }
}

/// The number of an index, if it has one.
pub(crate) fn number_of(numbering: &Numbering, k: Option<usize>) -> Option<u32>
    requires numbering { IsNumbering numbering.now }
    requires within { IsBelow (length numbering.now.numbers.items) k }
    ensures place { result ≡ option_and_then (λ k. index_in k numbering.now.order.items) k }
    ensures small { IfSome result (λ id. id < 4294967295) }
{
    numbering.numbers[k?]
}
