//! New ids of sources and names by their old ones, given as tokens need them.
ghost use Rattle.std.specs.Prelude.{◌≡◌, ◌≢◌, ◌+◌, ◌-◌, ◌<◌, ℕ, [], map, min, length, IfOk, OnOk};
ghost use Rattle.std.specs.Prelude.{IfErr, IfSome, Some, None, true, set, is_some, slice_get};
ghost use Rattle.std.specs.List.{AllByRecursion};
ghost use Rattle.std.specs.Option.{option_and_then, unwrap_or};
ghost use Rattle.oxc_sourcemap_steps.specs.Words.{OutOfMemory, TooLarge, own_index, IsNumbering};
ghost use Rattle.oxc_sourcemap_steps.specs.Words.{IsSourceBelow, listed_once, with_places};
ghost use Rattle.oxc_sourcemap_steps.specs.Words.{with_places_of, IsNewId, AreIds};

use crate::simplify::numbering::{Numbering, need_any, no_numbers, number_of};
use crate::simplify::sources::Source;
use oxc_sourcemap_tokens::{Memory, Result};
use std::alloc::Global;

/// Stands for no id.
pub(crate) const NONE: u32 = 4294967295;

/// New ids by old ones, as far as tokens needed them.
#[derive(Drop)]
pub(crate) struct NewIds {
    pub(crate) numbering: Numbering,
    /// For each old id its new one, None if it has none so far; behind them that of no id.
    ids: Vec<Option<u32>>,
}

/// New ids for this many old ones, none of which is needed so far. No token has an id above 4294967294.
pub(crate) fn no_ids(alloc: Global, len: usize) -> Memory<NewIds>
    ensures numbering { IfOk result (λ ids. IsNumbering ids.numbering) }
    ensures none { IfOk result (λ ids. ids.numbering.order.items ≡ []) }
    ensures count { IfOk result (λ ids. length ids.numbering.numbers.items ≡ len) }
    ensures len { IfOk result (λ ids. length ids.ids.items ≡ min len 4294967295 + 1) }
    ensures last { IfOk result (λ ids. slice_get ids.ids.items (min len 4294967295)
        ≡ Some (Some 4294967295)) }
    ensures unknown { IfOk result (λ ids. (k : ℕ) → k < min len 4294967295
        → slice_get ids.ids.items k ≡ Some None) }
{
    let count = len.min(4294967295);
    let mut ids = Vec::with_capacity(alloc, count + 1)?;
    ids.resize(count, None)?;
    ids.push(Some(NONE))?;
    Ok(NewIds {
        numbering: no_numbers(alloc, len)?,
        ids,
    })
}

/// The index of an old id, or the one behind all. (It branches nowhere, since names come and go.)
#[inline(always)]
fn slot_of(ids: &[Option<u32>], id: Option<u32>) -> usize
    requires { 0 < length ids.now }
    ensures { result ≡ min (unwrap_or id 4294967295) (length ids.now - 1) }
{
    (id.unwrap_or(NONE) as usize).min(ids.len() - 1)
}

/// Gives an old id its new one, which it has not got so far: its places get the next numbers.
#[cold]
fn need_id(ids: &mut NewIds, k: usize, source: Source) -> Result<u32>
    requires numbering { IsNumbering ids.old.numbering }
    requires within { k < length ids.old.ids.items }
    requires below { IsSourceBelow (length ids.old.numbering.numbers.items) source }
    requires own { is_some (own_index source) ≡ true }
    ensures order { OnOk result (ids.new.numbering.order.items
        ≡ with_places ids.old.numbering.order.items source) }
    ensures numbering { OnOk result (IsNumbering ids.new.numbering) }
    ensures count { length ids.new.numbering.numbers.items
        ≡ length ids.old.numbering.numbers.items }
    ensures ids { IfOk result (λ id. ids.new.ids.items ≡ set ids.old.ids.items k (Some id)) }
    ensures known { IfOk result (λ id. IsNewId ids.new.numbering.order.items (Some source) id) }
    ensures error { IfErr result (λ e. (e ≢ OutOfMemory) → (e ≡ TooLarge)
        × (4294967295 < length (with_places ids.old.numbering.order.items source))) }
{
    need_any(&mut ids.numbering, source.plain)?;
    need_any(&mut ids.numbering, source.ignored)?;
    let id = number_of(&ids.numbering, source.own_index()).unwrap_or(NONE);
    ids.ids[k] = Some(id);
    Ok(id)
}

/// The new id of a source.
#[inline(always)]
pub(crate) fn source_id(ids: &mut NewIds, sources: &[Source], id: Option<u32>) -> Result<u32>
    requires ids { AreIds sources.now ids.old }
    requires below { AllByRecursion (IsSourceBelow (length sources.now)) sources.now }
    requires own { AllByRecursion (λ s. is_some (own_index s) ≡ true) sources.now }
    requires small { IfSome id (λ id. id < 4294967295) }
    ensures ids { OnOk result (AreIds sources.now ids.new) }
    ensures order { OnOk result (ids.new.numbering.order.items ≡ with_places_of
        ids.old.numbering.order.items (option_and_then (slice_get sources.now) id)) }
    ensures id { IfOk result (IsNewId ids.new.numbering.order.items
        (option_and_then (slice_get sources.now) id)) }
    ensures error { IfErr result (λ e. (e ≢ OutOfMemory) → (e ≡ TooLarge)
        × (4294967295 < length (with_places_of ids.old.numbering.order.items
        (option_and_then (slice_get sources.now) id)))) }
{
    let k = slot_of(ids.ids.as_slice(), id);
    match ids.ids[k] {
        Some(id) => Ok(id),
        None => need_id(ids, k, sources[k]),
    }
}

/// The new id of a name.
#[inline(always)]
pub(crate) fn name_id(ids: &mut NewIds, names: &[usize], id: Option<u32>) -> Result<u32>
    requires ids { AreIds (map listed_once names.now) ids.old }
    requires below { AllByRecursion (λ k. k < length names.now) names.now }
    requires small { IfSome id (λ id. id < 4294967295) }
    ensures ids { OnOk result (AreIds (map listed_once names.now) ids.new) }
    ensures order { OnOk result (ids.new.numbering.order.items ≡ with_places_of
        ids.old.numbering.order.items
        (option_and_then (slice_get (map listed_once names.now)) id)) }
    ensures id { IfOk result (IsNewId ids.new.numbering.order.items
        (option_and_then (slice_get (map listed_once names.now)) id)) }
    ensures error { IfErr result (λ e. (e ≢ OutOfMemory) → (e ≡ TooLarge)
        × (4294967295 < length (with_places_of ids.old.numbering.order.items
        (option_and_then (slice_get (map listed_once names.now)) id)))) }
{
    let k = slot_of(ids.ids.as_slice(), id);
    match ids.ids[k] {
        Some(id) => Ok(id),
        None => need_id(ids, k, Source::listed_once(names[k])),
    }
}
