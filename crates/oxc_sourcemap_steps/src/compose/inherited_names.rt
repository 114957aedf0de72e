//! The names that a composed map inherits from the first map. Their ids are found by hashing.
ghost use Rattle.std.specs.Prelude.{◌≡◌, ◌≢◌, ◌<◌, ◌≤◌, [], slice_get, IfOk, OnOk, IfErr, Some};
ghost use Rattle.std.specs.Prelude.{None, true, false};
ghost use Rattle.std.specs.Option.{option_and_then};
ghost use Rattle.oxc_sourcemap_steps.specs.Words.{OutOfMemory, TooLarge, texts_of, cow_texts};
ghost use Rattle.oxc_sourcemap_steps.specs.Words.{index_of, with_text, may_be_id, with_inherited};
ghost use Rattle.oxc_sourcemap_steps.specs.Words.{inherited_index, names_with, HasIndices};
ghost use Rattle.oxc_sourcemap_steps.specs.Words.{HasNames};
ghost use Rattle.oxc_sourcemap_steps.specs.Words.{IsInheriting, lent_items};

use oxc_sourcemap_parts::owned_text;
use oxc_sourcemap_tokens::{Error, Memory, Result};
use std::alloc::Global;
use std::borrow::CowStr;
use std::collections::HashMap;

/// The names inherited from the first map so far, and the ids of names that are known. Names are borrowed from both maps.
#[derive(Drop)]
pub(crate) struct InheritedNames<'n> {
    /// The inherited names that the second map does not have, in the order in which they were inherited.
    names: Vec<&'n str>,
    /// The index of each name of the second map, and after these of each of `names`. Empty until a name is inherited.
    places: HashMap<&'n str, usize>,
    /// The id in the composed map of each name of the first map that was inherited.
    ids: Vec<Option<u32>>,
}

/// No inherited names yet, for two maps with these names.
pub(crate) fn no_names<'n>(
    alloc: Global,
    first: &[CowStr<'_>],
    second: &[CowStr<'_>],
) -> Memory<InheritedNames<'n>>
    ensures { IfOk result (λ inherited. IsInheriting (cow_texts first.now)
        (cow_texts second.now) inherited × (names_with (cow_texts second.now) inherited
        ≡ cow_texts second.now)) }
{
    let mut ids = Vec::with_capacity(alloc, first.len())?;
    ids.resize(first.len(), None)?;
    Ok(InheritedNames {
        names: Vec::new(alloc),
        places: HashMap::new(alloc),
        ids,
    })
}

/// Stores the index of each name, that of the first where names are equal.
fn fill_indices<'n>(places: &mut HashMap<&'n str, usize>, names: &'n [CowStr<'_>]) -> Memory<()>
    requires { places.old.entries ≡ [] }
    ensures { OnOk result (HasIndices (cow_texts names.now) places.new) }
{
    places.reserve(names.len())?;
    for (i, name) in names.iter().enumerate() {
        places.entry(name.as_str())?.or_insert(i);
    }
    Ok(())
}

/// Stores the indices of the second map's names, unless that is done: it is put off until a name is inherited.
fn fill<'n>(inherited: &mut InheritedNames<'n>, second: &'n [CowStr<'_>]) -> Memory<()>
    requires { HasNames (cow_texts second.now) inherited.old }
    ensures places { OnOk result (HasIndices (names_with
        (cow_texts second.now) inherited.new) inherited.new.places) }
    ensures names { inherited.new.names.items ≡ inherited.old.names.items }
    ensures ids { inherited.new.ids.items ≡ inherited.old.ids.items }
{
    if inherited.places.is_empty() {
        fill_indices(&mut inherited.places, second)?;
    }
    Ok(())
}

/// An index as an id; `TooLarge` above 4294967294.
fn id_at(index: usize) -> Result<u32>
    ensures id { IfOk result (λ id. (id ≡ index) × (id < 4294967295)) }
    ensures too_large { IfErr result (λ e. (e ≡ TooLarge) × (4294967295 ≤ index)) }
{
    if index >= 4294967295 {
        return Err(Error::TooLarge);
    }
    Ok(index as u32)
}

/// The id of a name in the composed map: that of an equal name, else that of a new last one.
fn inherit_name<'n>(
    inherited: &mut InheritedNames<'n>,
    second: &'n [CowStr<'_>],
    name: &'n str,
) -> Result<u32>
    requires { HasNames (cow_texts second.now) inherited.old }
    ensures names { let second = cow_texts second.now in
        OnOk result (names_with second inherited.new
        ≡ with_text (names_with second inherited.old) name.now) }
    ensures id { IfOk result (λ id. (index_of name.now
        (names_with (cow_texts second.now) inherited.new) ≡ Some id) × (id < 4294967295)) }
    ensures kept { OnOk result (HasNames (cow_texts second.now) inherited.new) }
    ensures ids { inherited.new.ids.items ≡ inherited.old.ids.items }
    ensures error { IfErr result (λ e. (e ≢ OutOfMemory) → (e ≡ TooLarge)
        × (may_be_id (index_of name.now (with_text
        (names_with (cow_texts second.now) inherited.old) name.now)) ≡ false)) }
{
    fill(inherited, second)?;
    if let Some(index) = inherited.places.get(name) {
        return id_at(*index);
    }
    let index = second.len().saturating_add(inherited.names.len());
    let id = id_at(index)?;
    inherited.names.push(name)?;
    inherited.places.insert(name, index)?;
    Ok(id)
}

/// The id in the composed map of the name that the first map has at this id; it may be a new last one.
pub(crate) fn inherit_id<'n>(
    inherited: &mut InheritedNames<'n>,
    first: &'n [CowStr<'_>],
    second: &'n [CowStr<'_>],
    id: Option<u32>,
) -> Result<Option<u32>>
    requires { IsInheriting (cow_texts first.now) (cow_texts second.now) inherited.old }
    ensures names { let name = option_and_then (slice_get (cow_texts first.now)) id in
        let second = cow_texts second.now in
        OnOk result (names_with second inherited.new
        ≡ with_inherited (names_with second inherited.old) name) }
    ensures id { let name = option_and_then (slice_get (cow_texts first.now)) id in
        IfOk result (λ id. (inherited_index (names_with (cow_texts second.now) inherited.new) name
        ≡ id) × (may_be_id id ≡ true)) }
    ensures kept { OnOk result (IsInheriting (cow_texts first.now)
        (cow_texts second.now) inherited.new) }
    ensures error { let name = option_and_then (slice_get (cow_texts first.now)) id in
        IfErr result (λ e. (e ≢ OutOfMemory) → (e ≡ TooLarge)
        × (may_be_id (inherited_index (with_inherited
        (names_with (cow_texts second.now) inherited.old) name) name) ≡ false)) }
{
    let Some(id) = id else {
        return Ok(None);
    };
    let i = id as usize;
    if i >= first.len() {
        return Ok(None);
    }
    if let Some(known) = inherited.ids[i] {
        return Ok(Some(known));
    }
    let id = inherit_name(inherited, second, first[i].as_str())?;
    inherited.ids[i] = Some(id);
    Ok(Some(id))
}

/// Owned copies of the names that were inherited.
pub(crate) fn owned_names<'a>(
    alloc: Global,
    inherited: InheritedNames<'_>,
) -> Memory<Vec<CowStr<'a>>>
    ensures { IfOk result (λ owned. texts_of owned ≡ lent_items inherited.entry.names.items) }
{
    let InheritedNames { names, .. } = inherited;
    let mut owned = Vec::with_capacity(alloc, names.len())?;
    for name in names {
        owned.push(owned_text(alloc, name)?)?;
    }
    Ok(owned)
}
