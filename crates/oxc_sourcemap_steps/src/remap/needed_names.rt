//! The names that the tokens of a remapped map need. A name is hashed if it is not where it was found before.
ghost use Rattle.std.specs.Prelude.{◌≡◌, ◌≢◌, ◌<◌, [], length, IfOk, OnOk, IfErr, IfSome, Some};
ghost use Rattle.oxc_sourcemap_steps.specs.Words.{OutOfMemory, TooLarge, index_of, with_text};
ghost use Rattle.oxc_sourcemap_steps.specs.Words.{texts_of, names_in, AreIndexed};

use oxc_sourcemap_tokens::{Error, Memory, Result};
use std::alloc::Global;
use std::borrow::CowStr;
use std::collections::HashMap;

/// Names, each once, in the order in which they were first needed.
#[derive(Drop)]
pub(crate) struct NeededNames<'m> {
    names: Vec<&'m str>,
    /// The index of each of them.
    places: HashMap<&'m str, u32>,
    /// For an id that a name has in its own map, the index of the last one with that id. Other maps have other names for it.
    hints: Vec<u32>,
}

/// No names. There will be hints for ids below `hint_count`.
pub(crate) fn no_names<'m>(alloc: Global, hint_count: usize) -> Memory<NeededNames<'m>>
    ensures placed { IfOk result AreIndexed }
    ensures none { IfOk result (λ needed. names_in needed ≡ []) }
{
    let mut hints = Vec::with_capacity(alloc, hint_count)?;
    hints.resize(hint_count, 0)?;
    Ok(NeededNames {
        names: Vec::new(alloc),
        places: HashMap::new(alloc),
        hints,
    })
}

/// The id of a name, if the hint for its own id leads to it.
fn hinted_id(needed: &NeededNames<'_>, name: &str, own_id: u32) -> Option<u32>
    requires { AreIndexed needed.now }
    ensures { IfSome result (λ id. (index_of name.now (names_in needed.now) ≡ Some id)
        × (id < 4294967295)) }
{
    let id = *needed.hints.get(own_id as usize)?;
    let hinted = *needed.names.get(id as usize)?;
    if hinted == name { Some(id) } else { None }
}

/// Keeps the index of a name for its own id, if there is a hint for that.
fn set_hint(hints: &mut Vec<u32>, own_id: u32, id: u32) {
    let i = own_id as usize;
    if i < hints.len() {
        hints[i] = id;
    }
}

/// The id of a name, by hashing: that of the equal one, else that of a new last one.
// It is rare: inlined, it takes the registers of the loop over tokens.
#[cold]
fn hashed_id<'m>(needed: &mut NeededNames<'m>, name: &'m str) -> Result<u32>
    requires { AreIndexed needed.old }
    ensures names { OnOk result (names_in needed.new ≡ with_text (names_in needed.old) name.now) }
    ensures id { IfOk result (λ id. (index_of name.now (names_in needed.new) ≡ Some id)
        × (id < 4294967295)) }
    ensures placed { OnOk result (AreIndexed needed.new) }
    ensures error { IfErr result (λ e. (e ≢ OutOfMemory) → (e ≡ TooLarge)
        × (4294967295 < length (with_text (names_in needed.old) name.now))) }
{
    if let Some(id) = needed.places.get(name) {
        return Ok(*id);
    }
    let count = needed.names.len();
    if count >= 4294967295 {
        return Err(Error::TooLarge);
    }
    let id = count as u32;
    needed.names.push(name)?;
    needed.places.insert(name, id)?;
    Ok(id)
}

/// The id of a name, which has this id in its own map: that of the equal one, else that of a new last one.
pub(crate) fn need_name<'m>(needed: &mut NeededNames<'m>, name: &'m str, own_id: u32) -> Result<u32>
    requires { AreIndexed needed.old }
    ensures names { OnOk result (names_in needed.new ≡ with_text (names_in needed.old) name.now) }
    ensures id { IfOk result (λ id. (index_of name.now (names_in needed.new) ≡ Some id)
        × (id < 4294967295)) }
    ensures placed { OnOk result (AreIndexed needed.new) }
    ensures error { IfErr result (λ e. (e ≢ OutOfMemory) → (e ≡ TooLarge)
        × (4294967295 < length (with_text (names_in needed.old) name.now))) }
{
    if let Some(id) = hinted_id(needed, name, own_id) {
        return Ok(id);
    }
    let id = hashed_id(needed, name)?;
    set_hint(&mut needed.hints, own_id, id);
    Ok(id)
}

/// The names, borrowed.
pub(crate) fn lent_names<'m>(alloc: Global, needed: NeededNames<'m>) -> Memory<Vec<CowStr<'m>>>
    ensures { IfOk result (λ names. texts_of names ≡ names_in needed.entry) }
{
    let NeededNames { names, .. } = needed;
    let mut lent = Vec::with_capacity(alloc, names.len())?;
    for name in names {
        lent.push(CowStr::Borrowed(name))?;
    }
    Ok(lent)
}
