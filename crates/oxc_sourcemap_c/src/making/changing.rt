//! Changes of the maps that handles hold.
ghost use Rattle.std.specs.Prelude.{◌≡◌, ◌≢◌, Some, IsUtf8, IfErr, OnOk, OnErr, Ok, Err, IsOk};
ghost use Rattle.std.specs.Prelude.{false, true};
ghost use Rattle.oxc_sourcemap_c.specs.Words.{out_of_memory, Changes, IsMapError, IsChange};
ghost use Rattle.oxc_sourcemap_c.specs.Words.{IsChangeError, IsSureError, CallError, code_of};
ghost use Rattle.oxc_sourcemap_c.specs.Words.{no_fault, IsErrorAs, IsNotText, IsNotTexts, AreTexts};
ghost use Rattle.oxc_sourcemap_c.specs.Words.{rooted, AreContents, known_texts, IsNotContents};
ghost use Rattle.oxc_sourcemap_c.specs.Words.{lent_items, IsSimplifyError, IsUnsorted, sorted_map};
ghost use Rattle.oxc_sourcemap_c.specs.Words.{simplification, NeedsNoMemory, HoldsOwn};
ghost use Rattle.oxc_sourcemap_c.specs.Words.{are_tokens_sorted};

use crate::answers::write_fault;
use crate::holding::{Handle, Held, LoadedMap};
use crate::numbers::{CallError, Fault};
use std::alloc::Global;

/// A change of a map. Texts are bytes, which have to be UTF-8.
#[derive(Clone, Copy)]
pub enum Change<'t> {
    File(&'t [u8]),
    SourceRoot(&'t [u8]),
    DebugId(&'t [u8]),
    IgnoreList(&'t [u32]),
    Sources(&'t [&'t [u8]]),
    /// Contents, and a flag for each: one whose flag is 0 is not known.
    SourceContents(&'t [&'t [u8]], &'t [u8]),
    ApplySourceRoot,
    Sort,
    Simplify,
}

fn change_loaded(loaded: &mut LoadedMap, alloc: Global, change: Change<'_>) -> Result<(), CallError>
    ensures changed { OnOk result (IsChange change.entry loaded.old loaded.new) }
    ensures error { IfErr result (λ r. (r ≢ out_of_memory)
        → IsChangeError change.entry loaded.old.map r) }
    ensures sure { (r : CallError) → IsSureError change.entry loaded.old.map r
        → result ≡ Err r }
    ensures no_memory { NeedsNoMemory change.entry loaded.old.map → IsOk result }
    ensures unchanged { OnErr result (loaded.new ≡ loaded.old) }
{
    match change {
        Change::File(file) => loaded.set_file(alloc, file),
        Change::SourceRoot(root) => loaded.set_source_root(alloc, root),
        Change::DebugId(id) => loaded.set_debug_id(alloc, id),
        Change::IgnoreList(ids) => loaded.set_ignore_list(alloc, ids),
        Change::Sources(sources) => loaded.set_sources(alloc, sources),
        Change::SourceContents(contents, known) => {
            loaded.set_source_contents(alloc, contents, known)
        }
        Change::ApplySourceRoot => loaded.apply_source_root(alloc),
        Change::Sort => loaded.sort(alloc),
        Change::Simplify => loaded.simplify(alloc),
    }
}

fn change_held(held: &mut Held, alloc: Global, change: Change<'_>) -> Result<(), CallError>
    ensures changed { OnOk result (Changes (Some held.old) (Some held.new)
        (IsChange change.entry)) }
    ensures error { IfErr result (λ r. (r ≢ out_of_memory)
        → IsMapError (Some held.old) (IsChangeError change.entry) r) }
    ensures sure { (r : CallError) → IsMapError (Some held.old) (IsSureError change.entry) r
        → result ≡ Err r }
    ensures no_memory { HoldsOwn (Some held.old) (NeedsNoMemory change.entry) → IsOk result }
    ensures unchanged { OnErr result (held.new ≡ held.old) }
{
    match held {
        Held::Map(loaded) => change_loaded(loaded, alloc, change),
        Held::Shared(_) => Err(CallError::Shared),
        _ => Err(CallError::NullHandle),
    }
}

/// Changes the map in a handle. Fails with `NullHandle` if there is none, with `Shared` if it is shared; on an error the map is as
/// it was.
fn change_map(alloc: Global, handle: &mut Handle, change: Change<'_>) -> Result<(), CallError>
    ensures changed { OnOk result (Changes handle.old.held handle.new.held
        (IsChange change.entry)) }
    ensures error { IfErr result (λ r. (r ≢ out_of_memory)
        → IsMapError handle.old.held (IsChangeError change.entry) r) }
    ensures sure { (r : CallError) → IsMapError handle.old.held (IsSureError change.entry) r
        → result ≡ Err r }
    ensures no_memory { HoldsOwn handle.old.held (NeedsNoMemory change.entry) → IsOk result }
    ensures unchanged { OnErr result (handle.new.held ≡ handle.old.held) }
{
    match handle.take(alloc) {
        Some(held) => {
            let mut held = held;
            let changed = change_held(held.as_mut(), alloc, change);
            handle.put(held);
            changed
        }
        None => Err(CallError::NullHandle),
    }
}

/// Sets the name of the generated file.
#[unsafe(no_mangle)]
pub extern "C" fn proved_set_file(
    alloc: Global,
    map: &mut Handle,
    file: &[u8],
    fault: &mut Fault,
) -> u32
    ensures set { result ≡ 0 → Changes map.old.held map.new.held
        (λ l n. IsUtf8 file.now
        × (n ≡ record l { map = record l.map { file = Some file.now } })) }
    ensures no_error { result ≡ 0 → fault.new ≡ no_fault }
    ensures error { result ≢ 0 → (map.new.held ≡ map.old.held)
        × IsErrorAs result fault.new (IsMapError map.old.held (λ m. IsNotText file.now)) }
    ensures sure { (r : CallError) → IsMapError map.old.held (λ m. IsNotText file.now) r
        → result ≡ code_of r }
{
    write_fault(change_map(alloc, map, Change::File(file)), fault)
}

/// Sets the source root.
#[unsafe(no_mangle)]
pub extern "C" fn proved_set_source_root(
    alloc: Global,
    map: &mut Handle,
    root: &[u8],
    fault: &mut Fault,
) -> u32
    ensures set { result ≡ 0 → Changes map.old.held map.new.held
        (λ l n. IsUtf8 root.now
        × (n ≡ record l { map = record l.map { source_root = Some root.now } })) }
    ensures no_error { result ≡ 0 → fault.new ≡ no_fault }
    ensures error { result ≢ 0 → (map.new.held ≡ map.old.held)
        × IsErrorAs result fault.new (IsMapError map.old.held (λ m. IsNotText root.now)) }
    ensures sure { (r : CallError) → IsMapError map.old.held (λ m. IsNotText root.now) r
        → result ≡ code_of r }
{
    write_fault(change_map(alloc, map, Change::SourceRoot(root)), fault)
}

/// Sets the debug id.
#[unsafe(no_mangle)]
pub extern "C" fn proved_set_debug_id(
    alloc: Global,
    map: &mut Handle,
    id: &[u8],
    fault: &mut Fault,
) -> u32
    ensures set { result ≡ 0 → Changes map.old.held map.new.held
        (λ l n. IsUtf8 id.now
        × (n ≡ record l { map = record l.map { debug_id = Some id.now } })) }
    ensures no_error { result ≡ 0 → fault.new ≡ no_fault }
    ensures error { result ≢ 0 → (map.new.held ≡ map.old.held)
        × IsErrorAs result fault.new (IsMapError map.old.held (λ m. IsNotText id.now)) }
    ensures sure { (r : CallError) → IsMapError map.old.held (λ m. IsNotText id.now) r
        → result ≡ code_of r }
{
    write_fault(change_map(alloc, map, Change::DebugId(id)), fault)
}

/// Sets the ignore list.
#[unsafe(no_mangle)]
pub extern "C" fn proved_set_ignore_list(
    alloc: Global,
    map: &mut Handle,
    ids: &[u32],
    fault: &mut Fault,
) -> u32
    ensures set { result ≡ 0 → Changes map.old.held map.new.held
        (λ l n. n ≡ record l { map = record l.map { ignore_list = Some ids.now } }) }
    ensures no_error { result ≡ 0 → fault.new ≡ no_fault }
    ensures error { result ≢ 0 → (map.new.held ≡ map.old.held)
        × IsErrorAs result fault.new (IsMapError map.old.held (λ m r. ⊥)) }
    ensures sure { (r : CallError) → IsMapError map.old.held (λ m r. ⊥) r
        → result ≡ code_of r }
{
    write_fault(change_map(alloc, map, Change::IgnoreList(ids)), fault)
}

/// Sets the sources.
#[unsafe(no_mangle)]
pub extern "C" fn proved_set_sources(
    alloc: Global,
    map: &mut Handle,
    sources: &[&[u8]],
    fault: &mut Fault,
) -> u32
    ensures set { result ≡ 0 → Changes map.old.held map.new.held
        (λ l n. AreTexts (lent_items sources.now)
        × (n ≡ record l { map = record l.map { sources = lent_items sources.now } })) }
    ensures no_error { result ≡ 0 → fault.new ≡ no_fault }
    ensures error { result ≢ 0 → (map.new.held ≡ map.old.held)
        × IsErrorAs result fault.new (IsMapError map.old.held
        (λ m. IsNotTexts (lent_items sources.now))) }
    ensures sure { (r : CallError) → IsMapError map.old.held (λ m r. ⊥) r
        → result ≡ code_of r }
{
    write_fault(change_map(alloc, map, Change::Sources(sources)), fault)
}

/// Sets the contents of sources. There is a flag for each: a content whose flag is 0 is not known.
#[unsafe(no_mangle)]
pub extern "C" fn proved_set_source_contents(
    alloc: Global,
    map: &mut Handle,
    contents: &[&[u8]],
    known: &[u8],
    fault: &mut Fault,
) -> u32
    ensures set { let texts = known_texts (lent_items contents.now) known.now in
        result ≡ 0 → Changes map.old.held map.new.held
        (λ l n. AreContents texts
        × (n ≡ record l { map = record l.map { source_contents = texts } })) }
    ensures no_error { result ≡ 0 → fault.new ≡ no_fault }
    ensures error { result ≢ 0 → (map.new.held ≡ map.old.held)
        × IsErrorAs result fault.new (IsMapError map.old.held
        (λ m. IsNotContents (known_texts (lent_items contents.now) known.now))) }
    ensures sure { (r : CallError) → IsMapError map.old.held (λ m r. ⊥) r
        → result ≡ code_of r }
{
    let changed = change_map(alloc, map, Change::SourceContents(contents, known));
    write_fault(changed, fault)
}

/// Puts the source root before each source, and takes it away.
#[unsafe(no_mangle)]
pub extern "C" fn proved_apply_source_root(
    alloc: Global,
    map: &mut Handle,
    fault: &mut Fault,
) -> u32
    ensures set { result ≡ 0 → Changes map.old.held map.new.held
        (λ l n. n ≡ record l { map = rooted l.map }) }
    ensures no_error { result ≡ 0 → fault.new ≡ no_fault }
    ensures error { result ≢ 0 → (map.new.held ≡ map.old.held)
        × IsErrorAs result fault.new (IsMapError map.old.held (λ m r. ⊥)) }
    ensures sure { (r : CallError) → IsMapError map.old.held (λ m r. ⊥) r
        → result ≡ code_of r }
{
    write_fault(change_map(alloc, map, Change::ApplySourceRoot), fault)
}

/// Sorts the tokens by generated position. The map then has no index of sources. Cannot fail for want of memory if the map is sorted.
#[unsafe(no_mangle)]
pub extern "C" fn proved_sort(alloc: Global, map: &mut Handle, fault: &mut Fault) -> u32
    ensures sorted { result ≡ 0 → Changes map.old.held map.new.held
        (λ l n. (n.map ≡ sorted_map l.map) × (n.has_order ≡ false)) }
    ensures no_memory { HoldsOwn map.old.held (λ m. are_tokens_sorted m.tokens ≡ true)
        → result ≡ 0 }
    ensures no_error { result ≡ 0 → fault.new ≡ no_fault }
    ensures error { result ≢ 0 → (map.new.held ≡ map.old.held)
        × IsErrorAs result fault.new (IsMapError map.old.held (λ m r. ⊥)) }
    ensures sure { (r : CallError) → IsMapError map.old.held (λ m r. ⊥) r
        → result ≡ code_of r }
{
    write_fault(change_map(alloc, map, Change::Sort), fault)
}

/// Drops what no trace needs. The map then has no index of sources.
#[unsafe(no_mangle)]
pub extern "C" fn proved_simplify(alloc: Global, map: &mut Handle, fault: &mut Fault) -> u32
    ensures simplified { result ≡ 0 → Changes map.old.held map.new.held
        (λ l n. (simplification l.map ≡ Ok n.map) × (n.has_order ≡ false)) }
    ensures no_error { result ≡ 0 → fault.new ≡ no_fault }
    ensures error { result ≢ 0 → (map.new.held ≡ map.old.held)
        × IsErrorAs result fault.new (IsMapError map.old.held IsSimplifyError) }
    ensures sure { (r : CallError) → IsMapError map.old.held IsUnsorted r
        → result ≡ code_of r }
{
    write_fault(change_map(alloc, map, Change::Simplify), fault)
}
