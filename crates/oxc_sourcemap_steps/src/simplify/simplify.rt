//! The simplified map, put together: first all that takes memory, so that an error leaves the map as it was.
ghost use Rattle.std.specs.Prelude.{◌≡◌, ◌≢◌, ◌<◌, ◌≤◌, [], true, false, map, length, get_or, OnOk};
ghost use Rattle.std.specs.Prelude.{OnErr, IfOk, IfErr, Ok, Err};
ghost use Rattle.std.specs.Box.{boxed_slice_items};
ghost use Rattle.std.specs.List.{AllByRecursion};
ghost use Rattle.oxc_sourcemap_steps.specs.Words.{OutOfMemory, TooLarge, Map, Unsorted};
ghost use Rattle.oxc_sourcemap_steps.specs.Words.{are_tokens_sorted, record_of_parts, ids_of};
ghost use Rattle.oxc_sourcemap_steps.specs.Words.{simplified, fits, simplification, set_from};
ghost use Rattle.oxc_sourcemap_steps.specs.Words.{unless_empty, flags_of, AreTables, AreWithin};
ghost use Rattle.oxc_sourcemap_steps.specs.Words.{IsSimple};

use crate::remap::ignored_flags;
use crate::simplify::firsts::{first_sources, first_texts};
use crate::simplify::moves::{move_contents, move_texts};
use crate::simplify::sources::listed_sources;
use crate::simplify::tokens::{Kept, Numbers, Tables, kept_tokens};
use oxc_sourcemap_parts::{SourceMapParts, are_sorted};
use oxc_sourcemap_tokens::{Memory, PlanError, Result, Token};
use std::alloc::Global;
use std::borrow::CowStr;

/// What tokens of a map are compared by, if these flags say which of its sources are ignored.
fn tables_of(alloc: Global, parts: &SourceMapParts<'_>, flags: &[bool]) -> Memory<Tables>
    requires { flags.now ≡ flags_of (record_of_parts parts.now) }
    ensures tables { IfOk result (λ tables. AreTables (record_of_parts parts.now) tables) }
    ensures within { IfOk result AreWithin }
{
    let firsts = first_sources(alloc, parts)?;
    Ok(Tables {
        sources: listed_sources(alloc, firsts.as_slice(), flags)?,
        names: first_texts(alloc, parts.names.as_slice())?,
    })
}

/// The places in an order at which ignored sources stand; None if there are none.
fn ignored_indices(alloc: Global, order: &[usize], flags: &[bool]) -> Memory<Option<Vec<u32>>>
    requires within { AllByRecursion (λ k. k < length flags.now) order.now }
    requires few { length order.now ≤ 4294967295 }
    ensures { IfOk result (λ list. ids_of list
        ≡ unless_empty (set_from 0 (map (λ k. get_or flags.now k false) order.now))) }
{
    let mut places = Vec::new(alloc);
    for (i, k) in order.iter().enumerate() {
        if flags[*k] {
            places.push(i as u32)?;
        }
    }
    Ok(if places.is_empty() {
        None
    } else {
        Some(places)
    })
}

/// What a simplified map is made of: its tokens, the order of its names and sources by their old indices, and room for their
/// strings.
#[derive(Drop)]
struct Simple<'a> {
    tokens: Vec<Token>,
    numbers: Numbers,
    ignore_list: Option<Vec<u32>>,
    names: Vec<CowStr<'a>>,
    sources: Vec<CowStr<'a>>,
    source_contents: Vec<Option<CowStr<'a>>>,
}

/// What the simplified map is made of. It need not find that tokens are not sorted before it fails otherwise.
fn simple_of<'a>(
    alloc: Global,
    parts: &SourceMapParts<'_>,
) -> std::result::Result<Simple<'a>, PlanError>
    ensures simple { IfOk result (IsSimple (record_of_parts parts.now)) }
    ensures sorted { OnOk result (are_tokens_sorted (record_of_parts parts.now).tokens ≡ true) }
    ensures fits { OnOk result (fits (simplified (record_of_parts parts.now)) ≡ true) }
    ensures unsorted { IfErr result (λ e. e ≡ Unsorted
        → are_tokens_sorted (record_of_parts parts.now).tokens ≡ false) }
    ensures error { IfErr result (λ e. (e ≢ Map OutOfMemory) → (e ≢ Unsorted)
        → (e ≡ Map TooLarge) × (fits (simplified (record_of_parts parts.now)) ≡ false)) }
{
    let flags = ignored_flags(alloc, parts)?;
    let tables = tables_of(alloc, parts, flags.as_slice())?;
    let Kept { tokens, numbers } = kept_tokens(alloc, &tables, parts.tokens.as_slice())?;
    let sources = numbers.sources.numbering.order.as_slice();
    let ignore_list = ignored_indices(alloc, sources, flags.as_slice())?;
    Ok(Simple {
        tokens,
        ignore_list,
        names: Vec::with_capacity(alloc, numbers.names.numbering.order.len())?,
        sources: Vec::with_capacity(alloc, sources.len())?,
        source_contents: Vec::with_capacity(alloc, sources.len())?,
        numbers,
    })
}

/// Makes a map the simplified one. It takes no memory.
fn put_in<'a>(parts: &mut SourceMapParts<'a>, simple: Simple<'a>)
    requires { IsSimple (record_of_parts parts.old) simple }
    ensures { record_of_parts parts.new ≡ simplified (record_of_parts parts.old) }
{
    let Simple {
        tokens,
        numbers,
        ignore_list,
        mut names,
        mut sources,
        mut source_contents,
    } = simple;
    let order = numbers.sources.numbering.order.as_slice();
    move_texts(
        &mut parts.names,
        numbers.names.numbering.order.as_slice(),
        &mut names,
    );
    move_texts(&mut parts.sources, order, &mut sources);
    move_contents(&mut parts.source_contents, order, &mut source_contents);
    parts.names = names;
    parts.sources = sources;
    parts.source_contents = source_contents;
    parts.tokens = tokens.into_boxed_slice();
    parts.token_chunks = None;
    parts.ignore_list = ignore_list;
}

/// Simplifies a map: its traces stay as they are, and tokens, names and sources go that they do not need.
///
/// - On each line a token that points where the one before it points is dropped, and so is one that no lookup may find. Where the
///   first of two tokens at one position is dropped for that, the second one moves to the next column.
/// - Sources that are equal, have equal contents and are both ignored or both not become one, and so do equal names. Those that
///   no token needs are dropped. Both are in the order in which tokens need them first.
/// - A token whose source id is out of range becomes unmapped, at source position 0:0; a name id out of range goes.
/// - File, source root and debug id stay. There are no chunks, and there is an ignore list only if it has entries.
///
/// Strings are moved and not copied. On an error the map stays as it was. Fails with `Unsorted` if the tokens are not sorted,
/// whatever else holds; else with `Map(TooLarge)` if sources would number above 4294967295 or a token would move past that column;
/// and with `Map(OutOfMemory)`.
pub fn simplify_parts(
    alloc: Global,
    parts: &mut SourceMapParts<'_>,
) -> std::result::Result<(), PlanError>
    ensures simplified { OnOk result (simplification (record_of_parts parts.old)
        ≡ Ok (record_of_parts parts.new)) }
    ensures error { IfErr result (λ e. (e ≢ Map OutOfMemory)
        → simplification (record_of_parts parts.old) ≡ Err e) }
    ensures unchanged { OnErr result (record_of_parts parts.new ≡ record_of_parts parts.old) }
    ensures unsorted { are_tokens_sorted (boxed_slice_items parts.old.tokens) ≡ false
        → result ≡ Err Unsorted }
{
    match simple_of(alloc, parts) {
        Ok(simple) => {
            put_in(parts, simple);
            Ok(())
        }
        Err(error) => Err(if are_sorted(parts.tokens.as_slice()) {
            error
        } else {
            PlanError::Unsorted
        }),
    }
}
