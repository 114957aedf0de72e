//! Maps made of whole lists.
ghost use Rattle.std.specs.Prelude.{◌≡◌, ◌≢◌, Some, None, map, IfOk, IfErr, Ok};
ghost use Rattle.oxc_sourcemap_c.specs.Words.{out_of_memory, lent_items, token_of, known_texts};
ghost use Rattle.oxc_sourcemap_c.specs.Words.{id_not_below, token_fault, tokens_fault, ids_fault};
ghost use Rattle.oxc_sourcemap_c.specs.Words.{lists_fault, ids_of, map_of_lists, ids_if_any};
ghost use Rattle.oxc_sourcemap_c.specs.Words.{is_too_long, has_too_long_list, first_not_below};
ghost use Rattle.oxc_sourcemap_c.specs.Words.{cow_texts, record_of_parts, IsNotTextOf};
ghost use Rattle.oxc_sourcemap_c.specs.Words.{IsListsError, HasTexts, no_fault, IsErrorAs};
ghost use Rattle.oxc_sourcemap_c.specs.Words.{held_map};

use crate::holding::{Handle, put_map};
use crate::numbers::{CallError, Fault};
use crate::texts::{TokenNumbers, contents_of, texts_of, tokens_of};
use oxc_sourcemap_map::OwnedSourceMap;
use oxc_sourcemap_parts::{SourceMapParts, owned_contents, owned_text};
use oxc_sourcemap_tokens::{Error, Memory, Token};
use std::alloc::Global;
use std::borrow::CowStr;

/// An id that is there and not below a count.
fn id_not_below(count: usize, id: Option<u32>) -> Option<u32>
    ensures { result ≡ id_not_below count id }
{
    let id = id?;
    if (id as usize) < count {
        None
    } else {
        Some(id)
    }
}

/// The fault of the ids of a token, if there are so many names and sources.
fn token_fault(token: &Token, names: usize, sources: usize) -> Option<Error>
    ensures { result ≡ token_fault names sources token.now }
{
    if let Some(id) = id_not_below(sources, token.get_source_id()) {
        return Some(Error::BadSourceReference(id));
    }
    match id_not_below(names, token.get_name_id()) {
        Some(id) => Some(Error::BadNameReference(id)),
        None => None,
    }
}

/// The fault of the first token that has one.
fn tokens_fault(tokens: &[Token], names: usize, sources: usize) -> Option<Error>
    ensures { result ≡ tokens_fault names sources tokens.now }
{
    for token in tokens {
        if let Some(fault) = token_fault(token, names, sources) {
            return Some(fault);
        }
    }
    None
}

/// The first of these ids that is not below a count.
fn first_not_below(count: usize, ids: &[u32]) -> Option<u32>
    ensures { result ≡ first_not_below count ids.now }
{
    for id in ids {
        if *id as usize >= count {
            return Some(*id);
        }
    }
    None
}

/// The fault of an ignore list, if there are so many sources.
fn ids_fault(list: &Option<Vec<u32>>, sources: usize) -> Option<Error>
    ensures { result ≡ ids_fault sources (ids_of list.now) }
{
    let ids = list.as_ref()?;
    let id = first_not_below(sources, ids.as_slice())?;
    Some(Error::BadSourceReference(id))
}

/// Whether a list has more entries than ids can tell apart.
fn is_too_long(len: usize) -> bool
    ensures { result ≡ is_too_long len }
{
    len > 4294967295
}

/// Whether one of the lists of a map has.
fn has_too_long_list(parts: &SourceMapParts<'_>) -> bool
    ensures { result ≡ has_too_long_list (record_of_parts parts.now) }
{
    let ignored = match &parts.ignore_list {
        Some(ids) => ids.len(),
        None => 0,
    };
    is_too_long(parts.tokens.len())
        || is_too_long(parts.names.len())
        || is_too_long(parts.sources.len())
        || is_too_long(parts.source_contents.len())
        || is_too_long(ignored)
}

/// The first fault of the lists of a map.
fn lists_fault(parts: &SourceMapParts<'_>) -> Option<Error>
    ensures { result ≡ lists_fault (record_of_parts parts.now) }
{
    let sources = parts.sources.len();
    if let Some(fault) = tokens_fault(parts.tokens.as_slice(), parts.names.len(), sources) {
        return Some(fault);
    }
    if let Some(fault) = ids_fault(&parts.ignore_list, sources) {
        return Some(fault);
    }
    if has_too_long_list(parts) {
        return Some(Error::TooLarge);
    }
    None
}

/// Owned copies of texts.
fn own_texts(alloc: Global, texts: &[&str]) -> Memory<Vec<CowStr<'static>>>
    ensures { IfOk result (λ owned. cow_texts owned.items ≡ lent_items texts.now) }
{
    let mut owned = Vec::with_capacity(alloc, texts.len())?;
    for text in texts {
        owned.push(owned_text(alloc, text)?)?;
    }
    Ok(owned)
}

/// A copy of an ignore list; an empty one is none.
fn ids_if_any(alloc: Global, ids: &[u32]) -> Memory<Option<Vec<u32>>>
    ensures { IfOk result (λ list. ids_of list ≡ ids_if_any ids.now) }
{
    if ids.is_empty() {
        return Ok(None);
    }
    Ok(Some(ids.to_vec(alloc)?))
}

/// The parts of the map of these lists, of which texts alone are checked.
fn parts_of_lists(
    alloc: Global,
    tokens: &[TokenNumbers],
    names: &[&[u8]],
    sources: &[&[u8]],
    contents: &[&[u8]],
    known: &[u8],
    ids: &[u32],
) -> Result<SourceMapParts<'static>, CallError>
    ensures parts { let m = map_of_lists (map token_of tokens.now) (lent_items names.now)
        (lent_items sources.now) (known_texts (lent_items contents.now) known.now) ids.now in
        IfOk result (λ parts. (record_of_parts parts ≡ m) × HasTexts m) }
    ensures error { let m = map_of_lists (map token_of tokens.now) (lent_items names.now)
        (lent_items sources.now) (known_texts (lent_items contents.now) known.now) ids.now in
        IfErr result (λ r. (r ≢ out_of_memory) → IsNotTextOf m r) }
{
    let names = texts_of(alloc, names)?;
    let sources = texts_of(alloc, sources)?;
    let contents = contents_of(alloc, contents, known)?;
    Ok(SourceMapParts {
        file: None,
        names: own_texts(alloc, names.as_slice())?,
        source_root: None,
        sources: own_texts(alloc, sources.as_slice())?,
        source_contents: owned_contents(alloc, contents)?,
        tokens: tokens_of(alloc, tokens)?.into_boxed_slice(),
        token_chunks: None,
        ignore_list: ids_if_any(alloc, ids)?,
        debug_id: None,
    })
}

/// The map of these lists; an empty ignore list is none. A content whose flag is 0 is not known. Fails with `NotUtf8` for the first of
/// names, sources and known contents that is not UTF-8, then with `BadSourceReference` or `BadNameReference` for the first token with
/// such an id that is out of range, `BadSourceReference` for the first entry of the ignore list, and `TooLarge` for more than
/// 4294967295 entries.
fn from_tokens(
    alloc: Global,
    tokens: &[TokenNumbers],
    names: &[&[u8]],
    sources: &[&[u8]],
    contents: &[&[u8]],
    known: &[u8],
    ids: &[u32],
) -> Result<OwnedSourceMap, CallError>
    ensures map { let m = map_of_lists (map token_of tokens.now) (lent_items names.now)
        (lent_items sources.now) (known_texts (lent_items contents.now) known.now) ids.now in
        IfOk result (λ made. (made ≡ m) × HasTexts m × (lists_fault m ≡ None)) }
    ensures error { let m = map_of_lists (map token_of tokens.now) (lent_items names.now)
        (lent_items sources.now) (known_texts (lent_items contents.now) known.now) ids.now in
        IfErr result (λ r. (r ≢ out_of_memory) → IsListsError m r) }
{
    let parts = parts_of_lists(alloc, tokens, names, sources, contents, known, ids)?;
    match lists_fault(&parts) {
        Some(fault) => Err(CallError::from(fault)),
        None => Ok(OwnedSourceMap::from_parts(parts)),
    }
}

/// Makes a map of whole lists. A content whose flag is 0, or that has none, is not known.
#[unsafe(no_mangle)]
pub extern "C" fn proved_from_tokens(
    alloc: Global,
    tokens: &[TokenNumbers],
    names: &[&[u8]],
    sources: &[&[u8]],
    contents: &[&[u8]],
    known: &[u8],
    ignore_list: &[u32],
    out: &mut Handle,
    fault: &mut Fault,
) -> u32
    ensures map { let m = map_of_lists (map token_of tokens.now) (lent_items names.now)
        (lent_items sources.now) (known_texts (lent_items contents.now) known.now)
        ignore_list.now in
        result ≡ 0 → (held_map out.new.held ≡ Some m) × HasTexts m × (lists_fault m ≡ None) }
    ensures no_error { result ≡ 0 → fault.new ≡ no_fault }
    ensures error { let m = map_of_lists (map token_of tokens.now) (lent_items names.now)
        (lent_items sources.now) (known_texts (lent_items contents.now) known.now)
        ignore_list.now in
        result ≢ 0 → (out.new.held ≡ out.old.held) × IsErrorAs result fault.new (IsListsError m) }
{
    let made = from_tokens(alloc, tokens, names, sources, contents, known, ignore_list);
    put_map(alloc, made, out, fault)
}
