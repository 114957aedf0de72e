//! Equal texts and equal sources of a map: for each the index of the first one.
ghost use Rattle.std.specs.Prelude.{◌≡◌, ◌<◌, ℕ, length, slice_get, get_or, IfOk, OnOk, Some};
ghost use Rattle.std.specs.Prelude.{IsTrue};
ghost use Rattle.std.specs.Option.{option_and_then, unwrap_or};
ghost use Rattle.oxc_sourcemap_steps.specs.Words.{found_for, KeepsFirst, cow_texts, AreFirsts};
ghost use Rattle.oxc_sourcemap_steps.specs.Words.{is_same_source, lent_source, lent_item, text_of};
ghost use Rattle.std.specs.Str.{bytes_eq};
ghost use Rattle.oxc_sourcemap_steps.specs.SimplifySteps.{sources_in};

use oxc_sourcemap_parts::SourceMapParts;
use oxc_sourcemap_tokens::Memory;
use std::alloc::Global;
use std::borrow::CowStr;
use std::collections::HashMap;

/// For each text the index of the first equal one.
pub(crate) fn first_texts(alloc: Global, texts: &[CowStr<'_>]) -> Memory<Vec<usize>>
    ensures { IfOk result (λ firsts. AreFirsts bytes_eq (cow_texts texts.now) firsts.items) }
{
    let mut places = HashMap::new(alloc);
    places.reserve(texts.len())?;
    let mut firsts = Vec::with_capacity(alloc, texts.len())?;
    for (i, text) in texts.iter().enumerate() {
        firsts.push(*places.entry(text.as_str())?.or_insert(i))?;
    }
    Ok(firsts)
}

/// A string, borrowed, if there is one.
fn lent_text<'m>(text: &'m Option<CowStr<'_>>) -> Option<&'m str>
    ensures { lent_item result ≡ text_of text.now }
{
    match text {
        Some(text) => Some(text.as_str()),
        None => None,
    }
}

/// The content at an index, if it is known.
fn content_at<'m>(contents: &'m [Option<CowStr<'m>>], i: usize) -> Option<&'m str>
    ensures { lent_item result ≡ option_and_then text_of (slice_get contents.now i) }
{
    match contents.get(i) {
        Some(content) => lent_text(content),
        None => None,
    }
}

/// The path and the content of the source at an index.
fn source_at<'m>(parts: &'m SourceMapParts<'m>, i: usize) -> (&'m str, Option<&'m str>)
    requires { i < length parts.now.sources.items }
    ensures { slice_get (sources_in parts.now) i ≡ Some (lent_source result) }
{
    let content = content_at(parts.source_contents.as_slice(), i);
    (parts.sources[i].as_str(), content)
}

/// Keeps an index for a source, if there is none. Returns the one that is kept. Each source is hashed once, but for repeats.
fn keep_source<'m>(
    places: &mut HashMap<(&'m str, Option<&'m str>), usize>,
    source: (&'m str, Option<&'m str>),
    i: usize,
) -> Memory<usize>
    ensures value { IfOk result (λ k. k ≡ unwrap_or (found_for places.old source.entry) i) }
    ensures others { OnOk result (KeepsFirst places.old places.new source.entry i) }
{
    match places.insert(source, i)? {
        Some(first) => {
            places.insert(source, first)?;
            Ok(first)
        }
        None => Ok(i),
    }
}

/// Whether each index of a list is its own.
fn are_own(firsts: &[usize]) -> bool
    ensures { IsTrue result → (k : ℕ) → k < length firsts.now → get_or firsts.now k 0 ≡ k }
{
    for (i, first) in firsts.iter().enumerate() {
        if *first != i {
            return false;
        }
    }
    true
}

/// For each source the index of the first one with an equal path and an equal content. Contents are looked at only where two paths
/// are equal.
pub(crate) fn first_sources<'m>(alloc: Global, parts: &'m SourceMapParts<'m>) -> Memory<Vec<usize>>
    ensures { IfOk result (λ firsts. AreFirsts is_same_source (sources_in parts.now) firsts.items) }
{
    let firsts = first_texts(alloc, parts.sources.as_slice())?;
    if are_own(firsts.as_slice()) {
        return Ok(firsts);
    }
    first_hashed_sources(alloc, parts)
}

/// The same, by a table of paths and contents.
fn first_hashed_sources<'m>(alloc: Global, parts: &'m SourceMapParts<'m>) -> Memory<Vec<usize>>
    ensures { IfOk result (λ firsts. AreFirsts is_same_source (sources_in parts.now) firsts.items) }
{
    let mut places: HashMap<(&'m str, Option<&'m str>), usize> = HashMap::new(alloc);
    places.reserve(parts.sources.len())?;
    let mut firsts = Vec::with_capacity(alloc, parts.sources.len())?;
    for i in 0..parts.sources.len() {
        firsts.push(keep_source(&mut places, source_at(parts, i), i)?)?;
    }
    Ok(firsts)
}
