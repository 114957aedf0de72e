//! The strings of a map: made owned, cloned, and turned from `String` to `CowStr` and back. A call that takes memory fails only
//! for want of it.
ghost use Rattle.std.specs.Prelude.{◌≡◌, List, map, option_map, string_bytes, IfOk};
ghost use Rattle.std.specs.Iterator.{IsFinite, Drains};
ghost use Rattle.std.specs.Cow.{cow_str_bytes};
ghost use Rattle.oxc_sourcemap_parts.specs.Words.{text_of, texts_of, contents_of, chunks_of};
ghost use Rattle.oxc_sourcemap_parts.specs.Words.{ids_of, cow_texts, lent_item};

use oxc_sourcemap_tokens::{Memory, TokenChunk};
use std::alloc::Global;
use std::borrow::CowStr;
use std::convert::AsStr;

/// An owned copy of a string.
pub fn owned_text<'a>(alloc: Global, text: &str) -> Memory<CowStr<'a>>
    ensures { IfOk result (λ owned. cow_str_bytes owned ≡ text.now) }
{
    Ok(CowStr::Owned(String::from_str(alloc, text)?))
}

/// Owned copies of the strings of an iterator.
pub fn owned_texts<'a, S: AsStr, I: Iterator<Item = S>>(
    alloc: Global,
    texts: I,
) -> Memory<Vec<CowStr<'a>>>
where
    S: Drop,
    requires can { I.can_next texts }
    requires ends { IsFinite (I.remaining texts) }
    ensures { IfOk result (λ owned. (items : List S) × Drains I.next_gives texts items
        × (texts_of owned ≡ map S.text items)) }
{
    let mut owned = Vec::new(alloc);
    for text in texts {
        owned.push(owned_text(alloc, text.as_str())?)?;
    }
    Ok(owned)
}

/// Owned copies of contents.
pub fn owned_contents<'a>(
    alloc: Global,
    contents: Vec<Option<&str>>,
) -> Memory<Vec<Option<CowStr<'a>>>>
    ensures { IfOk result (λ owned. contents_of owned ≡ map lent_item contents.entry.items) }
{
    let mut owned = Vec::with_capacity(alloc, contents.len())?;
    for content in contents {
        match content {
            Some(text) => owned.push(Some(owned_text(alloc, text)?))?,
            None => owned.push(None)?,
        }
    }
    Ok(owned)
}

/// A clone of a string, if there is one. A borrowed string stays borrowed.
pub fn clone_text<'a>(text: &Option<CowStr<'a>>) -> Memory<Option<CowStr<'a>>>
    ensures { IfOk result (λ clone. text_of clone ≡ text_of text.now) }
{
    match text {
        Some(text) => Ok(Some(text.clone()?)),
        None => Ok(None),
    }
}

/// Clones of strings.
pub fn clone_texts<'a>(alloc: Global, texts: &[CowStr<'a>]) -> Memory<Vec<CowStr<'a>>>
    ensures { IfOk result (λ clones. texts_of clones ≡ cow_texts texts.now) }
{
    let mut clones = Vec::with_capacity(alloc, texts.len())?;
    for text in texts {
        clones.push(text.clone()?)?;
    }
    Ok(clones)
}

/// Clones of contents.
pub fn clone_contents<'a>(
    alloc: Global,
    contents: &[Option<CowStr<'a>>],
) -> Memory<Vec<Option<CowStr<'a>>>>
    ensures { IfOk result (λ clones. contents_of clones
        ≡ map (option_map cow_str_bytes) contents.now) }
{
    let mut clones = Vec::with_capacity(alloc, contents.len())?;
    for content in contents {
        clones.push(clone_text(content)?)?;
    }
    Ok(clones)
}

/// A clone of chunks, if there are any.
pub fn clone_chunks(
    alloc: Global,
    chunks: &Option<Vec<TokenChunk>>,
) -> Memory<Option<Vec<TokenChunk>>>
    ensures { IfOk result (λ clone. chunks_of clone ≡ chunks_of chunks.now) }
{
    match chunks {
        Some(chunks) => Ok(Some(chunks.as_slice().to_vec(alloc)?)),
        None => Ok(None),
    }
}

/// A clone of an ignore list, if there is one.
pub fn clone_ids(alloc: Global, list: &Option<Vec<u32>>) -> Memory<Option<Vec<u32>>>
    ensures { IfOk result (λ clone. ids_of clone ≡ ids_of list.now) }
{
    match list {
        Some(list) => Ok(Some(list.as_slice().to_vec(alloc)?)),
        None => Ok(None),
    }
}

/// A string that borrows nothing: an owned one is moved, a borrowed one copied.
pub fn into_owned_text(alloc: Global, text: Option<CowStr<'_>>) -> Memory<Option<CowStr<'static>>>
    ensures { IfOk result (λ owned. text_of owned ≡ text_of text.entry) }
{
    match text {
        Some(text) => Ok(Some(CowStr::Owned(text.into_owned(alloc)?))),
        None => Ok(None),
    }
}

/// Strings that borrow nothing, as `into_owned_text` makes them.
pub fn into_owned_texts(alloc: Global, texts: Vec<CowStr<'_>>) -> Memory<Vec<CowStr<'static>>>
    ensures { IfOk result (λ owned. texts_of owned ≡ texts_of texts.entry) }
{
    let mut owned = Vec::with_capacity(alloc, texts.len())?;
    for text in texts {
        owned.push(CowStr::Owned(text.into_owned(alloc)?))?;
    }
    Ok(owned)
}

/// Contents that borrow nothing, as `into_owned_text` makes them.
pub fn into_owned_contents(
    alloc: Global,
    contents: Vec<Option<CowStr<'_>>>,
) -> Memory<Vec<Option<CowStr<'static>>>>
    ensures { IfOk result (λ owned. contents_of owned ≡ contents_of contents.entry) }
{
    let mut owned = Vec::with_capacity(alloc, contents.len())?;
    for content in contents {
        owned.push(into_owned_text(alloc, content)?)?;
    }
    Ok(owned)
}

/// A `String` as a string of a map, if there is one.
pub fn from_string(text: Option<String>) -> Option<CowStr<'static>>
    ensures { text_of result ≡ option_map string_bytes text }
{
    match text {
        Some(text) => Some(CowStr::Owned(text)),
        None => None,
    }
}

/// Each `String` as a string of a map.
pub fn from_strings(alloc: Global, texts: Vec<String>) -> Memory<Vec<CowStr<'static>>>
    ensures { IfOk result (λ strings. texts_of strings ≡ map string_bytes texts.items) }
{
    let mut strings = Vec::with_capacity(alloc, texts.len())?;
    for text in texts {
        strings.push(CowStr::Owned(text))?;
    }
    Ok(strings)
}

/// Contents made of `String`s; unknown ones stay unknown.
pub fn from_optional_strings(
    alloc: Global,
    contents: Vec<Option<String>>,
) -> Memory<Vec<Option<CowStr<'static>>>>
    ensures { IfOk result (λ strings. contents_of strings
        ≡ map (option_map string_bytes) contents.items) }
{
    let mut strings = Vec::with_capacity(alloc, contents.len())?;
    for content in contents {
        strings.push(from_string(content))?;
    }
    Ok(strings)
}

/// A copy of a string as a `String`, if there is one.
pub fn to_string(alloc: Global, text: &Option<CowStr<'_>>) -> Memory<Option<String>>
    ensures { IfOk result (λ string. option_map string_bytes string ≡ text_of text.now) }
{
    match text {
        Some(text) => Ok(Some(String::from_str(alloc, text.as_str())?)),
        None => Ok(None),
    }
}

/// A copy of each string as a `String`.
pub fn to_strings(alloc: Global, texts: &[CowStr<'_>]) -> Memory<Vec<String>>
    ensures { IfOk result (λ strings. map string_bytes strings.items ≡ cow_texts texts.now) }
{
    let mut strings = Vec::with_capacity(alloc, texts.len())?;
    for text in texts {
        strings.push(String::from_str(alloc, text.as_str())?)?;
    }
    Ok(strings)
}

/// Copies of contents as `String`s; unknown ones stay unknown.
pub fn to_optional_strings(
    alloc: Global,
    contents: &[Option<CowStr<'_>>],
) -> Memory<Vec<Option<String>>>
    ensures { IfOk result (λ strings. map (option_map string_bytes) strings.items
        ≡ map text_of contents.now) }
{
    let mut strings = Vec::with_capacity(alloc, contents.len())?;
    for content in contents {
        strings.push(to_string(alloc, content)?)?;
    }
    Ok(strings)
}

/// A string of a map as a `String`, if there is one: an owned one is moved, a borrowed one copied.
pub fn into_string(alloc: Global, text: Option<CowStr<'_>>) -> Memory<Option<String>>
    ensures { IfOk result (λ string. option_map string_bytes string ≡ text_of text.entry) }
{
    match text {
        Some(text) => Ok(Some(text.into_owned(alloc)?)),
        None => Ok(None),
    }
}

/// Each string as a `String`, as `into_string` makes it.
pub fn into_strings(alloc: Global, texts: Vec<CowStr<'_>>) -> Memory<Vec<String>>
    ensures { IfOk result (λ strings. map string_bytes strings.items ≡ texts_of texts.entry) }
{
    let mut strings = Vec::with_capacity(alloc, texts.len())?;
    for text in texts {
        strings.push(text.into_owned(alloc)?)?;
    }
    Ok(strings)
}

/// Each content that is there as a `String`, as `into_string` makes it.
pub fn into_optional_strings(
    alloc: Global,
    contents: Vec<Option<CowStr<'_>>>,
) -> Memory<Vec<Option<String>>>
    ensures { IfOk result (λ strings. map (option_map string_bytes) strings.items
        ≡ contents_of contents.entry) }
{
    let mut strings = Vec::with_capacity(alloc, contents.len())?;
    for content in contents {
        strings.push(into_string(alloc, content)?)?;
    }
    Ok(strings)
}
