//! Source roots, put before sources. A call that takes memory fails only for want of it.
ghost use Rattle.std.specs.Prelude.{◌≡◌, map, IfOk, OnOk, OnErr};
ghost use Rattle.std.specs.Cow.{cow_str_bytes};
ghost use Rattle.oxc_sourcemap_parts.specs.Words.{cow_texts, texts_of, record_of_parts};
ghost use Rattle.oxc_sourcemap_parts.specs.Words.{is_of_scheme, ends_scheme, has_scheme};
ghost use Rattle.oxc_sourcemap_parts.specs.Words.{is_absolute, needs_slash, rooted_source, rooted};

use crate::parts::SourceMapParts;
use oxc_sourcemap_tokens::Memory;
use std::alloc::Global;
use std::borrow::CowStr;

/// Whether a scheme may have this byte after its first letter.
fn is_of_scheme(byte: u8) -> bool
    ensures { result ≡ is_of_scheme byte }
{
    byte.is_ascii_alphanumeric() || byte == b'+' || byte == b'-' || byte == b'.'
}

/// Whether bytes are the rest of a scheme, a colon, and any more.
fn ends_scheme(bytes: &[u8]) -> bool
    ensures { result ≡ ends_scheme bytes.now }
{
    for byte in bytes {
        if *byte == b':' {
            return true;
        }
        if !is_of_scheme(*byte) {
            return false;
        }
    }
    false
}

/// Whether a text begins with a scheme and a colon, as a URL does, and a path from a drive of Windows: a letter, then letters, digits,
/// `+`, `-` and `.`, then `:`.
///
/// `has_scheme(b"webpack:///a.ts")` is true, and `has_scheme(b"src/a:b.ts")` is false.
pub fn has_scheme(bytes: &[u8]) -> bool
    ensures { result ≡ has_scheme bytes.now }
{
    match bytes.split_first() {
        Some((first, rest)) => first.is_ascii_alphabetic() && ends_scheme(rest),
        None => false,
    }
}

/// Whether no root is put before a source.
fn is_absolute(source: &[u8]) -> bool
    ensures { result ≡ is_absolute source.now }
{
    source.starts_with(b"/") || has_scheme(source)
}

/// Whether a `/` has to stand between a root and a source.
fn needs_slash(root: &[u8]) -> bool
    ensures { result ≡ needs_slash root.now }
{
    !root.is_empty() && !root.ends_with(b"/")
}

/// A source with a root before it. A source that stays as it is stays borrowed if it is.
fn rooted_text<'a>(alloc: Global, root: &str, source: &CowStr<'a>) -> Memory<CowStr<'a>>
    ensures { IfOk result (λ text. cow_str_bytes text
        ≡ rooted_source root.now (cow_str_bytes source.now)) }
{
    if is_absolute(source.as_bytes()) {
        return source.clone();
    }
    let mut text = String::from_str(alloc, root)?;
    if needs_slash(root.as_bytes()) {
        text.push('/')?;
    }
    text.push_str(source.as_str())?;
    Ok(CowStr::Owned(text))
}

/// Sources with a root before them.
fn rooted_texts<'a>(alloc: Global, root: &str, sources: &[CowStr<'a>]) -> Memory<Vec<CowStr<'a>>>
    ensures { IfOk result (λ texts. texts_of texts
        ≡ map (rooted_source root.now) (cow_texts sources.now)) }
{
    let mut texts = Vec::with_capacity(alloc, sources.len())?;
    for source in sources {
        texts.push(rooted_text(alloc, root, source)?)?;
    }
    Ok(texts)
}

/// Puts the source root, if there is one, before each source, and leaves none (docs/FORMAT.md, "Source roots"). On an error
/// the parts are as they were.
pub fn apply_root(alloc: Global, parts: &mut SourceMapParts<'_>) -> Memory<()>
    ensures rooted { OnOk result (record_of_parts parts.new ≡ rooted (record_of_parts parts.old)) }
    ensures unchanged { OnErr result (record_of_parts parts.new ≡ record_of_parts parts.old) }
{
    if let Some(root) = &parts.source_root {
        parts.sources = rooted_texts(alloc, root.as_str(), parts.sources.as_slice())?;
        parts.source_root = None;
    }
    Ok(())
}
