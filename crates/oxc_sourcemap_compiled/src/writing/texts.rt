//! The texts of a map, in a row: sources, contents, names, file, source root and debug id.
ghost use Rattle.std.specs.Prelude.{◌≡◌, ◌≤◌, ◌<◌, ◌+◌, ◌++◌, OnOk, length, map};
ghost use Rattle.std.specs.List.{flat_map, range_with_len};
ghost use Rattle.std.specs.Cow.{cow_str_bytes};
ghost use Rattle.oxc_sourcemap_parts.specs.Words.{text_of, record_of_parts};
ghost use Rattle.oxc_sourcemap_tokens.specs.Results.{lent_item};
ghost use Rattle.oxc_sourcemap_compiled.specs.Words.{stored_bytes, stored_text, stored_count};
ghost use Rattle.oxc_sourcemap_compiled.specs.Words.{text_offset, table, content_at};
ghost use Rattle.oxc_sourcemap_compiled.specs.Compiled.{marked};

use crate::writing::pushing::push_u32;
use oxc_sourcemap_parts::SourceMapParts;
use oxc_sourcemap_tokens::Memory;
use std::borrow::CowStr;

/// A text as it is stored: with a byte in front of it, where it is one that may be absent and is there.
#[derive(Clone, Copy)]
struct Stored<'p> {
    is_marked: bool,
    text: &'p str,
}

/// The content of a source, by its id; None where it is not known or not listed.
fn content_of<'t>(contents: &'t [Option<CowStr<'_>>], i: usize) -> Option<&'t str>
    ensures { lent_item result ≡ content_at (map text_of contents.now) i }
{
    match contents.get(i) {
        Some(Some(text)) => Some(text.as_str()),
        _ => None,
    }
}

/// A text, borrowed.
fn lent<'t>(text: &'t Option<CowStr<'_>>) -> Option<&'t str>
    ensures { lent_item result ≡ text_of text.now }
{
    match text {
        Some(text) => Some(text.as_str()),
        None => None,
    }
}

/// A text that may be absent, as it is stored.
fn optional<'t>(text: Option<&'t str>) -> Stored<'t>
    ensures { stored_bytes result ≡ marked (lent_item text.entry) }
{
    match text {
        Some(text) => Stored {
            is_marked: true,
            text,
        },
        None => Stored {
            is_marked: false,
            text: "",
        },
    }
}

/// A text of a list, as it is stored.
fn listed<'t>(text: &'t CowStr<'_>) -> Stored<'t>
    ensures { stored_bytes result ≡ cow_str_bytes text.now }
{
    Stored {
        is_marked: false,
        text: text.as_str(),
    }
}

/// How many texts are stored.
pub(crate) fn count_texts(parts: &SourceMapParts<'_>) -> usize
    requires sources { length (record_of_parts parts.now).sources ≤ 4294967295 }
    requires names { length (record_of_parts parts.now).names ≤ 4294967295 }
    ensures { result ≡ stored_count (record_of_parts parts.now) }
{
    2 * parts.sources.len() + parts.names.len() + 3
}

/// A text as it is stored, by its number among all.
#[tactic(auto, unfolding(crate::specs::Compiled::stored_text))]
fn stored_at<'p>(parts: &'p SourceMapParts<'_>, t: usize) -> Stored<'p>
    requires sources { length (record_of_parts parts.now).sources ≤ 4294967295 }
    requires names { length (record_of_parts parts.now).names ≤ 4294967295 }
    ensures { stored_bytes result ≡ stored_text (record_of_parts parts.now) t }
{
    let sources = parts.sources.len();
    let names = parts.names.len();
    if t < sources {
        listed(&parts.sources[t])
    } else if t < 2 * sources {
        optional(content_of(parts.source_contents.as_slice(), t - sources))
    } else if t < 2 * sources + names {
        listed(&parts.names[t - 2 * sources])
    } else if t == 2 * sources + names {
        optional(lent(&parts.file))
    } else if t == 2 * sources + names + 1 {
        optional(lent(&parts.source_root))
    } else {
        optional(lent(&parts.debug_id))
    }
}

/// How many bytes are stored of a text.
fn length_of(stored: Stored<'_>) -> usize
    ensures { result ≡ length (stored_bytes stored.entry) }
{
    usize::from(stored.is_marked) + stored.text.len()
}

/// How many bytes all texts take; past 4294967295 some number past it.
pub(crate) fn text_bytes(parts: &SourceMapParts<'_>) -> usize
    requires sources { length (record_of_parts parts.now).sources ≤ 4294967295 }
    requires names { length (record_of_parts parts.now).names ≤ 4294967295 }
    ensures small { result ≤ 4294967295 → result ≡ text_offset (record_of_parts parts.now)
        (stored_count (record_of_parts parts.now)) }
    ensures large { 4294967295 < result → 4294967295 < text_offset (record_of_parts parts.now)
        (stored_count (record_of_parts parts.now)) }
{
    let mut sum: usize = 0;
    for t in 0..count_texts(parts) {
        sum = sum.saturating_add(length_of(stored_at(parts, t)));
    }
    sum
}

/// Appends where each text begins, and where the last one ends.
pub(crate) fn push_offsets(out: &mut Vec<u8>, parts: &SourceMapParts<'_>) -> Memory<()>
    requires sources { length (record_of_parts parts.now).sources ≤ 4294967295 }
    requires names { length (record_of_parts parts.now).names ≤ 4294967295 }
    requires few { text_offset (record_of_parts parts.now)
        (stored_count (record_of_parts parts.now)) ≤ 4294967295 }
    ensures { OnOk result (out.new.items ≡ out.old.items ++ table (map (text_offset
        (record_of_parts parts.now))
        (range_with_len 0 (stored_count (record_of_parts parts.now) + 1)))) }
{
    push_u32(out, 0)?;
    let mut end: usize = 0;
    for t in 0..count_texts(parts) {
        end += length_of(stored_at(parts, t));
        push_u32(out, end)?;
    }
    Ok(())
}

/// Appends a text as it is stored.
fn push_stored(out: &mut Vec<u8>, stored: Stored<'_>) -> Memory<()>
    ensures { OnOk result (out.new.items ≡ out.old.items ++ stored_bytes stored.entry) }
{
    if stored.is_marked {
        out.push(1)?;
    }
    out.extend_from_slice(stored.text.as_bytes())?;
    Ok(())
}

/// Appends all texts.
pub(crate) fn push_texts(out: &mut Vec<u8>, parts: &SourceMapParts<'_>) -> Memory<()>
    requires sources { length (record_of_parts parts.now).sources ≤ 4294967295 }
    requires names { length (record_of_parts parts.now).names ≤ 4294967295 }
    ensures { OnOk result (out.new.items ≡ out.old.items ++ flat_map
        (stored_text (record_of_parts parts.now))
        (range_with_len 0 (stored_count (record_of_parts parts.now)))) }
{
    for t in 0..count_texts(parts) {
        push_stored(out, stored_at(parts, t))?;
    }
    Ok(())
}
