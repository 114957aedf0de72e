//! Numbers have the bits that the format gives them, and texts are UTF-8, since their types have no others. Loops are there for the
//! proofs alone, and are gone from what is built.
ghost use Rattle.std.specs.Prelude.{◌≡◌, ◌≤◌, true, map, option_map};
ghost use Rattle.std.specs.Cow.{cow_str_bytes};
ghost use Rattle.std.specs.List.{All, list_all};
ghost use Rattle.std.specs.Str.{is_utf8};
ghost use Rattle.oxc_sourcemap_parts.specs.Words.{text_of, record_of_parts};
ghost use Rattle.oxc_sourcemap_compiled.specs.Words.{FitsFormat, is_optional_utf8};

use crate::writing::ignored_ids;
use oxc_sourcemap_parts::SourceMapParts;
use oxc_sourcemap_tokens::tokens_in_bounds;
use std::borrow::CowStr;

/// Numbers of 32 bits are at most 4294967295.
pub(crate) fn have_32_bits(numbers: &[u32])
    ensures { All (λ n. n ≤ 4294967295) numbers.now }
{}

/// A text is UTF-8, if it is there.
fn is_utf8_text(text: &Option<CowStr<'_>>)
    ensures { is_optional_utf8 (text_of text.now) ≡ true }
{
    match text {
        Some(text) => {
            text.as_str();
        }
        None => {}
    }
}

/// The texts of a list are UTF-8.
fn are_utf8_texts(texts: &[CowStr<'_>])
    ensures { list_all is_utf8 (map cow_str_bytes texts.now) ≡ true }
{
    for text in texts {
        text.as_str();
    }
}

/// Contents are UTF-8, where they are there.
fn are_utf8_contents(texts: &[Option<CowStr<'_>>])
    ensures { list_all is_optional_utf8 (map (option_map cow_str_bytes) texts.now) ≡ true }
{
    for text in texts {
        is_utf8_text(text);
    }
}

/// Parts of a map fit the format.
pub(crate) fn parts_fit(parts: &SourceMapParts<'_>, text_length: u64, stamp: &[u8; 32])
    ensures { FitsFormat (record_of_parts parts.now) text_length stamp.now }
{
    tokens_in_bounds(parts.tokens.as_slice());
    have_32_bits(ignored_ids(parts));
    are_utf8_texts(parts.sources.as_slice());
    are_utf8_texts(parts.names.as_slice());
    are_utf8_contents(parts.source_contents.as_slice());
    is_utf8_text(&parts.file);
    is_utf8_text(&parts.source_root);
    is_utf8_text(&parts.debug_id);
}
