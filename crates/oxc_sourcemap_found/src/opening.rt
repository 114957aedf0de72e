//! What is passed over and opened before a JSON text is read.
ghost use Rattle.std.specs.Prelude.{◌≡◌, ◌==◌, option_map, string_bytes, IfOk};
ghost use Rattle.std.specs.Cow.{cow_str_bytes};
ghost use Rattle.std.specs.List.{after_first};
ghost use Rattle.oxc_sourcemap_found.specs.Words.{Opened, lent_item, behind, opened, opened_view};
ghost use Rattle.oxc_sourcemap_found.specs.Words.{without_mark, without_prefix, data_in, IsJsonIn};

use crate::mending::MendKind;
use oxc_sourcemap_text::{DataUrlError, decode_data_url};
use oxc_sourcemap_tokens::Memory;
use std::alloc::{AllocError, Global};
use std::borrow::CowStr;

/// What is behind a prefix, if the text begins with it.
fn behind<'t>(prefix: &str, text: &'t str) -> Option<&'t str>
    ensures { lent_item result ≡ behind prefix.now text.now }
{
    text.strip_prefix(prefix)
}

/// What is behind the first line feed.
fn behind_line(text: &str) -> &str
    ensures { result.now ≡ after_first (λ b. b == 10) text.now }
{
    match text.split_once('\n') {
        Some((_, rest)) => rest,
        None => "",
    }
}

/// A text without a byte order mark in front.
fn skip_mark<'t>(text: &'t str, kinds: &mut Vec<MendKind>) -> Memory<&'t str>
    ensures { IfOk result (λ rest. opened_view rest.now kinds.new
        ≡ without_mark (opened_view text.now kinds.old)) }
{
    match behind("\u{feff}", text) {
        Some(rest) => {
            kinds.push(MendKind::ByteOrderMark)?;
            Ok(rest)
        }
        None => Ok(text),
    }
}

/// A text without its first line, if that begins with the prefix of JSON that no script may run.
fn skip_prefix<'t>(text: &'t str, kinds: &mut Vec<MendKind>) -> Memory<&'t str>
    ensures { IfOk result (λ rest. opened_view rest.now kinds.new
        ≡ without_prefix (opened_view text.now kinds.old)) }
{
    if behind(")]}'", text).is_none() {
        return Ok(text);
    }
    kinds.push(MendKind::JsonPrefix)?;
    Ok(behind_line(text))
}

/// The text in a data URL of JSON; None for any other text, and if its data are no text.
fn data_in(alloc: Global, url: &str) -> Memory<Option<String>>
    ensures { IfOk result (λ text. option_map string_bytes text ≡ data_in url.now) }
{
    match decode_data_url(alloc, url) {
        Ok(text) => Ok(text),
        Err(DataUrlError::OutOfMemory) => Err(AllocError),
        Err(_) => Ok(None),
    }
}

/// The text that is read as JSON, and what was passed over and opened to find it.
#[tactic(auto, unfolding(crate::specs::Opening::opened, crate::specs::Opening::counted_text))]
pub(crate) fn open(alloc: Global, text: &str) -> Memory<(CowStr<'_>, Vec<MendKind>)>
    ensures opened { IfOk result (λ o. opened_view (cow_str_bytes o.0) o.1 ≡ opened text.now) }
    ensures json { IfOk result (λ o. IsJsonIn text.now o.0) }
{
    let mut kinds = Vec::new(alloc);
    let text = skip_mark(text, &mut kinds)?;
    let text = skip_prefix(text, &mut kinds)?;
    match data_in(alloc, text)? {
        Some(json) => {
            kinds.push(MendKind::DataUrl)?;
            Ok((CowStr::Owned(json), kinds))
        }
        None => Ok((CowStr::Borrowed(text), kinds)),
    }
}
