//! Reading a `scopes` text.
ghost use Rattle.std.specs.Prelude.{◌≡◌, IfOk, option_map};
ghost use Rattle.oxc_sourcemap_scopes.specs.Words.{Reads, scopes_of, items_of, lent_items};
ghost use Rattle.oxc_sourcemap_scopes.specs.Words.{read_scopes, scopes_text, name_count};
ghost use Rattle.oxc_sourcemap_scopes.specs.Words.{has_sections};
ghost use Rattle.oxc_sourcemap_scopes.specs.Words.{scopes_of_value, view};

use crate::errors::ScopesError;
use crate::items::Read;
use crate::numbers::read_numbers;
use crate::scopes::Scopes;
use oxc_sourcemap_tokens::Memory;
use serde_json::Value;
use std::alloc::Global;

/// The items of a text, of which the empty one has none.
fn items_of(alloc: Global, text: &str) -> Memory<Vec<&str>>
    ensures { IfOk result (λ items. lent_items items.items ≡ items_of text.now) }
{
    if text.is_empty() {
        return Ok(Vec::new(alloc));
    }
    text.split(',').collect(alloc)
}

/// The scopes that a text means, the member `scopes` of a map with so many names; or its first fault. Its names and kinds are indices
/// of names. Items of other tags are passed over, but for faults of their digits.
///
/// Fails with `Fault` of the first fault, with the index of the byte at which its item begins, and with `OutOfMemory`.
///
/// ```rust
/// use oxc_sourcemap::decode_scopes;
///
/// // A function from 0:0 to 9:0 and in it one from 2:0 to 4:0; the code of the first, and in it from column 10 to 20 that of the
/// // second, which was inlined where it was called, at 5:2.
/// let scopes = decode_scopes(alloc, "BFAAA,BFCAC,CCA,CFA,EGAA,ECKC,IAFC,FK,FU", 2)?;
/// let frames = scopes.frames_at(alloc, 0, 12)?.frames;
/// assert_eq!(rt; frames.len(), 2);
/// assert!(rt; frames[0].scope == Some(1) && frames[0].call_site.is_none());
/// assert!(rt; frames[1].scope == Some(0) && frames[1].call_site.is_some_and(|call| call.line == 5 && call.column == 2));
/// ```
#[tactic(auto, unfolding(crate::specs::Reading::scopes_of))]
pub fn decode_scopes(alloc: Global, text: &str, names: usize) -> Result<Scopes, ScopesError>
    ensures { Reads (λ s. s) result (scopes_of text.now names) }
{
    let items = items_of(alloc, text)?;
    let mut read = Read::new(alloc);
    let mut numbers = Vec::new(alloc);
    let mut at: usize = 0;
    for item in &items {
        read_numbers(alloc, item.as_bytes(), at, &mut numbers)?;
        read = read.read_item(alloc, names, at, &numbers)?;
        at += item.len() + 1;
    }
    read.finish(text.len())
}

/// The text of the scopes of a map, which is this member of its JSON value.
fn text_of<'v>(member: Option<&'v Value>) -> Result<&'v str, ScopesError>
    ensures { Reads (λ text. text.now) result (scopes_text
        (option_map (λ value. view value.now) member.entry)) }
{
    match member {
        None | Some(Value::Null) => Ok(""),
        Some(value) => value.as_str().ok_or(ScopesError::NotText),
    }
}

/// How many names a map has.
fn name_count(map: &Value) -> usize
    ensures { result ≡ name_count (view map.now) }
{
    let Some(names) = map.get("names") else {
        return 0;
    };
    match names.as_array() {
        Some(items) => items.len(),
        None => 0,
    }
}

/// Whether the value with this member `sections` is an indexed map.
fn has_sections(member: Option<&Value>) -> bool
    ensures { result ≡ has_sections (option_map (λ value. view value.now) member.entry) }
{
    match member {
        None | Some(Value::Null) => false,
        Some(_) => true,
    }
}

/// The scopes of a map, by its JSON value.
fn scopes_in(alloc: Global, map: &Value) -> Result<Scopes, ScopesError>
    ensures { Reads (λ s. s) result (scopes_of_value (view map.now)) }
{
    if has_sections(map.get("sections")) {
        return Err(ScopesError::Indexed);
    }
    let text = text_of(map.get("scopes"))?;
    decode_scopes(alloc, text, name_count(map))
}

/// The scopes of a map, by its JSON text: those that its member `scopes` means, with as many names as it has. Of a map without that
/// member, or with null, those of no source. The names and kinds of scopes are indices of the names of the map. Nothing else of the map
/// is looked at.
///
/// Fails with the first of these: `NotJson` of a text that is not JSON, `Indexed` of an indexed map, `NotText` if the member is neither
/// a text nor null, and `Fault` of the first fault of that text, whose byte counts in the text that the member means, without escapes.
/// Also with `OutOfMemory`.
///
/// ```rust
/// use oxc_sourcemap::read_scopes;
///
/// let json = r#"{"version":3,"sources":["a.js"],"names":["f"],"mappings":"","scopes":"BFAAA,CJA,EGAA,FJA"}"#;
/// let scopes = read_scopes(alloc, json)?;
/// assert_eq!(rt; scopes.get_scope(0).and_then(|scope| scope.name), Some(0));
/// assert_eq!(rt; scopes.frames_at(alloc, 0, 12)?.frames.len(), 1);
/// ```
#[tactic(auto, unfolding(crate::specs::Reading::read_scopes))]
pub fn read_scopes(alloc: Global, json: &str) -> Result<Scopes, ScopesError>
    ensures { Reads (λ s. s) result (read_scopes json.now) }
{
    match Value::from_str(alloc, json) {
        Ok(map) => scopes_in(alloc, &map),
        Err(error) if error.is_memory() => Err(ScopesError::OutOfMemory),
        Err(_) => Err(ScopesError::NotJson),
    }
}
