//! Debug ids: the UUID that a code and its map share, in a comment of the code and in a member of the map.
use crate::contents_text::{changed, push_cuts, push_member, push_value};
use oxc_sourcemap_text::{Language, source_mapping_comment};
use oxc_sourcemap_tokens::{Memory, Result};
use sha2::{Digest, Sha256};
use sourcemap_texts::{Piece, top_of, value_of};
use std::alloc::Global;
use uuid::Uuid;

/// The characters that end a line.
pub const LINE_ENDS: [char; 4] = ['\n', '\r', '\u{2028}', '\u{2029}'];

/// The key of the member, as it is written.
const KEY: &str = "\"debugId\"";

/// The key that older tools write.
const OLD_KEY: &str = "\"debug_id\"";

/// Whether a line has white space or a comment `//` alone, which cannot end a string, a template or a comment of earlier lines.
fn is_quiet(line: &str) -> bool {
    let text = line.trim();
    let is_comment = text.starts_with("//") && !text.contains("*/");
    text.is_empty() || is_comment && !text.contains(['"', '\'', '`'].as_slice())
}

/// Where the last lines of a code begin that have white space and comments alone: a byte of the code, or its length.
pub fn tail_start(code: &str) -> usize {
    let mut start = 0;
    let mut at: usize = 0;
    for line in code.split_inclusive(LINE_ENDS.as_slice()) {
        at = at.saturating_add(line.len());
        if !is_quiet(line) {
            start = at;
        }
    }
    start
}

/// The text behind `debugId=` in a line with this comment alone, without the white space at its end. None for another line.
pub fn debug_id_in_line(line: &str) -> Option<&str> {
    let text = line.trim_start().strip_prefix("//#")?;
    Some(text.trim_start().strip_prefix("debugId=")?.trim())
}

/// The debug id in a comment of a code, and the text around it: the code is `front`, `id` and `back`.
#[derive(Clone, Copy)]
struct CodeId<'c> {
    front: &'c str,
    id: &'c str,
    back: &'c str,
}

/// A text cut at a byte.
fn split(text: &str, at: usize) -> (&str, &str) {
    text.split_at_checked(at).unwrap_or((text, ""))
}

/// The place of the id in the last comment with a debug id, in the lines at the end of a text: its first byte, and the one behind it.
fn id_in_tail(text: &str) -> Option<(usize, usize)> {
    let start = tail_start(text);
    let mut at = start;
    let mut found = None;
    for line in split(text, start).1.split_inclusive(LINE_ENDS.as_slice()) {
        if let Some(id) = debug_id_in_line(line) {
            let end = at.saturating_add(line.trim_end().len());
            found = Some((end.saturating_sub(id.len()), end));
        }
        at = at.saturating_add(line.len());
    }
    found
}

/// The debug id of a code: that of the last comment with one behind the comment that names the map, or else before it.
fn code_id(code: &str) -> Option<CodeId<'_>> {
    let (front, back) = match source_mapping_comment(code, Language::JavaScript) {
        Some(found) => (found.front, found.back),
        None => (code, ""),
    };
    let behind = code.len().saturating_sub(back.len());
    let (start, end) = match id_in_tail(back) {
        Some((start, end)) => (behind.saturating_add(start), behind.saturating_add(end)),
        None => id_in_tail(front)?,
    };
    let (whole, back) = split(code, end);
    let (front, id) = split(whole, start);
    Some(CodeId { front, id, back })
}

/// The debug id of a JavaScript code, as it is written; None if it has none. It is the text behind `//# debugId=` in a line of its own,
/// with only white space and comments `//` without quotes behind it, but for the comment that names the map. The last such line counts. It
/// need not be a UUID.
pub fn debug_id_of_code(code: &str) -> Option<&str> {
    match code_id(code) {
        Some(found) if !found.id.is_empty() => Some(found.id),
        _ => None,
    }
}

/// Whether a line begins behind this text.
fn begins_line(front: &str) -> bool {
    front.is_empty() || front.ends_with(LINE_ENDS.as_slice())
}

/// The text before the comment that is to be put into a code, and the text behind it: the line of the comment that names the map, if that
/// begins its line, or that comment; or nothing, if none does.
fn around_new_comment(code: &str) -> (&str, &str) {
    let Some(found) = source_mapping_comment(code, Language::JavaScript) else {
        return (code, "");
    };
    let line = found.front.trim_end_matches([' ', '\t'].as_slice());
    let front = if begins_line(line) { line } else { found.front };
    split(code, front.len())
}

/// How lines end at the end of a code.
fn line_end_of(code: &str) -> &'static str {
    match code.rsplit_once('\n') {
        Some((before, _)) if before.ends_with('\r') => "\r\n",
        _ => "\n",
    }
}

/// Gives a JavaScript code this debug id, which has to be a UUID. If it has a comment with a debug id, this id replaces that one. Else the
/// comment becomes a line of its own, before the comment that names the map, or at the end; lines end as the last one that ends. All else
/// stays, to the byte, and no code moves.
pub fn code_with_debug_id(alloc: Global, code: &str, id: &str) -> Memory<String> {
    if let Some(CodeId { front, id: _, back }) = code_id(code) {
        return format!(in alloc; "{front}{id}{back}");
    }
    let (front, back) = around_new_comment(code);
    let end = line_end_of(code);
    let before = if begins_line(front) { "" } else { end };
    format!(in alloc; "{front}{before}//# debugId={id}{end}{back}")
}

/// The text of a JSON string that is not empty, as it is written between its quotes; None for another value.
fn string_in<'t>(value: Option<Piece<'t>>) -> Option<&'t str> {
    let text = value?.text.strip_prefix('"')?.strip_suffix('"')?;
    if text.is_empty() { None } else { Some(text) }
}

/// The value of the member `debugId` at the top of the text of a map, as it is written; None if that is no string, or empty.
pub fn debug_id_member<'t>(alloc: Global, text: &'t str) -> Memory<Option<&'t str>> {
    Ok(string_in(value_of(alloc, top_of(text), KEY)?))
}

/// The debug id in the text of a map, of an indexed one too, as it is written: its member `debugId`, or else `debug_id`, which older tools
/// write. None if it has neither. It need not be a UUID.
pub fn debug_id_of_map<'t>(alloc: Global, text: &'t str) -> Memory<Option<&'t str>> {
    match debug_id_member(alloc, text)? {
        Some(id) => Ok(Some(id)),
        None => Ok(string_in(value_of(alloc, top_of(text), OLD_KEY)?)),
    }
}

/// The text of a map with this debug id, which has to be a UUID: the value of its member `debugId`, or that member behind its last one. All
/// else stays, to the byte. None if the text is no JSON object.
pub fn map_with_debug_id(alloc: Global, text: &str, id: &str) -> Result<Option<String>> {
    let top = top_of(text);
    let mut changes = Vec::new(alloc);
    if !push_value(alloc, top, KEY, id, &mut changes)? {
        push_member(alloc, top, KEY, id, &mut changes)?;
    }
    changed(alloc, text, changes.as_slice())
}

/// The text of a map without its member `debugId` at the top: what is from the comma before it to the end of its value is cut, or, where
/// no other member is before it, what is from its beginning to the comma behind it. So it cuts what `map_with_debug_id` adds. None
/// if the text is no JSON object.
fn map_without_debug_id(alloc: Global, text: &str) -> Result<Option<String>> {
    let mut changes = Vec::new(alloc);
    push_cuts(alloc, top_of(text), KEY, &mut changes)?;
    changed(alloc, text, changes.as_slice())
}

/// The UUID of a digest: its first 16 bytes, but for the four bits of the version, which is 8, and the two of the variant of RFC 9562.
fn uuid_of_digest(digest: &[u8; 32]) -> Uuid {
    let mut bytes = [0u8; 16];
    bytes.copy_from_slice(&digest[..16]);
    Uuid::new_v8(bytes)
}

/// A debug id for the map in a text, the same for the same text: a UUID of version 8, in lowercase with hyphens, of the SHA-256 of the
/// bytes of the text without its member `debugId`. It is the same before and after `map_with_debug_id`. None if the text is no JSON
/// object.
pub fn made_debug_id(alloc: Global, text: &str) -> Result<Option<String>> {
    let Some(hashed) = map_without_debug_id(alloc, text)? else {
        return Ok(None);
    };
    let digest = Sha256::digest(hashed.as_str().as_bytes());
    let id = uuid_of_digest(&digest);
    let mut buffer = Uuid::encode_buffer();
    let shown = id.hyphenated().encode_lower(&mut buffer);
    Ok(Some(String::from_str(alloc, shown)?))
}

/// The UUID that a debug id is: 32 hexadecimal digits of either case, with four hyphens or without; None for another text.
fn uuid_of(id: &str) -> Option<Uuid> {
    match id.len() {
        32 | 36 => Uuid::parse_str(id).ok(),
        _ => None,
    }
}

/// Whether two debug ids are one UUID.
pub fn are_same_ids(a: &str, b: &str) -> bool {
    match (uuid_of(a), uuid_of(b)) {
        (Some(a), Some(b)) => a == b,
        _ => false,
    }
}

/// A debug id, if it is a UUID.
fn if_uuid(id: Option<&str>) -> Option<&str> {
    match id {
        Some(text) if uuid_of(text).is_some() => Some(text),
        _ => None,
    }
}

/// Whether a debug id is there, and is no UUID.
fn is_no_uuid(id: Option<&str>) -> bool {
    id.is_some() && if_uuid(id).is_none()
}

/// How the debug ids of a code and of its map compare.
#[derive(Clone, Copy, Debug, PartialEq, Eq)]
pub enum Agreement {
    /// Both are there, and are one UUID.
    Same,
    /// Both are there, and are two UUIDs.
    Different,
    /// One is not there, or neither is.
    Missing,
    /// One that is there is no UUID.
    NoUuid,
}

impl Agreement {
    /// Compares two debug ids.
    pub fn of(code: Option<&str>, map: Option<&str>) -> Agreement {
        if is_no_uuid(code) || is_no_uuid(map) {
            return Agreement::NoUuid;
        }
        match (code, map) {
            (Some(code), Some(map)) if are_same_ids(code, map) => Agreement::Same,
            (Some(_), Some(_)) => Agreement::Different,
            _ => Agreement::Missing,
        }
    }

    /// The word that it is printed as.
    pub fn word(self) -> &'static str {
        match self {
            Agreement::Same => "same",
            Agreement::Different => "different",
            Agreement::Missing => "missing",
            Agreement::NoUuid => "no UUID",
        }
    }
}

/// The origin of the debug id that a code and its map get.
#[derive(Clone, Copy, Debug, PartialEq, Eq)]
pub enum Origin {
    /// Both have it.
    Both,
    Map,
    Code,
    /// Neither has one: it is made of the text of the map.
    Digest,
}

impl Origin {
    /// The origin of the debug id of a code and its map: one of them, or both. None if the two ids differ, or if one is no UUID. With
    /// force the map's id counts before the code's, and what is no UUID does not count.
    pub fn of(code: Option<&str>, map: Option<&str>, has_force: bool) -> Option<Origin> {
        let (code, map) = if has_force {
            (if_uuid(code), if_uuid(map))
        } else {
            (code, map)
        };
        match (Agreement::of(code, map), code, map) {
            (Agreement::Same, _, _) => Some(Origin::Both),
            (Agreement::Different, _, _) if has_force => Some(Origin::Map),
            (Agreement::Missing, _, Some(_)) => Some(Origin::Map),
            (Agreement::Missing, Some(_), None) => Some(Origin::Code),
            (Agreement::Missing, None, None) => Some(Origin::Digest),
            _ => None,
        }
    }

    /// The word that it is printed as.
    pub fn word(self) -> &'static str {
        match self {
            Origin::Both => "both",
            Origin::Map => "map",
            Origin::Code => "code",
            Origin::Digest => "digest",
        }
    }
}
