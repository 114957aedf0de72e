//! Changes the contents of sources, and other members, in place in the text of a map.
use crate::raw_lines::{Splice, push_spliced};
use oxc_sourcemap_json::push_json_string;
use oxc_sourcemap_tokens::Result;
use sourcemap_texts::{Member, Piece, entries_of, maps_in, members_of};
use std::alloc::Global;

/// The key of contents, as it is written.
const KEY: &str = "\"sourcesContent\"";

/// A place of a text, and the text that replaces it.
#[derive(Drop)]
pub struct Change {
    start: usize,
    end: usize,
    text: String,
}

/// Applies changes to a text, from left to right. Returns None if one begins before the end of another one.
pub fn changed(alloc: Global, text: &str, changes: &[Change]) -> Result<Option<String>> {
    let mut splices = Vec::with_capacity(alloc, changes.len())?;
    for change in changes {
        splices.push(Splice {
            start: change.start,
            end: change.end,
            text: change.text.as_str(),
        })?;
    }
    let mut out = Vec::new(alloc);
    if !push_spliced(text.as_bytes(), splices.as_slice(), &mut out)? {
        return Ok(None);
    }
    Ok(String::from_utf8(out).ok())
}

/// The change that removes a member and the comma before it from its object; or the comma behind it, where no member is kept before it.
fn cut_of(alloc: Global, member: &Member<'_>, has_kept: bool, is_last: bool) -> Change {
    let (whole, end) = (member.whole, member.value.end());
    let (start, end) = match (has_kept, is_last) {
        (true, _) => (whole.at.saturating_sub(1), end),
        (false, false) => (whole.at, whole.end().saturating_add(1)),
        (false, true) => (whole.at, end),
    };
    Change {
        start,
        end,
        text: String::new(alloc),
    }
}

/// Appends the changes that remove the members with a key from an object of a text. The key is written in its quotes.
pub(crate) fn push_cuts(
    alloc: Global,
    object: Piece<'_>,
    key: &str,
    changes: &mut Vec<Change>,
) -> Result<()> {
    let members = members_of(alloc, object)?;
    let mut has_kept = false;
    for (k, member) in members.iter().enumerate() {
        if member.key == key {
            let is_last = k.saturating_add(1) == members.len();
            changes.push(cut_of(alloc, member, has_kept, is_last))?;
        } else {
            has_kept = true;
        }
    }
    Ok(())
}

/// The text of a map without the contents of its sources, and of those of each section of an indexed map. All other bytes stay.
pub fn cut_contents(alloc: Global, text: &str) -> Result<Option<String>> {
    let mut changes = Vec::new(alloc);
    for map in &maps_in(alloc, text)? {
        push_cuts(alloc, *map, KEY, &mut changes)?;
    }
    changed(alloc, text, changes.as_slice())
}

/// The list of the contents of a map, or another list: the texts that were found, and for the others the entries that it has.
fn list_of(alloc: Global, had: &[Piece<'_>], found: &[Option<String>]) -> Result<String> {
    let mut list = String::new(alloc);
    for k in 0..had.len().max(found.len()) {
        list.push(if k == 0 { '[' } else { ',' })?;
        match (found.get(k), had.get(k)) {
            (Some(Some(content)), _) => push_json_string(content.as_str(), &mut list)?,
            (_, Some(entry)) => list.push_str(entry.text)?,
            _ => list.push_str("null")?,
        }
    }
    list.push(']')?;
    Ok(list)
}

/// The contents that a map has, as they are written, if it has a list of them.
fn contents_in<'t>(alloc: Global, members: &[Member<'t>]) -> Result<Vec<Piece<'t>>> {
    for member in members {
        if member.key == KEY && member.value.text.starts_with('[') {
            return Ok(entries_of(alloc, member.value)?);
        }
    }
    Ok(Vec::new(alloc))
}

/// Appends the changes that put contents, by the number of their source, into a map of a text (`maps_in`): into the list that it has, or
/// else into a new one behind its sources.
pub fn push_contents(
    alloc: Global,
    map: Piece<'_>,
    found: &[Option<String>],
    changes: &mut Vec<Change>,
) -> Result<()> {
    let members = members_of(alloc, map)?;
    let had = contents_in(alloc, members.as_slice())?;
    let list = list_of(alloc, had.as_slice(), found)?;
    let has_list = members.iter().any(|member| member.key == KEY);
    for member in &members {
        if member.key == KEY {
            changes.push(Change {
                start: member.value.at,
                end: member.value.end(),
                text: String::from_str(alloc, list.as_str())?,
            })?;
        } else if !has_list && member.key == "\"sources\"" {
            let end = member.value.end();
            changes.push(Change {
                start: end,
                end,
                text: format!(in alloc; ",{KEY}:{list}")?,
            })?;
        }
    }
    Ok(())
}

/// Appends the changes that put texts, by their number, into the list that a map of a text has under a key. The key is written in its
/// quotes. Returns whether the map has such a list.
pub fn push_entries(
    alloc: Global,
    map: Piece<'_>,
    key: &str,
    found: &[Option<String>],
    changes: &mut Vec<Change>,
) -> Result<bool> {
    let mut is_there = false;
    for member in &members_of(alloc, map)? {
        let value = member.value;
        if member.key == key && value.text.starts_with('[') {
            let had = entries_of(alloc, value)?;
            changes.push(Change {
                start: value.at,
                end: value.end(),
                text: list_of(alloc, had.as_slice(), found)?,
            })?;
            is_there = true;
        }
    }
    Ok(is_there)
}

/// Appends the change by which a text replaces the value that a map of a text has under a key. Returns whether the map has one.
pub fn push_value(
    alloc: Global,
    map: Piece<'_>,
    key: &str,
    text: &str,
    changes: &mut Vec<Change>,
) -> Result<bool> {
    let mut is_there = false;
    for member in &members_of(alloc, map)? {
        if member.key == key {
            let mut value = String::new(alloc);
            push_json_string(text, &mut value)?;
            changes.push(Change {
                start: member.value.at,
                end: member.value.end(),
                text: value,
            })?;
            is_there = true;
        }
    }
    Ok(is_there)
}

/// Appends the change that puts a member behind the last one of an object of a text. The key is written in its quotes.
pub(crate) fn push_member(
    alloc: Global,
    object: Piece<'_>,
    key: &str,
    text: &str,
    changes: &mut Vec<Change>,
) -> Result<()> {
    let members = members_of(alloc, object)?;
    let (at, comma) = match members.as_slice().last() {
        Some(member) => (member.value.end(), ","),
        None => (object.at.saturating_add(1), ""),
    };
    let mut member = format!(in alloc; "{comma}{key}:")?;
    push_json_string(text, &mut member)?;
    changes.push(Change {
        start: at,
        end: at,
        text: member,
    })?;
    Ok(())
}
