//! The members of a JSON text by their places in it, so that one can be changed and all other bytes stay.
use oxc_sourcemap_tokens::Memory;
use std::alloc::Global;

/// A value of a JSON text, or another piece of it, and the byte that it begins at.
#[derive(Clone, Copy)]
pub struct Piece<'t> {
    pub at: usize,
    pub text: &'t str,
}

/// A member of an object.
#[derive(Clone, Copy)]
pub struct Member<'t> {
    /// The member with the white space around it, between commas or brackets.
    pub whole: Piece<'t>,
    /// Its key as it is written, with the quotes.
    pub key: &'t str,
    pub value: Piece<'t>,
}

impl<'t> Piece<'t> {
    /// The byte behind it.
    pub fn end(&self) -> usize {
        self.at.saturating_add(self.text.len())
    }

    /// The bytes from `start` up to but not including `end` of it.
    fn part(&self, start: usize, end: usize) -> Piece<'t> {
        Piece {
            at: self.at.saturating_add(start),
            text: self.text.get(start..end).unwrap_or(""),
        }
    }

    /// The piece without the white space around it.
    pub fn trimmed(&self) -> Piece<'t> {
        let text = self.text.trim_start();
        let skipped = self.text.len().saturating_sub(text.len());
        Piece {
            at: self.at.saturating_add(skipped),
            text: text.trim_end(),
        }
    }
}

/// How far a JSON text was read.
#[derive(Clone, Copy)]
struct Scan {
    /// In how many brackets.
    depth: usize,
    is_string: bool,
    is_escaped: bool,
}

impl Scan {
    /// Reads a byte. Returns whether it is in a string.
    fn step(&mut self, byte: u8) -> bool {
        if self.is_string {
            let ends = byte == b'"' && !self.is_escaped;
            self.is_escaped = byte == b'\\' && !self.is_escaped;
            self.is_string = !ends;
            return true;
        }
        match byte {
            b'"' => self.is_string = true,
            b'{' | b'[' => self.depth = self.depth.saturating_add(1),
            b'}' | b']' => self.depth = self.depth.saturating_sub(1),
            _ => {}
        }
        self.is_string
    }
}

/// The pieces between the commas of a list or an object, each with the white space around it. `[]` and `{}` have one empty piece.
/// The text has to be JSON; for any other text the pieces are unspecified.
fn pieces_of<'t>(alloc: Global, of: Piece<'t>) -> Memory<Vec<Piece<'t>>> {
    let mut pieces = Vec::new(alloc);
    let mut scan = Scan {
        depth: 0,
        is_string: false,
        is_escaped: false,
    };
    let mut start = 0usize;
    for (at, byte) in of.text.bytes().enumerate() {
        if scan.step(byte) {
            continue;
        }
        match (byte, scan.depth) {
            (b'{' | b'[', 1) => start = at.saturating_add(1),
            (b',', 1) => {
                pieces.push(of.part(start, at))?;
                start = at.saturating_add(1);
            }
            (b'}' | b']', 0) => {
                pieces.push(of.part(start, at))?;
                return Ok(pieces);
            }
            _ => {}
        }
    }
    Ok(pieces)
}

/// The length of the string at the beginning of a text, with its quotes.
fn string_len(text: &str) -> usize {
    let mut is_escaped = false;
    for (at, byte) in text.bytes().enumerate() {
        if at > 0 && byte == b'"' && !is_escaped {
            return at.saturating_add(1);
        }
        is_escaped = byte == b'\\' && !is_escaped;
    }
    text.len()
}

/// The member in a piece of an object; None for an empty piece.
fn member_in(whole: Piece<'_>) -> Option<Member<'_>> {
    let inner = whole.trimmed();
    if !inner.text.starts_with('"') {
        return None;
    }
    let len = string_len(inner.text);
    let rest = inner.part(len, inner.text.len()).trimmed();
    Some(Member {
        whole,
        key: inner.text.get(..len).unwrap_or(""),
        value: rest.part(1, rest.text.len()).trimmed(),
    })
}

/// The entries of a list that begins a piece of a JSON text.
pub fn entries_of<'t>(alloc: Global, list: Piece<'t>) -> Memory<Vec<Piece<'t>>> {
    let mut entries = Vec::new(alloc);
    for piece in &pieces_of(alloc, list)? {
        let entry = piece.trimmed();
        if !entry.text.is_empty() {
            entries.push(entry)?;
        }
    }
    Ok(entries)
}

/// The members of an object that begins a piece of a JSON text, in order.
pub fn members_of<'t>(alloc: Global, object: Piece<'t>) -> Memory<Vec<Member<'t>>> {
    let mut members = Vec::new(alloc);
    for piece in &pieces_of(alloc, object)? {
        if let Some(member) = member_in(*piece) {
            members.push(member)?;
        }
    }
    Ok(members)
}

/// The value of the last member with a key, which is written in its quotes.
pub fn value_of<'t>(alloc: Global, object: Piece<'t>, key: &str) -> Memory<Option<Piece<'t>>> {
    let mut value = None;
    for member in &members_of(alloc, object)? {
        if member.key == key {
            value = Some(member.value);
        }
    }
    Ok(value)
}

/// The object in the text of a map. Text before the first brace is skipped.
pub fn top_of(text: &str) -> Piece<'_> {
    let front = text.find('{').unwrap_or(text.len());
    Piece { at: 0, text }.part(front, text.len())
}

/// The objects in the text of a map that have sources: itself, or, of an indexed map, the maps of its sections. Text before the first
/// brace is skipped.
pub fn maps_in<'t>(alloc: Global, text: &'t str) -> Memory<Vec<Piece<'t>>> {
    let mut maps = Vec::new(alloc);
    let whole = top_of(text);
    let sections = match value_of(alloc, whole, "\"sections\"")? {
        Some(sections) if sections.text.starts_with('[') => sections,
        _ => {
            maps.push(whole)?;
            return Ok(maps);
        }
    };
    for section in &entries_of(alloc, sections)? {
        if let Some(map) = value_of(alloc, *section, "\"map\"")? {
            maps.push(map)?;
        }
    }
    Ok(maps)
}

/// Whether the map in a text, or that of a section, has a member with this key, written in its quotes, that is neither null nor empty.
pub fn has_member(alloc: Global, text: &str, key: &str) -> Memory<bool> {
    for map in &maps_in(alloc, text)? {
        if let Some(value) = value_of(alloc, *map, key)?
            && !matches!(value.text, "null" | "\"\"")
        {
            return Ok(true);
        }
    }
    Ok(false)
}
