//! Whether a code and its originals are as a map says: tokens begin words, names are at their original positions, and contents are those of
//! the files of sources.
use oxc_sourcemap_map::SourceMap;
use oxc_sourcemap_text::{TextPositions, utf16_units};
use oxc_sourcemap_tokens::{Position, Token};
use sourcemap_files::{Places, SourceNames, content_on_disk};
use sourcemap_words::Outcome;
use std::alloc::{AllocError, Global};

/// How many lines further down or up names are sought.
const FARTHEST: u32 = 64;
/// How many names are sought there.
const MOST: usize = 1024;

/// A content of a map.
#[derive(Drop)]
struct Original<'m> {
    units: Vec<u16>,
    positions: TextPositions<'m>,
}

/// A way that lines may have moved.
#[derive(Clone, Copy)]
pub enum Moved {
    /// The text is so many lines further down than the map says.
    Down(u32),
    Up(u32),
}

/// The names of a map that its contents do not have at the original positions.
#[derive(Clone, Copy)]
pub struct Apart {
    /// How many mappings have a name and a content.
    pub named: u64,
    /// Of how many of these the content has another text there.
    pub count: u64,
    /// Where in the code the first of them is.
    pub first: Position,
    /// How the lines have moved, if most of these names are found so.
    pub moved: Option<Moved>,
}

impl Moved {
    /// The line of the text that the map says is in another one.
    fn line(self, line: u32) -> Option<u32> {
        match self {
            Moved::Down(lines) => line.checked_add(lines),
            Moved::Up(lines) => line.checked_sub(lines),
        }
    }
}

/// Whether units begin with others, maybe behind a quote or the mark of a private name.
fn begin_with(units: &[u16], name: &[u16]) -> bool {
    let is_mark = |unit: &u16| b"\"'`#".iter().any(|mark| u16::from(*mark) == *unit);
    if units.starts_with(name) {
        return true;
    }
    match units.split_first() {
        Some((first, rest)) => is_mark(first) && rest.starts_with(name),
        None => false,
    }
}

impl<'m> Original<'m> {
    fn new(alloc: Global, content: &'m str) -> Outcome<Original<'m>> {
        Ok(Original {
            units: utf16_units(alloc, content)?,
            positions: TextPositions::new(alloc, content)?,
        })
    }

    /// Whether a name is at a position.
    fn has(&self, name: &[u16], line: u32, column: u32) -> bool {
        let Ok(at) = self.positions.offset(line, column) else {
            return false;
        };
        begin_with(self.units.get(at as usize..).unwrap_or(&[]), name)
    }
}

/// The names and the contents of a map.
#[derive(Drop)]
struct Texts<'m> {
    names: Vec<Vec<u16>>,
    originals: Vec<Option<Original<'m>>>,
}

impl<'m> Texts<'m> {
    fn new(alloc: Global, map: &'m SourceMap<'_>) -> Outcome<Texts<'m>> {
        let mut names = Vec::new(alloc);
        for name in map.get_names() {
            names.push(utf16_units(alloc, name)?)?;
        }
        let mut originals = Vec::new(alloc);
        for id in 0..map.get_sources().count() {
            let id = u32::try_from(id).unwrap_or(u32::MAX);
            originals.push(match map.get_source_content(id) {
                Some(content) => Some(Original::new(alloc, content)?),
                None => None,
            })?;
        }
        Ok(Texts { names, originals })
    }

    /// The content that a token points to, and its name; None if it lacks one of these.
    fn named(&self, token: &Token) -> Option<(&Original<'m>, &[u16])> {
        let original = self
            .originals
            .get(token.get_source_id()? as usize)?
            .as_ref()?;
        let name = self.names.get(token.get_name_id()? as usize)?.as_slice();
        if name.is_empty() {
            None
        } else {
            Some((original, name))
        }
    }

    /// How many of these tokens have their names so many lines further down or up.
    fn count_moved(&self, tokens: &[Token], moved: Moved) -> usize {
        let has = |token: &&Token| match (self.named(token), moved.line(token.get_src_line())) {
            (Some((original, name)), Some(line)) => original.has(name, line, token.get_src_col()),
            _ => false,
        };
        tokens.iter().filter(has).count()
    }

    /// The way that lines have moved, if most of these tokens have their names there.
    fn moved(&self, tokens: &[Token]) -> Option<Moved> {
        for lines in 1..FARTHEST.saturating_add(1) {
            for moved in [Moved::Down(lines), Moved::Up(lines)] {
                if self.count_moved(tokens, moved) > tokens.len() / 2 {
                    return Some(moved);
                }
            }
        }
        None
    }
}

/// The names of a map that its contents do not have at the original positions; None if they have all.
pub fn names_apart(alloc: Global, map: &SourceMap<'_>) -> Outcome<Option<Apart>> {
    let texts = Texts::new(alloc, map)?;
    let (mut named, mut count) = (0u64, 0u64);
    let mut apart: Vec<Token> = Vec::new(alloc);
    for token in map.get_tokens().as_slice() {
        let Some((original, name)) = texts.named(token) else {
            continue;
        };
        named = named.saturating_add(1);
        if original.has(name, token.get_src_line(), token.get_src_col()) {
            continue;
        }
        count = count.saturating_add(1);
        if apart.len() < MOST {
            apart.push(*token)?;
        }
    }
    let Some(token) = apart.first() else {
        return Ok(None);
    };
    Ok(Some(Apart {
        named,
        count,
        first: Position {
            line: token.get_dst_line(),
            column: token.get_dst_col(),
        },
        moved: texts.moved(apart.as_slice()),
    }))
}

/// A text without a mark of the order of bytes.
fn without_mark(text: &str) -> &str {
    text.strip_prefix('\u{feff}').unwrap_or(text)
}

/// How many contents of a map in a folder are not those of the files of their sources in the root, and the first of these sources.
pub fn contents_apart(
    rt: &HostRuntime,
    map: &SourceMap<'_>,
    folder: &str,
    places: Places<'_>,
) -> Outcome<Option<(u64, String)>> {
    let names = SourceNames::from_here(rt)?;
    let mut count = 0u64;
    let mut first = None;
    for (id, source) in map.get_sources().enumerate() {
        let content = map.get_source_content(u32::try_from(id).unwrap_or(u32::MAX));
        let name = names.name(folder, source)?;
        let (Some(content), Some(path)) = (content, names.file(folder, name.as_str())?) else {
            continue;
        };
        let Some(text) = content_on_disk(rt, path.as_str(), places)? else {
            continue;
        };
        if without_mark(text.as_str()) != without_mark(content) {
            count = count.saturating_add(1);
            first.get_or_insert(name);
        }
    }
    Ok(first.map(|first| (count, first)))
}

/// Whether a unit is one of a word.
fn is_of_word(unit: u16) -> bool {
    let is_letter = u8::try_from(unit).is_ok_and(|byte| byte.is_ascii_alphanumeric());
    is_letter || unit == u16::from(b'_') || unit == u16::from(b'$')
}

/// Whether an offset is in the middle of a word.
fn is_inside_word(units: &[u16], at: usize) -> bool {
    let before = at.checked_sub(1).and_then(|before| units.get(before));
    match (before, units.get(at)) {
        (Some(before), Some(unit)) => is_of_word(*before) && is_of_word(*unit),
        _ => false,
    }
}

/// How many tokens with a source are in the middle of words of a code, and the first of them; None if they are less than a fifth of all,
/// as in templates and comments some may be.
pub fn tokens_inside_words(
    alloc: Global,
    code: &str,
    tokens: &[Token],
) -> Outcome<Option<(u64, Position)>> {
    let code = without_mark(code);
    let units = utf16_units(alloc, code)?;
    let positions = TextPositions::new(alloc, code)?;
    let (mut all, mut count) = (0u64, 0u64);
    let mut first = None;
    for token in tokens {
        let (line, column) = (token.get_dst_line(), token.get_dst_col());
        let Ok(at) = positions.offset(line, column) else {
            continue;
        };
        if token.get_source_id().is_none() {
            continue;
        }
        all = all.saturating_add(1);
        if is_inside_word(units.as_slice(), at as usize) {
            count = count.saturating_add(1);
            first.get_or_insert(Position { line, column });
        }
    }
    Ok(match first {
        Some(first) if count.saturating_mul(5) >= all => Some((count, first)),
        _ => None,
    })
}
