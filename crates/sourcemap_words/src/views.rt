//! Lines as they are meant: without the codes of colours, and strings without their escapes, also strings in the text of a string. Each
//! byte of a view knows where in the line it comes from.
use std::alloc::{AllocError, Global};

/// How deeply strings may be nested.
const DEEPEST: usize = 4;

/// The strings that a text of a line is in, from the outermost on.
#[derive(Clone, Copy)]
pub struct Nesting {
    /// How many there are; the line itself is in none.
    pub depth: usize,
    /// Which of them are in single quotes.
    singles: [bool; DEEPEST],
}

impl Nesting {
    /// The nesting of a line.
    const LINE: Nesting = Nesting {
        depth: 0,
        singles: [false; DEEPEST],
    };

    /// The nesting of a string in a text with this one; None if it is too deep.
    fn inside(self, is_single: bool) -> Option<Nesting> {
        let mut nesting = self;
        let slot = nesting.singles.get_mut(self.depth)?;
        *slot = is_single;
        nesting.depth = self.depth.saturating_add(1);
        Some(nesting)
    }

    /// Whether the text is in a string.
    pub fn is_in_string(self) -> bool {
        self.depth > 0
    }

    /// Whether the string at an index is in single quotes.
    pub fn is_single(self, index: usize) -> bool {
        self.singles.get(index).copied().unwrap_or(false)
    }

    /// The backslashes in front of an escape of the innermost string, since the strings around it escape its own one.
    pub fn slashes(self) -> &'static str {
        match self.depth {
            0 | 1 => "",
            2 => "\\",
            3 => "\\\\\\",
            _ => "\\\\\\\\\\\\\\",
        }
    }
}

/// A text made of a part of a line.
#[derive(Drop)]
pub struct View {
    pub text: String,
    pub nesting: Nesting,
    /// For each byte of the text, where in the line the bytes that it stands for begin and end.
    starts: Vec<usize>,
    ends: Vec<usize>,
    /// Where in the line the part begins and ends.
    bounds: (usize, usize),
}

/// Where in a line a row of it is: the line itself, or one of the rows that the text of a string has.
#[derive(Clone, Copy)]
pub struct Row {
    pub start: usize,
    pub end: usize,
    /// Where the carriage return at its end begins; `end` if there is none.
    pub stop: usize,
    /// Where the line feed in front of it begins; `start` if there is none.
    pub before: usize,
    /// Where the line feed behind it ends; `end` if there is none.
    pub after: usize,
}

/// Where a reader of codes for terminals is.
#[derive(Clone, Copy)]
enum Terminal {
    Text,
    Escape,
    Sequence,
}

impl View {
    fn new(alloc: Global, bounds: (usize, usize), nesting: Nesting) -> View {
        View {
            text: String::new(alloc),
            nesting,
            starts: Vec::new(alloc),
            ends: Vec::new(alloc),
            bounds,
        }
    }

    fn push(&mut self, ch: char, start: usize, end: usize) -> Result<(), AllocError> {
        self.text.push(ch)?;
        for _ in 0..ch.len_utf8() {
            self.starts.push(start)?;
            self.ends.push(end)?;
        }
        Ok(())
    }

    /// A line as it is.
    pub fn of_line(alloc: Global, line: &str) -> Result<View, AllocError> {
        let mut view = View::new(alloc, (0, line.len()), Nesting::LINE);
        for (at, ch) in line.char_indices() {
            view.push(ch, at, at.saturating_add(ch.len_utf8()))?;
        }
        Ok(view)
    }

    /// The inside of a string, bytes `start` to `end` of the text of a view, without its escapes. None if it is too deep.
    pub fn of_string(
        alloc: Global,
        outer: &View,
        (start, end): (usize, usize),
        is_single: bool,
    ) -> Result<Option<View>, AllocError> {
        let Some(nesting) = outer.nesting.inside(is_single) else {
            return Ok(None);
        };
        let bounds = (outer.end_of(start.saturating_sub(1)), outer.start_of(end));
        let mut view = View::new(alloc, bounds, nesting);
        let mut at = start;
        for _ in start..end {
            let rest = outer.text.as_str().get(at..end).unwrap_or("");
            let Some((ch, len)) = first_of_string(rest) else {
                break;
            };
            let next = at.saturating_add(len);
            let (first, last) = outer.place(at, next);
            view.push(ch, first, last)?;
            at = next;
        }
        Ok(Some(view))
    }

    /// The same without the codes that terminals obey, as those of colours.
    pub fn without_codes(self, alloc: Global) -> Result<View, AllocError> {
        if !self.text.contains('\u{1b}') {
            return Ok(self);
        }
        let mut view = View::new(alloc, self.bounds, self.nesting);
        let mut state = Terminal::Text;
        for (at, ch) in self.text.char_indices() {
            state = match (state, ch) {
                (Terminal::Text, '\u{1b}') => Terminal::Escape,
                (Terminal::Text, _) => {
                    view.push(ch, self.start_of(at), self.end_of(at))?;
                    Terminal::Text
                }
                (Terminal::Escape, '[') => Terminal::Sequence,
                (Terminal::Escape, _) => Terminal::Text,
                (Terminal::Sequence, '@'..='~') => Terminal::Text,
                (Terminal::Sequence, _) => Terminal::Sequence,
            };
        }
        Ok(view)
    }

    fn start_of(&self, at: usize) -> usize {
        self.starts.get(at).copied().unwrap_or(0)
    }

    fn end_of(&self, at: usize) -> usize {
        self.ends.get(at).copied().unwrap_or(0)
    }

    /// Where in the line the bytes `start` to `end` of the text come from.
    pub fn place(&self, start: usize, end: usize) -> (usize, usize) {
        (self.start_of(start), self.end_of(end.saturating_sub(1)))
    }

    /// Where in the line the bytes that byte `at` of the text stands for end.
    pub fn behind(&self, at: usize) -> usize {
        self.end_of(at)
    }

    /// The row of the bytes `start` to `end` of the text, which line feeds or its ends are around.
    pub fn row(&self, start: usize, end: usize) -> Row {
        let (first, last) = self.bounds;
        let (before, begin) = match start.checked_sub(1) {
            Some(feed) => (self.start_of(feed), self.end_of(feed)),
            None => (first, first),
        };
        let (stop, after) = if end < self.text.len() {
            (self.start_of(end), self.end_of(end))
        } else {
            (last, last)
        };
        let row = self.text.as_str().get(start..end).unwrap_or("");
        Row {
            start: begin,
            end: stop,
            stop: if row.ends_with('\r') {
                self.start_of(end.saturating_sub(1))
            } else {
                stop
            },
            before,
            after,
        }
    }
}

/// The number of `count` hexadecimal digits behind `lead` at the start of a text.
fn number_behind(text: &str, lead: &str, count: usize) -> Option<u32> {
    let digits = text.strip_prefix(lead)?.get(..count)?;
    if !digits.bytes().all(|byte| byte.is_ascii_hexdigit()) {
        return None;
    }
    u32::from_str_radix(digits, 16).ok()
}

/// The number of four hexadecimal digits behind `\u` at the start of a text.
fn unicode_escape(text: &str) -> Option<u32> {
    number_behind(text, "\\u", 4)
}

/// The character of a Unicode escape at the start of a text, or of two that are one character, or of `\x` and two digits, as JavaScript
/// writes them, and how many bytes that takes.
fn character_escape(text: &str) -> Option<(char, usize)> {
    if let Some(number) = number_behind(text, "\\x", 2) {
        return Some((char::from_u32(number)?, 4));
    }
    let first = unicode_escape(text)?;
    if (0xd800..0xdc00).contains(&first)
        && let Some(second) = unicode_escape(text.get(6..)?)
        && (0xdc00..0xe000).contains(&second)
    {
        let high = first.saturating_sub(0xd800).saturating_mul(0x400);
        let low = second.saturating_sub(0xdc00);
        let number = high.saturating_add(low).saturating_add(0x10000);
        return Some((char::from_u32(number)?, 12));
    }
    Some((char::from_u32(first).unwrap_or('\u{fffd}'), 6))
}

/// The first character of the inside of a string, and how many bytes it takes there. None at its end.
fn first_of_string(text: &str) -> Option<(char, usize)> {
    let first = text.chars().next()?;
    if first != '\\' {
        return Some((first, first.len_utf8()));
    }
    if let Some(found) = character_escape(text) {
        return Some(found);
    }
    let Some(second) = text.get(1..)?.chars().next() else {
        return Some((first, 1));
    };
    let ch = match second {
        'n' => '\n',
        't' => '\t',
        'r' => '\r',
        'b' => '\u{8}',
        'f' => '\u{c}',
        other => other,
    };
    Some((ch, second.len_utf8().saturating_add(1)))
}

/// Whether a line may be JSON, or a part of a JSON text over several lines.
pub fn may_be_json(line: &str) -> bool {
    let first = line.trim_start().chars().next();
    line.contains('"')
        && (matches!(first, Some('{' | '[' | '"')) || line.contains("\\n") || line.contains("{\""))
}

/// The insides of the JSON strings of a line: where each begins and ends.
pub fn json_strings(alloc: Global, line: &str) -> Result<Vec<(usize, usize)>, AllocError> {
    let mut strings = Vec::new(alloc);
    let mut open = None;
    let mut is_escaped = false;
    for (at, byte) in line.bytes().enumerate() {
        if is_escaped {
            is_escaped = false;
            continue;
        }
        match (open, byte) {
            (Some(_), b'\\') => is_escaped = true,
            (Some(start), b'"') => {
                strings.push((start, at))?;
                open = None;
            }
            (None, b'"') => open = Some(at.saturating_add(1)),
            _ => {}
        }
    }
    Ok(strings)
}

/// What may be in front of a string in single quotes, and behind it.
const FRONTS: &[u8] = b" \t([{,:=+";

const BACKS: &[u8] = b" \t\r)]},;:+";

/// The byte in front of the one at an index of a text.
fn byte_before(text: &str, at: usize) -> Option<u8> {
    text.as_bytes().get(at.checked_sub(1)?).copied()
}

/// The byte behind the one at an index of a text.
fn byte_behind(text: &str, at: usize) -> Option<u8> {
    text.as_bytes().get(at.saturating_add(1)).copied()
}

/// The insides of the strings of a row in single quotes, as JavaScript and Python print them: where each begins and ends. Only where no
/// word is right in front of one and behind it, since the mark is an apostrophe too.
pub fn single_strings(alloc: Global, text: &str) -> Result<Vec<(usize, usize)>, AllocError> {
    let mut strings = Vec::new(alloc);
    let mut open = None;
    let mut is_escaped = false;
    for (at, byte) in text.bytes().enumerate() {
        if is_escaped || byte != b'\'' {
            is_escaped = !is_escaped && byte == b'\\';
            continue;
        }
        let opens = byte_before(text, at).is_none_or(|byte| FRONTS.contains(&byte));
        let closes = byte_behind(text, at).is_none_or(|byte| BACKS.contains(&byte));
        match open {
            Some(start) if closes => {
                strings.push((start, at))?;
                open = None;
            }
            _ if opens => open = Some(at.saturating_add(1)),
            _ => {}
        }
    }
    Ok(strings)
}

/// A row without the insides of these strings of it.
pub fn without_strings(
    alloc: Global,
    text: &str,
    strings: &[(usize, usize)],
) -> Result<String, AllocError> {
    let mut out = String::new(alloc);
    let mut from = 0usize;
    for (start, end) in strings {
        out.push_str(text.get(from..*start).unwrap_or(""))?;
        from = *end;
    }
    out.push_str(text.get(from..).unwrap_or(""))?;
    Ok(out)
}

/// Whether a byte is one of a word.
fn is_of_word(byte: u8) -> bool {
    byte.is_ascii_alphanumeric() || !byte.is_ascii()
}

/// Whether the mark at a byte of a text is an apostrophe in a word.
fn is_apostrophe(text: &str, at: usize) -> bool {
    byte_before(text, at).is_some_and(is_of_word) && byte_behind(text, at).is_some_and(is_of_word)
}

/// Whether all double quotes of a row are in strings in single quotes: then these are the outer ones.
pub fn are_singles_outside(alloc: Global, text: &str) -> Result<bool, AllocError> {
    if !text.contains('\'') {
        return Ok(false);
    }
    let strings = single_strings(alloc, text)?;
    let around = without_strings(alloc, text, strings.as_slice())?;
    Ok(!around.contains('"'))
}

/// Whether a word is a path of Windows with a drive, where a backslash escapes nothing.
fn is_of_drive(word: &str) -> bool {
    matches!(word.as_bytes(), [drive, b':', b'\\', ..] if drive.is_ascii_alphabetic())
}

/// Whether a text has an escaped line feed. In a path of Windows a backslash escapes nothing, but at its end.
fn has_line_feed(text: &str) -> bool {
    text.split(' ').any(|word| word.contains("\\n")
        && (word.ends_with("\\n") || !is_of_drive(word)))
}

/// Whether a text leaves a string open, or ends one that it did not begin. With `skips` a mark right behind a word opens none (`the users'
/// list`).
fn has_cut_string(text: &str, skips: bool) -> bool {
    let (mut doubles, mut singles, mut ticks) = (false, false, false);
    for (at, byte) in text.bytes().enumerate() {
        let opens = !skips || !byte_before(text, at).is_some_and(is_of_word);
        match byte {
            b'"' => doubles = !doubles && opens,
            b'`' => ticks = !ticks && opens,
            b'\'' if !is_apostrophe(text, at) => singles = !singles && opens,
            _ => {}
        }
    }
    doubles || singles || ticks
}

/// Whether a text in front of a frame has each of its strings whole, and no escaped line feed: else the frame is in a string that is cut off
/// or unknown, and how a row ends there is unknown.
pub fn is_whole_front(text: &str) -> bool {
    !has_cut_string(text, true) && !has_line_feed(text)
}

/// Whether a text behind a frame, or the name in a frame, has each of its strings whole, and no escaped line feed.
pub fn is_whole(text: &str) -> bool {
    !has_cut_string(text, false) && !has_line_feed(text)
}
