//! The texts of codes, and what is at a position of one.
use oxc_sourcemap_tokens::Position;
use std::alloc::{AllocError, Global};

/// A line of a code, without its end.
#[derive(Clone, Copy)]
struct Line {
    /// Where in the text it begins.
    start: usize,
    /// How many bytes it has.
    bytes: usize,
    /// How many UTF-16 units it has.
    len: u32,
}

/// A code that was read.
#[derive(Drop)]
pub struct Code {
    pub path: String,
    pub text: String,
    lines: Vec<Line>,
}

/// The lines of a code.
fn lines_of(alloc: Global, text: &str) -> Result<Vec<Line>, AllocError> {
    let mut lines = Vec::new(alloc);
    let (mut start, mut len) = (0usize, 0u32);
    let mut is_after_return = false;
    for (at, ch) in text.char_indices() {
        let behind = at.saturating_add(ch.len_utf8());
        let is_second = ch == '\n' && is_after_return;
        is_after_return = ch == '\r';
        if is_second {
            start = behind;
        } else if matches!(ch, '\n' | '\r' | '\u{2028}' | '\u{2029}') {
            let bytes = at.saturating_sub(start);
            lines.push(Line { start, bytes, len })?;
            (start, len) = (behind, 0);
        } else {
            len = len.saturating_add(if ch.len_utf8() == 4 { 2 } else { 1 });
        }
    }
    let bytes = text.len().saturating_sub(start);
    lines.push(Line { start, bytes, len })?;
    Ok(lines)
}

/// The byte of a line at which a column begins; None if none begins there.
fn byte_of(line: &str, column: u32) -> Option<usize> {
    let mut left = column;
    for (at, ch) in line.char_indices() {
        if left == 0 {
            return Some(at);
        }
        left = left.checked_sub(if ch.len_utf8() == 4 { 2 } else { 1 })?;
    }
    if left == 0 { Some(line.len()) } else { None }
}

impl Code {
    pub fn new(alloc: Global, path: &str, text: String) -> Result<Code, AllocError> {
        let lines = lines_of(alloc, text.as_str())?;
        Ok(Code {
            path: String::from_str(alloc, path)?,
            text,
            lines,
        })
    }

    fn line(&self, number: u32) -> Option<Line> {
        self.lines.get(usize::try_from(number).ok()?).copied()
    }

    /// Whether it has a position: one in a line, or right behind it.
    pub fn has(&self, position: Position) -> bool {
        self.line(position.line)
            .is_some_and(|line| position.column <= line.len)
    }

    /// The byte at which a position is; None if it has no such one.
    pub fn byte_at(&self, position: Position) -> Option<usize> {
        let Line { start, bytes, len } = self.line(position.line)?;
        if position.column > len {
            return None;
        }
        let column = usize::try_from(position.column).ok()?;
        if usize::try_from(len).ok()? == bytes {
            return start.checked_add(column); // (each character is a byte)
        }
        let line = self.text.as_str().get(start..start.checked_add(bytes)?)?;
        start.checked_add(byte_of(line, position.column)?)
    }
}
