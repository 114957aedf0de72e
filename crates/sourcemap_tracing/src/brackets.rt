//! How far what begins at a byte of a JavaScript code goes, by the brackets behind it. Comments, strings, templates and regular
//! expressions are passed over; whether a slash begins one of these is guessed by what is in front of it.
use std::alloc::{AllocError, Global};

/// The words behind which a slash begins a regular expression.
const BEFORE_VALUE: [&str; 16] = [
    "await",
    "case",
    "delete",
    "do",
    "else",
    "extends",
    "in",
    "instanceof",
    "new",
    "of",
    "return",
    "throw",
    "typeof",
    "void",
    "yield",
    "default",
];

/// Whether a byte is one of an identifier.
pub fn is_of_identifier(byte: u8) -> bool {
    byte.is_ascii_alphanumeric() || byte == b'_' || byte == b'$' || !byte.is_ascii()
}

/// Where a string ends that begins at a byte, behind its quote; or where its line ends.
fn behind_string(bytes: &[u8], start: usize, quote: u8) -> usize {
    let mut is_escaped = false;
    for (at, byte) in bytes.iter().enumerate().skip(start.saturating_add(1)) {
        if is_escaped {
            is_escaped = false;
        } else if *byte == quote || *byte == b'\n' {
            return at.saturating_add(1);
        } else {
            is_escaped = *byte == b'\\';
        }
    }
    bytes.len()
}

/// Where a regular expression ends that begins at a byte, behind its slash; or where its line ends.
fn behind_expression(bytes: &[u8], start: usize) -> usize {
    let (mut is_escaped, mut is_in_class) = (false, false);
    for (at, byte) in bytes.iter().enumerate().skip(start.saturating_add(1)) {
        match *byte {
            _ if is_escaped => is_escaped = false,
            b'\\' => is_escaped = true,
            b'[' => is_in_class = true,
            b']' => is_in_class = false,
            b'/' if !is_in_class => return at.saturating_add(1),
            b'\n' => return at.saturating_add(1),
            _ => {}
        }
    }
    bytes.len()
}

/// Where the text of a template ends that goes on at a byte: behind its mark, or behind `${`.
fn behind_template(bytes: &[u8], start: usize) -> usize {
    let (mut is_escaped, mut is_after_dollar) = (false, false);
    for (at, byte) in bytes.iter().enumerate().skip(start) {
        match *byte {
            _ if is_escaped => is_escaped = false,
            b'\\' => is_escaped = true,
            b'`' => return at.saturating_add(1),
            b'{' if is_after_dollar => return at.saturating_add(1),
            _ => {}
        }
        is_after_dollar = *byte == b'$';
    }
    bytes.len()
}

/// Where a comment ends that begins at a byte; None if none begins there.
fn behind_comment(text: &str, start: usize) -> Option<usize> {
    let rest = text.get(start..)?;
    let (end, len) = if rest.starts_with("//") {
        ("\n", 1)
    } else if rest.starts_with("/*") {
        ("*/", 2)
    } else {
        return None;
    };
    Some(match rest.get(2..)?.find(end) {
        Some(at) => start.saturating_add(at).saturating_add(2 + len),
        None => text.len(),
    })
}

/// Reads a code from a byte on.
#[derive(Drop)]
struct Reader<'t> {
    text: &'t str,
    at: usize,
    /// The brackets that are open; of a part of a template `$`.
    open: Vec<u8>,
    /// Whether a slash would begin a regular expression.
    wants_value: bool,
}

impl<'t> Reader<'t> {
    fn byte(&self) -> u8 {
        self.text.as_bytes().get(self.at).copied().unwrap_or(0)
    }

    /// Reads a word.
    fn word(&mut self) {
        let rest = self.text.as_bytes().get(self.at..).unwrap_or(&[]);
        let len = rest
            .iter()
            .take_while(|byte| is_of_identifier(**byte))
            .count();
        let end = self.at.saturating_add(len.max(1));
        let word = self.text.get(self.at..end).unwrap_or("");
        self.wants_value = BEFORE_VALUE.iter().any(|it| *it == word);
        self.at = end;
    }

    /// Reads what is at a slash: a comment, a regular expression, or an operator.
    fn slash(&mut self) {
        if let Some(end) = behind_comment(self.text, self.at) {
            self.at = end;
        } else if self.wants_value {
            self.at = behind_expression(self.text.as_bytes(), self.at);
            self.wants_value = false;
        } else {
            self.at = self.at.saturating_add(1);
            self.wants_value = true;
        }
    }

    /// Reads the text of a template up to its end, or to a part of it, which it opens.
    fn template(&mut self, start: usize) -> Result<(), AllocError> {
        self.at = behind_template(self.text.as_bytes(), start);
        let last = self.at.saturating_sub(1);
        let opens = self.text.as_bytes().get(last) == Some(&b'{');
        self.wants_value = opens;
        if opens {
            self.open.push(b'$')?;
        }
        Ok(())
    }

    /// Reads a bracket that closes another one. Returns whether what was begun ends with it: it was open before, or it closes a body.
    fn close(&mut self, byte: u8) -> Result<bool, AllocError> {
        let next = self.at.saturating_add(1);
        let Some(open) = self.open.pop() else {
            return Ok(true);
        };
        if open == b'$' {
            self.template(next)?;
            return Ok(false);
        }
        self.at = next;
        self.wants_value = byte == b'}';
        Ok(byte == b'}' && self.open.is_empty())
    }

    /// Reads what is next. Returns whether what was begun ends with it.
    fn step(&mut self) -> Result<bool, AllocError> {
        let byte = self.byte();
        let next = self.at.saturating_add(1);
        match byte {
            b'"' | b'\'' => {
                self.at = behind_string(self.text.as_bytes(), self.at, byte);
                self.wants_value = false;
            }
            b'`' => self.template(next)?,
            b'/' => self.slash(),
            b'(' | b'[' | b'{' => {
                self.open.push(byte)?;
                (self.at, self.wants_value) = (next, true);
            }
            b')' | b']' | b'}' => return self.close(byte),
            b';' | b',' if self.open.is_empty() => return Ok(true),
            byte if is_of_identifier(byte) => self.word(),
            byte => {
                self.at = next;
                self.wants_value |= !byte.is_ascii_whitespace();
            }
        }
        Ok(false)
    }
}

/// Whether what begins at byte `start` of a code, as a function behind its name, goes on to byte `end`: till then no body of it is closed,
/// no bracket around it, and no statement or item of a list ended.
pub fn goes_on(alloc: Global, text: &str, start: usize, end: usize) -> Result<bool, AllocError> {
    let mut reader = Reader {
        text,
        at: start,
        open: Vec::new(alloc),
        wants_value: false,
    };
    for _ in start..end {
        if reader.at >= end {
            return Ok(true);
        }
        if reader.step()? {
            return Ok(false);
        }
    }
    Ok(reader.at >= end)
}
