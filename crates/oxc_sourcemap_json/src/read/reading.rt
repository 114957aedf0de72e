//! Where a text is not JSON.
ghost use Rattle.std.specs.Prelude.{◌≡◌, ◌≤◌, ◌+◌, length, min, IsSomeAnd};
ghost use Rattle.oxc_sourcemap_json.specs.Words.{OutOfMemory, BadJson, Reading, IsBytePlace};
ghost use Rattle.oxc_sourcemap_json.specs.Words.{IsMemory, IsBytePlaceFrom, line_feeds, line_start};

use oxc_sourcemap_tokens::{Error, Fault, FaultPlace, FaultSpot, JsonFault};

/// The index of the first byte of a line, or the length of the text if there is no such line. Lines end in line feeds.
fn line_start(text: &[u8], line: usize) -> usize
    ensures { result ≡ min (line_start text.now line) (length text.now) }
{
    let mut left = line;
    for (i, byte) in text.iter().enumerate() {
        if left == 0 {
            return i;
        }
        if *byte == b'\n' {
            left -= 1;
        }
    }
    text.len()
}

/// The index of the byte at a line and a column, at most the length of the text.
fn byte_at(text: &[u8], line: usize, column: usize) -> usize
    ensures { result ≡ min (line_start text.now line + column) (length text.now) }
{
    let left = text.len() - line_start(text, line);
    text.len() - left + column.min(left)
}

/// The index of the byte for which the reader refused a text with this error, at most the length of the text.
pub fn reading_byte(text: &str, error: &serde_json::Error) -> usize
    ensures { result ≤ length text.now }
{
    let line = error.line().saturating_sub(1);
    // The reader counts the byte at fault with those before it, but at the end of the text, where there is none.
    let column = if error.is_eof() {
        error.column()
    } else {
        error.column().saturating_sub(1)
    };
    byte_at(text.as_bytes(), line, column)
}

/// How many line feeds there are, and how many bytes behind the last of them.
fn lines_and_rest(front: &[u8]) -> (usize, usize)
    ensures lines { result.0 ≡ line_feeds front.now }
    ensures rest { line_start front.now result.0 + result.1 ≡ length front.now }
{
    let mut lines: usize = 0;
    let mut rest: usize = 0;
    for byte in front {
        if *byte == b'\n' {
            lines += 1;
            rest = 0;
        } else {
            rest += 1;
        }
    }
    (lines, rest)
}

/// The place at a byte of a text that is not JSON, or at its end.
pub fn reading_place(text: &str, byte: usize) -> FaultPlace
    requires { byte ≤ length text.now }
    ensures { IsBytePlaceFrom byte text.now result }
{
    let (line, column) = lines_and_rest(&text.as_bytes()[..byte]);
    FaultPlace::new(None, FaultSpot::Reading { line, column, byte })
}

/// What this error of the reader is: want of memory, or a fault of the text.
pub(crate) fn reading_fault(text: &str, error: &serde_json::Error) -> Fault
    ensures memory { IsMemory error.now → result.error ≡ OutOfMemory }
    ensures error { ¬ (IsMemory error.now) → result.error ≡ BadJson Reading }
    ensures place { ¬ (IsMemory error.now) → IsSomeAnd result.place (IsBytePlace text.now) }
{
    if error.is_memory() {
        return Fault::without_place(Error::OutOfMemory);
    }
    Fault {
        error: Error::BadJson(JsonFault::Reading),
        place: Some(reading_place(text, reading_byte(text, error))),
    }
}
