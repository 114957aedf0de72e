//! Positions in a text, and offsets.
ghost use Rattle.std.specs.Prelude.{◌≡◌, ◌+◌, ◌<◌, ◌≤◌, length, slice_get};
ghost use Rattle.oxc_sourcemap_text.specs.Words.{units_of, text_lines, is_inside_pair, line_of};
ghost use Rattle.oxc_sourcemap_text.specs.Words.{line_start, column_count, position_of, offset_of};
ghost use Rattle.oxc_sourcemap_text.specs.Words.{in_size, Answers};

use crate::positions::position_error::PositionError;
use crate::positions::scan::scan_text;
use oxc_sourcemap_tokens::Result;
use std::alloc::Global;
use std::marker::Model;

/// The positions of a text: between offsets, and lines with columns. All count from 0; offsets and columns are in UTF-16 code
/// units, as in JavaScript's strings. A text is cut into lines as docs/FORMAT.md, "Positions in a text", says: a line has its
/// line end in it.
///
/// It holds 4 to 8 bytes for each line and for each character past U+FFFF.
///
/// ```rust
/// use oxc_sourcemap::{PositionError, TextPositions};
///
/// let positions = TextPositions::new(alloc, "let a;\nlet b;")?;
/// assert_eq!(rt; positions.position(11), Ok((1, 4)));
/// assert_eq!(rt; positions.offset(1, 4), Ok(11));
/// assert_eq!(rt; positions.offset(1, 7), Err(PositionError::PastLine));
/// ```
#[derive(Drop)]
pub struct TextPositions<'t> {
    text: &'t str,
    /// Where each line begins.
    starts: Vec<u32>,
    /// The offset of the second half of each surrogate pair.
    second_halves: Vec<u32>,
    /// The number of units of the text.
    len: u32,
}

impl<'t> Model for TextPositions<'t> {
    ghost use Rattle.std.specs.Prelude.{ℕ, List};
    ghost use Rattle.oxc_sourcemap_text.specs.Scans.{IsIndexOf};

    ghost Value = { List ℕ };

    ghost view = { λ p. p.text.now };

    ghost invariant = { λ p. IsIndexOf p.text.now p.starts.items p.second_halves.items p.len };
}

/// The item at an index.
fn item_at(items: &[u32], i: usize) -> Option<u32>
    ensures { result ≡ slice_get items.now i }
{
    items.get(i).copied()
}

impl<'t> TextPositions<'t> {
    /// The positions of a text. It reads the text once.
    ///
    /// Fails with `TooLarge` if the text has more than 4294967295 units, and with `OutOfMemory` for want of memory.
    pub fn new(alloc: Global, text: &'t str) -> Result<TextPositions<'t>>
        ensures { Answers (λ text. text) result (in_size text.now) }
    {
        let scan = scan_text(alloc, text)?;
        Ok(TextPositions {
            text,
            starts: scan.starts,
            second_halves: scan.second_halves,
            len: scan.len,
        })
    }

    /// The line and the column of an offset. The end of the text is a position too, at the end of its last line. Takes time in
    /// the logarithm of the numbers of lines and of characters past U+FFFF, and no memory.
    ///
    /// Fails, in this order, with `PastText` past the end of the text, and with `InsidePair`.
    pub fn position(&self, offset: u32) -> std::result::Result<(u32, u32), PositionError>
        ensures { result ≡ position_of self.now offset }
    {
        if offset > self.len {
            return Err(PositionError::PastText);
        }
        if self.is_inside_pair(offset) {
            return Err(PositionError::InsidePair);
        }
        let starts = self.starts.as_slice();
        let line = self.line_of(offset);
        Ok((line as u32, offset - starts[line]))
    }

    /// The offset of a line and a column: the number of units before it. Takes time in the logarithm of the number of
    /// characters past U+FFFF, and no memory.
    ///
    /// Fails, in this order, with `NoLine`, `PastLine` and `InsidePair`. The column just past a line's last unit is the first
    /// one of the next line, so it is there on the last line alone.
    pub fn offset(&self, line: u32, col: u32) -> std::result::Result<u32, PositionError>
        ensures { result ≡ offset_of self.now line col }
    {
        let Some(start) = item_at(self.starts.as_slice(), line as usize) else {
            return Err(PositionError::NoLine);
        };
        let offset = u64::from(start) + u64::from(col);
        if offset >= self.line_limit(line as usize) {
            return Err(PositionError::PastLine);
        }
        if self.is_inside_pair(offset as u32) {
            return Err(PositionError::InsidePair);
        }
        Ok(offset as u32)
    }

    /// The first offset that is not on a line.
    fn line_limit(&self, line: usize) -> u64
        requires { line < length (text_lines self.now) }
        ensures { result ≡ line_start (text_lines self.now) line
            + column_count (text_lines self.now) line }
    {
        match item_at(self.starts.as_slice(), line + 1) {
            Some(next) => u64::from(next),
            None => u64::from(self.len) + 1,
        }
    }

    /// The line of an offset.
    fn line_of(&self, offset: u32) -> usize
        requires { offset ≤ length (units_of self.now) }
        ensures line { result ≡ line_of (text_lines self.now) offset }
        ensures within { result < length (text_lines self.now) }
    {
        self.starts.partition_point(|start| *start <= offset) - 1
    }

    /// Whether an offset is between the halves of a surrogate pair.
    fn is_inside_pair(&self, offset: u32) -> bool
        ensures { result ≡ is_inside_pair (units_of self.now) offset }
    {
        self.second_halves.binary_search(&offset).is_ok()
    }
}
