//! The lines of a text, in UTF-16 units.
ghost use Rattle.std.specs.Prelude.{◌≡◌, ◌+◌, ◌<◌, ◌≤◌, ◌∷◌, [], length, take, drop, slice_index};
ghost use Rattle.std.specs.Prelude.{IfSome, IsNone, IfOk};
ghost use Rattle.oxc_sourcemap_text.specs.Words.{units_of, ends_line, lines_of, line_at};

use std::alloc::{AllocError, Global};
use std::marker::Model;

/// The UTF-16 units of a text.
pub fn utf16_units(alloc: Global, text: &str) -> Result<Vec<u16>, AllocError>
    ensures { IfOk result (λ units. units.items ≡ units_of text.now) }
{
    let mut units = Vec::with_capacity(alloc, text.len())?;
    for ch in text.chars() {
        let mut pair = [0; 2];
        units.extend_from_slice(ch.encode_utf16(&mut pair))?;
    }
    Ok(units)
}

/// The lines of a text. Each is a slice of the text's UTF-16 units, with its line end.
#[derive(Drop)]
pub struct Lines<'u> {
    lines: Vec<&'u [u16]>,
}

impl<'u> Model for Lines<'u> {
    ghost use Rattle.std.specs.Prelude.{ℕ, List, map};

    ghost Value = { List (List ℕ) };

    ghost view = { λ it. map (λ line. line.now) it.lines.items };
}

impl<'u> Lines<'u> {
    /// Cuts a text, given by its UTF-16 units, after each line end. No unit is copied.
    pub fn cut(alloc: Global, units: &'u [u16]) -> Result<Lines<'u>, AllocError>
        ensures { IfOk result (λ lines. lines ≡ lines_of units.now) }
    {
        let mut lines = Vec::new(alloc);
        let mut rest = units;
        while let Some(len) = first_line_len(rest) {
            let (line, others) = rest.split_at(len);
            lines.push(line)?;
            rest = others;
        }
        lines.push(rest)?;
        Ok(Lines { lines })
    }

    /// The line of this number, from 0; one that is not there is empty.
    pub fn line(&self, number: u32) -> &'u [u16]
        ensures { result.now ≡ line_at self.now number }
    {
        match self.lines.get(number as usize) {
            Some(line) => *line,
            None => &[],
        }
    }
}

/// Whether a line ends after the unit at this index.
fn is_line_end(units: &[u16], i: usize) -> bool
    requires { i < length units.now }
    ensures { result ≡ ends_line (slice_index units.now i) (drop (i + 1) units.now) }
{
    match units[i] {
        10 | 0x2028 | 0x2029 => true,
        13 => i + 1 == units.len() || units[i + 1] != 10,
        _ => false,
    }
}

/// The length of the first line, with its end. None if no line ends.
fn first_line_len(units: &[u16]) -> Option<usize>
    ensures cut { IfSome result (λ n. lines_of units.now ≡ take n units.now
        ∷ lines_of (drop n units.now)) }
    ensures within { IfSome result (λ n. (0 < n) × (n ≤ length units.now)) }
    ensures last { IsNone result → lines_of units.now ≡ units.now ∷ [] }
{
    for i in 0..units.len() {
        if is_line_end(units, i) {
            return Some(i + 1);
        }
    }
    None
}
