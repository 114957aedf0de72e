//! Where the lines of a text begin and its surrogate pairs lie, found in one pass over its characters.
ghost use Rattle.std.specs.Prelude.{◌≡◌, ◌≢◌, ◌+◌, ◌<◌, ◌++◌, ◌∷◌, [], ℕ, List, length, IfOk, OnOk};
ghost use Rattle.std.specs.Prelude.{IfErr, if◌then◌else◌};
ghost use Rattle.std.specs.Char.Escape.{encode_utf16};
ghost use Rattle.oxc_sourcemap_text.specs.Words.{OutOfMemory, TooLarge, units_of, text_lines};
ghost use Rattle.oxc_sourcemap_text.specs.Words.{lines_of, ends_line_alone, starts_from};
ghost use Rattle.oxc_sourcemap_text.specs.Words.{second_halves, IsScan};

use oxc_sourcemap_tokens::{Error, Memory, Result};
use std::alloc::Global;

/// What is known of the characters read so far. Offsets are in UTF-16 units.
#[derive(Drop)]
pub(crate) struct Scan {
    /// Where each line begins. A line that begins after a carriage return is listed with the next character.
    pub(crate) starts: Vec<u32>,
    /// The offset of the second half of each surrogate pair.
    pub(crate) second_halves: Vec<u32>,
    /// The number of units.
    pub(crate) len: u32,
    is_after_return: bool,
}

/// Appends an offset, if the condition holds.
fn push_if(condition: bool, offset: u32, offsets: &mut Vec<u32>) -> Memory<()>
    ensures { OnOk result (offsets.new.items
        ≡ offsets.old.items ++ (if condition then offset ∷ [] else [])) }
{
    if condition {
        offsets.push(offset)?;
    }
    Ok(())
}

impl Scan {
    /// Nothing is read: one line, which begins at 0.
    fn start(alloc: Global) -> Memory<Scan>
        ensures { IfOk result (IsScan []) }
    {
        let mut starts = Vec::new(alloc);
        starts.push(0)?;
        Ok(Scan {
            starts,
            second_halves: Vec::new(alloc),
            len: 0,
            is_after_return: false,
        })
    }

    /// Reads a character.
    fn read(&mut self, ch: char) -> Result<()>
        ensures read { (front : List ℕ) → IsScan front self.old
            → OnOk result (IsScan (front ++ encode_utf16 ch) self.new) }
        ensures error { IfErr result (λ e. (e ≢ OutOfMemory) → (e ≡ TooLarge)
            × (4294967295 < self.old.len + length (encode_utf16 ch))) }
    {
        let Some(len) = self.len.checked_add(ch.len_utf16() as u32) else {
            return Err(Error::TooLarge);
        };
        push_if(
            self.is_after_return && ch != '\n',
            self.len,
            &mut self.starts,
        )?;
        push_if(ch > '\u{ffff}', len - 1, &mut self.second_halves)?;
        push_if(ends_line_alone(ch), len, &mut self.starts)?;
        self.len = len;
        self.is_after_return = ch == '\r';
        Ok(())
    }

    /// Ends the last line but one, if the text ends in a carriage return.
    fn end(&mut self) -> Memory<()>
        ensures read { (units : List ℕ) → IsScan units self.old
            → OnOk result (self.new.starts.items ≡ starts_from 0 (lines_of units)) }
        ensures second_halves { self.new.second_halves.items ≡ self.old.second_halves.items }
        ensures len { self.new.len ≡ self.old.len }
    {
        push_if(self.is_after_return, self.len, &mut self.starts)
    }
}

/// Whether a line ends after this character, whatever follows.
fn ends_line_alone(ch: char) -> bool
    ensures { result ≡ ends_line_alone ch }
{
    matches!(ch, '\n' | '\u{2028}' | '\u{2029}')
}

/// Reads the characters of a text. It fails if there are more than 4294967295 units.
fn read_all(alloc: Global, text: &str) -> Result<Scan>
    ensures scan { IfOk result (IsScan (units_of text.now)) }
    ensures error { IfErr result (λ e. (e ≢ OutOfMemory) → (e ≡ TooLarge)
        × (4294967295 < length (units_of text.now))) }
{
    let mut scan = Scan::start(alloc)?;
    for ch in text.chars() {
        scan.read(ch)?;
    }
    Ok(scan)
}

/// Where the lines of a text begin and its surrogate pairs lie. It fails if there are more than 4294967295 units.
pub(crate) fn scan_text(alloc: Global, text: &str) -> Result<Scan>
    ensures starts { IfOk result (λ scan. scan.starts.items ≡ starts_from 0 (text_lines text.now)) }
    ensures pairs { IfOk result (λ scan. scan.second_halves.items
        ≡ second_halves 0 (units_of text.now)) }
    ensures len { IfOk result (λ scan. scan.len ≡ length (units_of text.now)) }
    ensures error { IfErr result (λ e. (e ≢ OutOfMemory) → (e ≡ TooLarge)
        × (4294967295 < length (units_of text.now))) }
{
    let mut scan = read_all(alloc, text)?;
    scan.end()?;
    Ok(scan)
}
