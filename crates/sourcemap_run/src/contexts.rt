//! The lines of contents around positions.
ghost use Rattle.std.specs.Prelude.{◌≡◌, ◌<◌, ◌+◌, ◌^◌, map, chars, drop, codes, min};
ghost use Rattle.std.specs.Prelude.{IfOk};
ghost use Rattle.std.specs.List.{flat_map};
ghost use Rattle.sourcemap_run.specs.Words.{OnlyMemory, OnlyAdds, Pushes, lines_of, line_at};
ghost use Rattle.sourcemap_run.specs.Words.{is_line_end, line_char, line_text, blank_char};
ghost use Rattle.sourcemap_run.specs.Words.{before_column, aligned, numbered_line, mark_line};
ghost use Rattle.sourcemap_run.specs.Words.{below_number};
ghost use Rattle.sourcemap_run.specs.Words.{context_line, lines_around, context_text};
ghost use Rattle.sourcemap_run.specs.Words.{LinesAreCounted};

use oxc_sourcemap_text::split_line;
use oxc_sourcemap_tokens::{Memory, Position, Result};
use sourcemap_texts::{is_hidden, push_visible_char};
use std::alloc::Global;
use std::marker::Model;

/// Cuts a text into its lines, each with its end, where the library counts them.
fn cut_lines<'t>(alloc: Global, text: &'t str) -> Memory<Vec<&'t str>>
    ensures { IfOk result (λ lines. map (λ line. chars line.now) lines.items
        ≡ lines_of (chars text.now)) }
{
    let mut lines = Vec::new(alloc);
    let mut rest = text;
    while let Some((line, after)) = split_line(rest) {
        lines.push(line)?;
        rest = after;
    }
    lines.push(rest)?;
    Ok(lines)
}

/// Whether a character belongs to the end of a line.
fn is_line_end(ch: char) -> bool
    ensures { result ≡ is_line_end ch }
{
    matches!(ch, '\n' | '\r' | '\u{2028}' | '\u{2029}')
}

/// Appends a character of a line as it is printed.
fn push_line_char(ch: char, out: &mut String) -> Result<()>
    ensures text { Pushes result out.old out.new (line_char ch) }
    ensures error { OnlyMemory result }
    ensures adds { OnlyAdds out.old out.new }
{
    if is_line_end(ch) {
        return Ok(());
    }
    if ch == '\t' {
        out.push('\t')?;
        return Ok(());
    }
    push_visible_char(ch, out)
}

/// Appends a line as it is printed.
fn push_line_text(line: &str, out: &mut String) -> Result<()>
    ensures text { Pushes result out.old out.new (line_text (chars line.now)) }
    ensures error { OnlyMemory result }
    ensures adds { OnlyAdds out.old out.new }
{
    for ch in line.chars() {
        push_line_char(ch, out)?;
    }
    Ok(())
}

/// The text below a character, as wide as the printed character.
fn blank_char(ch: char) -> &'static str
    ensures { result.now ≡ blank_char ch }
{
    if is_line_end(ch) {
        return "";
    }
    if ch == '\t' {
        return "\t";
    }
    if is_hidden(ch) { "      " } else { " " }
}

/// Appends the text below the characters of a line that begin before a column.
fn push_blanks(line: &str, column: u32, out: &mut String) -> Result<()>
    ensures text { Pushes result out.old out.new
        (flat_map blank_char (before_column column (chars line.now))) }
    ensures error { OnlyMemory result }
    ensures adds { OnlyAdds out.old out.new }
{
    let mut left = u64::from(column);
    for ch in line.chars() {
        if left > 0 {
            out.push_str(blank_char(ch))?;
        }
        left = left.saturating_sub(ch.len_utf16() as u64);
    }
    Ok(())
}

/// The spaces before a number of `len` digits.
fn padding(len: usize) -> &'static str
    ensures { result.now ≡ drop len (codes "     ") }
{
    match len {
        0 => "     ",
        1 => "    ",
        2 => "   ",
        3 => "  ",
        4 => " ",
        _ => "",
    }
}

/// Appends a number, with spaces before it if it has less than five digits.
fn push_aligned(alloc: Global, number: u64, out: &mut String) -> Result<()>
    ensures text { Pushes result out.old out.new (aligned number) }
    ensures error { OnlyMemory result }
    ensures adds { OnlyAdds out.old out.new }
{
    let digits = number.to_string(alloc)?;
    out.push_str(padding(digits.len()))?;
    out.push_str(digits.as_str())?;
    Ok(())
}

/// Appends a space.
fn push_space(out: &mut String) -> Result<()>
    ensures text { Pushes result out.old out.new (codes " ") }
    ensures error { OnlyMemory result }
    ensures adds { OnlyAdds out.old out.new }
{
    out.push_str(" ")?;
    Ok(())
}

/// Appends a space for each of these bytes.
fn push_spaces(bytes: &[u8], out: &mut String) -> Result<()>
    ensures text { Pushes result out.old out.new (flat_map (λ byte. codes " ") bytes.now) }
    ensures error { OnlyMemory result }
    ensures adds { OnlyAdds out.old out.new }
{
    for _byte in bytes {
        push_space(out)?;
    }
    Ok(())
}

/// Appends a space below each character of a number and of the spaces before it.
fn push_below_number(alloc: Global, number: u64, out: &mut String) -> Result<()>
    ensures text { Pushes result out.old out.new (below_number number) }
    ensures error { OnlyMemory result }
    ensures adds { OnlyAdds out.old out.new }
{
    let mut text = String::new(alloc);
    push_aligned(alloc, number, &mut text)?;
    push_spaces(text.as_bytes(), out)
}

/// Appends the mark below a column of a line with this number.
fn push_mark(alloc: Global, number: u64, line: &str, column: u32, out: &mut String) -> Result<()>
    ensures text { Pushes result out.old out.new (mark_line number column (chars line.now)) }
    ensures error { OnlyMemory result }
    ensures adds { OnlyAdds out.old out.new }
{
    out.push_str("  ")?;
    push_below_number(alloc, number, out)?;
    out.push_str(" | ")?;
    push_blanks(line, column, out)?;
    out.push_str("^\n")?;
    Ok(())
}

/// Appends a line behind a sign and its number.
fn push_numbered(alloc: Global, sign: &str, number: u64, line: &str, out: &mut String) -> Result<()>
    ensures text { Pushes result out.old out.new (numbered_line sign.now number (chars line.now)) }
    ensures error { OnlyMemory result }
    ensures adds { OnlyAdds out.old out.new }
{
    out.push_str(sign)?;
    push_aligned(alloc, number, out)?;
    out.push_str(" | ")?;
    push_line_text(line, out)?;
    out.push('\n')?;
    Ok(())
}

/// Appends a line, with a sign and the mark below it if it is the position's.
fn push_context_line(
    alloc: Global,
    position: Position,
    base: u8,
    number: u64,
    line: &str,
    out: &mut String,
) -> Result<()>
    requires { number + base < 2 ^ 64 }
    ensures text { Pushes result out.old out.new
        (context_line base position number (chars line.now)) }
    ensures error { OnlyMemory result }
    ensures adds { OnlyAdds out.old out.new }
{
    let shown = number + u64::from(base);
    if number != u64::from(position.line) {
        return push_numbered(alloc, "  ", shown, line, out);
    }
    push_numbered(alloc, "> ", shown, line, out)?;
    push_mark(alloc, shown, line, position.column, out)
}

/// The line of this number, from 0; one that is not there is empty.
fn line_at<'t>(lines: &[&'t str], number: usize) -> &'t str
    ensures { chars result.now ≡ line_at (map (λ line. chars line.now) lines.now) number }
{
    match lines.get(number) {
        Some(line) => *line,
        None => "",
    }
}

/// The number behind that of the last near line of `count` lines.
fn near_end(line: u32, around: u32, count: usize) -> usize
    ensures { result ≡ min (line + around + 1) count }
{
    let end = line as usize + around as usize + 1;
    if end < count { end } else { count }
}

/// Appends those of the lines that are near a position.
fn push_lines_around(
    alloc: Global,
    lines: &[&str],
    position: Position,
    around: u32,
    base: u8,
    out: &mut String,
) -> Result<()>
    ensures text { Pushes result out.old out.new
        (lines_around around base position (map (λ line. chars line.now) lines.now)) }
    ensures error { OnlyMemory result }
    ensures adds { OnlyAdds out.old out.new }
{
    let first = (position.line as usize).saturating_sub(around as usize);
    let end = near_end(position.line, around, lines.len());
    for number in first..end {
        let line = line_at(lines, number);
        push_context_line(alloc, position, base, number as u64, line, out)?;
    }
    Ok(())
}

/// A content, cut into its lines once.
#[derive(Drop)]
pub struct Content<'m> {
    text: &'m str,
    lines: Vec<&'m str>,
}

impl<'m> Model for Content<'m> {
    ghost use Rattle.std.specs.Prelude.{◌≡◌, ℕ, List, map, chars};
    ghost use Rattle.sourcemap_run.specs.Words.{lines_of};

    ghost Value = { List ℕ };

    ghost view = { λ content. content.text.now };

    ghost invariant = { λ content. map (λ line. chars line.now) content.lines.items
        ≡ lines_of (chars content.text.now) };
}

impl<'m> Content<'m> {
    /// The lines of a content, where the library counts them.
    pub fn new(alloc: Global, text: &'m str) -> Memory<Content<'m>>
        ensures { IfOk result (λ content. content ≡ text.now) }
    {
        let lines = cut_lines(alloc, text)?;
        Ok(Content { text, lines })
    }

    /// Appends the lines from `around` before a position to `around` behind it, as far as they exist, with their numbers from `base`,
    /// and a mark below the position's column.
    pub fn push_around(
        &self,
        alloc: Global,
        position: Position,
        around: u32,
        base: u8,
        out: &mut String,
    ) -> Result<()>
        ensures text { Pushes result out.old out.new (context_text around base position self.now) }
        ensures error { OnlyMemory result }
        ensures adds { OnlyAdds out.old out.new }
    {
        push_lines_around(alloc, self.lines.as_slice(), position, around, base, out)
    }
}

/// Lines of characters are the lines of positions: in UTF-16 units they are those that the library counts.
pub fn lines_are_counted()
    ensures { LinesAreCounted }
{}
