//! Breaks the lines of help at the width of a terminal.
use std::alloc::{AllocError, Global};

/// The line above which stand examples, which are not broken.
const EXAMPLES: &str = "Examples:";

/// How many spaces a text begins with.
fn spaces_before(text: &str) -> usize {
    text.len()
        .saturating_sub(text.trim_start_matches(' ').len())
}

/// How far the second part of a line is indented, behind two spaces or more; of a line with one part, how far that is.
fn indent_of(line: &str, width: usize) -> usize {
    let lead = spaces_before(line);
    let text = line.get(lead..).unwrap_or("");
    let Some((first, rest)) = text.split_once("  ") else {
        return lead;
    };
    let gap = spaces_before(rest).saturating_add(2);
    let indent = lead.saturating_add(first.len()).saturating_add(gap);
    if indent < width / 2 { indent } else { lead }
}

/// The end of the longest front of a text that has at most `width` bytes and ends in front of a space, or else of its first word. Bytes in
/// front of `from` do not count as words.
fn end_of_row(text: &str, from: usize, width: usize) -> usize {
    let mut end = None;
    for (at, byte) in text.bytes().enumerate().skip(from) {
        if byte != b' ' {
            continue;
        }
        if at > width && end.is_some() {
            break;
        }
        end = Some(at);
        if at > width {
            break;
        }
    }
    end.unwrap_or(text.len())
}

/// Appends a line, broken into rows of at most `width` bytes, where its words allow that.
fn push_wrapped(
    alloc: Global,
    line: &str,
    width: usize,
    out: &mut String,
) -> Result<(), AllocError> {
    let indent = indent_of(line, width);
    let mut rest = line;
    let mut margin = 0usize;
    for _ in 0..line.len() {
        if rest.len().saturating_add(margin) <= width {
            break;
        }
        let from = if margin == 0 { indent } else { 0 };
        let end = end_of_row(rest, from, width.saturating_sub(margin));
        let (row, behind) = rest.split_at_checked(end).unwrap_or((rest, ""));
        out.push_str(row.trim_end())?;
        rest = behind.trim_start_matches(' ');
        if rest.is_empty() {
            return Ok(());
        }
        out.push('\n')?;
        out.push_str(" ".repeat(alloc, indent)?.as_str())?;
        margin = indent;
    }
    out.push_str(rest)
}

/// A text whose lines are broken into rows of at most `width` bytes, where their words allow that; those behind `Examples:` stay.
pub fn wrapped(alloc: Global, text: &str, width: usize) -> Result<String, AllocError> {
    let mut out = String::new(alloc);
    let mut is_example = false;
    for (i, line) in text.split('\n').enumerate() {
        if i > 0 {
            out.push('\n')?;
        }
        is_example |= line == EXAMPLES;
        if is_example {
            out.push_str(line)?;
        } else {
            push_wrapped(alloc, line, width, &mut out)?;
        }
    }
    Ok(out)
}
