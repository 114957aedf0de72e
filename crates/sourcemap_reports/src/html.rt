//! The page of `coverage --html`: how often each line ran, beside its text.
use crate::functions::{AllParts, Parts, Tally};
use sourcemap_run::{LINE_ENDS, Totals, counted_lines, percent, push_missed, ran};
use sourcemap_texts::{is_hidden, push_shown, push_visible_char};
use sourcemap_words::Outcome;
use std::alloc::{AllocError, Global};
use std::collections::BTreeMap;

/// The contents of originals, by their paths.
pub(crate) type Contents = BTreeMap<String, String>;

/// What is before the rows of the table of originals.
const HEAD: &str = "<!doctype html>
<html lang=\"en\">
<meta charset=\"utf-8\">
<meta name=\"viewport\" content=\"width=device-width\">
<title>Coverage</title>
<style>
:root { color-scheme: light dark; font-family: system-ui, sans-serif }
table { border-collapse: collapse }
th, td { padding: 0 0.7em; text-align: right; vertical-align: top }
th:first-child, td:first-child, .code td:last-child { text-align: left }
td:not(:first-child) { white-space: nowrap }
td:first-child, h2 { overflow-wrap: anywhere }
.code { font-family: monospace; tab-size: 4 }
.code td:last-child { white-space: pre-wrap; overflow-wrap: anywhere }
.code td:first-child { text-align: right; color: GrayText }
.ran td:nth-child(2) { border-left: 4px solid #0072b2 }
.missed td { background: #d55e0033 }
.missed td:nth-child(2) { border-left: 4px solid #d55e00 }
</style>
<h1>Coverage</h1>
<table>
<thead><tr><th scope=\"col\">Source</th><th scope=\"col\">Lines</th><th scope=\"col\">Functions</th><th scope=\"col\">Branches</th></tr></thead>
<tbody>
";

/// What is behind these rows.
const MIDDLE: &str = "</tbody>
</table>
<p>A line that did not run has the count 0. Lines without a count have no code.</p>
";

/// Appends a character as text of HTML.
fn push_char(ch: char, out: &mut String) -> Outcome<()> {
    match ch {
        '&' => out.push_str("&amp;")?,
        '<' => out.push_str("&lt;")?,
        '>' => out.push_str("&gt;")?,
        '"' => out.push_str("&quot;")?,
        '\t' => out.push(ch)?,
        _ if is_hidden(ch) => push_visible_char(ch, out)?,
        _ => out.push(ch)?,
    }
    Ok(())
}

/// Appends a text as that of HTML, with its hidden characters escaped but for tabs.
fn push_text(text: &str, out: &mut String) -> Outcome<()> {
    for ch in text.chars() {
        push_char(ch, out)?;
    }
    Ok(())
}

/// Appends a cell: a percentage, and of what.
fn push_tally(alloc: Global, tally: Tally, out: &mut String) -> Outcome<()> {
    let Tally { ran, all } = tally;
    let cell = match percent(ran, all) {
        Some(percent) => format!(in alloc; "<td>{percent} % ({ran} of {all})</td>")?,
        None => String::from_str(alloc, "<td>none</td>")?,
    };
    Ok(out.push_str(cell.as_str())?)
}

/// Appends the cells of an original.
fn push_cells(alloc: Global, lines: Tally, parts: (Tally, Tally), out: &mut String) -> Outcome<()> {
    push_tally(alloc, lines, out)?;
    push_tally(alloc, parts.0, out)?;
    push_tally(alloc, parts.1, out)?;
    Ok(out.push_str("</tr>\n")?)
}

/// How many functions and branches of an original ran.
fn tallies_of(parts: &AllParts, source: &str) -> (Tally, Tally) {
    match parts.get(source) {
        Some(parts) => (parts.functions(), parts.branches()),
        None => (Tally::default(), Tally::default()),
    }
}

/// Appends the path of an original as text of HTML.
fn push_path(alloc: Global, path: &str, out: &mut String) -> Outcome<()> {
    let mut shown = String::new(alloc);
    push_shown(path, &mut shown)?;
    push_text(shown.as_str(), out)
}

/// Appends a row for each original, with a link to it, and one for all.
fn push_rows(alloc: Global, sources: &Totals, parts: &AllParts, out: &mut String) -> Outcome<()> {
    let mut number = 0u64;
    let (mut all, mut of_all) = (Tally::default(), (Tally::default(), Tally::default()));
    for (source, lines) in sources {
        let lines = counted_lines(alloc, lines)?;
        let tally = Tally {
            ran: ran(lines.as_slice()),
            all: lines.len() as u64,
        };
        let own = tallies_of(parts, source.as_str());
        out.push_str(format!(in alloc; "<tr><td><a href=\"#s{number}\">")?.as_str())?;
        push_path(alloc, source.as_str(), out)?;
        out.push_str("</a></td>")?;
        push_cells(alloc, tally, own, out)?;
        all.add_all(tally);
        of_all.0.add_all(own.0);
        of_all.1.add_all(own.1);
        number = number.saturating_add(1);
    }
    out.push_str("<tr><td>all</td>")?;
    push_cells(alloc, all, of_all, out)
}

/// How often a line ran, of those with code, which are in order.
fn count_of(lines: &[(u32, u64)], line: u32) -> Option<u64> {
    match lines.binary_search_by(|other| other.0.cmp(&line)) {
        Ok(at) => lines.get(at).map(|line| line.1),
        Err(_) => None,
    }
}

/// Appends the row of a line: its number, how often it ran, and its text.
fn push_line(
    alloc: Global,
    line: u32,
    count: Option<u64>,
    text: &str,
    out: &mut String,
) -> Outcome<()> {
    let number = u64::from(line) + 1;
    let row = match count {
        Some(0) => format!(in alloc; "<tr class=\"missed\"><td>{number}</td><td>0</td><td>")?,
        Some(count) => format!(in alloc;
            "<tr class=\"ran\"><td>{number}</td><td>{count}</td><td>"
        )?,
        None => format!(in alloc; "<tr><td>{number}</td><td></td><td>")?,
    };
    out.push_str(row.as_str())?;
    push_text(text, out)?;
    Ok(out.push_str("</td></tr>\n")?)
}

/// Appends the lines of a content, and how often they ran.
fn push_content(
    alloc: Global,
    content: &str,
    lines: &[(u32, u64)],
    out: &mut String,
) -> Outcome<()> {
    let content = content.replace(alloc, "\r\n", "\n")?;
    let content = content.as_str();
    out.push_str("<table class=\"code\">\n")?;
    let mut number = 0u32;
    for text in content
        .strip_suffix('\n')
        .unwrap_or(content)
        .split(LINE_ENDS.as_slice())
    {
        push_line(alloc, number, count_of(lines, number), text, out)?;
        number = number.saturating_add(1);
    }
    Ok(out.push_str("</table>\n")?)
}

/// Appends which lines of an original without a content did not run.
fn push_missed_lines(alloc: Global, lines: &[(u32, u64)], out: &mut String) -> Outcome<()> {
    out.push_str("<p>The map has no content of it. Lines that did not run: ")?;
    if lines.iter().all(|line| line.1 > 0) {
        out.push_str("none")?;
    }
    push_missed(alloc, lines, out)?;
    Ok(out.push_str("</p>\n")?)
}

/// Appends which functions of an original did not run.
fn push_missed_functions(alloc: Global, parts: &Parts, out: &mut String) -> Outcome<()> {
    let mut separator = "<p>Functions that did not run: ";
    for (line, name) in &parts.missed_functions(alloc)? {
        out.push_str(separator)?;
        push_text(name, out)?;
        let line = u64::from(*line) + 1;
        out.push_str(format!(in alloc; " (line {line})")?.as_str())?;
        separator = ", ";
    }
    let end = if separator == ", " { "</p>\n" } else { "" };
    Ok(out.push_str(end)?)
}

/// Appends on which lines of an original branches did not run.
fn push_missed_branches(alloc: Global, parts: &Parts, out: &mut String) -> Outcome<()> {
    let mut separator = "<p>Branches did not run on lines ";
    for line in &parts.missed_branches(alloc)? {
        out.push_str(separator)?;
        let line = u64::from(*line) + 1;
        out.push_str(format!(in alloc; "{line}")?.as_str())?;
        separator = ", ";
    }
    let end = if separator == ", " { "</p>\n" } else { "" };
    Ok(out.push_str(end)?)
}

/// Appends the originals.
fn push_originals(
    alloc: Global,
    sources: &Totals,
    parts: &AllParts,
    contents: &Contents,
    out: &mut String,
) -> Outcome<()> {
    let mut number = 0u64;
    for (source, lines) in sources {
        let lines = counted_lines(alloc, lines)?;
        out.push_str(format!(in alloc; "<h2 id=\"s{number}\">")?.as_str())?;
        push_path(alloc, source.as_str(), out)?;
        out.push_str("</h2>\n")?;
        if let Some(parts) = parts.get(source.as_str()) {
            push_missed_functions(alloc, parts, out)?;
            push_missed_branches(alloc, parts, out)?;
        }
        match contents.get(source.as_str()) {
            Some(content) => push_content(alloc, content.as_str(), lines.as_slice(), out)?,
            None => push_missed_lines(alloc, lines.as_slice(), out)?,
        }
        number = number.saturating_add(1);
    }
    Ok(())
}

/// The page.
pub(crate) fn page_of(
    alloc: Global,
    sources: &Totals,
    parts: &AllParts,
    contents: &Contents,
) -> Outcome<String> {
    let mut out = String::from_str(alloc, HEAD)?;
    push_rows(alloc, sources, parts, &mut out)?;
    out.push_str(MIDDLE)?;
    push_originals(alloc, sources, parts, contents, &mut out)?;
    Ok(out)
}

/// Adds the contents of the sources of a map, by their paths.
pub(crate) fn add_content(
    alloc: Global,
    contents: &mut Contents,
    path: &str,
    content: &str,
) -> Result<(), AllocError> {
    if !contents.contains_key(path) {
        let path = String::from_str(alloc, path)?;
        let _ = contents.insert(path, String::from_str(alloc, content)?)?;
    }
    Ok(())
}
