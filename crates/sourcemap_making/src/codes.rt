//! Texts of codes, as they follow one another in a bundle.
use oxc_sourcemap_text::{Language, source_mapping_comment};
use sourcemap_run::{LINE_ENDS, debug_id_in_line, tail_start};
use std::alloc::{AllocError, Global};

/// What can continue an expression that is before it on another line.
const GOES_ON: [char; 9] = ['(', '[', '`', '+', '-', '/', '*', ',', '.'];

/// What no statement that ends needs a semicolon behind, or what none ends with.
const ENDED: [char; 18] = [
    ';', '{', '(', '[', ',', '=', ':', '?', '&', '|', '^', '~', '!', '<', '>', '*', '%', '.',
];

/// Appends a text from further behind. A space keeps two ends of lines from being one.
fn push_behind(text: &str, code: &mut String) -> Result<(), AllocError> {
    if code.ends_with('\r') && text.starts_with('\n') {
        code.push(' ')?;
    }
    code.push_str(text)
}

/// A code without the comment that names its map, which would be named in the middle of the bundle. Its line stays.
fn without_comment(alloc: Global, code: &str, language: Language) -> Result<String, AllocError> {
    let Some(found) = source_mapping_comment(code, language) else {
        return String::from_str(alloc, code);
    };
    let mut kept = String::from_str(alloc, found.front)?;
    push_behind(found.back, &mut kept)?;
    Ok(kept)
}

/// A code without the comments at its end that give it the id of its map, since the map of the bundle has none of these. Their lines stay.
fn without_debug_ids(alloc: Global, code: &str) -> Result<String, AllocError> {
    let (front, tail) = code
        .split_at_checked(tail_start(code))
        .unwrap_or((code, ""));
    let mut kept = String::from_str(alloc, front)?;
    for line in tail.split_inclusive(LINE_ENDS.as_slice()) {
        if debug_id_in_line(line).is_some() {
            push_behind(line.get(line.trim_end().len()..).unwrap_or(""), &mut kept)?;
        } else {
            kept.push_str(line)?;
        }
    }
    Ok(kept)
}

/// A code without the comments that tie it to its own map.
pub fn without_map_comments(
    alloc: Global,
    code: &str,
    language: Language,
) -> Result<String, AllocError> {
    let code = without_comment(alloc, code, language)?;
    match language {
        Language::JavaScript => without_debug_ids(alloc, code.as_str()),
        Language::Css => Ok(code),
    }
}

/// The line that names the program that runs a script, without its end; empty if there is none. It may be at the very beginning alone.
pub fn hashbang_of(code: &str) -> &str {
    if !code.starts_with("#!") {
        return "";
    }
    let end = code.find(LINE_ENDS.as_slice()).unwrap_or(code.len());
    code.get(..end).unwrap_or("")
}

/// What is behind a comment that a text begins with.
fn behind_comment(text: &str) -> Option<&str> {
    if let Some(inner) = text.strip_prefix("/*") {
        return Some(inner.split_once("*/").map_or("", |(_, rest)| rest));
    }
    let line = text.strip_prefix("//")?;
    let end = line.find(LINE_ENDS.as_slice()).unwrap_or(line.len());
    line.get(end..)
}

/// The first character of a code behind white space and comments.
fn first_character(code: &str) -> Option<char> {
    let mut rest = code.trim_start();
    for _ in 0..code.len() {
        match behind_comment(rest) {
            Some(behind) => rest = behind.trim_start(),
            None => break,
        }
    }
    rest.chars().next()
}

/// What is before a comment that a text ends with. None if it cannot be found without reading all of the code.
fn before_comment(text: &str) -> Option<&str> {
    let start = text.rfind(LINE_ENDS.as_slice()).unwrap_or(0);
    let line = text.get(start..).unwrap_or("");
    if line.trim_start().starts_with("//") {
        return text.get(..start);
    }
    let (front, inner) = text.strip_suffix("*/")?.rsplit_once("/*")?;
    if inner.contains("*/") {
        return None;
    }
    Some(front)
}

/// The last character of a code before white space and comments. None if it cannot be found.
fn last_character(code: &str) -> Option<char> {
    let mut rest = code.trim_end();
    for _ in 0..code.len() {
        match before_comment(rest) {
            Some(before) => rest = before.trim_end(),
            None => break,
        }
    }
    let start = rest.rfind(LINE_ENDS.as_slice()).unwrap_or(0);
    if rest.get(start..).is_some_and(|line| line.contains("//")) {
        return None;
    }
    rest.chars().next_back()
}

/// Whether two scripts would run together where one follows the other: the second begins with what can go on with the expression that the
/// first may end with.
pub fn run_together(first: &str, second: &str) -> bool {
    let goes_on = first_character(second).is_some_and(|ch| GOES_ON.contains(&ch));
    goes_on && last_character(first).is_none_or(|ch| !ENDED.contains(&ch))
}
