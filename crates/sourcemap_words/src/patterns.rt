//! Patterns of paths, as shells expand them.
use crate::failure::{Outcome, failure_of};
use regex::Regex;
use std::alloc::{AllocError, Global};

/// What stands for other characters in a pattern.
const WILDCARDS: [char; 2] = ['*', '?'];

/// What has a meaning of its own in a regular expression.
const SPECIAL: &str = "\\.+*?()|[]{}^$";

/// A pattern of paths. In a part of a path `*` stands for any characters, and `?` for one; the part `**` stands for any number of folders.
#[derive(Drop)]
pub struct PathPattern {
    /// The folder of all paths that match, with a slash at its end: the parts before the first one with a wildcard. Empty for the current
    /// folder.
    pub folder: String,
    regex: Regex,
}

/// Appends a part of a pattern, as a regular expression.
fn push_part(part: &str, out: &mut String) -> Result<(), AllocError> {
    for ch in part.chars() {
        match ch {
            '*' => out.push_str("[^/]*")?,
            '?' => out.push_str("[^/]")?,
            _ => {
                if SPECIAL.contains(ch) {
                    out.push('\\')?;
                }
                out.push(ch)?;
            }
        }
    }
    Ok(())
}

/// A pattern as a regular expression of whole paths. `**` at its end stands for the files in the folders too.
fn expression_of(alloc: Global, pattern: &str) -> Result<String, AllocError> {
    let mut out = String::from_str(alloc, "^")?;
    let mut is_behind_name = false;
    for part in pattern.split('/') {
        if is_behind_name {
            out.push('/')?;
        }
        is_behind_name = part != "**";
        if is_behind_name {
            push_part(part, &mut out)?;
        } else {
            out.push_str("(?:[^/]+/)*")?;
        }
    }
    if pattern == "**" || pattern.ends_with("/**") {
        out.push_str("[^/]+")?;
    }
    out.push('$')?;
    Ok(out)
}

impl PathPattern {
    /// The pattern that a word is; None if it has no wildcard.
    pub fn new(alloc: Global, word: &str) -> Outcome<Option<PathPattern>> {
        let Some(at) = word.find(WILDCARDS.as_slice()) else {
            return Ok(None);
        };
        let front = word.get(..at).unwrap_or("");
        let len = front.rfind('/').map_or(0, |slash| slash.saturating_add(1));
        let folder = String::from_str(alloc, front.get(..len).unwrap_or(""))?;
        match Regex::new(alloc, expression_of(alloc, word)?.as_str()) {
            Ok(regex) => Ok(Some(PathPattern { folder, regex })),
            Err(error) => Err(failure_of(alloc, word, error)),
        }
    }

    /// Those of some paths that match.
    pub fn matching(&self, alloc: Global, paths: Vec<String>) -> Result<Vec<String>, AllocError> {
        let mut matcher = self.regex.matcher(alloc)?;
        let mut matching = paths;
        matching.retain(|path| matcher.is_match(path.as_str()));
        Ok(matching)
    }
}
