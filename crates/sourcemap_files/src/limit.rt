//! The greatest length of a written map.
use crate::asked::Asked;
use oxc_sourcemap_json::encode_parts_to_string_within;
use oxc_sourcemap_parts::SourceMapParts;
use oxc_sourcemap_tokens::Error;
use sourcemap_words::{Failure, Outcome, failure_of};
use std::alloc::Global;

/// How many bytes a word means: a number, or one with `K`, `M` or `G`, which are 1,024 and its powers.
fn bytes_of(word: &str) -> Option<u64> {
    let (digits, unit): (&str, u64) = if let Some(digits) = word.strip_suffix('K') {
        (digits, 1024)
    } else if let Some(digits) = word.strip_suffix('M') {
        (digits, 1_048_576)
    } else if let Some(digits) = word.strip_suffix('G') {
        (digits, 1_073_741_824)
    } else {
        (word, 1)
    };
    if !digits.bytes().all(|byte| byte.is_ascii_digit()) {
        return None;
    }
    match digits.parse::<u64>() {
        Ok(number) => number.checked_mul(unit),
        Err(_) => None,
    }
}

/// The most bytes that a map may have: the word of `--limit`.
pub fn limit_of(asked: &Asked<'_, '_>) -> Outcome<u64> {
    let word = asked.word("limit");
    match bytes_of(word) {
        Some(limit) => Ok(limit),
        None => {
            let max = u64::MAX;
            let text = format!(in asked.alloc();
                "{word:?} is no number of bytes from 0 to {max}: write one as 1000, 64K, 256M or 2G"
            )?;
            Err(failure_of(asked.alloc(), "--limit", text.as_str()))
        }
    }
}

fn too_long(alloc: Global, path: &str, limit: u64) -> Failure {
    match format!(in alloc; "the map would be above {limit} bytes: allow more by --limit") {
        Ok(text) => failure_of(alloc, path, text.as_str()),
        Err(_) => Failure::Memory,
    }
}

/// The text of a map that is written to a file, with a line feed. Fails if it would be above the limit.
pub fn limited_json(
    alloc: Global,
    path: &str,
    map: &SourceMapParts<'_>,
    limit: u64,
) -> Outcome<String> {
    let room = limit.saturating_sub(1) as usize;
    let mut text = match encode_parts_to_string_within(alloc, map, room) {
        Ok(text) => text,
        Err(Error::TooLarge) => return Err(too_long(alloc, path, limit)),
        Err(error) => return Err(Failure::from(error)),
    };
    text.push('\n')?;
    Ok(text)
}
