//! Positions in words: `LINE:COLUMN`.
use oxc_sourcemap_tokens::Position;
use sourcemap_texts::position_of;
use sourcemap_words::{Failure, Outcome, failure_of};
use std::alloc::Global;

fn bad_position(alloc: Global, subject: &str, word: &str, base: u32) -> Failure {
    let wanted = match format!(in alloc;
        "{word:?} is no position: write LINE:COLUMN, numbers from {base} on"
    ) {
        Ok(wanted) => wanted,
        Err(_) => return Failure::Memory,
    };
    failure_of(alloc, subject, wanted.as_str())
}

/// The positions of some words.
pub fn positions_in(alloc: Global, words: &[&str], base: u32) -> Outcome<Vec<Position>> {
    let mut positions = Vec::new(alloc);
    for word in words {
        match position_of(word, base) {
            Some(position) => positions.push(position)?,
            None => return Err(bad_position(alloc, "the arguments", word, base)),
        }
    }
    Ok(positions)
}

/// The position in a line of standard input; None if the line is empty. `number` is the line's, from 1, for messages.
pub fn position_of_line(
    alloc: Global,
    line: &[u8],
    number: usize,
    base: u32,
) -> Outcome<Option<Position>> {
    let subject = format!(in alloc; "standard input, line {number}")?;
    let text = match std::str::from_utf8(line) {
        Ok(text) => text,
        Err(error) => {
            let at = error.valid_up_to();
            let text = format!(in alloc;
                "is not UTF-8 at byte {at} of the line: convert it first"
            )?;
            return Err(failure_of(alloc, subject.as_str(), text.as_str()));
        }
    };
    let word = text.trim();
    if word.is_empty() {
        return Ok(None);
    }
    match position_of(word, base) {
        Some(position) => Ok(Some(position)),
        None => Err(bad_position(alloc, subject.as_str(), word, base)),
    }
}
