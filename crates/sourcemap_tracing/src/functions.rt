//! The names in the source of the functions of a code, where a map has no scopes: by the mapping at the name of the function in the
//! code, or at the call of it.
use crate::brackets::{goes_on, is_of_identifier};
use crate::code::Code;
use oxc_sourcemap_tokens::{Position, Token};
use std::alloc::{AllocError, Global};

/// How many tokens before a position are looked at.
const MOST_TOKENS: usize = 256;
/// How many bytes before a position a function may begin.
const MOST_BYTES: usize = 16384;

/// Whether a text is an identifier.
fn is_identifier(text: &str) -> bool {
    let first = text.bytes().next().unwrap_or(b'0');
    text.bytes().all(is_of_identifier) && !first.is_ascii_digit()
}

/// The identifier by which a code names the function that a frame names: `e` of `Object.e [as f]`. None if the function has none.
pub fn identifier_of(function: &str) -> Option<&str> {
    let name = function.split(" [as ").next().unwrap_or("");
    let last = name.rsplit('.').next().unwrap_or("");
    if is_identifier(last) {
        Some(last)
    } else {
        None
    }
}

fn position_of(token: &Token) -> Position {
    Position {
        line: token.get_dst_line(),
        column: token.get_dst_col(),
    }
}

/// The text behind an identifier that is at a byte of a code; None if another one or none is there.
fn behind_identifier<'t>(text: &'t str, at: usize, identifier: &str) -> Option<&'t str> {
    let rest = text.get(at..)?.strip_prefix(identifier)?;
    let next = rest.bytes().next().unwrap_or(b' ');
    if is_of_identifier(next) {
        None
    } else {
        Some(rest)
    }
}

/// Whether a text ends in a word.
fn ends_in(text: &str, word: &str) -> bool {
    text.strip_suffix(word).is_some_and(|front| !front.bytes().last().is_some_and(is_of_identifier))
}

/// Whether a text begins with a word.
fn begins_with(text: &str, word: &str) -> bool {
    behind_identifier(text, 0, word).is_some()
}

/// Whether the value at the beginning of a text is a function or a class.
fn is_function(text: &str) -> bool {
    let text = match behind_identifier(text, 0, "async") {
        Some(rest) => rest.trim_start(),
        None => text,
    };
    if begins_with(text, "function") || begins_with(text, "class") {
        return true;
    }
    let parameters = match text.strip_prefix('(') {
        Some(rest) => rest.split_once(')').map_or("", |(_, behind)| behind),
        None => text.trim_start_matches(|ch: char| ch == '_' || ch == '$' || ch.is_alphanumeric()),
    };
    parameters.len() < text.len() && parameters.trim_start().starts_with("=>")
}

/// Whether a code names a function or a class by what is between these texts.
fn declares(before: &str, behind: &str) -> bool {
    let front = before.trim_end();
    let front = front.strip_suffix('*').unwrap_or(front).trim_end();
    if ends_in(front, "function") || ends_in(front, "class") {
        return true;
    }
    match behind.trim_start().strip_prefix('=') {
        Some(value) if !value.starts_with(['=', '>'].as_slice()) => {
            is_function(value.trim_start())
        }
        _ => false,
    }
}

/// How many tokens are at or before a position.
fn count_before(tokens: &[Token], position: Position) -> usize {
    tokens.partition_point(|token| {
        let at = position_of(token);
        at.line < position.line || at.line == position.line && at.column <= position.column
    })
}

/// The id of the name in the source of the function with this identifier that a position of a code is in: that of the mapping at its name
/// there. None if it is not found close before the position.
pub fn declared_name(
    alloc: Global,
    tokens: &[Token],
    code: &Code,
    position: Position,
    identifier: &str,
) -> Result<Option<u32>, AllocError> {
    let Some(place) = code.byte_at(position) else {
        return Ok(None);
    };
    // (what is behind the position does not count, and is not looked at)
    let text = code.text.as_str().get(..place).unwrap_or("");
    let first = identifier.bytes().next();
    let count = count_before(tokens, position);
    let near = tokens.get(..count).unwrap_or(&[]);
    for token in near.iter().rev().take(MOST_TOKENS) {
        let Some(at) = code.byte_at(position_of(token)) else {
            continue;
        };
        if place.saturating_sub(at) > MOST_BYTES {
            break;
        }
        if text.as_bytes().get(at).copied() != first {
            continue; // (most tokens are at something else)
        }
        let Some(behind) = behind_identifier(text, at, identifier) else {
            continue;
        };
        let before = text.get(..at).unwrap_or("");
        let start = at.saturating_add(identifier.len());
        if declares(before, behind) && goes_on(alloc, text, start, place)? {
            return Ok(token.get_name_id());
        }
    }
    Ok(None)
}

/// The id of the name in the source of the function with this identifier that is called at a position: that of the mapping right there.
/// None if there is none, or if the code, where it is known, calls something else there.
pub fn called_name(
    tokens: &[Token],
    code: Option<&Code>,
    position: Position,
    identifier: &str,
) -> Option<u32> {
    if let Some(code) = code {
        behind_identifier(code.text.as_str(), code.byte_at(position)?, identifier)?;
    }
    let last = count_before(tokens, position).checked_sub(1)?;
    let token = tokens.get(last)?;
    if token.get_dst_line() == position.line && token.get_dst_col() == position.column {
        token.get_name_id()
    } else {
        None
    }
}
