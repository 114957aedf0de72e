//! Maps of what has none: a code mapped to itself, and a text that comes from nowhere.
use oxc_sourcemap_parts::SourceMapParts;
use oxc_sourcemap_tokens::{Result, Token};
use sourcemap_run::{line_ends, with_line_end};
use std::alloc::Global;
use std::borrow::CowStr;

/// A map of one token, at the beginning, that points to nothing: what is before it ends there.
pub fn stop(alloc: Global) -> Result<SourceMapParts<'static>> {
    let mut parts = SourceMapParts::empty(alloc)?;
    let mut tokens = Vec::new(alloc);
    tokens.push(Token::new(0, 0, 0, 0, None, None))?;
    parts.tokens = tokens.into_boxed_slice();
    Ok(parts)
}

/// A map that covers its code from the beginning on: where it does not, with a token that points to nothing. Else those who look for a
/// token on lines before that of a position would find one of the code before.
pub fn with_stop(alloc: Global, parts: SourceMapParts<'static>) -> Result<SourceMapParts<'static>> {
    let mut parts = parts;
    let first = parts.tokens.as_slice().first();
    if first.is_some_and(|token| token.get_dst_line() == 0 && token.get_dst_col() == 0) {
        return Ok(parts);
    }
    let mut tokens = Vec::new(alloc);
    tokens.push(Token::new(0, 0, 0, 0, None, None))?;
    tokens.extend_from_slice(parts.tokens.as_slice())?;
    parts.tokens = tokens.into_boxed_slice();
    parts.token_chunks = None;
    Ok(parts)
}

/// The map of a code to the file that it is in: each line of the code comes from the same line of the file.
pub fn mapped_to_itself(
    alloc: Global,
    source: &str,
    content: &str,
    code: &str,
) -> Result<SourceMapParts<'static>> {
    let mut parts = SourceMapParts::empty(alloc)?;
    let source = String::from_str(alloc, source)?;
    parts.sources.push(CowStr::Owned(source))?;
    let content = String::from_str(alloc, content)?;
    parts.source_contents.push(Some(CowStr::Owned(content)))?;
    let mut tokens = Vec::new(alloc);
    for line in 0..line_ends(alloc, with_line_end(alloc, code)?.as_str())? {
        tokens.push(Token::new(line, 0, line, 0, Some(0), None))?;
    }
    parts.tokens = tokens.into_boxed_slice();
    Ok(parts)
}
