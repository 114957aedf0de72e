//! Texts of at most so many bytes. What cannot be written, or has too many lines, is found before anything is.
ghost use Rattle.std.specs.Prelude.{◌≡◌, Ok, string_bytes};
ghost use Rattle.oxc_sourcemap_json.specs.Words.{record_of_parts, lent_chunks, writing_fault};
ghost use Rattle.oxc_sourcemap_json.specs.Words.{last_line, within, map_text_within};
ghost use Rattle.oxc_sourcemap_json.specs.Words.{map_url_within, mappings_within, early_fault};
ghost use Rattle.oxc_sourcemap_json.specs.Words.{Answers, Gives, Reports, unless};

use crate::write::encode::chunks_of;
use crate::write::json_text::{encode_parts_to_data_url, encode_parts_to_string};
use oxc_sourcemap_mappings::encode_mappings;
use oxc_sourcemap_parts::SourceMapParts;
use oxc_sourcemap_tokens::{Error, Result, Token, TokenChunk, chunk_fault, line_order_fault};
use std::alloc::Global;

/// The generated line of the last token, or 0 if there is none.
fn last_line(tokens: &[Token]) -> u32
    ensures { result ≡ last_line 0 tokens.now }
{
    match tokens.last() {
        Some(token) => token.get_dst_line(),
        None => 0,
    }
}

/// The fault of tokens that are to be written in these chunks.
fn writing_fault(tokens: &[Token], chunks: Option<&[TokenChunk]>) -> Option<Error>
    ensures { result ≡ writing_fault tokens.now (lent_chunks chunks.entry) }
{
    if let Some(i) = line_order_fault(tokens) {
        return Some(Error::LineOrder(i));
    }
    if let Some(chunks) = chunks {
        if let Some(k) = chunk_fault(tokens, chunks) {
            return Some(Error::BadChunks(k));
        }
    }
    if tokens.len() > 4294967295 {
        return Some(Error::TooLarge);
    }
    None
}

/// Fails where tokens cannot be written, or would make more lines than `limit`. Takes no memory.
fn check_early(tokens: &[Token], chunks: Option<&[TokenChunk]>, limit: usize) -> Result<()>
    ensures { result ≡ unless (early_fault limit tokens.now (lent_chunks chunks.entry)) (Ok tt) }
{
    if let Some(fault) = writing_fault(tokens, chunks) {
        return Err(fault);
    }
    if last_line(tokens) as usize > limit {
        return Err(Error::TooLarge);
    }
    Ok(())
}

/// The text, if it has at most `limit` bytes, and else `TooLarge`.
fn check_length(text: String, limit: usize) -> Result<String>
    ensures { Gives (λ t. string_bytes t) result (within limit (Ok (string_bytes text))) }
{
    if text.len() > limit {
        return Err(Error::TooLarge);
    }
    Ok(text)
}

/// The canonical `mappings` text of tokens, as `encode_mappings` writes it, if it has at most `limit` bytes.
///
/// ```rust
/// use oxc_sourcemap::{Error, Token, encode_mappings_within};
///
/// let tokens = [Token::new(2, 0, 5, 3, Some(0), None)];
/// assert_eq!(rt; encode_mappings_within(alloc, &tokens, None, 6)?.as_str(), ";;AAKG");
/// assert!(rt; matches!(encode_mappings_within(alloc, &tokens, None, 5), Err(Error::TooLarge)));
/// ```
///
/// Fails as `encode_mappings` does, and then with `TooLarge` for a longer text. Each line before that of the last token is a
/// byte: if these are more than `limit`, the call fails before it writes anything.
pub fn encode_mappings_within(
    alloc: Global,
    tokens: &[Token],
    chunks: Option<&[TokenChunk]>,
    limit: usize,
) -> Result<String>
    ensures text { Answers string_bytes result
        (mappings_within limit tokens.now (lent_chunks chunks.entry)) }
    ensures early { Reports (early_fault limit tokens.now (lent_chunks chunks.entry)) result }
{
    check_early(tokens, chunks, limit)?;
    let mut text = String::new(alloc);
    encode_mappings(tokens, chunks, &mut text)?;
    check_length(text, limit)
}

/// The JSON text of a map, as `encode_parts_into` writes it, if it has at most `limit` bytes. Fails as `encode_parts` does, and
/// then with `TooLarge` for a longer text; where lines alone make it longer, before anything is written.
pub fn encode_parts_to_string_within(
    alloc: Global,
    parts: &SourceMapParts<'_>,
    limit: usize,
) -> Result<String>
    ensures text { Answers string_bytes result (map_text_within limit (record_of_parts parts.now)) }
    ensures early { let r = record_of_parts parts.now in
        Reports (early_fault limit r.tokens r.token_chunks) result }
{
    check_early(parts.tokens.as_slice(), chunks_of(parts), limit)?;
    let text = encode_parts_to_string(alloc, parts)?;
    check_length(text, limit)
}

/// The data URL of the JSON text of a map, as `encode_parts_to_data_url` writes it, if the URL has at most `limit` bytes. Fails
/// as `encode_parts_to_string_within` does.
pub fn encode_parts_to_data_url_within(
    alloc: Global,
    parts: &SourceMapParts<'_>,
    limit: usize,
) -> Result<String>
    ensures text { Answers string_bytes result (map_url_within limit (record_of_parts parts.now)) }
    ensures early { let r = record_of_parts parts.now in
        Reports (early_fault limit r.tokens r.token_chunks) result }
{
    check_early(parts.tokens.as_slice(), chunks_of(parts), limit)?;
    let url = encode_parts_to_data_url(alloc, parts)?;
    check_length(url, limit)
}
