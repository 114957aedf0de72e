//! Whether tokens are sorted, and whether a map is sound.
ghost use Rattle.std.specs.Prelude.{◌≡◌, ◌↔◌, ◌<◌, IsTrue, IfSome};
ghost use Rattle.std.specs.List.{AllByRecursion};
ghost use Rattle.oxc_sourcemap_parts.specs.Words.{IsInLineOrder, ChunksFit, chunks_of, ids_of};
ghost use Rattle.oxc_sourcemap_parts.specs.Words.{record_of_parts, are_tokens_sorted, may_precede};
ghost use Rattle.oxc_sourcemap_parts.specs.Words.{token_line, token_column, IsInRange, IsSound};

use crate::parts::SourceMapParts;
use oxc_sourcemap_tokens::{Token, TokenChunk, chunk_fault};

/// Whether a token may come before another in a sorted list.
fn precedes(first: &Token, second: &Token) -> bool
    ensures { result ≡ may_precede token_line token_column first.now second.now }
{
    first.get_dst_line() < second.get_dst_line()
        || (first.get_dst_line() == second.get_dst_line()
            && first.get_dst_col() <= second.get_dst_col())
}

/// Whether tokens are sorted by generated line, then by generated column. Equal positions may follow one another.
pub fn are_sorted(tokens: &[Token]) -> bool
    ensures sorted { result ≡ are_tokens_sorted tokens.now }
    ensures in_line_order { IsTrue result → IsInLineOrder tokens.now }
{
    for i in 1..tokens.len() {
        if !precedes(&tokens[i - 1], &tokens[i]) {
            return false;
        }
    }
    true
}

/// Whether the ids of a token, where it has them, are below these counts.
fn is_in_range(token: &Token, names: usize, sources: usize) -> bool
    ensures { IsTrue result ↔ IsInRange names sources token.now }
{
    let is_source_there = match token.get_source_id() {
        Some(id) => (id as usize) < sources,
        None => true,
    };
    let is_name_there = match token.get_name_id() {
        Some(id) => (id as usize) < names,
        None => true,
    };
    is_source_there && is_name_there
}

/// Whether the ids of all tokens, where they have them, are below these counts.
fn are_in_range(tokens: &[Token], names: usize, sources: usize) -> bool
    ensures { IsTrue result ↔ AllByRecursion (IsInRange names sources) tokens.now }
{
    for token in tokens {
        if !is_in_range(token, names, sources) {
            return false;
        }
    }
    true
}

/// Whether each id of a list is below a count.
fn are_below(ids: &[u32], count: usize) -> bool
    ensures { IsTrue result ↔ AllByRecursion (λ id. id < count) ids.now }
{
    for id in ids {
        if *id as usize >= count {
            return false;
        }
    }
    true
}

/// Whether an ignore list is absent, or all its ids are below a count.
fn is_list_below(list: &Option<Vec<u32>>, count: usize) -> bool
    ensures { IsTrue result ↔ IfSome (ids_of list.now) (AllByRecursion (λ id. id < count)) }
{
    match list {
        Some(ids) => are_below(ids.as_slice(), count),
        None => true,
    }
}

/// Whether chunks are absent or fit the tokens.
fn do_chunks_fit(tokens: &[Token], chunks: &Option<Vec<TokenChunk>>) -> bool
    ensures { IsTrue result ↔ IfSome (chunks_of chunks.now) (ChunksFit tokens.now) }
{
    match chunks {
        Some(chunks) => chunk_fault(tokens, chunks.as_slice()).is_none(),
        None => true,
    }
}

/// Whether the map of these parts is sound: its tokens are sorted, its ids and the entries of its ignore list are in range,
/// and its chunks are absent or fit.
pub fn are_sound(parts: &SourceMapParts<'_>) -> bool
    ensures { IsTrue result ↔ IsSound (record_of_parts parts.now) }
{
    let tokens = parts.tokens.as_slice();
    are_sorted(tokens)
        && are_in_range(tokens, parts.names.len(), parts.sources.len())
        && is_list_below(&parts.ignore_list, parts.sources.len())
        && do_chunks_fit(tokens, &parts.token_chunks)
}
