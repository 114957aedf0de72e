//! Chunks that fit tokens.
ghost use Rattle.std.specs.Prelude.{◌≡◌, ◌↔◌, ◌≤◌, length, IsNone};
ghost use Rattle.oxc_sourcemap_tokens.specs.Words.{state_at, header, chunk_tokens, chunk_from};
ghost use Rattle.oxc_sourcemap_tokens.specs.Words.{is_same_state, first_misfit, ChunksFit};
ghost use Rattle.oxc_sourcemap_tokens.specs.Words.{state_of};

use crate::state::{Previous, after_all};
use crate::token::{Token, TokenChunk};

/// Whether a state is the header of a chunk.
fn is_header_of(chunk: &TokenChunk, previous: &Previous) -> bool
    ensures { result ≡ is_same_state (header chunk.now) (state_of previous.now) }
{
    chunk.prev_dst_line == previous.dst_line
        && chunk.prev_dst_col == previous.dst_col
        && chunk.prev_source_id == previous.source_id
        && chunk.prev_src_line == previous.src_line
        && chunk.prev_src_col == previous.src_col
        && chunk.prev_name_id == previous.name_id
}

/// Checks that chunks fit the tokens: None if they do, else the index of the first chunk that does not, or the number of
/// chunks if only tokens are left over.
///
/// ```rust
/// use oxc_sourcemap::{Token, TokenChunk, chunk_fault};
///
/// let tokens = [Token::new(0, 0, 5, 3, Some(0), None), Token::new(1, 0, 5, 4, Some(0), None)];
/// let first = TokenChunk::new(0, 1, 0, 0, 0, 0, 0, 0);
/// let second = TokenChunk::new(1, 2, 0, 0, 5, 3, 0, 0);
/// assert_eq!(rt; chunk_fault(&tokens, &[first.clone()?]), Some(1));
/// assert_eq!(rt; chunk_fault(&tokens, &[first, second]), None);
/// ```
///
/// A chunk fits if it begins where the one before it ends (the first at 0), ends neither before it starts nor past the
/// tokens, and its header is the state there (docs/FORMAT.md, "Chunks"). The tokens may be in any order. Takes no memory.
pub fn chunk_fault(tokens: &[Token], chunks: &[TokenChunk]) -> Option<usize>
    ensures misfit { result ≡ first_misfit tokens.now chunks.now }
    ensures fits { IsNone result ↔ ChunksFit tokens.now chunks.now }
{
    let mut previous = Previous::new();
    let mut done: usize = 0;
    for (k, chunk) in chunks.iter().enumerate() {
        let start = chunk.start as usize;
        let end = chunk.end as usize;
        if start != done || start > end || end > tokens.len() {
            return Some(k);
        }
        if !is_header_of(chunk, &previous) {
            return Some(k);
        }
        previous = after_all(previous, &tokens[start..end]);
        done = end;
    }
    if done == tokens.len() {
        None
    } else {
        Some(chunks.len())
    }
}

/// The tokens of a chunk.
pub fn tokens_of<'t>(tokens: &'t [Token], chunk: &TokenChunk) -> &'t [Token]
    requires ordered { chunk.now.start ≤ chunk.now.end }
    requires within { chunk.now.end ≤ length tokens.now }
    ensures { result.now ≡ chunk_tokens tokens.now chunk.now }
{
    &tokens[chunk.start as usize..chunk.end as usize]
}

/// The state after all tokens, found from the last of the chunks, which fit them.
fn after_chunks(tokens: &[Token], chunks: &[TokenChunk]) -> Previous
    requires { ChunksFit tokens.now chunks.now }
    ensures { state_of result ≡ state_at tokens.now (length tokens.now) }
{
    match chunks.last() {
        Some(chunk) => after_all(Previous::header_of(chunk), tokens_of(tokens, chunk)),
        None => Previous::new(),
    }
}

/// The next chunk after chunks that fit the tokens: it starts at the end of the tokens, with the state there as its header,
/// and ends at `end`. It reads only tokens of the last chunk, back from its end to a mapped one and a mapped one with a name.
pub fn next_chunk(tokens: &[Token], chunks: &[TokenChunk], end: u32) -> TokenChunk
    requires fits { ChunksFit tokens.now chunks.now }
    requires counted { length tokens.now ≤ 4294967295 }
    ensures { result ≡ chunk_from (state_at tokens.now (length tokens.now))
        (length tokens.now) end }
{
    let reached = after_chunks(tokens, chunks);
    TokenChunk::new(
        tokens.len() as u32,
        end,
        reached.dst_line,
        reached.dst_col,
        reached.src_line,
        reached.src_col,
        reached.name_id,
        reached.source_id,
    )
}
