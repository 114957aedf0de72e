//! The state that the deltas of a token start from, carried from token to token.
ghost use Rattle.std.specs.Prelude.{◌≡◌};
ghost use Rattle.oxc_sourcemap_tokens.specs.Words.{mapped_name, initial, header, state_of};
ghost use Rattle.oxc_sourcemap_tokens.specs.Words.{advanced, advanced_all, source_given};
ghost use Rattle.oxc_sourcemap_tokens.specs.Words.{last_given};

use crate::token::{Token, TokenChunk};

/// The state before a token, which its deltas start from (docs/FORMAT.md, "Chunks"): the generated position of the token
/// before, the source id and source position of the nearest mapped token before, and the nearest name id of a mapped one.
#[derive(Clone, Copy, Drop)]
pub struct Previous {
    /// The generated line.
    pub dst_line: u32,
    /// The generated column.
    pub dst_col: u32,
    /// The source id.
    pub source_id: u32,
    /// The source line.
    pub src_line: u32,
    /// The source column.
    pub src_col: u32,
    /// The name id.
    pub name_id: u32,
}

impl Previous {
    /// The state before the first token of a list: all 0.
    pub fn new() -> Self
        ensures { state_of result ≡ initial }
    {
        Self {
            dst_line: 0,
            dst_col: 0,
            source_id: 0,
            src_line: 0,
            src_col: 0,
            name_id: 0,
        }
    }

    /// The state that a chunk is written from: its header.
    pub fn header_of(chunk: &TokenChunk) -> Self
        ensures { state_of result ≡ header chunk.now }
    {
        Self {
            dst_line: chunk.prev_dst_line,
            dst_col: chunk.prev_dst_col,
            source_id: chunk.prev_source_id,
            src_line: chunk.prev_src_line,
            src_col: chunk.prev_src_col,
            name_id: chunk.prev_name_id,
        }
    }

    /// The state after one more token.
    pub fn after(&self, token: &Token) -> Self
        ensures { state_of result ≡ advanced (state_of self.now) token.now }
    {
        match token.get_source_id() {
            Some(source_id) => Self {
                dst_line: token.get_dst_line(),
                dst_col: token.get_dst_col(),
                source_id,
                src_line: token.get_src_line(),
                src_col: token.get_src_col(),
                name_id: token.get_name_id().unwrap_or(self.name_id),
            },
            None => Self {
                dst_line: token.get_dst_line(),
                dst_col: token.get_dst_col(),
                ..*self
            },
        }
    }
}

/// The source id, line and column of a token, if it is mapped.
fn source_of(token: &Token) -> Option<(u32, u32, u32)>
    ensures { result ≡ source_given token.now }
{
    match token.get_source_id() {
        Some(id) => Some((id, token.get_src_line(), token.get_src_col())),
        None => None,
    }
}

/// The source id, line and column of the last of these tokens that is mapped.
fn last_source(tokens: &[Token]) -> Option<(u32, u32, u32)>
    ensures { result ≡ last_given source_given tokens.now }
{
    let mut left = tokens.len();
    while left > 0 {
        left -= 1;
        let source = source_of(&tokens[left]);
        if source.is_some() {
            return source;
        }
    }
    None
}

/// The name id of a token, if it is mapped.
fn name_of(token: &Token) -> Option<u32>
    ensures { result ≡ mapped_name token.now }
{
    match token.get_source_id() {
        Some(_) => token.get_name_id(),
        None => None,
    }
}

/// The name id of the last of these tokens that is mapped and has one.
fn last_name(tokens: &[Token]) -> Option<u32>
    ensures { result ≡ last_given mapped_name tokens.now }
{
    let mut left = tokens.len();
    while left > 0 {
        left -= 1;
        let name = name_of(&tokens[left]);
        if name.is_some() {
            return name;
        }
    }
    None
}

/// The state after these tokens, from the state before them. It searches back from their end, so as to read few of them.
pub(crate) fn after_all(previous: Previous, tokens: &[Token]) -> Previous
    ensures { state_of result ≡ advanced_all (state_of previous) tokens.now }
{
    let Some(last) = tokens.last() else {
        return previous;
    };
    let before = (previous.source_id, previous.src_line, previous.src_col);
    let (source_id, src_line, src_col) = last_source(tokens).unwrap_or(before);
    Previous {
        dst_line: last.get_dst_line(),
        dst_col: last.get_dst_col(),
        source_id,
        src_line,
        src_col,
        name_id: last_name(tokens).unwrap_or(previous.name_id),
    }
}
