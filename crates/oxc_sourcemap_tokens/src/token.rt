//! Tokens, and the chunks in which they are written.
ghost use Rattle.std.specs.Prelude.{◌≡◌, ◌<◌, IfSome};
ghost use Rattle.oxc_sourcemap_tokens.specs.Words.{kept_id, IsInBounds};

use std::marker::Model;

/// Stands for a missing source or name id.
const INVALID_ID: u32 = 4294967295;

/// One mapping: a generated position, and the source position and name it maps to. Lines and columns count from 0, columns
/// in UTF-16 code units.
///
/// ```rust
/// use oxc_sourcemap::Token;
///
/// let token = Token::new(0, 4, 2, 1, Some(0), None);
/// assert_eq!(rt; (token.get_dst_line(), token.get_dst_col()), (0, 4));
/// assert_eq!(rt; (token.get_src_line(), token.get_src_col()), (2, 1));
/// assert_eq!(rt; (token.get_source_id(), token.get_name_id()), (Some(0), None));
/// ```
///
/// A token without a source id is unmapped, and its source position and name have no meaning; `==` compares all six fields,
/// even so.
#[derive(Clone, Copy, Debug, PartialEq, Eq)]
pub struct Token {
    dst_line: u32,
    dst_col: u32,
    src_line: u32,
    src_col: u32,
    source_id: u32,
    name_id: u32,
}

impl Model for Token {
    ghost use Rattle.oxc_sourcemap_tokens.specs.Token.{TokenRecord};

    ghost Value = { TokenRecord };

    ghost use Rattle.oxc_sourcemap_tokens.specs.TokenFields.{record_of, fields_of, FieldsFit};
    ghost use Rattle.oxc_sourcemap_tokens.specs.TokenFields.{fields_of-record_of};

    ghost view = { record_of };

    ghost invariant = { FieldsFit };

    ghost inverse = { fields_of };

    ghost inverse_ok = { fields_of-record_of };
}

impl Token {
    /// A token of these fields: `dst_` is the generated position, `src_` the source position. An id of 4294967295 is none.
    /// Nothing is checked.
    pub fn new(
        dst_line: u32,
        dst_col: u32,
        src_line: u32,
        src_col: u32,
        source_id: Option<u32>,
        name_id: Option<u32>,
    ) -> Self
        ensures { result ≡ record {
          dst_line = dst_line;
          dst_col = dst_col;
          src_line = src_line;
          src_col = src_col;
          source_id = kept_id source_id;
          name_id = kept_id name_id;
        } }
    {
        Self {
            dst_line,
            dst_col,
            src_line,
            src_col,
            source_id: source_id.unwrap_or(INVALID_ID),
            name_id: name_id.unwrap_or(INVALID_ID),
        }
    }

    /// The generated line.
    pub fn get_dst_line(&self) -> u32
        ensures value { result ≡ self.now.dst_line }

        // True of every token; stated for callers that need it.
        ensures in_bounds { IsInBounds self.now }
    {
        self.dst_line
    }

    /// The generated column.
    pub fn get_dst_col(&self) -> u32
        ensures { result ≡ self.now.dst_col }
    {
        self.dst_col
    }

    /// The source line.
    pub fn get_src_line(&self) -> u32
        ensures { result ≡ self.now.src_line }
    {
        self.src_line
    }

    /// The source column.
    pub fn get_src_col(&self) -> u32
        ensures { result ≡ self.now.src_col }
    {
        self.src_col
    }

    /// The name id, or None if the token has no name. An unmapped token may have one, without meaning.
    pub fn get_name_id(&self) -> Option<u32>
        ensures value { result ≡ self.now.name_id }
        ensures small { IfSome result (λ id. id < 4294967295) }
    {
        if self.name_id == INVALID_ID {
            None
        } else {
            Some(self.name_id)
        }
    }

    /// The source id, or None if the token is unmapped.
    pub fn get_source_id(&self) -> Option<u32>
        ensures value { result ≡ self.now.source_id }
        ensures small { IfSome result (λ id. id < 4294967295) }
    {
        if self.source_id == INVALID_ID {
            None
        } else {
            Some(self.source_id)
        }
    }
}

/// A part of a list of tokens, from index `start` up to but not including `end`, and the numbers that its deltas start
/// from, so that it can be written by itself (`encode_chunk`).
///
/// ```rust
/// use oxc_sourcemap::{Token, TokenChunk, encode_mappings};
///
/// let tokens = [Token::new(0, 0, 5, 3, Some(0), None), Token::new(1, 0, 5, 4, Some(0), None)];
/// let first = TokenChunk::new(0, 1, 0, 0, 0, 0, 0, 0);
/// // The token before the second chunk is at line 0 and column 0, and maps to line 5 and column 3.
/// let second = TokenChunk::new(1, 2, 0, 0, 5, 3, 0, 0);
/// let mut out = String::new(alloc);
/// encode_mappings(&tokens, Some(&[first, second]), &mut out)?;
/// assert_eq!(rt; out.as_str(), "AAKG;AAAC");
/// ```
///
/// These numbers, the `prev_` fields, should be the generated position of the token before `start`, the source id and
/// source position of the last token before it that is mapped, and the name id of the last one that has a name, each 0 if
/// there is none. Nothing here checks that; `chunk_fault` does.
#[derive(Clone, Debug, Default, PartialEq, Eq, Drop)]
pub struct TokenChunk {
    /// The index of the chunk's first token.
    pub start: u32,
    /// The index after its last token.
    pub end: u32,
    /// The generated line of the token before `start`, or 0.
    pub prev_dst_line: u32,
    /// The generated column of that token, or 0.
    pub prev_dst_col: u32,
    /// The source line of the last mapped token before `start`, or 0.
    pub prev_src_line: u32,
    /// The source column of that token, or 0.
    pub prev_src_col: u32,
    /// The name id of the last mapped token before `start` that has one, or 0.
    pub prev_name_id: u32,
    /// The source id of the last mapped token before `start`, or 0.
    pub prev_source_id: u32,
}

impl TokenChunk {
    /// A chunk of these fields. Nothing is checked.
    pub fn new(
        start: u32,
        end: u32,
        prev_dst_line: u32,
        prev_dst_col: u32,
        prev_src_line: u32,
        prev_src_col: u32,
        prev_name_id: u32,
        prev_source_id: u32,
    ) -> Self
        ensures { result ≡ record {
          start = start;
          end = end;
          prev_dst_line = prev_dst_line;
          prev_dst_col = prev_dst_col;
          prev_src_line = prev_src_line;
          prev_src_col = prev_src_col;
          prev_name_id = prev_name_id;
          prev_source_id = prev_source_id;
        } }
    {
        Self {
            start,
            end,
            prev_dst_line,
            prev_dst_col,
            prev_src_line,
            prev_src_col,
            prev_name_id,
            prev_source_id,
        }
    }
}
