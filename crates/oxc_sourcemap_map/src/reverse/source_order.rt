//! The order of tokens by original positions.
ghost use Rattle.std.specs.Prelude.{◌≡◌, ◌<◌, ◌≤◌, ℕ, true, length, get_or, IfOk};
ghost use Rattle.std.specs.List.{All};
ghost use Rattle.oxc_sourcemap_map.specs.Words.{TokenRecord, index_fault, FailsBy, Reports};
ghost use Rattle.oxc_sourcemap_map.specs.Words.{IsSourceOrderOf, order_bytes, indices_at};
ghost use Rattle.oxc_sourcemap_map.specs.Words.{indices_for, indices_from, is_into};

use crate::reverse::order::{between, order_of, original_number};
use crate::reverse::search::{find_for, find_from};
use oxc_sourcemap_tokens::{Error, Result, Token};
use std::alloc::Global;

/// The order of a list of tokens by the places that they point to. It holds indices alone, 4 bytes for each token that has a
/// source, and borrows nothing: each call takes the tokens that it was made of. No lookup takes memory.
///
/// Sources are named by their ids. Lines and columns count from 0, columns in UTF-16 units. A source id that no token has gives
/// nothing, and so does 4294967295.
#[derive(Drop)]
pub struct SourceOrder {
    indices: Vec<u32>,
}

impl SourceOrder {
    /// The order of these tokens. While it is made, it takes up to 32 bytes for each. Fails with `TooLarge` if there are more than
    /// 4294967295, and else only with `OutOfMemory`.
    pub fn new(alloc: Global, tokens: &[Token]) -> Result<SourceOrder>
        ensures order { IfOk result (λ order. IsSourceOrderOf tokens.now order) }
        ensures error { FailsBy (index_fault tokens.now) result }
        ensures fault { Reports (index_fault tokens.now) result }
    {
        if tokens.len() as u64 > 4294967295 {
            return Err(Error::TooLarge);
        }
        let indices = order_of(alloc, tokens)?;
        Ok(SourceOrder { indices })
    }

    /// The indices, by place, and for each place in order.
    pub(crate) fn as_slice(&self) -> &[u32]
        ensures value { result.now ≡ self.now.indices.items }
    {
        self.indices.as_slice()
    }

    /// The number of bytes of memory that the order holds; 18446744073709551615 stands for more.
    pub fn bytes(&self) -> usize
        ensures { result ≡ order_bytes self.now }
    {
        self.indices.len().saturating_mul(4)
    }

    /// The indices of all tokens that point to exactly this place, in order.
    pub fn indices_at(&self, tokens: &[Token], source_id: u32, line: u32, col: u32) -> &[u32]
        requires { IsSourceOrderOf tokens.now self.now }
        ensures { result.now ≡ indices_at source_id line col tokens.now }
    {
        let place = original_number(source_id, line, col);
        between(tokens, self.as_slice(), place, place + 1, &mut 0)
    }

    /// The indices of all tokens at the greatest source column of this line, up to `col`, that has any, in order.
    pub fn indices_for(&self, tokens: &[Token], source_id: u32, line: u32, col: u32) -> &[u32]
        requires { IsSourceOrderOf tokens.now self.now }
        ensures { result.now ≡ indices_for source_id line col tokens.now }
    {
        match find_for(tokens, self.as_slice(), source_id, line, col, &mut 0) {
            Some(found) => self.indices_at(tokens, source_id, line, found.get_src_col()),
            None => &[],
        }
    }

    /// The indices of all tokens at the least source column of this line, from `col` on, that has any, in order.
    pub fn indices_from(&self, tokens: &[Token], source_id: u32, line: u32, col: u32) -> &[u32]
        requires { IsSourceOrderOf tokens.now self.now }
        ensures { result.now ≡ indices_from source_id line col tokens.now }
    {
        match find_from(tokens, self.as_slice(), source_id, line, col, &mut 0) {
            Some(found) => self.indices_at(tokens, source_id, line, found.get_src_col()),
            None => &[],
        }
    }

    /// Where the tokens that point to this line lie: from the first of them up to but not including the index after the last.
    pub fn bounds_on(&self, tokens: &[Token], source_id: u32, line: u32) -> (usize, usize)
        requires { IsSourceOrderOf tokens.now self.now }
        ensures forward { result.0 ≤ result.1 }
        ensures within { result.1 ≤ length tokens.now }
        ensures all { (i : ℕ) (t : TokenRecord) → i < length tokens.now
            → is_into source_id line (get_or tokens.now i t) ≡ true
            → (result.0 ≤ i) × (i < result.1) }
    {
        let start = original_number(source_id, line, 0);
        let found = between(tokens, self.as_slice(), start, start + 4294967296, &mut 0);
        bounds_of(found)
    }
}

/// The least of these indices, and the number after the greatest. Two zeros without any.
fn bounds_of(indices: &[u32]) -> (usize, usize)
    ensures forward { result.0 ≤ result.1 }
    ensures all { All (λ i. (result.0 ≤ i) × (i < result.1)) indices.now }
    ensures end { (n : ℕ) → All (λ i. i < n) indices.now → result.1 ≤ n }
{
    let Some(first) = indices.first() else {
        return (0, 0);
    };
    let mut least = *first;
    let mut most = *first;
    for i in indices {
        least = least.min(*i);
        most = most.max(*i);
    }
    (least as usize, most as usize + 1)
}
