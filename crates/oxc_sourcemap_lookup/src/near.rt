//! Lookups that begin where the one before ended. Next to each other, most tokens of a map lead to tokens that are close
//! to each other.
ghost use Rattle.std.specs.Prelude.{◌≡◌, ◌+◌, ◌<◌, ◌≤◌, [], length, true, Some, IfSome, IsNone};
ghost use Rattle.std.specs.Prelude.{nat_lt};
ghost use Rattle.std.specs.List.{Contains, count_by};
ghost use Rattle.oxc_sourcemap_lookup.specs.Words.{IsIndexOf, on_line, token_line, token_column};
ghost use Rattle.oxc_sourcemap_lookup.specs.Words.{no_column_goes_back, clamped_at};
ghost use Rattle.oxc_sourcemap_lookup.specs.Words.{clamped_index_at};

use crate::line_index::LineIndex;
use crate::lookup::search_index_clamped;
use oxc_sourcemap_tokens::Token;

/// Up to this many tokens on a line, to compare all takes less time than to look near where the last lookup ended.
const FEW: usize = 8;

/// Where the last lookup ended. It changes no answer, and saves time where lookups are close to each other.
#[derive(Clone, Copy)]
pub struct Near {
    /// The index on its line of the token that was found.
    token: usize,
    /// That of the line's span, for `LineIndex::tokens_near`.
    span: usize,
}

impl Near {
    /// The first token, on the first line.
    pub fn start() -> Near {
        Near { token: 0, span: 0 }
    }
}

/// How many of the first three tokens lie before a column. All are compared, to have no branch.
fn count_of_three(line: &[Token], col: u32) -> usize
    requires { 3 ≤ length line.now }
    ensures { result ≤ 3 }
{
    usize::from(line[0].get_dst_col() < col)
        + usize::from(line[1].get_dst_col() < col)
        + usize::from(line[2].get_dst_col() < col)
}

/// The index of the token that the clamped lookup of a column finds on its line, if the one at index `before` is the last one
/// before the column, and not the last of the line.
fn index_after(line: &[Token], before: usize, col: u32) -> Option<usize>
    requires { before + 1 < length line.now }
    ensures found { IfSome result (λ i. no_column_goes_back token_column line.now ≡ true
        → Some i ≡ clamped_index_at line.now col) }
    ensures within { IfSome result (λ i. i < length line.now) }
{
    let last = line[before].get_dst_col();
    let next = line[before + 1].get_dst_col();
    if (last < col) & (col <= next) {
        Some(before + usize::from(next == col))
    } else {
        None
    }
}

/// As `index_after`, if one of the four tokens from index `near` on is the last before the column, and not the last of the line.
fn index_near(line: &[Token], col: u32, near: usize) -> Option<usize>
    ensures found { IfSome result (λ i. no_column_goes_back token_column line.now ≡ true
        → Some i ≡ clamped_index_at line.now col) }
    ensures within { IfSome result (λ i. i < length line.now) }
{
    if near >= line.len().saturating_sub(4) {
        return None;
    }
    let before = near + count_of_three(&line[near + 1..], col);
    index_after(line, before, col)
}

/// How many tokens of a line lie before a column, if its columns do not go back. All are compared, with no branch on what is
/// found, which would often be mispredicted.
fn count_in_few(line: &[Token], col: u32) -> usize
    ensures { result ≡ count_by (λ t. nat_lt t.dst_col col) line.now }
{
    let mut count = 0;
    for token in line {
        count += usize::from(token.get_dst_col() < col);
    }
    count
}

/// As `search_index_clamped`, for a line of few tokens.
fn index_in_few(line: &[Token], col: u32) -> Option<usize>
    ensures found { no_column_goes_back token_column line.now ≡ true
        → result ≡ clamped_index_at line.now col }
    ensures within { IfSome result (λ i. i < length line.now) }
    ensures clamped { IsNone result → line.now ≡ [] }
{
    let last = line.len().checked_sub(1)?;
    let before = count_in_few(line, col);
    let is_there = line[before.min(last)].get_dst_col() == col;
    let end = before + usize::from(is_there);
    Some(end.saturating_sub(1).min(last))
}

/// As `search_index_clamped`. On a line of more than a few tokens it looks first at the index `near`, and at those after it.
fn index_from(line: &[Token], col: u32, near: usize) -> Option<usize>
    ensures found { no_column_goes_back token_column line.now ≡ true
        → result ≡ clamped_index_at line.now col }
    ensures within { IfSome result (λ i. i < length line.now) }
    ensures clamped { IsNone result → line.now ≡ [] }
{
    if line.len() <= FEW {
        return index_in_few(line, col);
    }
    if let Some(found) = index_near(line, col, near) {
        return Some(found);
    }
    search_index_clamped(line, col)
}

/// The clamped lookup of a position, as `LineIndex::lookup_clamped` has it. It looks first where the last one ended.
#[inline(always)]
pub fn lookup_near(
    index: &LineIndex,
    tokens: &[Token],
    line: u32,
    col: u32,
    near: &mut Near,
) -> Option<Token>
    requires { IsIndexOf tokens.now index.now }
    ensures found { no_column_goes_back token_column (on_line token_line line tokens.now) ≡ true
        → result ≡ clamped_at token_column (on_line token_line line tokens.now) col }
    ensures among { IfSome result (Contains (on_line token_line line tokens.now)) }
    ensures clamped { IsNone result → on_line token_line line tokens.now ≡ [] }
{
    let on_line = index.tokens_near(tokens, line, &mut near.span);
    let found = index_from(on_line, col, near.token)?;
    near.token = found;
    Some(on_line[found])
}
