//! Lookups on one line by the columns of its tokens alone, which lie six times as close together as the tokens: a lookup waits
//! for fewer reads of memory.
ghost use Rattle.std.specs.Prelude.{◌≡◌, ◌<◌, ◌≤◌, List, length, map, nat_lt, if◌then◌else◌};
ghost use Rattle.std.specs.Prelude.{IfSome, true};
ghost use Rattle.oxc_sourcemap_lookup.specs.Words.{TokenRecord, token_column, index_before};
ghost use Rattle.oxc_sourcemap_lookup.specs.Words.{no_column_goes_back, index_at, clamped_index_at};
ghost use Rattle.oxc_sourcemap_lookup.specs.Words.{index_at_or_after};
ghost use Rattle.std.specs.List.{prefix_len};

use crate::lookup::{index_within, mask_if_less};

/// `count` if a column lies before `col`, else 0.
fn count_if_before(column: u32, col: u64, count: usize) -> usize
    ensures { result ≡ (if nat_lt column col then count else 0) }
{
    count & mask_if_less(column, col)
}

/// How many tokens at the front of a line lie before `col`, by their columns, found by halving. If columns go back, it is some
/// number up to that of the columns.
#[inline(always)]
fn count_before(columns: &[u32], col: u64) -> usize
    ensures count { (line : List TokenRecord) → columns.now ≡ map token_column line
        → no_column_goes_back token_column line ≡ true
        → result ≡ prefix_len (λ t. nat_lt t.dst_col col) line }
    ensures within { result ≤ length columns.now }
{
    let mut start = 0;
    let mut size = columns.len();
    while size > 0 {
        let half = size / 2;
        let next = start + (size - half);
        start += count_if_before(columns[next - 1], col, size - half);
        size = half;
    }
    start
}

/// How many columns there are up to that of the token which `search_index` finds on their line, which is the last of these; 0
/// if it finds none. If columns go back, it is some number up to that of the columns.
#[inline(always)]
fn count_through(columns: &[u32], col: u32) -> usize
    ensures index { (line : List TokenRecord) → columns.now ≡ map token_column line
        → no_column_goes_back token_column line ≡ true
        → index_before result ≡ index_at line col }
    ensures within { result ≤ length columns.now }
{
    if columns.is_empty() {
        return 0;
    }
    let before = count_before(&columns[..columns.len() - 1], u64::from(col));
    before + usize::from(columns[before] <= col)
}

/// As `search_index` of `lookup`, on a line whose tokens have these columns.
#[inline(always)]
pub(crate) fn search_index(columns: &[u32], col: u32) -> Option<usize>
    ensures found { (line : List TokenRecord) → columns.now ≡ map token_column line
        → no_column_goes_back token_column line ≡ true
        → result ≡ index_at line col }
    ensures within { IfSome result (λ i. i < length columns.now) }
{
    count_through(columns, col).checked_sub(1)
}

/// As `search_index_clamped` of `lookup`, on a line whose tokens have these columns.
#[inline(always)]
pub(crate) fn search_index_clamped(columns: &[u32], col: u32) -> Option<usize>
    ensures found { (line : List TokenRecord) → columns.now ≡ map token_column line
        → no_column_goes_back token_column line ≡ true
        → result ≡ clamped_index_at line col }
    ensures within { IfSome result (λ i. i < length columns.now) }
{
    let end = count_through(columns, col);
    index_within(columns, end.saturating_sub(1))
}

/// As `search_index_after` of `lookup`, on a line whose tokens have these columns.
#[inline(always)]
pub(crate) fn search_index_after(columns: &[u32], col: u32) -> Option<usize>
    ensures found { (line : List TokenRecord) → columns.now ≡ map token_column line
        → no_column_goes_back token_column line ≡ true
        → result ≡ index_at_or_after line col }
    ensures within { IfSome result (λ i. i < length columns.now) }
{
    if columns.is_empty() {
        return None;
    }
    let last = count_before(&columns[1..], u64::from(col) + 1);
    index_within(columns, last + usize::from(columns[last] < col))
}
