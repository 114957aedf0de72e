//! Tokens in the order of the places that they point to.
ghost use Rattle.std.specs.Prelude.{◌≡◌, ◌+◌, ◌*◌, ◌%◌, ◌^◌, ℕ, ◌<◌, ◌≤◌, length, map, get_or};
ghost use Rattle.std.specs.Prelude.{IfOk, nat_lt, ◌==◌, ◌-◌, take, drop, filter};
ghost use Rattle.std.specs.List.{All};
ghost use Rattle.std.specs.List.Sorted.{IsNonDecreasingBy};
ghost use Rattle.oxc_sourcemap_map.specs.Words.{TokenRecord, original_number, token_original};
ghost use Rattle.oxc_sourcemap_map.specs.Words.{numbered_from, listed, IsOrderOf, binary_digits};
ghost use Rattle.oxc_sourcemap_map.specs.Words.{AreBetween, AreInBounds, no_token};

use oxc_sourcemap_tokens::{Memory, Token, tokens_in_bounds};
use std::alloc::Global;

/// A place in a source as a number, so that places compare as numbers do.
pub(crate) fn original_number(source_id: u32, line: u32, col: u32) -> u128
    ensures value { result ≡ original_number source_id line col }
    ensures small { result < 2 ^ 96 }
{
    u128::from(source_id) * 18446744073709551616 + u128::from(line) * 4294967296 + u128::from(col)
}

/// The number of the place that a token points to.
pub(crate) fn token_original(token: &Token) -> u128
    ensures value { result ≡ token_original token.now }
    ensures small { result < 2 ^ 96 }
{
    let source_id = token.get_source_id().unwrap_or(4294967295);
    original_number(source_id, token.get_src_line(), token.get_src_col())
}

/// For each mapped token the number of its place, and behind it, in 32 binary digits, its index.
fn original_numbers(alloc: Global, tokens: &[Token]) -> Memory<Vec<u128>>
    requires { length tokens.now < 2 ^ 32 }
    ensures { IfOk result (λ numbers. numbers.items ≡ numbered_from 0 tokens.now) }
{
    let mut numbers = Vec::with_capacity(alloc, tokens.len())?;
    for (i, token) in tokens.iter().enumerate() {
        if token.get_source_id().is_some() {
            numbers.push(token_original(token) * 4294967296 + i as u128)?;
        }
    }
    Ok(numbers)
}

/// The indices behind the numbers of places.
fn indices_in(alloc: Global, numbers: &[u128]) -> Memory<Vec<u32>>
    ensures { IfOk result (λ order. order.items ≡ map (λ n. n % 4294967296) numbers.now) }
{
    let mut order = Vec::with_capacity(alloc, numbers.len())?;
    for number in numbers {
        order.push((*number % 4294967296) as u32)?;
    }
    Ok(order)
}

/// The indices of the mapped tokens by place, and for each place in the order of the map. The sort is over numbers that stand
/// next to each other, and reads no token.
pub(crate) fn order_of(alloc: Global, tokens: &[Token]) -> Memory<Vec<u32>>
    requires { length tokens.now < 2 ^ 32 }
    ensures { IfOk result (λ order. IsOrderOf tokens.now order.items) }
{
    tokens_in_bounds(tokens);
    let mut numbers = original_numbers(alloc, tokens)?;
    numbers.sort_by_key(|number: &u128| *number / 4294967296)?;
    let order = indices_in(alloc, numbers.as_slice())?;
    Ok(order)
}

/// The number of the place of the token with this index. A search compares places only here, and counts each comparison.
fn compare_original(tokens: &[Token], i: u32, place: u128, steps: &mut u64) -> bool
    requires within { i < length tokens.now }
    requires few { steps.old < 18446744073709551615 }
    ensures value { (t : TokenRecord)
        → result ≡ nat_lt (token_original (get_or tokens.now i t)) place }
    ensures counted { steps.new ≡ steps.old + 1 }
{
    *steps += 1;
    token_original(&tokens[i as usize]) < place
}

/// How many tokens of this order point before a place, found by halving.
pub(crate) fn count_before(tokens: &[Token], order: &[u32], place: u128, steps: &mut u64) -> usize
    requires within { All (λ i. i < length tokens.now) order.now }
    requires rises { IsNonDecreasingBy token_original (listed tokens.now order.now) }
    requires few { steps.old < 4294967296 }
    ensures bound { result ≤ length order.now }
    ensures before { (k : ℕ) (t : TokenRecord) → k < result
        → token_original (get_or (listed tokens.now order.now) k t) < place }
    ensures others { (k : ℕ) (t : TokenRecord) → result ≤ k → k < length order.now
        → place ≤ token_original (get_or (listed tokens.now order.now) k t) }
    ensures counted { steps.new ≡ steps.old + binary_digits (length order.now) }
    ensures few { steps.new ≤ steps.old + 64 }
{
    let mut start = 0;
    let mut size = order.len();
    while size > 0 {
        let half = size / 2;
        let next = start + (size - half);
        let i = order[next - 1];
        if compare_original(tokens, i, place, steps) {
            start = next;
        }
        size = half;
    }
    start
}

/// The part of an order between two indices.
fn part_of(order: &[u32], start: usize, end: usize) -> &[u32]
    requires forward { start ≤ end }
    requires within { end ≤ length order.now }
    ensures { result.now ≡ take (end - start) (drop start order.now) }
{
    &order[start..end]
}

/// The part of an order from one place up to but not including another.
pub(crate) fn between<'o>(
    tokens: &[Token],
    order: &'o [u32],
    from: u128,
    to: u128,
    steps: &mut u64,
) -> &'o [u32]
    requires order { IsOrderOf tokens.now order.now }
    requires forward { from < to }
    requires few { steps.old ≤ 1024 }
    ensures within { All (λ i. i < length tokens.now) result.now }
    ensures in_bounds { AreInBounds (listed tokens.now result.now) }
    ensures only { AreBetween from to (listed tokens.now result.now) }
    ensures rises { IsNonDecreasingBy token_original (listed tokens.now result.now) }
    ensures each { (place : ℕ) → from ≤ place → place < to
        → filter (λ t. token_original t == place) (listed tokens.now result.now)
        ≡ filter (λ t. token_original t == place) (listed tokens.now order.now) }
    ensures each_index { (place : ℕ) → from ≤ place → place < to
        → filter (λ i. token_original (get_or tokens.now i no_token) == place) result.now
        ≡ filter (λ i. token_original (get_or tokens.now i no_token) == place) order.now }
    ensures counted { steps.new ≡ steps.old + 2 * binary_digits (length order.now) }
    ensures few { steps.new ≤ steps.old + 128 }
{
    let start = count_before(tokens, order, from, steps);
    let end = count_before(tokens, order, to, steps);
    part_of(order, start, end)
}
