//! The nearest token on a line of a source.
ghost use Rattle.std.specs.Prelude.{◌≡◌, ◌↔◌, ◌+◌, ◌*◌, ◌<◌, ◌≤◌, length, get_or, IsTrue};
ghost use Rattle.std.specs.List.{All};
ghost use Rattle.oxc_sourcemap_map.specs.Words.{IsOrderOf, generated_for, generated_from, listed};
ghost use Rattle.oxc_sourcemap_map.specs.Words.{token_original, no_token, binary_digits};

use crate::reverse::order::{count_before, original_number, token_original};
use oxc_sourcemap_tokens::Token;

/// The token at an index of an order.
fn token_at(tokens: &[Token], order: &[u32], at: usize) -> Token
    requires within { All (λ i. i < length tokens.now) order.now }
    requires at { at < length order.now }
    ensures { result ≡ get_or (listed tokens.now order.now) at no_token }
{
    tokens[order[at] as usize]
}

/// The place of a token, counted as compared.
fn counted_original(token: &Token, steps: &mut u64) -> u128
    requires { steps.old < 18446744073709551615 }
    ensures value { result ≡ token_original token.now }
    ensures counted { steps.new ≡ steps.old + 1 }
{
    *steps += 1;
    token_original(token)
}

/// Whether the token at an index of an order is there and points to a place. A comparison is counted.
fn is_hit(tokens: &[Token], order: &[u32], at: usize, place: u128, steps: &mut u64) -> bool
    requires within { All (λ i. i < length tokens.now) order.now }
    requires few { steps.old < 18446744073709551615 }
    ensures hit { IsTrue result ↔ ((at < length order.now)
        × (token_original (get_or (listed tokens.now order.now) at no_token) ≡ place)) }
    ensures counted { steps.new ≤ steps.old + 1 }
{
    at < order.len() && counted_original(&token_at(tokens, order, at), steps) == place
}

/// The token of the greatest source column not past `col` on a line of a source.
pub(crate) fn find_for(
    tokens: &[Token],
    order: &[u32],
    source_id: u32,
    line: u32,
    col: u32,
    steps: &mut u64,
) -> Option<Token>
    requires order { IsOrderOf tokens.now order.now }
    requires few { steps.old ≤ 1024 }
    ensures found { result ≡ generated_for source_id line col tokens.now }
    ensures counted { steps.new ≤ steps.old + binary_digits (length order.now) + 2 }
    ensures few { steps.new ≤ steps.old + 66 }
{
    let place = original_number(source_id, line, col);
    let start = count_before(tokens, order, place, steps);
    if is_hit(tokens, order, start, place, steps) {
        return Some(token_at(tokens, order, start));
    }
    if start == 0 {
        return None;
    }
    let near = token_at(tokens, order, start - 1);
    if counted_original(&near, steps) < original_number(source_id, line, 0) {
        return None;
    }
    Some(near)
}

/// The token of the least source column not before `col` on a line of a source.
pub(crate) fn find_from(
    tokens: &[Token],
    order: &[u32],
    source_id: u32,
    line: u32,
    col: u32,
    steps: &mut u64,
) -> Option<Token>
    requires order { IsOrderOf tokens.now order.now }
    requires few { steps.old ≤ 1024 }
    ensures found { result ≡ generated_from source_id line col tokens.now }
    ensures counted { steps.new ≤ steps.old + 2 * binary_digits (length order.now) + 1 }
    ensures few { steps.new ≤ steps.old + 129 }
{
    let place = original_number(source_id, line, col);
    let start = count_before(tokens, order, place, steps);
    if start == order.len() {
        return None;
    }
    let near = token_at(tokens, order, start);
    let near_original = counted_original(&near, steps);
    if near_original >= original_number(source_id, line, 0) + 4294967296 {
        return None;
    }
    if near_original > place {
        return Some(near);
    }
    let end = count_before(tokens, order, place + 1, steps);
    Some(token_at(tokens, order, end - 1))
}
