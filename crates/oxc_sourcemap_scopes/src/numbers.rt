//! The numbers of an item of a `scopes` text.
ghost use Rattle.std.specs.Prelude.{◌≡◌, ◌+◌, ◌*◌, ◌<◌, ◌≤◌, ◌%◌, IfSome};
ghost use Rattle.oxc_sourcemap_scopes.specs.Words.{base64_digit, numbers_of, Reads};

use crate::errors::{ScopesError, ScopesFaultKind};
use std::alloc::Global;

/// The digit of a byte in the base64 alphabet.
fn digit_of(byte: u8) -> Option<u8>
    ensures digit { result ≡ base64_digit byte }
    ensures small { IfSome result (λ digit. digit < 64) }
{
    match byte {
        b'A'..=b'Z' => Some(byte - b'A'),
        b'a'..=b'z' => Some(byte - b'a' + 26),
        b'0'..=b'9' => Some(byte - b'0' + 52),
        b'+' => Some(62),
        b'/' => Some(63),
        _ => None,
    }
}

/// A part of a number with one more digit, which counts for `scale`.
fn with_digit(raw: u64, scale: u64, digit: u8) -> u64
    requires scale { scale ≤ 1073741824 }
    requires raw { raw < scale }
    ensures sum { result ≡ raw + digit % 32 * scale }
    ensures below { result < scale * 32 }
{
    raw + u64::from(digit % 32) * scale
}

/// The numbers of an item that begins at this byte of the text. What was in `numbers` goes; after an `Err` it has some of them.
#[tactic(auto, unfolding(crate::specs::Numbers::numbers_after))]
pub(crate) fn read_numbers(
    alloc: Global,
    item: &[u8],
    at: usize,
    numbers: &mut Vec<u64>,
) -> Result<(), ScopesError>
    ensures { Reads (λ _. numbers.new.items) result (numbers_of at item.now) }
{
    numbers.clear();
    let mut raw: u64 = 0;
    let mut scale: u64 = 1;
    for byte in item {
        let Some(digit) = digit_of(*byte) else {
            return Err(ScopesError::at(ScopesFaultKind::NotADigit, at));
        };
        if scale > 1073741824 {
            return Err(ScopesError::at(ScopesFaultKind::TooLarge, at));
        }
        let sum = with_digit(raw, scale, digit);
        if digit < 32 {
            numbers.push(sum)?;
            raw = 0;
            scale = 1;
        } else {
            raw = sum;
            scale *= 32;
        }
    }
    if scale > 1 {
        return Err(ScopesError::at(ScopesFaultKind::CutShort, at));
    }
    Ok(())
}
