//! The law on the bounds of tokens.
ghost use Rattle.oxc_sourcemap_tokens.specs.Words.{AreInBounds};

use crate::token::Token;

/// Tokens are in bounds: lines and columns are 0 to 4294967295, ids 0 to 4294967294, since a `Token` has fields of 32 bits. So
/// what laws say of lists in bounds, as `canonical_unique` does, holds of the tokens of any map. The contract is the law, and a
/// caller gets it by calling the function: its loop is there for the proof alone, and is gone from what is built.
pub fn tokens_in_bounds(tokens: &[Token])
    ensures { AreInBounds tokens.now }
{
    for token in tokens {
        token.get_dst_line();
    }
}
