//! Whether tokens are in the order of their generated lines.
ghost use Rattle.std.specs.Prelude.{◌≡◌, ◌+◌, ◌^◌, ◌<◌, length, Option, None};
ghost use Rattle.oxc_sourcemap_tokens.specs.Words.{first_out_of_order, back_from};

use crate::token::Token;

/// The index of the first token whose generated line is smaller than that of the token before. The first token has the
/// index `first`, and its line is compared with `line`.
pub fn line_back_from(line: u32, first: usize, tokens: &[Token]) -> Option<usize>
    requires { first + length tokens.now < 2 ^ 64 }
    ensures { result ≡ back_from line first tokens.now }
{
    let mut line_before = line;
    for (i, token) in tokens.iter().enumerate() {
        if token.get_dst_line() < line_before {
            return Some(first + i);
        }
        line_before = token.get_dst_line();
    }
    None
}

/// The index of the first token whose generated line is smaller than that of the token before, as in `LineOrder`; None if
/// there is none. Takes no memory.
pub fn line_order_fault(tokens: &[Token]) -> Option<usize>
    ensures { result ≡ first_out_of_order tokens.now }
{
    line_back_from(0, 0, tokens)
}
