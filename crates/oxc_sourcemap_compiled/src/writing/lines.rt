//! The entries of lines: which lines have one, and where their tokens begin.
ghost use Rattle.std.specs.Prelude.{◌≡◌, ◌≤◌, ◌<◌, ◌+◌, ℕ, IfOk, OnOk, length, get_or, ◌++◌, map};
ghost use Rattle.std.specs.Prelude.{◌∷◌, []};
ghost use Rattle.std.specs.Prelude.{true};
ghost use Rattle.oxc_sourcemap_tokens.specs.Token.{TokenRecord, last};
ghost use Rattle.oxc_sourcemap_lookup.specs.Words.{are_tokens_sorted, count_before_line};
ghost use Rattle.oxc_sourcemap_lookup.specs.Words.{lines_through};
ghost use Rattle.oxc_sourcemap_compiled.specs.Words.{AreLinesOf, line_starts, table};

use crate::writing::pushing::push_u32;
use oxc_sourcemap_tokens::{Memory, Token};
use std::alloc::Global;

/// The lines that have tokens.
pub(crate) fn filled_lines(alloc: Global, tokens: &[Token]) -> Memory<Vec<u32>>
    requires { are_tokens_sorted tokens.now ≡ true }
    ensures lines { IfOk result (λ lines. AreLinesOf tokens.now lines.items) }
    ensures few { IfOk result (λ lines. length lines.items ≤ length tokens.now) }
{
    let mut lines = Vec::new(alloc);
    let mut next: u64 = 0;
    for token in tokens {
        let line = token.get_dst_line();
        if u64::from(line) >= next {
            lines.push(line)?;
            next = u64::from(line) + 1;
        }
    }
    Ok(lines)
}

/// All lines up to that of the last token.
pub(crate) fn all_lines(alloc: Global, tokens: &[Token], count: usize) -> Memory<Vec<u32>>
    requires sorted { are_tokens_sorted tokens.now ≡ true }
    requires count { count ≡ lines_through (last tokens.now) }
    requires small { count ≤ 4294967295 }
    ensures lines { IfOk result (λ lines. AreLinesOf tokens.now lines.items) }
    ensures each { IfOk result (λ lines. (k : ℕ) → k < length lines.items
        → get_or lines.items k 0 ≡ k) }
    ensures size { IfOk result (λ lines. length lines.items ≡ count) }
{
    let mut lines = Vec::with_capacity(alloc, count)?;
    for line in 0..count {
        lines.push(line as u32)?;
    }
    Ok(lines)
}

/// How many lines there are up to that of the last token.
pub(crate) fn line_count(tokens: &[Token]) -> u64
    ensures value { result ≡ lines_through (last tokens.now) }
    ensures small { result ≤ 4294967296 }
{
    match tokens.last() {
        Some(token) => u64::from(token.get_dst_line()) + 1,
        None => 0,
    }
}

/// How many tokens lie on lines before this one.
fn tokens_before(tokens: &[Token], line: u32) -> usize
    requires { are_tokens_sorted tokens.now ≡ true }
    ensures value { result ≡ count_before_line line tokens.now }
    ensures within { result ≤ length tokens.now }
{
    tokens.partition_point(|token: &Token| token.get_dst_line() < line)
}

/// Appends where the tokens of each of these lines begin, and where those of the last one end.
pub(crate) fn push_starts(out: &mut Vec<u8>, tokens: &[Token], lines: &[u32]) -> Memory<()>
    requires { are_tokens_sorted tokens.now ≡ true }
    ensures { OnOk result (out.new.items
        ≡ out.old.items ++ table (line_starts tokens.now lines.now)) }
{
    for line in lines {
        push_u32(out, tokens_before(tokens, *line))?;
    }
    push_u32(out, tokens.len())
}
