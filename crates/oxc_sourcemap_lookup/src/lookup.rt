//! Lookup tables over slices of tokens, and lookups on a line. (In the Rust crate they are in the module `sourcemap`.)
ghost use Rattle.std.specs.Prelude.{◌≡◌, ◌↔◌, ◌==◌, ◌+◌, ◌*◌, ◌^◌, ◌<◌, ◌≤◌, nat_lt, true, false};
ghost use Rattle.std.specs.Prelude.{length, take, slice_get, option_map, IsTrue, IfOk, IfSome};
ghost use Rattle.std.specs.Prelude.{IsNone, Ok, Err, Some, None, [], if◌then◌else◌};
ghost use Rattle.std.specs.Option.{option_map_or, option_and_then};
ghost use Rattle.std.specs.List.{All, Contains, prefix_len};
ghost use Rattle.oxc_sourcemap_lookup.specs.Words.{Error, OutOfMemory, IsInLineOrder, token_column};
ghost use Rattle.oxc_sourcemap_lookup.specs.Words.{binary_digits, at, clamped_at};
ghost use Rattle.oxc_sourcemap_lookup.specs.Words.{no_column_goes_back, lines_through};
ghost use Rattle.oxc_sourcemap_lookup.specs.Words.{tokens_by_line, table_fault, line_table};
ghost use Rattle.oxc_sourcemap_lookup.specs.Words.{slice_of, last, Answers, Reports, lent_items};
ghost use Rattle.oxc_sourcemap_lookup.specs.Words.{AreEnds, at_or_after, index_at};
ghost use Rattle.oxc_sourcemap_lookup.specs.Words.{clamped_index_at, index_at_or_after, on_line};
ghost use Rattle.oxc_sourcemap_lookup.specs.Words.{token_line, count_before_line, index_before};

use oxc_sourcemap_tokens::{Error, Memory, Result, Token, line_order_fault};
use std::alloc::Global;

/// How many lines there are up to that of the last token.
pub(crate) fn line_count(tokens: &[Token]) -> u64
    ensures { result ≡ lines_through (last tokens.now) }
{
    match tokens.last() {
        Some(token) => u64::from(token.get_dst_line()) + 1,
        None => 0,
    }
}

/// Whether a token lies on a line.
fn is_on(token: &Token, line: u64) -> bool
    ensures { result ≡ (token.now.dst_line == line) }
{
    u64::from(token.get_dst_line()) == line
}

/// Whether the first four tokens lie on a line. All are compared, to have no branch.
fn are_four_on(tokens: &[Token], line: u64) -> bool
    requires { 4 ≤ length tokens.now }
    ensures { IsTrue result ↔ (prefix_len (λ t. t.dst_line == line) (take 4 tokens.now) ≡ 4) }
{
    is_on(&tokens[0], line)
        & is_on(&tokens[1], line)
        & is_on(&tokens[2], line)
        & is_on(&tokens[3], line)
}

/// How many tokens at the front lie on a line, counted one by one.
fn count_on(tokens: &[Token], line: u64) -> usize
    ensures { result ≡ prefix_len (λ t. t.dst_line == line) tokens.now }
{
    tokens.iter().take_while(|token| is_on(token, line)).count()
}

/// How many tokens at the front lie on a line, counted four by four and then one by one.
pub(crate) fn line_length(tokens: &[Token], line: u64) -> usize
    ensures { result ≡ prefix_len (λ t. t.dst_line == line) tokens.now }
{
    let mut rest = tokens;
    while rest.len() >= 4 && are_four_on(rest, line) {
        rest = &rest[4..];
    }
    tokens.len() - rest.len() + count_on(rest, line)
}

/// Whether the first token lies on a line before this one.
fn begins_before(tokens: &[Token], line: u64) -> bool
    ensures { result ≡ option_map_or (λ t. nat_lt t.dst_line line) (slice_get tokens.now 0) false }
{
    match tokens.first() {
        Some(token) => u64::from(token.get_dst_line()) < line,
        None => false,
    }
}

/// The tokens of each line, found line by line; None if the tokens are not in line order.
fn cut_by_line<'s>(alloc: Global, tokens: &'s [Token]) -> Memory<Option<Vec<&'s [Token]>>>
    ensures cut { IfOk result (λ cut. IfSome cut
        (λ table. IsInLineOrder tokens.now × (lent_items table.items
        ≡ tokens_by_line tokens.now))) }
    ensures out_of_order { IfOk result (λ cut. IsNone cut → IsInLineOrder tokens.now → ⊥) }
{
    let lines = line_count(tokens);
    let mut table = Vec::with_capacity(alloc, lines as usize)?;
    let mut rest = tokens;
    for line in 0..lines {
        if begins_before(rest, line) {
            return Ok(None);
        }
        let (on_line, others) = rest.split_at(line_length(rest, line));
        table.push(on_line)?;
        rest = others;
    }
    if rest.is_empty() {
        Ok(Some(table))
    } else {
        Ok(None)
    }
}

/// Stores for each line that has tokens how many there are up to its last one. False, with part of that stored, if the tokens
/// are not in line order.
pub(crate) fn store_ends(tokens: &[Token], ends: &mut [u32]) -> bool
    requires zeros { All (λ end. end ≡ 0) ends.old }
    requires lines { length ends.old ≡ lines_through (last tokens.now) }
    requires small { length tokens.now < 2 ^ 32 }
    ensures ends { IsTrue result → AreEnds tokens.now ends.new }
    ensures out_of_order { (result ≡ false) → IsInLineOrder tokens.now → ⊥ }
{
    let mut line = 0;
    let mut end = 0;
    for token in tokens {
        let here = token.get_dst_line();
        if here < line || here as usize >= ends.len() {
            return false;
        }
        line = here;
        end += 1;
        ends[here as usize] = end;
    }
    true
}

/// The tokens of each line, cut where the lines end.
fn cut_at_ends<'s>(alloc: Global, tokens: &'s [Token], ends: &[u32]) -> Memory<Vec<&'s [Token]>>
    requires { AreEnds tokens.now ends.now }
    ensures { IfOk result (λ table. lent_items table.items ≡ tokens_by_line tokens.now) }
{
    let mut table = Vec::with_capacity(alloc, ends.len())?;
    let mut start = 0;
    for last in ends {
        let end = start.max(*last as usize);
        table.push(&tokens[start..end])?;
        start = end;
    }
    Ok(table)
}

/// The tokens of each line, with one step for each token and no branch on where a line ends, which would be mispredicted
/// where lines are short; None if the tokens are not in line order.
fn cut_short_lines<'s>(alloc: Global, tokens: &'s [Token]) -> Memory<Option<Vec<&'s [Token]>>>
    requires { length tokens.now < 2 ^ 32 }
    ensures cut { IfOk result (λ cut. IfSome cut
        (λ table. IsInLineOrder tokens.now × (lent_items table.items
        ≡ tokens_by_line tokens.now))) }
    ensures out_of_order { IfOk result (λ cut. IsNone cut → IsInLineOrder tokens.now → ⊥) }
{
    let mut ends = Vec::from_elem(alloc, 0, line_count(tokens) as usize)?;
    if store_ends(tokens, ends.as_mut_slice()) {
        Ok(Some(cut_at_ends(alloc, tokens, ends.as_slice())?))
    } else {
        Ok(None)
    }
}

/// Whether there are fewer than seven tokens for each line, and they can be counted in 32 bits.
pub(crate) fn has_short_lines(tokens: &[Token]) -> bool
    ensures { IsTrue result ↔ ((length tokens.now < 2 ^ 32)
        × (length tokens.now < 7 * lines_through (last tokens.now))) }
{
    let count = tokens.len() as u64;
    count <= 4294967295 && count / 7 < line_count(tokens)
}

/// The tokens of each line; None if the tokens are not in line order.
fn cut<'s>(alloc: Global, tokens: &'s [Token]) -> Memory<Option<Vec<&'s [Token]>>>
    ensures cut { IfOk result (λ cut. IfSome cut
        (λ table. IsInLineOrder tokens.now × (lent_items table.items
        ≡ tokens_by_line tokens.now))) }
    ensures out_of_order { IfOk result (λ cut. IsNone cut → IsInLineOrder tokens.now → ⊥) }
{
    if has_short_lines(tokens) {
        cut_short_lines(alloc, tokens)
    } else {
        cut_by_line(alloc, tokens)
    }
}

/// The tokens that a table has for a line: none past its end.
pub fn slice_of<'t>(lookup_table: &[&'t [Token]], line: u32) -> &'t [Token]
    ensures { result.now ≡ slice_of (lent_items lookup_table.now) line }
{
    match lookup_table.get(line as usize) {
        Some(tokens) => tokens,
        None => &[],
    }
}

/// All binary digits set if x is less than y, else 0. Subtraction borrows from the upper half, so no branch is taken: LLVM
/// would make one of a choice, and on most lines half of the branches would be mispredicted.
pub(crate) fn mask_if_less(x: u32, y: u64) -> usize
    ensures { result ≡ (if nat_lt x y then 18446744073709551615 else 0) }
{
    (u128::from(x).wrapping_sub(u128::from(y)) >> 64) as usize
}

/// `count` if a token lies before the column `col`, else 0. One call is one step of a search: all that count steps compare
/// columns only here.
fn compare_column(token: &Token, col: u64, count: usize, steps: &mut u64) -> usize
    requires { steps.old < 18446744073709551615 }
    ensures value { result ≡ (if nat_lt token.now.dst_col col then count else 0) }
    ensures counted { steps.new ≡ steps.old + 1 }
{
    *steps += 1;
    count & mask_if_less(token.get_dst_col(), col)
}

/// How many tokens at the front of a line lie before `col`, found by halving: the index of the first token that does not.
/// On a line whose columns go back, it is some index up to the end of the line.
#[inline(always)]
fn count_below(line: &[Token], col: u64, steps: &mut u64) -> usize
    requires { steps.old ≡ 0 }
    ensures count { no_column_goes_back token_column line.now ≡ true
        → result ≡ prefix_len (λ t. nat_lt t.dst_col col) line.now }
    ensures within { result ≤ length line.now }
    ensures counted { steps.new ≡ binary_digits (length line.now) }
    ensures few { steps.new ≤ 64 }
{
    let mut start = 0;
    let mut size = line.len();
    while size > 0 {
        let half = size / 2;
        let next = start + (size - half);
        start += compare_column(&line[next - 1], col, size - half, steps);
        size = half;
    }
    start
}

/// As `count_below`, for a column of 32 bits.
#[inline(always)]
pub(crate) fn count_before(line: &[Token], col: u32, steps: &mut u64) -> usize
    requires { steps.old ≡ 0 }
    ensures count { no_column_goes_back token_column line.now ≡ true
        → result ≡ prefix_len (λ t. nat_lt t.dst_col col) line.now }
    ensures within { result ≤ length line.now }
    ensures counted { steps.new ≡ binary_digits (length line.now) }
    ensures few { steps.new ≤ 64 }
{
    count_below(line, u64::from(col), steps)
}

/// How many tokens of a line there are up to the one that `search` finds, which is the last of these; 0 if it finds none. On a
/// line whose columns go back, it is some number up to that of the tokens. No branch is taken on what is found. `steps` is set
/// as `search` has it.
#[inline(always)]
fn count_through(line: &[Token], col: u32, steps: &mut u64) -> usize
    ensures token { no_column_goes_back token_column line.now ≡ true
        → last (take result line.now) ≡ at token_column line.now col }
    ensures index { no_column_goes_back token_column line.now ≡ true
        → index_before result ≡ index_at line.now col }
    ensures within { result ≤ length line.now }
    ensures counted { (steps.new ≤ binary_digits (length line.now) + 1)
        × (line.now ≡ [] → steps.new ≡ 0) }
    ensures started { 0 < length line.now → 0 < steps.new }
{
    *steps = 0;
    let Some(last) = line.len().checked_sub(1) else {
        return 0;
    };
    let before = count_before(&line[..last], col, steps);
    before + compare_column(&line[before], u64::from(col) + 1, 1, steps)
}

/// Looks up a column on one line. The result is the first token at `col`; if none is there, the last token of the greatest
/// column below `col`; if all are above, None. On a line whose columns go back, it is some token of the line, or None.
///
/// `steps` is set to the number of columns that were compared with `col`: at most as many as the number of tokens has binary
/// digits, and one more. Takes no memory.
pub fn search(line: &[Token], col: u32, steps: &mut u64) -> Option<Token>
    ensures found { no_column_goes_back token_column line.now ≡ true
        → result ≡ at token_column line.now col }
    ensures among { IfSome result (Contains line.now) }
    ensures counted { (steps.new ≤ binary_digits (length line.now) + 1)
        × (line.now ≡ [] → steps.new ≡ 0) }
    ensures started { 0 < length line.now → 0 < steps.new }
{
    let end = count_through(line, col, steps);
    line[..end].last().copied()
}

/// As `search`, but with the first token of the line in place of None.
pub fn search_clamped(line: &[Token], col: u32) -> Option<Token>
    ensures found { no_column_goes_back token_column line.now ≡ true
        → result ≡ clamped_at token_column line.now col }
    ensures among { IfSome result (Contains line.now) }
    ensures clamped { IsNone result → line.now ≡ [] }
{
    search(line, col, &mut 0).or(line.first().copied())
}

/// An index, if there is an item at it.
pub(crate) fn index_within<T>(items: &[T], i: usize) -> Option<usize>
    ensures { result ≡ (if nat_lt i (length items.now) then Some i else None) }
{
    if i < items.len() { Some(i) } else { None }
}

/// The index on a line of the token that `search` finds there. On a line whose columns go back, it is some index of the line,
/// or None. Takes no memory.
pub fn search_index(line: &[Token], col: u32) -> Option<usize>
    ensures found { no_column_goes_back token_column line.now ≡ true
        → result ≡ index_at line.now col }
    ensures within { IfSome result (λ i. i < length line.now) }
{
    count_through(line, col, &mut 0).checked_sub(1)
}

/// As `search_index`, but with the first index of the line in place of None.
pub fn search_index_clamped(line: &[Token], col: u32) -> Option<usize>
    ensures found { no_column_goes_back token_column line.now ≡ true
        → result ≡ clamped_index_at line.now col }
    ensures within { IfSome result (λ i. i < length line.now) }
    ensures clamped { IsNone result → line.now ≡ [] }
{
    let end = count_through(line, col, &mut 0);
    index_within(line, end.saturating_sub(1))
}

/// The index on a line of the token that `search_after` finds there. On a line whose columns go back, it is some index of the
/// line, or None. `steps` is set as `search_after` has it. Takes no memory.
pub fn search_index_after(line: &[Token], col: u32, steps: &mut u64) -> Option<usize>
    ensures found { no_column_goes_back token_column line.now ≡ true
        → result ≡ index_at_or_after line.now col }
    ensures token { no_column_goes_back token_column line.now ≡ true
        → option_and_then (slice_get line.now) result ≡ at_or_after token_column line.now col }
    ensures within { IfSome result (λ i. i < length line.now) }
    ensures counted { (steps.new ≤ binary_digits (length line.now) + 1)
        × (line.now ≡ [] → steps.new ≡ 0) }
    ensures started { 0 < length line.now → 0 < steps.new }
{
    *steps = 0;
    if line.is_empty() {
        return None;
    }
    let last = count_below(&line[1..], u64::from(col) + 1, steps);
    let found = last + compare_column(&line[last], u64::from(col), 1, steps);
    index_within(line, found)
}

/// Looks up a column on one line, and from it on. The result is the last token at `col`; if none is there, the first token of
/// the least column above `col`; if all are below, None. On a line whose columns go back, it is some token of the line, or
/// None.
///
/// `steps` is set to the number of columns that were compared with `col`: at most as many as the number of tokens has binary
/// digits, and one more. Takes no memory.
pub fn search_after(line: &[Token], col: u32, steps: &mut u64) -> Option<Token>
    ensures found { no_column_goes_back token_column line.now ≡ true
        → result ≡ at_or_after token_column line.now col }
    ensures among { IfSome result (Contains line.now) }
    ensures counted { (steps.new ≤ binary_digits (length line.now) + 1)
        × (line.now ≡ [] → steps.new ≡ 0) }
    ensures started { 0 < length line.now → 0 < steps.new }
{
    let found = search_index_after(line, col, steps)?;
    Some(line[found])
}

/// How many tokens lie on the lines before a line, for tokens in line order; for others, some number up to that of the tokens.
pub(crate) fn line_start(tokens: &[Token], line: u32) -> usize
    ensures start { IsInLineOrder tokens.now → result ≡ count_before_line line tokens.now }
    ensures within { result ≤ length tokens.now }
{
    tokens.partition_point(|token: &Token| token.get_dst_line() < line)
}

/// The index among all tokens of the token that has this index on its line, for tokens in line order; for others, some index of
/// a token, or None. None for None. Takes no memory.
pub fn index_from_line(tokens: &[Token], line: u32, index: Option<usize>) -> Option<usize>
    ensures found { IsInLineOrder tokens.now
        → IfSome index (λ i. i < length (on_line token_line line tokens.now))
        → result ≡ option_map (λ i. count_before_line line tokens.now + i) index }
    ensures within { IfSome result (λ i. i < length tokens.now) }
{
    let index = index?;
    index_within(tokens, line_start(tokens, line).saturating_add(index))
}

/// The lookup table of tokens: for each generated line up to the last token's, the tokens on it, borrowed, in order.
/// Without tokens it has no slices.
///
/// Fails with `LineOrder(i)` for the first token whose line is smaller than that of the token before, whenever there is
/// one, and else, for want of memory, with `OutOfMemory`.
pub fn lookup_table(alloc: Global, tokens: &[Token]) -> Result<Vec<&[Token]>>
    ensures table { Answers (λ table. lent_items table.items) result (line_table tokens.now) }
    ensures fault { Reports (table_fault tokens.now) result }
{
    if let Ok(Some(table)) = cut(alloc, tokens) {
        return Ok(table);
    }
    match line_order_fault(tokens) {
        Some(i) => Err(Error::LineOrder(i)),
        None => Err(Error::OutOfMemory),
    }
}
