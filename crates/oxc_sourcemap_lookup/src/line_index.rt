//! The index of the lines of a list of tokens: where the tokens of each line lie.
ghost use Rattle.std.specs.Prelude.{ℕ, ◌+◌, ◌*◌, ◌^◌, ◌≡◌, ◌≢◌, ◌↔◌, ◌<◌, ◌≤◌, true, IsTrue};
ghost use Rattle.std.specs.Prelude.{length, get_or, option_map, slice_get, IfOk, IfSome, IsNone};
ghost use Rattle.std.specs.Prelude.{Ok, Err, Some, None, List, map};
ghost use Rattle.std.specs.List.{All, Contains};
ghost use Rattle.oxc_sourcemap_lookup.specs.Words.{Error, LineOrder, OutOfMemory, IsInLineOrder};
ghost use Rattle.oxc_sourcemap_lookup.specs.Words.{first_out_of_order, are_tokens_sorted};
ghost use Rattle.oxc_sourcemap_lookup.specs.Words.{token_line, on_line, lines_through, token_for};
ghost use Rattle.oxc_sourcemap_lookup.specs.Words.{clamped_token_for, last, AreStarts, AreSpans};
ghost use Rattle.oxc_sourcemap_lookup.specs.Words.{DoLinesRise, AreLines, IsIndexOf, FailsBy};
ghost use Rattle.oxc_sourcemap_lookup.specs.Words.{AreEnds, Reports, count_before_line};
ghost use Rattle.oxc_sourcemap_lookup.specs.Words.{index_bytes, token_column, IsPartAt};
ghost use Rattle.oxc_sourcemap_lookup.specs.Words.{AreColumnsAt, IsUsualIndexOf, TokenRecord};
ghost use Rattle.oxc_sourcemap_lookup.specs.Words.{index_for, clamped_index_for, index_after};
ghost use Rattle.oxc_sourcemap_lookup.specs.Words.{index_at, clamped_index_at, index_at_or_after};
ghost use Rattle.oxc_sourcemap_lookup.specs.Words.{no_column_goes_back};

use crate::columns;
use crate::lookup::{
    has_short_lines, line_count, line_length, line_start, search, search_clamped, search_index,
    search_index_after, search_index_clamped, store_ends,
};
use oxc_sourcemap_tokens::{Error, Memory, Result, Token, line_order_fault};
use std::alloc::Global;

/// From so many tokens on, branches that are mispredicted take more time than memory for where lines end, and reads of tokens more
/// than memory for their columns. For fewer, lookups need no memory.
const MANY: usize = 64;

/// Where the tokens of one line lie in the list: from index `start` up to but not including `end`.
#[derive(Clone, Copy)]
struct LineSpan {
    line: u32,
    start: usize,
    end: usize,
}

/// Where the tokens of each line lie in a list of tokens in line order.
#[derive(Drop)]
enum Lines {
    /// Where each line begins, and where the last one ends: a line is found by its number.
    Starts(Vec<u32>),
    /// The spans of the lines that have tokens: a line is found by halving.
    Spans(Vec<LineSpan>),
    /// Nothing: a line is found by halving the tokens, which are few.
    Few,
}

/// Where the tokens of each line lie in a list of tokens in line order. It takes memory for every line if there are few lines
/// for so many tokens, else for those that have tokens: at most 24 bytes a token, and 68; while it is made, at most 32, and
/// 132. With the columns of tokens it holds 4 more a token; for lookups in few tokens it takes none. It borrows nothing.
#[derive(Drop)]
pub struct LineIndex {
    lines: Lines,
    /// The column of each token, if lookups read these in place of the tokens.
    columns: Option<Vec<u32>>,
}

/// An index of the form that most maps have: where each line begins, and the columns of the tokens. It is copied out of a
/// `LineIndex`, so that many lookups do not ask each what its form is.
#[derive(Clone, Copy)]
pub struct UsualIndex<'i> {
    starts: &'i [u32],
    columns: &'i [u32],
}

/// Whether to keep where each line begins: whether the tokens can be counted in 32 bits, and there are at most four lines
/// for each of them, and 16 more.
fn has_few_lines(tokens: &[Token]) -> bool
    ensures { IsTrue result ↔ ((length tokens.now < 2 ^ 32)
        × (lines_through (last tokens.now) ≤ 4 * length tokens.now + 16)) }
{
    let count = tokens.len() as u64;
    count <= 4294967295 && line_count(tokens) <= 4 * count + 16
}

/// Where each line begins, and where the last one ends; None if the tokens are not in line order.
fn starts_of(alloc: Global, tokens: &[Token]) -> Memory<Option<Vec<u32>>>
    requires small { length tokens.now < 2 ^ 32 }
    requires few { lines_through (last tokens.now) ≤ 4 * length tokens.now + 16 }
    ensures starts { IfOk result (λ found. IfSome found
        (λ starts. AreStarts tokens.now starts.items)) }
    ensures out_of_order { IfOk result (λ found. IsNone found → IsInLineOrder tokens.now → ⊥) }
{
    let lines = line_count(tokens);
    let mut starts = Vec::with_capacity(alloc, lines as usize + 1)?;
    starts.push(0)?;
    let mut start = 0;
    for line in 0..lines {
        start += line_length(&tokens[start..], line);
        starts.push(start as u32)?;
    }
    if start == tokens.len() {
        Ok(Some(starts))
    } else {
        Ok(None)
    }
}

/// Where each line begins, and where the last one ends, from where the lines end.
fn starts_at_ends(alloc: Global, tokens: &[Token], ends: &[u32]) -> Memory<Vec<u32>>
    requires ends { AreEnds tokens.now ends.now }
    requires few { lines_through (last tokens.now) ≤ 4 * length tokens.now + 16 }
    ensures { IfOk result (λ starts. AreStarts tokens.now starts.items) }
{
    let mut starts = Vec::with_capacity(alloc, line_count(tokens) as usize + 1)?;
    starts.push(0)?;
    let mut start = 0;
    for end in ends {
        start = start.max(*end);
        starts.push(start)?;
    }
    Ok(starts)
}

/// As `starts_of`, with one step for each token and no branch on where a line ends, which would be mispredicted where lines
/// are short.
fn starts_of_short(alloc: Global, tokens: &[Token]) -> Memory<Option<Vec<u32>>>
    requires small { length tokens.now < 2 ^ 32 }
    requires few { lines_through (last tokens.now) ≤ 4 * length tokens.now + 16 }
    ensures starts { IfOk result (λ found. IfSome found
        (λ starts. AreStarts tokens.now starts.items)) }
    ensures out_of_order { IfOk result (λ found. IsNone found → IsInLineOrder tokens.now → ⊥) }
{
    let mut ends = Vec::from_elem(alloc, 0, line_count(tokens) as usize)?;
    if store_ends(tokens, ends.as_mut_slice()) {
        Ok(Some(starts_at_ends(alloc, tokens, ends.as_slice())?))
    } else {
        Ok(None)
    }
}

/// The spans of the lines that have tokens; None if the tokens are not in line order.
fn spans_of(alloc: Global, tokens: &[Token]) -> Memory<Option<Vec<LineSpan>>>
    ensures spans { IfOk result (λ found. IfSome found (λ spans. AreSpans tokens.now spans.items)) }
    ensures out_of_order { IfOk result (λ found. IsNone found → IsInLineOrder tokens.now → ⊥) }
{
    let most = line_count(tokens).min(tokens.len() as u64);
    let mut spans = Vec::with_capacity(alloc, most as usize)?;
    let mut start = 0;
    let mut next_line: u64 = 0;
    while start < tokens.len() {
        let line = tokens[start].get_dst_line();
        if u64::from(line) < next_line {
            return Ok(None);
        }
        let end = start + line_length(&tokens[start..], u64::from(line));
        spans.push(LineSpan { line, start, end })?;
        start = end;
        next_line = u64::from(line) + 1;
    }
    Ok(Some(spans))
}

/// Where the tokens of each line lie, in one form or the other; None if the tokens are not in line order.
fn lines_of(alloc: Global, tokens: &[Token]) -> Memory<Option<Lines>>
    ensures lines { IfOk result (λ found. IfSome found (λ lines. AreLines tokens.now lines)) }
    ensures out_of_order { IfOk result (λ found. IsNone found → IsInLineOrder tokens.now → ⊥) }
{
    if has_few_lines(tokens) {
        let starts = if tokens.len() >= MANY && has_short_lines(tokens) {
            starts_of_short(alloc, tokens)?
        } else {
            starts_of(alloc, tokens)?
        };
        Ok(starts.map(|starts| Lines::Starts(starts)))
    } else {
        Ok(spans_of(alloc, tokens)?.map(|spans| Lines::Spans(spans)))
    }
}

/// How many spans lie on lines before this one.
fn count_lines_before(spans: &[LineSpan], line: u32) -> usize
    requires { DoLinesRise spans.now }
    ensures before { (k : ℕ) (d : LineSpan) → k < result → (get_or spans.now k d).line < line }
    ensures others { (k : ℕ) (d : LineSpan) → result ≤ k → k < length spans.now
        → line ≤ (get_or spans.now k d).line }
{
    spans.partition_point(|span: &LineSpan| span.line < line)
}

/// Whether there is a span of a line at an index.
fn is_line_at(spans: &[LineSpan], i: usize, line: u32) -> bool
    ensures { IsTrue result ↔ (option_map (λ span. span.line) (slice_get spans.now i) ≡ Some line) }
{
    match spans.get(i) {
        Some(span) => span.line == line,
        None => false,
    }
}

/// The index of a line's span, looked for at `near`, then after it, then by halving.
fn find(spans: &[LineSpan], line: u32, near: usize) -> Option<usize>
    requires { DoLinesRise spans.now }
    ensures found { IfSome result (λ i. option_map (λ span. span.line) (slice_get spans.now i)
        ≡ Some line) }
    ensures none { IsNone result → All (λ span. span.line ≢ line) spans.now }
{
    if is_line_at(spans, near, line) {
        return Some(near);
    }
    let next = near.saturating_add(1);
    if is_line_at(spans, next, line) {
        return Some(next);
    }
    let i = count_lines_before(spans, line);
    if is_line_at(spans, i, line) {
        return Some(i);
    }
    None
}

/// The generated column of each token.
fn columns_of(alloc: Global, tokens: &[Token]) -> Memory<Vec<u32>>
    ensures { IfOk result (λ columns. columns.items ≡ map token_column tokens.now) }
{
    let mut columns = Vec::with_capacity(alloc, tokens.len())?;
    for token in tokens {
        columns.push_reserved(token.get_dst_col());
    }
    Ok(columns)
}

/// Where a line begins, and the tokens on it, by the spans of lines. The line is looked for first at the index `near`, which
/// becomes that of its span. Without tokens the line begins anywhere.
// A call of its own, so that lookups in the maps that are usual are short.
#[inline(never)]
fn line_by_span<'t>(
    spans: &[LineSpan],
    tokens: &'t [Token],
    line: u32,
    near: &mut usize,
) -> (usize, &'t [Token])
    requires { AreSpans tokens.now spans.now }
    ensures tokens { result.1.now ≡ on_line token_line line tokens.now }
    ensures start { 0 < length result.1.now → result.0 ≡ count_before_line line tokens.now }
    ensures part { IsPartAt result.0 result.1.now tokens.now }
{
    let Some(i) = find(spans, line, *near) else {
        return (0, &[]);
    };
    *near = i;
    let span = spans[i];
    (span.start, &tokens[span.start..span.end])
}

/// Where a line begins, and the tokens on it, by where lines begin. Without tokens the line begins anywhere.
fn line_by_start<'t>(starts: &[u32], tokens: &'t [Token], line: u32) -> (usize, &'t [Token])
    requires { AreStarts tokens.now starts.now }
    ensures tokens { result.1.now ≡ on_line token_line line tokens.now }
    ensures start { 0 < length result.1.now → result.0 ≡ count_before_line line tokens.now }
    ensures part { IsPartAt result.0 result.1.now tokens.now }
{
    let next = line as usize + 1;
    if next < starts.len() {
        let start = starts[next - 1] as usize;
        (start, &tokens[start..starts[next] as usize])
    } else {
        (0, &[])
    }
}

/// Where a line begins, and the tokens on it, found among few tokens. Without tokens the line begins anywhere.
fn line_among<'t>(tokens: &'t [Token], line: u32) -> (usize, &'t [Token])
    requires { IsInLineOrder tokens.now }
    ensures tokens { result.1.now ≡ on_line token_line line tokens.now }
    ensures start { 0 < length result.1.now → result.0 ≡ count_before_line line tokens.now }
    ensures part { IsPartAt result.0 result.1.now tokens.now }
{
    let start = line_start(tokens, line);
    let count = line_length(&tokens[start..], u64::from(line));
    (start, &tokens[start..start + count])
}

/// Some columns of a list: those of the tokens of a line, which lie from the index `start` on.
#[inline(always)]
fn columns_at<'c>(columns: &'c [u32], start: usize, on_line: &[Token]) -> &'c [u32]
    requires { AreColumnsAt start on_line.now columns.now }
    ensures { result.now ≡ map token_column on_line.now }
{
    &columns[start..start + on_line.len()]
}

impl UsualIndex<'_> {
    /// As `lookup_index` of the index, for the same tokens.
    #[inline(always)]
    pub fn lookup_index(self, tokens: &[Token], line: u32, col: u32) -> Option<usize>
        requires { IsUsualIndexOf tokens.now self }
        ensures found { are_tokens_sorted tokens.now ≡ true
            → result ≡ index_for tokens.now line col }
        ensures within { IfSome result (λ i. i < length tokens.now) }
    {
        let (start, on_line) = line_by_start(self.starts, tokens, line);
        let columns = columns_at(self.columns, start, on_line);
        Some(start + columns::search_index(columns, col)?)
    }
}

impl LineIndex {
    /// The index of the lines of tokens, made in one walk over them.
    ///
    /// Fails with `LineOrder(i)` for the first token whose line is smaller than that of the token before, whenever there is
    /// one, and else, for want of memory, with `OutOfMemory`.
    pub fn new(alloc: Global, tokens: &[Token]) -> Result<LineIndex>
        ensures index { IfOk result (λ index. IsIndexOf tokens.now index) }
        ensures error { FailsBy (option_map LineOrder (first_out_of_order tokens.now)) result }
        ensures fault { Reports (option_map LineOrder (first_out_of_order tokens.now)) result }
    {
        if let Ok(Some(lines)) = lines_of(alloc, tokens) {
            return Ok(LineIndex {
                lines,
                columns: None,
            });
        }
        match line_order_fault(tokens) {
            Some(i) => Err(Error::LineOrder(i)),
            None => Err(Error::OutOfMemory),
        }
    }

    /// The index of few tokens, which takes no memory. Fails as `new` does, but for memory.
    fn of_few(tokens: &[Token]) -> Result<LineIndex>
        ensures index { IfOk result (λ index. IsIndexOf tokens.now index) }
        ensures error { FailsBy (option_map LineOrder (first_out_of_order tokens.now)) result }
        ensures fault { Reports (option_map LineOrder (first_out_of_order tokens.now)) result }
    {
        if let Some(i) = line_order_fault(tokens) {
            return Err(Error::LineOrder(i));
        }
        Ok(LineIndex {
            lines: Lines::Few,
            columns: None,
        })
    }

    /// As `new`, for lookups of indices: with the columns of many tokens, which are then read in place of the tokens, and with
    /// nothing for few. Fails as `new` does.
    pub fn for_lookups(alloc: Global, tokens: &[Token]) -> Result<LineIndex>
        ensures index { IfOk result (λ index. IsIndexOf tokens.now index) }
        ensures error { FailsBy (option_map LineOrder (first_out_of_order tokens.now)) result }
        ensures fault { Reports (option_map LineOrder (first_out_of_order tokens.now)) result }
    {
        if tokens.len() < MANY {
            return LineIndex::of_few(tokens);
        }
        let mut index = LineIndex::new(alloc, tokens)?;
        index.columns = Some(columns_of(alloc, tokens)?);
        Ok(index)
    }

    /// The tokens on a line, in order. An index that finds lines by halving looks first at `near`, which may be any number and
    /// becomes where the line was found: pass the same variable to calls whose lines are mostly close to one another.
    pub fn tokens_near<'t>(&self, tokens: &'t [Token], line: u32, near: &mut usize) -> &'t [Token]
        requires { IsIndexOf tokens.now self.now }
        ensures { result.now ≡ on_line token_line line tokens.now }
    {
        self.line_near(tokens, line, near).1
    }

    /// How many tokens lie on the lines before a line that has some, and the tokens on it, found as `tokens_near` finds them.
    #[inline(always)]
    fn line_near<'t>(
        &self,
        tokens: &'t [Token],
        line: u32,
        near: &mut usize,
    ) -> (usize, &'t [Token])
        requires { IsIndexOf tokens.now self.now }
        ensures tokens { result.1.now ≡ on_line token_line line tokens.now }
        ensures start { 0 < length result.1.now
            → result.0 ≡ count_before_line line tokens.now }
        ensures columns { IfSome self.now.columns
            (λ kept. AreColumnsAt result.0 result.1.now kept.items) }
    {
        match &self.lines {
            Lines::Starts(starts) => line_by_start(starts.as_slice(), tokens, line),
            Lines::Spans(spans) => line_by_span(spans.as_slice(), tokens, line, near),
            Lines::Few => line_among(tokens, line),
        }
    }

    /// The token at a generated position of sorted tokens, by the rule of `search`; None if the position is before the first
    /// token of its line, or no token is on the line. On a line whose columns go back, it is some token of the line, or None.
    /// Takes no memory.
    pub fn lookup(&self, tokens: &[Token], line: u32, col: u32) -> Option<Token>
        requires { IsIndexOf tokens.now self.now }
        ensures found { are_tokens_sorted tokens.now ≡ true
            → result ≡ token_for tokens.now line col }
        ensures among { IfSome result (Contains (on_line token_line line tokens.now)) }
    {
        search(self.tokens_near(tokens, line, &mut 0), col, &mut 0)
    }

    /// The number of bytes of memory that the index holds; 18446744073709551615 stands for more.
    pub fn bytes(&self) -> usize
        ensures { result ≡ index_bytes self.now }
    {
        let lines = match &self.lines {
            Lines::Starts(starts) => starts.len().saturating_mul(4),
            Lines::Spans(spans) => spans.len().saturating_mul(24),
            Lines::Few => 0,
        };
        let columns = match &self.columns {
            Some(columns) => columns.len().saturating_mul(4),
            None => 0,
        };
        lines.saturating_add(columns)
    }

    /// The columns of the tokens of a line, if they are kept. The tokens lie from the index `start` on.
    #[inline(always)]
    fn columns_on(&self, start: usize, on_line: &[Token]) -> Option<&[u32]>
        requires { IfSome self.now.columns (λ kept. AreColumnsAt start on_line.now kept.items) }
        ensures { IfSome result (λ columns. columns.now ≡ map token_column on_line.now) }
    {
        match &self.columns {
            Some(columns) => Some(columns_at(columns.as_slice(), start, on_line)),
            None => None,
        }
    }

    /// As `search_index` on a line whose tokens lie from the index `start` on.
    #[inline(always)]
    fn search_at(&self, start: usize, on_line: &[Token], col: u32) -> Option<usize>
        requires { IfSome self.now.columns (λ kept. AreColumnsAt start on_line.now kept.items) }
        ensures found { no_column_goes_back token_column on_line.now ≡ true
            → result ≡ index_at on_line.now col }
        ensures within { IfSome result (λ i. i < length on_line.now) }
    {
        match self.columns_on(start, on_line) {
            Some(columns) => columns::search_index(columns, col),
            None => search_index(on_line, col),
        }
    }

    /// As `search_index_clamped` on a line whose tokens lie from the index `start` on.
    #[inline(always)]
    fn search_clamped_at(&self, start: usize, on_line: &[Token], col: u32) -> Option<usize>
        requires { IfSome self.now.columns (λ kept. AreColumnsAt start on_line.now kept.items) }
        ensures found { no_column_goes_back token_column on_line.now ≡ true
            → result ≡ clamped_index_at on_line.now col }
        ensures within { IfSome result (λ i. i < length on_line.now) }
    {
        match self.columns_on(start, on_line) {
            Some(columns) => columns::search_index_clamped(columns, col),
            None => search_index_clamped(on_line, col),
        }
    }

    /// As `search_index_after` on a line whose tokens lie from the index `start` on.
    #[inline(always)]
    fn search_after_at(&self, start: usize, on_line: &[Token], col: u32) -> Option<usize>
        requires { IfSome self.now.columns (λ kept. AreColumnsAt start on_line.now kept.items) }
        ensures found { no_column_goes_back token_column on_line.now ≡ true
            → result ≡ index_at_or_after on_line.now col }
        ensures within { IfSome result (λ i. i < length on_line.now) }
    {
        match self.columns_on(start, on_line) {
            Some(columns) => columns::search_index_after(columns, col),
            None => search_index_after(on_line, col, &mut 0),
        }
    }

    /// What lookups read of an index of the usual form; None of another. It takes no memory.
    #[inline(always)]
    pub fn usual(&self) -> Option<UsualIndex<'_>>
        ensures { (tokens : List TokenRecord) → IsIndexOf tokens self.now
            → IfSome result (IsUsualIndexOf tokens) }
    {
        match (&self.lines, &self.columns) {
            (Lines::Starts(starts), Some(columns)) => Some(UsualIndex {
                starts: starts.as_slice(),
                columns: columns.as_slice(),
            }),
            _ => None,
        }
    }

    /// The index of the token that `lookup` finds. Takes no memory.
    pub fn lookup_index(&self, tokens: &[Token], line: u32, col: u32) -> Option<usize>
        requires { IsIndexOf tokens.now self.now }
        ensures found { are_tokens_sorted tokens.now ≡ true
            → result ≡ index_for tokens.now line col }
        ensures within { IfSome result (λ i. i < length tokens.now) }
    {
        let (start, on_line) = self.line_near(tokens, line, &mut 0);
        Some(start + self.search_at(start, on_line, col)?)
    }

    /// The index of the token that `lookup_clamped` finds. Takes no memory.
    pub fn lookup_index_clamped(&self, tokens: &[Token], line: u32, col: u32) -> Option<usize>
        requires { IsIndexOf tokens.now self.now }
        ensures found { are_tokens_sorted tokens.now ≡ true
            → result ≡ clamped_index_for tokens.now line col }
        ensures within { IfSome result (λ i. i < length tokens.now) }
    {
        let (start, on_line) = self.line_near(tokens, line, &mut 0);
        Some(start + self.search_clamped_at(start, on_line, col)?)
    }

    /// The index of the token that the lookup from a position on finds, by the rule of `search_after`: of several tokens at the
    /// very position the last. Takes no memory.
    pub fn lookup_index_after(&self, tokens: &[Token], line: u32, col: u32) -> Option<usize>
        requires { IsIndexOf tokens.now self.now }
        ensures found { are_tokens_sorted tokens.now ≡ true
            → result ≡ index_after tokens.now line col }
        ensures within { IfSome result (λ i. i < length tokens.now) }
    {
        let (start, on_line) = self.line_near(tokens, line, &mut 0);
        Some(start + self.search_after_at(start, on_line, col)?)
    }

    /// As `lookup`, but a position before the first token of its line gives that token.
    pub fn lookup_clamped(&self, tokens: &[Token], line: u32, col: u32) -> Option<Token>
        requires { IsIndexOf tokens.now self.now }
        ensures found { are_tokens_sorted tokens.now ≡ true
            → result ≡ clamped_token_for tokens.now line col }
        ensures among { IfSome result (Contains (on_line token_line line tokens.now)) }
    {
        search_clamped(self.tokens_near(tokens, line, &mut 0), col)
    }
}
