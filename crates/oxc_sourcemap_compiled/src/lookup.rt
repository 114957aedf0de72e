//! Lookups of generated positions. `steps` counts the numbers of lines and the columns that are compared.
ghost use Rattle.std.specs.Prelude.{◌≡◌, ◌+◌, ◌-◌, ◌*◌, ◌≤◌, ◌<◌, ℕ, List, true, map, option_map};
ghost use Rattle.std.specs.Prelude.{IfSome};
ghost use Rattle.std.specs.Prelude.{nat_lt, Some, None, if◌then◌else◌};
ghost use Rattle.std.specs.List.{range_with_len};
ghost use Rattle.oxc_sourcemap_lookup.specs.Words.{TokenRecord};
ghost use Rattle.oxc_sourcemap_lookup.specs.Words.{index_at, clamped_index_at, index_at_or_after};
ghost use Rattle.oxc_sourcemap_lookup.specs.Words.{index_before, index_by, token_by, binary_digits};
ghost use Rattle.oxc_sourcemap_compiled.specs.Words.{IsOpened, IsSearchIn, AreInOrder};
ghost use Rattle.oxc_sourcemap_compiled.specs.Words.{entry_begin, entry_end, entry_tokens};
ghost use Rattle.oxc_sourcemap_compiled.specs.Words.{tokens_in};
ghost use Rattle.oxc_sourcemap_compiled.specs.Words.{IsOnLine, IsTokenOn, IsInEntry, IsSpan};
ghost use Rattle.oxc_sourcemap_compiled.specs.Words.{IsIndexIn, IsFoundIn};
ghost use Rattle.oxc_sourcemap_compiled.specs.Words.{IsUpToEnd, AreColumnsOf};

use crate::opened::Opened;
use oxc_sourcemap_lookup::Bias;
use oxc_sourcemap_tokens::{Position, Token};

/// The tokens from one index to before another.
#[derive(Clone, Copy)]
pub(crate) struct Span {
    pub(crate) start: usize,
    pub(crate) end: usize,
}

impl<'a> Opened<'a> {
    /// Where the tokens of an entry of lines lie.
    #[inline(always)]
    pub(crate) fn span(&self, k: usize) -> Span
        requires opened { IsOpened self.now }
        requires there { k < self.now.header.lines }
        ensures start { result.start ≡ entry_begin self.now.bytes.now self.now.header k }
        ensures end { result.end ≡ entry_end self.now.bytes.now self.now.header k }
        ensures span { IsSpan result self.now.header }
    {
        let end = self.line_start(k + 1).min(self.header.tokens);
        let start = self.line_start(k).min(end);
        Span { start, end }
    }

    /// The index behind the token that a lookup finds among these, which are all on one line; that of the first if it finds none.
    #[inline(always)]
    fn end_of_found(&self, span: Span, col: u32, steps: &mut u64) -> usize
        requires span { IsSpan span self.now.header }
        requires search { IsSearchIn self.now 256 steps.old }
        ensures search { IsSearchIn self.now
            (steps.old + binary_digits (span.end - span.start) + 3) steps.new }
        ensures within { IsUpToEnd span result }
        ensures index { (line : List TokenRecord)
            → AreColumnsOf self.now.bytes.now self.now.header span line
            → index_before (result - span.start) ≡ index_at line col }
    {
        if span.start == span.end {
            return span.start;
        }
        let before = self.column_cut(span.start, span.end - 1, u64::from(col), steps);
        *steps += 1;
        before + usize::from(self.column(before) <= col)
    }

    /// The index of the token that a lookup from `col` on finds among these, which are all on one line; the end if it finds none.
    #[inline(always)]
    fn found_after(&self, span: Span, col: u32, steps: &mut u64) -> usize
        requires span { IsSpan span self.now.header }
        requires search { IsSearchIn self.now 256 steps.old }
        ensures search { IsSearchIn self.now
            (steps.old + binary_digits (span.end - span.start) + 3) steps.new }
        ensures within { IsUpToEnd span result }
        ensures index { (line : List TokenRecord)
            → AreColumnsOf self.now.bytes.now self.now.header span line
            → (if nat_lt result span.end then Some (result - span.start) else None)
            ≡ index_at_or_after line col }
    {
        if span.start == span.end {
            return span.start;
        }
        let last = self.column_cut(span.start + 1, span.end, u64::from(col) + 1, steps) - 1;
        *steps += 1;
        last + usize::from(self.column(last) < col)
    }

    /// The index of the token that a lookup finds among those of an entry of lines.
    #[inline(always)]
    fn index_in(&self, k: usize, col: u32, steps: &mut u64) -> Option<usize>
        requires there { k < self.now.header.lines }
        requires search { IsSearchIn self.now 256 steps.old }
        ensures search { IsSearchIn self.now
            (steps.old + binary_digits self.now.header.tokens + 3) steps.new }
        ensures among { IfSome result (IsInEntry self.now.bytes.now self.now.header k) }
        ensures found { AreInOrder self.now.bytes.now self.now.header
            → result ≡ option_map (λ i. entry_begin self.now.bytes.now self.now.header k + i)
            (index_at (entry_tokens self.now.bytes.now self.now.header k) col) }
    {
        let span = self.span(k);
        let end = self.end_of_found(span, col, steps);
        if end > span.start {
            Some(end - 1)
        } else {
            None
        }
    }

    /// The index of the token that a clamped lookup finds among those of an entry of lines.
    #[inline(always)]
    fn index_in_clamped(&self, k: usize, col: u32, steps: &mut u64) -> Option<usize>
        requires there { k < self.now.header.lines }
        requires search { IsSearchIn self.now 256 steps.old }
        ensures search { IsSearchIn self.now
            (steps.old + binary_digits self.now.header.tokens + 3) steps.new }
        ensures among { IfSome result (IsInEntry self.now.bytes.now self.now.header k) }
        ensures found { AreInOrder self.now.bytes.now self.now.header
            → result ≡ option_map (λ i. entry_begin self.now.bytes.now self.now.header k + i)
            (clamped_index_at (entry_tokens self.now.bytes.now self.now.header k) col) }
    {
        let span = self.span(k);
        if span.start == span.end {
            return None;
        }
        let end = self.end_of_found(span, col, steps);
        Some(end.max(span.start + 1) - 1)
    }

    /// The index of the token that a lookup from `col` on finds among those of an entry of lines.
    #[inline(always)]
    fn index_in_after(&self, k: usize, col: u32, steps: &mut u64) -> Option<usize>
        requires there { k < self.now.header.lines }
        requires search { IsSearchIn self.now 256 steps.old }
        ensures search { IsSearchIn self.now
            (steps.old + binary_digits self.now.header.tokens + 3) steps.new }
        ensures among { IfSome result (IsInEntry self.now.bytes.now self.now.header k) }
        ensures found { AreInOrder self.now.bytes.now self.now.header
            → result ≡ option_map (λ i. entry_begin self.now.bytes.now self.now.header k + i)
            (index_at_or_after (entry_tokens self.now.bytes.now self.now.header k) col) }
    {
        let span = self.span(k);
        let found = self.found_after(span, col, steps);
        if found < span.end { Some(found) } else { None }
    }

    /// The index of the token that answers for a generated position by this bias.
    #[inline(always)]
    pub(crate) fn lookup_index(&self, at: Position, bias: Bias, steps: &mut u64) -> Option<usize>
        requires search { IsSearchIn self.now 0 steps.old }
        ensures search { IsSearchIn self.now
            (binary_digits self.now.header.lines
            + binary_digits self.now.header.tokens + 4) steps.new }
        ensures found { AreInOrder self.now.bytes.now self.now.header
            → result ≡ index_by bias (tokens_in self.now.bytes.now self.now.header)
            at.line at.column }
        ensures among { IfSome result (IsOnLine self.now.bytes.now self.now.header at.line) }
    {
        let k = self.entry(at.line, steps)?;
        match bias {
            Bias::Before => self.index_in(k, at.column, steps),
            Bias::Clamped => self.index_in_clamped(k, at.column, steps),
            Bias::After => self.index_in_after(k, at.column, steps),
        }
    }

    /// As `find_index`, in a map of many blocks.
    fn find_index_in_blocks(&self, at: Position, bias: Bias, steps: &mut u64) -> Option<usize>
        requires opened { IsOpened self.now }
        requires many { 16384 < self.now.header.tokens }
        ensures index { IsIndexIn self.now.bytes.now self.now.header bias at result }
        ensures counted { steps.new ≤ binary_digits self.now.header.lines
            + binary_digits self.now.header.tokens + 4 }
    {
        *steps = 0;
        self.lookup_index(at, bias, steps)
    }

    /// The index of the token that answers for a generated position by this bias. All lookups are by this call; `steps` is set.
    // In the first branch the compiler knows that there is one block, and does not ask for each column.
    #[inline(always)]
    pub(crate) fn find_index(&self, at: Position, bias: Bias, steps: &mut u64) -> Option<usize>
        requires opened { IsOpened self.now }
        ensures index { IsIndexIn self.now.bytes.now self.now.header bias at result }
        ensures counted { steps.new ≤ binary_digits self.now.header.lines
            + binary_digits self.now.header.tokens + 4 }
    {
        if self.is_one_block() {
            *steps = 0;
            self.lookup_index(at, bias, steps)
        } else {
            self.find_index_in_blocks(at, bias, steps)
        }
    }

    /// The token that answers for a generated position by this bias, and its index.
    #[inline(always)]
    pub(crate) fn find(&self, at: Position, bias: Bias) -> Option<(usize, Token)>
        requires opened { IsOpened self.now }
        ensures { IsFoundIn self.now.bytes.now self.now.header bias at result }
    {
        let index = self.find_index(at, bias, &mut 0)?;
        Some((index, self.token_on(at.line, index)))
    }

    /// The token that answers for a generated position by this bias.
    pub(crate) fn lookup_token(&self, at: Position, bias: Bias) -> Option<Token>
        requires opened { IsOpened self.now }
        ensures found { AreInOrder self.now.bytes.now self.now.header
            → result ≡ token_by bias (tokens_in self.now.bytes.now self.now.header)
            at.line at.column }
        ensures among { IfSome result (IsTokenOn self.now.bytes.now self.now.header at.line) }
    {
        match self.find(at, bias) {
            Some(found) => Some(found.1),
            None => None,
        }
    }
}
