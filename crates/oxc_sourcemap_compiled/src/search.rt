//! Searches by halving: of a line, of a block, and of a token in a block. `steps` counts the numbers that are compared; a loop counts
//! them in `compared`, since through `steps` each step would write to memory.
ghost use Rattle.std.specs.Prelude.{◌≡◌, ◌+◌, ◌*◌, ◌/◌, ◌%◌, ◌≤◌, ◌<◌, ℕ, true, nat_lt};
ghost use Rattle.std.specs.Prelude.{if◌then◌else◌};
ghost use Rattle.std.specs.Prelude.{IfSome, IsNone, ◌≢◌, slice_get, length};
ghost use Rattle.oxc_sourcemap_compiled.specs.Words.{IsOpened, IsSearchIn, IsRow, HasRoom};
ghost use Rattle.oxc_sourcemap_compiled.specs.Words.{IsColumnCut};
ghost use Rattle.oxc_sourcemap_compiled.specs.Words.{IsCut, IsCutFound, DoNotFall};
ghost use Rattle.oxc_sourcemap_compiled.specs.Words.{AreRowsExact};
ghost use Rattle.oxc_sourcemap_compiled.specs.Words.{value_in, column_of, least_column_of};
ghost use Rattle.oxc_sourcemap_compiled.specs.Words.{block_count};
ghost use Rattle.oxc_sourcemap_compiled.specs.Words.{number_in_list, line_in, AreInOrder, start_in};
ghost use Rattle.oxc_sourcemap_compiled.specs.Words.{tokens_in, IsTokenAt};
ghost use Rattle.oxc_sourcemap_lookup.specs.Words.{binary_digits};
ghost use Rattle.std.specs.Prelude.{◌-◌};

use crate::fields::Row;
use crate::numbers::u64_at;
use crate::opened::Opened;
use oxc_sourcemap_tokens::Token;

/// All binary digits set if x is less than y, else 0.
fn mask_if_less(x: u32, y: u64) -> usize
    ensures { result ≡ (if nat_lt x y then 18446744073709551615 else 0) }
{
    (u128::from(x).wrapping_sub(u128::from(y)) >> 64) as usize
}

/// `count` if x is less than y, else 0; without a branch, which would often be mispredicted.
#[inline(always)]
fn count_if_less(x: u32, y: u64, count: usize) -> usize
    ensures { result ≡ (if nat_lt x y then count else 0) }
{
    count & mask_if_less(x, y)
}

/// As `count_if_less`, as one step of a search.
fn step_if_less(x: u32, y: u64, count: usize, steps: &mut u64) -> usize
    requires { steps.old ≤ 4294967295 }
    ensures value { result ≡ (if nat_lt x y then count else 0) }
    ensures counted { steps.new ≡ steps.old + 1 }
{
    *steps += 1;
    count_if_less(x, y, count)
}

impl Row {
    /// As `cut`, where a token has whole bytes.
    #[inline(always)]
    fn cut_by_bytes(
        &self,
        bytes: &[u8],
        first: usize,
        count: usize,
        limit: u64,
        steps: &mut u64,
    ) -> usize
        requires whole { self.now.stride % 8 ≡ 0 }
        requires row { IsRow self.now }
        requires there { first + count ≤ 16384 }
        requires room { HasRoom (length bytes.now) self.now (first + count) }
        requires few { steps.old ≤ 65535 }
        ensures { IsCutFound (value_in bytes.now self.now self.now.column) limit first count
            steps.old result steps.new }
    {
        let each = self.stride / 8;
        let mut compared = *steps;
        let mut start = first;
        let mut at = self.at + first * each;
        let mut size = count;
        while size > 0 {
            let half = size / 2;
            let step = size - half;
            let skip = (step - 1) * each;
            let value = self.column.value(u64_at(bytes, at + skip), 0);
            start += step_if_less(value, limit, step, &mut compared);
            at += count_if_less(value, limit, skip + each);
            size = half;
        }
        *steps = compared;
        start
    }

    /// As `cut`, whatever bits a token has.
    #[inline(always)]
    fn cut_by_bits(
        &self,
        bytes: &[u8],
        first: usize,
        count: usize,
        limit: u64,
        steps: &mut u64,
    ) -> usize
        requires row { IsRow self.now }
        requires there { first + count ≤ 16384 }
        requires room { HasRoom (length bytes.now) self.now (first + count) }
        requires few { steps.old ≤ 65535 }
        ensures { IsCutFound (value_in bytes.now self.now self.now.column) limit first count
            steps.old result steps.new }
    {
        let bits = self.stride;
        let mut compared = *steps;
        let mut start = first;
        let mut bit = first * bits;
        let mut size = count;
        while size > 0 {
            let half = size / 2;
            let step = size - half;
            let skip = (step - 1) * bits;
            let value = self.value_at(bytes, self.column, bit + skip);
            start += step_if_less(value, limit, step, &mut compared);
            bit += count_if_less(value, limit, skip + bits);
            size = half;
        }
        *steps = compared;
        start
    }

    /// Where columns stop being below `limit`, among `count` tokens of the block from `first` on.
    #[inline(always)]
    fn cut(&self, bytes: &[u8], first: usize, count: usize, limit: u64, steps: &mut u64) -> usize
        requires row { IsRow self.now }
        requires there { first + count ≤ 16384 }
        requires room { HasRoom (length bytes.now) self.now (first + count) }
        requires few { steps.old ≤ 65535 }
        ensures { IsCutFound (value_in bytes.now self.now self.now.column) limit first count
            steps.old result steps.new }
    {
        if self.stride % 8 == 0 {
            self.cut_by_bytes(bytes, first, count, limit, steps)
        } else {
            self.cut_by_bits(bytes, first, count, limit, steps)
        }
    }
}

impl<'a> Opened<'a> {
    /// The least column of a block.
    #[inline(always)]
    fn least_column(&self, b: usize) -> u32
        requires opened { IsOpened self.now }
        requires there { b < block_count self.now.header }
        ensures { result ≡ least_column_of self.now.bytes.now self.now.header b }
    {
        crate::numbers::u32_at(self.bytes, self.layout.rows + 29 * b + 4)
    }

    /// Where the least columns of blocks stop being below `limit`, among `count` blocks from `first` on.
    #[inline(always)]
    fn block_cut(&self, first: usize, count: usize, limit: u64, steps: &mut u64) -> usize
        requires opened { IsOpened self.now }
        requires there { first + count ≤ block_count self.now.header }
        requires few { steps.old ≤ 65535 }
        ensures counted { steps.new ≡ steps.old + binary_digits count }
        ensures few { steps.new ≤ steps.old + 32 }
        ensures reached { first ≤ result }
        ensures within { result ≤ first + count }
        ensures cut { (cut : ℕ) → IsCut (least_column_of self.now.bytes.now self.now.header)
            limit first (first + count) cut → result ≡ cut }
    {
        let mut compared = *steps;
        let mut start = first;
        let mut size = count;
        while size > 0 {
            let half = size / 2;
            let step = size - half;
            start += step_if_less(
                self.least_column(start + step - 1),
                limit,
                step,
                &mut compared,
            );
            size = half;
        }
        *steps = compared;
        start
    }

    /// The block of 64 tokens in which columns stop being below `limit`, or whose last token is the last below it, among the tokens
    /// from `first` to before `end`. With the halving of some tokens of the block, few more steps are taken than there are
    /// binary digits in the number of tokens.
    #[inline(always)]
    fn block_with_cut(&self, first: usize, end: usize, limit: u64, steps: &mut u64) -> usize
        requires opened { IsOpened self.now }
        requires many { 16384 < self.now.header.tokens }
        requires some { first < end }
        requires there { end ≤ self.now.header.tokens }
        requires few { steps.old ≤ 256 }
        ensures few { steps.new ≤ steps.old + 33 }
        ensures counted { (count : ℕ) → count ≤ 64 → count ≤ end - first
            → steps.new + binary_digits count ≤ steps.old + binary_digits (end - first) + 2 }
        ensures reached { first / 64 ≤ result }
        ensures within { 64 * result < end }
        ensures cut { AreRowsExact self.now.bytes.now self.now.header
            → DoNotFall (column_of self.now.bytes.now self.now.header) first end → (cut : ℕ)
            → IsCut (column_of self.now.bytes.now self.now.header) limit first end cut
            → (64 * result ≤ cut) × (cut ≤ 64 * result + 64) }
    {
        let front = first / 64;
        let last = (end - 1) / 64;
        if front == last {
            return front;
        }
        let block = self.block_cut(front + 1, last - front - 1, limit, steps) - 1;
        *steps += 1;
        if block + 1 == last && u64::from(self.column(64 * last)) < limit {
            last
        } else {
            block
        }
    }

    /// As `column_cut`, in a map of many blocks.
    fn cut_in_blocks(&self, first: usize, end: usize, limit: u64, steps: &mut u64) -> usize
        requires many { 16384 < self.now.header.tokens }
        requires some { first < end }
        requires there { end ≤ self.now.header.tokens }
        requires search { IsSearchIn self.now 256 steps.old }
        ensures { IsColumnCut self.now first end limit steps.old result steps.new }
    {
        let block = self.block_with_cut(first, end, limit, steps);
        let base = 64 * block;
        let start = base.max(first) - base;
        let stop = (base + 64).min(end) - base;
        let row = self.row(block);
        base + row.cut_by_bits(self.bytes, start, stop - start, limit, steps)
    }

    /// Where the columns of tokens stop being below `limit`, among the tokens from `first` to before `end`.
    #[inline(always)]
    pub(crate) fn column_cut(&self, first: usize, end: usize, limit: u64, steps: &mut u64) -> usize
        requires order { first ≤ end }
        requires there { end ≤ self.now.header.tokens }
        requires search { IsSearchIn self.now 256 steps.old }
        ensures { IsColumnCut self.now first end limit steps.old result steps.new }
    {
        if first == end {
            return first;
        }
        if !self.is_one_block() {
            return self.cut_in_blocks(first, end, limit, steps);
        }
        self.front.cut(self.bytes, first, end - first, limit, steps)
    }

    /// Where the numbers of lines stop being below `line`.
    #[inline(always)]
    fn line_cut(&self, line: u32, steps: &mut u64) -> usize
        requires opened { IsOpened self.now }
        requires listed { self.now.header.has_line_numbers ≡ true }
        requires few { steps.old ≡ 0 }
        ensures counted { steps.new ≡ binary_digits self.now.header.lines }
        ensures few { steps.new ≤ 32 }
        ensures within { result ≤ self.now.header.lines }
        ensures cut { (cut : ℕ) → IsCut (number_in_list self.now.bytes.now self.now.header) line 0
            self.now.header.lines cut → result ≡ cut }
    {
        let mut compared = *steps;
        let mut start = 0;
        let mut size = self.header.lines;
        while size > 0 {
            let half = size / 2;
            let step = size - half;
            start += step_if_less(
                self.line_number(start + step - 1),
                u64::from(line),
                step,
                &mut compared,
            );
            size = half;
        }
        *steps = compared;
        start
    }

    /// The entry of a line; None if there is none. Where numbers of lines are not in order, it may be None too. `steps` is set.
    #[inline(always)]
    pub(crate) fn entry(&self, line: u32, steps: &mut u64) -> Option<usize>
        requires opened { IsOpened self.now }
        ensures counted { steps.new ≤ binary_digits self.now.header.lines + 1 }
        ensures few { steps.new ≤ 33 }
        ensures there { IfSome result (λ k. k < self.now.header.lines) }
        ensures line_is { IfSome result (λ k. line_in self.now.bytes.now self.now.header k ≡ line) }
        ensures none { IsNone result → AreInOrder self.now.bytes.now self.now.header → (k : ℕ)
            → k < self.now.header.lines → line_in self.now.bytes.now self.now.header k ≢ line }
    {
        *steps = 0;
        let lines = self.header.lines;
        if !self.header.has_line_numbers {
            let k = line as usize;
            return if k < lines { Some(k) } else { None };
        }
        let k = self.line_cut(line, steps);
        *steps += 1;
        if k < lines && self.line_number(k) == line {
            Some(k)
        } else {
            None
        }
    }
}

impl<'a> Opened<'a> {
    /// How many entries of lines end up to this token, found by halving.
    #[inline(always)]
    fn entry_cut(&self, i: usize) -> usize
        requires opened { IsOpened self.now }
        ensures within { result ≤ self.now.header.lines }
        ensures cut { (cut : ℕ) → IsCut (λ k. start_in self.now.bytes.now (k + 1)) (i + 1) 0
            self.now.header.lines cut → result ≡ cut }
    {
        let mut start = 0;
        let mut size = self.header.lines;
        while size > 0 {
            let half = size / 2;
            let step = size - half;
            if self.line_start(start + step) <= i {
                start += step;
            }
            size = half;
        }
        start
    }

    /// The line of an entry.
    #[inline(always)]
    pub(crate) fn line_of(&self, k: usize) -> u32
        requires opened { IsOpened self.now }
        requires there { k < self.now.header.lines }
        ensures { result ≡ line_in self.now.bytes.now self.now.header k }
    {
        if self.header.has_line_numbers {
            self.line_number(k)
        } else {
            k as u32
        }
    }

    /// The token at an index; None past the last one, or where lines are not in order and no line has it.
    pub(crate) fn token(&self, i: usize) -> Option<Token>
        requires opened { IsOpened self.now }
        ensures found { AreInOrder self.now.bytes.now self.now.header
            → result ≡ slice_get (tokens_in self.now.bytes.now self.now.header) i }
        ensures among { IfSome result (IsTokenAt self.now.bytes.now self.now.header i) }
    {
        if i >= self.header.tokens {
            return None;
        }
        let k = self.entry_cut(i);
        if k < self.header.lines {
            Some(self.token_on(self.line_of(k), i))
        } else {
            None
        }
    }
}
