//! What is opened: bytes, and where the parts of the map lie in them.
ghost use Rattle.std.specs.Prelude.{◌≡◌, ◌+◌, ◌*◌, ◌≤◌, ◌<◌, length, sum, take, IfOk, IfErr, None};
ghost use Rattle.std.specs.Prelude.{true, false};
ghost use Rattle.std.specs.Prelude.{Some};
ghost use Rattle.oxc_sourcemap_tokens.specs.Results.{lent_item};
ghost use Rattle.oxc_sourcemap_compiled.specs.Words.{IsOpened, IsField};
ghost use Rattle.oxc_sourcemap_compiled.specs.Words.{block_count, text_count};
ghost use Rattle.oxc_sourcemap_compiled.specs.Words.{IsRow, HasParts, layout_in, row_base};
ghost use Rattle.oxc_sourcemap_compiled.specs.Words.{HasRoom, groups_in, widths_in};
ghost use Rattle.oxc_sourcemap_compiled.specs.Words.{field_in, row_in, token_in, start_in};
ghost use Rattle.oxc_sourcemap_compiled.specs.Words.{column_of};
ghost use Rattle.oxc_sourcemap_compiled.specs.Words.{ignored_in, text_in, optional_in, offset_in};
ghost use Rattle.oxc_sourcemap_compiled.specs.Words.{part_between, compiled_fault};
ghost use Rattle.oxc_sourcemap_compiled.specs.Words.{number_in_list, listed_in};
ghost use Rattle.std.specs.List.{range_with_len, Contains};
ghost use Rattle.std.specs.Prelude.{map, IsTrue, ◌↔◌};

use crate::errors::CompiledError;
use crate::fields::{Field, Row, mask_of};
use crate::layout::{Header, Layout, checked_header, count_groups, layout_of};
use crate::numbers::u32_at;
use oxc_sourcemap_tokens::Token;

/// Bytes, and where the parts of the map lie in them.
#[derive(Clone, Copy)]
pub(crate) struct Opened<'a> {
    pub(crate) bytes: &'a [u8],
    pub(crate) header: Header,
    pub(crate) layout: Layout,
    /// The first block, which is the only one of a map of at most 16384 tokens.
    pub(crate) front: Row,
}

/// The sum of the first k of five widths.
fn width_before(widths: &[u8], k: usize) -> usize
    requires five { length widths.now ≡ 5 }
    requires few { k < 5 }
    ensures value { result ≡ sum (take k widths.now) }
    ensures front { k ≡ 0 → result ≡ 0 }
    ensures small { result ≤ 1020 }
{
    let one = usize::from(widths[0]);
    let two = one + usize::from(widths[1]);
    let three = two + usize::from(widths[2]);
    match k {
        0 => 0,
        1 => one,
        2 => two,
        3 => three,
        _ => three + usize::from(widths[3]),
    }
}

/// The sum of five widths.
fn width_of_all(widths: &[u8]) -> usize
    requires five { length widths.now ≡ 5 }
    ensures value { result ≡ sum widths.now }
    ensures small { result ≤ 1275 }
{
    let front = usize::from(widths[0]) + usize::from(widths[1]) + usize::from(widths[2]);
    front + usize::from(widths[3]) + usize::from(widths[4])
}

/// A field of a block, by its number.
#[inline(always)]
#[tactic(auto, unfolding(crate::specs::Fields::field_in))]
fn read_field(bytes: &[u8], header: &Header, layout: &Layout, b: usize, k: usize) -> Field
    requires parts { HasParts (length bytes.now) header.now }
    requires layout { layout.now ≡ layout_in header.now }
    requires there { row_base header.now b + 29 ≤ length bytes.now }
    requires few { k < 5 }
    ensures field { IsField (sum (widths_in bytes.now header.now b)) result }
    ensures front { k ≡ 0 → result.first ≡ 0 }
    ensures value { result ≡ field_in bytes.now header.now b k }
{
    let row = layout.rows + 29 * b;
    let widths = &bytes[row + 24..row + 29];
    let width = usize::from(widths[k]).min(32);
    Field {
        least: u32_at(bytes, row + 4 + 4 * k),
        first: width_before(widths, k),
        width,
        mask: mask_of(width),
    }
}

/// How a block is read.
#[inline(always)]
fn read_row(bytes: &[u8], header: &Header, layout: &Layout, b: usize) -> Row
    requires parts { HasParts (length bytes.now) header.now }
    requires layout { layout.now ≡ layout_in header.now }
    requires few { b ≤ 67108864 }
    requires there { row_base header.now b + 29 ≤ length bytes.now }
    ensures row { IsRow result }
    ensures value { result ≡ row_in bytes.now header.now b }
    ensures room { HasRoom (length bytes.now) result (8 * groups_in header.now b) }
{
    let row = layout.rows + 29 * b;
    let place = u32_at(bytes, row) as usize;
    let stride = width_of_all(&bytes[row + 24..row + 29]);
    if place + count_groups(header, b) * stride > header.group_bytes {
        return Row::empty();
    }
    Row {
        at: layout.groups + place,
        stride,
        column: read_field(bytes, header, layout, b, 0),
        source: read_field(bytes, header, layout, b, 1),
        src_line: read_field(bytes, header, layout, b, 2),
        src_col: read_field(bytes, header, layout, b, 3),
        name: read_field(bytes, header, layout, b, 4),
    }
}

/// The part of bytes from one index to another; None where they have none.
#[tactic(auto, unfolding(crate::specs::CompiledMeaning::part_between))]
fn part_between(all: &[u8], start: usize, end: usize) -> Option<&[u8]>
    ensures { lent_item result ≡ part_between all.now start end }
{
    if start <= end && end <= all.len() {
        Some(&all[start..end])
    } else {
        None
    }
}

impl<'a> Opened<'a> {
    pub(crate) fn open(bytes: &'a [u8]) -> Result<Opened<'a>, CompiledError>
        ensures error { IfErr result (λ e. compiled_fault bytes.now ≡ Some e) }
        ensures fine { IfOk result (λ o. compiled_fault bytes.now ≡ None) }
        ensures opened { IfOk result IsOpened }
        ensures bytes { IfOk result (λ o. o.bytes.now ≡ bytes.now) }
    {
        match checked_header(bytes) {
            Ok(header) => {
                let layout = layout_of(&header);
                let front = read_row(bytes, &header, &layout, 0);
                Ok(Opened {
                    bytes,
                    header,
                    layout,
                    front,
                })
            }
            Err(error) => Err(error),
        }
    }

    /// Where the tokens of an entry of lines begin, or those of the last one end.
    #[inline(always)]
    pub(crate) fn line_start(&self, k: usize) -> usize
        requires opened { IsOpened self.now }
        requires there { k ≤ self.now.header.lines }
        ensures value { result ≡ start_in self.now.bytes.now k }
        ensures small { result ≤ 4294967295 }
    {
        u32_at(self.bytes, 88 + 4 * k) as usize
    }

    /// The number of the line of an entry, where these are listed.
    #[inline(always)]
    pub(crate) fn line_number(&self, k: usize) -> u32
        requires opened { IsOpened self.now }
        requires listed { self.now.header.has_line_numbers ≡ true }
        requires there { k < self.now.header.lines }
        ensures { result ≡ number_in_list self.now.bytes.now self.now.header k }
    {
        u32_at(self.bytes, self.layout.line_numbers + 4 * k)
    }

    /// Whether all tokens are in one block.
    #[inline(always)]
    pub(crate) fn is_one_block(&self) -> bool
        ensures few { result ≡ true → self.now.header.tokens ≤ 16384 }
        ensures many { result ≡ false → 16384 < self.now.header.tokens }
    {
        self.header.tokens <= 16384
    }

    /// How a block is read.
    #[inline(always)]
    pub(crate) fn row(&self, b: usize) -> Row
        requires opened { IsOpened self.now }
        requires there { b < block_count self.now.header }
        ensures row { IsRow result }
        ensures value { result ≡ row_in self.now.bytes.now self.now.header b }
        ensures room { HasRoom (length self.now.bytes.now) result
            (8 * groups_in self.now.header b) }
    {
        read_row(self.bytes, &self.header, &self.layout, b)
    }

    /// As `column`, in a map of many blocks.
    fn column_in_blocks(&self, i: usize) -> u32
        requires opened { IsOpened self.now }
        requires many { 16384 < self.now.header.tokens }
        requires there { i < self.now.header.tokens }
        ensures { result ≡ column_of self.now.bytes.now self.now.header i }
    {
        let row = self.row(i / 64);
        row.value(self.bytes, row.column, i % 64)
    }

    /// The column of a token.
    // Inlined for a map of one block; a call for one of many.
    #[inline(always)]
    pub(crate) fn column(&self, i: usize) -> u32
        requires opened { IsOpened self.now }
        requires there { i < self.now.header.tokens }
        ensures { result ≡ column_of self.now.bytes.now self.now.header i }
    {
        if self.is_one_block() {
            self.front.value(self.bytes, self.front.column, i)
        } else {
            self.column_in_blocks(i)
        }
    }

    /// As `token_on`, in a map of many blocks.
    #[tactic(auto, unfolding(crate::specs::CompiledMeaning::token_in))]
    fn token_in_blocks(&self, line: u32, i: usize) -> Token
        requires opened { IsOpened self.now }
        requires many { 16384 < self.now.header.tokens }
        requires there { i < self.now.header.tokens }
        ensures { result ≡ token_in self.now.bytes.now self.now.header line i }
    {
        self.row(i / 64).token(self.bytes, line, i % 64)
    }

    /// The token at an index, on this line.
    #[inline(always)]
    #[tactic(auto, unfolding(crate::specs::CompiledMeaning::token_in))]
    pub(crate) fn token_on(&self, line: u32, i: usize) -> Token
        requires opened { IsOpened self.now }
        requires there { i < self.now.header.tokens }
        ensures { result ≡ token_in self.now.bytes.now self.now.header line i }
    {
        if self.is_one_block() {
            self.front.token(self.bytes, line, i)
        } else {
            self.token_in_blocks(line, i)
        }
    }

    /// An entry of the ignore list.
    pub(crate) fn ignored_at(&self, i: usize) -> u32
        requires opened { IsOpened self.now }
        requires there { i < self.now.header.ignored }
        ensures { result ≡ ignored_in self.now.bytes.now self.now.header i }
    {
        u32_at(self.bytes, self.layout.ignored + 4 * i)
    }

    /// Whether the ignore list has this id of a source.
    pub(crate) fn has_ignored(&self, id: u32) -> bool
        requires opened { IsOpened self.now }
        ensures { IsTrue result ↔ Contains (map (ignored_in self.now.bytes.now self.now.header)
            (range_with_len 0 self.now.header.ignored)) id }
    {
        for i in 0..self.header.ignored {
            if self.ignored_at(i) == id {
                return true;
            }
        }
        false
    }

    /// Where a text begins in the last part, or the last one ends.
    #[inline(always)]
    pub(crate) fn offset(&self, t: usize) -> usize
        requires opened { IsOpened self.now }
        requires there { t ≤ text_count self.now.header }
        ensures value { result ≡ offset_in self.now.bytes.now self.now.header t }
        ensures small { result ≤ 4294967295 }
    {
        u32_at(self.bytes, self.layout.offsets + 4 * t) as usize
    }

    /// A text by its number among all.
    pub(crate) fn text(&self, t: usize) -> Option<&'a [u8]>
        requires opened { IsOpened self.now }
        requires there { t < text_count self.now.header }
        ensures { lent_item result ≡ text_in self.now.bytes.now self.now.header t }
    {
        let bytes = self.bytes;
        part_between(
            &bytes[self.layout.texts..],
            self.offset(t),
            self.offset(t + 1),
        )
    }

    /// The text of a source or a name, by its number among all; empty where the bytes have none.
    pub(crate) fn listed_text(&self, t: usize) -> &'a [u8]
        requires opened { IsOpened self.now }
        requires there { t < text_count self.now.header }
        ensures { result.now ≡ listed_in self.now.bytes.now self.now.header t }
    {
        match self.text(t) {
            Some(text) => text,
            None => &[],
        }
    }

    /// A text that may be absent, by its number among all.
    pub(crate) fn optional_text(&self, t: usize) -> Option<&'a [u8]>
        requires opened { IsOpened self.now }
        requires there { t < text_count self.now.header }
        ensures { lent_item result ≡ optional_in self.now.bytes.now self.now.header t }
    {
        match self.text(t) {
            Some(text) => {
                if text.is_empty() {
                    None
                } else {
                    Some(&text[1..])
                }
            }
            None => None,
        }
    }
}
