//! Where the parts of a compiled map lie.
ghost use Rattle.std.specs.Prelude.{◌≡◌, ◌+◌, ◌/◌, ◌<◌, ◌≤◌, length, IfOk, IfErr, None, Some};
ghost use Rattle.oxc_sourcemap_compiled.specs.Words.{header_in, layout_in, AreCounts, HasParts};
ghost use Rattle.oxc_sourcemap_compiled.specs.Words.{block_groups, blocks_for, compiled_fault};
ghost use Rattle.oxc_sourcemap_compiled.specs.Words.{groups_in};
ghost use Rattle.oxc_sourcemap_compiled.specs.Words.{listed_count};

use crate::errors::CompiledError;
use crate::numbers::{u32_at, u64_at};

/// What a header counts.
#[derive(Clone, Copy)]
pub(crate) struct Header {
    pub(crate) tokens: usize,
    /// The lines that have an entry: all up to that of the last token, or those that have tokens.
    pub(crate) lines: usize,
    pub(crate) sources: usize,
    pub(crate) names: usize,
    pub(crate) ignored: usize,
    pub(crate) has_ignore_list: bool,
    /// Whether the numbers of the lines are listed; else entry k is that of line k.
    pub(crate) has_line_numbers: bool,
    /// The bytes of the groups of tokens.
    pub(crate) group_bytes: usize,
}

/// Where the parts begin. The first, where lines begin, lies right behind the header.
#[derive(Clone, Copy)]
pub(crate) struct Layout {
    pub(crate) rows: usize,
    pub(crate) ignored: usize,
    pub(crate) offsets: usize,
    pub(crate) line_numbers: usize,
    pub(crate) groups: usize,
    pub(crate) texts: usize,
}

/// How many groups of eight tokens a block has at most, of a map with this many tokens.
pub(crate) fn groups_in_block(tokens: usize) -> usize
    ensures value { result ≡ block_groups tokens }
    ensures some { 8 ≤ result }
    ensures few { result ≤ 2048 }
{
    if tokens <= 16384 { 2048 } else { 8 }
}

/// How many groups of eight tokens this block has.
#[inline(always)]
pub(crate) fn count_groups(header: &Header, b: usize) -> usize
    requires counts { AreCounts header.now }
    requires few { b ≤ 67108864 }
    ensures value { result ≡ groups_in header.now b }
    ensures few { result ≤ 2048 }
{
    let each = groups_in_block(header.tokens);
    ((header.tokens + 7) / 8).saturating_sub(each * b).min(each)
}

/// The block that has this group of eight tokens, of a map with this many tokens.
#[inline(always)]
pub(crate) fn block_with(tokens: usize, group: usize) -> usize
    requires { group < (tokens + 7) / 8 }
    ensures { result ≡ group / block_groups tokens }
{
    if tokens <= 16384 { 0 } else { group / 8 }
}

/// How many blocks this many tokens take.
pub(crate) fn count_blocks(tokens: usize) -> usize
    requires { tokens ≤ 4294967295 }
    ensures value { result ≡ blocks_for tokens }
    ensures few { result ≤ 67108864 }
{
    if tokens <= 16384 {
        (tokens + 16383) / 16384
    } else {
        (tokens + 63) / 64
    }
}

/// What the header of these bytes counts.
#[tactic(auto, unfolding(crate::specs::Layout::header_in))]
pub(crate) fn header_of(bytes: &[u8]) -> Header
    requires { 104 ≤ length bytes.now }
    ensures header { result ≡ header_in bytes.now }
    ensures counts { AreCounts result }
{
    Header {
        tokens: u32_at(bytes, 56) as usize,
        lines: u32_at(bytes, 60) as usize,
        sources: u32_at(bytes, 64) as usize,
        names: u32_at(bytes, 68) as usize,
        ignored: u32_at(bytes, 72) as usize,
        has_ignore_list: u32_at(bytes, 76) != 0,
        has_line_numbers: u32_at(bytes, 80) != 0,
        group_bytes: u32_at(bytes, 84) as usize,
    }
}

/// How many entries of lines have a number.
fn listed_lines(header: &Header) -> usize
    ensures { result ≡ listed_count header.now }
{
    if header.has_line_numbers {
        header.lines
    } else {
        0
    }
}

/// Where the parts begin.
pub(crate) fn layout_of(header: &Header) -> Layout
    requires { AreCounts header.now }
    ensures { result ≡ layout_in header.now }
{
    let rows = 88 + 4 * (header.lines + 1);
    let ignored = rows + 29 * count_blocks(header.tokens);
    let offsets = ignored + 4 * header.ignored;
    let line_numbers = offsets + 4 * (2 * header.sources + header.names + 4);
    let groups = line_numbers + 4 * listed_lines(header);
    let texts = groups + header.group_bytes;
    Layout {
        rows,
        ignored,
        offsets,
        line_numbers,
        groups,
        texts,
    }
}

/// The header of these bytes, if they are a compiled map, or what is wrong with them.
#[tactic(auto, unfolding(crate::specs::Layout::compiled_fault))]
pub(crate) fn checked_header(bytes: &[u8]) -> Result<Header, CompiledError>
    ensures error { IfErr result (λ e. compiled_fault bytes.now ≡ Some e) }
    ensures fine { IfOk result (λ h. compiled_fault bytes.now ≡ None) }
    ensures header { IfOk result (λ h. h ≡ header_in bytes.now) }
    ensures parts { IfOk result (HasParts (length bytes.now)) }
{
    if bytes.len() < 8 || u32_at(bytes, 0) != 1885433203 {
        return Err(CompiledError::NotCompiled);
    }
    let version = u32_at(bytes, 4);
    if version != 1 {
        return Err(CompiledError::Version(version));
    }
    if bytes.len() < 104 || u64_at(bytes, 8) != bytes.len() as u64 {
        return Err(CompiledError::Length);
    }
    let header = header_of(bytes);
    if layout_of(&header).texts + 16 > bytes.len() {
        return Err(CompiledError::Sizes);
    }
    Ok(header)
}
