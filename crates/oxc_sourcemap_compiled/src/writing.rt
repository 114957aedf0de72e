//! Writing compiled maps.
ghost use Rattle.std.specs.Prelude.{◌≡◌, ◌≤◌, ◌<◌, ◌⊎◌, ◌++◌, ℕ, IfErr, IfOk, OnOk, Err, false};
ghost use Rattle.std.specs.Prelude.{true, ◌≢◌};
ghost use Rattle.std.specs.Prelude.{length, get_or, is_some};
ghost use Rattle.oxc_sourcemap_tokens.specs.declared.errors.error.Error.TheVariants.{OutOfMemory};
ghost use Rattle.oxc_sourcemap_tokens.specs.declared.errors.error.Error.TheVariants.{TooLarge};
ghost use Rattle.oxc_sourcemap_tokens.specs.declared.errors.plan_error.PlanError.TheVariants.{Map};
ghost use Rattle.oxc_sourcemap_tokens.specs.declared.errors.plan_error.PlanError.TheVariants.{Unsorted};
ghost use Rattle.oxc_sourcemap_parts.specs.Words.{are_tokens_sorted, record_of_parts};
ghost use Rattle.oxc_sourcemap_compiled.specs.Words.{AreLinesOf, AreBlocksOf, AreCountsOf};
ghost use Rattle.oxc_sourcemap_compiled.specs.Words.{AreBytesOf, ignored_of, header_bytes};
ghost use Rattle.oxc_sourcemap_compiled.specs.Words.{parts_bytes, stored_count, text_offset};
ghost use Rattle.oxc_sourcemap_compiled.specs.Words.{header_of_map};
ghost use Rattle.oxc_sourcemap_compiled.specs.Words.{all_group_bytes};
ghost use Rattle.oxc_sourcemap_compiled.specs.Compiled.{map_bytes};
ghost use Rattle.oxc_sourcemap_compiled.specs.Words.{compiled_meaning, compiled_of, FitsFormat};
ghost use Rattle.oxc_sourcemap_compiled.specs.Words.{IsInOrder, FitsCompiled};
ghost use Rattle.std.specs.Prelude.{◌+◌, ◌/◌, Ok};
ghost use Rattle.oxc_sourcemap_compiled.specs.Compiled.{flag_of, listed_table};

mod blocks;
mod fitting;
mod lines;
mod pushing;
mod texts;

use crate::layout::{Header, groups_in_block, layout_of};
use crate::writing::blocks::{Block, blocks_of, group_bytes, push_groups, push_rows};
use crate::writing::fitting::{have_32_bits, parts_fit};
use crate::writing::lines::{all_lines, filled_lines, line_count, push_starts};
use crate::writing::pushing::{push_number, push_table, push_u32};
use crate::writing::texts::{push_offsets, push_texts, text_bytes};
use oxc_sourcemap_parts::{SourceMapParts, are_sorted};
use oxc_sourcemap_tokens::{Error, Memory, PlanError, Token};
use std::alloc::Global;

/// The entries of the ignore list; none where there is no list.
pub(crate) fn ignored_ids<'p>(parts: &'p SourceMapParts<'_>) -> &'p [u32]
    ensures { result.now ≡ ignored_of (record_of_parts parts.now) }
{
    match &parts.ignore_list {
        Some(ids) => ids.as_slice(),
        None => &[],
    }
}

/// 1 for true, 0 for false.
fn flag(is: bool) -> usize
    ensures { result ≡ flag_of is }
{
    if is { 1 } else { 0 }
}

/// Appends the header of a compiled map of this length.
fn push_header(
    out: &mut Vec<u8>,
    header: &Header,
    length: u64,
    text_length: u64,
    stamp: &[u8; 32],
) -> Memory<()>
    ensures { OnOk result (out.new.items
        ≡ out.old.items ++ header_bytes header.now length text_length stamp.now) }
{
    push_u32(out, 1885433203)?;
    push_u32(out, 1)?;
    push_number(out, length, 8)?;
    push_number(out, text_length, 8)?;
    out.extend_from_slice(stamp)?;
    push_u32(out, header.tokens)?;
    push_u32(out, header.lines)?;
    push_u32(out, header.sources)?;
    push_u32(out, header.names)?;
    push_u32(out, header.ignored)?;
    push_u32(out, flag(header.has_ignore_list))?;
    push_u32(out, flag(header.has_line_numbers))?;
    push_u32(out, header.group_bytes)?;
    Ok(())
}

/// Whether something is counted that does not fit into 32 bits.
fn has_large_counts(parts: &SourceMapParts<'_>) -> bool
    ensures small { (result ≡ false) → AreCountsOf parts.now }
    ensures large { (result ≡ true) → ¬ AreCountsOf parts.now }
{
    parts.tokens.as_slice().len() > 4294967295
        || parts.sources.len() > 4294967295
        || parts.names.len() > 4294967295
        || ignored_ids(parts).len() > 4294967295
}

/// The lines that have an entry, and whether their numbers are listed: all lines, where there are at most four for each that
/// has tokens, else those that have tokens.
fn entries_of(alloc: Global, tokens: &[Token]) -> Memory<(Vec<u32>, bool)>
    requires sorted { are_tokens_sorted tokens.now ≡ true }
    requires few { length tokens.now ≤ 4294967295 }
    ensures lines { IfOk result (λ found. AreLinesOf tokens.now found.0.items) }
    ensures few { IfOk result (λ found. length found.0.items ≤ 4294967295) }
    ensures all { IfOk result (λ found. found.1 ≡ false → (k : ℕ) → k < length found.0.items
        → get_or found.0.items k 0 ≡ k) }
{
    let filled = filled_lines(alloc, tokens)?;
    let count = line_count(tokens);
    if count <= 4294967295 && count <= 4 * filled.len() as u64 {
        Ok((all_lines(alloc, tokens, count as usize)?, false))
    } else {
        Ok((filled, true))
    }
}

/// Appends the numbers of lines, where they are listed.
fn push_listed(out: &mut Vec<u8>, lines: &[u32], has_line_numbers: bool) -> Memory<()>
    ensures { OnOk result (out.new.items
        ≡ out.old.items ++ listed_table has_line_numbers lines.now) }
{
    if has_line_numbers {
        push_table(out, lines)
    } else {
        Ok(())
    }
}

/// Appends the parts of a compiled map behind its header.
fn push_parts(
    out: &mut Vec<u8>,
    parts: &SourceMapParts<'_>,
    lines: &[u32],
    has_line_numbers: bool,
    blocks: &[Block],
) -> Memory<()>
    requires sorted { are_tokens_sorted (record_of_parts parts.now).tokens ≡ true }
    requires small { AreCountsOf parts.now }
    requires few_texts { text_offset (record_of_parts parts.now)
        (stored_count (record_of_parts parts.now)) ≤ 4294967295 }
    requires blocks { AreBlocksOf (record_of_parts parts.now).tokens blocks.now }
    ensures { OnOk result (out.new.items ≡ out.old.items
        ++ parts_bytes (record_of_parts parts.now) lines.now has_line_numbers blocks.now) }
{
    let tokens = parts.tokens.as_slice();
    push_starts(out, tokens, lines)?;
    push_rows(
        out,
        blocks,
        groups_in_block(tokens.len()),
        (tokens.len() + 7) / 8,
    )?;
    push_table(out, ignored_ids(parts))?;
    push_offsets(out, parts)?;
    push_listed(out, lines, has_line_numbers)?;
    push_groups(out, blocks, tokens)?;
    push_texts(out, parts)?;
    push_number(out, 0, 16)?;
    Ok(())
}

/// What is made of the parts of a map before they are written.
#[derive(Clone, Copy)]
struct Made<'m> {
    lines: &'m [u32],
    has_line_numbers: bool,
    blocks: &'m [Block],
    group_bytes: usize,
    text_bytes: usize,
}

/// The header of a compiled map.
fn header_for(parts: &SourceMapParts<'_>, made: Made<'_>) -> Header
    requires { made.group_bytes
        ≡ all_group_bytes (record_of_parts parts.now).tokens made.blocks.now }
    ensures { result ≡ header_of_map (record_of_parts parts.now) made.entry.lines.now
        made.entry.has_line_numbers made.entry.blocks.now }
{
    Header {
        tokens: parts.tokens.as_slice().len(),
        lines: made.lines.len(),
        sources: parts.sources.len(),
        names: parts.names.len(),
        ignored: ignored_ids(parts).len(),
        has_ignore_list: parts.ignore_list.is_some(),
        has_line_numbers: made.has_line_numbers,
        group_bytes: made.group_bytes,
    }
}

/// The bytes of a map.
fn write_map(
    alloc: Global,
    parts: &SourceMapParts<'_>,
    made: Made<'_>,
    text_length: u64,
    stamp: &[u8; 32],
) -> Memory<Vec<u8>>
    requires sorted { are_tokens_sorted (record_of_parts parts.now).tokens ≡ true }
    requires small { AreCountsOf parts.now }
    requires few_lines { length made.lines.now ≤ 4294967295 }
    requires few_groups { made.group_bytes ≤ 4294967295 }
    requires few_texts { made.text_bytes ≤ 4294967295 }
    requires blocks { AreBlocksOf (record_of_parts parts.now).tokens made.blocks.now }
    requires group_bytes { made.group_bytes
        ≡ all_group_bytes (record_of_parts parts.now).tokens made.blocks.now }
    requires text_bytes { made.text_bytes ≡ text_offset (record_of_parts parts.now)
        (stored_count (record_of_parts parts.now)) }
    ensures { IfOk result (λ bytes. bytes.items ≡ map_bytes (record_of_parts parts.now)
        made.entry.lines.now made.entry.has_line_numbers made.entry.blocks.now text_length
        stamp.now) }
{
    let header = header_for(parts, made);
    let length = layout_of(&header).texts + made.text_bytes + 16;
    let mut out = Vec::with_capacity(alloc, length)?;
    push_header(&mut out, &header, length as u64, text_length, stamp)?;
    push_parts(
        &mut out,
        parts,
        made.lines,
        made.has_line_numbers,
        made.blocks,
    )?;
    Ok(out)
}

/// The compiled map of these parts, whose text had `text_length` bytes (0 if there was none), with 32 bytes that are kept as they
/// are, as a hash of the text. They mean the map, but for its chunks and contents past the last source, and are in order.
///
/// ```rust
/// use oxc_sourcemap::{CompiledMap, SourceMap, compile, parts_of};
///
/// let text = r#"{"version":3,"sources":["a.ts"],"mappings":"AAAA,IACI"}"#;
/// let map = SourceMap::from_json_string(alloc, text)?;
/// let bytes = compile(alloc, parts_of(&map), text.len() as u64, &[0; 32])?;
/// let compiled = CompiledMap::open(&bytes)?;
/// let at = compiled.lookup_token(0, 5).and_then(|token| compiled.original_of(token));
/// assert!(rt; at.is_some_and(|at| at.source == "a.ts" && at.src_line == 1 && at.src_col == 4));
/// ```
///
/// Fails with `Unsorted` if the tokens are not sorted, then with `Map(TooLarge)` if there are more than 4294967295 tokens, sources,
/// names or entries of the ignore list, or more bytes of texts or of groups of tokens (a group of eight tokens has at most 160), and with
/// `Map(OutOfMemory)`.
pub fn compile(
    alloc: Global,
    parts: &SourceMapParts<'_>,
    text_length: u64,
    stamp: &[u8; 32],
) -> Result<Vec<u8>, PlanError>
    ensures bytes { IfOk result (λ bytes. AreBytesOf (record_of_parts parts.now) text_length
        stamp.now bytes.items) }
    ensures fits { IfOk result (λ bytes. FitsFormat (record_of_parts parts.now) text_length
        stamp.now) }
    ensures meaning { IfOk result (λ bytes. compiled_meaning bytes.items
        ≡ Ok (compiled_of (record_of_parts parts.now) text_length stamp.now)) }
    ensures order { IfOk result (λ bytes. IsInOrder bytes.items) }
    ensures unsorted { are_tokens_sorted (record_of_parts parts.now).tokens ≡ false
        → result ≡ Err Unsorted }
    ensures errors { IfErr result
        (λ e. (e ≡ Unsorted) ⊎ (e ≡ Map TooLarge) ⊎ (e ≡ Map OutOfMemory)) }
    ensures sorted { IfErr result (λ e. e ≡ Unsorted
        → are_tokens_sorted (record_of_parts parts.now).tokens ≡ false) }
    ensures large { FitsCompiled (record_of_parts parts.now) → result ≢ Err (Map TooLarge) }
{
    let tokens = parts.tokens.as_slice();
    if !are_sorted(tokens) {
        return Err(PlanError::Unsorted);
    }
    if has_large_counts(parts) {
        return Err(PlanError::Map(Error::TooLarge));
    }
    let (lines, has_line_numbers) = entries_of(alloc, tokens)?;
    let blocks = blocks_of(alloc, tokens)?;
    let group_bytes = group_bytes(
        blocks.as_slice(),
        groups_in_block(tokens.len()),
        (tokens.len() + 7) / 8,
    );
    let text_bytes = text_bytes(parts);
    if group_bytes > 4294967295 || text_bytes > 4294967295 {
        return Err(PlanError::Map(Error::TooLarge));
    }
    let made = write_map(
        alloc,
        parts,
        Made {
            lines: lines.as_slice(),
            has_line_numbers,
            blocks: blocks.as_slice(),
            group_bytes,
            text_bytes,
        },
        text_length,
        stamp,
    )?;
    parts_fit(parts, text_length, stamp);
    have_32_bits(lines.as_slice());
    Ok(made)
}
