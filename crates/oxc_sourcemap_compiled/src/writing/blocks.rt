//! Blocks of tokens: their rows, and their groups of eight.
ghost use Rattle.std.specs.Prelude.{◌≡◌, ◌≤◌, ◌<◌, ◌+◌, ◌-◌, ◌*◌, ◌/◌, ◌^◌, ℕ, IfOk, OnOk, length};
ghost use Rattle.std.specs.Prelude.{get_or, slice_get, List};
ghost use Rattle.std.specs.Prelude.{◌++◌, take, drop};
ghost use Rattle.oxc_sourcemap_compiled.specs.Words.{field_number, IsPacked, ArePacked};
ghost use Rattle.oxc_sourcemap_compiled.specs.Words.{AreBlocksOf, block_groups};
ghost use Rattle.oxc_sourcemap_compiled.specs.Words.{stride_of, rows_of, token_bits};
ghost use Rattle.oxc_sourcemap_compiled.specs.Words.{group_of, FieldsFit, IsWritten};
ghost use Rattle.oxc_sourcemap_compiled.specs.Words.{group_bytes_of, id_number, row_of, above_in};
ghost use Rattle.oxc_sourcemap_compiled.specs.Words.{AreNarrow};
ghost use Rattle.oxc_sourcemap_compiled.specs.Words.{groups_of};
ghost use Rattle.oxc_sourcemap_tokens.specs.Results.{lent_item};
ghost use Rattle.std.specs.Prelude.{IfSome};
ghost use Rattle.std.specs.List.{All};

use crate::layout::{block_with, count_blocks, groups_in_block};
use crate::writing::pushing::{push_number, push_u32};
use oxc_sourcemap_tokens::{Memory, Token};
use std::alloc::Global;

/// How a field of the tokens of a block is written: what is taken from each value, and how many bits are left of it.
#[derive(Clone, Copy)]
pub(crate) struct Packing {
    least: u32,
    width: u8,
}

/// How the five fields of the tokens of a block are written.
#[derive(Clone, Copy)]
pub(crate) struct Block {
    column: Packing,
    source: Packing,
    src_line: Packing,
    src_col: Packing,
    name: Packing,
}

/// An id as it is stored: one more, and 0 for none.
#[inline(always)]
fn stored_id(id: Option<u32>) -> u32
    requires { IfSome id (λ n. n < 4294967295) }
    ensures { result ≡ id_number id }
{
    match id {
        Some(id) => id + 1,
        None => 0,
    }
}

/// A field of a token, by its number.
#[inline(always)]
fn field_of(token: &Token, k: usize) -> u32
    requires { k < 5 }
    ensures { result ≡ field_number k token.now }
{
    match k {
        0 => token.get_dst_col(),
        1 => stored_id(token.get_source_id()),
        2 => token.get_src_line(),
        3 => token.get_src_col(),
        _ => stored_id(token.get_name_id()),
    }
}

/// How many bits numbers take that are at most this one.
fn width_of(most: u32) -> u8
    ensures fits { most < 2 ^ result }
    ensures needed { 0 < result → 2 ^ (result - 1) ≤ most }
    ensures small { result ≤ 32 }
{
    match most {
        0 => 0,
        1 => 1,
        2..=3 => 2,
        4..=7 => 3,
        8..=15 => 4,
        16..=31 => 5,
        32..=63 => 6,
        64..=127 => 7,
        128..=255 => 8,
        256..=511 => 9,
        512..=1023 => 10,
        1024..=2047 => 11,
        2048..=4095 => 12,
        4096..=8191 => 13,
        8192..=16383 => 14,
        16384..=32767 => 15,
        32768..=65535 => 16,
        65536..=131071 => 17,
        131072..=262143 => 18,
        262144..=524287 => 19,
        524288..=1048575 => 20,
        1048576..=2097151 => 21,
        2097152..=4194303 => 22,
        4194304..=8388607 => 23,
        8388608..=16777215 => 24,
        16777216..=33554431 => 25,
        33554432..=67108863 => 26,
        67108864..=134217727 => 27,
        134217728..=268435455 => 28,
        268435456..=536870911 => 29,
        536870912..=1073741823 => 30,
        1073741824..=2147483647 => 31,
        _ => 32,
    }
}

/// How a field of these tokens is written.
#[inline(always)]
fn packing_of(tokens: &[Token], k: usize) -> Packing
    requires field { k < 5 }
    requires some { 0 < length tokens.now }
    ensures { IsPacked k 0 tokens.now result }
{
    let mut least = field_of(&tokens[0], k);
    let mut most = least;
    for token in tokens {
        let value = field_of(token, k);
        least = least.min(value);
        most = most.max(value);
    }
    Packing {
        least,
        width: width_of(most - least),
    }
}

/// How the fields of these tokens are written.
fn block_of(tokens: &[Token]) -> Block
    requires { 0 < length tokens.now }
    ensures packed { ArePacked tokens.now result }
    ensures name { IsPacked 4 0 tokens.now result.name }
{
    Block {
        column: packing_of(tokens, 0),
        source: packing_of(tokens, 1),
        src_line: packing_of(tokens, 2),
        src_col: packing_of(tokens, 3),
        name: packing_of(tokens, 4),
    }
}

/// A field with some bits more.
fn widened(packing: Packing, bits: usize) -> Packing
    requires { packing.width + bits ≤ 32 }
    ensures least { result.least ≡ packing.least }
    ensures width { result.width ≡ packing.width + bits }
{
    Packing {
        least: packing.least,
        width: packing.width + bits as u8,
    }
}

/// How the fields of these tokens are written. In the only block of a map names may have up to four bits to spare, so that a token
/// has whole bytes, which are found in fewer instructions.
fn block_among(tokens: &[Token], is_only: bool) -> Block
    requires { 0 < length tokens.now }
    ensures { ArePacked tokens.now result }
{
    let block = block_of(tokens);
    let spare = 7 - (stride(&block) + 7) % 8;
    if !is_only || spare > 4 || usize::from(block.name.width) + spare > 32 {
        return block;
    }
    Block {
        column: block.column,
        source: block.source,
        src_line: block.src_line,
        src_col: block.src_col,
        name: widened(block.name, spare),
    }
}

/// The blocks of these tokens.
pub(crate) fn blocks_of(alloc: Global, tokens: &[Token]) -> Memory<Vec<Block>>
    requires { length tokens.now ≤ 4294967295 }
    ensures { IfOk result (λ blocks. AreBlocksOf tokens.now blocks.items) }
{
    let size = 8 * groups_in_block(tokens.len());
    let count = count_blocks(tokens.len());
    let mut blocks = Vec::with_capacity(alloc, count)?;
    for b in 0..count {
        let end = (size * b + size).min(tokens.len());
        blocks.push(block_among(&tokens[size * b..end], size > 64))?;
    }
    Ok(blocks)
}

/// How many bytes a group takes.
fn stride(block: &Block) -> usize
    requires { AreNarrow block.now }
    ensures value { result ≡ stride_of block.now }
    ensures small { result ≤ 160 }
{
    usize::from(block.column.width)
        + usize::from(block.source.width)
        + usize::from(block.src_line.width)
        + usize::from(block.src_col.width)
        + usize::from(block.name.width)
}

/// How many bytes all groups take, if so many are in each block but the last.
pub(crate) fn group_bytes(blocks: &[Block], each: usize, groups: usize) -> usize
    requires groups { groups ≤ 536870912 }
    requires narrow { All AreNarrow blocks.now }
    ensures value { result ≡ group_bytes_of each groups blocks.now }
    ensures most { result ≤ 160 * groups }
{
    let mut sum = 0;
    let mut rest = groups;
    for block in blocks {
        sum += rest.min(each) * stride(block);
        rest = rest.saturating_sub(each);
    }
    sum
}

/// Appends the row of a block, whose groups begin at this place.
fn push_row(out: &mut Vec<u8>, block: &Block, place: usize) -> Memory<()>
    ensures { OnOk result (out.new.items ≡ out.old.items ++ row_of place block.now) }
{
    let block = *block;
    push_u32(out, place)?;
    push_u32(out, block.column.least as usize)?;
    push_u32(out, block.source.least as usize)?;
    push_u32(out, block.src_line.least as usize)?;
    push_u32(out, block.src_col.least as usize)?;
    push_u32(out, block.name.least as usize)?;
    out.push(block.column.width)?;
    out.push(block.source.width)?;
    out.push(block.src_line.width)?;
    out.push(block.src_col.width)?;
    out.push(block.name.width)?;
    Ok(())
}

/// Appends the rows of blocks, if so many groups are in each but the last.
pub(crate) fn push_rows(
    out: &mut Vec<u8>,
    blocks: &[Block],
    each: usize,
    groups: usize,
) -> Memory<()>
    requires groups { groups ≤ 536870912 }
    requires narrow { All AreNarrow blocks.now }
    ensures { OnOk result (out.new.items ≡ out.old.items ++ rows_of 0 each groups blocks.now) }
{
    let mut place = 0;
    let mut rest = groups;
    for block in blocks {
        push_row(out, block, place)?;
        place += rest.min(each) * stride(block);
        rest = rest.saturating_sub(each);
    }
    Ok(())
}

/// What is written of a field in a token; 0 where there is none.
#[inline(always)]
fn above(token: Option<&Token>, k: usize, packing: Packing) -> u32
    requires { k < 5 }
    ensures { result ≡ above_in k packing (lent_item token.entry) }
{
    match token {
        Some(token) => field_of(token, k).saturating_sub(packing.least),
        None => 0,
    }
}

/// The bits behind the last whole byte: how many, fewer than eight, and the number that they are.
#[derive(Clone, Copy)]
pub(crate) struct Rest {
    bits: u64,
    count: usize,
}

/// Appends a value of this many bits behind the bits that are left, as far as there are whole bytes. What is left then.
#[inline(always)]
fn push_bits(out: &mut Vec<u8>, rest: Rest, value: u64, width: usize) -> Memory<Rest>
    requires left { rest.bits < 2 ^ rest.count }
    requires few { rest.count ≤ 7 }
    requires width { width ≤ 56 }
    requires fits { value < 2 ^ width }
    ensures written { IfOk result (λ r. (old : List ℕ) (bits number : ℕ)
        → IsWritten old out.old.items rest bits number
        → IsWritten old out.new.items r (bits + width) (number + 2 ^ bits * value)) }
    ensures left { IfOk result (λ r. r.bits < 2 ^ r.count) }
    ensures few { IfOk result (λ r. r.count ≤ 7) }
{
    let all = rest.bits + (value << rest.count);
    let count = rest.count + width;
    push_number(out, all, count / 8)?;
    Ok(Rest {
        bits: all >> (count / 8 * 8),
        count: count % 8,
    })
}

/// A number of this many bits, and another one above it.
#[inline(always)]
fn joined_bits(low: u32, width: usize, high: u64) -> u64
    requires width { width ≤ 32 }
    requires fits { low + 2 ^ width * high < 18446744073709551616 }
    ensures { result ≡ low + 2 ^ width * high }
{
    u64::from(low) + (high << width)
}

/// What is written of a token, in one number, where it has few bits.
#[inline(always)]
fn token_number(block: Block, token: Option<&Token>) -> u64
    requires few { stride_of block ≤ 56 }
    requires narrow { AreNarrow block }
    requires fits { FieldsFit block (lent_item token) }
    ensures { result ≡ token_bits block (lent_item token.entry) }
{
    let name = u64::from(above(token, 4, block.name));
    let src_col = above(token, 3, block.src_col);
    let more = joined_bits(src_col, usize::from(block.src_col.width), name);
    let src_line = above(token, 2, block.src_line);
    let more = joined_bits(src_line, usize::from(block.src_line.width), more);
    let source = above(token, 1, block.source);
    let more = joined_bits(source, usize::from(block.source.width), more);
    let column = above(token, 0, block.column);
    joined_bits(column, usize::from(block.column.width), more)
}

/// Appends a field of a token.
fn push_field(
    out: &mut Vec<u8>,
    rest: Rest,
    token: Option<&Token>,
    k: usize,
    packing: Packing,
) -> Memory<Rest>
    requires left { rest.bits < 2 ^ rest.count }
    requires few { rest.count ≤ 7 }
    requires field { k < 5 }
    requires width { packing.width ≤ 32 }
    requires fits { above_in k packing (lent_item token) < 2 ^ packing.width }
    ensures written { IfOk result (λ r. (old : List ℕ) (bits number : ℕ)
        → IsWritten old out.old.items rest bits number
        → IsWritten old out.new.items r (bits + packing.width)
        (number + 2 ^ bits * above_in k packing (lent_item token.entry))) }
    ensures left { IfOk result (λ r. r.bits < 2 ^ r.count) }
    ensures few { IfOk result (λ r. r.count ≤ 7) }
{
    let value = u64::from(above(token, k, packing));
    push_bits(out, rest, value, usize::from(packing.width))
}

/// Appends a token field by field.
fn push_fields(out: &mut Vec<u8>, rest: Rest, block: Block, token: Option<&Token>) -> Memory<Rest>
    requires left { rest.bits < 2 ^ rest.count }
    requires few { rest.count ≤ 7 }
    requires narrow { AreNarrow block }
    requires fits { FieldsFit block (lent_item token) }
    ensures written { IfOk result (λ r. (old : List ℕ) (bits number : ℕ)
        → IsWritten old out.old.items rest bits number
        → IsWritten old out.new.items r (bits + stride_of block)
        (number + 2 ^ bits * token_bits block (lent_item token.entry))) }
    ensures left { IfOk result (λ r. r.bits < 2 ^ r.count) }
    ensures few { IfOk result (λ r. r.count ≤ 7) }
{
    let rest = push_field(out, rest, token, 0, block.column)?;
    let rest = push_field(out, rest, token, 1, block.source)?;
    let rest = push_field(out, rest, token, 2, block.src_line)?;
    let rest = push_field(out, rest, token, 3, block.src_col)?;
    let rest = push_field(out, rest, token, 4, block.name)?;
    Ok(rest)
}

/// Appends a token: as one number where it has at most 56 bits, as nearly all have.
#[inline(always)]
fn push_token(out: &mut Vec<u8>, rest: Rest, block: Block, token: Option<&Token>) -> Memory<Rest>
    requires left { rest.bits < 2 ^ rest.count }
    requires few { rest.count ≤ 7 }
    requires narrow { AreNarrow block }
    requires fits { FieldsFit block (lent_item token) }
    ensures written { IfOk result (λ r. (old : List ℕ) (bits number : ℕ)
        → IsWritten old out.old.items rest bits number
        → IsWritten old out.new.items r (bits + stride_of block)
        (number + 2 ^ bits * token_bits block (lent_item token.entry))) }
    ensures left { IfOk result (λ r. r.bits < 2 ^ r.count) }
    ensures few { IfOk result (λ r. r.count ≤ 7) }
{
    let stride = stride(&block);
    if stride <= 56 {
        push_bits(out, rest, token_number(block, token), stride)
    } else {
        push_fields(out, rest, block, token)
    }
}

/// Appends a group of up to eight tokens.
fn push_group(out: &mut Vec<u8>, block: &Block, tokens: &[Token]) -> Memory<()>
    requires narrow { AreNarrow block.now }
    requires fits { (n : ℕ) → n < 8 → FieldsFit block.now (slice_get tokens.now n) }
    ensures { OnOk result (out.new.items ≡ out.old.items ++ group_of block.now tokens.now) }
{
    let block = *block;
    let mut rest = Rest { bits: 0, count: 0 };
    for n in 0..8 {
        rest = push_token(out, rest, block, tokens.get(n))?;
    }
    Ok(())
}

/// Appends the groups of all tokens.
pub(crate) fn push_groups(out: &mut Vec<u8>, blocks: &[Block], tokens: &[Token]) -> Memory<()>
    requires few { length tokens.now ≤ 4294967295 }
    requires blocks { AreBlocksOf tokens.now blocks.now }
    ensures { OnOk result (out.new.items ≡ out.old.items ++ groups_of blocks.now tokens.now) }
{
    for g in 0..(tokens.len() + 7) / 8 {
        let end = (8 * g + 8).min(tokens.len());
        let block = &blocks[block_with(tokens.len(), g)];
        push_group(out, block, &tokens[8 * g..end])?;
    }
    Ok(())
}
