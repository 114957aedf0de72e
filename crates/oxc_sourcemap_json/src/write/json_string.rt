//! JSON strings.
ghost use Rattle.std.specs.Prelude.{◌≡◌, ◌++◌, ◌+◌, ◌*◌, ◌<◌, ◌≤◌, length, take, string_bytes};
ghost use Rattle.std.specs.Prelude.{OnErr, IfOk, flat_map, map, codes, if◌then◌else◌};
ghost use Rattle.std.specs.List.{prefix_len, join_by};
ghost use Rattle.std.specs.Str.{IsUtf8, IsCharBoundary};
ghost use Rattle.std.specs.Simd.Lanes.{mask_l};
ghost use Rattle.oxc_sourcemap_json.specs.Words.{escaped, json_string, OnlyAdds, comma_text};
ghost use Rattle.oxc_sourcemap_json.specs.Words.{item_text, cow_texts, needs_escape, block_of};
ghost use Rattle.oxc_sourcemap_json.specs.Words.{OnlyMemory, Pushes};
ghost use Rattle.oxc_sourcemap_json.specs.UnescapedBytes.{is_plain};

use crate::write::escapes::write_byte;
use oxc_sourcemap_tokens::{Error, Memory, Result};
use std::borrow::CowStr;
use std::simd::prelude::*;

/// How many bytes are gathered at most before they are added to a text. Where a buffer has 2,048 or more, to clear it costs
/// as much as to fill it.
const ROOM: usize = 2032;

/// How many bytes of a text are escaped at once: each takes up to six bytes, and a block may reach 16 further.
const PIECE: usize = 336;

/// How long a string of a list may be to be gathered with others.
const SHORT: usize = 128;

/// Which of 16 bytes need an escape: a bit for each, the first byte in the lowest.
#[inline(always)]
fn escapes_in(bytes: u8x16) -> u64
    ensures { result ≡ mask_l (map needs_escape bytes) }
{
    let quotes = bytes.simd_eq(u8x16::splat(b'"'));
    let backslashes = bytes.simd_eq(u8x16::splat(b'\\'));
    let controls = bytes.simd_lt(u8x16::splat(b' '));
    (quotes | backslashes | controls).to_bitmask()
}

/// How many bytes at the front of a block need no escape.
#[inline(always)]
fn plain_in(block: u8x16) -> usize
    ensures { result ≡ prefix_len is_plain block }
{
    let found = escapes_in(block);
    if found == 0 {
        16
    } else {
        found.trailing_zeros() as usize
    }
}

// A function `place_` writes into `buf` from index `at` on. The bytes after what it wrote have no meaning.

/// Fewer than 16 bytes, with spaces behind them.
fn last_block(text: &[u8]) -> u8x16
    requires { length text.now ≤ 16 }
    ensures { result ≡ block_of text.now }
{
    let mut block = [b' '; 16];
    block[..text.len()].copy_from_slice(text);
    u8x16::from_array(block)
}

/// The first 16 bytes of a text, with spaces behind a shorter one.
#[inline(always)]
fn first_block(text: &[u8]) -> u8x16
    ensures { result ≡ block_of text.now }
{
    if text.len() >= 16 {
        u8x16::from_slice(text)
    } else {
        last_block(text)
    }
}

/// Places the bytes at the front of a text that need no escape, at most 16. Returns how many.
#[inline(always)]
fn write_run(buf: &mut [u8], at: usize, text: &[u8]) -> usize
    requires room { at + 16 ≤ length buf.old }
    ensures bytes { take (at + result) buf.new ≡ take at buf.old ++ take result text.now }
    ensures plain { result ≤ prefix_len is_plain text.now }
    ensures few { result ≤ 16 }
{
    let block = first_block(text);
    block.copy_to_slice(&mut buf[at..]);
    plain_in(block).min(text.len())
}

/// Places a text, escaped. Returns the index after it.
fn write_escaped(buf: &mut [u8], at: usize, text: &[u8]) -> usize
    requires room { at + 6 * length text.now + 16 ≤ length buf.old }
    ensures bytes { take result buf.new ≡ take at buf.old ++ flat_map escaped text.now }
    ensures within { result ≤ at + 6 * length text.now }
{
    let mut end = at;
    let mut done = 0;
    while done < text.len() {
        let plain = write_run(buf, end, &text[done..]);
        end += plain;
        done += plain;
        if plain < 16 && done < text.len() {
            end = write_byte(buf, end, text[done]);
            done += 1;
        }
    }
    end
}

/// How many bytes of a text are gathered at once: all, or as many as have room however they are escaped.
fn gathered_len(text: &str) -> usize
    requires { 0 < length text.now }
    ensures boundary { IsCharBoundary text.now result }
    ensures some { 0 < result }
    ensures few { result ≤ 336 }
{
    text.floor_char_boundary(PIECE)
}

// After an `Err` a function `push_` leaves a beginning of what it adds; `push_json_string` and `encode_parts_into` cut it off.

/// Adds bytes that were gathered.
fn push_gathered(out: &mut String, bytes: &[u8]) -> Memory<()>
    requires { IsUtf8 bytes.now }
    ensures ok { Pushes result out.old out.new bytes.now }
    ensures adds { OnlyAdds out.old out.new }
{
    out.push_str(std::str::from_utf8(bytes).unwrap())
}

/// Adds the bytes of a text, escaped as in a JSON string.
fn push_escaped(out: &mut String, text: &str) -> Memory<()>
    ensures ok { Pushes result out.old out.new (flat_map escaped text.now) }
    ensures adds { OnlyAdds out.old out.new }
{
    let mut buf = [0u8; ROOM];
    let mut rest = text;
    while !rest.is_empty() {
        let (piece, after) = rest.split_at(gathered_len(rest));
        let end = write_escaped(&mut buf, 0, piece.as_bytes());
        push_gathered(out, &buf[..end])?;
        rest = after;
    }
    Ok(())
}

/// Adds a text as a JSON string.
#[tactic(auto, unfolding(crate::specs::JsonString::json_string))]
fn push_quoted(out: &mut String, text: &str) -> Memory<()>
    ensures ok { Pushes result out.old out.new (json_string text.now) }
    ensures adds { OnlyAdds out.old out.new }
{
    out.push('"')?;
    push_escaped(out, text)?;
    out.push('"')?;
    Ok(())
}

/// How many commas stand before a string of a list.
fn commas(is_first: bool) -> usize
    ensures value { result ≡ (if is_first then 0 else 1) }
    ensures few { result ≤ 1 }
{
    usize::from(!is_first)
}

/// Places a text as a JSON string of a list. Returns the index after it.
fn write_item(buf: &mut [u8], at: usize, is_first: bool, text: &[u8]) -> usize
    requires room { at + 6 * length text.now + 19 ≤ length buf.old }
    ensures bytes { take result buf.new ≡ take at buf.old ++ item_text is_first text.now }
    ensures within { result ≤ at + 6 * length text.now + 3 }
{
    buf[at] = b',';
    let start = at + commas(is_first);
    buf[start] = b'"';
    let end = write_escaped(buf, start + 1, text);
    buf[end] = b'"';
    end + 1
}

/// Makes room for a short string behind the first `len` bytes, which are gathered. Returns how many are gathered then.
fn make_room(out: &mut String, buf: &[u8], len: usize) -> Memory<usize>
    requires within { len ≤ length buf.now }
    requires utf8 { IsUtf8 (take len buf.now) }
    ensures ok { IfOk result (λ at. string_bytes out.new ++ take at buf.now
        ≡ string_bytes out.old ++ take len buf.now) }
    ensures utf8 { IfOk result (λ at. IsUtf8 (take at buf.now)) }
    ensures room { IfOk result (λ at. at ≤ 1245) }
    ensures adds { OnlyAdds out.old out.new }
{
    if len <= ROOM - 6 * SHORT - 19 {
        return Ok(len);
    }
    push_gathered(out, &buf[..len])?;
    Ok(0)
}

/// Adds the comma before an item of a list; there is none before the first one.
pub(crate) fn push_comma(out: &mut String, is_first: bool) -> Memory<()>
    ensures ok { Pushes result out.old out.new (comma_text is_first) }
    ensures adds { OnlyAdds out.old out.new }
{
    if is_first {
        return Ok(());
    }
    out.push(',')
}

/// Adds what is gathered, and a text as a JSON string of a list.
fn push_long_item(out: &mut String, gathered: &[u8], is_first: bool, text: &str) -> Memory<()>
    requires { IsUtf8 gathered.now }
    ensures ok { Pushes result out.old out.new (gathered.now ++ item_text is_first text.now) }
    ensures adds { OnlyAdds out.old out.new }
{
    push_gathered(out, gathered)?;
    push_comma(out, is_first)?;
    push_quoted(out, text)
}

/// Gathers a text as a JSON string of a list behind the first `len` bytes; adds these before if there is no room, and the
/// text too if it is long. Returns how many bytes are gathered then.
fn push_item(
    out: &mut String,
    buf: &mut [u8],
    len: usize,
    is_first: bool,
    text: &str,
) -> Memory<usize>
    requires room { length buf.old ≡ 2032 }
    requires within { len ≤ 2032 }
    requires utf8 { IsUtf8 (take len buf.old) }
    ensures ok { IfOk result (λ end. string_bytes out.new ++ take end buf.new
        ≡ (string_bytes out.old ++ take len buf.old) ++ item_text is_first text.now) }
    ensures utf8 { IfOk result (λ end. IsUtf8 (take end buf.new)) }
    ensures within { IfOk result (λ end. end ≤ 2032) }
    ensures adds { OnlyAdds out.old out.new }
{
    if text.len() > SHORT {
        push_long_item(out, &buf[..len], is_first, text)?;
        return Ok(0);
    }
    let at = make_room(out, buf, len)?;
    Ok(write_item(buf, at, is_first, text.as_bytes()))
}

/// Adds texts as JSON strings with commas between them.
pub(crate) fn push_json_strings(texts: &[CowStr<'_>], out: &mut String) -> Memory<()>
    ensures ok { Pushes result out.old out.new
        (join_by json_string (codes ",") (cow_texts texts.now)) }
    ensures adds { OnlyAdds out.old out.new }
{
    let mut buf = [0u8; ROOM];
    let mut len: usize = 0;
    let mut is_first = true;
    for text in texts {
        len = push_item(out, &mut buf, len, is_first, text.as_str())?;
        is_first = false;
    }
    push_gathered(out, &buf[..len])
}

/// Appends a string to `out` as a JSON string (RFC 8259, section 7): in quotes, with `\"`, `\\`, `\b`, `\t`, `\n`, `\f` and
/// `\r` for the characters that have such an escape, and `\u00` with two lower-case hexadecimal digits for every other
/// character below U+0020. All other characters are written as they are.
///
/// ```rust
/// use oxc_sourcemap::push_json_string;
///
/// let mut out = String::new(alloc);
/// push_json_string("a\"b\n", &mut out)?;
/// assert_eq!(rt; out.as_str(), r#""a\"b\n""#);
/// ```
///
/// Fails only with `OutOfMemory`; `out` is then as it was.
pub fn push_json_string(text: &str, out: &mut String) -> Result<()>
    ensures text { Pushes result out.old out.new (json_string text.now) }
    ensures only_memory { OnlyMemory result }
    ensures unchanged { OnErr result (string_bytes out.new ≡ string_bytes out.old) }
{
    let before = out.len();
    if let Err(error) = push_quoted(out, text) {
        out.truncate(before);
        return Err(Error::from(error));
    }
    Ok(())
}
