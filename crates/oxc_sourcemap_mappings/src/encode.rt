//! Writing the `mappings` text.
ghost use Rattle.std.specs.Prelude.{◌≡◌, ◌↔◌, ◌+◌, ◌-◌, ◌*◌, ◌/◌, ◌%◌, ◌^◌, ◌<◌, ◌≤◌, ◌++◌, ◌&&◌};
ghost use Rattle.std.specs.Prelude.{◌∷◌, [], length, min, replicate, string_bytes, OnOk, OnErr};
ghost use Rattle.std.specs.Prelude.{IfOk, IsTrue, Some, None, nat_le, take, flat_map};
ghost use Rattle.std.specs.List.{AllByRecursion};
ghost use Rattle.std.specs.Option.{option_map_or, unwrap_or};
ghost use Rattle.oxc_sourcemap_mappings.specs.Words.{OutOfMemory, last_line, letter};
ghost use Rattle.oxc_sourcemap_mappings.specs.Words.{vlq_text, raw_delta, delta_text, canonical};
ghost use Rattle.oxc_sourcemap_mappings.specs.Words.{back_from, header};
ghost use Rattle.oxc_sourcemap_mappings.specs.Words.{lent_chunks, chunk_text, chunk_text_fault};
ghost use Rattle.oxc_sourcemap_mappings.specs.Words.{writing_fault, state_of, text_from, OnlyAdds};
ghost use Rattle.oxc_sourcemap_mappings.specs.Words.{line_marks, column_from, fields_text};
ghost use Rattle.oxc_sourcemap_mappings.specs.Words.{IfWritten, AreWritten, FailsBy, Reports};
ghost use Rattle.oxc_sourcemap_mappings.specs.Words.{Pushes};

use crate::near::{rank_of, write_near};
use oxc_sourcemap_tokens::{
    Error, Memory, Previous, Result, Token, TokenChunk, chunk_fault, line_back_from,
    line_order_fault, next_chunk, tokens_in_bounds, tokens_of,
};

/// How many bytes of the text are gathered before they are appended to it.
const BLOCK: usize = 1024;

/// The characters of the digits in the base64 alphabet.
static LETTERS: [u8; 64] = *b"ABCDEFGHIJKLMNOPQRSTUVWXYZabcdefghijklmnopqrstuvwxyz0123456789+/";

/// The character of a digit.
#[inline(always)]
fn letter_of(digit: u8) -> u8
    requires { digit < 64 }
    ensures { result ≡ letter digit }
{
    LETTERS[digit as usize]
}

// A function `place_` writes into `buf` from index `at` on, and returns the index after what it wrote. The bytes from there
// on have no meaning.

/// Places a raw number, lowest digit first.
fn write_digits(buf: &mut [u8], at: usize, raw: u64) -> usize
    requires room { at + 7 ≤ length buf.old }
    requires small { raw < 2 ^ 33 }
    ensures bytes { take result buf.new ≡ take at buf.old ++ vlq_text raw }
    ensures within { result ≤ at + 7 }
{
    let mut rest = raw;
    let mut end = at;
    while rest >= 32 {
        buf[end] = letter_of((rest % 32) as u8 + 32);
        rest /= 32;
        end += 1;
    }
    buf[end] = letter_of(rest as u8);
    end + 1
}

/// The raw number of the delta `to - from`.
fn raw_of(to: u32, from: u32) -> u64
    ensures value { result ≡ raw_delta to from }
    ensures small { result < 2 ^ 33 }
{
    u64::from(to.abs_diff(from)) * 2 + u64::from(to < from)
}

/// Places the delta `to - from`, of any size.
#[inline(always)]
fn write_delta(buf: &mut [u8], at: usize, to: u32, from: u32) -> usize
    requires room { at + 7 ≤ length buf.old }
    ensures bytes { take result buf.new ≡ take at buf.old ++ delta_text to from }
    ensures within { result ≤ at + 7 }
{
    let rank = rank_of(to, from);
    if rank < 1024 {
        write_near(buf, at, rank)
    } else {
        write_digits(buf, at, raw_of(to, from))
    }
}

/// Places the name of a mapped token, if it has one.
#[inline(always)]
fn write_name(buf: &mut [u8], at: usize, name_id: Option<u32>, from: u32) -> usize
    requires room { at + 7 ≤ length buf.old }
    ensures bytes { take result buf.new ≡ take at buf.old
        ++ option_map_or (λ id. delta_text id from) name_id [] }
    ensures within { result ≤ at + 7 }
{
    match name_id {
        Some(name_id) => write_delta(buf, at, name_id, from),
        None => at,
    }
}

/// Places the fields of any token, its generated column relative to `column`.
#[cold]
fn write_any_fields(
    buf: &mut [u8],
    at: usize,
    column: u32,
    previous: Previous,
    token: &Token,
) -> usize
    requires room { at + 35 ≤ length buf.old }
    ensures bytes { take result buf.new ≡ take at buf.old
        ++ fields_text column (state_of previous) token.now }
    ensures within { result ≤ at + 35 }
{
    let at = write_delta(buf, at, token.get_dst_col(), column);
    let Some(source_id) = token.get_source_id() else {
        return at;
    };
    let at = write_delta(buf, at, source_id, previous.source_id);
    let at = write_delta(buf, at, token.get_src_line(), previous.src_line);
    let at = write_delta(buf, at, token.get_src_col(), previous.src_col);
    write_name(buf, at, token.get_name_id(), previous.name_id)
}

/// Places the fields of a token, its generated column relative to `column`. Most tokens have the source of the one before
/// them and small deltas, which one test finds. All others go to `write_any_fields`, so that the loop keeps few numbers at hand.
#[inline(always)]
fn write_fields(buf: &mut [u8], at: usize, column: u32, previous: &Previous, token: &Token) -> usize
    requires room { at + 35 ≤ length buf.old }
    ensures bytes { take result buf.new ≡ take at buf.old
        ++ fields_text column (state_of previous.now) token.now }
    ensures within { result ≤ at + 35 }
{
    let dst_col = rank_of(token.get_dst_col(), column);
    let src_line = rank_of(token.get_src_line(), previous.src_line);
    let src_col = rank_of(token.get_src_col(), previous.src_col);
    let has_same_source = token.get_source_id() == Some(previous.source_id);
    if has_same_source & (dst_col < 1024) & (src_line < 1024) & (src_col < 1024) {
        let at = write_near(buf, at, dst_col);
        buf[at] = b'A';
        let at = write_near(buf, at + 1, src_line);
        let at = write_near(buf, at, src_col);
        write_name(buf, at, token.get_name_id(), previous.name_id)
    } else {
        write_any_fields(buf, at, column, *previous, token)
    }
}

/// Places the separator of a token that lies `lines` lines below the one before it: a `,` on the same line, else a `;` for
/// each line.
#[inline(always)]
fn write_separator(buf: &mut [u8], at: usize, is_first: bool, lines: u32) -> usize
    requires room { at + 8 ≤ length buf.old }
    requires few { lines ≤ 8 }
    ensures bytes { take result buf.new ≡ take at buf.old ++ line_marks is_first lines }
    ensures within { result ≤ at + 8 }
{
    if lines == 0 {
        buf[at] = b',';
        at + usize::from(!is_first)
    } else {
        buf[at..at + 8].copy_from_slice(b";;;;;;;;");
        at + lines as usize
    }
}

/// Places a token with its separator. `lines` counts the `;` that are still to be written; it is 0 only for a token on the
/// line of the one before it.
fn write_segment(
    buf: &mut [u8],
    at: usize,
    is_first: bool,
    lines: u32,
    previous: &Previous,
    token: &Token,
) -> usize
    requires room { at + 43 ≤ length buf.old }
    requires few { lines ≤ 8 }
    requires same_line { (lines ≡ 0) ↔ (token.now.dst_line ≡ previous.now.dst_line) }
    ensures bytes { let s = state_of previous.now in
        take result buf.new ≡ take at buf.old ++
        (line_marks is_first lines ++ fields_text (column_from s token.now) s token.now) }
    ensures within { result ≤ at + 43 }
{
    let start = write_separator(buf, at, is_first, lines);
    let column = if lines == 0 { previous.dst_col } else { 0 };
    write_fields(buf, start, column, previous, token)
}

// After an `Err` or a false of a function `push_`, `out` may end with the beginning of what it adds, and has not changed
// otherwise.

/// Adds ASCII characters.
fn push_bytes(out: &mut String, bytes: &[u8]) -> Memory<()>
    requires { AllByRecursion (λ b. b < 128) bytes.now }
    ensures ok { Pushes result out.old out.new bytes.now }
    ensures adds { OnlyAdds (string_bytes out.old) (string_bytes out.new) }
{
    out.push_str(std::str::from_utf8(bytes).unwrap())
}

/// Adds an ASCII character.
fn push_ascii(out: &mut String, mark: char) -> Memory<()>
    requires { mark < 128 }
    ensures ok { Pushes result out.old out.new (mark ∷ []) }
    ensures adds { OnlyAdds (string_bytes out.old) (string_bytes out.new) }
{
    out.push(mark)
}

/// Adds this many `;`.
fn push_semicolons(out: &mut String, count: u32) -> Memory<()>
    ensures ok { Pushes result out.old out.new (replicate count 59) }
    ensures adds { OnlyAdds (string_bytes out.old) (string_bytes out.new) }
{
    for i in 0..count {
        push_ascii(out, ';')?;
    }
    Ok(())
}

/// Adds the gathered characters, and all but the last 8 of `lines` `;`. Returns how many `;` are left.
#[cold]
fn push_gathered(out: &mut String, gathered: &[u8], lines: u32) -> Memory<u32>
    requires { AllByRecursion (λ b. b < 128) gathered.now }
    ensures ok { IfOk result (λ left. string_bytes out.new ≡ (string_bytes out.old ++ gathered.now)
        ++ replicate (lines - left) 59) }
    ensures left { IfOk result (λ left. left ≡ min lines 8) }
    ensures adds { OnlyAdds (string_bytes out.old) (string_bytes out.new) }
{
    push_bytes(out, gathered)?;
    let left = lines.min(8);
    push_semicolons(out, lines - left)?;
    Ok(left)
}

/// Makes room in the buffer, whose first `len` bytes are gathered, for a token `lines` lines further down. Returns how many
/// bytes are gathered then, and how many `;` are still to be written.
fn make_room(out: &mut String, buf: &[u8], len: usize, lines: u32) -> Memory<(usize, u32)>
    requires within { len ≤ length buf.now }
    requires plain { AllByRecursion (λ b. b < 128) (take len buf.now) }
    ensures ok { IfOk result (λ r. string_bytes out.new ++ take r.0 buf.now
        ≡ (string_bytes out.old ++ take len buf.now) ++ replicate (lines - r.1) 59) }
    ensures plain { IfOk result (λ r. AllByRecursion (λ b. b < 128) (take r.0 buf.now)) }
    ensures room { IfOk result (λ r. r.0 ≤ 981) }
    ensures few { IfOk result (λ r. r.1 ≤ 8) }
    ensures fewer { IfOk result (λ r. r.1 ≤ lines) }
    ensures same_line { IfOk result (λ r. r.1 ≡ 0 → lines ≡ 0) }
    ensures adds { OnlyAdds (string_bytes out.old) (string_bytes out.new) }
{
    if len <= BLOCK - 43 && lines <= 8 {
        return Ok((len, lines));
    }
    let left = push_gathered(out, &buf[..len], lines)?;
    Ok((0, left))
}

/// Adds the text of tokens, written from the state `header`, and returns true; or returns false at a token whose line is
/// smaller than that before it.
fn push_tokens(out: &mut String, at_start: bool, header: Previous, tokens: &[Token]) -> Memory<bool>
    ensures ok { IfWritten result (string_bytes out.new ≡ string_bytes out.old
        ++ text_from at_start (state_of header) tokens.now) }
    ensures order { IfWritten result (back_from header.dst_line 0 tokens.now ≡ None) }
    ensures adds { OnlyAdds (string_bytes out.old) (string_bytes out.new) }
{
    out.reserve(tokens.len().saturating_mul(6))?;
    let mut buf = [0u8; BLOCK];
    let mut len: usize = 0;
    let mut previous = header;
    let mut is_first = at_start;
    for token in tokens {
        let line = token.get_dst_line();
        if line < previous.dst_line {
            return Ok(false);
        }
        let (at, left) = make_room(out, &buf, len, line - previous.dst_line)?;
        len = write_segment(&mut buf, at, is_first, left, &previous, token);
        previous = previous.after(token);
        is_first = false;
    }
    push_bytes(out, &buf[..len])?;
    Ok(true)
}

/// Whether the chunk is a part of the tokens.
fn is_part(tokens: &[Token], chunk: &TokenChunk) -> bool
    ensures { result ≡ (nat_le chunk.now.start chunk.now.end
        && nat_le chunk.now.end (length tokens.now)) }
{
    chunk.start <= chunk.end && chunk.end as usize <= tokens.len()
}

/// Adds the text of a chunk and returns true, or returns false if the chunk has a fault.
fn push_chunk(out: &mut String, tokens: &[Token], chunk: &TokenChunk) -> Memory<bool>
    ensures text { IfWritten result (string_bytes out.new ≡ string_bytes out.old
        ++ chunk_text tokens.now chunk.now) }
    ensures clean { IfWritten result (chunk_text_fault tokens.now chunk.now ≡ None) }
    ensures adds { OnlyAdds (string_bytes out.old) (string_bytes out.new) }
{
    if !is_part(tokens, chunk) {
        return Ok(false);
    }
    let header = Previous::header_of(chunk);
    push_tokens(out, chunk.start == 0, header, tokens_of(tokens, chunk))
}

/// The error of a chunk that was not written: its fault, or else want of memory.
#[cold]
fn error_of_chunk(tokens: &[Token], chunk: &TokenChunk) -> Error
    ensures { result ≡ unwrap_or (chunk_text_fault tokens.now chunk.now) OutOfMemory }
{
    if is_part(tokens, chunk) {
        let first = chunk.start as usize;
        match line_back_from(chunk.prev_dst_line, first, tokens_of(tokens, chunk)) {
            Some(i) => Error::LineOrder(i),
            None => Error::OutOfMemory,
        }
    } else {
        Error::BadChunks(0)
    }
}

/// Appends the part of the `mappings` text that the tokens of one chunk make (docs/FORMAT.md, "Chunks"). Deltas start from
/// the header of the chunk, which is taken as it is, right or wrong. No `,` comes before the token at index 0. The parts of
/// chunks that fit, one after the other, are the canonical text.
///
/// ```rust
/// use oxc_sourcemap::{Token, TokenChunk, encode_chunk};
///
/// let tokens = [Token::new(0, 0, 5, 3, Some(0), None), Token::new(1, 0, 5, 4, Some(0), None)];
/// let mut out = String::new(alloc);
/// encode_chunk(&tokens, &TokenChunk::new(1, 2, 0, 0, 5, 3, 0, 0), &mut out)?;
/// assert_eq!(rt; out.as_str(), ";AAAC");
/// ```
///
/// Fails in this order, with `out` as it was:
/// - `BadChunks(0)` if the chunk ends before it starts, or past the tokens;
/// - `LineOrder(i)` for the first token i of the chunk whose generated line is smaller than that of the token before it,
///   or, at `start`, than that of the header;
/// - `OutOfMemory` for want of memory.
pub fn encode_chunk(tokens: &[Token], chunk: &TokenChunk, out: &mut String) -> Result<()>
    ensures text { Pushes result out.old out.new (chunk_text tokens.now chunk.now) }
    ensures clean { OnOk result (chunk_text_fault tokens.now chunk.now ≡ None) }
    ensures fault { FailsBy (chunk_text_fault tokens.now chunk.now) result }
    ensures reported { Reports (chunk_text_fault tokens.now chunk.now) result }
    ensures adds { OnlyAdds (string_bytes out.old) (string_bytes out.new) }
    ensures unchanged { OnErr result (string_bytes out.new ≡ string_bytes out.old) }
{
    let kept = out.len();
    match push_chunk(out, tokens, chunk) {
        Ok(true) => Ok(()),
        _ => {
            out.truncate(kept);
            Err(error_of_chunk(tokens, chunk))
        }
    }
}

/// Adds the texts of chunks one after the other, up to the first that cannot be written.
fn push_chunks(out: &mut String, tokens: &[Token], chunks: &[TokenChunk]) -> Result<()>
    ensures text { Pushes result out.old out.new (flat_map (chunk_text tokens.now) chunks.now) }
    ensures written { OnOk result (AreWritten tokens.now chunks.now) }
    ensures adds { OnlyAdds (string_bytes out.old) (string_bytes out.new) }
{
    for chunk in chunks {
        encode_chunk(tokens, chunk, out)?;
    }
    Ok(())
}

/// The error of tokens with these chunks that were not written: their fault, or else want of memory.
#[cold]
fn error_of_chunks(tokens: &[Token], chunks: &[TokenChunk]) -> Error
    ensures { result ≡ unwrap_or (writing_fault tokens.now (Some chunks.now)) OutOfMemory }
{
    if let Some(i) = line_order_fault(tokens) {
        return Error::LineOrder(i);
    }
    if let Some(k) = chunk_fault(tokens, chunks) {
        return Error::BadChunks(k);
    }
    if tokens.len() > 4294967295 {
        return Error::TooLarge;
    }
    Error::OutOfMemory
}

/// Appends the text of tokens, chunk by chunk.
fn encode_chunks(tokens: &[Token], chunks: &[TokenChunk], out: &mut String) -> Result<()>
    ensures text { Pushes result out.old out.new (canonical tokens.now) }
    ensures clean { OnOk result (writing_fault tokens.now (Some chunks.now) ≡ None) }
    ensures fault { FailsBy (writing_fault tokens.now (Some chunks.now)) result }
    ensures reported { Reports (writing_fault tokens.now (Some chunks.now)) result }
    ensures unchanged { OnErr result (string_bytes out.new ≡ string_bytes out.old) }
{
    if tokens.len() > 4294967295 || chunk_fault(tokens, chunks).is_some() {
        return Err(error_of_chunks(tokens, chunks));
    }
    let start = out.len();
    match push_chunks(out, tokens, chunks) {
        Ok(()) => Ok(()),
        Err(_) => {
            out.truncate(start);
            Err(error_of_chunks(tokens, chunks))
        }
    }
}

/// The fault of a list of more than 4294967295 tokens: its line order comes first.
fn fault_of_long(tokens: &[Token]) -> Error
    requires { 4294967295 < length tokens.now }
    ensures { writing_fault tokens.now None ≡ Some result }
{
    match line_order_fault(tokens) {
        Some(i) => Error::LineOrder(i),
        None => Error::TooLarge,
    }
}

/// Appends the text of tokens as one chunk of them all. `encode_chunk` tests their line order.
fn encode_whole(tokens: &[Token], out: &mut String) -> Result<()>
    ensures text { Pushes result out.old out.new (canonical tokens.now) }
    ensures clean { OnOk result (writing_fault tokens.now None ≡ None) }
    ensures fault { FailsBy (writing_fault tokens.now None) result }
    ensures reported { Reports (writing_fault tokens.now None) result }
    ensures unchanged { OnErr result (string_bytes out.new ≡ string_bytes out.old) }
{
    if tokens.len() >= 4294967296 {
        return Err(fault_of_long(tokens));
    }
    let whole = next_chunk(&[], &[], tokens.len() as u32);
    encode_chunk(tokens, &whole, out)
}

/// Appends the canonical `mappings` text of the tokens to `out` (docs/FORMAT.md, "Writing"; ECMA-426, "Mappings
/// structure"): at most 36 bytes for each token, and one for each line before the last.
///
/// ```rust
/// use oxc_sourcemap::{Error, Token, encode_mappings};
///
/// let tokens = [Token::new(0, 0, 5, 3, Some(0), None), Token::new(1, 0, 5, 4, Some(0), None)];
/// let mut out = String::new(alloc);
/// encode_mappings(&tokens, None, &mut out)?;
/// assert_eq!(rt; out.as_str(), "AAKG;AAAC");
/// assert_eq!(rt; encode_mappings(&[tokens[1], tokens[0]], None, &mut out), Err(Error::LineOrder(1)));
/// ```
///
/// Columns may decrease on a line. An unmapped token is written without its source position and name. Chunks do not change
/// the text; they only have to fit, so pass None if you have none.
///
/// Fails in this order, with `out` as it was:
/// - `LineOrder(i)` for the first token i whose generated line is smaller than that of the token before it;
/// - `BadChunks(k)` if chunks do not fit; k is that of `chunk_fault`;
/// - `TooLarge` for more than 4294967295 tokens;
/// - `OutOfMemory` for want of memory.
pub fn encode_mappings(
    tokens: &[Token],
    chunks: Option<&[TokenChunk]>,
    out: &mut String,
) -> Result<()>
    ensures text { Pushes result out.old out.new (canonical tokens.now) }
    ensures clean { OnOk result (writing_fault tokens.now (lent_chunks chunks.entry) ≡ None) }
    ensures fault { FailsBy (writing_fault tokens.now (lent_chunks chunks.entry)) result }
    ensures reported { Reports (writing_fault tokens.now (lent_chunks chunks.entry)) result }
    ensures bound { let most = 36 * length tokens.now + last_line 0 tokens.now in
        OnOk result (length (string_bytes out.new) ≤ length (string_bytes out.old) + most) }
    ensures unchanged { OnErr result (string_bytes out.new ≡ string_bytes out.old) }
{
    tokens_in_bounds(tokens);
    match chunks {
        Some(chunks) => encode_chunks(tokens, chunks, out),
        None => encode_whole(tokens, out),
    }
}
