//! How many bytes of a code come from each source.
ghost use Rattle.std.specs.Prelude.{◌≡◌, ◌+◌, ◌≤◌, ◌<◌, ◌^◌, ◌++◌, ◌∷◌, [], ℕ, true, IfOk};
ghost use Rattle.std.specs.Prelude.{length, map, sum, get_or, replicate, slice_index, slice_set};
ghost use Rattle.sourcemap_run.specs.Words.{are_tokens_sorted, pieces_of, source_of, begin_of};
ghost use Rattle.sourcemap_run.specs.Words.{lengths_of, slot_of, bytes_at};

use oxc_sourcemap_queries::{Piece, pieces_in};
use oxc_sourcemap_text::{PositionError, TextPositions};
use oxc_sourcemap_tokens::{Memory, Result, Token};
use std::alloc::Global;

/// The byte of a code at which a piece begins, and its source; None if it has none.
#[derive(Clone, Copy)]
pub struct Start {
    pub offset: usize,
    pub source: Option<u32>,
}

/// A place of a code: the numbers of UTF-16 units and of bytes before it.
#[derive(Clone, Copy)]
struct Reached {
    units: u32,
    bytes: usize,
}

/// The source of a piece; None if it has no token, or that points to none.
fn source_of(piece: &Piece) -> Option<u32>
    ensures { result ≡ source_of piece.now }
{
    let token = piece.token?;
    token.get_source_id()
}

/// The number of units of a code before a position. A position between the units of a character counts as behind it, one past the end of
/// its line as the beginning of the next line, and one past the last line as behind all units.
fn units_before(positions: &TextPositions<'_>, line: u32, column: u32) -> u32 {
    let found = match positions.offset(line, column) {
        Err(PositionError::InsidePair) => positions.offset(line, column.saturating_add(1)),
        Err(PositionError::PastLine) => positions.offset(line.saturating_add(1), 0),
        found => found,
    };
    found.unwrap_or(u32::MAX)
}

/// The place of a code with this number of units before it, sought from a place that is not behind it. Past the code, it is the end.
fn go_on(code: &str, reached: Reached, units: u32) -> Reached {
    let mut reached = reached;
    for ch in code.get(reached.bytes..).unwrap_or("").chars() {
        let next = reached.units.saturating_add(ch.len_utf16() as u32);
        if next > units {
            return reached;
        }
        reached = Reached {
            units: next,
            bytes: reached.bytes.saturating_add(ch.len_utf8()),
        };
    }
    reached
}

/// Where the pieces of a code begin up to a line and column of this number, and their sources, for the tokens of its sorted map: the source
/// of a character is that of the token which the exact lookup finds where the character begins.
///
/// Fails with `TooLarge` if the code has more than 4294967295 UTF-16 units, and with `OutOfMemory`.
pub fn starts_of(alloc: Global, code: &str, tokens: &[Token], last: u32) -> Result<Vec<Start>>
    ensures { are_tokens_sorted tokens.now ≡ true → IfOk result (λ starts.
        map (λ s. s.source) starts.items
        ≡ map source_of (pieces_of tokens.now 0 0 last last)) }
{
    let positions = TextPositions::new(alloc, code)?;
    let mut starts = Vec::new(alloc);
    let mut reached = Reached { units: 0, bytes: 0 };
    for piece in pieces_in(tokens, 0, 0, last, last) {
        let units = units_before(&positions, piece.line, piece.col);
        reached = go_on(code, reached, units);
        starts.push(Start {
            offset: reached.bytes,
            source: source_of(&piece),
        })?;
    }
    Ok(starts)
}

/// The byte at which a piece with this offset begins, behind one that begins at `from`, in a code with `len` bytes.
fn begin_of(len: usize, from: usize, offset: usize) -> usize
    requires { from ≤ len }
    ensures begin { result ≡ begin_of len from offset }
    ensures behind { from ≤ result }
    ensures within { result ≤ len }
{
    offset.max(from).min(len)
}

/// The slot of a source, of `count` sources.
fn slot_of(count: usize, source: Option<u32>) -> usize
    ensures slot { result ≡ slot_of count source }
    ensures within { result ≤ count }
{
    match source {
        Some(id) => (id as usize).min(count),
        None => count,
    }
}

/// No bytes in each slot.
fn no_bytes(alloc: Global, count: usize) -> Memory<Vec<usize>>
    ensures { IfOk result (λ sizes. sizes.items ≡ replicate count 0 ++ 0 ∷ []) }
{
    let mut sizes = Vec::from_elem(alloc, 0usize, count)?;
    sizes.push(0)?;
    Ok(sizes)
}

/// Adds bytes to those of a slot.
fn add_bytes(sizes: &mut [usize], slot: usize, bytes: usize)
    requires slot { slot < length sizes.old }
    requires room { slice_index sizes.old slot + bytes < 2 ^ 64 }
    ensures { sizes.new ≡ slice_set sizes.old slot (slice_index sizes.old slot + bytes) }
{
    sizes[slot] += bytes;
}

/// How many bytes of a code with `len` bytes come from each of `count` sources, and, behind those, how many from none: of the pieces that
/// begin at these places, in order, each up to the next one, and the last up to the end of the code. The code before the first has
/// no source, and so has a piece whose source is not there. Each byte counts once.
pub fn sizes_of(alloc: Global, len: usize, count: usize, starts: &[Start]) -> Memory<Vec<usize>>
    ensures slots { IfOk result (λ sizes. length sizes.items ≡ count + 1) }
    ensures all { IfOk result (λ sizes. sum sizes.items ≡ len) }
    ensures each { IfOk result (λ sizes. (slot : ℕ) → slot ≤ count
        → get_or sizes.items slot 0 ≡ bytes_at count (lengths_of len starts.now) slot) }
{
    let mut sizes = no_bytes(alloc, count)?;
    let mut from = 0usize;
    let mut source = None;
    for start in starts {
        let next = begin_of(len, from, start.offset);
        add_bytes(&mut sizes, slot_of(count, source), next - from);
        from = next;
        source = start.source;
    }
    add_bytes(&mut sizes, slot_of(count, source), len - from);
    Ok(sizes)
}
