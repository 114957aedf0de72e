//! What maps in handles say of generated positions.
ghost use Rattle.std.specs.Prelude.{◌≡◌, ◌≢◌, Ok, Err, length, map, OnOk, OnErr, IfErr};
ghost use Rattle.std.specs.Prelude.{MatchOption, MatchResult, Some, ◌<◌, drop, get_or, true, false};
ghost use Rattle.oxc_sourcemap_c.specs.Words.{NullHandle, code_of, no_fault, held_map, HoldsMap};
ghost use Rattle.oxc_sourcemap_c.specs.Words.{HasBias, IsTraced, AreTracesOf, AreFoundIn};
ghost use Rattle.oxc_sourcemap_c.specs.Words.{IsTraceError, IsTraceAllError, Lengths};
ghost use Rattle.oxc_sourcemap_c.specs.Words.{piece_numbers, ArePieces};
ghost use Rattle.oxc_sourcemap_c.specs.Words.{IsDifference, Piece, filled, IsError, DifferFrom};
ghost use Rattle.oxc_sourcemap_c.specs.Words.{position_at, IsCodeOf, lent_item};

use crate::answers::{write_fault, write_found};
use crate::holding::{Held, Lent, LoadedMap};
use crate::numbers::{CallError, Fault, bias_from};
use crate::reading::reverse::generated;
use crate::texts::{Original, PieceNumbers};
use oxc_sourcemap_queries::Pieces;
use oxc_sourcemap_tokens::Position;
use std::ops::Deref;

/// Writes what the map in a handle says of a generated position, where this is quick: there is a map, its index of lines has the
/// usual form, and the number is that of the bias `Before`. Else it writes nothing, and returns false.
#[inline(always)]
fn trace_usual<'c>(held: Option<&'c Held>, at: Position, bias: u32, out: &mut Original<'c>) -> bool
    ensures traced { result ≡ true → IsTraced (lent_item held.entry) bias at out.new }
    ensures unchanged { result ≡ false → out.new ≡ out.old }
{
    match held {
        Some(Held::Map(loaded)) if bias == 0 => loaded.trace_usual(at, out),
        Some(Held::Shared(shared)) if bias == 0 => shared.deref().trace_usual(at, out),
        _ => false,
    }
}

/// What a map says of a generated position, by the bias of this number: 0, 1 or 2 for the last token before it, the same or else the
/// first of the line, and the first token after it.
#[unsafe(no_mangle)]
pub extern "C" fn proved_trace<'c>(
    map: Lent,
    line: u32,
    column: u32,
    bias: u32,
    out: &mut Original<'c>,
    fault: &mut Fault,
) -> u32
    ensures traced { result ≡ 0 → IsTraced map.held bias (position_at line column) out.new }
    ensures no_error { result ≡ 0 → fault.new ≡ no_fault }
    ensures error { result ≢ 0 → (out.new ≡ out.old)
        × IsError result fault.new (IsTraceError (held_map map.held) bias) }
{
    let at = Position { line, column };
    let held = map.into_held();
    if trace_usual(held, at, bias, out) {
        *fault = Fault::none();
        return 0;
    }
    trace_anyhow(held, at, bias, out, fault)
}

/// As `proved_trace`, for a caller that wants of an error the code alone.
#[unsafe(no_mangle)]
pub extern "C" fn proved_trace_code<'c>(
    map: Lent,
    line: u32,
    column: u32,
    bias: u32,
    out: &mut Original<'c>,
) -> u32
    ensures traced { result ≡ 0 → IsTraced map.held bias (position_at line column) out.new }
    ensures error { result ≢ 0 → (out.new ≡ out.old)
        × IsCodeOf result (IsTraceError (held_map map.held) bias) }
{
    let asked = Position { line, column };
    let held = map.into_held();
    if trace_usual(held, asked, bias, out) {
        0
    } else {
        trace_code_anyhow(held, asked, bias, out)
    }
}

/// As `proved_trace_code`, for any map and bias.
#[inline(never)]
fn trace_code_anyhow<'c>(
    held: Option<&'c Held>,
    at: Position,
    bias: u32,
    out: &mut Original<'c>,
) -> u32
    ensures traced { result ≡ 0 → IsTraced (lent_item held.entry) bias at out.new }
    ensures error { result ≢ 0 → (out.new ≡ out.old)
        × IsCodeOf result (IsTraceError (held_map (lent_item held.entry)) bias) }
{
    let mut fault = Fault::none();
    trace_anyhow(held, at, bias, out, &mut fault)
}

/// The map in what is borrowed. Fails with `NullHandle` if there is none.
fn loaded_of(held: Option<&Held>) -> Result<&LoadedMap, CallError>
    ensures { MatchOption (held_map (lent_item held.entry)) (result ≡ Err NullHandle)
        (λ m. MatchResult result (λ loaded. loaded.now.map ≡ m) (λ _. ⊥)) }
{
    match held {
        Some(Held::Map(loaded)) => Ok(loaded),
        Some(Held::Shared(shared)) => Ok(shared.deref()),
        _ => Err(CallError::NullHandle),
    }
}

/// Writes what the map in a handle says of a generated position, by the bias of this number, and nothing on an error.
fn trace<'c>(
    held: Option<&'c Held>,
    at: Position,
    bias: u32,
    out: &mut Original<'c>,
) -> Result<(), CallError>
    ensures traced { OnOk result (IsTraced (lent_item held.entry) bias at out.new) }
    ensures error { IfErr result (IsTraceError (held_map (lent_item held.entry)) bias) }
    ensures unchanged { OnErr result (out.new ≡ out.old) }
{
    let loaded = loaded_of(held)?;
    let bias = bias_from(bias)?;
    Ok(loaded.trace(at, bias, out)?)
}

/// As `proved_trace`, for any map and bias.
// A call of its own, so that the usual lookup saves few registers.
#[inline(never)]
fn trace_anyhow<'c>(
    held: Option<&'c Held>,
    at: Position,
    bias: u32,
    out: &mut Original<'c>,
    fault: &mut Fault,
) -> u32
    ensures traced { result ≡ 0 → IsTraced (lent_item held.entry) bias at out.new }
    ensures no_error { result ≡ 0 → fault.new ≡ no_fault }
    ensures error { result ≢ 0 → (out.new ≡ out.old)
        × IsError result fault.new (IsTraceError (held_map (lent_item held.entry)) bias) }
{
    write_fault(trace(held, at, bias, out), fault)
}

/// Whether there are as many answers as positions. Fails with `Lengths` if not.
pub(crate) fn have_one_length(positions: usize, answers: usize) -> Result<(), CallError>
    ensures { MatchResult result (λ _. positions ≡ answers)
        (λ r. (r ≡ Lengths) × (positions ≢ answers)) }
{
    if positions == answers {
        Ok(())
    } else {
        Err(CallError::Lengths)
    }
}

/// Writes what the map in a handle says of many generated positions, by the bias of this number, and nothing on an error.
fn trace_all<'c>(
    map: Lent,
    positions: &[Position],
    bias: u32,
    out: &mut [Original<'c>],
) -> Result<(), CallError>
    ensures traced { OnOk result (HoldsMap map.held (λ m. HasBias bias
        (λ b. AreTracesOf b positions.now out.new m))) }
    ensures error { IfErr result
        (IsTraceAllError positions.now out.old (held_map map.held) bias) }
    ensures unchanged { OnErr result (out.new ≡ out.old) }
{
    let loaded = map.into_map()?;
    have_one_length(positions.len(), out.len())?;
    let bias = bias_from(bias)?;
    Ok(loaded.trace_all(positions, bias, out)?)
}

/// What a map says of generated positions, each at the index of its position, by the bias of this number. On an error nothing is
/// written.
#[unsafe(no_mangle)]
pub extern "C" fn proved_trace_all<'c>(
    map: Lent,
    positions: &[Position],
    bias: u32,
    out: &mut [Original<'c>],
    fault: &mut Fault,
) -> u32
    ensures traced { result ≡ 0 → HoldsMap map.held (λ m. HasBias bias
        (λ b. AreTracesOf b positions.now out.new m)) }
    ensures no_error { result ≡ 0 → fault.new ≡ no_fault }
    ensures error { result ≢ 0 → (out.new ≡ out.old) × IsError result fault.new
        (IsTraceAllError positions.now out.old (held_map map.held) bias) }
{
    write_fault(trace_all(map, positions, bias, out), fault)
}

/// Writes the indices of the tokens that answer for many generated positions in the map in a handle, by the bias of this number,
/// and nothing on an error.
fn find_all(map: &Lent, positions: &[Position], bias: u32, out: &mut [u32]) -> Result<(), CallError>
    ensures found { OnOk result (HoldsMap map.now.held (λ m. HasBias bias
        (λ b. AreFoundIn b positions.now out.new m))) }
    ensures error { IfErr result
        (IsTraceAllError positions.now out.old (held_map map.now.held) bias) }
    ensures unchanged { OnErr result (out.new ≡ out.old) }
{
    let loaded = map.map()?;
    have_one_length(positions.len(), out.len())?;
    let bias = bias_from(bias)?;
    Ok(loaded.find_all(positions, bias, out)?)
}

/// The indices of the tokens of a map that answer for generated positions, each at the index of its position, by the bias of this
/// number; 4294967295 for none. On an error nothing is written.
#[unsafe(no_mangle)]
pub extern "C" fn proved_find_all(
    map: &Lent,
    positions: &[Position],
    bias: u32,
    out: &mut [u32],
    fault: &mut Fault,
) -> u32
    ensures found { result ≡ 0 → HoldsMap map.now.held (λ m. HasBias bias
        (λ b. AreFoundIn b positions.now out.new m)) }
    ensures no_error { result ≡ 0 → fault.new ≡ no_fault }
    ensures error { result ≢ 0 → (out.new ≡ out.old) × IsError result fault.new
        (IsTraceAllError positions.now out.old (held_map map.now.held) bias) }
{
    write_fault(find_all(map, positions, bias, out), fault)
}

/// Writes the next piece.
fn write_next(pieces: &mut Pieces<'_>, entry: &mut PieceNumbers)
    requires { 0 < length pieces.old }
    ensures left { pieces.new ≡ drop 1 pieces.old }
    ensures written { (d : Piece) → entry.new ≡ piece_numbers (get_or pieces.old 0 d) }
{
    if let Some(piece) = pieces.next() {
        *entry = PieceNumbers::of(&piece);
    }
}

/// The number of pieces. Writes as many as there is room for.
fn write_pieces(pieces: Pieces<'_>, out: &mut [PieceNumbers]) -> usize
    ensures count { result ≡ length pieces.entry }
    ensures written { out.new ≡ filled (map piece_numbers pieces.entry) out.old }
{
    let mut pieces = pieces;
    let count = pieces.len();
    for i in 0..count.min(out.len()) {
        write_next(&mut pieces, &mut out[i]);
    }
    count
}

/// The number of pieces of a range of generated code, by the map in a handle. Writes as many as there is room for.
fn pieces(
    map: &Lent,
    begin: Position,
    end: Position,
    out: &mut [PieceNumbers],
) -> Result<usize, CallError>
    ensures found { MatchOption (held_map map.now.held)
        ((result ≡ Err NullHandle) × (out.new ≡ out.old))
        (λ m. ArePieces m begin end result out.old out.new) }
{
    let loaded = map.map()?;
    let pieces = loaded
        .map()
        .pieces(begin.line, begin.column, end.line, end.column);
    Ok(write_pieces(pieces, out))
}

/// The pieces of a range of generated code, by a map, as many as there is room for, and how many there are.
#[unsafe(no_mangle)]
pub extern "C" fn proved_pieces(
    map: &Lent,
    begin: &Position,
    end: &Position,
    out: &mut [PieceNumbers],
    count: &mut usize,
) -> u32
    ensures pieces { MatchOption (held_map map.now.held) (result ≡ code_of NullHandle)
        (λ m. (result ≡ 0) × ArePieces m begin.now end.now (Ok count.new) out.old out.new) }
    ensures unchanged { result ≢ 0 → (out.new ≡ out.old) × (count.new ≡ count.old) }
{
    write_found(pieces(map, *begin, *end, out), count)
}

/// The first generated position at which the maps in two handles say different things.
fn first_difference(map: &Lent, other: &Lent) -> Result<Position, CallError>
    ensures found { IsDifference (held_map map.now.held) (held_map other.now.held) result }
{
    let map = map.map()?;
    let other = other.map()?;
    match map.map().first_difference(other.map()) {
        Some(position) => Ok(position),
        None => Err(CallError::NoEntry),
    }
}

/// The first generated position at which two maps say different things.
#[unsafe(no_mangle)]
pub extern "C" fn proved_first_difference(map: &Lent, other: &Lent, out: &mut Position) -> u32
    ensures found { DifferFrom (held_map map.now.held) (held_map other.now.held) result out.new }
    ensures unchanged { result ≢ 0 → out.new ≡ out.old }
{
    write_found(first_difference(map, other), out)
}
