//! From original positions to generated ones, in the maps of handles.
ghost use Rattle.std.specs.Prelude.{◌≡◌, ◌≢◌, ◌<◌, ◌≤◌, ℕ, true, List, [], ◌∷◌, ◌++◌, Some, length};
ghost use Rattle.std.specs.Prelude.{get_or, slice_get, OnOk, OnErr, IfErr, IfSome, IsNone};
ghost use Rattle.std.specs.Prelude.{MatchResult, Ok, Err};
ghost use Rattle.oxc_sourcemap_c.specs.Words.{TokenRecord, is_into, indices_on, answering};
ghost use Rattle.oxc_sourcemap_c.specs.Words.{IsSourceOrderOf, filled, held_loaded, Changes};
ghost use Rattle.oxc_sourcemap_c.specs.Words.{IsFirstGenerated, AreAllGenerated, IsMapError};
ghost use Rattle.oxc_sourcemap_c.specs.Words.{IsIndexError, out_of_memory, OnLine, code_of};
ghost use Rattle.oxc_sourcemap_c.specs.Words.{no_fault, IsErrorAs, NullHandle, HasFirst, HasAll};
ghost use Rattle.oxc_sourcemap_c.specs.Words.{source_place};
ghost use Rattle.oxc_sourcemap_c.specs.Words.{CallError, IsUnchangeable};

use crate::answers::{write_fault, write_found};
use crate::holding::{Handle, Held, Lent};
use crate::numbers::{CallError, Direction, Fault};
use crate::reading::getters::write_numbers;
use crate::texts::TokenNumbers;
use oxc_sourcemap_map::SourceOrder;
use oxc_sourcemap_tokens::Token;
use std::alloc::Global;

/// An original position: the id of a source, a line and a column.
#[derive(Clone, Copy)]
pub struct SourcePlace {
    pub source_id: u32,
    pub line: u32,
    pub column: u32,
}

/// A token that was found, and its index.
#[derive(Clone, Copy)]
pub struct FoundToken {
    pub index: u32,
    pub token: TokenNumbers,
}

/// Writes a token that was found, and its index, or nothing on an error, and returns the code.
fn write_token(
    answer: Result<FoundToken, CallError>,
    index: &mut u32,
    token: &mut TokenNumbers,
) -> u32
    ensures { MatchResult answer (λ found. (result ≡ 0) × (index.new ≡ found.index)
        × (token.new ≡ found.token)) (λ r. (result ≡ code_of r) × (index.new ≡ index.old)
        × (token.new ≡ token.old)) }
{
    match answer {
        Ok(found) => {
            *index = found.index;
            *token = found.token;
            0
        }
        Err(error) => Fault::of(error).code,
    }
}

/// Whether a token points to a line of a source.
fn points_to(token: &Token, source_id: u32, line: u32) -> bool
    ensures { result ≡ is_into source_id line token.now }
{
    match token.get_source_id() {
        Some(id) => id == source_id && token.get_src_line() == line,
        None => false,
    }
}

/// Writes a number behind those that were written, if there is room.
fn write_behind(out: &mut [u32], count: usize, number: u32)
    ensures { (list old : List ℕ) → count ≡ length list → out.old ≡ filled list old
        → out.new ≡ filled (list ++ number ∷ []) old }
{
    if count < out.len() {
        out[count] = number;
    }
}

/// The number of tokens that point to a line of a source, in part of a list that has them all. Writes the indices of as many as
/// there is room for.
fn write_line(tokens: &[Token], bounds: (usize, usize), at: SourcePlace, out: &mut [u32]) -> usize
    requires within { (bounds.0 ≤ bounds.1) × (bounds.1 ≤ length tokens.now) }
    requires small { length tokens.now < 4294967296 }
    requires all { (i : ℕ) (t : TokenRecord) → i < length tokens.now
        → is_into at.source_id at.line (get_or tokens.now i t) ≡ true
        → (bounds.0 ≤ i) × (i < bounds.1) }
    ensures count { result ≡ length (indices_on at.source_id at.line tokens.now) }
    ensures written { out.new ≡ filled (indices_on at.source_id at.line tokens.now) out.old }
{
    let (start, end) = bounds;
    let mut count = 0;
    for i in start..end {
        if points_to(&tokens[i], at.source_id, at.line) {
            write_behind(out, count, i as u32);
            count += 1;
        }
    }
    count
}

/// The index of the first token that points to a line of a source, in part of a list that has them all.
fn first_on_line(tokens: &[Token], bounds: (usize, usize), at: SourcePlace) -> Option<u32>
    requires within { (bounds.0 ≤ bounds.1) × (bounds.1 ≤ length tokens.now) }
    requires small { length tokens.now < 4294967296 }
    requires all { (i : ℕ) (t : TokenRecord) → i < length tokens.now
        → is_into at.source_id at.line (get_or tokens.now i t) ≡ true
        → (bounds.0 ≤ i) × (i < bounds.1) }
    ensures { result ≡ slice_get (indices_on at.source_id at.line tokens.now) 0 }
{
    let (start, end) = bounds;
    for i in start..end {
        if points_to(&tokens[i], at.source_id, at.line) {
            return Some(i as u32);
        }
    }
    None
}

/// The indices of the tokens that answer, as a part of an order. None for the direction `OnLine`.
fn indices_in<'o>(
    order: &'o SourceOrder,
    tokens: &[Token],
    at: SourcePlace,
    direction: Direction,
) -> Option<&'o [u32]>
    requires { IsSourceOrderOf tokens.now order.now }
    ensures found { IfSome result (λ indices. indices.now ≡ answering direction at tokens.now) }
    ensures on_line { IsNone result → direction ≡ OnLine }
{
    match direction {
        Direction::At => Some(order.indices_at(tokens, at.source_id, at.line, at.column)),
        Direction::For => Some(order.indices_for(tokens, at.source_id, at.line, at.column)),
        Direction::From => Some(order.indices_from(tokens, at.source_id, at.line, at.column)),
        Direction::OnLine => None,
    }
}

/// The number of tokens that answer. Writes the indices of as many as there is room for.
fn write_answers(
    order: &SourceOrder,
    tokens: &[Token],
    at: SourcePlace,
    direction: Direction,
    out: &mut [u32],
) -> usize
    requires { IsSourceOrderOf tokens.now order.now }
    ensures count { result ≡ length (answering direction at tokens.now) }
    ensures written { out.new ≡ filled (answering direction at tokens.now) out.old }
{
    match indices_in(order, tokens, at, direction) {
        Some(indices) => {
            write_numbers(indices, out);
            indices.len()
        }
        None => write_line(
            tokens,
            order.bounds_on(tokens, at.source_id, at.line),
            at,
            out,
        ),
    }
}

/// The index of the first token that answers.
fn first_answer(
    order: &SourceOrder,
    tokens: &[Token],
    at: SourcePlace,
    direction: Direction,
) -> Option<u32>
    requires { IsSourceOrderOf tokens.now order.now }
    ensures first { result ≡ slice_get (answering direction at tokens.now) 0 }
    ensures within { IfSome result (λ i. i < length tokens.now) }
{
    match indices_in(order, tokens, at, direction) {
        Some(indices) => indices.first().copied(),
        None => first_on_line(tokens, order.bounds_on(tokens, at.source_id, at.line), at),
    }
}

/// The first token of the map in a handle that answers for an original position, in the direction of this number.
pub fn generated(map: &Lent, at: SourcePlace, direction: u32) -> Result<FoundToken, CallError>
    ensures found { IsFirstGenerated (held_loaded map.now.held) direction at result }
{
    let loaded = map.map()?;
    let direction = Direction::of(direction)?;
    let order = loaded.order()?;
    let tokens = loaded.tokens();
    let Some(index) = first_answer(order, tokens, at, direction) else {
        return Err(CallError::NoEntry);
    };
    Ok(FoundToken {
        index,
        token: TokenNumbers::of(&tokens[index as usize]),
    })
}

/// The first token of a map that answers for an original position, by generated position, and its index. The direction is 0, 1, 2
/// or 3: at the position, at the last column up to it, at the first one from it on, or on its line.
#[unsafe(no_mangle)]
pub extern "C" fn proved_generated(
    map: &Lent,
    source_id: u32,
    line: u32,
    column: u32,
    direction: u32,
    index: &mut u32,
    token: &mut TokenNumbers,
) -> u32
    ensures found { HasFirst (held_loaded map.now.held) direction
        (source_place source_id line column)
        result index.new token.new }
    ensures unchanged { result ≢ 0 → (index.new ≡ index.old) × (token.new ≡ token.old) }
{
    let at = SourcePlace {
        source_id,
        line,
        column,
    };
    write_token(generated(map, at, direction), index, token)
}

/// The number of tokens of the map in a handle that answer for an original position, in the direction of this number. Writes the
/// indices of as many as there is room for.
fn all_generated(
    map: &Lent,
    at: SourcePlace,
    direction: u32,
    out: &mut [u32],
) -> Result<usize, CallError>
    ensures found { AreAllGenerated (held_loaded map.now.held) direction at result out.old out.new }
{
    let loaded = map.map()?;
    let direction = Direction::of(direction)?;
    let order = loaded.order()?;
    Ok(write_answers(order, loaded.tokens(), at, direction, out))
}

/// The indices of all tokens of a map that answer for an original position, by generated position, as many as there is room for,
/// and how many there are.
#[unsafe(no_mangle)]
pub extern "C" fn proved_all_generated(
    map: &Lent,
    source_id: u32,
    line: u32,
    column: u32,
    direction: u32,
    out: &mut [u32],
    count: &mut usize,
) -> u32
    ensures found { HasAll (held_loaded map.now.held) direction (source_place source_id line column)
        result out.old out.new count.new }
    ensures unchanged { result ≢ 0 → (out.new ≡ out.old) × (count.new ≡ count.old) }
{
    let at = SourcePlace {
        source_id,
        line,
        column,
    };
    write_found(all_generated(map, at, direction, out), count)
}

/// Makes the index by original positions in what a handle holds.
fn index_held(alloc: Global, held: &mut Held) -> Result<(), CallError>
    ensures made { OnOk result (Changes (Some held.old) (Some held.new)
        (λ l n. (n.map ≡ l.map) × (n.has_order ≡ true))) }
    ensures error { IfErr result (λ r. (r ≢ out_of_memory)
        → IsMapError (Some held.old) IsIndexError r) }
    ensures unchanged { OnErr result (held.new ≡ held.old) }
    ensures sure { (r : CallError) → IsUnchangeable (Some held.old) r → result ≡ Err r }
{
    match held {
        Held::Map(loaded) => Ok(loaded.index_sources(alloc)?),
        Held::Shared(_) => Err(CallError::Shared),
        _ => Err(CallError::NullHandle),
    }
}

/// Makes the index by original positions of the map in a handle, if it has none. Fails with `NullHandle` or `Shared`.
fn index_sources(alloc: Global, handle: &mut Handle) -> Result<(), CallError>
    ensures made { OnOk result (Changes handle.old.held handle.new.held
        (λ l n. (n.map ≡ l.map) × (n.has_order ≡ true))) }
    ensures error { IfErr result (λ r. (r ≢ out_of_memory)
        → IsMapError handle.old.held IsIndexError r) }
    ensures unchanged { OnErr result (handle.new.held ≡ handle.old.held) }
    ensures sure { (r : CallError) → IsUnchangeable handle.old.held r → result ≡ Err r }
{
    match handle.take(alloc) {
        Some(held) => {
            let mut held = held;
            let made = index_held(alloc, held.as_mut());
            handle.put(held);
            made
        }
        None => Err(CallError::NullHandle),
    }
}

/// Makes the index by original positions of a map, if it has none.
#[unsafe(no_mangle)]
pub extern "C" fn proved_index_sources(alloc: Global, map: &mut Handle, fault: &mut Fault) -> u32
    ensures made { result ≡ 0 → Changes map.old.held map.new.held
        (λ l n. (n.map ≡ l.map) × (n.has_order ≡ true)) }
    ensures no_error { result ≡ 0 → fault.new ≡ no_fault }
    ensures error { result ≢ 0 → (map.new.held ≡ map.old.held)
        × IsErrorAs result fault.new (IsMapError map.old.held IsIndexError) }
    ensures sure { (r : CallError) → IsUnchangeable map.old.held r → result ≡ code_of r }
{
    write_fault(index_sources(alloc, map), fault)
}
