//! The tokens of a simplified map.
ghost use Rattle.std.specs.Prelude.{◌≡◌, ◌≢◌, ◌<◌, ◌≤◌, ◌++◌, ◌∷◌, ◌⊎◌, [], map, length, slice_get};
ghost use Rattle.std.specs.Prelude.{IfOk, OnOk, IfErr, Some, None, true, false, nat_le};
ghost use Rattle.std.specs.Prelude.{if◌then◌else◌, is_some, vec_len, ◌+◌, ◌==◌, ◌&&◌};
ghost use Rattle.std.specs.List.{list_all};
ghost use Rattle.std.specs.Option.{option_and_then};
ghost use Rattle.std.specs.Vec.{vec_capacity};
ghost use Rattle.oxc_sourcemap_steps.specs.Words.{OutOfMemory, TooLarge, Map, Unsorted, token_line};
ghost use Rattle.oxc_sourcemap_steps.specs.Words.{token_column, found_items, are_tokens_sorted};
ghost use Rattle.oxc_sourcemap_steps.specs.Words.{is_same_id, target_by, is_same_target, is_before};
ghost use Rattle.oxc_sourcemap_steps.specs.Words.{repeats_by, kept_from, with_name, with_source};
ghost use Rattle.oxc_sourcemap_steps.specs.Words.{with_all, token_at_next_column, AreWithin};
ghost use Rattle.oxc_sourcemap_steps.specs.Words.{AreNumbers, AreTooMany, shifted_token};
ghost use Rattle.oxc_sourcemap_steps.specs.Words.{position_of};
ghost use Rattle.oxc_sourcemap_steps.specs.Words.{lent_item};
ghost use Rattle.oxc_sourcemap_steps.specs.SimplifySteps.{token_to};

use crate::simplify::ids::{NONE, NewIds, name_id, no_ids, source_id};
use crate::simplify::sources::Source;
use oxc_sourcemap_tokens::{Error, Memory, PlanError, Result, Token};
use std::alloc::Global;

/// What tokens are compared by: for each name of the map the index of the first equal one, and its sources.
#[derive(Drop)]
pub(crate) struct Tables {
    pub(crate) sources: Vec<Source>,
    pub(crate) names: Vec<usize>,
}

/// What a token points to: a source, a position in it, and the index of the first name that is equal to its own.
#[derive(Clone, Copy)]
pub(crate) struct Target {
    source: Source,
    src_line: u32,
    src_col: u32,
    name: Option<usize>,
}

/// The index of the first name that is equal to a token's own.
fn name_in(names: &[usize], token: &Token) -> Option<usize>
    ensures { result ≡ option_and_then (slice_get names.now) token.now.name_id }
{
    names.get(token.get_name_id()? as usize).copied()
}

/// What a token points to; None if it has no source id, or one out of range.
fn target_of(tables: &Tables, token: &Token) -> Option<Target>
    ensures { result ≡ target_by tables.now token.now }
{
    let id = token.get_source_id()?;
    match tables.sources.get(id as usize) {
        Some(source) => Some(Target {
            source: *source,
            src_line: token.get_src_line(),
            src_col: token.get_src_col(),
            name: name_in(tables.names.as_slice(), token),
        }),
        None => None,
    }
}

/// Whether two indices are one, or both missing.
fn is_same_index(a: Option<usize>, b: Option<usize>) -> bool
    ensures { result ≡ is_same_id a b }
{
    match (a, b) {
        (Some(a), Some(b)) => a == b,
        (None, None) => true,
        _ => false,
    }
}

/// Whether two targets are one.
fn is_same_target(a: &Target, b: &Target) -> bool
    ensures { result ≡ is_same_target a.now b.now }
{
    is_same_index(a.source.plain, b.source.plain)
        && is_same_index(a.source.ignored, b.source.ignored)
        && a.src_line == b.src_line
        && a.src_col == b.src_col
        && is_same_index(a.name, b.name)
}

/// Whether a token is on the line of another, and points where that points, or both nowhere.
#[cold]
fn repeats(tables: &Tables, previous: &Token, token: &Token) -> bool
    ensures { result ≡ repeats_by tables.now (Some previous.now) token.now }
{
    previous.get_dst_line() == token.get_dst_line()
        && match (target_of(tables, previous), target_of(tables, token)) {
            (Some(a), Some(b)) => is_same_target(&a, &b),
            (None, None) => true,
            _ => false,
        }
}

/// The generated position of a token as one number: that of a later one is greater.
fn token_position(token: &Token) -> u64
    ensures position { result ≡ position_of (Some token.now) }
    ensures below { token.now.dst_col < 4294967296 }
{
    u64::from(token.get_dst_line()) * 4294967296 + u64::from(token.get_dst_col())
}

/// Whether the token after this one, if any, is on its line, at its column or at the next one.
fn is_before(token: &Token, next: Option<&Token>) -> bool
    ensures { result ≡ is_before token.now (lent_item next.entry) }
{
    match next {
        Some(next) => {
            token.get_dst_line() == next.get_dst_line()
                && u64::from(next.get_dst_col()) <= u64::from(token.get_dst_col()) + 1
        }
        None => false,
    }
}

/// Whether a token is at the position of the one before it, and a lookup finds neither it there nor it on the columns after it.
#[inline(always)]
fn is_hidden(is_behind: bool, token: &Token, next: Option<&Token>) -> bool
    ensures { result ≡ (is_behind && is_before token.now (lent_item next.entry)) }
{
    is_behind && is_before(token, next)
}

/// New ids of sources and names.
#[derive(Drop)]
pub(crate) struct Numbers {
    pub(crate) sources: NewIds,
    pub(crate) names: NewIds,
}

/// A token with its ids in the simplified map.
#[inline(always)]
fn renumber_token(numbers: &mut Numbers, tables: &Tables, token: &Token) -> Result<Token>
    requires within { AreWithin tables.now }
    requires numbers { AreNumbers tables.now numbers.old }
    ensures numbers { OnOk result (AreNumbers tables.now numbers.new) }
    ensures sources { OnOk result (numbers.new.sources.numbering.order.items
        ≡ with_source tables.now numbers.old.sources.numbering.order.items token.now) }
    ensures names { OnOk result (numbers.new.names.numbering.order.items
        ≡ with_name tables.now numbers.old.names.numbering.order.items token.now) }
    ensures token { IfOk result (λ renumbered. renumbered ≡ token_to
        numbers.new.sources.numbering.order.items numbers.new.names.numbering.order.items
        token.now (target_by tables.now token.now)) }
    ensures mapped { IfOk result (λ renumbered. is_some renumbered.source_id
        ≡ is_some (target_by tables.now token.now)) }
    ensures error { IfErr result (λ e. (e ≢ OutOfMemory) → (e ≡ TooLarge) × AreTooMany
        (with_source tables.now numbers.old.sources.numbering.order.items token.now)
        (with_name tables.now numbers.old.names.numbering.order.items token.now)) }
{
    let line = token.get_dst_line();
    let col = token.get_dst_col();
    let sources = tables.sources.as_slice();
    let source = source_id(&mut numbers.sources, sources, token.get_source_id())?;
    if source == NONE {
        return Ok(Token::new(line, col, 0, 0, None, None));
    }
    let name = name_id(
        &mut numbers.names,
        tables.names.as_slice(),
        token.get_name_id(),
    )?;
    let src_line = token.get_src_line();
    Ok(Token::new(
        line,
        col,
        src_line,
        token.get_src_col(),
        Some(source),
        Some(name),
    ))
}

/// Whether two tokens are on one line, and at one source position. (It branches nowhere, since either is often so.)
fn may_repeat(previous: &Token, token: &Token) -> bool
    ensures { result ≡ (previous.now.dst_line == token.now.dst_line
        && (previous.now.src_line == token.now.src_line
        && previous.now.src_col == token.now.src_col)) }
{
    (previous.get_dst_line() == token.get_dst_line())
        & (previous.get_src_line() == token.get_src_line())
        & (previous.get_src_col() == token.get_src_col())
}

/// Whether a token points where the one before it on its line points. Most do not, and their positions alone show it.
#[inline(always)]
fn is_repeat(tables: &Tables, previous: Option<&Token>, token: &Token, is_mapped: bool) -> bool
    requires { is_mapped ≡ is_some (target_by tables.now token.now) }
    ensures { result ≡ repeats_by tables.now (lent_item previous.entry) token.now }
{
    match previous {
        Some(previous) => {
            (may_repeat(previous, token) || !is_mapped) && repeats(tables, previous, token)
        }
        None => false,
    }
}

/// A token at the next column; `TooLarge` past 4294967295.
#[cold]
fn at_next_column(token: &Token) -> Result<Token>
    ensures moved { IfOk result (λ moved. moved ≡ token_at_next_column token.now) }
    ensures error { IfErr result (λ e. (e ≡ TooLarge)
        × (4294967295 < (token_at_next_column token.now).dst_col)) }
{
    let col = token.get_dst_col().checked_add(1).ok_or(Error::TooLarge)?;
    let line = token.get_dst_line();
    let src_line = token.get_src_line();
    let src_col = token.get_src_col();
    Ok(Token::new(
        line,
        col,
        src_line,
        src_col,
        token.get_source_id(),
        token.get_name_id(),
    ))
}

/// A token where it stands, or at the next column if it moves.
#[inline(always)]
fn shifted_token(token: Token, moves: bool) -> Result<Token>
    ensures shifted_token { IfOk result (λ t. (t ≡ shifted_token moves token) ×
        (t.dst_col ≤ 4294967295)) }
    ensures error { IfErr result (λ e. (e ≡ TooLarge)
        × (4294967295 < (shifted_token moves token).dst_col)) }
{
    if moves {
        at_next_column(&token)
    } else {
        Ok(token)
    }
}

/// The tokens of a simplified map, and the new ids of its sources and names.
#[derive(Drop)]
pub(crate) struct Kept {
    pub(crate) tokens: Vec<Token>,
    pub(crate) numbers: Numbers,
}

/// No token is kept so far, and there is room for this many.
fn none_kept(alloc: Global, tables: &Tables, len: usize) -> Memory<Kept>
    ensures tokens { IfOk result (λ kept. kept.tokens.items ≡ []) }
    ensures room { IfOk result (λ kept. vec_len kept.tokens + len ≤ vec_capacity kept.tokens) }
    ensures numbers { IfOk result (λ kept. AreNumbers tables.now kept.numbers) }
    ensures sources { IfOk result (λ kept. kept.numbers.sources.numbering.order.items ≡ []) }
    ensures names { IfOk result (λ kept. kept.numbers.names.numbering.order.items ≡ []) }
{
    Ok(Kept {
        tokens: Vec::with_capacity(alloc, len)?,
        numbers: Numbers {
            sources: no_ids(alloc, tables.sources.len())?,
            names: no_ids(alloc, tables.names.len())?,
        },
    })
}

/// Keeps a token with its new ids, at the next column if it moves, unless it points where the one before it points. Says whether
/// it does.
#[inline(always)]
fn keep(
    kept: &mut Kept,
    tables: &Tables,
    previous: Option<&Token>,
    token: &Token,
    moves: bool,
) -> Result<bool>
    requires within { AreWithin tables.now }
    requires numbers { AreNumbers tables.now kept.old.numbers }
    requires room { vec_len kept.old.tokens < vec_capacity kept.old.tokens }
    ensures numbers { OnOk result (AreNumbers tables.now kept.new.numbers) }
    ensures sources { OnOk result (kept.new.numbers.sources.numbering.order.items
        ≡ with_source tables.now kept.old.numbers.sources.numbering.order.items token.now) }
    ensures names { OnOk result (kept.new.numbers.names.numbering.order.items
        ≡ with_name tables.now kept.old.numbers.names.numbering.order.items token.now) }
    ensures repeats { IfOk result (λ repeats. repeats
        ≡ repeats_by tables.now (lent_item previous.entry) token.now) }
    ensures tokens { IfOk result (λ repeats. kept.new.tokens.items ≡ kept.old.tokens.items
        ++ (if repeats then [] else token_to kept.new.numbers.sources.numbering.order.items
        kept.new.numbers.names.numbering.order.items (shifted_token moves token.now)
        (target_by tables.now token.now) ∷ [])) }
    ensures few { IfOk result (λ repeats. repeats ≡ false
        → (shifted_token moves token.now).dst_col ≤ 4294967295) }
    ensures room { OnOk result ((vec_capacity kept.new.tokens ≡ vec_capacity kept.old.tokens)
        × (vec_len kept.new.tokens ≤ vec_len kept.old.tokens + 1)) }
    ensures error { IfErr result (λ e. (e ≢ OutOfMemory) → (e ≡ TooLarge) × (AreTooMany
        (with_source tables.now kept.old.numbers.sources.numbering.order.items token.now)
        (with_name tables.now kept.old.numbers.names.numbering.order.items token.now)
        ⊎ ((repeats_by tables.now (lent_item previous.entry) token.now ≡ false)
        × (4294967295 < (shifted_token moves token.now).dst_col)))) }
{
    let renumbered = renumber_token(&mut kept.numbers, tables, token)?;
    let repeats = is_repeat(
        tables,
        previous,
        token,
        renumbered.get_source_id().is_some(),
    );
    if !repeats {
        kept.tokens.push_reserved(shifted_token(renumbered, moves)?);
    }
    Ok(repeats)
}

/// The tokens of the simplified map: of those that a lookup may find without the repeats, the second of two at a position in the
/// next column if the first is a repeat, with their new ids. All that tokens need is found in one pass over them.
#[inline(never)]
pub(crate) fn kept_tokens(
    alloc: Global,
    tables: &Tables,
    tokens: &[Token],
) -> std::result::Result<Kept, PlanError>
    requires { AreWithin tables.now }
    ensures sorted { OnOk result (are_tokens_sorted tokens.now ≡ true) }
    ensures numbers { IfOk result (λ kept. AreNumbers tables.now kept.numbers) }
    ensures sources { IfOk result (λ kept. kept.numbers.sources.numbering.order.items
        ≡ with_all (with_source tables.now) []
        (found_items token_line token_column tokens.now)) }
    ensures names { IfOk result (λ kept. kept.numbers.names.numbering.order.items
        ≡ with_all (with_name tables.now) []
        (found_items token_line token_column tokens.now)) }
    ensures tokens { IfOk result (λ kept. kept.tokens.items ≡ map (λ t. token_to
        kept.numbers.sources.numbering.order.items kept.numbers.names.numbering.order.items
        t (target_by tables.now t)) (kept_from tables.now None false
        (found_items token_line token_column tokens.now))) }
    ensures few { IfOk result (λ _. list_all (λ t. nat_le t.dst_col 4294967295)
        (kept_from tables.now None false (found_items token_line token_column tokens.now))
        ≡ true) }
    ensures unsorted { IfErr result (λ e. e ≡ Unsorted → are_tokens_sorted tokens.now ≡ false) }
    ensures error { IfErr result (λ e. (e ≢ Map OutOfMemory) → (e ≢ Unsorted)
        → (e ≡ Map TooLarge) × (AreTooMany
        (with_all (with_source tables.now) [] (found_items token_line token_column tokens.now))
        (with_all (with_name tables.now) [] (found_items token_line token_column tokens.now))
        ⊎ (list_all (λ t. nat_le t.dst_col 4294967295) (kept_from tables.now None false
        (found_items token_line token_column tokens.now)) ≡ false))) }
{
    let mut kept = none_kept(alloc, tables, tokens.len())?;
    let mut previous = None;
    let mut last: u64 = 0;
    let mut repeats = false;
    for i in 0..tokens.len() {
        let token = &tokens[i];
        let position = token_position(token);
        if position < last {
            return Err(PlanError::Unsorted);
        }
        let is_behind = (position == last) & previous.is_some();
        if !is_hidden(is_behind, token, tokens.get(i + 1)) {
            repeats = keep(&mut kept, tables, previous, token, is_behind & repeats)?;
            previous = Some(token);
            last = position;
        }
    }
    Ok(kept)
}
