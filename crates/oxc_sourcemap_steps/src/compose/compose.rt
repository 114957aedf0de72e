//! Composition of maps: a map from generated to intermediate code and one from intermediate to original code, made one
//! map from generated to original code.
ghost use Rattle.std.specs.Prelude.{◌≡◌, ◌≢◌, ◌++◌, List, map, IfOk, OnOk, IfErr, Ok, Err, Some};
ghost use Rattle.std.specs.Prelude.{None, true, false};
ghost use Rattle.std.specs.Box.{boxed_slice_items};
ghost use Rattle.oxc_sourcemap_steps.specs.Words.{Error, OutOfMemory, TooLarge, texts_of};
ghost use Rattle.oxc_sourcemap_steps.specs.Words.{record_of_parts, cow_texts, IsIndexOf, Target};
ghost use Rattle.oxc_sourcemap_steps.specs.Words.{target_of, line_of, IsTarget, AreTargets};
ghost use Rattle.oxc_sourcemap_steps.specs.Words.{inherited_name, composed_names, composed_token};
ghost use Rattle.oxc_sourcemap_steps.specs.Words.{may_be_id, are_ids, composition_fault};
ghost use Rattle.oxc_sourcemap_steps.specs.Words.{composition, SomeComposition, NoColumnGoesBack};
ghost use Rattle.oxc_sourcemap_steps.specs.Words.{with_inherited, inherited_index, names_with};
ghost use Rattle.oxc_sourcemap_steps.specs.Words.{IsInheriting, FailsBy, Reports, text_of};
ghost use Rattle.oxc_sourcemap_steps.specs.Words.{contents_of};

use crate::compose::inherited_names::{InheritedNames, inherit_id, no_names, owned_names};
use oxc_sourcemap_lookup::{LineIndex, Near, lookup_near};
use oxc_sourcemap_parts::{SourceMapParts, clone_ids, into_owned_text, owned_text};
use oxc_sourcemap_tokens::{Error, Memory, Result, Token};
use std::alloc::Global;
use std::borrow::CowStr;
use std::mem::swap;

/// The token of the composed map for a token of the first one and the token that it leads to, if any. It may inherit a name
/// of the first map.
fn composed_token<'n>(
    inherited: &mut InheritedNames<'n>,
    first: &'n [CowStr<'_>],
    second: &'n [CowStr<'_>],
    token: &Token,
    found: Option<Token>,
) -> Result<Token>
    requires { IsInheriting (cow_texts first.now) (cow_texts second.now) inherited.old }
    ensures names { let name = inherited_name (cow_texts first.now) (target_of token.now found) in
        let second = cow_texts second.now in
        OnOk result (names_with second inherited.new
        ≡ with_inherited (names_with second inherited.old) name) }
    ensures token { IfOk result (λ t. t ≡ composed_token (cow_texts first.now)
        (names_with (cow_texts second.now) inherited.new) (target_of token.now found)) }
    ensures id { let name = inherited_name (cow_texts first.now) (target_of token.now found) in
        OnOk result (may_be_id (inherited_index
        (names_with (cow_texts second.now) inherited.new) name) ≡ true) }
    ensures kept { OnOk result (IsInheriting (cow_texts first.now)
        (cow_texts second.now) inherited.new) }
    ensures error { let name = inherited_name (cow_texts first.now) (target_of token.now found) in
        IfErr result (λ e. (e ≢ OutOfMemory) → (e ≡ TooLarge)
        × (may_be_id (inherited_index (with_inherited
        (names_with (cow_texts second.now) inherited.old) name) name) ≡ false)) }
{
    let (line, col) = (token.get_dst_line(), token.get_dst_col());
    let Some(found) = found else {
        return Ok(Token::new(line, col, 0, 0, None, None));
    };
    let name_id = match found.get_name_id() {
        Some(id) => Some(id),
        None => inherit_id(inherited, first, second, token.get_name_id())?,
    };
    Ok(Token::new(
        line,
        col,
        found.get_src_line(),
        found.get_src_col(),
        found.get_source_id(),
        name_id,
    ))
}

/// The mapped token that a token leads to, if any, by the clamped lookup of its source position among the tokens of an input,
/// whose index this is. The lookup begins at `near`, and leaves there where it ended.
// Without the hint a call and a copy of the token take 18 of 250 instructions for each token of a composition.
#[inline(always)]
pub fn target(index: &LineIndex, input: &[Token], token: &Token, near: &mut Near) -> Option<Token>
    requires { IsIndexOf input.now index.now }
    ensures { IsTarget (line_of input.now token.now) (target_of token.now result) }
{
    token.get_source_id()?;
    let found = lookup_near(
        index,
        input,
        token.get_src_line(),
        token.get_src_col(),
        near,
    )?;
    found.get_source_id()?;
    Some(found)
}

/// Turns the tokens of the first map into those of the composed one, in place, and returns copies of the names that it has
/// after those of the second map. After an error the tokens are partly turned.
fn compose_tokens<'a>(
    alloc: Global,
    first: &[CowStr<'_>],
    tokens: &mut [Token],
    second: &[CowStr<'_>],
    input: &[Token],
    index: &LineIndex,
) -> Result<Vec<CowStr<'a>>>
    requires { IsIndexOf input.now index.now }
    ensures composed { let olds = cow_texts first.now in let names = cow_texts second.now in
        IfOk result (λ more. (ls : List Target) × AreTargets tokens.old input.now ls
        × (names ++ texts_of more ≡ composed_names olds names ls)
        × (tokens.new ≡ map (composed_token olds (names ++ texts_of more)) ls)
        × (are_ids olds (names ++ texts_of more) ls ≡ true)) }
    ensures error { let olds = cow_texts first.now in let names = cow_texts second.now in
        IfErr result (λ e. (e ≢ OutOfMemory) → (e ≡ TooLarge) × (ls : List Target)
        × AreTargets tokens.old input.now ls
        × (are_ids olds (composed_names olds names ls) ls ≡ false)) }
{
    let mut inherited = no_names(alloc, first, second)?;
    let mut near = Near::start();
    for token in tokens.iter_mut() {
        let found = target(index, input, token, &mut near);
        *token = composed_token(&mut inherited, first, second, token, found)?;
    }
    Ok(owned_names(alloc, inherited)?)
}

/// The index of the second map's lines. It fails if the first map has several sources, or the tokens of the second go back
/// in lines.
fn input_index(
    alloc: Global,
    first: &SourceMapParts<'_>,
    second: &SourceMapParts<'_>,
) -> Result<LineIndex>
    ensures index { IfOk result (λ index. (composition_fault (record_of_parts first.now)
        (record_of_parts second.now) ≡ None) × IsIndexOf
        (boxed_slice_items second.now.tokens) index) }
    ensures error { FailsBy (composition_fault (record_of_parts first.now)
        (record_of_parts second.now)) result }
    ensures fault { Reports (composition_fault (record_of_parts first.now)
        (record_of_parts second.now)) result }
{
    if first.sources.len() > 1 {
        return Err(Error::SeveralSources(first.sources.len()));
    }
    LineIndex::new(alloc, second.tokens.as_slice())
}

/// Turns the second map into the composition of the two. It gets the file and the debug id of the first, moved if owned.
fn compose_into(
    alloc: Global,
    first: &mut SourceMapParts<'_>,
    second: &mut SourceMapParts<'_>,
) -> Result<()>
    ensures made { OnOk result (SomeComposition (record_of_parts first.old)
        (record_of_parts second.old) (Ok (record_of_parts second.new))) }
    ensures error { IfErr result (λ e. (e ≢ OutOfMemory)
        → SomeComposition (record_of_parts first.old) (record_of_parts second.old) (Err e)) }
    ensures fault { Reports (composition_fault (record_of_parts first.old)
        (record_of_parts second.old)) result }
{
    let index = input_index(alloc, first, second)?;
    let mut names = compose_tokens(
        alloc,
        first.names.as_slice(),
        first.tokens.as_mut_slice(),
        second.names.as_slice(),
        second.tokens.as_slice(),
        &index,
    )?;
    second.names.append(&mut names)?;
    second.file = into_owned_text(alloc, first.file.take())?;
    second.debug_id = into_owned_text(alloc, first.debug_id.take())?;
    swap(&mut first.tokens, &mut second.tokens);
    second.token_chunks = None;
    Ok(())
}

/// The composition of two maps, as parts: the first from generated to intermediate code, the second from there to original
/// code (docs/FORMAT.md, "Composition").
///
/// Fails in this order; both are then dropped: `SeveralSources(n)`, `LineOrder(i)` for the tokens of the second map,
/// `TooLarge`, and `OutOfMemory` for want of memory. The first two are reported whenever they hold.
pub fn compose_parts<'input>(
    alloc: Global,
    mut first: SourceMapParts<'_>,
    mut second: SourceMapParts<'input>,
) -> Result<SourceMapParts<'input>>
    ensures map { let a = record_of_parts first.entry in let b = record_of_parts second.entry in
        NoColumnGoesBack b.tokens → IfOk result
        (λ parts. composition a b ≡ Ok (record_of_parts parts)) }
    ensures error { let a = record_of_parts first.entry in let b = record_of_parts second.entry in
        NoColumnGoesBack b.tokens → IfErr result
        (λ e. (e ≢ OutOfMemory) → composition a b ≡ Err e) }
    ensures any_map { IfOk result (λ parts. SomeComposition (record_of_parts first.entry)
        (record_of_parts second.entry) (Ok (record_of_parts parts))) }
    ensures any_error { IfErr result (λ e. (e ≢ OutOfMemory)
        → SomeComposition (record_of_parts first.entry) (record_of_parts second.entry) (Err e)) }
    ensures fault { Reports (composition_fault (record_of_parts first.entry)
        (record_of_parts second.entry)) result }
{
    compose_into(alloc, &mut first, &mut second)?;
    Ok(second)
}

/// A copy of a string, if there is one.
fn copied_text<'a>(alloc: Global, text: &Option<CowStr<'_>>) -> Memory<Option<CowStr<'a>>>
    ensures { IfOk result (λ copy. text_of copy ≡ text_of text.now) }
{
    match text {
        Some(text) => Ok(Some(owned_text(alloc, text.as_str())?)),
        None => Ok(None),
    }
}

/// Copies of strings.
fn copied_texts<'a>(alloc: Global, texts: &[CowStr<'_>]) -> Memory<Vec<CowStr<'a>>>
    ensures { IfOk result (λ copies. texts_of copies ≡ cow_texts texts.now) }
{
    let mut copies = Vec::with_capacity(alloc, texts.len())?;
    for text in texts {
        copies.push(owned_text(alloc, text.as_str())?)?;
    }
    Ok(copies)
}

/// Copies of contents.
fn copied_contents<'a>(
    alloc: Global,
    contents: &[Option<CowStr<'_>>],
) -> Memory<Vec<Option<CowStr<'a>>>>
    ensures { IfOk result (λ copies. contents_of copies ≡ map text_of contents.now) }
{
    let mut copies = Vec::with_capacity(alloc, contents.len())?;
    for content in contents {
        copies.push(copied_text(alloc, content)?)?;
    }
    Ok(copies)
}

/// The composition of two maps that stay as they are. `compose_lent_parts` has the errors.
fn compose_lent<'a>(
    alloc: Global,
    first: &SourceMapParts<'_>,
    second: &SourceMapParts<'_>,
) -> Result<SourceMapParts<'a>>
    ensures made { IfOk result (λ parts. SomeComposition (record_of_parts first.now)
        (record_of_parts second.now) (Ok (record_of_parts parts))) }
    ensures error { IfErr result (λ e. (e ≢ OutOfMemory)
        → SomeComposition (record_of_parts first.now) (record_of_parts second.now) (Err e)) }
    ensures fault { Reports (composition_fault (record_of_parts first.now)
        (record_of_parts second.now)) result }
{
    let index = input_index(alloc, first, second)?;
    let mut tokens = first.tokens.as_slice().to_vec(alloc)?;
    let mut more = compose_tokens(
        alloc,
        first.names.as_slice(),
        tokens.as_mut_slice(),
        second.names.as_slice(),
        second.tokens.as_slice(),
        &index,
    )?;
    let mut names = copied_texts(alloc, second.names.as_slice())?;
    names.append(&mut more)?;
    let sources = copied_texts(alloc, second.sources.as_slice())?;
    let source_contents = copied_contents(alloc, second.source_contents.as_slice())?;
    let ignore_list = clone_ids(alloc, &second.ignore_list)?;
    let source_root = copied_text(alloc, &second.source_root)?;
    let file = copied_text(alloc, &first.file)?;
    let debug_id = copied_text(alloc, &first.debug_id)?;
    Ok(SourceMapParts {
        tokens: tokens.into_boxed_slice(),
        names,
        sources,
        source_contents,
        ignore_list,
        file,
        source_root,
        token_chunks: None,
        debug_id,
    })
}

/// The composition of two maps, as `compose_parts` makes it, with copies of their strings. Fails as that does; both maps stay
/// as they are.
pub fn compose_lent_parts<'a>(
    alloc: Global,
    first: &SourceMapParts<'_>,
    second: &SourceMapParts<'_>,
) -> Result<SourceMapParts<'a>>
    ensures map { let a = record_of_parts first.now in let b = record_of_parts second.now in
        NoColumnGoesBack b.tokens → IfOk result
        (λ parts. composition a b ≡ Ok (record_of_parts parts)) }
    ensures error { let a = record_of_parts first.now in let b = record_of_parts second.now in
        NoColumnGoesBack b.tokens → IfErr result
        (λ e. (e ≢ OutOfMemory) → composition a b ≡ Err e) }
    ensures any_map { IfOk result (λ parts. SomeComposition (record_of_parts first.now)
        (record_of_parts second.now) (Ok (record_of_parts parts))) }
    ensures any_error { IfErr result (λ e. (e ≢ OutOfMemory)
        → SomeComposition (record_of_parts first.now) (record_of_parts second.now) (Err e)) }
    ensures fault { Reports (composition_fault (record_of_parts first.now)
        (record_of_parts second.now)) result }
{
    compose_lent(alloc, first, second)
}
