//! Remapping of maps.
ghost use Rattle.std.specs.Prelude.{◌≡◌, ◌≢◌, ◌+◌, ◌<◌, ◌≤◌, List, map, length, option_map, IfOk};
ghost use Rattle.std.specs.Prelude.{OnOk, IfErr, IfSome, Ok, Err, None};
ghost use Rattle.oxc_sourcemap_steps.specs.Words.{OutOfMemory, TooLarge, Reports, name_of};
ghost use Rattle.oxc_sourcemap_steps.specs.Words.{record_of_parts, cow_texts, Target, target_of};
ghost use Rattle.oxc_sourcemap_steps.specs.Words.{input_records, inputs_fault, remapping};
ghost use Rattle.oxc_sourcemap_steps.specs.Words.{NoInputColumnGoesBack, SomeRemapping, IsUsable};
ghost use Rattle.oxc_sourcemap_steps.specs.Words.{AreUsable, block_of, lent_block, block_original};
ghost use Rattle.oxc_sourcemap_steps.specs.Words.{IsBlockTarget, AreBlockTargets, input_original};
ghost use Rattle.oxc_sourcemap_steps.specs.Words.{lent_original, needed_name, needed_names};
ghost use Rattle.oxc_sourcemap_steps.specs.Words.{token_to, names_in, AreIndexed, with_inherited};
ghost use Rattle.oxc_sourcemap_steps.specs.Words.{put_together};

use crate::compose::target;
use crate::remap::as_parts::AsParts;
use crate::remap::blocks::{Block, block_of, blocks_of};
use crate::remap::inputs::{ignored_flags, ready_inputs};
use crate::remap::lists::{content_list, ignore_list, lent_text, source_list};
use crate::remap::needed_names::{NeededNames, lent_names, need_name, no_names};
use oxc_sourcemap_lookup::Near;
use oxc_sourcemap_parts::SourceMapParts;
use oxc_sourcemap_tokens::{Memory, Result, Token};
use std::alloc::Global;
use std::borrow::CowStr;

/// A name, borrowed, and the id that it has in its own map.
#[derive(Clone, Copy)]
pub(crate) struct LentName<'m> {
    text: &'m str,
    id: u32,
}

/// Where a token leads: a source by its id in the remapped map, a position in it, and a name.
#[derive(Drop)]
pub(crate) struct LentOriginal<'m> {
    source_id: u32,
    src_line: u32,
    src_col: u32,
    name: Option<LentName<'m>>,
}

/// The name of a token, if it has one.
fn token_name<'m>(names: &'m [CowStr<'_>], token: &Token) -> Option<LentName<'m>>
    ensures { option_map (λ name. name.text.now) result ≡ name_of (cow_texts names.now) token.now }
{
    let id = token.get_name_id()?;
    match names.get(id as usize) {
        Some(name) => Some(LentName {
            text: name.as_str(),
            id,
        }),
        None => None,
    }
}

/// The mapped token that a token leads to in the input of its source's block, if any.
fn block_target(block: Option<&Block<'_, '_>>, token: &Token, near: &mut Near) -> Option<Token>
    requires { IfSome (lent_block block) IsUsable }
    ensures { IsBlockTarget (lent_block block.entry) (target_of token.now result) }
{
    let input = block?.input?;
    target(&input.index, input.map.tokens.as_slice(), token, near)
}

/// Where a token of an input leads whose sources begin at the id `start`: with its own name, else with this one.
fn input_original<'m>(
    input: &'m SourceMapParts<'_>,
    start: u32,
    name: Option<LentName<'m>>,
    token: &Token,
) -> Option<LentOriginal<'m>>
    requires { start + length input.now.sources.items ≤ 4294967295 }
    ensures original { option_map lent_original result
        ≡ input_original (record_of_parts input.now) start
        (option_map (λ name. name.text.now) name.entry) token.now }
    ensures small { IfSome result (λ o. o.source_id < 4294967295) }
{
    let id = token.get_source_id()?;
    if id as usize >= input.sources.len() {
        return None;
    }
    let own_name = token_name(input.names.as_slice(), token);
    Some(LentOriginal {
        source_id: id + start,
        src_line: token.get_src_line(),
        src_col: token.get_src_col(),
        name: own_name.or(name),
    })
}

/// Where a token leads whose source has this block, if this is the token that it leads to in the input.
fn block_original<'m>(
    names: &'m [CowStr<'_>],
    block: Option<&Block<'m, '_>>,
    token: &Token,
    found: Option<Token>,
) -> Option<LentOriginal<'m>>
    requires { IfSome (lent_block block) IsUsable }
    ensures original { option_map lent_original result
        ≡ block_original (lent_block block.entry) (cow_texts names.now)
        (target_of token.now found) }
    ensures small { IfSome result (λ o. o.source_id < 4294967295) }
{
    let block = block?;
    let name = token_name(names, token);
    match block.input {
        Some(input) => input_original(input.map, block.start, name, &found?),
        None => Some(LentOriginal {
            source_id: block.start,
            src_line: token.get_src_line(),
            src_col: token.get_src_col(),
            name,
        }),
    }
}

/// The token of the remapped map for one that leads to this original, or nowhere.
fn token_at<'m>(
    needed: &mut NeededNames<'m>,
    token: &Token,
    original: Option<LentOriginal<'m>>,
) -> Result<Token>
    requires placed { AreIndexed needed.old }
    requires small { IfSome original (λ o. o.source_id < 4294967295) }
    ensures names { OnOk result (names_in needed.new ≡ with_inherited
        (names_in needed.old) (needed_name (option_map lent_original original.entry))) }
    ensures token { IfOk result (λ t. t ≡ token_to (names_in needed.new) token.now
        (option_map lent_original original.entry)) }
    ensures placed { OnOk result (AreIndexed needed.new) }
    ensures error { IfErr result (λ e. (e ≢ OutOfMemory) → (e ≡ TooLarge)
        × (4294967295 < length (with_inherited (names_in needed.old)
        (needed_name (option_map lent_original original.entry))))) }
{
    let (line, col) = (token.get_dst_line(), token.get_dst_col());
    let Some(original) = original else {
        return Ok(Token::new(line, col, 0, 0, None, None));
    };
    let name_id = match original.name {
        Some(name) => Some(need_name(needed, name.text, name.id)?),
        None => None,
    };
    Ok(Token::new(
        line,
        col,
        original.src_line,
        original.src_col,
        Some(original.source_id),
        name_id,
    ))
}

/// The tokens of the remapped map, and the names that they need.
fn remapped_tokens<'m>(
    alloc: Global,
    names: &'m [CowStr<'_>],
    tokens: &[Token],
    blocks: &[Block<'m, '_>],
) -> Result<(Vec<Token>, NeededNames<'m>)>
    requires { AreUsable blocks.now }
    ensures made { let old = cow_texts names.now in IfOk result (λ made. (ls : List Target)
        × AreBlockTargets blocks.now tokens.now ls
        × (names_in made.1 ≡ needed_names (map
        (λ l. block_original (block_of blocks.now l.token) old l) ls))
        × (made.0.items ≡ map (λ l. token_to (names_in made.1) l.token
        (block_original (block_of blocks.now l.token) old l)) ls)
        × (length (names_in made.1) ≤ 4294967295)) }
    ensures error { let old = cow_texts names.now in IfErr result (λ e. (e ≢ OutOfMemory)
        → (e ≡ TooLarge) × (ls : List Target) × AreBlockTargets blocks.now tokens.now ls
        × (4294967295 < length (needed_names (map
        (λ l. block_original (block_of blocks.now l.token) old l) ls)))) }
{
    let mut needed = no_names(alloc, names.len())?;
    let mut remapped = Vec::with_capacity(alloc, tokens.len())?;
    let mut near = Near::start();
    for token in tokens {
        let block = block_of(blocks, token);
        let found = block_target(block, token, &mut near);
        let original = block_original(names, block, token, found);
        remapped.push(token_at(&mut needed, token, original)?)?;
    }
    Ok((remapped, needed))
}

/// The remapped map, from its blocks, its tokens, and the names that they need.
fn put_together<'m>(
    alloc: Global,
    map: &'m SourceMapParts<'_>,
    blocks: &[Block<'m, '_>],
    tokens: Vec<Token>,
    needed: NeededNames<'m>,
) -> Memory<SourceMapParts<'m>>
    requires { AreUsable blocks.now }
    ensures { IfOk result (λ parts. record_of_parts parts ≡ put_together
        (record_of_parts map.now) blocks.now tokens.items (names_in needed.entry)) }
{
    let names = lent_names(alloc, needed)?;
    let sources = source_list(alloc, blocks)?;
    let source_contents = content_list(alloc, blocks)?;
    let ignore_list = ignore_list(alloc, blocks)?;
    Ok(SourceMapParts {
        file: lent_text(&map.file),
        names,
        source_root: None,
        sources,
        source_contents,
        tokens: tokens.into_boxed_slice(),
        token_chunks: None,
        ignore_list,
        debug_id: lent_text(&map.debug_id),
    })
}

/// The remapped map. `remap_parts` has the errors.
fn remapped_parts<'m, M: AsParts>(
    alloc: Global,
    map: &'m SourceMapParts<'m>,
    inputs: &[(&str, &'m M)],
) -> Result<SourceMapParts<'m>>
    ensures made { IfOk result (λ parts. SomeRemapping (record_of_parts map.now)
        (input_records M.as_record inputs.now) (Ok (record_of_parts parts))) }
    ensures error { IfErr result (λ e. (e ≢ OutOfMemory)
        → SomeRemapping (record_of_parts map.now) (input_records M.as_record inputs.now) (Err e)) }
    ensures fault { Reports (inputs_fault (input_records M.as_record inputs.now)) result }
{
    let ready = ready_inputs(alloc, inputs)?;
    let ignored = ignored_flags(alloc, map)?;
    let blocks = blocks_of(alloc, map, ignored.as_slice(), ready.as_slice())?;
    let (tokens, needed) = remapped_tokens(
        alloc,
        map.names.as_slice(),
        map.tokens.as_slice(),
        blocks.as_slice(),
    )?;
    Ok(put_together(alloc, map, blocks.as_slice(), tokens, needed)?)
}

/// The remapping of a map, as parts: some of its sources are themselves generated, and for these there are maps, the `inputs`,
/// each with the source that it is for, as the map has it, byte for byte. Of inputs for one source the first counts; one that
/// is for no source is not used.
///
/// - A token whose source has an input gets the source, the original position and the name of the input's token at its original
///   position (line and column from 0), or of the first one on that line if all are after it; its own name stays if that has
///   none. It becomes unmapped if no token is on that line, or the one found is unmapped or has a source id out of range.
/// - A token without a source, or whose source id is out of range, is unmapped, at source position 0:0 and without a name; one
///   whose source has no input keeps source, position and name. A name id out of range counts as none.
/// - In place of a source that has an input stand all sources of the input, with their contents, also where sources are equal.
///   A source is ignored if the map that it is from ignores it.
/// - The names are those that tokens need, each once, in the order of the tokens. File and debug id are those of `map`; the
///   result has no source root and no chunks.
///
/// Nothing is taken: all strings of the result are borrowed from `map` and from the maps of `inputs`, not from the list.
///
/// Fails with the first of `InputLineOrder(k)` for the first input whose tokens go back in lines, used or not; `TooLarge` if
/// sources would number above 4294967295; `TooLarge` if names would. `OutOfMemory` may come in place of each but the first, which
/// is reported whenever it holds. If columns go back on a line of an input, it is open to which token of that line a token leads.
pub fn remap_parts<'m, M: AsParts>(
    alloc: Global,
    map: &'m SourceMapParts<'_>,
    inputs: &[(&str, &'m M)],
) -> Result<SourceMapParts<'m>>
    ensures map { let a = record_of_parts map.now in
        let inputs = input_records M.as_record inputs.now in
        NoInputColumnGoesBack inputs → IfOk result
        (λ parts. remapping a inputs ≡ Ok (record_of_parts parts)) }
    ensures error { let a = record_of_parts map.now in
        let inputs = input_records M.as_record inputs.now in
        NoInputColumnGoesBack inputs → IfErr result
        (λ e. (e ≢ OutOfMemory) → remapping a inputs ≡ Err e) }
    ensures any_map { IfOk result (λ parts. SomeRemapping (record_of_parts map.now)
        (input_records M.as_record inputs.now) (Ok (record_of_parts parts))) }
    ensures any_error { IfErr result (λ e. (e ≢ OutOfMemory)
        → SomeRemapping (record_of_parts map.now) (input_records M.as_record inputs.now) (Err e)) }
    ensures fault { Reports (inputs_fault (input_records M.as_record inputs.now)) result }
{
    remapped_parts(alloc, map, inputs)
}
