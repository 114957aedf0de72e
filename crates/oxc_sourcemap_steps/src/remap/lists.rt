//! The sources of a remapped map, their contents, and its ignore list, from its blocks.
ghost use Rattle.std.specs.Prelude.{◌≡◌, ◌++◌, map, slice_get, IfOk, OnOk};
ghost use Rattle.std.specs.Option.{option_and_then};
ghost use Rattle.std.specs.List.{flat_map};
ghost use Rattle.oxc_sourcemap_steps.specs.Words.{cow_texts, texts_of, text_of, contents_of};
ghost use Rattle.oxc_sourcemap_steps.specs.Words.{ids_of, block_sources, IsUsable, AreUsable};
ghost use Rattle.oxc_sourcemap_steps.specs.Words.{set_from, block_ids, unless_empty};

use crate::remap::blocks::Block;
use oxc_sourcemap_tokens::Memory;
use std::alloc::Global;
use std::borrow::CowStr;

/// A string, borrowed, if there is one.
pub(crate) fn lent_text<'m>(text: &'m Option<CowStr<'_>>) -> Option<CowStr<'m>>
    ensures { text_of result ≡ text_of text.now }
{
    match text {
        Some(text) => Some(CowStr::Borrowed(text.as_str())),
        None => None,
    }
}

/// How many sources the blocks have.
fn source_count(blocks: &[Block<'_, '_>]) -> usize {
    match blocks.last() {
        Some(block) => (block.start as usize).saturating_add(block.sources.len()),
        None => 0,
    }
}

/// Adds the sources of a block, borrowed.
fn add_sources<'m>(sources: &mut Vec<CowStr<'m>>, more: &'m [CowStr<'_>]) -> Memory<()>
    ensures { OnOk result (texts_of sources.new ≡ texts_of sources.old ++ cow_texts more.now) }
{
    for source in more {
        sources.push(CowStr::Borrowed(source.as_str()))?;
    }
    Ok(())
}

/// The sources of all blocks, borrowed.
pub(crate) fn source_list<'m>(alloc: Global, blocks: &[Block<'m, '_>]) -> Memory<Vec<CowStr<'m>>>
    ensures { IfOk result (λ sources. texts_of sources
        ≡ flat_map (λ b. cow_texts b.sources.now) blocks.now) }
{
    let mut sources = Vec::with_capacity(alloc, source_count(blocks))?;
    for block in blocks {
        add_sources(&mut sources, block.sources)?;
    }
    Ok(sources)
}

/// The content of a block's source, borrowed, if it is known.
pub(crate) fn content_at<'m>(contents: &'m [Option<CowStr<'m>>], i: usize) -> Option<CowStr<'m>>
    ensures { text_of result ≡ option_and_then text_of (slice_get contents.now i) }
{
    match contents.get(i) {
        Some(content) => lent_text(content),
        None => None,
    }
}

/// Adds the contents of a block's sources, borrowed.
fn add_contents<'m>(contents: &mut Vec<Option<CowStr<'m>>>, block: &Block<'m, '_>) -> Memory<()>
    ensures { OnOk result (contents_of contents.new
        ≡ contents_of contents.old ++ map (λ source. source.content) (block_sources block.now)) }
{
    for i in 0..block.sources.len() {
        contents.push(content_at(block.contents, i))?;
    }
    Ok(())
}

/// The contents of the sources of all blocks, borrowed.
pub(crate) fn content_list<'m>(
    alloc: Global,
    blocks: &[Block<'m, '_>],
) -> Memory<Vec<Option<CowStr<'m>>>>
    ensures { IfOk result (λ contents. contents_of contents
        ≡ flat_map (λ b. map (λ source. source.content) (block_sources b)) blocks.now) }
{
    let mut contents = Vec::with_capacity(alloc, source_count(blocks))?;
    for block in blocks {
        add_contents(&mut contents, block)?;
    }
    Ok(contents)
}

/// Adds the ids of a block's ignored sources.
fn add_ignored(ids: &mut Vec<u32>, block: &Block<'_, '_>) -> Memory<()>
    requires { IsUsable block.now }
    ensures { OnOk result (ids.new.items
        ≡ ids.old.items ++ set_from block.now.start block.now.ignored.now) }
{
    for (i, is_ignored) in block.ignored.iter().enumerate() {
        if *is_ignored {
            ids.push(block.start + i as u32)?;
        }
    }
    Ok(())
}

/// The ids of the ignored sources of all blocks; None if there are none.
pub(crate) fn ignore_list(alloc: Global, blocks: &[Block<'_, '_>]) -> Memory<Option<Vec<u32>>>
    requires { AreUsable blocks.now }
    ensures { IfOk result (λ list. ids_of list ≡ unless_empty (block_ids blocks.now)) }
{
    let mut ids = Vec::new(alloc);
    for block in blocks {
        add_ignored(&mut ids, block)?;
    }
    Ok(if ids.is_empty() { None } else { Some(ids) })
}
