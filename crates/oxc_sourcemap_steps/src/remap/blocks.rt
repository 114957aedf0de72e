//! The blocks of a remapped map: what stands for each source of the first map.
ghost use Rattle.std.specs.Prelude.{◌≡◌, ◌≢◌, ◌+◌, ◌<◌, length, IfOk, IfErr};
ghost use Rattle.oxc_sourcemap_steps.specs.Words.{OutOfMemory, TooLarge, record_of_parts, flags_of};
ghost use Rattle.oxc_sourcemap_steps.specs.Words.{ready_records, decoded_inputs, AreReady};
ghost use Rattle.oxc_sourcemap_steps.specs.Words.{listed_sources, remapped_sources, HasSources};
ghost use Rattle.oxc_sourcemap_steps.specs.Words.{AreBlocks, block_of, lent_block};

use crate::remap::inputs::{Input, input_at, input_indices};
use oxc_sourcemap_parts::SourceMapParts;
use oxc_sourcemap_tokens::{Error, Result, Token};
use std::alloc::Global;
use std::borrow::CowStr;

/// What stands for a source of the first map: itself, or all sources of its input.
#[derive(Clone, Copy)]
pub(crate) struct Block<'m, 'i> {
    /// The id of the first of them in the remapped map.
    pub(crate) start: u32,
    /// The sources, one or more in a row of those of a map.
    pub(crate) sources: &'m [CowStr<'m>],
    /// The contents of that map from the first of them on: there may be fewer or more than sources.
    pub(crate) contents: &'m [Option<CowStr<'m>>],
    /// Whether each is ignored.
    pub(crate) ignored: &'i [bool],
    /// The input, if there is one.
    pub(crate) input: Option<&'i Input<'i, 'm>>,
}

/// The block of the source at an index of the map, which has this input or none. `ignored` is that of the map.
fn block_at<'m, 'i>(
    map: &'m SourceMapParts<'m>,
    ignored: &'i [bool],
    i: usize,
    input: Option<&'i Input<'i, 'm>>,
    start: u32,
) -> Block<'m, 'i>
    requires source { i < length map.now.sources.items }
    requires flags { ignored.now ≡ flags_of (record_of_parts map.now) }
    ensures sources { HasSources (record_of_parts map.now) i input.entry result }
    ensures start { result.start ≡ start }
    ensures input { result.input ≡ input.entry }
{
    match input {
        Some(found) => Block {
            start,
            sources: found.map.sources.as_slice(),
            contents: found.map.source_contents.as_slice(),
            ignored: found.ignored.as_slice(),
            input,
        },
        None => {
            let contents = map.source_contents.as_slice();
            Block {
                start,
                sources: &map.sources.as_slice()[i..i + 1],
                contents: &contents[i.min(contents.len())..],
                ignored: &ignored[i..i + 1],
                input,
            }
        }
    }
}

/// The id after those of a block; `TooLarge` above 4294967295.
fn end_of(block: &Block<'_, '_>) -> Result<u32>
    ensures end { IfOk result (λ end. end ≡ block.now.start + length block.now.sources.now) }
    ensures error { IfErr result (λ e. (e ≡ TooLarge)
        × (4294967295 < block.now.start + length block.now.sources.now)) }
{
    let end = u64::from(block.start).saturating_add(block.sources.len() as u64);
    if end > 4294967295 {
        return Err(Error::TooLarge);
    }
    Ok(end as u32)
}

/// The block of each source of the map. `ignored` is that of the map.
pub(crate) fn blocks_of<'m, 'i>(
    alloc: Global,
    map: &'m SourceMapParts<'m>,
    ignored: &'i [bool],
    inputs: &'i [Input<'_, 'm>],
) -> Result<Vec<Block<'m, 'i>>>
    requires flags { ignored.now ≡ flags_of (record_of_parts map.now) }
    requires ready { AreReady inputs.now }
    ensures made { IfOk result (λ blocks. AreBlocks
        (ready_records inputs.now) (record_of_parts map.now) blocks.items) }
    ensures error { IfErr result (λ e. (e ≢ OutOfMemory) → (e ≡ TooLarge)
        × (4294967295 < length (remapped_sources (decoded_inputs (ready_records inputs.now))
        (listed_sources (record_of_parts map.now))))) }
{
    let indices = input_indices(alloc, inputs)?;
    let paths = map.sources.as_slice();
    let mut blocks = Vec::with_capacity(alloc, paths.len())?;
    let mut start: u32 = 0;
    for (i, path) in paths.iter().enumerate() {
        let input = input_at(inputs, &indices, path.as_str());
        let block = block_at(map, ignored, i, input, start);
        start = end_of(&block)?;
        blocks.push(block)?;
    }
    Ok(blocks)
}

/// The block of a token's source.
pub(crate) fn block_of<'b, 'm, 'i>(
    blocks: &'b [Block<'m, 'i>],
    token: &Token,
) -> Option<&'b Block<'m, 'i>>
    ensures { lent_block result ≡ block_of blocks.now token.now }
{
    blocks.get(token.get_source_id()? as usize)
}
