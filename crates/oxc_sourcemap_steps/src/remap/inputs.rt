//! The inputs of a remapping, made ready.
ghost use Rattle.std.specs.Prelude.{◌≡◌, [], length, IfOk, OnOk, Some, None};
ghost use Rattle.std.specs.List.{position_from};
ghost use Rattle.oxc_sourcemap_steps.specs.Words.{Error, FailsBy, Reports, record_of_parts};
ghost use Rattle.oxc_sourcemap_steps.specs.Words.{input_records, goes_back, inputs_fault};
ghost use Rattle.oxc_sourcemap_steps.specs.Words.{listed_flags, flags_of, IsReady, AreReady};
ghost use Rattle.oxc_sourcemap_steps.specs.Words.{HasIndices, IsFor, ready_records, input_paths};

use crate::remap::as_parts::AsParts;
use oxc_sourcemap_lookup::LineIndex;
use oxc_sourcemap_parts::SourceMapParts;
use oxc_sourcemap_tokens::{Error, Memory, Result, line_order_fault};
use std::alloc::Global;
use std::collections::HashMap;

/// An input, made ready: its path and its map, the index of the lines of its tokens, and whether each of its sources is
/// ignored.
#[derive(Drop)]
pub(crate) struct Input<'p, 'm> {
    path: &'p str,
    pub(crate) map: &'m SourceMapParts<'m>,
    pub(crate) index: LineIndex,
    pub(crate) ignored: Vec<bool>,
}

/// Sets the flags at the indices of an ignore list; others than there are flags are passed over.
fn set_flags(flags: &mut Vec<bool>, ids: &[u32])
    requires { flags.old.items ≡ listed_flags (Some []) (length flags.old.items) }
    ensures { flags.new.items ≡ listed_flags (Some ids.now) (length flags.old.items) }
{
    for id in ids {
        let i = *id as usize;
        if i < flags.len() {
            flags[i] = true;
        }
    }
}

/// Whether each source of a map is ignored. Fails only for want of memory.
pub fn ignored_flags(alloc: Global, map: &SourceMapParts<'_>) -> Memory<Vec<bool>>
    ensures { IfOk result (λ flags. flags.items ≡ flags_of (record_of_parts map.now)) }
{
    let mut flags = Vec::with_capacity(alloc, map.sources.len())?;
    flags.resize(map.sources.len(), false)?;
    if let Some(ids) = &map.ignore_list {
        set_flags(&mut flags, ids.as_slice());
    }
    Ok(flags)
}

/// An input, made ready. It fails if its tokens go back in lines.
fn ready_input<'p, 'm>(
    alloc: Global,
    path: &'p str,
    map: &'m SourceMapParts<'m>,
) -> Result<Input<'p, 'm>>
    ensures ready { IfOk result IsReady }
    ensures input { IfOk result (λ input. (input.path.now ≡ path.now)
        × (input.map.now ≡ map.now)) }
{
    let index = LineIndex::new(alloc, map.tokens.as_slice())?;
    let ignored = ignored_flags(alloc, map)?;
    Ok(Input {
        path,
        map,
        index,
        ignored,
    })
}

/// All inputs, made ready. It fails if the tokens of one go back in lines.
fn all_ready<'p, 'm, M: AsParts>(
    alloc: Global,
    inputs: &[(&'p str, &'m M)],
) -> Result<Vec<Input<'p, 'm>>>
    ensures ready { IfOk result (λ ready. AreReady ready.items) }
    ensures inputs { IfOk result (λ ready. ready_records ready.items
        ≡ input_records M.as_record inputs.now) }
{
    let mut ready = Vec::with_capacity(alloc, inputs.len())?;
    for (path, map) in inputs {
        ready.push(ready_input(alloc, path, map.as_parts())?)?;
    }
    Ok(ready)
}

/// The index of the first input whose tokens go back in lines.
fn first_back<M: AsParts>(inputs: &[(&str, &M)]) -> Option<usize>
    ensures { result ≡ position_from goes_back 0 (input_records M.as_record inputs.now) }
{
    for (i, (_, map)) in inputs.iter().enumerate() {
        if line_order_fault(map.as_parts().tokens.as_slice()).is_some() {
            return Some(i);
        }
    }
    None
}

/// All inputs, made ready. Where the tokens of one go back in lines, that is the error.
pub(crate) fn ready_inputs<'p, 'm, M: AsParts>(
    alloc: Global,
    inputs: &[(&'p str, &'m M)],
) -> Result<Vec<Input<'p, 'm>>>
    ensures ready { IfOk result (λ ready. AreReady ready.items) }
    ensures inputs { IfOk result (λ ready. ready_records ready.items
        ≡ input_records M.as_record inputs.now) }
    ensures well { OnOk result (inputs_fault (input_records M.as_record inputs.now) ≡ None) }
    ensures error { FailsBy (inputs_fault (input_records M.as_record inputs.now)) result }
    ensures fault { Reports (inputs_fault (input_records M.as_record inputs.now)) result }
{
    if let Ok(ready) = all_ready(alloc, inputs) {
        return Ok(ready);
    }
    match first_back(inputs) {
        Some(k) => Err(Error::InputLineOrder(k)),
        None => Err(Error::OutOfMemory),
    }
}

/// The index of the first input for each path.
pub(crate) fn input_indices<'p>(
    alloc: Global,
    inputs: &[Input<'p, '_>],
) -> Memory<HashMap<&'p str, usize>>
    ensures { IfOk result (λ places. HasIndices (input_paths inputs.now) places) }
{
    let mut places = HashMap::new(alloc);
    places.reserve(inputs.len())?;
    for (i, input) in inputs.iter().enumerate() {
        places.entry(input.path)?.or_insert(i);
    }
    Ok(places)
}

/// The input for a path.
pub(crate) fn input_at<'p, 'm, 'i>(
    inputs: &'i [Input<'p, 'm>],
    places: &HashMap<&str, usize>,
    path: &str,
) -> Option<&'i Input<'p, 'm>>
    requires ready { AreReady inputs.now }
    requires places { HasIndices (input_paths inputs.now) places.now }
    ensures { IsFor (ready_records inputs.now) path.now result }
{
    let place = *places.get(path)?;
    Some(&inputs[place])
}
