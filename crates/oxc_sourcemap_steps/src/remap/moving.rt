//! The sources of a remapped map, moved out of the maps that they are from.
ghost use Rattle.std.specs.Prelude.{◌≡◌, ◌==◌, ◌++◌, ◌<◌, false, map, length, get_or, IfOk, OnOk};
ghost use Rattle.std.specs.Prelude.{IfSome};
ghost use Rattle.std.specs.List.{flat_map};
ghost use Rattle.std.specs.Vec.Iter.{into_iter_items};
ghost use Rattle.oxc_sourcemap_steps.specs.Words.{record_of_parts, texts_of, contents_of};
ghost use Rattle.oxc_sourcemap_steps.specs.Words.{owned_input_records, decoded_inputs, HasIndices};
ghost use Rattle.oxc_sourcemap_steps.specs.Words.{listed_sources, remapped_sources, source_record};
ghost use Rattle.oxc_sourcemap_steps.specs.Words.{source_records, source_lists, source_paths};
ghost use Rattle.oxc_sourcemap_steps.specs.Words.{sources_in, listed_index, AreBelow, AreLastUses};
ghost use Rattle.oxc_sourcemap_steps.specs.Words.{HasNext, with_last, KeepsOthers, text_of};

use crate::remap::lists::content_at;
use oxc_sourcemap_parts::SourceMapParts;
use oxc_sourcemap_tokens::Memory;
use std::alloc::Global;
use std::borrow::CowStr;
use std::collections::HashMap;
use std::vec::IntoIter;

/// A source, with its content where that is known.
#[derive(Drop)]
pub(crate) struct Source<'a> {
    pub(crate) path: CowStr<'a>,
    pub(crate) content: Option<CowStr<'a>>,
}

/// The content of the next source, if it is known.
fn next_content<'a>(contents: &mut IntoIter<Option<CowStr<'a>>>) -> Option<CowStr<'a>>
    ensures { HasNext (map text_of (into_iter_items contents.old)) (text_of result)
        (map text_of (into_iter_items contents.new)) }
{
    contents.next().unwrap_or(None)
}

/// The sources of a map, moved out of it.
pub(crate) fn take_sources<'a>(alloc: Global, map: SourceMapParts<'a>) -> Memory<Vec<Source<'a>>>
    ensures { IfOk result (λ sources. source_records sources.items
        ≡ listed_sources (record_of_parts map.entry)) }
{
    let paths = map.sources;
    let mut sources = Vec::with_capacity(alloc, paths.len())?;
    let mut contents = map.source_contents.into_iter();
    for path in paths {
        let content = next_content(&mut contents);
        sources.push(Source { path, content })?;
    }
    Ok(sources)
}

/// The sources of a map, borrowed.
pub(crate) fn lend_sources<'m>(
    alloc: Global,
    map: &'m SourceMapParts<'m>,
) -> Memory<Vec<Source<'m>>>
    ensures { IfOk result (λ sources. source_records sources.items
        ≡ listed_sources (record_of_parts map.now)) }
{
    let paths = map.sources.as_slice();
    let contents = map.source_contents.as_slice();
    let mut sources = Vec::with_capacity(alloc, paths.len())?;
    for (i, path) in paths.iter().enumerate() {
        let content = content_at(contents, i);
        let path = CowStr::Borrowed(path.as_str());
        sources.push(Source { path, content })?;
    }
    Ok(sources)
}

/// The sources of each input, moved out of it.
fn take_all_sources<'a>(
    alloc: Global,
    inputs: Vec<(&str, SourceMapParts<'a>)>,
) -> Memory<Vec<Vec<Source<'a>>>>
    ensures { IfOk result (λ lists. source_lists lists.items
        ≡ map (λ input. listed_sources (record_of_parts input.1)) inputs.entry.items) }
{
    let mut lists = Vec::with_capacity(alloc, inputs.len())?;
    for (_, map) in inputs {
        lists.push(take_sources(alloc, map)?)?;
    }
    Ok(lists)
}

/// The index of the first input for each path.
fn path_indices<'p>(
    alloc: Global,
    inputs: &[(&'p str, SourceMapParts<'_>)],
) -> Memory<HashMap<&'p str, usize>>
    ensures { IfOk result (λ places. HasIndices (map (λ input. input.0.now) inputs.now) places) }
{
    let mut places = HashMap::new(alloc);
    places.reserve(inputs.len())?;
    for (i, (path, _)) in inputs.iter().enumerate() {
        places.entry(*path)?.or_insert(i);
    }
    Ok(places)
}

/// The index that is listed for a path.
fn listed_index(places: &HashMap<&str, usize>, path: &str) -> Option<usize>
    ensures { result ≡ listed_index places.now path.now }
{
    places.get(path).copied()
}

/// Lists an index as the last of a source that the input at this place stands for, if there is one.
fn set_last(last: &mut Vec<usize>, place: Option<usize>, i: usize)
    requires { IfSome place (λ k. k < length last.old.items) }
    ensures { last.new.items ≡ with_last last.old.items place i }
{
    if let Some(place) = place {
        last[place] = i;
    }
}

/// For each input, the index of the last of these sources that it stands for; 0 if there is none.
fn last_uses(
    alloc: Global,
    sources: &[Source<'_>],
    places: &HashMap<&str, usize>,
    count: usize,
) -> Memory<Vec<usize>>
    requires { AreBelow count places.now }
    ensures each { IfOk result (λ last. length last.items ≡ count) }
    ensures last { IfOk result (λ last. AreLastUses (length sources.now) places.now
        (source_paths sources.now) last.items) }
{
    let mut last = Vec::with_capacity(alloc, count)?;
    last.resize(count, 0)?;
    for (i, source) in sources.iter().enumerate() {
        set_last(&mut last, listed_index(places, source.path.as_str()), i);
    }
    Ok(last)
}

/// A copy of a source.
fn copy_of<'a>(source: &Source<'a>) -> Memory<Source<'a>>
    ensures { IfOk result (λ copy. source_record copy ≡ source_record source.now) }
{
    let content = match &source.content {
        Some(content) => Some(content.clone()?),
        None => None,
    };
    Ok(Source {
        path: source.path.clone()?,
        content,
    })
}

/// Adds copies of sources.
fn copy_sources<'a>(sources: &mut Vec<Source<'a>>, more: &[Source<'a>]) -> Memory<()>
    ensures { OnOk result (source_records sources.new.items
        ≡ source_records sources.old.items ++ source_records more.now) }
{
    for source in more {
        sources.push(copy_of(source)?)?;
    }
    Ok(())
}

/// Adds sources, and takes them if this is their last use.
fn add_sources<'a>(
    sources: &mut Vec<Source<'a>>,
    more: &mut Vec<Source<'a>>,
    is_last: bool,
) -> Memory<()>
    ensures added { OnOk result (source_records sources.new.items
        ≡ source_records sources.old.items ++ source_records more.old.items) }
    ensures kept { is_last ≡ false → more.new ≡ more.old }
{
    if is_last {
        sources.append(more)?;
        return Ok(());
    }
    copy_sources(sources, more.as_slice())
}

/// Whether this index is the last that is listed for a place.
fn is_last(last: &[usize], place: usize, i: usize) -> bool
    requires { place < length last.now }
    ensures { result ≡ (get_or last.now place 0 == i) }
{
    last[place] == i
}

/// Adds what stands for the source at an index: itself, or the sources of the input at this place.
fn add_standing<'a>(
    all: &mut Vec<Source<'a>>,
    source: Source<'a>,
    i: usize,
    place: Option<usize>,
    last: &[usize],
    lists: &mut Vec<Vec<Source<'a>>>,
) -> Memory<()>
    requires below { IfSome place (λ k. k < length lists.old.items) }
    requires each { length last.now ≡ length lists.old.items }
    ensures added { OnOk result (source_records all.new.items ≡ source_records all.old.items
        ++ sources_in (source_lists lists.old.items) place (source_record source.entry)) }
    ensures kept { KeepsOthers place last.now i lists.old.items lists.new.items }
    ensures lists { length lists.new.items ≡ length lists.old.items }
{
    match place {
        Some(place) => add_sources(all, &mut lists[place], is_last(last, place, i)),
        None => Ok(all.push(source)?),
    }
}

/// What stands for the sources, of these lists of the inputs.
fn replace_sources<'a>(
    alloc: Global,
    sources: Vec<Source<'a>>,
    places: &HashMap<&str, usize>,
    last: &[usize],
    mut lists: Vec<Vec<Source<'a>>>,
) -> Memory<Vec<Source<'a>>>
    requires below { AreBelow (length lists.items) places.now }
    requires each { length last.now ≡ length lists.items }
    requires last { AreLastUses (length sources.items) places.now
        (source_paths sources.items) last.now }
    ensures { IfOk result (λ all. source_records all.items ≡ flat_map
        (λ source. sources_in (source_lists lists.entry.items)
        (listed_index places.now source.path) source) (source_records sources.entry.items)) }
{
    let mut all = Vec::with_capacity(alloc, sources.len())?;
    let mut i = 0;
    for source in sources {
        let place = listed_index(places, source.path.as_str());
        add_standing(&mut all, source, i, place, last, &mut lists)?;
        i += 1;
    }
    Ok(all)
}

/// The sources of a remapped map, from those of the first map: in place of one that has an input stand those of the input.
/// All are moved; only those of an input that stands for several sources are copied, but for the last.
pub(crate) fn move_sources<'a>(
    alloc: Global,
    sources: Vec<Source<'a>>,
    inputs: Vec<(&str, SourceMapParts<'a>)>,
) -> Memory<Vec<Source<'a>>>
    ensures { IfOk result (λ all. source_records all.items ≡ remapped_sources
        (decoded_inputs (owned_input_records inputs.entry.items))
        (source_records sources.entry.items)) }
{
    let places = path_indices(alloc, inputs.as_slice())?;
    let lists = take_all_sources(alloc, inputs)?;
    let last = last_uses(alloc, sources.as_slice(), &places, lists.len())?;
    Ok(replace_sources(alloc, sources, &places, last.as_slice(), lists)?)
}

/// The paths of sources, and their contents.
pub(crate) fn split_sources<'a>(
    alloc: Global,
    sources: Vec<Source<'a>>,
) -> Memory<(Vec<CowStr<'a>>, Vec<Option<CowStr<'a>>>)>
    ensures paths { IfOk result (λ lists. texts_of lists.0
        ≡ map (λ source. source.path) (source_records sources.entry.items)) }
    ensures contents { IfOk result (λ lists. contents_of lists.1
        ≡ map (λ source. source.content) (source_records sources.entry.items)) }
{
    let mut paths = Vec::with_capacity(alloc, sources.len())?;
    let mut contents = Vec::with_capacity(alloc, sources.len())?;
    for source in sources {
        let Source { path, content } = source;
        paths.push(path)?;
        contents.push(content)?;
    }
    Ok((paths, contents))
}
