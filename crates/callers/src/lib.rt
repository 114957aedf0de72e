//! Examples of callers of the library, each proved from the contracts of the public calls and the laws alone.
//! docs/CALLING.md shows them.
#![tactic(auto)]

ghost use Rattle.std.specs.Prelude.{◌≡◌, ◌≢◌, ◌≤◌, ◌<◌, ◌+◌, ◌⊎◌, ◌↔◌, ◌∷◌, [], ℕ, List, length};
ghost use Rattle.std.specs.Prelude.{take, option_map, string_bytes, false, IfOk, IfErr, OnOk};
ghost use Rattle.std.specs.Prelude.{OnErr, Ok, Err, Some, None};
ghost use Rattle.std.specs.List.{AllByRecursion};
ghost use Rattle.oxc_sourcemap.specs.Words.{OutOfMemory, TooLarge, Map, Unsorted, as_written};
ghost use Rattle.oxc_sourcemap.specs.Words.{are_tokens_sorted, IsSound, decoded_map_of, MapRecord};
ghost use Rattle.oxc_sourcemap.specs.Words.{read_map, map_text, trace, view_of};
ghost use Rattle.oxc_sourcemap.specs.Words.{view_original, joined, lent_maps, IsWithinLimits};
ghost use Rattle.oxc_sourcemap.specs.Words.{without_chunks, grouped_left, grouped_right};
ghost use Rattle.oxc_sourcemap.specs.Words.{IsSeveralSources, read_meaning, outcome, read_outcome};
ghost use Rattle.oxc_sourcemap.specs.Words.{composition_outcome, meaning, text_meaning};
ghost use Rattle.oxc_sourcemap.specs.Words.{composition_meaning, IsEvaluated, HasOutcome};
ghost use Rattle.oxc_sourcemap.specs.Words.{OnlyMemory, Text, DecodedMap, EqualUpToRepeats};
ghost use Rattle.oxc_sourcemap.specs.Words.{decoded_maps_of, joined_decoded_maps};
ghost use Rattle.oxc_sourcemap.specs.Words.{composed_decoded_maps, remapped_decoded_map};
ghost use Rattle.oxc_sourcemap.specs.Inputs.{decoded_inputs};
ghost use Rattle.oxc_sourcemap.specs.Words.{each_remapped, SeveralSources, composition};
ghost use Rattle.oxc_sourcemap.specs.Words.{lent_inputs, NoInputColumnGoesBack, remapping};
ghost use Rattle.oxc_sourcemap.specs.Words.{inputs_fault, Reports};
ghost use Rattle.oxc_sourcemap.specs.Words.{IsInOrder, compiled_meaning, CompiledRecord};
ghost use Rattle.oxc_sourcemap.specs.Words.{FitsCompiled};
ghost use Rattle.oxc_sourcemap.specs.Words.{HaveSameTraces, IsErrorOf, is_within_limits};

use oxc_sourcemap::laws::{
    canonical_unique, compiled_means_map, composition_associative, dropping_harmless,
    joins_associative, name_ids_unique, remapping_associative, tokens_in_bounds,
};
use oxc_sourcemap::{
    ConcatSourceMapBuilder, OwnedSourceMap, Plan, PlanError, Result, SourceMap, SourceMapBuilder,
    SourceViewToken, compile, evaluate, parts_of,
};
use std::alloc::Global;

/// Reads a map from its JSON text. Its decoded map is the one that the text means.
///
/// Fails with `Map(e)` if the text cannot be read as a map, then with `Unsorted` if the map is not sorted, and with
/// `Map(OutOfMemory)` for want of memory.
pub fn read_sorted(alloc: Global, text: &str) -> std::result::Result<SourceMap<'static>, PlanError>
    ensures map { IfOk result (λ map. read_meaning (read_map text.now)
        ≡ Ok (decoded_map_of map)) }
    ensures sound { IfOk result IsSound }
    ensures error { IfErr result (λ e. (e ≢ Map OutOfMemory)
        → read_meaning (read_map text.now) ≡ Err e) }
{
    let map = SourceMap::from_json_string(alloc, text)?;
    if !map.is_sorted() {
        return Err(PlanError::Unsorted);
    }
    Ok(map)
}

/// Writes a map as a JSON source map, and reads it again. A sound map keeps its decoded map, its names, and its tokens as
/// written; if it has at most 4294967295 tokens, this fails only with `OutOfMemory`.
pub fn rewrite(alloc: Global, map: &SourceMap<'_>) -> Result<SourceMap<'static>>
    ensures decoded_map { IfOk result (λ back. IsSound map.now
        → decoded_map_of back ≡ decoded_map_of map.now) }
    ensures names { IfOk result (λ back. IsSound map.now → back.names ≡ map.now.names) }
    ensures tokens { IfOk result (λ back. IsSound map.now
        → as_written back.tokens ≡ as_written map.now.tokens) }
    ensures only_memory { IfErr result (λ e. IsSound map.now → length map.now.tokens ≤ 4294967295
        → e ≡ OutOfMemory) }
{
    canonical_unique();
    tokens_in_bounds(map.get_tokens().as_slice());
    let json = map.to_json(alloc)?;
    SourceMap::from_json(alloc, json)
}

/// Looks up a generated position of a map. What the view points to is the trace of the map at this position.
///
/// Fails with `Unsorted` if the map is not sorted, and else only with `Map(OutOfMemory)`.
pub fn look_up<'m, 'data>(
    alloc: Global,
    map: &'m SourceMap<'data>,
    line: u32,
    col: u32,
) -> std::result::Result<Option<SourceViewToken<'m, 'data>>, PlanError>
    ensures traced { IfOk result (λ view. option_map view_original (option_map view_of view)
        ≡ trace (decoded_map_of map.now) line col) }
    ensures error { IfErr result (λ e. (e ≢ Map OutOfMemory)
        → (e ≡ Unsorted) × (are_tokens_sorted map.now.tokens ≡ false)) }
{
    if !map.is_sorted() {
        return Err(PlanError::Unsorted);
    }
    let table = map.generate_lookup_table(alloc)?;
    Ok(map.lookup_source_view_token(table.as_slice(), line, col))
}

/// Builds a map of one source with its content, one name, and one token at the beginning of the generated code.
pub fn one_token<'a>(
    alloc: Global,
    path: &'a str,
    content: &'a str,
    name: &'a str,
    line: u32,
    col: u32,
) -> Result<SourceMap<'a>>
    ensures map { IfOk result (λ map. map ≡ record {
      file = None;
      names = name.now ∷ [];
      source_root = None;
      sources = path.now ∷ [];
      source_contents = Some content.now ∷ [];
      tokens = record {
        dst_line = 0;
        dst_col = 0;
        src_line = line;
        src_col = col;
        source_id = Some 0;
        name_id = Some 0;
      } ∷ [];
      token_chunks = None;
      ignore_list = None;
      debug_id = None;
    }) }
    ensures error { OnlyMemory result }
{
    let mut builder = SourceMapBuilder::empty(alloc);
    let source_id = builder.add_source_and_content(path, content)?;
    let name_id = builder.add_name(name)?;
    builder.add_token(0, 0, line, col, Some(source_id), Some(name_id))?;
    builder.into_sourcemap()
}

/// Adds two names to a builder. Their ids are equal exactly if the names are.
pub fn add_two_names<'a>(
    builder: &mut SourceMapBuilder<'a>,
    name: &'a str,
    other: &'a str,
) -> Result<(u32, u32)>
    ensures { IfOk result (λ ids. (ids.0 ≡ ids.1) ↔ (name.now ≡ other.now)) }
{
    name_ids_unique();
    let name_id = builder.add_name(name)?;
    let other_id = builder.add_name(other)?;
    Ok((name_id, other_id))
}

/// Joins maps one by one, each at the line of the joined code where it begins. The map is the join of them all.
///
/// Fails with `TooLarge` if the join of the first maps, up to some one of them, is past a limit, and else only with
/// `OutOfMemory`.
pub fn join_one_by_one<'a>(
    alloc: Global,
    maps: &[(&'a SourceMap<'_>, u32)],
) -> Result<SourceMap<'a>>
    ensures map { IfOk result (λ map. map ≡ joined (lent_maps maps.now)) }
    ensures error { IfErr result (λ e. (e ≢ OutOfMemory)
        → (e ≡ TooLarge) × ((n : ℕ) × ¬ (IsWithinLimits (joined (lent_maps (take n maps.now)))))) }
{
    joins_associative();
    let mut builder = ConcatSourceMapBuilder::empty(alloc);
    for (sourcemap, line_offset) in maps {
        builder.add_sourcemap(sourcemap, *line_offset)?;
    }
    builder.into_sourcemap()
}

/// Joins maps in two groups: the first half, the second half, and then these two. But for its chunks the map is the join of
/// them all, so it means the same. Fails only with `TooLarge` and `OutOfMemory`.
pub fn join_halves<'a>(alloc: Global, maps: &[(&'a SourceMap<'_>, u32)]) -> Result<SourceMap<'a>>
    ensures map { IfOk result (λ map. without_chunks map
        ≡ without_chunks (joined (lent_maps maps.now))) }
    ensures decoded_map { IfOk result (λ map. decoded_map_of map
        ≡ decoded_map_of (joined (lent_maps maps.now))) }
    ensures error { IfErr result (λ e. (e ≡ OutOfMemory) ⊎ (e ≡ TooLarge)) }
{
    joins_associative();
    let (front, back) = maps.split_at(maps.len() / 2);
    let first = join_one_by_one(alloc, front)?;
    let second = join_one_by_one(alloc, back)?;
    let mut builder = ConcatSourceMapBuilder::empty(alloc);
    builder.add_sourcemap_owned(first, 0)?;
    builder.add_sourcemap_owned(second, 0)?;
    builder.into_sourcemap()
}

/// Composes three maps from the left: the first two, and the result with the third.
pub fn compose_left<'c>(
    alloc: Global,
    first: &SourceMap<'_>,
    second: &SourceMap<'_>,
    third: &SourceMap<'c>,
) -> Result<SourceMap<'c>>
    ensures map { IfOk result (λ map. IsSound second.now → IsSound third.now
        → grouped_left first.now second.now third.now ≡ Ok map) }
    ensures error { IfErr result (λ e. IsSound second.now → IsSound third.now → (e ≢ OutOfMemory)
        → grouped_left first.now second.now third.now ≡ Err e) }
{
    composition_associative();
    let earlier = first.clone(alloc)?.compose(alloc, second.clone(alloc)?)?;
    let composed = earlier.compose(alloc, third.clone(alloc)?)?;
    Ok(composed)
}

/// Composes three maps from the right: the last two, and the first with the result.
pub fn compose_right<'c>(
    alloc: Global,
    first: &SourceMap<'_>,
    second: &SourceMap<'_>,
    third: &SourceMap<'c>,
) -> Result<SourceMap<'c>>
    ensures map { IfOk result (λ map. IsSound second.now → IsSound third.now
        → grouped_right first.now second.now third.now ≡ Ok map) }
    ensures error { IfErr result (λ e. IsSound second.now → IsSound third.now → (e ≢ OutOfMemory)
        → grouped_right first.now second.now third.now ≡ Err e) }
{
    composition_associative();
    let later = second.clone(alloc)?.compose(alloc, third.clone(alloc)?)?;
    let composed = first.clone(alloc)?.compose(alloc, later)?;
    Ok(composed)
}

/// Composes three sound maps in both orders. Both maps have the same decoded map.
///
/// If the error is neither `TooLarge` nor `OutOfMemory`, both orders fail because a map has several sources, or the other
/// fails with `TooLarge`. If the first two maps have at most one source each, and the three at most 4294967295 names, this
/// fails only with `OutOfMemory`.
pub fn compose_both_ways<'c>(
    alloc: Global,
    first: &SourceMap<'_>,
    second: &SourceMap<'_>,
    third: &SourceMap<'c>,
) -> Result<(SourceMap<'c>, SourceMap<'c>)>
    ensures same_meaning { IfOk result (λ maps. IsSound first.now → IsSound second.now
        → IsSound third.now
        → decoded_map_of maps.0 ≡ decoded_map_of maps.1) }
    ensures error { IfErr result (λ e. IsSound first.now → IsSound second.now → IsSound third.now
        → (e ≢ OutOfMemory) → (e ≢ TooLarge)
        → IsSeveralSources (grouped_left first.now second.now third.now)
        × (IsSeveralSources (grouped_right first.now second.now third.now)
        ⊎ (grouped_right first.now second.now third.now ≡ Err TooLarge))) }
    ensures only_memory { IfErr result (λ e. IsSound first.now → IsSound second.now
        → IsSound third.now
        → length first.now.sources ≤ 1 → length second.now.sources ≤ 1
        → length first.now.names + length second.now.names + length third.now.names ≤ 4294967295
        → e ≡ OutOfMemory) }
{
    composition_associative();
    let left = compose_left(alloc, first, second, third)?;
    let right = compose_right(alloc, first, second, third)?;
    Ok((left, right))
}

/// The map of a minified bundle: the maps of its modules, each at the line of the bundle where it begins, are joined, and the
/// minifier's map is composed with the join.
///
/// The modules were compiled, and their maps lead to compiled files. Those may be remapped to the originals before they are
/// joined, or the map that is returned, at the end: whatever the inputs are, both give the same decoded map, up to repeats.
///
/// Fails with `Map(TooLarge)` if the join of the first modules, up to some one of them, is past a limit, with `Unsorted` if the
/// join is not sorted, with `Map(SeveralSources(n))` if the minifier's map has n sources, more than one, with `Map(TooLarge)` if
/// the composition of the two needs too many names, and else only with `Map(OutOfMemory)`.
pub fn minified_bundle<'a>(
    alloc: Global,
    minified: &SourceMap<'_>,
    modules: &[(&'a SourceMap<'_>, u32)],
) -> std::result::Result<SourceMap<'a>, PlanError>
    ensures remapped { IfOk result (λ map. IsSound minified.now
        → AllByRecursion (λ m. IsSound m.0) (lent_maps modules.now)
        → (inputs : List (Text × DecodedMap))
        → EqualUpToRepeats (remapped_decoded_map (decoded_map_of map) inputs)
        (composed_decoded_maps (decoded_map_of minified.now) (joined_decoded_maps
        (each_remapped inputs (decoded_maps_of (lent_maps modules.now)))))) }
    ensures error { let bundle = joined (lent_maps modules.now) in
        IfErr result (λ e. (e ≢ Map OutOfMemory)
        → ((e ≡ Map TooLarge)
        × ((n : ℕ) × ¬ (IsWithinLimits (joined (lent_maps (take n modules.now))))))
        ⊎ ((e ≡ Unsorted) × (are_tokens_sorted bundle.tokens ≡ false))
        ⊎ ((e ≡ Map TooLarge) × (composition minified.now bundle ≡ Err TooLarge))
        ⊎ ((e ≡ Map (SeveralSources (length minified.now.sources)))
        × (1 < length minified.now.sources))) }
{
    composition_associative();
    dropping_harmless();
    remapping_associative();
    let bundle = join_one_by_one(alloc, modules)?;
    if !bundle.is_sorted() {
        return Err(PlanError::Unsorted);
    }
    let copy = minified.clone(alloc)?;
    let map = copy.compose(alloc, bundle)?;
    Ok(map)
}

/// Leads the map of a bundle, whose modules were compiled, back to their originals, through the maps of the modules. If on no
/// line of an input columns go back, its decoded map is the remapping of the decoded maps, and it is sound if the bundle is.
///
/// Fails as `SourceMap::remap` does.
pub fn lead_back<'m>(
    alloc: Global,
    bundle: &'m SourceMap<'_>,
    inputs: &[(&str, &'m SourceMap<'_>)],
) -> Result<SourceMap<'m>>
    ensures decoded_map { let inputs = lent_inputs inputs.now in NoInputColumnGoesBack inputs
        → IfOk result (λ map. decoded_map_of map
        ≡ remapped_decoded_map (decoded_map_of bundle.now) (decoded_inputs inputs)) }
    ensures sound { let inputs = lent_inputs inputs.now in NoInputColumnGoesBack inputs
        → IfOk result (λ map. IsSound bundle.now → IsSound map) }
    ensures error { let inputs = lent_inputs inputs.now in NoInputColumnGoesBack inputs
        → IfErr result (λ e. (e ≢ OutOfMemory) → remapping bundle.now inputs ≡ Err e) }
    ensures fault { Reports (inputs_fault (lent_inputs inputs.now)) result }
{
    remapping_associative();
    bundle.remap(alloc, inputs)
}

/// The map of code that was compiled and then minified, from the JSON texts of the two maps: a plan that composes them.
/// It has all that `evaluate` promises of that plan.
pub fn minified_map(
    alloc: Global,
    minified: &str,
    compiled: &str,
) -> std::result::Result<OwnedSourceMap, PlanError>
    ensures map { IfOk result (λ map. IsEvaluated map
        (composition_meaning (text_meaning minified.now) (text_meaning compiled.now))) }
    ensures outcome { IfOk result (λ map. HasOutcome map
        (composition_outcome (read_outcome minified.now) (read_outcome compiled.now))) }
{
    let first = Box::new(alloc, Plan::Read(minified))?;
    let second = Box::new(alloc, Plan::Read(compiled))?;
    evaluate(alloc, &Plan::Compose(first, second))
}

/// Evaluates a plan, and writes the JSON text of its map, which has all that `evaluate` promises.
pub fn evaluated_text(alloc: Global, plan: &Plan<'_>) -> std::result::Result<String, PlanError>
    ensures { IfOk result (λ text. (map : MapRecord) × IsEvaluated map (meaning plan.now)
        × HasOutcome map (outcome plan.now) × (map_text map ≡ Ok (string_bytes text))) }
{
    let map = evaluate(alloc, plan)?;
    Ok(map.to_json_string(alloc)?)
}

/// Evaluates a plan, and compiles its map, with the length of a text and a stamp that are kept. The bytes are in order, so that lookups
/// in them are exact, and mean a map that has at every position, exact and clamped, the trace that the plan means.
///
/// Fails as `evaluate` does, and with `Map(TooLarge)` if the map that the steps of the plan make is not sure to fit into a compiled map.
pub fn compile_plan(
    alloc: Global,
    plan: &Plan<'_>,
    text_length: u64,
    stamp: &[u8; 32],
) -> std::result::Result<Vec<u8>, PlanError>
    ensures order { IfOk result (λ bytes. IsInOrder bytes.items) }
    ensures means { IfOk result (λ bytes. (c : CompiledRecord) × (meant : DecodedMap)
        × (compiled_meaning bytes.items ≡ Ok c) × (meaning plan.now ≡ Ok meant)
        × HaveSameTraces (decoded_map_of c.content) meant
        × EqualUpToRepeats (decoded_map_of c.content) meant
        × (c.text_length ≡ text_length) × (c.stamp ≡ stamp.now)) }
    ensures error { IfErr result (λ e. (e ≡ Map OutOfMemory)
        ⊎ ((e ≡ Map TooLarge) × (m : MapRecord) × HasOutcome m (outcome plan.now)
        × ¬ (FitsCompiled m))
        ⊎ IsErrorOf (meaning plan.now) (is_within_limits plan.now) e) }
{
    compiled_means_map();
    let map = evaluate(alloc, plan)?;
    compile(alloc, parts_of(map.as_source_map()), text_length, stamp)
}

/// Sets the file of an owned map through `as_source_map_mut`. The owned map then has it, and nothing else has changed.
pub fn rename(alloc: Global, map: &mut OwnedSourceMap, file: &str) -> Result<()>
    ensures kept { OnOk result (map.new ≡ record map.old { file = Some file.now }) }
    ensures unchanged { OnErr result (map.new ≡ map.old) }
{
    map.as_source_map_mut().set_file(alloc, file)
}

/// Sets the ignore list of an owned map through `DerefMut`. The owned map then has it, and nothing else has changed.
pub fn ignore(map: &mut OwnedSourceMap, ignore_list: Vec<u32>)
    ensures { map.new ≡ record map.old { ignore_list = Some ignore_list.items } }
{
    let inside: &mut SourceMap<'static> = &mut *map;
    inside.set_ignore_list(ignore_list);
}

/// The number of names of an owned map, counted by the iterator over them.
pub fn name_count(map: &OwnedSourceMap) -> usize
    ensures { result ≡ length map.now.names }
{
    map.get_names().count()
}
