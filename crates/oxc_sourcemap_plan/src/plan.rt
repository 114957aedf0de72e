//! Plans: pipelines of reading, rewriting, simplifying, joining, composing and remapping maps and of applying source roots, and
//! their evaluation.
ghost use Rattle.std.specs.Prelude.{◌≡◌, ◌≤◌, ◌↔◌, ◌⊎◌, List, true, false, IsTrue, IfOk, IfErr};
ghost use Rattle.oxc_sourcemap_plan.specs.Words.{Text, Position, depth, Outcome, read_outcome};
ghost use Rattle.oxc_sourcemap_plan.specs.Words.{sorted_outcome, simplified_outcome};
ghost use Rattle.oxc_sourcemap_plan.specs.Words.{rewrite_outcome, root_outcome, join_outcome};
ghost use Rattle.oxc_sourcemap_plan.specs.Words.{composition_outcome, remap_outcome, by_path};
ghost use Rattle.oxc_sourcemap_plan.specs.Words.{outcome_of, outcomes, input_outcomes, outcome};
ghost use Rattle.oxc_sourcemap_plan.specs.Words.{at_lines, at_positions, meaning};
ghost use Rattle.oxc_sourcemap_plan.specs.Words.{is_within_limits, InputsRealize};
ghost use Rattle.oxc_sourcemap_plan.specs.Words.{owned_input_records, IsEvaluated, HasOutcome};
ghost use Rattle.oxc_sourcemap_plan.specs.Words.{IsErrorOf, PartsRealize, FailsAs, AllRealize};
ghost use Rattle.oxc_sourcemap_plan.specs.Words.{OutOfMemory, are_tokens_sorted, Map};
ghost use Rattle.oxc_sourcemap_plan.specs.Words.{Unsorted, record_of_parts, owned_records, IsTold};
ghost use Rattle.oxc_sourcemap_plan.specs.Words.{sorted_map, texts_of};

use crate::fault::PlanFault;
use crate::laws::{
    canonical_unique, composition_associative, dropping_harmless, remapping_associative,
    rooting_idempotent, simplifying_stands,
};
use oxc_sourcemap_join::join_owned_parts;
use oxc_sourcemap_json::{decode_parts, encode_owned_parts, read_parts_from_string};
use oxc_sourcemap_parts::{SourceMapParts, apply_root, are_sorted};
use oxc_sourcemap_steps::{
    compose_parts, remap_owned_parts, simplify_parts, simplifying_harmless, sort_parts,
};
use oxc_sourcemap_tokens::{Memory, PlanError, Position};
use std::alloc::Global;

/// What to do with maps, which are given as JSON texts borrowed for `'t`. Lines and columns count from 0; columns are in
/// UTF-16 code units.
///
/// ```rust
/// use oxc_sourcemap::{Plan, evaluate};
///
/// let a = Plan::Read(r#"{"version":3,"sources":["a.js"],"mappings":"AAAA"}"#);
/// let b = Plan::Read(r#"{"version":3,"sources":["b.js"],"mappings":"AAAA"}"#);
/// let plan = Plan::Join(vec![in alloc; (a, 0), (b, 1)]?);
/// let text = r#"{"version":3,"names":[],"sources":["a.js","b.js"],"mappings":"AAAA;ACAA"}"#;
/// assert_eq!(rt; evaluate(alloc, &plan)?.to_json_string(alloc)?.as_str(), text);
/// ```
#[derive(Drop)]
pub enum Plan<'t> {
    /// Read a map from its JSON text.
    Read(&'t str),
    /// Read a map from its JSON text, and sort its tokens by line and column: for maps whose columns go back on a line.
    ReadSorted(&'t str),
    /// Write the map of a part as a JSON source map, and read it again.
    Rewrite(Box<Plan<'t>>),
    /// Put the source root of the map of a part before each of its sources; the map has none then.
    ApplyRoot(Box<Plan<'t>>),
    /// Simplify the map of a part, as `SourceMap::simplify` does: its traces stay, and what they do not need goes.
    Simplify(Box<Plan<'t>>),
    /// Join the maps of parts, each at the line of the joined code where its code begins, at column 0. Source roots are dropped.
    Join(Vec<(Plan<'t>, u32)>),
    /// Join the maps of parts, each at the line and the column of the joined code where its code begins. Source roots are
    /// dropped.
    JoinAt(Vec<(Plan<'t>, u32, u32)>),
    /// Compose the map of the first part, from generated to intermediate code, with that of the second, from there to
    /// original code.
    Compose(Box<Plan<'t>>, Box<Plan<'t>>),
    /// Lead the map of the first part on through the maps of other parts, each for the sources that have its path, byte for
    /// byte; the first for a path counts. Source roots are dropped.
    Remap(Box<Plan<'t>>, Vec<(&'t str, Plan<'t>)>),
}

/// Whether a plan is at most `room` levels deep. A plan without parts has one level.
fn is_within_depth(plan: &Plan<'_>, room: u32) -> bool
    ensures { IsTrue result ↔ (depth plan.now ≤ room) }
{
    if room == 0 {
        return false;
    }
    match plan {
        Plan::Read(_) => true,
        Plan::ReadSorted(_) => true,
        Plan::Rewrite(part) => is_within_depth(part, room - 1),
        Plan::ApplyRoot(part) => is_within_depth(part, room - 1),
        Plan::Simplify(part) => is_within_depth(part, room - 1),
        Plan::Join(parts) => {
            for (part, _) in parts {
                if !is_within_depth(part, room - 1) {
                    return false;
                }
            }
            true
        }
        Plan::JoinAt(parts) => {
            for (piece, _, _) in parts {
                if !is_within_depth(piece, room - 1) {
                    return false;
                }
            }
            true
        }
        Plan::Compose(first, second) => {
            is_within_depth(first, room - 1) && is_within_depth(second, room - 1)
        }
        Plan::Remap(first, inputs) => {
            for (_, input) in inputs {
                if !is_within_depth(input, room - 1) {
                    return false;
                }
            }
            is_within_depth(first, room - 1)
        }
    }
}

/// This map, or `Unsorted` if its tokens are not sorted.
fn check_sorted(map: SourceMapParts<'static>) -> Result<SourceMapParts<'static>, PlanError>
    ensures map { IfOk result (λ m. (record_of_parts m ≡ record_of_parts map.entry)
        × (are_tokens_sorted (record_of_parts map.entry).tokens ≡ true)) }
    ensures error { IfErr result (λ e. (e ≡ Unsorted)
        × (are_tokens_sorted (record_of_parts map.entry).tokens ≡ false)) }
{
    if are_sorted(map.tokens.as_slice()) {
        Ok(map)
    } else {
        Err(PlanError::Unsorted)
    }
}

/// A map, sorted.
fn sort(alloc: Global, map: SourceMapParts<'static>) -> Memory<SourceMapParts<'static>>
    ensures { IfOk result (λ m. record_of_parts m ≡ sorted_map (record_of_parts map.entry)) }
{
    let mut map = map;
    sort_parts(alloc, &mut map)?;
    Ok(map)
}

/// The map of a JSON text, if it is sorted.
#[inline(never)]
fn read<'t>(alloc: Global, text: &'t str) -> Result<SourceMapParts<'static>, PlanFault<'t>>
    ensures map { IfOk result (λ map. PartsRealize map (read_outcome text.now)) }
    ensures error { IfErr result (λ f. FailsAs f.error (read_outcome text.now)) }
    ensures told { IfErr result (IsTold (read_outcome text.now)) }
{
    canonical_unique();
    dropping_harmless();
    match read_parts_from_string(alloc, text) {
        Ok(map) => Ok(check_sorted(map)?),
        Err(fault) => Err(PlanFault::of_text(text, fault)),
    }
}

/// The map of a JSON text, sorted.
#[inline(never)]
fn read_sorted<'t>(alloc: Global, text: &'t str) -> Result<SourceMapParts<'static>, PlanFault<'t>>
    ensures map { IfOk result (λ map. PartsRealize map (sorted_outcome text.now)) }
    ensures error { IfErr result (λ f. FailsAs f.error (sorted_outcome text.now)) }
    ensures told { IfErr result (IsTold (sorted_outcome text.now)) }
{
    dropping_harmless();
    match read_parts_from_string(alloc, text) {
        Ok(map) => Ok(sort(alloc, map)?),
        Err(fault) => Err(PlanFault::of_text(text, fault)),
    }
}

/// A map, written and read again.
#[inline(never)]
fn rewrite(
    alloc: Global,
    map: SourceMapParts<'static>,
) -> Result<SourceMapParts<'static>, PlanError>
    ensures map { IfOk result (λ m. (o : Outcome) → PartsRealize map.entry o
        → PartsRealize m (rewrite_outcome o)) }
    ensures error { IfErr result (λ e. (o : Outcome) → PartsRealize map.entry o
        → FailsAs e (rewrite_outcome o)) }
{
    canonical_unique();
    let json = encode_owned_parts(alloc, map)?;
    Ok(decode_parts(alloc, json)?)
}

/// The join of maps, each at the position where its code begins, if it is sorted.
#[inline(never)]
fn join(
    alloc: Global,
    maps: Vec<(SourceMapParts<'static>, Position)>,
) -> Result<SourceMapParts<'static>, PlanError>
    ensures map { IfOk result (λ m. (os : List (Outcome × Position))
        → AllRealize (owned_records maps.entry.items) os → PartsRealize m (join_outcome os)) }
    ensures error { IfErr result (λ e. (os : List (Outcome × Position))
        → AllRealize (owned_records maps.entry.items) os → FailsAs e (join_outcome os)) }
{
    dropping_harmless();
    check_sorted(join_owned_parts(alloc, maps)?)
}

/// The composition of two maps.
#[inline(never)]
fn compose(
    alloc: Global,
    first: SourceMapParts<'static>,
    second: SourceMapParts<'static>,
) -> Result<SourceMapParts<'static>, PlanError>
    ensures map { IfOk result (λ m. (p q : Outcome) → PartsRealize first.entry p
        → PartsRealize second.entry q → PartsRealize m (composition_outcome p q)) }
    ensures error { IfErr result (λ e. (p q : Outcome) → PartsRealize first.entry p
        → PartsRealize second.entry q → FailsAs e (composition_outcome p q)) }
{
    composition_associative();
    Ok(compose_parts(alloc, first, second)?)
}

/// A map with its source root before its sources.
#[inline(never)]
fn put_root(
    alloc: Global,
    map: SourceMapParts<'static>,
) -> Result<SourceMapParts<'static>, PlanError>
    ensures map { IfOk result (λ m. (o : Outcome) → PartsRealize map.entry o
        → PartsRealize m (root_outcome o)) }
    ensures error { IfErr result (λ e. (o : Outcome) → FailsAs e (root_outcome o)) }
{
    rooting_idempotent();
    let mut map = map;
    apply_root(alloc, &mut map)?;
    Ok(map)
}

/// A map, simplified.
#[inline(never)]
fn simplify(
    alloc: Global,
    map: SourceMapParts<'static>,
) -> Result<SourceMapParts<'static>, PlanError>
    ensures map { IfOk result (λ m. (o : Outcome) → PartsRealize map.entry o
        → PartsRealize m (simplified_outcome o)) }
    ensures error { IfErr result (λ e. (o : Outcome) → PartsRealize map.entry o
        → FailsAs e (simplified_outcome o)) }
{
    simplifying_harmless();
    simplifying_stands();
    let mut map = map;
    simplify_parts(alloc, &mut map)?;
    Ok(map)
}

/// A map, led on through inputs.
#[inline(never)]
fn remap(
    alloc: Global,
    map: SourceMapParts<'static>,
    inputs: Vec<(&str, SourceMapParts<'static>)>,
) -> Result<SourceMapParts<'static>, PlanError>
    ensures map { IfOk result (λ m. (o : Outcome) (os : List (Text × Outcome))
        → PartsRealize map.entry o → InputsRealize (owned_input_records inputs.entry.items) os
        → PartsRealize m (remap_outcome o os)) }
    ensures error { IfErr result (λ e. (o : Outcome) (os : List (Text × Outcome))
        → PartsRealize map.entry o → InputsRealize (owned_input_records inputs.entry.items) os
        → FailsAs e (remap_outcome o os)) }
{
    remapping_associative();
    Ok(remap_owned_parts(alloc, map, inputs)?)
}

/// The map of a plan of any depth.
///
/// The stack has a frame for each level of a plan. To keep these small, each kind of part has a function of its own, and
/// what those call is not inlined.
#[cycle(evaluation)]
fn evaluate_part<'t>(
    alloc: Global,
    plan: &Plan<'t>,
) -> Result<SourceMapParts<'static>, PlanFault<'t>>
    ensures map { IfOk result (λ map. PartsRealize map (outcome_of plan.now)) }
    ensures error { IfErr result (λ f. FailsAs f.error (outcome_of plan.now)) }
    ensures told { IfErr result (IsTold (outcome_of plan.now)) }
{
    match plan {
        Plan::Read(text) => read(alloc, text),
        Plan::ReadSorted(text) => read_sorted(alloc, text),
        Plan::Rewrite(part) => evaluate_rewrite(alloc, part),
        Plan::ApplyRoot(part) => evaluate_root(alloc, part),
        Plan::Simplify(part) => evaluate_simplification(alloc, part),
        Plan::Join(parts) => evaluate_join(alloc, parts.as_slice()),
        Plan::JoinAt(parts) => evaluate_join_at(alloc, parts.as_slice()),
        Plan::Compose(first, second) => evaluate_composition(alloc, first, second),
        Plan::Remap(first, inputs) => evaluate_remapping(alloc, first, inputs.as_slice()),
    }
}

/// The map of a part, written and read again.
#[cycle(evaluation)]
#[inline(never)]
fn evaluate_rewrite<'t>(
    alloc: Global,
    part: &Plan<'t>,
) -> Result<SourceMapParts<'static>, PlanFault<'t>>
    ensures map { IfOk result (λ map. PartsRealize map (rewrite_outcome (outcome_of part.now))) }
    ensures error { IfErr result (λ f. FailsAs f.error (rewrite_outcome (outcome_of part.now))) }
    ensures told { IfErr result (IsTold (rewrite_outcome (outcome_of part.now))) }
{
    let map = evaluate_part(alloc, part)?;
    Ok(rewrite(alloc, map)?)
}

/// The map of a part, with its source root before its sources.
#[cycle(evaluation)]
#[inline(never)]
fn evaluate_root<'t>(
    alloc: Global,
    part: &Plan<'t>,
) -> Result<SourceMapParts<'static>, PlanFault<'t>>
    ensures map { IfOk result (λ map. PartsRealize map (root_outcome (outcome_of part.now))) }
    ensures error { IfErr result (λ f. FailsAs f.error (root_outcome (outcome_of part.now))) }
    ensures told { IfErr result (IsTold (root_outcome (outcome_of part.now))) }
{
    let map = evaluate_part(alloc, part)?;
    Ok(put_root(alloc, map)?)
}

/// The map of a part, simplified.
#[cycle(evaluation)]
#[inline(never)]
fn evaluate_simplification<'t>(
    alloc: Global,
    part: &Plan<'t>,
) -> Result<SourceMapParts<'static>, PlanFault<'t>>
    ensures map { IfOk result (λ map. PartsRealize map
        (simplified_outcome (outcome_of part.now))) }
    ensures error { IfErr result (λ f. FailsAs f.error (simplified_outcome (outcome_of part.now))) }
    ensures told { IfErr result (IsTold (simplified_outcome (outcome_of part.now))) }
{
    let map = evaluate_part(alloc, part)?;
    Ok(simplify(alloc, map)?)
}

/// The join of the maps of parts, each at its line.
#[cycle(evaluation)]
#[inline(never)]
fn evaluate_join<'t>(
    alloc: Global,
    parts: &[(Plan<'t>, u32)],
) -> Result<SourceMapParts<'static>, PlanFault<'t>>
    ensures map { IfOk result (λ map. PartsRealize map
        (join_outcome (outcomes (at_lines parts.now)))) }
    ensures error { IfErr result (λ f. FailsAs f.error
        (join_outcome (outcomes (at_lines parts.now)))) }
    ensures told { IfErr result (IsTold (join_outcome (outcomes (at_lines parts.now)))) }
{
    let mut maps = Vec::new(alloc);
    for (part, line) in parts {
        let map = evaluate_part(alloc, part)?;
        let position = Position {
            line: *line,
            column: 0,
        };
        maps.push((map, position))?;
    }
    Ok(join(alloc, maps)?)
}

/// The join of the maps of parts, each at its line and column.
#[cycle(evaluation)]
#[inline(never)]
fn evaluate_join_at<'t>(
    alloc: Global,
    parts: &[(Plan<'t>, u32, u32)],
) -> Result<SourceMapParts<'static>, PlanFault<'t>>
    ensures map { IfOk result (λ map. PartsRealize map
        (join_outcome (outcomes (at_positions parts.now)))) }
    ensures error { IfErr result (λ f. FailsAs f.error
        (join_outcome (outcomes (at_positions parts.now)))) }
    ensures told { IfErr result (IsTold (join_outcome (outcomes (at_positions parts.now)))) }
{
    let mut maps = Vec::new(alloc);
    for (part, line, column) in parts {
        let map = evaluate_part(alloc, part)?;
        let position = Position {
            line: *line,
            column: *column,
        };
        maps.push((map, position))?;
    }
    Ok(join(alloc, maps)?)
}

/// The composition of the maps of two parts.
#[cycle(evaluation)]
#[inline(never)]
fn evaluate_composition<'t>(
    alloc: Global,
    first: &Plan<'t>,
    second: &Plan<'t>,
) -> Result<SourceMapParts<'static>, PlanFault<'t>>
    ensures map { IfOk result (λ map. PartsRealize map
        (composition_outcome (outcome_of first.now) (outcome_of second.now))) }
    ensures error { IfErr result (λ f. FailsAs f.error
        (composition_outcome (outcome_of first.now) (outcome_of second.now))) }
    ensures told { IfErr result (IsTold
        (composition_outcome (outcome_of first.now) (outcome_of second.now))) }
{
    let first = evaluate_part(alloc, first)?;
    let second = evaluate_part(alloc, second)?;
    Ok(compose(alloc, first, second)?)
}

/// The map of the first part, led on through those of others.
#[cycle(evaluation)]
#[inline(never)]
fn evaluate_remapping<'t>(
    alloc: Global,
    first: &Plan<'t>,
    inputs: &[(&'t str, Plan<'t>)],
) -> Result<SourceMapParts<'static>, PlanFault<'t>>
    ensures map { IfOk result (λ map. PartsRealize map
        (remap_outcome (outcome_of first.now) (input_outcomes (by_path inputs.now)))) }
    ensures error { IfErr result (λ f. FailsAs f.error
        (remap_outcome (outcome_of first.now) (input_outcomes (by_path inputs.now)))) }
    ensures told { IfErr result (IsTold (remap_outcome (outcome_of first.now)
        (input_outcomes (by_path inputs.now)))) }
{
    let map = evaluate_part(alloc, first)?;
    let mut maps = Vec::new(alloc);
    for (path, input) in inputs {
        let input = evaluate_part(alloc, input)?;
        maps.push((*path, input))?;
    }
    Ok(remap(alloc, map, maps)?)
}

/// Evaluates a plan, as parts, and names the first text that cannot be read, if the error is that of one. `evaluate` of the crate
/// `oxc_sourcemap` makes a map of these parts, and has the rules.
pub fn evaluate_where<'t>(
    alloc: Global,
    plan: &Plan<'t>,
) -> Result<SourceMapParts<'static>, PlanFault<'t>>
    ensures map { IfOk result (λ map. IsEvaluated (record_of_parts map) (meaning plan.now)) }
    ensures error { IfErr result (λ f. (f.error ≡ Map OutOfMemory)
        ⊎ IsErrorOf (meaning plan.now) (is_within_limits plan.now) f.error) }
    ensures told { IfErr result (IsTold (outcome plan.now)) }
    ensures outcome { IfOk result (λ map. HasOutcome (record_of_parts map) (outcome plan.now)) }
    ensures same_meaning { (outcome plan.now).meaning ≡ meaning plan.now }
    ensures same_texts { (outcome plan.now).texts ≡ texts_of plan.now }
{
    dropping_harmless();
    canonical_unique();
    if !is_within_depth(plan, 64) {
        return Err(PlanFault::from(PlanError::TooDeep));
    }
    evaluate_part(alloc, plan)
}

/// Evaluates a plan, as parts: `evaluate_where` without the text at fault.
pub fn evaluate_to_parts(
    alloc: Global,
    plan: &Plan<'_>,
) -> Result<SourceMapParts<'static>, PlanError>
    ensures map { IfOk result (λ map. IsEvaluated (record_of_parts map) (meaning plan.now)) }
    ensures error { IfErr result (λ e. (e ≡ Map OutOfMemory)
        ⊎ IsErrorOf (meaning plan.now) (is_within_limits plan.now) e) }
    ensures outcome { IfOk result (λ map. HasOutcome (record_of_parts map) (outcome plan.now)) }
    ensures same_meaning { (outcome plan.now).meaning ≡ meaning plan.now }
{
    Ok(evaluate_where(alloc, plan)?)
}
