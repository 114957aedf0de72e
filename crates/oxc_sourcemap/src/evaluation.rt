//! The evaluation of plans.
ghost use Rattle.std.specs.Prelude.{◌≡◌, ◌⊎◌, IfOk, IfErr};
ghost use Rattle.oxc_sourcemap.specs.Words.{OutOfMemory, Map, IsEvaluated, HasOutcome, IsErrorOf};
ghost use Rattle.oxc_sourcemap.specs.Words.{meaning, outcome, is_within_limits};

use oxc_sourcemap_map::OwnedSourceMap;
use oxc_sourcemap_plan::{Plan, evaluate_to_parts};
use oxc_sourcemap_tokens::PlanError;
use std::alloc::Global;

/// Evaluates a plan: reads, rewrites, simplifies, joins, composes and remaps maps, and puts source roots before sources; parts
/// from left to right, all parts of a join before they are joined, and all inputs of a remapping before it is made.
///
/// ```rust
/// use oxc_sourcemap::{Plan, evaluate};
///
/// let first = Plan::Read(r#"{"version":3,"sources":["mid.js"],"mappings":"AACA"}"#);
/// let second = Plan::Read(r#"{"version":3,"sources":["main.ts"],"mappings":";AAEE"}"#);
/// let plan = Plan::Compose(Box::new(alloc, first)?, Box::new(alloc, second)?);
/// let text = r#"{"version":3,"names":[],"sources":["main.ts"],"mappings":"AAEE"}"#;
/// assert_eq!(rt; evaluate(alloc, &plan)?.to_json_string(alloc)?.as_str(), text);
/// ```
///
/// At every generated position the map has the exact and the clamped trace that the plan means, and it has the sources,
/// contents and metadata that the plan means (`meaning`). `IsEvaluated` lists what is promised of it, `HasOutcome` what is
/// besides: it is the map that the definitions of these steps make (docs/PROOFS.md, "The theorem").
///
/// Fails with
/// - `TooDeep` if the plan is deeper than 64, where a text alone is 1 deep, before anything is read;
/// - else the first of these, from left to right: `Map(e)` if a text cannot be read as a source map, with the error `e` of
///   `SourceMap::from_json_string`; `Unsorted` if the map of a text or of a join is not sorted; `Map(SeveralSources(n))` if
///   the first map of a composition has n sources and n is above 1.
///
/// It may fail instead with `Map(TooLarge)` if some part has more than 4294967295 names (of all texts read for it), sources or
/// mappings (repeated ones included), each counted by itself, or a line or column of a join or of a simplified map above that,
/// where an indexed map counts as the join of its sections (`is_within_limits`), and with `Map(OutOfMemory)` for want of memory.
pub fn evaluate(alloc: Global, plan: &Plan<'_>) -> Result<OwnedSourceMap, PlanError>
    ensures map { IfOk result (λ map. IsEvaluated map (meaning plan.now)) }
    ensures error { IfErr result (λ e. (e ≡ Map OutOfMemory)
        ⊎ IsErrorOf (meaning plan.now) (is_within_limits plan.now) e) }
    ensures outcome { IfOk result (λ map. HasOutcome map (outcome plan.now)) }
    ensures same_meaning { (outcome plan.now).meaning ≡ meaning plan.now }
{
    let parts = evaluate_to_parts(alloc, plan)?;
    Ok(OwnedSourceMap::from_parts(parts))
}
