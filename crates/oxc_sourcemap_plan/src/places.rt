//! Where a plan has its first fault, if that is one of a text.
ghost use Rattle.std.specs.Prelude.{◌≡◌, ◌≢◌, ◌⊎◌, true, IfOk, IsSome, None, Err, option_map};
ghost use Rattle.oxc_sourcemap_plan.specs.Words.{lent_items, texts_of, IsPlaceOf, IsPlanPlace};
ghost use Rattle.oxc_sourcemap_plan.specs.Words.{OnlyMemory, OutOfMemory, is_within_limits};
ghost use Rattle.oxc_sourcemap_plan.specs.Words.{Error, Map, IsOfReading, with_number, meaning};

use crate::collecting::plan_texts;
use crate::laws::dropping_harmless;
use crate::plan::Plan;
use oxc_sourcemap_json::read_parts_from_string;
use oxc_sourcemap_tokens::{Error, Fault, FaultPlace, PlanError, Result};
use std::alloc::Global;

/// The place of the fault of the text with this number.
fn numbered(fault: Fault, k: usize) -> Option<FaultPlace>
    ensures { result ≡ option_map (with_number k) fault.place }
{
    Some(fault.place?.in_text(k))
}

/// The place of the fault of the text with this number, if its error is this one. Fails only with `OutOfMemory`.
fn place_if(fault: Fault, error: Error, k: usize) -> Result<Option<FaultPlace>>
    ensures place { IfOk result (λ place. (fault.error ≢ OutOfMemory)
        × (((fault.error ≡ error) × (place ≡ option_map (with_number k) fault.place))
        ⊎ ((fault.error ≢ error) × (place ≡ None)))) }
    ensures error { OnlyMemory result }
{
    if fault.error == Error::OutOfMemory {
        return Err(Error::OutOfMemory);
    }
    if fault.error != error {
        return Ok(None);
    }
    Ok(numbered(fault, k))
}

/// The first fault of the first of these texts that cannot be read, if its error is this one; its number is the index of that text.
/// None if all can be read, or the first that cannot has another error. Fails only with `OutOfMemory`.
fn texts_fault_at(alloc: Global, texts: &[&str], error: Error) -> Result<Option<FaultPlace>>
    ensures place { IfOk result (λ place. IsPlaceOf (lent_items texts.now) error place) }
    ensures error { OnlyMemory result }
{
    for (k, text) in texts.iter().enumerate() {
        if let Err(fault) = read_parts_from_string(alloc, text) {
            return place_if(fault, error, k);
        }
    }
    Ok(None)
}

/// Where the evaluation of a plan failed with this error, which `evaluate` returned, by a text that it could not read: the place in
/// that text, as `json_fault_at` gives it. Its number counts the texts of the plan in the order of its words. None for an error
/// that comes from no text. If no part passes a limit, there is a place for each error that the plan means but `Unsorted`,
/// `TooDeep` and `SeveralSources`.
///
/// The texts are read once more, up to that one. Fails only with `OutOfMemory`.
///
/// ```rust
/// use oxc_sourcemap::{Plan, evaluate, plan_fault_at};
///
/// let a = Plan::Read(r#"{"version":3,"sources":["a.js"],"mappings":"AAAA"}"#);
/// let b = Plan::Read(r#"{"version":3,"sources":["b.js"],"mappings":"AAAA,CCAA"}"#);
/// let plan = Plan::Join(vec![in alloc; (a, 0), (b, 1)]?);
/// if let Err(error) = evaluate(alloc, &plan) {
///     let place = plan_fault_at(alloc, &plan, error)?.unwrap();
///     assert_eq!(rt; place.to_string(alloc)?.as_str(), "text 1, line 0, segment 1 (byte 5)");
/// }
/// ```
pub fn plan_fault_at(alloc: Global, plan: &Plan<'_>, error: PlanError) -> Result<Option<FaultPlace>>
    ensures place { IfOk result (λ place. IsPlanPlace (texts_of plan.now) error place) }
    ensures meant { IfOk result (λ place. is_within_limits plan.now ≡ true
        → meaning plan.now ≡ Err error → (e : Error) → error ≡ Map e → IsOfReading e
        → IsSome place) }
    ensures error { OnlyMemory result }
{
    dropping_harmless();
    match error {
        PlanError::Map(error) => {
            let texts = plan_texts(alloc, plan)?;
            texts_fault_at(alloc, texts.as_slice(), error)
        }
        _ => Ok(None),
    }
}
