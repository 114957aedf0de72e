//! Plans of words over texts.
ghost use Rattle.std.specs.Prelude.{◌≡◌, ◌≢◌, map, string_bytes, IfOk, IfErr, Ok, true};
ghost use Rattle.oxc_sourcemap_c.specs.Words.{call_error_of_run, parsed_plan, IsPlanMap};
ghost use Rattle.oxc_sourcemap_c.specs.Words.{IsEvaluationErrorAt, IsPlanErrorAt, IsFailure};
ghost use Rattle.oxc_sourcemap_c.specs.Words.{IsOutcomeErrorAt, lent_items, outcome, of_plan};
ghost use Rattle.oxc_sourcemap_c.specs.Words.{HoldsMap, IsErrorAt, no_fault, are_among};
ghost use Rattle.oxc_sourcemap_c.specs.Words.{fault_place_in};

use crate::holding::Handle;
use crate::making::failure::Failure;
use crate::making::reading_texts::put_read;
use crate::numbers::{CallError, Fault};
use crate::texts::texts_of;
use oxc_sourcemap_map::OwnedSourceMap;
use oxc_sourcemap_plan::{Plan, PlanFault, RunError, evaluate_where, read_plan};
use oxc_sourcemap_tokens::{Error, Memory, PlanError};
use std::alloc::Global;

/// Copies of words.
fn copy_words(alloc: Global, words: &[&str]) -> Memory<Vec<String>>
    ensures { IfOk result (λ copies. map string_bytes copies.items ≡ lent_items words.now) }
{
    let mut copies = Vec::with_capacity(alloc, words.len())?;
    for word in words {
        copies.push(String::from_str(alloc, word)?)?;
    }
    Ok(copies)
}

/// The error for C of an error of reading a plan.
fn call_error_of(error: RunError) -> CallError
    ensures { result ≡ call_error_of_run error }
{
    match error {
        RunError::Plan(error) => CallError::Plan(error),
        RunError::NoText(number) => CallError::NoText(number),
        _ => CallError::Words,
    }
}

/// Why a plan over these texts fails: the error, with the place of the fault if that is one of a text.
fn plan_failure(inputs: &[&str], fault: &PlanFault<'_>) -> Failure
    ensures error { result.error ≡ of_plan fault.now.error }
    ensures place { result.place ≡ fault_place_in (lent_items inputs.now) fault.now }
{
    Failure {
        error: CallError::Plan(fault.error),
        place: fault.place_in(inputs),
    }
}

/// The map of a plan over these texts, among which its own are.
fn evaluate_plan(alloc: Global, inputs: &[&str], plan: &Plan<'_>) -> Result<OwnedSourceMap, Failure>
    requires texts { are_among (lent_items inputs.now) (outcome plan.now).texts ≡ true }
    ensures map { IfOk result (IsPlanMap (Ok (outcome plan.now))) }
    ensures error { IfErr result (IsFailure (IsOutcomeErrorAt (lent_items inputs.now)
        (Ok (outcome plan.now)))) }
{
    match evaluate_where(alloc, plan) {
        Ok(parts) => Ok(OwnedSourceMap::from_parts(parts)),
        Err(fault) if fault.error == PlanError::Map(Error::OutOfMemory) => Err(Failure::memory()),
        Err(fault) => Err(plan_failure(inputs, &fault)),
    }
}

/// The map of the plan of these words over these texts.
fn evaluate_words(alloc: Global, words: &[&str], texts: &[&str]) -> Result<OwnedSourceMap, Failure>
    ensures map { IfOk result (IsPlanMap (parsed_plan (lent_items texts.now)
        (lent_items words.now))) }
    ensures error { IfErr result (IsFailure (IsEvaluationErrorAt (lent_items words.now)
        (lent_items texts.now))) }
{
    let Ok(words) = copy_words(alloc, words) else {
        return Err(Failure::memory());
    };
    match read_plan(alloc, texts, words.as_slice()) {
        Ok(plan) => evaluate_plan(alloc, texts, &plan),
        Err(error) => Err(Failure::of(call_error_of(error))),
    }
}

/// The map of the plan of these words over these texts, both given as bytes.
fn evaluate(alloc: Global, words: &[&[u8]], texts: &[&[u8]]) -> Result<OwnedSourceMap, Failure>
    ensures map { IfOk result (IsPlanMap (parsed_plan (lent_items texts.now)
        (lent_items words.now))) }
    ensures error { IfErr result (IsFailure (IsPlanErrorAt (lent_items words.now)
        (lent_items texts.now))) }
{
    let words = texts_of(alloc, words)?;
    let texts = texts_of(alloc, texts)?;
    evaluate_words(alloc, words.as_slice(), texts.as_slice())
}

/// Evaluates a plan of these words over these texts.
#[unsafe(no_mangle)]
pub extern "C" fn proved_evaluate(
    alloc: Global,
    words: &[&[u8]],
    texts: &[&[u8]],
    out: &mut Handle,
    fault: &mut Fault,
) -> u32
    ensures map { result ≡ 0 → HoldsMap out.new.held
        (IsPlanMap (parsed_plan (lent_items texts.now) (lent_items words.now))) }
    ensures no_error { result ≡ 0 → fault.new ≡ no_fault }
    ensures error { result ≢ 0 → (out.new.held ≡ out.old.held)
        × IsErrorAt result fault.new (IsPlanErrorAt (lent_items words.now) (lent_items texts.now)) }
{
    put_read(alloc, evaluate(alloc, words, texts), out, fault)
}
