//! Plans as arguments, and the texts in an input.
ghost use Rattle.std.specs.Prelude.{◌≡◌, ◌≢◌, ◌≤◌, ◌<◌, ◌+◌, ◌∷◌, [], false, length, map};
ghost use Rattle.std.specs.Prelude.{string_bytes, Ok, Err, slice_get, MatchOption, IfOk, IfErr};
ghost use Rattle.std.specs.Prelude.{IfSome, true};
ghost use Rattle.oxc_sourcemap_plan.specs.Words.{out_of_memory, depth, deepest, outcome_of};
ghost use Rattle.oxc_sourcemap_plan.specs.Words.{outcome, inputs_of, parsed_number, by_path};
ghost use Rattle.oxc_sourcemap_plan.specs.Words.{input_outcomes, parsed_beginning, parsed_input};
ghost use Rattle.oxc_sourcemap_plan.specs.Words.{parsed_join, parsed_path, parsed_list};
ghost use Rattle.oxc_sourcemap_plan.specs.Words.{parsed_input_part, parsed_remapping, parsed_part};
ghost use Rattle.oxc_sourcemap_plan.specs.Words.{parsed_plan, Gives, lent_items, lent_item};
ghost use Rattle.oxc_sourcemap_plan.specs.Words.{parsed_text, parsed_sort, are_among};

use crate::numbers::read_number;
use crate::plan::Plan;
use crate::run_error::RunError;
use oxc_sourcemap_tokens::{Memory, PlanError, Position};
use std::alloc::Global;

/// The text before the first line that is exactly `---`, and what comes after that line. If there is no such line, the text is
/// the whole input, and nothing comes after it.
fn first_text(input: &str) -> (&str, Option<&str>)
    ensures text { MatchOption result.1 (inputs_of input.now ≡ result.0.now ∷ [])
        (λ rest. inputs_of input.now ≡ result.0.now ∷ inputs_of rest.now) }
    ensures shorter { IfSome result.1 (λ rest. length rest.now < length input.now) }
{
    if input == "---" {
        return ("", Some(""));
    }
    if let Some(rest) = input.strip_prefix("---\n") {
        return ("", Some(rest));
    }
    if let Some((text, rest)) = input.split_once("\n---\n") {
        return (text, Some(rest));
    }
    match input.strip_suffix("\n---") {
        Some(text) => (text, Some("")),
        None => (input, None),
    }
}

/// The texts of an input, separated by lines that are exactly `---`. They are parts of the input, and nothing of it is copied.
pub fn inputs_of<'t>(alloc: Global, input: &'t str) -> Memory<Vec<&'t str>>
    ensures { IfOk result (λ inputs. lent_items inputs.items ≡ inputs_of input.now) }
{
    let mut inputs = Vec::new(alloc);
    let mut rest = input;
    loop {
        let (text, after) = first_text(rest);
        inputs.push(text)?;
        match after {
            Some(others) => rest = others,
            None => return Ok(inputs),
        }
    }
}

/// The number of the first argument, and the arguments after it.
fn take_number<'w>(arguments: &'w [String]) -> Result<(u32, &'w [String]), RunError>
    ensures { Gives (λ r. (r.0, map string_bytes r.1.now)) result
        (parsed_number (map string_bytes arguments.now)) }
{
    let Some((argument, others)) = arguments.split_first() else {
        return Err(RunError::Arguments);
    };
    match read_number(argument.as_str()) {
        Some(number) => Ok((number, others)),
        None => Err(RunError::Arguments),
    }
}

/// The position of a part of a join, from the first arguments: a line, and a column if it has one, else column 0; and the
/// arguments after these.
fn take_position<'w>(
    arguments: &'w [String],
    has_column: bool,
) -> Result<(Position, &'w [String]), RunError>
    ensures { Gives (λ r. (r.0, map string_bytes r.1.now)) result
        (parsed_beginning has_column (map string_bytes arguments.now)) }
{
    let (line, after) = take_number(arguments)?;
    if !has_column {
        return Ok((Position { line, column: 0 }, after));
    }
    let (column, rest) = take_number(after)?;
    Ok((Position { line, column }, rest))
}

/// The input with this number, from 0.
fn input_at<'t>(inputs: &'t [&'t str], number: u32) -> Option<&'t str>
    ensures { lent_item result ≡ slice_get (lent_items inputs.now) number }
{
    inputs.get(number as usize).copied()
}

/// The text of an argument `@K`: input K.
fn input_text<'t>(inputs: &'t [&'t str], argument: &str) -> Result<&'t str, RunError>
    ensures { Gives (λ text. text.now) result
        (parsed_text (lent_items inputs.now) argument.now) }
{
    let Some(digits) = argument.strip_prefix('@') else {
        return Err(RunError::Arguments);
    };
    let Some(number) = read_number(digits) else {
        return Err(RunError::Arguments);
    };
    match input_at(inputs, number) {
        Some(text) => Ok(text),
        None => Err(RunError::NoText(number)),
    }
}

/// The part of an argument `@K`: read input K.
fn read_input<'t>(inputs: &'t [&'t str], argument: &str) -> Result<Plan<'t>, RunError>
    ensures part { IfOk result (λ plan. parsed_input (lent_items inputs.now) argument.now
        ≡ Ok (outcome_of plan)) }
    ensures depth { IfOk result (λ plan. depth plan ≡ 1) }
    ensures error { IfErr result (λ e. parsed_input (lent_items inputs.now) argument.now ≡ Err e) }
{
    Ok(Plan::Read(input_text(inputs, argument)?))
}

/// The part after the argument `sort`: an argument `@K`, to read input K and sort it; and the arguments after it.
fn read_sort<'t>(
    inputs: &'t [&'t str],
    arguments: &'t [String],
) -> Result<(Plan<'t>, &'t [String]), RunError>
    ensures part { IfOk result (λ r. parsed_sort (lent_items inputs.now)
        (map string_bytes arguments.now) ≡ Ok (outcome_of r.0, map string_bytes r.1.now)) }
    ensures depth { IfOk result (λ r. depth r.0 ≡ 1) }
    ensures error { IfErr result (λ e. parsed_sort (lent_items inputs.now)
        (map string_bytes arguments.now) ≡ Err e) }
{
    let Some((argument, others)) = arguments.split_first() else {
        return Err(RunError::Arguments);
    };
    let text = input_text(inputs, argument.as_str())?;
    Ok((Plan::ReadSorted(text), others))
}

/// The first argument as a path, whatever it is, and the arguments after it.
fn take_path(arguments: &[String]) -> Result<(&str, &[String]), RunError>
    ensures { Gives (λ r. (r.0.now, map string_bytes r.1.now)) result
        (parsed_path (map string_bytes arguments.now)) }
{
    match arguments.split_first() {
        Some((path, others)) => Ok((path.as_str(), others)),
        None => Err(RunError::Arguments),
    }
}

/// The part that the arguments begin with, at most `room` levels deep, and the arguments after it.
#[cycle(part)]
fn read_part<'t>(
    alloc: Global,
    inputs: &'t [&'t str],
    arguments: &'t [String],
    room: u32,
) -> Result<(Plan<'t>, &'t [String]), RunError>
    ensures part { IfOk result (λ r. parsed_part (lent_items inputs.now) room
        (map string_bytes arguments.now) ≡ Ok (outcome_of r.0, map string_bytes r.1.now)) }
    ensures depth { IfOk result (λ r. depth r.0 ≤ room) }
    ensures error { IfErr result (λ e. (e ≢ out_of_memory)
        → parsed_part (lent_items inputs.now) room (map string_bytes arguments.now) ≡ Err e) }
{
    let Some((argument, others)) = arguments.split_first() else {
        return Err(RunError::Arguments);
    };
    if room == 0 {
        return Err(RunError::Plan(PlanError::TooDeep));
    }
    match argument.as_str() {
        "rewrite" => {
            let (part, rest) = read_part(alloc, inputs, others, room - 1)?;
            Ok((Plan::Rewrite(Box::new(alloc, part)?), rest))
        }
        "root" => {
            let (part, rest) = read_part(alloc, inputs, others, room - 1)?;
            Ok((Plan::ApplyRoot(Box::new(alloc, part)?), rest))
        }
        "simplify" => {
            let (part, rest) = read_part(alloc, inputs, others, room - 1)?;
            Ok((Plan::Simplify(Box::new(alloc, part)?), rest))
        }
        "join" => read_join(alloc, inputs, others, room - 1, false),
        "joinat" => read_join(alloc, inputs, others, room - 1, true),
        "compose" => {
            let (first, middle) = read_part(alloc, inputs, others, room - 1)?;
            let (second, rest) = read_part(alloc, inputs, middle, room - 1)?;
            Ok((
                Plan::Compose(Box::new(alloc, first)?, Box::new(alloc, second)?),
                rest,
            ))
        }
        "remap" => read_remapping(alloc, inputs, others, room - 1),
        "sort" => read_sort(inputs, others),
        text => Ok((read_input(inputs, text)?, others)),
    }
}

/// The join after the argument `join` or `joinat`: a number, and as many parts, at most `room` levels deep, each with its
/// position. A join at lines is one at these lines and column 0.
#[cycle(part)]
fn read_join<'t>(
    alloc: Global,
    inputs: &'t [&'t str],
    arguments: &'t [String],
    room: u32,
    has_column: bool,
) -> Result<(Plan<'t>, &'t [String]), RunError>
    ensures part { IfOk result (λ r.
        parsed_join (parsed_part (lent_items inputs.now) room) (parsed_beginning has_column)
        (map string_bytes arguments.now)
        ≡ Ok (outcome_of r.0, map string_bytes r.1.now)) }
    ensures depth { IfOk result (λ r. depth r.0 ≤ room + 1) }
    ensures error { IfErr result (λ e. (e ≢ out_of_memory) →
        parsed_join (parsed_part (lent_items inputs.now) room) (parsed_beginning has_column)
        (map string_bytes arguments.now)
        ≡ Err e) }
{
    let (count, after) = take_number(arguments)?;
    let mut parts = Vec::new(alloc);
    let mut rest = after;
    for i in 0..count {
        let (part, left) = read_part(alloc, inputs, rest, room)?;
        let (position, left) = take_position(left, has_column)?;
        parts.push((part, position.line, position.column))?;
        rest = left;
    }
    Ok((Plan::JoinAt(parts), rest))
}

/// The inputs of a remapping: a number, and as many times a path and a part, at most `room` levels deep.
#[cycle(part)]
fn read_remap_inputs<'t>(
    alloc: Global,
    inputs: &'t [&'t str],
    arguments: &'t [String],
    room: u32,
) -> Result<(Vec<(&'t str, Plan<'t>)>, &'t [String]), RunError>
    ensures parts { IfOk result (λ r.
        parsed_list (parsed_input_part (parsed_part (lent_items inputs.now) room))
        (map string_bytes arguments.now)
        ≡ Ok (input_outcomes (by_path r.0.items), map string_bytes r.1.now)) }
    ensures depth { IfOk result (λ r. deepest (map (λ p. depth p.1) r.0.items) ≤ room) }
    ensures error { IfErr result (λ e. (e ≢ out_of_memory) →
        parsed_list (parsed_input_part (parsed_part (lent_items inputs.now) room))
        (map string_bytes arguments.now) ≡ Err e) }
{
    let (count, after) = take_number(arguments)?;
    let mut parts = Vec::new(alloc);
    let mut rest = after;
    for i in 0..count {
        let (path, left) = take_path(rest)?;
        let (part, left) = read_part(alloc, inputs, left, room)?;
        parts.push((path, part))?;
        rest = left;
    }
    Ok((parts, rest))
}

/// The remapping after the argument `remap`: a part and its inputs, at most `room` levels deep.
#[cycle(part)]
fn read_remapping<'t>(
    alloc: Global,
    inputs: &'t [&'t str],
    arguments: &'t [String],
    room: u32,
) -> Result<(Plan<'t>, &'t [String]), RunError>
    ensures part { IfOk result (λ r. parsed_remapping (parsed_part (lent_items inputs.now) room)
        (map string_bytes arguments.now) ≡ Ok (outcome_of r.0, map string_bytes r.1.now)) }
    ensures depth { IfOk result (λ r. depth r.0 ≤ room + 1) }
    ensures error { IfErr result (λ e. (e ≢ out_of_memory)
        → parsed_remapping (parsed_part (lent_items inputs.now) room)
        (map string_bytes arguments.now) ≡ Err e) }
{
    let (first, after) = read_part(alloc, inputs, arguments, room)?;
    let (parts, rest) = read_remap_inputs(alloc, inputs, after, room)?;
    Ok((Plan::Remap(Box::new(alloc, first)?, parts), rest))
}

/// The plan of these arguments, over these inputs: `@K` for input K (from 0), `sort @K`, `rewrite P`, `root P`, `simplify P`,
/// `join N` followed by N times `P LINE`, `joinat N` followed by N times `P LINE COLUMN`, `compose P P`, or `remap P N` followed by
/// N times `PATH P`, where PATH is any argument, taken as it is; each number as `read_number` reads it.
///
/// Arguments are read from the left, and the first fault is the error:
/// - `Plan(TooDeep)` for an argument where a part at depth 65 would begin;
/// - `NoText(K)` for `@K` if there is no such input;
/// - `Arguments` for any other argument that is bad, missing or left over.
///
/// Also `Plan(Map(OutOfMemory))` for want of memory.
pub fn read_plan<'t>(
    alloc: Global,
    inputs: &'t [&'t str],
    arguments: &'t [String],
) -> Result<Plan<'t>, RunError>
    ensures plan { IfOk result (λ plan. parsed_plan (lent_items inputs.now)
        (map string_bytes arguments.now) ≡ Ok (outcome plan)) }
    ensures texts { IfOk result (λ plan.
        are_among (lent_items inputs.now) (outcome plan).texts ≡ true) }
    ensures error { IfErr result (λ e. (e ≢ out_of_memory)
        → parsed_plan (lent_items inputs.now) (map string_bytes arguments.now) ≡ Err e) }
{
    let (plan, rest) = read_part(alloc, inputs, arguments, 64)?;
    match rest {
        [] => Ok(plan),
        _ => Err(RunError::Arguments),
    }
}
