//! The lines that `trace` prints.
ghost use Rattle.std.specs.Prelude.{Some};
ghost use Rattle.std.specs.List.{flat_map};
ghost use Rattle.sourcemap_run.specs.Words.{OnlyMemory, OnlyAdds, Pushes, seen, original_seen};
ghost use Rattle.sourcemap_run.specs.Words.{answer_text};
ghost use Rattle.sourcemap_run.specs.Words.{answer_members, answer_object, answer_line};
ghost use Rattle.sourcemap_run.specs.Words.{position_members};

use crate::texts::{
    from_base, push_name_member, push_name_part, push_number, push_number_member, push_original,
    push_text_member,
};
use crate::tracer::{Answer, Spot, Tracer};
use oxc_sourcemap_lookup::Bias;
use oxc_sourcemap_tokens::{Position, Result};
use std::alloc::Global;

/// Which answers are wanted, and how they are printed.
#[derive(Clone, Copy)]
pub struct Style {
    /// Which token answers.
    pub bias: Bias,
    /// What printed lines and columns count from: 0 or 1.
    pub base: u8,
    /// JSON, one object a line, instead of text.
    pub json: bool,
}

/// Appends a place and its name.
fn push_named_original(alloc: Global, spot: &Spot<'_>, base: u8, out: &mut String) -> Result<()>
    ensures text { Pushes result out.old out.new
        (answer_text base (Some (Some (original_seen spot.now)))) }
    ensures error { OnlyMemory result }
    ensures adds { OnlyAdds out.old out.new }
{
    push_original(alloc, spot, base, out)?;
    push_name_part(spot.name, out)
}

/// Appends an answer as text.
fn push_text(alloc: Global, answer: Answer<'_>, base: u8, out: &mut String) -> Result<()>
    ensures text { Pushes result out.old out.new (answer_text base (seen answer.entry)) }
    ensures error { OnlyMemory result }
    ensures adds { OnlyAdds out.old out.new }
{
    match answer {
        Answer::Nothing => Ok(out.push_str("nothing")?),
        Answer::Unmapped => Ok(out.push_str("unmapped")?),
        Answer::At(spot) => push_named_original(alloc, &spot, base, out),
    }
}

/// Appends the members of a line, a column and a name.
#[tactic(auto, unfolding(crate::specs::Texts::position_members))]
fn push_position_members(alloc: Global, spot: &Spot<'_>, base: u8, out: &mut String) -> Result<()>
    ensures text { Pushes result out.old out.new (position_members base (original_seen spot.now)) }
    ensures error { OnlyMemory result }
    ensures adds { OnlyAdds out.old out.new }
{
    push_number_member(alloc, "sourceLine", from_base(spot.line, base), out)?;
    push_number_member(alloc, "sourceColumn", from_base(spot.column, base), out)?;
    push_name_member(spot.name, out)
}

/// Appends the members of a place.
fn push_original_members(alloc: Global, spot: &Spot<'_>, base: u8, out: &mut String) -> Result<()>
    ensures text { Pushes result out.old out.new
        (answer_members base (Some (Some (original_seen spot.now)))) }
    ensures error { OnlyMemory result }
    ensures adds { OnlyAdds out.old out.new }
{
    push_text_member("found", "original", out)?;
    push_text_member("source", spot.source, out)?;
    push_position_members(alloc, spot, base, out)
}

/// Appends the members of an answer.
pub fn push_members(alloc: Global, answer: Answer<'_>, base: u8, out: &mut String) -> Result<()>
    ensures text { Pushes result out.old out.new (answer_members base (seen answer.entry)) }
    ensures error { OnlyMemory result }
    ensures adds { OnlyAdds out.old out.new }
{
    match answer {
        Answer::Nothing => push_text_member("found", "nothing", out),
        Answer::Unmapped => push_text_member("found", "unmapped", out),
        Answer::At(spot) => push_original_members(alloc, &spot, base, out),
    }
}

/// Appends the object of an answer for a position.
fn push_object(
    alloc: Global,
    position: Position,
    answer: Answer<'_>,
    base: u8,
    out: &mut String,
) -> Result<()>
    ensures text { Pushes result out.old out.new (answer_object base position (seen answer.entry)) }
    ensures error { OnlyMemory result }
    ensures adds { OnlyAdds out.old out.new }
{
    out.push_str("{\"line\":")?;
    push_number(alloc, from_base(position.line, base), out)?;
    push_number_member(alloc, "column", from_base(position.column, base), out)?;
    push_members(alloc, answer, base, out)?;
    out.push('}')?;
    Ok(())
}

/// Appends the line of the answer for a position.
pub fn push_answer(
    alloc: Global,
    tracer: &Tracer,
    position: Position,
    style: Style,
    out: &mut String,
) -> Result<()>
    ensures text { Pushes result out.old out.new (answer_line style tracer.now position) }
    ensures error { OnlyMemory result }
    ensures adds { OnlyAdds out.old out.new }
{
    let answer = tracer.answer(position, style.bias);
    if style.json {
        push_object(alloc, position, answer, style.base, out)?;
    } else {
        push_text(alloc, answer, style.base, out)?;
    }
    out.push('\n')?;
    Ok(())
}

/// Appends a line for each position: the map's answer for it.
pub fn push_answers(
    alloc: Global,
    tracer: &Tracer,
    positions: &[Position],
    style: Style,
    out: &mut String,
) -> Result<()>
    ensures text { Pushes result out.old out.new
        (flat_map (answer_line style tracer.now) positions.now) }
    ensures error { OnlyMemory result }
    ensures adds { OnlyAdds out.old out.new }
{
    for position in positions {
        push_answer(alloc, tracer, *position, style, out)?;
    }
    Ok(())
}
