//! Resolves the lines of a stack trace.
ghost use Rattle.std.specs.Prelude.{◌≡◌, ◌++◌, ◌≤◌, ◌↔◌, [], IfOk, Ok, true, false, IfSome, IsSome};
ghost use Rattle.std.specs.Prelude.{None, drop, string_bytes};
ghost use Rattle.std.specs.Str.{IsCharBoundary};
ghost use Rattle.sourcemap_run.specs.Words.{frame_position, IsCutAt, between, AreInRow};
ghost use Rattle.sourcemap_run.specs.Words.{line_led_back};
ghost use Rattle.sourcemap_run.specs.Words.{OnlyMemory, OnlyAdds, Pushes, seen, answer_to};
ghost use Rattle.sourcemap_run.specs.Words.{location_text};
ghost use Rattle.sourcemap_run.specs.Words.{painted, led_back};

use crate::texts::push_original;
use crate::tracer::{Answer, Tracer};
use oxc_sourcemap_lookup::Bias;
use oxc_sourcemap_tokens::{Position, Result};
use std::alloc::Global;

/// The map and the generated position of a frame.
#[derive(Clone, Copy)]
pub struct Target {
    /// The number of the map, in a list of them.
    pub map: usize,
    pub position: Position,
}

/// The position of a frame: its line and its column count from 1, or in bytecode the column from 0. None if it is before the first one.
pub fn frame_position(line: u32, column: u32, is_bytecode: bool) -> Option<Position>
    ensures { result ≡ frame_position is_bytecode line column }
{
    let column = if is_bytecode {
        column
    } else {
        column.checked_sub(1)?
    };
    Some(Position {
        line: line.checked_sub(1)?,
        column,
    })
}

/// The range of a line that names the position of a frame, from byte `start` up to but not including `end`, and where to look it up.
#[derive(Clone, Copy)]
pub struct Cut {
    pub start: usize,
    pub end: usize,
    pub target: Option<Target>,
}

/// The texts around a resolved position, as the codes of a colour. Both may be empty.
#[derive(Clone, Copy)]
pub struct Paint<'p> {
    pub before: &'p str,
    pub after: &'p str,
}

/// A line of a stack trace, or a part of it, in three pieces: the middle one is the position that a frame names, as `bundle.js:1:20`.
#[derive(Clone, Copy)]
pub struct Frame<'t> {
    pub front: &'t str,
    pub location: &'t str,
    pub back: &'t str,
    /// Where to look the position up, if there is a map for it.
    pub target: Option<Target>,
}

impl<'t> Frame<'t> {
    /// A line that names no position.
    pub fn plain(line: &'t str) -> Frame<'t>
        ensures text { (result.front.now ≡ line.entry.now) × (result.location.now ≡ [])
            × (result.back.now ≡ []) }
        ensures target { result.target ≡ None }
    {
        Frame {
            front: line,
            location: "",
            back: "",
            target: None,
        }
    }

    /// A line whose bytes from `start` up to but not including `end` are a position; None exactly if one of them is inside a character or
    /// past the line, or `start` is behind `end`.
    fn cut(line: &'t str, start: usize, end: usize) -> Option<Frame<'t>>
        ensures pieces { IfSome result (λ frame. (frame.front.now ≡ between line.entry.now 0 start)
            × (frame.location.now ≡ between line.entry.now start end)
            × (frame.back.now ≡ drop end line.entry.now)) }
        ensures target { IfSome result (λ frame. frame.target ≡ None) }
        ensures cuts { IsSome result ↔ IsCutAt line.entry.now start end }
    {
        let (rest, back) = line.split_at_checked(end)?;
        let (front, location) = rest.split_at_checked(start)?;
        Some(Frame {
            front,
            location,
            back,
            target: None,
        })
    }
}

/// The maps' answer for a target.
pub fn answer_to<'m>(tracers: &'m [Tracer], target: Option<Target>) -> Answer<'m>
    ensures { seen result ≡ answer_to tracers.now target }
{
    let Some(target) = target else {
        return Answer::Nothing;
    };
    match tracers.get(target.map) {
        Some(tracer) => tracer.answer(target.position, Bias::Before),
        None => Answer::Nothing,
    }
}

/// Appends the position of a frame: resolved, or as it is.
fn push_location(
    alloc: Global,
    location: &str,
    answer: Answer<'_>,
    paint: Paint<'_>,
    out: &mut String,
) -> Result<()>
    ensures text { Pushes result out.old out.new
        (location_text (painted paint.entry) location.now (seen answer.entry)) }
    ensures error { OnlyMemory result }
    ensures adds { OnlyAdds out.old out.new }
{
    let Answer::At(spot) = answer else {
        out.push_str(location)?;
        return Ok(());
    };
    out.push_str(paint.before)?;
    push_original(alloc, &spot, 1, out)?;
    out.push_str(paint.after)?;
    Ok(())
}

/// Appends a part of a line of a stack trace. Resolves its position if the map has an original for it; all else stays as it is.
pub fn push_frame(
    alloc: Global,
    tracers: &[Tracer],
    frame: &Frame<'_>,
    paint: Paint<'_>,
    out: &mut String,
) -> Result<()>
    ensures text { Pushes result out.old out.new
        (led_back (painted paint.entry) tracers.now frame.now) }
    ensures error { OnlyMemory result }
    ensures adds { OnlyAdds out.old out.new }
{
    out.push_str(frame.front)?;
    let answer = answer_to(tracers, frame.target);
    push_location(alloc, frame.location, answer, paint, out)?;
    out.push_str(frame.back)?;
    Ok(())
}

/// A cut of a line, with what is between byte `from` and it, and what is behind it. None if it begins before `from` or behind its own end,
/// or if it begins or ends inside a character or past the line.
fn frame_at<'t>(line: &'t str, from: usize, cut: &Cut) -> Option<Frame<'t>>
    ensures pieces { IfSome result (λ frame.
        (frame.front.now ≡ between line.entry.now from cut.now.start)
        × (frame.location.now ≡ between line.entry.now cut.now.start cut.now.end)
        × (frame.back.now ≡ drop cut.now.end line.entry.now)) }
    ensures target { IfSome result (λ frame. frame.target ≡ cut.now.target) }
    ensures cuts { IsCharBoundary line.entry.now from → (IsSome result
        ↔ (from ≤ cut.now.start) × IsCutAt line.entry.now cut.now.start cut.now.end) }
{
    let frame = Frame::cut(line, cut.start, cut.end)?;
    let (_, front) = frame.front.split_at_checked(from)?;
    Some(Frame {
        front,
        target: cut.target,
        ..frame
    })
}

/// Appends a line of a stack trace: at each cut the answer of its map, or the line's own text if there is none, and between them all as it
/// is. Appends nothing and returns false exactly if a cut begins before the end of the one ahead of it or behind its own end, or if it
/// begins or ends inside a character or past the line.
pub fn push_line(
    alloc: Global,
    tracers: &[Tracer],
    line: &str,
    cuts: &[Cut],
    paint: Paint<'_>,
    out: &mut String,
) -> Result<bool>
    ensures led { result ≡ Ok true → string_bytes out.new ≡ string_bytes out.old
        ++ line_led_back (painted paint.entry) tracers.now line.now 0 cuts.now }
    ensures cuts { IfOk result (λ done. (done ≡ true) ↔ AreInRow line.now 0 cuts.now) }
    ensures unchanged { result ≡ Ok false → string_bytes out.new ≡ string_bytes out.old }
    ensures error { OnlyMemory result }
    ensures adds { OnlyAdds out.old out.new }
{
    let mut text = String::new(alloc);
    let (mut rest, mut from) = (line, 0usize);
    for cut in cuts {
        let Some(frame) = frame_at(line, from, cut) else {
            return Ok(false);
        };
        (rest, from) = (frame.back, cut.end);
        push_frame(
            alloc,
            tracers,
            &Frame { back: "", ..frame },
            paint,
            &mut text,
        )?;
    }
    text.push_str(rest)?;
    out.push_str(text.as_str())?;
    Ok(true)
}
