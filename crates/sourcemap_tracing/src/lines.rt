//! The lines of an input as `resolve` prints them: their frames resolved, notes below them, and the objects of `--json`.
use crate::colours::has_codes;
use crate::counts::Count;
use crate::maps::{Maps, Matched, Reason, Stay};
use crate::source_frames::{
    LedFrame, PLAIN, first_place, function_in, push_ends, push_source_members, renamed_text,
    source_text,
};
use sourcemap_run::{
    Cut, Paint, Splice, answer_to, push_line, push_members, push_number_member, push_object,
    push_spliced, push_text_member,
};
use sourcemap_texts::push_visible;
use sourcemap_words::{NO_TEXT, Named, Outcome};
use std::alloc::{AllocError, Global};

/// A line of the input.
#[derive(Drop)]
pub struct LineRead {
    /// Its text, with NUL for each byte that is not UTF-8.
    pub text: String,
    pub is_text: bool,
    pub frames: Vec<LedFrame>,
    /// Why an engine's own frame stays as it is.
    pub elsewhere: Option<&'static str>,
}

impl LineRead {
    /// Whether the line is left out, since one of its frames is.
    pub fn is_left_out(&self) -> bool {
        self.frames.iter().any(|frame| frame.is_left_out() && !frame.named.nesting.is_in_string())
    }

    /// Whether the frame of a caller in the line behind it may name the function of its last frame.
    pub fn waits_for_caller(&self) -> bool {
        let Some(LedFrame { named, led, .. }) = self.frames.last() else {
            return false;
        };
        let is_open = led.stay.is_none() && led.source.is_none() && led.function.is_none();
        is_open && !function_in(self.text.as_str(), named).is_empty()
    }

    /// Names the functions of frames by the frames of their callers, which are behind them in the line.
    pub fn name_by_callers(&mut self, maps: &Maps) {
        for i in 1..self.frames.len() {
            let called = match (self.frames.get(i.saturating_sub(1)), self.frames.get(i)) {
                (Some(callee), Some(caller)) => self.called(maps, callee, caller),
                _ => None,
            };
            if let Some(callee) = self.frames.get_mut(i.saturating_sub(1)) {
                callee.led.function = called;
            }
        }
    }

    /// Names the function of the last frame by the first frame of the line behind it.
    pub fn name_by_next(&mut self, maps: &Maps, next: &LineRead) {
        let called = match (self.frames.last(), next.frames.first()) {
            (Some(callee), Some(caller)) => self.called(maps, callee, caller),
            _ => return,
        };
        if let Some(callee) = self.frames.last_mut() {
            callee.led.function = called;
        }
    }

    /// The name of the function of a frame, or, if it has none, that by its caller.
    fn called(&self, maps: &Maps, callee: &LedFrame, caller: &LedFrame) -> Option<u32> {
        if callee.led.function.is_some() || callee.led.source.is_some() {
            return callee.led.function;
        }
        let function = function_in(self.text.as_str(), &callee.named);
        maps.called(function, &callee.led, (&caller.named, &caller.led))
    }

    /// Counts its frames.
    pub fn count(&self, count: &mut Count) {
        for frame in &self.frames {
            match &frame.led.stay {
                _ if frame.is_hidden() => count.leave_out(),
                Some(stay) => count.stay(stay.reason),
                None => count.resolve(),
            }
        }
        if self.elsewhere.is_some() {
            count.stay(Reason::Elsewhere);
        }
    }
}

/// Where in a line frames name positions.
fn cuts_of(alloc: Global, frames: &[LedFrame]) -> Result<Vec<Cut>, AllocError> {
    let mut cuts = Vec::new(alloc);
    for LedFrame { named, led, .. } in frames {
        cuts.push(Cut {
            start: named.start,
            end: named.end,
            target: led.target,
        })?;
    }
    Ok(cuts)
}

/// A part of a line, and its replacement.
#[derive(Drop)]
struct Change {
    start: usize,
    end: usize,
    text: String,
}

/// The row of a frame that is left out, with the line feed in front of it, or behind it if there is none from byte `from` on.
fn row_left_out(alloc: Global, frame: &LedFrame, from: usize) -> Option<Change> {
    let row = frame.named.calling.and_then(|calling| calling.row)?;
    let (start, end) = if from <= row.before && row.before < row.start {
        (row.before, row.end)
    } else {
        (row.start, row.after)
    };
    Some(Change {
        start,
        end,
        text: String::new(alloc),
    })
}

/// What a frame changes in its line, whose bytes before `from` are done; None if it stays.
fn change_of(
    alloc: Global,
    maps: &Maps,
    (line, from): (&str, usize),
    frame: &LedFrame,
    paint: Paint<'_>,
) -> Outcome<Option<Change>> {
    if frame.is_left_out() {
        return Ok(row_left_out(alloc, frame, from));
    }
    let paint = frame.paint(paint);
    if let Some((source, calling)) = frame.shown() {
        return Ok(Some(Change {
            start: calling.lead,
            end: calling.close,
            text: source_text(alloc, maps, line, (frame, source, calling), paint)?,
        }));
    }
    if frame.led.stay.is_some() {
        return Ok(None);
    }
    if let Some((name, calling)) = frame.renamed(line, maps) {
        return Ok(Some(Change {
            start: calling.start,
            end: frame.named.end,
            text: renamed_text(alloc, maps, line, (frame, name, calling), paint)?,
        }));
    }
    let mut text = first_place(alloc, maps, frame, paint)?;
    push_ends(line, &frame.named, &mut text)?;
    Ok(Some(Change {
        start: frame.named.start,
        end: frame.named.end,
        text,
    }))
}

/// Appends a line. All its bytes stay, except those of the frames that are resolved.
fn push_bytes(
    alloc: Global,
    maps: &Maps,
    line: &[u8],
    read: &LineRead,
    paint: Paint<'_>,
    out: &mut Vec<u8>,
) -> Outcome<()> {
    let masked = if read.is_text {
        String::new(alloc)
    } else {
        read.text.replace(alloc, NO_TEXT, "?")?
    };
    let text = if read.is_text {
        read.text.as_str()
    } else {
        masked.as_str()
    };
    let mut changes = Vec::new(alloc);
    let mut from = 0usize;
    for frame in &read.frames {
        if let Some(change) = change_of(alloc, maps, (text, from), frame, paint)? {
            from = change.end;
            changes.push(change)?;
        }
    }
    let mut splices = Vec::new(alloc);
    for change in &changes {
        splices.push(Splice {
            start: change.start,
            end: change.end,
            text: change.text.as_str(),
        })?;
    }
    if !push_spliced(line, splices.as_slice(), out)? {
        out.extend_from_slice(line)?;
    }
    Ok(())
}

/// Whether a place by itself, in this colour, replaces that of a frame.
fn is_plain(line: &str, maps: &Maps, frame: &LedFrame, paint: Paint<'_>) -> bool {
    let named = &frame.named;
    let place = line.get(named.start..named.end).unwrap_or("");
    let has_colour = !paint.before.is_empty() && frame.led.is_ignored;
    let has_place_alone = frame.shown().is_none() && frame.renamed(line, maps).is_none();
    !named.nesting.is_in_string() && !has_codes(place) && has_place_alone && !has_colour
}

/// Appends a resolved line, without a line feed.
pub fn push_led(
    alloc: Global,
    maps: &Maps,
    line: &[u8],
    read: &LineRead,
    paint: Paint<'_>,
    out: &mut Vec<u8>,
) -> Outcome<()> {
    let frames = read.frames.as_slice();
    if frames.is_empty() {
        return Ok(out.extend_from_slice(line)?);
    }
    if read.is_text
        && frames
            .iter()
            .all(|frame| is_plain(read.text.as_str(), maps, frame, paint))
    {
        let cuts = cuts_of(alloc, frames)?;
        let (line, tracers) = (read.text.as_str(), maps.tracers.as_slice());
        let mut text = String::new(alloc);
        if push_line(alloc, tracers, line, cuts.as_slice(), paint, &mut text)? {
            return Ok(out.extend_from_slice(text.as_bytes())?);
        }
    }
    push_bytes(alloc, maps, line, read, paint, out)
}

/// Appends a line of its own below a frame.
fn push_note(alloc: Global, text: &str, out: &mut Vec<u8>) -> Outcome<()> {
    let mut visible = String::new(alloc);
    push_visible(text, &mut visible)?;
    out.extend_from_slice(b"        # ")?;
    out.extend_from_slice(visible.as_bytes())?;
    Ok(out.push(b'\n')?)
}

/// How the code of a frame was found, if not by its whole path.
fn how_matched(alloc: Global, matched: &Matched) -> Result<Option<String>, AllocError> {
    Ok(match matched {
        Matched::Whole => None,
        Matched::Prefix { prefix, path } => {
            Some(format!(in alloc; "found as {path} below the prefix {prefix}")?)
        }
        Matched::Name { map } => Some(format!(in alloc; "found by its name alone: {map}")?),
        Matched::Id { map } => Some(format!(in alloc; "found by its debug id: {map}")?),
    })
}

/// The note of a frame that is left out.
fn push_left_out(alloc: Global, frame: &LedFrame, out: &mut Vec<u8>) -> Outcome<()> {
    let Named {
        file,
        line,
        column,
        ..
    } = &frame.named;
    let why = if frame.is_hidden() {
        "the source has no such frame"
    } else {
        "its map ignores the source"
    };
    let text = format!(in alloc; "{file}:{line}:{column} is left out, since {why}")?;
    push_note(alloc, text.as_str(), out)
}

/// Appends the lines below a line: how each frame was found, and why it stays, or is left out.
pub fn push_notes(alloc: Global, read: &LineRead, out: &mut Vec<u8>) -> Outcome<()> {
    for frame in &read.frames {
        if let Some(how) = how_matched(alloc, &frame.led.matched)? {
            push_note(alloc, how.as_str(), out)?;
        }
        if frame.is_left_out() {
            push_left_out(alloc, frame, out)?;
        } else if let Some(stay) = &frame.led.stay {
            push_note(alloc, stay.why.as_str(), out)?;
        }
    }
    if let Some(why) = read.elsewhere {
        push_note(alloc, why, out)?;
    }
    Ok(())
}

/// The members of how the code of a frame was found.
fn push_matched_members(matched: &Matched, out: &mut String) -> Outcome<()> {
    match matched {
        Matched::Whole => {}
        Matched::Prefix { prefix, .. } => {
            push_text_member("matched", "prefix", out)?;
            push_text_member("prefix", prefix.as_str(), out)?;
        }
        Matched::Name { .. } => push_text_member("matched", "maps", out)?,
        Matched::Id { .. } => push_text_member("matched", "debugId", out)?,
    }
    Ok(())
}

/// The members of a frame, and of what it comes from.
fn push_frame_members(
    alloc: Global,
    maps: &Maps,
    frame: &LedFrame,
    out: &mut String,
) -> Outcome<()> {
    let LedFrame { named, led, .. } = frame;
    push_text_member("file", named.file.as_str(), out)?;
    push_number_member(alloc, "line", u64::from(named.line), out)?;
    push_number_member(alloc, "column", u64::from(named.column), out)?;
    push_matched_members(&led.matched, out)?;
    if let Some(target) = led.target {
        if let Some(name) = maps.names.get(target.map) {
            push_text_member("map", name.as_str(), out)?;
        }
        let answer = answer_to(maps.tracers.as_slice(), Some(target));
        push_members(alloc, answer, 1, out)?;
        if let Some(source) = &led.source {
            push_source_members(alloc, maps, target.map, source, out)?;
        } else if let Some(name) = frame.function_name(maps) {
            push_text_member("function", name, out)?;
        }
    }
    if led.is_ignored {
        out.push_str(",\"ignored\":true")?;
    }
    if frame.is_left_out() {
        out.push_str(",\"hidden\":true")?;
    } else if let Some(Stay { why, .. }) = &led.stay {
        push_text_member("why", why.as_str(), out)?;
    }
    Ok(())
}

/// Appends the member of the frames of a line, of which there are several.
fn push_frame_list(
    alloc: Global,
    maps: &Maps,
    frames: &[LedFrame],
    out: &mut String,
) -> Outcome<()> {
    out.push_str(",\"frames\":[")?;
    for (i, frame) in frames.iter().enumerate() {
        if i > 0 {
            out.push(',')?;
        }
        let mut members = String::new(alloc);
        push_frame_members(alloc, maps, frame, &mut members)?;
        push_object(members.as_str(), out)?;
    }
    Ok(out.push(']')?)
}

/// Appends a line as a JSON object.
pub fn push_line_object(
    alloc: Global,
    maps: &Maps,
    line: &[u8],
    read: &LineRead,
    out: &mut Vec<u8>,
) -> Outcome<()> {
    let mut members = String::new(alloc);
    let text = String::from_utf8_lossy(alloc, line)?;
    push_text_member("text", text.as_str(), &mut members)?;
    if !read.is_left_out() {
        let mut resolved = Vec::new(alloc);
        push_led(alloc, maps, line, read, PLAIN, &mut resolved)?;
        let resolved = String::from_utf8_lossy(alloc, resolved.as_slice())?;
        push_text_member("resolved", resolved.as_str(), &mut members)?;
    }
    match read.frames.as_slice() {
        [] => {}
        [frame] => push_frame_members(alloc, maps, frame, &mut members)?,
        frames => push_frame_list(alloc, maps, frames, &mut members)?,
    }
    if let Some(why) = read.elsewhere {
        push_text_member("why", why, &mut members)?;
    }
    let mut object = String::new(alloc);
    push_object(members.as_str(), &mut object)?;
    Ok(out.extend_from_slice(object.as_bytes())?)
}
