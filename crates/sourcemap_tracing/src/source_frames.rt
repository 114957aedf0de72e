//! The frames of the source that a frame of a trace stands for, by the scopes of its map: their functions, and where they are.
ghost use Rattle.std.specs.Prelude.{◌≡◌, ◌&&◌};
ghost use Rattle.std.specs.Str.{trim};
ghost use Rattle.sourcemap_tracing.specs.Words.{is_mark, is_return};

use crate::colours::{Colours, has_codes};
use crate::functions::identifier_of;
use crate::maps::{Led, Maps};
use oxc_sourcemap_json::push_json_string;
use oxc_sourcemap_scopes::{CallSite, Frames, ScopeFrame};
use sourcemap_run::{
    Frame, Paint, Spot, from_base, push_frame, push_number_member, push_object, push_original,
    push_text_member,
};
use sourcemap_texts::push_shown;
use sourcemap_words::{Calling, FrameForm, Named, Nesting, Outcome};
use std::alloc::Global;

/// No colour.
pub const PLAIN: Paint<'static> = Paint {
    before: "",
    after: "",
};
/// The colour of places in sources that maps ignore.
const GREY: Paint<'static> = Paint {
    before: "\u{1b}[90m",
    after: "\u{1b}[0m",
};

/// A frame with its result.
#[derive(Drop)]
pub struct LedFrame {
    pub named: Named,
    pub led: Led,
    /// Whether its row has nothing else.
    is_alone: bool,
    /// Whether it is left out if its map ignores its source.
    hides_ignored: bool,
}

/// The function that a frame names.
#[derive(Clone, Copy)]
enum Function<'m> {
    /// That of the code: the scopes have none.
    OfCode,
    Unnamed,
    Named(&'m str),
}

/// Whether a row has nothing but a frame with these texts in front of it and behind it: white space, what engines write in front
/// of a frame, and a carriage return of a JSON string.
fn is_nothing_else(front: &str, behind: &str) -> bool
    ensures { result ≡ (is_mark (trim front.now) && is_return (trim behind.now)) }
{
    matches!(front.trim(), "" | "at" | "❯") && matches!(behind.trim(), "" | "\\r")
}

/// Whether a frame is all that its row has.
fn is_alone(line: &str, calling: &Calling) -> bool {
    let Some(row) = calling.row else {
        return false;
    };
    let front = line.get(row.start..calling.lead).unwrap_or("");
    let behind = line.get(calling.close..row.stop).unwrap_or("");
    is_nothing_else(front, behind)
}

impl LedFrame {
    /// A frame of a line, with its result; with `hides_ignored` it is left out if its map ignores its source.
    pub fn new(line: &str, named: Named, led: Led, hides_ignored: bool) -> LedFrame {
        let is_alone = named
            .calling
            .is_some_and(|calling| is_alone(line, &calling));
        LedFrame {
            named,
            led,
            is_alone,
            hides_ignored,
        }
    }

    /// The frames of the source, if the line is to have them, and how it names functions.
    pub fn shown(&self) -> Option<(&Frames, &Calling)> {
        match (&self.led.source, &self.named.calling) {
            (Some(source), Some(calling)) if self.led.stay.is_none() => Some((source, calling)),
            _ => None,
        }
    }

    /// Whether its row is left out, since the source has no such frame.
    pub fn is_hidden(&self) -> bool {
        match &self.led.source {
            Some(source) => source.is_hidden && self.is_alone,
            None => false,
        }
    }

    /// Whether its row is left out: the source has no such frame, or is one that the map ignores.
    pub fn is_left_out(&self) -> bool {
        let is_ignored = self.hides_ignored && self.led.is_ignored && self.led.stay.is_none();
        self.is_hidden() || is_ignored && self.is_alone
    }

    /// The name that its function has in the source by the mappings.
    pub fn function_name<'m>(&self, maps: &'m Maps) -> Option<&'m str> {
        let (id, target) = (self.led.function?, self.led.target?);
        let names = maps.tracers.get(target.map)?.parts().names.as_slice();
        let name = names.get(id as usize)?.as_str();
        if name.is_empty() { None } else { Some(name) }
    }

    /// The same, with how the line names the function, if the line does not have this name.
    pub fn renamed<'f>(&'f self, line: &str, maps: &'f Maps) -> Option<(&'f str, &'f Calling)> {
        let name = self.function_name(maps)?;
        if identifier_of(function_in(line, &self.named)) == Some(name) {
            return None;
        }
        Some((name, self.named.calling.as_ref()?))
    }

    /// The colour of its place: on a terminal another one if its map ignores its source.
    pub fn paint<'p>(&self, paint: Paint<'p>) -> Paint<'p> {
        if self.led.is_ignored && !paint.before.is_empty() {
            GREY
        } else {
            paint
        }
    }
}

/// What a line calls the function of a frame; empty if the frame has none.
pub fn function_in<'t>(line: &'t str, named: &Named) -> &'t str {
    match &named.calling {
        Some(calling) => line.get(calling.start..calling.end).unwrap_or(""),
        None => "",
    }
}

/// The name of the function that a frame of the source is in; None if that function has no name, or if there is no function.
fn function_name<'m>(maps: &'m Maps, map: usize, frame: &ScopeFrame) -> Option<&'m str> {
    let Some(Some(scopes)) = maps.scopes.get(map) else {
        return None;
    };
    let id = scopes.get_scope(frame.scope?)?.name?;
    let names = maps.tracers.get(map)?.parts().names.as_slice();
    let name = names.get(id as usize)?.as_str();
    if name.is_empty() { None } else { Some(name) }
}

/// The function that a frame of the source names. Where the mappings lead and no function is known, it is that of the code.
fn function_of<'m>(maps: &'m Maps, map: usize, frame: &ScopeFrame) -> Function<'m> {
    match function_name(maps, map, frame) {
        Some(name) => Function::Named(name),
        None if frame.scope.is_none() && frame.call_site.is_none() => Function::OfCode,
        None => Function::Unnamed,
    }
}

/// The text for the path of a source that is not known, as `<anonymous>` in V8: no file has this name.
const UNKNOWN: &str = "<unknown>";

/// The path of the source of a call; None if the map has no such source, or null, which is read as an empty path behind the root.
fn source_of(maps: &Maps, map: usize, call: CallSite) -> Option<&str> {
    let sources = maps.tracers.get(map)?.parts().sources.as_slice();
    let source = sources.get(call.source as usize)?.as_str();
    if source.is_empty() || source.ends_with('/') {
        None
    } else {
        Some(source)
    }
}

/// The place of a call.
fn spot_of(maps: &Maps, map: usize, call: CallSite) -> Spot<'_> {
    Spot {
        source: source_of(maps, map, call).unwrap_or(UNKNOWN),
        line: call.line,
        column: call.column,
        name: None,
        content: None,
    }
}

/// A text as it is written inside a string.
fn inside_string(alloc: Global, text: &str, is_single: bool) -> Outcome<String> {
    let mut string = String::new(alloc);
    push_json_string(text, &mut string)?;
    let inside = string.as_str().strip_prefix('"').unwrap_or("");
    let inside = inside.strip_suffix('"').unwrap_or(inside);
    if is_single {
        return Ok(inside.replace(alloc, '\'', "\\'")?);
    }
    Ok(String::from_str(alloc, inside)?)
}

/// A text as it is written in a line: as it is, or inside the strings there, the innermost of which escapes it first.
pub fn text_in_line(alloc: Global, text: String, nesting: Nesting) -> Outcome<String> {
    let mut text = text;
    for above in 1..nesting.depth.saturating_add(1) {
        let index = nesting.depth.saturating_sub(above);
        text = inside_string(alloc, text.as_str(), nesting.is_single(index))?;
    }
    Ok(text)
}

/// Appends to the replacement of a place the codes in it that end a colour from in front of it.
pub fn push_ends(line: &str, named: &Named, out: &mut String) -> Outcome<()> {
    let behind = line.get(named.end..).unwrap_or("");
    let inside = line.get(named.start..named.end).unwrap_or("");
    Ok(Colours::Ends(behind).push(inside, named.nesting, out)?)
}

/// The colour of a place; inside a string it has none.
fn paint_in(paint: Paint<'_>, nesting: Nesting) -> Paint<'_> {
    if nesting.is_in_string() { PLAIN } else { paint }
}

/// Where the mappings lead, as it is written in a line.
pub fn first_place(
    alloc: Global,
    maps: &Maps,
    frame: &LedFrame,
    paint: Paint<'_>,
) -> Outcome<String> {
    let nesting = frame.named.nesting;
    let place = Frame {
        target: frame.led.target,
        ..Frame::plain("")
    };
    let mut text = String::new(alloc);
    let paint = paint_in(paint, nesting);
    push_frame(alloc, maps.tracers.as_slice(), &place, paint, &mut text)?;
    text_in_line(alloc, text, nesting)
}

/// The place of a call, as it is written in a line.
fn call_place(
    alloc: Global,
    spot: &Spot<'_>,
    nesting: Nesting,
    paint: Paint<'_>,
) -> Outcome<String> {
    let paint = paint_in(paint, nesting);
    let mut text = String::from_str(alloc, paint.before)?;
    push_original(alloc, spot, 1, &mut text)?;
    text.push_str(paint.after)?;
    text_in_line(alloc, text, nesting)
}

/// The frames of the source, written as the frame of a line is.
#[derive(Clone, Copy)]
struct Rows<'a> {
    maps: &'a Maps,
    map: usize,
    line: &'a str,
    named: &'a Named,
    calling: &'a Calling,
    paint: Paint<'a>,
}

impl<'a> Rows<'a> {
    /// A part of the line.
    fn part(&self, start: usize, end: usize) -> &'a str {
        self.line.get(start..end).unwrap_or("")
    }

    /// Appends a frame of a function with a name.
    fn push_named(&self, alloc: Global, name: &str, place: &str, out: &mut String) -> Outcome<()> {
        let mut shown = String::new(alloc);
        push_shown(name, &mut shown)?;
        out.push_str(text_in_line(alloc, shown, self.named.nesting)?.as_str())?;
        let gap = self.part(self.calling.end, self.named.start);
        if !gap.is_empty() {
            out.push_str(gap)?;
            out.push_str(place)?;
            return Ok(out.push_str(self.part(self.named.end, self.calling.close))?);
        }
        let (before, behind) = match self.calling.form {
            FrameForm::Call => (" (", ")"),
            FrameForm::AtSign => ("@", ""),
            FrameForm::Arrow => (" ", ""),
        };
        out.push_str(before)?;
        out.push_str(place)?;
        Ok(out.push_str(behind)?)
    }

    /// Appends a frame of a function without a name; the colours of what is left out stay.
    fn push_unnamed(&self, place: &str, out: &mut String) -> Outcome<()> {
        let gap = self.part(self.calling.end, self.named.start);
        match self.calling.form {
            FrameForm::AtSign => out.push_str(gap)?,
            FrameForm::Call | FrameForm::Arrow => {
                Colours::All.push(gap, self.named.nesting, out)?
            }
        }
        out.push_str(place)?;
        let behind = self.part(self.named.end, self.calling.close);
        Ok(Colours::All.push(behind, self.named.nesting, out)?)
    }

    /// Appends a frame; `is_outermost` if it is the one that the code called.
    fn push(
        &self,
        alloc: Global,
        function: Function<'_>,
        place: &str,
        is_outermost: bool,
        out: &mut String,
    ) -> Outcome<()> {
        match function {
            Function::Named(name) => self.push_named(alloc, name, place, out),
            Function::Unnamed if is_outermost && !self.calling.unnamed.is_empty() => {
                self.push_named(alloc, self.calling.unnamed, place, out)
            }
            Function::Unnamed => self.push_unnamed(place, out),
            Function::OfCode => {
                out.push_str(self.part(self.calling.start, self.named.start))?;
                out.push_str(place)?;
                Ok(out.push_str(self.part(self.named.end, self.calling.close))?)
            }
        }
    }

    /// Appends what is in front of the name: of `new` and `async` that which the code called has them, and of what caused the call the
    /// first one.
    fn push_lead(&self, is_first: bool, is_outermost: bool, out: &mut String) -> Outcome<()> {
        let has_lead = match self.calling.form {
            FrameForm::AtSign => is_first,
            FrameForm::Call | FrameForm::Arrow => is_outermost,
        };
        if has_lead {
            out.push_str(self.part(self.calling.lead, self.calling.start))?;
        }
        Ok(())
    }

    /// Ends a row, with the colours that began in it, and begins one with what is in front of the frame in the line.
    fn push_row(&self, alloc: Global, out: &mut String) -> Outcome<()> {
        let Some(row) = self.calling.row else {
            return Ok(());
        };
        let nesting = self.named.nesting;
        if has_codes(self.part(row.start, self.calling.close)) {
            let behind = self.part(self.calling.close, row.end);
            Colours::Ends("").push(behind, nesting, out)?;
        }
        let feed = if row.stop < row.end { "\r\n" } else { "\n" };
        let feed = text_in_line(alloc, String::from_str(alloc, feed)?, nesting)?;
        out.push_str(feed.as_str())?;
        Ok(out.push_str(self.part(row.start, self.calling.lead))?)
    }
}

/// The replacement of a frame and the name of its function in a line: the frames of the source, the places of calls below it. In a row with
/// other frames the first one alone.
pub fn source_text(
    alloc: Global,
    maps: &Maps,
    line: &str,
    (frame, source, calling): (&LedFrame, &Frames, &Calling),
    paint: Paint<'_>,
) -> Outcome<String> {
    let map = frame.led.target.map_or(0, |target| target.map);
    let rows = Rows {
        maps,
        map,
        line,
        named: &frame.named,
        calling,
        paint,
    };
    let mut out = String::new(alloc);
    let count = if calling.row.is_some() {
        source.frames.len()
    } else {
        1
    };
    for (i, at) in source.frames.iter().take(count).enumerate() {
        let is_outermost = i.saturating_add(1) == count;
        let mut place = match at.call_site {
            None => first_place(alloc, maps, frame, paint)?,
            Some(call) => {
                let spot = spot_of(maps, map, call);
                call_place(alloc, &spot, frame.named.nesting, paint)?
            }
        };
        push_ends(line, &frame.named, &mut place)?;
        if i > 0 {
            rows.push_row(alloc, &mut out)?;
        }
        rows.push_lead(i == 0, is_outermost, &mut out)?;
        let function = function_of(maps, map, at);
        rows.push(alloc, function, place.as_str(), is_outermost, &mut out)?;
    }
    Ok(out)
}

/// The members of a frame of the source that is the place of a call; of a source that is not known none.
fn push_caller(
    alloc: Global,
    source: Option<&str>,
    call: CallSite,
    function: Option<&str>,
    out: &mut String,
) -> Outcome<()> {
    let mut members = String::new(alloc);
    if let Some(source) = source {
        push_text_member("source", source, &mut members)?;
    }
    let line = from_base(call.line, 1);
    push_number_member(alloc, "sourceLine", line, &mut members)?;
    let column = from_base(call.column, 1);
    push_number_member(alloc, "sourceColumn", column, &mut members)?;
    if let Some(function) = function {
        push_text_member("function", function, &mut members)?;
    }
    Ok(push_object(members.as_str(), out)?)
}

/// The members of the frames of the source: the function where the mappings lead, and the places of calls.
pub fn push_source_members(
    alloc: Global,
    maps: &Maps,
    map: usize,
    source: &Frames,
    out: &mut String,
) -> Outcome<()> {
    let mut callers = String::new(alloc);
    for at in &source.frames {
        let name = function_name(maps, map, at);
        let Some(call) = at.call_site else {
            if let Some(name) = name {
                push_text_member("function", name, out)?;
            }
            continue;
        };
        if !callers.is_empty() {
            callers.push(',')?;
        }
        let path = source_of(maps, map, call);
        push_caller(alloc, path, call, name, &mut callers)?;
    }
    if !callers.is_empty() {
        write!(out, ",\"callers\":[{callers}]")?;
    }
    Ok(())
}

/// The replacement of a frame from the name of its function to its place: the name in the source, and where the mappings lead.
pub fn renamed_text(
    alloc: Global,
    maps: &Maps,
    line: &str,
    (frame, name, calling): (&LedFrame, &str, &Calling),
    paint: Paint<'_>,
) -> Outcome<String> {
    let mut shown = String::new(alloc);
    push_shown(name, &mut shown)?;
    let mut out = text_in_line(alloc, shown, frame.named.nesting)?;
    out.push_str(line.get(calling.end..frame.named.start).unwrap_or(""))?;
    out.push_str(first_place(alloc, maps, frame, paint)?.as_str())?;
    push_ends(line, &frame.named, &mut out)?;
    Ok(out)
}
