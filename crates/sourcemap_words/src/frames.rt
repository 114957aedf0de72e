//! The positions that the frames of stack traces name, as V8, Firefox and Safari print them, and what logs make of these.
use crate::calling::{Calling, calling_of};
use crate::failure::{Outcome, failure_of};
use crate::views::{
    Nesting, View, are_singles_outside, is_whole, is_whole_front, json_strings, may_be_json,
    single_strings, without_strings,
};
use regex::{Captures, Matcher, Regex};
use std::alloc::{AllocError, Global};

/// V8, in the code of an `eval`: the innermost place outside of it, `at f (eval at g (bundle.js:1:2), <anonymous>:3:4)`.
const V8_EVAL: &str = r"(?:^|\s)at .*\(eval at .*?\((.+?):([0-9]+):([0-9]+)\)";
/// V8, outside of functions, or in one without a name: `at bundle.js:1:2`. Or in a function: `at f (bundle.js:1:2)`; in Hermes
/// `at f (address at bundle:1:2)`. Or a component of React: `in App (at bundle.js:1:2)`. Anything may be before and behind.
const V8: &str =
    r"(?:^|\s)at (?:async )?((?:\S|\s[^(\s])+?):([0-9]+):([0-9]+)(?:[\s,;]|$)|(?:^|\s)(?:at (?:.*?\s)?\((?:address at )?|in (?:.*?\s)?\(at )((?:[^()]|\([^()]*\))+?):([0-9]+):([0-9]+)\)";
/// V8, where one frame is all of a line: the file of a call may have any brackets, and that of a bare place too.
const V8_CALL: &str = r"^\s*at .*?\((.+):([0-9]+):([0-9]+)\)$";

const V8_BARE: &str = r"^\s*at (?:async )?(.+):([0-9]+):([0-9]+)$";
/// Vitest: `❯ f bundle.js:1:2`.
const VITEST: &str = r"❯ (?:.*\s)?(\S+):([0-9]+):([0-9]+)$";
/// Firefox and Safari: `f@bundle.js:1:2`. A name has no `@` and no `:/`.
const AT_SIGN: &str = r"^\s*(?:[^@:]|:[^/@])*@(.+):([0-9]+):([0-9]+)$";
/// Safari, outside of functions: the place alone, as a URL or a path from the root.
const PLACE: &str =
    r"(?:^|\s)((?:[a-zA-Z][a-zA-Z0-9+.-]+://|/|[a-zA-Z]:[\\/])\S*):([0-9]+):([0-9]+)$";

/// Frames of these forms name no position that has a map; the reasons are in the same order.
const ELSEWHERE: [(&str, &str); 5] = [
    (r"(?:\(|at |@)(?:node:|internal/)", "code of Node itself"),
    (
        r" line [0-9]+ > (?:eval|Function)",
        "Firefox gives no column of the code that calls eval",
    ),
    (
        r"\[native code\]|\((?:native|<anonymous>)\)$|^\s*at (?:native|<anonymous>)$",
        "code of the engine itself",
    ),
    (
        r"^\s*at (?:.* \()?(?:wasm://|.*wasm-function\[)",
        "code of WebAssembly",
    ),
    (
        r"^\s*at .*[^0-9:]:[0-9]+\)?$|@.*[^0-9:]:[0-9]+$",
        "no column is given",
    ),
];

/// Replaces a byte that is not UTF-8.
pub const NO_TEXT: char = '\0';

/// The place that a frame names: bytes `start` to `end` of its line, which are the name of a file, a line and a column.
#[derive(Drop)]
pub struct Named {
    pub start: usize,
    pub end: usize,
    pub file: String,
    /// As they are printed: the line from 1, the column from 1 too, but in bytecode from 0.
    pub line: u32,
    pub column: u32,
    /// Whether it is a place of bytecode.
    pub is_bytecode: bool,
    /// The strings that it is in.
    pub nesting: Nesting,
    /// How it names its function; None if it is of no form that names the function of the place.
    pub calling: Option<Calling>,
}

/// What a line of a stack trace or of a log names.
#[derive(Drop)]
pub struct Line {
    /// From left to right.
    pub frames: Vec<Named>,
    /// Why the frame of the line has no place that could be resolved.
    pub elsewhere: Option<&'static str>,
}

/// The patterns of frames, compiled.
#[derive(Drop)]
pub struct Patterns {
    eval: Vec<Regex>,
    v8: Vec<Regex>,
    whole: Vec<Regex>,
    others: Vec<Regex>,
    elsewhere: Vec<Regex>,
}

fn compile_patterns(alloc: Global, patterns: &[&str]) -> Outcome<Vec<Regex>> {
    let mut all = Vec::new(alloc);
    for pattern in patterns {
        match Regex::new(alloc, pattern) {
            Ok(regex) => all.push(regex)?,
            Err(error) => return Err(failure_of(alloc, pattern, error)),
        }
    }
    Ok(all)
}

impl Patterns {
    pub fn new(alloc: Global) -> Outcome<Patterns> {
        let [node, eval, engine, wasm, column] = ELSEWHERE;
        Ok(Patterns {
            eval: compile_patterns(alloc, &[V8_EVAL])?,
            v8: compile_patterns(alloc, &[V8])?,
            whole: compile_patterns(alloc, &[V8_CALL, V8_BARE])?,
            others: compile_patterns(alloc, &[VITEST, AT_SIGN, PLACE])?,
            elsewhere: compile_patterns(alloc, &[node.0, eval.0, engine.0, wasm.0, column.0])?,
        })
    }

    /// Makes the finder of the places that these patterns match.
    pub fn finder(&self, alloc: Global) -> Result<Finder<'_>, AllocError> {
        Ok(Finder {
            eval: matchers(alloc, self.eval.as_slice())?,
            v8: matchers(alloc, self.v8.as_slice())?,
            whole: matchers(alloc, self.whole.as_slice())?,
            others: matchers(alloc, self.others.as_slice())?,
            elsewhere: matchers(alloc, self.elsewhere.as_slice())?,
        })
    }
}

fn matchers<'r>(alloc: Global, regexes: &'r [Regex]) -> Result<Vec<Matcher<'r>>, AllocError> {
    let mut all = Vec::new(alloc);
    for regex in regexes {
        all.push(regex.matcher(alloc)?)?;
    }
    Ok(all)
}

/// Finds the places that lines name.
#[derive(Drop)]
pub struct Finder<'r> {
    eval: Vec<Matcher<'r>>,
    v8: Vec<Matcher<'r>>,
    whole: Vec<Matcher<'r>>,
    others: Vec<Matcher<'r>>,
    elsewhere: Vec<Matcher<'r>>,
}

/// A place in a text: where it begins and ends, and what it names.
#[derive(Clone, Copy)]
struct Spot<'t> {
    start: usize,
    end: usize,
    file: &'t str,
    /// None if they are too large.
    numbers: Option<(u32, u32)>,
}

/// The place of a frame that a pattern matches, whose file is this group of it.
fn spot_of<'t>(found: &Captures<'_, 't>, group: usize) -> Option<Spot<'t>> {
    let file = found.get(group)?;
    let line = found.get(group.checked_add(1)?)?;
    let column = found.get(group.checked_add(2)?)?;
    let numbers = match (line.as_str().parse(), column.as_str().parse()) {
        (Ok(line), Ok(column)) => Some((line, column)),
        _ => None,
    };
    Some(Spot {
        start: file.start(),
        end: column.end(),
        file: file.as_str(),
        numbers,
    })
}

fn find<'t>(matchers: &mut Vec<Matcher<'_>>, text: &'t str) -> Option<Spot<'t>> {
    for matcher in matchers.iter_mut() {
        let Some(found) = matcher.captures(text) else {
            continue;
        };
        let spot = match spot_of(&found, 1) {
            Some(spot) => Some(spot),
            None => spot_of(&found, 4),
        };
        if spot.is_some() {
            return spot;
        }
    }
    None
}

/// Whether a name in a frame is that of a file: engines put others in angle or square brackets, and a number is that of a clock.
fn is_file_name(name: &str) -> bool {
    let is_engine = name.starts_with('<') || name.starts_with('[');
    let is_node = name.starts_with("node:") || name.starts_with("internal/");
    let is_place = name.starts_with("eval at ") || name.contains(" > ");
    let is_text = name.chars().any(|ch| ch.is_alphabetic()) && !name.contains(NO_TEXT);
    !is_engine && !is_node && !is_place && is_text
}

/// Whether a name behind other words is that of a file: it is a path, and no clock time. One with spaces begins as paths do.
fn is_path(name: &str) -> bool {
    let is_root = name.starts_with('/') || name.get(1..2) == Some(":") || name.contains("://");
    let has_part = name.contains(['.', '/', '\\'].as_slice());
    is_root || has_part && !name.contains(' ')
}

/// A line without what may follow a frame: white space, and the bracket of the properties of an error.
fn body_of(text: &str) -> &str {
    let body = text.trim_end();
    match body.strip_suffix('{') {
        Some(rest) => rest.trim_end(),
        None => body,
    }
}

/// What to do with a part of a text. A number is how many frames were found before.
#[derive(Clone, Copy)]
enum Step {
    /// Search the rows of a string.
    Open { is_single: bool },
    /// Search the strings in double quotes of a row.
    Double,
    /// Search those in single quotes, if no frame was found in the others.
    Single(usize),
    /// Search the row itself, if no frame was found in its strings.
    Itself(usize),
}

/// Bytes `start` to `end` of the text at a depth, which are the inside of a string or a row.
#[derive(Clone, Copy)]
struct Part {
    depth: usize,
    start: usize,
    end: usize,
    step: Step,
}

/// The search for the frames of a line. A string is searched whole before what is behind it, so one text at each depth is enough.
#[derive(Drop)]
struct Search {
    /// The line, a string of it, a string of that, and so on.
    views: Vec<View>,
    /// The parts to search, the next one at the end.
    parts: Vec<Part>,
    frames: Vec<Named>,
}

impl Search {
    fn new(alloc: Global, view: View) -> Result<Search, AllocError> {
        let mut parts = Vec::new(alloc);
        parts.push(Part {
            depth: 0,
            start: 0,
            end: view.text.len(),
            step: Step::Double,
        })?;
        let mut views = Vec::new(alloc);
        views.push(view)?;
        Ok(Search {
            views,
            parts,
            frames: Vec::new(alloc),
        })
    }

    /// The text of a part.
    fn text(&self, part: Part) -> &str {
        let Some(view) = self.views.get(part.depth) else {
            return "";
        };
        view.text.as_str().get(part.start..part.end).unwrap_or("")
    }

    /// Schedules the search of a row, unless it has no colon, and so no frame.
    fn add_row(&mut self, row: &str, depth: usize, start: usize) -> Result<(), AllocError> {
        if !row.contains(':') {
            return Ok(());
        }
        self.parts.push(Part {
            depth,
            start,
            end: start.saturating_add(row.len()),
            step: Step::Double,
        })?;
        Ok(())
    }

    /// Opens a string: its rows are searched next, the first one first. One that is too deep stays closed.
    fn open(&mut self, alloc: Global, part: Part, is_single: bool) -> Result<(), AllocError> {
        let Some(view) = self.views.get(part.depth) else {
            return Ok(());
        };
        let Some(inner) = View::of_string(alloc, view, (part.start, part.end), is_single)? else {
            return Ok(());
        };
        let inner = inner.without_codes(alloc)?;
        let depth = part.depth.saturating_add(1);
        let mut end = inner.text.len();
        for row in inner.text.as_str().rsplit('\n') {
            let start = end.saturating_sub(row.len());
            self.add_row(row, depth, start)?;
            end = start.saturating_sub(1);
        }
        self.views.truncate(depth);
        self.views.push(inner)?;
        Ok(())
    }

    /// Schedules the opening of the strings of a row, the first one first.
    fn add_strings(
        &mut self,
        row: Part,
        strings: Vec<(usize, usize)>,
        is_single: bool,
    ) -> Result<(), AllocError> {
        let mut strings = strings;
        for _ in 0..strings.len() {
            if let Some((start, end)) = strings.pop() {
                self.parts.push(Part {
                    depth: row.depth,
                    start: row.start.saturating_add(start),
                    end: row.start.saturating_add(end),
                    step: Step::Open { is_single },
                })?;
            }
        }
        Ok(())
    }
}

/// The strings of a row that may have frames: none if none of them has a colon.
fn strings_of(
    alloc: Global,
    row: &str,
    is_single: bool,
) -> Result<Vec<(usize, usize)>, AllocError> {
    let strings = if is_single {
        single_strings(alloc, row)?
    } else {
        json_strings(alloc, row)?
    };
    let has_colon = strings.iter().any(|(start, end)| row
        .get(*start..*end)
        .unwrap_or("")
        .contains(':'));
    Ok(if has_colon { strings } else { Vec::new(alloc) })
}

/// Whether a place is one of a row that can be distinguished from the text around it.
fn is_in_row(text: &str, spot: &Spot<'_>) -> bool {
    let front = text.get(..spot.start).unwrap_or("");
    is_whole_front(front) && is_whole(text.get(spot.end..).unwrap_or(""))
}

/// The places of a text, from left to right.
#[derive(Drop)]
struct Spots<'t> {
    all: Vec<Spot<'t>>,
}

impl<'t> Spots<'t> {
    /// Adds a place of the part of the text that begins at `from`.
    fn add(&mut self, spot: Spot<'t>, from: usize) -> Result<(), AllocError> {
        if spot.numbers.is_some() {
            self.all.push(Spot {
                start: spot.start.saturating_add(from),
                end: spot.end.saturating_add(from),
                ..spot
            })?;
        }
        Ok(())
    }
}

impl<'r> Finder<'r> {
    fn elsewhere(&mut self, line: &str) -> Option<&'static str> {
        for (matcher, (_, why)) in self.elsewhere.iter_mut().zip(ELSEWHERE.iter()) {
            if matcher.is_match(line) {
                return Some(*why);
            }
        }
        None
    }

    /// Adds the places of V8's frames in a text, from left to right.
    fn add_v8<'t>(&mut self, text: &'t str, spots: &mut Spots<'t>) -> Result<(), AllocError> {
        let mut from = 0usize;
        for _ in 0..text.len() {
            let rest = text.get(from..).unwrap_or("");
            let Some(spot) = find(&mut self.v8, rest) else {
                break;
            };
            let front = rest.get(..spot.start).unwrap_or("");
            let is_first = matches!(front.trim(), "at" | "at async");
            if is_file_name(spot.file) && (is_first || front.ends_with('(') || is_path(spot.file)) {
                spots.add(spot, from)?;
            }
            from = from.saturating_add(spot.end);
        }
        Ok(())
    }

    /// Adds the place that is found by patterns of a whole text.
    fn add_one<'t>(
        matchers: &mut Vec<Matcher<'r>>,
        text: &'t str,
        spots: &mut Spots<'t>,
    ) -> Result<(), AllocError> {
        if let Some(spot) = find(matchers, text)
            && is_file_name(spot.file)
        {
            spots.add(spot, 0)?;
        }
        Ok(())
    }

    /// The places that a text names which is one line.
    fn spots<'t>(&mut self, alloc: Global, text: &'t str) -> Result<Vec<Spot<'t>>, AllocError> {
        let mut spots = Spots {
            all: Vec::new(alloc),
        };
        let body = body_of(text);
        if body.contains("(eval at ") {
            Finder::add_one(&mut self.eval, text, &mut spots)?;
        } else {
            self.add_v8(text, &mut spots)?;
        }
        if !spots.all.is_empty() {
            return Ok(spots.all);
        }
        if body.trim_start().starts_with("at ") {
            Finder::add_one(&mut self.whole, body, &mut spots)?;
        } else {
            Finder::add_one(&mut self.others, body, &mut spots)?;
        }
        Ok(spots.all)
    }

    /// Adds the frames of a row of a view, which begins at `from`.
    fn add_frames(
        &mut self,
        alloc: Global,
        view: &View,
        (from, part): (usize, &str),
        frames: &mut Vec<Named>,
    ) -> Result<(), AllocError> {
        let spots = self.spots(alloc, part)?;
        let row = match spots.as_slice() {
            [spot] if is_in_row(part, spot) => Some((from, from.saturating_add(part.len()))),
            _ => None,
        };
        let mut behind = 0usize;
        for spot in &spots {
            let Some((line, column)) = spot.numbers else {
                continue;
            };
            let begin = from.saturating_add(spot.start);
            let (start, end) = view.place(begin, from.saturating_add(spot.end));
            let front = part.get(behind..spot.start).unwrap_or("");
            let front = (from.saturating_add(behind), front);
            behind = spot.end;
            frames.push(Named {
                start,
                end,
                file: String::from_str(alloc, spot.file)?,
                line,
                column,
                is_bytecode: front.1.ends_with("(address at "),
                nesting: view.nesting,
                calling: calling_of(view, front, from.saturating_add(spot.end), row),
            })?;
        }
        Ok(())
    }

    /// Schedules the search of the strings of a row, if it may be JSON, or names no frame without them; then `next`.
    fn search_strings(
        &mut self,
        alloc: Global,
        search: &mut Search,
        (row, next): (Part, Step),
        is_single: bool,
    ) -> Result<(), AllocError> {
        search.parts.push(Part { step: next, ..row })?;
        let text = search.text(row);
        let strings = strings_of(alloc, text, is_single)?;
        if strings.is_empty() || !is_single && are_singles_outside(alloc, text)? {
            return Ok(());
        }
        if is_single || !may_be_json(text) {
            let around = without_strings(alloc, text, strings.as_slice())?;
            if !self.spots(alloc, around.as_str())?.is_empty() {
                return Ok(());
            }
        }
        search.add_strings(row, strings, is_single)
    }

    /// Adds the frames of a row.
    fn search_row(
        &mut self,
        alloc: Global,
        search: &mut Search,
        row: Part,
    ) -> Result<(), AllocError> {
        let Some(view) = search.views.get(row.depth) else {
            return Ok(());
        };
        let text = view.text.as_str().get(row.start..row.end).unwrap_or("");
        self.add_frames(alloc, view, (row.start, text), &mut search.frames)
    }

    /// Takes the step of a part. If frames were found in the strings of a row, nothing else of the row is searched.
    fn search(&mut self, alloc: Global, search: &mut Search, part: Part) -> Result<(), AllocError> {
        let count = search.frames.len();
        match part.step {
            Step::Open { is_single } => search.open(alloc, part, is_single),
            Step::Double => self.search_strings(alloc, search, (part, Step::Single(count)), false),
            Step::Single(found) if count == found => {
                self.search_strings(alloc, search, (part, Step::Itself(found)), true)
            }
            Step::Itself(found) if count == found => self.search_row(alloc, search, part),
            Step::Single(_) | Step::Itself(_) => Ok(()),
        }
    }

    /// What a line names. The text has `NO_TEXT` for each byte that is no text.
    pub fn read(&mut self, alloc: Global, line: &str) -> Result<Line, AllocError> {
        let view = View::of_line(alloc, line)?.without_codes(alloc)?;
        let mut search = Search::new(alloc, view)?;
        for _ in 0..u64::MAX {
            let Some(part) = search.parts.pop() else {
                break;
            };
            self.search(alloc, &mut search, part)?;
        }
        let elsewhere = match search.views.first() {
            Some(view) if search.frames.is_empty() => {
                self.elsewhere(body_of(view.text.as_str()))
            }
            _ => None,
        };
        Ok(Line {
            frames: search.frames,
            elsewhere,
        })
    }
}
