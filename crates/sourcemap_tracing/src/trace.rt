//! `trace`: what generated positions come from.
use crate::context::{Contents, Place};
use crate::positions::{position_of_line, positions_in};
use crate::reading::read_parts;
use crate::reversing::push_reversed;
use bumpalo::Bump;
use oxc_sourcemap_map::{SourceIndex, SourceMap, parts_of};
use oxc_sourcemap_parts::SourceMapParts;
use oxc_sourcemap_tokens::Position;
use sourcemap_files::{Asked, SourceNames, Status, first_sources, map_of_file, print, tell, usage};
use sourcemap_run::{Answer, Bias, Style, Tracer, push_answer, push_answers};
use sourcemap_texts::source_position_of;
use sourcemap_words::{Failure, Outcome, failure_of, file_failure};
use std::io::{BufRead, BufReader};

fn bias_of(asked: &Asked<'_, '_>) -> Outcome<Bias> {
    match (asked.has("clamped"), asked.has("upper")) {
        (true, true) => Err(usage(asked.rt, "--clamped and --upper exclude one another")),
        (true, false) => Ok(Bias::Clamped),
        (false, true) => Ok(Bias::After),
        (false, false) => Ok(Bias::Before),
    }
}

/// Whether the positions are the lines of standard input.
fn reads_lines(asked: &Asked<'_, '_>) -> Outcome<bool> {
    let words = asked.words("POSITION")?;
    Ok(matches!(words.as_slice(), [] | ["-"]))
}

/// Whether the map has an original for some position.
fn finds_any(tracer: &Tracer, positions: &[Position], bias: Bias) -> bool {
    positions.iter().any(|position| matches!(tracer.answer(*position, bias), Answer::At(_)))
}

/// A map that was read, and how its sources are named.
#[derive(Drop)]
struct Source {
    names: SourceNames,
    /// The folder that its sources are relative to.
    folder: String,
}

/// What answers positions.
#[derive(Drop)]
struct Answers<'a, 'm> {
    asked: &'a Asked<'a, 'm>,
    tracer: &'a Tracer,
    source: &'a Source,
    style: Style,
    /// The lines around positions, if they are asked for.
    contents: Option<Contents<'a>>,
    /// Whether the map had an original for some position.
    is_found: bool,
}

impl<'a, 'm> Answers<'a, 'm> {
    /// Appends the lines around what a position comes from.
    fn push_context(&mut self, position: Position, out: &mut String) -> Outcome<()> {
        let (tracer, bias) = (self.tracer, self.style.bias);
        let Answer::At(spot) = tracer.answer(position, bias) else {
            return Ok(());
        };
        let id = tracer
            .token(position, bias)
            .and_then(|token| token.get_source_id());
        let (Some(contents), Some(source_id)) = (&mut self.contents, id) else {
            return Ok(());
        };
        let place = Place {
            map: 0,
            source_id,
            folder: self.source.folder.as_str(),
            source: spot.source,
            content: spot.content,
            position: Position {
                line: spot.line,
                column: spot.column,
            },
        };
        contents.push(self.asked, &self.source.names, &place, out)
    }

    /// Prints the answers for positions.
    fn print(&mut self, rt: &HostRuntime, positions: &[Position]) -> Outcome<()> {
        let (alloc, tracer, style) = (rt.alloc(), self.tracer, self.style);
        let mut out = String::new(alloc);
        if self.contents.is_none() {
            push_answers(alloc, tracer, positions, style, &mut out)?;
        } else {
            for position in positions {
                push_answer(alloc, tracer, *position, style, &mut out)?;
                self.push_context(*position, &mut out)?;
            }
        }
        self.is_found |= finds_any(tracer, positions, style.bias);
        print(rt, out.as_str())
    }

    /// Prints the answer for a line without a position, so that each line of the input has one.
    fn print_none(&self, rt: &HostRuntime) -> Outcome<()> {
        print(rt, if self.style.json { "{}\n" } else { "\n" })
    }

    /// Prints the answer for a line of standard input. Returns whether it has a position or is empty; reports any other line.
    fn print_line(&mut self, rt: &HostRuntime, line: &[u8], number: usize) -> Outcome<bool> {
        let base = u32::from(self.style.base);
        match position_of_line(rt.alloc(), line, number, base) {
            Ok(Some(position)) => {
                self.print(rt, &[position])?;
                Ok(true)
            }
            Ok(None) => {
                self.print_none(rt)?;
                Ok(true)
            }
            Err(Failure::Told(message)) => {
                tell(rt, message.as_str());
                self.print_none(rt)?;
                Ok(false)
            }
            Err(failure) => Err(failure),
        }
    }

    /// Prints the answers for the lines of standard input, each as it comes. Fails at the end if some were no positions.
    fn print_lines(&mut self, rt: &HostRuntime) -> Outcome<()> {
        let alloc = rt.alloc();
        let mut bad = 0u64;
        let reader = match BufReader::new(alloc, rt.reader()) {
            Ok(reader) => reader,
            Err(error) => return Err(file_failure(alloc, "standard input", error)),
        };
        for (i, line) in reader.split(alloc, b'\n').enumerate() {
            let line = match line {
                Ok(line) => line,
                Err(error) => return Err(file_failure(alloc, "standard input", error)),
            };
            if !self.print_line(rt, line.as_slice(), i.saturating_add(1))? {
                bad = bad.saturating_add(1);
            }
        }
        if bad == 0 {
            return Ok(());
        }
        let lines = if bad == 1 { "line is" } else { "lines are" };
        let text = format!(in alloc; "{bad} {lines} no position, see above")?;
        Err(failure_of(alloc, "standard input", text.as_str()))
    }
}

/// The id of a source: the one that the map names so, or that answers name so, else the only one whose path in the map ends so.
fn source_id(source: &Source, map: &SourceMap<'_>, path: &str) -> Outcome<Option<u32>> {
    let mut found = None;
    let mut count = 0u32;
    for (id, own) in map.get_sources().enumerate() {
        let is_named = source.names.name(source.folder.as_str(), own)?.as_str() == path;
        if own == path || is_named {
            return Ok(u32::try_from(id).ok());
        }
        let before = own.strip_suffix(path).unwrap_or("");
        if before.ends_with('/') {
            found = u32::try_from(id).ok();
            count = count.saturating_add(1);
        }
    }
    Ok(if count == 1 { found } else { None })
}

/// `trace --reverse`.
fn reverse(
    asked: &Asked<'_, '_>,
    held: &Source,
    map: &SourceMap<'_>,
    style: Style,
) -> Outcome<Status> {
    let alloc = asked.alloc();
    let index = SourceIndex::new(alloc, map)?;
    let mut out = String::new(alloc);
    let mut status = Status::Nothing;
    let words = asked.words("reverse")?;
    for word in &words {
        let Some((source, position)) = source_position_of(word, u32::from(style.base)) else {
            return Err(failure_of(
                alloc,
                word,
                "is no original position: write SOURCE:LINE:COLUMN",
            ));
        };
        let Some(id) = source_id(held, map, source)? else {
            let sources = first_sources(alloc, parts_of(map).sources.as_slice())?;
            let why = format!(in alloc;
                "is no source of the map, or the end of several; the sources are {sources}"
            )?;
            return Err(failure_of(alloc, source, why.as_str()));
        };
        if push_reversed(alloc, &index, id, source, position, style, &mut out)? {
            status = Status::Found;
        }
    }
    print(asked.rt, out.as_str())?;
    Ok(status)
}

fn style_of(asked: &Asked<'_, '_>) -> Outcome<Style> {
    Ok(Style {
        bias: bias_of(asked)?,
        base: u8::from(asked.has("one-based")),
        json: asked.has("json"),
    })
}

/// `trace` without `--reverse`.
fn forward(
    asked: &Asked<'_, '_>,
    source: &Source,
    parts: SourceMapParts<'static>,
    style: Style,
) -> Outcome<Status> {
    let alloc = asked.alloc();
    let tracer = Tracer::new(alloc, parts)?;
    let texts = Bump::new(alloc);
    let mut answers = Answers {
        asked,
        tracer: &tracer,
        source,
        style,
        contents: Contents::new(asked, &texts, style.base),
        is_found: false,
    };
    if reads_lines(asked)? {
        answers.print_lines(asked.rt)?;
    } else {
        let words = asked.words("POSITION")?;
        let positions = positions_in(alloc, words.as_slice(), u32::from(style.base))?;
        answers.print(asked.rt, positions.as_slice())?;
    }
    Ok(Status::of(answers.is_found))
}

/// Runs the command `trace`.
pub fn run(asked: &Asked<'_, '_>) -> Outcome<Status> {
    let style = style_of(asked)?;
    let is_forward = asked.words("reverse")?.is_empty();
    if is_forward && asked.word("MAP") == "-" && reads_lines(asked)? {
        return Err(usage(
            asked.rt,
            "standard input is the map: give positions as arguments, or name the map, and standard input has them",
        ));
    }
    let text = map_of_file(asked.rt, asked.word("MAP"), asked.places())?;
    let (mut parts, _) = read_parts(asked, &text)?;
    let source = Source {
        names: SourceNames::new(asked)?,
        folder: text.folder,
    };
    if is_forward {
        source.names.rename(source.folder.as_str(), &mut parts)?;
        forward(asked, &source, parts, style)
    } else {
        reverse(asked, &source, &SourceMap::from_parts(parts), style)
    }
}
