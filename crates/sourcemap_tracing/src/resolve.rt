//! `resolve`: resolves the frames of a stack trace, line by line.
use crate::context::{Contents, Place};
use crate::counts::Count;
use crate::lines::{LineRead, push_led, push_line_object, push_notes};
use crate::maps::Maps;
use crate::source_frames::{LedFrame, PLAIN, function_in};
use bumpalo::Bump;
use oxc_sourcemap_tokens::Position;
use sourcemap_files::{Asked, Status, print_bytes, shown_name};
use sourcemap_run::{Answer, Paint, answer_to, text_of};
use sourcemap_words::{Finder, Outcome, Patterns, file_failure};
use std::io::{BufRead, BufReader, IsTerminal, Read};
use std::{env, fs};

/// What is written at once.
const MUCH: usize = 65536;

/// How lines are printed.
#[derive(Clone, Copy)]
enum Form {
    Lines(Paint<'static>),
    Explained(Paint<'static>),
    Objects,
}

/// A line that was read, which waits for the one behind it.
#[derive(Drop)]
struct Waiting {
    bytes: Vec<u8>,
    read: LineRead,
}

/// Resolves lines.
#[derive(Drop)]
struct Resolver<'a, 'm, 'r> {
    asked: &'a Asked<'a, 'm>,
    finder: Finder<'r>,
    maps: Maps,
    form: Form,
    /// The lines around originals, if they are asked for.
    contents: Option<Contents<'a>>,
    hides_ignored: bool,
    waiting: Option<Waiting>,
    count: Count,
    out: Vec<u8>,
}

/// The colour of what was resolved: on a terminal, unless NO_COLOR is set.
fn paint_of(rt: &HostRuntime) -> Paint<'static> {
    let is_plain = match env::var(rt, "NO_COLOR") {
        Ok(value) => !value.is_empty(),
        Err(_) => false,
    };
    if is_plain || !rt.stdout().is_terminal() {
        return PLAIN;
    }
    Paint {
        before: "\u{1b}[36m",
        after: "\u{1b}[0m",
    }
}

fn form_of(asked: &Asked<'_, '_>) -> Form {
    if asked.has("json") {
        return Form::Objects;
    }
    let paint = paint_of(asked.rt);
    if asked.has("explain") {
        Form::Explained(paint)
    } else {
        Form::Lines(paint)
    }
}

/// Appends the lines around the original of a frame.
fn push_context(
    asked: &Asked<'_, '_>,
    maps: &Maps,
    contents: &mut Contents<'_>,
    frame: &LedFrame,
    out: &mut String,
) -> Outcome<()> {
    let Some(target) = frame.led.target else {
        return Ok(());
    };
    let Answer::At(spot) = answer_to(maps.tracers.as_slice(), Some(target)) else {
        return Ok(());
    };
    let (Some(source_id), Some(folder)) = (maps.source_id(target), maps.folders.get(target.map))
    else {
        return Ok(());
    };
    let place = Place {
        map: target.map,
        source_id,
        folder: folder.as_str(),
        source: spot.source,
        content: spot.content,
        position: Position {
            line: spot.line,
            column: spot.column,
        },
    };
    contents.push(asked, &maps.source_names, &place, out)
}

impl<'a, 'm, 'r> Resolver<'a, 'm, 'r> {
    /// What a line names, and the results for its frames.
    fn read(&mut self, line: &[u8]) -> Outcome<LineRead> {
        let alloc = self.asked.alloc();
        let text = text_of(alloc, line)?;
        let is_text = text.as_str().as_bytes() == line;
        let found = self.finder.read(alloc, text.as_str())?;
        let mut frames = Vec::new(alloc);
        for named in found.frames {
            let function = function_in(text.as_str(), &named);
            let led = self.maps.lead(self.asked, &named, function)?;
            frames.push(LedFrame::new(text.as_str(), named, led, self.hides_ignored))?;
        }
        let mut read = LineRead {
            text,
            is_text,
            frames,
            elsewhere: found.elsewhere,
        };
        read.name_by_callers(&self.maps);
        Ok(read)
    }

    /// Appends the lines around the originals of frames, if they are asked for. Below a frame in a string there is no room for any.
    fn push_contexts(&mut self, read: &LineRead) -> Outcome<()> {
        let Some(contents) = &mut self.contents else {
            return Ok(());
        };
        let mut text = String::new(self.asked.alloc());
        for frame in &read.frames {
            if frame.led.stay.is_none() && !frame.named.nesting.is_in_string() {
                push_context(self.asked, &self.maps, contents, frame, &mut text)?;
            }
        }
        Ok(self.out.extend_from_slice(text.as_bytes())?)
    }

    /// Appends a line, and what is asked for below it.
    fn push_lines(&mut self, line: &[u8], read: &LineRead, paint: Paint<'_>) -> Outcome<()> {
        if read.is_left_out() {
            return Ok(());
        }
        push_led(
            self.asked.alloc(),
            &self.maps,
            line,
            read,
            paint,
            &mut self.out,
        )?;
        self.out.push(b'\n')?;
        self.push_contexts(read)
    }

    /// Answers for a line, which has no line feed.
    fn answer(&mut self, line: &[u8], read: &LineRead) -> Outcome<()> {
        let alloc = self.asked.alloc();
        read.count(&mut self.count);
        match self.form {
            Form::Objects => {
                push_line_object(alloc, &self.maps, line, read, &mut self.out)?;
                Ok(self.out.push(b'\n')?)
            }
            Form::Lines(paint) => self.push_lines(line, read, paint),
            Form::Explained(paint) => {
                self.push_lines(line, read, paint)?;
                push_notes(alloc, read, &mut self.out)
            }
        }
    }

    /// Answers for the line that waits, if one does.
    fn release(&mut self) -> Outcome<()> {
        match self.waiting.take() {
            Some(waiting) => self.answer(waiting.bytes.as_slice(), &waiting.read),
            None => Ok(()),
        }
    }

    /// Takes a line, which has no line feed: answers for it, or has it wait.
    fn take(&mut self, line: &[u8]) -> Outcome<()> {
        let read = self.read(line)?;
        if let Some(waiting) = &mut self.waiting {
            waiting.read.name_by_next(&self.maps, &read);
        }
        self.release()?;
        if !read.waits_for_caller() {
            return self.answer(line, &read);
        }
        let mut bytes = Vec::new(self.asked.alloc());
        bytes.extend_from_slice(line)?;
        self.waiting = Some(Waiting { bytes, read });
        Ok(())
    }

    /// Prints what is answered so far.
    fn flush(&mut self) -> Outcome<()> {
        print_bytes(self.asked.rt, self.out.as_slice())?;
        self.out.clear();
        Ok(())
    }

    /// Answers for each line of an input as it comes: before more is waited for, what was read is answered. Only a line whose function
    /// the next one may name waits for that, of a stream no longer than up to its first bytes.
    fn answer_all<R: Read + Drop>(
        &mut self,
        mut reader: BufReader<R>,
        is_stream: bool,
    ) -> Outcome<()> {
        let alloc = self.asked.alloc();
        let mut line = Vec::new(alloc);
        for _ in 0..u64::MAX {
            if is_stream && reader.buffer().is_empty() {
                self.release()?;
            }
            if self.out.len() > MUCH || !reader.buffer().contains(&b'\n') {
                self.flush()?;
            }
            line.clear();
            match reader.read_until(b'\n', &mut line) {
                Ok(0) => break,
                Ok(_) => {}
                Err(error) => {
                    let name = shown_name(self.asked.word("TRACE"));
                    return Err(file_failure(alloc, name, error));
                }
            }
            let bytes = line.as_slice();
            self.take(bytes.strip_suffix(b"\n").unwrap_or(bytes))?;
        }
        self.release()?;
        self.flush()
    }

    /// Reads the file or the standard input.
    fn run(&mut self) -> Outcome<()> {
        let (rt, alloc) = (self.asked.rt, self.asked.alloc());
        let path = self.asked.word("TRACE");
        if path == "-" {
            return match BufReader::new(alloc, rt.stdin()) {
                Ok(reader) => self.answer_all(reader, true),
                Err(error) => Err(file_failure(alloc, path, error)),
            };
        }
        let opened = fs::open(rt, path).and_then(|file| BufReader::new(alloc, file));
        match opened {
            Ok(reader) => self.answer_all(reader, false),
            Err(error) => Err(file_failure(alloc, path, error)),
        }
    }
}

/// Runs the command `resolve`.
pub fn run(asked: &Asked<'_, '_>) -> Outcome<Status> {
    let alloc = asked.alloc();
    let patterns = Patterns::new(alloc)?;
    let texts = Bump::new(alloc);
    let mut resolver = Resolver {
        asked,
        finder: patterns.finder(alloc)?,
        maps: Maps::new(asked)?,
        form: form_of(asked),
        contents: Contents::new(asked, &texts, 1),
        hides_ignored: asked.has("hide-ignored"),
        waiting: None,
        count: Count::NONE,
        out: Vec::new(alloc),
    };
    resolver.run()?;
    if !asked.has("json") && !asked.has("quiet") {
        resolver.count.tell(asked)?;
    }
    Ok(Status::of(resolver.count.resolved > 0))
}
